// The turnstile: the steps on its table, and the turns that they make.
ghost use Rattle.std.specs.Prelude.{◌≡◌, ℕ, ◌<◌, ◌≤◌, ◌↔◌, List, [], ◌∷◌, length, vec_capacity, IsErr, IfOk, IfErr, MatchResult, Some, None};
ghost use Rattle.qm_turn.specs.declared.view.Phase.TheVariants.{Rests, Waits, Served};
ghost use Rattle.qm_turn.specs.Turns.{all_fresh, IsLast, Turned, Heard, Joined, Closed};
ghost use Rattle.qm_turn.specs.Rule.{most, first_view, in_phase, after_turn, HasTurn, Ran, StandsBehind};

use crate::pass::{Pass, PassOf, TurnsSpent};
use crate::rule::{Draw, Look, News, NextNumber, Noted, Order, PassOn, Together};
use crate::told::{Task, Told};
use crate::view::View;
use atomic_table::{Refused, Seat, Table};
use std::alloc::{AllocFailed, Global};
use std::array;
use std::marker::{Brand, Model};
use std::snapshot::Snapshot;
use std::sync::Wait;
use std::thread::Parker;

// The most passes, and so the most tickets that wait at a time.
const MOST_PASSES: usize = 64;

/// A value on which threads work in turns. Contracts see an `Opened`: which turnstile it is, and with how many passes it opened.
#[derive(Drop)]
pub struct Turnstile<V: Told> {
    table: Table<Option<V>, View<V::Note>, u32, Order<V>, Global>,
    // Who waits with a ticket sleeps by the bell of its number, counted around: no two that wait have the same one.
    bells: [Parker; MOST_PASSES],
}

impl<V: Told> Model for Turnstile<V> {
    ghost use Rattle.std.specs.Prelude.{◌≡◌};
    ghost use Rattle.qm_turn.specs.Turns.{Opened};

    ghost Value = { Opened };

    ghost view = { λ t. record { place = t.table.shared.table_id; passes = t.table.shared.key } };

    ghost invariant = { λ t. (t.table.shared.table_id.words ≡ 2) × (t.table.shared.table_id.slots ≡ 1) };
}

// The seat of a pass.
type Stand<V> = Seat<Option<V>, View<<V as Told>::Note>>;

// What was run, for the note that it leaves.
#[derive(Drop)]
struct Run<W, V, A> {
    task: Snapshot<W>,
    found: Snapshot<V>,
    answer: Snapshot<A>,
}

// The slot of a new table.
fn slot_with<V>(alloc: Global, value: V) -> Result<Vec<Option<V>>, V>
    ensures { MatchResult result (λ slots. slots.items ≡ Some value ∷ []) (λ back. back ≡ value) }
{
    let mut slots = Vec::new(alloc);
    match slots.push(Some(value)) {
        Ok(()) => Ok(slots),
        Err(AllocFailed { value }) => {
            slots.destroy_empty();
            match value {
                Some(back) => Err(back),
                None => unreachable!(),
            }
        }
    }
}

// The value that lies in such a slot.
fn value_in<V>(mut slots: Vec<Option<V>>) -> V
    requires { (value : V) × (slots.items ≡ Some value ∷ []) }
    ensures { slots.items ≡ Some result ∷ [] }
{
    let last = slots.pop();
    slots.destroy_empty();
    match last {
        Some(Some(value)) => value,
        Some(None) => unreachable!(),
        None => unreachable!(),
    }
}

impl<V: Told> Turnstile<V> {
    /// A turnstile over the value, and all its passes in the order of their numbers, from 0 on.
    /// Where there is no memory, the value comes back.
    pub fn open(alloc: Global, value: V, passes: u32) -> Result<(Turnstile<V>, Vec<PassOf<V>>), V>
        requires some { 1 ≤ passes }
        requires few { passes ≤ 64 }
        requires untouched { V.stands value [] }
        ensures opened { IfOk result (λ r. (r.0.passes ≡ passes) × (r.1.items ≡ all_fresh r.0.place passes)) }
        ensures refused { IfErr result (λ back. back ≡ value) }
    {
        let Ok(list) = Vec::with_capacity(alloc, passes as usize) else {
            return Err(value);
        };
        let slots = match slot_with(alloc, value) {
            Ok(slots) => slots,
            Err(back) => return Err(back),
        };
        match Table::new(alloc, &[0, 0], slots, &passes) {
            Ok((table, first)) => {
                let bells = array::from_fn(|_| Parker::new());
                let turnstile = Turnstile { table, bells };
                let list = turnstile.split(first, passes, list);
                Ok((turnstile, list))
            }
            Err(Refused { slots }) => Err(value_in(slots)),
        }
    }

    // Splits the other passes from the first one, and puts all of them into the list.
    fn split(&self, mut first: Stand<V>, passes: u32, mut list: Vec<PassOf<V>>) -> Vec<PassOf<V>>
        requires here { first.table_id ≡ self.now.place }
        requires new { first.me ≡ (first_view, []) }
        requires count { (1 ≤ passes) × (passes ≡ self.now.passes) }
        requires room { (list.items ≡ []) × (passes ≤ vec_capacity list) }
        ensures { result.items ≡ all_fresh self.now.place passes }
    {
        for _number in 1..passes {
            let seat = self.table.shared.split_seat::<NextNumber>(&mut first);
            list.push_reserved(Pass { seat, turns: 0 });
        }
        let pass = Pass {
            seat: first,
            turns: 0,
        };
        match list.insert(0, pass) {
            Ok(()) => list,
            Err(_) => unreachable!(),
        }
    }

    // Draws a ticket.
    fn draw(&self, seat: &mut Stand<V>) -> u64
        requires here { seat.old.table_id ≡ self.now.place }
        requires rests { (seat.old.me.0.phase ≡ Rests) × (seat.old.me.1 ≡ []) }
        requires room { length seat.old.me.0.mine < most }
        ensures same { (seat.new.table_id ≡ seat.old.table_id) × (seat.new.id ≡ seat.old.id) }
        ensures drawn { seat.new.me ≡ (in_phase seat.old.me.0 (Waits result), []) }
    {
        self.table.shared.fetch_add::<Draw>(seat, 1, 1)
    }

    // The bell of a ticket.
    fn bell(&self, ticket: u64) -> &Parker {
        &self.bells[ticket as usize % MOST_PASSES]
    }

    // Waits until the ticket is served, which gives the seat the value. It sleeps meanwhile, and leaves the processors to those in
    // front of it and to what they wait for.
    fn look<R: Wait>(&self, rt: &R, seat: &mut Stand<V>, ticket: u64)
        requires here { seat.old.table_id ≡ self.now.place }
        requires waits { (seat.old.me.0.phase ≡ Waits ticket) × (seat.old.me.1 ≡ []) }
        ensures same { (seat.new.table_id ≡ seat.old.table_id) × (seat.new.id ≡ seat.old.id) }
        ensures served { HasTurn V.stands ticket seat.old.me seat.new.me }
    {
        for _ in rt.forever() {
            if self.table.shared.load::<Look<V>>(seat, 0) == ticket {
                return;
            }
            self.bell(ticket).park(rt);
        }
        unreachable!()
    }

    // Takes the value out of the slot.
    fn take(&self, seat: &mut Stand<V>) -> V
        requires here { seat.old.table_id ≡ self.now.place }
        requires has { (value : V) × (seat.old.me.1 ≡ (0, Some value) ∷ []) }
        ensures same { (seat.new.table_id ≡ seat.old.table_id) × (seat.new.id ≡ seat.old.id) }
        ensures value { seat.old.me.1 ≡ (0, Some result) ∷ [] }
        ensures empty { seat.new.me ≡ (seat.old.me.0, (0, None) ∷ []) }
    {
        match self.table.shared.exchange(seat, 0, None) {
            Some(value) => value,
            None => unreachable!(),
        }
    }

    // Puts the value back, lets the next ticket be served, and wakes who has it.
    fn pass_on<J: Noted<V::Note>, W: Task<V>>(
        &self,
        seat: &mut Stand<V>,
        value: V,
        _run: Run<W, V, W::Answer>,
    )
        requires here { seat.old.table_id ≡ self.now.place }
        requires served { (ticket : ℕ) × (seat.old.me.0.phase ≡ Served ticket) }
        requires empty { seat.old.me.1 ≡ (0, None) ∷ [] }
        requires stands { StandsBehind V.stands seat.old.me.0.seen J.made value }
        ensures same { (seat.new.table_id ≡ seat.old.table_id) × (seat.new.id ≡ seat.old.id) }
        ensures passed { seat.new.me ≡ (after_turn seat.old.me.0 J.made, []) }
    {
        let was = self.table.shared.exchange(seat, 0, Some(value));
        let None = was else { unreachable!() };
        let served = self.table.shared.fetch_add::<PassOn<J>>(seat, 0, 1);
        self.bell(served.wrapping_add(1)).unpark();
    }

    // One turn of a seat that may draw a ticket.
    fn serve<W: Task<V>, R: Wait>(&self, rt: &R, seat: &mut Stand<V>, work: W) -> W::Answer
        requires here { seat.old.table_id ≡ self.now.place }
        requires rests { (seat.old.me.0.phase ≡ Rests) × (seat.old.me.1 ≡ []) }
        requires room { length seat.old.me.0.mine < most }
        ensures same { (seat.new.table_id ≡ seat.old.table_id) × (seat.new.id ≡ seat.old.id) }
        ensures ran { Ran V.stands (W.does work) (W.note work) result seat.old.me.0 seat.new.me }
    {
        let ticket = self.draw(seat);
        self.look(rt, seat, ticket);
        let mut value = self.take(seat);
        let task = Snapshot::of(&work);
        let found = Snapshot::of(&value);
        let answer = work.work(&mut value);
        let run = Run {
            task,
            found,
            answer: Snapshot::of(&answer),
        };
        self.pass_on::<Brand, W>(seat, value, run);
        answer
    }

    /// Waits for its turn, works once on the value, and answers what the work did.
    /// The pass has then seen all turns up to this one. `TurnsSpent` comes where the pass has made 4,294,967,295
    /// turns; the work isn't run then. It takes no memory beside what the work takes.
    pub fn turn<W: Task<V> + Drop, R: Wait>(
        &self,
        rt: &R,
        pass: &mut PassOf<V>,
        work: W,
    ) -> Result<W::Answer, TurnsSpent>
        requires { pass.old.place ≡ self.now.place }
        ensures turned { IfOk result (λ answer. Turned V.stands (W.does work) (W.note work) answer pass.old pass.new) }
        ensures unturned { IfErr result (λ _. pass.new ≡ pass.old) }
        ensures spent { IsErr result ↔ (length pass.old.mine ≡ most) }
    {
        if pass.turns == u32::MAX {
            return Err(TurnsSpent);
        }
        let answer = self.serve(rt, &mut pass.seat, work);
        pass.turns += 1;
        Ok(answer)
    }

    /// How many turns have ended, at least as many as the pass has seen. It waits for nobody and takes no memory.
    /// The pass has then seen all of these turns.
    pub fn news(&self, pass: &mut PassOf<V>) -> u64
        requires { pass.old.place ≡ self.now.place }
        ensures heard { Heard pass.old pass.new }
        ensures count { result ≡ length pass.new.seen }
    {
        self.table.shared.load::<News>(&mut pass.seat, 0)
    }

    /// Joins a pass into another, which has then seen what both had, and has the other's number and notes beside its own.
    /// It waits for nobody and takes no memory.
    pub fn join(&self, into: &mut PassOf<V>, other: PassOf<V>)
        requires into { into.old.place ≡ self.now.place }
        requires other { other.place ≡ self.now.place }
        ensures { Joined into.old other into.new }
    {
        self.table
            .shared
            .join_seat::<Together>(&mut into.seat, other.into_seat());
        self.table.shared.load::<News>(&mut into.seat, 0);
    }

    /// The value that the last turn left. It waits for nobody and takes no memory.
    pub fn close(self, pass: PassOf<V>) -> V
        requires here { pass.place ≡ self.place }
        requires last { IsLast self.passes pass }
        ensures { Closed V.stands self.passes pass result }
    {
        let Turnstile { table, bells: _ } = self;
        let mut closed = table.close_with(pass.into_seat());
        let slot = closed.take(0);
        closed.free();
        match slot {
            Some(value) => value,
            None => unreachable!(),
        }
    }
}
