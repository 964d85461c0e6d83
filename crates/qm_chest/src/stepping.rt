// What a call makes of what the chest works with, and how its turn is kept.
ghost use Rattle.std.specs.Prelude.{◌≡◌, ◌<◌, ◌≤◌, ◌++◌, ◌∷◌, [], true, None, IfErr, IfOk, OnOk, length, option_to_list, vec_capacity, vec_len};
ghost use Rattle.qm_history.specs.Chest.{MayLeaveNone, turns_kept};
ghost use Rattle.qm_chest.specs.Serving.{CanServe, Serving, is_step_alone, most_events, turn_made, turn_of};
ghost use Rattle.qm_chest.specs.Whole.{both};

use crate::answering::Step;
use crate::chest::{State, TURNS_KEPT};
use crate::serving::Served;
use crate::wanted::{Maker, Outcome, Wanted};
use crate::work::Work;
use core::mem::{drop, replace_with};
use qm_disk::Disk;
use qm_history::{Answer, Event, Turn};
use qm_kinds::Seq;
use qm_model::nodes_keep_their_names;
use qm_restore::site_files_are_accepted;
use std::alloc::{AllocError, Global};

impl<D: Disk> State<D> {
    /// What a call makes of it. A manager stays in its place for a step of its own, unless its record is in doubt; for every other
    /// call it is moved.
    pub(crate) fn serve(&mut self, wanted: Wanted) -> Outcome
        requires { CanServe D.meaning wanted self.old }
        ensures serving { Serving D.meaning wanted self.old self.new result }
        ensures few { length (both result.first result.second) ≤ most_events wanted self.old }
    {
        site_files_are_accepted();
        nodes_keep_their_names();
        if !self.is_step(&wanted) {
            return replace_with(self, wanted, State::moved);
        }
        let Wanted { maker, input, .. } = wanted;
        let Work::Up { manager, node } = &mut self.work else {
            unreachable!()
        };
        let step = self
            .members
            .own_step(manager, *node, maker.node, maker.moment, input, None);
        if step.is_in_doubt() {
            replace_with(&mut self.work, (), Work::let_go);
        }
        let Step { event, answer } = step;
        Outcome {
            first: event,
            second: None,
            answer,
        }
    }

    // Whether a call is a step of the manager that is up, of a node that is live.
    fn is_step(&self, wanted: &Wanted) -> bool
        requires { wanted.now.maker.node < vec_len self.now.members.names }
        ensures { result ≡ is_step_alone wanted.now self.now }
    {
        self.members.is_live(wanted.maker.node) && self.work.makes_step(&wanted.input)
    }

    /// How many events the call can have at most.
    pub(crate) fn most_events(&self, wanted: &Wanted) -> usize
        requires { wanted.now.maker.node < vec_len self.now.members.names }
        ensures { result ≡ most_events wanted.now self.now }
    {
        if self.is_step(wanted) { 1 } else { 2 }
    }

    // What a call makes of it, which moves it. (Inlined, its locals would be cleared at each step.)
    #[inline(never)]
    fn moved(self, wanted: Wanted) -> (State<D>, Outcome)
        requires { CanServe D.meaning wanted self }
        ensures { Serving D.meaning wanted self result.0 result.1 }
    {
        let State { mut members, work } = self;
        let Wanted {
            maker,
            input,
            leaves,
        } = wanted;
        let Served {
            work,
            first,
            second,
            answer,
        } = members.served(work, maker.node, maker.moment, input, leaves);
        (
            State { members, work },
            Outcome {
                first,
                second,
                answer,
            },
        )
    }
}

/// Takes the memory for one turn more, of so many events at most; or tells why there can be none.
pub(crate) fn room_for(
    alloc: Global,
    turns: &mut Vec<Turn>,
    most: usize,
) -> Result<Vec<Event>, Answer>
    requires { vec_len turns.old ≤ turns_kept }
    ensures turns { turns.new.items ≡ turns.old.items }
    ensures few { OnOk result (length turns.old.items < turns_kept) }
    ensures place { OnOk result (vec_len turns.new < vec_capacity turns.new) }
    ensures events { IfOk result (λ events. (events.items ≡ []) × (vec_capacity events ≡ most)) }
    ensures why { IfErr result (MayLeaveNone turns.old.items) }
{
    if turns.len() == TURNS_KEPT {
        return Err(Answer::HistoryFull);
    }
    let Ok(()) = turns.reserve(1) else {
        return Err(Answer::NoMemory { took: None });
    };
    match Vec::with_capacity(alloc, most) {
        Ok(events) => Ok(events),
        Err(AllocError) => Err(Answer::NoMemory { took: None }),
    }
}

/// Keeps the turn of these events, if there are any, in memory that was taken before.
#[inline(never)]
pub(crate) fn keep(
    turns: &mut Vec<Turn>,
    room: Vec<Event>,
    maker: Maker,
    first: Option<Event>,
    second: Option<Event>,
)
    requires place { vec_len turns.old < vec_capacity turns.old }
    requires empty { room.items ≡ [] }
    requires room { length (both first second) ≤ vec_capacity room }
    ensures { turns.new.items
        ≡ turns.old.items ++ option_to_list (turn_made maker (both first second)) }
{
    let Some(first) = first else {
        drop(second);
        return;
    };
    let mut events = room;
    events.push_reserved(first);
    if let Some(second) = second {
        events.push_reserved(second);
    }
    add(turns, maker, events);
}

// Adds the turn of these events.
fn add(turns: &mut Vec<Turn>, maker: Maker, events: Vec<Event>)
    requires { vec_len turns.old < vec_capacity turns.old }
    ensures { turns.new.items ≡ turns.old.items ++ turn_of maker events.items ∷ [] }
{
    let mut events = events;
    events.shrink_to_fit();
    turns.push_reserved(Turn {
        node: maker.node,
        why: maker.why,
        moment: maker.moment,
        events: Seq::of(events),
    });
}
