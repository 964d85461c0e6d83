// A node between two turns, and what it has of its own.
ghost use Rattle.std.specs.Prelude.{◌≡◌, ◌<◌, ◌^◌, None, IfOk, IfSome, OnErr, OnOk};
ghost use Rattle.qm_history.specs.declared.call.Call.{Call as AnyCall};
ghost use Rattle.qm_node.specs.Node.{CanBeHeard, CanBeMade, ComesNext, IsMadeFor, IsTurn, TellsOne};
ghost use Rattle.qm_script.specs.ClusterLines.{user_lines_view};
ghost use Rattle.qm_node.specs.Answered.{CallsAt, TakesIn};
ghost use Rattle.qm_node.specs.Asking.{kind_of_call};
ghost use Rattle.qm_node.specs.Coming.{IsNoStep, IsStepNext};
ghost use Rattle.qm_node.specs.Seats.{first_seat, next_turn};

use crate::asking::{CallKind, built_asked};
use crate::course::{Asked, Next};
use crate::living::live_behind;
use crate::node::NodeState;
use qm_disk::Clock;
use qm_history::Answer;
use qm_kinds::Name;
use qm_scans::Scans;
use qm_script::UserLine;
use qm_symb::Symbiont;
use std::alloc::{AllocError, Global};
use std::marker::Model;

/// What a node has of its own: its clock and its symbiont.
#[derive(Drop)]
pub struct Station<C, Y> {
    pub clock: C,
    pub symbiont: Y,
}

/// A node between two turns. Contracts see a `HeldSeat`.
#[derive(Drop)]
pub struct Seat<'a, Y: Symbiont> {
    pub(crate) name: Name,
    pub(crate) state: NodeState<'a, Y>,
    /// Whether it is live.
    pub(crate) live: bool,
    /// How many turns it has made.
    pub(crate) turns: u64,
    /// The listings that it has begun in them.
    pub begun: Scans,
}

impl<'a, Y: Symbiont> Model for Seat<'a, Y> {
    ghost use Rattle.qm_node.specs.Seats.{HeldSeat};

    ghost Value = { HeldSeat };

    ghost view = { λ s. record { name = s.name; node = s.state; live = s.live; count = s.turns; begun = s.begun } };
}

impl<'a, Y: Symbiont> Seat<'a, Y> {
    /// A live node of this name in front of these lines.
    pub fn new(alloc: Global, name: Name, lines: &'a [UserLine<'a>]) -> Seat<'a, Y>
        ensures { result ≡ first_seat name (user_lines_view lines.now) }
    {
        Seat {
            name,
            state: NodeState::new(alloc, lines),
            live: true,
            turns: 0,
            begun: Scans::new(),
        }
    }

    /// Its name.
    pub fn name(&self) -> Name
        ensures { result ≡ self.now.name }
    {
        self.name
    }

    /// What comes next, if something does.
    pub fn next(&self) -> Option<Next<'a>>
        ensures next { IsTurn (next_turn self.now) result }
        ensures can { IfSome result (CanBeMade self.now.node.state) }
    {
        self.state.next(self.live)
    }

    /// The step that comes next, if one does.
    pub fn next_step(&self) -> Option<Next<'a>>
        ensures step { IfSome result (IsStepNext (next_turn self.now) self.now.node.state) }
        ensures none { result ≡ None → IsNoStep (next_turn self.now) }
    {
        match self.next() {
            Some(Next::Step(run)) => Some(Next::Step(run)),
            _ => None,
        }
    }

    /// Makes the call of what comes next, as far as that is built, with one reading of the clock. At want of memory nothing else
    /// changed: no block was handed over.
    pub(crate) fn call<C: Clock>(
        &mut self,
        next: &Next<'a>,
        station: &mut Station<C, Y>,
    ) -> Result<Asked, AllocError>
        requires told { self.old.node.made ≡ None }
        requires next { ComesNext self.old.node.state next.now }
        requires can { CanBeMade self.old.node.state next.now }
        ensures call { IfOk result (CallsAt Y.meaning next.now self.old self.new station.old station.new) }
        ensures clock { TellsOne (C.told station.old.clock) (C.told station.new.clock) result }
        ensures no_memory { OnErr result (self.new ≡ self.old) }
        ensures nothing_handed { OnErr result (station.new.symbiont ≡ station.old.symbiont) }
    {
        match self.state.call(next, &self.begun, &mut station.clock, &mut station.symbiont) {
            Ok(asked) => Ok(built_asked(asked)),
            Err(error) => Err(error),
        }
    }

    /// Takes the answer in that the call of what came next got.
    pub(crate) fn take_in(
        &mut self,
        next: &Next<'a>,
        kind: &CallKind,
        answer: Answer,
        symbiont: &Y,
    ) -> Result<(), AllocError>
        requires next { ComesNext self.old.node.state next.now }
        requires can { CanBeMade self.old.node.state next.now }
        requires made { IsMadeFor next.now self.old.node.made }
        requires duties { CanBeHeard answer }
        requires few { self.old.count < 2 ^ 32 }
        ensures { (asked : AnyCall) → kind.now ≡ kind_of_call asked
            → OnOk result (TakesIn next.now asked answer self.old self.new) }
    {
        let live = live_behind(self.live, kind.presence, &answer);
        self.begun.hear(&kind.step, &answer);
        self.state.hear(next, self.turns, answer, symbiont)?;
        self.live = live;
        self.turns += 1;
        Ok(())
    }
}
