// A call's own step at a manager that is up: a request, a listing or a fetch.
ghost use Rattle.std.specs.Prelude.{◌≡◌, ◌<◌, length};
ghost use Rattle.qm_kinds.specs.declared.input.Input.TheVariants as input;
ghost use Rattle.qm_kinds.specs.declared.request.Request.TheVariants as request;
ghost use Rattle.qm_acting.specs.Standing.{IsReady};
ghost use Rattle.qm_chest.specs.declared.work.Work.TheVariants as work;
ghost use Rattle.qm_chest.specs.At.{CanBeAskedFor, IsWorkOf};
ghost use Rattle.qm_chest.specs.Steps.{CanAsk, IsOwnStep, LeavesAsked, LeavesOwn, OwnStep, StepIs};

use crate::answering::Step;
use crate::asking::{Came, ask_step};
use crate::members::Members;
use crate::showing::fetch;
use core::mem::drop;
use qm_acting::Manager;
use qm_disk::Disk;
use qm_history::{Answer, Event, Takeover};
use qm_kinds::{Boxed, Input, Moment, Request};
use qm_restore::site_files_are_accepted;

impl Members {
    /// What a call makes of the manager, whose node is `at`, alone or behind a takeover of which it tells. TICK is for the manager's
    /// epoch alone.
    pub(crate) fn own_step<D: Disk>(
        &self,
        manager: &mut Manager<D>,
        at: u8,
        node: u8,
        now: Moment,
        input: Input,
        took: Option<Takeover>,
    ) -> Step
        requires work { IsWorkOf D.meaning self.now.names.items (work.Up manager.old at) }
        requires there { node < length self.now.names.items }
        requires can { CanBeAskedFor node input }
        requires step { IsOwnStep input }
        ensures leaves { StepIs (LeavesOwn D.meaning self.now took manager.old) result manager.new at }
        ensures comes { StepIs (OwnStep D.meaning self.now manager.old at node now input took) result manager.new at }
    {
        site_files_are_accepted();
        match input {
            Input::Ask(request) => match request.get() {
                Request::Tick => self.tick(manager, at, node, now, request, took),
                _ => {
                    let live = self.is_live(node);
                    ask_step(manager, at, live, node, now, request, took)
                }
            },
            Input::Show(query) => self.show(manager, at, node, now, query, took),
            Input::Fetch { known } => fetch(manager, at, node, now, known, took),
            _ => unreachable!(),
        }
    }

    /// The same of a manager that is moved: where a disk failed no manager is up any more.
    pub(crate) fn own<D: Disk>(
        &self,
        manager: Manager<D>,
        at: u8,
        node: u8,
        now: Moment,
        input: Input,
        took: Option<Takeover>,
    ) -> Came<D>
        requires work { IsWorkOf D.meaning self.now.names.items (work.Up manager at) }
        requires there { node < length self.now.names.items }
        requires can { CanBeAskedFor node input }
        requires step { IsOwnStep input }
        ensures leaves { LeavesOwn D.meaning self.now took manager result }
        ensures comes { OwnStep D.meaning self.now manager at node now input took result }
    {
        let mut manager = manager;
        let step = self.own_step(&mut manager, at, node, now, input, took);
        step.of(manager, at)
    }

    // The clock is looked at for a node that holds the manager's epoch.
    fn tick<D: Disk>(
        &self,
        manager: &mut Manager<D>,
        at: u8,
        node: u8,
        now: Moment,
        asked: Boxed<Request>,
        took: Option<Takeover>,
    ) -> Step
        requires tick { asked ≡ request.Tick }
        requires ready { IsReady D.meaning manager.old }
        requires can { CanAsk manager.old node now request.Tick }
        requires there { node < length self.now.names.items }
        ensures leaves { StepIs (LeavesAsked D.meaning took manager.old at) result manager.new at }
        ensures comes { StepIs (OwnStep D.meaning self.now manager.old at node now (input.Ask request.Tick) took)
            result manager.new at }
    {
        site_files_are_accepted();
        let held = self.held_by(node);
        let current = manager.epoch();
        if held != current {
            drop(asked);
            return Step {
                event: Some(Event::Fenced {
                    node,
                    held,
                    current,
                }),
                answer: Answer::Fenced { held, current },
            };
        }
        let live = self.is_live(node);
        ask_step(manager, at, live, node, now, asked, took)
    }
}
