// A request that is asked of the manager at work, and what comes of it.
ghost use Rattle.std.specs.Prelude.{◌≡◌};
ghost use Rattle.qm_acting.specs.Standing.{IsReady};
ghost use Rattle.qm_chest.specs.Steps.{AskStep, CanAsk, IsToManager, LeavesAsked, StepIs, goes_then, is_recorded, served_alone, served_behind};

use crate::answering::{Step, done, full, refused, short};
use crate::serving::Served;
use crate::work::Work;
use core::mem::drop;
use qm_acting::{AskFault, Manager, site_files_go_on};
use qm_disk::Disk;
use qm_history::{Answer, Event, Takeover};
use qm_kinds::{Boxed, Input, Moment, Refusal, Request};
use qm_model::nodes_keep_their_names;
use qm_restore::site_files_are_accepted;

/// What one step of a call came to: its event, unless memory was short, and its answer.
pub struct Came<D> {
    pub(crate) work: Work<D>,
    pub(crate) event: Option<Event>,
    pub(crate) answer: Answer,
}

impl<D> Came<D> {
    /// Whether a record was written, or may be there.
    pub(crate) fn is_recorded(&self) -> bool
        ensures { result ≡ is_recorded self.now.event }
    {
        matches!(
            &self.event,
            Some(Event::Done { .. }) | Some(Event::Doubt { .. })
        )
    }

    /// Whether a node goes of whose loss this tells: the record is there or in doubt, or the node leaves and it has no room.
    pub(crate) fn lets_go(&self, leaves: bool) -> bool
        ensures { result ≡ goes_then leaves self.now.event }
    {
        self.is_recorded() || leaves && matches!(&self.event, Some(Event::Full { .. }))
    }

    /// This step is the whole call.
    pub(crate) fn alone(self) -> Served<D>
        ensures { result ≡ served_alone self }
    {
        let Came {
            work,
            event,
            answer,
        } = self;
        Served {
            work,
            first: event,
            second: None,
            answer,
        }
    }

    /// This step behind another event.
    pub(crate) fn behind(self, first: Event) -> Served<D>
        ensures { result ≡ served_behind first self }
    {
        let Came {
            work,
            event,
            answer,
        } = self;
        Served {
            work,
            first: Some(first),
            second: event,
            answer,
        }
    }
}

/// Asks for a request of a node, whose clock told this before, of the manager, whose node is `at`. Its record is there at `Done`;
/// where a disk failed it is in doubt, and the manager has to let go of the role. `live` is whether the node serves its lines
/// afterwards.
pub(crate) fn ask_step<D: Disk>(
    manager: &mut Manager<D>,
    at: u8,
    live: bool,
    node: u8,
    now: Moment,
    request: Boxed<Request>,
    took: Option<Takeover>,
) -> Step
    requires ready { IsReady D.meaning manager.old }
    requires can { CanAsk manager.old node now request }
    requires to_manager { IsToManager request }
    ensures leaves { StepIs (LeavesAsked D.meaning took manager.old at) result manager.new at }
    ensures comes { StepIs (AskStep D.meaning manager.old at live node now request took) result manager.new at }
{
    site_files_go_on();
    site_files_are_accepted();
    nodes_keep_their_names();
    let moment = manager.acting(now);
    match manager.ask(moment, node, request.get()) {
        Ok(replies) => done(node, moment, request, replies, took),
        Err(AskFault::Refused(refusal)) => {
            refused(node, moment, Input::Ask(request), refusal, took)
        }
        Err(AskFault::Full { need, cap }) => {
            drop(request);
            full(node, need, cap, took)
        }
        Err(AskFault::Disk) => Step {
            event: Some(Event::Doubt {
                node,
                moment,
                request,
            }),
            answer: Answer::Journal { took, live },
        },
        Err(AskFault::NoMemory) => {
            drop(request);
            short(took)
        }
    }
}

/// The same of a manager that is moved: where a disk failed no manager is up any more.
pub(crate) fn ask<D: Disk>(
    manager: Manager<D>,
    at: u8,
    live: bool,
    node: u8,
    now: Moment,
    request: Boxed<Request>,
    took: Option<Takeover>,
) -> Came<D>
    requires ready { IsReady D.meaning manager }
    requires can { CanAsk manager node now request }
    requires to_manager { IsToManager request }
    ensures leaves { LeavesAsked D.meaning took manager at result }
    ensures comes { AskStep D.meaning manager at live node now request took result }
{
    let mut manager = manager;
    let step = ask_step(&mut manager, at, live, node, now, request, took);
    step.of(manager, at)
}

/// The same refusal once more.
pub(crate) fn same(refusal: &Refusal) -> Refusal
    ensures { result ≡ refusal.now }
{
    *refusal
}
