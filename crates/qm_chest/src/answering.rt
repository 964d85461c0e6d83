// What a step of a manager at work came to, by its answer.
ghost use Rattle.std.specs.Prelude.{◌≡◌, None};
ghost use Rattle.qm_history.specs.declared.call.Answer.TheVariants as answer;
ghost use Rattle.qm_chest.specs.declared.work.Work.TheVariants as work;
ghost use Rattle.qm_chest.specs.Steps.{IsBehind, came_of, done_step, full_step, is_in_doubt, refused_step, shown_step};

use crate::asking::{Came, same};
use crate::work::Work;
use qm_acting::{Manager, Replies};
use qm_disk::Disk;
use qm_history::{Answer, Event, Takeover};
use qm_kinds::{Boxed, Input, Moment, Refusal, Request};

/// What a step of a manager came to, which stays in its place: the step's event, unless memory was short, and its answer.
pub struct Step {
    pub(crate) event: Option<Event>,
    pub(crate) answer: Answer,
}

impl Step {
    /// Whether the record that the step wrote is in doubt. Then its manager has to let go of the role.
    pub(crate) fn is_in_doubt(&self) -> bool
        ensures { result ≡ is_in_doubt self.now.event }
    {
        matches!(&self.event, Some(Event::Doubt { .. }))
    }

    /// The step of a manager that stays up.
    pub(crate) fn up<D>(self, manager: Manager<D>, at: u8) -> Came<D>
        ensures { result ≡ came_of self (work.Up manager at) }
    {
        let Step { event, answer } = self;
        Came {
            work: Work::Up { manager, node: at },
            event,
            answer,
        }
    }

    /// The step of a manager that stays up unless its record is in doubt.
    pub(crate) fn of<D: Disk>(self, manager: Manager<D>, at: u8) -> Came<D>
        ensures came { result ≡ came_of self result.work }
        ensures work { IsBehind manager at (is_in_doubt self.event) result.work }
    {
        let is_in_doubt = self.is_in_doubt();
        let Step { event, answer } = self;
        Came {
            work: Work::behind(manager, at, is_in_doubt),
            event,
            answer,
        }
    }
}

/// The request's record is there.
pub(crate) fn done(
    node: u8,
    moment: Moment,
    request: Boxed<Request>,
    replies: Replies,
    took: Option<Takeover>,
) -> Step
    ensures { result ≡ done_step node moment request replies took }
{
    let Replies { kept, told } = replies;
    Step {
        event: Some(Event::Done {
            node,
            moment,
            request,
            reply: kept,
        }),
        answer: Answer::Done {
            took,
            moment,
            reply: told,
        },
    }
}

/// What a listing or a fetch shows.
pub(crate) fn shown(node: u8, moment: Moment, input: Input, answer: Answer) -> Step
    ensures { result ≡ shown_step node moment input answer }
{
    Step {
        event: Some(Event::Shown {
            node,
            moment,
            input,
        }),
        answer,
    }
}

/// What is asked for is refused.
pub(crate) fn refused(
    node: u8,
    moment: Moment,
    input: Input,
    refusal: Refusal,
    took: Option<Takeover>,
) -> Step
    ensures { result ≡ refused_step node moment input refusal took }
{
    let told = same(&refusal);
    Step {
        event: Some(Event::Refused {
            node,
            moment,
            input,
            refusal,
        }),
        answer: Answer::Refused {
            took,
            refusal: told,
        },
    }
}

/// The record has no room in the file.
pub(crate) fn full(node: u8, need: u64, cap: u64, took: Option<Takeover>) -> Step
    ensures { result ≡ full_step node need cap took }
{
    Step {
        event: Some(Event::Full { node, need, cap }),
        answer: Answer::Full { took, need, cap },
    }
}

/// Memory was short, and nothing has changed.
pub(crate) fn short(took: Option<Takeover>) -> Step
    ensures { result ≡ record { event = None; answer = answer.NoMemory took } }
{
    Step {
        event: None,
        answer: Answer::NoMemory { took },
    }
}
