// What a call wants of the chest, and what it comes to.
ghost use Rattle.std.specs.Prelude.{◌≡◌, IfOk};
ghost use Rattle.qm_history.specs.Calls.{request_of_report};
ghost use Rattle.qm_history.specs.declared.call.Call.{Call as AnyCall};

use qm_history::{Answer, Call, Event, Why};
use qm_kinds::{Input, Moment, Report, Request};
use std::alloc::{AllocError, Global};

/// Who makes a turn, why, and what the node's clock told.
#[derive(Clone, Copy)]
pub struct Maker {
    pub(crate) node: u8,
    pub(crate) why: Why,
    pub(crate) moment: Moment,
}

impl Maker {
    // A node makes a turn at this reading of its clock.
    fn of(node: u8, why: Why, moment: Moment) -> Maker
        ensures { result ≡ record { node = node; why = why; moment = moment } }
    {
        Maker { node, why, moment }
    }
}

/// What a call asks for.
#[derive(Drop)]
pub struct Wanted {
    pub(crate) maker: Maker,
    pub(crate) input: Input,
    /// Whether the node goes for good.
    pub(crate) leaves: bool,
}

/// The events of a call, none where memory was short and nothing has changed, and its answer.
pub struct Outcome {
    pub(crate) first: Option<Event>,
    pub(crate) second: Option<Event>,
    pub(crate) answer: Answer,
}

// The request that a report makes.
fn reported(run: u64, report: Report) -> Request
    ensures { result ≡ request_of_report run report }
{
    match report {
        Report::Mark { value, .. } => Request::Mark { run, value },
        Report::Done { status } => Request::Done { run, status },
    }
}

impl Wanted {
    ghost use Rattle.qm_chest.specs.Serving.{wanted_by};

    /// What the call of a node wants, whose clock told this before. A report takes memory for its request.
    pub(crate) fn by(alloc: Global, node: u8, now: Moment, call: Call) -> Result<Wanted, AllocError>
        ensures { IfOk result (λ wanted. wanted ≡ wanted_by node now call) }
    {
        // Each arm makes the whole, so that the input is moved once.
        match call {
            Call::Line { line, input } => Ok(Wanted {
                maker: Maker::of(node, Why::Line(line), now),
                input,
                leaves: false,
            }),
            Call::Fetch { known } => Ok(Wanted {
                maker: Maker::of(node, Why::Fetch, now),
                input: Input::Fetch { known },
                leaves: false,
            }),
            Call::Report { run, report } => Ok(Wanted {
                maker: Maker::of(node, Why::Report, now),
                input: Input::asking(alloc, reported(run, report))?,
                leaves: false,
            }),
            Call::Leave => Ok(Wanted {
                maker: Maker::of(node, Why::Leave, now),
                input: Input::StopNode,
                leaves: true,
            }),
        }
    }
}
