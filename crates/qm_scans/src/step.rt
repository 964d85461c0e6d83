// What a call is to the listings that its node has begun.
ghost use Rattle.std.specs.Prelude.{◌≡◌};
ghost use Rattle.qm_scans.specs.Behind.{is_single, step_of, step_of_input};

use qm_history::Call;
use qm_kinds::{Input, Query};

/// What a call is to the listings that its node has begun.
#[derive(Clone, Copy)]
pub enum ScanStep {
    /// Rows are asked for.
    Lists(Query),
    /// The node stops, and its listings end.
    Stops,
    /// They stay.
    Stays,
}

fn step_of_input(input: &Input) -> ScanStep
    ensures { result ≡ step_of_input input.now }
{
    match input {
        Input::Show(query) => ScanStep::Lists(*query),
        Input::StopNode => ScanStep::Stops,
        _ => ScanStep::Stays,
    }
}

/// What a call is to the listings of its node.
pub fn step_of(call: &Call) -> ScanStep
    ensures { result ≡ step_of call.now }
{
    match call {
        Call::Line { input, .. } => step_of_input(input),
        Call::Fetch { .. } | Call::Report { .. } | Call::Leave => ScanStep::Stays,
    }
}

/// Whether one row is asked for, by an item list, so that it is printed as its items.
pub fn is_single(step: &ScanStep) -> bool
    ensures { result ≡ is_single step.now }
{
    match step {
        ScanStep::Lists(query) => query.single,
        ScanStep::Stops | ScanStep::Stays => false,
    }
}
