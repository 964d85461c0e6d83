// What is asked for, as far as it is built, and of what kind a call is.
ghost use Rattle.std.specs.Prelude.{◌≡◌, IsTrue};
ghost use Rattle.qm_history.specs.Calls.{why_of};
ghost use Rattle.qm_node.specs.Asking.{built, built_call, kind_of_call, not_built};

use crate::course::Asked;
use crate::living::{Presence, presence_of};
use qm_history::{Call, Why};
use qm_kinds::{Input, ParseKind};
use qm_scans::{ScanStep, step_of};

/// What kind of call it is, as far as that is still to be known once it is answered: the call itself is handed over.
#[derive(Clone, Copy)]
pub struct CallKind {
    /// Why its turn is made.
    pub why: Why,
    /// What it does to whether the node that makes it is live.
    pub presence: Presence,
    /// What it does to the listings that the node has begun.
    pub step: ScanStep,
}

// That this isn't built.
fn not_built() -> Input
    ensures { result ≡ not_built }
{
    Input::Fault {
        place: 0,
        kind: ParseKind::NotBuilt,
    }
}

// The input, or where it isn't built that it isn't.
fn built(input: Input) -> Input
    ensures { result ≡ built input }
{
    match input {
        Input::Compact => not_built(),
        other => other,
    }
}

// A call that asks for what is built.
fn built_call(call: Call) -> Call
    ensures { result ≡ built_call call }
{
    match call {
        Call::Line { line, input } => Call::Line {
            line,
            input: built(input),
        },
        other => other,
    }
}

// Whether an input is built.
fn is_built(input: &Input) -> bool
    ensures { IsTrue result → built input.now ≡ input.now }
{
    match input {
        Input::Compact => false,
        _ => true,
    }
}

// Whether a call asks for what is built. Nearly each one does, and so stays where it is.
fn asks_for_built(call: &Call) -> bool
    ensures { IsTrue result → built_call call.now ≡ call.now }
{
    match call {
        Call::Line { input, .. } => is_built(input),
        _ => true,
    }
}

/// A call that asks for what is built, at its moment: all but a compaction is.
pub fn built_asked(asked: Asked) -> Asked
    ensures { result ≡ record { moment = asked.moment; call = built_call asked.call } }
{
    if asks_for_built(&asked.call) {
        return asked;
    }
    let Asked { moment, call } = asked;
    Asked {
        moment,
        call: built_call(call),
    }
}

// Why the turn of a call is made.
fn why_of(call: &Call) -> Why
    ensures { result ≡ why_of call.now }
{
    match call {
        Call::Line { line, .. } => Why::Line(*line),
        Call::Fetch { .. } => Why::Fetch,
        Call::Report { .. } => Why::Report,
        Call::Leave => Why::Leave,
    }
}

/// What kind of call it is.
pub fn kind_of_call(call: &Call) -> CallKind
    ensures { result ≡ kind_of_call call.now }
{
    CallKind {
        why: why_of(call),
        presence: presence_of(call),
        step: step_of(call),
    }
}
