// Whether a node is live behind a call.
ghost use Rattle.std.specs.Prelude.{◌≡◌};
ghost use Rattle.qm_node.specs.Living.{presence_of, presence_of_input, live_behind, live_done, live_full};

use qm_history::{Answer, Call};
use qm_kinds::Input;

/// What a call does to whether the node that makes it is live.
#[derive(Clone, Copy, Debug, PartialEq, Eq)]
pub enum Presence {
    /// The node comes up.
    Comes,
    /// It stops.
    Stops,
    /// It leaves.
    Leaves,
    /// It is live behind the call as before.
    Stays,
}

fn presence_of_input(input: &Input) -> Presence
    ensures { result ≡ presence_of_input input.now }
{
    match input {
        Input::StartNode => Presence::Comes,
        Input::StopNode => Presence::Stops,
        _ => Presence::Stays,
    }
}

/// What a call does to whether the node that makes it is live.
pub fn presence_of(call: &Call) -> Presence
    ensures { result ≡ presence_of call.now }
{
    match call {
        Call::Line { input, .. } => presence_of_input(input),
        Call::Leave => Presence::Leaves,
        Call::Fetch { .. } | Call::Report { .. } => Presence::Stays,
    }
}

fn live_done(live: bool, presence: Presence) -> bool
    ensures { result ≡ live_done live presence }
{
    match presence {
        Presence::Comes => true,
        Presence::Stops | Presence::Leaves => false,
        Presence::Stays => live,
    }
}

fn live_full(live: bool, presence: Presence) -> bool
    ensures { result ≡ live_full live presence }
{
    match presence {
        Presence::Leaves => false,
        Presence::Comes | Presence::Stops | Presence::Stays => live,
    }
}

/// Whether a node is live behind a call that was answered so, where it was live before or not.
pub fn live_behind(live: bool, presence: Presence, answer: &Answer) -> bool
    ensures { result ≡ live_behind live presence answer.now }
{
    match answer {
        Answer::Done { .. } => live_done(live, presence),
        Answer::Full { .. } => live_full(live, presence),
        Answer::Journal { live, .. } => *live,
        _ => live,
    }
}
