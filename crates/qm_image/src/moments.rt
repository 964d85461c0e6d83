// The moments for which entries want timers.
ghost use Rattle.std.specs.Prelude.{◌≡◌};
ghost use Rattle.qm_image.specs.Timers.{moment_in};

use qm_kinds::{EntryState, Moment};

/// The moment that a job in this state waits for, or until which it is kept, if there is one.
pub fn moment_in(state: &EntryState) -> Option<Moment>
    ensures { result ≡ moment_in state.now }
{
    match *state {
        EntryState::Timed { at } => Some(at),
        EntryState::Retained { until, .. } => until,
        EntryState::Pending
        | EntryState::Holding
        | EntryState::Running { .. }
        | EntryState::Aborting { .. } => None,
    }
}
