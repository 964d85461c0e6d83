// What is printed of a job's state.
ghost use Rattle.std.specs.Prelude.{Some};
ghost use Rattle.qm_model.specs.Words.{status_text};

use qm_kinds::EntryState;
use qm_time::text_of;
use std::fmt;

/// The status of a job, as `executing on LPA`.
#[derive(Clone, Copy)]
pub struct StatusText<'a>(pub &'a EntryState);

impl fmt::Display for StatusText<'_> {
    ghost output = { λ s. Some (status_text s.0.now) };

    fn fmt<W: fmt::Write>(&self, f: &mut fmt::Formatter<W>) -> fmt::Result {
        match self.0 {
            EntryState::Pending => f.write_str("pending"),
            EntryState::Holding => f.write_str("holding"),
            EntryState::Timed { at } => write!(f, "holding until {}", text_of(*at)),
            EntryState::Running { queue, .. } => write!(f, "executing on {queue}"),
            EntryState::Aborting { queue, .. } => write!(f, "aborting on {queue}"),
            EntryState::Retained {
                status,
                until: None,
            } => write!(f, "retained, status {status}"),
            EntryState::Retained {
                status,
                until: Some(until),
            } => write!(f, "retained until {}, status {status}", text_of(*until)),
        }
    }
}
