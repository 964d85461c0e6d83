// One field of an entry that is set.

use qm_kinds::{Entry, EntryState, Mark, Name};

/// Which field is set, and to what.
#[derive(Drop)]
pub(crate) enum Change {
    State(EntryState),
    Mark(Mark),
    Again,
    Home(Name),
}
