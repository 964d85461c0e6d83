//! Requests about jobs: each is decided, and the memory for its change taken. No row changes.
#![tactic(auto)]

mod changing;
mod jobs;
mod merging;
mod submit;

pub use changing::{prepare_set_entry, prepare_tick};
pub use jobs::{prepare_abort, prepare_delete_entry, prepare_report};
pub use merging::prepare_merge;
pub use submit::prepare_submit;
