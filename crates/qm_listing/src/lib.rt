//! What a site shows without a queue manager: the listing of all queues and entries, by what its files hold. The files are only
//! looked at, and no epoch is begun.
#![tactic(auto)]

mod laws;
mod listing;

pub use laws::all_jobs_are_what_a_command_shows;
pub use listing::{Listed, list_queues};
