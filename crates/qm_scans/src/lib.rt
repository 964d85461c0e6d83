//! The listings that a node has begun by item lists, as a value: what a query goes on with, and what an answer leaves. Whoever makes
//! the calls of a node keeps one, since the queue manager keeps nothing of a listing between two calls.
#![tactic(auto)]

mod laws;
mod scans;
mod step;

pub use laws::{answers_tell_how_rows_are_printed, answers_tell_of_scans, scans_follow_visits};
pub use scans::Scans;
pub use step::{ScanStep, is_single, step_of};
