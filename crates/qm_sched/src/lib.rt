//! `settle` starts the jobs that can start: in the queues by name, as long as each has a place and a job that fits it. It asks one
//! row of ready jobs for each start, and one more where a place is left, and takes no memory.
#![tactic(auto)]

mod choosing;
mod laws;
mod settling;

pub use choosing::places;
pub use laws::starts_are_few;
pub use settling::settle;
