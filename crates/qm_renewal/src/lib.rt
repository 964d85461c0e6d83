//! One row of the jobs that a queue can take. The key of a job that changed goes from its place to its new one, comes or goes;
//! every other key stays as it is, and so does the number of keys for which there is room.
#![tactic(auto)]

mod renewing;

pub use renewing::{is_pending, key_of_pending, put_in, see_row, take_out};
