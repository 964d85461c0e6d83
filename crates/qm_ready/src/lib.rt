//! The jobs that a queue can take, in the order in which it starts them: `ReadyRow` keeps their keys, and tells the first by
//! one look.
//!
//! That nothing but `reserve` takes memory is the form of the code; that `first` takes one look is a clause.
#![tactic(auto)]

mod gathering;
mod laws;
mod moves;
mod places;
mod row;
mod runs;
mod sorting;
mod steps;
mod tiers;

pub use gathering::Gathering;
pub use laws::{keys_are_no_more, numbers_determine_the_row, the_first_key_is_the_next_job};
pub use row::ReadyRow;
pub use steps::Steps;
