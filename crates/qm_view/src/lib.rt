//! The rows that a query asks an image for, by scans of its tables, and what a node has to do for its runs. What a listing shows
//! is the model's `view`, and what a node is told its `duties`; this crate changes nothing.
#![tactic(auto)]

mod telling;
mod viewing;

pub use telling::duties;
pub use viewing::view;
