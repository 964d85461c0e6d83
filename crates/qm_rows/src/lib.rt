//! The rows of a listing in parts, one behind another, so that the rows below a queue stay where they were made. Contracts see just the
//! list of the rows.
#![tactic(auto)]

mod part;
mod rows;

pub use part::Part;
pub use rows::Rows;
