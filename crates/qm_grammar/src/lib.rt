//! The reader of commands: which command a text is, and which parts it has, by the table of commands and what names may be cut
//! to. `parse` tells it exactly as the grammar in `specs/` says, or what is wrong and where. The meaning of a command isn't told
//! here, nor what a value says.
//!
//! What is accepted as a name behind a `/` is that name whole, or begins it and no other of the command: a law. That the table
//! is that of OpenVMS isn't said.
#![tactic(auto)]

mod finding;
mod part;
mod place;
mod reader;
mod reading;
mod rule;
mod step;

pub use part::Part;
pub use place::{Place, State};
pub use reader::{Parsed, parse};
