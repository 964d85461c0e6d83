//! The writer of commands, beside their reader `qm_dcl`. `print_command` gives the one full spelling of an input, exactly as
//! `spelling_of` in `specs/Commands.antt` says, or tells that no command asks for it.
//!
//! Laws say that each full spelling reads back, and that no text asks for an input that has none. Nothing of the program
//! stands on this crate.
#![tactic(auto)]

mod command;
mod fault;
mod forms;
mod jobs;
mod laws;
mod listings;
mod pieces;
mod queues;
mod read_back;

pub use command::print_command;
pub use fault::PrintFault;
pub use laws::{
    names_read_back, numbers_read_back, patterns_read_back, times_read_back,
    what_is_read_has_a_spelling,
};
pub use read_back::spellings_read_back;
