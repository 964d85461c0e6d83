//! The reader of the commands that users type. `read_command` gives what a text asks for, and else the first fault, exactly as
//! `command_of` in `specs/` says: the grammar tells which command the text is and which parts it has, and here is said what
//! the values of these mean. It takes time in the length of the text, and memory for its tokens and parts, and for lists.
//!
//! Only a text that is a command by the grammar asks for something, and no fault is told behind the grammar's first: these are
//! laws. That commands mean what those of OpenVMS do isn't said.
#![tactic(auto)]

mod command;
mod define;
mod entry;
mod fault;
mod given;
mod laws;
mod lists;
mod queue;
mod settings;
mod show;
mod submit;
mod value;

pub use command::read_command;
pub use fault::DclFault;
pub use laws::{no_fault_is_told_behind_the_first, what_is_asked_is_a_command};
pub use lists::{ListOf, Lists};
pub use settings::{Definition, JobSettings, ListingSettings, QueueSettings, Settings, Stop};
pub use value::{Location, Side};
