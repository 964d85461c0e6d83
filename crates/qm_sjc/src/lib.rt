//! What a program asks the queue manager for by an item list, and is told. `read_call` gives what a function asks for with its items,
//! with the defaults of commands, and else the first fault, exactly as `call_of` in `specs/Calls.antt` says; `read_item_list` the same
//! of the bytes of a list, as `items_mean` of `specs/Meant.antt`; `row_line` the line of a row's items, as `items_line` of
//! `specs/Printed.antt`.
//!
//! That functions and items mean what those of OpenVMS do isn't said.
#![tactic(auto)]

mod call;
mod fault;
mod fields;
mod jobs;
mod judging;
mod meant;
mod printed;
mod rows;

pub use call::read_call;
pub use fault::CallFault;
pub use meant::{lists_are_read, read_item_list};
pub use printed::row_line;
pub use rows::row_items;
