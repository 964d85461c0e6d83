//! What the items of a call say: the codes of items, the functions that a program calls, what the value of each item says, and
//! the requests and questions that functions make of them. What is said of an item is its definition in `specs/Values.antt`, and
//! what a function asks for its definition in `specs/Asked.antt`; which items a function takes isn't told here.
#![tactic(auto)]

pub mod codes;
mod entries;
mod function;
mod holds;
mod items;
mod looking;
mod others;
mod queues;
mod reading;
mod request;
mod value;

pub use function::{Function, function_of};
pub use holds::Holds;
pub use items::{Item, ItemFault, lists_are_read_once, read_items, write_items};
pub use looking::{Lists, is_given, lists_in};
pub use others::query_of;
pub use reading::{
    after_in, byte_in, file_in, job_kind_in, job_retain_in, name_in, reference_in, short_name_in,
    truth_in,
};
pub use request::change_asked;
pub use value::is_held;
