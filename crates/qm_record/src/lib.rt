//! The records of a queue file as bytes: each record has one spelling, which is written, and nothing else is read.
//!
//! That a record is made at its place and moved once is the form of the code.
#![tactic(auto)]

mod definition_request;
mod element;
mod entry_request;
mod fault;
mod field;
mod file_request;
mod kind;
mod laws;
mod node_request;
mod queue_request;
mod reading;
mod request;
mod row;
mod writing;

pub use fault::RecordFault;
pub use laws::{requests_have_records, rows_are_short};
pub use reading::{no_record_begins_another, read_record};
pub use writing::{write_record, write_request};
