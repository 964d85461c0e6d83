//! The gated log: a list of records in one file of a disk, read again after any crash. An append is acknowledged
//! once no crash can lose it, and a crash at any moment of it leaves the records with the new one or without.
//! What a file holds is `IsLog` of `specs/Records.antt`.
#![tactic(auto)]

mod bodies;
mod fault;
mod laws;
mod log;
mod making;
mod opening;
mod reading;
mod spare;
mod through;

pub use fault::{AppendFault, MakeFault, OpenFault};
pub use laws::{a_log_has_a_greatest_cap, one_list, one_place, sound_if_log};
pub use log::Log;
pub use making::{create, format};
pub use opening::open;
