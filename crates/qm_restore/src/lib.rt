//! The way from the bodies of a queue file's records to the image of the queue system that they stand for: the rows of a new
//! site, and requests that were accepted one after the other; or the first record that can't stand there, and why.
//!
//! Rows of other systems than those of new sites are told as damage.
#![tactic(auto)]

mod bodies;
mod fault;
mod judging;
mod laws;
mod nodes;
mod restoring;
mod rows;
mod site;

pub use bodies::Bodies;
pub use fault::{Flaw, RestoreFault};
pub use judging::can_act;
pub use laws::{
    names_of_files_stay, new_sites_are_consistent, site_files_are_accepted,
    site_files_are_consistent,
};
pub use restoring::restore;
pub use rows::read_nodes;
pub use site::new_rows;
