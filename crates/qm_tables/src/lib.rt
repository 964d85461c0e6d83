//! The tables of an image, each of its own rows: moments that entries wait for, and files by name; queues by name, forms and
//! characteristics, runs by number; entries by number. None knows of another; what belongs together is kept by `qm_parts`.
//!
//! `Timers` keeps numbers in order of the moments that they wait for, and tells which is due. `Spool` has the files of a site by name,
//! with their bytes, how many bytes all of them have, and how many entries name each. `QueueTable` has the queues in order of their
//! names, `FormTable` the forms and characteristics in order of their numbers, each found by its name too, and `Runs` the jobs that
//! run, in which queues and on which nodes, in order of the runs' numbers. `EntryTable` keeps each entry in a box of its own, so that
//! none is moved while others come and go.
#![tactic(auto)]

mod entries;
mod forms;
mod queues;
mod runs;
mod spool;
mod timers;

pub use entries::{EntryTable, home_tag};
pub use forms::FormTable;
pub use queues::{QueueTable, Settings};
pub use runs::{Runs, runs_are_counted_in_32_bits};
pub use spool::Spool;
pub use timers::{Timers, numbers_determine_the_timers, other_numbers_keep_their_timers};
