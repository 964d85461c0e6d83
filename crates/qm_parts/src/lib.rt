//! The tables that belong together. `TableSet` keeps nodes, forms, characteristics, queues, entries, runs and timers, and sees
//! to it that the runs are just those of the entries. `Parts` keeps beside them, for each queue, the row of the jobs that it can
//! start as soon as it has a place.
#![tactic(auto)]

mod changes;
mod entries;
mod fates;
mod fitting;
mod forms;
mod looks;
mod names;
mod nodes;
mod parts;
mod queues;
mod renewing;
mod rooms;
mod rows;
mod running;
mod sweeping;
mod tables;
mod timing;

pub use looks::{is_execution_queue, is_open_queue, see_entries};
pub use nodes::{NodeChange, is_among};
pub use parts::Parts;
pub use tables::TableSet;
