//! The image of a queue system, with each request served in two steps: `prepare` decides and takes all memory and changes no row;
//! `commit` changes the rows and takes no memory.
//!
//! That `commit` takes no memory is the form of the code: `IsPrepared` says that all room which it needs is
//! there.
#![tactic(auto)]

mod committing;
mod preparing;
mod room;
mod settling;

pub use committing::commit;
pub use preparing::prepare;
