//! The image of a queue system in memory: what the model says of a system, in tables, with what is prepared to change it. It is
//! made of a system's rows, and shows them.
//!
//! `IsPrepared` says that all room which a change needs is there, so that it can be made without memory.
#![tactic(auto)]

mod files;
mod image;
mod lawful;
mod looks;
mod moments;
mod most_started;
mod prepared;
mod refused;
mod rows;

pub use image::Image;
pub use moments::moment_in;
pub use prepared::{Change, Prepared};
pub use refused::Refused;
