//! `walk`: the world behind a list of events, or the first one of them that the rules of histories don't allow. It makes each
//! change anew, by an image of the queue system. Beside it: the world with which a program begins on a queue file, and what a queue
//! file has of a world.
//!
//! Nothing of the program stands on this crate.
#![tactic(auto)]

mod beginning;
mod copying;
mod end;
mod files;
mod following;
mod going;
mod nodes;
mod recording;
mod taking;
mod walker;
mod walking;

pub use end::WalkEnd;
pub use files::{first_world, texts_of};
pub use walking::walk;
