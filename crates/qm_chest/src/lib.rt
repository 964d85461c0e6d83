//! The value on which the nodes of a cluster make their turns: one call of a node is one turn. While a manager is up it has the
//! manager at work, and while none is, the files and where a record in doubt would stand. It stands for a world of
//! `qm_history`; a call leads to the world behind its turn. `Chest::open` reads a site's files and begins on them. As the queue
//! manager that nodes ask (`Serve` of `qm_history`) it serves a call, and keeps its turn. `close` hands out the device and the
//! turns.
//!
//! Where requests and events aren't handed on they are let go by a call of `drop`: at the end of a function the check would spell
//! each drop of an enum out, field by field.
//!
//! Over a disk that doesn't tell its contents it isn't said which epoch a takeover begins.
#![tactic(auto)]

mod answering;
mod asking;
mod behind;
mod calls;
mod checked;
mod checking;
mod chest;
mod failing;
mod laws;
mod leaving;
mod members;
mod nodes;
mod noting;
mod opening;
mod own;
mod place;
mod serve;
mod serving;
mod showing;
mod starting;
mod stepping;
mod taken;
mod taking;
mod wanted;
mod work;

pub use chest::{Chest, TURNS_KEPT};
pub use laws::{
    files_keep_their_world, parts_come_one_behind_another, sites_begin_one_world,
    whole_parts_are_turns,
};
pub use noting::calls_are_noted;
pub use place::Place;
