//! The turns of a cluster's nodes. One thread makes them in the order of a script's lines, on a queue manager that nodes ask directly,
//! and then those of each node in the cluster's order, until nothing comes next. Or each node makes its own by a thread of its own, and
//! they ask one queue manager, in turns. What they leave then is what one queue system leaves that is asked one call at a time: it is
//! said of the history of all, in which each node's turns are its course, and what it printed is their text. Nothing here knows what the
//! queue manager is: `Serve` says what its one call does.
//!
//! What a queue manager does to disks is for it to say. That nodes work at once, that a thread gets its turn, and so that a cluster
//! returns, isn't said.
#![tactic(auto)]

mod begins;
mod cluster_ending;
mod directly;
mod driver;
mod ends;
mod fresh;
mod join;
mod laws;
mod node;
mod node_course;
mod noted;
mod part;
mod pass_laws;
mod place;
mod print;
mod script;
mod shared;
mod turns;
mod waiting;

pub use begins::Begins;
pub use cluster_ending::print_texts;
pub use directly::Directly;
pub use ends::{ServeEnd, end_of_turns};
pub use fresh::{own_lines, seats_of};
pub use join::LeftText;
pub use laws::lines_are_of_their_cluster;
pub use node_course::drive;
pub use noted::Noted;
pub use pass_laws::{
    closed_histories_have_known_turns, closed_histories_hide_what_passes_know,
    courses_and_texts_are_whole, passes_see_beginnings, turns_are_of_the_nodes_of_their_passes,
};
pub use print::print_all;
pub use script::serve_script;
pub use shared::Shared;
pub use turns::{MadeTurns, make_turns};
