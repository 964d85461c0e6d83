//! The top call: what the program does between its words and its status, over any source of bytes, any sink and any disk
//! with the files of a site. What it writes is the transcript of the turns of the site's nodes, by the script that it reads.
//!
//! Where the nodes work at once, each serves its own lines and carries out its own jobs by a thread of its own, and they ask one queue
//! manager, in turns. What they leave is what one queue system leaves that is asked one call at a time: it is said of the history of
//! all, in which each node's turns are its course, and what it printed is their text. The queue manager is the chest of a site, which
//! opens itself; how nodes make their turns, in order or at once, is said in the crates of nodes and of clusters, for whatever keeps
//! the contract of `Serve`.
//!
//! That nodes work at once, that a thread gets its turn, and so that a cluster returns, isn't said.
#![tactic(auto)]

mod laws;
mod making;
mod outcome;
mod running;
mod serving;
mod showing;
mod task;
mod top_call;

pub use laws::{
    a_crash_leaves_a_moment_of_the_run, blocks_come_in_stretches,
    listings_are_of_the_world_of_a_run, moments_have_a_last_one, names_have_limits,
    programs_go_on_behind_runs, programs_go_on_with_what_was_acknowledged, queue_files_have_limits,
};
pub use making::new_sites_begin_one_world;
pub use outcome::{End, Outcome};
pub use top_call::{alone, qman};
