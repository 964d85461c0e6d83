//! The lines of a script served on the chest of a site that was opened: by one thread in their order, or each node's by a thread of
//! its own. What that leaves is said by the end: the turns, the text, the courses of nodes, and the notes of all calls, each of which
//! did to the device what histories say.
//!
//! That a thread gets its turn, and so that a cluster returns, isn't said.
#![tactic(auto)]

mod cluster_running;
mod cluster_serving;
mod in_order_serving;
mod served;
mod site_laws;

pub use cluster_serving::serve_by_each;
pub use in_order_serving::serve_by_one;
pub use served::Served;
