//! A node, and its turns. `NodeRuns` keeps what it has of its runs between two turns: it learns them from a fetch, lets them step in
//! turn, each by its symbiont or cut short without it, and forgets each whose report doesn't go on. A `Seat` is the node between two
//! turns, and `make_turn` makes the one that comes next, by whom the node asks (`Ask`).
//!
//! What a call does to whom it is asked of isn't known here: `Ask` names it.
#![tactic(auto)]

mod ask;
mod asking;
mod course;
mod gate;
mod laws;
mod living;
mod living_laws;
mod node;
mod row;
mod runs;
mod seat;
mod turn;

pub use ask::Ask;
pub use asking::{CallKind, kind_of_call};
pub use course::{Asked, Next, Stage};
pub use gate::{Gate, OpenGate, Point};
pub use laws::{duties_can_be_learned, steps_lower_the_reports_left};
pub use living::{Presence, live_behind, presence_of};
pub use living_laws::{answers_tell_who_is_live, nodes_that_left_are_not_live, other_nodes_stay};
pub use node::NodeState;
pub use runs::NodeRuns;
pub use seat::{Seat, Station};
pub use turn::{TurnEnd, make_turn};
