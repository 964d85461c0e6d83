// A turn: a call of a node, and what came of it.
use crate::event::Event;
use qm_kinds::{Moment, Seq};

/// Why a turn is made.
#[derive(Clone, Copy, Debug, PartialEq, Eq)]
pub enum Why {
    /// A line of the script, by its number.
    Line(u32),
    Fetch,
    Report,
    Leave,
}

/// One call of a node and what came of it.
#[derive(Drop)]
pub struct Turn {
    /// The node's place in the cluster, counted from 0.
    pub node: u8,
    pub why: Why,
    /// What the node's clock told for this turn.
    pub moment: Moment,
    /// One or two.
    pub events: Seq<Event>,
}
