// The world between two turns.
use qm_kinds::{Record, Seq};

/// The node that is queue manager.
#[derive(Clone, Copy, Debug, PartialEq, Eq)]
pub struct Role {
    /// The node's place in the cluster, counted from 0.
    pub node: u8,
    /// The epoch, of which each takeover begins a new one.
    pub epoch: u64,
}

/// A queue system on disk, and what its nodes are about, between two turns.
#[derive(Drop)]
pub struct World {
    /// The records that are there whatever comes.
    pub log: Seq<Record>,
    /// The record that may be there behind them.
    pub doubt: Option<Record>,
    pub manager: Option<Role>,
    /// The greatest epoch that was recorded or tried.
    pub greatest: u64,
    /// For each node whether it is live, that is, serves its lines.
    pub live: Seq<bool>,
    /// For each node the epoch of its own last takeover, or 0.
    pub held: Seq<u64>,
}
