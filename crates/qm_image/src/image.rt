// The image of a queue system.
ghost use Rattle.std.proofs.Props.{props};
ghost use Rattle.qm_tables.specs.SpoolCounts.{CountsOf};
ghost use Rattle.qm_image.specs.Timers.{AreTimersOf};

use qm_kinds::{Moment, Name, Seq};
use qm_parts::Parts;
use qm_tables::Spool;
use std::alloc::Global;

/// A queue system in memory.
#[derive(Drop)]
pub struct Image {
    /// Where its memory comes from.
    pub alloc: Global,
    /// The nodes, forms, characteristics, queues and entries, with the rows of ready jobs.
    pub parts: Parts,
    /// The files, and how often entries name each.
    pub spool: Spool,
    /// The nodes that may be queue manager.
    pub may: Seq<Name>,
    /// The number of the next entry.
    pub next_entry: u32,
    /// The moment of the last change.
    pub last: Moment,
    ghost counted: { CountsOf parts.entries spool.counts },
    ghost timed: { AreTimersOf parts.entries parts.timers } by { Prim.hlevel props },
}
