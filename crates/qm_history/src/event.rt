// What can happen in a turn.
use qm_kinds::{Boxed, Input, Moment, Name, Refusal, Reply, Request, Seq};

/// What happened in a turn. Each event names its node by its place in the cluster, counted from 0.
#[derive(Drop)]
pub enum Event {
    /// The request's record is in the log.
    Done {
        node: u8,
        moment: Moment,
        request: Boxed<Request>,
        reply: Reply,
    },
    Refused {
        node: u8,
        moment: Moment,
        input: Input,
        refusal: Refusal,
    },
    /// Rows or runs were shown, as they stand there.
    Shown {
        node: u8,
        moment: Moment,
        input: Input,
    },
    /// A disk failed while the request's record was written: nobody knows whether it is there.
    Doubt {
        node: u8,
        moment: Moment,
        request: Boxed<Request>,
    },
    /// A record or an image has no room: the file would take `need` bytes, more than its `cap`.
    Full {
        node: u8,
        need: u64,
        cap: u64,
    },
    /// The node isn't among those that may be manager.
    NoManager {
        node: u8,
    },
    /// The node is queue manager from here on.
    Took {
        node: u8,
        moment: Moment,
        epoch: u64,
        /// The nodes whose runs are lost.
        gone: Seq<Name>,
        /// The nodes that are up, all others being down.
        up: Seq<Name>,
        /// The nodes that may be manager.
        may: Seq<Name>,
        /// Whether the record that was in doubt was found in the log, where one was in doubt.
        kept: Option<bool>,
    },
    /// A takeover failed behind the reading of the files or within it.
    TakeDoubt {
        node: u8,
        /// The greatest epoch that may be recorded.
        tried: u64,
        /// Whether the record that was in doubt was found in the log, where one was in doubt and the files were read.
        kept: Option<bool>,
    },
    /// The node holds another epoch than the present manager's.
    Fenced {
        node: u8,
        held: u64,
        current: u64,
    },
    Stopped {
        node: u8,
    },
    Left {
        node: u8,
    },
    Started {
        node: u8,
    },
    /// This queue file holds the image, and is the live one.
    Compacted {
        node: u8,
        epoch: u64,
        file: u8,
    },
    /// A disk failed during a compaction.
    CompactDoubt {
        node: u8,
    },
}
