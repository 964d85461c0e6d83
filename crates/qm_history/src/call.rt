// What a node asks in a turn, and what it is answered.
use qm_kinds::{Duty, Input, Moment, Name, Refusal, Reply, Report, Seq, Start};
use qm_rows::Rows;

/// What a node asks of the queue manager in one turn.
#[derive(Drop)]
pub enum Call {
    /// A line of the script, by its number, counted from 1.
    Line { line: u32, input: Input },
    /// The node's runs. The node has what it needs for those that it knows.
    Fetch { known: Seq<u64> },
    /// What a symbiont told of a run.
    Report { run: u64, report: Report },
    /// The node goes, with its last call.
    Leave,
}

/// The node became queue manager, or tried to and learned what had become of a record in doubt.
#[derive(Drop)]
pub struct Takeover {
    /// The epoch that begins, or that was tried.
    pub epoch: u64,
    /// Whether the record that was in doubt is in the log, where one was in doubt.
    pub kept: Option<bool>,
    /// The jobs that the takeover started, in order.
    pub started: Seq<Start>,
}

/// What a call is answered.
#[derive(Drop)]
pub enum Answer {
    Done {
        took: Option<Takeover>,
        moment: Moment,
        reply: Reply,
    },
    Shown {
        took: Option<Takeover>,
        moment: Moment,
        rows: Rows,
    },
    Duties {
        took: Option<Takeover>,
        moment: Moment,
        duties: Seq<Duty>,
    },
    Refused {
        took: Option<Takeover>,
        refusal: Refusal,
    },
    /// The file would take `need` bytes, more than its `cap`.
    Full {
        took: Option<Takeover>,
        need: u64,
        cap: u64,
    },
    /// A disk failed. The record of the call or of the takeover is in doubt.
    Journal {
        took: Option<Takeover>,
        /// Whether the node is live afterwards.
        live: bool,
    },
    /// The node holds another epoch than the present manager's.
    Fenced {
        held: u64,
        current: u64,
    },
    /// The node may not become queue manager.
    NoManager {
        took: Option<Takeover>,
        node: Name,
    },
    /// The file, by its number, isn't sound at this byte.
    Damaged {
        file: u8,
        place: u64,
    },
    /// So many turns are kept that no more can be.
    HistoryFull,
    NoMemory {
        took: Option<Takeover>,
    },
}
