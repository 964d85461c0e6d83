// What is answered to a request, and what was done before the next.
use crate::entry::EntryState;
use crate::file::FileName;
use crate::mark::Mark;
use crate::name::Name;
use crate::queue::QueueState;
use crate::run::Start;
use crate::seq::Seq;

/// What an accepted request did.
#[derive(Clone, Copy, PartialEq, Eq)]
pub enum Act {
    /// The file has so many bytes.
    Filed {
        file: FileName,
        bytes: u32,
    },
    Dropped {
        file: FileName,
    },
    FormDefined {
        form: Name,
    },
    FormDeleted {
        form: Name,
    },
    CharacteristicDefined {
        name: Name,
    },
    CharacteristicDeleted {
        name: Name,
    },
    QueueIs {
        queue: Name,
        state: QueueState,
    },
    QueueDeleted {
        queue: Name,
    },
    EntryAborting {
        entry: u32,
    },
    Moved {
        entries: u32,
    },
    /// The job in the state that it had before any job was started.
    Submitted {
        name: Name,
        home: Name,
        entry: u32,
        state: EntryState,
    },
    /// The entry in the state that it had before any job was started.
    EntryIs {
        entry: u32,
        state: EntryState,
    },
    EntryDeleted {
        entry: u32,
    },
    Marked {
        run: u64,
        value: Mark,
    },
    RunCompleted {
        run: u64,
        status: u32,
    },
    RunRetained {
        run: u64,
        status: u32,
    },
    RunRequeued {
        run: u64,
    },
    RunRemoved {
        run: u64,
    },
    Ticked,
    NodeStarted {
        node: Name,
    },
    NodeStopped {
        node: Name,
    },
    Managing {
        node: Name,
        epoch: u64,
    },
    /// The queue file that holds the image.
    Compacted {
        file: u8,
    },
}

/// What an accepted request did, and the jobs that were started then, in order.
#[derive(Drop)]
pub struct Reply {
    pub act: Act,
    pub started: Seq<Start>,
}
