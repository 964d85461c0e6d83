// What is prepared.
use qm_kinds::{
    Characteristic, Entry, Fate, FileName, Form, Moment, Name, Queue, QueueState, Seq, Start,
    StopMode,
};
use qm_rules::Reported;
use qm_tables::Settings;

/// A change that was decided on, with the memory that it takes. Bytes for a file that is there are still the request's, and so
/// are the names of nodes that come up or go.
#[derive(Drop)]
pub struct Prepared<'a> {
    /// The acting moment.
    pub at: Moment,
    /// The node that serves the request.
    pub node: Name,
    /// What changes.
    pub change: Change<'a>,
    /// Empty, with room for the jobs that start behind the change.
    pub started: Vec<Start>,
}

/// What changes.
#[derive(Drop)]
pub enum Change<'a> {
    /// A file is made.
    NewFile {
        name: FileName,
        bytes: Vec<u8>,
    },
    /// Bytes go behind those of a file.
    MoreBytes {
        name: FileName,
        bytes: &'a [u8],
    },
    /// Lines go behind the bytes of a file.
    MoreLines {
        name: FileName,
        bytes: Vec<u8>,
    },
    /// A file goes.
    RemoveFile {
        name: FileName,
    },
    /// A form comes.
    NewForm {
        form: Form,
    },
    /// A form goes.
    RemoveForm {
        name: Name,
    },
    /// A characteristic comes.
    NewCharacteristic {
        characteristic: Characteristic,
    },
    /// A characteristic goes.
    RemoveCharacteristic {
        name: Name,
    },
    /// An entry comes.
    NewEntry {
        entry: Entry,
    },
    /// A queue comes, in the place of any other of its name.
    PutQueue {
        queue: Queue,
    },
    /// A queue gets settings, and a state where one is given.
    SetQueue {
        name: Name,
        settings: Settings,
        state: Option<QueueState>,
    },
    /// A queue is stopped.
    StopQueue {
        name: Name,
        how: StopMode,
    },
    /// The run of an entry is to be cut short.
    CutShort {
        entry: u32,
        fate: Fate,
    },
    /// A queue goes, with its entries.
    RemoveQueue {
        name: Name,
    },
    /// The jobs that wait in one queue are moved to another.
    Merge {
        to: Name,
        from: Name,
    },
    /// An entry takes the place of the one of its number.
    ReplaceEntry {
        entry: Entry,
    },
    /// An entry goes.
    RemoveEntry {
        entry: u32,
    },
    /// A run has reached a checkpoint, or has ended.
    Report {
        run: u64,
        report: Reported,
    },
    /// The node that serves the request comes up.
    NodeUp,
    /// These nodes are lost, with what runs there.
    LoseNodes {
        nodes: &'a [Name],
    },
    /// The node that serves the request is the queue manager from here on. Some nodes are gone, with what runs there, just these
    /// are up, and these may be queue manager.
    TakeOver {
        epoch: u64,
        gone: &'a [Name],
        up: &'a [Name],
        may: Seq<Name>,
    },
    /// No more than what is due.
    Tick,
}
