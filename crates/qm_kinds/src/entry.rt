// Jobs as entries: their states, their kinds, and how long they are kept.
use crate::file::FileName;
use crate::form::CharacteristicSet;
use crate::mark::Mark;
use crate::moment::Moment;
use crate::name::Name;

#[derive(Clone, Copy, PartialEq, Eq)]
pub enum JobKind {
    Batch,
    Print,
}

/// Whether a job is kept in its queue's listing after it ends.
#[derive(Clone, Copy)]
pub enum JobRetain {
    /// As the queue says.
    Default,
    Always,
    Failed,
    Until(Moment),
}

/// What becomes of an aborting job once its run has ended.
#[derive(Clone, Copy, PartialEq, Eq)]
pub enum Fate {
    Requeue,
    Finish,
    Remove,
}

#[derive(Clone, Copy, PartialEq, Eq)]
pub enum EntryState {
    Pending,
    Holding,
    Timed {
        at: Moment,
    },
    Running {
        queue: Name,
        node: Name,
        run: u64,
    },
    Aborting {
        queue: Name,
        node: Name,
        run: u64,
        fate: Fate,
    },
    Retained {
        status: u32,
        until: Option<Moment>,
    },
}

/// A job in a queue. It stands in its home, the queue to which it was submitted or moved, or, while its run lasts,
/// in the queue where it runs. What listings ask of each entry stands in front, and the mark, which they don't ask, at the end.
#[derive(Clone, Copy)]
pub struct Entry {
    /// Entries are numbered from 1 on, and no number is used again.
    pub number: u32,
    /// Blocks of 512 bytes.
    pub size: u32,
    pub home: Name,
    pub state: EntryState,
    pub name: Name,
    pub user: Name,
    pub kind: JobKind,
    /// 0 to 255, the greater first.
    pub priority: u8,
    pub held: bool,
    /// Whether the job may start again after its run was cut short.
    pub restart: bool,
    pub copies: u8,
    /// Whether a page that names the job stands before its text.
    pub flag: bool,
    /// Whether the job was put back into its queue after a run.
    pub again: bool,
    /// The moment before which the job doesn't start.
    pub after: Option<Moment>,
    pub retain: JobRetain,
    pub characteristics: CharacteristicSet,
    pub file: FileName,
    /// The form of a print job.
    pub form: Option<Name>,
    /// The last checkpoint that was recorded.
    pub mark: Mark,
}
