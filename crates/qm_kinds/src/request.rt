// What can be asked for that changes the system.
use crate::entry::{JobKind, JobRetain};
use crate::file::FileName;
use crate::form::{Characteristic, Form};
use crate::mark::Mark;
use crate::moment::Moment;
use crate::name::Name;
use crate::queue::{NewQueue, QueueChange};
use crate::seq::Seq;

/// A form or a characteristic, by its name or by its number.
#[derive(Clone, Copy)]
pub enum NameOrNumber {
    Name(Name),
    Number(u16),
}

/// How a queue is stopped.
#[derive(Clone, Copy)]
pub enum StopMode {
    /// Its runs wait.
    Pause,
    /// Its runs end, and no job starts.
    Next,
    /// Its runs are cut short.
    Reset,
}

/// What a user asks for who submits a job.
#[derive(Drop)]
pub struct Job {
    pub user: Name,
    pub kind: JobKind,
    pub queue: Name,
    pub file: FileName,
    pub name: Name,
    /// 0 to 255, the greater first.
    pub priority: u8,
    /// The moment before which the job doesn't start.
    pub after: Option<Moment>,
    pub hold: bool,
    pub retain: JobRetain,
    /// Whether the job may start again after its run was cut short.
    pub restart: bool,
    pub characteristics: Seq<NameOrNumber>,
    /// The form of a print job. One that names none has the form DEFAULT.
    pub form: Option<NameOrNumber>,
    /// At least 1.
    pub copies: u8,
    /// Whether a page that names the job stands before its text.
    pub flag: bool,
}

/// What is changed of an entry. What is none stays as it is.
#[derive(Drop)]
pub struct EntryChange {
    /// Whether it waits no longer, neither held nor for a moment.
    pub release: bool,
    pub hold: bool,
    /// Some of none takes the moment away.
    pub after: Option<Option<Moment>>,
    pub priority: Option<u8>,
    pub name: Option<Name>,
    pub characteristics: Option<Seq<NameOrNumber>>,
    pub form: Option<NameOrNumber>,
    pub queue: Option<Name>,
    pub restart: Option<bool>,
    pub retain: Option<JobRetain>,
}

/// What can be asked of the queue manager that changes the system.
#[derive(Drop)]
pub enum Request {
    Append {
        file: FileName,
        bytes: Seq<u8>,
    },
    Fill {
        file: FileName,
        lines: u16,
    },
    Drop {
        file: FileName,
    },
    DefineForm(Form),
    DeleteForm {
        name: Name,
    },
    DefineCharacteristic(Characteristic),
    DeleteCharacteristic {
        name: Name,
    },
    InitializeQueue(NewQueue),
    SetQueue {
        name: Name,
        change: QueueChange,
    },
    StartQueue {
        name: Name,
        change: QueueChange,
    },
    StopQueue {
        name: Name,
        how: StopMode,
    },
    AbortJob {
        queue: Name,
        entry: Option<u32>,
        requeue: bool,
    },
    DeleteQueue {
        name: Name,
    },
    Merge {
        to: Name,
        from: Name,
    },
    Submit(Job),
    SetEntry {
        entry: u32,
        change: EntryChange,
    },
    DeleteEntry {
        entry: u32,
    },
    Mark {
        run: u64,
        value: Mark,
    },
    Done {
        run: u64,
        status: u32,
    },
    Tick,
    NodeUp,
    NodeLost {
        nodes: Seq<Name>,
    },
    Took {
        epoch: u64,
        gone: Seq<Name>,
        up: Seq<Name>,
        may: Seq<Name>,
    },
}
