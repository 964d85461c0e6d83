// Queues, their settings, and queues that are made.
ghost use Rattle.std.specs.Prelude.{◌≡◌, IfOk, Some};
ghost use Rattle.qm_kinds.specs.Words.{queue_kind_text, queue_state_text};

use crate::form::CharacteristicSet;
use crate::name::Name;
use crate::request::NameOrNumber;
use crate::seq::Seq;
use std::alloc::{AllocError, Global};
use std::fmt;

/// What a queue is for. The first two are execution queues, which stand on one node. The others are generic:
/// they name execution queues of their kind, to which they pass their jobs on.
#[derive(Clone, Copy, PartialEq, Eq)]
pub enum QueueKind {
    Batch,
    Print,
    GenericBatch,
    GenericPrint,
}

#[derive(Clone, Copy, PartialEq, Eq)]
pub enum QueueState {
    Stopped,
    Started,
    Paused,
    /// It starts no more jobs, and stops once those that run have ended.
    Stopping,
}

impl fmt::Display for QueueKind {
    ghost output = { λ kind. Some (queue_kind_text kind) };

    fn fmt<W: fmt::Write>(&self, f: &mut fmt::Formatter<W>) -> fmt::Result {
        f.write_str(match self {
            QueueKind::Batch => "batch",
            QueueKind::Print => "print",
            QueueKind::GenericBatch => "generic batch",
            QueueKind::GenericPrint => "generic print",
        })
    }
}

impl fmt::Display for QueueState {
    ghost output = { λ state. Some (queue_state_text state) };

    fn fmt<W: fmt::Write>(&self, f: &mut fmt::Formatter<W>) -> fmt::Result {
        f.write_str(match self {
            QueueState::Stopped => "stopped",
            QueueState::Started => "started",
            QueueState::Paused => "paused",
            QueueState::Stopping => "stopping",
        })
    }
}

/// Which jobs a queue keeps in its listing after they end, where the job itself doesn't say.
#[derive(Clone, Copy)]
pub enum QueueRetain {
    Nothing,
    Failed,
    All,
}

/// A queue and its settings. An execution queue has a node and a device, a generic one neither.
#[derive(Drop)]
pub struct Queue {
    pub name: Name,
    pub kind: QueueKind,
    pub state: QueueState,
    pub node: Option<Name>,
    pub device: Option<Name>,
    /// How many jobs may run at once, 1 to 255.
    pub limit: u8,
    pub characteristics: CharacteristicSet,
    /// The form that is mounted, at a print queue.
    pub mounted: Option<Name>,
    /// The least and the greatest size of a job, in blocks.
    pub lower: u32,
    pub upper: u32,
    /// Whether, of two jobs of one priority, the smaller comes first.
    pub by_size: bool,
    pub retain: QueueRetain,
    /// The queues to which a generic queue passes jobs on.
    pub targets: Seq<Name>,
}

impl Queue {
    /// The same queue once more. Memory may run out.
    pub fn copy(&self, alloc: Global) -> Result<Queue, AllocError>
        ensures { IfOk result (λ copy. copy ≡ self.now) }
    {
        Ok(Queue {
            name: self.name,
            kind: self.kind,
            state: self.state,
            node: self.node,
            device: self.device,
            limit: self.limit,
            characteristics: self.characteristics,
            mounted: self.mounted,
            lower: self.lower,
            upper: self.upper,
            by_size: self.by_size,
            retain: self.retain,
            targets: Seq::of(Vec::from_slice(alloc, self.targets.as_slice())?),
        })
    }
}

/// Settings of a queue that a request gives.
#[derive(Drop)]
pub struct QueueChange {
    pub limit: Option<u8>,
    pub characteristics: Option<Seq<NameOrNumber>>,
    pub form: Option<NameOrNumber>,
    /// The least and the greatest size of a job, in blocks.
    pub blocks: Option<(u32, u32)>,
    pub by_size: Option<bool>,
    pub retain: Option<QueueRetain>,
}

/// A queue that is made, and the settings that are given for it. What is none has its default.
#[derive(Drop)]
pub struct NewQueue {
    pub name: Name,
    pub kind: QueueKind,
    /// The node of an execution queue: by default the one from which the request comes.
    pub node: Option<Name>,
    /// The device of an execution queue: by default it has the queue's name.
    pub device: Option<Name>,
    pub targets: Seq<Name>,
    pub change: QueueChange,
    /// Whether the queue is started.
    pub start: bool,
}
