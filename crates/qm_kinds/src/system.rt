// A queue system as a whole, and its nodes.
use crate::entry::Entry;
use crate::file::File;
use crate::form::{Characteristic, Form};
use crate::moment::Moment;
use crate::name::Name;
use crate::queue::Queue;
use crate::seq::Seq;

/// A node of the cluster.
#[derive(Clone, Copy)]
pub struct Node {
    pub name: Name,
    pub up: bool,
}

/// All that the queue manager keeps.
#[derive(Drop)]
pub struct System {
    pub nodes: Seq<Node>,
    /// The nodes on which the queue manager may run.
    pub may: Seq<Name>,
    /// By number.
    pub forms: Seq<Form>,
    /// By number.
    pub characteristics: Seq<Characteristic>,
    /// By name, and then by type, none first.
    pub files: Seq<File>,
    /// By name.
    pub queues: Seq<Queue>,
    /// By number.
    pub entries: Seq<Entry>,
    /// The number of the next entry.
    pub next_entry: u32,
    /// The number of the next run.
    pub next_run: u64,
    /// The moment of the last change.
    pub last: Moment,
}
