// What a listing is asked for, and its rows.
use crate::boxed::Boxed;
use crate::form::{Characteristic, Form};
use crate::listed::ListedEntry;
use crate::name::Name;
use crate::pattern::Pattern;
use crate::queue::Queue;
use crate::seq::Seq;

/// What is listed.
#[derive(Clone, Copy, Debug)]
pub enum Listing {
    Queues,
    /// The entries of the queue that was listed last.
    Jobs,
    Entries,
    Forms,
    Characteristics,
    Manager,
    /// Nothing: every listing that was begun is ended.
    Cancel,
}

/// The kinds of queue that are listed.
#[derive(Clone, Copy)]
pub struct Kinds {
    pub batch: bool,
    pub print: bool,
    pub generic_batch: bool,
    pub generic_print: bool,
}

/// The last row that a listing gave.
#[derive(Clone, Copy)]
pub enum After {
    Name(Name),
    Number(u32),
}

/// What is asked for, without a change.
#[derive(Clone, Copy)]
pub struct Query {
    pub listing: Listing,
    pub pattern: Pattern,
    /// The one entry that is asked for.
    pub number: Option<u32>,
    /// The user whose entries are listed, or all users.
    pub user: Option<Name>,
    pub kinds: Kinds,
    /// The queue whose entries are listed.
    pub queue: Option<Name>,
    pub after: Option<After>,
    /// Whether one row is asked for, the first behind `after`.
    pub single: bool,
}

/// A row of a listing.
#[derive(Drop)]
pub enum Row {
    Queue(Boxed<Queue>),
    Entry(ListedEntry),
    Form(Form),
    Characteristic(Characteristic),
    Manager {
        node: Name,
        epoch: u64,
        may: Seq<Name>,
    },
}
