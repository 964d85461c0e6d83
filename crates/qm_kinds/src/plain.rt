// Entries as most of them are, in little room.
ghost use Rattle.std.specs.Prelude.{◌≡◌, ◌≤◌, IfSome, IsTrue};
ghost use Rattle.qm_kinds.specs.Listed.{IsUsual, entry_of_plain, state_of_plain};

use crate::entry::{Entry, EntryState, JobKind, JobRetain};
use crate::form::CharacteristicSet;
use crate::mark::Mark;
use crate::moment::Moment;
use crate::packed::PackedNames;

/// The state of a job that doesn't run.
#[derive(Clone, Copy)]
pub(crate) enum PlainState {
    Pending,
    Holding,
    Timed { at: Moment },
    Retained { status: u32, until: Option<Moment> },
}

/// An entry whose job doesn't run, that asks for no characteristics, has no mark, and is kept as its queue says. Its names take no more
/// room together than those of most entries do.
#[derive(Drop)]
pub(crate) struct PlainEntry {
    pub(crate) after: Option<Moment>,
    pub(crate) state: PlainState,
    pub(crate) number: u32,
    pub(crate) size: u32,
    pub(crate) names: PackedNames,
    pub(crate) kind: JobKind,
    pub(crate) priority: u8,
    pub(crate) held: bool,
    pub(crate) restart: bool,
    pub(crate) copies: u8,
    pub(crate) flag: bool,
    pub(crate) again: bool,
}

impl PlainState {
    // The state, if the job doesn't run.
    fn of(state: &EntryState) -> Option<PlainState>
        ensures { IfSome result (λ plain. state_of_plain plain ≡ state.now) }
    {
        match state {
            EntryState::Pending => Some(PlainState::Pending),
            EntryState::Holding => Some(PlainState::Holding),
            EntryState::Timed { at } => Some(PlainState::Timed { at: *at }),
            EntryState::Retained { status, until } => Some(PlainState::Retained {
                status: *status,
                until: *until,
            }),
            EntryState::Running { .. } | EntryState::Aborting { .. } => None,
        }
    }

    /// The state.
    pub(crate) fn state(&self) -> EntryState
        ensures { result ≡ state_of_plain self.now }
    {
        match self {
            PlainState::Pending => EntryState::Pending,
            PlainState::Holding => EntryState::Holding,
            PlainState::Timed { at } => EntryState::Timed { at: *at },
            PlainState::Retained { status, until } => EntryState::Retained {
                status: *status,
                until: *until,
            },
        }
    }
}

// Whether an entry has nothing of what a plain one leaves out, but for its state and the length of its names.
fn is_usual(entry: &Entry) -> bool
    ensures { IsTrue result → IsUsual entry.now }
{
    entry.characteristics.0 == 0
        && entry.mark.as_bytes().is_empty()
        && matches!(entry.retain, JobRetain::Default)
}

impl PlainEntry {
    /// The entry, if it is a plain one.
    pub(crate) fn of(entry: &Entry) -> Option<PlainEntry>
        ensures { IfSome result (λ plain. entry_of_plain plain ≡ entry.now) }
    {
        if !is_usual(entry) {
            return None;
        }
        Some(PlainEntry {
            after: entry.after,
            state: PlainState::of(&entry.state)?,
            number: entry.number,
            size: entry.size,
            names: PackedNames::of(entry)?,
            kind: entry.kind,
            priority: entry.priority,
            held: entry.held,
            restart: entry.restart,
            copies: entry.copies,
            flag: entry.flag,
            again: entry.again,
        })
    }

    /// The entry.
    pub(crate) fn entry(&self) -> Entry
        ensures { result ≡ entry_of_plain self.now }
    {
        Entry {
            number: self.number,
            kind: self.kind,
            home: self.names.home(),
            name: self.names.name(),
            user: self.names.user(),
            file: self.names.file(),
            size: self.size,
            priority: self.priority,
            after: self.after,
            held: self.held,
            retain: JobRetain::Default,
            restart: self.restart,
            characteristics: CharacteristicSet::new(),
            form: self.names.form(),
            copies: self.copies,
            flag: self.flag,
            mark: Mark::new(&[]).unwrap(),
            again: self.again,
            state: self.state.state(),
        }
    }
}
