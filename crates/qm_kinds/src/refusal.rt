// Why a request is refused.
ghost use Rattle.std.specs.Prelude.{Some};
ghost use Rattle.qm_kinds.specs.Words.{parse_kind_text};

use crate::entry::EntryState;
use crate::name::Name;
use crate::query::Listing;
use crate::queue::QueueState;
use crate::request::NameOrNumber;
use std::fmt;

/// What still names a thing that should go.
#[derive(Clone, Copy)]
pub enum Holder {
    Queue(Name),
    Entry(u32),
    /// It is never given up.
    Always,
}

/// What is wrong with a command.
#[derive(Clone, Copy, Debug, PartialEq, Eq)]
pub enum ParseKind {
    Form,
    Word,
    Ambiguous,
    Qualifier,
    Value,
    Missing,
    Extra,
    Conflict,
    Hex,
    Cut,
    NoEnd,
    After,
    Code,
    Repeated,
    NotBuilt,
}

impl fmt::Display for ParseKind {
    ghost output = { λ kind. Some (parse_kind_text kind) };

    fn fmt<W: fmt::Write>(&self, f: &mut fmt::Formatter<W>) -> fmt::Result {
        f.write_str(match self {
            ParseKind::Form => "form",
            ParseKind::Word => "word",
            ParseKind::Ambiguous => "ambiguous",
            ParseKind::Qualifier => "qualifier",
            ParseKind::Value => "value",
            ParseKind::Missing => "missing",
            ParseKind::Extra => "extra",
            ParseKind::Conflict => "conflict",
            ParseKind::Hex => "hex",
            ParseKind::Cut => "cut",
            ParseKind::NoEnd => "noend",
            ParseKind::After => "after",
            ParseKind::Code => "code",
            ParseKind::Repeated => "repeated",
            ParseKind::NotBuilt => "notbuilt",
        })
    }
}

/// Why a call was refused. A refused call changes nothing.
#[derive(Clone, Copy)]
pub enum Refusal {
    NoSuchQueue { name: Name },
    NoSuchEntry { number: u32 },
    NoSuchForm { wanted: NameOrNumber },
    NoSuchCharacteristic { wanted: NameOrNumber },
    DuplicateQueue,
    DuplicateForm,
    DuplicateCharacteristic,
    QueueNotStopped { state: QueueState },
    Referenced { by: Holder },
    WrongKind,
    NotRunning,
    StaleRun { next: u64 },
    NoSuchFile,
    SpoolFull,
    EntriesFull,
    QueuesFull,
    NumbersSpent,
    NotHeld,
    GenericTarget { name: Name },
    BadValue,
    NodeDown,
    NoSuchNode { name: Name },
    NotRestartable,
    /// The byte of the command at which it goes wrong, counted from 0.
    ParseFault { place: usize, kind: ParseKind },
    EntryBusy { state: EntryState },
    NoContext,
    NoMore { listing: Listing },
}
