// The kinds of records.
ghost use Rattle.std.specs.Prelude.{◌≡◌};
ghost use Rattle.qm_record.specs.Kinds.{number_of, kind_of, other_kind, is_row_kind};

use qm_kinds::RequestKind;

/// What a record is, told by its number. These are the kinds that are spelled so far: all requests, and rows of an image.
#[derive(Clone, Copy)]
pub enum RecordKind {
    /// What a user or a program asked for.
    Request(RequestKind),
    Mark,
    Done,
    Tick,
    NodeUp,
    NodeLost,
    Took,
    Head,
    Form,
    Queue,
}

impl RecordKind {
    /// The number.
    pub(crate) fn number(self) -> u8
        ensures { result ≡ number_of self }
    {
        match self {
            RecordKind::Request(kind) => kind.number(),
            RecordKind::Mark => 18,
            RecordKind::Done => 19,
            RecordKind::Tick => 20,
            RecordKind::NodeUp => 21,
            RecordKind::NodeLost => 22,
            RecordKind::Took => 23,
            RecordKind::Head => 33,
            RecordKind::Form => 34,
            RecordKind::Queue => 37,
        }
    }

    /// The kind of this number, if there is one.
    pub(crate) fn of(number: u8) -> Option<RecordKind>
        ensures { result ≡ kind_of number }
    {
        match RequestKind::of(u16::from(number)) {
            Some(kind) => Some(RecordKind::Request(kind)),
            None => other_kind(number),
        }
    }

    /// Whether it is a row of an image.
    pub(crate) fn is_row(self) -> bool
        ensures { result ≡ is_row_kind self }
    {
        match self {
            RecordKind::Head | RecordKind::Form | RecordKind::Queue => true,
            _ => false,
        }
    }
}

// The kind of this number, if it is one that neither a user nor a program asks for.
fn other_kind(number: u8) -> Option<RecordKind>
    ensures { result ≡ other_kind number }
{
    match number {
        18 => Some(RecordKind::Mark),
        19 => Some(RecordKind::Done),
        20 => Some(RecordKind::Tick),
        21 => Some(RecordKind::NodeUp),
        22 => Some(RecordKind::NodeLost),
        23 => Some(RecordKind::Took),
        33 => Some(RecordKind::Head),
        34 => Some(RecordKind::Form),
        37 => Some(RecordKind::Queue),
        _ => None,
    }
}
