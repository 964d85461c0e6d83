// What users and programs ask for that changes the system, by its number: records and calls by item lists share the numbers.
ghost use Rattle.std.specs.Prelude.{◌≡◌, ℕ, Some};
ghost use Rattle.qm_kinds.specs.Requests.{request_kind, request_number};
ghost use Rattle.qm_kinds.specs.declared.request_kind.RequestKind.{RequestKind as AnyKind};

/// What a request of a user or a program is, without what it says.
#[derive(Clone, Copy)]
pub enum RequestKind {
    /// Bytes are added to a file.
    Append,
    /// Lines are added to a file.
    Fill,
    /// A file is deleted.
    Drop,
    /// A form is defined.
    DefineForm,
    /// A form is deleted.
    DeleteForm,
    /// A characteristic is defined.
    DefineCharacteristic,
    /// A characteristic is deleted.
    DeleteCharacteristic,
    /// A queue is made, or made anew.
    InitializeQueue,
    /// Other settings of a queue.
    SetQueue,
    /// A queue is started.
    StartQueue,
    /// A queue is stopped.
    StopQueue,
    /// A job of a queue is cut short.
    AbortJob,
    /// A queue is deleted.
    DeleteQueue,
    /// The jobs that wait in a queue go to another.
    Merge,
    /// A job is submitted.
    Submit,
    /// An entry is changed.
    SetEntry,
    /// An entry is deleted.
    DeleteEntry,
}

impl RequestKind {
    /// The number of the kind, 1 to 17.
    pub fn number(self) -> u8
        ensures { result ≡ request_number self }
    {
        match self {
            RequestKind::Append => 1,
            RequestKind::Fill => 2,
            RequestKind::Drop => 3,
            RequestKind::DefineForm => 4,
            RequestKind::DeleteForm => 5,
            RequestKind::DefineCharacteristic => 6,
            RequestKind::DeleteCharacteristic => 7,
            RequestKind::InitializeQueue => 8,
            RequestKind::SetQueue => 9,
            RequestKind::StartQueue => 10,
            RequestKind::StopQueue => 11,
            RequestKind::AbortJob => 12,
            RequestKind::DeleteQueue => 13,
            RequestKind::Merge => 14,
            RequestKind::Submit => 15,
            RequestKind::SetEntry => 16,
            RequestKind::DeleteEntry => 17,
        }
    }

    /// The kind of this number, if there is one.
    pub fn of(number: u16) -> Option<RequestKind>
        ensures { result ≡ request_kind number }
    {
        match number {
            1 => Some(RequestKind::Append),
            2 => Some(RequestKind::Fill),
            3 => Some(RequestKind::Drop),
            4 => Some(RequestKind::DefineForm),
            5 => Some(RequestKind::DeleteForm),
            6 => Some(RequestKind::DefineCharacteristic),
            7 => Some(RequestKind::DeleteCharacteristic),
            8 => Some(RequestKind::InitializeQueue),
            9 => Some(RequestKind::SetQueue),
            10 => Some(RequestKind::StartQueue),
            11 => Some(RequestKind::StopQueue),
            12 => Some(RequestKind::AbortJob),
            13 => Some(RequestKind::DeleteQueue),
            14 => Some(RequestKind::Merge),
            15 => Some(RequestKind::Submit),
            16 => Some(RequestKind::SetEntry),
            17 => Some(RequestKind::DeleteEntry),
            _ => None,
        }
    }
}

/// Each kind is the one of its number, and no number is that of two kinds.
pub fn each_kind_has_a_number()
    ensures again { (kind : AnyKind) → request_kind (request_number kind) ≡ Some kind }
    ensures back { (number : ℕ) (kind : AnyKind) → request_kind number ≡ Some kind → number ≡ request_number kind }
{}
