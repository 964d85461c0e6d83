// Why a call can't be read.
use qm_kinds::ParseKind;

/// What is wrong with a call, and where its item begins, counted in bytes of the list from 0.
#[derive(Clone, Copy, Debug, PartialEq, Eq)]
pub(crate) struct Fault {
    pub(crate) place: usize,
    pub(crate) kind: ParseKind,
}

/// Why a call can't be read.
#[derive(Clone, Copy, Debug, PartialEq, Eq)]
pub enum CallFault {
    /// What is wrong with an item, and the byte of the list at which it begins, counted from 0.
    At { place: usize, kind: ParseKind },
    /// Memory ran out.
    NoMemory,
}
