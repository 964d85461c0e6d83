// Why a command can't be read.
use qm_kinds::ParseKind;
use std::error::Error;
use std::fmt;

/// Why a command can't be read.
#[derive(Clone, Copy, Debug, PartialEq, Eq)]
pub enum DclFault {
    /// What is wrong with the text, and the byte at which it stands, counted from 0.
    At { place: usize, kind: ParseKind },
    /// Memory ran out.
    NoMemory,
}

impl fmt::Display for DclFault {
    fn fmt<W: fmt::Write>(&self, f: &mut fmt::Formatter<W>) -> fmt::Result {
        match self {
            DclFault::At { place, kind } => write!(f, "byte {place}: {kind}"),
            DclFault::NoMemory => f.write_str("out of memory"),
        }
    }
}

impl Error for DclFault {}
