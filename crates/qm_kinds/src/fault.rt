// What is wrong with bytes that are no name and no mark.
use std::error::Error;
use std::fmt;

/// Why a text isn't a name or a pattern.
#[derive(Clone, Copy, Debug)]
pub enum NameFault {
    /// It has no byte.
    Empty,
    /// It has more than 39 bytes.
    TooLong { length: usize },
    /// The byte at this place, counted from 0, is the first that may not stand there.
    BadByte { place: usize },
}

impl fmt::Display for NameFault {
    fn fmt<W: fmt::Write>(&self, f: &mut fmt::Formatter<W>) -> fmt::Result {
        match self {
            NameFault::Empty => f.write_str("no byte"),
            NameFault::TooLong { length } => write!(f, "{length} bytes"),
            NameFault::BadByte { place } => write!(f, "byte {place} may not stand there"),
        }
    }
}

impl Error for NameFault {}

/// Why bytes aren't a mark.
#[derive(Clone, Copy, Debug)]
pub enum MarkFault {
    /// There are more than 255.
    TooLong { length: usize },
}

impl fmt::Display for MarkFault {
    fn fmt<W: fmt::Write>(&self, f: &mut fmt::Formatter<W>) -> fmt::Result {
        let MarkFault::TooLong { length } = self;
        write!(f, "{length} bytes")
    }
}

impl Error for MarkFault {}
