// Why a text gives no moment.
use std::error::Error;
use std::fmt;

/// Why a text gives no moment.
#[derive(Clone, Copy, Debug, PartialEq, Eq)]
pub enum TimeFault {
    /// The text is no time. `place` is the first byte with which none goes on, counted from 0; it is the length of a
    /// text that ends too early.
    Form { place: usize },
    /// The text names a date that doesn't exist, or a moment before 17-NOV-1858 or behind 31-DEC-9999.
    Range,
}

impl fmt::Display for TimeFault {
    fn fmt<W: fmt::Write>(&self, f: &mut fmt::Formatter<W>) -> fmt::Result {
        match self {
            TimeFault::Form { place } => write!(f, "no time at byte {place}"),
            TimeFault::Range => f.write_str("out of range"),
        }
    }
}

impl Error for TimeFault {}
