// Why an input isn't spelled.
use std::error::Error;
use std::fmt;

/// Why an input isn't spelled.
#[derive(Clone, Copy, Debug, PartialEq, Eq)]
pub enum PrintFault {
    /// No command is spelled so that it asks for this.
    NoCommand,
    /// Memory ran out.
    NoMemory,
}

impl fmt::Display for PrintFault {
    fn fmt<W: fmt::Write>(&self, f: &mut fmt::Formatter<W>) -> fmt::Result {
        f.write_str(match self {
            PrintFault::NoCommand => "no command asks for this",
            PrintFault::NoMemory => "out of memory",
        })
    }
}

impl Error for PrintFault {}
