// What is wrong with a command.
ghost use Rattle.std.specs.Prelude.{◌≡◌};

use qm_kinds::ParseKind;
use std::error::Error;
use std::fmt;

/// What is wrong with the text of a command, and the byte at which it stands, counted from 0.
#[derive(Clone, Copy, Debug, PartialEq, Eq)]
pub struct Fault {
    pub place: usize,
    pub kind: ParseKind,
}

impl fmt::Display for Fault {
    fn fmt<W: fmt::Write>(&self, f: &mut fmt::Formatter<W>) -> fmt::Result {
        write!(f, "byte {}: {}", self.place, self.kind)
    }
}

impl Error for Fault {}

/// A fault of a kind at a place.
pub fn fault_at(place: usize, kind: ParseKind) -> Fault
    ensures { result ≡ record { place = place; kind = kind } }
{
    Fault { place, kind }
}
