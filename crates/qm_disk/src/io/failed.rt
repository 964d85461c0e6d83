// The one way in which a call of the outside fails.
use std::error::Error;
use std::fmt;

/// A call of the outside that failed: its count of faults rose in that call.
#[derive(Clone, Copy, Debug, PartialEq, Eq)]
pub struct Failed;

impl fmt::Display for Failed {
    ghost use Rattle.std.specs.Prelude.{Some, codes};

    ghost output = { λ _. Some (codes "the outside failed") };

    fn fmt<W: fmt::Write>(&self, f: &mut fmt::Formatter<W>) -> fmt::Result {
        f.write_str("the outside failed")
    }
}

impl Error for Failed {}
