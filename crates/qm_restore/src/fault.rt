// Why records aren't those of a queue file.
ghost use Rattle.std.specs.Prelude.{◌≡◌};
ghost use Rattle.qm_restore.specs.declared.fault.RestoreFault.TheVariants.{NoMemory};

use std::alloc::{AllocError, AllocFailed};

/// What is wrong with a record.
#[derive(Clone, Copy)]
pub enum Flaw {
    /// Its body spells no record.
    Unreadable,
    /// It should be a row of a new site and isn't, or the records end before that row.
    NoRow,
    /// It is a record behind the rows and can't stand there: a row; or a request that comes too early or from no node of the site,
    /// whose names or lists of nodes don't keep their rules, or that is refused.
    Refused,
}

/// Why records aren't those of a queue file.
#[derive(Clone, Copy)]
pub enum RestoreFault {
    /// The record of this index, counted from 0, is the first that can't stand there; where it is the count, the records end too
    /// early.
    Unlawful { index: usize, flaw: Flaw },
    /// Memory ran out.
    NoMemory,
}

impl From<AllocError> for RestoreFault {
    ghost from_gives = { λ _ fault. fault ≡ NoMemory };

    fn from(_: AllocError) -> RestoreFault {
        RestoreFault::NoMemory
    }
}

impl<T: Drop> From<AllocFailed<T>> for RestoreFault {
    ghost from_gives = { λ _ fault. fault ≡ NoMemory };

    fn from(_: AllocFailed<T>) -> RestoreFault {
        RestoreFault::NoMemory
    }
}
