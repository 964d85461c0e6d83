// Why events lead to no world.
ghost use Rattle.std.specs.Prelude.{◌≡◌};
ghost use Rattle.qm_world.specs.declared.end.Stop.TheVariants.{NoMemory};

use std::alloc::{AllocError, AllocFailed};

/// Why a walk gave no world.
#[derive(Clone, Copy, Debug, PartialEq, Eq)]
pub enum WalkEnd {
    /// The event of this index, counted from 0, is the first that can't come where it stands.
    Illegal { index: usize },
    /// Memory ran out.
    NoMemory,
}

/// Why one event led to no world.
#[derive(Clone, Copy)]
pub(crate) enum Stop {
    /// It can't come there.
    Illegal,
    /// Memory ran out.
    NoMemory,
}

impl From<AllocError> for Stop {
    ghost from_gives = { λ _ stop. stop ≡ NoMemory };

    fn from(_: AllocError) -> Stop {
        Stop::NoMemory
    }
}
