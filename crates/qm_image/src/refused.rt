// Why a call gave nothing.
ghost use Rattle.std.specs.Prelude.{◌≡◌};
ghost use Rattle.qm_image.specs.declared.refused.Refused.TheVariants.{NoMemory};

use qm_kinds::Refusal;
use std::alloc::{AllocError, AllocFailed};

/// Why a call gave nothing. It changed no row.
#[derive(Clone, Copy)]
pub enum Refused {
    /// The rules of the queue system refuse it.
    By(Refusal),
    /// There is no memory left.
    NoMemory,
}

impl From<AllocError> for Refused {
    ghost from_gives = { λ _ e. e ≡ NoMemory };

    fn from(_error: AllocError) -> Refused {
        Refused::NoMemory
    }
}

impl<T: Drop> From<AllocFailed<T>> for Refused {
    ghost from_gives = { λ _ e. e ≡ NoMemory };

    fn from(_error: AllocFailed<T>) -> Refused {
        Refused::NoMemory
    }
}
