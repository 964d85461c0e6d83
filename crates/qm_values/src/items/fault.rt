// Why bytes aren't a list of items.
ghost use Rattle.std.specs.Prelude.{◌≡◌};
ghost use Rattle.qm_values.specs.declared.items.fault.ItemFault.TheVariants.{NoMemory};

use std::alloc::{AllocError, AllocFailed};

/// The first fault of a list of items. Places are counted in bytes, from 0.
#[derive(Clone, Copy, Debug, PartialEq, Eq)]
pub enum ItemFault {
    /// The item that begins at this place is cut short: fewer than four bytes stand there, or fewer than its length says.
    Cut { place: usize },
    /// The bytes end at this place, where an item or the end of the list should stand.
    NoEnd { place: usize },
    /// The list has ended, and bytes stand behind it, from this place on.
    After { place: usize },
    /// Memory ran out.
    NoMemory,
}

impl From<AllocError> for ItemFault {
    ghost from_gives = { λ _ fault. fault ≡ NoMemory };

    fn from(_: AllocError) -> ItemFault {
        ItemFault::NoMemory
    }
}

impl<T: Drop> From<AllocFailed<T>> for ItemFault {
    ghost from_gives = { λ _ fault. fault ≡ NoMemory };

    fn from(_: AllocFailed<T>) -> ItemFault {
        ItemFault::NoMemory
    }
}
