// Why a request isn't done, and why a node doesn't take over.
ghost use Rattle.std.specs.Prelude.{◌≡◌};
ghost use Rattle.qm_acting.specs.declared.fault.AskFault.TheVariants.{NoMemory};

use qm_kinds::Refusal;
use std::alloc::AllocError;

/// Why a request wasn't done.
#[derive(Clone, Copy)]
pub enum AskFault {
    /// The rules of the queue system refuse it. Nothing has changed.
    Refused(Refusal),
    /// With its record the live queue file would take so many bytes, which is more than its cap. Nothing has changed.
    Full { need: u64, cap: u64 },
    /// The disk failed. Whether the record is there is known once the files are read again.
    Disk,
    /// Memory ran out. Nothing has changed.
    NoMemory,
}

/// Why a node didn't take over.
#[derive(Clone, Copy)]
pub enum TakeFault {
    /// With the epoch the master would take so many bytes, which is more than its cap. Nothing has changed.
    MasterFull { need: u64, cap: u64 },
    /// The disk failed before the epoch was known to be recorded.
    Epoch,
    /// The epoch is recorded. With the record of the takeover the live queue file would take so many bytes, which is more than
    /// its cap.
    Full { need: u64, cap: u64 },
    /// The epoch is recorded, and the disk failed behind it. Whether the record of the takeover is there is known once the
    /// files are read again.
    Record,
    /// Memory ran out. Nothing has changed.
    NoMemory,
}

/// Why the record of an accepted request wasn't written.
#[derive(Clone, Copy)]
pub(crate) enum RecordFault {
    /// With it the live queue file would take so many bytes, which is more than its cap. Nothing has changed.
    Full { need: u64, cap: u64 },
    /// The disk failed.
    Disk,
}

impl From<AllocError> for AskFault {
    ghost from_gives = { λ _ fault. fault ≡ NoMemory };

    fn from(_: AllocError) -> AskFault {
        AskFault::NoMemory
    }
}
