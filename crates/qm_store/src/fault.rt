// Why a queue database can't be made, opened or appended to.
ghost use Rattle.std.specs.Prelude.{◌≡◌};
ghost use Rattle.qm_store.specs.declared.fault.WriteFault.TheVariants as writing;
ghost use Rattle.qm_store.specs.Faults.{making_fault};

use qm_disk::DiskFault;
use std::alloc::{AllocError, AllocFailed};
use thiserror::Error;

/// Why no database was made, or no epoch begun.
#[derive(Clone, Copy, Debug, PartialEq, Eq, Error)]
pub enum WriteFault {
    /// The device failed.
    #[error("the disk failed")]
    Disk,
    /// The file would take so many bytes, which is more than its cap. Nothing has changed.
    #[error("full: {need} bytes needed, {cap} allowed")]
    Full { need: u64, cap: u64 },
    /// Memory ran out.
    #[error("out of memory")]
    NoMemory,
}

/// Why a record isn't appended.
#[derive(Clone, Copy, Debug, PartialEq, Eq, Error)]
pub enum AppendFault {
    /// The device failed. The files have to be loaded again, which tells whether the record is there.
    #[error("the disk failed")]
    Disk,
    /// The record is of another epoch than the database. Nothing has changed.
    #[error("fenced: epoch {held} is held, {current} is current")]
    Fenced { held: u64, current: u64 },
    /// With the record the live queue file would take so many bytes, which is more than its cap. Nothing has changed.
    #[error("full: {need} bytes needed, {cap} allowed")]
    Full { need: u64, cap: u64 },
}

impl From<DiskFault> for WriteFault {
    ghost from_gives = { λ _ e. e ≡ writing.Disk };

    fn from(_: DiskFault) -> Self {
        WriteFault::Disk
    }
}

impl From<AllocError> for WriteFault {
    ghost from_gives = { λ _ e. e ≡ writing.NoMemory };

    fn from(_: AllocError) -> Self {
        WriteFault::NoMemory
    }
}

impl<T: Drop> From<AllocFailed<T>> for WriteFault {
    ghost from_gives = { λ _ e. e ≡ writing.NoMemory };

    fn from(_: AllocFailed<T>) -> Self {
        WriteFault::NoMemory
    }
}

impl From<qm_glog::MakeFault> for WriteFault {
    ghost from_gives = { λ fault e. e ≡ making_fault fault };

    fn from(fault: qm_glog::MakeFault) -> Self {
        match fault {
            qm_glog::MakeFault::Disk => WriteFault::Disk,
            qm_glog::MakeFault::NoMemory => WriteFault::NoMemory,
        }
    }
}
