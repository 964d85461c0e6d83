// Why a log can't be made, opened or appended to.
ghost use Rattle.std.specs.Prelude.{◌≡◌};
ghost use Rattle.qm_glog.specs.declared.fault.MakeFault.TheVariants as making;
ghost use Rattle.qm_glog.specs.declared.fault.OpenFault.TheVariants as opening;
ghost use Rattle.qm_glog.specs.declared.fault.AppendFault.TheVariants as appending;

use qm_disk::DiskFault;
use std::alloc::{AllocError, AllocFailed};
use thiserror::Error;

/// Why no log was made of records.
#[derive(Clone, Copy, Debug, PartialEq, Eq, Error)]
pub enum MakeFault {
    /// The disk failed. The file may hold anything.
    #[error("the disk failed")]
    Disk,
    /// Memory ran out. Nothing has changed.
    #[error("out of memory")]
    NoMemory,
}

/// Why a file can't be opened. Nothing has changed.
#[derive(Clone, Copy, Debug, PartialEq, Eq, Error)]
pub enum OpenFault {
    /// The disk failed.
    #[error("the disk failed")]
    Disk,
    /// The file doesn't begin as it has to. Its first byte is this one; an empty file shows 0.
    #[error("no queue file: it begins with byte {byte}")]
    Unformatted { byte: u8 },
    /// In this file, at this place in bytes, a record is cut short, or the file ends where a gate should stand.
    #[error("file {file} is damaged at byte {place}")]
    Damaged { file: u8, place: u64 },
    /// Memory ran out.
    #[error("out of memory")]
    NoMemory,
}

/// Why a record isn't appended.
#[derive(Clone, Copy, Debug, PartialEq, Eq, Error)]
pub enum AppendFault {
    /// The disk failed. The file has to be opened again, which tells whether the record is there.
    #[error("the disk failed")]
    Disk,
    /// With the record the file would take so many bytes, which is more than its cap. Nothing has changed.
    #[error("full: {need} bytes needed, {cap} allowed")]
    Full { need: u64, cap: u64 },
}

impl From<DiskFault> for MakeFault {
    ghost from_gives = { λ _ e. e ≡ making.Disk };

    fn from(_: DiskFault) -> Self {
        MakeFault::Disk
    }
}

impl From<AllocError> for MakeFault {
    ghost from_gives = { λ _ e. e ≡ making.NoMemory };

    fn from(_: AllocError) -> Self {
        MakeFault::NoMemory
    }
}

impl<T: Drop> From<AllocFailed<T>> for MakeFault {
    ghost from_gives = { λ _ e. e ≡ making.NoMemory };

    fn from(_: AllocFailed<T>) -> Self {
        MakeFault::NoMemory
    }
}

impl From<DiskFault> for OpenFault {
    ghost from_gives = { λ _ e. e ≡ opening.Disk };

    fn from(_: DiskFault) -> Self {
        OpenFault::Disk
    }
}

impl From<AllocError> for OpenFault {
    ghost from_gives = { λ _ e. e ≡ opening.NoMemory };

    fn from(_: AllocError) -> Self {
        OpenFault::NoMemory
    }
}

impl From<DiskFault> for AppendFault {
    ghost from_gives = { λ _ e. e ≡ appending.Disk };

    fn from(_: DiskFault) -> Self {
        AppendFault::Disk
    }
}
