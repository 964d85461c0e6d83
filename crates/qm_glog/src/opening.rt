// How a log comes from a file.
ghost use Rattle.std.specs.Prelude.{◌≡◌, ◌≤◌, IsTrue, IsErr, length, IfOk, OnOk, IsErrOf};
ghost use Rattle.qm_disk.specs.Disk.{Only, OnlyLooks, TellsFaults};
ghost use Rattle.qm_glog.specs.Log.{IsAsLeft, StandsIn};
ghost use Rattle.qm_glog.specs.Opened.{Opens};
ghost use Rattle.qm_kinds.specs.declared.limits.TheConstants.{GREATEST_CAP};

use crate::OpenFault;
use crate::log::Log;
use crate::reading::read_records;
use qm_disk::{Disk, DiskFault};
use std::alloc::Global;

// Syncs a file, and tells its size.
fn synced_size<D: Disk>(disk: &mut D, file: u8) -> Result<u64, DiskFault>
    requires { file ≤ 2 }
    ensures size { IfOk result (λ size. IsTrue D.meaning.tells → size ≡ length (D.meaning.seen disk.old file)) }
    ensures durable { OnOk result (IsTrue D.meaning.tells
        → Only (D.meaning.seen disk.new file) (D.meaning.may_leave disk.new file)) }
    ensures looks { OnlyLooks D.meaning disk.old disk.new }
    ensures faults { TellsFaults D.meaning disk.old disk.new (IsErr result) }
{
    disk.sync(file)?;
    disk.size(file)
}

/// Reads the records of a file up to the first gate that isn't open, and keeps them. It begins with a sync, so
/// that what it has read is on the disk: else a crash could take a record away that a caller acted on. It reads
/// each byte of a record once. In memory it has the bodies and eight bytes for each; where the file is larger than
/// the cap, memory is moved as it grows. Nothing is changed.
pub fn open<D: Disk>(alloc: Global, disk: &mut D, file: u8, cap: u64) -> Result<Log, OpenFault>
    requires file { file ≤ 2 }
    requires cap { cap ≤ GREATEST_CAP }

    // The records are those of the file. An empty file is unformatted, and one without a closed gate is damaged.
    ensures found { IsTrue D.meaning.tells → Opens file (D.meaning.seen disk.old file) result }
    ensures place { IfOk result (StandsIn file cap) }
    ensures left { IfOk result (λ log. IsTrue D.meaning.tells → IsAsLeft D.meaning log disk.new) }

    // The files read as before, and a crash at any moment leaves what it might before.
    ensures looks { OnlyLooks D.meaning disk.old disk.new }
    ensures faults { TellsFaults D.meaning disk.old disk.new (IsErrOf result OpenFault.Disk) }
{
    let size = synced_size(disk, file)?;
    if size == 0 {
        return Err(OpenFault::Unformatted { byte: 0 });
    }
    let (bodies, end) = read_records(alloc, disk, file, size, cap)?;
    Ok(Log::of(alloc, file, cap, bodies, end))
}
