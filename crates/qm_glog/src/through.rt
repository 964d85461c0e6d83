// Writes that are on the disk once they are answered.
ghost use Rattle.std.specs.Prelude.{◌≡◌, ◌≤◌, IsTrue, IsErr, length, OnOk};
ghost use Rattle.qm_disk.specs.Disk.{spliced, Only, KeepsOthers, ChangesOnly, LeavesOnly, TellsFaults};
ghost use Rattle.qm_glog.specs.Moments.{TornWrite};

use qm_disk::{Disk, DiskFault};

// Writes bytes to a file of which all is on the disk, and syncs it.
pub(crate) fn write_through<D: Disk>(
    disk: &mut D,
    file: u8,
    at: u64,
    bytes: &[u8],
) -> Result<(), DiskFault>
    requires file { file ≤ 2 }
    requires place { IsTrue D.meaning.tells → at ≤ length (D.meaning.seen disk.old file) }
    requires settled { IsTrue D.meaning.tells
        → Only (D.meaning.seen disk.old file) (D.meaning.may_leave disk.old file) }

    ensures written { OnOk result (IsTrue D.meaning.tells
        → D.meaning.seen disk.new file ≡ spliced at bytes.now (D.meaning.seen disk.old file)) }
    ensures durable { OnOk result (IsTrue D.meaning.tells
        → Only (D.meaning.seen disk.new file) (D.meaning.may_leave disk.new file)) }
    ensures any_moment { IsTrue D.meaning.tells → LeavesOnly D.meaning disk.old disk.new
        (TornWrite (D.meaning.may_leave disk.old) file at (length bytes.now) (D.meaning.seen disk.old file)) }
    ensures others { KeepsOthers D.meaning file disk.old disk.new }
    ensures faults { TellsFaults D.meaning disk.old disk.new (IsErr result) }
{
    disk.write(file, at, bytes)?;
    disk.sync(file)
}

// Puts bytes in the place of all that a file holds.
pub(crate) fn replace<D: Disk>(disk: &mut D, file: u8, bytes: &[u8]) -> Result<(), DiskFault>
    requires { file ≤ 2 }
    ensures holds { OnOk result (IsTrue D.meaning.tells → D.meaning.seen disk.new file ≡ bytes.now) }
    ensures durable { OnOk result (IsTrue D.meaning.tells
        → Only (D.meaning.seen disk.new file) (D.meaning.may_leave disk.new file)) }
    ensures changes { ChangesOnly D.meaning file disk.old disk.new }
    ensures faults { TellsFaults D.meaning disk.old disk.new (IsErr result) }
{
    disk.cut(file, 0)?;
    disk.write(file, 0, bytes)?;
    disk.sync(file)
}
