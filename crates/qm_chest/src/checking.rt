// How the files of a site are read before anything is asked of it.
ghost use Rattle.std.specs.Prelude.{◌≡◌, IsTrue, IfOk};
ghost use Rattle.qm_store.specs.Loading.{FailsBy};
ghost use Rattle.qm_disk.specs.Disk.{OnlyLooks, TellsFaults};
ghost use Rattle.qm_glog.specs.declared.fault.OpenFault.TheVariants as fault;
ghost use Rattle.qm_chest.specs.Checking.{Checks, IsChecked, disk_checked};

use crate::checked::Checked;
use qm_acting::restore;
use qm_disk::Disk;
use qm_store::{Closed, LoadFault, held_files_load};
use std::alloc::Global;

// No memory holds a live file of so many bytes, and with each record that is shorter its size is still a number of 64 bits.
const GREATEST_SIZE: u64 = 1 << 62;

/// Reads the master and the live queue file of a device, each behind a sync, and makes the image for which they stand. Nothing is
/// changed. `Unformatted` comes where the master doesn't begin with a record, `Damaged` with the place of the first record that is
/// cut short or can't stand there. An `Err` hands the device back.
pub(crate) fn check<D: Disk>(alloc: Global, disk: D) -> Result<Checked<D>, (D, LoadFault)>
    ensures found { IsTrue D.meaning.tells → Checks (D.meaning.seen disk) result }
    ensures checked { IfOk result (IsChecked D.meaning) }

    // The files read as before, and a crash at any moment leaves what it might before.
    ensures looks { OnlyLooks D.meaning disk (disk_checked result) }
    ensures faults { TellsFaults D.meaning disk (disk_checked result) (FailsBy result fault.Disk) }
{
    held_files_load();
    match restore(alloc, Closed::of(alloc, disk)) {
        Ok(restored) if restored.size() < GREATEST_SIZE => Ok(Checked { restored }),
        Ok(restored) => Err((restored.close().give_back(), LoadFault::NoMemory)),
        Err((closed, fault)) => Err((closed.give_back(), fault)),
    }
}
