// How a chest is opened on the files of a site, and how it is let go.
ghost use Rattle.std.specs.Prelude.{◌≡◌, ◌<◌, ◌^◌, IfErr, IfOk, IsTrue, OnOk};
ghost use Rattle.qm_acting.specs.Reading.{IsRestoreFault};
ghost use Rattle.qm_chest.specs.At.{chest_disk, chest_turns};
ghost use Rattle.qm_chest.specs.Checking.{Begins, IsChecked, checked_disk, checked_standing};
ghost use Rattle.qm_chest.specs.Opening.{IsOpened, disk_opened};
ghost use Rattle.qm_disk.specs.Disk.{OnlyLooks, TellsFaults};
ghost use Rattle.qm_glog.specs.declared.fault.OpenFault.TheVariants as fault;
ghost use Rattle.qm_store.specs.Loading.{FailsBy};

use crate::checked::Checked;
use crate::checking::check;
use crate::chest::Chest;
use crate::laws::sites_begin_one_world;
use crate::noting::chests_begin_without_notes;
use qm_disk::Disk;
use qm_history::Turn;
use qm_restore::site_files_are_consistent;
use qm_store::LoadFault;
use std::alloc::Global;

// No number of turns reaches the last epoch from a recorded one below this.
const EARLY_EPOCHS: u64 = 1 << 61;

impl<D: Disk> Chest<D> {
    /// Reads the files of a site, each behind a sync, and begins on them. Nothing is changed. `Unformatted` comes where the
    /// master doesn't begin with a record, `Damaged` with the place of the first record that is cut short or can't stand there,
    /// and `NoMemory` also where a recorded epoch is so late that turns could reach the last one. An `Err` hands the device back.
    pub fn open(alloc: Global, disk: D) -> Result<Chest<D>, (D, LoadFault)>
        ensures opened { IfOk result (IsOpened D.meaning disk) }
        ensures fault { IsTrue D.meaning.tells
            → IfErr result (λ failed. IsRestoreFault (D.meaning.seen disk) failed.1) }
        ensures looks { OnlyLooks D.meaning disk (disk_opened result) }
        ensures faults { TellsFaults D.meaning disk (disk_opened result)
            (FailsBy result fault.Disk) }
    {
        site_files_are_consistent();
        sites_begin_one_world();
        chests_begin_without_notes::<D>();
        match check(alloc, disk) {
            Ok(checked) => Chest::begin(alloc, checked),
            Err(failed) => Err(failed),
        }
    }

    // Begins on files that were read.
    fn begin(alloc: Global, checked: Checked<D>) -> Result<Chest<D>, (D, LoadFault)>
        requires { IsChecked D.meaning checked }
        ensures begins { IfOk result (Begins D.meaning checked) }
        ensures early { OnOk result ((checked_standing checked).recorded.says.epoch < 2 ^ 61) }
        ensures back { IfErr result
            (λ failed. (failed.0 ≡ checked_disk checked) × (failed.1 ≡ fault.NoMemory)) }
    {
        if checked.epoch() >= EARLY_EPOCHS {
            return Err((checked.give_back(), LoadFault::NoMemory));
        }
        match Chest::new(alloc, checked) {
            Ok(chest) => Ok(chest),
            Err((closed, _)) => Err((closed.give_back(), LoadFault::NoMemory)),
        }
    }

    /// Lets go of what was read, and hands out the device, and the turns that were made, the first one first.
    pub fn close(self) -> (D, Vec<Turn>)
        ensures disk { result.0 ≡ chest_disk self }
        ensures turns { result.1.items ≡ chest_turns self }
    {
        let (closed, turns) = self.end();
        (closed.give_back(), turns)
    }

    /// Lets go of what was read.
    pub fn give_back(self) -> D
        ensures { result ≡ chest_disk self }
    {
        let (disk, _) = self.close();
        disk
    }
}
