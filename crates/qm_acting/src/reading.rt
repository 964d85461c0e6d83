// How the files are read, and the image made for which they stand.
ghost use Rattle.std.specs.Prelude.{◌≡◌, IsTrue, IfOk};
ghost use Rattle.qm_store.specs.Database.{disk_of as closed_disk, loaded_disk, loaded_record};
ghost use Rattle.qm_store.specs.Loading.{FailsBy};
ghost use Rattle.qm_disk.specs.Disk.{OnlyLooks, TellsFaults};
ghost use Rattle.qm_glog.specs.declared.fault.OpenFault.TheVariants as fault;
ghost use Rattle.qm_restore.specs.Restoring.{Judges};
ghost use Rattle.qm_acting.specs.Reading.{told_of, disk_after, Restores};
ghost use Rattle.qm_acting.specs.Standing.{IsRestored};

use crate::restored::Restored;
use qm_disk::Disk;
use qm_restore::{Bodies, RestoreFault};
use qm_store::{Closed, LoadFault, Loaded};
use std::alloc::Global;

// The records of the live file, as a way from records to an image takes them.
#[derive(Drop)]
struct Records<D> {
    loaded: Loaded<D>,
}

impl<D: Disk> Bodies for Records<D> {
    ghost bodies = { λ records. (loaded_record records.loaded).bodies };

    fn count(&self) -> usize {
        self.loaded.count()
    }

    fn body(&self, index: usize) -> &[u8] {
        self.loaded.body(index)
    }
}

// The database, and what its records are to the caller where they aren't those of a site.
fn give_up<D: Disk>(loaded: Loaded<D>, fault: RestoreFault) -> (Closed<D>, LoadFault)
    requires { Judges (loaded_record loaded).bodies fault }
    ensures disk { closed_disk result.0 ≡ loaded_disk loaded }
    ensures told { result.1 ≡ told_of (loaded_record loaded) fault }
{
    match fault {
        RestoreFault::Unlawful { index, .. } => {
            let place = loaded.place(index);
            let file = loaded.live();
            (loaded.close(), LoadFault::Damaged { file, place })
        }
        RestoreFault::NoMemory => (loaded.close(), LoadFault::NoMemory),
    }
}

/// Reads the files, each behind a sync, and makes the image for which the records of the live file stand. The live file is
/// read once, and nothing is changed. `Unformatted` comes where the master doesn't begin with a record, `Damaged` with the
/// place of the first record that is cut short or can't stand there. An `Err` hands the database back.
pub fn restore<D: Disk>(
    alloc: Global,
    closed: Closed<D>,
) -> Result<Restored<D>, (Closed<D>, LoadFault)>
    ensures found { IsTrue D.meaning.tells → Restores (D.meaning.seen (closed_disk closed)) result }
    ensures restored { IfOk result (IsRestored D.meaning) }

    // The files read as before, and a crash at any moment leaves what it might before.
    ensures looks { OnlyLooks D.meaning (closed_disk closed) (disk_after result) }
    ensures faults { TellsFaults D.meaning (closed_disk closed) (disk_after result)
        (FailsBy result fault.Disk) }
{
    let records = match closed.load() {
        Ok(loaded) => Records { loaded },
        Err(failed) => return Err(failed),
    };
    match qm_restore::restore(alloc, &records) {
        Ok(image) => {
            let Records { loaded } = records;
            Ok(Restored {
                alloc,
                image,
                loaded,
            })
        }
        Err(fault) => {
            let Records { loaded } = records;
            Err(give_up(loaded, fault))
        }
    }
}
