// A database whose files are not read.
use crate::LoadFault;
use crate::loaded::Loaded;
use crate::reading::read_files;
use qm_disk::Disk;
use std::alloc::Global;

/// The files of a device, which it owns, and of which nothing is known.
#[derive(Drop)]
pub struct Closed<D> {
    pub(crate) alloc: Global,
    pub(crate) disk: D,
}

impl<D: Disk> Closed<D> {
    ghost use Rattle.std.specs.Prelude.{◌≡◌, IsTrue, IfOk};
    ghost use Rattle.qm_disk.specs.Disk.{OnlyLooks, TellsFaults};
    ghost use Rattle.qm_glog.specs.declared.fault.OpenFault.TheVariants as fault;
    ghost use Rattle.qm_store.specs.Database.{disk_of, loaded_disk, loaded_record};
    ghost use Rattle.qm_store.specs.Loading.{Loads, disk_after, FailsBy};
    ghost use Rattle.qm_store.specs.Recorded.{IsAtRest};

    /// The database of a device. It takes no memory and makes no call.
    pub fn of(alloc: Global, disk: D) -> Self
        ensures { disk_of result ≡ disk }
    {
        Closed { alloc, disk }
    }

    /// Reads the master and the live queue file, each behind a sync, so that what was read is on the disk: else a crash
    /// could take a record away that the caller acted on. It judges the master whole, and the live file as a log alone.
    /// The other queue file is never looked at, and nothing is changed. An `Err` hands the database back.
    pub fn load(self) -> Result<Loaded<D>, (Closed<D>, LoadFault)>
        ensures found { IsTrue D.meaning.tells → Loads (D.meaning.seen (disk_of self)) result }
        ensures at_rest { IfOk result (λ loaded. IsTrue D.meaning.tells
            → IsAtRest D.meaning (loaded_record loaded) (loaded_disk loaded)) }

        // The files read as before, and a crash at any moment leaves what it might before.
        ensures looks { OnlyLooks D.meaning (disk_of self) (disk_after result) }
        ensures faults { TellsFaults D.meaning (disk_of self) (disk_after result)
            (FailsBy result fault.Disk) }
    {
        let Closed { alloc, mut disk } = self;
        match read_files(alloc, &mut disk) {
            Ok(files) => Ok(Loaded { alloc, disk, files }),
            Err(fault) => Err((Closed { alloc, disk }, fault)),
        }
    }

    /// The device.
    pub fn give_back(self) -> D
        ensures { result ≡ disk_of self }
    {
        let Closed { disk, .. } = self;
        disk
    }
}
