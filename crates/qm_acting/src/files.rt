// The files of a site on which no manager works.
ghost use Rattle.std.specs.Prelude.{◌≡◌, IsTrue, IfOk};
ghost use Rattle.qm_store.specs.Database.{disk_of as closed_disk};
ghost use Rattle.qm_store.specs.Loading.{FailsBy};
ghost use Rattle.qm_disk.specs.Disk.{OnlyLooks, TellsFaults};
ghost use Rattle.qm_glog.specs.declared.fault.OpenFault.TheVariants as fault;
ghost use Rattle.qm_acting.specs.Reading.{disk_after, Restores};
ghost use Rattle.qm_acting.specs.Standing.{IsRestored};

use crate::reading::restore;
use crate::restored::Restored;
use qm_disk::Disk;
use qm_store::{Closed, LoadFault};
use std::alloc::Global;

/// Closed files, of which nothing is known; or files that were read, and that nothing has touched since.
#[derive(Drop)]
pub enum Files<D> {
    Closed(Closed<D>),
    Read(Restored<D>),
}

impl<D: Disk> Files<D> {
    ghost use Rattle.qm_acting.specs.Files.{files_disk, AreSound};

    /// What the files hold, and the image for which they stand: as they were read before, or as `restore` reads them. An `Err`
    /// hands the database back.
    pub fn read(self, alloc: Global) -> Result<Restored<D>, (Closed<D>, LoadFault)>
        requires { AreSound D.meaning self }
        ensures found { IsTrue D.meaning.tells
            → Restores (D.meaning.seen (files_disk self)) result }
        ensures restored { IfOk result (IsRestored D.meaning) }

        // The files read as before, and a crash at any moment leaves what it might before.
        ensures looks { OnlyLooks D.meaning (files_disk self) (disk_after result) }
        ensures faults { TellsFaults D.meaning (files_disk self) (disk_after result)
            (FailsBy result fault.Disk) }
    {
        match self {
            Files::Closed(closed) => restore(alloc, closed),
            Files::Read(restored) => Ok(restored),
        }
    }

    /// Lets go of what was read.
    pub fn close(self) -> Closed<D>
        ensures { closed_disk result ≡ files_disk self }
    {
        match self {
            Files::Closed(closed) => closed,
            Files::Read(restored) => restored.close(),
        }
    }
}
