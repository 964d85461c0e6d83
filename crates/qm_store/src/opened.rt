// A database of which a node is the manager.
use crate::files::Files;
use crate::{AppendFault, Closed};
use qm_disk::Disk;
use std::alloc::{AllocError, Global};

/// The files of a device, which it owns, under the epoch of their manager.
#[derive(Drop)]
pub struct Open<D> {
    pub(crate) alloc: Global,
    pub(crate) disk: D,
    pub(crate) files: Files,
}

impl<D: Disk> Open<D> {
    ghost use Rattle.std.specs.Prelude.{◌≡◌, ◌<◌, ◌≤◌, IsTrue, length, OnOk, IsErrOf};
    ghost use Rattle.qm_disk.specs.Disk.{LeavesOnly, KeepsOthers, TellsFaults};
    ghost use Rattle.qm_store.specs.Appending.{Appended};
    ghost use Rattle.qm_store.specs.Database.{disk_of, open_disk, open_record, spare_of};
    ghost use Rattle.qm_store.specs.Recorded.{IsAtRest, HoldsEither, with_body};

    /// The epoch.
    pub fn epoch(&self) -> u64
        ensures { result ≡ (open_record self.now).says.epoch }
    {
        self.files.says.epoch
    }

    /// The live queue file, 1 or 2.
    pub fn live(&self) -> u8
        ensures { result ≡ (open_record self.now).says.live }
    {
        self.files.says.live
    }

    /// How many records the live file has.
    pub fn count(&self) -> usize
        ensures { result ≡ length (open_record self.now).bodies }
    {
        self.files.queue.count()
    }

    /// Makes so many bytes spare for the body of one record. An `Err` leaves what was spare.
    pub fn reserve(&mut self, bytes: usize) -> Result<(), AllocError>
        ensures ok { OnOk result (bytes < spare_of self.new) }
        ensures no_less { spare_of self.old ≤ spare_of self.new }
        ensures disk { open_disk self.new ≡ open_disk self.old }
        ensures recorded { open_record self.new ≡ open_record self.old }
    {
        self.files.queue.reserve(bytes)
    }

    /// Adds a record to the live file for a manager that holds this epoch, by four calls on the device, two of them syncs;
    /// it takes no memory but what was made spare. At `Ok` the record is acknowledged: from then on each crash leaves it.
    /// At `Fenced` and `Full` nothing has changed. After `Disk` the database has to be closed.
    pub fn append(&mut self, epoch: u64, body: &[u8]) -> Result<(), AppendFault>
        requires room { length body.now < spare_of self.old }
        // No call of this database answered `Disk`.
        requires at_rest { IsTrue D.meaning.tells
            → IsAtRest D.meaning (open_record self.old) (open_disk self.old) }
        ensures answer { Appended D.meaning epoch body.now self.old self.new result }

        // A crash at any moment leaves the old records, or these and the new one.
        ensures any_moment { IsTrue D.meaning.tells
            → LeavesOnly D.meaning (open_disk self.old) (open_disk self.new)
            (HoldsEither (D.meaning.may_leave (open_disk self.old)) (open_record self.old).says.live
            (open_record self.old) (with_body (open_record self.old) body.now)) }
        ensures others { KeepsOthers D.meaning (open_record self.old).says.live (open_disk self.old)
            (open_disk self.new) }
        ensures faults { TellsFaults D.meaning (open_disk self.old) (open_disk self.new)
            (IsErrOf result AppendFault.Disk) }
    {
        let current = self.files.says.epoch;
        if epoch != current {
            return Err(AppendFault::Fenced {
                held: epoch,
                current,
            });
        }
        match self.files.queue.append(&mut self.disk, body) {
            Ok(()) => Ok(()),
            Err(qm_glog::AppendFault::Disk) => Err(AppendFault::Disk),
            Err(qm_glog::AppendFault::Full { need, cap }) => Err(AppendFault::Full { need, cap }),
        }
    }

    /// Lets go of what is open. The epoch stays used.
    pub fn close(self) -> Closed<D>
        ensures { disk_of result ≡ open_disk self }
    {
        let Open { alloc, disk, .. } = self;
        Closed { alloc, disk }
    }
}
