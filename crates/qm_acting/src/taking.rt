// How a node takes the role of queue manager over: it begins the next epoch, and its first request tells of that.
ghost use Rattle.std.specs.Prelude.{◌≡◌, ◌<◌, ◌^◌, IsTrue, IsOk, IfOk, length};
ghost use Rattle.qm_store.specs.Database.{loaded_spare};
ghost use Rattle.qm_store.specs.Opening.{in_next_epoch};
ghost use Rattle.qm_store.specs.Recorded.{HoldsEither};
ghost use Rattle.qm_store.specs.declared.files.TheConstants.{MASTER_FILE};
ghost use Rattle.qm_history.specs.Common.{KeepsOthers, LeavesOnly, applied};
ghost use Rattle.qm_acting.specs.Asking.{text_of, CanBeAsked};
ghost use Rattle.qm_acting.specs.Deciding.{Decides};
ghost use Rattle.qm_acting.specs.Leaving.{LeavesDisk};
ghost use Rattle.qm_acting.specs.Taking.{IsEarly, taking_fault, recording_fault, Opens, OpenFails, disk_behind, TakesOver, TakeLeaves, TakeFails, taken_disk};

use crate::decision::{Decision, decide};
use crate::fault::{RecordFault, TakeFault};
use crate::letting_go::let_go;
use crate::manager::Manager;
use crate::restored::Restored;
use qm_disk::Disk;
use qm_image::Refused;
use qm_kinds::{Moment, Reply, Request};
use qm_restore::site_files_are_consistent;
use qm_store::{Closed, WriteFault};
use std::alloc::AllocError;

// Why there is no manager of the next epoch.
fn opening_fault(fault: WriteFault) -> TakeFault
    ensures { result ≡ taking_fault fault }
{
    match fault {
        WriteFault::Disk => TakeFault::Epoch,
        WriteFault::Full { need, cap } => TakeFault::MasterFull { need, cap },
        WriteFault::NoMemory => TakeFault::NoMemory,
    }
}

// Why its record isn't there.
fn record_fault(fault: RecordFault) -> TakeFault
    ensures { result ≡ recording_fault fault }
{
    match fault {
        RecordFault::Disk => TakeFault::Record,
        RecordFault::Full { need, cap } => TakeFault::Full { need, cap },
    }
}

impl<D: Disk> Restored<D> {
    ghost use Rattle.qm_acting.specs.Standing.{restored_standing, restored_disk, IsRestored};

    /// Begins an epoch one above the greatest of the recorded ones and the one that was tried, with this node as manager, and
    /// records nothing else. An `Err` hands the database back, with the epoch that was tried by then: at `Disk` the new one,
    /// which may be recorded; else nothing has changed.
    pub fn open(self, tried: u64, node: u8) -> Result<Manager<D>, (Closed<D>, WriteFault, u64)>
        requires tried { tried < 2 ^ 63 }
        requires restored { IsRestored D.meaning self }
        requires early { IsEarly D.meaning tried self }
        ensures answer { Opens D.meaning tried node self result }

        // A crash at any moment leaves the same records, in the new epoch or before it.
        ensures any_moment { IsTrue D.meaning.tells
            → LeavesOnly D.meaning (restored_disk self) (disk_behind result)
            (HoldsEither (D.meaning.may_leave (restored_disk self)) MASTER_FILE
            (restored_standing self).recorded
            (in_next_epoch (restored_standing self).recorded tried node)) }
        ensures others { KeepsOthers D.meaning MASTER_FILE
            (restored_disk self) (disk_behind result) }
        ensures leaves { LeavesDisk D.meaning (restored_disk self) (disk_behind result)
            (OpenFails result WriteFault.Disk) }
    {
        let Restored {
            alloc,
            image,
            loaded,
        } = self;
        match loaded.open(tried, node) {
            Ok(store) => Ok(Manager {
                alloc,
                image,
                store,
            }),
            Err(failed) => {
                let_go(image);
                Err(failed)
            }
        }
    }

    // Decides on the request that tells of a takeover, and takes all the memory that doing it takes.
    fn decide<'a>(
        &mut self,
        moment: Moment,
        node: u8,
        request: &'a Request,
    ) -> Result<Decision<'a>, AllocError>
        requires restored { IsRestored D.meaning self.old }
        requires can { CanBeAsked (restored_standing self.old).system moment node request.now }
        requires accepted { IsOk
            (applied (restored_standing self.old).system moment node request.now) }
        ensures standing { restored_standing self.new ≡ restored_standing self.old }
        ensures disk { restored_disk self.new ≡ restored_disk self.old }
        ensures decides { IfOk result
            (Decides (restored_standing self.old).system moment node request.now self.new.image) }
        ensures room { IfOk result (λ decision.
            length decision.body.items < loaded_spare self.new.loaded) }
    {
        site_files_are_consistent();
        let decision = match decide(self.alloc, &mut self.image, moment, node, request) {
            Ok(decision) => decision,
            Err(Refused::By(_)) => unreachable!(),
            Err(Refused::NoMemory) => return Err(AllocError),
        };
        self.loaded.reserve(decision.body.len())?;
        Ok(decision)
    }

    /// Takes over: decides on the request that tells of it, takes all memory, begins the next epoch as `open` does, and then
    /// records the request, at its acting moment; the rules accept it. At `Ok` both are on the disk, and no crash can take them
    /// away. An `Err` hands the database back.
    pub fn take_over(
        self,
        tried: u64,
        moment: Moment,
        node: u8,
        request: &Request,
    ) -> Result<(Manager<D>, Reply), (Closed<D>, TakeFault)>
        requires tried { tried < 2 ^ 63 }
        requires restored { IsRestored D.meaning self }
        requires early { IsEarly D.meaning tried self }
        requires can { CanBeAsked (restored_standing self).system moment node request.now }
        requires accepted { IsOk (applied (restored_standing self).system moment node request.now) }
        ensures answer { TakesOver D.meaning tried moment node request.now self result }

        // A crash at any moment leaves what was read; the same in the next epoch; or that and the record.
        ensures any_moment { IsTrue D.meaning.tells
            → TakeLeaves D.meaning (restored_standing self).recorded
            (in_next_epoch (restored_standing self).recorded tried node)
            (text_of moment node request.now) (restored_disk self) result }
        ensures leaves { LeavesDisk D.meaning (restored_disk self) (taken_disk result)
            (TakeFails result) }
    {
        let mut restored = self;
        let Ok(decision) = restored.decide(moment, node, request) else {
            return Err((restored.close(), TakeFault::NoMemory));
        };
        let mut manager = match restored.open(tried, node) {
            Ok(manager) => manager,
            Err((closed, fault, _)) => return Err((closed, opening_fault(fault))),
        };
        match manager.record(decision) {
            Ok(reply) => Ok((manager, reply)),
            Err(fault) => Err((manager.close(), record_fault(fault))),
        }
    }
}
