// How a request is done: decided, written down, and only then made and answered.
ghost use Rattle.std.specs.Prelude.{◌≡◌, ◌<◌, ◌≤◌, [], length, vec_capacity, IfOk, IsErrOf};
ghost use Rattle.qm_store.specs.Database.{spare_of};
ghost use Rattle.qm_image.specs.Preparing.{made, IsPrepared};
ghost use Rattle.qm_acting.specs.Asking.{text_of, Answers, CanBeAsked, MayWrite, Writes};
ghost use Rattle.qm_acting.specs.Deciding.{standing_with, Records, LeavesFull};
ghost use Rattle.qm_acting.specs.Leaving.{LeavesDisk};

use crate::decision::{Decision, decide};
use crate::fault::{AskFault, RecordFault};
use crate::manager::Manager;
use crate::replies::{Replies, copy_of};
use qm_disk::Disk;
use qm_image::Refused;
use qm_kinds::{Moment, Reply, Request, Start};
use qm_restore::site_files_are_consistent;
use qm_state::commit;
use qm_store::AppendFault;
use std::alloc::AllocError;

impl<D: Disk> Manager<D> {
    ghost use Rattle.qm_acting.specs.Standing.{standing_of, disk_of, IsOfSite, IsReady};

    /// Does a request of a node at its acting moment. What is due by then is done where the request is accepted, and only
    /// there. At `Ok` its record is on the disk, and no crash can take it away. All memory is taken before anything is
    /// written, that of both replies too.
    ///
    /// At `Refused`, `Full` and `NoMemory` nothing has changed. After `Disk` the role has to be let go and the files read
    /// again, which tells whether the record is there.
    pub fn ask(&mut self, moment: Moment, node: u8, request: &Request) -> Result<Replies, AskFault>
        requires ready { IsReady D.meaning self.old }
        requires can { CanBeAsked (standing_of self.old).system moment node request.now }

        ensures answer { Answers moment node request.now
            (standing_of self.old) (standing_of self.new) result }
        ensures ready { (IsErrOf result AskFault.Disk → ⊥) → IsReady D.meaning self.new }

        // A crash at any moment of the call leaves the records before it, or these and the new one.
        ensures writes { MayWrite D.meaning (standing_of self.old).recorded
            (text_of moment node request.now)
            (disk_of self.old) (disk_of self.new) result }
        ensures leaves { LeavesDisk D.meaning (disk_of self.old) (disk_of self.new)
            (IsErrOf result AskFault.Disk) }
    {
        site_files_are_consistent();
        let decision = match decide(self.alloc, &mut self.image, moment, node, request) {
            Ok(decision) => decision,
            Err(Refused::By(refusal)) => return Err(AskFault::Refused(refusal)),
            Err(Refused::NoMemory) => return Err(AskFault::NoMemory),
        };
        let Ok(room) = self.take_room(&decision) else {
            return Err(AskFault::NoMemory);
        };
        match self.record(decision) {
            Ok(reply) => Ok(Replies {
                told: copy_of(&reply, room),
                kept: reply,
            }),
            Err(RecordFault::Full { need, cap }) => Err(AskFault::Full { need, cap }),
            Err(RecordFault::Disk) => Err(AskFault::Disk),
        }
    }

    // Takes the memory for a second reply and for the record of a request that was decided on.
    fn take_room(&mut self, decision: &Decision<'_>) -> Result<Vec<Start>, AllocError>
        requires prepared { IsPrepared self.old.image decision.now.prepared }
        ensures standing { standing_of self.new ≡ standing_of self.old }
        ensures disk { disk_of self.new ≡ disk_of self.old }
        ensures prepared { IsPrepared self.new.image decision.now.prepared }
        ensures spare { IfOk result (λ room.
            length decision.now.body.items < spare_of self.new.store) }
        ensures empty { IfOk result (λ room. room.items ≡ []) }
        ensures room { IfOk result (λ room.
            length (made decision.now.prepared
            (standing_of self.old).system).reply.started ≤ vec_capacity room) }
    {
        let room = Vec::with_capacity(self.alloc, decision.prepared.most_started())?;
        self.store.reserve(decision.body.len())?;
        Ok(room)
    }

    // Writes the record of a request that was decided on, for which there is memory, and makes its change.
    pub(crate) fn record(&mut self, decision: Decision<'_>) -> Result<Reply, RecordFault>
        requires ready { IsReady D.meaning self.old }
        requires prepared { IsPrepared self.old.image decision.prepared }
        requires goes_on { IsOfSite (standing_with (standing_of self.old) decision) }
        requires room { length decision.body.items < spare_of self.old.store }
        ensures answer { Records decision.entry
            (standing_of self.old) (standing_of self.new) result }
        ensures ready { (IsErrOf result RecordFault.Disk → ⊥) → IsReady D.meaning self.new }
        ensures writes { Writes D.meaning (standing_of self.old).recorded decision.entry.body.items
            (disk_of self.old) (disk_of self.new) }
        ensures full { LeavesFull (disk_of self.old) (disk_of self.new) result }
        ensures leaves { LeavesDisk D.meaning (disk_of self.old) (disk_of self.new)
            (IsErrOf result RecordFault.Disk) }
    {
        site_files_are_consistent();
        let Decision { prepared, body } = decision;
        let epoch = self.store.epoch();
        match self.store.append(epoch, &body) {
            Ok(()) => Ok(commit(&mut self.image, prepared)),
            Err(AppendFault::Full { need, cap }) => Err(RecordFault::Full { need, cap }),
            Err(AppendFault::Disk) => Err(RecordFault::Disk),
            Err(AppendFault::Fenced { .. }) => unreachable!(),
        }
    }
}
