// A database that was read.
ghost use Rattle.std.specs.Prelude.{◌<◌, ◌^◌};

use crate::files::Files;
use crate::reading::place_in;
use crate::{Closed, Open, WriteFault};
use qm_disk::Disk;
use qm_glog::AppendFault;
use qm_kinds::Record;
use qm_record::{RecordFault, read_record};
use std::alloc::{AllocError, Global};

/// The files of a device, which it owns, and what was read of them.
#[derive(Drop)]
pub struct Loaded<D> {
    pub(crate) alloc: Global,
    pub(crate) disk: D,
    pub(crate) files: Files,
    ghost has_more_epochs: { files.says.epoch < 2 ^ 62 },
}

impl<D: Disk> Loaded<D> {
    ghost use Rattle.std.specs.Prelude.{◌≡◌, ◌<◌, ◌≤◌, ◌^◌, ℕ, IsTrue, length, IfOk, OnOk, IsErrOf, slice_get, Some};
    ghost use Rattle.qm_history.specs.Common.{LeavesOnly, KeepsOthers, TellsFaults, Spells, place_of, record_text, HasSpelling};
    ghost use Rattle.qm_kinds.specs.declared.record.Record.{Record as AnyRecord};
    ghost use Rattle.qm_record.specs.Faults.{IsRead, IsFirstFault, IsRecord};
    ghost use Rattle.qm_store.specs.Database.{disk_of, loaded_disk, loaded_record, loaded_spare, OfBody};
    ghost use Rattle.qm_store.specs.Opening.{Opens, FailsBy, disk_behind, in_next_epoch};
    ghost use Rattle.qm_store.specs.Recorded.{IsAtRest, HoldsEither, epoch_behind};
    ghost use Rattle.qm_store.specs.declared.files.TheConstants.{MASTER_FILE};

    /// The greatest recorded epoch, or 0 where none is.
    pub fn epoch(&self) -> u64
        ensures { result ≡ (loaded_record self.now).says.epoch }
    {
        self.files.says.epoch
    }

    /// The live queue file, 1 or 2.
    pub fn live(&self) -> u8
        ensures { result ≡ (loaded_record self.now).says.live }
    {
        self.files.says.live
    }

    /// How many records the live file has.
    pub fn count(&self) -> usize
        ensures { result ≡ length (loaded_record self.now).bodies }
    {
        self.files.queue.count()
    }

    /// A record of the live file; the first has index 0.
    pub fn record(&self, index: usize) -> Result<Record, RecordFault>
        requires { index < length (loaded_record self.now).bodies }
        // What is read is spelled so.
        ensures found { OfBody (loaded_record self.now).bodies index
            (λ body. IfOk result (λ r. Spells HasSpelling record_text r body)) }
        // What is spelled so is read, unless memory runs out.
        ensures only { OfBody (loaded_record self.now).bodies index (λ body. (r : AnyRecord)
            → HasSpelling r → body ≡ record_text r → IsRead r result) }
        // A fault is the first one.
        ensures first { OfBody (loaded_record self.now).bodies index (λ body. (place : ℕ)
            → IsErrOf result (RecordFault.Bad place) → IsFirstFault body place) }
        // Memory runs out only over a record.
        ensures no_memory { OfBody (loaded_record self.now).bodies index
            (λ body. IsErrOf result RecordFault.NoMemory → IsRecord body) }
    {
        read_record(self.alloc, self.files.queue.record(index))
    }

    /// The body of a record of the live file; the first has index 0.
    pub fn body(&self, index: usize) -> &[u8]
        requires { index < length (loaded_record self.now).bodies }
        ensures { slice_get (loaded_record self.now).bodies index ≡ Some result.now }
    {
        self.files.queue.record(index)
    }

    /// The place of a record's gate in the live file, in bytes. For the count it is the place where the records end.
    pub fn place(&self, index: usize) -> u64
        requires { index ≤ length (loaded_record self.now).bodies }
        ensures { result ≡ place_of (loaded_record self.now).bodies index }
    {
        place_in(&self.files.queue, index)
    }

    /// Makes so many bytes spare for the body of one record, which are spare once the database is open.
    pub fn reserve(&mut self, bytes: usize) -> Result<(), AllocError>
        ensures ok { OnOk result (bytes < loaded_spare self.new) }
        ensures disk { loaded_disk self.new ≡ loaded_disk self.old }
        ensures recorded { loaded_record self.new ≡ loaded_record self.old }
    {
        self.files.queue.reserve(bytes)
    }

    /// Opens the database for a node as manager, under an epoch one above the greatest of the recorded ones and the one
    /// that was tried. All memory is taken before the first write. An `Err` hands the database back, with the epoch that
    /// was tried by then: at `Disk` the new one, which may be recorded; else nothing has changed.
    pub fn open(self, tried: u64, node: u8) -> Result<Open<D>, (Closed<D>, WriteFault, u64)>
        requires tried { tried < 2 ^ 63 }
        requires at_rest { IsTrue D.meaning.tells
            → IsAtRest D.meaning (loaded_record self) (loaded_disk self) }
        ensures answer { Opens D.meaning tried node self result }

        // A crash at any moment leaves the same records, in the new epoch or before it.
        ensures any_moment { IsTrue D.meaning.tells
            → epoch_behind (loaded_record self) tried < 2 ^ 62
            → LeavesOnly D.meaning (loaded_disk self) (disk_behind result)
            (HoldsEither (D.meaning.may_leave (loaded_disk self)) MASTER_FILE (loaded_record self)
            (in_next_epoch (loaded_record self) tried node)) }
        ensures others { KeepsOthers D.meaning MASTER_FILE (loaded_disk self) (disk_behind result) }
        ensures faults { TellsFaults D.meaning (loaded_disk self) (disk_behind result)
            (FailsBy result WriteFault.Disk) }
    {
        let Loaded {
            alloc,
            mut disk,
            mut files,
            ..
        } = self;
        let epoch = files.says.epoch.max(tried) + 1;
        let Ok(()) = files.reserve_epoch() else {
            return Err((Closed { alloc, disk }, WriteFault::NoMemory, tried));
        };
        match files.begin_epoch(&mut disk, epoch, node) {
            Ok(()) => Ok(Open { alloc, disk, files }),
            Err(AppendFault::Disk) => Err((Closed { alloc, disk }, WriteFault::Disk, epoch)),
            Err(AppendFault::Full { need, cap }) => {
                Err((
                    Closed { alloc, disk },
                    WriteFault::Full { need, cap },
                    tried,
                ))
            }
        }
    }

    /// Lets go of what was read.
    pub fn close(self) -> Closed<D>
        ensures { disk_of result ≡ loaded_disk self }
    {
        let Loaded { alloc, disk, .. } = self;
        Closed { alloc, disk }
    }
}
