// The files that a database works on: the master and the live queue file, each a log.
ghost use Rattle.std.specs.Prelude.{◌≡◌, ◌<◌, ◌≤◌};
ghost use Rattle.qm_glog.specs.Log.{file_of, cap_of};
ghost use Rattle.qm_store.specs.declared.files.TheConstants.{MASTER_FILE, MASTER_CAP};

use crate::{MASTER_RECORD_BYTES, MasterRecord, MasterState, write_master};
use qm_disk::Disk;
use qm_glog::{AppendFault, Log};
use std::alloc::AllocError;

/// The master file of a device.
pub const MASTER_FILE: u8 = 0;

/// The queue file that is live in a new database.
pub const FIRST_QUEUE_FILE: u8 = 1;

/// The greatest size of the master file, in bytes.
pub const MASTER_CAP: u64 = 1_048_576;

/// What was read of the two files, and has been appended since.
#[derive(Drop)]
pub(crate) struct Files {
    pub(crate) master: Log,
    pub(crate) queue: Log,
    pub(crate) says: MasterState,
    ghost in_master_file: { file_of master ≡ MASTER_FILE },
    ghost master_capped: { cap_of master ≡ MASTER_CAP },
    ghost in_live_file: { file_of queue ≡ says.live },
    ghost queue_capped: { cap_of queue ≡ says.cap },
    ghost is_queue_file: { 0 < says.live },
    ghost in_disk: { says.live ≤ 2 },
}

impl Files {
    ghost use Rattle.std.specs.Prelude.{◌≡◌, ◌<◌, IsTrue, OnOk, IsErrOf};
    ghost use Rattle.qm_history.specs.Common.{TellsFaults, Epoch, master_text};
    ghost use Rattle.qm_glog.specs.Appending.{Appends};
    ghost use Rattle.qm_glog.specs.Log.{spare_of, IsAsLeft};
    ghost use Rattle.qm_store.specs.declared.master.record.TheConstants.{MASTER_RECORD_BYTES};
    ghost use Rattle.qm_store.specs.Files.{recorded_in, BeginsEpoch};

    // Makes memory for one epoch.
    pub(crate) fn reserve_epoch(&mut self) -> Result<(), AllocError>
        ensures ok { OnOk result (MASTER_RECORD_BYTES < spare_of self.new.master) }
        ensures recorded { recorded_in self.new ≡ recorded_in self.old }
        ensures queue { self.new.queue ≡ self.old.queue }
    {
        self.master.reserve(MASTER_RECORD_BYTES)
    }

    // Appends an epoch to the master, for which there is memory.
    pub(crate) fn begin_epoch<D: Disk>(
        &mut self,
        disk: &mut D,
        epoch: u64,
        node: u8,
    ) -> Result<(), AppendFault>
        requires room { MASTER_RECORD_BYTES < spare_of self.old.master }
        requires left { IsTrue D.meaning.tells → IsAsLeft D.meaning self.old.master disk.old }
        ensures answer { BeginsEpoch D.meaning epoch node self.old self.new disk.old disk.new result }
        ensures leaves { Appends D.meaning
            (master_text (Epoch epoch node)) self.old.master disk.old disk.new }
        ensures faults { TellsFaults D.meaning disk.old disk.new (IsErrOf result AppendFault.Disk) }
    {
        let body = write_master(MasterRecord::Epoch { epoch, node });
        match self.master.append(disk, &body) {
            Ok(()) => {
                self.says.epoch = epoch;
                Ok(())
            }
            Err(fault) => Err(fault),
        }
    }
}
