// How the files of a device are read.
ghost use Rattle.std.specs.Prelude.{◌≡◌, ◌<◌, ◌≤◌, ◌^◌, ◌↔◌, ℕ, List, IsTrue, IsErr, length, IfOk, IsErrOf};
ghost use Rattle.qm_history.specs.Common.{OnlyLooks, TellsFaults, GREATEST_CAP, first_byte, place_of};
ghost use Rattle.qm_glog.specs.Log.{bodies_of, IsAsLeft, StandsIn};
ghost use Rattle.qm_glog.specs.Opened.{IsOpenFault};
ghost use Rattle.qm_glog.specs.declared.fault.OpenFault.TheVariants as opening;
ghost use Rattle.qm_store.specs.MasterJudging.{IsLawful};
ghost use Rattle.qm_store.specs.MasterRecords.{state_of};
ghost use Rattle.qm_store.specs.Files.{AreLeft};
ghost use Rattle.qm_store.specs.Loading.{ReadsFiles, ReadsMaster, ReadsMasterLog, ReadsLive, IsLiveFault};

use crate::files::{Files, MASTER_CAP, MASTER_FILE};
use crate::{LoadFault, MasterState, judge_master};
use qm_disk::{Disk, DiskFault};
use qm_glog::Log;
use std::alloc::Global;

// The place of a record's gate in the file of a log, or behind the last one the place where the records end.
pub(crate) fn place_in(log: &Log, index: usize) -> u64
    requires { index ≤ length (bodies_of log.now) }
    ensures { result ≡ place_of (bodies_of log.now) index }
{
    let end = log.end();
    if index == log.count() {
        return end;
    }
    let mut place = 0;
    for before in 0..index {
        place += 5 + log.record(before).len() as u64;
    }
    place
}

// The first byte of the master, which isn't empty.
fn read_first_byte<D: Disk>(disk: &mut D) -> Result<u8, DiskFault>
    requires { IsTrue D.meaning.tells → 1 ≤ length (D.meaning.seen disk.old MASTER_FILE) }
    ensures byte { IfOk result (λ byte. IsTrue D.meaning.tells
        → byte ≡ first_byte (D.meaning.seen disk.old MASTER_FILE)) }
    ensures looks { OnlyLooks D.meaning disk.old disk.new }
    ensures faults { TellsFaults D.meaning disk.old disk.new (IsErr result) }
{
    let mut first = [0];
    disk.read(MASTER_FILE, 0, &mut first)?;
    Ok(first[0])
}

// The log of the master, which has a record.
fn read_master_log<D: Disk>(alloc: Global, disk: &mut D) -> Result<Log, LoadFault>
    ensures found { IsTrue D.meaning.tells
        → ReadsMasterLog (D.meaning.seen disk.old MASTER_FILE) result }
    ensures some { IfOk result (λ log. 0 < length (bodies_of log)) }
    ensures place { IfOk result (StandsIn MASTER_FILE MASTER_CAP) }
    ensures left { IfOk result (λ log. IsTrue D.meaning.tells → IsAsLeft D.meaning log disk.new) }
    ensures looks { OnlyLooks D.meaning disk.old disk.new }
    ensures faults { TellsFaults D.meaning disk.old disk.new (IsErrOf result opening.Disk) }
{
    let log = qm_glog::open(alloc, disk, MASTER_FILE, MASTER_CAP)?;
    if log.count() == 0 {
        let byte = read_first_byte(disk)?;
        return Err(LoadFault::Unformatted { byte });
    }
    Ok(log)
}

// The master's log, and what it says.
fn read_master_file<D: Disk>(alloc: Global, disk: &mut D) -> Result<(Log, MasterState), LoadFault>
    ensures found { IsTrue D.meaning.tells
        → ReadsMaster (D.meaning.seen disk.old MASTER_FILE) result }
    ensures lawful { IfOk result (λ read. IsLawful (state_of read.1)) }
    ensures place { IfOk result (λ read. StandsIn MASTER_FILE MASTER_CAP read.0) }
    ensures left { IfOk result (λ read. IsTrue D.meaning.tells
        → IsAsLeft D.meaning read.0 disk.new) }
    ensures looks { OnlyLooks D.meaning disk.old disk.new }
    ensures faults { TellsFaults D.meaning disk.old disk.new (IsErrOf result opening.Disk) }
{
    let log = read_master_log(alloc, disk)?;
    match judge_master(&log) {
        Ok(says) => Ok((log, says)),
        Err(index) => {
            let place = place_in(&log, index);
            Err(LoadFault::Damaged {
                file: MASTER_FILE,
                place,
            })
        }
    }
}

// What a fault of its log is to the live file. An empty one is damaged at its beginning.
fn live_fault(file: u8, fault: LoadFault) -> LoadFault
    ensures told { (content : List ℕ) → IsOpenFault file content fault
        → IsLiveFault file content result }
    ensures disk { (fault ≡ opening.Disk) ↔ (result ≡ opening.Disk) }
{
    match fault {
        LoadFault::Disk => LoadFault::Disk,
        LoadFault::Unformatted { .. } => LoadFault::Damaged { file, place: 0 },
        LoadFault::Damaged { file, place } => LoadFault::Damaged { file, place },
        LoadFault::NoMemory => LoadFault::NoMemory,
    }
}

// The log of the live file.
fn read_live_file<D: Disk>(
    alloc: Global,
    disk: &mut D,
    file: u8,
    cap: u64,
) -> Result<Log, LoadFault>
    requires file { file ≤ 2 }
    requires cap { cap ≤ GREATEST_CAP }
    ensures found { IsTrue D.meaning.tells → ReadsLive file (D.meaning.seen disk.old file) result }
    ensures place { IfOk result (StandsIn file cap) }
    ensures left { IfOk result (λ log. IsTrue D.meaning.tells → IsAsLeft D.meaning log disk.new) }
    ensures looks { OnlyLooks D.meaning disk.old disk.new }
    ensures faults { TellsFaults D.meaning disk.old disk.new (IsErrOf result opening.Disk) }
{
    match qm_glog::open(alloc, disk, file, cap) {
        Ok(log) => Ok(log),
        Err(fault) => Err(live_fault(file, fault)),
    }
}

// The files of a device, the master first.
pub(crate) fn read_files<D: Disk>(alloc: Global, disk: &mut D) -> Result<Files, LoadFault>
    ensures found { IsTrue D.meaning.tells → ReadsFiles (D.meaning.seen disk.old) result }
    ensures epoch { IfOk result (λ files. files.says.epoch < 2 ^ 62) }
    ensures left { IfOk result (λ files. IsTrue D.meaning.tells
        → AreLeft D.meaning files disk.new) }
    ensures looks { OnlyLooks D.meaning disk.old disk.new }
    ensures faults { TellsFaults D.meaning disk.old disk.new (IsErrOf result opening.Disk) }
{
    let (master, says) = read_master_file(alloc, disk)?;
    let queue = read_live_file(alloc, disk, says.live, says.cap)?;
    Ok(Files {
        master,
        queue,
        says,
    })
}
