// How a database is made.
ghost use Rattle.std.specs.Prelude.{◌≡◌, ◌≤◌, ◌+◌, ◌∷◌, [], IsTrue, All, IfOk, OnOk, IsErrOf};
ghost use Rattle.qm_history.specs.Common.{TellsFaults, contents, size_of, Found, master_text, CanBeWritten, HasSpelling};
ghost use Rattle.qm_store.specs.Loading.{FailsBy};
ghost use Rattle.qm_store.specs.Making.{need_for, Makes, IsWritten, IsMade, IsNotFull, made_disk, KeepsFile, IsQueueCap, texts_of};
ghost use Rattle.qm_store.specs.declared.files.TheConstants.{FIRST_QUEUE_FILE};

use crate::files::{FIRST_QUEUE_FILE, MASTER_CAP, MASTER_FILE};
use crate::{Closed, MasterRecord, WriteFault, write_master};
use qm_disk::Disk;
use qm_kinds::Record;
use qm_record::write_record;
use std::alloc::{AllocError, Global};

// The spellings of rows.
fn spell(alloc: Global, rows: &[Record]) -> Result<Vec<Vec<u8>>, AllocError>
    requires { All CanBeWritten rows.now }
    ensures bodies { IfOk result (λ bodies. contents bodies.items ≡ texts_of rows.now) }
    ensures lawful { OnOk result (All HasSpelling rows.now) }
{
    let mut bodies = Vec::new(alloc);
    for row in rows {
        bodies.push(write_record(alloc, row)?)?;
    }
    Ok(bodies)
}

// How many bytes a file of these bodies takes with its closed gate.
fn file_need(bodies: &[Vec<u8>]) -> u64
    ensures { result ≡ need_for (contents bodies.now) }
{
    let mut need: u64 = 1;
    for body in bodies {
        need = need.saturating_add(5).saturating_add(body.len() as u64);
    }
    need
}

// The body of a new master's first record.
fn master_bodies(alloc: Global, cap: u64) -> Result<Vec<Vec<u8>>, AllocError>
    ensures { IfOk result (λ bodies. contents bodies.items
        ≡ master_text (Found cap FIRST_QUEUE_FILE) ∷ []) }
{
    let said = MasterRecord::Found {
        cap,
        file: FIRST_QUEUE_FILE,
    };
    let body = write_master(said).to_vec(alloc)?;
    let mut bodies = Vec::new(alloc);
    bodies.push(body)?;
    Ok(bodies)
}

// Writes the first queue file, and then the master. Until its new record is there the master tells of nothing.
fn write_files<D: Disk>(
    alloc: Global,
    disk: &mut D,
    cap: u64,
    master: &[Vec<u8>],
    queue: &[Vec<u8>],
) -> Result<(), WriteFault>
    requires cap { IsQueueCap cap }
    requires master { contents master.now ≡ master_text (Found cap FIRST_QUEUE_FILE) ∷ [] }
    requires room { size_of (contents queue.now) + 1 ≤ cap }
    ensures written { OnOk result (IsTrue D.meaning.tells
        → IsWritten D.meaning cap (contents queue.now) disk.new) }
    ensures other { KeepsFile D.meaning 2 disk.old disk.new }
    ensures not_full { IsNotFull result }
    ensures faults { TellsFaults D.meaning disk.old disk.new (IsErrOf result WriteFault.Disk) }
{
    qm_glog::format(alloc, disk, MASTER_FILE)?;
    qm_glog::create(alloc, disk, FIRST_QUEUE_FILE, cap, queue)?;
    qm_glog::create(alloc, disk, MASTER_FILE, MASTER_CAP, master)?;
    Ok(())
}

// Makes the files of a database.
fn make<D: Disk>(alloc: Global, disk: &mut D, rows: &[Record], cap: u64) -> Result<(), WriteFault>
    requires written { All CanBeWritten rows.now }
    requires cap { IsQueueCap cap }
    ensures made { IsMade D.meaning cap rows.now disk.old disk.new result }
    ensures lawful { OnOk result (All HasSpelling rows.now) }
    ensures other { KeepsFile D.meaning 2 disk.old disk.new }
    ensures faults { TellsFaults D.meaning disk.old disk.new (IsErrOf result WriteFault.Disk) }
{
    let queue = spell(alloc, rows)?;
    let bodies = queue.as_slice();
    let need = file_need(bodies);
    if need > cap {
        return Err(WriteFault::Full { need, cap });
    }
    let master = master_bodies(alloc, cap)?;
    write_files(alloc, disk, cap, master.as_slice(), bodies)
}

/// Makes the database of a device anew, whatever the device holds: these rows, those of a site, in the first queue file,
/// which is the live one, under a master without an epoch. The second queue file stays as it is. At `Full` nothing has
/// changed. At `Disk` and at `NoMemory`, and at a crash before `Ok`, the master and the first queue file may hold
/// anything. An `Err` hands the device back.
pub fn init<D: Disk>(
    alloc: Global,
    disk: D,
    rows: &[Record],
    cap: u64,
) -> Result<Closed<D>, (D, WriteFault)>
    requires written { All CanBeWritten rows.now }
    requires cap { IsQueueCap cap }

    ensures made { Makes D.meaning cap rows.now disk result }
    ensures lawful { OnOk result (All HasSpelling rows.now) }

    // A crash at any moment leaves of the second queue file what it might before.
    ensures other { KeepsFile D.meaning 2 disk (made_disk result) }
    ensures faults { TellsFaults D.meaning disk (made_disk result)
        (FailsBy result WriteFault.Disk) }
{
    let mut disk = disk;
    match make(alloc, &mut disk, rows, cap) {
        Ok(()) => Ok(Closed { alloc, disk }),
        Err(fault) => Err((disk, fault)),
    }
}
