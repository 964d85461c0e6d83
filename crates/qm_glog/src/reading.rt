// How a log is read, record by record.
ghost use Rattle.std.specs.Prelude.{◌≡◌, ◌+◌, ◌<◌, ◌≤◌, max, IsTrue, length, drop, IfOk, IsErrOf};
ghost use Rattle.std.specs.Int.{w32, to_le_bytes, from_le_bytes};
ghost use Rattle.qm_disk.specs.Disk.{OnlyLooks, TellsFaults};
ghost use Rattle.qm_glog.specs.Records.{size_of};
ghost use Rattle.qm_glog.specs.Bodies.{list_of};
ghost use Rattle.qm_glog.specs.Found.{length_bytes, HeadAt, EndsWithin, RecordsOf};
ghost use Rattle.qm_glog.specs.declared.reading.Head.TheVariants.{Closed, Open};

use crate::OpenFault;
use crate::bodies::Bodies;
use qm_disk::Disk;
use std::alloc::Global;

// What stands at a gate.
#[derive(Clone, Copy)]
pub(crate) enum Head {
    Closed,
    Open { length: u32 },
}

// The gate at a place behind which fewer than four bytes stand.
fn read_last_gate<D: Disk>(disk: &mut D, file: u8, place: u64, size: u64) -> Result<Head, OpenFault>
    requires file { file ≤ 2 }
    requires place { place < size }
    requires near { size < place + 5 }
    requires size { IsTrue D.meaning.tells → size ≡ length (D.meaning.seen disk.old file) }
    ensures head { IsTrue D.meaning.tells → HeadAt file (drop place (D.meaning.seen disk.old file)) place result }
    ensures none { IfOk result (λ head. head ≡ Closed) }
    ensures looks { OnlyLooks D.meaning disk.old disk.new }
    ensures faults { TellsFaults D.meaning disk.old disk.new (IsErrOf result OpenFault.Disk) }
{
    let mut gate = [0];
    disk.read(file, place, &mut gate)?;
    if gate[0] == 1 {
        return Err(OpenFault::Damaged { file, place });
    }
    Ok(Head::Closed)
}

// The number in the four bytes behind a gate.
fn length_in(head: &[u8]) -> u32
    requires { length head.now ≡ 5 }
    ensures value { result ≡ from_le_bytes w32 (length_bytes head.now) }
    ensures spelled { to_le_bytes w32 result ≡ length_bytes head.now }
{
    u32::from_le_bytes([head[1], head[2], head[3], head[4]])
}

// The gate and the length at a place behind which at least four bytes stand.
fn read_whole_head<D: Disk>(
    disk: &mut D,
    file: u8,
    place: u64,
    size: u64,
) -> Result<Head, OpenFault>
    requires file { file ≤ 2 }
    requires place { place + 5 ≤ size }
    requires size { IsTrue D.meaning.tells → size ≡ length (D.meaning.seen disk.old file) }
    ensures head { IsTrue D.meaning.tells → HeadAt file (drop place (D.meaning.seen disk.old file)) place result }
    ensures within { IfOk result (EndsWithin place size) }
    ensures looks { OnlyLooks D.meaning disk.old disk.new }
    ensures faults { TellsFaults D.meaning disk.old disk.new (IsErrOf result OpenFault.Disk) }
{
    let mut head = [0; 5];
    disk.read(file, place, &mut head)?;
    if head[0] != 1 {
        return Ok(Head::Closed);
    }
    let length = length_in(&head);
    if u64::from(length) > size - place - 5 {
        return Err(OpenFault::Damaged { file, place });
    }
    Ok(Head::Open { length })
}

// The gate at a place, and the length behind an open one.
fn read_head<D: Disk>(disk: &mut D, file: u8, place: u64, size: u64) -> Result<Head, OpenFault>
    requires file { file ≤ 2 }
    requires place { place ≤ size }
    requires size { IsTrue D.meaning.tells → size ≡ length (D.meaning.seen disk.old file) }
    ensures head { IsTrue D.meaning.tells → HeadAt file (drop place (D.meaning.seen disk.old file)) place result }
    ensures within { IfOk result (EndsWithin place size) }
    ensures looks { OnlyLooks D.meaning disk.old disk.new }
    ensures faults { TellsFaults D.meaning disk.old disk.new (IsErrOf result OpenFault.Disk) }
{
    if place == size {
        return Err(OpenFault::Damaged { file, place });
    }
    if size - place < 5 {
        return read_last_gate(disk, file, place, size);
    }
    read_whole_head(disk, file, place, size)
}

// For how many bytes memory is made where a body of so many is to come: with the first one for all of a file that
// is within its cap.
fn room_for(count: usize, place: u64, size: u64, cap: u64) -> usize
    ensures enough { count ≤ result }
    ensures bounded { result ≤ max count cap }
{
    if place == 0 {
        count.max(size.min(cap) as usize)
    } else {
        count
    }
}

// The bodies of a file's records, and the place of the closed gate behind them.
pub(crate) fn read_records<D: Disk>(
    alloc: Global,
    disk: &mut D,
    file: u8,
    size: u64,
    cap: u64,
) -> Result<(Bodies, u64), OpenFault>
    requires file { file ≤ 2 }
    requires size { IsTrue D.meaning.tells → size ≡ length (D.meaning.seen disk.old file) }
    ensures found { IsTrue D.meaning.tells → RecordsOf file (D.meaning.seen disk.old file) result }
    ensures end { IfOk result (λ found. found.1 ≡ size_of (list_of found.0)) }
    ensures looks { OnlyLooks D.meaning disk.old disk.new }
    ensures faults { TellsFaults D.meaning disk.old disk.new (IsErrOf result OpenFault.Disk) }
{
    let mut bodies = Bodies::new(alloc);
    let mut place = 0;
    'records: while let Head::Open { length } = read_head(disk, file, place, size)? {
        let count = length as usize;
        bodies.reserve(room_for(count, place, size, cap))?;
        bodies.read(disk, file, place + 5, count)?;
        place += 5 + u64::from(length);
    }
    Ok((bodies, place))
}
