// What a crash leaves of a disk in memory. A call that failed by the list may have been made all the same.
ghost use Rattle.std.specs.Prelude.{◌≤◌};

use crate::outside::told::{Cases, assert_told};
use qm_disk::{Disk, DiskFault, MemoryDisk};
use std::alloc::{AllocError, Global};

/// A disk whose file 1 holds these bytes. The calls of these numbers fail.
pub(crate) fn disk_of(alloc: Global, one: &[u8], fail: &[u64]) -> Result<MemoryDisk, AllocError> {
    let one = one.to_vec(alloc)?;
    let fail = fail.to_vec(alloc)?;
    Ok(MemoryDisk::new(alloc, Vec::new(alloc), one, Vec::new(alloc), fail))
}

/// How a call ended, as the cases tell it.
pub(crate) fn ending(held: bool) -> &'static str {
    if held { "held" } else { "failed" }
}

// Adds what a file holds.
fn tell_bytes(
    alloc: Global,
    disk: &MemoryDisk,
    file: u8,
    told: &mut String,
) -> Result<(), AllocError>
    requires { file ≤ 2 }
{
    let bytes = format!(in alloc; " {:?}", disk.held(file))?;
    told.push_str(bytes.as_str())
}

// How a change ended, and what each crash leaves of the file.
fn tell_crashes(
    alloc: Global,
    held: bool,
    disk: &MemoryDisk,
    file: u8,
) -> Result<String, AllocError>
    requires { file ≤ 2 }
{
    let mut told = String::from_str(alloc, ending(held))?;
    for pick in 0..3 {
        tell_bytes(alloc, &disk.after_crash(pick)?, file, &mut told)?;
    }
    Ok(told)
}

fn tell_write(alloc: Global, fail: &[u64]) -> Result<String, AllocError> {
    let mut disk = disk_of(alloc, &[1, 2, 3, 4], fail)?;
    let held = disk.write(1, 0, &[9, 9, 9]).is_ok();
    tell_crashes(alloc, held, &disk, 1)
}

fn tell_cut(alloc: Global, fail: &[u64]) -> Result<String, AllocError> {
    let mut disk = disk_of(alloc, &[1, 2, 3, 4], fail)?;
    let held = disk.cut(1, 0).is_ok();
    tell_crashes(alloc, held, &disk, 1)
}

fn write_around_a_sync(disk: &mut MemoryDisk) -> Result<(), DiskFault> {
    disk.write(2, 0, &[1, 2])?;
    disk.sync(2)?;
    disk.write(2, 0, &[3, 4, 5, 6])?;
    let size = disk.size(2)?;
    disk.write(2, size, &[7, 8])
}

fn tell_writes_around_a_sync(alloc: Global) -> Result<String, AllocError> {
    let mut disk = disk_of(alloc, &[], &[])?;
    let held = write_around_a_sync(&mut disk).is_ok();
    tell_crashes(alloc, held, &disk, 2)
}

// Changes of a file: how each ends, and what the three crashes leave behind it.
#[derive(Clone, Copy)]
struct Changes;

impl Cases for Changes {
    fn told_of(&mut self, alloc: Global, text: &str) -> Result<String, AllocError> {
        match text {
            "write" => tell_write(alloc, &[]),
            "write that fails" => tell_write(alloc, &[1]),
            "cut" => tell_cut(alloc, &[]),
            "cut that fails" => tell_cut(alloc, &[1]),
            _ => tell_writes_around_a_sync(alloc),
        }
    }
}

const CHANGES: &str = "write|held [1, 2, 3, 4] [9, 9, 9, 4] [9, 2, 3, 4]
write that fails|failed [1, 2, 3, 4] [9, 9, 9, 4] [9, 2, 3, 4]
cut|held [1, 2, 3, 4] [] []
cut that fails|failed [1, 2, 3, 4] [] []";

#[test]
fn a_call_that_failed_may_be_found(rt: HostRuntime) -> Result<(), AllocError> {
    assert_told(&rt, rt.alloc(), &mut Changes, CHANGES)
}

// Writes since the last sync alone are lost, each in part or whole. A gap behind one that was lost has bytes 0.
const AROUND_A_SYNC: &str = "writes around a sync|held [1, 2] [3, 4, 5, 6, 7, 8] [3, 4, 0, 0, 7]";

#[test]
fn a_sync_keeps_what_was_written(rt: HostRuntime) -> Result<(), AllocError> {
    assert_told(&rt, rt.alloc(), &mut Changes, AROUND_A_SYNC)
}
