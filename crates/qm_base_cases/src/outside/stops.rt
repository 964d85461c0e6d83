// A stop within a call, and a device that fails at each call.
ghost use Rattle.std.specs.Prelude.{◌≤◌};
ghost use Rattle.qm_kinds.specs.declared.limits.TheConstants.{GREATEST_CAP};

use crate::outside::crashes::{disk_of, ending};
use crate::outside::files::opened;
use crate::outside::told::{Cases, assert_told, number};
use qm_disk::{Disk, MemoryDisk};
use qm_glog::{AppendFault, Log, MakeFault, OpenFault, create, format, open};
use qm_kinds::GREATEST_CAP;
use std::alloc::{AllocError, Global};

const BODY: [u8; 3] = [7, 8, 9];

// How an append to a log of no records ends.
fn append(alloc: Global, disk: &mut MemoryDisk) -> Result<&'static str, OpenFault> {
    let mut log = format(alloc, disk, 1)?;
    log.reserve(BODY.len())?;
    Ok(ending(log.append(disk, &BODY).is_ok()))
}

// Adds how many records a log has, and the records.
fn tell_log(alloc: Global, log: &Log, told: &mut String) -> Result<(), AllocError> {
    let count = format!(in alloc; ", {}", log.count())?;
    told.push_str(count.as_str())?;
    for index in 0..log.count() {
        let record = format!(in alloc; " {:?}", log.record(index))?;
        told.push_str(record.as_str())?;
    }
    Ok(())
}

// How an append ends where this call fails, and the records that opening finds then, by each crash.
fn tell_stop(alloc: Global, stop: u64) -> Result<String, OpenFault> {
    let mut disk = disk_of(alloc, &[], &[stop])?;
    let mut told = String::from_str(alloc, append(alloc, &mut disk)?)?;
    for pick in 0..3 {
        let log = open(alloc, &mut disk.after_crash(pick)?, 1, GREATEST_CAP)?;
        tell_log(alloc, &log, &mut told)?;
    }
    Ok(told)
}

// The end of a log that is made of the body, or why none is made.
fn made(alloc: Global, disk: &mut MemoryDisk) -> Result<u64, MakeFault> {
    let rows = [BODY.to_vec(alloc)?];
    Ok(create(alloc, disk, 1, 100, &rows)?.end())
}

// What two makings give one after the other where this call fails, and what the file holds then.
fn tell_makings(alloc: Global, number: u64) -> Result<String, AllocError> {
    let mut disk = disk_of(alloc, &[1, 2, 3], &[number])?;
    let first = made(alloc, &mut disk);
    let second = made(alloc, &mut disk);
    format!(in alloc; "{first:?} {second:?} {:?}", disk.held(1))
}

// What two openings give one after the other where this call fails.
fn tell_openings(alloc: Global, number: u64) -> Result<String, AllocError> {
    let mut disk = disk_of(alloc, &[1, 1, 0, 0, 0, 9, 0], &[number])?;
    let first = opened(alloc, &mut disk, 100);
    let second = opened(alloc, &mut disk, 100);
    format!(in alloc; "{first:?} {second:?}")
}

fn append_within(
    alloc: Global,
    disk: &mut MemoryDisk,
    cap: u64,
) -> Result<Result<(), AppendFault>, OpenFault>
    requires { cap ≤ GREATEST_CAP }
{
    let mut log = open(alloc, disk, 1, cap)?;
    log.reserve(BODY.len())?;
    Ok(log.append(disk, &BODY))
}

// How an append to a log of no records with this cap ends, and what the file holds then.
fn tell_cap(alloc: Global, cap: u64) -> Result<String, AllocError>
    requires { cap ≤ GREATEST_CAP }
{
    let mut disk = disk_of(alloc, &[0], &[])?;
    let outcome = append_within(alloc, &mut disk, cap);
    format!(in alloc; "{outcome:?} {:?}", disk.held(1))
}

// What is done with a log, each by a number.
#[derive(Clone, Copy)]
enum Doing {
    Stop,
    Make,
    Open,
    Fill,
}

impl Cases for Doing {
    fn told_of(&mut self, alloc: Global, text: &str) -> Result<String, AllocError> {
        let number = number(text);
        match self {
            Doing::Stop => match tell_stop(alloc, number) {
                Ok(told) => Ok(told),
                Err(fault) => format!(in alloc; "{fault:?}"),
            },
            Doing::Make => tell_makings(alloc, number),
            Doing::Open => tell_openings(alloc, number),
            Doing::Fill => tell_cap(alloc, number.min(GREATEST_CAP)),
        }
    }
}

// An append makes the calls 4 to 7 of the disk.
const STOPS: &str = "4|failed, 0, 0, 0
5|failed, 0, 0, 0
6|failed, 0, 1 [7, 8, 9], 0
7|failed, 0, 1 [7, 8, 9], 0
8|held, 1 [7, 8, 9], 1 [7, 8, 9], 1 [7, 8, 9]";

#[test]
fn a_stop_within_an_append(rt: HostRuntime) -> Result<(), AllocError> {
    assert_told(&rt, rt.alloc(), &mut Doing::Stop, STOPS)
}

const MAKINGS: &str = "1|Err(Disk) Ok(8) [1, 3, 0, 0, 0, 7, 8, 9, 0]
2|Err(Disk) Ok(8) [1, 3, 0, 0, 0, 7, 8, 9, 0]
3|Err(Disk) Ok(8) [1, 3, 0, 0, 0, 7, 8, 9, 0]";

const OPENINGS: &str = "1|Err(Disk) Ok(1)
2|Err(Disk) Ok(1)
3|Err(Disk) Ok(1)
4|Err(Disk) Ok(1)
5|Err(Disk) Ok(1)";

#[test]
fn each_call_may_fail(rt: HostRuntime) -> Result<(), AllocError> {
    assert_told(&rt, rt.alloc(), &mut Doing::Make, MAKINGS)?;
    assert_told(&rt, rt.alloc(), &mut Doing::Open, OPENINGS)
}

// A log of the body takes 9 bytes.
const CAPS: &str = "8|Ok(Err(Full { need: 9, cap: 8 })) [0]
9|Ok(Ok(())) [1, 3, 0, 0, 0, 7, 8, 9, 0]";

#[test]
fn a_full_log_stays_as_it_is(rt: HostRuntime) -> Result<(), AllocError> {
    assert_told(&rt, rt.alloc(), &mut Doing::Fill, CAPS)
}
