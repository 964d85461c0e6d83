// Rows that are asked for one by one.
ghost use Rattle.std.specs.Prelude.{◌≡◌, []};

use crate::tables::rows::job;
use crate::tables::sites::{nodes_alone, put_job, put_queue};
use qm_kinds::{Name, Pattern, Row, Seq, batch_queue, system_user};
use qm_parts::Parts;
use qm_scan::{Scan, ScanKind};
use std::alloc::{AllocError, Global};
use std::test::Fail;

// Puts in a queue with jobs of the numbers 1, 2 and 4.
fn fill(alloc: Global, parts: &mut Parts) -> Result<(), AllocError>
    requires { parts.old.entries ≡ [] }
{
    put_queue(alloc, parts)?;
    put_job(parts, job(1, 100))?;
    put_job(parts, job(2, 100))?;
    put_job(parts, job(4, 101))
}

// The number of the entry that a scan gives next, if it gives one.
fn next_entry(parts: &Parts, scan: &mut Scan) -> Result<Option<u32>, AllocError> {
    match scan.next(parts)? {
        Some(Row::Entry(entry)) => Ok(Some(entry.number())),
        Some(_) | None => Ok(None),
    }
}

// Whether a scan gives the queue of a name next.
fn is_next(parts: &Parts, scan: &mut Scan, name: &Name) -> Result<bool, AllocError> {
    match scan.next(parts)? {
        Some(Row::Queue(queue)) => Ok(queue.get().name == *name),
        Some(_) | None => Ok(false),
    }
}

// What a scan of the jobs of a queue gives, where the second one is taken out once it was given.
fn scan_jobs(
    alloc: Global,
    parts: &mut Parts,
    queue: Name,
    pattern: Pattern,
) -> Result<[Option<u32>; 4], AllocError> {
    let mut scan = Scan::new(alloc, ScanKind::Jobs, pattern, Some(queue), None);
    let first = next_entry(parts, &mut scan)?;
    let second = next_entry(parts, &mut scan)?;
    parts.remove_entry(2);
    let third = next_entry(parts, &mut scan)?;
    Ok([first, second, third, next_entry(parts, &mut scan)?])
}

// Whether a scan of the queues gives this one, and then no more.
fn scan_queues(
    alloc: Global,
    parts: &Parts,
    name: &Name,
    pattern: Pattern,
) -> Result<[bool; 2], AllocError> {
    let mut scan = Scan::new(alloc, ScanKind::Queues, pattern, None, None);
    let first = is_next(parts, &mut scan, name)?;
    Ok([first, scan.next(parts)?.is_none()])
}

// What scans give over a queue with three jobs: its row, its jobs, and those of a queue that isn't there.
fn scan_all(
    alloc: Global,
    parts: &mut Parts,
) -> Result<([bool; 2], [Option<u32>; 4], [Option<u32>; 4]), AllocError>
    requires { parts.old.entries ≡ [] }
{
    fill(alloc, parts)?;
    let all = Pattern::read(b"*").unwrap();
    let queues = scan_queues(alloc, parts, &batch_queue(), all)?;
    let jobs = scan_jobs(alloc, parts, batch_queue(), all)?;
    Ok((queues, jobs, scan_jobs(alloc, parts, system_user(), all)?))
}

#[test]
fn scans_go_on_behind_the_last_row(rt: HostRuntime) -> Result<(), Fail> {
    let mut parts = nodes_alone(rt.alloc(), Seq::new(rt.alloc()), 1)?;
    let end = scan_all(rt.alloc(), &mut parts);
    drop(parts);
    let (queues, jobs, others) = end?;
    assert!(rt; queues == [true, true]);
    assert!(rt; jobs == [Some(1), Some(2), Some(4), None]);
    assert!(rt; others == [None; 4]);
    Ok(())
}
