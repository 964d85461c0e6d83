//! The worked cases that are data. Each is two files of the folder: a script, `NAME.qman`, and what it prints,
//! `NAME.transcript`; and a third, `NAME.clock`, where its clock tells more than 1-JAN-2030 10:00:00.00: the moments that it
//! tells, one a line as they are printed, of which it tells the last one for ever; each node's clock tells these. Each is served
//! over a disk in memory that holds a new site of the node A, or of the nodes that stand in front of the name and a `:`, and
//! over devices in memory; a case whose name has a `+` before it goes on over the site that the one before it left, and its
//! devices. Where a `=` and a device stand behind the name, `NAME.out` is what the device was handed, by this case and those
//! that it goes on from; where there is a `NAME.listing`, it is what `show` prints behind the case. A name with a `@` before it
//! is that of a plan, `NAME.plan`: files of the disk byte by byte, calls that fail, and what later runs find. The turns of each
//! run are walked along, from the files that it found to those that it left.
//!
//! A case whose name has a `&` before it is served by `cluster`, each node by a thread of its own. Its transcript is one of those that
//! threads may make of it; what is printed is compared with it but for the order of names in the last line, and for the lines that
//! `NAME.either` names: each of its lines names some, with ` or ` between two and `nothing` for none, of which any may stand in place of
//! the others. Beyond that the turns of each node have to be of its lines, in their order, and the last line to say whose each was.
//! Threads may do otherwise each time: the words of a case can be given as often as it is to be tried.
#![tactic(auto)]

mod cases;
mod courses;
mod desk;
mod either;
mod files;
mod real;
mod records;
mod run;
mod verbs;
mod walks;

use cases::{MemorySite, serve_case};
use desk::Desk;
use run::empty_site;
use std::marker::Sync;
use std::process::ExitCode;
use std::sync::Wait;
use std::thread::Threads;
use std::{env, fs, io};
use verbs::holds;

// Whether the plan of this name holds.
fn plan_holds<R: Threads + Wait + Sync>(
    rt: &HostRuntime,
    threads: &R,
    desk: &mut Desk,
    name: &str,
) -> io::Result<bool> {
    let path = format!(in rt.alloc(); "{name}.plan")?;
    let text = fs::read_to_string(rt, path.as_str())?;
    holds(rt, threads, desk, text.as_str())
}

// Serves a case or follows a plan, as its word says, and tells whether it passes.
fn passes<R: Threads + Wait + Sync>(
    rt: &HostRuntime,
    threads: &R,
    word: &str,
    site: &mut MemorySite,
    desk: &mut Desk,
) -> io::Result<bool> {
    match word.strip_prefix("@") {
        Some(name) => plan_holds(rt, threads, desk, name),
        None => serve_case(rt, threads, word, site),
    }
}

// Serves the cases, and counts those that pass and those that don't.
fn count_cases<R: Threads + Wait + Sync>(
    rt: &HostRuntime,
    threads: &R,
    site: &mut MemorySite,
    desk: &mut Desk,
) -> io::Result<(u32, u32)> {
    let mut passed = 0u32;
    let mut failed = 0u32;
    for word in env::args(rt)?.skip(1) {
        if passes(rt, threads, word.as_str(), site, desk)? {
            passed = passed.saturating_add(1);
        } else {
            failed = failed.saturating_add(1);
            println!(rt; "{word}: failed")?;
        }
    }
    Ok((passed, failed))
}

// The same, from an empty site and an empty desk on.
fn serve_cases<R: Threads + Wait + Sync>(rt: &HostRuntime, threads: &R) -> io::Result<(u32, u32)> {
    let mut site = empty_site(rt.alloc())?;
    let mut desk = Desk::new(rt.alloc());
    let counts = count_cases(rt, threads, &mut site, &mut desk);
    drop(desk);
    drop(site);
    counts
}

fn main(rt: HostRuntime) -> io::Result<ExitCode> {
    let (passed, failed) = serve_cases(&rt, &rt)?;
    println!(rt; "{passed} passed, {failed} failed")?;
    Ok(if failed == 0 {
        ExitCode::SUCCESS
    } else {
        ExitCode::FAILURE
    })
}
