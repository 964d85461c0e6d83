//! The program: standard input and output, the files of the folder, and for each node the system's clock and the folder's devices
//! for the top call; the end's line on standard error, and its status.
#![tactic(auto)]

ghost use Rattle.std.specs.Prelude.{◌≡◌, length, IfOk};
ghost use Rattle.std.specs.Process.{exit_status};
ghost use Rattle.qm_kinds.specs.declared.limits.TheConstants.{NODES_LIMIT};
ghost use Rattle.qm_program.specs.Ends.{status_of};

mod advice;

use advice::{Folder, advice};
use qm_disk::{InputSource, OutputSink, SystemClock};
use qm_files::FileDisk;
use qm_kinds::NODES_LIMIT;
use qm_node::Station;
use qm_program::{End, Outcome, qman};
use qm_symb::{FileDevice, Standard};
use std::alloc::AllocError;
use std::io::IsTerminal;
use std::marker::Sync;
use std::process::ExitCode;
use std::sync::Wait;
use std::thread::Threads;
use std::{env, fs, io};

// The first queue file.
const QUEUES_1: &str = "QMAN_QUEUES_1.DAT";

// What a node has of its own.
type OwnStation<'a> = Station<SystemClock<&'a HostRuntime>, Standard<FileDevice<HostRuntime>>>;

// The words behind the program's name.
fn words(rt: &HostRuntime) -> io::Result<Vec<String>> {
    let mut words = Vec::new(rt.alloc());
    for word in env::args(rt)?.skip(1) {
        words.push(word)?;
    }
    Ok(words)
}

// The files of the folder in which the program was started. None is opened or made yet.
fn files(rt: &HostRuntime) -> Result<FileDisk<HostRuntime>, AllocError> {
    let alloc = rt.alloc();
    Ok(FileDisk::new(
        rt.clone()?,
        String::from_str(alloc, "QMAN_LOCK.DAT")?,
        String::from_str(alloc, "QMAN_MASTER.DAT")?,
        String::from_str(alloc, QUEUES_1)?,
        String::from_str(alloc, "QMAN_QUEUES_2.DAT")?,
    ))
}

// What carries out the runs of a node: it hands their blocks to files of the folder. None is opened or made yet.
fn symbiont(rt: &HostRuntime) -> Result<Standard<FileDevice<HostRuntime>>, AllocError> {
    let alloc = rt.alloc();
    let folder = String::from_str(alloc, ".")?;
    Ok(Standard::new(alloc, FileDevice::new(rt.clone()?, folder)))
}

// As many as a site can have nodes.
fn stations(rt: &HostRuntime) -> Result<Vec<OwnStation<'_>>, AllocError>
    ensures { IfOk result (λ stations. length stations.items ≡ NODES_LIMIT) }
{
    let mut stations = Vec::new(rt.alloc());
    for _ in 0..NODES_LIMIT {
        stations.push(Station {
            clock: SystemClock::new(rt),
            symbiont: symbiont(rt)?,
        })?;
    }
    Ok(stations)
}

// How the program ended, and whether another run has the folder. A word that isn't UTF-8 is no word of the program.
fn run<R: Threads + Wait + Sync>(threads: &R, rt: &HostRuntime) -> (End, bool) {
    let words = match words(rt) {
        Ok(words) => words,
        Err(error) if error.kind() == io::ErrorKind::InvalidData => return (End::Usage, false),
        Err(_) => return (End::NoMemory, false),
    };
    let Ok(disk) = files(rt) else {
        return (End::NoMemory, false);
    };
    let Ok(mut stations) = stations(rt) else {
        return (End::NoMemory, false);
    };
    let mut source = InputSource::new(rt.stdin());
    let mut sink = OutputSink::new(rt.stdout());
    let Outcome { end, disk, .. } = qman(
        threads,
        rt.alloc(),
        &words,
        &mut source,
        &mut sink,
        disk,
        &mut stations,
    );
    let is_in_use = disk.is_in_use();
    disk.close();
    (end, is_in_use)
}

// What is found of the folder behind a run. The first queue file counts as there where that can't be told.
fn folder(rt: &HostRuntime, is_in_use: bool) -> Folder {
    if is_in_use {
        return Folder::InUse;
    }
    match fs::exists(rt, QUEUES_1) {
        Ok(false) => Folder::IsNew,
        Ok(true) | Err(_) => Folder::HasQueues,
    }
}

// Prints the one line of an end. That another run has the folder is the cause of a failed disk alone. Where nobody reads the line, the
// status says the same.
fn tell(rt: &HostRuntime, end: End, is_in_use: bool) {
    let cause = if is_in_use && end == End::Journal {
        ", the folder is in use"
    } else {
        ""
    };
    let next = if rt.stderr().is_terminal() {
        advice(end, folder(rt, is_in_use))
    } else {
        ""
    };
    let _ = eprintln!(rt; "qman: {end}{cause}{next}");
}

// What the system is told of an end.
fn exit_code(end: End) -> ExitCode
    ensures { exit_status result ≡ status_of end }
{
    ExitCode::from(end.status())
}

fn main(rt: HostRuntime) -> ExitCode {
    let (end, is_in_use) = run(&rt, &rt);
    if end != End::Ok {
        tell(&rt, end, is_in_use);
    }
    exit_code(end)
}
