// Runs of the program over real files.
use crate::desk::{Asked, Desk, push_walk};
use crate::files::Files;
use crate::run::{Ran, Site, run};
use qm_files::FileDisk;
use qm_history::Turn;
use std::alloc::AllocError;
use std::marker::Sync;
use std::sync::Wait;
use std::thread::Threads;
use std::{fs, io, slice};

// The folder of the files, which is made for a run of `init`.
const FOLDER: &str = "files";

// The disk over the files of the folder. It opens none yet.
fn files(rt: &HostRuntime) -> Result<FileDisk<HostRuntime>, AllocError> {
    let alloc = rt.alloc();
    Ok(FileDisk::new(
        rt.clone()?,
        String::from_str(alloc, "files/lock")?,
        String::from_str(alloc, "files/master")?,
        String::from_str(alloc, "files/one")?,
        String::from_str(alloc, "files/two")?,
    ))
}

/// A folder without a file.
pub(crate) fn new_folder(rt: &HostRuntime) -> io::Result<()> {
    let _ = fs::remove_dir_all(rt, FOLDER);
    fs::create_dir(rt, FOLDER)
}

// The master and the first queue file of the folder.
fn files_left(rt: &HostRuntime) -> io::Result<Files> {
    let mut left = Files::new(rt.alloc());
    *left.get_mut(0) = fs::read(rt, "files/master")?;
    *left.get_mut(1) = fs::read(rt, "files/one")?;
    Ok(left)
}

// Gives back the files of a run, and keeps its turns.
fn turns_of(ran: Ran<FileDisk<HostRuntime>>) -> Vec<Turn> {
    let Ran { site, turns, .. } = ran;
    let Site { disk, .. } = site;
    disk.close();
    turns
}

// Runs the program over the files of the folder, and tells of the run. Gives its turns.
fn turns_told<R: Threads + Wait + Sync>(
    rt: &HostRuntime,
    threads: &R,
    desk: &Desk,
    told: &mut Vec<u8>,
    asked: &Asked<'_, '_>,
    words: &[String],
) -> io::Result<Vec<Turn>> {
    let outside = desk.outside(&desk.script)?;
    let site = desk.site(files(rt)?)?;
    let ran = run(threads, rt.alloc(), words, outside, site)?;
    let is_told = desk.push_told(told, asked, &desk.files, &ran);
    let turns = turns_of(ran);
    is_told?;
    Ok(turns)
}

// Runs the program over the files of the folder, and tells of the run. Gives the master and the first queue file that it left; the
// second one was asked for nothing, and so wasn't made.
fn run_once<R: Threads + Wait + Sync>(
    rt: &HostRuntime,
    threads: &R,
    desk: &Desk,
    told: &mut Vec<u8>,
    words: &[String],
) -> io::Result<Files> {
    let asked = Asked::all(words, &desk.script);
    let turns = turns_told(rt, threads, desk, told, &asked, words)?;
    let left = files_left(rt)?;
    let behind = slice::from_ref(&left);
    push_walk(rt.alloc(), told, &asked, &desk.files, turns, behind)?;
    Ok(left)
}

/// Runs the program over the files of the folder, tells of the run, and keeps the files that it left.
pub(crate) fn run_over_files<R: Threads + Wait + Sync>(
    rt: &HostRuntime,
    threads: &R,
    desk: &mut Desk,
    told: &mut Vec<u8>,
    words: &[String],
) -> io::Result<()> {
    let left = run_once(rt, threads, desk, told, words)?;
    desk.files = left;
    if fs::exists(rt, "files/two")? {
        told.extend_from_slice(b"queue file 2 was made\n")?;
    }
    Ok(())
}
