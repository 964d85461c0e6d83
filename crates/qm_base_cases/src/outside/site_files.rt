// What the contracts of real files leave open: what is asked of the system, in which order, and what is made of its answers.
ghost use Rattle.std.specs.Prelude.{◌≤◌};

use qm_disk::Disk;
use qm_files::{FileDisk, SiteFile};
use std::alloc::{AllocError, Allocator, Global};
use std::cell::RefCell;
use std::fs::{File, Files, Metadata, OpenFile, OpenOptions};
use std::io::{ErrorKind, Read, Seek, SeekFrom, Write};
use std::os::fd::AsRawFd;
use std::os::unix::fs::{FileExt, symlink};
use std::{fs, io};

// The calls on the files of a folder, a line each, and which of them fail: so many from one on. Calls of a kind in a row
// have one line.
#[derive(Drop)]
struct Calls {
    lines: String,
    last: String,
    made: usize,
    failing: usize,
    failures: usize,
    // The number that the next file gets.
    number: i32,
}

impl Calls {
    fn new(alloc: Global, number: i32) -> RefCell<Calls> {
        Calls::failing(alloc, 0, 0, number)
    }

    fn failing(alloc: Global, failing: usize, failures: usize, number: i32) -> RefCell<Calls> {
        RefCell::new(Calls {
            lines: String::new(alloc),
            last: String::new(alloc),
            made: 0,
            failing,
            failures,
            number,
        })
    }

    // Writes a call down. It fails where it is one of those that fail.
    fn note(&mut self, what: &str, name: &str) -> io::Result<()> {
        self.made = self.made.wrapping_add(1);
        if self.made.wrapping_sub(self.failing) < self.failures {
            return Err(ErrorKind::Other.into());
        }
        self.last.clear();
        push_all(&mut self.last, &[what, " ", name, "\n"])?;
        if !self.lines.as_str().ends_with(self.last.as_str()) {
            self.lines.push_str(self.last.as_str())?;
        }
        Ok(())
    }
}

fn lines_of(calls: RefCell<Calls>) -> String {
    calls.into_inner().lines
}

// Adds these texts one behind the other.
fn push_all(text: &mut String, parts: &[&str]) -> Result<(), AllocError> {
    for part in parts {
        text.push_str(part)?;
    }
    Ok(())
}

fn note(calls: &RefCell<Calls>, what: &str, name: &str) -> io::Result<()> {
    match calls.try_borrow_mut() {
        Ok(mut calls) => calls.note(what, name),
        Err(_) => Err(ErrorKind::Other.into()),
    }
}

// Whether this call is interrupted: every second one is.
fn is_interrupted(calls: &RefCell<Calls>) -> bool {
    match calls.try_borrow() {
        Ok(calls) => calls.made % 2 == 0,
        Err(_) => false,
    }
}

fn next_number(calls: &RefCell<Calls>) -> i32 {
    match calls.try_borrow_mut() {
        Ok(mut calls) => {
            let number = calls.number;
            calls.number = number.wrapping_add(1);
            number
        }
        Err(_) => -1,
    }
}

// The system's files, whose calls are written down.
#[derive(Clone, Copy)]
struct Watched<'a> {
    rt: &'a HostRuntime,
    calls: &'a RefCell<Calls>,
}

#[derive(Drop)]
struct WatchedFile<'a> {
    file: File,
    name: String,
    number: i32,
    calls: &'a RefCell<Calls>,
}

impl WatchedFile<'_> {
    fn note(&self, what: &str) -> io::Result<()> {
        note(self.calls, what, self.name.as_str())
    }
}

impl<'a> Files for Watched<'a> {
    type File = WatchedFile<'a>;

    type Dir = io::Empty;

    fn open_file(&self, how: &OpenOptions, path: &str) -> io::Result<WatchedFile<'a>> {
        note(self.calls, "open", path)?;
        Ok(WatchedFile {
            file: self.rt.open_file(how, path)?,
            name: String::from_str(self.rt.alloc(), path)?,
            number: next_number(self.calls),
            calls: self.calls,
        })
    }

    fn copy(&self, from: &str, to: &str) -> io::Result<u64> {
        note(self.calls, "copy", from)?;
        self.rt.copy(from, to)
    }

    fn rename(&self, from: &str, to: &str) -> io::Result<()> {
        note(self.calls, "rename", from)?;
        self.rt.rename(from, to)
    }

    fn open_dir(&self, _path: &str) -> io::Result<io::Empty> {
        Err(ErrorKind::Unsupported.into())
    }

    fn metadata(&self, _path: &str) -> io::Result<Metadata> {
        Err(ErrorKind::Unsupported.into())
    }

    fn symlink_metadata(&self, _path: &str) -> io::Result<Metadata> {
        Err(ErrorKind::Unsupported.into())
    }

    fn remove_file(&self, path: &str) -> io::Result<()> {
        note(self.calls, "remove", path)?;
        self.rt.remove_file(path)
    }

    fn create_dir(&self, _path: &str) -> io::Result<()> {
        Err(ErrorKind::Unsupported.into())
    }

    fn remove_dir(&self, _path: &str) -> io::Result<()> {
        Err(ErrorKind::Unsupported.into())
    }

    fn remove_dir_all<B: Allocator>(&self, _alloc: B, _path: &str) -> io::Result<()> {
        Err(ErrorKind::Unsupported.into())
    }
}

impl Read for WatchedFile<'_> {
    fn read(&mut self, _into: &mut [u8]) -> io::Result<usize> {
        Err(ErrorKind::Unsupported.into())
    }
}

impl Write for WatchedFile<'_> {
    fn write(&mut self, _piece: &[u8]) -> io::Result<usize> {
        Err(ErrorKind::Unsupported.into())
    }

    fn flush(&mut self) -> io::Result<()> {
        Err(ErrorKind::Unsupported.into())
    }
}

impl Seek for WatchedFile<'_> {
    fn seek(&mut self, _to: SeekFrom) -> io::Result<u64> {
        Err(ErrorKind::Unsupported.into())
    }
}

impl OpenFile for WatchedFile<'_> {
    fn metadata(&self) -> io::Result<Metadata> {
        self.note("size")?;
        self.file.metadata()
    }

    fn set_len(&self, size: u64) -> io::Result<()> {
        self.note("cut")?;
        self.file.set_len(size)
    }

    fn sync_all(&self) -> io::Result<()> {
        self.note("sync all")?;
        self.file.sync_all()
    }

    fn sync_data(&self) -> io::Result<()> {
        self.note("sync")?;
        self.file.sync_data()
    }
}

// Reads and writes are of two bytes at most, and some are interrupted.
impl FileExt for WatchedFile<'_> {
    fn read_at(&self, into: &mut [u8], at: u64) -> io::Result<usize> {
        self.note("read")?;
        if is_interrupted(self.calls) {
            return Err(ErrorKind::Interrupted.into());
        }
        let most = into.len().min(2);
        self.file.read_at(&mut into[..most], at)
    }

    fn write_at(&self, bytes: &[u8], at: u64) -> io::Result<usize> {
        self.note("write")?;
        if is_interrupted(self.calls) {
            return Err(ErrorKind::Interrupted.into());
        }
        let most = bytes.len().min(2);
        self.file.write_at(&bytes[..most], at)
    }
}

impl SiteFile for WatchedFile<'_> {
    fn number(&self) -> i32 {
        self.number
    }

    fn lock_now(&self) -> io::Result<()> {
        self.note("lock")?;
        self.file.lock_now()
    }
}

// The names of the lock and the files in a folder.
fn names_in(alloc: Global, folder: &str) -> Result<[String; 4], AllocError> {
    Ok([
        joined(alloc, &[folder, "lock"])?,
        joined(alloc, &[folder, "master"])?,
        joined(alloc, &[folder, "one"])?,
        joined(alloc, &[folder, "two"])?,
    ])
}

// The disk over the files of these names.
fn disk_over<R: Files>(files: R, names: [String; 4]) -> FileDisk<R>
where
    R::File: SiteFile,
{
    let [lock, master, one, two] = names;
    FileDisk::new(files, lock, master, one, two)
}

// A folder that is made for this.
const FOLDER: &str = "qm_files_test/";

fn new_folder(rt: &HostRuntime) -> io::Result<()> {
    let _ = fs::remove_dir_all(rt, "qm_files_test");
    fs::create_dir(rt, "qm_files_test")
}

// Whether three bytes are read.
fn reads<R: Files>(disk: &mut FileDisk<R>, file: u8) -> bool
where
    R::File: SiteFile,
    requires { file ≤ 2 }
{
    let mut read = [0; 3];
    let held = disk.read(file, 0, &mut read).is_ok();
    held && read == *b"abc"
}

// One call of each kind on a file, and whether it held.
fn each_call_on<R: Files>(disk: &mut FileDisk<R>, file: u8) -> [bool; 5]
where
    R::File: SiteFile,
    requires { file ≤ 2 }
{
    let is_written = disk.write(file, 0, b"abc").is_ok();
    let size = disk.size(file).unwrap_or(0);
    let is_read = reads(disk, file);
    let is_cut = disk.cut(file, 1).is_ok();
    let is_synced = disk.sync(file).is_ok();
    [is_written, size == 3, is_read, is_cut, is_synced]
}

const ALL: [bool; 5] = [true; 5];

// Whether one call of each kind on file 1 holds.
fn all_hold<R: Files>(disk: &mut FileDisk<R>) -> bool
where
    R::File: SiteFile,
{
    each_call_on(disk, 1) == ALL
}

const LOOKED: &str = "open qm_files_test
open qm_files_test/lock
lock qm_files_test/lock
size qm_files_test/lock
";

const MARKED: &str = "cut qm_files_test/lock
write qm_files_test/lock
sync qm_files_test/lock
";

const NOTHING_RENEWED: &str = "open qm_files_test/master
open qm_files_test/one
open qm_files_test/two
";

const MASTER_IS_NOT_THERE: &str = "open qm_files_test/master\n";

const TWO_IS_NOT_THERE: &str = "open qm_files_test/two\n";

const RENEWED: &str = "open qm_files_test/one
lock qm_files_test/one
remove qm_files_test/one.NEW
copy qm_files_test/one
open qm_files_test/one.NEW
lock qm_files_test/one.NEW
sync all qm_files_test/one.NEW
rename qm_files_test/one.NEW
open qm_files_test
sync all qm_files_test
";

const OPENED: &str = "open qm_files_test/one
lock qm_files_test/one
open qm_files_test
sync all qm_files_test
";

const CHANGED: &str = "write qm_files_test/one
size qm_files_test/one
read qm_files_test/one
cut qm_files_test/one
";

const SYNCED: &str = "sync qm_files_test/one\n";

// The same behind the renewal, whose file keeps here the name that it was opened by.
const CALLED_ANEW: &str = "write qm_files_test/one.NEW
size qm_files_test/one.NEW
read qm_files_test/one.NEW
cut qm_files_test/one.NEW
sync qm_files_test/one.NEW
";

// How the disk is let go.
#[derive(Clone, Copy)]
enum Leaving {
    Closed,
    Dropped,
}

const READ: &str = "read qm_files_test/lock\n";

// What is told in front of what a run asks for, where it holds and leaves what was written.
const RUN: &str = "a run that holds\n";

// What a word stands for of what is asked for.
fn part_of(word: &str) -> &'static str {
    match word {
        "run" => RUN,
        "looked" => LOOKED,
        "read" => READ,
        "marked" => MARKED,
        "nothing_renewed" => NOTHING_RENEWED,
        "master_is_not_there" => MASTER_IS_NOT_THERE,
        "renewed" => RENEWED,
        "two_is_not_there" => TWO_IS_NOT_THERE,
        "opened" => OPENED,
        "changed" => CHANGED,
        "synced" => SYNCED,
        "called_anew" => CALLED_ANEW,
        _ => "nothing of that name\n",
    }
}

// What these words stand for.
fn wanted_by(alloc: Global, words: &str) -> Result<String, AllocError> {
    let mut wanted = String::new(alloc);
    for word in words.split_whitespace() {
        wanted.push_str(part_of(word))?;
    }
    Ok(wanted)
}

// These texts one behind the other.
fn joined(alloc: Global, parts: &[&str]) -> Result<String, AllocError> {
    let mut whole = String::new(alloc);
    push_all(&mut whole, parts)?;
    Ok(whole)
}

// Whether one call of each kind holds, before the disk is let go so.
fn holds_and_leaves<R: Files + Drop>(mut disk: FileDisk<R>, leaving: Leaving) -> bool
where
    R::File: SiteFile,
{
    let holds = all_hold(&mut disk);
    match leaving {
        Leaving::Closed => disk.close(),
        Leaving::Dropped => drop(disk),
    }
    holds
}

// Whether one call of each kind holds in a run that lets the disk of a folder go so, and what the run asks for.
fn asked_by(
    rt: &HostRuntime,
    folder: &str,
    leaving: Leaving,
) -> Result<(bool, String), AllocError> {
    let names = names_in(rt.alloc(), folder)?;
    let calls = Calls::new(rt.alloc(), 3);
    let disk = disk_over(Watched { rt, calls: &calls }, names);
    let holds = holds_and_leaves(disk, leaving);
    Ok((holds, lines_of(calls)))
}

// Whether a file of the folder has these bytes.
fn has(rt: &HostRuntime, path: &str, bytes: &[u8]) -> bool {
    match fs::read(rt, path) {
        Ok(held) => held.as_slice() == bytes,
        Err(_) => false,
    }
}

// Adds what a run asks for that lets the disk go so.
fn tell_run(rt: &HostRuntime, leaving: Leaving, told: &mut String) -> Result<(), AllocError> {
    let (holds, asked) = asked_by(rt, FOLDER, leaving)?;
    if holds && has(rt, "qm_files_test/one", b"a") {
        told.push_str(RUN)?;
    }
    told.push_str(asked.as_str())
}

fn tell_runs(rt: &HostRuntime) -> io::Result<String> {
    new_folder(rt)?;
    let mut told = String::new(rt.alloc());
    for leaving in [
        Leaving::Closed,
        Leaving::Dropped,
        Leaving::Closed,
        Leaving::Closed,
    ] {
        tell_run(rt, leaving, &mut told)?;
    }
    Ok(told)
}

// Runs one behind the other, of which the second one drops the disk, and the others close it.
const RUNS: &str = "
    run looked marked nothing_renewed opened changed synced marked
    run looked read marked opened changed synced
    run looked read marked master_is_not_there renewed two_is_not_there called_anew marked
    run looked read marked opened changed synced marked";

#[test]
fn the_system_is_asked_in_this_order(rt: HostRuntime) -> io::Result<()> {
    let wanted = wanted_by(rt.alloc(), RUNS)?;
    let told = tell_runs(&rt)?;
    assert_eq!(rt; told.as_str(), wanted.as_str());
    Ok(())
}

// Makes a folder in which the lock's file and file 1 hold this, or in which nothing is.
fn folder_with(rt: &HostRuntime, found: Option<(&str, &str)>) -> io::Result<()> {
    new_folder(rt)?;
    match found {
        Some((mark, one)) => {
            fs::write(rt, "qm_files_test/lock", mark)?;
            fs::write(rt, "qm_files_test/one", one)
        }
        None => Ok(()),
    }
}

// Whether a run that holds, behind one that left this in the lock's file, copies what it opens.
fn copies_behind(rt: &HostRuntime, mark: &str) -> io::Result<Option<bool>> {
    folder_with(rt, Some((mark, "a")))?;
    let (holds, asked) = asked_by(rt, FOLDER, Leaving::Closed)?;
    let is_copied = asked.as_str().contains("copy qm_files_test/one\n");
    Ok(if holds { Some(is_copied) } else { None })
}

#[test]
fn only_the_mark_of_an_end_spares_the_copy(rt: HostRuntime) -> io::Result<()> {
    assert_eq!(rt; copies_behind(&rt, "ended\n")?, Some(false));
    for mark in ["", "ended", "ended\nx", "ending", "Ended\n"] {
        assert_eq!(rt; copies_behind(&rt, mark)?, Some(true), "behind {mark:?}");
    }
    Ok(())
}

// Whether a run behind one that ended badly reads the bytes of file 1, and leaves them, and no copy beside it.
fn is_kept(rt: &HostRuntime) -> io::Result<bool> {
    let names = names_in(rt.alloc(), FOLDER)?;
    let mut disk = disk_over(rt, names);
    let is_read = reads(&mut disk, 1);
    disk.close();
    let is_alone = fs::symlink_metadata(rt, "qm_files_test/one.NEW").is_err();
    Ok(is_read && is_alone && has(rt, "qm_files_test/one", b"abc"))
}

#[test]
fn a_link_where_the_copy_will_stand_is_not_written_through(rt: HostRuntime) -> io::Result<()> {
    folder_with(&rt, Some(("begun\n", "abc")))?;
    fs::hard_link(&rt, "qm_files_test/one", "qm_files_test/one.NEW")?;
    assert!(rt; is_kept(&rt)?, "a hard link");
    folder_with(&rt, Some(("begun\n", "abc")))?;
    symlink(&rt, "one", "qm_files_test/one.NEW")?;
    assert!(rt; is_kept(&rt)?, "a symbolic link");
    Ok(())
}

// Takes away the files that a case leaves in its own folder.
fn take_away(rt: &HostRuntime) {
    for name in ["lock", "master", "one", "two"] {
        let _ = fs::remove_file(rt, name);
    }
}

#[test]
fn a_name_without_a_folder_is_made_durable_too(rt: HostRuntime) -> io::Result<()> {
    take_away(&rt);
    let (holds, asked) = asked_by(&rt, "", Leaving::Closed)?;
    take_away(&rt);
    assert!(rt; holds && asked.as_str().contains("open .\nsync all .\n"));
    Ok(())
}

#[test]
fn a_file_tells_the_number_that_the_system_gave_it(rt: HostRuntime) -> io::Result<()> {
    folder_with(&rt, Some(("", "a")))?;
    let file = File::open(&rt, "qm_files_test/one")?;
    assert_eq!(rt; file.number(), file.as_raw_fd());
    Ok(())
}

// What the lock's file and file 1 hold before a run, and how many files the run opens, where the numbers 1 and 2 are free:
// the folder four times, since it gets these numbers, and is then opened once more, and once to be synced; the lock, and
// the file. Where the last run ended badly, its copy is opened too.
const FOUND: [(Option<(&str, &str)>, i32); 2] = [(None, 6), (Some(("begun\n", "a")), 7)];

// How many calls on the files a run makes in which none fails, and how many files it opens.
fn counts_of_a_run(rt: &HostRuntime, found: Option<(&str, &str)>) -> io::Result<(usize, i32)> {
    folder_with(rt, found)?;
    let names = names_in(rt.alloc(), FOLDER)?;
    let calls = Calls::new(rt.alloc(), 1);
    let disk = disk_over(Watched { rt, calls: &calls }, names);
    let holds = holds_and_leaves(disk, Leaving::Dropped);
    Ok(counts_of(calls, holds))
}

fn counts_of(calls: RefCell<Calls>, holds: bool) -> (usize, i32) {
    let calls = calls.into_inner();
    if holds {
        (calls.made, calls.number.wrapping_sub(1))
    } else {
        (0, 0)
    }
}

// Whether some of a round of calls fail, and all of a round hold behind so many rounds at most.
fn goes_on<R: Files>(disk: &mut FileDisk<R>, rounds: usize) -> bool
where
    R::File: SiteFile,
{
    if all_hold(disk) {
        return false;
    }
    for _ in 0..rounds {
        if all_hold(disk) {
            return true;
        }
    }
    false
}

// Whether failures are told, and the next calls go on; and whether no other process has the folder then.
fn goes_on_and_closes<R: Files + Drop>(mut disk: FileDisk<R>, failures: usize) -> [bool; 2]
where
    R::File: SiteFile,
{
    let is_told = goes_on(&mut disk, failures);
    let is_alone = !disk.is_in_use();
    disk.close();
    [is_told, is_alone]
}

// The same of a run in which so many calls fail from one on; and whether file 1 has what was written then, and the lock's file the
// mark of the end.
fn ending_behind(
    rt: &HostRuntime,
    found: Option<(&str, &str)>,
    failing: usize,
    failures: usize,
) -> io::Result<[bool; 4]> {
    folder_with(rt, found)?;
    let names = names_in(rt.alloc(), FOLDER)?;
    let calls = Calls::failing(rt.alloc(), failing, failures, 1);
    let disk = disk_over(Watched { rt, calls: &calls }, names);
    let [is_told, is_alone] = goes_on_and_closes(disk, failures);
    let is_written = has(rt, "qm_files_test/one", b"a");
    let is_marked = has(rt, "qm_files_test/lock", b"ended\n");
    Ok([is_told, is_alone, is_written, is_marked])
}

// The first of so many calls from which on one failure, or four, have another end, and how many they are.
fn first_lost(
    rt: &HostRuntime,
    found: Option<(&str, &str)>,
    count: usize,
) -> io::Result<Option<(usize, usize)>> {
    for failing in 1..=count {
        for failures in [1, 4] {
            if ending_behind(rt, found, failing, failures)? != [true; 4] {
                return Ok(Some((failing, failures)));
            }
        }
    }
    Ok(None)
}

// No failure is hidden: each call on the files that fails is told. It isn't the end: behind it the files are asked again, and
// the end is marked once all is on the disk.
#[test]
fn a_failed_call_is_told_and_the_next_ones_go_on(rt: HostRuntime) -> io::Result<()> {
    for (found, files) in FOUND {
        let (count, opened) = counts_of_a_run(&rt, found)?;
        assert_eq!(rt; opened, files);
        assert_eq!(rt; first_lost(&rt, found, count)?, None);
    }
    Ok(())
}

// Whether just the sync of a round of calls fails, then one call for each failure but the first, and none of a round behind
// them.
fn fails_as_often<R: Files + Drop>(mut disk: FileDisk<R>, failures: usize) -> bool
where
    R::File: SiteFile,
{
    let mut fails = each_call_on(&mut disk, 1) == [true, true, true, true, false];
    for _ in 1..failures {
        fails &= disk.size(1).is_err();
    }
    fails &= all_hold(&mut disk);
    disk.close();
    fails
}

// The same of a run in which so many calls fail from one on, and what the run asks for.
fn asked_behind_a_sync(
    rt: &HostRuntime,
    failing: usize,
    failures: usize,
) -> io::Result<(bool, String)> {
    new_folder(rt)?;
    let names = names_in(rt.alloc(), FOLDER)?;
    let calls = Calls::failing(rt.alloc(), failing, failures, 1);
    let disk = disk_over(Watched { rt, calls: &calls }, names);
    let fails = fails_as_often(disk, failures);
    Ok((fails, lines_of(calls)))
}

const BEHIND_A_SYNC: &str =
    "looked marked nothing_renewed opened changed renewed called_anew marked";

// A sync that failed leaves what no disk may hold: the file is copied before anything is asked of it, and a copy that
// can't be made is tried again.
#[test]
fn what_a_failed_sync_left_is_made_durable_first(rt: HostRuntime) -> io::Result<()> {
    let wanted = wanted_by(rt.alloc(), BEHIND_A_SYNC)?;
    let (count, _) = counts_of_a_run(&rt, None)?;
    for failures in 1..=3 {
        let (fails, asked) = asked_behind_a_sync(&rt, count, failures)?;
        assert!(rt; fails, "{failures} failures");
        assert_eq!(rt; asked.as_str(), wanted.as_str(), "{failures} failures");
    }
    Ok(())
}

// Whether one call of each kind on a file holds, and a change of it, before the disk is let go.
fn leaves_changed<R: Files + Drop>(mut disk: FileDisk<R>, file: u8) -> bool
where
    R::File: SiteFile,
    requires { file ≤ 2 }
{
    let holds = each_call_on(&mut disk, file) == ALL;
    let changed = match file {
        1 => disk.write(file, 0, b"b"),
        _ => disk.cut(file, 0),
    };
    disk.close();
    holds && changed.is_ok()
}

// The same of a run, and what it asks for.
fn asked_on(rt: &HostRuntime, file: u8) -> io::Result<(bool, String)>
    requires { file ≤ 2 }
{
    new_folder(rt)?;
    let names = names_in(rt.alloc(), FOLDER)?;
    let calls = Calls::new(rt.alloc(), 3);
    let disk = disk_over(Watched { rt, calls: &calls }, names);
    let holds = leaves_changed(disk, file);
    Ok((holds, lines_of(calls)))
}

// Whether that holds, and these are the last calls. What isn't synced keeps the end from being marked.
fn is_asked_on(rt: &HostRuntime, file: u8, wanted: &str) -> io::Result<bool>
    requires { file ≤ 2 }
{
    let (holds, asked) = asked_on(rt, file)?;
    let is_unmarked = has(rt, "qm_files_test/lock", b"begun\n");
    Ok(holds && is_unmarked && asked.as_str().ends_with(wanted))
}

// The calls of each kind on a file, and its change, as they are written down.
const ON_MASTER: &str = "write qm_files_test/master
size qm_files_test/master
read qm_files_test/master
cut qm_files_test/master
sync qm_files_test/master
cut qm_files_test/master
";

const ON_ONE: &str = "write qm_files_test/one
size qm_files_test/one
read qm_files_test/one
cut qm_files_test/one
sync qm_files_test/one
write qm_files_test/one
";

const ON_TWO: &str = "write qm_files_test/two
size qm_files_test/two
read qm_files_test/two
cut qm_files_test/two
sync qm_files_test/two
cut qm_files_test/two
";

#[test]
fn each_file_is_asked_by_its_own_name_and_has_to_be_synced(rt: HostRuntime) -> io::Result<()> {
    assert!(rt; is_asked_on(&rt, 0, ON_MASTER)?, "file 0");
    assert!(rt; is_asked_on(&rt, 1, ON_ONE)?, "file 1");
    assert!(rt; is_asked_on(&rt, 2, ON_TWO)?, "file 2");
    Ok(())
}

// Whether a disk fails at each call, as one does whose folder is in use.
fn is_shut_out<R: Files + Drop>(mut disk: FileDisk<R>) -> bool
where
    R::File: SiteFile,
{
    let held = each_call_on(&mut disk, 1);
    let is_in_use = disk.is_in_use();
    disk.close();
    held == [false; 5] && is_in_use
}

// Whether a first disk holds a folder, a second one is shut out, the first one goes on, and a third one has the folder behind it.
fn keep_apart<R: Files + Drop>(
    mut first: FileDisk<R>,
    second: FileDisk<R>,
    third: FileDisk<R>,
) -> [bool; 4]
where
    R::File: SiteFile,
{
    let is_held = all_hold(&mut first);
    let is_second_out = is_shut_out(second);
    let goes_on = holds_and_leaves(first, Leaving::Closed);
    [
        is_held,
        is_second_out,
        goes_on,
        holds_and_leaves(third, Leaving::Dropped),
    ]
}

#[test]
fn two_disks_over_one_folder_keep_apart(rt: HostRuntime) -> io::Result<()> {
    new_folder(&rt)?;
    let first = names_in(rt.alloc(), FOLDER)?;
    let second = names_in(rt.alloc(), FOLDER)?;
    let third = names_in(rt.alloc(), FOLDER)?;
    let told = keep_apart(
        disk_over(&rt, first),
        disk_over(&rt, second),
        disk_over(&rt, third),
    );
    assert_eq!(rt; told, [true; 4]);
    Ok(())
}
