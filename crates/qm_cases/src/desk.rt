// What a plan has in work: files, scripts, what fails, and what the last runs told and left.
use crate::courses::go_by_lines;
use crate::either::Either;
use crate::files::{Files, Spoil};
use crate::records::Names;
use crate::run::{Outside, Ran, Site, empty_disk, new_stations, run, words_of};
use crate::walks::lead_on;
use qm_disk::{Disk, MemoryDisk, MemorySink, MemorySource};
use qm_history::Turn;
use qm_kinds::Moment;
use qm_plans::push_line;
use qm_program::End;
use std::alloc::{AllocError, Global};
use std::marker::{Send, Sync};
use std::mem;
use std::sync::Wait;
use std::thread::Threads;

// The words that ask for a run.
const RUN: &str = "\"run\"";

// No run of a plan makes so many calls on its disk that has them fail one by one.
const CALLS: u64 = 512;

/// The numbers of the calls that fail, counted from 1: reads of the script, writes of the transcript, calls on the disk, and
/// blocks that a node hands over.
#[derive(Drop)]
pub(crate) struct Failing {
    pub(crate) reads: Vec<u64>,
    pub(crate) writes: Vec<u64>,
    pub(crate) calls: Vec<u64>,
    pub(crate) devices: Vec<u64>,
}

impl Failing {
    /// The numbers that a verb of this name says.
    pub(crate) fn of(&mut self, verb: &str) -> &mut Vec<u64> {
        match verb {
            "reads" => &mut self.reads,
            "writes" => &mut self.writes,
            "calls" => &mut self.calls,
            _ => &mut self.devices,
        }
    }
}

/// Which files behind a run its turns are to lead to: those that are read, or also those that each kind of crash leaves.
#[derive(Clone, Copy, PartialEq, Eq)]
enum Behind {
    Read,
    Crashed,
}

/// What a run is asked, how many lines are told of what it prints, from the last one on, and which files are looked at behind it.
#[derive(Clone, Copy)]
pub(crate) struct Asked<'w, 's> {
    words: &'w [String],
    script: &'s [u8],
    last: usize,
    behind: Behind,
}

impl<'w, 's> Asked<'w, 's> {
    /// All lines are told.
    pub(crate) fn all(words: &'w [String], script: &'s [u8]) -> Asked<'w, 's> {
        Asked {
            words,
            script,
            last: usize::MAX,
            behind: Behind::Read,
        }
    }

    // Whether the nodes work at once.
    fn is_at_once(&self) -> bool {
        is_first(self.words, "cluster")
    }

    // Whether a script is served.
    fn serves(&self) -> bool {
        self.is_at_once() || is_first(self.words, "run")
    }
}

/// Which calls on a disk fail: one alone, or each one from that on.
#[derive(Clone, Copy)]
pub(crate) enum Failures {
    Once,
    FromThereOn,
}

// What was told of the run before, and what was found behind it.
#[derive(Drop)]
struct Before {
    told: Vec<u8>,
    found: Vec<u8>,
}

/// What a plan has in work.
#[derive(Drop)]
pub(crate) struct Desk {
    pub(crate) alloc: Global,
    pub(crate) names: Names,
    /// What the files hold when the next run begins, and what they held as the last one did.
    pub(crate) files: Files,
    pub(crate) before: Files,
    /// The file that is spoken of.
    pub(crate) chosen: usize,
    /// The disk as the last run handed it back that was stopped.
    pub(crate) stopped: MemoryDisk,
    pub(crate) script: Vec<u8>,
    /// What is asked to see what a run left.
    pub(crate) look: Vec<u8>,
    pub(crate) failing: Failing,
    pub(crate) moments: Vec<Moment>,
    /// How many lines are told of what is printed, from the last one on.
    pub(crate) last: usize,
    /// What may be printed in place of something else.
    pub(crate) either: Either,
    /// What the devices took in the last run, node by node.
    pub(crate) handed: Vec<u8>,
}

impl Desk {
    /// An empty desk.
    pub(crate) fn new(alloc: Global) -> Desk {
        Desk {
            alloc,
            names: Names::new(alloc),
            files: Files::new(alloc),
            before: Files::new(alloc),
            chosen: 1,
            stopped: empty_disk(alloc),
            script: Vec::new(alloc),
            look: Vec::new(alloc),
            failing: Failing {
                reads: Vec::new(alloc),
                writes: Vec::new(alloc),
                calls: Vec::new(alloc),
                devices: Vec::new(alloc),
            },
            moments: Vec::new(alloc),
            last: usize::MAX,
            either: Either::new(alloc),
            handed: Vec::new(alloc),
        }
    }

    /// What a run reads that is asked this, prints on, and is told the moments by.
    pub(crate) fn outside(&self, script: &[u8]) -> Result<Outside, AllocError> {
        let alloc = self.alloc;
        Ok(Outside {
            source: MemorySource::new(script.to_vec(alloc)?, self.failing.reads.to_vec(alloc)?),
            sink: MemorySink::new(alloc, self.failing.writes.to_vec(alloc)?),
            moments: self.moments.to_vec(alloc)?,
        })
    }

    /// A disk, with devices that took nothing.
    pub(crate) fn site<D: Disk + Drop + Send>(&self, disk: D) -> Result<Site<D>, AllocError> {
        Ok(Site {
            disk,
            stations: new_stations(self.alloc, &self.failing.devices)?,
        })
    }

    // The files of a disk, as they read, and maybe as each kind of crash leaves them.
    fn left(&self, disk: &MemoryDisk, behind: Behind) -> Result<Vec<Files>, AllocError> {
        let mut left = Vec::new(self.alloc);
        left.push(Files::of(self.alloc, disk)?)?;
        if behind == Behind::Crashed {
            for pick in 0..3u8 {
                left.push(Files::of(self.alloc, &disk.after_crash(pick)?)?)?;
            }
        }
        Ok(left)
    }

    // Runs the program over files, where these calls of the disk fail, and tells of the run.
    fn run_over<R: Threads + Wait + Sync>(
        &self,
        threads: &R,
        told: &mut Vec<u8>,
        asked: &Asked<'_, '_>,
        files: &Files,
        failing: &[u64],
    ) -> Result<Ran<MemoryDisk>, AllocError> {
        let outside = self.outside(asked.script)?;
        let site = self.site(files.disk(self.alloc, failing)?)?;
        let mut ran = run(threads, self.alloc, asked.words, outside, site)?;
        match self.tell_of(told, asked, files, &mut ran) {
            Ok(()) => Ok(ran),
            Err(AllocError) => {
                drop(ran);
                Err(AllocError)
            }
        }
    }

    // Tells of a run over files, and takes its turns, which are walked along.
    fn tell_of(
        &self,
        told: &mut Vec<u8>,
        asked: &Asked<'_, '_>,
        files: &Files,
        ran: &mut Ran<MemoryDisk>,
    ) -> Result<(), AllocError> {
        self.push_told(told, asked, files, ran)?;
        let behind = self.left(&ran.site.disk, asked.behind)?;
        let turns = mem::replace(&mut ran.turns, Vec::new(self.alloc));
        push_walk(self.alloc, told, asked, files, turns, &behind)
    }

    /// Tells the last lines that a run over files printed, but for what may stand in place of something else, and how it ended where it
    /// didn't end well; and where nodes that work at once didn't go by their lines.
    pub(crate) fn push_told<D: Disk + Drop>(
        &self,
        told: &mut Vec<u8>,
        asked: &Asked<'_, '_>,
        files: &Files,
        ran: &Ran<D>,
    ) -> Result<(), AllocError> {
        let printed = self.either.settled(&ran.printed)?;
        told.extend_from_slice(last_lines(&printed, asked.last))?;
        if ran.end != End::Ok {
            push_end(self.alloc, told, ran.end)?;
        }
        if !asked.is_at_once() || self.go_by_lines(asked, files, ran)? {
            return Ok(());
        }
        push_line(told, "the turns aren't those of the lines")
    }

    // Whether nodes that worked at once over files went by their lines.
    fn go_by_lines<D: Disk + Drop>(
        &self,
        asked: &Asked<'_, '_>,
        files: &Files,
        ran: &Ran<D>,
    ) -> Result<bool, AllocError> {
        go_by_lines(
            self.alloc,
            files,
            asked.script,
            &ran.turns,
            &ran.printed,
            ran.end,
        )
    }

    // Keeps what the devices took.
    fn keep_handed(&mut self, site: &Site<MemoryDisk>) -> Result<(), AllocError> {
        self.handed.clear();
        for station in &site.stations {
            for taken in station.symbiont.device().held() {
                self.handed.extend_from_slice(taken.block.as_slice())?;
            }
        }
        Ok(())
    }

    // Runs the program over the files, and tells of the run.
    fn run_once<R: Threads + Wait + Sync>(
        &self,
        threads: &R,
        told: &mut Vec<u8>,
        words: &[String],
    ) -> Result<Ran<MemoryDisk>, AllocError> {
        let mut asked = Asked::all(words, &self.script);
        asked.last = self.last;
        self.run_over(threads, told, &asked, &self.files, &self.failing.calls)
    }

    /// Runs the program over the files, tells of the run, and keeps the files that it left. Gives its disk.
    pub(crate) fn run<R: Threads + Wait + Sync>(
        &mut self,
        threads: &R,
        told: &mut Vec<u8>,
        words: &[String],
    ) -> Result<MemoryDisk, AllocError> {
        let ran = self.run_once(threads, told, words)?;
        self.last = usize::MAX;
        let kept = self.keep_left(told, &ran.site);
        let disk = disk_of(ran);
        match kept {
            Ok(()) => Ok(disk),
            Err(AllocError) => {
                drop(disk);
                Err(AllocError)
            }
        }
    }

    // Keeps what a run left: what the devices took, and the files.
    fn keep_left(&mut self, told: &mut Vec<u8>, site: &Site<MemoryDisk>) -> Result<(), AllocError> {
        self.keep_handed(site)?;
        let left = Files::of(self.alloc, &site.disk)?;
        drop(mem::replace(&mut self.before, mem::replace(&mut self.files, left)));
        if self.before.get(2) != self.files.get(2) {
            told.extend_from_slice(b"queue file 2 changed\n")?;
        }
        Ok(())
    }

    // Runs the program over the files, where these calls of the disk fail, and tells of the run: of nodes at once how many of their
    // turns met a failing disk, since threads decide which.
    fn run_failing_at<R: Threads + Wait + Sync>(
        &self,
        threads: &R,
        told: &mut Vec<u8>,
        words: &[String],
        failing: &[u64],
    ) -> Result<Ran<MemoryDisk>, AllocError> {
        let mut asked = Asked::all(words, &self.script);
        if asked.is_at_once() {
            asked.last = 0;
            asked.behind = Behind::Crashed;
        }
        let ran = self.run_over(threads, told, &asked, &self.files, failing)?;
        let counted = self.push_failed(told, &asked, &ran.printed);
        match counted {
            Ok(()) => Ok(ran),
            Err(AllocError) => {
                drop(ran);
                Err(AllocError)
            }
        }
    }

    // Tells in how many turns of nodes at once the disk failed.
    fn push_failed(
        &self,
        told: &mut Vec<u8>,
        asked: &Asked<'_, '_>,
        printed: &[u8],
    ) -> Result<(), AllocError> {
        if !asked.is_at_once() {
            return Ok(());
        }
        let line = format!(in self.alloc; "failed turns: {}", count_failed(printed))?;
        push_line(told, line.as_str())
    }

    // The same, and what is found behind the run. Gives its end.
    fn run_and_look<R: Threads + Wait + Sync>(
        &self,
        threads: &R,
        told: &mut Vec<u8>,
        found: &mut Vec<u8>,
        words: &[String],
        failing: &[u64],
    ) -> Result<End, AllocError> {
        let ran = self.run_failing_at(threads, told, words, failing)?;
        let looked = self.look_behind(threads, found, &ran.site.disk);
        let end = ran.end;
        drop(ran);
        looked?;
        Ok(end)
    }

    // Runs the program once with failures from this call on, and tells of it where that is news. Whether the run ended well.
    fn run_with_failures<R: Threads + Wait + Sync>(
        &self,
        threads: &R,
        told: &mut Vec<u8>,
        words: &[String],
        failing: &[u64],
        before: &mut Before,
    ) -> Result<bool, AllocError> {
        let mut now = Vec::new(self.alloc);
        let mut found = Vec::new(self.alloc);
        let end = self.run_and_look(threads, &mut now, &mut found, words, failing)?;
        if now != before.told || found != before.found {
            push_line(told, "--")?;
        }
        push_news(told, &mut before.told, now)?;
        push_news(told, &mut before.found, found)?;
        Ok(end == End::Ok)
    }

    /// Runs the program over the files once for each of its calls on the disk, which fails, or from which on each one does, and
    /// at last once where none fails. Tells of each run, and then of what is found behind it, where that isn't what was told
    /// before; the files stay as they are.
    pub(crate) fn run_failing<R: Threads + Wait + Sync>(
        &self,
        threads: &R,
        told: &mut Vec<u8>,
        words: &[String],
        failures: Failures,
    ) -> Result<(), AllocError> {
        let mut before = Before {
            told: vec![in self.alloc; b'?']?,
            found: vec![in self.alloc; b'?']?,
        };
        for number in 1..CALLS {
            let failing = numbers_from(self.alloc, number, failures)?;
            if self.run_with_failures(threads, told, words, &failing, &mut before)? {
                return Ok(());
            }
        }
        push_line(told, "no end")
    }

    /// The files as a crash of this kind leaves them within the run that was stopped last.
    pub(crate) fn crash(&mut self, kind: usize) -> Result<(), AllocError> {
        let pick = match kind {
            1 => 1,
            2 => 2,
            _ => 0,
        };
        let left = Files::of(self.alloc, &self.stopped.after_crash(pick)?)?;
        drop(mem::replace(&mut self.files, left));
        Ok(())
    }

    // Asks what is there over files, and tells it behind a head, unless that is what was told before.
    fn look_over<R: Threads + Wait + Sync>(
        &self,
        threads: &R,
        told: &mut Vec<u8>,
        head: &str,
        files: &Files,
        before: &mut Vec<u8>,
    ) -> Result<(), AllocError> {
        let words = words_of(self.alloc, RUN)?;
        let mut found = Vec::new(self.alloc);
        let asked = Asked::all(&words, &self.look);
        drop(self.run_over(threads, &mut found, &asked, files, &[])?);
        if found.as_slice() != before.as_slice() {
            told.extend_from_slice(head.as_bytes())?;
        }
        push_news(told, before, found)
    }

    // Asks what is there on a disk that a crash of this kind left.
    fn look_behind_crash<R: Threads + Wait + Sync>(
        &self,
        threads: &R,
        told: &mut Vec<u8>,
        disk: &MemoryDisk,
        pick: u8,
        before: &mut Vec<u8>,
    ) -> Result<(), AllocError> {
        let left = Files::of(self.alloc, disk)?;
        let head = format!(in self.alloc; "crash {pick}:\n")?;
        self.look_over(threads, told, head.as_str(), &left, before)
    }

    /// Asks what is there behind a crash of each kind of this disk, and without a crash.
    pub(crate) fn look_behind<R: Threads + Wait + Sync>(
        &self,
        threads: &R,
        told: &mut Vec<u8>,
        disk: &MemoryDisk,
    ) -> Result<(), AllocError> {
        let mut before = vec![in self.alloc; b'?']?;
        for pick in 0..3u8 {
            let crashed = disk.after_crash(pick)?;
            self.look_behind_crash(threads, told, &crashed, pick, &mut before)?;
        }
        let left = Files::of(self.alloc, disk)?;
        self.look_over(threads, told, "no crash:\n", &left, &mut before)
    }

    /// Asks what is there over the files, the chosen one spoiled at each of these places.
    pub(crate) fn look_at_spoiled<R: Threads + Wait + Sync>(
        &self,
        threads: &R,
        told: &mut Vec<u8>,
        spoil: Spoil,
        first: usize,
        last: usize,
    ) -> Result<(), AllocError> {
        let mut before = vec![in self.alloc; b'?']?;
        for place in first..=last {
            let files = self.files.spoiled(self.alloc, self.chosen, spoil, place)?;
            let head = format!(in self.alloc; "{place}:\n")?;
            self.look_over(threads, told, head.as_str(), &files, &mut before)?;
        }
        Ok(())
    }
}

// The disk that a run left.
fn disk_of(ran: Ran<MemoryDisk>) -> MemoryDisk {
    let Ran { site, .. } = ran;
    let Site { disk, .. } = site;
    disk
}

// The numbers of the calls that fail, from one on.
fn numbers_from(alloc: Global, number: u64, failures: Failures) -> Result<Vec<u64>, AllocError> {
    let last = match failures {
        Failures::Once => number,
        Failures::FromThereOn => CALLS,
    };
    let mut numbers = Vec::new(alloc);
    for failing in number..=last {
        numbers.push(failing)?;
    }
    Ok(numbers)
}

// Tells something, unless that is what was told before, and keeps it.
fn push_news(told: &mut Vec<u8>, before: &mut Vec<u8>, now: Vec<u8>) -> Result<(), AllocError> {
    if now.as_slice() != before.as_slice() {
        told.extend_from_slice(&now)?;
        *before = now;
    }
    Ok(())
}

// The last lines of a text.
fn last_lines(text: &[u8], last: usize) -> &[u8] {
    let lines = text.iter().filter(|byte| **byte == b'\n').count();
    let mut left_out = lines.saturating_sub(last);
    for (place, byte) in text.iter().enumerate() {
        if left_out == 0 {
            return text.get(place..).unwrap_or(&[]);
        }
        if *byte == b'\n' {
            left_out = left_out.saturating_sub(1);
        }
    }
    &[]
}

// How many lines of a text tell of a disk that failed.
fn count_failed(text: &[u8]) -> usize {
    let lines = text.split(|byte| *byte == b'\n');
    lines
        .filter(|line| line.ends_with(b"%QMAN-F-JOURNAL"))
        .count()
}

// Whether this is the first of words.
fn is_first(words: &[String], word: &str) -> bool {
    words.first().is_some_and(|first| first.as_str() == word)
}

/// Tells where turns of a run don't lead from the files that it found to each of those that may be there behind it.
pub(crate) fn push_walk(
    alloc: Global,
    told: &mut Vec<u8>,
    asked: &Asked<'_, '_>,
    before: &Files,
    turns: Vec<Turn>,
    behind: &[Files],
) -> Result<(), AllocError> {
    if asked.serves() && !lead_on(alloc, before, turns, behind)? {
        push_line(told, "the turns lead elsewhere")?;
    }
    Ok(())
}

/// Tells an end and its status.
pub(crate) fn push_end(alloc: Global, told: &mut Vec<u8>, end: End) -> Result<(), AllocError> {
    let line = format!(in alloc; "end: {end}, status {}", end.status())?;
    push_line(told, line.as_str())
}
