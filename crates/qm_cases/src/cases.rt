// Cases that are a script and what it prints.
use crate::courses::go_by_lines;
use crate::either::Either;
use crate::files::Files;
use crate::run::{
    MemoryStation, Outside, Ran, Site, empty_disk, empty_site, outside_of, run, words_of,
};
use crate::walks::lead_on;
use qm_disk::MemoryDisk;
use qm_history::Turn;
use qm_kinds::Moment;
use qm_program::End;
use qm_time::read_time;
use std::alloc::{AllocError, Global};
use std::marker::Sync;
use std::sync::Wait;
use std::thread::Threads;
use std::{fs, io, mem, slice, str};

/// A site on a disk in memory.
pub(crate) type MemorySite = Site<MemoryDisk>;

// What the clock of a case tells that has no moments of its own.
const STANDING: &[u8] = b"1-JAN-2030 10:00:00.00";

// The node of a case that names none.
const NODE: &str = "A";

// The words of the program that serves a script on one thread, and of the one that serves each node by a thread of its own.
const RUN: &str = "\"run\"";

const CLUSTER: &str = "\"cluster\"";

// The words that ask for a new site of these nodes.
fn init_words(alloc: Global, nodes: &str) -> Result<Vec<String>, AllocError> {
    let mut words = words_of(alloc, "\"init\"")?;
    words.push(String::from_str(alloc, nodes)?)?;
    Ok(words)
}

// A new site of nodes, with commas between their names.
fn new_site<R: Threads + Wait + Sync>(
    threads: &R,
    alloc: Global,
    nodes: &str,
) -> Result<MemorySite, AllocError> {
    let words = init_words(alloc, nodes)?;
    let empty = empty_site(alloc)?;
    let outside = outside_of(alloc, Vec::new(alloc), Vec::new(alloc));
    let Ran { site, .. } = run(threads, alloc, &words, outside, empty)?;
    Ok(site)
}

// A case's file with this ending.
fn file_of(rt: &HostRuntime, name: &str, ending: &str) -> io::Result<Vec<u8>> {
    let path = format!(in rt.alloc(); "{name}.{ending}")?;
    fs::read(rt, path.as_str())
}

// The same, where the case has it.
fn found(rt: &HostRuntime, name: &str, ending: &str) -> io::Result<Option<Vec<u8>>> {
    match file_of(rt, name, ending) {
        Ok(text) => Ok(Some(text)),
        Err(error) if error.kind() == io::ErrorKind::NotFound => Ok(None),
        Err(error) => Err(error),
    }
}

// The moment that a line names. A printed one has a blank in front where the day has one digit.
fn moment_of(line: &[u8]) -> io::Result<Moment> {
    let time = line.strip_prefix(b" ").unwrap_or(line);
    match read_time(time, Moment::BASE) {
        Ok(moment) => Ok(moment),
        Err(_) => Err(io::ErrorKind::InvalidData.into()),
    }
}

// The moments that a text names, one a line.
fn moments_in(alloc: Global, text: &[u8]) -> io::Result<Vec<Moment>> {
    let mut moments = Vec::new(alloc);
    for line in text.split(|byte| *byte == b'\n') {
        if !line.is_empty() {
            moments.push(moment_of(line)?)?;
        }
    }
    if moments.is_empty() {
        return Err(io::ErrorKind::InvalidData.into());
    }
    Ok(moments)
}

// The moments that the clock of a case tells.
fn moments_of(rt: &HostRuntime, name: &str) -> io::Result<Vec<Moment>> {
    match found(rt, name, "clock")? {
        Some(text) => moments_in(rt.alloc(), &text),
        None => moments_in(rt.alloc(), STANDING),
    }
}

// What a case may print in place of something else.
fn either_of(rt: &HostRuntime, name: &str) -> io::Result<Either> {
    let mut either = Either::new(rt.alloc());
    if let Some(text) = found(rt, name, "either")? {
        let Ok(groups) = str::from_utf8(&text) else {
            return Err(io::ErrorKind::InvalidData.into());
        };
        either.add_all(groups)?;
    }
    Ok(either)
}

// What a device of the site was handed, node by node.
fn output_of(alloc: Global, site: &MemorySite, device: &str) -> Result<Vec<u8>, AllocError> {
    let mut output = Vec::new(alloc);
    for station in &site.stations {
        push_taken(&mut output, station, device)?;
    }
    Ok(output)
}

// Adds what a device of a node was handed.
fn push_taken(
    output: &mut Vec<u8>,
    station: &MemoryStation,
    device: &str,
) -> Result<(), AllocError> {
    for handed in station.symbiont.device().held() {
        if handed.device.as_str() == device {
            output.extend_from_slice(handed.block.as_slice())?;
        }
    }
    Ok(())
}

// Whether a device of the site was handed what the case says.
fn is_output(rt: &HostRuntime, name: &str, device: &str, site: &MemorySite) -> io::Result<bool> {
    let output = file_of(rt, name, "out")?;
    Ok(output_of(rt.alloc(), site, device)? == output)
}

// Whether this is what a case prints, but for what may stand in place of something else.
fn is_transcript(rt: &HostRuntime, name: &str, printed: &[u8]) -> io::Result<bool> {
    let transcript = file_of(rt, name, "transcript")?;
    let either = either_of(rt, name)?;
    Ok(either.settled(printed)? == either.settled(&transcript)?)
}

// What a run over a site told.
#[derive(Drop)]
struct Told {
    end: End,
    printed: Vec<u8>,
    turns: Vec<Turn>,
}

// Runs the program over a site, which is then what the run left. At want of memory it is empty.
fn run_at<R: Threads + Wait + Sync>(
    threads: &R,
    alloc: Global,
    words: &[String],
    outside: Outside,
    site: &mut MemorySite,
) -> Result<Told, AllocError> {
    let empty = Site {
        disk: empty_disk(alloc),
        stations: Vec::new(alloc),
    };
    let Ran {
        end,
        printed,
        turns,
        site: left,
    } = run(threads, alloc, words, outside, mem::replace(site, empty))?;
    drop(mem::replace(site, left));
    Ok(Told {
        end,
        printed,
        turns,
    })
}

// Serves a script over a site by the program of this word, with the clock of a case.
fn run_script<R: Threads + Wait + Sync>(
    rt: &HostRuntime,
    threads: &R,
    word: &str,
    name: &str,
    script: &[u8],
    site: &mut MemorySite,
) -> io::Result<Told> {
    let alloc = rt.alloc();
    let words = words_of(alloc, word)?;
    let moments = moments_of(rt, name)?;
    let outside = outside_of(alloc, script.to_vec(alloc)?, moments);
    Ok(run_at(threads, alloc, &words, outside, site)?)
}

// Whether a case printed its transcript; and where nodes worked at once, whether their turns are of the lines of each.
fn is_told(
    rt: &HostRuntime,
    word: &str,
    name: &str,
    script: &[u8],
    before: &Files,
    told: &Told,
) -> io::Result<bool> {
    let Told {
        end,
        printed,
        turns,
    } = told;
    let goes = word == RUN || go_by_lines(rt.alloc(), before, script, turns, printed, *end)?;
    Ok(is_transcript(rt, name, printed)? && goes && *end == End::Ok)
}

// Whether turns lead from these files to what a site holds.
fn leads_to(
    alloc: Global,
    before: &Files,
    turns: Vec<Turn>,
    site: &MemorySite,
) -> Result<bool, AllocError> {
    let behind = Files::of(alloc, &site.disk)?;
    lead_on(alloc, before, turns, slice::from_ref(&behind))
}

// Serves a case over a site by the program of this word, and tells whether it printed its transcript, and its turns lead to what it
// left; and where nodes work at once, whether they are of the lines of each.
fn prints<R: Threads + Wait + Sync>(
    rt: &HostRuntime,
    threads: &R,
    word: &str,
    name: &str,
    site: &mut MemorySite,
) -> io::Result<bool> {
    let script = file_of(rt, name, "qman")?;
    let before = Files::of(rt.alloc(), &site.disk)?;
    let told = run_script(rt, threads, word, name, &script, site)?;
    let is_told = is_told(rt, word, name, &script, &before, &told);
    let leads = leads_to(rt.alloc(), &before, told.turns, site);
    Ok(is_told? && leads?)
}

// Whether `show` lists a site as the case says, where it says it.
fn lists<R: Threads + Wait + Sync>(
    rt: &HostRuntime,
    threads: &R,
    name: &str,
    site: &mut MemorySite,
) -> io::Result<bool> {
    let Some(listing) = found(rt, name, "listing")? else {
        return Ok(true);
    };
    let alloc = rt.alloc();
    let outside = outside_of(alloc, Vec::new(alloc), Vec::new(alloc));
    let words = words_of(alloc, "\"show\"")?;
    let Told { end, printed, .. } = run_at(threads, alloc, &words, outside, site)?;
    Ok(end == End::Ok && printed == listing)
}

// Serves the case of this name by the program of this word, and lists the site behind it.
fn serves<R: Threads + Wait + Sync>(
    rt: &HostRuntime,
    threads: &R,
    word: &str,
    name: &str,
    site: &mut MemorySite,
) -> io::Result<bool> {
    let prints = prints(rt, threads, word, name, site)?;
    let lists = lists(rt, threads, name, site)?;
    Ok(prints && lists)
}

// The word of the program that serves a case, and the case without its mark.
fn word_and_case(case: &str) -> (&str, &str) {
    match case.strip_prefix("&") {
        Some(case) => (CLUSTER, case),
        None => (RUN, case),
    }
}

// Serves the case that is named so, and looks at a device where one is named behind it.
fn passes<R: Threads + Wait + Sync>(
    rt: &HostRuntime,
    threads: &R,
    case: &str,
    site: &mut MemorySite,
) -> io::Result<bool> {
    let (word, case) = word_and_case(case);
    match case.split_once("=") {
        None => serves(rt, threads, word, case, site),
        Some((name, device)) => {
            let serves = serves(rt, threads, word, name, site)?;
            Ok(serves && is_output(rt, name, device, site)?)
        }
    }
}

/// Serves the case that a word names: over a new site of the nodes in front of a `:`, or of the node A; or behind a `+` over the
/// site that the case before it left. The site is then what this case left.
pub(crate) fn serve_case<R: Threads + Wait + Sync>(
    rt: &HostRuntime,
    threads: &R,
    word: &str,
    site: &mut MemorySite,
) -> io::Result<bool> {
    if let Some(case) = word.strip_prefix("+") {
        return passes(rt, threads, case, site);
    }
    let (nodes, case) = word.split_once(":").unwrap_or((NODE, word));
    drop(mem::replace(site, new_site(threads, rt.alloc(), nodes)?));
    passes(rt, threads, case, site)
}
