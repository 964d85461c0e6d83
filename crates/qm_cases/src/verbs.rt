// The verbs of plans.
//
// Files: `name` gives a name to bytes, `lengthen N NAME` puts N letters behind them. `site` makes the files of a new site: the master
// of the record FOUND, queue file 1 of HEAD, FORM and QUEUE, and queue file 2 a byte that no run changes. `of N` chooses the file
// that the next verbs speak of, the master with 0, and with 1, as `site` does, queue file 1: `records` makes it of the records of
// these names, `more N` adds records to it N times, and `epochs N` the epochs 1 to N; `file` says its bytes, `behind` adds some, `cut`
// leaves so many; `holds` tells whether it is the file of these records. `crash` is what a crash of that kind left of all within the run
// that was stopped last; `unchanged` tells whether the last run left all as they were.
//
// What is asked: `script` says its bytes, `text` adds some, `line`, `lines N`, `numbered N` (with a number for `#`) and `letters N`
// too; `each N NODES NAME` adds for each of the nodes, which have commas between their names, N times the bytes of the name, in which
// the node's stands for each `@`; `look` is the script of those runs that look; `clock` says the moments that are told. `reads`,
// `writes`, `calls` and `devices` are the numbers of the calls that fail.
//
// Runs: `run` and `stop` run the program with the words in quotes, and tell what it prints (with `last N` before it the last N
// lines) and its end, if that isn't a good one; `over-files` does so over real files, in a new `folder`. Of lines that one `either`
// names, with ` or ` between them and `nothing` for none, whichever was printed is told as the first one; an `either` without lines
// forgets them all. Of nodes at once the last line is told with its names in order; and that turns aren't those of the lines, where
// they aren't.
//
// Behind `stop`, `looks` tells what is found after a crash of each kind and without one. `once` runs the program over the same files
// for each of its calls on the disk, which fails, and at last with none that does; `from-there-on` has all calls fail from that one
// on; both tell of each run, and what `looks` finds behind it, where that isn't what was told before. Of nodes at once they tell not
// what was printed, but in how many turns the disk failed. `cuts` and `raises` tell what is found of the file when it is cut at each
// place, or has the byte there raised, and only where something else is found than at the place before. `handed` tells what the
// devices took in the last run, `other-ends` a good end, and those of a run without memory and of one that keeps no more turns.
use crate::desk::{Desk, Failures, push_end};
use crate::files::Spoil;
use crate::real::{new_folder, run_over_files};
use crate::records::push_epochs;
use crate::run::words_of;
use qm_kinds::Moment;
use qm_plans::{is_told, number_and_rest, numbers, push_bytes, push_line, push_times, push_wanted};
use qm_program::End;
use std::alloc::{AllocError, Global};
use std::marker::Sync;
use std::sync::Wait;
use std::thread::Threads;
use std::{io, mem};

// The moments that a text names, in hundredths of a second from the base of the system time.
fn moments(alloc: Global, text: &str) -> Result<Vec<Moment>, AllocError> {
    let mut moments = Vec::new(alloc);
    for number in numbers(alloc, text)? {
        moments.push(Moment::new(number).unwrap_or(Moment::BASE))?;
    }
    Ok(moments)
}

// Adds to a script so many times a line, which has the number of its turn, from 0, in place of a `#`.
fn push_numbered(alloc: Global, script: &mut Vec<u8>, text: &str) -> Result<(), AllocError> {
    let (times, line) = number_and_rest(text);
    let (front, behind) = line.split_once("#").unwrap_or((line, ""));
    for number in 0..times {
        let line = format!(in alloc; "{front}{number}{behind}\n")?;
        script.extend_from_slice(line.as_bytes())?;
    }
    Ok(())
}

// Adds to a script so many times a line.
fn push_lines(alloc: Global, script: &mut Vec<u8>, text: &str) -> Result<(), AllocError> {
    let (times, line) = number_and_rest(text);
    let line = format!(in alloc; "{line}\n")?;
    push_times(script, times, line.as_bytes())
}

// Adds to a script, for each of these nodes, so many times the bytes of these names, in which the node's name stands for each `@`.
fn push_each(desk: &mut Desk, text: &str) -> Result<(), AllocError> {
    let (times, rest) = number_and_rest(text);
    let (nodes, names) = rest.split_once(" ").unwrap_or((rest, ""));
    for node in nodes.split(",") {
        let lines = desk.names.of_node(names, node)?;
        push_times(&mut desk.script, times, &lines)?;
    }
    Ok(())
}

// Says what may be printed in place of something else: a group of lines, or nothing.
fn say_either(desk: &mut Desk, group: &str) -> Result<(), AllocError> {
    if group.is_empty() {
        desk.either.clear();
        return Ok(());
    }
    desk.either.add(group)
}

// The files of a new site.
fn make_site(desk: &mut Desk) -> Result<(), AllocError> {
    *desk.files.get_mut(0) = desk.names.log("FOUND")?;
    *desk.files.get_mut(1) = desk.names.log("HEAD FORM QUEUE")?;
    *desk.files.get_mut(2) = vec![in desk.alloc; 7]?;
    desk.chosen = 1;
    Ok(())
}

// Tells whether something is so.
fn push_answer(told: &mut Vec<u8>, is: bool) -> Result<(), AllocError> {
    push_line(told, if is { "yes" } else { "no" })
}

// What says of a file what it holds.
fn act_on_file(desk: &mut Desk, verb: &str, text: &str) -> Result<bool, AllocError> {
    let file = desk.files.get_mut(desk.chosen);
    match verb {
        "records" => *file = desk.names.log(text)?,
        "more" => desk.names.go_on(file, text)?,
        "epochs" => push_epochs(file, number_and_rest(text).0)?,
        "file" => {
            file.clear();
            push_bytes(file, text)?;
        }
        "behind" => push_bytes(file, text)?,
        "cut" => file.truncate(number_and_rest(text).0),
        _ => return Ok(false),
    }
    Ok(true)
}

// What says of the files what they hold, or asks.
fn act_on_files(
    desk: &mut Desk,
    told: &mut Vec<u8>,
    verb: &str,
    text: &str,
) -> Result<bool, AllocError> {
    match verb {
        "name" => desk.names.define(text)?,
        "lengthen" => desk.names.lengthen(text)?,
        "site" => make_site(desk)?,
        "of" => desk.chosen = number_and_rest(text).0,
        "crash" => desk.crash(number_and_rest(text).0)?,
        "holds" => {
            let log = desk.names.log(text)?;
            push_answer(told, desk.files.get(desk.chosen) == log.as_slice())?;
        }
        "unchanged" => push_answer(told, desk.before.are(&desk.files))?,
        _ => return Ok(false),
    }
    Ok(true)
}

// What says what is asked, when, and what fails.
fn act_on_outside(desk: &mut Desk, verb: &str, text: &str) -> Result<bool, AllocError> {
    let alloc = desk.alloc;
    match verb {
        "script" => {
            desk.script.clear();
            push_bytes(&mut desk.script, text)?;
        }
        "line" => push_line(&mut desk.script, text)?,
        "lines" => push_lines(alloc, &mut desk.script, text)?,
        "numbered" => push_numbered(alloc, &mut desk.script, text)?,
        "each" => push_each(desk, text)?,
        "letters" => push_times(&mut desk.script, number_and_rest(text).0, b"a")?,
        "text" => push_bytes(&mut desk.script, text)?,
        "look" => {
            desk.look.clear();
            push_bytes(&mut desk.look, text)?;
        }
        "reads" | "writes" | "calls" | "devices" => {
            *desk.failing.of(verb) = numbers(alloc, text)?;
        }
        "either" => say_either(desk, text)?,
        "clock" => desk.moments = moments(alloc, text)?,
        "last" => desk.last = number_and_rest(text).0,
        _ => return Ok(false),
    }
    Ok(true)
}

// What makes a run with these words, or more.
fn run_with<R: Threads + Wait + Sync>(
    rt: &HostRuntime,
    threads: &R,
    desk: &mut Desk,
    told: &mut Vec<u8>,
    verb: &str,
    words: &[String],
) -> io::Result<()> {
    match verb {
        "run" => drop(desk.run(threads, told, words)?),
        "stop" => {
            let stopped = desk.run(threads, told, words)?;
            drop(mem::replace(&mut desk.stopped, stopped));
        }
        "once" => desk.run_failing(threads, told, words, Failures::Once)?,
        "from-there-on" => desk.run_failing(threads, told, words, Failures::FromThereOn)?,
        _ => run_over_files(rt, threads, desk, told, words)?,
    }
    Ok(())
}

// What tells something, or makes the folder anew.
fn tell_by<R: Threads + Wait + Sync>(
    rt: &HostRuntime,
    threads: &R,
    desk: &mut Desk,
    told: &mut Vec<u8>,
    verb: &str,
    text: &str,
) -> io::Result<()> {
    match verb {
        "looks" => desk.look_behind(threads, told, &desk.stopped)?,
        "cuts" | "raises" => {
            let (first, last) = number_and_rest(text);
            let spoil = if verb == "cuts" {
                Spoil::Cut
            } else {
                Spoil::Raised
            };
            desk.look_at_spoiled(threads, told, spoil, first, number_and_rest(last).0)?;
        }
        "handed" => {
            told.extend_from_slice(&desk.handed)?;
            told.push(b'\n')?;
        }
        "other-ends" => {
            push_end(desk.alloc, told, End::Ok)?;
            push_end(desk.alloc, told, End::NoMemory)?;
            push_end(desk.alloc, told, End::HistoryFull)?;
        }
        "folder" => new_folder(rt)?,
        "" | "#" => {}
        _ => push_line(told, "no such verb")?,
    }
    Ok(())
}

// What makes a run, or more, or tells something.
fn run_by<R: Threads + Wait + Sync>(
    rt: &HostRuntime,
    threads: &R,
    desk: &mut Desk,
    told: &mut Vec<u8>,
    verb: &str,
    text: &str,
) -> io::Result<()> {
    match verb {
        "run" | "stop" | "once" | "from-there-on" | "over-files" => {
            let words = words_of(desk.alloc, text)?;
            run_with(rt, threads, desk, told, verb, &words)
        }
        _ => tell_by(rt, threads, desk, told, verb, text),
    }
}

// Does what a verb of a plan says, and adds what it tells.
fn act<R: Threads + Wait + Sync>(
    rt: &HostRuntime,
    threads: &R,
    desk: &mut Desk,
    told: &mut Vec<u8>,
    verb: &str,
    text: &str,
) -> io::Result<()> {
    if act_on_file(desk, verb, text)?
        || act_on_files(desk, told, verb, text)?
        || act_on_outside(desk, verb, text)?
    {
        return Ok(());
    }
    run_by(rt, threads, desk, told, verb, text)
}

/// Follows a plan, and tells whether each of its verbs told what the plan says, as `qm_plans` does it with a desk. The verbs here
/// start threads.
pub(crate) fn holds<R: Threads + Wait + Sync>(
    rt: &HostRuntime,
    threads: &R,
    desk: &mut Desk,
    plan: &str,
) -> io::Result<bool> {
    let mut holds = true;
    let mut lines = 0usize;
    let mut told = Vec::new(rt.alloc());
    let mut wanted = Vec::new(rt.alloc());
    for line in plan.lines() {
        lines = lines.saturating_add(1);
        if let Some(text) = line.strip_prefix("|") {
            push_wanted(&mut wanted, text)?;
        } else {
            holds = is_told(rt, &mut told, &mut wanted, lines)? && holds;
            let (verb, text) = line.split_once(" ").unwrap_or((line, ""));
            act(rt, threads, desk, &mut told, verb, text)?;
        }
    }
    Ok(is_told(rt, &mut told, &mut wanted, lines)? && holds)
}
