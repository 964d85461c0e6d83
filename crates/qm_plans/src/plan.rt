// Plans that are followed.
use crate::texts::push_bytes;
use std::alloc::AllocError;
use std::process::ExitCode;
use std::{env, fs, io};

/// What a plan has in work.
pub trait Desk {
    /// Does what a verb says, and adds what it tells to `told`.
    fn act(
        &mut self,
        rt: &HostRuntime,
        told: &mut Vec<u8>,
        verb: &str,
        text: &str,
    ) -> io::Result<()>;
}

/// Adds what a line behind a `|` says is told: the text behind the blank, as often as the number in front of it says.
pub fn push_wanted(wanted: &mut Vec<u8>, line: &str) -> Result<(), AllocError> {
    let (times, text) = line.split_once(" ").unwrap_or((line, ""));
    for _ in 0..times.parse::<usize>().unwrap_or(1) {
        push_bytes(wanted, text)?;
        wanted.push(b'\n')?;
    }
    Ok(())
}

/// Whether what was told is what is wanted. Where it isn't, it is printed with the number of the line behind it. Both are cleared.
pub fn is_told(
    rt: &HostRuntime,
    told: &mut Vec<u8>,
    wanted: &mut Vec<u8>,
    line: usize,
) -> io::Result<bool> {
    let holds = told.as_slice() == wanted.as_slice();
    if !holds {
        println!(rt; "before line {line} was told: {told:?}")?;
    }
    told.clear();
    wanted.clear();
    Ok(holds)
}

/// Follows a plan, and tells whether each of its verbs told what the plan says. (A desk whose verbs start threads follows it by a loop of
/// its own, since no method of a trait can hand what it knows of a handle to them.)
pub fn holds<D: Desk>(rt: &HostRuntime, desk: &mut D, plan: &str) -> io::Result<bool> {
    let mut holds = true;
    let mut lines = 0usize;
    let mut told = Vec::new(rt.alloc());
    let mut wanted = Vec::new(rt.alloc());
    for line in plan.lines() {
        lines = lines.saturating_add(1);
        if let Some(text) = line.strip_prefix("|") {
            push_wanted(&mut wanted, text)?;
        } else {
            holds = is_told(rt, &mut told, &mut wanted, lines)? && holds;
            let (verb, text) = line.split_once(" ").unwrap_or((line, ""));
            desk.act(rt, &mut told, verb, text)?;
        }
    }
    Ok(is_told(rt, &mut told, &mut wanted, lines)? && holds)
}

// Whether the plan of this name holds, which is in a file of the folder.
fn file_holds<D: Desk>(rt: &HostRuntime, desk: &mut D, name: &str) -> io::Result<bool> {
    let path = format!(in rt.alloc(); "{name}.plan")?;
    let plan = fs::read_to_string(rt, path.as_str())?;
    holds(rt, desk, plan.as_str())
}

/// Follows the plans that the words of the program name, and prints the names of those that don't hold, and how many these are: what a
/// program does that follows plans and nothing else. It ends well where each plan holds.
pub fn follow<D: Desk>(rt: &HostRuntime, desk: &mut D) -> io::Result<ExitCode> {
    let mut failed = 0usize;
    for name in env::args(rt)?.skip(1) {
        if !file_holds(rt, desk, name.as_str())? {
            failed = failed.saturating_add(1);
            println!(rt; "{name}: failed")?;
        }
    }
    println!(rt; "{failed} plans failed")?;
    Ok(if failed == 0 {
        ExitCode::SUCCESS
    } else {
        ExitCode::FAILURE
    })
}
