// The lines of nodes, and what is to come of them: the turns of each, and what is printed. The recorder answers a fetch by runs, of
// which nothing is printed, and any other call by a listing without rows.

use qm_history::{Turn, Why};
use qm_kinds::{Name, system_user};
use qm_script::{LineSort, UserLine};
use std::alloc::{AllocError, Global};
use std::io::Write;

/// Names of so many nodes, of which there are eight at most.
pub(crate) fn names_of(alloc: Global, count: usize) -> Option<Vec<Name>> {
    let mut names = Vec::new(alloc);
    for text in ["A", "B", "C", "D", "E", "F", "G", "H"].iter().take(count) {
        names.push(Name::read(text.as_bytes()).ok()?).ok()?;
    }
    Some(names)
}

/// Lines of this text, one behind another.
pub(crate) fn lines_of<'a>(
    alloc: Global,
    text: &'a [u8],
    count: u32,
) -> Result<Vec<UserLine<'a>>, AllocError> {
    let name = system_user();
    let mut lines = Vec::new(alloc);
    for number in 1..=count {
        let line = UserLine {
            number,
            node: name,
            user: name,
            sort: LineSort::Act,
            text,
        };
        match lines.push(line) {
            Ok(()) => {}
            Err(_) => return Err(AllocError),
        }
    }
    Ok(lines)
}

/// The lines of nodes, of which each has so many.
pub(crate) fn lines_of_all<'a>(
    alloc: Global,
    text: &'a [u8],
    counts: &[u32],
) -> Option<Vec<Vec<UserLine<'a>>>> {
    let mut lists = Vec::new(alloc);
    for count in counts {
        lists.push(lines_of(alloc, text, *count).ok()?).ok()?;
    }
    Some(lists)
}

/// Why a node makes its turns: for so many lines, in their order, and for what comes behind them.
pub(crate) fn whys(alloc: Global, lines: u32, behind: &[Why]) -> Result<Vec<Why>, AllocError> {
    let mut whys = Vec::new(alloc);
    for number in 1..=lines {
        whys.push(Why::Line(number))?;
    }
    whys.extend_from_slice(behind)?;
    Ok(whys)
}

/// Why the turns of a node among these were made.
pub(crate) fn whys_of(alloc: Global, asked: &[Turn], node: usize) -> Result<Vec<Why>, AllocError> {
    let mut whys = Vec::new(alloc);
    for turn in asked {
        if turn.node as usize == node {
            whys.push(turn.why)?;
        }
    }
    Ok(whys)
}

/// Appends what a node prints of its first lines.
pub(crate) fn push_lines(text: &mut Vec<u8>, name: &Name, lines: u32) -> Option<()> {
    for number in 1..=lines {
        write!(text, "{name} {number}: rows: 0\n").ok()?;
    }
    Some(())
}

/// Appends what a node prints of its leave.
pub(crate) fn push_leave(text: &mut Vec<u8>, name: &Name) -> Option<()> {
    write!(text, "{name} -: rows: 0\n").ok()
}

/// Appends the last line: whose turn each was.
pub(crate) fn push_turns(text: &mut Vec<u8>, names: &[Name], turns: &[Turn]) -> Option<()> {
    text.extend_from_slice(b"turns:").ok()?;
    for turn in turns {
        let name = names.get(turn.node as usize)?;
        write!(text, " {name}").ok()?;
    }
    text.push(b'\n').ok()
}
