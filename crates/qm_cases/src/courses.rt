// Whether the turns of nodes that work at once are what their lines ask for, whatever threads decide. No line of their scripts goes
// on with the next one.
use crate::files::Files;
use crate::walks::names_of;
use qm_history::{Turn, Why};
use qm_kinds::Name;
use qm_program::End;
use std::alloc::{AllocError, Global};

// Whether a line is one of the node of this name.
fn is_of(line: &[u8], name: &Name) -> bool {
    match line.strip_prefix(name.as_bytes()) {
        Some([b' ' | b':', ..]) => true,
        _ => false,
    }
}

// The numbers of a node's lines.
fn lines_of(alloc: Global, script: &[u8], name: &Name) -> Result<Vec<u32>, AllocError> {
    let mut lines = Vec::new(alloc);
    let mut number = 0u32;
    for line in script.split(|byte| *byte == b'\n') {
        number = number.saturating_add(1);
        if is_of(line, name) {
            lines.push(number)?;
        }
    }
    Ok(lines)
}

// The lines that are left behind a turn; none where it can't come there: a line is the next one, fetches and the leave come behind the
// last one, and a report behind a step.
fn behind_turn(why: Why, lines: &[u32]) -> Option<&[u32]> {
    match (why, lines) {
        (Why::Line(number), [next, rest @ ..]) if number == *next => Some(rest),
        (Why::Line(_), _) => None,
        (Why::Report, _) | (Why::Fetch | Why::Leave, []) => Some(lines),
        (Why::Fetch | Why::Leave, _) => None,
    }
}

// Whether the turns of a node are of these lines, each once and in their order.
fn are_of(turns: &[Turn], node: usize, lines: &[u32]) -> bool {
    let mut left = lines;
    for turn in turns {
        if usize::from(turn.node) == node {
            match behind_turn(turn.why, left) {
                Some(lines) => left = lines,
                None => return false,
            }
        }
    }
    left.is_empty()
}

// Whether each node's turns are of its lines.
fn are_of_nodes(
    alloc: Global,
    turns: &[Turn],
    script: &[u8],
    names: &[Name],
) -> Result<bool, AllocError> {
    for (node, name) in names.iter().enumerate() {
        let lines = lines_of(alloc, script, name)?;
        if !are_of(turns, node, &lines) {
            return Ok(false);
        }
    }
    Ok(true)
}

// The line that says whose turns these are.
fn turns_line(alloc: Global, turns: &[Turn], names: &[Name]) -> Result<Vec<u8>, AllocError> {
    let mut line = b"turns:".to_vec(alloc)?;
    for turn in turns {
        line.push(b' ')?;
        if let Some(name) = names.get(usize::from(turn.node)) {
            line.extend_from_slice(name.as_bytes())?;
        }
    }
    line.push(b'\n')?;
    Ok(line)
}

/// Whether the turns of a run over files are of the lines of each node, in their order, and the last line that was printed says whose
/// each was, unless the output failed. Where there are none, nothing was printed.
pub(crate) fn go_by_lines(
    alloc: Global,
    files: &Files,
    script: &[u8],
    turns: &[Turn],
    printed: &[u8],
    end: End,
) -> Result<bool, AllocError> {
    if turns.is_empty() {
        return Ok(printed.is_empty());
    }
    let names = names_of(alloc, files)?;
    let line = turns_line(alloc, turns, &names)?;
    let tells = end == End::Write || printed.ends_with(&line);
    Ok(tells && are_of_nodes(alloc, turns, script, &names)?)
}
