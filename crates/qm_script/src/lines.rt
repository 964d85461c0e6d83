// A script of a cluster: lines of users at its nodes.
ghost use Rattle.std.specs.Prelude.{◌≡◌, ◌==◌, ◌+◌, ◌-◌, ◌&&◌, ◌≤◌, ◌<◌, true, length, position, option_map, if◌then◌else◌, None, IfOk, IfSome, option_copied};
ghost use Rattle.std.specs.List.{list_all};
ghost use Rattle.qm_kinds.specs.declared.script.ScriptKind.TheVariants.{Byte, Form};
ghost use Rattle.qm_model.specs.Script.{is_line_byte};
ghost use Rattle.qm_kinds.specs.Files.{name_of};
ghost use Rattle.qm_model.specs.Texts.{cut_at, cut_at_blank};
ghost use Rattle.qm_history.specs.Lines.{asker_of, line_from, lines_from, may_be_of, script_lines, sort_of, sorted};
ghost use Rattle.qm_script.specs.Extents.{CutsFirst, IsFirstLine, IsTextOf, joined, parts_of};
ghost use Rattle.qm_script.specs.Heads.{TakesLine, TakesNext, head_view, sorted_view};
ghost use Rattle.qm_script.specs.ClusterLines.{ReadsLines, line_sort_view, user_lines_view};
ghost use Rattle.qm_script.specs.Lines.{parts_view};

use crate::extent::{Extent, are_of_line, first_line, is_of_line, whole_text};
use crate::script::{cut_at_blank, read_node_name};
use qm_kinds::{Name, ScriptKind, TEXT_LIMIT, system_user};
use std::alloc::Global;

/// What a line of a script holds.
#[derive(Clone, Copy, Debug, PartialEq, Eq)]
pub enum LineSort {
    /// A command that a user types, behind a `$`.
    Command,
    /// A call by an item list, behind a `#`.
    Items,
    /// An act at the site, behind a `!`.
    Act,
}

/// A line of a script, and the user who asks.
#[derive(Clone, Copy, Debug)]
pub struct UserLine<'a> {
    /// Lines of the text are counted from 1, empty ones too; a command that goes on has the number of its first.
    pub number: u32,
    /// The name of the line's node.
    pub node: Name,
    pub user: Name,
    pub sort: LineSort,
    /// What stands behind the sort and a blank; in a command with each `-` and line feed at which it goes on.
    pub text: &'a [u8],
}

/// Why no lines were read.
#[derive(Clone, Copy)]
pub enum LinesEnd {
    /// What is wrong at this line, the first at which something is; 0 stands for the script as a whole.
    Fault { line: u32, kind: ScriptKind },
    NoMemory,
}

// What stands in front of the text of a line, and the text.
#[derive(Clone, Copy)]
struct Head<'a> {
    node: Name,
    user: Name,
    sort: LineSort,
    text: &'a [u8],
}

// A line, or none where it is empty, and what stands behind it.
#[derive(Clone, Copy)]
struct Taken<'a> {
    line: Option<UserLine<'a>>,
    rest: &'a [u8],
    // The number of the line that stands behind it.
    next: u32,
}

// The place of the first colon.
fn colon(text: &[u8]) -> Option<usize>
    ensures value { result ≡ position (λ b. b == 58) text.now }
    ensures within { IfSome result (λ place. place < length text.now) }
{
    text.iter().position(|b| *b == b':')
}

// What stands before the first colon, and what behind it.
fn cut_at_colon(text: &[u8]) -> Option<(&[u8], &[u8])>
    ensures { option_map parts_view result ≡ cut_at (position (λ b. b == 58) text.now) text.now }
{
    let place = colon(text)?;
    Some((&text[..place], &text[place + 1..]))
}

// The name that a text is, if it is one.
fn read_name(text: &[u8]) -> Option<Name>
    ensures { result ≡ name_of text.now }
{
    match Name::read(text) {
        Ok(name) => Some(name),
        Err(_) => None,
    }
}

// A node, and a user behind a colon; where none is named, SYSTEM asks.
fn read_asker(text: &[u8]) -> Option<(Name, Name)>
    ensures { result ≡ asker_of text.now }
{
    match cut_at_colon(text) {
        None => {
            let node = read_node_name(text)?;
            Some((node, system_user()))
        }
        Some((node, user)) => {
            let node = read_node_name(node)?;
            let user = read_name(user)?;
            Some((node, user))
        }
    }
}

// The sort of a line that its mark tells.
fn sort_of(mark: u8) -> Option<LineSort>
    ensures { option_map line_sort_view result ≡ sort_of mark }
{
    match mark {
        b'$' => Some(LineSort::Command),
        b'#' => Some(LineSort::Items),
        b'!' => Some(LineSort::Act),
        _ => None,
    }
}

// A sort, a blank and the text.
fn read_sorted(text: &[u8]) -> Option<(LineSort, &[u8])>
    ensures { option_map sorted_view result ≡ sorted text.now }
{
    match text {
        [mark, b' ', text @ ..] => {
            let sort = sort_of(*mark)?;
            Some((sort, text))
        }
        _ => None,
    }
}

// A node and a user, a blank, a sort, a blank and the text.
fn read_head(text: &[u8]) -> Option<Head<'_>>
    ensures { option_map head_view result ≡ line_from 0 (cut_at_blank text.now) }
{
    let (who, rest) = cut_at_blank(text)?;
    let (node, user) = read_asker(who)?;
    let (sort, text) = read_sorted(rest)?;
    Some(Head {
        node,
        user,
        sort,
        text,
    })
}

// Whether the node is in the cluster, or no cluster is known.
fn may_be_of(nodes: Option<&[Name]>, node: &Name) -> bool
    ensures { result ≡ may_be_of (option_copied nodes.entry) node.now }
{
    match nodes {
        None => true,
        Some(nodes) => nodes.contains(node),
    }
}

// What is wrong with a text that has no head.
fn headless(text: &[u8]) -> ScriptKind
    ensures { result ≡ (if list_all is_line_byte text.now then Form else Byte) }
{
    if are_of_line(text) {
        ScriptKind::Form
    } else {
        ScriptKind::Byte
    }
}

// The text of a line whose first line and whose text there these are, as far as it goes. With that text the script begins.
#[tactic(auto, using(crate::proofs::Exits::cut_within, crate::proofs::Exits::cut_less))]
fn text_of<'a>(sort: LineSort, script: &'a [u8], first: Extent<'a>, text: &'a [u8]) -> Extent<'a>
    requires few { length script.now ≤ TEXT_LIMIT }
    requires first { CutsFirst script.now text.now first.is_ended first.rest.now }
    requires lines { first.lines ≡ (if first.is_ended then 1 else 0) }
    ensures text { IsTextOf (line_sort_view sort) script.now first.entry text.now result }
    ensures within { result.lines + length result.rest.now ≤ length script.now }
    ensures ended { result.is_ended ≡ true → length result.rest.now < length script.now }
{
    match sort {
        LineSort::Command => whole_text(script),
        LineSort::Items | LineSort::Act => Extent { text, ..first },
    }
}

// How many bytes stand in front of the text with which a line ends.
fn front_of(line: &[u8], text: &[u8]) -> usize
    requires { length text.now ≤ length line.now }
    ensures { result ≡ length line.now - length text.now }
{
    line.len() - text.len()
}

// Whether each byte of a front and of a text that may go on can be printed, or is a blank, but for those at which it goes on.
fn is_printable(front: &[u8], text: &[u8]) -> bool
    ensures { result
        ≡ (list_all is_line_byte front.now && list_all is_line_byte (joined text.now)) }
{
    are_of_line(front) && is_of_line(text)
}

// The first line of a script, which isn't empty, or what is wrong there.
#[tactic(auto, using(crate::proofs::Exits::first_within, crate::proofs::Exits::head_within))]
fn take_line<'a>(
    nodes: Option<&[Name]>,
    number: u32,
    script: &'a [u8],
    first: Extent<'a>,
) -> Result<Taken<'a>, ScriptKind>
    requires first { IsFirstLine script.now first }
    requires full { 0 < length first.text.now }
    requires few { length script.now ≤ TEXT_LIMIT }
    requires number { number + length script.now ≤ TEXT_LIMIT + 1 }
    ensures line { TakesLine (option_copied nodes.entry) number script.now result }
    ensures behind { IfOk result (λ taken.
        taken.next + length taken.rest.now ≤ number + length script.now) }
    ensures less { IfOk result (λ taken. length taken.rest.now < length script.now) }
{
    let Some(head) = read_head(first.text) else {
        return Err(headless(first.text));
    };
    let front = front_of(first.text, head.text);
    let extent = text_of(head.sort, &script[front..], first, head.text);
    if !is_printable(&script[..front], extent.text) {
        return Err(ScriptKind::Byte);
    }
    if !may_be_of(nodes, &head.node) {
        return Err(ScriptKind::Node);
    }
    if !extent.is_ended {
        return Err(ScriptKind::End);
    }
    Ok(Taken {
        line: Some(UserLine {
            number,
            node: head.node,
            user: head.user,
            sort: head.sort,
            text: extent.text,
        }),
        rest: extent.rest,
        next: number + extent.lines,
    })
}

// The first line of a script that isn't empty, or what is wrong there.
fn first_taken<'a>(
    nodes: Option<&[Name]>,
    number: u32,
    script: &'a [u8],
) -> Result<Taken<'a>, ScriptKind>
    requires some { 0 < length script.now }
    requires few { length script.now ≤ TEXT_LIMIT }
    requires number { number + length script.now ≤ TEXT_LIMIT + 1 }
    ensures line { TakesLine (option_copied nodes.entry) number script.now result }
    ensures behind { IfOk result (λ taken.
        taken.next + length taken.rest.now ≤ number + length script.now) }
    ensures less { IfOk result (λ taken. length taken.rest.now < length script.now) }
{
    let first = first_line(script);
    if first.text.is_empty() {
        return Ok(Taken {
            line: None,
            rest: first.rest,
            next: number + first.lines,
        });
    }
    take_line(nodes, number, script, first)
}

// The first line of a script, or what is wrong there, or nothing where nothing is left.
fn next_line<'a>(
    nodes: Option<&[Name]>,
    number: u32,
    script: &'a [u8],
) -> Option<Result<Taken<'a>, ScriptKind>>
    requires few { length script.now ≤ TEXT_LIMIT }
    requires number { number + length script.now ≤ TEXT_LIMIT + 1 }
    ensures line { TakesNext (option_copied nodes.entry) number script.now result }
    ensures behind { IfSome result (λ step. IfOk step (λ taken.
        taken.next + length taken.rest.now ≤ number + length script.now)) }
    ensures less { IfSome result (λ step. IfOk step (λ taken.
        length taken.rest.now < length script.now)) }
{
    if script.is_empty() {
        None
    } else {
        Some(first_taken(nodes, number, script))
    }
}

// The lines of a script that aren't empty, for a cluster of these nodes, or what is wrong first.
fn read_all<'a>(
    alloc: Global,
    nodes: Option<&[Name]>,
    script: &'a [u8],
) -> Result<Vec<UserLine<'a>>, LinesEnd>
    requires { length script.now ≤ TEXT_LIMIT }
    ensures { ReadsLines (λ lines. user_lines_view lines.items)
        (lines_from (option_copied nodes.entry) None 1 (parts_of script.now)) result }
{
    let mut lines = Vec::new(alloc);
    let mut are_all = true;
    let mut rest = script;
    let mut number = 1;
    while let Some(step) = next_line(nodes, number, rest) {
        let taken = match step {
            Ok(taken) => taken,
            Err(kind) => return Err(LinesEnd::Fault { line: number, kind }),
        };
        rest = taken.rest;
        number = taken.next;
        let line = taken.line;
        match line {
            None => {}
            Some(line) => are_all &= lines.push(line).is_ok(),
        }
    }
    if are_all {
        Ok(lines)
    } else {
        Err(LinesEnd::NoMemory)
    }
}

/// The lines of a script that aren't empty, for a cluster of these nodes; where none is given no cluster is known, and no node is
/// asked for. A command whose line ends in `-` goes on in the next line. Where memory runs out the rest is read all the same, so
/// that it is wanted for a script alone.
///
/// Errors: `Fault` with the least line at which something is wrong: `Long` at line 0, where the script has more than 16,777,216
/// bytes; at a line `Byte`, where a byte of it may not stand in a script, `Form`, where it has another shape, `Node`, where its
/// node isn't one of these, and `End`, where the script ends within it; of these the one that stands first here. `NoMemory`,
/// where memory for the lines ran out.
pub fn read_lines<'a>(
    alloc: Global,
    nodes: Option<&[Name]>,
    script: &'a [u8],
) -> Result<Vec<UserLine<'a>>, LinesEnd>
    ensures { ReadsLines (λ lines. user_lines_view lines.items)
        (script_lines (option_copied nodes.entry) script.now) result }
{
    if TEXT_LIMIT < script.len() {
        return Err(LinesEnd::Fault {
            line: 0,
            kind: ScriptKind::Long,
        });
    }
    read_all(alloc, nodes, script)
}
