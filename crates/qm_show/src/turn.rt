// The lines of a transcript that tell of a turn: one call for whatever a call of a node is answered.
ghost use Rattle.std.specs.Prelude.{◌≡◌, ◌++◌, ◌∷◌, [], map, Some, IfOk, OnOk, option_copied};
ghost use Rattle.qm_model.specs.Words.{act_text, refusal_line, start_text};
ghost use Rattle.qm_model.specs.Transcript.{journal_line, runs_line};
ghost use Rattle.qm_sjc.specs.Printed.{items_line};
ghost use Rattle.qm_history.specs.Text.{answer_lines, behind, fenced_line, first_line_of, if_printed, kept_lines, no_manager_line, shown_lines, takeover_lines, told_takeover};
ghost use Rattle.qm_show.specs.Turns.{line_of, told_text};

use crate::answer::{
    FullText, Prefix, front_of, push_act, push_line, push_rows, push_runs, push_starts, push_text,
};
use crate::refusal::RefusalText;
use qm_history::{Answer, Takeover, Why};
use qm_kinds::{Act, Name, Refusal, Reply, Row};
use qm_rows::Rows;
use qm_sjc::row_line;
use std::alloc::{AllocError, Global};
use std::fmt;

// Room for the lines of most turns, in bytes, so that their text is moved nowhere as it grows.
const MOST_TEXTS: usize = 256;

// The node holds another epoch than the present manager's.
#[derive(Clone, Copy)]
struct FencedText {
    held: u64,
    current: u64,
}

impl fmt::Display for FencedText {
    ghost output = { λ t. Some (fenced_line t.held t.current) };

    fn fmt<W: fmt::Write>(&self, f: &mut fmt::Formatter<W>) -> fmt::Result {
        write!(
            f,
            "%QMAN-E-FENCED, held {}, current {}",
            self.held, self.current
        )
    }
}

// What stands before each line of a turn of a node.
fn prefix_of(node: &Name, why: Why) -> Prefix
    ensures node { result.node ≡ node.now }
    ensures line { result.line ≡ line_of why }
{
    let line = match why {
        Why::Line(line) => Some(line),
        Why::Fetch | Why::Report | Why::Leave => None,
    };
    Prefix { node: *node, line }
}

// The takeover that an answer tells of.
fn told_takeover(answer: &Answer) -> Option<&Takeover>
    ensures { option_copied result ≡ told_takeover answer.now }
{
    match answer {
        Answer::Done { took, .. }
        | Answer::Shown { took, .. }
        | Answer::Duties { took, .. }
        | Answer::Refused { took, .. }
        | Answer::Full { took, .. }
        | Answer::Journal { took, .. }
        | Answer::NoManager { took, .. }
        | Answer::NoMemory { took } => took.as_ref(),
        Answer::Fenced { .. } | Answer::Damaged { .. } | Answer::HistoryFull => None,
    }
}

// What became of a record in doubt.
fn kept_text(kept: bool) -> &'static str
    ensures { result.now ∷ [] ≡ kept_lines (Some kept) }
{
    if kept {
        "%QMAN-I-KEPT"
    } else {
        "%QMAN-I-NOTKEPT"
    }
}

// Appends what became of a record in doubt, where one was.
fn push_kept(out: &mut Vec<u8>, front: &str, kept: Option<bool>) -> Result<(), AllocError>
    ensures { OnOk result (out.new.items ≡ out.old.items ++ behind front.now (kept_lines kept)) }
{
    match kept {
        None => Ok(()),
        Some(kept) => push_text(out, front, kept_text(kept)),
    }
}

// Appends the lines of a takeover.
fn push_takeover(out: &mut Vec<u8>, front: &str, took: Option<&Takeover>) -> Result<(), AllocError>
    ensures { OnOk result (out.new.items
        ≡ out.old.items ++ behind front.now (takeover_lines (option_copied took.entry))) }
{
    let Some(took) = took else {
        return Ok(());
    };
    push_kept(out, front, took.kept)?;
    push_starts(out, front, took.started.as_slice())
}

// Appends what was done, where the turn tells of it.
fn push_first_act(out: &mut Vec<u8>, front: &str, why: Why, act: &Act) -> Result<(), AllocError>
    ensures { OnOk result (out.new.items
        ≡ out.old.items ++ behind front.now (if_printed (first_line_of why) (act_text act.now))) }
{
    match why {
        Why::Line(_) | Why::Report => push_act(out, front, act),
        Why::Fetch | Why::Leave => Ok(()),
    }
}

// Appends what was done, where the turn tells of it, and the jobs that were started.
fn push_reply(out: &mut Vec<u8>, front: &str, why: Why, reply: &Reply) -> Result<(), AllocError>
    ensures { OnOk result (out.new.items ≡ out.old.items ++ behind front.now
        (if_printed (first_line_of why) (act_text reply.now.act)
        ++ map start_text reply.now.started)) }
{
    push_first_act(out, front, why, &reply.act)?;
    push_starts(out, front, reply.started.as_slice())
}

// Appends how many runs the node was shown, where the turn tells of it.
fn push_duties(out: &mut Vec<u8>, front: &str, why: Why, count: usize) -> Result<(), AllocError>
    ensures { OnOk result (out.new.items
        ≡ out.old.items ++ behind front.now (if_printed (first_line_of why) (runs_line count))) }
{
    match why {
        Why::Line(_) | Why::Report => push_runs(out, front, count),
        Why::Fetch | Why::Leave => Ok(()),
    }
}

// Appends the items of rows.
fn push_part_items(
    alloc: Global,
    out: &mut Vec<u8>,
    front: &str,
    rows: &[Row],
) -> Result<(), AllocError>
    ensures { OnOk result (out.new.items
        ≡ out.old.items ++ behind front.now (map items_line rows.now)) }
{
    for row in rows {
        let line = row_line(alloc, row)?;
        push_text(out, front, line.as_str())?;
    }
    Ok(())
}

// Appends the items of each row.
fn push_items(alloc: Global, out: &mut Vec<u8>, front: &str, rows: &Rows) -> Result<(), AllocError>
    ensures { OnOk result (out.new.items
        ≡ out.old.items ++ behind front.now (map items_line rows.now)) }
{
    for part in rows.parts() {
        push_part_items(alloc, out, front, part.as_slice())?;
    }
    Ok(())
}

// Appends a listing, or the items of the row that a call asked for by an item list.
fn push_shown(
    alloc: Global,
    out: &mut Vec<u8>,
    front: &str,
    single: bool,
    rows: &Rows,
) -> Result<(), AllocError>
    ensures { OnOk result (out.new.items
        ≡ out.old.items ++ behind front.now (shown_lines items_line single rows.now)) }
{
    if single && rows.first().is_some() {
        push_items(alloc, out, front, rows)
    } else {
        push_rows(out, front, rows)
    }
}

// Appends the line of a refusal.
fn push_refusal(out: &mut Vec<u8>, front: &str, refusal: &Refusal) -> Result<(), AllocError>
    ensures { OnOk result (out.new.items
        ≡ out.old.items ++ behind front.now (refusal_line refusal.now ∷ [])) }
{
    push_line(out, front, format_args!("%QMAN-E-{}", RefusalText(refusal)))
}

// Appends the line of a disk that failed.
fn push_journal(out: &mut Vec<u8>, front: &str) -> Result<(), AllocError>
    ensures { OnOk result (out.new.items ≡ out.old.items ++ behind front.now (journal_line ∷ [])) }
{
    push_text(out, front, "%QMAN-F-JOURNAL")
}

// Appends the line of a node that may not be queue manager.
fn push_no_manager(out: &mut Vec<u8>, front: &str, node: &Name) -> Result<(), AllocError>
    ensures { OnOk result (out.new.items
        ≡ out.old.items ++ behind front.now (no_manager_line node.now ∷ [])) }
{
    push_line(out, front, format_args!("%QMAN-E-NOMANAGER, {node}"))
}

// Appends the lines of an answer, behind its takeover.
fn push_answer(
    alloc: Global,
    out: &mut Vec<u8>,
    front: &str,
    why: Why,
    single: bool,
    answer: &Answer,
) -> Result<(), AllocError>
    ensures { OnOk result (out.new.items ≡ out.old.items
        ++ behind front.now (answer_lines items_line (first_line_of why) single answer.now)) }
{
    match answer {
        Answer::Done { reply, .. } => push_reply(out, front, why, reply),
        Answer::Shown { rows, .. } => push_shown(alloc, out, front, single, rows),
        Answer::Duties { duties, .. } => push_duties(out, front, why, duties.as_slice().len()),
        Answer::Refused { refusal, .. } => push_refusal(out, front, refusal),
        Answer::Full { need, cap, .. } => push_line(
            out,
            front,
            FullText {
                need: *need,
                cap: *cap,
            },
        ),
        Answer::Journal { .. } => push_journal(out, front),
        Answer::Fenced { held, current } => push_line(
            out,
            front,
            FencedText {
                held: *held,
                current: *current,
            },
        ),
        Answer::NoManager { node, .. } => push_no_manager(out, front, node),
        Answer::Damaged { .. } | Answer::HistoryFull | Answer::NoMemory { .. } => Ok(()),
    }
}

/// The lines of a turn of a node: of a takeover, what became of a record in doubt and the jobs that it started; and behind
/// that what the call was answered. A turn made for a line of the script has its number, and one of the node's own has `-`.
/// A node's own fetch, and its leave, tell of no more than jobs and faults. Where the call asked for one row by an item list, its
/// items are told in hexadecimal, and else how many rows there are, and each of them. Damage, a full history and want of memory have
/// no line. Memory may run out.
#[tactic(auto, using(crate::proofs::TurnLines::whole_answer))]
pub fn show_answer(
    alloc: Global,
    node: &Name,
    why: Why,
    single: bool,
    answer: &Answer,
) -> Result<Vec<u8>, AllocError>
    ensures { IfOk result (λ text. text.items ≡ told_text node.now why single answer.now) }
{
    let made = front_of(&prefix_of(node, why));
    let front = made.as_str();
    let mut text = Vec::with_capacity(alloc, MOST_TEXTS)?;
    push_takeover(&mut text, front, told_takeover(answer))?;
    push_answer(alloc, &mut text, front, why, single, answer)?;
    Ok(text)
}
