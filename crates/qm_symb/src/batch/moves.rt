// What a run does at a line: the moves of a batch job.
ghost use Rattle.std.specs.Prelude.{◌≡◌, ◌≤◌, length, option_map};
ghost use Rattle.qm_model.specs.Pages.{lines};
ghost use Rattle.qm_model.specs.Batch.{move_at, move_to, place_of_label};
ghost use Rattle.qm_symb.specs.BatchCursors.{IsInText};
ghost use Rattle.qm_symb.specs.BatchMoves.{move_meaning, restart_label, StaysWithin};

use crate::batch::cursor::{Cursor, find_label, line_at};
use crate::batch::line::{Line, read_line};
use qm_kinds::{NORMAL_STATUS, TEXT_LIMIT, Work};

// The status of a run that is to go on at a label that isn't there.
const NO_LABEL_STATUS: u32 = 1044;

// The status of a run that meets a line of no form.
const BAD_LINE_STATUS: u32 = 1052;

/// What comes of a line. Where the run goes on, the cursor says at which line.
#[derive(Clone, Copy)]
pub(crate) enum Move<'a> {
    /// Nothing is handed over or reported.
    GoOn(Cursor),
    /// A text and a line feed go to the device.
    Output(&'a [u8], Cursor),
    /// A text is reported as the mark.
    SaveMark(&'a [u8], Cursor),
    /// The run ends with a status.
    EndRun(u32),
}

// The run goes on at the first line with the label, and ends where there is none.
fn move_to<'a>(text: &'a [u8], label: &[u8]) -> Move<'a>
    requires { length text.now ≤ TEXT_LIMIT }
    ensures meaning { move_meaning result ≡ move_to (place_of_label label.now (lines text.now)) }
    ensures within { StaysWithin text.now result }
{
    match find_label(text, label) {
        Some(next) => Move::GoOn(next),
        None => Move::EndRun(NO_LABEL_STATUS),
    }
}

// The label at which a job that runs again goes on: its mark, unless that is empty.
fn restart_label(work: &Work) -> Option<&[u8]>
    ensures { option_map (λ label. label.now) result ≡ restart_label work.now }
{
    let mark = work.mark.as_bytes();
    if work.again && !mark.is_empty() {
        Some(mark)
    } else {
        None
    }
}

/// What comes of the line at a cursor; behind the last line the run ends well.
///
/// OpenVMS User's Manual, on command procedures and `$RESTART`; DCL Dictionary, SUBMIT, /RESTART.
pub(crate) fn move_at(work: &Work, here: Cursor) -> Move
    requires short { length work.now.text ≤ TEXT_LIMIT }
    requires in_text { IsInText work.now.text here }
    ensures meaning { move_meaning result
        ≡ move_at (lines work.now.text) work.now.again work.now.mark here.line }
    ensures within { StaysWithin work.now.text result }
{
    let text = work.text.as_slice();
    let Some(found) = line_at(text, here) else {
        return Move::EndRun(NORMAL_STATUS);
    };
    let next = found.next;
    match read_line(found.line) {
        Line::Nothing => Move::GoOn(next),
        Line::Write(block) => Move::Output(block, next),
        Line::SetRestart(mark) => Move::SaveMark(mark, next),
        Line::GoTo(label) => move_to(text, label),
        Line::GoToRestart => match restart_label(work) {
            Some(label) => move_to(text, label),
            None => Move::GoOn(next),
        },
        Line::Exit(status) => Move::EndRun(status),
        Line::Bad => Move::EndRun(BAD_LINE_STATUS),
    }
}
