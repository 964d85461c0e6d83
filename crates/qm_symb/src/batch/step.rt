// One step of a batch job: its lines up to the next report.
ghost use Rattle.std.specs.Prelude.{◌≡◌, ◌<◌, ◌≤◌, ◌+◌, ◌∷◌, ◌++◌, [], nat_le, if◌then◌else◌, length, vec_capacity, IfOk, OnErr};
ghost use Rattle.qm_kinds.specs.declared.entry.JobKind.TheVariants.{Batch};
ghost use Rattle.qm_model.specs.Pages.{lines};
ghost use Rattle.qm_symb.specs.Device.{Meaning};
ghost use Rattle.qm_symb.specs.Symbiont.{IfGoesOn, IsWithinLimits, Steps};
ghost use Rattle.qm_symb.specs.BatchCursors.{IsInText, Stands};

use crate::batch::cursor::Cursor;
use crate::batch::moves::{Move, move_at};
use crate::text::LINE_FEED;
use crate::{DEVICE_FAULT_STATUS, Device};
use qm_kinds::{Mark, NORMAL_STATUS, Place, Report, TEXT_LIMIT, Work};
use std::alloc::{AllocError, Global};

/// How many lines a run may read.
const LINE_LIMIT: u32 = 10_000;

// The status of a run that reads too many lines.
const LINE_LIMIT_STATUS: u32 = 1036;

// Spells the block of a line that is written: its text and a line feed.
fn spell(block: &mut Vec<u8>, text: &[u8])
    requires { length text.now < vec_capacity block.old }
    ensures text { block.new.items ≡ text.now ++ 10 ∷ [] }
    ensures capacity { vec_capacity block.old ≤ vec_capacity block.new }
{
    block.clear();
    block.extend_from_slice(text).unwrap();
    block.push_reserved(LINE_FEED);
}

// The report of a mark, of a run that goes on at a cursor and has read so many lines.
fn mark_report(mark: &[u8], next: Cursor, used: u32) -> Report
    requires mark { length mark.now ≤ 255 }
    requires line { next.line ≤ TEXT_LIMIT }
    ensures { result ≡ Report.Mark mark.now (record { at = next.line + 1; used = used }) }
{
    Report::Mark {
        value: Mark::new(mark).unwrap(),
        next: Place {
            at: next.line + 1,
            used,
        },
    }
}

// The status of a run that has read as many lines as it may: it ends well where none is left.
fn status_at_limit(work: &Work, here: Cursor) -> u32
    requires { IsInText work.now.text here }
    ensures { result ≡ (if nat_le (length (lines work.now.text)) here.line
        then NORMAL_STATUS else LINE_LIMIT_STATUS) }
{
    if here.byte < work.text.len() {
        LINE_LIMIT_STATUS
    } else {
        NORMAL_STATUS
    }
}

/// Follows the lines of a batch job from a place up to the next report, and hands each text that they write, with a
/// line feed, to the job's device. The report is the mark that a line sets, or the end of the run: with the status that a
/// line tells, 1 behind the last line, 1044 where a label isn't there, 1052 at a line of no form, and 1036 where more than
/// 10,000 lines would be read since `batch_begin`. The cursor has to stand at the place, and stands behind a mark where
/// the run goes on.
///
/// Where the device fails the run ends with status `DEVICE_FAULT_STATUS`. At want of memory nothing was handed over, and
/// the cursor stands where it stood. Memory is wanted once, before the first block: one byte more than the text has.
///
/// It looks at a line as often as the run comes to it, and at the text in front of a label as often as the run goes there.
///
/// OpenVMS User's Manual, on command procedures and `$RESTART`; DCL Dictionary, SUBMIT, /RESTART.
pub fn batch_step<P: Device>(
    alloc: Global,
    device: &mut P,
    work: &Work,
    at: Place,
    cursor: &mut Cursor,
) -> Result<Report, AllocError>
    requires limits { IsWithinLimits work.now }
    requires kind { work.now.kind ≡ Batch }
    requires place { Stands work.now at cursor.old }
    ensures stepped { IfOk result (λ report.
        Steps P.meaning work.now at report device.old device.new) }
    ensures next_place { IfOk result (λ report.
        IfGoesOn report (λ next. Stands work.now next cursor.new)) }
    ensures no_memory { OnErr result (device.new ≡ device.old) }
    ensures same_place { OnErr result (cursor.new ≡ cursor.old) }
{
    let mut block = Vec::with_capacity(alloc, work.text.len() + 1)?;
    let mut here = *cursor;
    for used in at.used..LINE_LIMIT {
        match move_at(work, here) {
            Move::GoOn(next) => here = next,
            Move::Output(text, next) => {
                spell(&mut block, text);
                if device.hand(work.run, &work.device, &block).is_err() {
                    return Ok(Report::Done {
                        status: DEVICE_FAULT_STATUS,
                    });
                }
                here = next;
            }
            Move::SaveMark(mark, next) => {
                *cursor = next;
                return Ok(mark_report(mark, next, used + 1));
            }
            Move::EndRun(status) => return Ok(Report::Done { status }),
        }
    }
    Ok(Report::Done {
        status: status_at_limit(work, here),
    })
}
