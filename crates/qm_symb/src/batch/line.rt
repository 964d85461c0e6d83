// The lines of batch jobs, each with what it asks for.
ghost use Rattle.std.specs.Prelude.{◌≡◌, ◌≤◌, codes, length, option_map, IfSome, option_and_then};
ghost use Rattle.qm_model.specs.Batch.{batch_line, behind, only_if, is_label, is_label_line, label_of};
ghost use Rattle.qm_symb.specs.BatchLines.{meaning, text_written, mark_set, status_of, IsShort};

use crate::batch::parts::{ahead_of, behind, has_no_quote, is_label, is_mark};
use qm_time::plain_number_up_to;

// A status has 32 bits.
const STATUS_LIMIT: u64 = 4_294_967_295;

/// What a line asks for.
#[derive(Clone, Copy)]
pub enum Line<'a> {
    /// A comment, an empty line or a label.
    Nothing,
    /// A text goes to the device.
    Write(&'a [u8]),
    /// A text is the mark of a checkpoint.
    SetRestart(&'a [u8]),
    /// The run goes on at a label.
    GoTo(&'a [u8]),
    /// The run goes on at the label that its mark names, where it has one and isn't the first.
    GoToRestart,
    /// The run ends with a status.
    Exit(u32),
    /// A line of no form.
    Bad,
}

// $ WRITE SYS$OUTPUT "text"
fn written(line: &[u8]) -> Option<&[u8]>
    ensures no_longer { IfSome result (λ text. length text.now ≤ length line.now) }
    ensures text { option_map (λ text. text.now) result ≡ text_written line.now }
{
    let text = ahead_of(b"\"", behind(b"$ WRITE SYS$OUTPUT \"", line)?)?;
    if has_no_quote(text) { Some(text) } else { None }
}

// $ SET RESTART_VALUE = text
fn restart_value(line: &[u8]) -> Option<&[u8]>
    ensures few { IfSome result (λ text. length text.now ≤ 255) }
    ensures value { option_map (λ text. text.now) result ≡ mark_set line.now }
{
    let text = behind(b"$ SET RESTART_VALUE = ", line)?;
    if is_mark(text) { Some(text) } else { None }
}

// The label of the line `$ label:`.
fn label_of(line: &[u8]) -> Option<&[u8]>
    ensures { option_map (λ label. label.now) result ≡ label_of line.now }
{
    let label = ahead_of(b":", behind(b"$ ", line)?)?;
    if is_label(label) { Some(label) } else { None }
}

/// Whether a line is the label.
pub(crate) fn is_label_line(label: &[u8], line: &[u8]) -> bool
    ensures { result ≡ is_label_line label.now line.now }
{
    match label_of(line) {
        Some(found) => label == found,
        None => false,
    }
}

// $ GOTO label
fn destination(line: &[u8]) -> Option<&[u8]>
    ensures { option_map (λ label. label.now) result
        ≡ option_and_then (only_if is_label) (behind (codes "$ GOTO ") line.now) }
{
    let label = behind(b"$ GOTO ", line)?;
    if is_label(label) { Some(label) } else { None }
}

// $ EXIT n
fn exit_status(line: &[u8]) -> Option<u32>
    ensures { result ≡ option_and_then status_of (behind (codes "$ EXIT ") line.now) }
{
    let status = plain_number_up_to(STATUS_LIMIT, behind(b"$ EXIT ", line)?)?;
    Some(status as u32)
}

/// What a line asks for.
///
/// OpenVMS User's Manual, on command procedures and `$RESTART`.
pub fn read_line(line: &[u8]) -> Line
    ensures meaning { meaning result ≡ batch_line line.now }
    ensures short { IsShort line.now result }
{
    if line.is_empty() || line.starts_with(b"$!") {
        return Line::Nothing;
    }
    if let Some(text) = written(line) {
        return Line::Write(text);
    }
    if let Some(text) = restart_value(line) {
        return Line::SetRestart(text);
    }
    if label_of(line).is_some() {
        return Line::Nothing;
    }
    if let Some(label) = destination(line) {
        return Line::GoTo(label);
    }
    if line == b"$ IF $RESTART THEN GOTO 'BATCH$RESTART'".as_slice() {
        return Line::GoToRestart;
    }
    match exit_status(line) {
        Some(status) => Line::Exit(status),
        None => Line::Bad,
    }
}
