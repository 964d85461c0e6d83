// The lines of a transcript that answer a line of a script.
ghost use Rattle.std.specs.Prelude.{◌≡◌, ◌≤◌, ◌+◌, length, ◌++◌, ◌∷◌, [], decimal, map, IfSome, OnOk, Some};
ghost use Rattle.qm_model.specs.Words.{act_text, row_text, start_text};
ghost use Rattle.qm_model.specs.Transcript.{full_line, number_text, row_lines, runs_line};
ghost use Rattle.qm_history.specs.Text.{behind};
ghost use Rattle.qm_show.specs.Prefix.{prefix_text};

use crate::act::{ActWords, StartText, mark_value};
use crate::columns::characters;
use crate::row::RowText;
use arrayvec::ArrayString;
use qm_kinds::{Act, Name, Row, Start};
use qm_rows::Rows;
use std::alloc::{AllocError, Global};
use std::fmt;
use std::io::Write;

/// What stands before each line of an answer, as `A 3: `, or `A -: ` where no line of the script asked.
#[derive(Clone, Copy)]
pub(crate) struct Prefix {
    /// The node that answers.
    pub(crate) node: Name,
    /// The line of the script that is answered, counted from 1; none where the node asked of itself.
    pub(crate) line: Option<u32>,
}

// Appends the number of a line, or - for none.
fn push_number(text: &mut ArrayString<68>, line: Option<u32>)
    requires { length text.old.bytes ≤ 58 }
    ensures text { text.new.bytes ≡ text.old.bytes ++ number_text line }
    ensures few { length text.new.bytes ≤ length text.old.bytes + 10 }
{
    match line {
        Some(number) => text.push_str(itoa::Buffer::new().format(number)),
        None => text.push_str("-"),
    }
}

/// What stands before each line of an answer, made in place: a name of at most 39 bytes, a number of at most ten digits, and 3 bytes
/// beside them.
pub(crate) fn front_of(prefix: &Prefix) -> ArrayString<68>
    ensures text { result.bytes ≡ prefix_text prefix.now.node prefix.now.line }
    ensures few { length result.bytes ≤ 52 }
{
    let mut text = ArrayString::new();
    text.push_str(characters(&prefix.node));
    text.push_str(" ");
    push_number(&mut text, prefix.line);
    text.push_str(": ");
    text
}

/// The queue file has no room.
#[derive(Clone, Copy)]
pub(crate) struct FullText {
    pub(crate) need: u64,
    pub(crate) cap: u64,
}

impl fmt::Display for FullText {
    ghost output = { λ t. Some (full_line t.need t.cap) };

    fn fmt<W: fmt::Write>(&self, f: &mut fmt::Formatter<W>) -> fmt::Result {
        write!(f, "%QMAN-E-FULL, need {}, cap {}", self.need, self.cap)
    }
}

/// Appends a line of an answer, behind what stands before it.
pub(crate) fn push_line<T: fmt::Display + Drop>(
    out: &mut Vec<u8>,
    front: &str,
    text: T,
) -> Result<(), AllocError>
    ensures { OnOk result (IfSome (T.output text) (λ bytes.
        out.new.items ≡ out.old.items ++ behind front.now (bytes ∷ []))) }
{
    out.extend_from_slice(front.as_bytes())?;
    let Ok(()) = out.write_fmt(text) else {
        return Err(AllocError);
    };
    out.push(b'\n')?;
    Ok(())
}

/// Appends a line of an answer whose text is there.
pub(crate) fn push_text(out: &mut Vec<u8>, front: &str, text: &str) -> Result<(), AllocError>
    ensures { OnOk result (out.new.items ≡ out.old.items ++ behind front.now (text.now ∷ [])) }
{
    out.extend_from_slice(front.as_bytes())?;
    out.extend_from_slice(text.as_bytes())?;
    out.push(b'\n')?;
    Ok(())
}

// A word and a count, made in place: at most 12 bytes, and at most 20 digits.
fn count_text(word: &str, count: usize) -> ArrayString<32>
    requires { length word.now ≤ 12 }
    ensures { result.bytes ≡ word.now ++ decimal count }
{
    let mut text = ArrayString::new();
    text.push_str(word);
    text.push_str(itoa::Buffer::new().format(count));
    text
}

/// Appends how many runs a node was shown.
pub(crate) fn push_runs(out: &mut Vec<u8>, front: &str, count: usize) -> Result<(), AllocError>
    ensures { OnOk result (out.new.items
        ≡ out.old.items ++ behind front.now (runs_line count ∷ [])) }
{
    push_text(out, front, count_text("runs: ", count).as_str())
}

/// Appends the first line of a reply. The value of a mark may be any bytes.
pub(crate) fn push_act(out: &mut Vec<u8>, front: &str, act: &Act) -> Result<(), AllocError>
    ensures { OnOk result (out.new.items
        ≡ out.old.items ++ behind front.now (act_text act.now ∷ [])) }
{
    out.extend_from_slice(front.as_bytes())?;
    let Ok(()) = out.write_fmt(ActWords(act)) else {
        return Err(AllocError);
    };
    out.extend_from_slice(mark_value(act))?;
    out.push(b'\n')?;
    Ok(())
}

/// Appends a line for each job that was started.
pub(crate) fn push_starts(
    out: &mut Vec<u8>,
    front: &str,
    starts: &[Start],
) -> Result<(), AllocError>
    ensures { OnOk result (out.new.items
        ≡ out.old.items ++ behind front.now (map start_text starts.now)) }
{
    for start in starts {
        push_line(out, front, StartText(start))?;
    }
    Ok(())
}

// Room for the line of a row, in bytes, that is seldom exceeded: so the text of a long listing is moved nowhere as it grows.
const MOST_OF_ROW: usize = 80;

// Appends the lines of rows.
fn push_row_texts(out: &mut Vec<u8>, front: &str, rows: &[Row]) -> Result<(), AllocError>
    ensures { OnOk result (out.new.items
        ≡ out.old.items ++ behind front.now (map row_text rows.now)) }
{
    for row in rows {
        push_line(out, front, RowText(row))?;
    }
    Ok(())
}

/// Appends the lines of a listing: how many rows there are, and the rows.
pub(crate) fn push_rows(out: &mut Vec<u8>, front: &str, rows: &Rows) -> Result<(), AllocError>
    ensures { OnOk result (out.new.items ≡ out.old.items ++ behind front.now (row_lines rows.now)) }
{
    let Some(count) = rows.count() else {
        return Err(AllocError);
    };
    out.reserve(count.saturating_mul(MOST_OF_ROW))?;
    push_text(out, front, count_text("rows: ", count).as_str())?;
    for part in rows.parts() {
        push_row_texts(out, front, part.as_slice())?;
    }
    Ok(())
}
