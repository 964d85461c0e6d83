// What is done at the site of a node, in place of a user.
ghost use Rattle.std.specs.Prelude.{◌≡◌, ◌++◌, ◌∷◌, [], if◌then◌else◌, None, Some, IfOk, OnErr};
ghost use Rattle.qm_kinds.specs.Files.{file_name_of};
ghost use Rattle.qm_model.specs.Batch.{is_mark};
ghost use Rattle.qm_model.specs.Texts.{cut_at_blank};
ghost use Rattle.qm_model.specs.Script.{act_of, done_act, drop_act, fill_act, is_act_word, line_act, malformed_act, mark_act, step_act, step_number};
ghost use Rattle.qm_script.specs.Wanting.{WantsMemory};

use crate::script::cut_at_blank;
use qm_kinds::{FileName, Input, Mark, ParseKind, Request, Seq};
use qm_time::plain_number_up_to;
use std::alloc::{AllocError, Global};

const DONE: &[u8] = b"DONE";

const DROP: &[u8] = b"DROP";

const FILL: &[u8] = b"FILL";

const LINE: &[u8] = b"LINE";

const MARK: &[u8] = b"MARK";

pub(crate) const STEP: &[u8] = b"STEP";

pub(crate) const TICK: &[u8] = b"TICK";

/// The most lines of a `FILL`.
const FILL_LIMIT: u64 = 1024;

/// The most steps of a `STEP`.
const STEP_LIMIT: u64 = 100_000;

/// Whether a word is that of an act that is built.
pub(crate) fn is_act_word(word: &[u8]) -> bool
    ensures { result ≡ is_act_word word.now }
{
    word == LINE
        || word == FILL
        || word == DROP
        || word == STEP
        || word == MARK
        || word == DONE
        || word == TICK
}

/// What an act asks for: a word, and behind a blank what the word takes. The words that are built are `LINE`, which takes
/// a file's name, a blank and a line of text for the end of that file; `FILL`, which takes a file's name, a blank and how
/// many lines (1 to 1,024) of 63 letters go to its end; `DROP`, which takes the name of a file that goes; `STEP`, which takes
/// how many steps may be made (1 to 100,000); `MARK`, which takes the number of a run, a blank and the mark that it has
/// reached (1 to 255 bytes, blanks too); `DONE`, which takes the number of a run that has ended, a blank and its status; and
/// `TICK`, which takes nothing. Another word isn't built, and what a word doesn't take is a fault of form. Memory is wanted
/// for what asks for a request alone.
pub(crate) fn read_act(alloc: Global, text: &[u8]) -> Result<Input, AllocError>
    ensures input { IfOk result (λ input. input ≡ act_of text.now) }
    ensures no_memory { OnErr result (WantsMemory (act_of text.now)) }
{
    match cut_at_blank(text) {
        None if text == TICK => Input::asking(alloc, Request::Tick),
        None => Ok(malformed_act(text)),
        Some((word, rest)) if word == LINE => read_line_act(alloc, rest),
        Some((word, rest)) if word == FILL => read_fill_act(alloc, rest),
        Some((word, rest)) if word == DROP => read_drop_act(alloc, rest),
        Some((word, rest)) if word == STEP => Ok(step_act(alloc, step_number(rest))),
        Some((word, rest)) if word == MARK => read_mark_act(alloc, rest),
        Some((word, rest)) if word == DONE => read_done_act(alloc, rest),
        Some((word, _)) => Ok(malformed_act(word)),
    }
}

// An act whose word is or isn't built, and takes something else.
fn malformed_act(word: &[u8]) -> Input
    ensures { result ≡ malformed_act word.now }
{
    if is_act_word(word) {
        fault(ParseKind::Form)
    } else {
        fault(ParseKind::NotBuilt)
    }
}

// A file's name, a blank and how many lines.
fn read_fill_act(alloc: Global, text: &[u8]) -> Result<Input, AllocError>
    ensures input { IfOk result (λ input. input ≡ fill_act (cut_at_blank text.now)) }
    ensures no_memory { OnErr result (WantsMemory (fill_act (cut_at_blank text.now))) }
{
    let Some((file, lines)) = cut_at_blank(text) else {
        return Ok(fault(ParseKind::Form));
    };
    let Some(file) = FileName::read(file) else {
        return Ok(fault(ParseKind::Form));
    };
    match plain_number_up_to(FILL_LIMIT, lines) {
        None | Some(0) => Ok(fault(ParseKind::Form)),
        Some(lines) => {
            let lines = lines as u16;
            Input::asking(alloc, Request::Fill { file, lines })
        }
    }
}

// A file's name.
fn read_drop_act(alloc: Global, text: &[u8]) -> Result<Input, AllocError>
    ensures input { IfOk result (λ input. input ≡ drop_act (file_name_of text.now)) }
    ensures no_memory { OnErr result (WantsMemory (drop_act (file_name_of text.now))) }
{
    match FileName::read(text) {
        Some(file) => Input::asking(alloc, Request::Drop { file }),
        None => Ok(fault(ParseKind::Form)),
    }
}

/// How many steps a text asks for, if it is one of 1 to 100,000.
pub(crate) fn step_number(text: &[u8]) -> Option<u32>
    ensures { result ≡ step_number text.now }
{
    match plain_number_up_to(STEP_LIMIT, text) {
        None | Some(0) => None,
        Some(steps) => Some(steps as u32),
    }
}

// The runs of the node, where a number of steps is given.
fn step_act(alloc: Global, steps: Option<u32>) -> Input
    ensures { result ≡ step_act steps }
{
    match steps {
        None => fault(ParseKind::Form),
        Some(_) => Input::Fetch {
            known: Seq::new(alloc),
        },
    }
}

// The mark that a text is, if it has 1 to 255 bytes.
fn read_mark(text: &[u8]) -> Option<Mark>
    ensures { result ≡ (if is_mark text.now then Some text.now else None) }
{
    if text.is_empty() {
        return None;
    }
    match Mark::new(text) {
        Ok(mark) => Some(mark),
        Err(_) => None,
    }
}

// The number of a run, a blank and its mark, which is all that stands behind.
fn read_mark_act(alloc: Global, text: &[u8]) -> Result<Input, AllocError>
    ensures input { IfOk result (λ input. input ≡ mark_act (cut_at_blank text.now)) }
    ensures no_memory { OnErr result (WantsMemory (mark_act (cut_at_blank text.now))) }
{
    let Some((run, mark)) = cut_at_blank(text) else {
        return Ok(fault(ParseKind::Form));
    };
    let Some(run) = plain_number_up_to(u64::MAX, run) else {
        return Ok(fault(ParseKind::Form));
    };
    let Some(value) = read_mark(mark) else {
        return Ok(fault(ParseKind::Form));
    };
    Input::asking(alloc, Request::Mark { run, value })
}

// The number of a run, a blank and its status.
fn read_done_act(alloc: Global, text: &[u8]) -> Result<Input, AllocError>
    ensures input { IfOk result (λ input. input ≡ done_act (cut_at_blank text.now)) }
    ensures no_memory { OnErr result (WantsMemory (done_act (cut_at_blank text.now))) }
{
    let Some((run, status)) = cut_at_blank(text) else {
        return Ok(fault(ParseKind::Form));
    };
    let Some(run) = plain_number_up_to(u64::MAX, run) else {
        return Ok(fault(ParseKind::Form));
    };
    let Some(status) = plain_number_up_to(u64::from(u32::MAX), status) else {
        return Ok(fault(ParseKind::Form));
    };
    let status = status as u32;
    Input::asking(alloc, Request::Done { run, status })
}

// A file's name, a blank and a line.
fn read_line_act(alloc: Global, text: &[u8]) -> Result<Input, AllocError>
    ensures input { IfOk result (λ input. input ≡ line_act (cut_at_blank text.now)) }
    ensures no_memory { OnErr result (WantsMemory (line_act (cut_at_blank text.now))) }
{
    let Some((file, line)) = cut_at_blank(text) else {
        return Ok(fault(ParseKind::Form));
    };
    let Some(file) = FileName::read(file) else {
        return Ok(fault(ParseKind::Form));
    };
    let bytes = Seq::of(ended(alloc, line)?);
    Input::asking(alloc, Request::Append { file, bytes })
}

// The line with a line feed.
fn ended(alloc: Global, line: &[u8]) -> Result<Vec<u8>, AllocError>
    ensures { IfOk result (λ bytes. bytes.items ≡ line.now ++ 10 ∷ []) }
{
    let mut bytes = Vec::from_slice(alloc, line)?;
    bytes.push(b'\n')?;
    Ok(bytes)
}

/// A text is wrong from its first byte on.
pub(crate) fn fault(kind: ParseKind) -> Input
    ensures { result ≡ Input.Fault 0 kind }
{
    Input::Fault { place: 0, kind }
}
