// Where a batch run is in its text, and the lines there. No list of lines is made: a cursor is a byte of the text.
ghost use Rattle.std.specs.Prelude.{◌≡◌, ◌≤◌, ◌<◌, [], length, take, drop, option_map, MatchOption, IfSome, position};
ghost use Rattle.qm_kinds.specs.declared.entry.JobKind.TheVariants.{Batch};
ghost use Rattle.qm_model.specs.Common.{Work, lines, begin};
ghost use Rattle.qm_model.specs.Batch.{place_of_label};
ghost use Rattle.qm_symb.specs.TextParts.{part_in_front, part_behind};
ghost use Rattle.qm_symb.specs.BatchCursors.{is_line_feed, IsInText, IsLineAt, Stands};

use crate::batch::line::is_label_line;
use crate::text::LINE_FEED;
use qm_kinds::TEXT_LIMIT;

/// Where a batch run is in its text: in front of a line, or behind the last one. It belongs to the work that it was
/// made for.
#[derive(Clone, Copy, Debug)]
pub struct Cursor {
    // How many lines stand in front of it.
    pub(crate) line: u32,
    // The byte of the text, from 0, at which its line begins.
    pub(crate) byte: usize,
}

/// A line, without its line feed, and the cursor behind it.
#[derive(Clone, Copy)]
pub(crate) struct LineAt<'a> {
    pub line: &'a [u8],
    pub next: Cursor,
}

// How many bytes the first line of a text has, and where the text goes on behind it and its line feed.
#[derive(Clone, Copy)]
struct FirstLine {
    bytes: usize,
    next: usize,
}

const FIRST: Cursor = Cursor { line: 0, byte: 0 };

/// The cursor in front of the first line, where each run of a batch job begins.
pub fn batch_begin() -> Cursor
    ensures { (w : Work) → w.kind ≡ Batch → Stands w (begin w) result }
{
    FIRST
}

// The place of the first line feed.
fn line_end(text: &[u8]) -> Option<usize>
    ensures { result ≡ position is_line_feed text.now }
{
    text.iter().position(|byte| *byte == LINE_FEED)
}

// The first line of a text.
fn first_line(text: &[u8]) -> FirstLine
    ensures line { take result.bytes text.now ≡ part_in_front 10 text.now }
    ensures rest { drop result.next text.now ≡ part_behind 10 text.now }
    ensures bytes { result.bytes ≤ length text.now }
    ensures inside { result.next ≤ length text.now }
    ensures moves { 0 < length text.now → 0 < result.next }
{
    match line_end(text) {
        Some(place) => FirstLine {
            bytes: place,
            next: place + 1,
        },
        None => FirstLine {
            bytes: text.len(),
            next: text.len(),
        },
    }
}

/// The line at a cursor and the cursor behind it, or none behind the last line.
pub(crate) fn line_at(text: &[u8], at: Cursor) -> Option<LineAt>
    requires short { length text.now ≤ TEXT_LIMIT }
    requires in_text { IsInText text.now at }
    ensures { MatchOption result (drop at.line (lines text.now) ≡ [])
        (λ found. IsLineAt text.now at found.line.now found.next) }
{
    let rest = &text[at.byte..];
    if rest.is_empty() {
        return None;
    }
    let first = first_line(rest);
    Some(LineAt {
        line: &rest[..first.bytes],
        next: Cursor {
            line: at.line + 1,
            byte: at.byte + first.next,
        },
    })
}

/// The cursor in front of the first line that is this label. It walks the text once.
pub(crate) fn find_label(text: &[u8], label: &[u8]) -> Option<Cursor>
    requires { length text.now ≤ TEXT_LIMIT }
    ensures place { option_map (λ found. found.line) result
        ≡ place_of_label label.now (lines text.now) }
    ensures in_text { IfSome result (λ found. IsInText text.now found) }
{
    let mut here = FIRST;
    while let Some(found) = line_at(text, here) {
        if is_label_line(label, found.line) {
            return Some(here);
        }
        here = found.next;
    }
    None
}
