// Lines as they are printed: cut at their ends, and where they are wider than the page.
ghost use Rattle.std.specs.Prelude.{◌≡◌, ◌<◌, ◌≤◌, ◌+◌, ◌-◌, ◌∷◌, true, length, take, drop, position};
ghost use Rattle.qm_model.specs.Pages.{columns};
ghost use Rattle.qm_symb.specs.TextParts.{ends_line, is_in_section, is_section_over, behind_line, bytes_of_line};
ghost use Rattle.qm_symb.specs.PageLines.{IsFirstLine};

use crate::text::{FORM_FEED, LINE_FEED};
use qm_kinds::Shape;

/// The first line that is printed of a text.
#[derive(Clone, Copy)]
pub(crate) struct FirstLine {
    /// How many bytes of the text it shows.
    pub shown: usize,
    /// Where the text goes on behind the line and what ends it.
    pub next: usize,
    /// Whether its section ends with it.
    pub is_last: bool,
}

/// Where a text goes on behind a line.
#[derive(Clone, Copy)]
struct Behind {
    next: usize,
    /// Whether a section ends with the line.
    is_last: bool,
}

/// The columns between the margins.
pub(crate) fn columns(shape: Shape) -> usize
    requires { shape.left + shape.right < shape.width }
    ensures value { result ≡ columns shape }
    ensures some { 0 < result }
{
    (shape.width - shape.left - shape.right) as usize
}

// The place of the first line feed or form feed.
fn line_end(text: &[u8]) -> Option<usize>
    ensures { result ≡ position ends_line text.now }
{
    text.iter()
        .position(|byte| *byte == LINE_FEED || *byte == FORM_FEED)
}

// How many bytes stand in front of the first line feed or form feed, where these are at most so many.
fn bytes_of_line(text: &[u8], most: usize) -> usize
    ensures value { result ≡ bytes_of_line most text.now }
    ensures inside { result ≤ length text.now }
{
    let seen = &text[..most.min(text.len())];
    match line_end(seen) {
        Some(place) => place,
        None => seen.len(),
    }
}

// Where a text goes on without the line feed and the form feed with which a line ends in front of it.
fn behind_line(text: &[u8]) -> Behind
    ensures rest { drop result.next text.now ≡ behind_line text.now }
    ensures last { result.is_last ≡ is_section_over text.now }
    ensures inside { result.next ≤ length text.now }
{
    match text {
        [FORM_FEED, ..] => Behind {
            next: 1,
            is_last: true,
        },
        [LINE_FEED, FORM_FEED, ..] => Behind {
            next: 2,
            is_last: true,
        },
        [LINE_FEED] => Behind {
            next: 1,
            is_last: true,
        },
        [LINE_FEED, ..] => Behind {
            next: 1,
            is_last: false,
        },
        [] => Behind {
            next: 0,
            is_last: true,
        },
        [..] => Behind {
            next: 0,
            is_last: false,
        },
    }
}

/// The first line that is printed of a text that begins in a section.
pub(crate) fn first_line(shape: Shape, text: &[u8]) -> FirstLine
    requires columns { shape.left + shape.right < shape.width }
    requires inside { is_in_section text.now ≡ true }
    ensures line { IsFirstLine shape text.now
        (take result.shown text.now) (drop result.next text.now) result.is_last }
    ensures shown { result.shown ≤ length text.now }
    ensures some { 0 < result.next }
    ensures next { result.next ≤ length text.now }
{
    let columns = columns(shape);
    let most = if shape.wrap { columns } else { text.len() };
    let bytes = bytes_of_line(text, most);
    let behind = behind_line(&text[bytes..]);
    FirstLine {
        shown: bytes.min(columns),
        next: bytes + behind.next,
        is_last: behind.is_last,
    }
}
