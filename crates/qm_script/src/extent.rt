// How far the text of a line goes, which may go on in the next line.
ghost use Rattle.std.specs.Prelude.{◌≡◌, ◌==◌, ◌+◌, ◌≤◌, ◌<◌, true, length, position, IfOk, IfSome};
ghost use Rattle.std.specs.List.{list_all};
ghost use Rattle.qm_history.specs.Common.{TEXT_LIMIT, is_line_byte};
ghost use Rattle.qm_script.specs.Extents.{GoesOn, IsFirstLine, joined};

use std::alloc::{AllocError, Global};

/// A text of a script, as far as it goes.
#[derive(Clone, Copy)]
pub(crate) struct Extent<'a> {
    /// Each `-` and line feed at which the text goes on stand in it.
    pub(crate) text: &'a [u8],
    /// What stands behind the line feed that ends it; nothing, where none does.
    pub(crate) rest: &'a [u8],
    /// How many line feeds stand in front of the rest.
    pub(crate) lines: u32,
    /// Whether a line feed ends it.
    pub(crate) is_ended: bool,
}

// The place of the first line feed.
fn line_feed(text: &[u8]) -> Option<usize>
    ensures value { result ≡ position (λ b. b == 10) text.now }
    ensures within { IfSome result (λ place. place < length text.now) }
{
    text.iter().position(|b| *b == b'\n')
}

/// The first line of a script, or what there is of it.
pub(crate) fn first_line(script: &[u8]) -> Extent<'_>
    ensures { IsFirstLine script.now result }
{
    match line_feed(script) {
        None => Extent {
            text: script,
            rest: &[],
            lines: 0,
            is_ended: false,
        },
        Some(place) => Extent {
            text: &script[..place],
            rest: &script[place + 1..],
            lines: 1,
            is_ended: true,
        },
    }
}

/// The text of a command with which a script begins, which goes on behind each line that ends in `-`.
pub(crate) fn whole_text(script: &[u8]) -> Extent<'_>
    requires { length script.now ≤ TEXT_LIMIT }
    ensures text { GoesOn script.now result }
    ensures within { result.lines + length result.rest.now ≤ length script.now }
    ensures ended { result.is_ended ≡ true → length result.rest.now < length script.now }
{
    let mut at = 0;
    let mut lines = 0;
    while let Some(place) = line_feed(&script[at..]) {
        let end = at + place;
        lines += 1;
        if !script[at..end].ends_with(b"-") {
            return Extent {
                text: &script[..end],
                rest: &script[end + 1..],
                lines,
                is_ended: true,
            };
        }
        at = end + 1;
    }
    Extent {
        text: script,
        rest: &[],
        lines,
        is_ended: false,
    }
}

// Whether a byte can be printed, or is a blank.
fn is_line_byte(b: u8) -> bool
    ensures { result ≡ is_line_byte b }
{
    32 <= b && b <= 126
}

/// Whether each byte of a text can be printed, or is a blank.
pub(crate) fn are_of_line(text: &[u8]) -> bool
    ensures { result ≡ list_all is_line_byte text.now }
{
    text.iter().all(|b| 32 <= *b && *b <= 126)
}

// The same of a text that may go on, but for the bytes at which it goes on.
#[inline(never)]
fn is_joined_of_line(text: &[u8]) -> bool
    ensures { result ≡ list_all is_line_byte (joined text.now) }
{
    let mut rest = text;
    while let [b, behind @ ..] = rest {
        match rest {
            [b'-', b'\n', more @ ..] => rest = more,
            _ => {
                if !is_line_byte(*b) {
                    return false;
                }
                rest = behind;
            }
        }
    }
    true
}

/// Whether each byte of a text that may go on can be printed, or is a blank, but for those at which it goes on.
#[tactic(auto, using(crate::proofs::Joining::joined_of_line))]
pub(crate) fn is_of_line(text: &[u8]) -> bool
    ensures { result ≡ list_all is_line_byte (joined text.now) }
{
    are_of_line(text) || is_joined_of_line(text)
}

/// A text without each `-` and line feed at which it goes on. Memory may run out.
pub fn joined(alloc: Global, text: &[u8]) -> Result<Vec<u8>, AllocError>
    ensures { IfOk result (λ whole. whole.items ≡ joined text.now) }
{
    let mut whole = Vec::new(alloc);
    let mut rest = text;
    while let [b, behind @ ..] = rest {
        match rest {
            [b'-', b'\n', more @ ..] => rest = more,
            _ => {
                whole.push(*b)?;
                rest = behind;
            }
        }
    }
    Ok(whole)
}
