// The text of a moment.
ghost use Rattle.std.specs.Prelude.{◌≡◌, ◌<◌, ◌≤◌, pos, Some, IfOk, vec_len, IsAscii};
ghost use Rattle.qm_model.specs.Calendar.{date_of_day};
ghost use Rattle.qm_model.specs.MomentText.{two_digits, four_digits, right_in_two, month_letters, clock_text, date_text, moment_text};

use crate::date::date_of_day;
use qm_kinds::{DAY, Moment};
use std::alloc::{AllocError, Global};
use std::fmt;
use std::marker::Model;

/// The text of a moment, 23 bytes as `17-NOV-1858 00:00:00.00`, in the value itself.
#[derive(Clone, Copy)]
pub struct TimeText {
    bytes: [u8; 23],
}

impl Model for TimeText {
    ghost use Rattle.std.specs.Prelude.{◌≡◌, ℕ, List, length, IsAscii};

    ghost Value = { List ℕ };

    ghost view = { λ t. t.bytes };

    ghost invariant = { λ t. (length t.bytes ≡ 23) × IsAscii t.bytes };

    ghost inverse = { λ bytes. record { bytes = bytes } };
}

impl TimeText {
    /// The text.
    #[tactic(auto, using(crate::proofs::TextLemmas::ascii_is_text))]
    pub fn as_str(&self) -> &str
        ensures { result.now ≡ self.now }
    {
        str::from_utf8(&self.bytes).unwrap()
    }
}

impl fmt::Display for TimeText {
    ghost output = { λ t. Some t };

    fn fmt<W: fmt::Write>(&self, f: &mut fmt::Formatter<W>) -> fmt::Result {
        f.pad(self.as_str())
    }
}

/// The text of a moment, with its day right in two places.
pub fn text_of(moment: Moment) -> TimeText
    ensures { result ≡ moment_text moment }
{
    let date = date_of_day((moment.hundredths() / DAY) as u32);
    let clock = (moment.hundredths() % DAY) as u32;
    let [d0, d1] = right_in_two(date.day() as u32);
    let [m0, m1, m2] = month_letters(date.month() as u32);
    let [y0, y1, y2, y3] = four_digits(date.year() as u32);
    let [h0, h1] = two_digits(clock / 360_000);
    let [n0, n1] = two_digits(clock / 6000 % 60);
    let [s0, s1] = two_digits(clock / 100 % 60);
    let [c0, c1] = two_digits(clock % 100);
    TimeText {
        bytes: [
            d0, d1, b'-', m0, m1, m2, b'-', y0, y1, y2, y3, b' ', h0, h1, b':', n0, n1, b':', s0,
            s1, b'.', c0, c1,
        ],
    }
}

// A number in two digits.
fn two_digits(n: u32) -> [u8; 2]
    requires { n < 100 }
    ensures text { result ≡ two_digits n }
    ensures ascii { IsAscii result }
{
    [b'0' + (n / 10) as u8, b'0' + (n % 10) as u8]
}

// A number in four digits.
fn four_digits(n: u32) -> [u8; 4]
    requires { n < 10000 }
    ensures text { result ≡ four_digits n }
    ensures ascii { IsAscii result }
{
    let [a, b] = two_digits(n / 100);
    let [c, d] = two_digits(n % 100);
    [a, b, c, d]
}

// A number right in two places.
fn right_in_two(n: u32) -> [u8; 2]
    requires { n < 100 }
    ensures text { result ≡ right_in_two n }
    ensures ascii { IsAscii result }
{
    let [tens, ones] = two_digits(n);
    if n < 10 { [b' ', ones] } else { [tens, ones] }
}

// The letters of a month.
#[tactic(auto, unfolding(qm_model::specs::MomentText::month_letters))]
pub(crate) fn month_letters(month: u32) -> [u8; 3]
    ensures text { result ≡ month_letters month }
    ensures ascii { IsAscii result }
{
    match month {
        1 => *b"JAN",
        2 => *b"FEB",
        3 => *b"MAR",
        4 => *b"APR",
        5 => *b"MAY",
        6 => *b"JUN",
        7 => *b"JUL",
        8 => *b"AUG",
        9 => *b"SEP",
        10 => *b"OCT",
        11 => *b"NOV",
        _ => *b"DEC",
    }
}

/// The text of a moment, as bytes. Memory may run out.
pub fn print_time(alloc: Global, moment: Moment) -> Result<Vec<u8>, AllocError>
    ensures { IfOk result (λ text. text.items ≡ moment_text moment) }
{
    let text = text_of(moment);
    let mut bytes = Vec::new(alloc);
    bytes.extend_from_slice(text.as_str().as_bytes())?;
    Ok(bytes)
}
