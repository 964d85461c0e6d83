// The columns of an entry that stand before its status, made in place.
ghost use Rattle.std.specs.Prelude.{◌≡◌, ◌≤◌, ◌+◌, ◌-◌, ◌++◌, length, replicate, decimal, codes};
ghost use Rattle.qm_kinds.specs.Text.{IsText, is_name_byte};
ghost use Rattle.qm_model.specs.Words.{at_left, at_right};
ghost use Rattle.qm_show.specs.Columns.{columns_text};

use arrayvec::ArrayString;
use qm_kinds::{ListedEntry, Name};

// As many blanks as the widest column has places.
const BLANKS: &str = "                ";

// The name as text. Each of its bytes is a character, so that it takes as many places as it has bytes.
pub(crate) fn characters(name: &Name) -> &str
    ensures value { result.now ≡ name.now }
    ensures lawful { IsText is_name_byte name.now }
{
    let _bytes = name.as_bytes();
    name.as_str()
}

// The blanks that fill a column of so many places, beside a text of so many bytes.
fn blanks_beside(width: usize, len: usize) -> &'static str
    requires { width ≤ 16 }
    ensures { result.now ≡ replicate (width - len) 32 }
{
    &BLANKS[..width.saturating_sub(len)]
}

// Appends a number at the right of so many places, and a blank.
fn push_number(text: &mut ArrayString<112>, number: u32, width: usize)
    requires room { length text.old.bytes ≤ 101 }
    requires narrow { width ≤ 10 }
    ensures text { text.new.bytes ≡ text.old.bytes ++ at_right width (decimal number) ++ codes " " }
    ensures few { length text.new.bytes ≤ length text.old.bytes + 11 }
{
    let mut buffer = itoa::Buffer::new();
    let digits = buffer.format(number);
    text.push_str(blanks_beside(width, digits.len()));
    text.push_str(digits);
    text.push_str(" ");
}

// Appends a name at the left of so many places, and a blank.
fn push_name(text: &mut ArrayString<112>, name: &str, width: usize)
    requires lawful { IsText is_name_byte name.now }
    requires room { length text.old.bytes ≤ 72 }
    requires narrow { width ≤ 16 }
    ensures text { text.new.bytes ≡ text.old.bytes ++ at_left width name.now ++ codes " " }
    ensures few { length text.new.bytes ≤ length text.old.bytes + 40 }
{
    text.push_str(name);
    text.push_str(blanks_beside(width, name.len()));
    text.push_str(" ");
}

// The columns: two numbers of at most ten digits, two names of at most 39 bytes, and a blank behind each.
pub(crate) fn columns_of(entry: &ListedEntry) -> ArrayString<112>
    ensures { result.bytes ≡ columns_text entry.now }
{
    let mut text = ArrayString::new();
    push_number(&mut text, entry.number(), 6);
    push_name(&mut text, entry.name(), 16);
    push_name(&mut text, entry.user(), 12);
    push_number(&mut text, entry.size(), 8);
    text
}
