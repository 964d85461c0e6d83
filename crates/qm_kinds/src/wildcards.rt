// Whether a pattern with wildcards matches a text. A row says of each end of the text whether an end of the pattern
// matches it, and the rows are made from the pattern's last byte to its first: a fixed amount of work for each byte of
// the pattern and each of the text.
ghost use Rattle.std.specs.Prelude.{◌≡◌, ◌<◌, ◌∷◌, [], ℕ, List, length};
ghost use Rattle.qm_kinds.specs.Wildcards.{matches as matches_of};
ghost use Rattle.qm_kinds.specs.MatchRows.{IsRowOf, IsRowBeforeStar, IsRowBeforeByte, fits_byte};

// A row for texts of at most 39 bytes: a text of `n` bytes has `n + 1` ends.
type Row = [bool; 40];

/// Whether the pattern matches the text.
pub(crate) fn matches(pattern: &[u8], text: &[u8]) -> bool
    requires { length text.now < 40 }
    ensures { result ≡ matches_of pattern.now text.now }
{
    let mut row = empty_row(text.len());
    for i in (0..pattern.len()).rev() {
        row = row_before(pattern[i], text, &row);
    }
    row[0]
}

// The row of the empty pattern, which matches the empty text alone.
fn empty_row(last: usize) -> Row
    requires { last < 40 }
    ensures { (text : List ℕ) → length text ≡ last → IsRowOf [] text result }
{
    let mut row = [false; 40];
    row[last] = true;
    row
}

// The row of the pattern with one more byte in front.
fn row_before(byte: u8, text: &[u8], row: &Row) -> Row
    requires { length text.now < 40 }
    ensures { (rest : List ℕ) → IsRowOf rest text.now row.now → IsRowOf (byte ∷ rest) text.now result }
{
    if byte == b'*' {
        row_before_star(text.len(), row)
    } else {
        row_before_byte(byte, text, row)
    }
}

fn row_before_star(last: usize, row: &Row) -> Row
    requires { last < 40 }
    ensures { IsRowBeforeStar last row.now result }
{
    let mut before = [false; 40];
    let mut any = false;
    for k in (0..last + 1).rev() {
        any |= row[k];
        before[k] = any;
    }
    before
}

// Whether a byte of a pattern that isn't `*` stands for a byte.
fn fits(pattern: u8, byte: u8) -> bool
    ensures { result ≡ fits_byte pattern byte }
{
    pattern == b'%' || pattern == byte
}

fn row_before_byte(byte: u8, text: &[u8], row: &Row) -> Row
    requires { length text.now < 40 }
    ensures { IsRowBeforeByte byte text.now row.now result }
{
    let mut before = [false; 40];
    for (k, b) in text.iter().enumerate() {
        before[k] = fits(byte, *b) && row[k + 1];
    }
    before
}
