// Numbers as they stand in the text of a time.
ghost use Rattle.std.specs.Prelude.{◌≡◌, ◌<◌, ◌≤◌, ◌+◌, ◌*◌, length, true, IfSome, IfOk};
ghost use Rattle.qm_time.specs.Numbers.{stands, ends, digit_at, one_digit_at, with_digit, number_at, long_number_at, next_digit, two_digits_at, four_digits_at, IsWithin};

use crate::fault::TimeFault;

/// A number that stands in a text, and the place behind it.
#[derive(Clone, Copy)]
pub(crate) struct Number {
    pub value: u64,
    pub end: usize,
}

/// Whether a byte stands at a place.
#[tactic(auto, unfolding(crate::specs::Numbers::stands))]
pub(crate) fn stands(text: &[u8], place: usize, byte: u8) -> bool
    ensures value { result ≡ stands text.now place byte }
    ensures inside { result ≡ true → place < length text.now }
{
    match text.get(place) {
        Some(found) => *found == byte,
        None => false,
    }
}

/// Whether a text ends at a place.
#[tactic(auto, unfolding(crate::specs::Numbers::ends))]
pub(crate) fn ends(text: &[u8], place: usize) -> bool
    ensures { result ≡ ends text.now place }
{
    text.get(place).is_none()
}

/// The digit at a place.
#[tactic(auto, unfolding(crate::specs::Numbers::digit_at))]
pub(crate) fn digit_at(text: &[u8], place: usize) -> Option<u64>
    ensures value { result ≡ digit_at text.now place }
    ensures low { IfSome result (λ d. d ≤ 9) }
    ensures inside { IfSome result (λ _. place < length text.now) }
{
    let byte = *text.get(place)?;
    if byte.is_ascii_digit() {
        Some((byte - b'0') as u64)
    } else {
        None
    }
}

/// A number of one digit.
#[tactic(auto, unfolding(crate::specs::Numbers::one_digit_at))]
fn one_digit_at(text: &[u8], place: usize) -> Result<Number, TimeFault>
    ensures value { result ≡ one_digit_at text.now place }
    ensures within { IfOk result (IsWithin 9 text.now) }
{
    match digit_at(text, place) {
        Some(value) => Ok(Number {
            value,
            end: place + 1,
        }),
        None => Err(TimeFault::Form { place }),
    }
}

/// The number with the digit that stands behind it, where it stays within `most`.
#[tactic(auto, unfolding(crate::specs::Numbers::with_digit))]
fn with_digit(text: &[u8], number: Number, most: u64) -> Number
    requires few { most ≤ 9999 }
    requires within { IsWithin most text.now number }
    ensures value { result ≡ with_digit most text.now number }
    ensures within { IsWithin most text.now result }
{
    let Some(digit) = digit_at(text, number.end) else {
        return number;
    };
    let value = 10 * number.value + digit;
    if value > most {
        return number;
    }
    Number {
        value,
        end: number.end + 1,
    }
}

/// A number of one or two digits, up to `most`.
#[tactic(auto, unfolding(crate::specs::Numbers::number_at))]
pub(crate) fn number_at(text: &[u8], place: usize, most: u64) -> Result<Number, TimeFault>
    requires some { 9 ≤ most }
    requires few { most ≤ 99 }
    ensures value { result ≡ number_at most text.now place }
    ensures within { IfOk result (IsWithin most text.now) }
{
    let first = one_digit_at(text, place)?;
    Ok(with_digit(text, first, most))
}

/// A number of one to four digits.
#[tactic(auto, unfolding(crate::specs::Numbers::long_number_at))]
pub(crate) fn long_number_at(text: &[u8], place: usize) -> Result<Number, TimeFault>
    ensures value { result ≡ long_number_at text.now place }
    ensures within { IfOk result (IsWithin 9999 text.now) }
{
    let one = one_digit_at(text, place)?;
    let two = with_digit(text, one, 9999);
    let three = with_digit(text, two, 9999);
    Ok(with_digit(text, three, 9999))
}

/// The number with a further digit, which must stand behind it.
#[tactic(auto, unfolding(crate::specs::Numbers::next_digit))]
fn next_digit(text: &[u8], number: Number) -> Result<Number, TimeFault>
    requires few { number.value ≤ 999 }
    ensures value { result ≡ next_digit text.now number }
    ensures within { IfOk result (IsWithin (10 * number.value + 9) text.now) }
{
    let digit = one_digit_at(text, number.end)?;
    Ok(Number {
        value: 10 * number.value + digit.value,
        end: digit.end,
    })
}

/// A number of exactly two digits.
#[tactic(auto, unfolding(crate::specs::Numbers::two_digits_at))]
pub(crate) fn two_digits_at(text: &[u8], place: usize) -> Result<Number, TimeFault>
    ensures value { result ≡ two_digits_at text.now place }
    ensures within { IfOk result (IsWithin 99 text.now) }
{
    let first = one_digit_at(text, place)?;
    next_digit(text, first)
}

/// A number of exactly four digits.
#[tactic(auto, unfolding(crate::specs::Numbers::four_digits_at))]
pub(crate) fn four_digits_at(text: &[u8], place: usize) -> Result<Number, TimeFault>
    ensures value { result ≡ four_digits_at text.now place }
    ensures within { IfOk result (IsWithin 9999 text.now) }
{
    let two = two_digits_at(text, place)?;
    let three = next_digit(text, two)?;
    next_digit(text, three)
}
