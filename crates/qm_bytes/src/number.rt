// Numbers, the lowest byte first.
ghost use Rattle.std.specs.Prelude.{◌≡◌, ◌+◌, ◌^◌, ◌<◌, ◌≤◌, ◌++◌, ◌↔◌, IfOk, OnOk, OnErr, IsErrOf, IsSome, IfSome, length};
ghost use Rattle.qm_bytes.specs.Spelling.{low_first};
ghost use Rattle.qm_bytes.specs.Widths.{bytes_of};
ghost use Rattle.qm_bytes.specs.Reading.{Gives, Splits, byte_where, between, number_up_to, number_at};
ghost use Rattle.qm_bytes.specs.Splitting.{StandsBetween, IsSplit};

use crate::fault::BadField;
use crate::width::Width;
use std::alloc::AllocError;

/// Appends a number, the lowest byte first.
pub fn put_number(out: &mut Vec<u8>, width: Width, value: u64) -> Result<(), AllocError>
    requires { value < 256 ^ bytes_of width }
    ensures ok { OnOk result (out.new.items ≡ out.old.items ++ low_first (bytes_of width) value) }
    ensures err { OnErr result (out.new.items ≡ out.old.items) }
{
    let bytes = value.to_le_bytes();
    out.extend_from_slice(&bytes[..width.bytes()])
}

/// The number that stands at a place, and the place behind it. There is none exactly where fewer bytes are left.
pub fn take_number(bytes: &[u8], at: usize, width: Width) -> Option<(u64, usize)>
    ensures there { IsSome result ↔ (at + bytes_of width ≤ length bytes.now) }
    ensures spelled { IfSome result (λ found. StandsBetween at found.1
        (low_first (bytes_of width) found.0) bytes.now) }
    ensures fits { IfSome result (λ found. found.0 < 256 ^ bytes_of width) }
    ensures next { IfSome result (λ found. found.1 ≡ at + bytes_of width) }
{
    if bytes.len() < at {
        return None;
    }
    let (_, rest) = bytes.split_at(at);
    match number_at(rest, width) {
        Ok((number, _)) => Some((number, at + width.bytes())),
        Err(_) => None,
    }
}

// A byte from one value to another, and the bytes behind it.
pub(crate) fn byte_between(bytes: &[u8], low: u8, high: u8) -> Result<(u8, &[u8]), BadField>
    ensures { Splits (λ x. (x.0, x.1.now)) result (byte_where (between low high) bytes.now) }
{
    match bytes {
        [] => Err(BadField { left: 0 }),
        [byte, rest @ ..] => {
            if low <= *byte && *byte <= high {
                Ok((*byte, rest))
            } else {
                Err(BadField { left: bytes.len() })
            }
        }
    }
}

// The number that one byte spells, and the bytes behind it.
fn split_one(bytes: &[u8]) -> Option<(u64, &[u8])>
    ensures { IfSome result (λ x. IsSplit 1 bytes.now x.0 x.1.now) }
{
    match bytes {
        [] => None,
        [byte, rest @ ..] => Some((u64::from(*byte), rest)),
    }
}

// The number that two bytes spell, and the bytes behind them.
fn split_two(bytes: &[u8]) -> Option<(u64, &[u8])>
    ensures { IfSome result (λ x. IsSplit 2 bytes.now x.0 x.1.now) }
{
    let (front, rest) = bytes.split_first_chunk::<2>()?;
    Some((u64::from(u16::from_le_bytes(*front)), rest))
}

// The number that four bytes spell, and the bytes behind them.
fn split_four(bytes: &[u8]) -> Option<(u64, &[u8])>
    ensures { IfSome result (λ x. IsSplit 4 bytes.now x.0 x.1.now) }
{
    let (front, rest) = bytes.split_first_chunk::<4>()?;
    Some((u64::from(u32::from_le_bytes(*front)), rest))
}

// The number that eight bytes spell, and the bytes behind them.
fn split_eight(bytes: &[u8]) -> Option<(u64, &[u8])>
    ensures { IfSome result (λ x. IsSplit 8 bytes.now x.0 x.1.now) }
{
    let (front, rest) = bytes.split_first_chunk::<8>()?;
    Some((u64::from_le_bytes(*front), rest))
}

// The number that so many bytes spell, and the bytes behind them, where there are so many.
fn split_number(bytes: &[u8], width: Width) -> Option<(u64, &[u8])>
    ensures { IfSome result (λ x. IsSplit (bytes_of width) bytes.now x.0 x.1.now) }
{
    match width {
        Width::One => split_one(bytes),
        Width::Two => split_two(bytes),
        Width::Four => split_four(bytes),
        Width::Eight => split_eight(bytes),
    }
}

// A number that is at most a limit. Where there is none, the bytes are gone through one by one for the first that is wrong.
fn number_up_to(bytes: &[u8], width: Width, limit: u64) -> Result<(u64, &[u8]), BadField>
    ensures value { Splits (λ x. (x.0, x.1.now)) result
        (number_up_to (bytes_of width) limit bytes.now) }
    ensures within { IfOk result (λ x. x.0 ≤ limit) }
{
    match split_number(bytes, width) {
        Some((number, rest)) if number <= limit => Ok((number, rest)),
        _ => low_bytes_up_to(bytes, width.bytes(), limit),
    }
}

// The same of any number of bytes. The bytes behind the first are a number too, and stand for 256 times as much.
#[tactic(auto, using(crate::proofs::Numbers::no_byte, crate::proofs::Numbers::first_byte))]
fn low_bytes_up_to(bytes: &[u8], count: usize, limit: u64) -> Result<(u64, &[u8]), BadField>
    ensures value { Splits (λ x. (x.0, x.1.now)) result (number_up_to count limit bytes.now) }
    ensures within { IfOk result (λ x. x.0 ≤ limit) }
{
    if count == 0 {
        return Ok((0, bytes));
    }
    let (low, rest) = byte_between(bytes, 0, limit.min(255) as u8)?;
    let low = u64::from(low);
    let (high, rest) = low_bytes_up_to(rest, count - 1, (limit - low) / 256)?;
    Ok((low + 256 * high, rest))
}

// Any number.
fn number_at(bytes: &[u8], width: Width) -> Result<(u64, &[u8]), BadField>
    ensures value { Splits (λ x. (x.0, x.1.now)) result (number_at (bytes_of width) bytes.now) }
    ensures fits { IfOk result (λ x. x.0 < 256 ^ bytes_of width) }
{
    let limit = match width {
        Width::One => 0xff,
        Width::Two => 0xffff,
        Width::Four => 0xffff_ffff,
        Width::Eight => u64::MAX,
    };
    number_up_to(bytes, width, limit)
}

/// Reads a byte from one value to another.
pub fn read_byte(bytes: &mut &[u8], low: u8, high: u8) -> Result<u8, BadField>
    ensures { Gives result bytes.new.now (byte_where (between low high) bytes.old.now) }
{
    let (byte, rest) = byte_between(bytes, low, high)?;
    *bytes = rest;
    Ok(byte)
}

/// Reads a number.
pub fn read_number(bytes: &mut &[u8], width: Width) -> Result<u64, BadField>
    ensures value { Gives result bytes.new.now (number_at (bytes_of width) bytes.old.now) }
    ensures fits { IfOk result (λ n. n < 256 ^ bytes_of width) }
{
    let (number, rest) = number_at(bytes, width)?;
    *bytes = rest;
    Ok(number)
}

/// Reads a number that is at most a limit. A greater one stops at the first byte that makes it greater, whatever stands
/// behind.
pub fn read_number_up_to(bytes: &mut &[u8], width: Width, limit: u64) -> Result<u64, BadField>
    ensures value { Gives result bytes.new.now (number_up_to (bytes_of width) limit bytes.old.now) }
    ensures within { IfOk result (λ n. n ≤ limit) }
{
    let (number, rest) = number_up_to(bytes, width, limit)?;
    *bytes = rest;
    Ok(number)
}
