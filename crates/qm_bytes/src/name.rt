// Names, with a byte of length in front.
ghost use Rattle.std.specs.Prelude.{◌≡◌, ◌+◌, ◌<◌, ◌≤◌, ◌++◌, ◌∷◌, take, drop, length, IfOk, OnOk, OnErr, IsErrOf, IfSome, IfNone, ℕ, List, IsTrue};
ghost use Rattle.qm_kinds.specs.Text.{is_name_byte};
ghost use Rattle.qm_bytes.specs.Spelling.{short_bytes, IsName, file_name, IsFileName};
ghost use Rattle.qm_bytes.specs.Reading.{Gives, Splits, byte_where, name_bytes_at, name_at, optional_at, file_name_at};
ghost use Rattle.qm_bytes.specs.Splitting.{StandsBetween, IsAhead, IsInFront};

use crate::fault::BadField;
use crate::number::byte_between;
use qm_kinds::{Name, is_name_byte};
use std::alloc::AllocError;

/// Appends a name: a byte of length, and its bytes.
pub fn put_name(out: &mut Vec<u8>, name: &Name) -> Result<(), AllocError>
    ensures ok { OnOk result (out.new.items ≡ out.old.items ++ short_bytes name.now) }
    ensures lawful { IsName name.now }
    ensures err { OnErr result (out.new.items ≡ out.old.items) }
{
    let text = name.as_bytes();
    out.push(text.len() as u8)?;
    if let Err(fault) = out.extend_from_slice(text) {
        let _ = out.pop();
        return Err(fault);
    }
    Ok(())
}

/// The name whose spelling stands at a place, and the place behind it. There is none exactly where no name's spelling
/// stands there.
pub fn take_name(bytes: &[u8], at: usize) -> Option<(Name, usize)>
    ensures lawful { IfSome result (λ found. IsName found.0) }
    ensures spelled { IfSome result (λ found. StandsBetween at found.1
        (short_bytes found.0) bytes.now) }
    ensures next { IfSome result (λ found. found.1 ≡ at + 1 + length found.0) }
    ensures within { IfSome result (λ found. found.1 ≤ length bytes.now) }
    ensures none { IfNone result ((name rest : List ℕ) → IsName name
        → drop at bytes.now ≡ short_bytes name ++ rest → ⊥) }
{
    if bytes.len() < at {
        return None;
    }
    let (_, rest) = bytes.split_at(at);
    match name_at(rest) {
        Ok(found) => Some((found.0, at + 1 + found.0.as_bytes().len())),
        Err(_) => None,
    }
}

// The name that so many bytes in front are as they stand, if they are one.
fn name_ahead(bytes: &[u8], count: usize) -> Option<Name>
    ensures { IfSome result (λ name. IsAhead count name bytes.now) }
{
    if bytes.len() < count {
        return None;
    }
    let (front, _) = bytes.split_at(count);
    Name::of_bytes(front)
}

// The name whose spelling stands in front, if one does.
fn spelled_name(bytes: &[u8]) -> Option<Name>
    ensures front { IfSome result (λ name. IsInFront name bytes.now) }
    ensures within { IfSome result (λ name. length name + 1 ≤ length bytes.now) }
{
    match bytes {
        [] => None,
        [size, rest @ ..] => name_ahead(rest, usize::from(*size)),
    }
}

/// Reads a name.
pub fn read_name(bytes: &mut &[u8]) -> Result<Name, BadField>
    ensures { Gives result bytes.new.now (name_at bytes.old.now) }
{
    match spelled_name(bytes) {
        Some(name) => {
            let (_, rest) = bytes.split_at(name.as_bytes().len() + 1);
            *bytes = rest;
            Ok(name)
        }
        None => read_bytewise(bytes),
    }
}

// Reads a name byte by byte, for the first that is wrong.
#[cold]
#[inline(never)]
fn read_bytewise(bytes: &mut &[u8]) -> Result<Name, BadField>
    ensures { Gives result bytes.new.now (name_at bytes.old.now) }
{
    match name_at(bytes) {
        Ok((name, rest)) => {
            *bytes = rest;
            Ok(name)
        }
        Err(fault) => Err(fault),
    }
}

// A name, and the bytes behind it.
#[tactic(auto, using(crate::proofs::Names::read_again), unfolding(crate::specs::Reading::name_at))]
fn name_at(bytes: &[u8]) -> Result<(Name, &[u8]), BadField>
    ensures { Splits (λ x. (x.0, x.1.now)) result (name_at bytes.now) }
{
    let (size, text) = byte_between(bytes, 1, 39)?;
    let size = size as usize;
    let rest = behind_name_bytes(text, size)?;
    match Name::read(&text[..size]) {
        Ok(name) => Ok((name, rest)),
        Err(_) => unreachable!(),
    }
}

// What stands behind so many bytes of a name.
#[tactic(auto, using(crate::proofs::Names::no_bytes, crate::proofs::Names::first_byte))]
fn behind_name_bytes(bytes: &[u8], count: usize) -> Result<&[u8], BadField>
    ensures value { Splits (λ rest. (take count bytes.now, rest.now)) result
        (name_bytes_at count bytes.now) }
    ensures within { OnOk result (count ≤ length bytes.now) }
{
    if count == 0 {
        return Ok(bytes);
    }
    let (_, rest) = name_byte_at(bytes)?;
    let behind = behind_name_bytes(rest, count - 1)?;
    Ok(behind)
}

// A byte of a name. A small letter is none: it isn't how a name is spelled.
fn name_byte_at(bytes: &[u8]) -> Result<(u8, &[u8]), BadField>
    ensures value { Splits (λ x. (x.0, x.1.now)) result (byte_where is_name_byte bytes.now) }
    ensures split { IfOk result (λ x. bytes.now ≡ x.0 ∷ x.1.now) }
{
    match bytes {
        [] => Err(BadField { left: 0 }),
        [byte, rest @ ..] => {
            if is_name_byte(*byte) {
                Ok((*byte, rest))
            } else {
                Err(BadField { left: bytes.len() })
            }
        }
    }
}
