// Texts of a length in front, and names of files.
ghost use Rattle.std.specs.Prelude.{◌≡◌, ◌+◌, ◌<◌, ◌≤◌, ◌++◌, ◌^◌, length, OnOk, IfOk, IsErrOf, take, drop};
ghost use Rattle.qm_bytes.specs.Spelling.{short_bytes, long_bytes, file_name, optional, IsFileName, IsName, IsMark, AreLongBytes, AllOf};
ghost use Rattle.qm_bytes.specs.Reading.{Gives, GivesKept, Splits, bytes_at, long_bytes_at, mark_at, file_name_at, optional_at, name_at};

use crate::fault::BadField;
use crate::name::{put_name, read_name};
use crate::number::{put_number, read_byte, read_number};
use crate::width::Width;
use qm_kinds::{FileName, Mark, Name, Seq};
use std::alloc::{AllocError, Global};

// So many bytes, and those behind them.
fn split_bytes(bytes: &[u8], count: usize) -> Result<(&[u8], &[u8]), BadField>
    ensures value { Splits (λ x. (x.0.now, x.1.now)) result (bytes_at count bytes.now) }
    ensures count { IfOk result (λ x. length x.0.now ≡ count) }
{
    if bytes.len() < count {
        return Err(BadField { left: 0 });
    }
    Ok(bytes.split_at(count))
}

/// Appends a length of 32 bits and the bytes.
pub fn put_long_bytes(out: &mut Vec<u8>, bytes: &[u8]) -> Result<(), AllocError>
    requires { length bytes.now < 2 ^ 32 }
    ensures ok { OnOk result (out.new.items ≡ out.old.items ++ long_bytes bytes.now) }
    ensures lawful { AreLongBytes bytes.now }
{
    put_number(out, Width::Four, bytes.len() as u64)?;
    out.extend_from_slice(bytes)
}

/// Reads bytes behind their length of 32 bits. An error in it says that memory ran out for them, behind which reading goes
/// on.
#[tactic(auto, unfolding(crate::specs::Reading::long_bytes_at))]
pub fn read_long_bytes(
    alloc: Global,
    bytes: &mut &[u8],
) -> Result<Result<Seq<u8>, AllocError>, BadField>
    ensures { GivesKept result bytes.new.now (long_bytes_at bytes.old.now) }
{
    let size = read_number(bytes, Width::Four)?;
    let (text, rest) = split_bytes(bytes, size as usize)?;
    *bytes = rest;
    match Vec::from_slice(alloc, text) {
        Ok(text) => Ok(Ok(Seq::of(text))),
        Err(fault) => Ok(Err(fault)),
    }
}

/// Appends a mark: a byte of length, and its bytes.
pub fn put_mark(out: &mut Vec<u8>, mark: &Mark) -> Result<(), AllocError>
    ensures ok { OnOk result (out.new.items ≡ out.old.items ++ short_bytes mark.now) }
    ensures lawful { OnOk result (IsMark mark.now) }
{
    let bytes = mark.as_bytes();
    out.push(bytes.len() as u8)?;
    out.extend_from_slice(bytes)
}

/// Reads a mark.
#[tactic(auto, unfolding(crate::specs::Reading::mark_at))]
pub fn read_mark(bytes: &mut &[u8]) -> Result<Mark, BadField>
    ensures { Gives result bytes.new.now (mark_at bytes.old.now) }
{
    let size = read_byte(bytes, 0, 255)?;
    let (text, rest) = split_bytes(bytes, size as usize)?;
    *bytes = rest;
    match Mark::new(text) {
        Ok(mark) => Ok(mark),
        Err(_) => unreachable!(),
    }
}

/// Appends a name where there is one.
pub fn put_optional_name(out: &mut Vec<u8>, name: &Option<Name>) -> Result<(), AllocError>
    ensures ok { OnOk result (out.new.items ≡ out.old.items ++ optional short_bytes name.now) }
    ensures lawful { OnOk result (AllOf IsName name.now) }
{
    match name {
        None => out.push(0)?,
        Some(name) => {
            out.push(1)?;
            put_name(out, name)?;
        }
    }
    Ok(())
}

/// Reads a name, or none.
#[tactic(auto, unfolding(crate::specs::Reading::optional_at))]
pub fn read_optional_name(bytes: &mut &[u8]) -> Result<Option<Name>, BadField>
    ensures { Gives result bytes.new.now (optional_at name_at bytes.old.now) }
{
    if read_byte(bytes, 0, 1)? == 0 {
        return Ok(None);
    }
    let name = read_name(bytes)?;
    Ok(Some(name))
}

/// Appends the name of a file, and its type where it has one.
pub fn put_file_name(out: &mut Vec<u8>, file: &FileName) -> Result<(), AllocError>
    ensures ok { OnOk result (out.new.items ≡ out.old.items ++ file_name file.now) }
    ensures lawful { OnOk result (IsFileName file.now) }
{
    put_name(out, &file.name)?;
    put_optional_name(out, &file.extension)
}

/// Reads the name of a file.
#[tactic(auto, unfolding(crate::specs::Reading::file_name_at))]
pub fn read_file_name(bytes: &mut &[u8]) -> Result<FileName, BadField>
    ensures { Gives result bytes.new.now (file_name_at bytes.old.now) }
{
    let name = read_name(bytes)?;
    let extension = read_optional_name(bytes)?;
    Ok(FileName { name, extension })
}
