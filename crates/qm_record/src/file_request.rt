// The records of requests about files.
ghost use Rattle.std.specs.Prelude.{◌≡◌, ◌<◌, ◌^◌, ◌++◌, length, OnOk};
ghost use Rattle.qm_bytes.specs.Spelling.{IsFileName, AreLongBytes};
ghost use Rattle.qm_bytes.specs.Reading.{GivesKept};
ghost use Rattle.qm_record.specs.Spelling.{append_text, fill_text};
ghost use Rattle.qm_record.specs.Reading.{append_at, fill_at, drop_at};

use qm_bytes::{
    BadField, Width, put_file_name, put_long_bytes, put_number, read_file_name, read_long_bytes,
    read_number,
};
use qm_kinds::{Body, FileName, Request};
use std::alloc::{AllocError, Global};

/// Appends the fields of a request to append to a file.
pub(crate) fn put_append(out: &mut Vec<u8>, file: &FileName, bytes: &[u8]) -> Result<(), AllocError>
    requires { length bytes.now < 2 ^ 32 }
    ensures ok { OnOk result (out.new.items ≡ out.old.items ++ append_text file.now bytes.now) }
    ensures file { OnOk result (IsFileName file.now) }
    ensures bytes { OnOk result (AreLongBytes bytes.now) }
{
    put_file_name(out, file)?;
    put_long_bytes(out, bytes)?;
    Ok(())
}

/// Reads the fields of a request to append to a file.
#[tactic(auto, unfolding(crate::specs::Reading::append_at))]
#[inline(never)]
pub(crate) fn read_append(
    alloc: Global,
    bytes: &mut &[u8],
) -> Result<Result<Body, AllocError>, BadField>
    ensures { GivesKept result bytes.new.now (append_at bytes.old.now) }
{
    let file = read_file_name(bytes)?;
    match read_long_bytes(alloc, bytes)? {
        Ok(text) => Ok(Ok(Body::Ask(Request::Append { file, bytes: text }))),
        Err(fault) => Ok(Err(fault)),
    }
}

/// Appends a file and how many lines it is to get.
pub(crate) fn put_fill(out: &mut Vec<u8>, file: &FileName, lines: u16) -> Result<(), AllocError>
    ensures ok { OnOk result (out.new.items ≡ out.old.items ++ fill_text file.now lines) }
    ensures file { OnOk result (IsFileName file.now) }
    ensures lines { OnOk result (lines < 2 ^ 16) }
{
    put_file_name(out, file)?;
    put_number(out, Width::Two, u64::from(lines))
}

/// Reads the fields of a request to fill a file with lines.
#[tactic(auto, unfolding(crate::specs::Reading::fill_at))]
#[inline(never)]
pub(crate) fn read_fill(bytes: &mut &[u8]) -> Result<Result<Body, AllocError>, BadField>
    ensures { GivesKept result bytes.new.now (fill_at bytes.old.now) }
{
    let file = read_file_name(bytes)?;
    let lines = read_number(bytes, Width::Two)?;
    Ok(Ok(Body::Ask(Request::Fill {
        file,
        lines: lines as u16,
    })))
}

/// Reads the fields of a request to take a file away.
#[tactic(auto, unfolding(crate::specs::Reading::drop_at))]
#[inline(never)]
pub(crate) fn read_drop(bytes: &mut &[u8]) -> Result<Result<Body, AllocError>, BadField>
    ensures { GivesKept result bytes.new.now (drop_at bytes.old.now) }
{
    let file = read_file_name(bytes)?;
    Ok(Ok(Body::Ask(Request::Drop { file })))
}
