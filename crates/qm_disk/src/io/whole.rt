// Reading all that a source has, up to a limit, and writing all of a text.
ghost use Rattle.std.specs.Prelude.{◌≡◌, ◌+◌, ◌<◌, ◌≤◌, length, vec_len, is_some, IfOk, IfSome, IsErrOf, OnErr, OnOk};
ghost use Rattle.std.specs.Io.KnownBytes.{Appends, Consumes, IsAtEnd};
ghost use Rattle.qm_disk.specs.Bytes.{LosesAtMost, TakesPrefix};
ghost use Rattle.qm_disk.specs.Faults.{counted};
ghost use Rattle.qm_disk.specs.declared.io.whole.ReadEnd.TheVariants as ends;

use crate::{Failed, Sink, Source};
use std::alloc::{AllocError, Global};
use std::error::Error;
use std::fmt;

// The bytes that one read asks for at most.
const PIECE: usize = 4096;

/// Why `read_whole` gave no bytes.
#[derive(Clone, Copy, Debug, PartialEq, Eq)]
pub enum ReadEnd {
    /// The source failed.
    Failed,
    /// The source had more bytes than the limit.
    TooLong,
    /// There was no memory for the bytes.
    NoMemory,
}

impl fmt::Display for ReadEnd {
    ghost use Rattle.std.specs.Prelude.{Some};
    ghost use Rattle.qm_disk.specs.ReadEnd.{end_text};

    ghost output = { λ end. Some (end_text end) };

    fn fmt<W: fmt::Write>(&self, f: &mut fmt::Formatter<W>) -> fmt::Result {
        match self {
            ReadEnd::Failed => f.write_str("the input failed"),
            ReadEnd::TooLong => f.write_str("the input is too long"),
            ReadEnd::NoMemory => f.write_str("out of memory"),
        }
    }
}

impl Error for ReadEnd {}

impl From<Failed> for ReadEnd {
    ghost from_gives = { λ _ end. end ≡ ends.Failed };

    fn from(_: Failed) -> ReadEnd {
        ReadEnd::Failed
    }
}

impl From<AllocError> for ReadEnd {
    ghost from_gives = { λ _ end. end ≡ ends.NoMemory };

    fn from(_: AllocError) -> ReadEnd {
        ReadEnd::NoMemory
    }
}

/// Reads a source to its end.
///
/// Memory for `limit` bytes is taken before the first read, so want of memory costs the source nothing;
/// what is not written to takes no page of the machine. It takes at most `limit` bytes and one more,
/// which tells that there are too many. Each read but the last gives a byte at least, so it ends at
/// any source, also at one that never ends.
///
/// `Failed` comes exactly where the source failed in this call, `TooLong` exactly where it had more
/// than `limit` bytes and nothing failed before they were read, and `NoMemory` only where the
/// allocation failed, and then the source is as it was. After the other two it has lost the bytes
/// read so far, and it isn't asked again.
pub fn read_whole<S: Source>(
    alloc: Global,
    source: &mut S,
    limit: usize,
) -> Result<Vec<u8>, ReadEnd>
    ensures whole { IfOk result (λ bytes.
        IfSome (S.remaining source.old) (λ left. bytes.items ≡ left)) }
    ensures at_end { OnOk result (IsAtEnd (S.remaining source.new)) }
    ensures within { IfOk result (λ bytes. vec_len bytes ≤ limit) }

    ensures too_long { IsErrOf result ReadEnd.TooLong
        → IfSome (S.remaining source.old) (λ left. limit < length left) }
    ensures no_memory { IsErrOf result ReadEnd.NoMemory → source.new ≡ source.old }

    ensures quiet { (IsErrOf result ReadEnd.Failed → ⊥)
        → S.faults source.new ≡ S.faults source.old }
    ensures cause { IsErrOf result ReadEnd.Failed
        → S.faults source.new ≡ counted (S.faults source.old) }
    ensures never_falls { S.faults source.old ≤ S.faults source.new }

    ensures lost { LosesAtMost (limit + 1) (S.remaining source.old) (S.remaining source.new) }
    ensures told { is_some (S.remaining source.new) ≡ is_some (S.remaining source.old) }
{
    let mut bytes = Vec::new(alloc);
    bytes.reserve_exact(limit)?;
    let mut piece = [0; PIECE];
    loop {
        let room = limit - bytes.len();
        let asked = room.min(PIECE - 1) + 1;
        let count = source.read(&mut piece[..asked])?;
        if count == 0 {
            return Ok(fitted(alloc, bytes));
        }
        if count > room {
            return Err(ReadEnd::TooLong);
        }
        bytes.extend_from_slice(&piece[..count]).unwrap();
    }
}

// The bytes in memory of just their size, and the room for the longest script given back; or as they are, if there is no memory for that.
fn fitted(alloc: Global, bytes: Vec<u8>) -> Vec<u8>
    ensures { result.items ≡ bytes.items }
{
    match Vec::from_slice(alloc, &bytes) {
        Ok(fitted) => fitted,
        Err(_) => bytes,
    }
}

/// Writes all of these bytes.
///
/// `Failed` comes exactly where the sink failed in this call, which is then the last on it. It has
/// taken first bytes of these, and not all.
pub fn write_whole<O: Sink>(sink: &mut O, bytes: &[u8]) -> Result<(), Failed>
    ensures all { OnOk result (Appends (O.taken sink.old) (O.taken sink.new) bytes.now) }
    ensures prefix { OnErr result
        (TakesPrefix (O.taken sink.old) (O.taken sink.new) bytes.now) }

    ensures told { is_some (O.taken sink.new) ≡ is_some (O.taken sink.old) }

    ensures quiet { OnOk result (O.faults sink.new ≡ O.faults sink.old) }
    ensures cause { OnErr result (O.faults sink.new ≡ counted (O.faults sink.old)) }
    ensures never_falls { O.faults sink.old ≤ O.faults sink.new }
{
    let mut at = 0;
    while at < bytes.len() {
        let count = sink.write(&bytes[at..])?;
        at += count;
    }
    Ok(())
}
