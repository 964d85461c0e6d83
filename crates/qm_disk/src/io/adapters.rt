// std's readers and writers as a source and a sink. They tell no bytes, since a file or a terminal
// tells none, and they count their faults.
ghost use Rattle.std.specs.Prelude.{◌≡◌, ◌==◌, ◌&&◌, ◌<◌, ◌≤◌, nat_lt, length, take, true, false, is_err, IfOk, OnOk, OnErr, None, Ok};
ghost use Rattle.std.specs.Io.KnownBytes.{Appends, Consumes, IsAtEnd, Keeps};
ghost use Rattle.qm_disk.specs.Adapters.{reader_of, is_ended, input_faults, writer_of, is_lost, output_faults};
ghost use Rattle.qm_disk.specs.Bytes.{TakesSome};
ghost use Rattle.qm_disk.specs.Faults.{counted};

use crate::{Failed, Faults, Sink, Source};
use std::io;
use std::io::{ErrorKind, Read, Write};

/// A reader of std as a source, which tells no bytes.
#[derive(Drop)]
pub struct InputSource<R> {
    reader: R,
    /// The reader has told the end, behind which a terminal would begin anew.
    is_ended: bool,
    faults: Faults,
}

impl<R: Read> InputSource<R> {
    /// A source that reads from this reader, has not told its end and has not failed yet.
    pub fn new(reader: R) -> InputSource<R>
        ensures reader { reader_of result ≡ reader }
        ensures begins { is_ended result ≡ false }
        ensures faults { input_faults result ≡ 0 }
    {
        InputSource {
            reader,
            is_ended: false,
            faults: Faults::new(),
        }
    }
}

impl<R: Read> Source for InputSource<R> {
    ghost remaining = { λ _. None };

    ghost faults = { input_faults };

    /// One read, made again where a signal interrupts it. A read that fails is a fault. Behind the
    /// end the reader isn't asked again.
    fn read(&mut self, into: &mut [u8]) -> Result<usize, Failed>
        ensures room { IfOk result (λ count. count ≤ length into.new) }
        ensures next { IfOk result (λ count. Consumes
            (R.remaining (reader_of self.old)) (R.remaining (reader_of self.new)) (take count into.new)) }
        ensures end { is_ended self.old ≡ false → IfOk result (λ count.
            count ≡ 0 → 0 < length into.new → IsAtEnd (R.remaining (reader_of self.new))) }
        ensures failed { OnErr result (Keeps
            (R.remaining (reader_of self.old)) (R.remaining (reader_of self.new))) }

        ensures ended { is_ended self.old ≡ false → IfOk result (λ count.
            is_ended self.new ≡ (count == 0 && nat_lt 0 (length into.new))) }
        ensures begun { OnErr result (is_ended self.new ≡ is_ended self.old) }
        ensures behind { is_ended self.old ≡ true → (result ≡ Ok 0) × (self.new ≡ self.old) }

        ensures quiet { OnOk result (input_faults self.new ≡ input_faults self.old) }
        ensures cause { OnErr result (input_faults self.new ≡ counted (input_faults self.old)) }
        ensures never_falls { input_faults self.old ≤ input_faults self.new }
    {
        if self.is_ended {
            return Ok(0);
        }
        match read_uninterrupted(&mut self.reader, into) {
            Ok(count) => {
                self.is_ended = count == 0 && !into.is_empty();
                Ok(count)
            }
            Err(_) => {
                self.faults.count();
                Err(Failed)
            }
        }
    }
}

/// A writer of std as a sink, which tells no bytes.
#[derive(Drop)]
pub struct OutputSink<W> {
    writer: W,
    /// A write has failed, and nobody can say what went out.
    is_lost: bool,
    faults: Faults,
}

impl<W: Write> OutputSink<W> {
    /// A sink that writes to this writer and has not failed yet.
    pub fn new(writer: W) -> OutputSink<W>
        ensures writer { writer_of result ≡ writer }
        ensures begins { is_lost result ≡ false }
        ensures faults { output_faults result ≡ 0 }
    {
        OutputSink {
            writer,
            is_lost: false,
            faults: Faults::new(),
        }
    }
}

impl<W: Write> Sink for OutputSink<W> {
    ghost taken = { λ _. None };

    ghost faults = { output_faults };

    /// One write, and then a flush, so that nothing is held back; each is made again where a signal
    /// interrupts it. A write that fails or takes none of a piece that isn't empty is a fault, and so
    /// is a flush that fails. Behind a fault each call is one, and nothing more goes out.
    ///
    /// Where the flush fails, the writer has taken first bytes of the piece, and nobody can say how
    /// many of them went out. This call counts none of them.
    fn write(&mut self, piece: &[u8]) -> Result<usize, Failed>
        ensures room { IfOk result (λ count. count ≤ length piece.now) }
        ensures some { result ≡ Ok 0 → length piece.now ≡ 0 }
        ensures appended { IfOk result (λ count. Appends
            (W.contents (writer_of self.old)) (W.contents (writer_of self.new)) (take count piece.now)) }
        ensures failed { OnErr result (TakesSome
            (W.contents (writer_of self.old)) (W.contents (writer_of self.new)) piece.now) }

        ensures lost { is_lost self.new ≡ is_err result }
        ensures behind { OnOk result (is_lost self.old ≡ false) }
        ensures untouched { is_lost self.old ≡ true → writer_of self.new ≡ writer_of self.old }

        ensures quiet { OnOk result (output_faults self.new ≡ output_faults self.old) }
        ensures cause { OnErr result (output_faults self.new ≡ counted (output_faults self.old)) }
        ensures never_falls { output_faults self.old ≤ output_faults self.new }
    {
        if self.is_lost {
            self.faults.count();
            return Err(Failed);
        }
        match write_through(&mut self.writer, piece) {
            Ok(count) => Ok(count),
            Err(_) => {
                self.is_lost = true;
                self.faults.count();
                Err(Failed)
            }
        }
    }
}

fn read_uninterrupted<R: Read>(reader: &mut R, into: &mut [u8]) -> io::Result<usize>
    ensures room { IfOk result (λ count. count ≤ length into.new) }
    ensures next { IfOk result (λ count.
        Consumes (R.remaining reader.old) (R.remaining reader.new) (take count into.new)) }
    ensures end { IfOk result (λ count.
        count ≡ 0 → 0 < length into.new → IsAtEnd (R.remaining reader.new)) }
    ensures failed { OnErr result (Keeps (R.remaining reader.old) (R.remaining reader.new)) }
{
    for _ in 0..u64::MAX {
        match reader.read(into) {
            Err(error) if error.kind() == ErrorKind::Interrupted => {}
            result => return result,
        }
    }
    Err(ErrorKind::Interrupted.into())
}

fn write_uninterrupted<W: Write>(writer: &mut W, piece: &[u8]) -> io::Result<usize>
    ensures room { IfOk result (λ count. count ≤ length piece.now) }
    ensures appended { IfOk result (λ count.
        Appends (W.contents writer.old) (W.contents writer.new) (take count piece.now)) }
    ensures failed { OnErr result (Keeps (W.contents writer.old) (W.contents writer.new)) }
{
    for _ in 0..u64::MAX {
        match writer.write(piece) {
            Err(error) if error.kind() == ErrorKind::Interrupted => {}
            result => return result,
        }
    }
    Err(ErrorKind::Interrupted.into())
}

fn flush_uninterrupted<W: Write>(writer: &mut W) -> io::Result<()>
    ensures { Keeps (W.contents writer.old) (W.contents writer.new) }
{
    for _ in 0..u64::MAX {
        match writer.flush() {
            Err(error) if error.kind() == ErrorKind::Interrupted => {}
            result => return result,
        }
    }
    Err(ErrorKind::Interrupted.into())
}

// Writes and flushes. It takes none only of an empty piece.
fn write_through<W: Write>(writer: &mut W, piece: &[u8]) -> io::Result<usize>
    ensures room { IfOk result (λ count. count ≤ length piece.now) }
    ensures some { result ≡ Ok 0 → length piece.now ≡ 0 }
    ensures appended { IfOk result (λ count.
        Appends (W.contents writer.old) (W.contents writer.new) (take count piece.now)) }
    ensures failed { OnErr result
        (TakesSome (W.contents writer.old) (W.contents writer.new) piece.now) }
{
    let count = write_uninterrupted(writer, piece)?;
    if count == 0 && !piece.is_empty() {
        return Err(ErrorKind::WriteZero.into());
    }
    flush_uninterrupted(writer)?;
    Ok(count)
}
