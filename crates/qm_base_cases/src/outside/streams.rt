// What the contracts of readers and writers leave open: that memory suffices, and no more is taken than was asked for; and
// that calls of std's readers and writers that are short, interrupted or failing are gone on with, made again or refused.
use crate::outside::told::{Cases, assert_told, number};
use qm_disk::{
    InputSource, MemorySink, MemorySource, OutputSink, ReadEnd, Sink, Source, read_whole,
    write_whole,
};
use std::alloc::{AllocError, Global};
use std::io;
use std::io::{ErrorKind, Read, Write};

const LIMIT: usize = 6_000;

fn text_of(alloc: Global, length: u64) -> Result<Vec<u8>, AllocError> {
    let mut text = Vec::new(alloc);
    for place in 0..length {
        text.push((place % 251) as u8)?;
    }
    Ok(text)
}

// Whether a text is written as it was, once it is read up to the limit into no more room than that.
fn is_carried(alloc: Global, text: &Vec<u8>) -> Result<bool, ReadEnd> {
    let mut source = MemorySource::new(text.clone()?, Vec::new(alloc));
    let mut sink = MemorySink::new(alloc, Vec::new(alloc));
    let bytes = read_whole(alloc, &mut source, LIMIT)?;
    let is_written = write_whole(&mut sink, &bytes).is_ok();
    Ok(is_written && sink.held() == text.as_slice() && bytes.capacity() <= LIMIT)
}

fn tell_carried(alloc: Global, length: u64) -> Result<String, AllocError> {
    let text = text_of(alloc, length)?;
    format!(in alloc; "{:?}", is_carried(alloc, &text))
}

// A reader or writer that follows a script, a letter for each call: `i` is interrupted, `f` fails, `0`
// gives or takes nothing, any other letter is the byte that is read, or has one byte written. Behind
// the script nothing is read, and a flush succeeds.
#[derive(Drop)]
struct Scripted<'a> {
    script: &'a [u8],
    written: Vec<u8>,
}

impl Scripted<'_> {
    fn new(alloc: Global, script: &[u8]) -> Scripted<'_> {
        Scripted {
            script,
            written: Vec::new(alloc),
        }
    }

    // The letter of this call, or what the call fails with.
    fn next(&mut self) -> io::Result<u8> {
        let Some((letter, rest)) = self.script.split_first() else {
            return Ok(b'0');
        };
        self.script = rest;
        match *letter {
            b'i' => Err(ErrorKind::Interrupted.into()),
            b'f' => Err(ErrorKind::ConnectionReset.into()),
            letter => Ok(letter),
        }
    }
}

impl Read for Scripted<'_> {
    fn read(&mut self, into: &mut [u8]) -> io::Result<usize> {
        let letter = self.next()?;
        if letter == b'0' || into.is_empty() {
            return Ok(0);
        }
        into[0] = letter;
        Ok(1)
    }
}

impl Write for Scripted<'_> {
    fn write(&mut self, piece: &[u8]) -> io::Result<usize> {
        let letter = self.next()?;
        let Some(byte) = piece.first() else {
            return Ok(0);
        };
        if letter == b'0' {
            return Ok(0);
        }
        self.written.push(*byte)?;
        Ok(1)
    }

    fn flush(&mut self) -> io::Result<()> {
        self.next()?;
        Ok(())
    }
}

fn push_letters(told: &mut String, letters: &[u8]) -> Result<(), AllocError> {
    for letter in letters {
        told.push(char::from(*letter))?;
    }
    Ok(())
}

// Adds what a reading gives, or how it ends, and a `,`.
fn tell_reading<S: Source>(
    alloc: Global,
    source: &mut S,
    told: &mut String,
) -> Result<(), AllocError> {
    match read_whole(alloc, source, 9) {
        Ok(bytes) => push_letters(told, &bytes)?,
        Err(ReadEnd::Failed) => told.push_str("failed")?,
        Err(_) => told.push_str("ended otherwise")?,
    }
    told.push_str(",")
}

// Adds what two readings give one after the other, and the reader's calls that are left.
fn tell_reader(alloc: Global, reader: &mut Scripted, told: &mut String) -> Result<(), AllocError> {
    let mut source = InputSource::new(&mut *reader);
    tell_reading(alloc, &mut source, told)?;
    tell_reading(alloc, &mut source, told)?;
    drop(source);
    push_letters(told, reader.script)
}

fn told_of_reader(alloc: Global, script: &[u8]) -> Result<String, AllocError> {
    let mut told = String::new(alloc);
    let mut reader = Scripted::new(alloc, script);
    tell_reader(alloc, &mut reader, &mut told)?;
    Ok(told)
}

// Adds how a write of three bytes ends, and one behind it where it failed.
fn tell_endings<S: Sink>(sink: &mut S, told: &mut String) -> Result<(), AllocError> {
    if write_whole(sink, b"abc").is_ok() {
        return told.push_str("held ");
    }
    told.push_str(if sink.write(b"d").is_ok() {
        "failed and held "
    } else {
        "failed twice "
    })
}

// Adds how writes end, what was written, and the writer's calls that are left.
fn tell_writer(writer: &mut Scripted, told: &mut String) -> Result<(), AllocError> {
    let mut sink = OutputSink::new(&mut *writer);
    tell_endings(&mut sink, told)?;
    drop(sink);
    push_letters(told, &writer.written)?;
    told.push_str(",")?;
    push_letters(told, writer.script)
}

fn told_of_writer(alloc: Global, script: &[u8]) -> Result<String, AllocError> {
    let mut told = String::new(alloc);
    let mut writer = Scripted::new(alloc, script);
    tell_writer(&mut writer, &mut told)?;
    Ok(told)
}

// What is done with streams: a text of so many bytes is carried from one to the other, or a reader or writer follows a script.
#[derive(Clone, Copy)]
enum Streams {
    Carry,
    Read,
    Write,
}

impl Cases for Streams {
    fn told_of(&mut self, alloc: Global, text: &str) -> Result<String, AllocError> {
        match self {
            Streams::Carry => tell_carried(alloc, number(text)),
            Streams::Read => told_of_reader(alloc, text.as_bytes()),
            Streams::Write => told_of_writer(alloc, text.as_bytes()),
        }
    }
}

// How many bytes there are, and whether they are carried.
const CARRIED: &str = "0|Ok(true)
1|Ok(true)
3000|Ok(true)
3001|Ok(true)
6000|Ok(true)
6001|Err(TooLong)";

#[test]
fn the_limit_is_the_most_that_is_read(rt: HostRuntime) -> Result<(), AllocError> {
    assert_told(&rt, rt.alloc(), &mut Streams::Carry, CARRIED)
}

// The reader's calls; what two readings give one after the other, and the calls that are left.
const READS: &str = "ab|ab,,
aiib0c|ab,,c
0c|,,c
afb0c|failed,b,c";

#[test]
fn reads_are_made_again_but_not_behind_the_end(rt: HostRuntime) -> Result<(), AllocError> {
    assert_told(&rt, rt.alloc(), &mut Streams::Read, READS)
}

// The calls of the writer, a write and a flush in turn where none is interrupted; how writes end, what was written of three
// bytes; and the calls that are left behind two tries.
const WRITES: &str = "wwwwww|held abc,
iwwiwwiiwiw|held abc,
wwfwwwwww|failed twice a,wwwwww
wwwfwwwww|failed twice ab,wwwww
ww0wwwwww|failed twice a,wwwwww";

#[test]
fn writes_go_on_where_they_stopped_but_not_behind_a_fault(
    rt: HostRuntime,
) -> Result<(), AllocError> {
    assert_told(&rt, rt.alloc(), &mut Streams::Write, WRITES)
}
