// A job, and what its run tells and hands over.
ghost use Rattle.std.specs.Prelude.{IsTrue};
ghost use Rattle.qm_symb.specs.Symbiont.{IsWithinLimits};

use crate::moments::tell_moment;
use crate::node::tell_two_runs;
use qm_kinds::{JobKind, Mark, Name, Report, Seq, Shape, TEXT_LIMIT, Work, system_user};
use qm_plans::{number_and_rest, numbers, push_bytes, push_line, push_times};
use qm_symb::print::page_blocks;
use qm_symb::{HandOver, MemoryDevice, Standard, Symbiont};
use std::alloc::{AllocError, Global};

/// A job of entry 7, which runs as run 3 on the device LPA0, and the calls at which the device fails.
#[derive(Drop)]
pub(crate) struct Job {
    pub(crate) kind: JobKind,
    shape: Shape,
    copies: u8,
    flag: bool,
    again: bool,
    mark: Vec<u8>,
    fails: Vec<u64>,
    text: Vec<u8>,
    // What the device took in the last run.
    handed: Vec<u8>,
    // In how many blocks.
    blocks: usize,
}

// The most reports that are asked for in a run.
const REPORTS: u32 = 20_000;

/// A name, or that of the system's user where the text is none.
pub(crate) fn name(text: &str) -> Name {
    Name::read(text.as_bytes()).unwrap_or(system_user())
}

// One line of one column.
const NARROW: Shape = Shape {
    length: 1,
    width: 1,
    top: 0,
    bottom: 0,
    left: 0,
    right: 0,
    wrap: true,
};

/// Whether a row and a column are left between the margins, and the text isn't too long.
pub(crate) fn is_within_limits(work: &Work) -> bool
    ensures { IsTrue result → IsWithinLimits work.now }
{
    let shape = work.shape;
    shape.top as u32 + (shape.bottom as u32) < shape.length as u32
        && shape.left as u32 + (shape.right as u32) < shape.width as u32
        && work.text.len() <= TEXT_LIMIT
}

// Carries out a run, keeps its marks, a line each, and gives how many there were and the status of the end.
fn carry_out<S: Symbiont>(
    symbiont: &mut S,
    work: &Work,
    told: &mut Vec<u8>,
) -> Result<(u32, u32), AllocError>
    requires { IsWithinLimits work.now }
{
    let begun = symbiont.begin(work);
    let mut at = begun.at;
    let mut cursor = begun.cursor;
    for marks in 0..REPORTS {
        match symbiont.step(work, at, &mut cursor)? {
            Report::Mark { value, next } => {
                told.extend_from_slice(value.as_bytes())?;
                told.push(b'\n')?;
                at = next;
            }
            Report::Done { status } => return Ok((marks, status)),
        }
    }
    Ok((REPORTS, 0))
}

// Puts the bytes that a text means in place of others.
fn refill(bytes: &mut Vec<u8>, text: &str) -> Result<(), AllocError> {
    bytes.clear();
    push_bytes(bytes, text)
}

// Puts the bytes that a text means in place of others, so many times.
fn refill_times(alloc: Global, bytes: &mut Vec<u8>, text: &str) -> Result<(), AllocError> {
    let (times, piece) = number_and_rest(text);
    let mut more = Vec::new(alloc);
    push_bytes(&mut more, piece)?;
    bytes.clear();
    push_times(bytes, times, &more)
}

// Tells bytes on a line.
fn tell_bytes(told: &mut Vec<u8>, bytes: &[u8]) -> Result<(), AllocError> {
    told.extend_from_slice(bytes)?;
    push_line(told, "")
}

fn tell_number(alloc: Global, told: &mut Vec<u8>, number: usize) -> Result<(), AllocError> {
    push_line(told, format!(in alloc; "{number}")?.as_str())
}

// Tells how many marks a run had, and its status.
fn tell_end(alloc: Global, told: &mut Vec<u8>, marks: u32, status: u32) -> Result<(), AllocError> {
    push_line(
        told,
        format!(in alloc; "{marks} marks, status {status}")?.as_str(),
    )
}

// Tells where a block was handed over for another run, or to another device.
fn tell_foreign(told: &mut Vec<u8>, held: &[HandOver]) -> Result<(), AllocError> {
    for taken in held {
        if taken.run != 3 || taken.device.as_str() != "LPA0" {
            push_line(told, "another run or device")?;
        }
    }
    Ok(())
}

// Tells the pages of a work, one behind the other.
fn tell_pages_of(alloc: Global, told: &mut Vec<u8>, work: &Work) -> Result<(), AllocError>
    requires { IsWithinLimits work.now }
{
    for block in &page_blocks(alloc, work)? {
        told.extend_from_slice(block)?;
    }
    push_line(told, "")
}

impl Job {
    /// A print job of no text.
    pub(crate) fn new(alloc: Global) -> Job {
        Job {
            kind: JobKind::Print,
            shape: NARROW,
            copies: 1,
            flag: false,
            again: false,
            mark: Vec::new(alloc),
            fails: Vec::new(alloc),
            text: Vec::new(alloc),
            handed: Vec::new(alloc),
            blocks: 0,
        }
    }

    // The shape of these numbers: length, width, top, bottom, left, right, and 1 where lines go on.
    fn set_shape(&mut self, numbers: &[u64]) {
        if let [length, width, top, bottom, left, right, wrap] = numbers {
            self.shape = Shape {
                length: (*length % 256) as u8,
                width: (*width % 256) as u8,
                top: (*top % 256) as u8,
                bottom: (*bottom % 256) as u8,
                left: (*left % 256) as u8,
                right: (*right % 256) as u8,
                wrap: *wrap == 1,
            };
        }
    }

    /// What there is to do, with this text.
    pub(crate) fn work(&self, text: Vec<u8>) -> Work {
        let none = Mark::new(b"").unwrap();
        Work {
            run: 3,
            entry: 7,
            kind: self.kind,
            name: name("X"),
            user: name("SMITH"),
            device: name("LPA0"),
            text: Seq::of(text),
            shape: self.shape,
            copies: self.copies,
            flag: self.flag,
            again: self.again,
            mark: Mark::new(&self.mark).unwrap_or(none),
        }
    }

    // Keeps what a device took.
    fn take(&mut self, held: &[HandOver]) -> Result<(), AllocError> {
        self.blocks = held.len();
        for taken in held {
            self.handed.extend_from_slice(taken.block.as_slice())?;
        }
        Ok(())
    }

    // The marks of a run of this work by a symbiont, how many they are, and the status of the end; and what the device took.
    fn run_by(
        &mut self,
        symbiont: &mut Standard<MemoryDevice>,
        work: &Work,
        told: &mut Vec<u8>,
    ) -> Result<(u32, u32), AllocError>
        requires { IsWithinLimits work.now }
    {
        let end = carry_out(symbiont, work, told)?;
        let held = symbiont.device().held();
        tell_foreign(told, held)?;
        self.take(held)?;
        Ok(end)
    }

    // The same by a symbiont over a device that fails at the calls of the job.
    fn run_work(
        &mut self,
        alloc: Global,
        work: &Work,
        told: &mut Vec<u8>,
    ) -> Result<(u32, u32), AllocError>
        requires { IsWithinLimits work.now }
    {
        let device = MemoryDevice::new(alloc, self.fails.to_vec(alloc)?);
        let mut symbiont = Standard::new(alloc, device);
        self.run_by(&mut symbiont, work, told)
    }

    // The same of a run with this text.
    fn run(
        &mut self,
        alloc: Global,
        text: Vec<u8>,
        told: &mut Vec<u8>,
    ) -> Result<(u32, u32), AllocError> {
        let work = self.work(text);
        self.handed.clear();
        if is_within_limits(&work) {
            self.run_work(alloc, &work, told)
        } else {
            Ok((0, 0))
        }
    }

    // Tells how many marks the run has and its status, and the marks of a batch job.
    fn tell_run(&mut self, alloc: Global, told: &mut Vec<u8>) -> Result<(), AllocError> {
        let mut marked = Vec::new(alloc);
        let text = self.text.to_vec(alloc)?;
        let (marks, status) = self.run(alloc, text, &mut marked)?;
        tell_end(alloc, told, marks, status)?;
        if self.kind == JobKind::Batch {
            told.extend_from_slice(&marked)?;
        }
        Ok(())
    }

    // The status of the run of the first bytes of the text, so many.
    fn status_of_cut(&mut self, alloc: Global, size: usize) -> Result<u32, AllocError> {
        let mut marked = Vec::new(alloc);
        let text = self.text.get(..size).unwrap_or(&[]).to_vec(alloc)?;
        let (_, status) = self.run(alloc, text, &mut marked)?;
        Ok(status)
    }

    // Tells the status of the run of each front of the text, from one byte on, where it is another than that of the one before.
    fn tell_cuts(&mut self, alloc: Global, told: &mut Vec<u8>) -> Result<(), AllocError> {
        let mut before = 0;
        for size in 1..=self.text.len() {
            let status = self.status_of_cut(alloc, size)?;
            if status != before {
                push_line(told, format!(in alloc; "{size}: status {status}")?.as_str())?;
            }
            before = status;
        }
        Ok(())
    }

    // Tells the pages of a print job.
    fn tell_pages(&self, alloc: Global, told: &mut Vec<u8>) -> Result<(), AllocError> {
        let work = self.work(self.text.to_vec(alloc)?);
        if is_within_limits(&work) {
            tell_pages_of(alloc, told, &work)
        } else {
            Ok(())
        }
    }

    // Takes the calls at which the device fails.
    fn read_fails(&mut self, alloc: Global, text: &str) -> Result<(), AllocError> {
        self.fails = numbers(alloc, text)?;
        Ok(())
    }

    // Takes the numbers of the shape.
    fn read_shape(&mut self, alloc: Global, text: &str) -> Result<(), AllocError> {
        self.set_shape(&numbers(alloc, text)?);
        Ok(())
    }

    // Sets a number, a kind or whether something is so, where a verb says that of the job.
    fn set(&mut self, verb: &str, text: &str) -> bool {
        match verb {
            "print" => self.kind = JobKind::Print,
            "batch" => self.kind = JobKind::Batch,
            "copies" => self.copies = text.parse::<u8>().unwrap_or(0),
            "flag" => self.flag = text == "yes",
            "again" => self.again = text == "yes",
            _ => return false,
        }
        true
    }

    // Reads what a verb says of the job, or tells what it asks for.
    fn read_or_tell(
        &mut self,
        alloc: Global,
        told: &mut Vec<u8>,
        verb: &str,
        text: &str,
    ) -> Result<(), AllocError> {
        match verb {
            "shape" => self.read_shape(alloc, text),
            "mark" => refill(&mut self.mark, text),
            "fails" => self.read_fails(alloc, text),
            "text" => refill(&mut self.text, text),
            "repeat" => refill_times(alloc, &mut self.text, text),
            "run" => self.tell_run(alloc, told),
            "handed" => tell_bytes(told, &self.handed),
            "blocks" => tell_number(alloc, told, self.blocks),
            "pages" => self.tell_pages(alloc, told),
            "cuts" => self.tell_cuts(alloc, told),
            "two-runs" => tell_two_runs(alloc, told, text == "cut short"),
            "moment" => tell_moment(alloc, told),
            "" | "#" => Ok(()),
            _ => push_line(told, "no such verb"),
        }
    }

    /// Sets what a verb says of the job, or tells what it asks for.
    pub(crate) fn tell(
        &mut self,
        alloc: Global,
        told: &mut Vec<u8>,
        verb: &str,
        text: &str,
    ) -> Result<(), AllocError> {
        if self.set(verb, text) {
            Ok(())
        } else {
            self.read_or_tell(alloc, told, verb, text)
        }
    }
}
