// How the program ends, and what it hands back.
ghost use Rattle.std.specs.Prelude.{◌≡◌, [], Some};
ghost use Rattle.qm_program.specs.Ends.{status_of, end_text, end_of_opening, end_of_making};

use qm_disk::Disk;
use qm_glog::MakeFault;
use qm_history::Turn;
use qm_kinds::ScriptKind;
use qm_store::LoadFault;
use std::alloc::Global;
use std::fmt;

/// How the program ended.
#[derive(Clone, Copy, PartialEq, Eq)]
pub enum End {
    /// The script was read to its end, every line was answered, each run that could step was carried out, and no disk failed;
    /// or the files were made.
    Ok,
    /// The words aren't those of the program.
    Usage,
    /// What was read is no script, or not one for this site. The line is 0 where no line is named.
    Script { line: u32, kind: ScriptKind },
    /// The source failed.
    Read,
    /// The sink failed. It took a front of the transcript.
    Write,
    /// The disk failed. The script was served all the same, and the sink took the transcript, which says where it did; or the
    /// files couldn't be read or made, and it took nothing.
    Journal,
    /// The master begins with this byte, which isn't 1. An empty one counts as a byte 0.
    Unformatted { byte: u8 },
    /// At this place, in bytes from 0, the master (0) or the live queue file (1 or 2) isn't one.
    Damaged { file: u8, place: u64 },
    /// No more turns can be kept. The sink took the transcript of those that are.
    HistoryFull,
    /// There was no memory. The sink took a front of the transcript, or nothing.
    NoMemory,
}

impl End {
    /// The program's status: 0 where all went well.
    pub fn status(self) -> u8
        ensures { result ≡ status_of self }
    {
        match self {
            End::Ok => 0,
            End::Usage => 2,
            End::Script { .. } => 3,
            End::Read => 4,
            End::Write => 5,
            End::Journal => 6,
            End::Unformatted { .. } => 7,
            End::Damaged { .. } => 8,
            End::HistoryFull => 9,
            End::NoMemory => 10,
        }
    }
}

impl From<LoadFault> for End {
    ghost from_gives = { λ fault end. end ≡ end_of_opening fault };

    fn from(fault: LoadFault) -> End {
        match fault {
            LoadFault::Disk => End::Journal,
            LoadFault::Unformatted { byte } => End::Unformatted { byte },
            LoadFault::Damaged { file, place } => End::Damaged { file, place },
            LoadFault::NoMemory => End::NoMemory,
        }
    }
}

impl From<MakeFault> for End {
    ghost from_gives = { λ fault end. end ≡ end_of_making fault };

    fn from(fault: MakeFault) -> End {
        match fault {
            MakeFault::Disk => End::Journal,
            MakeFault::NoMemory => End::NoMemory,
        }
    }
}

/// What the program prints on standard error, behind `qman: `.
impl fmt::Display for End {
    ghost output = { λ end. Some (end_text end) };

    fn fmt<W: fmt::Write>(&self, f: &mut fmt::Formatter<W>) -> fmt::Result {
        match self {
            End::Ok => Ok(()),
            End::Usage => f.write_str("usage"),
            End::Script { line, kind } => write!(f, "script line {line}: {kind}"),
            End::Read => f.write_str("read failed"),
            End::Write => f.write_str("write failed"),
            End::Journal => f.write_str("journal failed"),
            End::Unformatted { byte } => write!(f, "unformatted, byte {byte}"),
            End::Damaged { file, place } => write!(f, "damaged, file {file}, byte {place}"),
            End::HistoryFull => f.write_str("history full"),
            End::NoMemory => f.write_str("no memory"),
        }
    }
}

/// How the program ended, its status, the disk with the files, and the turns that the nodes made, in their order.
#[derive(Drop)]
pub struct Outcome<D: Disk> {
    pub status: u8,
    pub end: End,
    pub disk: D,
    pub turns: Vec<Turn>,
}

impl<D: Disk> Outcome<D> {
    /// The outcome with this end, before any turn. It takes no memory.
    pub(crate) fn of(alloc: Global, end: End, disk: D) -> Outcome<D>
        ensures end { result.end ≡ end }
        ensures status { result.status ≡ status_of end }
        ensures disk { result.disk ≡ disk }
        ensures turns { result.turns.items ≡ [] }
    {
        Outcome::with(end, disk, Vec::new(alloc))
    }

    /// The outcome with this end, behind these turns.
    pub(crate) fn with(end: End, disk: D, turns: Vec<Turn>) -> Outcome<D>
        ensures end { result.end ≡ end }
        ensures status { result.status ≡ status_of end }
        ensures disk { result.disk ≡ disk }
        ensures turns { result.turns.items ≡ turns.items }
    {
        Outcome {
            status: end.status(),
            end,
            disk,
            turns,
        }
    }
}
