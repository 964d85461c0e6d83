// What a run carries out, where it stands, and what it reports.
use crate::entry::JobKind;
use crate::form::Shape;
use crate::mark::Mark;
use crate::name::Name;
use crate::seq::Seq;

/// What a run needs: its job, and what it prints or executes.
#[derive(Drop)]
pub struct Work {
    pub run: u64,
    pub entry: u32,
    pub kind: JobKind,
    pub name: Name,
    pub user: Name,
    pub device: Name,
    /// The bytes of the job's file.
    pub text: Seq<u8>,
    /// The shape of the job's form, or of the form DEFAULT for a batch job.
    pub shape: Shape,
    pub copies: u8,
    /// Whether a page that names the job stands before its text.
    pub flag: bool,
    /// Whether the job was put back into its queue after a run.
    pub again: bool,
    /// The last checkpoint that was recorded.
    pub mark: Mark,
}

/// A run of a node: it goes on, waits, or is to be cut short.
#[derive(Drop)]
pub struct Duty {
    pub run: u64,
    /// Whether it is to be cut short.
    pub aborting: bool,
    /// Whether its queue is paused, so that it waits.
    pub paused: bool,
    /// What it needs, where the node doesn't have that.
    pub work: Option<Work>,
}

/// How far a run is.
#[derive(Clone, Copy)]
pub struct Place {
    /// The blocks that a print job handed over, or the number of a batch job's next line, from 1.
    pub at: u32,
    /// The lines that a batch job has read since its work was fetched.
    pub used: u32,
}

/// What a run reports.
#[derive(Clone, Copy)]
pub enum Report {
    /// A checkpoint, and where the run goes on.
    Mark { value: Mark, next: Place },
    /// The end, with a completion status.
    Done { status: u32 },
}
