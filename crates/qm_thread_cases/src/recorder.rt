// A value in memory that records what it was asked.
ghost use Rattle.std.specs.Prelude.{◌≡◌, ◌≢◌, [], false, IfOk, IsTrue};
ghost use Rattle.qm_history.specs.Common.{why_of, is_journal, AreShown, ShowsDuties};
ghost use Rattle.qm_history.specs.declared.call.Answer.TheVariants as answer;
ghost use Rattle.qm_model.specs.Duties.{IsProperWork};

use qm_history::{Answer, Call, Serve, Turn, Why};
use qm_kinds::{Duty, FILE_LIMIT, JobKind, Mark, Moment, Name, Seq, Shape, Work, system_user};
use qm_rows::Rows;
use std::alloc::{AllocError, Global};

/// How many turns it keeps at most.
pub(crate) const TURNS: usize = 1_000_000;

/// What it was asked: a turn for each call but those that were told that no more are kept.
#[derive(Drop)]
pub(crate) struct Recorder {
    pub(crate) alloc: Global,
    /// The nodes that ask it.
    pub(crate) names: Vec<Name>,
    /// Whether a node whose first call is a fetch gets a batch job.
    pub(crate) jobs: bool,
    pub(crate) calls: u32,
    pub(crate) asked: Vec<Turn>,
}

impl Recorder {
    /// It was asked nothing yet.
    pub(crate) fn new(alloc: Global, names: Vec<Name>, jobs: bool) -> Recorder
        ensures asked { result.asked.items ≡ [] }
        ensures names { result.names ≡ names }
    {
        Recorder {
            alloc,
            names,
            jobs,
            calls: 0,
            asked: Vec::new(alloc),
        }
    }
}

/// Why a call is made.
fn why_of(call: &Call) -> Why
    ensures { result ≡ why_of call.now }
{
    match call {
        Call::Line { line, .. } => Why::Line(*line),
        Call::Fetch { .. } => Why::Fetch,
        Call::Report { .. } => Why::Report,
        Call::Leave => Why::Leave,
    }
}

/// Whether it can be carried out.
fn is_within_limits(work: &Work) -> bool
    ensures { IsTrue result → IsProperWork work.now }
{
    let shape = work.shape;
    shape.top as u32 + (shape.bottom as u32) < shape.length as u32
        && shape.left as u32 + (shape.right as u32) < shape.width as u32
        && work.text.len() <= FILE_LIMIT
}

// A batch job that writes a line, and runs as this run.
fn work_of(alloc: Global, run: u64) -> Result<Work, AllocError> {
    let shape = Shape {
        length: 1,
        width: 1,
        top: 0,
        bottom: 0,
        left: 0,
        right: 0,
        wrap: true,
    };
    Ok(Work {
        run,
        entry: 1,
        kind: JobKind::Batch,
        name: system_user(),
        user: system_user(),
        device: system_user(),
        text: Seq::of(b"$ WRITE SYS$OUTPUT \"DONE\"".to_vec(alloc)?),
        shape,
        copies: 1,
        flag: false,
        again: false,
        mark: Mark::new(b"").unwrap(),
    })
}

// The run of a job.
fn duties_of(alloc: Global, run: u64) -> Result<Vec<Duty>, AllocError>
    ensures { IfOk result (λ duties. AreShown duties.items) }
{
    let mut duties = Vec::with_capacity(alloc, 1)?;
    let work = work_of(alloc, run)?;
    if is_within_limits(&work) {
        duties.push(Duty {
            run,
            aborting: false,
            paused: false,
            work: Some(work),
        })?;
    }
    Ok(duties)
}

// A fetch shows the node's job, if it is to get one; any other call shows no rows.
fn answer_to(alloc: Global, job: bool, node: u8, moment: Moment, call: &Call) -> Answer
    ensures duties { ShowsDuties result }
    ensures kept { result ≢ answer.HistoryFull }
    ensures quiet { is_journal result ≡ false }
{
    let took = None;
    let Call::Fetch { .. } = call else {
        return Answer::Shown {
            took,
            moment,
            rows: Rows::new(alloc),
        };
    };
    if !job {
        return Answer::Duties {
            took,
            moment,
            duties: Seq::new(alloc),
        };
    }
    match duties_of(alloc, node as u64 + 1) {
        Ok(duties) => Answer::Duties {
            took,
            moment,
            duties: Seq::of(duties),
        },
        Err(AllocError) => Answer::NoMemory { took },
    }
}

// Whether the node made none of these turns.
fn is_new(asked: &[Turn], node: u8) -> bool {
    for turn in asked {
        if turn.node == node {
            return false;
        }
    }
    true
}

impl Serve for Recorder {
    ghost use Rattle.std.specs.Prelude.{◌≤◌, false, length};
    ghost use Rattle.qm_history.specs.Chest.{turns_kept};

    ghost meaning = { record {
      turns = λ recorder. recorder.asked.items;
      nodes = λ recorder. recorder.names.items;
      failed = λ recorder. 0;
      tells = false;
      serves = λ recorder. length recorder.asked.items ≤ turns_kept;
      stands = λ w recorder. ⊥;
      does = λ w old new asked turn told. Unit {0};
    } };

    fn serve(&mut self, node: u8, now: Moment, call: Call) -> Answer {
        self.calls = self.calls.saturating_add(1);
        if self.asked.len() == TURNS {
            return Answer::HistoryFull;
        }
        let job = self.jobs && is_new(&self.asked, node);
        let turn = Turn {
            node,
            why: why_of(&call),
            moment: now,
            events: Seq::new(self.alloc),
        };
        match self.asked.push(turn) {
            Ok(()) => answer_to(self.alloc, job, node, now, &call),
            Err(_) => Answer::NoMemory { took: None },
        }
    }
}
