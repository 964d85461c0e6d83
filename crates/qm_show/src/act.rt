// What is printed of what a request did.
ghost use Rattle.std.specs.Prelude.{◌≡◌, Some};
ghost use Rattle.qm_model.specs.Words.{job_text, run_text, manager_text, start_text};
ghost use Rattle.qm_show.specs.ActWords.{act_words, mark_value};

use crate::status::StatusText;
use qm_kinds::{Act, Name, Start};
use std::fmt;

/// What an accepted request did, without the value of a mark, which need not be text.
#[derive(Clone, Copy)]
pub struct ActWords<'a>(pub &'a Act);

/// A job that was started, as `Job J (queue Q, entry 1) started on LPA`.
#[derive(Clone, Copy)]
pub struct StartText<'a>(pub &'a Start);

// A job, its home and its entry.
#[derive(Clone, Copy)]
struct JobText<'a> {
    name: &'a Name,
    home: &'a Name,
    entry: u32,
}

// A run, by its number.
#[derive(Clone, Copy)]
struct RunText(u64);

// The queue manager: its node, and its epoch.
#[derive(Clone, Copy)]
pub(crate) struct ManagerText<'a> {
    pub(crate) node: &'a Name,
    pub(crate) epoch: u64,
}

/// The value of a mark that an act recorded, and no byte for another act. It stands behind the act's words.
pub(crate) fn mark_value(act: &Act) -> &[u8]
    ensures { result.now ≡ mark_value act.now }
{
    match act {
        Act::Marked { value, .. } => value.as_bytes(),
        _ => &[],
    }
}

impl fmt::Display for JobText<'_> {
    ghost output = { λ j. Some (job_text j.name.now j.home.now j.entry) };

    fn fmt<W: fmt::Write>(&self, f: &mut fmt::Formatter<W>) -> fmt::Result {
        let JobText { name, home, entry } = self;
        write!(f, "Job {name} (queue {home}, entry {entry}) ")
    }
}

impl fmt::Display for RunText {
    ghost output = { λ r. Some (run_text r.0) };

    fn fmt<W: fmt::Write>(&self, f: &mut fmt::Formatter<W>) -> fmt::Result {
        write!(f, "run {}", self.0)
    }
}

impl fmt::Display for ManagerText<'_> {
    ghost output = { λ m. Some (manager_text m.node.now m.epoch) };

    fn fmt<W: fmt::Write>(&self, f: &mut fmt::Formatter<W>) -> fmt::Result {
        write!(f, "manager on {}::, epoch {}", self.node, self.epoch)
    }
}

impl fmt::Display for StartText<'_> {
    ghost output = { λ s. Some (start_text s.0.now) };

    fn fmt<W: fmt::Write>(&self, f: &mut fmt::Formatter<W>) -> fmt::Result {
        let Start {
            entry,
            name,
            home,
            ..
        } = self.0;
        let job = JobText {
            name,
            home,
            entry: *entry,
        };
        write!(f, "{job}started on {}", self.0.queue)
    }
}

impl fmt::Display for ActWords<'_> {
    ghost output = { λ a. Some (act_words a.0.now) };

    fn fmt<W: fmt::Write>(&self, f: &mut fmt::Formatter<W>) -> fmt::Result {
        match self.0 {
            Act::Filed { file, bytes } => write!(f, "file {file}, {bytes} bytes"),
            Act::Dropped { file } => write!(f, "file {file} dropped"),
            Act::FormDefined { form } => write!(f, "form {form} defined"),
            Act::FormDeleted { form } => write!(f, "form {form} deleted"),
            Act::CharacteristicDefined { name } => write!(f, "characteristic {name} defined"),
            Act::CharacteristicDeleted { name } => write!(f, "characteristic {name} deleted"),
            Act::QueueIs { queue, state } => write!(f, "queue {queue} {state}"),
            Act::QueueDeleted { queue } => write!(f, "queue {queue} deleted"),
            Act::EntryAborting { entry } => write!(f, "entry {entry} aborting"),
            Act::Moved { entries } => write!(f, "{entries} entries moved"),
            Act::Submitted {
                name,
                home,
                entry,
                state,
            } => {
                let entry = *entry;
                write!(f, "{}{}", JobText { name, home, entry }, StatusText(state))
            }
            Act::EntryIs { entry, state } => write!(f, "entry {entry} {}", StatusText(state)),
            Act::EntryDeleted { entry } => write!(f, "entry {entry} deleted"),
            Act::Marked { run, .. } => write!(f, "{} mark ", RunText(*run)),
            Act::RunCompleted { run, status } => {
                write!(f, "{} completed, status {status}", RunText(*run))
            }
            Act::RunRetained { run, status } => {
                write!(f, "{} retained, status {status}", RunText(*run))
            }
            Act::RunRequeued { run } => write!(f, "{} requeued", RunText(*run)),
            Act::RunRemoved { run } => write!(f, "{} removed", RunText(*run)),
            Act::Ticked => f.write_str("tick"),
            Act::NodeStarted { node } => write!(f, "node {node} started"),
            Act::NodeStopped { node } => write!(f, "node {node} stopped"),
            Act::Managing { node, epoch } => {
                let epoch = *epoch;
                write!(f, "{}", ManagerText { node, epoch })
            }
            Act::Compacted { file } => write!(f, "compacted, live file {file}"),
        }
    }
}
