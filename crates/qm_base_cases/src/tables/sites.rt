// The tables that cases of jobs begin with, and what comes into them.
ghost use Rattle.std.specs.Prelude.{◌≡◌, ◌<◌, ◌++◌, ◌∷◌, [], All, IfOk, None, OnOk};
ghost use Rattle.qm_model.specs.JobStates.{run_of};

use crate::tables::rows::queue;
use qm_kinds::{Entry, Node, Seq, batch_queue};
use qm_parts::{Parts, TableSet};
use qm_tables::{FormTable, QueueTable};
use std::alloc::{AllocError, Global};

/// These nodes, and nothing else. The next run has this number.
pub(crate) fn nodes_alone(
    alloc: Global,
    nodes: Seq<Node>,
    next_run: u64,
) -> Result<Parts, AllocError>
    ensures characteristics { IfOk result (λ parts. parts.characteristics ≡ []) }
    ensures entries { IfOk result (λ parts. parts.entries ≡ []) }
    ensures next_run { IfOk result (λ parts. parts.next_run ≡ next_run) }
{
    let tables = TableSet::new(
        alloc,
        nodes,
        FormTable::new(alloc),
        QueueTable::new(alloc),
        next_run,
    );
    Parts::of(alloc, tables)
}

/// Puts in a started batch queue with places for two jobs.
pub(crate) fn put_queue(alloc: Global, parts: &mut Parts) -> Result<(), AllocError>
    ensures entries { parts.new.entries ≡ parts.old.entries }
    ensures next_run { parts.new.next_run ≡ parts.old.next_run }
{
    let queue = queue(alloc, batch_queue());
    parts.reserve_queue(&queue)?;
    parts.put_queue(queue);
    Ok(())
}

/// Puts in a job that has no run, behind the others.
pub(crate) fn put_job(parts: &mut Parts, job: Entry) -> Result<(), AllocError>
    requires last { All (λ e. e.number < job.number) parts.old.entries }
    requires no_run { run_of job.state ≡ None }
    ensures entries { OnOk result (parts.new.entries ≡ parts.old.entries ++ job ∷ []) }
    ensures next_run { parts.new.next_run ≡ parts.old.next_run }
{
    parts.reserve_entry(&job.home)?;
    parts.insert_entry(job);
    Ok(())
}
