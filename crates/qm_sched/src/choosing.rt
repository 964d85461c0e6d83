// Which job a queue starts next.
ghost use Rattle.std.specs.Prelude.{◌≡◌, ◌+◌, ◌<◌, length, slice_index_or};
ghost use Rattle.qm_kinds.specs.declared.queue.Queue.{Queue as AnyQueue};
ghost use Rattle.qm_model.specs.Common.{System, places, start_of};
ghost use Rattle.qm_parts.specs.Tables.{with_tables};
ghost use Rattle.qm_sched.specs.Choosing.{next_start, takes_jobs, has_place, looks_at};

use qm_kinds::{END_OF_RUNS, Entry, Queue, QueueKind, Start};
use qm_parts::{Parts, is_execution_queue, is_open_queue, see_entries};
use qm_ready::Steps;
use std::sync::ledger::Ledger;

/// How many jobs may run in a queue at once.
pub fn places(queue: &Queue) -> u8
    ensures { result ≡ places queue.now }
{
    match queue.kind {
        QueueKind::Batch | QueueKind::GenericBatch => queue.limit,
        QueueKind::Print | QueueKind::GenericPrint => 1,
    }
}

// Whether run numbers are left, and the queue has a place for one more run.
fn has_place(parts: &Parts, queue: &Queue) -> bool
    ensures { (s : System) → result ≡ has_place (with_tables s parts.now) queue.now }
{
    parts.next_run() < END_OF_RUNS && parts.places_taken(&queue.name) < u32::from(places(queue))
}

// What is told of the start of a job in a queue.
fn start_of(parts: &Parts, entry: &Entry, queue: &Queue) -> Start
    ensures { (s : System) → result
        ≡ start_of (with_tables s parts.now) (record { entry = entry.now; queue = queue.now }) }
{
    Start {
        entry: entry.number,
        name: entry.name,
        home: entry.home,
        queue: queue.name,
        run: parts.next_run(),
    }
}

// Whether a queue starts jobs, run numbers are left and it has a place: else none of its jobs is looked at.
fn takes_jobs(parts: &Parts, queue: &Queue) -> bool
    ensures { (s : System) → result ≡ takes_jobs (with_tables s parts.now) queue.now }
{
    if !is_execution_queue(queue.kind) {
        return false;
    }
    if !is_open_queue(parts, queue) {
        return false;
    }
    has_place(parts, queue)
}

/// What the queue at a place starts next, if run numbers are left, it has a place and a job fits it. One look at the row of its jobs
/// tells it; a queue that takes no job isn't looked at. It asks a logarithm of the queues that have runs, and one of the entries,
/// and takes no memory.
pub(crate) fn next_start<L: Ledger>(
    parts: &Parts,
    place: usize,
    looks: &mut Steps<L>,
) -> Option<Start>
    requires { place < length parts.now.queues }
    ensures start { (s : System) (q : AnyQueue)
        → result ≡ next_start (with_tables s parts.now) (slice_index_or parts.now.queues place q) }
    ensures looks { (s : System) (q : AnyQueue) → looks.new
        ≡ looks.old + looks_at (with_tables s parts.now) (slice_index_or parts.now.queues place q) }
{
    let queue = &parts.queues()[place];
    if !takes_jobs(parts, queue) {
        return None;
    }
    see_entries(parts);
    let Some(number) = parts.row_at(place).first(looks) else {
        return None;
    };
    match parts.entry(number) {
        None => None,
        Some(entry) => Some(start_of(parts, entry, queue)),
    }
}
