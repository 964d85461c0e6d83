// A queue and its job, from their coming to their end.
ghost use Rattle.std.specs.Prelude.{◌≡◌, []};

use crate::tables::rows::job;
use crate::tables::sites::{nodes_alone, put_job, put_queue};
use qm_kinds::{Characteristic, Fate, Name, QueueState, Seq, batch_queue, system_user};
use qm_parts::Parts;
use std::alloc::{AllocError, Global};
use std::test::Fail;

// Defines a characteristic, the first one.
fn define(parts: &mut Parts) -> Result<(), AllocError>
    requires { parts.old.characteristics ≡ [] }
    ensures entries { parts.new.entries ≡ parts.old.entries }
    ensures next_run { parts.new.next_run ≡ parts.old.next_run }
{
    parts.reserve_characteristic()?;
    parts.define_characteristic(Characteristic {
        name: batch_queue(),
        number: 127,
    });
    Ok(())
}

// Starts a job as run 1, the first job of all.
fn start_first(parts: &mut Parts) -> Result<(), AllocError>
    requires entries { parts.old.entries ≡ [] }
    requires next_run { parts.old.next_run ≡ 1 }
{
    put_job(parts, job(7, 100))?;
    parts.reserve_runs(1)?;
    parts.start(7, batch_queue(), system_user());
    Ok(())
}

// Fills empty tables with a characteristic, a queue, and a job that runs in it as run 1.
fn fill(alloc: Global, parts: &mut Parts) -> Result<(), AllocError>
    requires characteristics { parts.old.characteristics ≡ [] }
    requires entries { parts.old.entries ≡ [] }
    requires next_run { parts.old.next_run ≡ 1 }
{
    define(parts)?;
    put_queue(alloc, parts)?;
    start_first(parts)
}

// Moves the jobs that wait in a queue to another one, and tells how many there were.
fn merge(parts: &mut Parts, to: &Name, from: &Name) -> Result<usize, AllocError> {
    let jobs = parts.count_at_home(from);
    parts.reserve_places(to, jobs)?;
    Ok(parts.merge(to, from))
}

// Whether job 7 runs in the batch queue as run 1, the first of all.
fn shows_run(parts: &Parts, name: &Name, node: &Name) -> [bool; 6] {
    [
        parts.next_run() == 2,
        parts.has_run(1),
        parts.places_taken(name) == 1,
        parts.entry_of_run(1, node).is_some(),
        parts.running_in(name, None).is_some(),
        parts.first_run_for(name) == Some(7),
    ]
}

// Starts a job and merges its queue into another. It tells whether the job runs, and how many jobs were moved.
fn run_and_merge(alloc: Global, parts: &mut Parts) -> Result<([bool; 6], usize), AllocError>
    requires characteristics { parts.old.characteristics ≡ [] }
    requires entries { parts.old.entries ≡ [] }
    requires next_run { parts.old.next_run ≡ 1 }
{
    fill(alloc, parts)?;
    let (name, node) = (batch_queue(), system_user());
    let shown = shows_run(parts, &name, &node);
    Ok((shown, merge(parts, &node, &name)?))
}

#[test]
fn a_job_runs(rt: HostRuntime) -> Result<(), Fail> {
    let mut parts = nodes_alone(rt.alloc(), Seq::new(rt.alloc()), 1)?;
    let end = run_and_merge(rt.alloc(), &mut parts);
    drop(parts);
    assert!(rt; end? == ([true; 6], 0));
    Ok(())
}

// Takes out an entry, and stops each queue that is stopping once it has no run. It tells whether the entry was there, and the
// state of a queue.
fn remove(parts: &mut Parts, number: u32, name: &Name) -> (bool, Option<QueueState>) {
    let removed = parts.remove_entry(number).is_some();
    parts.stop_idle();
    (removed, parts.queue(name).map(|queue| queue.state))
}

// Lets job 7 go, which runs, and then its queue, which is stopping. It tells whether no other job runs, whether the queue is
// still stopping where another job is taken out and stopped where this one is, and whether it is free then and goes.
fn let_go(parts: &mut Parts, name: &Name) -> [bool; 5] {
    parts.reset_queue(name);
    let is_alone = parts.running_in(name, Some(7)).is_none();
    parts.set_fate(7, Fate::Remove);
    parts.set_queue_state(name, QueueState::Stopping);
    let is_stopping = remove(parts, 8, name) == (false, Some(QueueState::Stopping));
    let is_stopped = remove(parts, 7, name) == (true, Some(QueueState::Stopped));
    let is_free = !parts.is_occupied(name);
    parts.remove_queue(name);
    let is_gone = parts.queues().is_empty();
    [is_alone, is_stopping, is_stopped, is_free, is_gone]
}

// A job comes, runs, and goes.
fn come_and_go(alloc: Global, parts: &mut Parts) -> Result<[bool; 5], AllocError>
    requires characteristics { parts.old.characteristics ≡ [] }
    requires entries { parts.old.entries ≡ [] }
    requires next_run { parts.old.next_run ≡ 1 }
{
    fill(alloc, parts)?;
    Ok(let_go(parts, &batch_queue()))
}

#[test]
fn a_job_goes(rt: HostRuntime) -> Result<(), Fail> {
    let mut parts = nodes_alone(rt.alloc(), Seq::new(rt.alloc()), 1)?;
    let end = come_and_go(rt.alloc(), &mut parts);
    drop(parts);
    assert!(rt; end? == [true; 5]);
    Ok(())
}
