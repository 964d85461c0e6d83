// What is asked of the runs.
ghost use Rattle.std.specs.Prelude.{◌≡◌, ◌==◌, find, filter, count_by, min};
ghost use Rattle.std.specs.List.{list_any};
ghost use Rattle.std.specs.Option.{option_copied, option_map, option_map_or};
ghost use Rattle.std.specs.Ordering.{nat_cmp};
ghost use Rattle.qm_model.specs.Common.{IsInOrder, places_taken, runs_for, occupies, has_run};
ghost use Rattle.qm_model.specs.Stopping.{is_running_in, the_only_one, job_meant};
ghost use Rattle.qm_parts.specs.ByRun.{AreByRun};
ghost use Rattle.qm_parts.specs.Mirror.{Mirrors, is_live_in, is_run_for};
ghost use Rattle.qm_parts.specs.Runs.{least_entry, running_in, running_on};

use crate::tables::TableSet;
use qm_kinds::{Entry, EntryState, Name, Run};
use qm_tables::{EntryTable, Runs};

impl TableSet {
    /// How many places of a queue are taken by runs, aborting or not. It asks a logarithm of the queues that have runs.
    pub fn places_taken(&self, queue: &Name) -> u32
        ensures { result ≡ places_taken self.now.entries queue.now }
    {
        self.runs.in_use(queue)
    }

    /// Whether a queue has a run, aborting or not. It asks a logarithm of the queues that have runs.
    pub fn is_occupied(&self, queue: &Name) -> bool
        ensures { result ≡ list_any (occupies queue.now) self.now.entries }
    {
        self.runs.in_use(queue) > 0
    }

    /// Whether an entry has the run of a number. It asks a logarithm of the runs.
    pub fn has_run(&self, run: u64) -> bool
        ensures { result ≡ list_any (has_run run) self.now.entries }
    {
        self.runs.find(run).is_some()
    }

    /// The entry that has the run of a number, where it runs on the node. It asks a logarithm of the runs, and one of the
    /// entries.
    pub fn entry_of_run(&self, run: u64, node: &Name) -> Option<&Entry>
        ensures { option_copied result ≡ running_on run node.now self.now.entries }
    {
        let Some(found) = self.runs.find(run) else {
            return None;
        };
        if found.node != *node {
            return None;
        }
        self.entries.get(found.entry)
    }

    /// The runs, in order of their numbers. Those of a node are those of the entries that run or are aborting there.
    pub fn runs(&self) -> &[Run]
        ensures { AreByRun self.now.entries result.now }
    {
        see_order(&self.entries, &self.runs);
        self.runs.as_slice()
    }

    /// The job that runs in the queue and isn't aborting: the one of the number, or the only one. It looks at each run, and
    /// asks a logarithm of the entries for each one of the queue.
    pub fn running_in(&self, queue: &Name, number: Option<u32>) -> Option<&Entry>
        ensures { option_copied result ≡ job_meant number (running_in queue.now self.now.entries) }
    {
        see_order(&self.entries, &self.runs);
        match number {
            None => only_running(&self.entries, self.runs.as_slice(), queue),
            Some(number) => running_numbered(&self.entries, queue, number),
        }
    }

    /// The least number of an entry that has a run, and has the queue as its home or runs there. It asks a logarithm of the
    /// entries for each run.
    pub fn first_run_for(&self, queue: &Name) -> Option<u32>
        ensures { result ≡ option_map (λ e. e.number) (find (runs_for queue.now) self.now.entries) }
    {
        see_order(&self.entries, &self.runs);
        least_of_runs(&self.entries, self.runs.as_slice(), queue)
    }
}

/// That entries and runs stand in order of their numbers. It costs nothing.
pub(crate) fn see_order(entries: &EntryTable, runs: &Runs)
    ensures entries { IsInOrder nat_cmp (λ e. e.number) entries.now.entries }
    ensures runs { IsInOrder nat_cmp (λ r. r.run) runs.now.runs }
{
    let _ = entries.len();
    let _ = runs.as_slice();
}

/// Whether an entry runs in a queue, and isn't aborting.
pub(crate) fn is_running_in(entry: &Entry, name: &Name) -> bool
    ensures { result ≡ is_running_in name.now entry.now.state }
{
    match &entry.state {
        EntryState::Running { queue, .. } => *queue == *name,
        _ => false,
    }
}

// The run is in the queue, and its entry isn't aborting.
fn is_live_in(entries: &EntryTable, queue: &Name, run: &Run) -> bool
    ensures { result ≡ is_live_in entries.now.entries queue.now run.now }
{
    if run.queue != *queue {
        return false;
    }
    match entries.get(run.entry) {
        None => false,
        Some(entry) => is_running_in(entry, queue),
    }
}

// The job of the number, if it runs in the queue and isn't aborting.
fn running_numbered<'a>(entries: &'a EntryTable, queue: &Name, number: u32) -> Option<&'a Entry>
    ensures { option_copied result
        ≡ find (λ e. e.number == number) (running_in queue.now entries.now.entries) }
{
    let Some(entry) = entries.get(number) else {
        return None;
    };
    if is_running_in(entry, queue) {
        Some(entry)
    } else {
        None
    }
}

// How many runs are in the queue and aren't aborting.
fn count_live(entries: &EntryTable, runs: &[Run], queue: &Name) -> usize
    ensures { result ≡ count_by (is_live_in entries.now.entries queue.now) runs.now }
{
    let mut count = 0usize;
    for run in runs {
        if is_live_in(entries, queue, run) {
            count += 1;
        }
    }
    count
}

// The first run that is in the queue and isn't aborting.
fn first_live<'a>(entries: &EntryTable, runs: &'a [Run], queue: &Name) -> Option<&'a Run>
    ensures { option_copied result ≡ find (is_live_in entries.now.entries queue.now) runs.now }
{
    for run in runs {
        if is_live_in(entries, queue, run) {
            return Some(run);
        }
    }
    None
}

// The job that runs in the queue and isn't aborting, if there is just one.
fn only_running<'a>(entries: &'a EntryTable, runs: &[Run], queue: &Name) -> Option<&'a Entry>
    requires mirror { Mirrors runs.now entries.now.entries }
    requires in_order { IsInOrder nat_cmp (λ e. e.number) entries.now.entries }
    ensures { option_copied result ≡ the_only_one (running_in queue.now entries.now.entries) }
{
    if count_live(entries, runs, queue) != 1 {
        return None;
    }
    let Some(run) = first_live(entries, runs, queue) else {
        return None;
    };
    entries.get(run.entry)
}

// The run is in the queue, or the queue is the home of its entry.
fn is_run_for(entries: &EntryTable, queue: &Name, run: &Run) -> bool
    ensures { result ≡ is_run_for entries.now.entries queue.now run.now }
{
    if run.queue == *queue {
        return true;
    }
    match entries.get(run.entry) {
        None => false,
        Some(entry) => entry.home == *queue,
    }
}

/// The lesser one of a number and the one that is known so far, if there is one.
pub(crate) fn lesser(least: Option<u32>, number: u32) -> u32
    ensures { result ≡ option_map_or (λ n. min n number) least number }
{
    match least {
        None => number,
        Some(least) => least.min(number),
    }
}

// The least number of an entry whose run is for the queue.
fn least_of_runs(entries: &EntryTable, runs: &[Run], queue: &Name) -> Option<u32>
    ensures { result ≡ least_entry (filter (is_run_for entries.now.entries queue.now) runs.now) }
{
    let mut least = None;
    for run in runs {
        if is_run_for(entries, queue, run) {
            least = Some(lesser(least, run.entry));
        }
    }
    least
}
