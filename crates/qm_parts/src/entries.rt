// What becomes of entries, and of their runs.
ghost use Rattle.std.specs.Prelude.{◌≡◌, ◌≤◌, ◌<◌, ◌+◌, ◌-◌, ◌++◌, ◌∷◌, [], All, None, Some};
ghost use Rattle.qm_model.specs.Common.{Pending, END_OF_RUNS, entry_numbered, run_of, with_entry};
ghost use Rattle.qm_tables.specs.Entries.{without_entry};
ghost use Rattle.qm_parts.specs.Mirror.{run_of_entry};
ghost use Rattle.qm_parts.specs.Runs.{CanPutRun, CanRestoreRun, EndsRun, KeepsRun, PutsRun, state_numbered, run_room_with, with_running};

use crate::running::see_order;
use crate::tables::TableSet;
use qm_kinds::{Entry, EntryState, Name, Run};
use qm_tables::Runs;

impl TableSet {
    /// Puts in an entry that has no run, and for which there is room. Its number is greater than all others. It moves no
    /// entry.
    pub fn insert_entry(&mut self, entry: Entry)
        requires room { 0 < self.old.spare_entries }
        requires last { All (λ e. e.number < entry.number) self.old.entries }
        requires no_run { run_of entry.state ≡ None }
        ensures { self.new ≡ record self.old {
          entries = self.old.entries ++ entry ∷ [];
          spare_entries = self.old.spare_entries - 1;
        } }
    {
        self.entries.insert(entry);
    }

    /// Puts in an entry as it was kept, with the run that it may have, for both of which there is room. Its number is greater
    /// than all others; the run's number was given, and no entry has it. It moves the runs of greater numbers.
    pub fn restore_entry(&mut self, entry: Entry)
        requires room { 0 < self.old.spare_entries }
        requires last { All (λ e. e.number < entry.number) self.old.entries }
        requires run { CanRestoreRun entry self.old }
        ensures { self.new ≡ record self.old {
          entries = self.old.entries ++ entry ∷ [];
          spare_entries = self.old.spare_entries - 1;
          spare_runs = run_room_with entry self.old.spare_runs;
        } }
    {
        put_run(&mut self.runs, &entry);
        self.entries.insert(entry);
    }

    /// Takes out the entry of a number and the run that it may have, and gives the entry. Where there is none, nothing
    /// changes. It asks logarithms of the entries and the runs, and moves the places that stand behind.
    pub fn remove_entry(&mut self, number: u32) -> Option<Entry>
        ensures removed { result ≡ entry_numbered number self.old.entries }
        ensures room { self.old.spare_runs ≤ self.new.spare_runs }
        ensures tables { self.new ≡ record self.old {
          entries = without_entry number self.old.entries;
          spare_runs = self.new.spare_runs;
        } }
    {
        see_order(&self.entries, &self.runs);
        let Some(entry) = self.entries.remove(number) else {
            return None;
        };
        end_run(&mut self.runs, &entry.state);
        Some(entry)
    }

    /// Puts an entry in the place of the one of its number, whose run it keeps or has no more. Where there is none, nothing
    /// changes. It asks logarithms of the entries and the runs, and moves the runs that stand behind.
    pub fn replace_entry(&mut self, entry: Entry)
        requires { KeepsRun entry self.old.entries }
        ensures room { self.old.spare_runs ≤ self.new.spare_runs }
        ensures tables { self.new ≡ record self.old {
          entries = with_entry entry.number (λ e. Some entry) self.old.entries;
          spare_runs = self.new.spare_runs;
        } }
    {
        see_order(&self.entries, &self.runs);
        let Some(old) = self.entries.replace(entry) else {
            return;
        };
        if run_of(&entry.state).is_none() {
            end_run(&mut self.runs, &old.state);
        }
    }

    /// Makes a pending job run, in a queue and on a node, under the next run number, which it gives. There is room for one
    /// run more. It asks a logarithm of the entries. The numbers of runs end at 2^63.
    pub fn start(&mut self, number: u32, queue: Name, node: Name) -> u64
        requires room { 0 < self.old.spare_runs }
        requires numbers { self.old.next_run < END_OF_RUNS }
        requires pending { state_numbered number self.old.entries ≡ Some Pending }
        ensures run { result ≡ self.old.next_run }
        ensures tables { self.new ≡ record self.old {
          entries = with_running number queue node self.old.next_run self.old.entries;
          next_run = self.old.next_run + 1;
          spare_runs = self.old.spare_runs - 1;
        } }
    {
        see_order(&self.entries, &self.runs);
        let run = self.runs.start(number, queue, node);
        self.entries
            .set_state(number, EntryState::Running { queue, node, run });
        run
    }
}

// The number of the run that an entry in this state has.
fn run_of(state: &EntryState) -> Option<u64>
    ensures { result ≡ run_of state.now }
{
    match *state {
        EntryState::Running { run, .. } | EntryState::Aborting { run, .. } => Some(run),
        _ => None,
    }
}

// The run of an entry.
fn run_of_entry(entry: &Entry) -> Option<Run>
    ensures { result ≡ run_of_entry entry.now }
{
    match entry.state {
        EntryState::Running { queue, node, run }
        | EntryState::Aborting {
            queue,
            node,
            run,
            ..
        } => {
            Some(Run {
                run,
                entry: entry.number,
                queue,
                node,
            })
        }
        _ => None,
    }
}

// Puts in the run of an entry, if it has one.
fn put_run(runs: &mut Runs, entry: &Entry)
    requires { CanPutRun entry.now runs.old }
    ensures runs { PutsRun (run_of_entry entry.now) runs.old.runs runs.new.runs }
    ensures next { runs.new.next ≡ runs.old.next }
    ensures spare { runs.new.spare ≡ run_room_with entry.now runs.old.spare }
{
    if let Some(run) = run_of_entry(entry) {
        runs.put(run);
    }
}

// Takes out the run that an entry in this state has.
fn end_run(runs: &mut Runs, state: &EntryState)
    ensures runs { EndsRun (run_of state.now) runs.old.runs runs.new.runs }
    ensures next { runs.new.next ≡ runs.old.next }
    ensures spare { runs.old.spare ≤ runs.new.spare }
{
    if let Some(run) = run_of(state) {
        runs.end(run);
    }
}
