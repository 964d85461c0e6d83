// Jobs that are to be cut short.
ghost use Rattle.std.specs.Prelude.{◌≡◌, map};
ghost use Rattle.qm_model.specs.Stopping.{state_with_fate, with_fate, reset_fate, reset_in};
ghost use Rattle.qm_tables.specs.Changes.{with_changed};
ghost use Rattle.qm_parts.specs.Mirror.{reset_by};

use crate::running::{is_running_in, see_order};
use crate::tables::TableSet;
use qm_kinds::{Entry, EntryState, Fate, Name, Run};
use qm_tables::EntryTable;

impl TableSet {
    /// The run of the entry of a number, if it has one, is to be cut short, with this fate. It asks a logarithm of the
    /// entries.
    pub fn set_fate(&mut self, number: u32, fate: Fate)
        ensures { self.new ≡ record self.old {
          entries = with_changed number (with_fate fate) self.old.entries;
        } }
    {
        set_fate(&mut self.entries, number, fate);
    }

    /// The jobs that run in a queue are to be cut short. Those that may restart go back into their queue, and others end. It
    /// looks at each run, and asks a logarithm of the entries for each one of the queue.
    pub fn reset_queue(&mut self, queue: &Name)
        ensures { self.new ≡ record self.old {
          entries = map (reset_in queue.now) self.old.entries;
        } }
    {
        see_order(&self.entries, &self.runs);
        reset_each(&mut self.entries, self.runs.as_slice(), queue);
    }
}

// The state of a job that is to be cut short, with this fate.
fn state_with_fate(state: EntryState, fate: Fate) -> EntryState
    ensures { result ≡ state_with_fate fate state }
{
    match state {
        EntryState::Running { queue, node, run }
        | EntryState::Aborting {
            queue,
            node,
            run,
            ..
        } => {
            EntryState::Aborting {
                queue,
                node,
                run,
                fate,
            }
        }
        _ => state,
    }
}

// The run of the entry of a number, if it has one, is to be cut short, with this fate.
fn set_fate(entries: &mut EntryTable, number: u32, fate: Fate)
    ensures { entries.new ≡ record entries.old {
      entries = with_changed number (with_fate fate) entries.old.entries;
    } }
{
    let Some(entry) = entries.get(number) else {
        return;
    };
    let state = state_with_fate(entry.state, fate);
    entries.set_state(number, state);
}

// A job that may restart goes back into its queue, and another one ends.
fn reset_fate(entry: &Entry) -> Fate
    ensures { result ≡ reset_fate entry.now }
{
    if entry.restart {
        Fate::Requeue
    } else {
        Fate::Finish
    }
}

// The entry of a number, if it runs in the queue, is to be cut short.
fn reset_entry(entries: &mut EntryTable, number: u32, queue: &Name)
    ensures { entries.new ≡ record entries.old {
      entries = with_changed number (reset_in queue.now) entries.old.entries;
    } }
{
    let Some(entry) = entries.get(number) else {
        return;
    };
    if is_running_in(entry, queue) {
        let fate = reset_fate(entry);
        set_fate(entries, number, fate);
    }
}

// Each entry that has one of these runs in the queue is to be cut short, if it isn't yet.
fn reset_each(entries: &mut EntryTable, runs: &[Run], queue: &Name)
    ensures { entries.new ≡ record entries.old {
      entries = map (reset_by runs.now queue.now) entries.old.entries;
    } }
{
    for run in runs {
        if run.queue == *queue {
            reset_entry(entries, run.entry, queue);
        }
    }
}
