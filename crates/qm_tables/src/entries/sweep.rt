// Entries in boxes that a moment, a merge of queues or the end of their queue changes or takes away: one pass each, which
// moves no entry and takes no memory.
ghost use Rattle.std.specs.Prelude.{◌≡◌, ◌≤◌, map, count_by, vec_len, vec_capacity};
ghost use Rattle.qm_model.specs.Common.{state_at, is_over, entry_at, is_waiting};
ghost use Rattle.qm_model.specs.Merging.{moved_to, waits_in};
ghost use Rattle.qm_tables.specs.Boxed.{contents};
ghost use Rattle.qm_tables.specs.Entries.{without_home, without_over};

use qm_kinds::{Entry, EntryState, Moment, Name};

// Whether a job is retained until a moment that has come.
fn is_over(now: Moment, state: &EntryState) -> bool
    ensures { result ≡ is_over now state.now }
{
    match *state {
        EntryState::Retained {
            until: Some(until),
            ..
        } => until <= now,
        _ => false,
    }
}

// The state as the moment finds it.
fn state_at(now: Moment, state: &EntryState) -> EntryState
    ensures { result ≡ state_at now state.now }
{
    match *state {
        EntryState::Timed { at } if at <= now => EntryState::Pending,
        same => same,
    }
}

// Makes the entry what the moment finds.
fn wake_one(now: Moment, entry: &mut Entry)
    ensures { entry.new ≡ entry_at now entry.old }
{
    entry.state = state_at(now, &entry.state);
}

// Whether a job in this state waits: for its start, for its release or for its moment.
fn is_waiting(state: &EntryState) -> bool
    ensures { result ≡ is_waiting state.now }
{
    matches!(
        *state,
        EntryState::Pending | EntryState::Holding | EntryState::Timed { .. }
    )
}

// Gives the job another home, if it waits in this queue, and says whether it does.
fn merge_one(entry: &mut Entry, to: &Name, from: &Name) -> bool
    ensures waits { result ≡ waits_in from.now entry.old }
    ensures entry { entry.new ≡ moved_to to.now from.now entry.old }
{
    if !is_waiting(&entry.state) || entry.home != *from {
        return false;
    }
    entry.home = *to;
    true
}

/// Takes out the entries whose time is up, and frees their boxes.
pub(crate) fn remove_over(boxes: &mut Vec<Box<Entry>>, now: Moment)
    ensures contents { contents boxes.new.items ≡ without_over now (contents boxes.old.items) }
    ensures len { vec_len boxes.new ≤ vec_len boxes.old }
    ensures capacity { vec_capacity boxes.new ≡ vec_capacity boxes.old }
{
    boxes.retain(|entry| !is_over(now, &entry.state));
}

/// Takes out the entries of a home, and frees their boxes.
pub(crate) fn remove_of_home(boxes: &mut Vec<Box<Entry>>, home: &Name)
    ensures contents { contents boxes.new.items ≡ without_home home.now (contents boxes.old.items) }
    ensures len { vec_len boxes.new ≤ vec_len boxes.old }
    ensures capacity { vec_capacity boxes.new ≡ vec_capacity boxes.old }
{
    boxes.retain(|entry| entry.home != *home);
}

/// Makes each entry what the moment finds.
pub(crate) fn wake(boxes: &mut [Box<Entry>], now: Moment)
    ensures { contents boxes.new ≡ map (entry_at now) (contents boxes.old) }
{
    for entry in boxes.iter_mut() {
        wake_one(now, entry.as_mut());
    }
}

/// Gives each job that waits in a queue another home, and tells how many there were.
pub(crate) fn merge(boxes: &mut [Box<Entry>], to: &Name, from: &Name) -> usize
    ensures contents { contents boxes.new ≡ map (moved_to to.now from.now) (contents boxes.old) }
    ensures moved { result ≡ count_by (waits_in from.now) (contents boxes.old) }
{
    let mut moved = 0;
    for entry in boxes.iter_mut() {
        if merge_one(entry.as_mut(), to, from) {
            moved += 1;
        }
    }
    moved
}
