// Entries that come, change and go.
ghost use Rattle.std.specs.Prelude.{◌≡◌, ◌<◌, ◌++◌, ◌∷◌, [], All, None, OnOk};
ghost use Rattle.qm_model.specs.Standing.{with_entry};

use crate::tables::rows::job;
use qm_kinds::{Entry, EntryState, Mark, Moment, Name, batch_queue, print_queue};
use qm_tables::EntryTable;
use std::alloc::AllocError;
use std::test::Fail;

// Puts in an entry, behind the others.
fn put(table: &mut EntryTable, entry: Entry) -> Result<(), AllocError>
    requires { All (λ e. e.number < entry.number) table.old.entries }
    ensures { OnOk result (table.new.entries ≡ table.old.entries ++ entry ∷ []) }
{
    table.reserve()?;
    table.insert(entry);
    Ok(())
}

// Takes out an entry, and says whether it was there.
fn remove(table: &mut EntryTable, number: u32) -> bool
    ensures { table.new.entries ≡ with_entry number (λ e. None) table.old.entries }
{
    table.remove(number).is_some()
}

// The number of the first entry behind this number.
fn number_after(table: &EntryTable, number: u32) -> Option<u32> {
    table.after(number).map(|entry| entry.number)
}

// The home of an entry.
fn home_of(table: &EntryTable, number: u32) -> Option<Name> {
    table.get(number).map(|entry| entry.home)
}

// The state of an entry.
fn state_of(table: &EntryTable, number: u32) -> Option<EntryState> {
    table.get(number).map(|entry| entry.state)
}

// Sets fields of the entries 5 and 7, and of one that isn't there, and says each time whether it was there.
fn set_each(table: &mut EntryTable, mark: Mark) -> [bool; 5] {
    [
        table.set_state(5, EntryState::Holding),
        table.set_mark(7, mark),
        table.set_again(7),
        table.set_home(7, print_queue()),
        table.set_again(6),
    ]
}

// Whether the entries 5 and 7 stand by number, and 7 has this checkpoint and another home.
fn are_found(table: &EntryTable, mark: Mark) -> [bool; 6] {
    [
        number_after(table, 0) == Some(5),
        number_after(table, 5) == Some(7),
        number_after(table, 6) == Some(7),
        number_after(table, 7).is_none(),
        table.get(7).map(|entry| entry.mark) == Some(mark),
        home_of(table, 7) == Some(print_queue()),
    ]
}

// Replaces and takes out entry 7, and another one that isn't there, and says each time whether it was there. What stands then
// is as it was put there.
fn replace_and_remove(table: &mut EntryTable) -> [bool; 6] {
    [
        table.replace(job(7, 100)).is_some(),
        table.replace(job(6, 100)).is_some(),
        table.get(7).map(|entry| entry.again) == Some(false),
        remove(table, 7),
        remove(table, 7),
        state_of(table, 5) == Some(EntryState::Holding),
    ]
}

// Two entries come, change, stand by number, and one is replaced and goes.
fn stand_by_number(
    table: &mut EntryTable,
    mark: Mark,
) -> Result<([bool; 5], [bool; 6], [bool; 6]), AllocError>
    requires { table.old.entries ≡ [] }
{
    put(table, job(5, 100))?;
    put(table, job(7, 100))?;
    let set = set_each(table, mark);
    let found = are_found(table, mark);
    Ok((set, found, replace_and_remove(table)))
}

#[test]
fn entries_stand_by_number(rt: HostRuntime) -> Result<(), Fail> {
    let mark = Mark::new(b"page 2")?;
    let mut table = EntryTable::new(rt.alloc());
    let end = stand_by_number(&mut table, mark);
    drop(table);
    let (set, found, gone) = end?;
    assert!(rt; set == [true, true, true, true, false]);
    assert!(rt; found == [true; 6]);
    assert!(rt; gone == [true, false, true, true, false, true]);
    Ok(())
}

// The last two entries, of the numbers 4 and 5, go.
fn go(table: &mut EntryTable) -> [bool; 7] {
    [
        table.get(1).is_none(),
        table.as_slice().len() == 2,
        home_of(table, 4) == Some(print_queue()),
        remove(table, 4),
        number_after(table, 0) == Some(5),
        remove(table, 5),
        table.as_slice().is_empty(),
    ]
}

// The first entries go, while others come, and then these.
fn come_and_go(table: &mut EntryTable) -> Result<([bool; 5], [bool; 7]), AllocError>
    requires { table.old.entries ≡ [] }
{
    put(table, job(1, 100))?;
    put(table, job(2, 100))?;
    put(table, job(3, 100))?;
    let first = remove(table, 1);
    put(table, job(4, 100))?;
    let is_next = number_after(table, 0) == Some(2);
    let is_set = table.set_home(4, print_queue());
    let third = remove(table, 3);
    let second = remove(table, 2);
    put(table, job(5, 100))?;
    Ok(([first, is_next, is_set, third, second], go(table)))
}

#[test]
fn first_entries_go_while_others_come(rt: HostRuntime) -> Result<(), Fail> {
    let mut table = EntryTable::new(rt.alloc());
    let end = come_and_go(&mut table);
    drop(table);
    let (first, last) = end?;
    assert!(rt; first == [true; 5]);
    assert!(rt; last == [true; 7]);
    Ok(())
}

// A job in this state.
fn job_in(state: EntryState, number: u32) -> Entry
    ensures { result.number ≡ number }
{
    Entry {
        state,
        ..job(number, 100)
    }
}

// A job that waits for this moment, and one that is retained until then.
fn put_two(table: &mut EntryTable, due: Moment) -> Result<(), AllocError>
    requires { table.old.entries ≡ [] }
{
    put(table, job_in(EntryState::Timed { at: due }, 1))?;
    let retained = EntryState::Retained {
        status: 1,
        until: Some(due),
    };
    put(table, job_in(retained, 2))
}

// A moment, a merge and the end of a queue sweep two entries.
fn sweep(table: &mut EntryTable, due: Moment) -> Result<[bool; 5], AllocError>
    requires { table.old.entries ≡ [] }
{
    put_two(table, due)?;
    table.remove_over(due);
    table.wake(due);
    let is_woken = state_of(table, 1) == Some(EntryState::Pending);
    let is_alone = table.as_slice().len() == 1;
    let is_moved = table.merge(&print_queue(), &batch_queue()) == 1;
    table.remove_of_home(&batch_queue());
    let is_left = table.as_slice().len() == 1;
    table.remove_of_home(&print_queue());
    let is_gone = table.as_slice().is_empty();
    Ok([is_woken, is_alone, is_moved, is_left, is_gone])
}

#[test]
fn a_moment_a_merge_and_the_end_of_a_queue_sweep_the_entries(rt: HostRuntime) -> Result<(), Fail> {
    let mut table = EntryTable::new(rt.alloc());
    let end = sweep(&mut table, Moment::BASE);
    drop(table);
    assert!(rt; end? == [true; 5]);
    Ok(())
}
