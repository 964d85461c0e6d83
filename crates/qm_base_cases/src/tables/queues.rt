// Queues that come, are set and go.
use crate::tables::rows::queue;
use qm_kinds::{Name, QueueState, batch_queue, print_queue, system_user};
use qm_tables::{QueueTable, Settings};
use std::alloc::{AllocError, Global};
use std::test::Fail;

// Puts in a queue of this name, and says whether it replaces another.
fn put(alloc: Global, table: &mut QueueTable, name: Name) -> Result<bool, AllocError> {
    table.reserve()?;
    Ok(table.put(queue(alloc, name)).is_some())
}

// Sets the least and the greatest size of the jobs of a queue, and says whether it is there.
fn set_sizes(table: &mut QueueTable, name: &Name, sizes: (u32, u32)) -> bool {
    let settings = Settings {
        limit: None,
        characteristics: None,
        mounted: None,
        sizes: Some(sizes),
        by_size: None,
        retain: None,
    };
    table.set(name, &settings, None)
}

// Removes a queue twice, and says each time whether it was there.
fn remove_twice(table: &mut QueueTable, name: &Name) -> [bool; 2] {
    [table.remove(name).is_some(), table.remove(name).is_some()]
}

// Puts in `SYS$PRINT`, `SYSTEM` and `SYS$BATCH`, and one of them again, which replaces the first.
fn put_three(alloc: Global, table: &mut QueueTable) -> Result<[bool; 4], AllocError> {
    Ok([
        put(alloc, table, print_queue())?,
        put(alloc, table, system_user())?,
        put(alloc, table, batch_queue())?,
        put(alloc, table, system_user())?,
    ])
}

// The name of the first queue behind this name.
fn name_after(table: &QueueTable, name: Option<Name>) -> Option<Name> {
    table.after(name.as_ref()).map(|queue| queue.name)
}

// Whether the three stand by name.
fn stand_by_name(table: &QueueTable, [batch, print, other]: [Name; 3]) -> [bool; 5] {
    [
        table.as_slice().len() == 3,
        name_after(table, None) == Some(batch),
        name_after(table, Some(batch)) == Some(print),
        name_after(table, Some(print)) == Some(other),
        name_after(table, Some(other)).is_none(),
    ]
}

// Whether `SYS$PRINT` is set, and goes, and whether it can be set then.
fn set_and_remove(table: &mut QueueTable, print: &Name) -> [bool; 5] {
    let is_state_set = table.set_state(print, QueueState::Paused);
    let are_sizes_set = set_sizes(table, print, (2, 9));
    let set = table.get(print).map(|queue| (queue.upper, queue.state));
    [
        is_state_set,
        are_sizes_set,
        set == Some((9, QueueState::Paused)),
        remove_twice(table, print) == [true, false],
        table.set_state(print, QueueState::Stopped),
    ]
}

// Three queues come, and one is set and goes. It tells which of them that come replaced others.
fn come_and_go(
    alloc: Global,
    table: &mut QueueTable,
) -> Result<([bool; 4], [bool; 5], [bool; 5]), AllocError> {
    let replaced = put_three(alloc, table)?;
    let stand = stand_by_name(table, [batch_queue(), print_queue(), system_user()]);
    Ok((replaced, stand, set_and_remove(table, &print_queue())))
}

#[test]
fn queues_stand_by_name(rt: HostRuntime) -> Result<(), Fail> {
    let mut table = QueueTable::new(rt.alloc());
    let end = come_and_go(rt.alloc(), &mut table);
    let is_left = table.get(&system_user()).is_some();
    drop(table);
    let (replaced, stand, set) = end?;
    assert!(rt; replaced == [false, false, false, true]);
    assert!(rt; stand == [true; 5]);
    assert!(rt; set == [true, true, true, true, false]);
    assert!(rt; is_left);
    Ok(())
}
