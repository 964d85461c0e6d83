// Rows of keys: which job a queue takes first.
ghost use Rattle.std.specs.Prelude.{◌≡◌, ◌<◌, []};

use qm_match::{Key, Schedule};
use qm_ready::{ReadyRow, Steps};
use std::alloc::{AllocError, Global};
use std::marker::Brand;
use std::sync::ledger::{Blank, Ledger};
use std::test::Fail;

fn key(priority: u8, size: u32, number: u32) -> Key
    ensures { result ≡ record { priority = priority; size = size; number = number } }
{
    Key {
        priority,
        size,
        number,
    }
}

// The number of the first job, by steps of a ledger.
fn first_by<L: Ledger>(row: &ReadyRow, blank: Blank) -> Option<u32>
    requires name { blank.name ≡ L.name }
    requires parts { blank.parts ≡ L.parts }
    requires some { 0 < blank.parts }
{
    let mut steps = Steps::<L>::open(blank);
    row.first(&mut steps)
}

// The number of the first job. Nobody counts the looks.
fn first(row: &ReadyRow) -> Option<u32> {
    first_by::<Brand>(row, Blank::new(1))
}

// The row of three jobs, the last of which is the smallest.
fn three_jobs(alloc: Global) -> Result<ReadyRow, AllocError> {
    let mut row = ReadyRow::new(alloc, Schedule::ByNumber);
    row.reserve(3)?;
    let mut gathering = row.gather(Schedule::BySize);
    gathering.add(key(100, 7, 1));
    gathering.add(key(100, 6, 2));
    gathering.add(key(100, 5, 3));
    Ok(gathering.into_row())
}

// Puts in the first two jobs, of which the second is the smaller one.
fn put_two(row: &mut ReadyRow) -> Result<(), AllocError>
    requires { row.old.keys ≡ [] }
{
    row.reserve(1)?;
    row.insert(key(100, 9, 1));
    row.reserve(1)?;
    row.insert(key(100, 2, 2));
    Ok(())
}

#[test]
fn another_schedule_has_another_first_job(rt: HostRuntime) -> Result<(), Fail> {
    let mut row = ReadyRow::new(rt.alloc(), Schedule::BySize);
    assert!(rt; first(&row).is_none());
    put_two(&mut row)?;
    assert!(rt; first(&row) == Some(2));
    row.rebuild(Schedule::ByNumber);
    assert!(rt; first(&row) == Some(1));
    Ok(())
}

#[test]
fn jobs_go_in_the_order_of_starts(rt: HostRuntime) -> Result<(), Fail> {
    let mut row = three_jobs(rt.alloc())?;
    assert!(rt; matches!(row.schedule(), Schedule::BySize));
    // A key that isn't the job's takes nothing out.
    assert!(rt; !row.remove(&key(100, 9, 3)));
    assert!(rt; row.len() == 3);
    assert!(rt; row.get(1).map(|key| key.number) == Some(2));
    for (size, number) in [(5, 3), (6, 2), (7, 1)] {
        assert!(rt; first(&row) == Some(number));
        assert!(rt; row.remove(&key(100, size, number)));
    }
    assert!(rt; first(&row).is_none());
    Ok(())
}
