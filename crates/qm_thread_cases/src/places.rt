// Work at each place of two slices.
ghost use Rattle.std.specs.Prelude.{ℕ};

use qm_turn::{Work, work_on_each};
use std::alloc::Global;
use std::marker::Sync;
use std::test::Fail;
use std::thread::Threads;

// Counts the work at a place, and writes the place down.
#[derive(Drop)]
struct Counting;

impl Work<u32, usize> for Counting {
    ghost can_work = { λ work place count written. Unit {0} };

    ghost works = { λ work place count written count' written'. Unit {0} };

    fn work(&self, place: usize, count: &mut u32, written: &mut usize) {
        *count = count.saturating_add(1);
        *written = place;
    }
}

// The place from which the places are counted.
const FIRST: usize = 100;

// Whether the work was done once at each of so many places, and left its own place there.
fn are_worked_on<R: Threads + Sync>(rt: &R, alloc: Global, places: u8) -> Option<bool> {
    let mut counts = Vec::new(alloc);
    let mut written = Vec::new(alloc);
    for _ in 0..places {
        counts.push(0u32).ok()?;
        written.push(0usize).ok()?;
    }
    if counts.len() != places as usize || written.len() != places as usize {
        return None;
    }
    work_on_each(rt, &Counting, FIRST, &mut counts, &mut written);
    let mut holds = true;
    for (place, count) in counts.iter().enumerate() {
        holds = holds && *count == 1 && written.get(place)?.checked_sub(FIRST) == Some(place);
    }
    Some(holds)
}

#[test]
fn work_is_done_once_at_each_place(rt: HostRuntime) -> Result<(), Fail> {
    for places in [0, 1, 2, 3, 5, 8] {
        assert_eq!(rt;
            are_worked_on(&rt, rt.alloc(), places),
            Some(true),
            "of {places}"
        );
    }
    Ok(())
}
