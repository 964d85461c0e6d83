// Which jobs fit a queue, and in which order it takes them.
use crate::tables::rows;
use qm_kinds::{
    CharacteristicSet, Entry, EntryState, JobKind, Name, Queue, QueueKind, QueueState, Seq,
    batch_queue, default_form, print_queue, system_user,
};
use qm_match::{Key, Schedule, before, is_same_stock, passes_on_to, suits};
use std::alloc::{AllocError, Global};
use std::test::Fail;

// A started print queue with the characteristics of numbers 0, 1 and 2, for jobs of one or two blocks.
fn printer(alloc: Global) -> Queue {
    Queue {
        kind: QueueKind::Print,
        ..rows::queue(alloc, print_queue())
    }
}

#[test]
fn jobs_suit_a_queue_by_state_kind_characteristics_and_size(rt: HostRuntime) {
    let queue = printer(rt.alloc());
    // A job by its state, its kind, the set of its characteristics and its size, and whether it suits.
    let cases = [
        (EntryState::Pending, JobKind::Print, 5, 2, true),
        (EntryState::Holding, JobKind::Print, 5, 2, false),
        (EntryState::Pending, JobKind::Batch, 5, 2, false),
        (EntryState::Pending, JobKind::Print, 8, 2, false),
        (EntryState::Pending, JobKind::Print, 5, 3, false),
        (EntryState::Pending, JobKind::Print, 5, 0, false),
    ];
    for (state, kind, characteristics, size, expected) in cases {
        let entry = Entry {
            kind,
            home: print_queue(),
            size,
            characteristics: CharacteristicSet(characteristics),
            state,
            ..rows::job(1, 100)
        };
        assert!(rt; suits(&entry, &queue) == expected);
    }
}

// Whether a generic queue in this state, which names the print queue, passes jobs on to the queue of a name.
fn passes(alloc: Global, state: QueueState, name: &Name) -> Result<bool, AllocError> {
    let generic = Queue {
        name: batch_queue(),
        kind: QueueKind::GenericPrint,
        state,
        node: None,
        device: None,
        mounted: None,
        targets: Seq::of(vec![in alloc; print_queue()]?),
        ..printer(alloc)
    };
    Ok(passes_on_to(&generic, name))
}

#[test]
fn a_started_generic_queue_passes_jobs_on(rt: HostRuntime) -> Result<(), Fail> {
    for (state, name, expected) in [
        (QueueState::Started, print_queue(), true),
        (QueueState::Started, batch_queue(), false),
        (QueueState::Stopped, print_queue(), false),
    ] {
        assert!(rt; passes(rt.alloc(), state, &name)? == expected);
    }
    Ok(())
}

#[test]
fn stocks_are_the_same_where_both_are_there(rt: HostRuntime) {
    let (white, blue) = (Some(default_form()), Some(system_user()));
    for (wanted, mounted, expected) in [
        (&white, &white, true),
        (&white, &blue, false),
        (&white, &None, false),
        (&None, &None, false),
    ] {
        assert!(rt; is_same_stock(wanted, mounted) == expected);
    }
}

#[test]
fn jobs_go_by_priority_size_and_number(rt: HostRuntime) -> Result<(), Fail> {
    // Keys from the first to the last in each schedule.
    let by_size = [
        (255, 9, 9),
        (100, 1, 8),
        (100, 2, 3),
        (100, 2, 4),
        (0, 0, 1),
    ];
    let by_number = [
        (255, 9, 9),
        (100, 2, 3),
        (100, 2, 4),
        (100, 1, 8),
        (0, 0, 1),
    ];
    for (schedule, keys) in [(Schedule::BySize, by_size), (Schedule::ByNumber, by_number)] {
        let keys = keys.map(|(priority, size, number)| Key {
            priority,
            size,
            number,
        });
        for (i, a) in keys.iter().enumerate() {
            for (j, b) in keys.iter().enumerate() {
                assert!(rt; before(schedule, a, b) == (i < j));
            }
        }
    }
    Ok(())
}
