// Runs that begin and end.
use qm_kinds::{Name, Run, batch_queue, print_queue, system_user};
use qm_tables::Runs;
use std::alloc::AllocError;
use std::process::Abort;
use std::test::Fail;

// Puts in a run of a number that was given and has no run, and says whether it was such a one.
fn put(runs: &mut Runs, number: u64) -> Result<bool, AllocError> {
    runs.reserve()?;
    if number >= runs.next() || runs.find(number).is_some() {
        return Ok(false);
    }
    runs.put(Run {
        run: number,
        entry: 10,
        queue: batch_queue(),
        node: system_user(),
    });
    Ok(true)
}

// Begins a run, and gives its number, if it was 7 that came next.
fn start_seventh(runs: &mut Runs) -> Result<Option<u64>, AllocError> {
    runs.reserve()?;
    if runs.next() != 7 {
        return Ok(None);
    }
    Ok(Some(runs.start(11, print_queue(), system_user())))
}

// Ends each run, of which there are three, and one of them twice.
fn end_all(rt: &impl Abort, runs: &mut Runs, queue: &Name) {
    assert!(rt; runs.next() == 8);
    assert!(rt; runs.in_use(queue) == 3);
    // Each number, and the entry of its run.
    let table = [
        (4, Some(10)),
        (4, None),
        (5, None),
        (7, Some(11)),
        (2, Some(10)),
        (6, Some(10)),
    ];
    for (number, entry) in table {
        assert!(rt; runs.find(number).map(|run| run.entry) == entry, "{number}");
        assert!(rt; runs.end(number) == entry, "{number}");
    }
    assert!(rt; runs.in_use(queue) == 0);
}

// Three runs are put in, one begins, and all end.
fn begin_and_end(rt: &impl Abort, runs: &mut Runs) -> Result<(), Fail> {
    for number in [4, 2, 6] {
        assert!(rt; put(runs, number)?, "{number}");
    }
    assert!(rt; start_seventh(runs)? == Some(7));
    end_all(rt, runs, &batch_queue());
    Ok(())
}

#[test]
fn runs_begin_and_end(rt: HostRuntime) -> Result<(), Fail> {
    let mut runs = Runs::new(rt.alloc(), 7);
    begin_and_end(&rt, &mut runs)
}
