// Timers that come due.
use qm_kinds::Moment;
use qm_tables::Timers;
use std::alloc::AllocError;
use std::process::Abort;
use std::test::Fail;

fn moment(hundredths: u64) -> Moment {
    Moment::new(hundredths).unwrap_or(Moment::BASE)
}

// Sets timers of numbers that have none, and takes out one of them.
fn set_five(rt: &impl Abort, timers: &mut Timers) -> Result<(), Fail> {
    for (at, number) in [(30, 4), (10, 7), (20, 9), (10, 2), (40, 1)] {
        assert!(rt; !timers.remove(number));
        timers.reserve()?;
        timers.insert(moment(at), number);
    }
    assert!(rt; timers.remove(9));
    assert!(rt; !timers.remove(9));
    Ok(())
}

// Looks at each of these moments what is due, and takes it out.
fn take_out_due(rt: &impl Abort, timers: &mut Timers) {
    for (now, expected) in [
        (9, None),
        (10, Some((10, 2))),
        (10, Some((10, 7))),
        (29, None),
        (35, Some((30, 4))),
        (40, Some((40, 1))),
        (50, None),
    ] {
        let due = timers.due(moment(now));
        assert!(rt; due == expected.map(|(at, number)| (moment(at), number)));
        if let Some((_, number)) = due {
            assert!(rt; timers.remove(number));
        }
    }
}

// Five timers are set, and taken out as they are due, but for one that went before.
fn set_and_take_out(rt: &impl Abort, timers: &mut Timers) -> Result<(), Fail> {
    set_five(rt, timers)?;
    take_out_due(rt, timers);
    Ok(())
}

#[test]
fn timers_are_due_in_order_of_moments_and_numbers(rt: HostRuntime) -> Result<(), Fail> {
    let mut timers = Timers::new(rt.alloc());
    let end = set_and_take_out(&rt, &mut timers);
    drop(timers);
    end
}

// Takes out the timer of number 3.
fn take_out_three(timers: &mut Timers) {
    timers.retain(|number| number != 3);
}

// Sets timers, two of them of one number, and takes one back.
fn set_anew(timers: &mut Timers) -> Result<(), AllocError> {
    for (number, at) in [
        (1, 30),
        (2, 20),
        (3, 20),
        (2, 40),
        (5, 10),
        (4, 20),
        (6, 50),
    ] {
        timers.reserve()?;
        timers.set(number, Some(moment(at)));
    }
    timers.set(1, None);
    Ok(())
}

// So many are due at each moment.
fn count_due(rt: &impl Abort, timers: &Timers) {
    for (now, expected) in [(9, 0), (10, 1), (19, 1), (20, 3), (40, 4), (50, 5)] {
        assert!(rt; timers.due_now(moment(now)).len() == expected);
    }
}

// This is left of each number.
fn show_left(rt: &impl Abort, timers: &Timers) {
    for (number, at) in [(1, 0), (2, 40), (3, 0), (4, 0), (5, 0), (6, 50)] {
        let expected = if at == 0 { None } else { Some(moment(at)) };
        assert!(rt; timers.moment_of(number) == expected);
    }
}

// Timers are set anew, and taken out together.
fn set_anew_and_take_out(rt: &impl Abort, timers: &mut Timers) -> Result<(), Fail> {
    set_anew(timers)?;
    count_due(rt, timers);
    take_out_three(timers);
    timers.remove_due(moment(20));
    show_left(rt, timers);
    Ok(())
}

#[test]
fn timers_are_set_anew_and_taken_out_together(rt: HostRuntime) -> Result<(), Fail> {
    let mut timers = Timers::new(rt.alloc());
    let end = set_anew_and_take_out(&rt, &mut timers);
    drop(timers);
    end
}
