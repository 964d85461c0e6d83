// What the contracts of clocks leave open: what the system's clock makes of the time that std tells, or doesn't.
use crate::outside::told::{Cases, assert_told, number};
use qm_disk::{Clock, MemoryClock, SystemClock};
use qm_kinds::Moment;
use std::alloc::{AllocError, Global};
use std::cell::Cell;
use std::io::ErrorKind;
use std::time::Duration;
use std::{io, time};

// A system that tells the time which it was given, counted from 1-JAN-1970, and fails where it has none.
#[derive(Drop)]
struct Given {
    time: Cell<Option<Duration>>,
}

impl time::Clock for Given {
    fn monotonic(&self) -> io::Result<Duration> {
        self.since_1970()
    }

    fn since_1970(&self) -> io::Result<Duration> {
        match self.time.get() {
            Some(time) => Ok(time),
            None => Err(ErrorKind::Other.into()),
        }
    }
}

// The time that a text tells in seconds, with nine digits behind the point, if it tells one.
fn time_of(text: &str) -> Option<Duration> {
    let (seconds, nanoseconds) = text.split_once(".")?;
    let seconds = Duration::from_secs(number(seconds));
    Some(seconds.saturating_add(Duration::from_nanos(number(nanoseconds))))
}

// The clock of a system, whose times are given one after the other.
#[derive(Drop)]
struct Telling<'a> {
    system: &'a Given,
    clock: SystemClock<&'a Given>,
}

impl Cases for Telling<'_> {
    fn told_of(&mut self, alloc: Global, text: &str) -> Result<String, AllocError> {
        self.system.time.set(time_of(text));
        format!(in alloc; "{}", self.clock.tell().hundredths())
    }
}

// The times, and the moments that the clock tells then.
const TIMES: &str = "none|0
0.009999999|350671680000
1893510000.019999999|540022680001
none|540022680001
253402300799.999999999|25690901759999
253402300800.000000000|25690901759999
1.000000000|350671680100
18446744073709551615.000000000|350671680100";

#[test]
fn a_time_that_is_no_moment_is_told_as_the_last_one(rt: HostRuntime) -> Result<(), AllocError> {
    let system = Given {
        time: Cell::new(None),
    };
    let clock = SystemClock::new(&system);
    let mut telling = Telling {
        system: &system,
        clock,
    };
    assert_told(&rt, rt.alloc(), &mut telling, TIMES)
}

// The moments that a clock tells one after the other.
fn told_by<C: Clock>(clock: &mut C) -> [u64; 4] {
    [
        clock.tell().hundredths(),
        clock.tell().hundredths(),
        clock.tell().hundredths(),
        clock.tell().hundredths(),
    ]
}

#[test]
fn the_last_moment_is_told_for_ever(rt: HostRuntime) -> Result<(), AllocError> {
    let later = Moment::new(7).unwrap_or(Moment::BASE);
    let mut clock = MemoryClock::new([Moment::BASE, later].to_vec(rt.alloc())?);
    assert_eq!(rt; told_by(&mut clock), [0, 7, 7, 7]);
    Ok(())
}
