// The moment that a text names.
ghost use Rattle.std.specs.Prelude.{◌≡◌, ◌≤◌, IfSome};
ghost use Rattle.qm_time.specs.Times.{IsBase, IsTime};
ghost use Rattle.qm_time.specs.Moments.{start_of, within_limits, moment_of, moment_at};

use crate::date::day_of_date;
use crate::fault::TimeFault;
use crate::time::{Base, Time, time_at};
use qm_kinds::{DAY, Moment};

// Hundredths of a second from the first of January of the year 0 to 17-NOV-1858.
const BASE: u64 = 678_941 * DAY;

/// The most bytes that a time has: a date, a blank, a clock time, a sign and a delta.
pub const TIME_BYTES: usize = 40;

/// The moment that a text names, where `now` is the present one: `+` or `-` and a delta, or an absolute time and
/// behind it, or not, `+` or `-` and a delta. `Form` tells where the text goes wrong. `Range` says that the text is a
/// time, whose date doesn't exist or whose moment lies before 17-NOV-1858 or behind 31-DEC-9999. It takes no memory.
#[tactic(auto, unfolding(crate::specs::Moments::moment_at))]
pub fn read_time(text: &[u8], now: Moment) -> Result<Moment, TimeFault>
    ensures { result ≡ moment_at text.now now }
{
    let time = time_at(text)?;
    match moment_of(now, time) {
        Some(moment) => Ok(moment),
        None => Err(TimeFault::Range),
    }
}

// The moment that a time names.
#[tactic(auto, unfolding(crate::specs::Moments::moment_of))]
fn moment_of(now: Moment, time: Time) -> Option<Moment>
    requires { IsTime time }
    ensures { result ≡ moment_of now time }
{
    let start = start_of(now.hundredths(), time.base)?;
    within_limits(start + time.clock + time.plus, time.minus)
}

// Where a time counts from, in hundredths of a second from the first of January of the year 0.
#[tactic(auto, unfolding(crate::specs::Moments::start_of))]
fn start_of(now: u64, base: Base) -> Option<u64>
    requires now { now ≤ 25690901759999 }
    requires base { IsBase base }
    ensures value { result ≡ start_of now base }
    ensures low { IfSome result (λ start. start ≤ 40000000000000) }
{
    match base {
        Base::Now => Some(now + BASE),
        Base::Today => Some(now / DAY * DAY + BASE),
        Base::Tomorrow => Some((now / DAY + 1) * DAY + BASE),
        Base::Date { year, month, day } => {
            let days = day_of_date(year, month, day)?;
            Some(days * DAY)
        }
    }
}

// The moment that lies a delta before another, both counted from the first of January of the year 0.
#[tactic(auto, unfolding(crate::specs::Moments::within_limits))]
fn within_limits(from: u64, minus: u64) -> Option<Moment>
    requires { minus ≤ 86399999999 }
    ensures { result ≡ within_limits from minus }
{
    let hundredths = from.checked_sub(minus + BASE)?;
    Moment::new(hundredths)
}
