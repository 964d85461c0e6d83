// Where timers stand, or belong. Each search asks a logarithm of the timers.
ghost use Rattle.std.specs.Prelude.{◌≡◌, nat_lt, nat_le, MatchOption, None};
ghost use Rattle.qm_tables.specs.Timers.{is_before, timer_of, IsRising};
ghost use Rattle.qm_tables.specs.TimersKept.{has_less, IsTimerAt, Parts};

use qm_kinds::Moment;

/// A moment, and the number that waits for it.
pub(crate) type Timer = (Moment, u32);

// Whether a timer stands before another.
fn is_before(timer: Timer, other: Timer) -> bool
    ensures { result ≡ is_before timer other }
{
    timer.0 < other.0 || (timer.0 == other.0 && timer.1 < other.1)
}

// Whether a timer has a lesser number.
fn has_less(timer: Timer, number: u32) -> bool
    ensures { result ≡ nat_lt timer.1 number }
{
    timer.1 < number
}

/// How many of these stand before a timer.
pub(crate) fn place_by_moment(timers: &[Timer], timer: Timer) -> usize
    requires { IsRising is_before timers.now }
    ensures { Parts (λ t. is_before t timer) timers.now result }
{
    timers.partition_point(|other| is_before(*other, timer))
}

/// How many of these have a lesser number.
pub(crate) fn place_by_number(timers: &[Timer], number: u32) -> usize
    requires { IsRising has_less timers.now }
    ensures { Parts (λ t. nat_lt t.1 number) timers.now result }
{
    timers.partition_point(|other| has_less(*other, number))
}

/// How many of these have a moment that has come.
pub(crate) fn place_by_now(timers: &[Timer], now: Moment) -> usize
    requires { IsRising is_before timers.now }
    ensures { Parts (λ t. nat_le t.0 now) timers.now result }
{
    timers.partition_point(|timer| timer.0 <= now)
}

/// Where the timer of a number stands, if it has one.
pub(crate) fn find_by_number(timers: &[Timer], number: u32) -> Option<usize>
    requires { IsRising has_less timers.now }
    ensures { MatchOption result (timer_of number timers.now ≡ None) (IsTimerAt number timers.now) }
{
    let place = place_by_number(timers, number);
    if place < timers.len() && timers[place].1 == number {
        Some(place)
    } else {
        None
    }
}
