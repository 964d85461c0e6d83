// Clock times and deltas as they stand in a text, in hundredths of a second.
ghost use Rattle.std.specs.Prelude.{◌≡◌, ◌≤◌, ◌+◌, ◌*◌, length, IfOk};
ghost use Rattle.qm_time.specs.Numbers.{IsWithin};
ghost use Rattle.qm_time.specs.Clocks.{hundredths_at, seconds_at, minutes_at, clock_at, delta_behind, delta_at};

use crate::fault::TimeFault;
use crate::number::{Number, long_number_at, number_at, stands, two_digits_at};
use qm_kinds::DAY;

/// A clock time of the form `hh:mm`, `hh:mm:ss` or `hh:mm:ss.cc`.
#[tactic(auto, unfolding(crate::specs::Clocks::clock_at))]
pub(crate) fn clock_at(text: &[u8], place: usize) -> Result<Number, TimeFault>
    ensures value { result ≡ clock_at text.now place }
    ensures within { IfOk result (IsWithin 8639999 text.now) }
{
    let hours = number_at(text, place, 23)?;
    minutes_at(text, hours)
}

/// What stands behind the hours of a clock time: `:mm` at least.
#[tactic(auto, unfolding(crate::specs::Clocks::minutes_at))]
pub(crate) fn minutes_at(text: &[u8], hours: Number) -> Result<Number, TimeFault>
    requires few { hours.value ≤ 23 }
    requires inside { hours.end ≤ length text.now }
    ensures value { result ≡ minutes_at text.now hours }
    ensures within { IfOk result (IsWithin 8639999 text.now) }
{
    if !stands(text, hours.end, b':') {
        return Err(TimeFault::Form { place: hours.end });
    }
    let minutes = number_at(text, hours.end + 1, 59)?;
    seconds_at(
        text,
        Number {
            value: hours.value * 60 + minutes.value,
            end: minutes.end,
        },
    )
}

// What stands behind the minutes of a clock time, which come with its hours as minutes.
#[tactic(auto, unfolding(crate::specs::Clocks::seconds_at))]
fn seconds_at(text: &[u8], minutes: Number) -> Result<Number, TimeFault>
    requires few { minutes.value ≤ 1439 }
    requires inside { minutes.end ≤ length text.now }
    ensures value { result ≡ seconds_at text.now minutes }
    ensures within { IfOk result (IsWithin 8639999 text.now) }
{
    if !stands(text, minutes.end, b':') {
        return Ok(Number {
            value: minutes.value * 6000,
            end: minutes.end,
        });
    }
    let seconds = number_at(text, minutes.end + 1, 59)?;
    hundredths_at(
        text,
        Number {
            value: minutes.value * 60 + seconds.value,
            end: seconds.end,
        },
    )
}

// What stands behind the seconds of a clock time, which come with its minutes and hours as seconds.
#[tactic(auto, unfolding(crate::specs::Clocks::hundredths_at))]
fn hundredths_at(text: &[u8], seconds: Number) -> Result<Number, TimeFault>
    requires few { seconds.value ≤ 86399 }
    requires inside { seconds.end ≤ length text.now }
    ensures value { result ≡ hundredths_at text.now seconds }
    ensures within { IfOk result (IsWithin 8639999 text.now) }
{
    if !stands(text, seconds.end, b'.') {
        return Ok(Number {
            value: seconds.value * 100,
            end: seconds.end,
        });
    }
    let hundredths = two_digits_at(text, seconds.end + 1)?;
    Ok(Number {
        value: seconds.value * 100 + hundredths.value,
        end: hundredths.end,
    })
}

/// A delta: a clock time, or one to four digits for days, `-` and a clock time.
#[tactic(auto, unfolding(crate::specs::Clocks::delta_at))]
pub(crate) fn delta_at(text: &[u8], place: usize) -> Result<Number, TimeFault>
    requires inside { place ≤ length text.now }
    ensures value { result ≡ delta_at text.now place }
    ensures within { IfOk result (IsWithin 86399999999 text.now) }
{
    let number = long_number_at(text, place)?;
    delta_behind(text, place, number)
}

// A delta whose first number begins at `place`.
#[tactic(auto, unfolding(crate::specs::Clocks::delta_behind))]
fn delta_behind(text: &[u8], place: usize, number: Number) -> Result<Number, TimeFault>
    requires inside { place ≤ length text.now }
    requires within { IsWithin 9999 text.now number }
    ensures value { result ≡ delta_behind text.now place number }
    ensures within { IfOk result (IsWithin 86399999999 text.now) }
{
    if stands(text, number.end, b'-') {
        let clock = clock_at(text, number.end + 1)?;
        return Ok(Number {
            value: number.value * DAY + clock.value,
            end: clock.end,
        });
    }
    if number.end <= place.saturating_add(2) && number.value <= 23 {
        return minutes_at(text, number);
    }
    Err(TimeFault::Form { place: number.end })
}
