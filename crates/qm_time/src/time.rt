// Times as they stand in a text.
ghost use Rattle.std.specs.Prelude.{◌≡◌, ◌≤◌, ◌+◌, length, IfOk};
ghost use Rattle.qm_time.specs.Times.{day_word_at, clocked_at, year_at, numbered_at, absolute_at, last_delta_at, changed_at, time_at, IsAbsoluteIn, IsTime};
ghost use Rattle.qm_time.specs.Numbers.{IsWithin};

use crate::clock::{clock_at, delta_at, minutes_at};
use crate::fault::TimeFault;
use crate::month::{month_at, shared};
use crate::number::{Number, digit_at, ends, four_digits_at, number_at, stands};

/// Where a time counts from.
#[derive(Clone, Copy)]
pub(crate) enum Base {
    Now,
    /// The beginning of the day.
    Today,
    /// The beginning of the next day.
    Tomorrow,
    /// The beginning of a date, which the calendar may lack.
    Date { year: u64, month: u64, day: u64 },
}

/// An absolute time that stands in front of a text: a base, a clock time in hundredths of a second, and the place
/// behind it.
#[derive(Clone, Copy)]
pub(crate) struct Absolute {
    pub base: Base,
    pub clock: u64,
    pub end: usize,
}

/// A time: a base, a clock time and what is added and taken away, in hundredths of a second.
#[derive(Clone, Copy)]
pub(crate) struct Time {
    pub base: Base,
    pub clock: u64,
    pub plus: u64,
    pub minus: u64,
}

/// The time that a whole text spells.
#[tactic(auto, unfolding(crate::specs::Times::time_at))]
pub(crate) fn time_at(text: &[u8]) -> Result<Time, TimeFault>
    ensures value { result ≡ time_at text.now }
    ensures within { IfOk result IsTime }
{
    if stands(text, 0, b'+') || stands(text, 0, b'-') {
        let now = Absolute {
            base: Base::Now,
            clock: 0,
            end: 0,
        };
        return changed_at(text, now);
    }
    let start = absolute_at(text)?;
    changed_at(text, start)
}

// The absolute time in front of a text.
#[tactic(auto, unfolding(crate::specs::Times::absolute_at))]
fn absolute_at(text: &[u8]) -> Result<Absolute, TimeFault>
    ensures value { result ≡ absolute_at text.now }
    ensures within { IfOk result (IsAbsoluteIn text.now) }
{
    if digit_at(text, 0).is_none() {
        return day_word_at(text);
    }
    let number = number_at(text, 0, 99)?;
    numbered_at(text, number)
}

// TODAY or TOMORROW.
#[tactic(auto, unfolding(crate::specs::Times::day_word_at))]
fn day_word_at(text: &[u8]) -> Result<Absolute, TimeFault>
    ensures value { result ≡ day_word_at text.now }
    ensures within { IfOk result (IsAbsoluteIn text.now) }
{
    let today = shared(b"TODAY", text);
    if today == 5 {
        return Ok(Absolute {
            base: Base::Today,
            clock: 0,
            end: today,
        });
    }
    let tomorrow = shared(b"TOMORROW", text);
    if tomorrow == 8 {
        return Ok(Absolute {
            base: Base::Tomorrow,
            clock: 0,
            end: tomorrow,
        });
    }
    Err(TimeFault::Form {
        place: today.max(tomorrow),
    })
}

// What begins with a number: a date, or a clock time of today.
#[tactic(auto, unfolding(crate::specs::Times::numbered_at))]
fn numbered_at(text: &[u8], number: Number) -> Result<Absolute, TimeFault>
    requires within { IsWithin 99 text.now number }
    ensures value { result ≡ numbered_at text.now number }
    ensures within { IfOk result (IsAbsoluteIn text.now) }
{
    if stands(text, number.end, b'-') {
        let month = month_at(text, number.end + 1)?;
        return year_at(text, number, month);
    }
    if number.value > 23 {
        return Err(TimeFault::Form { place: number.end });
    }
    let clock = minutes_at(text, number)?;
    Ok(Absolute {
        base: Base::Today,
        clock: clock.value,
        end: clock.end,
    })
}

// The year of a date and what stands behind it.
#[tactic(auto, unfolding(crate::specs::Times::year_at))]
fn year_at(text: &[u8], day: Number, month: Number) -> Result<Absolute, TimeFault>
    requires day { IsWithin 99 text.now day }
    requires month_from { 1 ≤ month.value }
    requires month { IsWithin 12 text.now month }
    ensures value { result ≡ year_at text.now day month }
    ensures within { IfOk result (IsAbsoluteIn text.now) }
{
    if !stands(text, month.end, b'-') {
        return Err(TimeFault::Form { place: month.end });
    }
    let year = four_digits_at(text, month.end + 1)?;
    let date = Absolute {
        base: Base::Date {
            year: year.value,
            month: month.value,
            day: day.value,
        },
        clock: 0,
        end: year.end,
    };
    clocked_at(text, date)
}

// A date with the clock time that stands behind it, if one does.
#[tactic(auto, unfolding(crate::specs::Times::clocked_at))]
fn clocked_at(text: &[u8], date: Absolute) -> Result<Absolute, TimeFault>
    requires { IsAbsoluteIn text.now date }
    ensures value { result ≡ clocked_at text.now date }
    ensures within { IfOk result (IsAbsoluteIn text.now) }
{
    let place = date.end;
    if !(stands(text, place, b' ') || stands(text, place, b'\t') || stands(text, place, b':')) {
        return Ok(date);
    }
    let clock = clock_at(text, place + 1)?;
    Ok(Absolute {
        base: date.base,
        clock: clock.value,
        end: clock.end,
    })
}

// An absolute time with the delta that stands behind it, if one does, up to the end of the text.
#[tactic(auto, unfolding(crate::specs::Times::changed_at))]
fn changed_at(text: &[u8], start: Absolute) -> Result<Time, TimeFault>
    requires { IsAbsoluteIn text.now start }
    ensures value { result ≡ changed_at text.now start }
    ensures within { IfOk result IsTime }
{
    let Absolute { base, clock, end } = start;
    if ends(text, end) {
        return Ok(Time {
            base,
            clock,
            plus: 0,
            minus: 0,
        });
    }
    if stands(text, end, b'+') {
        let plus = last_delta_at(text, end + 1)?;
        return Ok(Time {
            base,
            clock,
            plus,
            minus: 0,
        });
    }
    if stands(text, end, b'-') {
        let minus = last_delta_at(text, end + 1)?;
        return Ok(Time {
            base,
            clock,
            plus: 0,
            minus,
        });
    }
    Err(TimeFault::Form { place: end })
}

// A delta up to the end of the text, in hundredths of a second.
#[tactic(auto, unfolding(crate::specs::Times::last_delta_at))]
fn last_delta_at(text: &[u8], place: usize) -> Result<u64, TimeFault>
    requires { place ≤ length text.now }
    ensures value { result ≡ last_delta_at text.now place }
    ensures low { IfOk result (λ delta. delta ≤ 86399999999) }
{
    let delta = delta_at(text, place)?;
    if !ends(text, delta.end) {
        return Err(TimeFault::Form { place: delta.end });
    }
    Ok(delta.value)
}
