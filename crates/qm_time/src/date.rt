// Days and dates of the calendar, by `jiff`.
ghost use Rattle.std.specs.Prelude.{◌≡◌, ◌<◌, ◌≤◌, ◌≤ℤ◌, pos, IfSome};
ghost use Rattle.qm_model.specs.Calendar.{date_of_day, day_count};
ghost use Rattle.qm_time.specs.Dates.{civil_date, IsSameDate};
ghost use Rattle.qm_time.specs.Moments.{day_of_date};

use jiff::ToSpan;
use jiff::civil::{Date, date};

/// The date so many days after 17-NOV-1858, up to 31-DEC-9999.
pub(crate) fn date_of_day(day: u32) -> Date
    requires { day < 2973484 }
    ensures { IsSameDate (date_of_day day) result }
{
    date(1858, 11, 17) + (day as i64).days()
}

/// The days from the first of January of the year 0 to a date, if the calendar has it.
pub(crate) fn day_of_date(year: u64, month: u64, day: u64) -> Option<u64>
    requires year { year ≤ 9999 }
    requires month_from { 1 ≤ month }
    requires month_to { month ≤ 12 }
    requires day { day ≤ 99 }
    ensures value { result ≡ day_of_date year month day }
    ensures low { IfSome result (λ days. days ≤ 3652424) }
{
    match Date::new(year as i16, month as i8, day as i8) {
        Ok(date) => Some(days_since_year_0(date)),
        Err(_) => None,
    }
}

// The days from the first of January of the year 0 to a date of a year from it on.
fn days_since_year_0(of: Date) -> u64
    requires { pos 0 ≤ℤ of.year }
    ensures value { result ≡ day_count (civil_date of) }
    ensures low { result ≤ 3652424 }
{
    let hours = of.duration_since(date(0, 1, 1)).as_hours();
    (hours / 24) as u64
}
