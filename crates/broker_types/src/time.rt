//! Seconds since 1970 written as times of the calendar (RFC 3339).

ghost use Rattle.std.specs.Prelude.{◌≡◌, ◌<◌, IfOk, string_bytes, pos};
ghost use Rattle.jiff.specs.Words.{epoch_day};
ghost use Rattle.broker_types.specs.Time.{time_text, IsClock};

use jiff::ToSpan;
use jiff::civil::{Date, DateTime, Time, date};
use std::alloc::{AllocError, Global};

/// The date of a day, counted from the first of January 1970.
fn date_of(day: u64) -> Date
    requires { day < 2_932_897 }
    ensures { epoch_day result ≡ pos day }
{
    match date(1970, 1, 1).checked_add((day as i64).days()) {
        Ok(found) => found,
        Err(_) => {
            prove!(false);
            Date::MAX
        }
    }
}

/// The time of day of a second, counted from midnight.
fn clock_of(second: u64) -> Time
    requires { second < 86_400 }
    ensures { IsClock second result }
{
    let minutes = second / 60;
    match Time::new(
        (minutes / 60) as i8,
        (minutes % 60) as i8,
        (second % 60) as i8,
        0,
    ) {
        Ok(time) => time,
        Err(_) => {
            prove!(false);
            Time::MAX
        }
    }
}

/// The time that many seconds after the beginning of 1970, in UTC, as `2023-11-14T22:13:20Z`
/// (RFC 3339). Every second up to the end of the year 9999 has one: the end of a token may be later
/// than the greatest moment. It fails only when out of memory.
pub fn time_text(alloc: Global, seconds: u64) -> Result<String, AllocError>
    requires { seconds < 253_402_300_800 }
    ensures { IfOk result (λ s. string_bytes s ≡ time_text seconds) }
{
    let shown = DateTime::from_parts(date_of(seconds / 86_400), clock_of(seconds % 86_400));
    format!(in alloc; "{shown}Z")
}
