//! When a record was captured, as it is printed.

ghost use Rattle.std.specs.Prelude.{◌≡◌, ◌<◌, ◌^◌};
ghost use Rattle.sctp_show.specs.Time.{total_of, IsElapsed};

use sctp_capture::record::Time;
use std::alloc::AllocError;
use std::fmt;

const SECOND: u128 = 1_000_000_000;

const DAY: u64 = 86_400;

/// How long after a first record another one was captured, or before it.
#[derive(Clone, Copy, Debug, PartialEq, Eq)]
pub struct Elapsed {
    pub is_before: bool,
    pub nanoseconds: u128,
    /// Whether nanoseconds are printed, and not microseconds.
    pub is_fine: bool,
}

/// The nanoseconds of a time.
pub fn total_of(time: &Time) -> u128
    ensures { result ≡ total_of time.now }
{
    let unit: u128 = if time.nanoseconds { 1 } else { 1_000 };
    time.seconds as u128 * SECOND + time.fraction as u128 * unit
}

/// How long after the first time another one is, or before it.
pub fn time_since(first: &Time, time: &Time) -> Elapsed
    ensures { IsElapsed first.now time.now result }
{
    let (start, end) = (total_of(first), total_of(time));
    let is_before = end < start;
    let nanoseconds = if is_before { start - end } else { end - start };
    Elapsed {
        is_before,
        nanoseconds,
        is_fine: first.nanoseconds || time.nanoseconds,
    }
}

impl fmt::Display for Elapsed {
    fn fmt<W: fmt::Write>(&self, f: &mut fmt::Formatter<W>) -> fmt::Result {
        let sign = if self.is_before { "-" } else { "" };
        let (seconds, rest) = (self.nanoseconds / SECOND, self.nanoseconds % SECOND);
        if self.is_fine {
            write!(f, "{sign}{seconds}.{rest:09}")
        } else {
            let part = rest / 1_000;
            write!(f, "{sign}{seconds}.{part:06}")
        }
    }
}

/// How times are printed.
#[derive(Clone, Copy, Debug, PartialEq, Eq)]
pub enum Clock {
    /// As seconds since the first record that has a time.
    Elapsed,
    /// As seconds since 1970, or of a log since midnight.
    Seconds,
    /// As days of the Gregorian calendar, and times of day, in UTC.
    Dates,
}

/// A time as a day of the Gregorian calendar, and a time of day, in UTC.
#[derive(Clone, Copy)]
struct Dated {
    time: Time,
}

/// A day of the Gregorian calendar.
#[derive(Clone, Copy)]
struct Day {
    year: u64,
    month: u64,
    day: u64,
}

/// The day that begins so many days after the first of January 1970. Years are counted from March on, so that the day which some of them have
/// more is the last one.
fn day_of(days: u64) -> Day
    requires { days < 2 ^ 48 }
{
    let days = days + 719_468;
    let (era, in_era) = (days / 146_097, days % 146_097);
    let years = (in_era - in_era / 1_460 + in_era / 36_524 - in_era / 146_096) / 365;
    let in_year = in_era.saturating_sub(365 * years + years / 4 - years / 100);
    let months = (5 * in_year + 2) / 153;
    let year = years + era * 400;
    Day {
        year: if months < 10 { year } else { year + 1 },
        month: (months + 2) % 12 + 1,
        day: (in_year + 1).saturating_sub((153 * months + 2) / 5),
    }
}

impl fmt::Display for Dated {
    fn fmt<W: fmt::Write>(&self, f: &mut fmt::Formatter<W>) -> fmt::Result {
        let (seconds, fraction) = (self.time.seconds, self.time.fraction);
        let Day { year, month, day } = day_of(seconds / DAY);
        let (hour, minute, second) = (seconds / 3_600 % 24, seconds / 60 % 60, seconds % 60);
        write!(
            f,
            "{year:04}-{month:02}-{day:02}T{hour:02}:{minute:02}:{second:02}"
        )?;
        if self.time.nanoseconds {
            write!(f, ".{fraction:09}Z")
        } else {
            write!(f, ".{fraction:06}Z")
        }
    }
}

/// Appends when a record was captured, by the time of the first one; `-` where it has no time.
pub fn put_clock(
    text: &mut String,
    clock: Clock,
    start: &Option<Time>,
    time: &Option<Time>,
) -> Result<(), AllocError> {
    match (clock, start, time) {
        (_, _, None) => text.push_str("-"),
        (Clock::Elapsed, Some(start), Some(time)) => {
            let elapsed = time_since(start, time);
            write!(text, "{elapsed}")
        }
        (Clock::Dates, _, Some(time)) => {
            let dated = Dated { time: *time };
            write!(text, "{dated}")
        }
        (_, _, Some(time)) => write!(text, "{time}"),
    }
}
