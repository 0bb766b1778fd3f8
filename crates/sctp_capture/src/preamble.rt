//! What stands on a line of its own before a dump: a mark, a time, or both.

ghost use Rattle.std.specs.Prelude.{◌≡◌, ◌≤◌, ◌<◌, ◌+◌, ◌^◌, length, IsTrue, IfSome};
ghost use Rattle.sctp_capture.specs.Preamble as preambles;

use crate::lead::{Lead, begins_so, direction_of, seconds_at, three_at, two_at};
use crate::record::{Direction, MAX_LINE, Time};

/// A mark alone, and one with a time behind it.
const MARK: &str = "M";

const MARK_AND_TIME: &str = "M ";

/// A day and a time of day, as ISO 8601 has them, and with a space; and a time of day alone.
const DATE: &str = "dddd-dd-ddTdd:dd:dd";

const SPACED_DATE: &str = "dddd-dd-dd dd:dd:dd";

const CLOCK: &str = "dd:dd:dd";

/// The fraction of a second, in nano-, micro- or milliseconds.
const NINE: &str = ".ddddddddd";

const SIX: &str = ".dddddd";

const THREE: &str = ".ddd";

/// What a time in UTC ends in.
const UTC: &str = "Z";

/// The end of a line, but for its line feed.
const RETURN: &str = "\r";

/// Whether the rest of a line begins as a pattern says.
fn stands_at(pattern: &str, line: &[u8], at: usize) -> bool
    requires { at ≤ length line.now }
    ensures is { result ≡ preambles.stands_at pattern.now line.now at }
    ensures long { IsTrue result → at + length pattern.now ≤ length line.now }
{
    begins_so(pattern.as_bytes(), &line[at..])
}

/// Whether a line ends here, but for a carriage return.
fn ends_at(line: &[u8], at: usize) -> bool
    requires { at ≤ length line.now }
    ensures { result ≡ preambles.ends_at line.now at }
{
    at == line.len() || (at + 1 == line.len() && stands_at(RETURN, line, at))
}

/// The days from 1970 to a day of the Gregorian calendar, whose years are counted from March on; 0 for an earlier day.
fn days_to(year: u64, month: u64, day: u64) -> u64
    requires { (year < 2 ^ 20) × (month < 2 ^ 20) × (day < 2 ^ 20) }
    ensures is { result ≡ preambles.days_to year month day }
    ensures few { result < 2 ^ 40 }
{
    let years = if month < 3 {
        year.saturating_sub(1)
    } else {
        year
    };
    let in_year = (153 * ((month + 9) % 12) + 2) / 5 + day;
    (365 * years + years / 4 + years / 400 + in_year).saturating_sub(years / 100 + 719_469)
}

/// The seconds from 1970 to the day that stands here, as `2019-05-14`.
/// Precondition: it is there.
fn day_at(line: &[u8], at: usize) -> u64
    requires { at + 10 ≤ length line.now }
    ensures is { result ≡ preambles.day_at line.now at }
    ensures few { result < 2 ^ 57 }
{
    let year = two_at(line, at) * 100 + two_at(line, at + 2);
    days_to(year, two_at(line, at + 5), two_at(line, at + 8)) * 86_400
}

/// A time, and where it ends in a line.
#[derive(Clone, Copy)]
pub struct Moment {
    pub time: Time,
    pub end: usize,
}

/// The time of day that stands here, so many seconds later, without its fraction.
/// Precondition: it is there.
fn clock_at(line: &[u8], at: usize, day: u64) -> Moment
    requires { (at + 8 ≤ length line.now) × (day < 2 ^ 57) }
    ensures is { result ≡ preambles.clock_at line.now at day }
    ensures within { result.end ≤ length line.now }
{
    Moment {
        time: Time {
            seconds: day + seconds_at(line, at),
            fraction: 0,
            nanoseconds: false,
        },
        end: at + 8,
    }
}

/// The time that stands here without its fraction: a time of day, with a day before it or none.
fn moment_at(line: &[u8], at: usize) -> Option<Moment>
    requires { at ≤ length line.now }
    ensures is { result ≡ preambles.moment_at line.now at }
    ensures within { IfSome result (λ m. m.end ≤ length line.now) }
{
    if stands_at(CLOCK, line, at) {
        return Some(clock_at(line, at, 0));
    }
    if stands_at(DATE, line, at) || stands_at(SPACED_DATE, line, at) {
        return Some(clock_at(line, at + 11, day_at(line, at)));
    }
    None
}

/// The time with a fraction of so many digits, in these units.
fn later(moment: Moment, digits: usize, fraction: u64, nanoseconds: bool) -> Moment
    requires { (moment.end < 2 ^ 63) × (digits ≤ 10) }
    ensures { result ≡ preambles.later moment digits fraction nanoseconds }
{
    Moment {
        time: Time {
            seconds: moment.time.seconds,
            fraction,
            nanoseconds,
        },
        end: moment.end + digits,
    }
}

/// Six digits, as a number.
/// Precondition: they are there.
fn six_at(line: &[u8], at: usize) -> u64
    requires { at + 6 ≤ length line.now }
    ensures is { result ≡ preambles.six_at line.now at }
    ensures few { result < 2 ^ 32 }
{
    three_at(line, at) * 1_000 + three_at(line, at + 3)
}

/// A time with its fraction, if one stands behind it: three, six or nine digits.
pub(crate) fn with_fraction(line: &[u8], moment: Moment) -> Moment
    requires { moment.end ≤ length line.now }
    ensures is { result ≡ preambles.with_fraction line.now moment }
    ensures within { result.end ≤ length line.now }
{
    let at = moment.end;
    if stands_at(NINE, line, at) {
        let fraction = six_at(line, at + 1) * 1_000 + three_at(line, at + 7);
        return later(moment, 10, fraction, true);
    }
    if stands_at(SIX, line, at) {
        return later(moment, 7, six_at(line, at + 1), false);
    }
    if stands_at(THREE, line, at) {
        return later(moment, 4, three_at(line, at + 1) * 1_000, false);
    }
    moment
}

/// Where a time ends, with the `Z` behind it, if there is one.
fn zone_end(line: &[u8], at: usize) -> usize
    requires { at ≤ length line.now }
    ensures is { result ≡ preambles.zone_end line.now at }
    ensures within { result ≤ length line.now }
{
    if stands_at(UTC, line, at) {
        return at + 1;
    }
    at
}

/// The direction that a line's mark says, if it has one.
fn direction_in(line: &[u8]) -> Option<Direction>
    ensures { result ≡ preambles.direction_in line.now }
{
    if begins_so(MARK.as_bytes(), line) {
        return Some(direction_of(line[0]));
    }
    None
}

/// A line's mark, and this time.
fn timed_preamble(line: &[u8], moment: Moment) -> Option<Lead>
    requires { moment.end ≤ length line.now }
    ensures { result ≡ preambles.timed_preamble line.now moment }
{
    let moment = with_fraction(line, moment);
    if !ends_at(line, zone_end(line, moment.end)) {
        return None;
    }
    Some(Lead {
        length: line.len(),
        direction: direction_in(line),
        time: Some(moment.time),
    })
}

/// Where the time begins in a line: behind its mark, if it has one.
fn time_place(line: &[u8]) -> usize
    ensures is { result ≡ preambles.time_place line.now }
    ensures within { result ≤ length line.now }
{
    if begins_so(MARK_AND_TIME.as_bytes(), line) {
        return 2;
    }
    0
}

/// What a line says that is a mark, a time, or both, and nothing else.
pub fn preamble_of(line: &[u8]) -> Option<Lead>
    ensures { result ≡ preambles.preamble_of line.now }
{
    if line.len() > MAX_LINE {
        return None;
    }
    if begins_so(MARK.as_bytes(), line) && ends_at(line, 1) {
        return Some(Lead {
            length: line.len(),
            direction: direction_in(line),
            time: None,
        });
    }
    match moment_at(line, time_place(line)) {
        Some(moment) => timed_preamble(line, moment),
        None => None,
    }
}
