//! What logs write before the hex text of a packet: usrsctp, browsers, and what text2pcap reads.

ghost use Rattle.std.specs.Prelude.{◌≡◌, ◌≤◌, ◌<◌, ◌+◌, ◌-◌, length, slice_index, IsTrue};
ghost use Rattle.sctp_capture.specs.Lead as leads;

use crate::dump::is_digit;
use crate::record::{Direction, Time, is_blank};

/// A mark, a time of day in microseconds, and the offset 0: the lead of usrsctp and Firefox.
const LONG: &str = "M dd:dd:dd.dddddd 0000 ";

/// The same in milliseconds: the lead of Chrome.
const SHORT: &str = "M dd:dd:dd.ddd 0000 ";

/// A mark and the offset 0.
const MARK: &str = "M 0000 ";

/// The fewest digits that are read behind other text: those of a common header.
pub(crate) const LEAST_DIGITS: usize = 24;

/// What stands before the hex text of a line.
#[derive(Clone, Copy, Debug, PartialEq, Eq)]
pub struct Lead {
    /// How many bytes it takes.
    pub length: usize,
    pub direction: Option<Direction>,
    /// The time of day.
    pub time: Option<Time>,
}

/// Whether a byte is what a pattern has in its place: `M` stands for the mark `I` or `O`, `d` for a digit, any other byte for itself.
fn fits(wanted: u8, byte: u8) -> bool
    ensures { result ≡ leads.fits wanted byte }
{
    if wanted == b'M' {
        return byte == b'I' || byte == b'O';
    }
    if wanted == b'd' {
        return byte >= b'0' && byte <= b'9';
    }
    byte == wanted
}

/// Whether a line begins as a pattern says.
pub fn begins_so(pattern: &[u8], line: &[u8]) -> bool
    ensures is { result ≡ leads.begins_so pattern.now line.now }
    ensures long { IsTrue result → length pattern.now ≤ length line.now }
{
    if line.len() < pattern.len() {
        return false;
    }
    for i in 0..pattern.len() {
        if !fits(pattern[i], line[i]) {
            return false;
        }
    }
    true
}

/// The direction that a mark says.
pub fn direction_of(mark: u8) -> Direction
    ensures { result ≡ leads.direction_of mark }
{
    if mark == b'I' {
        Direction::In
    } else {
        Direction::Out
    }
}

/// The number that two digits say.
/// Precondition: they are there.
pub fn two_at(line: &[u8], at: usize) -> u64
    requires { at + 2 ≤ length line.now }
    ensures is { result ≡ leads.two_at line.now at }
    ensures few { result < 2295 }
{
    line[at].saturating_sub(b'0') as u64 * 10 + line[at + 1].saturating_sub(b'0') as u64
}

/// The number that three digits say.
/// Precondition: they are there.
pub fn three_at(line: &[u8], at: usize) -> u64
    requires { at + 3 ≤ length line.now }
    ensures is { result ≡ leads.three_at line.now at }
    ensures few { result < 23150 }
{
    two_at(line, at) * 10 + line[at + 2].saturating_sub(b'0') as u64
}

/// The seconds of a time of day, as `12:34:56`.
/// Precondition: it is there.
pub fn seconds_at(line: &[u8], at: usize) -> u64
    requires { at + 8 ≤ length line.now }
    ensures { result ≡ leads.seconds_at line.now at }
{
    two_at(line, at) * 3_600 + (two_at(line, at + 3) * 60 + two_at(line, at + 6))
}

/// A lead with a time of day that has so many microseconds.
/// Precondition: its mark and its time are there.
fn timed_lead(line: &[u8], span: usize, microseconds: u64) -> Lead
    requires { 10 ≤ length line.now }
    ensures { result ≡ leads.timed_lead line.now span microseconds }
{
    Lead {
        length: span,
        direction: Some(direction_of(line[0])),
        time: Some(Time {
            seconds: seconds_at(line, 2),
            fraction: microseconds,
            nanoseconds: false,
        }),
    }
}

/// Whether a byte may stand in hex text.
fn is_hex(byte: u8) -> bool
    ensures { result ≡ leads.is_hex byte }
{
    is_digit(byte) || is_blank(byte)
}

/// The place behind the last byte of a line that is not of hex text, up to a comment; 0 where there is none.
#[tactic(auto, using(crate::proofs::Leads::text_ends, crate::proofs::Leads::text_goes, crate::proofs::Leads::text_passes, crate::proofs::Leads::text_full))]
pub(crate) fn behind_text(line: &[u8]) -> usize
    ensures is { result ≡ leads.behind_text (length line.now) line.now 0 0 }
    ensures within { result ≤ length line.now }
{
    let mut found = 0;
    for at in 0..line.len() {
        if line[at] == b'#' {
            return found;
        }
        if !is_hex(line[at]) {
            found = at + 1;
        }
    }
    found
}

/// The place of the first blank from here on, or the end.
#[tactic(auto, using(crate::proofs::Leads::word_ends, crate::proofs::Leads::word_goes, crate::proofs::Leads::word_full))]
pub(crate) fn word_end(line: &[u8], from: usize) -> usize
    requires { from ≤ length line.now }
    ensures is { result ≡ leads.word_end (length line.now - from) line.now from }
    ensures behind { from ≤ result }
    ensures within { result ≤ length line.now }
{
    for passed in 0..line.len() - from {
        if is_blank(line[from + passed]) {
            return from + passed;
        }
    }
    line.len()
}

/// How many bytes stand from here on that are no blanks, up to a comment.
#[tactic(auto, using(crate::proofs::Leads::count_ends, crate::proofs::Leads::count_goes, crate::proofs::Leads::count_passes, crate::proofs::Leads::count_full))]
fn count_from(line: &[u8], from: usize) -> usize
    requires { from ≤ length line.now }
    ensures { result ≡ leads.count_from (length line.now - from) line.now from 0 }
{
    let mut count = 0;
    for passed in 0..line.len() - from {
        if line[from + passed] == b'#' {
            return count;
        }
        if !is_blank(line[from + passed]) {
            count += 1;
        }
    }
    count
}

/// How many bytes of a line stand before its hex text, where that has as many digits as a common header, and other text is before it. A word
/// that begins with other text is none of it, where enough stands behind that word.
fn prefix_of(line: &[u8]) -> usize
    ensures is { result ≡ leads.prefix_of line.now }
    ensures within { result ≤ length line.now }
{
    let from = behind_text(line);
    let end = word_end(line, from);
    if from == 0 {
        return 0;
    }
    if count_from(line, end) >= LEAST_DIGITS {
        return end;
    }
    if count_from(line, from) >= LEAST_DIGITS {
        return from;
    }
    0
}

/// The lead of a line: a mark, a time of day in micro- or milliseconds, if there is one, and the offset 0; or other text.
pub fn lead_of(line: &[u8]) -> Lead
    ensures is { result ≡ leads.lead_of line.now }
    ensures within { result.length ≤ length line.now }
{
    if begins_so(LONG.as_bytes(), line) {
        let microseconds = three_at(line, 11) * 1_000 + three_at(line, 14);
        return timed_lead(line, LONG.len(), microseconds);
    }
    if begins_so(SHORT.as_bytes(), line) {
        return timed_lead(line, SHORT.len(), three_at(line, 11) * 1_000);
    }
    let is_marked = begins_so(MARK.as_bytes(), line);
    Lead {
        length: if is_marked {
            MARK.len()
        } else {
            prefix_of(line)
        },
        direction: if is_marked {
            Some(direction_of(line[0]))
        } else {
            None
        },
        time: None,
    }
}
