//! Stalls of a way: nothing is acknowledged for a second or more, though something is waited for.

ghost use Rattle.std.specs.Prelude.{◌≡◌, IfSome};
ghost use Rattle.sctp_follow.specs.Stall as stalls;

use crate::flow::counted;
use crate::outstanding::Passed;
use crate::packet::Arrived;
use sctp_capture::record::Time;
use sctp_show::time::{Elapsed, time_since};
use sctp_util::util::sna32lte;

/// How long a stall takes at least, in nanoseconds: RTO.Min, for which a sender waits before it sends again (RFC 9260 16).
const LEAST: u128 = 1_000_000_000;

/// What a way waits for.
#[derive(Clone, Copy)]
pub struct Wait {
    /// The record since which it waits: with it something was sent, or acknowledged while more is outstanding, or the window became 0.
    pub since: Option<Arrived>,
    /// The first SACK that said a window of 0, if the last one did.
    pub zero: Option<Arrived>,
    /// The new cumulative TSN of the last FORWARD-TSN, and the record of the first one, where no SACK acknowledged it.
    pub forward: Option<Passed>,
    /// How many SACKs came since then.
    pub sacks: u64,
}

/// What a SACK says of a way.
#[derive(Clone, Copy)]
pub struct Report {
    /// Whether it acknowledges something new.
    pub is_progress: bool,
    /// Whether a chunk is outstanding that no SACK acknowledged.
    pub has_more: bool,
    /// Its window (a_rwnd) and its cumulative TSN.
    pub credit: u32,
    pub tsn: u32,
}

/// Why nothing was acknowledged.
#[derive(Clone, Copy)]
pub enum Reason {
    /// The window was 0, as this SACK was the first to say.
    Window(Arrived),
    /// The FORWARD-TSN of this record was not acknowledged for as long as a stall takes.
    Forward(Arrived),
    /// There was no SACK.
    NoSack,
    /// So many SACKs acknowledged nothing new.
    NoProgress(u64),
}

/// A stall.
#[derive(Clone, Copy)]
pub struct Stall {
    pub since: Arrived,
    pub length: Elapsed,
    pub reason: Reason,
}

/// Nothing is waited for.
pub const NO_WAIT: Wait = Wait {
    since: None,
    zero: None,
    forward: None,
    sacks: 0,
};

/// One record, or another one where there is none.
fn first_of(one: Option<Arrived>, other: Arrived) -> Option<Arrived>
    ensures { result ≡ stalls.first_of one other }
{
    match one {
        Some(_) => one,
        None => Some(other),
    }
}

/// The FORWARD-TSN that no SACK acknowledged, behind one with this cumulative TSN.
fn forward_left(forward: Option<Passed>, tsn: u32) -> Option<Passed>
    ensures { result ≡ stalls.forward_left forward tsn }
{
    match forward {
        Some(passed) if sna32lte(passed.tsn, tsn) => None,
        _ => forward,
    }
}

/// Whether a stall may lie between two times.
fn is_long(from: &Option<Time>, to: &Option<Time>) -> bool
    ensures { result ≡ stalls.is_long from.now to.now }
{
    let (Some(from), Some(to)) = (from, to) else {
        return false;
    };
    let length = time_since(from, to);
    !length.is_before && length.nanoseconds >= LEAST
}

/// Why nothing was acknowledged, where the window was not 0 and no FORWARD-TSN was lost.
fn reason_by(sacks: u64) -> Reason
    ensures { result ≡ stalls.reason_by sacks }
{
    if sacks == 0 {
        return Reason::NoSack;
    }
    Reason::NoProgress(sacks)
}

impl Wait {
    /// Why nothing was acknowledged up to a time.
    fn reason(&self, time: &Option<Time>) -> Reason
        ensures { result ≡ stalls.reason_of self.now.zero self.now.forward self.now.sacks time.now }
    {
        if let Some(arrived) = self.zero {
            return Reason::Window(arrived);
        }
        match self.forward {
            Some(passed) if is_long(&passed.arrived.time, time) => Reason::Forward(passed.arrived),
            _ => reason_by(self.sacks),
        }
    }

    /// The stall that ends at a time, if it waits since a second or more.
    pub fn stall_at(&self, time: &Option<Time>) -> Option<Stall>
        ensures { IfSome result (stalls.IsStall self.now time.now) }
    {
        let Some(since) = self.since else {
            return None;
        };
        let (Some(from), Some(to)) = (&since.time, time) else {
            return None;
        };
        let length = time_since(from, to);
        if length.is_before || length.nanoseconds < LEAST {
            return None;
        }
        Some(Stall {
            since,
            length,
            reason: self.reason(time),
        })
    }

    /// Notes that a chunk was sent with a record.
    pub fn note_sent(&mut self, arrived: Arrived)
        ensures { self.new ≡ stalls.after_sent self.old arrived }
    {
        if self.since.is_none() {
            self.since = Some(arrived);
            self.sacks = 0;
        }
    }

    /// Notes that a FORWARD-TSN with this new cumulative TSN was sent with a record.
    pub fn note_forward(&mut self, tsn: u32, arrived: Arrived)
        ensures { self.new ≡ stalls.after_forward self.old tsn arrived }
    {
        self.note_sent(arrived);
        let first = match self.forward {
            Some(passed) => passed.arrived,
            None => arrived,
        };
        self.forward = Some(Passed {
            tsn,
            arrived: first,
        });
    }

    /// Whether the waiting ends with a SACK: it acknowledges something new, or opens a window that was 0.
    pub fn ends_with(&self, report: Report) -> bool
        ensures { result ≡ stalls.ends_with self.now report }
    {
        report.is_progress || (self.zero.is_some() && report.credit > 0)
    }

    /// The record since which it waits behind a SACK of a record.
    fn since_after(&self, report: Report, arrived: Arrived) -> Option<Arrived>
        ensures { result ≡ stalls.since_after self.now report arrived }
    {
        if self.since.is_some() && !self.ends_with(report) {
            return self.since;
        }
        if report.has_more || report.credit == 0 {
            return Some(arrived);
        }
        None
    }

    /// Notes a SACK of a record.
    pub fn note_sack(&mut self, report: Report, arrived: Arrived)
        ensures { self.new ≡ stalls.after_sack self.old report arrived }
    {
        let since = self.since_after(report, arrived);
        let ends = self.ends_with(report);
        self.since = since;
        self.sacks = if ends { 0 } else { counted(self.sacks, 1) };
        self.zero = if report.credit == 0 {
            first_of(self.zero, arrived)
        } else {
            None
        };
        self.forward = forward_left(self.forward, report.tsn);
    }
}
