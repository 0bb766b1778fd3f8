//! The round trips of a way: the least, the median and the most.

ghost use Rattle.std.specs.Prelude.{◌≡◌, ◌<◌, nat_lt, min, is_some, IfSome, OnOk, OnErr};
ghost use Rattle.std.specs.BTreeMap as trees;
ghost use Rattle.sctp_follow.specs.Trips as trips;

use crate::flow::counted;
use sctp_show::time::Elapsed;
use std::alloc::{AllocError, Global};
use std::collections::BTreeMap;

/// Round trips are counted by their first three digits: then as many counts are kept as there are such numbers, however many round trips there are.
const DIGITS: u64 = 1_000;

/// The round trips of a way, in nanoseconds.
#[derive(Drop)]
pub struct Trips {
    /// How many there are of each length, which is rounded down to three digits.
    counts: BTreeMap<u64, u64>,
    total: u64,
    least: u64,
    most: u64,
    /// Whether nanoseconds are printed, and not microseconds.
    is_fine: bool,
}

/// The least, the median and the most of some round trips. The median is rounded down to three digits.
#[derive(Clone, Copy)]
pub struct Spread {
    pub least: Elapsed,
    pub median: Elapsed,
    pub most: Elapsed,
}

/// A number rounded down to three digits: 20 is as many digits as a `u64` has.
fn rounded(number: u64) -> u64
    ensures { result ≡ trips.rounded 20 number }
{
    let (mut unit, mut rest) = (1u64, number);
    'digits: for _digit in 0..20u8 {
        if rest >= DIGITS {
            rest = rest / 10;
            unit = unit * 10;
        }
    }
    unit * rest
}

/// A number, or the greatest `u64` in place of a greater one.
fn capped(number: u128) -> u64
    ensures { result ≡ min number u64.MAX }
{
    if number > u64::MAX as u128 {
        return u64::MAX;
    }
    number as u64
}

/// A time of so many nanoseconds.
fn elapsed(nanoseconds: u64, is_fine: bool) -> Elapsed
    ensures { result.nanoseconds ≡ nanoseconds }
{
    Elapsed {
        is_before: false,
        nanoseconds: nanoseconds as u128,
        is_fine,
    }
}

impl Trips {
    /// None yet.
    pub fn new(alloc: Global) -> Self
        ensures { trips.IsEmpty result }
    {
        Trips {
            counts: BTreeMap::new(alloc),
            total: 0,
            least: u64::MAX,
            most: 0,
            is_fine: false,
        }
    }

    /// Counts a round trip. Refuses only for memory.
    pub fn note(&mut self, trip: &Elapsed) -> Result<(), AllocError>
        ensures ok { OnOk result
            (trips.IsNoted (min trip.now.nanoseconds u64.MAX) self.old self.new) }
        ensures counted { OnOk result (trips.AreCounted self.old → trips.AreCounted self.new) }
        ensures err { OnErr result (self.new.total ≡ self.old.total) }
        ensures err_counts { OnErr result (trees.IsUnchanged self.old.counts self.new.counts) }
    {
        let nanoseconds = capped(trip.nanoseconds);
        let key = rounded(nanoseconds);
        let count = self.counts.get(&key).copied().unwrap_or(0);
        match self.counts.insert(key, counted(count, 1)) {
            Ok(_) => {}
            Err(_) => return Err(AllocError),
        }
        self.total = counted(self.total, 1);
        self.least = self.least.min(nanoseconds);
        self.most = self.most.max(nanoseconds);
        self.is_fine = self.is_fine || trip.is_fine;
        Ok(())
    }

    /// The least length that is kept up to which at least half of the round trips are.
    fn median(&self) -> u64
        ensures { 0 < self.now.total → trips.AreCounted self.now
            → trips.IsMedian self.now.total self.now.counts.entries result }
    {
        let (half, mut passed) = (self.total / 2 + self.total % 2, 0u64);
        for (length, count) in &self.counts {
            passed = counted(passed, *count);
            if passed >= half {
                return *length;
            }
        }
        self.most
    }

    /// What there is to say of them, if there are any.
    pub fn spread(&self) -> Option<Spread>
        ensures which { is_some result ≡ nat_lt 0 self.now.total }
        ensures least { IfSome result (λ spread. spread.least.nanoseconds ≡ self.now.least) }
        ensures most { IfSome result (λ spread. spread.most.nanoseconds ≡ self.now.most) }
        ensures median { IfSome result (λ spread. trips.AreCounted self.now
            → trips.IsMedian self.now.total self.now.counts.entries spread.median.nanoseconds) }
    {
        if self.total == 0 {
            return None;
        }
        Some(Spread {
            least: elapsed(self.least, self.is_fine),
            median: elapsed(self.median(), self.is_fine),
            most: elapsed(self.most, self.is_fine),
        })
    }
}
