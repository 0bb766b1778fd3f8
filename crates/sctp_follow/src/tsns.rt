//! Sets of TSNs, as runs: the memory of one grows with the gaps between its TSNs, and not with their number.

ghost use Rattle.std.specs.Prelude.{◌≡◌, ℕ, ◌+◌, ◌≤◌, ◌<◌, ◌==◌, Some, None, true, false, if◌then◌else◌, min, not, IfSome, IfNone, IfOk, OnOk, OnErr};
ghost use Rattle.std.specs.BTreeMap as trees;
ghost use Rattle.std.specs.Ordering.{nat_cmp};
ghost use Rattle.sctp_follow.specs.Tsns as sets;

use std::alloc::{AllocError, Global};
use std::collections::BTreeMap;

/// A set of TSNs.
#[derive(Drop)]
pub struct Tsns {
    /// The last TSN of each run, by its first one.
    runs: BTreeMap<u32, u32>,
    /// How many TSNs there are. It stops at the greatest `u64`.
    count: u64,
}

impl Tsns {
    /// No TSN. It takes no memory.
    pub fn new(alloc: Global) -> Self
        ensures empty { sets.IsEmpty result }
        ensures count { result.count ≡ 0 }
    {
        Tsns {
            runs: BTreeMap::new(alloc),
            count: 0,
        }
    }

    /// The run that begins last of those that begin no later than a TSN: its first TSN and its last one.
    fn run_before(&self, tsn: u32) -> Option<(u32, u32)>
        ensures some { IfSome result (λ run. sets.run_at self.now run.0 ≡ Some run.1) }
        ensures before { IfSome result (λ run. run.0 ≤ tsn) }
        ensures last { IfSome result (λ run. (q : ℕ) → run.0 < q → q ≤ tsn
            → sets.run_at self.now q ≡ None) }
        ensures none { IfNone result ((q : ℕ) → q ≤ tsn → sets.run_at self.now q ≡ None) }
    {
        let (first, last) = self.runs.range(..=tsn).next_back()?;
        Some((*first, *last))
    }

    /// Whether a TSN is one of them.
    pub fn contains(&self, tsn: u32) -> bool
        ensures { result ≡ sets.contains self.now tsn }
    {
        match self.run_before(tsn) {
            Some((_, last)) => tsn <= last,
            None => false,
        }
    }

    /// The last TSN of the run that begins right behind a TSN.
    fn last_behind(&self, tsn: u32) -> Option<u32>
        ensures few { IfSome result (λ last. tsn < 4294967295) }
        ensures some { IfSome result (λ last. sets.run_at self.now (tsn + 1) ≡ Some last) }
    {
        let next = tsn.checked_add(1)?;
        self.runs.get(&next).copied()
    }

    /// Puts a run in, or in the place of one that begins there too. Refuses only for memory.
    fn put(&mut self, first: u32, last: u32) -> Result<(), AllocError>
        ensures ok { OnOk result ((q : ℕ) → sets.run_at self.new q
            ≡ (if q == first then Some last else sets.run_at self.old q)) }
        ensures err { OnErr result ((q : ℕ) → sets.run_at self.new q ≡ sets.run_at self.old q) }
        ensures count { self.new.count ≡ self.old.count }
    {
        match self.runs.insert(first, last) {
            Ok(_) => Ok(()),
            Err(_) => Err(AllocError),
        }
    }

    /// Takes a TSN in which is none of them, as one of a run from `first` on. The run right behind it becomes a part of that. Refuses only for memory.
    /// Precondition: all TSNs from `first` on that come before it are there.
    fn join(&mut self, first: u32, tsn: u32) -> Result<(), AllocError>
        requires first { first ≤ tsn }
        requires fresh { sets.contains self.old tsn ≡ false }
        requires full { (q : ℕ) → first ≤ q → q < tsn → sets.contains self.old q ≡ true }
        requires gap { (q : ℕ) → first < q → q ≤ tsn → sets.run_at self.old q ≡ None }
        ensures ok { OnOk result (sets.Adds self.old self.new tsn) }
        ensures err { OnErr result ((q : ℕ) → sets.run_at self.new q ≡ sets.run_at self.old q) }
        ensures count { self.new.count ≡ self.old.count }
    {
        let Some(end) = self.last_behind(tsn) else {
            self.put(first, tsn)?;
            return Ok(());
        };
        self.put(first, end.max(tsn))?;
        let _joined = self.runs.remove(&(tsn + 1));
        Ok(())
    }

    /// Takes a TSN in. Answers whether it is a new one. Refuses only for memory.
    pub fn insert(&mut self, tsn: u32) -> Result<bool, AllocError>
        ensures answer { IfOk result (λ is_new. is_new ≡ not (sets.contains self.old tsn)) }
        ensures adds { OnOk result (sets.Adds self.old self.new tsn) }
        ensures count { IfOk result (λ is_new. self.new.count
            ≡ (if is_new then min (self.old.count + 1) u64.MAX else self.old.count)) }
        ensures err { OnErr result (sets.IsSame self.old self.new) }
    {
        if self.contains(tsn) {
            return Ok(false);
        }
        match self.run_before(tsn) {
            Some((first, last)) if last as u64 + 1 == tsn as u64 => self.join(first, tsn)?,
            _ => self.join(tsn, tsn)?,
        }
        self.count = self.count.saturating_add(1);
        Ok(true)
    }

    /// How many TSNs there are. It stops at the greatest `u64`.
    pub fn len(&self) -> u64
        ensures { result ≡ self.now.count }
    {
        self.count
    }
}
