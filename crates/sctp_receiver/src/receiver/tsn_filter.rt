//! The TSNs that came (RFC 4960 6.2).

ghost use Rattle.std.specs.Prelude.{◌≡◌, ◌==◌, ◌<◌, ◌≤◌, ◌+◌, ◌-◌, ◌^◌, ◌∷◌, ◌++◌, [], ℕ, true, false, not, OnOk, OnErr, IfOk, IsOkUnless, length, map, drop, take, slice_get, min, IsTrue};
ghost use Rattle.sctp_util.specs.declared.error.Error.TheVariants.{ErrOutOfMemory};
ghost use Rattle.sctp_util.specs.Serial.{comes_before};
ghost use Rattle.sctp_receiver.specs.Costs.{IsWithinBlocks};
ghost use Rattle.sctp_receiver.specs.TsnFilter.{rise_beyond};
ghost use Rattle.sctp_serial.specs.DataChunks.{preceding_tsn};
ghost use Rattle.sctp_serial.specs.Turns.{IsWithinDigits};

mod coming;
mod runs;
pub mod undo;

use self::runs::{Run, contains, gap_ack_blocks, pass};
use sctp_data::chunk::chunk_selective_ack::GapAckBlock;
use sctp_serial::serial::distance;
use sctp_serial::turns::Turns;
use sctp_util::error::Result;
use sctp_util::util::sna32lte;
use std::alloc::Global;
use std::collections::VecDeque;
use std::marker::Model;
use std::mem;

// For how many runs the memory is kept where there are none: 512 bytes.
const KEPT_RUNS: usize = 64;

/// Which TSNs came: all up to the cumulative one, and those beyond it, as runs of 8 bytes (RFC 4960 6.2); and which of them came again
/// since the last SACK. Of those that the cumulative TSN passed it keeps nothing.
#[derive(Drop)]
pub struct TsnFilter {
    runs: VecDeque<Run>,
    // for how many runs there is memory, at least
    room: usize,
    duplicates: Vec<u32>,
    cumulative_tsn: u32,
}

impl Model for TsnFilter {
    ghost use Rattle.std.specs.Prelude.{◌<◌, ◌≤◌, ◌^◌, length};
    ghost use Rattle.std.specs.VecDeque.{deque_capacity};
    ghost use Rattle.sctp_receiver.specs.TsnFilter.{Filter};
    ghost use Rattle.sctp_receiver.specs.TsnRuns.{AreRuns, tsns_of};

    ghost Value = { Filter };

    ghost view = { λ f. record {
      cumulative_tsn = f.cumulative_tsn;
      beyond = tsns_of f.runs.items;
      duplicates = f.duplicates.items;
      room = f.room;
    } };

    ghost invariant = { λ f. record {
      in_range : f.cumulative_tsn < 2 ^ 32;
      runs : AreRuns f.cumulative_tsn 0 f.runs.items;
      places : length f.runs.items ≤ f.room;
      capacity : f.room ≤ deque_capacity f.runs;
    } };
}

impl TsnFilter {
    ghost use Rattle.sctp_receiver.specs.TsnFilter.{has_come, is_opposite, highest_tsn, with_duplicate, skipped_to, gap_ack_blocks};

    /// Nothing came: the first TSN is expected next. It takes no memory.
    pub(crate) fn new(alloc: Global, first_tsn: u32) -> Self
        ensures { result ≡ record {
          cumulative_tsn = preceding_tsn first_tsn;
          beyond = [];
          duplicates = [];
          room = 0;
        } }
    {
        TsnFilter {
            runs: VecDeque::new(alloc),
            room: 0,
            duplicates: Vec::new(alloc),
            cumulative_tsn: first_tsn.wrapping_sub(1),
        }
    }

    /// The TSN up to which all came.
    pub(crate) fn cumulative_tsn(&self) -> u32
        ensures { result ≡ self.now.cumulative_tsn }
    {
        self.cumulative_tsn
    }

    /// Whether a TSN came beyond the cumulative one.
    pub(crate) fn has_gaps(&self) -> bool
        ensures { result ≡ not (length self.now.beyond == 0) }
    {
        !self.runs.is_empty()
    }

    /// The TSNs that came again, oldest first.
    pub(crate) fn duplicates(&self) -> &[u32]
        ensures { result.now ≡ self.now.duplicates }
    {
        &self.duplicates
    }

    /// Whether a TSN came. For the one that is expected next nothing is looked up.
    pub(crate) fn has_come(&self, tsn: u32) -> bool
        ensures { result ≡ has_come tsn self.now }
    {
        self.has_come_counted(tsn, &mut Turns::new())
    }

    /// The same, and its turns are added: at most as many as the number of TSNs beyond has binary digits.
    pub(crate) fn has_come_counted(&self, tsn: u32, turns: &mut Turns) -> bool
        ensures answer { result ≡ has_come tsn self.now }
        ensures not_back { turns.old ≤ turns.new }
        ensures cost { IsWithinDigits (length self.now.beyond) (turns.new - turns.old) }
    {
        if tsn == self.cumulative_tsn.wrapping_add(1) {
            return false;
        }
        sna32lte(tsn, self.cumulative_tsn) || contains(&self.runs, self.cumulative_tsn, tsn, turns)
    }

    /// Whether a TSN is neither before nor after the cumulative one.
    pub(crate) fn is_opposite(&self, tsn: u32) -> bool
        ensures value { result ≡ is_opposite tsn self.now }
        ensures tsn_fits { tsn < 2 ^ 32 }
        ensures cumulative_fits { self.now.cumulative_tsn < 2 ^ 32 }
        ensures rise { rise_beyond self.now.cumulative_tsn 1 self.now.beyond ≡ true }
    {
        distance(self.cumulative_tsn, tsn) == 1 << 31
    }

    /// The highest TSN that came: the last of those beyond the cumulative one, or that one.
    pub(crate) fn highest_tsn(&self) -> u32
        ensures { result ≡ highest_tsn self.now }
    {
        match self.runs.back() {
            Some(run) => run.last,
            None => self.cumulative_tsn,
        }
    }

    /// Notes a TSN that came again.
    pub(crate) fn record_duplicate(&mut self, tsn: u32) -> Result<()>
        ensures ok { OnOk result (self.new ≡ with_duplicate tsn self.old) }
        ensures err { OnErr result (self.new ≡ self.old) }
        ensures memory { IsOkUnless result ErrOutOfMemory }
    {
        self.duplicates.push(tsn)?;
        Ok(())
    }

    /// All up to a later TSN counts as come. Its turns are added: at most one more than TSNs beyond leave.
    pub(crate) fn skip_to_counted(&mut self, tsn: u32, turns: &mut Turns)
        requires { comes_before self.old.cumulative_tsn tsn ≡ true }
        ensures value { self.new ≡ skipped_to tsn self.old }
        ensures not_back { turns.old ≤ turns.new }
        ensures cost { turns.new + length self.new.beyond
            ≤ turns.old + length self.old.beyond + 1 }
    {
        let from = self.cumulative_tsn;
        self.cumulative_tsn = pass(&mut self.runs, from, tsn, turns);
    }

    /// Frees the memory of runs where none is left, but for few of them. It takes no memory.
    pub(crate) fn settle(&mut self)
        ensures { self.new ≡ record self.old { room = self.new.room } }
    {
        if self.runs.is_empty() && self.runs.capacity() > KEPT_RUNS {
            self.runs.shrink_to_fit();
            self.room = 0;
        }
    }

    /// The first gap ack blocks, so many at most. Its turns are added: at most 34 for each block, one more, and as many as the number of
    /// TSNs beyond has binary digits; where memory runs out, for each block that there would be else.
    pub(crate) fn gap_ack_blocks_within_counted(
        &self,
        alloc: Global,
        most: usize,
        turns: &mut Turns,
    ) -> Result<Vec<GapAckBlock>>
        ensures blocks { IfOk result (λ blocks.
            blocks.items ≡ take most (gap_ack_blocks self.now)) }
        ensures memory { IsOkUnless result ErrOutOfMemory }
        ensures not_back { turns.old ≤ turns.new }
        ensures cost { IfOk result (λ blocks. IsWithinBlocks
            (length blocks.items) (length self.now.beyond) (turns.new - turns.old)) }
        ensures cost_of_blocks { IsWithinBlocks (min most (length (gap_ack_blocks self.now)))
            (length self.now.beyond) (turns.new - turns.old) }
    {
        gap_ack_blocks(alloc, &self.runs, self.cumulative_tsn, most, turns)
    }

    /// So many of the TSNs that came again are forgotten, those that came first. It takes no memory.
    pub(crate) fn forget_duplicates(&mut self, count: usize)
        ensures { self.new ≡ record self.old { duplicates = drop count self.old.duplicates } }
    {
        let end = count.min(self.duplicates.len());
        self.duplicates.drain(..end);
    }

    /// The TSNs that came again, which are forgotten. It takes no memory.
    pub(crate) fn take_duplicates(&mut self, alloc: Global) -> Vec<u32>
        ensures taken { result.items ≡ self.old.duplicates }
        ensures rest { self.new ≡ record self.old { duplicates = [] } }
    {
        mem::replace(&mut self.duplicates, Vec::new(alloc))
    }
}
