//! Incomplete messages that no name of a FORWARD-TSN covers (RFC 3758 3.6).

ghost use Rattle.std.specs.Prelude.{◌≡◌, ◌+◌, ◌-◌, ◌*◌, ◌%◌, ◌^◌, ◌≤◌, length, not, false, None, Some, if◌then◌else◌};
ghost use Rattle.sctp_util.specs.Serial.{at_or_before16};
ghost use Rattle.std.specs.List.{list_any, filter};
ghost use Rattle.sctp_reassembly.specs.reassembly_queue.Costs.{incomplete_skip_walk};
ghost use Rattle.sctp_reassembly.specs.reassembly_queue.Counts.{set_chunks};
ghost use Rattle.sctp_reassembly.specs.reassembly_queue.Skips.{cannot_complete, ssn_past_sets, after_incomplete_skip};

use crate::reassembly_queue::chunks::Fragments;
use crate::reassembly_queue::skips::cannot_complete;
use crate::reassembly_queue::{ReassemblyQueue, ssn_past};
use sctp_serial::turns::Turns;
use std::collections::VecDeque;

impl ReassemblyQueue {
    ghost use Rattle.sctp_reassembly.specs.reassembly_queue.ReassemblyQueue.{IsCounted, complete_sets};

    /// Discards every incomplete set that is seen to miss a TSN at or before `new_cumulative_tsn`, whatever its number, and moves
    /// the next number past each of them, where it was not past it yet: all up to that TSN counts as come, so none of
    /// them can become whole, and none is waited for, though no name covers it (RFC 3758 3.6). Whole sets stay, and are read as before.
    /// Where there is no such set nothing changes. It takes no memory.
    pub fn forward_tsn_for_incomplete(&mut self, new_cumulative_tsn: u32)
        ensures value { self.new ≡ after_incomplete_skip new_cumulative_tsn self.old }
        ensures counted { IsCounted self.old → IsCounted self.new }
        ensures complete { complete_sets self.new.held ≡ complete_sets self.old.held }
        ensures agrees { list_any (cannot_complete new_cumulative_tsn) self.old.held.ordered ≡ false
            → self.new ≡ self.old }
    {
        self.forward_tsn_for_incomplete_counted(new_cumulative_tsn, &mut Turns::new());
    }

    /// The same, and what it looks at is added: eight turns for each set of ordered messages, and four for each of their fragments, at
    /// most (`incomplete_skip_walk`).
    pub fn forward_tsn_for_incomplete_counted(&mut self, new_cumulative_tsn: u32, turns: &mut Turns)
        ensures value { self.new ≡ after_incomplete_skip new_cumulative_tsn self.old }
        ensures counted { IsCounted self.old → IsCounted self.new }
        ensures complete { complete_sets self.new.held ≡ complete_sets self.old.held }
        ensures agrees { list_any (cannot_complete new_cumulative_tsn) self.old.held.ordered ≡ false
            → self.new ≡ self.old }
        ensures not_back { turns.old ≤ turns.new }
        ensures walk { turns.new ≤ turns.old + incomplete_skip_walk self.old.held }
    {
        let sets = self.ordered.as_deque();
        self.next_ssn = ssn_past_sets(sets, self.next_ssn, new_cumulative_tsn, turns);
        let gone = self.ordered.discard(None, Some(new_cumulative_tsn), turns);
        self.release(gone);
    }
}

// The next number, past each set that can't become complete. Its turns are added.
fn ssn_past_sets(sets: &VecDeque<Fragments>, next_ssn: u16, tsn: u32, turns: &mut Turns) -> u16
    ensures value { result ≡ ssn_past_sets next_ssn (filter (cannot_complete tsn) sets.now.items) }
    ensures not_back { turns.old ≤ turns.new }
    ensures walk { turns.new
        ≤ turns.old + 3 * length sets.now.items + 2 * set_chunks sets.now.items }
{
    let mut next = next_ssn;
    for place in 0..sets.len() {
        next = past_set(&sets[place], next, tsn, turns);
    }
    next
}

// The next number, past the set where that can't become complete. Its turns are added.
fn past_set(set: &Fragments, next_ssn: u16, tsn: u32, turns: &mut Turns) -> u16
    ensures value { result ≡ (if cannot_complete tsn set.now then
        (if at_or_before16 next_ssn set.now.ssn then (set.now.ssn + 1) % 2 ^ 16 else next_ssn)
        else next_ssn) }
    ensures not_back { turns.old ≤ turns.new }
    ensures walk { turns.new ≤ turns.old + 2 * length set.now.chunks + 3 }
{
    turns.tick();
    if cannot_complete(set, tsn, turns) {
        return ssn_past(next_ssn, set.ssn());
    }
    next_ssn
}
