//! A reset of the incoming stream (RFC 6525 5.2.2).

ghost use Rattle.std.specs.Prelude.{◌≡◌, ◌+◌, ◌-◌, ◌^◌, ◌<◌, ◌≤◌, ◌&&◌, [], ◌∷◌, ◌++◌, length, min, true, false, OnOk, OnErr, IfErr, IsOk};
ghost use Rattle.std.specs.List.{list_any, list_all, filter};
ghost use Rattle.std.specs.VecDeque.{deque_len, deque_capacity};
ghost use Rattle.sctp_util.specs.declared.error.Error.TheVariants.{ErrOutOfMemory};
ghost use Rattle.sctp_reassembly.specs.reassembly_queue.Resets.{is_old_message, of_new_use, dropped_bytes, after_reset};

use crate::reassembly_queue::ReassemblyQueue;
use crate::reassembly_queue::chunks::Fragments;
use crate::reassembly_queue::counted_sets::CountedSets;
use crate::reassembly_queue::skips::lies_upto;
use sctp_util::error::Result;
use std::collections::VecDeque;

impl ReassemblyQueue {
    ghost use Rattle.sctp_reassembly.specs.reassembly_queue.ReassemblyQueue.{IsCounted};

    /// The incoming stream is reset (RFC 6525 5.2.2): `last_tsn` is the last TSN that the peer assigned before, and the stream
    /// sequence number 0 is expected next. Complete ordered messages up to `last_tsn` that were not read are read before all
    /// that comes after it, in their order, behind the complete unordered ones that are there. Of every other ordered message
    /// the fragments up to `last_tsn` are dropped, and those after it stay for the new use. So of a message with fragments on
    /// both sides, which only a peer makes that breaks the rules, the later ones stay and may be incomplete for ever. Fragments of
    /// unordered messages that are not whole stay, since these have no number. Refuses only for memory, and not where no complete
    /// ordered message up to `last_tsn` is there; the queue is as it was then.
    pub fn reset(&mut self, last_tsn: u32) -> Result<()>
        ensures ok { OnOk result (self.new ≡ after_reset last_tsn self.old) }
        ensures err { OnErr result (self.new ≡ self.old) }
        ensures memory { IfErr result (λ e. e ≡ ErrOutOfMemory) }
        ensures no_memory { list_any (is_old_message last_tsn) self.old.held.ordered ≡ false
            → IsOk result }
        ensures counted { IsCounted self.old → IsCounted self.new }
    {
        let count = old_messages(self.ordered.as_deque(), last_tsn);
        self.unordered.reserve(count)?;
        let gone = self.ordered.end_use(last_tsn, &mut self.unordered);
        self.next_ssn = 0;
        self.release(gone);
        Ok(())
    }
}

// How many complete messages of the old use there are.
fn old_messages(sets: &VecDeque<Fragments>, last_tsn: u32) -> usize
    ensures { result ≡ length (filter (is_old_message last_tsn) sets.now.items) }
{
    let mut count = 0usize;
    for place in 0..sets.len() {
        if is_old_message(&sets[place], last_tsn) {
            count += 1;
        }
    }
    count
}

// Whether the set is one.
fn is_old_message(set: &Fragments, last_tsn: u32) -> bool
    ensures { result ≡ is_old_message last_tsn set.now }
{
    set.is_complete() && lies_upto(set.fragments(), last_tsn)
}

/// Moves the complete messages of the old use, which ends with the TSN, behind others, and keeps of the rest what is of
/// the new use. Counts the bytes that are dropped up to the greatest number. It takes no memory.
/// Precondition: there is room for those that are moved.
pub(crate) fn end_use(
    sets: &mut VecDeque<Fragments>,
    last_tsn: u32,
    moved: &mut CountedSets,
) -> usize
    requires { length moved.old.items
        + length (filter (is_old_message last_tsn) sets.old.items) ≤ moved.old.capacity }
    ensures rest { sets.new.items ≡ of_new_use last_tsn sets.old.items }
    ensures moved { moved.new.items
        ≡ moved.old.items ++ filter (is_old_message last_tsn) sets.old.items }
    ensures bytes { result ≡ min (dropped_bytes last_tsn sets.old.items) (2 ^ 64 - 1) }
{
    let mut gone = 0usize;
    for _place in 0..sets.len() {
        match sets.pop_front() {
            Some(set) => {
                gone = gone.saturating_add(end_use_of(set, sets, last_tsn, moved));
            }
            None => unreachable!(),
        }
    }
    gone
}

// The same for one set, of which the rest goes behind the others.
fn end_use_of(
    set: Fragments,
    sets: &mut VecDeque<Fragments>,
    last_tsn: u32,
    moved: &mut CountedSets,
) -> usize
    requires room { length sets.old.items < deque_capacity sets.old }
    requires moved { is_old_message last_tsn set ≡ true
        → length moved.old.items < moved.old.capacity }
    ensures rest { sets.new.items ≡ sets.old.items ++ of_new_use last_tsn (set ∷ []) }
    ensures moved { moved.new.items
        ≡ moved.old.items ++ filter (is_old_message last_tsn) (set ∷ []) }
    ensures room { deque_capacity sets.new ≡ deque_capacity sets.old }
    ensures moved_room { moved.new.capacity ≡ moved.old.capacity }
    ensures bytes { result ≡ min (dropped_bytes last_tsn (set ∷ [])) (2 ^ 64 - 1) }
{
    if is_old_message(&set, last_tsn) {
        moved.push_back_reserved(set);
        return 0;
    }
    let mut rest = set;
    let gone = rest.keep_past(last_tsn);
    if !rest.fragments().is_empty() {
        sets.push_back_reserved(rest);
    }
    gone
}
