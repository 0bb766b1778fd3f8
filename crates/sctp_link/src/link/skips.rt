//! What the arrival of a FORWARD-TSN makes of the receiver of a link (RFC 3758 3.6).

ghost use Rattle.std.specs.Prelude.{◌≡◌, ◌<◌, ◌≤◌, ◌+◌, ◌-◌, ◌%◌, ◌^◌, ◌∷◌, ℕ, List, true, None, Some, OnErr, IfOk, IsOkUnless, length, slice_get, slice_index_or};
ghost use Rattle.std.specs.List.{list_all};
ghost use Rattle.sctp_util.specs.declared.error.Error.TheVariants.{ErrOutOfMemory};

use super::Link;
use crate::datagram::read_forward_tsn;
use crate::event::Reply;
use crate::record::Kind;
use crate::skipped::{Named, named_on, named_on_each, record_names};
use sctp_chunks::chunk::chunk_forward_tsn::ChunkForwardTsn;
use sctp_receiver::replay;
use sctp_util::error::Result;
use sctp_util::util::Checksum;

impl<C: Checksum + Drop> Link<C> {
    ghost use Rattle.sctp_model.specs.LinkRecord.{Forward, StreamRecord};
    ghost use Rattle.sctp_data.specs.ForwardTsn.{forward_tsn_of};
    ghost use Rattle.sctp_model.specs.Messages.{is_open};
    ghost use Rattle.sctp_model.specs.Receiver.{held_on};
    ghost use Rattle.sctp_model.specs.Changes.{skip_counts, receive_skip};
    ghost use Rattle.sctp_model.specs.Steps.{IsRight, refusal_of, arrival_fits};
    ghost use Rattle.sctp_model.specs.declared.event.Event.TheVariants as E;
    ghost use Rattle.sctp_model.specs.refinement.Naming.{names_fit, complete_first, min_with};
    ghost use Rattle.sctp_link.specs.Replies.{reply_of};
    ghost use Rattle.sctp_link.specs.declared.skipped.Named.{Named};
    ghost use Rattle.sctp_link.specs.Skips.{named_in, wire_skip};

    // Whether stream sequence numbers can be told apart before a skip and after it (RFC 4960 6.5).
    pub(super) fn skip_fits(&self, upto: u64, names: &[u64]) -> bool
        requires { (k : ℕ) × (slice_get self.now.recorded.network k
            ≡ Some (Forward upto names.now)) }
        ensures { result ≡ arrival_fits self.now.recorded (Some (Forward upto names.now)) }
    {
        let cumulative = count_of(self.receiver.receiver().cumulative_tsn(), self.first_tsn);
        if cumulative > upto {
            return true;
        }
        self.names_fit(upto, names)
    }

    // So on each open stream. The names are gone through once, if there is memory for what they name on each.
    fn names_fit(&self, upto: u64, names: &[u64]) -> bool
        requires { (k : ℕ) × (slice_get self.now.recorded.network k
            ≡ Some (Forward upto names.now)) }
        ensures { result
            ≡ list_all (λ r. names_fit self.now.recorded r.stream names.now)
            self.now.recorded.streams }
    {
        let table = named_on_each(self.alloc, &self.progress, &self.messages, names);
        for at in 0..self.progress.len() {
            if !self.stream_fits(at, upto, names, &table) {
                return false;
            }
        }
        true
    }

    // On the stream at a place, from the ends of what is held and of what is named.
    fn stream_fits(&self, at: usize, upto: u64, names: &[u64], table: &[Named]) -> bool
        requires inside { at < length self.now.recorded.streams }
        requires lies { (k : ℕ)
            × (slice_get self.now.recorded.network k ≡ Some (Forward upto names.now)) }
        requires table { (r : StreamRecord) (d : Named)
            → slice_get self.now.recorded.streams at ≡ Some r → at < length table.now
            → d ≡ slice_index_or table.now at d
            → d ≡ named_in self.now.recorded r.stream names.now }
        ensures { (r : StreamRecord) → slice_get self.now.recorded.streams at ≡ Some r
            → result ≡ names_fit self.now.recorded r.stream names.now }
    {
        let stream = self.progress.number_at(at);
        let named = self.named_at(at, upto, names, table);
        let (low, high) = self.index_range(stream);
        let span = low.min(named.low) + 0x8000;
        if high.max(named.end.saturating_sub(1)) >= span {
            return false;
        }
        named.end < span || named.end - 0x8000 < self.least_left(stream, named.low)
    }

    // What is named on the stream at a place: from the table, or where that has nothing by going through the names.
    fn named_at(&self, at: usize, upto: u64, names: &[u64], table: &[Named]) -> Named
        requires inside { at < length self.now.recorded.streams }
        requires lies { (k : ℕ)
            × (slice_get self.now.recorded.network k ≡ Some (Forward upto names.now)) }
        requires table { (r : StreamRecord) (d : Named)
            → slice_get self.now.recorded.streams at ≡ Some r → at < length table.now
            → d ≡ slice_index_or table.now at d
            → d ≡ named_in self.now.recorded r.stream names.now }
        ensures { (r : StreamRecord) → slice_get self.now.recorded.streams at ≡ Some r
            → result ≡ named_in self.now.recorded r.stream names.now }
    {
        if at < table.len() {
            return table[at];
        }
        named_on(&self.messages, self.progress.number_at(at), names)
    }

    // The lesser of an index and that of the first message held, where it is complete: no skip gives that up.
    fn least_left(&self, stream: u16, low: u64) -> u64
        requires { is_open self.now.recorded stream ≡ true }
        ensures { result
            ≡ min_with (complete_first self.now.recorded (held_on self.now.recorded stream)) low }
    {
        let Some(queue) = replay::reassembly(self.receiver.receiver(), stream) else {
            unreachable!()
        };
        let held = queue.ordered();
        let Some(first) = held.front() else {
            return low;
        };
        if !first.is_complete() {
            return low;
        }
        low.min(self.index_of(first))
    }

    // Takes the FORWARD-TSN of datagram k, which goes up to this slot.
    pub(super) fn arrive_skip(&mut self, k: u64, upto: u64) -> Result<Reply>
        requires none { refusal_of self.old.recorded (E.Arrive k) ≡ None }
        requires lies { (names : List ℕ)
            × (slice_get self.old.recorded.network k ≡ Some (Forward upto names)) }
        ensures ok { IfOk result
            (λ reply. IsRight self.old.recorded (E.Arrive k) (reply_of reply) self.new.recorded) }
        ensures checksum { self.new.checksum ≡ self.old.checksum }
        ensures err { OnErr result (self.new.recorded ≡ self.old.recorded) }
        ensures memory { IsOkUnless result ErrOutOfMemory }
    {
        let chunk = read_forward_tsn(self.alloc, &self.network[k as usize].bytes, &self.checksum)?;
        let cumulative = count_of(self.receiver.receiver().cumulative_tsn(), self.first_tsn);
        if cumulative > upto {
            return Ok(Reply::Stale);
        }
        self.follow(k, upto, &chunk);
        Ok(Reply::Skipped)
    }

    // Follows a skip that counts, which this chunk says. It takes no memory.
    fn follow(&mut self, k: u64, upto: u64, chunk: &ChunkForwardTsn)
        requires none { refusal_of self.old.recorded (E.Arrive k) ≡ None }
        requires lies { (names : List ℕ)
            × (slice_get self.old.recorded.network k ≡ Some (Forward upto names)) }
        requires counts { skip_counts self.old.recorded upto ≡ true }
        requires says { (names : List ℕ) → slice_get self.old.recorded.network k
            ≡ Some (Forward upto names)
            → forward_tsn_of chunk.now ≡ wire_skip self.old.recorded upto names }
        ensures followed { (names : List ℕ) → slice_get self.old.recorded.network k
            ≡ Some (Forward upto names) → self.new.recorded
            ≡ receive_skip self.old.recorded upto names }
        ensures checksum { self.new.checksum ≡ self.old.checksum }
    {
        let Kind::Forward { messages, .. } = &self.network[k as usize].kind else {
            unreachable!()
        };
        let _ = self.receiver.forward_tsn_by_names(chunk);
        record_names(&mut self.progress, &self.messages, messages);
        self.skipped = upto as usize + 1;
    }
}

/// How many slots a cumulative TSN covers.
pub(super) fn count_of(cumulative_tsn: u32, first_tsn: u32) -> u64
    ensures { result ≡ ((cumulative_tsn + (2 ^ 32 - first_tsn)) % 2 ^ 32 + 1) % 2 ^ 32 }
{
    u64::from(cumulative_tsn.wrapping_sub(first_tsn).wrapping_add(1))
}
