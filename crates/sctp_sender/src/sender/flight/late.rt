//! Messages that are in flight when their lifetime ends, or when they were sent as often as they may be (RFC 3758 3.5, 4.1;
//! RFC 7496 3.1).

ghost use Rattle.std.specs.Prelude.{◌≡◌, ◌+◌, ◌≤◌, ◌<◌, ◌⊎◌, ◌++◌, ◌∷◌, ℕ, List, [], true, false, not, None, OnOk, OnErr, IfOk, IfErr, IsOk, is_some, length, map, vec_len, vec_capacity, option_to_list};
ghost use Rattle.std.specs.List.{list_all, sum_by};
ghost use Rattle.sctp_data.specs.declared.chunk.chunk_selective_ack.GapAckBlock.{GapAckBlock};
ghost use Rattle.sctp_sender.specs.Reporting.{AreKnown};
ghost use Rattle.sctp_sender.specs.declared.sender.refusal.SenderRefusal.TheVariants.{OutOfMemory, TsnsUsedUp};

use super::InFlight;
use crate::sender::refusal::SenderRefusal;
use sctp_stream::stream_numbers::put;
use std::alloc::Global;

/// A message that was abandoned.
#[derive(Clone, Copy, Debug, PartialEq, Eq)]
pub struct AbandonedMessage {
    /// Its stream.
    pub stream: u16,
    /// Its number.
    pub number: u64,
    /// How many of its bytes left.
    pub bytes: usize,
    /// Whether with them, after those of the messages before it in the answer, the buffered amount of its stream fell from above the
    /// low threshold to at most it. The parts of a sender know no streams, and answer false.
    pub is_low: bool,
}

impl InFlight {
    ghost use Rattle.sctp_outbound.specs.outbound_queue.OutboundQueue.{late_tsns, total_bytes};
    ghost use Rattle.sctp_sender.specs.Flight.{has_tail_at, may_send};
    ghost use Rattle.sctp_sender.specs.Late.{abandoned_at, abandoned_each, late_order, leaving_at, leaving_each, tail_first, with_tail, worn_order};
    ghost use Rattle.sctp_sender.specs.Resending.{are_listed, worn_tsns};

    /// Abandons each message in flight that is late: a chunk of it has reached its deadline, it is not abandoned yet, and of it
    /// some chunk is not acknowledged or some fragment waits. `now` is in nanoseconds. Answers them, in the order of the first
    /// late chunk of each, but for the message of which some waits, which comes first. Refuses, only where there is such a one,
    /// with `TsnsUsedUp`, where 2^31 - 1 chunks are in flight; and for memory, but not where no message is late. All is as it
    /// was then.
    pub(crate) fn expire_late(
        &mut self,
        alloc: Global,
        now: u64,
    ) -> Result<Vec<AbandonedMessage>, SenderRefusal>
        ensures ok { OnOk result (self.new ≡ abandoned_each (late_order now self.old) self.old) }
        ensures answer { IfOk result (λ abandoned. abandoned.items
            ≡ leaving_each (late_order now self.old) self.old) }
        ensures released { IfOk result (λ abandoned. total_bytes self.new.queue
            + sum_by (λ g. g.bytes) abandoned.items ≡ total_bytes self.old.queue) }
        ensures accepted { IsOk result →
            (with_tail (late_tsns now self.old.queue) self.old ≡ None)
            ⊎ (may_send self.old ≡ true) }
        ensures refused { IfErr result (λ e. (e ≡ OutOfMemory)
            ⊎ ((e ≡ TsnsUsedUp) × (may_send self.old ≡ false)
            × (is_some (with_tail (late_tsns now self.old.queue) self.old) ≡ true))) }
        ensures none { IfOk result (λ abandoned. abandoned.items ≡ []
            → late_tsns now self.old.queue ≡ []) }
        ensures idle { late_tsns now self.old.queue ≡ [] → IsOk result }
        ensures err { OnErr result (self.new ≡ self.old) }
        ensures known { (bs : List GapAckBlock) → AreKnown bs self.old.queue.inflight.chunks
            → AreKnown bs self.new.queue.inflight.chunks }
    {
        let tsns = self.queue.expired_inflight(alloc, now)?;
        let abandoned = self.abandon_all(alloc, &tsns)?;
        self.queue.settle_deadlines(now);
        Ok(abandoned)
    }

    /// Abandons each message in flight that was sent again as often as it may be (RFC 7496 3.1) and of which a chunk is marked for
    /// retransmission, outstanding and sent more often than its limit and once; never a DCEP message (RFC 8832 6). The answer and
    /// the refusals are those of `expire_late`. All is as it was then.
    pub(crate) fn expire_rexmit(
        &mut self,
        alloc: Global,
    ) -> Result<Vec<AbandonedMessage>, SenderRefusal>
        ensures ok { OnOk result (self.new ≡ abandoned_each (worn_order self.old) self.old) }
        ensures none_left { OnOk result (worn_tsns self.new ≡ []) }
        ensures answer { IfOk result (λ abandoned. abandoned.items
            ≡ leaving_each (worn_order self.old) self.old) }
        ensures released { IfOk result (λ abandoned. total_bytes self.new.queue
            + sum_by (λ g. g.bytes) abandoned.items ≡ total_bytes self.old.queue) }
        ensures accepted { IsOk result →
            (with_tail (worn_tsns self.old) self.old ≡ None) ⊎ (may_send self.old ≡ true) }
        ensures refused { IfErr result (λ e. (e ≡ OutOfMemory)
            ⊎ ((e ≡ TsnsUsedUp) × (may_send self.old ≡ false)
            × (is_some (with_tail (worn_tsns self.old) self.old) ≡ true))) }
        ensures none { IfOk result (λ abandoned. abandoned.items ≡ []
            → worn_tsns self.old ≡ []) }
        ensures idle { worn_tsns self.old ≡ [] → IsOk result }
        ensures err { OnErr result (self.new ≡ self.old) }
        ensures known { (bs : List GapAckBlock) → AreKnown bs self.old.queue.inflight.chunks
            → AreKnown bs self.new.queue.inflight.chunks }
    {
        let _ = &self.queue;
        self.pass_unmarked();
        let tsns = self.worn_tsns(alloc)?;
        self.abandon_all(alloc, &tsns)
    }

    // Abandons the messages of these TSNs, that with a tail before the others.
    fn abandon_all(
        &mut self,
        alloc: Global,
        tsns: &[u32],
    ) -> Result<Vec<AbandonedMessage>, SenderRefusal>
        ensures ok { OnOk result (self.new
            ≡ abandoned_each (tail_first tsns.now self.old) self.old) }
        ensures listed { OnOk result (are_listed tsns.now self.old ≡ true
            → are_listed [] self.new ≡ true) }
        ensures answer { IfOk result (λ abandoned. abandoned.items
            ≡ leaving_each (tail_first tsns.now self.old) self.old) }
        ensures released { IfOk result (λ abandoned. total_bytes self.new.queue
            + sum_by (λ g. g.bytes) abandoned.items ≡ total_bytes self.old.queue) }
        ensures accepted { IsOk result → (with_tail tsns.now self.old ≡ None)
            ⊎ (may_send self.old ≡ true) }
        ensures refused { IfErr result (λ e. (e ≡ OutOfMemory)
            ⊎ ((e ≡ TsnsUsedUp) × (may_send self.old ≡ false)
            × (is_some (with_tail tsns.now self.old) ≡ true))) }
        ensures idle { tsns.now ≡ [] → IsOk result }
        ensures err { OnErr result (self.new ≡ self.old) }
        ensures known { (bs : List GapAckBlock) → AreKnown bs self.old.queue.inflight.chunks
            → AreKnown bs self.new.queue.inflight.chunks }
    {
        let mut abandoned = Vec::new(alloc);
        if tsns.is_empty() {
            return Ok(abandoned);
        }
        if tsns.len() == usize::MAX || abandoned.reserve(tsns.len() + 1).is_err() {
            return Err(SenderRefusal::OutOfMemory);
        }
        self.abandon_with_tail(tsns, &mut abandoned)?;
        self.abandon_each(tsns, &mut abandoned);
        Ok(abandoned)
    }

    // Abandons the first of the messages of these TSNs that has a tail, if there is one, which alone may be refused.
    fn abandon_with_tail(
        &mut self,
        tsns: &[u32],
        abandoned: &mut Vec<AbandonedMessage>,
    ) -> Result<(), SenderRefusal>
        requires room { vec_len abandoned.old < vec_capacity abandoned.old }
        ensures ok { OnOk result (self.new
            ≡ abandoned_each (option_to_list (with_tail tsns.now self.old)) self.old) }
        ensures listed { OnOk result ((ts : List ℕ) → are_listed ts self.old ≡ true
            → are_listed ts self.new ≡ true) }
        ensures answer { OnOk result (abandoned.new.items
            ≡ abandoned.old.items
            ++ leaving_each (option_to_list (with_tail tsns.now self.old)) self.old) }
        ensures released { OnOk result (total_bytes self.new.queue
            + sum_by (λ g. g.bytes) abandoned.new.items
            ≡ total_bytes self.old.queue + sum_by (λ g. g.bytes) abandoned.old.items) }
        ensures no_tail { OnOk result (list_all (λ t. not (has_tail_at self.new t)) tsns.now
            ≡ true) }
        ensures room { OnOk result ((length abandoned.new.items ≤ length abandoned.old.items + 1)
            × (vec_capacity abandoned.old ≤ vec_capacity abandoned.new)) }
        ensures accepted { IsOk result → (with_tail tsns.now self.old ≡ None)
            ⊎ (may_send self.old ≡ true) }
        ensures refused { IfErr result (λ e. (e ≡ OutOfMemory)
            ⊎ ((e ≡ TsnsUsedUp) × (may_send self.old ≡ false)
            × (is_some (with_tail tsns.now self.old) ≡ true))) }
        ensures err { OnErr result (self.new ≡ self.old) }
        ensures known { (bs : List GapAckBlock) → AreKnown bs self.old.queue.inflight.chunks
            → AreKnown bs self.new.queue.inflight.chunks }
    {
        let Some(tsn) = self.first_with_tail(tsns) else {
            return Ok(());
        };
        if !self.may_send() {
            return Err(SenderRefusal::TsnsUsedUp);
        }
        self.queue.are_whole();
        let one = self.abandon_message(tsn)?;
        self.queue.are_whole();
        put_any(abandoned, one);
        Ok(())
    }

    // The first of these TSNs whose message has a tail.
    fn first_with_tail(&self, tsns: &[u32]) -> Option<u32>
        ensures { result ≡ with_tail tsns.now self.now }
    {
        for tsn in tsns {
            if self.has_tail_at(*tsn) {
                return Some(*tsn);
            }
        }
        None
    }

    /// Whether some of the message of a TSN in flight, which is not abandoned, still waits, so that abandoning it needs a terminal
    /// chunk under a further TSN; false where the TSN is not in flight.
    pub(crate) fn has_tail_at(&self, tsn: u32) -> bool
        ensures { result ≡ has_tail_at self.now tsn }
    {
        self.queue.are_whole();
        match self.queue.get(tsn) {
            Some(chunk) => !chunk.abandoned && self.queue.rest_waits(chunk.message_id),
            None => false,
        }
    }

    // Abandons the messages of these TSNs, one after another. None has a tail, so that it takes no memory.
    fn abandon_each(&mut self, tsns: &[u32], abandoned: &mut Vec<AbandonedMessage>)
        requires no_tail { list_all (λ t. not (has_tail_at self.old t)) tsns.now ≡ true }
        requires room { length abandoned.old.items + length tsns.now ≤ vec_capacity abandoned.old }
        ensures ok { self.new ≡ abandoned_each tsns.now self.old }
        ensures listed { are_listed tsns.now self.old ≡ true → are_listed [] self.new ≡ true }
        ensures answer { abandoned.new.items ≡ abandoned.old.items
            ++ leaving_each tsns.now self.old }
        ensures released { total_bytes self.new.queue + sum_by (λ g. g.bytes) abandoned.new.items
            ≡ total_bytes self.old.queue + sum_by (λ g. g.bytes) abandoned.old.items }
        ensures known { (bs : List GapAckBlock) → AreKnown bs self.old.queue.inflight.chunks
            → AreKnown bs self.new.queue.inflight.chunks }
    {
        for tsn in tsns {
            let Ok(one) = self.abandon_message(*tsn) else {
                unreachable!()
            };
            put_any(abandoned, one);
        }
    }

    // Abandons the message of a TSN in flight, where it is not abandoned yet.
    fn abandon_message(&mut self, tsn: u32) -> Result<Option<AbandonedMessage>, SenderRefusal>
        requires { has_tail_at self.old tsn ≡ true → may_send self.old ≡ true }
        ensures ok { OnOk result (self.new ≡ abandoned_at tsn self.old) }
        ensures answer { IfOk result (λ one. option_to_list one ≡ leaving_at tsn self.old) }
        ensures listed { OnOk result ((ts : List ℕ) → are_listed (tsn ∷ ts) self.old ≡ true
            → are_listed ts self.new ≡ true) }
        ensures released { IfOk result (λ one. total_bytes self.new.queue
            + sum_by (λ g. g.bytes) (option_to_list one) ≡ total_bytes self.old.queue) }
        ensures no_tail { has_tail_at self.old tsn ≡ false → IsOk result }
        ensures memory { IfErr result (λ e. e ≡ OutOfMemory) }
        ensures err { OnErr result (self.new ≡ self.old) }
        ensures known { (bs : List GapAckBlock) → AreKnown bs self.old.queue.inflight.chunks
            → AreKnown bs self.new.queue.inflight.chunks }
    {
        let Some(chunk) = self.queue.get(tsn) else {
            return Ok(None);
        };
        if chunk.abandoned {
            return Ok(None);
        }
        let number = chunk.message_id;
        let Some((stream, bytes)) = self.abandon(tsn)? else {
            unreachable!()
        };
        Ok(Some(AbandonedMessage {
            stream,
            number,
            bytes,
            is_low: false,
        }))
    }
}

// Puts one behind the others, if there is one.
fn put_any(abandoned: &mut Vec<AbandonedMessage>, one: Option<AbandonedMessage>)
    requires { vec_len abandoned.old < vec_capacity abandoned.old }
    ensures items { abandoned.new.items ≡ abandoned.old.items ++ option_to_list one }
    ensures capacity { vec_capacity abandoned.old ≤ vec_capacity abandoned.new }
{
    if let Some(one) = one {
        put(abandoned, one);
    }
}
