//! What is acknowledged to a link (RFC 4960 3.3.4, 6.2.1).

ghost use Rattle.std.specs.Prelude.{◌≡◌, ◌<◌, ◌≤◌, ◌+◌, ◌-◌, ◌^◌, ℕ, Bool, true, None, OnOk, OnErr, IfOk, IsOkUnless, length, slice_index_or};
ghost use Rattle.std.specs.List.{list_any};
ghost use Rattle.sctp_util.specs.declared.error.Error.TheVariants.{ErrOutOfMemory};
ghost use Rattle.sctp_outbound.specs.payload_queue.Blocks.{is_in_blocks};
ghost use Rattle.sctp_model.specs.LinkRecord.{LinkRecord};
ghost use Rattle.sctp_link.specs.Acking.{IsMarking, IsNearer, and_run, and_blocks, in_block};

use super::{Link, memory};
use crate::datagram::read_sack;
use crate::event::{LinkRefusal, Reply};
use crate::record::{Kind, Slot};
use sctp_chunks::chunk::chunk_selective_ack::{ChunkSelectiveAck, GapAckBlock};
use sctp_sender::replay;
use sctp_util::error::Result;
use sctp_util::util::Checksum;

impl<C: Checksum + Drop> Link<C> {
    ghost use Rattle.sctp_model.specs.Steps.{IsRight, refusal_of};
    ghost use Rattle.sctp_model.specs.declared.event.Event.TheVariants as E;
    ghost use Rattle.sctp_link.specs.Replies.{reply_of};

    /// Why datagram k is not taken by the sender, if it is not.
    pub(super) fn refusal_acked(&self, k: u64) -> Option<LinkRefusal>
        ensures { result ≡ refusal_of self.now.recorded (E.Acked k) }
    {
        if k >= self.network.len() as u64 {
            return Some(LinkRefusal::NoSuchDatagram);
        }
        match self.network[k as usize].kind {
            Kind::Data { .. } => Some(LinkRefusal::NoSuchDatagram),
            Kind::Forward { .. } => Some(LinkRefusal::NoSuchDatagram),
            Kind::Sack { .. } => None,
        }
    }

    /// Takes datagram k to the sender. Refuses only for memory, and nothing changes then.
    /// Precondition: the event is not to be refused.
    pub(super) fn acked(&mut self, k: u64) -> Result<Reply>
        requires { refusal_of self.old.recorded (E.Acked k) ≡ None }
        ensures ok { IfOk result
            (λ reply. IsRight self.old.recorded (E.Acked k) (reply_of reply) self.new.recorded) }
        ensures checksum { self.new.checksum ≡ self.old.checksum }
        ensures err { OnErr result (self.new.recorded ≡ self.old.recorded) }
        ensures memory { IsOkUnless result ErrOutOfMemory }
    {
        let mut sack = read_sack(self.alloc, &self.network[k as usize].bytes, &self.checksum)?;
        let cumulative = sack
            .cumulative_tsn_ack
            .wrapping_sub(self.first_tsn)
            .wrapping_add(1) as usize;
        let taken = self.taken.max(cumulative);
        // One that a later SACK overtook is told from the cumulative TSN of the later one.
        let upto = self.first_tsn.wrapping_sub(1).wrapping_add(taken as u32);
        rebase(&mut sack, upto, taken - cumulative);
        let before = self.sender.outbound().inflight_bytes();
        match replay::acked(&mut self.sender, &sack) {
            Ok(_) => {}
            Err(refusal) => return Err(memory(refusal)),
        }
        acknowledge_run(&mut self.slots, self.taken, taken);
        acknowledge_blocks(&mut self.slots, taken, &sack.gap_ack_blocks);
        self.taken = taken;
        let bytes = before.saturating_sub(self.sender.outbound().inflight_bytes()) as u64;
        Ok(Reply::Acked { bytes })
    }
}

/// Tells a SACK from a cumulative TSN that lies so many TSNs behind its own: beyond it, it reports what it reported.
fn rebase(sack: &mut ChunkSelectiveAck, upto: u32, behind: usize)
    ensures cumulative { sack.new.cumulative_tsn_ack ≡ upto }
    ensures covers { (n : ℕ) → 0 < n
        → is_in_blocks sack.new.gap_ack_blocks.items n
        ≡ is_in_blocks sack.old.gap_ack_blocks.items (n + behind) }
    ensures begin { (i : ℕ) (d : GapAckBlock) → i < length sack.new.gap_ack_blocks.items
        → 0 < (slice_index_or sack.new.gap_ack_blocks.items i d).start }
{
    sack.cumulative_tsn_ack = upto;
    for place in 0..sack.gap_ack_blocks.len() {
        sack.gap_ack_blocks[place] = nearer(sack.gap_ack_blocks[place], behind);
    }
}

/// A block told from a cumulative TSN that lies so many TSNs behind its own.
fn nearer(block: GapAckBlock, behind: usize) -> GapAckBlock
    ensures { IsNearer behind block result }
{
    GapAckBlock {
        start: less(block.start, behind).max(1),
        end: less(block.end, behind),
    }
}

/// A distance without so many, 0 where they are more.
fn less(distance: u16, behind: usize) -> u16
    ensures { result ≡ distance - behind }
{
    distance.saturating_sub(behind.min(u16::MAX as usize) as u16)
}

/// Acknowledges the slots from one place to another, if there are any.
fn acknowledge_run(slots: &mut [Slot], from: usize, to: usize)
    requires { from < to → to ≤ length slots.old }
    ensures { (w : LinkRecord) (acked : ℕ → Bool)
        → IsMarking w acked slots.old → IsMarking w (and_run acked from to) slots.new }
{
    for place in from..to {
        slots[place].acknowledged = true;
    }
}

/// Acknowledges the slots that gap blocks report, by their distances from the cumulative count.
fn acknowledge_blocks(slots: &mut [Slot], cumulative: usize, blocks: &[GapAckBlock])
    requires short { cumulative < 2 ^ 32 }
    requires within { (k : ℕ)
        → list_any (in_block cumulative k) blocks.now ≡ true → k < length slots.old }
    ensures { (w : LinkRecord) (acked : ℕ → Bool)
        → IsMarking w acked slots.old → IsMarking w
        (and_blocks acked cumulative blocks.now) slots.new }
{
    for block in blocks {
        let from = (cumulative + block.start as usize).saturating_sub(1);
        let to = cumulative + block.end as usize;
        acknowledge_run(slots, from, to);
    }
}
