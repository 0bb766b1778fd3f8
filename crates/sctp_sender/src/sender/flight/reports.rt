//! What a SACK reports, and what it makes of what is in flight (RFC 4960 6.2.1).

ghost use Rattle.std.specs.Prelude.{◌≡◌, ◌≢◌, ◌-◌, ◌&&◌, ◌||◌, Bool, not, nat_eq, nat_lt, ◌+◌, ◌*◌, ◌<◌, ◌≤◌, ◌^◌, ◌⊎◌, [], ℕ, true, false, Some, None, OnOk, OnErr, IfOk, IfErr, IsOk, is_some, length, map, drop, take, vec_capacity, slice_index_or};
ghost use Rattle.std.specs.List.{list_all, list_any, filter};
ghost use Rattle.sctp_util.specs.Lists.{change_where};
ghost use Rattle.sctp_data.specs.SelectiveAck.{sack_of};
ghost use Rattle.sctp_data.specs.declared.chunk.chunk_payload_data.ChunkPayloadData.{ChunkPayloadData};
ghost use Rattle.sctp_outbound.specs.Marks.{as_acknowledged};
ghost use Rattle.sctp_outbound.specs.outbound_queue.OutboundQueue.{with_inflight};
ghost use Rattle.sctp_outbound.specs.pending_queue.Whole.{partially_sent};
ghost use Rattle.sctp_serial.specs.DataChunks.{tsns};
ghost use Rattle.sctp_sender.specs.declared.sender.refusal.SenderRefusal.TheVariants.{OutOfMemory};
ghost use Rattle.sctp_sender.specs.Costs.{sack_turns};
ghost use Rattle.sctp_sender.specs.Flight.{tsns_from, is_within};
ghost use Rattle.sctp_sender.specs.Reporting.{after_block, after_blocks, goes_from_to, HasEnds, Marks};
ghost use Rattle.sctp_sender.specs.SideBySide.{IsApartAt, StandSideBySide, messages_of};

use super::answers::{acknowledge_answered, judge_each, tell_anew};
use super::order::sorted_blocks;
use super::{InFlight, Released};
use crate::sender::refusal::SenderRefusal;
use sctp_data::chunk::chunk_payload_data::ChunkPayloadData;
use sctp_data::chunk::chunk_selective_ack::{ChunkSelectiveAck, GapAckBlock};
use sctp_outbound::outbound_queue::OutboundQueue;
use sctp_serial::serial::distance;
use sctp_serial::turns::Turns;
use sctp_stream::stream_numbers::put;
use sctp_util::util::sna32lt;
use std::alloc::Global;

impl InFlight {
    ghost use Rattle.sctp_outbound.specs.outbound_queue.OutboundQueue.{total_bytes};
    ghost use Rattle.sctp_sender.specs.Totals.{AreSettled, bytes_in};
    ghost use Rattle.sctp_sender.specs.Flight.{is_outdated, sack_refusal, after_sack, released_by};

    /// Takes a SACK, whatever a peer claims (RFC 4960 6.2.1): what is acknowledged is what it reports and is in flight.
    /// Answers the chunks that it reports anew. Theirs are all the bytes that leave, where no acknowledged chunk in flight has
    /// bytes, as in a `Sender`. One whose cumulative TSN is before the last one is out of date, and changes nothing. The
    /// refusals, in the order in which they are looked for:
    ///
    /// - `InflightQueueTsnPop`, where its cumulative TSN was not given out;
    /// - `TsnRequestNotExist`, where a gap ack block that is not empty begins at 0, or ends past the last TSN in flight;
    /// - `OutOfMemory`, and not where it is out of date.
    ///
    /// All is as it was then.
    ///
    /// What it looks at `acked_counted` says. Blocks that do not ascend take memory for as many marks as the greatest distance that they
    /// report, and one, at most 65,536.
    pub(crate) fn acked(
        &mut self,
        alloc: Global,
        sack: &ChunkSelectiveAck,
    ) -> Result<Vec<Released>, SenderRefusal>
        ensures answer { IfOk result (λ released. released.items
            ≡ released_by (sack_of sack.now) self.old) }
        ensures ok { OnOk result (self.new ≡ after_sack (sack_of sack.now) self.old) }
        ensures released { AreSettled self.old.queue.inflight.chunks → IfOk result
            (λ r. total_bytes self.new.queue + bytes_in r.items ≡ total_bytes self.old.queue) }
        ensures accepted { IsOk result → sack_refusal (sack_of sack.now) self.old ≡ None }
        ensures refused { IfErr result
            (λ e. ((e ≡ OutOfMemory) × (sack_refusal (sack_of sack.now) self.old ≡ None))
            ⊎ (sack_refusal (sack_of sack.now) self.old ≡ Some e)) }
        ensures err { OnErr result (self.new ≡ self.old) }
        ensures outdated { is_outdated (sack_of sack.now) self.old ≡ true → IsOk result }
    {
        self.acked_counted(alloc, sack, &mut Turns::new())
    }

    /// The same, and its turns are added, at most `sack_turns`: five for each block, and where these do not ascend three for each
    /// distance up to the greatest that they report; one for each chunk in flight that was acknowledged before; three for each that
    /// the SACK reports, and three more where it does so anew; and one for each of a message of which it reports a chunk anew. What
    /// else is in flight costs nothing, however much it is. What both this SACK and the one taken before it have in blocks is passed
    /// over, a block at a time. One that is out of date takes no turn, and one that is refused for what it claims at most one for each
    /// block.
    #[inline(always)]
    pub(crate) fn acked_counted(
        &mut self,
        alloc: Global,
        sack: &ChunkSelectiveAck,
        turns: &mut Turns,
    ) -> Result<Vec<Released>, SenderRefusal>
        ensures answer { IfOk result (λ released. released.items
            ≡ released_by (sack_of sack.now) self.old) }
        ensures ok { OnOk result (self.new ≡ after_sack (sack_of sack.now) self.old) }
        ensures released { AreSettled self.old.queue.inflight.chunks → IfOk result
            (λ r. total_bytes self.new.queue + bytes_in r.items ≡ total_bytes self.old.queue) }
        ensures accepted { IsOk result → sack_refusal (sack_of sack.now) self.old ≡ None }
        ensures refused { IfErr result
            (λ e. ((e ≡ OutOfMemory) × (sack_refusal (sack_of sack.now) self.old ≡ None))
            ⊎ (sack_refusal (sack_of sack.now) self.old ≡ Some e)) }
        ensures err { OnErr result (self.new ≡ self.old) }
        ensures outdated { is_outdated (sack_of sack.now) self.old ≡ true → IsOk result }
        ensures not_back { turns.old ≤ turns.new }
        ensures cost { turns.new ≤ turns.old + sack_turns (sack_of sack.now) self.old }
        ensures stale { is_outdated (sack_of sack.now) self.old ≡ true → turns.new ≡ turns.old }
        ensures forged { is_some (sack_refusal (sack_of sack.now) self.old) ≡ true
            → turns.new ≤ turns.old + length (sack_of sack.now).gap_ack_blocks }
    {
        let mut released = Vec::new(alloc);
        if !self.is_current_counted(sack, turns)? {
            return Ok(released);
        }
        let count = distance(self.acked_tsn, sack.cumulative_tsn_ack) as usize;
        let sorted = sorted_blocks(alloc, &sack.gap_ack_blocks, turns)?;
        tell_anew(
            &self.queue,
            &self.known,
            count,
            &sorted,
            &mut released,
            turns,
        )?;
        acknowledge_answered(&mut self.queue, self.acked_tsn, &released, turns);
        let partial = partial_of(&self.queue);
        judge_each(&self.queue, self.acked_tsn, partial, &mut released, turns);
        pop_run(
            &mut self.queue,
            self.acked_tsn.wrapping_add(1),
            count,
            turns,
        );
        self.acked_tsn = sack.cumulative_tsn_ack;
        self.known = sorted;
        self.unmarked = self.unmarked.saturating_sub(count);
        Ok(released)
    }

    /// The same, and its turns are added: at most one for each block, and none where the SACK is out of date.
    pub(crate) fn is_current_counted(
        &self,
        sack: &ChunkSelectiveAck,
        turns: &mut Turns,
    ) -> Result<bool, SenderRefusal>
        ensures answer { IfOk result (λ current. current
            ≡ not (is_outdated (sack_of sack.now) self.now)) }
        ensures accepted { IsOk result → sack_refusal (sack_of sack.now) self.now ≡ None }
        ensures refused { IfErr result (λ e. sack_refusal (sack_of sack.now) self.now ≡ Some e) }
        ensures outdated { is_outdated (sack_of sack.now) self.now ≡ true → IsOk result }
        ensures not_back { turns.old ≤ turns.new }
        ensures cost { turns.new ≤ turns.old + length (sack_of sack.now).gap_ack_blocks }
        ensures stale { is_outdated (sack_of sack.now) self.now ≡ true → turns.new ≡ turns.old }
    {
        if sna32lt(sack.cumulative_tsn_ack, self.acked_tsn) {
            return Ok(false);
        }
        let count = distance(self.acked_tsn, sack.cumulative_tsn_ack) as usize;
        let in_flight = self.queue.inflight_len();
        if in_flight < count {
            return Err(SenderRefusal::InflightQueueTsnPop);
        }
        if !are_within(&sack.gap_ack_blocks, in_flight - count, turns) {
            return Err(SenderRefusal::TsnRequestNotExist);
        }
        Ok(true)
    }
}

// Whether each block reports nothing, or distances from 1 to the greatest alone.
fn are_within(blocks: &[GapAckBlock], left: usize, turns: &mut Turns) -> bool
    ensures answer { result ≡ list_all (is_within left) blocks.now }
    ensures not_back { turns.old ≤ turns.new }
    ensures cost { turns.new ≤ turns.old + length blocks.now }
{
    for block in blocks {
        turns.tick();
        if !is_within(block, left) {
            return false;
        }
    }
    true
}

// Whether the block does.
fn is_within(block: &GapAckBlock, left: usize) -> bool
    ensures { result ≡ is_within left block.now }
{
    block.end < block.start || (block.start > 0 && block.end as usize <= left)
}

// For each distance up to the greatest that a block reports, whether one does. Turns: two for each block, one for each of these.
pub(super) fn marks_of(
    alloc: Global,
    blocks: &[GapAckBlock],
    turns: &mut Turns,
) -> Result<Vec<bool>, SenderRefusal>
    ensures marks { IfOk result (λ marks. Marks marks.items blocks.now) }
    ensures count { IfOk result (λ marks. length marks.items ≡ after_blocks blocks.now) }
    ensures small { IfOk result (λ marks. length marks.items ≤ 2 ^ 16) }
    ensures memory { IfErr result (λ e. e ≡ OutOfMemory) }
    ensures not_back { turns.old ≤ turns.new }
    ensures cost { turns.new
        ≤ turns.old + 2 * length blocks.now + after_blocks blocks.now }
{
    let ends = ends_of(alloc, blocks, turns)?;
    let mut marks = Vec::new(alloc);
    if marks.reserve(ends.len()).is_err() {
        return Err(SenderRefusal::OutOfMemory);
    }
    let mut end = 0;
    for offset in 0..ends.len() {
        turns.tick();
        end = end.max(ends[offset]);
        put(&mut marks, offset < end as usize);
    }
    Ok(marks)
}

// For each distance up to the greatest that a block reports, one more than the greatest end of the blocks that begin there.
fn ends_of(
    alloc: Global,
    blocks: &[GapAckBlock],
    turns: &mut Turns,
) -> Result<Vec<u32>, SenderRefusal>
    ensures ends { IfOk result (λ ends. HasEnds ends.items blocks.now) }
    ensures count { IfOk result (λ ends. length ends.items ≡ after_blocks blocks.now) }
    ensures small { IfOk result (λ ends. length ends.items ≤ 2 ^ 16) }
    ensures memory { IfErr result (λ e. e ≡ OutOfMemory) }
    ensures not_back { turns.old ≤ turns.new }
    ensures cost { turns.new ≤ turns.old + 2 * length blocks.now }
{
    let Ok(mut ends) = vec![in alloc; 0u32; after_blocks(blocks, turns)] else {
        return Err(SenderRefusal::OutOfMemory);
    };
    for block in blocks {
        turns.tick();
        note_block(&mut ends, block);
    }
    Ok(ends)
}

// Notes at the distance where the block begins how far it goes, if it goes farther than those before it.
fn note_block(ends: &mut Vec<u32>, block: &GapAckBlock)
    requires { after_block block.now ≤ length ends.old.items }
    ensures count { length ends.new.items ≡ length ends.old.items }
    ensures noted { (first last : ℕ) → first ≤ last
        → nat_lt last (slice_index_or ends.new.items first 0)
        ≡ (nat_lt last (slice_index_or ends.old.items first 0)
        || goes_from_to first last block.now) }
{
    let after = after_block(block);
    if after == 0 {
        return;
    }
    let start = block.start as usize;
    if ends[start] < after {
        ends[start] = after;
    }
}

// One more than the greatest distance that a block reports, 0 where none reports any.
fn after_blocks(blocks: &[GapAckBlock], turns: &mut Turns) -> usize
    ensures value { result ≡ after_blocks blocks.now }
    ensures small { result ≤ 2 ^ 16 }
    ensures cost { turns.new ≡ turns.old + length blocks.now }
{
    let mut after = 0;
    for block in blocks {
        turns.tick();
        after = after.max(after_block(block));
    }
    after as usize
}

// One more than the last distance that the block reports, 0 where it reports none.
fn after_block(block: &GapAckBlock) -> u32
    ensures value { result ≡ after_block block.now }
    ensures small { result ≤ 2 ^ 16 }
{
    if block.end < block.start {
        return 0;
    }
    u32::from(block.end) + 1
}

// The first place from this one on from where no chunk in flight is of the message of one before it.
pub(super) fn message_end(queue: &OutboundQueue, reach: usize) -> usize
    requires { reach ≤ length queue.now.inflight.chunks }
    ensures from { reach ≤ result }
    ensures to { result ≤ length queue.now.inflight.chunks }
    ensures apart { StandSideBySide (messages_of queue.now.inflight.chunks)
        → IsApartAt result queue.now.inflight.chunks }
{
    if reach == 0 {
        return 0;
    }
    for place in reach..queue.inflight_len() {
        if begins_another(queue, place) {
            return place;
        }
    }
    queue.inflight_len()
}

// Whether the chunk at a place is of another message than the one before it.
pub(super) fn begins_another(queue: &OutboundQueue, place: usize) -> bool
    requires some { 0 < place }
    requires in_range { place < length queue.now.inflight.chunks }
    ensures { result ≡ true → (d : ChunkPayloadData)
        → (slice_index_or queue.now.inflight.chunks (place - 1) d).message_id
        ≢ (slice_index_or queue.now.inflight.chunks place d).message_id }
{
    let Some(before) = queue.inflight_at(place - 1) else {
        unreachable!()
    };
    let Some(chunk) = queue.inflight_at(place) else {
        unreachable!()
    };
    before.message_id != chunk.message_id
}

// The message that is partially sent, if there is one.
fn partial_of(queue: &OutboundQueue) -> Option<u64>
    ensures { result ≡ partially_sent queue.now.pending }
{
    queue.are_whole();
    let Some(chunk) = queue.peek_pending() else {
        return None;
    };
    if chunk.beginning_fragment {
        return None;
    }
    Some(chunk.message_id)
}

// Takes so many chunks from the front, which have TSNs one after another, a turn for each.
#[inline(always)]
fn pop_run(queue: &mut OutboundQueue, first: u32, count: usize, turns: &mut Turns)
    requires run { tsns queue.old.inflight.chunks
        ≡ tsns_from first (length queue.old.inflight.chunks) }
    requires within { count ≤ length queue.old.inflight.chunks }
    requires few { count < 2 ^ 31 }
    ensures value { queue.new ≡ with_inflight queue.old (drop count queue.old.inflight.chunks) }
    ensures cost { turns.new ≡ turns.old + count }
{
    for place in 0..count {
        turns.tick();
        queue.pop(first.wrapping_add(place as u32));
    }
}
