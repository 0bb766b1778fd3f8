//! Which chunks in flight a SACK takes back, found by blocks (RFC 4960 6.2.1 D iv).

ghost use Rattle.std.specs.Prelude.{◌≡◌, ℕ, Bool, List, Option, [], suc, ◌+◌, ◌-◌, ◌*◌, ◌<◌, ◌≤◌, ◌^◌, None, true, false, IfOk, IfErr, IsOk, length, take, slice_index_or};
ghost use Rattle.std.specs.List.{count_by};
ghost use Rattle.sctp_data.specs.SelectiveAck.{sack_of};
ghost use Rattle.sctp_data.specs.declared.chunk.chunk_payload_data.ChunkPayloadData.{ChunkPayloadData};
ghost use Rattle.sctp_outbound.specs.payload_queue.Blocks.{is_in_blocks};
ghost use Rattle.sctp_sender.specs.declared.sender.refusal.SenderRefusal.TheVariants.{OutOfMemory};
ghost use Rattle.sctp_sender.specs.Costs.{PicksLeftOut, is_left_out, to_sort};
ghost use Rattle.sctp_sender.specs.Keeping.{ArePassed, Cover, back_each, can_at, kept_after, placed, return_at, returns_at, tells_of};
ghost use Rattle.sctp_sender.specs.Reporting.{AreKnown, AreSorted, ascends_from};

use super::InFlight;
use super::kept::{Kept, kept_at, share};
use super::order::{ascend, sorted_blocks};
use super::runs::joined;
use crate::sender::refusal::SenderRefusal;
use bytes::Bytes;
use sctp_data::chunk::chunk_selective_ack::{ChunkSelectiveAck, GapAckBlock};
use sctp_outbound::outbound_queue::OutboundQueue;
use sctp_serial::serial::distance;
use sctp_serial::turns::Turns;
use sctp_stream::stream_numbers::put;
use std::alloc::Global;

/// User data that is kept or comes back, with its place.
#[derive(Drop)]
pub struct PlacedData {
    /// The place of its chunk in flight, from 0.
    pub place: usize,
    /// The user data of the chunk.
    pub user_data: Bytes,
}

impl InFlight {
    ghost use Rattle.sctp_sender.specs.Flight.{after_sack, is_outdated, sack_refusal};

    /// The same, where what was reported is acknowledged, and its turns are added: at most six for each block, and where these do not
    /// ascend four for each distance up to the greatest that they report; one for each chunk in flight that is acknowledged, and one for
    /// each such that the SACK does not report; and one more.
    pub(crate) fn coming_back_counted(
        &self,
        alloc: Global,
        sack: &ChunkSelectiveAck,
        kept: &Kept,
        turns: &mut Turns,
    ) -> Result<Vec<PlacedData>, SenderRefusal>
        requires taken { sack_refusal (sack_of sack.now) self.now ≡ None }
        requires current { is_outdated (sack_of sack.now) self.now ≡ false }
        requires covered { Cover kept.now.reported.items kept.now.user_data.items self.now }
        ensures ok { IfOk result (λ backs. backs.items ≡ placed 0 (back_each (sack_of sack.now)
            self.now.queue.inflight.chunks kept.now.user_data.items)) }
        ensures memory { IfErr result (λ e. e ≡ OutOfMemory) }
        ensures idle { ascends_from 0 (sack_of sack.now).gap_ack_blocks ≡ true
            → placed 0 (back_each (sack_of sack.now)
            self.now.queue.inflight.chunks kept.now.user_data.items) ≡ [] → IsOk result }
        ensures not_back { turns.old ≤ turns.new }
        ensures cost { AreKnown kept.now.reported.items self.now.queue.inflight.chunks
            → turns.new ≤ turns.old + 6 * length (sack_of sack.now).gap_ack_blocks
            + 4 * to_sort (sack_of sack.now).gap_ack_blocks
            + count_by (λ c. c.acked) self.now.queue.inflight.chunks
            + count_by (is_left_out (sack_of sack.now)) self.now.queue.inflight.chunks + 1 }
    {
        let count = distance(self.acked_tsn, sack.cumulative_tsn_ack) as usize;
        if ascend(&sack.gap_ack_blocks, turns) {
            return returning(alloc, &self.queue, kept, count, &sack.gap_ack_blocks, turns);
        }
        let sorted = sorted_blocks(alloc, &sack.gap_ack_blocks, turns)?;
        returning(alloc, &self.queue, kept, count, &sorted, turns)
    }

    // Blocks that report, after a SACK, each chunk in flight that can come back then, and nothing that is not acknowledged: its own,
    // which are these in ascending order, and where some chunk could come back by it, which `take_back` then did not do before, those
    // of what was reported too. Turns: at most four for each of these blocks, two for each chunk in flight that is acknowledged, one for
    // each such that the SACK does not report, and one more.
    pub(super) fn reported_after(
        &self,
        alloc: Global,
        sack: &ChunkSelectiveAck,
        kept: &Kept,
        sorted: Vec<GapAckBlock>,
        turns: &mut Turns,
    ) -> Result<Vec<GapAckBlock>, SenderRefusal>
        requires taken { sack_refusal (sack_of sack.now) self.now ≡ None }
        requires current { is_outdated (sack_of sack.now) self.now ≡ false }
        requires covered { Cover kept.now.reported.items kept.now.user_data.items self.now }
        requires sorted { AreSorted sorted.items (sack_of sack.now).gap_ack_blocks }
        ensures covered { IfOk result (λ after. Cover after.items
            (kept_after (sack_of sack.now) self.now kept.now.user_data.items)
            (after_sack (sack_of sack.now) self.now)) }
        ensures known { IfOk result (λ after.
            AreKnown kept.now.reported.items self.now.queue.inflight.chunks
            → AreKnown after.items (after_sack (sack_of sack.now) self.now).queue.inflight.chunks) }
        ensures memory { IfErr result (λ e. e ≡ OutOfMemory) }
        ensures not_back { turns.old ≤ turns.new }
        ensures cost { AreKnown kept.now.reported.items self.now.queue.inflight.chunks
            → turns.new ≤ turns.old + 3 * length sorted.items
            + 2 * count_by (λ c. c.acked) self.now.queue.inflight.chunks
            + count_by (is_left_out (sack_of sack.now)) self.now.queue.inflight.chunks + 1 }
    {
        let count = distance(self.acked_tsn, sack.cumulative_tsn_ack) as usize;
        let mut at = Reached {
            place: count,
            listed: 0,
            block: 0,
        };
        if !next_return(&self.queue, &kept.reported, count, &sorted, &mut at, turns) {
            return Ok(sorted);
        }
        joined(alloc, &sorted, &kept.reported, count, turns)
    }
}

// What comes back, of the places from `count` on of which the blocks tell, and which they do not report. Turns: at most one for each listed block, two for each
// other, one for each place that is listed and that the blocks do not report, and one more.
fn returning(
    alloc: Global,
    queue: &OutboundQueue,
    kept: &Kept,
    count: usize,
    blocks: &[GapAckBlock],
    turns: &mut Turns,
) -> Result<Vec<PlacedData>, SenderRefusal>
    requires ascend { ascends_from 0 kept.now.reported.items ≡ true }
    requires sorted { ascends_from 0 blocks.now ≡ true }
    requires few { count < 2 ^ 31 }
    requires covered { (k : ℕ) → can_at queue.now.inflight.chunks k ≡ true
        → is_in_blocks kept.now.reported.items (suc k) ≡ true }
    ensures ok { (bs : List (Option (List ℕ))) → ((k : ℕ) → slice_index_or bs k None
        ≡ return_at count blocks.now queue.now.inflight.chunks kept.now.user_data.items k)
        → IfOk result (λ backs. backs.items ≡ placed 0 bs) }
    ensures memory { IfErr result (λ e. e ≡ OutOfMemory) }
    ensures idle { (bs : List (Option (List ℕ))) → ((k : ℕ) → slice_index_or bs k None
        ≡ return_at count blocks.now queue.now.inflight.chunks kept.now.user_data.items k)
        → placed 0 bs ≡ [] → IsOk result }
    ensures not_back { turns.old ≤ turns.new }
    ensures cost { (q : ChunkPayloadData → Bool)
        → PicksLeftOut q count kept.now.reported.items blocks.now queue.now.inflight.chunks
        → turns.new ≤ turns.old + length kept.now.reported.items + 2 * length blocks.now
        + count_by q queue.now.inflight.chunks + 1 }
{
    let mut backs = Vec::new(alloc);
    let mut at = Reached {
        place: count,
        listed: 0,
        block: 0,
    };
    while next_return(queue, &kept.reported, count, blocks, &mut at, turns) {
        let place = at.place;
        if !tell_of(blocks, count, place) {
            return Ok(backs);
        }
        at.place += 1;
        let Some(bytes) = kept_at(&kept.user_data, place) else {
            continue;
        };
        let user_data = share(bytes)?;
        if backs.reserve(1).is_err() {
            return Err(SenderRefusal::OutOfMemory);
        }
        put(&mut backs, PlacedData { place, user_data });
    }
    Ok(backs)
}

// Whether the blocks tell of the chunk at a place: there are none, or the last one ends behind it.
fn tell_of(blocks: &[GapAckBlock], count: usize, place: usize) -> bool
    requires sorted { ascends_from 0 blocks.now ≡ true }
    requires few { count < 2 ^ 31 }
    requires least { count ≤ place }
    requires small { place < 2 ^ 16 }
    ensures { result ≡ tells_of blocks.now (suc place - count) }
{
    match blocks.last() {
        Some(last) => place + 1 < count + last.end as usize,
        None => true,
    }
}

/// How far what is in flight was looked through.
#[derive(Clone, Copy)]
pub(super) struct Reached {
    /// The place that is looked at next.
    pub place: usize,
    /// How many blocks of what was reported lie before it.
    pub listed: usize,
    /// How many blocks of the SACK lie before it.
    pub block: usize,
}

/// Goes on to the next place of which something comes back, where `count` places are reported cumulatively; `listed` are blocks
/// that report each chunk in flight that can come back. Answers whether there is one. Turns: one for each listed block that is passed,
/// two for each other, one for each place that is listed and that the blocks do not report, and one more.
pub(super) fn next_return(
    queue: &OutboundQueue,
    listed: &[GapAckBlock],
    count: usize,
    blocks: &[GapAckBlock],
    at: &mut Reached,
    turns: &mut Turns,
) -> bool
    requires ascend { ascends_from 0 listed.now ≡ true }
    requires sorted { ascends_from 0 blocks.now ≡ true }
    requires few { count < 2 ^ 31 }
    requires least { count ≤ at.old.place }
    requires covered { (k : ℕ) → can_at queue.now.inflight.chunks k ≡ true
        → is_in_blocks listed.now (suc k) ≡ true }
    requires passed { ArePassed 0 at.old.listed listed.now at.old.place }
    requires reported { ArePassed count at.old.block blocks.now at.old.place }
    ensures on { at.old.place ≤ at.new.place }
    ensures small { result ≡ true → at.new.place < 2 ^ 16 }
    ensures before { (k : ℕ) → at.old.place ≤ k → k < at.new.place
        → returns_at count blocks.now queue.now.inflight.chunks k ≡ false }
    ensures found { result ≡ true
        → returns_at count blocks.now queue.now.inflight.chunks at.new.place ≡ true }
    ensures none { result ≡ false → (k : ℕ) → at.old.place ≤ k
        → returns_at count blocks.now queue.now.inflight.chunks k ≡ false }
    ensures passed { ArePassed 0 at.new.listed listed.now at.new.place }
    ensures reported { ArePassed count at.new.block blocks.now at.new.place }
    ensures inside { at.old.listed ≤ length listed.now → at.new.listed ≤ length listed.now }
    ensures within { at.old.block ≤ length blocks.now → at.new.block ≤ length blocks.now }
    ensures not_back { turns.old ≤ turns.new }
    ensures cost { (q : ChunkPayloadData → Bool)
        → PicksLeftOut q count listed.now blocks.now queue.now.inflight.chunks
        → turns.new + at.old.listed + 2 * at.old.block
        + count_by q (take at.old.place queue.now.inflight.chunks)
        ≤ turns.old + at.new.listed + 2 * at.new.block
        + count_by q (take at.new.place queue.now.inflight.chunks) + 1 }
    ensures picked { (q : ChunkPayloadData → Bool)
        → PicksLeftOut q count listed.now blocks.now queue.now.inflight.chunks
        → result ≡ true → count_by q (take (at.new.place + 1) queue.now.inflight.chunks)
        ≡ count_by q (take at.new.place queue.now.inflight.chunks) + 1 }
{
    while at.listed < listed.len() {
        turns.tick();
        let run = listed[at.listed];
        at.place = at.place.max(run.start as usize - 1);
        if at.place >= run.end as usize {
            at.listed += 1;
            continue;
        }
        if at.block < blocks.len() {
            let block = blocks[at.block];
            if count + block.end as usize <= at.place {
                at.block += 1;
                continue;
            }
            if count + block.start as usize <= at.place + 1 {
                at.place = count + block.end as usize;
                continue;
            }
        }
        if can_come_back(queue, at.place) {
            return true;
        }
        at.place += 1;
    }
    false
}

// Whether the chunk at a place is acknowledged, and its message not abandoned.
fn can_come_back(queue: &OutboundQueue, place: usize) -> bool
    ensures { result ≡ can_at queue.now.inflight.chunks place }
{
    let Some(chunk) = queue.inflight_at(place) else {
        return false;
    };
    chunk.acked && !chunk.abandoned
}
