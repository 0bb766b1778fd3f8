//! The user data of what a SACK reports anew, which a sender keeps (RFC 4960 6.2.1 D iv).

ghost use Rattle.std.specs.Prelude.{◌≡◌, ◌+◌, ◌*◌, ◌<◌, ◌≤◌, ◌^◌, ℕ, false, None, IfOk, IfErr, IfSome, IsOk, OnOk, drop, length, option_map, slice_index_or};
ghost use Rattle.std.specs.List.{All, count_by, list_any};
ghost use Rattle.std.specs.VecDeque.{deque_capacity};
ghost use Rattle.sctp_data.specs.SelectiveAck.{sack_of};
ghost use Rattle.sctp_data.specs.declared.chunk.chunk_payload_data.ChunkPayloadData.{ChunkPayloadData};
ghost use Rattle.sctp_serial.specs.DataChunks.{following_tsn, tsns};
ghost use Rattle.sctp_sender.specs.declared.sender.refusal.SenderRefusal.TheVariants.{OutOfMemory};
ghost use Rattle.sctp_sender.specs.Flight.{tsns_from};
ghost use Rattle.sctp_sender.specs.Keeping.{AreAnew, Cover, IsOwn, blocks_after, data_after, filled, is_at, kept_after, kept_with, put_all};
ghost use Rattle.sctp_sender.specs.Costs.{anew_turns};
ghost use Rattle.sctp_sender.specs.Reporting.{AreKnown, AreSorted};
ghost use Rattle.sctp_sender.specs.Telling.{AreInFlight, is_answered};

use super::answers::tell_anew;
use super::kept::{Kept, share};
use super::order::sorted_blocks;
use super::returns::PlacedData;
use super::{InFlight, Released};
use crate::sender::refusal::SenderRefusal;
use bytes::Bytes;
use sctp_data::chunk::chunk_selective_ack::{ChunkSelectiveAck, GapAckBlock};
use sctp_outbound::outbound_queue::OutboundQueue;
use sctp_serial::serial::distance;
use sctp_serial::turns::Turns;
use sctp_stream::stream_numbers::put;
use std::alloc::Global;
use std::collections::VecDeque;

/// What a SACK makes of what is kept.
#[derive(Drop)]
pub struct Anew {
    /// How many places it reports cumulatively: nothing of them is kept.
    pub count: usize,
    /// The user data of what it reports anew past them, with its place past them.
    pub chunks: Vec<PlacedData>,
    /// Blocks that report each chunk that can come back then.
    pub reported: Vec<GapAckBlock>,
}

impl InFlight {
    ghost use Rattle.sctp_sender.specs.Flight.{after_sack, count_acked, is_outdated, reports, reports_anew, sack_refusal};

    /// The same, where what was reported is acknowledged, and its turns are added: at most seven for each block, and where these do not
    /// ascend six for each distance up to the greatest that they report; three for each chunk in flight that was acknowledged before, and
    /// one for each such that the SACK does not report; two for each that it reports, and one more where it does so anew; and one.
    pub(crate) fn anew_counted(
        &self,
        alloc: Global,
        sack: &ChunkSelectiveAck,
        kept: &Kept,
        turns: &mut Turns,
    ) -> Result<Anew, SenderRefusal>
        requires taken { sack_refusal (sack_of sack.now) self.now ≡ None }
        requires current { is_outdated (sack_of sack.now) self.now ≡ false }
        requires covered { Cover kept.now.reported.items kept.now.user_data.items self.now }
        ensures anew { IfOk result (λ a. (a.count ≡ count_acked (sack_of sack.now) self.now)
            × AreAnew (sack_of sack.now) self.now a.chunks.items) }
        ensures covered { IfOk result (λ a. Cover a.reported.items
            (kept_after (sack_of sack.now) self.now kept.now.user_data.items)
            (after_sack (sack_of sack.now) self.now)) }
        ensures known { IfOk result (λ a.
            AreKnown kept.now.reported.items self.now.queue.inflight.chunks
            → AreKnown a.reported.items (after_sack (sack_of sack.now) self.now).queue.inflight.chunks) }
        ensures memory { IfErr result (λ e. e ≡ OutOfMemory) }
        ensures few { IfOk result (λ a. length a.chunks.items
            ≤ count_by (reports_anew (sack_of sack.now)) self.now.queue.inflight.chunks) }
        ensures passed { IfOk result (λ a. a.count
            ≤ count_by (reports (sack_of sack.now)) self.now.queue.inflight.chunks) }
        ensures not_back { turns.old ≤ turns.new }
        ensures cost { AreKnown kept.now.reported.items self.now.queue.inflight.chunks
            → turns.new ≤ turns.old + anew_turns (sack_of sack.now) self.now }
    {
        let count = distance(self.acked_tsn, sack.cumulative_tsn_ack) as usize;
        let sorted = sorted_blocks(alloc, &sack.gap_ack_blocks, turns)?;
        let chunks = self.reported_anew(alloc, sack, &sorted, turns)?;
        let reported = self.reported_after(alloc, sack, kept, sorted, turns)?;
        Ok(Anew {
            count,
            chunks,
            reported,
        })
    }

    // The user data of each chunk that a SACK, whose blocks are these in ascending order, reports anew past its cumulative TSN, shared.
    fn reported_anew(
        &self,
        alloc: Global,
        sack: &ChunkSelectiveAck,
        sorted: &[GapAckBlock],
        turns: &mut Turns,
    ) -> Result<Vec<PlacedData>, SenderRefusal>
        requires taken { sack_refusal (sack_of sack.now) self.now ≡ None }
        requires current { is_outdated (sack_of sack.now) self.now ≡ false }
        requires sorted { AreSorted sorted.now (sack_of sack.now).gap_ack_blocks }
        ensures anew { IfOk result (λ anew. AreAnew (sack_of sack.now) self.now anew.items) }
        ensures memory { IfErr result (λ e. e ≡ OutOfMemory) }
        ensures few { IfOk result (λ anew. length anew.items
            ≤ count_by (reports_anew (sack_of sack.now)) self.now.queue.inflight.chunks) }
        ensures not_back { turns.old ≤ turns.new }
        ensures cost { turns.new ≤ turns.old + length sorted.now
            + count_by (λ c. c.acked) self.now.queue.inflight.chunks
            + 2 * count_by (reports (sack_of sack.now)) self.now.queue.inflight.chunks
            + count_by (reports_anew (sack_of sack.now)) self.now.queue.inflight.chunks }
    {
        let count = distance(self.acked_tsn, sack.cumulative_tsn_ack) as usize;
        let mut released = Vec::new(alloc);
        tell_anew(
            &self.queue,
            &self.known,
            count,
            sorted,
            &mut released,
            turns,
        )?;
        shared_each(alloc, &self.queue, self.acked_tsn, count, &released, turns)
    }
}

// The user data of what was told of, shared, with its place past the first so many, at most a turn for each.
fn shared_each(
    alloc: Global,
    queue: &OutboundQueue,
    acked_tsn: u32,
    count: usize,
    released: &[Released],
    turns: &mut Turns,
) -> Result<Vec<PlacedData>, SenderRefusal>
    requires run { tsns queue.now.inflight.chunks
        ≡ tsns_from (following_tsn acked_tsn) (length queue.now.inflight.chunks) }
    requires few { length queue.now.inflight.chunks < 2 ^ 31 }
    requires answered { AreInFlight released.now queue.now.inflight.chunks }
    ensures own { IfOk result (λ anew. All (IsOwn count queue.now.inflight.chunks) anew.items) }
    ensures each { IfOk result (λ anew. (k : ℕ) (d : ChunkPayloadData)
        → count + k < length queue.now.inflight.chunks → list_any (is_at k) anew.items
        ≡ is_answered released.now (slice_index_or queue.now.inflight.chunks (count + k) d)) }
    ensures memory { IfErr result (λ e. e ≡ OutOfMemory) }
    ensures few { IfOk result (λ anew. length anew.items ≤ length released.now) }
    ensures not_back { turns.old ≤ turns.new }
    ensures cost { turns.new ≤ turns.old + length released.now }
{
    let mut anew = Vec::new(alloc);
    for one in released {
        turns.tick();
        let place = distance(acked_tsn, one.tsn) as usize - 1;
        if place < count {
            continue;
        }
        let Some(chunk) = queue.inflight_at(place) else {
            unreachable!()
        };
        let user_data = share(&chunk.user_data)?;
        if anew.reserve(1).is_err() {
            return Err(SenderRefusal::OutOfMemory);
        }
        put(
            &mut anew,
            PlacedData {
                place: place - count,
                user_data,
            },
        );
    }
    Ok(anew)
}

/// Room for what is kept anew, a turn for each such chunk. Refuses only for memory, and what is kept is as it was then.
pub(crate) fn make_room(
    kept: &mut Option<Kept>,
    anew: &Option<Anew>,
    turns: &mut Turns,
) -> Result<(), SenderRefusal>
    requires { IfSome anew.now (λ a. All (λ b. b.place < 2 ^ 31) a.chunks.items) }
    ensures room { OnOk result (IfSome kept.new (λ k. IfSome anew.now
        (λ a. All (λ b. b.place < deque_capacity k.user_data) a.chunks.items))) }
    ensures same { option_map (λ k. k.user_data.items) kept.new
        ≡ option_map (λ k. k.user_data.items) kept.old }
    ensures covered { option_map (λ k. k.reported.items) kept.new
        ≡ option_map (λ k. k.reported.items) kept.old }
    ensures memory { IfErr result (λ e. e ≡ OutOfMemory) }
    ensures idle { anew.now ≡ None → IsOk result }
    ensures none { anew.now ≡ None → turns.new ≡ turns.old }
    ensures not_back { turns.old ≤ turns.new }
    ensures cost { IfSome anew.now (λ a. turns.new ≤ turns.old + length a.chunks.items) }
{
    let Some(kept) = kept else {
        return Ok(());
    };
    let Some(anew) = anew else {
        return Ok(());
    };
    let places = places_of(&anew.chunks, turns);
    let more = places.saturating_sub(kept.user_data.len());
    if kept.user_data.reserve(more).is_err() {
        return Err(SenderRefusal::OutOfMemory);
    }
    Ok(())
}

// How many places there are up to the last one, a turn for each.
fn places_of(chunks: &[PlacedData], turns: &mut Turns) -> usize
    requires { All (λ b. b.place < 2 ^ 31) chunks.now }
    ensures within { All (λ b. b.place < result) chunks.now }
    ensures cost { turns.new ≡ turns.old + length chunks.now }
{
    let mut places: usize = 0;
    for one in chunks {
        turns.tick();
        places = places.max(one.place + 1);
    }
    places
}

/// Keeps what is kept after a SACK. Turns: one for each place that goes and each that comes, and one for each chunk.
/// Precondition: there is room, as `make_room` makes it.
pub(crate) fn keep_anew(kept: &mut Option<Kept>, anew: Option<Anew>, turns: &mut Turns)
    requires { IfSome kept.old (λ k. IfSome anew
        (λ a. All (λ b. b.place < deque_capacity k.user_data) a.chunks.items)) }
    ensures items { option_map (λ k. k.user_data.items) kept.new
        ≡ option_map (λ k. data_after anew k.user_data.items) kept.old }
    ensures covered { option_map (λ k. k.reported.items) kept.new
        ≡ option_map (λ k. blocks_after anew k.reported.items) kept.old }
    ensures none { anew ≡ None → turns.new ≡ turns.old }
    ensures not_back { turns.old ≤ turns.new }
    ensures cost { IfSome kept.old (λ k. IfSome anew (λ a. turns.new + length
        (drop a.count k.user_data.items) ≤ turns.old + a.count + length a.chunks.items
        + length (put_all a.chunks.items (drop a.count k.user_data.items)))) }
{
    let Some(kept) = kept else {
        return;
    };
    let Some(anew) = anew else {
        return;
    };
    drop_front(&mut kept.user_data, anew.count, turns);
    put_all(&mut kept.user_data, anew.chunks, turns);
    kept.reported = anew.reported;
}

// Without the first so many places, a turn for each that goes.
fn drop_front(kept: &mut VecDeque<Option<Bytes>>, count: usize, turns: &mut Turns)
    ensures items { kept.new.items ≡ drop count kept.old.items }
    ensures capacity { deque_capacity kept.new ≡ deque_capacity kept.old }
    ensures not_back { turns.old ≤ turns.new }
    ensures cost { turns.new ≤ turns.old + count }
{
    let mut left = count.min(kept.len());
    while left > 0 {
        turns.tick();
        kept.pop_front();
        left -= 1;
    }
}

// With each at its place, from the last one on. Turns: at most one for each, and one for each place that comes.
fn put_all(kept: &mut VecDeque<Option<Bytes>>, chunks: Vec<PlacedData>, turns: &mut Turns)
    requires { All (λ b. b.place < deque_capacity kept.old) chunks.items }
    ensures items { kept.new.items ≡ put_all chunks.items kept.old.items }
    ensures not_back { turns.old ≤ turns.new }
    ensures cost { turns.new + length kept.old.items
        ≤ turns.old + length chunks.items + length kept.new.items }
{
    let mut chunks = chunks;
    while let Some(one) = chunks.pop() {
        put_at(kept, one.place, one.user_data, turns);
    }
}

// With this at a place. Turns: one, and at most one for each place that comes.
fn put_at(kept: &mut VecDeque<Option<Bytes>>, place: usize, user_data: Bytes, turns: &mut Turns)
    requires { place < deque_capacity kept.old }
    ensures items { kept.new.items ≡ kept_with place user_data kept.old.items }
    ensures capacity { deque_capacity kept.new ≡ deque_capacity kept.old }
    ensures not_back { turns.old ≤ turns.new }
    ensures cost { turns.new + length kept.old.items ≤ turns.old + 1 + length kept.new.items }
{
    turns.tick();
    if place < kept.len() {
        kept[place] = Some(user_data);
        return;
    }
    fill(kept, place, turns);
    kept.push_back_reserved(Some(user_data));
}

// With nothing at each place that is not there, up to so many, a turn for each that comes.
fn fill(kept: &mut VecDeque<Option<Bytes>>, places: usize, turns: &mut Turns)
    requires { places ≤ deque_capacity kept.old }
    ensures items { kept.new.items ≡ filled places kept.old.items }
    ensures capacity { deque_capacity kept.new ≡ deque_capacity kept.old }
    ensures cost { turns.new + length kept.old.items ≡ turns.old + length kept.new.items }
{
    while kept.len() < places {
        turns.tick();
        kept.push_back_reserved(None);
    }
}
