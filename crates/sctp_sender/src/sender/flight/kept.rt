//! What is kept of the chunks that gap ack blocks reported, and what a SACK takes back of that (RFC 4960 6.2.1 D iv).

ghost use Rattle.std.specs.Prelude.{◌≡◌, ◌+◌, ◌<◌, ◌≤◌, ◌^◌, ℕ, List, [], Option, true, None, IfOk, IfErr, IfSome, length, map, option_copied, option_map, slice_index_or};
ghost use Rattle.std.specs.List.{All};
ghost use Rattle.sctp_util.specs.Lists.{change_at};
ghost use Rattle.sctp_data.specs.SelectiveAck.{Sack};
ghost use Rattle.sctp_data.specs.declared.chunk.chunk_payload_data.ChunkPayloadData.{ChunkPayloadData};
ghost use Rattle.sctp_outbound.specs.outbound_queue.OutboundQueue.{total_bytes, with_inflight};
ghost use Rattle.sctp_sender.specs.declared.sender.refusal.SenderRefusal.TheVariants.{OutOfMemory};
ghost use Rattle.sctp_sender.specs.Keeping.{Cover, HaveOwnTsns, answered_back, as_reported, reported_again, with_reported_again, back_each, blocks_left, bytes_coming, placed, put_back, answered_of_placed, restored, rises_from, with_restored};
ghost use Rattle.sctp_sender.specs.Reporting.{AreKnown, ascends_from};

use super::InFlight;
use super::returns::PlacedData;
use super::runs::{Left, without};
use crate::sender::refusal::SenderRefusal;
use bytes::Bytes;
use sctp_data::chunk::chunk_payload_data::ChunkPayloadData;
use sctp_data::chunk::chunk_selective_ack::GapAckBlock;
use sctp_outbound::outbound_queue::OutboundQueue;
use sctp_serial::turns::Turns;
use sctp_stream::stream_numbers::put;
use std::alloc::Global;
use std::collections::VecDeque;
use std::mem;

/// A chunk whose acknowledgement a SACK took back: it is outstanding again.
#[derive(Clone, Copy, Debug, PartialEq, Eq)]
pub struct TakenBack {
    /// Its TSN.
    pub tsn: u32,
    /// Its stream.
    pub stream: u16,
    /// How many bytes of user data it has again.
    pub bytes: usize,
    /// The number of its message.
    pub message: u64,
}

/// What is told of the chunks that come back, and where they stand.
#[derive(Drop)]
pub(crate) struct Told {
    /// What is told.
    pub answered: Vec<TakenBack>,
    /// The places of the chunks in flight, from 0.
    pub places: Vec<usize>,
}

/// What a sender keeps of the chunks in flight that gap ack blocks reported.
#[derive(Drop)]
pub struct Kept {
    /// The user data, place by place: None where nothing is kept.
    pub user_data: VecDeque<Option<Bytes>>,
    /// Gap ack blocks, as distances past the TSN up to which all was acknowledged. They ascend, report each chunk in flight that is
    /// acknowledged and of no abandoned message, and none that is not acknowledged.
    pub reported: Vec<GapAckBlock>,
}

impl InFlight {
    ghost use Rattle.sctp_sender.specs.Flight.{can_resend};

    /// The same, a turn for each.
    pub(crate) fn restore_counted(&mut self, backs: Vec<PlacedData>, turns: &mut Turns)
        requires within { All (λ b. b.place < length self.old.queue.inflight.chunks) backs.items }
        requires bytes { total_bytes self.old.queue + bytes_coming backs.items < 2 ^ 64 }
        ensures restored { (bs : List (Option (List ℕ))) → backs.items ≡ placed 0 bs
            → length bs ≤ length self.old.queue.inflight.chunks
            → self.new ≡ with_restored bs self.old }
        ensures outstanding { (s : Sack) (ks : List (Option (List ℕ)))
            → backs.items ≡ placed 0 (back_each s self.old.queue.inflight.chunks ks)
            → All (λ b. can_resend b.tsn self.new ≡ true)
            (answered_back (back_each s self.old.queue.inflight.chunks ks)
            self.old.queue.inflight.chunks) }
        ensures cost { turns.new ≡ turns.old + length backs.items }
    {
        if backs.is_empty() {
            return;
        }
        restore_each(&mut self.queue, backs, turns);
        self.known.clear();
    }

    /// Blocks that report what can come back once these places have what comes back, and nothing that is not acknowledged then: those
    /// of what was reported, without these; None, and no memory, where nothing comes back. Refuses only for memory. Turns: at most one
    /// for each block, and one for each of these places.
    pub(crate) fn left_reported(
        &self,
        alloc: Global,
        kept: &Kept,
        backs: &[PlacedData],
        turns: &mut Turns,
    ) -> Result<Option<Left>, SenderRefusal>
        requires covered { Cover kept.now.reported.items kept.now.user_data.items self.now }
        requires in_order { rises_from 0 backs.now ≡ true }
        ensures covered { IfOk result (λ left. (bs : List (Option (List ℕ)))
            → backs.now ≡ placed 0 bs → length bs ≤ length self.now.queue.inflight.chunks
            → Cover (blocks_left left kept.now.reported.items)
            kept.now.user_data.items (with_restored bs self.now)) }
        ensures known { IfOk result (λ left. (bs : List (Option (List ℕ)))
            → AreKnown kept.now.reported.items self.now.queue.inflight.chunks
            → backs.now ≡ placed 0 bs
            → AreKnown (blocks_left left kept.now.reported.items)
            (restored bs self.now.queue.inflight.chunks)) }
        ensures twice { IfOk result (λ left.
            IfSome left (λ l. l.known.items ≡ l.reported.items)) }
        ensures none { IfOk result (λ left. left ≡ None → backs.now ≡ []) }
        ensures memory { IfErr result (λ e. e ≡ OutOfMemory) }
        ensures not_back { turns.old ≤ turns.new }
        ensures cost { turns.new
            ≤ turns.old + length kept.now.reported.items + length backs.now }
    {
        let _acked_tsn = self.acked_tsn;
        without(alloc, &kept.reported, backs, turns)
    }

    /// Undoes `restore_counted`: the chunks at these places are acknowledged again, and their bytes go. A turn for each.
    pub(crate) fn report_again_counted(&mut self, places: &[usize], turns: &mut Turns)
        requires { All (λ k. k < length self.old.queue.inflight.chunks) places.now }
        ensures value { self.new ≡ with_reported_again places.now self.old }
        ensures cost { turns.new ≡ turns.old + length places.now }
    {
        report_each_again(&mut self.queue, places, turns);
    }
}

/// From here on these blocks report what can come back, and are those that the next SACK does not look at, if they do not stay. Answers
/// those that reported it until then.
pub(crate) fn set_left(
    flight: &mut InFlight,
    kept: &mut Option<Kept>,
    left: Option<Left>,
) -> Option<Vec<GapAckBlock>>
    requires known { IfSome left (λ l. AreKnown l.known.items flight.old.queue.inflight.chunks) }
    requires ascend { IfSome left (λ l. ascends_from 0 l.known.items ≡ true) }
    ensures flight { flight.new ≡ flight.old }
    ensures data { option_map (λ k. k.user_data.items) kept.new
        ≡ option_map (λ k. k.user_data.items) kept.old }
    ensures blocks { option_map (λ k. k.reported.items) kept.new
        ≡ option_map (λ k. blocks_left left k.reported.items) kept.old }
    ensures before { IfSome result (λ bs. IfSome kept.old (λ k. bs.items ≡ k.reported.items)) }
    ensures none { result ≡ None → IfSome kept.old (λ k. left ≡ None) }
{
    let Some(left) = left else {
        return None;
    };
    flight.known = left.known;
    let Some(kept) = kept else {
        return None;
    };
    Some(replace_reported(kept, left.reported))
}

// These blocks report what can come back. Answers those that did until then.
fn replace_reported(kept: &mut Kept, blocks: Vec<GapAckBlock>) -> Vec<GapAckBlock>
    ensures data { kept.new.user_data ≡ kept.old.user_data }
    ensures blocks { kept.new.reported.items ≡ blocks.items }
    ensures before { result.items ≡ kept.old.reported.items }
{
    mem::replace(&mut kept.reported, blocks)
}

/// From here on these blocks report what can come back, if there are any.
pub(crate) fn set_reported(kept: &mut Option<Kept>, blocks: Option<Vec<GapAckBlock>>)
    ensures data { option_map (λ k. k.user_data.items) kept.new
        ≡ option_map (λ k. k.user_data.items) kept.old }
    ensures none { blocks ≡ None → option_map (λ k. k.reported.items) kept.new
        ≡ option_map (λ k. k.reported.items) kept.old }
    ensures some { IfSome blocks (λ bs. option_map (λ k. k.reported.items) kept.new
        ≡ option_map (λ _. bs.items) kept.old) }
{
    let Some(blocks) = blocks else {
        return;
    };
    let Some(kept) = kept else {
        return;
    };
    kept.reported = blocks;
}

/// What is told of the chunks with which something comes back, and their places, at most a turn for each. Refuses only for memory.
/// Precondition: each has its place in flight.
pub(crate) fn answered_back_counted(
    alloc: Global,
    queue: &OutboundQueue,
    backs: &[PlacedData],
    turns: &mut Turns,
) -> Result<Told, SenderRefusal>
    requires { All (λ b. b.place < length queue.now.inflight.chunks) backs.now }
    ensures ok { (d : ChunkPayloadData) → IfOk result (λ told. told.answered.items
        ≡ map (λ b. answered_of_placed b (slice_index_or queue.now.inflight.chunks b.place d)) backs.now) }
    ensures places { IfOk result (λ told. told.places.items ≡ map (λ b. b.place) backs.now) }
    ensures memory { IfErr result (λ e. e ≡ OutOfMemory) }
    ensures not_back { turns.old ≤ turns.new }
    ensures cost { turns.new ≤ turns.old + length backs.now }
{
    let mut answered = Vec::new(alloc);
    if answered.reserve(backs.len()).is_err() {
        return Err(SenderRefusal::OutOfMemory);
    }
    let mut places = Vec::new(alloc);
    if places.reserve(backs.len()).is_err() {
        return Err(SenderRefusal::OutOfMemory);
    }
    for back in backs {
        turns.tick();
        let Some(chunk) = queue.inflight_at(back.place) else {
            unreachable!()
        };
        put(&mut answered, taken_back(chunk, &back.user_data));
        put(&mut places, back.place);
    }
    Ok(Told { answered, places })
}

// The user data that is kept at a place.
pub(super) fn kept_at(kept: &VecDeque<Option<Bytes>>, place: usize) -> Option<&Bytes>
    ensures { option_copied result ≡ slice_index_or kept.now.items place None }
{
    let Some(data) = kept.get(place) else {
        return None;
    };
    data.as_ref()
}

// The same user data, shared.
pub(super) fn share(bytes: &Bytes) -> Result<Bytes, SenderRefusal>
    ensures ok { IfOk result (λ shared. shared ≡ bytes.now) }
    ensures memory { IfErr result (λ e. e ≡ OutOfMemory) }
{
    match bytes.clone() {
        Ok(shared) => Ok(shared),
        Err(_) => Err(SenderRefusal::OutOfMemory),
    }
}

// What is told of a chunk that is outstanding again with these bytes.
fn taken_back(chunk: &ChunkPayloadData, bytes: &Bytes) -> TakenBack
    ensures { result ≡ record {
      tsn = chunk.now.tsn;
      stream = chunk.now.stream_identifier;
      bytes = length bytes.now;
      message = chunk.now.message_id;
    } }
{
    TakenBack {
        tsn: chunk.tsn,
        stream: chunk.stream_identifier,
        bytes: bytes.len(),
        message: chunk.message_id,
    }
}

// Gives each chunk in flight what comes back of it, from the last one on, a turn for each.
fn restore_each(queue: &mut OutboundQueue, backs: Vec<PlacedData>, turns: &mut Turns)
    requires within { All (λ b. b.place < length queue.old.inflight.chunks) backs.items }
    requires bytes { total_bytes queue.old + bytes_coming backs.items < 2 ^ 64 }
    ensures value { queue.new
        ≡ with_inflight queue.old (put_back backs.items queue.old.inflight.chunks) }
    ensures cost { turns.new ≡ turns.old + length backs.items }
{
    let mut backs = backs;
    while let Some(back) = backs.pop() {
        turns.tick();
        queue.take_back_at(back.place, back.user_data);
    }
}

// Acknowledges again the chunk in flight at each of these places, a turn for each.
fn report_each_again(queue: &mut OutboundQueue, places: &[usize], turns: &mut Turns)
    requires within { All (λ k. k < length queue.old.inflight.chunks) places.now }
    requires own { HaveOwnTsns queue.old.inflight.chunks }
    ensures value { queue.new
        ≡ with_inflight queue.old (reported_again places.now queue.old.inflight.chunks) }
    ensures cost { turns.new ≡ turns.old + length places.now }
{
    for place in places {
        turns.tick();
        report_again(queue, *place);
    }
}

// Acknowledges again the chunk in flight at a place: its bytes go, and whether it is marked for retransmission stays.
fn report_again(queue: &mut OutboundQueue, place: usize)
    requires within { place < length queue.old.inflight.chunks }
    requires own { HaveOwnTsns queue.old.inflight.chunks }
    ensures { queue.new
        ≡ with_inflight queue.old (change_at as_reported place queue.old.inflight.chunks) }
{
    let Some(chunk) = queue.inflight_at(place) else {
        unreachable!()
    };
    let tsn = chunk.tsn;
    let is_marked = chunk.retransmit;
    queue.mark_as_acked_at(place);
    if is_marked {
        queue.set_retransmit(tsn, true);
    }
}
