//! What a SACK reports anew of what is in flight, and of which messages all is acknowledged then (RFC 4960 6.2.1).

ghost use Rattle.std.specs.Prelude.{◌≡◌, ℕ, Bool, ◌+◌, ◌*◌, ◌-◌, ◌^◌, ◌<◌, ◌≤◌, not, ◌&&◌, true, false, [], OnOk, IfErr, IfSome, length, map, take, drop, slice_index_or};
ghost use Rattle.std.specs.List.{count_by, filter, list_all, list_any};
ghost use Rattle.sctp_data.specs.declared.chunk.chunk_payload_data.ChunkPayloadData.{ChunkPayloadData};
ghost use Rattle.sctp_data.specs.declared.chunk.chunk_selective_ack.GapAckBlock.{GapAckBlock};
ghost use Rattle.sctp_util.specs.Lists.{change_where};
ghost use Rattle.sctp_outbound.specs.Marks.{as_acknowledged};
ghost use Rattle.sctp_outbound.specs.outbound_queue.OutboundQueue.{with_inflight};
ghost use Rattle.sctp_outbound.specs.payload_queue.Blocks.{is_in_blocks};
ghost use Rattle.sctp_serial.specs.DataChunks.{following_tsn, tsns};
ghost use Rattle.sctp_sender.specs.declared.sender.refusal.SenderRefusal.TheVariants.{OutOfMemory};
ghost use Rattle.sctp_sender.specs.Costs.{chunks_of, distances_in, unknown_from, unknown_in};
ghost use Rattle.sctp_sender.specs.Flight.{is_half, released_of, tsns_from};
ghost use Rattle.sctp_sender.specs.Reporting.{AreKnown, ascends_from};
ghost use Rattle.sctp_sender.specs.SideBySide.{StandSideBySide, is_number, messages_of};
ghost use Rattle.sctp_sender.specs.Telling.{AreInFlight, PicksAnew, PicksOpen, is_closed, is_open, is_open_of, is_answered, judged, no_message};

use super::Released;
use crate::sender::refusal::SenderRefusal;
use sctp_data::chunk::chunk_payload_data::ChunkPayloadData;
use sctp_data::chunk::chunk_selective_ack::GapAckBlock;
use sctp_outbound::outbound_queue::OutboundQueue;
use sctp_serial::serial::distance;
use sctp_serial::turns::Turns;
use sctp_stream::stream_numbers::put;

/// Tells of each chunk in flight that is not acknowledged, and stands at one of the first `count` places or at a distance behind
/// them that the blocks report. What the known blocks report is acknowledged, and not looked at. Refuses only for memory.
/// Turns: at most one for each block and each known one, and two for each of these places; and at most two for each block and each
/// known one, two for each of these places that no known block reports, and one more.
#[inline(always)]
pub(super) fn tell_anew(
    queue: &OutboundQueue,
    known: &[GapAckBlock],
    count: usize,
    sorted: &[GapAckBlock],
    released: &mut Vec<Released>,
    turns: &mut Turns,
) -> Result<(), SenderRefusal>
    requires known { AreKnown known.now queue.now.inflight.chunks }
    requires known_ascend { ascends_from 0 known.now ≡ true }
    requires few { length queue.now.inflight.chunks < 2 ^ 31 }
    requires count { count ≤ length queue.now.inflight.chunks }
    requires ascend { ascends_from 0 sorted.now ≡ true }
    requires within { (n : ℕ) → is_in_blocks sorted.now n ≡ true
        → count + n ≤ length queue.now.inflight.chunks }
    requires empty { released.old.items ≡ [] }
    ensures answered { (p : ChunkPayloadData → Bool)
        → PicksAnew p count sorted.now queue.now.inflight.chunks
        → OnOk result (released.new.items
        ≡ map (released_of no_message) (filter p queue.now.inflight.chunks)) }
    ensures memory { IfErr result (λ e. e ≡ OutOfMemory) }
    ensures not_back { turns.old ≤ turns.new }
    ensures cost { turns.new ≤ turns.old + length sorted.now + length known.now
        + 2 * (count + distances_in sorted.now) }
    ensures unknown { turns.new ≤ turns.old + 2 * length sorted.now + 2 * length known.now
        + 2 * unknown_in known.now count sorted.now + 1 }
{
    // each block reports one chunk at least, of which none was reported before
    give_room(
        released,
        sorted.len(),
        known.is_empty() && !sorted.is_empty(),
    )?;
    let mut next = 0;
    tell_between(queue, known, (0, count), &mut next, released, turns)?;
    for block in sorted {
        turns.tick();
        let from = count + block.start as usize - 1;
        let to = count + block.end as usize;
        tell_between(queue, known, (from, to), &mut next, released, turns)?;
    }
    Ok(())
}

// Makes room in the list for so many chunks at once, where no known block is left. Refuses only for memory.
#[inline(always)]
fn give_room(
    released: &mut Vec<Released>,
    count: usize,
    is_unknown: bool,
) -> Result<(), SenderRefusal>
    ensures same { released.new.items ≡ released.old.items }
    ensures memory { IfErr result (λ e. e ≡ OutOfMemory) }
{
    if !is_unknown {
        return Ok(());
    }
    let given = if released.is_empty() {
        released.reserve_exact(count)
    } else {
        released.reserve(count)
    };
    if given.is_err() {
        return Err(SenderRefusal::OutOfMemory);
    }
    Ok(())
}

// Tells of each chunk in flight from one place to before another that is not acknowledged. Known blocks before `next` are not looked
// at; those that are passed lie before it then.
#[inline(always)]
fn tell_between(
    queue: &OutboundQueue,
    known: &[GapAckBlock],
    places: (usize, usize),
    next: &mut usize,
    released: &mut Vec<Released>,
    turns: &mut Turns,
) -> Result<(), SenderRefusal>
    requires known { AreKnown known.now queue.now.inflight.chunks }
    requires ascend { ascends_from 0 known.now ≡ true }
    requires passed { (i : ℕ) (b : GapAckBlock) → i < next.old
        → (slice_index_or known.now i b).end ≤ places.0 }
    requires ordered { places.0 ≤ places.1 }
    requires within { places.1 ≤ length queue.now.inflight.chunks }
    ensures answered { (p : ChunkPayloadData → Bool)
        → PicksOpen p places.0 places.1 queue.now.inflight.chunks
        → released.old.items
        ≡ map (released_of no_message) (filter p (take places.0 queue.now.inflight.chunks))
        → OnOk result (released.new.items
        ≡ map (released_of no_message) (filter p (take places.1 queue.now.inflight.chunks))) }
    ensures memory { IfErr result (λ e. e ≡ OutOfMemory) }
    ensures onward { next.old ≤ next.new }
    ensures inside { next.old ≤ length known.now → next.new ≤ length known.now }
    ensures not_back { turns.old ≤ turns.new }
    ensures cost { turns.new + next.old
        ≤ turns.old + next.new + 2 * (places.1 - places.0) }
    ensures passed { (i : ℕ) (b : GapAckBlock) → i < next.new
        → (slice_index_or known.now i b).end ≤ places.1 }
    ensures unknown { turns.new + 2 * next.old ≤ turns.old + 2 * next.new
        + 2 * unknown_from known.now places.0 (places.1 - places.0) + 1 }
{
    give_room(released, places.1 - places.0, *next >= known.len())?;
    let mut place = places.0;
    while place < places.1 {
        if *next < known.len() {
            turns.tick();
            let block = known[*next];
            if block.end as usize <= place {
                *next += 1;
                continue;
            }
            if block.start as usize <= place + 1 {
                place = places.1.min(block.end as usize);
                continue;
            }
        }
        tell_at(queue, place, released, turns)?;
        place += 1;
    }
    Ok(())
}

// Tells of the chunk in flight at a place, if it is not acknowledged.
#[inline(always)]
fn tell_at(
    queue: &OutboundQueue,
    place: usize,
    released: &mut Vec<Released>,
    turns: &mut Turns,
) -> Result<(), SenderRefusal>
    requires { place < length queue.now.inflight.chunks }
    ensures answered { (p : ChunkPayloadData → Bool)
        → PicksOpen p place (place + 1) queue.now.inflight.chunks
        → released.old.items
        ≡ map (released_of no_message) (filter p (take place queue.now.inflight.chunks))
        → OnOk result (released.new.items
        ≡ map (released_of no_message) (filter p (take (place + 1) queue.now.inflight.chunks))) }
    ensures memory { IfErr result (λ e. e ≡ OutOfMemory) }
    ensures cost { turns.new ≡ turns.old + 1 }
{
    turns.tick();
    let Some(chunk) = queue.inflight_at(place) else {
        unreachable!()
    };
    if chunk.acked {
        return Ok(());
    }
    if released.reserve(1).is_err() {
        return Err(SenderRefusal::OutOfMemory);
    }
    put(released, released_of(chunk));
    Ok(())
}

// What is told of a chunk, its message not taken for acknowledged.
fn released_of(chunk: &ChunkPayloadData) -> Released
    ensures { result ≡ released_of no_message chunk.now }
{
    Released {
        tsn: chunk.tsn,
        stream: chunk.stream_identifier,
        bytes: chunk.user_data.len(),
        nsent: chunk.nsent,
        since: chunk.since,
        message: chunk.message_id,
        is_message_acked: false,
        is_low: false,
    }
}

/// Acknowledges each chunk in flight that was told of, a turn for each.
pub(super) fn acknowledge_answered(
    queue: &mut OutboundQueue,
    acked_tsn: u32,
    released: &[Released],
    turns: &mut Turns,
)
    requires run { tsns queue.old.inflight.chunks
        ≡ tsns_from (following_tsn acked_tsn) (length queue.old.inflight.chunks) }
    requires few { length queue.old.inflight.chunks < 2 ^ 31 }
    requires answered { AreInFlight released.now queue.old.inflight.chunks }
    ensures value { queue.new ≡ with_inflight queue.old
        (change_where (is_answered released.now) as_acknowledged queue.old.inflight.chunks) }
    ensures cost { turns.new ≡ turns.old + length released.now }
{
    for one in released {
        turns.tick();
        let place = distance(acked_tsn, one.tsn) as usize - 1;
        queue.mark_as_acked_at(place);
    }
}

/// Notes of each chunk that was told of whether all of its message is acknowledged. A message is looked at once for chunks of it
/// that are told one after another: its own chunks in flight, and at most one on each side. Turns: at most two for each chunk that was
/// told of, and one for each chunk in flight of their messages.
#[inline(always)]
pub(super) fn judge_each(
    queue: &OutboundQueue,
    acked_tsn: u32,
    partial: Option<u64>,
    released: &mut Vec<Released>,
    turns: &mut Turns,
)
    requires run { tsns queue.now.inflight.chunks
        ≡ tsns_from (following_tsn acked_tsn) (length queue.now.inflight.chunks) }
    requires few { length queue.now.inflight.chunks < 2 ^ 31 }
    requires beside { StandSideBySide (messages_of queue.now.inflight.chunks) }
    requires answered { AreInFlight released.old.items queue.now.inflight.chunks }
    requires in_turn { StandSideBySide (map (λ r. r.message) released.old.items) }
    ensures value { released.new.items
        ≡ map (judged partial queue.now.inflight.chunks) released.old.items }
    ensures not_back { turns.old ≤ turns.new }
    ensures cost { turns.new ≤ turns.old + 2 * length released.old.items
        + chunks_of (map (λ r. r.message) released.old.items) queue.now.inflight.chunks }
{
    let mut last = None;
    for one in released.iter_mut() {
        let place = distance(acked_tsn, one.tsn) as usize - 1;
        let whole = whole_or_last(queue, partial, place, one.message, last, turns);
        one.is_message_acked = whole;
        last = Some((one.message, whole));
    }
}

// Whether all of the message of the chunk in flight at a place is acknowledged: as the last answer says, if that is of this message.
#[inline(always)]
fn whole_or_last(
    queue: &OutboundQueue,
    partial: Option<u64>,
    place: usize,
    message: u64,
    last: Option<(u64, bool)>,
    turns: &mut Turns,
) -> bool
    requires place { place < length queue.now.inflight.chunks }
    requires own { (d : ChunkPayloadData)
        → (slice_index_or queue.now.inflight.chunks place d).message_id ≡ message }
    requires beside { StandSideBySide (messages_of queue.now.inflight.chunks) }
    requires last { IfSome last (λ l. l.1 ≡ is_closed partial queue.now.inflight.chunks l.0) }
    ensures value { result ≡ is_closed partial queue.now.inflight.chunks message }
    ensures not_back { turns.old ≤ turns.new }
    ensures same { IfSome last (λ l. l.0 ≡ message → turns.new ≡ turns.old) }
    ensures cost { turns.new ≤ turns.old + 2
        + count_by (is_number message) (messages_of queue.now.inflight.chunks) }
{
    match last {
        Some((of, whole)) if of == message => whole,
        _ => is_closed(queue, partial, place, message, turns),
    }
}

// Whether nothing of the message of the chunk in flight at a place waits, and each chunk of it in flight is acknowledged, and not
// abandoned.
#[inline(always)]
fn is_closed(
    queue: &OutboundQueue,
    partial: Option<u64>,
    place: usize,
    message: u64,
    turns: &mut Turns,
) -> bool
    requires place { place < length queue.now.inflight.chunks }
    requires own { (d : ChunkPayloadData)
        → (slice_index_or queue.now.inflight.chunks place d).message_id ≡ message }
    requires beside { StandSideBySide (messages_of queue.now.inflight.chunks) }
    ensures value { result ≡ is_closed partial queue.now.inflight.chunks message }
    ensures not_back { turns.old ≤ turns.new }
    ensures cost { turns.new ≤ turns.old + 2
        + count_by (is_number message) (messages_of queue.now.inflight.chunks) }
{
    if partial == Some(message) {
        return false;
    }
    !is_open_before(queue, place, message, turns) && !is_open_from(queue, place, message, turns)
}

// Whether a chunk in flight before the place is of the message, which the chunk there is of too, and is open.
fn is_open_before(queue: &OutboundQueue, place: usize, message: u64, turns: &mut Turns) -> bool
    requires place { place < length queue.now.inflight.chunks }
    requires own { (d : ChunkPayloadData)
        → (slice_index_or queue.now.inflight.chunks place d).message_id ≡ message }
    requires beside { StandSideBySide (messages_of queue.now.inflight.chunks) }
    ensures value { result
        ≡ list_any (is_open_of message) (take place queue.now.inflight.chunks) }
    ensures not_back { turns.old ≤ turns.new }
    ensures cost { turns.new ≤ turns.old + 1
        + count_by (is_number message) (take place (messages_of queue.now.inflight.chunks)) }
{
    let mut start = place;
    while start > 0 {
        turns.tick();
        let Some(chunk) = queue.inflight_at(start - 1) else {
            unreachable!()
        };
        if chunk.message_id != message {
            return false;
        }
        if is_open(chunk) {
            return true;
        }
        start -= 1;
    }
    false
}

// The same of those from the place on.
fn is_open_from(queue: &OutboundQueue, place: usize, message: u64, turns: &mut Turns) -> bool
    requires place { place < length queue.now.inflight.chunks }
    requires own { (d : ChunkPayloadData)
        → (slice_index_or queue.now.inflight.chunks place d).message_id ≡ message }
    requires beside { StandSideBySide (messages_of queue.now.inflight.chunks) }
    ensures value { result
        ≡ list_any (is_open_of message) (drop place queue.now.inflight.chunks) }
    ensures not_back { turns.old ≤ turns.new }
    ensures cost { turns.new ≤ turns.old + 1
        + count_by (is_number message) (drop place (messages_of queue.now.inflight.chunks)) }
{
    for end in place..queue.inflight_len() {
        turns.tick();
        let Some(chunk) = queue.inflight_at(end) else {
            unreachable!()
        };
        if chunk.message_id != message {
            return false;
        }
        if is_open(chunk) {
            return true;
        }
    }
    false
}

// Whether the chunk is abandoned or not acknowledged.
fn is_open(chunk: &ChunkPayloadData) -> bool
    ensures { result ≡ is_open chunk.now }
{
    chunk.abandoned || !chunk.acked
}
