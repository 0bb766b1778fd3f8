//! Which chunks in flight are sent again (RFC 4960 6.3.3, 7.2.4; RFC 7496 3.1).

ghost use Rattle.std.specs.Prelude.{◌≡◌, ◌==◌, ◌+◌, ◌*◌, ◌-◌, ◌^◌, ◌<◌, ◌≤◌, ◌++◌, ◌&&◌, [], min, true, false, not, None, Some, OnOk, OnErr, IfOk, IfErr, IfSome, IsOk, drop, find, length, option_copied, option_map, slice_get, take, if◌then◌else◌};
ghost use Rattle.std.specs.List.{filter, list_any};
ghost use Rattle.sctp_util.specs.Lists.{change_where};
ghost use Rattle.sctp_data.specs.declared.chunk.chunk_payload_data.ChunkPayloadData.{ChunkPayloadData};
ghost use Rattle.sctp_outbound.specs.outbound_queue.OutboundQueue.{with_inflight};
ghost use Rattle.sctp_sender.specs.declared.sender.refusal.SenderRefusal.TheVariants.{NotInFlight, OutOfMemory};
ghost use Rattle.sctp_sender.specs.Flight.{tsns_from};
ghost use Rattle.sctp_sender.specs.Reporting.{AreKnown, ascends_from};
ghost use Rattle.sctp_sender.specs.Resending.{AreUnmarked, can_miss, fits, is_over, is_third, is_to_resend, is_worn, limit_of, missed, missed_after, rexmit_limit, sent_again};
ghost use Rattle.sctp_serial.specs.DataChunks.{has_tsn, tsns};

use super::InFlight;
use crate::sender::refusal::SenderRefusal;
use sctp_data::chunk::chunk_payload_data::{ChunkPayloadData, ReliabilityType};
use sctp_data::chunk::chunk_selective_ack::GapAckBlock;
use sctp_outbound::outbound_queue::OutboundQueue;
use sctp_serial::serial::distance;
use sctp_serial::turns::Turns;
use sctp_stream::stream_numbers::put;
use sctp_util::util::sna32lt;
use std::alloc::Global;

impl InFlight {
    ghost use Rattle.sctp_sender.specs.Flight.{can_resend};
    ghost use Rattle.sctp_sender.specs.Resending.{after_misses, all_marked, count_before, next_within, resent_at, thirds, worn_tsns};

    /// Sends the chunk in flight with a TSN again: it is counted, `now` is noted, in nanoseconds, and it is no longer marked for
    /// retransmission. Answers it as it is noted then. Refuses with `NotInFlight`, where none is, or it is acknowledged or
    /// abandoned; and for memory. All is as it was then.
    pub(crate) fn resend(&mut self, tsn: u32, now: u64) -> Result<ChunkPayloadData, SenderRefusal>
        ensures answer { IfOk result (λ again. (c : ChunkPayloadData)
            → find (has_tsn tsn) self.old.queue.inflight.chunks ≡ Some c
            → again ≡ sent_again (min (c.nsent + 1) (2 ^ 32 - 1)) now c) }
        ensures noted { IfOk result (λ again. find (has_tsn tsn) self.new.queue.inflight.chunks
            ≡ Some again) }
        ensures ok { OnOk result ((c : ChunkPayloadData)
            → find (has_tsn tsn) self.old.queue.inflight.chunks ≡ Some c
            → self.new ≡ resent_at tsn now c self.old) }
        ensures accepted { IsOk result → can_resend tsn self.old ≡ true }
        ensures refused { IfErr result (λ e. e
            ≡ (if can_resend tsn self.old then OutOfMemory else NotInFlight)) }
        ensures err { OnErr result (self.new ≡ self.old) }
    {
        let Some(chunk) = self.queue.get(tsn) else {
            return Err(SenderRefusal::NotInFlight);
        };
        if chunk.acked || chunk.abandoned {
            return Err(SenderRefusal::NotInFlight);
        }
        let mut again = chunk.try_clone()?;
        let count = again.nsent.saturating_add(1);
        again.nsent = count;
        again.since = Some(now);
        again.retransmit = false;
        note_sent_again(&mut self.queue, tsn, count, now);
        self.unmarked = first_marked(&self.queue, self.unmarked, &mut Turns::new());
        Ok(again)
    }

    /// Marks each outstanding chunk for retransmission (RFC 4960 6.3.3). It takes no memory.
    pub(crate) fn retransmit_all(&mut self)
        ensures { self.new ≡ all_marked self.old }
    {
        self.queue.mark_all_to_retransmit();
        self.unmarked = 0;
    }

    /// Goes on to the first chunk that is marked, where the next look begins: each chunk in flight is passed once after it was sent, and
    /// once after each time that one before it was marked.
    pub(crate) fn pass_unmarked(&mut self)
        ensures { self.new ≡ self.old }
    {
        self.unmarked = first_marked(&self.queue, self.unmarked, &mut Turns::new());
    }

    /// The first chunk in flight that is marked for retransmission and outstanding.
    pub(crate) fn next_to_retransmit(&self) -> Option<&ChunkPayloadData>
        ensures { option_copied result ≡ find is_to_resend self.now.queue.inflight.chunks }
    {
        match self.first_to_resend() {
            Some(place) => self.at(place),
            None => None,
        }
    }

    /// The TSN of that chunk, where the chunk takes at most so many bytes of a packet. It is the one in flight with this TSN, and can be
    /// sent again.
    pub(crate) fn tsn_to_resend(&mut self, room: usize) -> Option<u32>
        ensures same { self.new ≡ self.old }
        ensures tsn { result ≡ option_map (λ c. c.tsn) (next_within room self.old) }
        ensures own { (c : ChunkPayloadData) → next_within room self.old ≡ Some c
            → find (has_tsn c.tsn) self.old.queue.inflight.chunks ≡ Some c }
        ensures again { (c : ChunkPayloadData) → next_within room self.old ≡ Some c
            → can_resend c.tsn self.old ≡ true }
    {
        let _ = &self.queue;
        self.pass_unmarked();
        let Some(chunk) = self.next_to_retransmit() else {
            return None;
        };
        if !fits(room, chunk) {
            return None;
        }
        Some(chunk.tsn)
    }

    // The place of that chunk.
    fn first_to_resend(&self) -> Option<usize>
        ensures some { IfSome result (λ k. slice_get self.now.queue.inflight.chunks k
            ≡ find is_to_resend self.now.queue.inflight.chunks) }
        ensures none { result ≡ None → find is_to_resend self.now.queue.inflight.chunks ≡ None }
    {
        for place in self.unmarked..self.queue.inflight_len() {
            let Some(chunk) = self.at(place) else {
                unreachable!()
            };
            if is_to_resend(chunk) {
                return Some(place);
            }
        }
        None
    }

    /// The same, and its turns are added: at most two for each chunk in flight whose TSN is before this one. The look-up by which a chunk
    /// is counted takes none.
    pub(crate) fn add_miss_indications_counted(&mut self, before: u32, turns: &mut Turns) -> usize
        ensures missed { self.new ≡ after_misses (count_before before self.old) self.old }
        ensures thirds { result ≡ length (thirds (count_before before self.old) self.old) }
        ensures not_back { turns.old ≤ turns.new }
        ensures cost { turns.new ≤ turns.old + 2 * count_before before self.old }
    {
        let count = self.count_before(before);
        let first = self.acked_tsn.wrapping_add(1);
        let (thirds, place) = count_missing(&mut self.queue, &self.known, first, count, turns);
        self.unmarked = earlier(self.unmarked, place, thirds);
        thirds
    }

    // How many chunks in flight have TSNs before this one.
    fn count_before(&self, tsn: u32) -> usize
        ensures value { result ≡ count_before tsn self.now }
        ensures within { result ≤ length self.now.queue.inflight.chunks }
    {
        if !sna32lt(self.acked_tsn, tsn) {
            return 0;
        }
        let ahead = distance(self.acked_tsn, tsn) as usize;
        ahead.saturating_sub(1).min(self.queue.inflight_len())
    }

    /// The TSNs in flight that are marked for retransmission, and were sent again as often as their limit allows (RFC 7496 3.1), but
    /// for those of DCEP messages (RFC 8832 6). Refuses only for memory, and not where there are none.
    pub(crate) fn worn_tsns(&self, alloc: Global) -> Result<Vec<u32>, SenderRefusal>
        ensures ok { IfOk result (λ tsns. tsns.items ≡ worn_tsns self.now) }
        ensures memory { IfErr result (λ e. e ≡ OutOfMemory) }
        ensures idle { worn_tsns self.now ≡ [] → IsOk result }
    {
        let mut tsns = Vec::new(alloc);
        for place in self.unmarked..self.queue.inflight_len() {
            let Some(chunk) = self.at(place) else {
                unreachable!()
            };
            if !is_worn(chunk) {
                continue;
            }
            if tsns.reserve(1).is_err() {
                return Err(SenderRefusal::OutOfMemory);
            }
            put(&mut tsns, chunk.tsn);
        }
        Ok(tsns)
    }
}

// Notes that a chunk in flight was sent again.
fn note_sent_again(queue: &mut OutboundQueue, tsn: u32, count: u32, now: u64)
    ensures { queue.new ≡ with_inflight queue.old
        (change_where (has_tsn tsn) (sent_again count now) queue.old.inflight.chunks) }
{
    queue.set_nsent(tsn, count);
    queue.set_since(tsn, Some(now));
    queue.set_retransmit(tsn, false);
}

// Whether the chunk is marked, and outstanding.
fn is_to_resend(chunk: &ChunkPayloadData) -> bool
    ensures { result ≡ is_to_resend chunk.now }
{
    chunk.retransmit && !chunk.acked && !chunk.abandoned
}

// Whether the chunk takes at most so many bytes of a packet.
fn fits(room: usize, chunk: &ChunkPayloadData) -> bool
    ensures { result ≡ fits room chunk.now }
{
    room >= 16 && chunk.user_data.len() <= (room - 16) / 4 * 4
}

// The first place from this one on at which a chunk in flight is marked, or how many chunks there are, if that is more. Turns: one for
// each chunk that is passed.
fn first_marked(queue: &OutboundQueue, from: usize, turns: &mut Turns) -> usize
    ensures unmarked { AreUnmarked from queue.now.inflight.chunks
        → AreUnmarked result queue.now.inflight.chunks }
    ensures cost { turns.new + from ≡ turns.old + result }
{
    let mut place = from;
    while place < queue.inflight_len() {
        let Some(chunk) = queue.inflight_at(place) else {
            unreachable!()
        };
        if chunk.retransmit {
            return place;
        }
        turns.tick();
        place += 1;
    }
    place
}

// Whether the chunk is outstanding, and not counted as missing three times.
fn can_miss(chunk: &ChunkPayloadData) -> bool
    ensures { result ≡ can_miss chunk.now }
{
    !chunk.acked && !chunk.abandoned && chunk.miss_indicator < 3
}

// Whether the chunk was sent again as often as it may be, and is marked.
fn is_worn(chunk: &ChunkPayloadData) -> bool
    ensures { result ≡ is_worn chunk.now }
{
    is_to_resend(chunk)
        && !chunk.payload_type.is_dcep()
        && is_over(chunk.nsent, rexmit_limit(chunk.reliability))
}

// How often a chunk may be sent after the first time, where that is limited.
fn rexmit_limit(reliability: Option<(ReliabilityType, u32)>) -> Option<u32>
    ensures { result ≡ rexmit_limit reliability }
{
    match reliability {
        Some((ReliabilityType::Rexmit, limit)) => Some(limit),
        _ => None,
    }
}

// Whether there is a limit, and so many are more.
fn is_over(count: u32, limit: Option<u32>) -> bool
    ensures { result ≡ is_over count limit }
{
    match limit {
        Some(limit) => count > limit,
        None => false,
    }
}

// Counts each of the first so many chunks in flight that can miss as missing once more. What the known blocks report is acknowledged,
// and not looked at. Answers how many are marked by that, and a place such that no chunk before it is.
// Turns: one for each chunk and each known block that is looked at, at most two for each of these places.
fn count_missing(
    queue: &mut OutboundQueue,
    known: &[GapAckBlock],
    first: u32,
    count: usize,
    turns: &mut Turns,
) -> (usize, usize)
    requires known_ascend { ascends_from 0 known.now ≡ true }
    requires known { AreKnown known.now queue.old.inflight.chunks }
    requires run { tsns queue.old.inflight.chunks
        ≡ tsns_from first (length queue.old.inflight.chunks) }
    requires few { length queue.old.inflight.chunks < 2 ^ 31 }
    requires within { count ≤ length queue.old.inflight.chunks }
    ensures missed { queue.new ≡ with_inflight queue.old
        (change_where can_miss missed (take count queue.old.inflight.chunks)
        ++ drop count queue.old.inflight.chunks) }
    ensures thirds { result.0
        ≡ length (filter is_third (take count queue.old.inflight.chunks)) }
    ensures before { list_any is_third (take result.1 queue.old.inflight.chunks) ≡ false }
    ensures not_back { turns.old ≤ turns.new }
    ensures cost { turns.new ≤ turns.old + 2 * count }
{
    let mut thirds = 0;
    let mut first_third = count;
    let mut place = 0;
    let mut next = 0;
    while place < count {
        turns.tick();
        if next < known.len() {
            let block = known[next];
            if block.end as usize <= place {
                next += 1;
                continue;
            }
            if block.start as usize <= place + 1 {
                place = count.min(block.end as usize);
                continue;
            }
        }
        let Some(chunk) = queue.inflight_at(place) else {
            unreachable!()
        };
        if !can_miss(chunk) {
            place += 1;
            continue;
        }
        let misses = chunk.miss_indicator;
        let is_marked = chunk.retransmit;
        let tsn = first.wrapping_add(place as u32);
        let third = note_missing(queue, tsn, misses, is_marked);
        thirds += third;
        first_third = earlier(first_third, place, third);
        place += 1;
    }
    (thirds, first_third)
}

// The earlier of two places, where the second counts.
fn earlier(first: usize, place: usize, counts: usize) -> usize
    ensures none { counts ≡ 0 → result ≡ first }
    ensures some { 0 < counts → result ≡ min first place }
{
    if counts == 0 {
        return first;
    }
    first.min(place)
}

// Notes that a chunk in flight, missing so often before, is missing once more. Answers 1 where that is the third time and it was not
// marked, else 0.
fn note_missing(queue: &mut OutboundQueue, tsn: u32, misses: u8, is_marked: bool) -> usize
    requires { misses < 3 }
    ensures noted { queue.new ≡ with_inflight queue.old
        (change_where (has_tsn tsn) (missed_after misses) queue.old.inflight.chunks) }
    ensures third { result ≡ (if misses == 2 && not is_marked then 1 else 0) }
{
    queue.set_miss_indicator(tsn, misses + 1);
    if misses != 2 {
        return 0;
    }
    queue.set_retransmit(tsn, true);
    if is_marked {
        return 0;
    }
    1
}
