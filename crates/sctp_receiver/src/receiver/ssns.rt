//! Which stream sequence numbers can be told from those that are still to be read (RFC 1982 3.2; RFC 4960 6.5, 6.6; RFC 3758 3.6).

ghost use Rattle.std.specs.Prelude.{◌≡◌, ◌<◌, ◌≤◌, ◌+◌, ◌^◌, true, false, find, length, not, ◌&&◌};
ghost use Rattle.std.specs.List.{list_any};
ghost use Rattle.sctp_data.specs.ForwardTsn.{forward_tsn_of};
ghost use Rattle.sctp_util.specs.Serial.{comes_before, distance16};
ghost use Rattle.sctp_reassembly.specs.reassembly_queue.Orders.{digits};
ghost use Rattle.sctp_receiver.specs.Inbound.{has_number};
ghost use Rattle.sctp_receiver.specs.Ssns.{lowest_ssn, is_lowest_complete, is_ssn_too_far, is_kept_or_passed, is_name_too_far, is_too_far_on, is_kept_on};
ghost use Rattle.sctp_receiver.specs.TsnFilter.{has_come};

use crate::receiver::Receiver;
use crate::receiver::inbound_streams::InboundStreams;
use crate::receiver::tsn_filter::TsnFilter;
use sctp_data::chunk::chunk_forward_tsn::{ChunkForwardTsn, ChunkForwardTsnStream};
use sctp_data::chunk::chunk_payload_data::ChunkPayloadData;
use sctp_reassembly::reassembly_queue::ReassemblyQueue;
use sctp_serial::turns::Turns;
use sctp_util::util::{sna16lte, sna32lt};

// Half the circle of stream sequence numbers (RFC 1982 3.2).
const HALF_CIRCLE: u16 = 1 << 15;

// How many numbers before the lowest one are of old names.
const OLD_NAMES: u16 = 1 << 14;

impl Receiver {
    ghost use Rattle.sctp_receiver.specs.Receiver.{stream_of, is_open};
    ghost use Rattle.sctp_receiver.specs.Skips.{names_closed, names_too_far};
    ghost use Rattle.sctp_receiver.specs.Ssns.{is_named_too_far};

    // Whether a FORWARD-TSN is followed, and names a stream that is not open.
    pub(crate) fn names_closed(&self, chunk: &ChunkForwardTsn) -> bool
        ensures { result ≡ names_closed (forward_tsn_of chunk.now) self.now }
    {
        self.is_ahead(chunk.new_cumulative_tsn) && self.is_any_closed(&chunk.streams)
    }

    // Whether it is followed, and names a number that is too far on its stream, where that is open. A turn is taken for each name at most.
    pub(crate) fn names_too_far(&self, chunk: &ChunkForwardTsn, skips: &mut Turns) -> bool
        ensures value { result ≡ names_too_far (forward_tsn_of chunk.now) self.now }
        ensures not_back { skips.old ≤ skips.new }
        ensures walk { skips.new ≤ skips.old + length (forward_tsn_of chunk.now).streams }
    {
        self.is_ahead(chunk.new_cumulative_tsn) && self.is_any_too_far(&chunk.streams, skips)
    }

    // Whether a TSN comes after the cumulative one.
    fn is_ahead(&self, tsn: u32) -> bool
        ensures { result ≡ comes_before self.now.cumulative_tsn tsn }
    {
        sna32lt(self.filter.cumulative_tsn(), tsn)
    }

    // Whether the stream of a name is not open.
    fn is_any_closed(&self, names: &[ChunkForwardTsnStream]) -> bool
        ensures { result ≡ list_any (λ n. not (is_open n.identifier self.now)) names.now }
    {
        names
            .iter()
            .any(|name| self.streams.find(name.identifier).is_none())
    }

    // Whether a name is too far on its stream, where that is open.
    fn is_any_too_far(&self, names: &[ChunkForwardTsnStream], skips: &mut Turns) -> bool
        ensures value { result
            ≡ list_any (λ n. is_named_too_far n (stream_of n.identifier self.now)) names.now }
        ensures not_back { skips.old ≤ skips.new }
        ensures walk { skips.new ≤ skips.old + length names.now }
    {
        for place in 0..names.len() {
            if self.is_named_too_far(&names[place], skips) {
                return true;
            }
        }
        false
    }

    // Whether this one is. A turn is taken at most.
    fn is_named_too_far(&self, name: &ChunkForwardTsnStream, skips: &mut Turns) -> bool
        ensures value { result
            ≡ is_named_too_far name.now (stream_of name.now.identifier self.now) }
        ensures not_back { skips.old ≤ skips.new }
        ensures walk { skips.new ≤ skips.old + 1 }
    {
        match self.streams.find(name.identifier) {
            Some(inbound) => is_name_too_far(&inbound.queue, name.sequence, skips),
            None => false,
        }
    }
}

// Whether a chunk with a new TSN is ordered and its number lies too far ahead on its stream, where that is open.
pub(crate) fn is_new_too_far(
    streams: &InboundStreams,
    filter: &TsnFilter,
    chunk: &ChunkPayloadData,
    turns: &mut Turns,
) -> bool
    ensures kept { result ≡ false → has_come chunk.now.tsn filter.now ≡ false
        → is_kept_on chunk.now (find (has_number chunk.now.stream_identifier) streams.now)
        ≡ true }
    ensures value { result ≡ (not (has_come chunk.now.tsn filter.now)
        && is_too_far_on chunk.now
        (find (has_number chunk.now.stream_identifier) streams.now)) }
    ensures not_back { turns.old ≤ turns.new }
    ensures cost { turns.new ≤ turns.old + digits (length filter.now.beyond) + 2 }
{
    if chunk.unordered {
        return false;
    }
    turns.tick();
    let Some(inbound) = streams.find(chunk.stream_identifier) else {
        return false;
    };
    turns.tick();
    if !is_ssn_too_far(&inbound.queue, chunk.stream_sequence_number) {
        return false;
    }
    !filter.has_come_counted(chunk.tsn, turns)
}

// Whether an ordered chunk's number lies half the circle or more past the lowest one.
fn is_ssn_too_far(queue: &ReassemblyQueue, ssn: u16) -> bool
    ensures kept { result ≡ false → is_kept_or_passed ssn queue.now.held ≡ true }
    ensures value { result ≡ is_ssn_too_far ssn queue.now.held }
{
    distance(lowest_ssn(queue), ssn) >= HALF_CIRCLE
}

// Whether the number of a name may be ahead of the lowest one or behind it, or would put half the circle between a complete
// lowest message and the next one. A turn is taken for the look at that message.
fn is_name_too_far(queue: &ReassemblyQueue, ssn: u16, skips: &mut Turns) -> bool
    ensures value { result ≡ is_name_too_far ssn queue.now.held }
    ensures not_back { skips.old ≤ skips.new }
    ensures walk { skips.new ≤ skips.old + 1 }
{
    let ahead = distance(lowest_ssn(queue), ssn);
    if ahead >= HALF_CIRCLE {
        return ahead < HALF_CIRCLE + OLD_NAMES;
    }
    skips.tick();
    ahead == HALF_CIRCLE - 1 && is_lowest_complete(queue)
}

// The number of the ordered message that is read first of those still to be read. It takes no walk.
fn lowest_ssn(queue: &ReassemblyQueue) -> u16
    ensures value { result ≡ lowest_ssn queue.now.held }
    ensures fits { result < 2 ^ 16 }
    ensures next_fits { queue.now.held.next_ssn < 2 ^ 16 }
{
    match queue.ordered().front() {
        Some(set) if sna16lte(set.ssn(), queue.next_ssn()) => set.ssn(),
        _ => queue.next_ssn(),
    }
}

// Whether that message is complete. It looks at its fragments alone.
fn is_lowest_complete(queue: &ReassemblyQueue) -> bool
    ensures { result ≡ is_lowest_complete queue.now.held }
{
    match queue.ordered().front() {
        Some(set) => set.is_complete() && sna16lte(set.ssn(), queue.next_ssn()),
        None => false,
    }
}

// How far `to` lies after `from`, modulo 2^16 (RFC 1982 3.2).
#[tactic(auto, unfolding(sctp_util::specs::Serial::distance16))]
fn distance(from: u16, to: u16) -> u16
    ensures value { result ≡ distance16 from to }
    ensures from_fits { from < 2 ^ 16 }
    ensures to_fits { to < 2 ^ 16 }
{
    to.wrapping_sub(from)
}
