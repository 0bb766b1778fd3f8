//! Where the chunks of a message stand in flight: side by side.

ghost use Rattle.std.specs.Prelude.{◌≡◌, ◌<◌, ◌≤◌, Some, find, length};
ghost use Rattle.sctp_data.specs.declared.chunk.chunk_payload_data.ChunkPayloadData.{ChunkPayloadData};
ghost use Rattle.sctp_outbound.specs.Marks.{IsBetween};
ghost use Rattle.sctp_serial.specs.DataChunks.{has_tsn};
ghost use Rattle.sctp_sender.specs.SideBySide.{IsApartAt, StandSideBySide, messages_of};

use super::InFlight;
use super::reports::{begins_another, message_end};
use sctp_outbound::outbound_queue::OutboundQueue;
use sctp_serial::serial::distance;

impl InFlight {
    /// Where the chunks of the message of a TSN in flight stand: from the first place on, and before the second. It looks at these,
    /// and at one on each side. Twice 0 where the TSN is not in flight.
    pub(crate) fn places_of(&self, tsn: u32) -> (usize, usize)
        ensures { (c : ChunkPayloadData)
            → find (has_tsn tsn) self.now.queue.inflight.chunks ≡ Some c
            → IsBetween c.message_id result.0 result.1 self.now.queue.inflight.chunks }
    {
        let ahead = distance(self.acked_tsn, tsn) as usize;
        if ahead == 0 {
            return (0, 0);
        }
        if ahead > self.queue.inflight_len() {
            return (0, 0);
        }
        let start = message_start(&self.queue, ahead - 1);
        let end = message_end(&self.queue, ahead);
        (start, end)
    }
}

// The last place up to this one from where on no chunk in flight is of the message of one before it.
fn message_start(queue: &OutboundQueue, place: usize) -> usize
    requires { place < length queue.now.inflight.chunks }
    ensures to { result ≤ place }
    ensures apart { StandSideBySide (messages_of queue.now.inflight.chunks)
        → IsApartAt result queue.now.inflight.chunks }
{
    let mut start = place;
    while start > 0 {
        if begins_another(queue, start) {
            return start;
        }
        start -= 1;
    }
    0
}
