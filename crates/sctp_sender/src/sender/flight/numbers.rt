//! How far apart the stream sequence numbers of ordered messages in flight are (RFC 4960 6.5, 6.6; RFC 1982).

ghost use Rattle.std.specs.Prelude.{◌≡◌, None, IfSome, option_copied, slice_get};
ghost use Rattle.sctp_sender.specs.Numbers.{begins_ordered, is_ordered_on};

use super::InFlight;
use sctp_data::chunk::chunk_payload_data::ChunkPayloadData;

/// How far past the first one in flight an ordered message's number may be, at most less one: a quarter of the circle, so that names
/// in a FORWARD-TSN as far behind as this is ahead can be told apart too.
const REACH: u16 = 1 << 14;

impl InFlight {
    ghost use Rattle.sctp_sender.specs.Numbers.{first_ordered, is_too_far};

    /// Whether the chunk begins an ordered message whose number is 2^14 or more past that of the first ordered chunk of its stream in
    /// flight, be that acknowledged, abandoned or terminal. So many messages have as many chunks in flight: where fewer are, it is not,
    /// and nothing is looked for. Else it looks as far as that chunk.
    pub(crate) fn is_too_far(&self, chunk: &ChunkPayloadData) -> bool
        ensures { result ≡ is_too_far self.now chunk.now }
    {
        if !begins_ordered(chunk) || self.queue.inflight_len() < REACH as usize {
            return false;
        }
        match self.first_ordered(chunk.stream_identifier) {
            Some(first) => {
                let number = chunk.stream_sequence_number;
                number.wrapping_sub(first.stream_sequence_number) >= REACH
            }
            None => false,
        }
    }

    // The first ordered chunk of a stream in flight. It stands apart, as it is seldom looked for.
    #[cold]
    #[inline(never)]
    fn first_ordered(&self, stream: u16) -> Option<&ChunkPayloadData>
        ensures { option_copied result ≡ first_ordered stream self.now }
    {
        match self.place_of_ordered(stream) {
            Some(place) => self.at(place),
            None => None,
        }
    }

    // Its place.
    fn place_of_ordered(&self, stream: u16) -> Option<usize>
        ensures some { IfSome result (λ k. slice_get self.now.queue.inflight.chunks k
            ≡ first_ordered stream self.now) }
        ensures none { result ≡ None → first_ordered stream self.now ≡ None }
    {
        for place in 0..self.queue.inflight_len() {
            let Some(chunk) = self.at(place) else {
                unreachable!()
            };
            if is_ordered_on(stream, chunk) {
                return Some(place);
            }
        }
        None
    }
}

// Whether the chunk is the first fragment of an ordered message.
fn begins_ordered(chunk: &ChunkPayloadData) -> bool
    ensures { result ≡ begins_ordered chunk.now }
{
    chunk.beginning_fragment && !chunk.unordered
}

// Whether the chunk is an ordered one of a stream.
fn is_ordered_on(stream: u16, chunk: &ChunkPayloadData) -> bool
    ensures { result ≡ is_ordered_on stream chunk.now }
{
    chunk.stream_identifier == stream && !chunk.unordered
}
