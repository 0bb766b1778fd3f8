//! What a receiver holds at most (RFC 4960 6.2, 3.3.4).

ghost use Rattle.std.specs.Prelude.{◌≡◌, ◌+◌, ◌*◌, ◌-◌, ◌^◌, min};
ghost use Rattle.sctp_reassembly.specs.reassembly_queue.ReassemblyQueue.{held_chunks};
ghost use Rattle.sctp_receiver.specs.Limits.{chunk_cost, held_cost, least_window, refusal_by, refusal_within};

use crate::receiver::Receiver;
use crate::receiver::inbound_streams::InboundStreams;
use crate::receiver::refusal::ReceiverRefusal;
use crate::receiver::tsn_filter::TsnFilter;
use sctp_reassembly::reassembly_queue::ReassemblyQueue;
use sctp_serial::serial::distance;
use sctp_util::util::sna32lt;

/// What a chunk that is held counts for, beside its bytes: no less than it takes on the heap, as measured (SECURITY.md).
pub const CHUNK_COST: usize = 400;

/// What a receiver takes at most.
#[derive(Clone, Copy, Debug, PartialEq, Eq)]
pub struct Limits {
    /// What it may hold, in bytes, as `held_bytes` counts them.
    pub window: usize,
    /// How far past the cumulative TSN a TSN may lie.
    pub reach: u32,
}

impl Limits {
    /// The least window in which one message of the greatest length fits, in fragments of at least `fragment` bytes each but the last. In
    /// a lesser one its peer may send fragments that fill it, and that never become a message: then `advise` says to end.
    pub fn least_window(max_message_size: u32, fragment: u32) -> usize
        ensures { result ≡ least_window max_message_size fragment }
    {
        let fragment = fragment.max(1) as usize;
        let fragments = (max_message_size as usize + (fragment - 1)) / fragment;
        max_message_size as usize + CHUNK_COST * fragments
    }
}

impl Receiver {
    ghost use Rattle.sctp_receiver.specs.Receiver.{new_refusal, window};

    // Why the limits refuse a TSN that did not come and is not opposite to the cumulative one.
    pub(crate) fn new_refusal(&self, tsn: u32) -> Option<ReceiverRefusal>
        ensures { result ≡ new_refusal tsn self.now }
    {
        refusal_by(self.limits, &self.streams, &self.filter, tsn)
    }

    /// What is held and was not read: its bytes, and `CHUNK_COST` for each chunk; the greatest usize where it is more. The sum is kept,
    /// and no stream is looked at.
    pub fn held_bytes(&self) -> usize
        ensures { result ≡ held_cost self.now.streams }
    {
        self.streams.held_bytes()
    }

    /// The window to advertise (RFC 4960 3.3.4): how much more may be held of the `window` of the limits, or the greatest u32 where it
    /// is more, or there are no limits.
    pub fn window(&self) -> u32
        ensures { result ≡ window self.now }
    {
        match self.limits {
            Some(limits) => self.left_of(limits.window),
            None => u32::MAX,
        }
    }

    // What is left of a window.
    fn left_of(&self, window: usize) -> u32
        ensures { result ≡ min (window - held_cost self.now.streams) (2 ^ 32 - 1) }
    {
        match u32::try_from(window.saturating_sub(self.held_bytes())) {
            Ok(left) => left,
            Err(_) => u32::MAX,
        }
    }
}

// Why limits, where there are any, refuse a TSN that did not come and is not opposite to the cumulative one.
pub(crate) fn refusal_by(
    limits: Option<Limits>,
    streams: &InboundStreams,
    filter: &TsnFilter,
    tsn: u32,
) -> Option<ReceiverRefusal>
    ensures { result ≡ refusal_by limits tsn filter.now streams.now }
{
    match limits {
        Some(limits) => refusal_within(limits, streams, filter, tsn),
        None => None,
    }
}

// Why these limits refuse it.
fn refusal_within(
    limits: Limits,
    streams: &InboundStreams,
    filter: &TsnFilter,
    tsn: u32,
) -> Option<ReceiverRefusal>
    ensures { result ≡ refusal_within limits tsn filter.now streams.now }
{
    if distance(filter.cumulative_tsn(), tsn) > limits.reach {
        return Some(ReceiverRefusal::TsnTooFar);
    }
    if sna32lt(filter.highest_tsn(), tsn) && limits.window <= streams.held_bytes() {
        return Some(ReceiverRefusal::WindowFull);
    }
    None
}

// What a queue holds counts for, up to the greatest usize.
pub(crate) fn cost_of(queue: &ReassemblyQueue) -> usize
    ensures { result
        ≡ min (queue.now.bytes + chunk_cost * held_chunks queue.now.held) (2 ^ 64 - 1) }
{
    queue
        .get_num_bytes()
        .saturating_add(queue.chunk_count().saturating_mul(CHUNK_COST))
}
