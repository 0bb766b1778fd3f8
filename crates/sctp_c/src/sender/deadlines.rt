//! When lifetimes end (RFC 3758 4.1).

ghost use Rattle.std.specs.Prelude.{◌≡◌, ◌⊎◌, None, Some, slice_get};
ghost use Rattle.sctp_c.specs.Deadlines.{earlier, in_flight_deadline, least_of, next_timeout, waiting_deadline};
ghost use Rattle.sctp_outbound.specs.pending_queue.PendingQueue.{next_pending};

use super::SctpSender;
use crate::code::{SCTPR_NOTHING, SCTPR_OK};
use sctp_outbound::outbound_queue::OutboundQueue;

// The earlier of two moments, where there are any.
fn earlier(one: Option<u64>, other: Option<u64>) -> Option<u64>
    ensures { result ≡ earlier one other }
{
    match (one, other) {
        (Some(a), Some(b)) => Some(a.min(b)),
        (Some(a), None) => Some(a),
        (None, b) => b,
    }
}

// When the lifetime of the chunk in flight at a place ends, where that matters.
fn deadline_at(queue: &OutboundQueue, place: usize) -> Option<u64>
    ensures { result ≡ in_flight_deadline (slice_get queue.now.inflight.chunks place) }
{
    let chunk = queue.inflight_at(place)?;
    if chunk.abandoned || chunk.acked {
        return None;
    }
    chunk.deadline
}

// When the lifetime of what is next to be sent ends.
fn waiting_deadline(queue: &OutboundQueue) -> Option<u64>
    ensures { result ≡ waiting_deadline (next_pending queue.now.pending) }
{
    let chunk = queue.peek_pending()?;
    if chunk.payload_type.is_dcep() {
        return None;
    }
    chunk.deadline
}

// The first end of a lifetime of what is in flight.
fn first_in_flight(queue: &OutboundQueue) -> Option<u64>
    ensures { result ≡ least_of None queue.now.inflight.chunks }
{
    let mut first = None;
    for place in 0..queue.inflight_len() {
        first = earlier(first, deadline_at(queue, place));
    }
    first
}

/// The next moment at which a lifetime ends, in nanoseconds, once lifetimes are started: of the message that is next to be sent, and of
/// each in flight that is neither acknowledged nor abandoned; never of a DCEP message that waits. `at` becomes that. `SCTPR_NOTHING`: no
/// such lifetime runs, and `at` stays. It looks at each chunk in flight, and takes no memory.
#[unsafe(no_mangle)]
pub extern "C" fn sctpr_sender_next_timeout(sender: &mut SctpSender, at: &mut u64) -> u32
    ensures codes { (result ≡ 0) ⊎ (result ≡ 3) }
    ensures ok { result ≡ 0
        → Some at.new ≡ next_timeout sender.old.value.own.flight.queue }
    ensures none { result ≡ 3 → (at.new ≡ at.old)
        × (next_timeout sender.old.value.own.flight.queue ≡ None) }
    ensures same { sender.new.value ≡ sender.old.value }
{
    let queue = sender.get_mut().own.outbound();
    match earlier(waiting_deadline(queue), first_in_flight(queue)) {
        Some(moment) => {
            *at = moment;
            SCTPR_OK
        }
        None => SCTPR_NOTHING,
    }
}
