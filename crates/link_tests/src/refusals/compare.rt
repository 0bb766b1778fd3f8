//! Whether two links are alike: their amounts, their datagrams and the queues that they lend.

use super::turn::Zero;
use sctp_link::link::Link;
use sctp_queues::outbound_queue::OutboundQueue;
use sctp_queues::reassembly_queue::ReassemblyQueue;

// More datagrams than the script makes.
const DATAGRAMS: u64 = 64;

/// What differs between two links, None where they are alike.
pub fn difference(link: &Link<Zero>, twin: &Link<Zero>) -> Option<&'static str> {
    if link.ledger() != twin.ledger() {
        return Some("the ledger");
    }
    if !are_streams_alike(link, twin) {
        return Some("an amount, a counter or a reassembly queue");
    }
    if !are_datagrams_alike(link, twin) {
        return Some("a datagram");
    }
    if !is_outbound_alike(link.outbound(), twin.outbound()) {
        return Some("the outbound queue");
    }
    let (filter, other) = (link.filter(), twin.filter());
    if filter.len() != other.len()
        || filter.tsn_at(0) != other.tsn_at(0)
        || filter.duplicates() != other.duplicates()
    {
        return Some("the filter");
    }
    None
}

fn are_streams_alike(link: &Link<Zero>, twin: &Link<Zero>) -> bool {
    let mut alike = true;
    for stream in [1u16, 2] {
        alike = alike
            && link.buffered_amount(stream) == twin.buffered_amount(stream)
            && link.stats(stream) == twin.stats(stream)
            && is_reassembly_alike(link.reassembly(stream), twin.reassembly(stream));
    }
    alike
}

fn is_reassembly_alike(queue: Option<&ReassemblyQueue>, other: Option<&ReassemblyQueue>) -> bool {
    match (queue, other) {
        (Some(queue), Some(other)) => {
            queue.next_ssn() == other.next_ssn()
                && queue.get_num_bytes() == other.get_num_bytes()
                && queue.ordered().len() == other.ordered().len()
                && queue.unordered().len() == other.unordered().len()
                && queue.unordered_chunks().len() == other.unordered_chunks().len()
                && queue.is_readable() == other.is_readable()
        }
        (None, None) => true,
        _ => false,
    }
}

fn are_datagrams_alike(link: &Link<Zero>, twin: &Link<Zero>) -> bool {
    for k in 0..DATAGRAMS {
        match (link.datagram(k), twin.datagram(k)) {
            (Some(bytes), Some(others)) => {
                if bytes.as_slice() != others.as_slice() {
                    return false;
                }
            }
            (None, None) => return true,
            _ => return false,
        }
    }
    false
}

fn is_outbound_alike(queue: &OutboundQueue, other: &OutboundQueue) -> bool {
    queue.next_message_id() == other.next_message_id()
        && queue.pending_len() == other.pending_len()
        && queue.pending_bytes() == other.pending_bytes()
        && queue.inflight_len() == other.inflight_len()
        && queue.inflight_bytes() == other.inflight_bytes()
        && queue.earliest_outstanding_tsn() == other.earliest_outstanding_tsn()
}
