//! What is asked of a link, what it answers, and why it refuses.

use sctp_chunks::chunk::chunk_payload_data::PayloadProtocolIdentifier;
pub use sctp_model::event::{Event, LinkRefusal};
use sctp_queues::chunks::Chunks;

/// What a link answers to an accepted event.
#[derive(Drop)]
pub enum Reply {
    /// The stream is open.
    Opened,
    /// The mode is set.
    Set,
    /// A write's number, None where it was empty, and its count of fragments.
    Wrote {
        number: Option<u64>,
        fragments: u64,
    },
    /// Lifetimes are started.
    Started,
    /// The datagram's number, the TSN and the stream sequence number of its first chunk, and how many chunks it has.
    Sent {
        datagram: u64,
        tsn: u32,
        ssn: u16,
        count: u64,
    },
    /// There was nothing to send, or, to an Expire or a Tail, no message in front that is past its deadline.
    Idle,
    /// The number of the datagram that the chunk was sent again in.
    Resent {
        datagram: u64,
    },
    /// The stream of the message that expired, and how many bytes left.
    Expired {
        stream: u16,
        bytes: u64,
    },
    /// The stream of the message that was abandoned, and how many bytes left.
    Released {
        stream: u16,
        bytes: u64,
    },
    /// How many TSNs were late, and how many bytes left with their messages.
    Late {
        listed: u64,
        bytes: u64,
    },
    /// The FORWARD-TSN's number.
    Skip {
        datagram: u64,
    },
    /// The SACK's number.
    Ack {
        datagram: u64,
    },
    /// Of the DATA chunks of the datagram one at least is new: its TSN did not arrive before, and was not skipped.
    New,
    /// None of the DATA chunks of the datagram is new: the TSN of each arrived before, or was skipped.
    Repeat,
    /// The FORWARD-TSN was past what had come, and was followed.
    Skipped,
    /// The FORWARD-TSN was not past what had come, and changed nothing.
    Stale,
    /// How many bytes left what is in flight.
    Acked {
        bytes: u64,
    },
    /// A complete message.
    Message {
        stream: u16,
        ppi: PayloadProtocolIdentifier,
        chunks: Chunks,
    },
    /// There was nothing to read.
    Nothing,
}
