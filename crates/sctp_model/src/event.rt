//! What is asked of a link, and why it refuses.

use bytes::Bytes;
use sctp_data::chunk::chunk_payload_data::{PayloadProtocolIdentifier, ReliabilityType};

/// What is asked of a link.
#[derive(Drop)]
pub enum Event {
    /// Opens a stream, ordered and reliable.
    Open {
        stream: u16,
    },
    /// Sets how later messages of a stream are sent; a DCEP message is always ordered, and has no lifetime (RFC 8832 6). `value`
    /// counts the sendings of a chunk after the first (`Rexmit`; a link does not keep to it), or is a lifetime in milliseconds
    /// (`Timed`), or means nothing (`Reliable`).
    Mode {
        stream: u16,
        unordered: bool,
        reliability: ReliabilityType,
        value: u32,
    },
    /// Writes a message; an empty one adds nothing.
    Write {
        stream: u16,
        ppi: PayloadProtocolIdentifier,
        bytes: Bytes,
    },
    /// Starts the lifetimes of messages; `now` is in nanoseconds, here and below.
    Start {
        now: u64,
    },
    /// Starts lifetimes, and sends pending fragments in one datagram.
    Send {
        now: u64,
    },
    /// Sends the chunk of a TSN again.
    Resend {
        tsn: u32,
    },
    /// Removes the front message where it is unsent and its lifetime is over.
    Expire {
        now: u64,
    },
    /// Abandons the front message where it is partially sent and its lifetime is over.
    Tail {
        now: u64,
    },
    /// Abandons the messages in flight whose lifetime is over.
    Late {
        now: u64,
    },
    /// Abandons the message of a TSN in flight.
    Abandon {
        tsn: u32,
    },
    /// Makes a FORWARD-TSN up to a TSN, which names messages by their numbers (RFC 3758 3.2).
    Skip {
        upto: u32,
        messages: Vec<u64>,
    },
    /// Makes a SACK with this credit, in bytes (RFC 4960 3.3.4).
    Ack {
        credit: u32,
    },
    /// Datagram `k` comes to the receiver.
    Arrive {
        k: u64,
    },
    /// Datagram `k` comes to the sender.
    Acked {
        k: u64,
    },
    /// Reads the next message of a stream.
    Read {
        stream: u16,
    },
}

/// Why a link refuses an event.
#[derive(Clone, Copy, Debug, PartialEq, Eq)]
pub enum LinkRefusal {
    /// The stream is not open.
    StreamUnknown,
    /// The stream is open already.
    StreamOpen,
    /// The message is longer than the greatest one.
    MessageTooLarge,
    /// 2^31 fragments would have been accepted in all.
    TsnsUsedUp,
    /// There is no such datagram, or it is of another kind.
    NoSuchDatagram,
    /// The TSN is not in flight; to send it again it must be neither acknowledged nor of an abandoned message.
    NotInFlight,
    /// The TSN was not given out.
    SkipUnassigned,
    /// A name is no ordered message, or one of which a fragment still waits and that was not abandoned, or that expired, or that has
    /// a TSN past this one; or there are more than 16,381 names.
    SkipNames,
    /// Stream sequence numbers could not be told apart (RFC 4960 6.5).
    SpanTooWide,
    /// Memory was refused; nothing is changed.
    OutOfMemory,
}
