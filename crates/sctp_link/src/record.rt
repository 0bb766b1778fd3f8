//! What a link keeps of messages, slots and datagrams.

use bytes::Bytes;
use sctp_chunks::chunk::chunk_payload_data::{PayloadProtocolIdentifier, ReliabilityType};
use sctp_chunks::chunk::chunk_selective_ack::GapAckBlock;

/// An accepted write of at least one byte. Its number is its place.
#[derive(Drop)]
pub struct Message {
    pub stream: u16,
    pub ordered: bool,
    pub ppi: PayloadProtocolIdentifier,
    pub bytes: Bytes,
    /// How far its sending goes.
    pub reliability: ReliabilityType,
    /// The value beside it: sendings after the first, or its lifetime in milliseconds.
    pub value: u32,
    /// How many ordered messages of its stream were written before it and had not expired then.
    pub before: u64,
    /// The index of an ordered one of which some was sent: how many of its stream were begun before it.
    pub index: u64,
    /// The moment from which its lifetime counts, in nanoseconds.
    pub started: Option<u64>,
    pub expired: bool,
    pub abandoned: bool,
    pub read: bool,
    /// How many of its fragments have slots: the first ones.
    pub sent: u64,
}

/// What is recorded of an accepted write: how its message is sent.
#[derive(Clone, Copy, Drop)]
pub struct Written {
    /// Whether its message is ordered (RFC 8832 6).
    pub ordered: bool,
    /// How far its sending goes.
    pub reliability: ReliabilityType,
    /// The value beside it: sendings after the first, or its lifetime in milliseconds.
    pub value: u32,
    /// How many ordered messages of its stream were written before it and had not expired then.
    pub before: u64,
}

/// A TSN that was given out to a fragment of a message, or to the terminal chunk of an abandoned one (RFC 4960 3.3.1).
/// The first has place 0.
#[derive(Clone, Copy, Drop)]
pub struct Slot {
    /// The number of the message.
    pub message: u64,
    /// The number of the fragment in its message, from 0.
    pub fragment: u64,
    /// Whether it is a terminal chunk, which has no fragment.
    pub is_terminal_chunk: bool,
    pub arrived: bool,
    pub acknowledged: bool,
}

/// What a datagram says, in places of slots.
#[derive(Drop)]
pub enum Kind {
    /// The DATA chunks of slots, in their order.
    Data {
        places: Vec<u64>,
    },
    /// A FORWARD-TSN up to a slot that names messages (RFC 3758 3.2).
    Forward {
        upto: u64,
        messages: Vec<u64>,
    },
    /// A SACK: how many slots it reports cumulatively, the credit, the gap blocks and the duplicates
    /// (RFC 4960 3.3.4).
    Sack {
        cumulative: u64,
        credit: u32,
        blocks: Vec<GapAckBlock>,
        duplicates: Vec<u64>,
    },
}

/// A datagram in the network.
#[derive(Drop)]
pub struct Datagram {
    pub kind: Kind,
    pub bytes: Bytes,
}
