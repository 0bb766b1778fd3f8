//! DATA: user data.

ghost use Rattle.std.specs.Prelude.{◌≡◌, Some, IfOk, IsOkUnless};
ghost use Rattle.sctp_data.specs.PayloadData.{payload_type_from, payload_type_number};
ghost use Rattle.sctp_data.specs.Names.{payload_type_name, reliability_name};
ghost use Rattle.sctp_data.specs.PayloadTypes.{is_dcep};
ghost use Rattle.sctp_data.specs.Reliability.{reliability_from};
ghost use Rattle.sctp_util.specs.declared.error.Error.TheVariants.{ErrOutOfMemory};

use bytes::Bytes;
use sctp_util::error::Result;
use sctp_util::util::CT_PAYLOAD_DATA;
use std::fmt;

/// The flag E: the last fragment of a message (RFC 4960 3.3.1).
pub const PAYLOAD_DATA_ENDING_FRAGMENT_BITMASK: u8 = 1;

/// The flag B: the first fragment of a message (RFC 4960 3.3.1).
pub const PAYLOAD_DATA_BEGINING_FRAGMENT_BITMASK: u8 = 2;

/// The flag U: of an unordered message (RFC 4960 3.3.1).
pub const PAYLOAD_DATA_UNORDERED_BITMASK: u8 = 4;

/// The flag I: the receiver is to acknowledge at once (RFC 7053 3).
pub const PAYLOAD_DATA_IMMEDIATE_SACK: u8 = 8;

/// The bytes of the value before the user data: TSN four, stream two, stream sequence number two, payload type four.
pub const PAYLOAD_DATA_HEADER_SIZE: usize = 12;

/// How far the sending of a message is to go (RFC 8832 5.1). A value stands beside
/// it, whose meaning depends on the type.
#[derive(Clone, Copy, Debug, PartialEq, Eq)]
pub enum ReliabilityType {
    /// The message is sent until it is acknowledged; the value means nothing.
    Reliable,
    /// Each chunk is sent again at most so often: the value counts sendings after
    /// the first. The layer above keeps to it.
    Rexmit,
    /// The message is abandoned once it is so old: the value is its lifetime in milliseconds (RFC 3758 4.1).
    Timed,
}

/// What the user data is, as WebRTC data channels say it (RFC 8831 8,
/// RFC 8832 8.1). Any other number is read as `Unknown`, which is written as 58.
#[derive(Clone, Copy, Debug, PartialEq, Eq)]
pub enum PayloadProtocolIdentifier {
    /// A message that establishes a channel. It is always ordered and never abandoned for its age (RFC 8832 6).
    Dcep = 50,
    /// Text in UTF-8.
    String = 51,
    /// Bytes.
    Binary = 53,
    /// An empty text: one byte is sent in its place, since SCTP has no empty messages (RFC 8831 6.6).
    StringEmpty = 56,
    /// No bytes: one is sent in their place (RFC 8831 6.6).
    BinaryEmpty = 57,
    /// Another number.
    Unknown,
}

#[tactic(auto, unfolding(crate::specs::PayloadData::payload_type_number))]
impl PayloadProtocolIdentifier {
    /// The number that is written: 50, 51, 53, 56, 57, or 58 for `Unknown`.
    pub fn number(self) -> u32
        ensures { result ≡ payload_type_number self }
    {
        self as u32
    }

    /// Whether it is the one of messages that establish a channel.
    pub fn is_dcep(self) -> bool
        ensures { result ≡ is_dcep self }
    {
        match self {
            PayloadProtocolIdentifier::Dcep => true,
            _ => false,
        }
    }
}

/// The payload type with a number, `Unknown` where there is none.
#[tactic(auto, unfolding(crate::specs::PayloadData::payload_type_from))]
impl From<u32> for PayloadProtocolIdentifier {
    ghost from_gives = { λ n p. p ≡ payload_type_from n };

    fn from(v: u32) -> PayloadProtocolIdentifier {
        match v {
            50 => PayloadProtocolIdentifier::Dcep,
            51 => PayloadProtocolIdentifier::String,
            53 => PayloadProtocolIdentifier::Binary,
            56 => PayloadProtocolIdentifier::StringEmpty,
            57 => PayloadProtocolIdentifier::BinaryEmpty,
            _ => PayloadProtocolIdentifier::Unknown,
        }
    }
}

/// A fragment of a message (RFC 4960 3.3.1, type 0), and what its sender alone notes of it. The value
/// is 12 bytes, then the user data, at most 65,519 bytes. The flags B and E say which fragment it is:
///
///     | B | E | the fragment is          |
///     |---|---|--------------------------|
///     | 1 | 1 | the complete message     |
///     | 1 | 0 | the first of several     |
///     | 0 | 0 | neither first nor last   |
///     | 0 | 1 | the last of several      |
///
/// The TSNs of a message's fragments follow one another, so that its receiver can tell that none is missing.
/// Refuses another type with `ErrChunkTypeNotPayloadData`, a value of under 12 bytes with `ErrChunkPayloadSmall`.
#[derive(Debug, Drop)]
pub struct ChunkPayloadData {
    /// The flag U: the message is given to the reader as soon as it is complete; its
    /// stream sequence number says nothing.
    pub unordered: bool,
    /// The flag B.
    pub beginning_fragment: bool,
    /// The flag E.
    pub ending_fragment: bool,
    /// The flag I: the receiver is to acknowledge at once (RFC 7053 3).
    pub immediate_sack: bool,

    /// The transmission sequence number. A fragment that waits to be sent has none yet: its 0 means nothing.
    pub tsn: u32,
    /// The stream that the message belongs to.
    pub stream_identifier: u16,
    /// The number of an ordered message on its stream. It begins at 0, and 65,535 is followed by 0 (RFC 4960 6.5).
    pub stream_sequence_number: u16,
    /// What the user data is.
    pub payload_type: PayloadProtocolIdentifier,
    /// The bytes of the message that this fragment carries. A sender clears them
    /// once they are acknowledged or abandoned.
    pub user_data: Bytes,

    /// Whether the peer acknowledged this chunk. Here and below is what only the
    /// sender notes: reading sets none of it.
    pub acked: bool,
    /// How many acknowledgements reported this chunk missing: at the third the
    /// layer above sends it again at once, and need not count on (RFC 4960 7.2.4).
    pub miss_indicator: u8,
    /// Whether the message was abandoned: the chunk is not sent again, and a FORWARD-TSN is to pass it (RFC 3758 3.5).
    pub abandoned: bool,
    /// Whether the chunk is to be sent again, as after the retransmission timer ran out while
    /// it was in flight (RFC 4960 6.3.3). An acknowledgement clears it, and so does abandoning.
    pub retransmit: bool,
    /// How often this chunk was sent.
    pub nsent: u32,

    /// One number for all fragments of a message, by which they are found when it is abandoned.
    pub message_id: u64,
    /// The moment at which the chunk was sent, in nanoseconds, as it was noted
    /// last; None before it was put in flight.
    pub since: Option<u64>,
    /// The moment at which the lifetime of a timed message ends, in nanoseconds;
    /// None before it was started, and where that moment passes the greatest u64.
    pub deadline: Option<u64>,
    /// How far sending is to go, and its value: sendings after the first, or milliseconds. None counts as reliable.
    pub reliability: Option<(ReliabilityType, u32)>,
}

// Fields lie in the order of the source: in this one a chunk takes no more. Queues hold many.
const _: () = prove!(size_of::<ChunkPayloadData>() == 120);

impl fmt::Display for PayloadProtocolIdentifier {
    ghost output = { λ p. Some (payload_type_name p) };

    fn fmt<W: fmt::Write>(&self, f: &mut fmt::Formatter<W>) -> fmt::Result {
        f.write_str(match self {
            PayloadProtocolIdentifier::Dcep => "WebRTC DCEP",
            PayloadProtocolIdentifier::String => "WebRTC String",
            PayloadProtocolIdentifier::Binary => "WebRTC Binary",
            PayloadProtocolIdentifier::StringEmpty => "WebRTC String (Empty)",
            PayloadProtocolIdentifier::BinaryEmpty => "WebRTC Binary (Empty)",
            PayloadProtocolIdentifier::Unknown => "Unknown Payload Protocol Identifier",
        })
    }
}

/// The channel type of a DATA_CHANNEL_OPEN without its highest bit, which says unordered (RFC 8832 5.1): 1 is `Rexmit`,
/// 2 is `Timed`, any other number `Reliable`, and so 0x81 and 0x82: take that bit off before.
impl From<u8> for ReliabilityType {
    ghost from_gives = { λ n r. r ≡ reliability_from n };

    fn from(v: u8) -> ReliabilityType {
        match v {
            1 => ReliabilityType::Rexmit,
            2 => ReliabilityType::Timed,
            _ => ReliabilityType::Reliable,
        }
    }
}

impl fmt::Display for ReliabilityType {
    ghost output = { λ r. Some (reliability_name r) };

    fn fmt<W: fmt::Write>(&self, f: &mut fmt::Formatter<W>) -> fmt::Result {
        f.write_str(match self {
            ReliabilityType::Reliable => "Reliable",
            ReliabilityType::Rexmit => "Rexmit",
            ReliabilityType::Timed => "Timed",
        })
    }
}

impl fmt::Display for ChunkPayloadData {
    fn fmt<W: fmt::Write>(&self, f: &mut fmt::Formatter<W>) -> fmt::Result {
        write!(f, "{}\n{}", CT_PAYLOAD_DATA, self.tsn)
    }
}

impl ChunkPayloadData {
    /// An equal chunk, which shares its user data. Refuses only for memory.
    pub fn try_clone(&self) -> Result<Self>
        ensures ok { IfOk result (λ c. c ≡ self.now) }
        ensures memory { IsOkUnless result ErrOutOfMemory }
    {
        Ok(ChunkPayloadData {
            unordered: self.unordered,
            beginning_fragment: self.beginning_fragment,
            ending_fragment: self.ending_fragment,
            immediate_sack: self.immediate_sack,
            tsn: self.tsn,
            stream_identifier: self.stream_identifier,
            stream_sequence_number: self.stream_sequence_number,
            payload_type: self.payload_type,
            user_data: self.user_data.clone()?,
            acked: self.acked,
            miss_indicator: self.miss_indicator,
            message_id: self.message_id,
            abandoned: self.abandoned,
            since: self.since,
            reliability: self.reliability,
            deadline: self.deadline,
            nsent: self.nsent,
            retransmit: self.retransmit,
        })
    }
}
