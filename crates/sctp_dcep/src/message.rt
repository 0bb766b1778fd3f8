//! The messages DATA_CHANNEL_OPEN and DATA_CHANNEL_ACK (RFC 8832 5).

ghost use Rattle.std.specs.Prelude.{◌≡◌, ◌+◌, ◌≤◌, ◌<◌, ◌⊎◌, length, IfOk, IfErr, OnOk, None};
ghost use Rattle.sctp_dcep.specs.declared.fault.Fault.TheVariants.{OutOfMemory};
ghost use Rattle.sctp_dcep.specs.Message.{FitsFields, as_read, channel_type, encoding, open_encoding, parameter_of, read_of, read_open_of, write_refusal};

use crate::fault::Fault;
use bytes::{Bytes, BytesMut};
use sctp_data::ReliabilityType;
use sctp_util::field::{put_u16, put_u32, read_u16, read_u32};
use std::alloc::Global;

/// The type of a DATA_CHANNEL_ACK (RFC 8832 8.2.1).
const ACK: u8 = 2;

/// The type of a DATA_CHANNEL_OPEN (RFC 8832 8.2.1).
const OPEN: u8 = 3;

/// The bit of a channel type that says unordered (RFC 8832 5.1).
const UNORDERED: u8 = 0x80;

/// The bytes of a DATA_CHANNEL_OPEN before its label: type, channel type, priority two, reliability parameter four, two lengths of two each.
const OPEN_HEADER: usize = 12;

/// The most bytes of a label or a protocol: two bytes say how many there are.
const MOST: usize = 65_535;

/// A request for a data channel (RFC 8832 5.1).
#[derive(Debug, Drop)]
pub struct Open {
    /// Whether messages are delivered without regard to their order.
    pub unordered: bool,
    /// How far the sending of a message goes.
    pub reliability: ReliabilityType,
    /// The reliability parameter: how often a message is sent again, or its lifetime in milliseconds. Of a reliable channel it is
    /// written as 0, and read as 0.
    pub value: u32,
    /// The priority of the channel (RFC 8831 6.4).
    pub priority: u16,
    /// The name of the channel, in UTF-8, which is not tested here. It may be empty, and several channels may have it.
    pub label: Bytes,
    /// The name of the protocol that the channel carries, in UTF-8; none where it is empty.
    pub protocol: Bytes,
}

/// A message. It is sent in order and reliably, with payload type 50 (RFC 8832 6).
#[derive(Debug, Drop)]
pub enum Message {
    /// DATA_CHANNEL_ACK: the request for the channel arrived (RFC 8832 5.2).
    Ack,
    /// DATA_CHANNEL_OPEN: the request (RFC 8832 5.1).
    Open(Open),
}

impl Message {
    /// Reads a message, whose label and protocol share its bytes. Refuses with `Empty`, `UnknownMessageType`, `TooShort`,
    /// `UnknownChannelType` or `WrongLength`, the first that fits; or for memory, where it is a DATA_CHANNEL_OPEN.
    pub fn read(raw: &Bytes) -> Result<Message, Fault>
        ensures exact { (result ≡ read_of raw.now) ⊎ (result ≡ Err OutOfMemory) }
        ensures memory { result ≡ Err OutOfMemory
            → (o : Open) × (read_of raw.now ≡ Ok (Message.Open o)) }
        // It can be written, and is read again as it is.
        ensures again { IfOk result (λ m. (write_refusal m ≡ None) × (as_read m ≡ m)) }
    {
        let bytes = raw.as_slice();
        if bytes.is_empty() {
            return Err(Fault::Empty);
        }
        match bytes[0] {
            ACK => Ok(Message::Ack),
            OPEN => Ok(Message::Open(read_open(raw)?)),
            _ => Err(Fault::UnknownMessageType),
        }
    }

    /// The message as bytes. Refuses with `LabelTooLong` or `ProtocolTooLong`, the first that fits; or for memory.
    pub fn write(&self, alloc: Global) -> Result<Bytes, Fault>
        ensures ok { IfOk result
            (λ bytes. (write_refusal self.now ≡ None) × (bytes ≡ encoding self.now)) }
        // It is read again as that message.
        ensures again { IfOk result (λ bytes. read_of bytes ≡ Ok (as_read self.now)) }
        ensures refused { IfErr result (λ fault. (write_refusal self.now ≡ Some fault)
            ⊎ ((write_refusal self.now ≡ None) × (fault ≡ OutOfMemory))) }
    {
        match self {
            Message::Ack => Ok(Bytes::copy_from_slice(alloc, &[ACK])?),
            Message::Open(request) => write_open(alloc, request),
        }
    }
}

// Reads a DATA_CHANNEL_OPEN whose type was read.
fn read_open(raw: &Bytes) -> Result<Open, Fault>
    ensures { (result ≡ read_open_of raw.now)
        ⊎ ((result ≡ Err OutOfMemory) × ((o : Open) × (read_open_of raw.now ≡ Ok o))) }
{
    let bytes = raw.as_slice();
    if bytes.len() < OPEN_HEADER {
        return Err(Fault::TooShort);
    }
    let typ = bytes[1];
    if typ % UNORDERED > 2 {
        return Err(Fault::UnknownChannelType);
    }
    let label_end = OPEN_HEADER + read_u16(bytes, 8) as usize;
    let end = label_end + read_u16(bytes, 10) as usize;
    if bytes.len() != end {
        return Err(Fault::WrongLength);
    }
    let reliability = ReliabilityType::from(typ % UNORDERED);
    Ok(Open {
        unordered: typ >= UNORDERED,
        reliability,
        value: parameter(reliability, read_u32(bytes, 4)),
        priority: read_u16(bytes, 2),
        label: raw.slice(OPEN_HEADER..label_end)?,
        protocol: raw.slice(label_end..end)?,
    })
}

// The reliability parameter, 0 of a reliable channel.
fn parameter(reliability: ReliabilityType, value: u32) -> u32
    ensures { result ≡ parameter_of reliability value }
{
    match reliability {
        ReliabilityType::Reliable => 0,
        _ => value,
    }
}

// The channel type.
fn channel_type(unordered: bool, reliability: ReliabilityType) -> u8
    ensures { result ≡ channel_type unordered reliability }
{
    let kind = match reliability {
        ReliabilityType::Reliable => 0,
        ReliabilityType::Rexmit => 1,
        ReliabilityType::Timed => 2,
    };
    if unordered { kind + UNORDERED } else { kind }
}

// A DATA_CHANNEL_OPEN as bytes.
#[tactic(auto, unfolding(crate::specs::Message::open_encoding))]
fn write_open(alloc: Global, request: &Open) -> Result<Bytes, Fault>
    ensures ok { IfOk result (λ bytes. (write_refusal (Message.Open request.now) ≡ None)
        × (bytes ≡ open_encoding request.now)) }
    ensures fits { OnOk result (FitsFields request.now) }
    ensures refused { IfErr result (λ fault. (write_refusal (Message.Open request.now) ≡ Some fault)
        ⊎ ((write_refusal (Message.Open request.now) ≡ None) × (fault ≡ OutOfMemory))) }
{
    if request.label.len() > MOST {
        return Err(Fault::LabelTooLong);
    }
    if request.protocol.len() > MOST {
        return Err(Fault::ProtocolTooLong);
    }
    let len = OPEN_HEADER + request.label.len() + request.protocol.len();
    let mut buf = BytesMut::with_capacity(alloc, len)?;
    buf.extend_reserved(&[OPEN, channel_type(request.unordered, request.reliability)]);
    put_u16(&mut buf, request.priority);
    put_u32(&mut buf, parameter(request.reliability, request.value));
    put_u16(&mut buf, request.label.len() as u16);
    put_u16(&mut buf, request.protocol.len() as u16);
    buf.extend_reserved(&request.label);
    buf.extend_reserved(&request.protocol);
    Ok(buf.freeze()?)
}
