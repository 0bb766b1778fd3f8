//! Messages that open data channels, and the sides that send them.

use crate::channels::accept;
use crate::log::{check, check_bytes, check_number};
use bytes::{Bytes, BytesMut};
use sctp_data::ReliabilityType;
use sctp_dcep::{Fault, Message, Open, Side};
use std::alloc::Global;

// Whether a channel is unordered, how far sending goes, the parameter, and the priority.
type Kind = (bool, ReliabilityType, u32, u16);

// A request, its kind, label and protocol. The first one is as aiortc 1.4.0 wrote it. Behind it stands one of each other channel type, of
// priority 256 and with a parameter of 500, by hand.
const REQUESTS: [(&[u8], Kind, &[u8], &[u8]); 6] = [
    (
        b"\x03\x00\x00\x00\x00\x00\x00\x00\x00\x04\x00\x03chatbob",
        (false, ReliabilityType::Reliable, 0, 0),
        b"chat",
        b"bob",
    ),
    (
        b"\x03\x80\x01\x00\x00\x00\x00\x00\x00\x00\x00\x00",
        (true, ReliabilityType::Reliable, 0, 256),
        b"",
        b"",
    ),
    (
        b"\x03\x01\x01\x00\x00\x00\x01\xf4\x00\x01\x00\x00a",
        (false, ReliabilityType::Rexmit, 500, 256),
        b"a",
        b"",
    ),
    (
        b"\x03\x81\x01\x00\x00\x00\x01\xf4\x00\x00\x00\x01b",
        (true, ReliabilityType::Rexmit, 500, 256),
        b"",
        b"b",
    ),
    (
        b"\x03\x02\x01\x00\x00\x00\x01\xf4\x00\x01\x00\x00a",
        (false, ReliabilityType::Timed, 500, 256),
        b"a",
        b"",
    ),
    (
        b"\x03\x82\x01\x00\x00\x00\x01\xf4\x00\x00\x00\x01b",
        (true, ReliabilityType::Timed, 500, 256),
        b"",
        b"b",
    ),
];

// Whether the request has this kind, label and protocol.
fn is_so(open: &Open, kind: Kind, label: &[u8], protocol: &[u8]) -> bool {
    (open.unordered, open.reliability, open.value, open.priority) == kind
        && open.label.as_slice() == label
        && open.protocol.as_slice() == protocol
}

// Whether these bytes are read as such a request, and written again as they stood.
fn is_read_so(
    alloc: Global,
    raw: &'static [u8],
    kind: Kind,
    label: &[u8],
    protocol: &[u8],
) -> Result<bool, Fault> {
    let Some((open, _)) = accept(alloc, &Bytes::from_static(raw))? else {
        return Ok(false);
    };
    let same = is_so(&open, kind, label, protocol);
    Ok(same && Message::Open(open).write(alloc)?.as_slice() == raw)
}

fn channel_requests(alloc: Global, log: &mut Vec<u8>) {
    for (raw, kind, label, protocol) in REQUESTS {
        let holds = is_read_so(alloc, raw, kind, label, protocol) == Ok(true);
        check_bytes(log, holds, "a request for a channel", raw);
    }
}

// What each is refused for, if it is; bytes behind an acknowledgement are none.
const REFUSALS: [(&[u8], Option<Fault>); 7] = [
    (b"\x02", None),
    (b"\x02\x00\x00\x00", None),
    (b"", Some(Fault::Empty)),
    (b"\x01", Some(Fault::UnknownMessageType)),
    (
        b"\x03\x00\x00\x00\x00\x00\x00\x00\x00\x00\x00",
        Some(Fault::TooShort),
    ),
    (
        b"\x03\x03\x00\x00\x00\x00\x00\x00\x00\x00\x00\x00",
        Some(Fault::UnknownChannelType),
    ),
    (
        b"\x03\x00\x00\x00\x00\x00\x00\x00\x00\x01\x00\x00ab",
        Some(Fault::WrongLength),
    ),
];

fn message_refusals(log: &mut Vec<u8>) {
    for (raw, fault) in REFUSALS {
        let holds = Message::read(&Bytes::from_static(raw)).err() == fault;
        check_bytes(log, holds, "a refusal of a message", raw);
    }
}

// Bytes of a label, bytes of a protocol, and what they are not written for, if they are not.
const LENGTHS: [(usize, usize, Option<Fault>); 3] = [
    (65_535, 65_535, None),
    (65_536, 65_536, Some(Fault::LabelTooLong)),
    (0, 65_536, Some(Fault::ProtocolTooLong)),
];

fn request_of(alloc: Global, label: usize, protocol: usize) -> Result<Open, Fault> {
    Ok(Open {
        unordered: false,
        reliability: ReliabilityType::Reliable,
        value: 0,
        priority: 0,
        label: BytesMut::zeroed(alloc, label)?.freeze()?,
        protocol: BytesMut::zeroed(alloc, protocol)?.freeze()?,
    })
}

// What a request is not written for, if it is not.
fn write_refusal(alloc: Global, label: usize, protocol: usize) -> Result<Option<Fault>, Fault> {
    let open = request_of(alloc, label, protocol)?;
    Ok(Message::Open(open).write(alloc).err())
}

fn label_lengths(alloc: Global, log: &mut Vec<u8>) {
    for (label, protocol, fault) in LENGTHS {
        let holds = write_refusal(alloc, label, protocol) == Ok(fault);
        check_number(log, holds, "bytes of a label", label);
    }
}

// The client takes 0, 2, .., the server 1, 3, ..; the last of all is 65,534.
fn sides() -> bool {
    Side::next(Side::Client.first()) == Some(2)
        && Side::next(Side::Server.first()) == Some(3)
        && Side::next(65_532) == Some(65_534)
        && Side::next(65_533).is_none()
        && Side::Client.is_ours(65_534)
        && !Side::Server.is_ours(65_534)
}

/// What does not hold of messages that open channels.
pub fn all(alloc: Global, log: &mut Vec<u8>) {
    channel_requests(alloc, log);
    message_refusals(log);
    label_lengths(alloc, log);
    check(log, sides(), "sides");
}
