//! Short messages from a sender to a receiver: packets of some messages each, and a SACK for each packet.

ghost use Rattle.std.specs.Prelude.{◌≤◌};

use crate::ends::Ends;
use crate::exchange::{HEADER, LIMIT, acknowledges, comes_each};
use crate::reassembly::length_of;
use crate::subject::{CALLS, STREAM};
use bytes::Bytes;
use sctp_chunks::chunk::chunk_payload_data::PayloadProtocolIdentifier;
use sctp_packets::PacketWriter;
use sctp_util::util::Checksum;

/// What a packet has.
#[derive(Clone, Copy)]
pub enum Load {
    /// One message of 100 bytes.
    Short,
    /// Ten messages of 100 bytes.
    Ten,
    /// One message of 1,200 bytes.
    Full,
}

static TEXT: [u8; 1200] = [7; 1200];

/// How many messages a packet has.
pub fn messages_of(load: Load) -> u32
    ensures { result ≤ 10 }
{
    match load {
        Load::Ten => 10,
        Load::Short | Load::Full => 1,
    }
}

/// The message.
pub fn text_of(load: Load) -> Bytes {
    match load {
        Load::Full => Bytes::from_static(&TEXT),
        Load::Short | Load::Ten => Bytes::from_static(&TEXT[..100]),
    }
}

// So many messages are written; whether all were.
fn writes(ends: &mut Ends, messages: u32, text: &Bytes) -> bool {
    for _ in 0..messages {
        let written = ends
            .sender
            .write(STREAM, PayloadProtocolIdentifier::Binary, text);
        if written.is_err() {
            return false;
        }
    }
    true
}

// The next chunk is sent into the packet; whether there was one that fits.
fn puts_next(ends: &mut Ends, writer: &mut PacketWriter) -> bool {
    match ends.sender.send_next(0) {
        Ok(Some(chunk)) => writer.put(&chunk) == Ok(true),
        _ => false,
    }
}

// So many chunks are sent in a packet, and come.
fn sends<C: Checksum>(ends: &mut Ends, writer: &mut PacketWriter, messages: u32, sum: &C) -> bool {
    writer.begin(HEADER);
    for _ in 0..messages {
        if !puts_next(ends, writer) {
            return false;
        }
    }
    writer.seal(sum);
    comes_each(ends, writer, messages, sum)
}

/// So many messages are read; how many bytes.
pub fn reads(ends: &mut Ends, messages: u32) -> usize {
    let mut bytes = 0usize;
    for _ in 0..messages {
        let Ok(message) = ends.receiver.read(STREAM) else {
            return 0;
        };
        bytes = bytes.saturating_add(length_of(message));
    }
    bytes
}

/// One exchange: messages are written, sent, read and acknowledged; how many bytes were read.
pub fn exchanges<C: Checksum>(
    ends: &mut Ends,
    writer: &mut PacketWriter,
    load: Load,
    sum: &C,
) -> usize {
    let messages = messages_of(load);
    if !writes(ends, messages, &text_of(load)) || !sends(ends, writer, messages, sum) {
        return 0;
    }
    let bytes = reads(ends, messages);
    if acknowledges(ends, writer, sum) {
        bytes
    } else {
        0
    }
}

/// Makes `CALLS` exchanges, and gives how many bytes were read.
pub fn everyday<C: Checksum>(ends: &mut Ends, load: Load, sum: &C) -> usize {
    let Ok(mut writer) = PacketWriter::new(ends.alloc, LIMIT) else {
        return 0;
    };
    let mut bytes = 0usize;
    for _ in 0..CALLS {
        bytes = bytes.saturating_add(exchanges(ends, &mut writer, load, sum));
    }
    bytes
}
