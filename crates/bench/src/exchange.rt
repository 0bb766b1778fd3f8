//! Messages of 16 or 64 KiB from a sender to a receiver, each chunk in a packet, and the SACKs back.

use crate::ends::Ends;
use crate::reassembly::length_of;
use crate::stream::{quarter, text};
use crate::subject::{FRAGMENTS, QUARTER_FRAGMENTS, STREAM, Size};
use bytes::Bytes;
use sctp_chunks::chunk::Chunk;
use sctp_chunks::chunk::chunk_kind::ChunkKind;
use sctp_chunks::chunk::chunk_payload_data::PayloadProtocolIdentifier;
use sctp_packets::packet::CommonHeader;
use sctp_packets::{PacketReader, PacketWriter};
use sctp_util::util::Checksum;

/// The header of each packet.
pub const HEADER: CommonHeader = CommonHeader {
    source_port: 5000,
    destination_port: 5001,
    verification_tag: 1,
};

/// How many bytes a packet has at most.
pub const LIMIT: usize = 1_400;

// A chunk comes to the half that it is for; whether it is taken.
fn takes(ends: &mut Ends, chunk: &ChunkKind) -> bool {
    match chunk {
        ChunkKind::PayloadData(chunk) => ends.receiver.data(chunk).is_ok(),
        ChunkKind::SelectiveAck(chunk) => ends.sender.acked(chunk).is_ok(),
        _ => false,
    }
}

// The next chunk of a packet is read; whether there is one and it is taken.
fn takes_next(ends: &mut Ends, chunks: &mut PacketReader) -> bool {
    match chunks.next(ends.alloc) {
        Ok(Some(chunk)) => takes(ends, &chunk),
        _ => false,
    }
}

// A packet of so many chunks comes as its bytes; whether all are taken.
fn comes<C: Checksum>(ends: &mut Ends, raw: &Bytes, count: u32, sum: &C) -> bool {
    let Ok((_, mut chunks)) = PacketReader::open(raw, sum) else {
        return false;
    };
    for _ in 0..count {
        if !takes_next(ends, &mut chunks) {
            return false;
        }
    }
    true
}

/// A sealed packet of so many chunks comes; whether all are taken.
pub fn comes_each<C: Checksum>(
    ends: &mut Ends,
    writer: &PacketWriter,
    count: u32,
    sum: &C,
) -> bool {
    match Bytes::copy_from_slice(ends.alloc, writer.bytes()) {
        Ok(raw) => comes(ends, &raw, count, sum),
        Err(_) => false,
    }
}

// A chunk comes in a packet of its own.
fn arrives<K: Chunk, C: Checksum>(
    ends: &mut Ends,
    writer: &mut PacketWriter,
    chunk: &K,
    sum: &C,
) -> bool {
    writer.begin(HEADER);
    if writer.put(chunk) != Ok(true) {
        return false;
    }
    writer.seal(sum);
    comes_each(ends, writer, 1, sum)
}

/// The next fragment is sent, and comes.
pub fn sends<C: Checksum>(ends: &mut Ends, writer: &mut PacketWriter, sum: &C) -> bool {
    match ends.sender.send_next(0) {
        Ok(Some(chunk)) => arrives(ends, writer, &chunk, sum),
        _ => false,
    }
}

/// What came is acknowledged, and the SACK comes.
pub fn acknowledges<C: Checksum>(ends: &mut Ends, writer: &mut PacketWriter, sum: &C) -> bool {
    match ends.receiver.sack(LIMIT) {
        Ok(sack) => arrives(ends, writer, &sack, sum),
        Err(_) => false,
    }
}

// The message, and how many fragments it has.
fn message_of(size: Size) -> (Bytes, u16) {
    match size {
        Size::Kib16 => (quarter(), QUARTER_FRAGMENTS),
        Size::Kib64 => (text(), FRAGMENTS),
    }
}

// Writes a message, carries it over, acknowledges every second packet and the last, and gives how many bytes were read.
fn carries<C: Checksum>(ends: &mut Ends, writer: &mut PacketWriter, size: Size, sum: &C) -> usize {
    let (message, fragments) = message_of(size);
    let written = ends
        .sender
        .write(STREAM, PayloadProtocolIdentifier::Binary, &message);
    if written.is_err() {
        return 0;
    }
    for place in 0..fragments {
        let is_acknowledged = fragments.wrapping_sub(place) % 2 == 1;
        if !sends(ends, writer, sum) || is_acknowledged && !acknowledges(ends, writer, sum) {
            return 0;
        }
    }
    match ends.receiver.read(STREAM) {
        Ok(message) => length_of(message),
        Err(_) => 0,
    }
}

/// Carries so many messages over, one after another, and gives how many bytes were read.
pub fn exchange<C: Checksum>(ends: &mut Ends, size: Size, count: u32, sum: &C) -> usize {
    let Ok(mut writer) = PacketWriter::new(ends.alloc, LIMIT) else {
        return 0;
    };
    let mut bytes = 0usize;
    for _ in 0..count {
        bytes = bytes.saturating_add(carries(ends, &mut writer, size, sum));
    }
    bytes
}
