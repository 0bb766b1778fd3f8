use crate::kind_tests::is_printed;
use crate::log::{check, check_bytes};
use crate::tests::{Answer, ZERO, is_encoding, packet_bytes, read_chunks};
use bytes::Bytes;
use sctp_packets::checksum::Crc32c;
use sctp_packets::packet::{CommonHeader, Packet, PartialDecode};
use sctp_packets::{PacketReader, PacketWriter};
use sctp_util::error::Error;
use sctp_util::util::{CT_COOKIE_ACK, CT_COOKIE_ECHO, CT_INIT, CT_INIT_ACK, Checksum, ChunkType};
use std::alloc::Global;

// Recorded packets: the type of the first chunk, its initiate tag, and how the chunk prints: each field, each parameter.
const VECTORS: [(&[u8], ChunkType, u32, &str); 3] = [
    (
        b"\x13\x88\x13\x88\0\0\0\0\x81\x46\x9d\xfc\x01\0\0\x56\x55\xb9\x64\xa5\0\x02\0\0\x04\0\x08\0\xe8\x6d\x10\x30\xc0\0\0\x04\x80\x08\0\x09\xc0\x0f\xc1\x80\x82\0\0\0\x80\x02\0\x24\x9f\xeb\xbb\x5c\x50\xc9\xbf\x75\x9c\xb1\x2c\x57\x4f\xa4\x5a\x51\xba\x60\x17\x78\x27\x94\x5c\x31\xe6\x5d\x5b\x09\x47\xe2\x22\x06\x80\x04\0\x06\0\x01\0\0\x80\x03\0\x06\x80\xc1\0\0",
        CT_INIT,
        1438213285,
        "INIT is_ack: false
            initiate_tag: 1438213285
            advertised_receiver_window_credit: 131072
            num_outbound_streams: 1024
            num_inbound_streams: 2048
            initial_tsn: 3899461680Param 0:
 Forward TSN supportedParam 1:
 Supported Extensions FORWARD-TSN Unknown ChunkType: 15 Unknown ChunkType: 193 Unknown ChunkType: 128 RECONFIGParam 2:
 Random b\"\\x9f\\xeb\\xbb\\\\P\\xc9\\xbfu\\x9c\\xb1,WO\\xa4ZQ\\xba`\\x17x'\\x94\\\\1\\xe6][\\tG\\xe2\\\"\\x06\"Param 3:
 Requested HMAC Algorithm Parameter HMAC SHA-128Param 4:
 Chunk List Unknown ChunkType: 128 Unknown ChunkType: 193;",
    ),
    (
        b"\x13\x88\x13\x88\xce\x15\x79\xa2\x96\x19\xe8\xb2\x02\0\0\x1c\xeb\x81\x4e\x01\0\0\0\0\x04\0\x08\0\x50\xdf\x90\xd9\0\x07\0\x08\x94\x06\x2f\x93",
        CT_INIT_ACK,
        3951119873,
        "INIT-ACK is_ack: true
            initiate_tag: 3951119873
            advertised_receiver_window_credit: 0
            num_outbound_streams: 1024
            num_inbound_streams: 2048
            initial_tsn: 1356828889Param 0:
 State Cookie: b\"\\x94\\x06/\\x93\";",
    ),
    (
        b"\x13\x88\x13\x88\0\0\0\0\x92\x57\x55\xc7\x01\0\0\x20\x12\x34\x56\x78\0\x02\0\0\x04\0\x04\0\0\0\0\x01\x80\x08\0\x08\x82\xc0\x40\xc2\xc0\0\0\x04",
        CT_INIT,
        305419896,
        "INIT is_ack: false
            initiate_tag: 305419896
            advertised_receiver_window_credit: 131072
            num_outbound_streams: 1024
            num_inbound_streams: 1024
            initial_tsn: 1Param 0:
 Supported Extensions RECONFIG FORWARD-TSN Unknown ChunkType: 64 I-FORWARD-TSNParam 1:
 Forward TSN supported;",
    ),
];

// A checksum that answers the packet's own field.
fn field_of(raw: &[u8]) -> Answer {
    match raw {
        [_, _, _, _, _, _, _, _, a, b, c, d, ..] => Answer(u32::from_le_bytes([*a, *b, *c, *d])),
        _ => ZERO,
    }
}

fn partial<C: Checksum>(alloc: Global, raw: &[u8], checksum: &C) -> Result<PartialDecode, Error> {
    let raw = Bytes::copy_from_slice(alloc, raw)?;
    let read = PartialDecode::unmarshal(alloc, &raw, checksum);
    drop(raw);
    read
}

fn finished<C: Checksum>(alloc: Global, raw: &[u8], checksum: &C) -> Result<Packet, Error> {
    partial(alloc, raw, checksum)?.finish(alloc)
}

fn whole<C: Checksum>(alloc: Global, raw: &[u8], checksum: &C) -> Result<Packet, Error> {
    let raw = Bytes::copy_from_slice(alloc, raw)?;
    let read = Packet::unmarshal(alloc, &raw, checksum);
    drop(raw);
    read
}

// What the first chunk's header tells.
fn told(alloc: Global, raw: &[u8]) -> Result<(ChunkType, Option<u32>), Error> {
    let decode = partial(alloc, raw, &Crc32c)?;
    let told = (decode.first_chunk_type, decode.initiate_tag);
    drop(decode);
    Ok(told)
}

// Whether the packet is an allowed one, prints so, and is written as these bytes.
fn is_recorded(alloc: Global, read: Result<Packet, Error>, raw: &[u8], printed: &str) -> bool {
    match read {
        Ok(packet) => {
            let well = packet.check_packet().is_ok()
                && is_printed(alloc, &packet, printed)
                && is_encoding(packet.marshal(alloc, &Crc32c), raw);
            drop(packet);
            well
        }
        Err(_) => false,
    }
}

// Whether the next chunk is read, where there is one, and written, where it fits.
fn is_put(alloc: Global, chunks: &mut PacketReader, writer: &mut PacketWriter) -> bool {
    match chunks.next(alloc) {
        Ok(Some(chunk)) => {
            let is_written = writer.put(&chunk).is_ok();
            drop(chunk);
            is_written
        }
        Ok(None) => true,
        Err(_) => false,
    }
}

// Whether each chunk is read and written so.
fn are_put(
    alloc: Global,
    chunks: &mut PacketReader,
    writer: &mut PacketWriter,
    most: usize,
) -> bool {
    let mut well = true;
    for _ in 0..most {
        well = well && is_put(alloc, chunks, writer);
    }
    well
}

// Whether the packet, read chunk by chunk and written so, has so many bytes then, and is the recorded one or not.
fn is_rewritten(alloc: Global, raw: &Bytes, writer: &mut PacketWriter, due: (usize, bool)) -> bool {
    match PacketReader::open(raw, &Crc32c) {
        Ok((header, mut chunks)) => {
            writer.begin(header);
            let well = are_put(alloc, &mut chunks, writer, raw.len());
            drop(chunks);
            writer.seal(&Crc32c);
            let written = writer.bytes();
            well && written.len() == due.0 && (written == raw.as_slice()) == due.1
        }
        Err(_) => false,
    }
}

// Whether that is so of a writer of so many bytes.
fn rewrites(alloc: Global, raw: &'static [u8], limit: usize, due: (usize, bool)) -> bool {
    match PacketWriter::new(alloc, limit) {
        Ok(mut writer) => {
            let raw = Bytes::from_static(raw);
            let well = is_rewritten(alloc, &raw, &mut writer, due);
            drop(raw);
            drop(writer);
            well
        }
        Err(_) => false,
    }
}

fn vectors(alloc: Global, log: &mut Vec<u8>) {
    for (raw, typ, tag, printed) in VECTORS {
        let holds = told(alloc, raw) == Ok((typ, Some(tag)));
        check_bytes(log, holds, "what a recorded packet tells", raw);
        let holds = is_recorded(alloc, whole(alloc, raw, &Crc32c), raw, printed)
            && is_recorded(alloc, finished(alloc, raw, &Crc32c), raw, printed);
        check_bytes(log, holds, "a recorded packet", raw);
        let holds = rewrites(alloc, raw, raw.len(), (raw.len(), true))
            && rewrites(alloc, raw, raw.len().saturating_sub(1), (12, false));
        check_bytes(log, holds, "a recorded packet, chunk by chunk", raw);
    }
}

// How a front of a recorded packet is refused: by Packet::unmarshal, and by PartialDecode or its finish.
fn refusals_of_front(length: usize, cut_padding: bool) -> (Option<Error>, Option<Error>) {
    let short = Some(Error::ErrParseSctpChunkNotEnoughData);
    match length {
        0..12 => (
            Some(Error::ErrPacketRawTooSmall),
            Some(Error::ErrPacketRawTooSmall),
        ),
        12 => (None, short),
        13..16 => (short, short),
        _ if cut_padding => (short, short),
        _ => (
            Some(Error::ErrChunkHeaderNotEnoughSpace),
            Some(Error::ErrChunkHeaderNotEnoughSpace),
        ),
    }
}

// How these bytes are refused: by Packet::unmarshal, and by PartialDecode or its finish.
fn refusals_of(alloc: Global, raw: &[u8]) -> (Option<Error>, Option<Error>) {
    let field = field_of(raw);
    (
        whole(alloc, raw, &field).err(),
        finished(alloc, raw, &field).err(),
    )
}

fn are_fronts_refused(alloc: Global, raw: &[u8]) -> bool {
    let mut well = true;
    for length in 0..raw.len() {
        // only the first vector ends in padding, of two bytes
        let expected = refusals_of_front(length, length >= 98);
        well = well && refusals_of(alloc, &raw[..length]) == expected;
    }
    well
}

// Without its padding the first vector is still read so far.
fn is_begun(alloc: Global) -> bool {
    let front = &VECTORS[0].0[..98];
    match partial(alloc, front, &field_of(front)) {
        Ok(decode) => {
            let typ = decode.first_chunk_type;
            drop(decode);
            typ == CT_INIT
        }
        Err(_) => false,
    }
}

fn fronts(alloc: Global) -> bool {
    let mut well = is_begun(alloc);
    for (raw, _, _, _) in VECTORS {
        well = well && are_fronts_refused(alloc, raw);
    }
    well
}

const TOLD: [(&[u8], ChunkType, Option<u32>, Option<&[u8]>); 4] = [
    (
        b"\x0a\0\0\x05\xff\0\0\0",
        CT_COOKIE_ECHO,
        None,
        Some(b"\xff"),
    ),
    (b"\x0b\0\0\x04", CT_COOKIE_ACK, None, None),
    // a type without a kind is read so far, and refused by finish
    (b"\x0d\0\0\x04", ChunkType(13), None, None),
    (b"\x01\0\0\x08\0\0\0\x07", CT_INIT, Some(7), None),
];

// The header of the packets that begin with `HEAD`.
const HEADER: CommonHeader = CommonHeader {
    source_port: 5000,
    destination_port: 5000,
    verification_tag: 1,
};

fn tells(decode: &PartialDecode, row: (&[u8], ChunkType, Option<u32>, Option<&[u8]>)) -> bool {
    let (chunks, typ, tag, cookie) = row;
    decode.common_header == HEADER
        && decode.remaining.as_slice() == chunks
        && decode.first_chunk_type == typ
        && decode.initiate_tag == tag
        && decode.cookie.as_ref().map(|c| c.as_slice()) == cookie
}

fn tells_of(
    read: Result<PartialDecode, Error>,
    row: (&[u8], ChunkType, Option<u32>, Option<&[u8]>),
) -> bool {
    match read {
        Ok(decode) => {
            let well = tells(&decode, row);
            drop(decode);
            well
        }
        Err(_) => false,
    }
}

fn is_told(alloc: Global, row: (&[u8], ChunkType, Option<u32>, Option<&[u8]>)) -> bool {
    match packet_bytes(alloc, row.0) {
        Ok(raw) => {
            let well = tells_of(PartialDecode::unmarshal(alloc, &raw, &ZERO), row);
            drop(raw);
            well
        }
        Err(_) => false,
    }
}

const REFUSED: [(&[u8], Error); 5] = [
    (b"", Error::ErrParseSctpChunkNotEnoughData),
    (b"\x02\0\0\x06\0\0\0\0", Error::ErrChunkValueNotLongEnough),
    (b"\x03\0\0\x03", Error::ErrChunkHeaderInvalidLength),
    (
        b"\x03\0\0\x05\0\0\0\x01",
        Error::ErrChunkHeaderPaddingNonZero,
    ),
    (b"\x0d\0\0\x04", Error::ErrUnmarshalUnknownChunkType),
];

// How these chunks are refused, by PartialDecode or its finish.
fn refusal_in_two(alloc: Global, chunks: &[u8]) -> Result<Option<Error>, Error> {
    let raw = packet_bytes(alloc, chunks)?;
    let read = PartialDecode::unmarshal(alloc, &raw, &ZERO);
    drop(raw);
    match read {
        Ok(decode) => Ok(decode.finish(alloc).err()),
        Err(e) => Ok(Some(e)),
    }
}

fn first_chunks(alloc: Global, log: &mut Vec<u8>) {
    for row in TOLD {
        check_bytes(log, is_told(alloc, row), "a first chunk", row.0);
    }
    for (chunks, expected) in REFUSED {
        let holds = refusal_in_two(alloc, chunks) == Ok(Some(expected));
        check_bytes(log, holds, "a first chunk that is refused", chunks);
    }
}

const INIT: &[u8] = b"\x01\0\0\x14\0\0\0\x01\0\0\x05\xdc\0\x01\0\x01\0\0\0\0";

const INIT_AND_ACK: &[u8] = b"\x01\0\0\x14\0\0\0\x01\0\0\x05\xdc\0\x01\0\x01\0\0\0\0\x0b\0\0\x04";

const ACK_AND_INIT: &[u8] = b"\x0b\0\0\x04\x01\0\0\x14\0\0\0\x01\0\0\x05\xdc\0\x01\0\x01\0\0\0\0";

const ACK_AND_INIT_ACK: &[u8] =
    b"\x0b\0\0\x04\x02\0\0\x14\0\0\0\x01\0\0\x05\xdc\0\x01\0\x01\0\0\0\0";

// Source and destination port, tag, chunks, and how the packet is refused.
const CHECKED: [(u16, u16, u32, &[u8], Option<Error>); 8] = [
    (5000, 5000, 0, b"", None),
    (5000, 5000, 0, INIT, None),
    (
        5000,
        5000,
        1,
        INIT,
        Some(Error::ErrInitChunkVerifyTagNotZero),
    ),
    (
        5000,
        5000,
        1,
        INIT_AND_ACK,
        Some(Error::ErrInitChunkBundled),
    ),
    (
        5000,
        5000,
        0,
        ACK_AND_INIT,
        Some(Error::ErrInitChunkBundled),
    ),
    (5000, 5000, 1, ACK_AND_INIT_ACK, None),
    (
        5000,
        0,
        1,
        INIT_AND_ACK,
        Some(Error::ErrSctpPacketDestinationPortZero),
    ),
    (
        0,
        0,
        1,
        INIT_AND_ACK,
        Some(Error::ErrSctpPacketSourcePortZero),
    ),
];

// How a packet of these chunks under this header is refused by the rules for all packets.
fn refused_by_rules(
    alloc: Global,
    header: CommonHeader,
    chunks: &[u8],
) -> Result<Option<Error>, Error> {
    let mut packet = read_chunks(alloc, chunks)?;
    packet.common_header = header;
    let refused = packet.check_packet().err();
    drop(packet);
    Ok(refused)
}

fn rules_for_all_packets(alloc: Global, log: &mut Vec<u8>) {
    for (source_port, destination_port, verification_tag, chunks, expected) in CHECKED {
        let header = CommonHeader {
            source_port,
            destination_port,
            verification_tag,
        };
        let holds = refused_by_rules(alloc, header, chunks) == Ok(expected);
        check_bytes(log, holds, "the rules for all packets", chunks);
    }
}

const PRINTED: &str =
    "Packet:\n        source_port: 5000\n        destination_port: 5000\n        verification_tag: 1\n        Chunk: COOKIE-ACKChunk: SHUTDOWN-ACK";

fn printed(alloc: Global, chunks: &[u8]) -> Result<String, Error> {
    let packet = read_chunks(alloc, chunks)?;
    Ok(format!(in alloc; "{packet}")?)
}

fn printed_packet(alloc: Global) -> bool {
    match printed(alloc, b"\x0b\0\0\x04\x08\0\0\x04") {
        Ok(text) => {
            let same = text.as_str() == PRINTED;
            drop(text);
            same
        }
        Err(_) => false,
    }
}

/// What does not hold of packets.
pub fn all(alloc: Global, log: &mut Vec<u8>) {
    vectors(alloc, log);
    check(log, fronts(alloc), "fronts of recorded packets");
    first_chunks(alloc, log);
    rules_for_all_packets(alloc, log);
    check(log, printed_packet(alloc), "a packet prints");
}
