use crate::log::check;
use bytes::{Bytes, BytesMut};
use sctp_chunks::chunk::Chunk;
use sctp_chunks::chunk::chunk_header::ChunkHeader;
use sctp_chunks::chunk::chunk_kind::ChunkKind;
use sctp_chunks::chunk::chunk_payload_data::{ChunkPayloadData, PayloadProtocolIdentifier};
use sctp_packets::checksum::Crc32c;
use sctp_packets::packet::{CommonHeader, Packet, PartialDecode};
use sctp_util::error::Error;
use sctp_util::util::{
    CT_PAYLOAD_DATA, Checksum, get_padding_size, sna16eq, sna16gt, sna16lt, sna32eq, sna32gt,
    sna32gte, sna32lt, sna32lte,
};
use std::alloc::Global;
use std::cell::Cell;

/// Answers the same number for any bytes: 0, or the field of a recorded packet.
#[derive(Clone, Copy)]
pub struct Answer(pub u32);

impl Checksum for Answer {
    ghost sum = { λ c bytes. c.0 };

    fn checksum(&self, _head: &[u8], _tail: &[u8]) -> u32 {
        self.0
    }
}

pub const ZERO: Answer = Answer(0);

/// Counts how often it is asked.
#[derive(Clone, Copy)]
struct Counted<'a> {
    calls: &'a Cell<u32>,
}

impl Checksum for Counted<'_> {
    ghost sum = { λ _ bytes. 0x01020304 };

    fn checksum(&self, _head: &[u8], _tail: &[u8]) -> u32 {
        self.calls.set(self.calls.get().wrapping_add(1));
        0x01020304
    }
}

const HEAD: [u8; 12] = [0x13, 0x88, 0x13, 0x88, 0, 0, 0, 1, 0, 0, 0, 0];

/// The packet with the usual header and these chunks.
pub fn packet_bytes(alloc: Global, chunks: &[u8]) -> Result<Bytes, Error> {
    let mut buf = BytesMut::new(alloc);
    buf.extend_from_slice(&HEAD)?;
    buf.extend_from_slice(chunks)?;
    Ok(buf.freeze()?)
}

/// Reads a packet of these chunks.
pub fn read_chunks(alloc: Global, chunks: &[u8]) -> Result<Packet, Error> {
    let raw = packet_bytes(alloc, chunks)?;
    let read = Packet::unmarshal(alloc, &raw, &ZERO);
    drop(raw);
    read
}

/// How a packet of these chunks is refused.
pub fn refusal(alloc: Global, chunks: &[u8]) -> Result<Option<Error>, Error> {
    let raw = packet_bytes(alloc, chunks)?;
    let refused = Packet::unmarshal(alloc, &raw, &ZERO).err();
    drop(raw);
    Ok(refused)
}

/// Whether these bytes are written.
pub fn is_encoding(written: Result<Bytes, Error>, want: &[u8]) -> bool {
    match written {
        Ok(written) => {
            let same = written.as_slice() == want;
            drop(written);
            same
        }
        Err(_) => false,
    }
}

/// Writes the packet behind "abc". Gives the answer, and the buffer after it.
pub fn written_behind(
    alloc: Global,
    packet: &Packet,
) -> Result<(Result<usize, Error>, BytesMut), Error> {
    let mut buf = BytesMut::copy_from_slice(alloc, b"abc")?;
    let answer = packet.marshal_to(&mut buf, &ZERO);
    Ok((answer, buf))
}

pub fn data(alloc: Global, length: usize) -> Result<ChunkPayloadData, Error> {
    let mut user_data = BytesMut::new(alloc);
    user_data.resize(length, 7)?;
    Ok(ChunkPayloadData {
        unordered: false,
        beginning_fragment: true,
        ending_fragment: true,
        immediate_sack: false,
        tsn: 10,
        stream_identifier: 1,
        stream_sequence_number: 0,
        payload_type: PayloadProtocolIdentifier::Binary,
        user_data: user_data.freeze()?,
        acked: false,
        miss_indicator: 0,
        message_id: 0,
        abandoned: false,
        since: None,
        reliability: None,
        deadline: None,
        nsent: 0,
        retransmit: false,
    })
}

pub fn packet_of(alloc: Global, chunk: ChunkKind) -> Result<Packet, Error> {
    let mut chunks = Vec::new(alloc);
    chunks.push(chunk)?;
    Ok(Packet {
        common_header: CommonHeader {
            source_port: 5000,
            destination_port: 5000,
            verification_tag: 1,
        },
        chunks,
    })
}

const WHOLE: [u8; 20] = [
    0, 3, 0, 0x13, 0, 0, 0, 0x0a, 0, 1, 0, 0, 0, 0, 0, 0x35, 0x61, 0x62, 0x63, 0,
];

fn serial_numbers() -> bool {
    !sna32lt(0, 2147483648)
        && sna32gt(0, 2147483648)
        && sna32gt(2147483648, 0)
        && sna32lt(4294967295, 0)
        && sna32lte(5, 5)
        && sna32gte(6, 5)
        && sna32eq(2147483648, 2147483648)
        && !sna32eq(0, 2147483648)
        && sna16lt(65535, 0)
        && sna16gt(0, 32768)
        && sna16eq(32768, 32768)
        && !sna16eq(0, 32768)
        && get_padding_size(5) == 3
        && get_padding_size(8) == 0
}

const BARE: [u8; 12] = [0x13, 0x88, 0x13, 0x88, 0, 0, 0, 0, 0x06, 0xa9, 0, 0xe1];

// How these bytes are refused as a packet under a checksum that is always 0, and as one that is read in two parts under CRC-32C.
fn refusals(alloc: Global, raw: &[u8]) -> Result<(Option<Error>, Option<Error>), Error> {
    let raw = Bytes::copy_from_slice(alloc, raw)?;
    let whole = Packet::unmarshal(alloc, &raw, &ZERO).err();
    let parted = PartialDecode::unmarshal(alloc, &raw, &Crc32c).err();
    drop(raw);
    Ok((whole, parted))
}

// Whether the bytes of `BARE` are read under CRC-32C as this header without chunks, and written so.
fn is_bare(alloc: Global, raw: &Bytes) -> bool {
    let expected = CommonHeader {
        source_port: 5000,
        destination_port: 5000,
        verification_tag: 0,
    };
    match Packet::unmarshal(alloc, raw, &Crc32c) {
        Ok(packet) => {
            let well = packet.common_header == expected
                && packet.chunks.is_empty()
                && is_encoding(packet.marshal(alloc, &Crc32c), &BARE);
            drop(packet);
            well
        }
        Err(_) => false,
    }
}

// The sum of a header includes four zero bytes.
fn bare_header(alloc: Global) -> bool {
    let small = Some(Error::ErrPacketRawTooSmall);
    let bare = (
        Some(Error::ErrChecksumMismatch),
        Some(Error::ErrParseSctpChunkNotEnoughData),
    );
    refusals(alloc, b"") == Ok((small, small))
        && refusals(alloc, &BARE) == Ok(bare)
        && is_bare(alloc, &Bytes::from_static(&BARE))
        && Crc32c.checksum(b"\x13\x88\x13\x88\0\0\0\0", b"") == 0xe100_a906
}

// The packet's chunk, where it is one of user data.
fn only_data(packet: &Packet) -> Option<&ChunkPayloadData> {
    match packet.chunks.as_slice() {
        [ChunkKind::PayloadData(c)] => Some(c),
        _ => None,
    }
}

// Whether the chunk is the one of `WHOLE`.
fn is_whole(c: &ChunkPayloadData) -> bool {
    c.tsn == 10
        && c.stream_identifier == 1
        && c.stream_sequence_number == 0
        && c.payload_type == PayloadProtocolIdentifier::Binary
        && c.beginning_fragment
        && c.ending_fragment
        && !c.unordered
        && !c.immediate_sack
        && c.user_data.as_slice() == b"abc".as_slice()
}

fn whole_is_read(alloc: Global) -> bool {
    match read_chunks(alloc, &WHOLE) {
        Ok(packet) => {
            let well = only_data(&packet).is_some_and(|c| is_whole(c));
            drop(packet);
            well
        }
        Err(_) => false,
    }
}

// A fragment with these flags, and a TSN that is about to wrap.
fn fragment(flags: u8) -> [u8; 20] {
    let mut chunk = WHOLE;
    chunk[1] = flags;
    chunk[4..8].copy_from_slice(&[0xff, 0xff, 0xff, 0xfe]);
    chunk
}

// TSN, and whether the fragment is the first and the last one.
fn ends(alloc: Global, chunk: &[u8]) -> Result<Option<(u32, bool, bool)>, Error> {
    let packet = read_chunks(alloc, chunk)?;
    let ends = only_data(&packet).map(|c| (c.tsn, c.beginning_fragment, c.ending_fragment));
    drop(packet);
    Ok(ends)
}

fn messages_and_fragments(alloc: Global) -> bool {
    let mut well = whole_is_read(alloc);
    for (flags, first, last) in [(2, true, false), (0, false, false), (1, false, true)] {
        let chunk = fragment(flags);
        well = well && ends(alloc, &chunk) == Ok(Some((4294967294, first, last)));
    }
    well
}

fn long(alloc: Global, length: usize) -> Result<Packet, Error> {
    packet_of(alloc, ChunkKind::PayloadData(data(alloc, length)?))
}

// Whether the longest chunk was written behind "abc".
fn is_longest(answer: &Result<usize, Error>, buf: &BytesMut) -> bool {
    let front = b"abc\x13\x88\x13\x88\0\0\0\x01\0\0\0\0\0\x03\xff\xff";
    *answer == Ok(3 + 12 + 65_536)
        && buf.len() == 3 + 12 + 65_536
        && buf.as_slice().starts_with(front)
}

// These bytes, and a COOKIE-ACK behind them.
fn with_another(alloc: Global, written: &[u8]) -> Result<Bytes, Error> {
    let mut buf = BytesMut::copy_from_slice(alloc, written)?;
    buf.extend_from_slice(b"\x0b\0\0\x04")?;
    Ok(buf.freeze()?)
}

fn both_are_read(alloc: Global, written: &[u8]) -> bool {
    match with_another(alloc, written) {
        Ok(bytes) => {
            let read = Packet::unmarshal(alloc, &bytes, &ZERO);
            drop(bytes);
            has_both(read)
        }
        Err(_) => false,
    }
}

fn has_both(packet: Result<Packet, Error>) -> bool {
    match packet {
        Ok(packet) => {
            let found = lengths(&packet);
            drop(packet);
            found == Some((65_519, true))
        }
        Err(_) => false,
    }
}

fn longest_is_kept(alloc: Global, packet: &Packet) -> bool {
    match written_behind(alloc, packet) {
        Ok((answer, buf)) => {
            let well = is_longest(&answer, &buf)
                && both_are_read(alloc, buf.as_slice().get(3..).unwrap_or(&[]));
            drop(buf);
            well
        }
        Err(_) => false,
    }
}

// It is read also where another chunk follows it.
fn longest_chunk(alloc: Global) -> bool {
    match long(alloc, 65_519) {
        Ok(packet) => {
            let well = longest_is_kept(alloc, &packet);
            drop(packet);
            well
        }
        Err(_) => false,
    }
}

// The length of the first chunk's user data, and whether a COOKIE-ACK follows.
fn lengths(packet: &Packet) -> Option<(usize, bool)> {
    match packet.chunks.as_slice() {
        [ChunkKind::PayloadData(c), ChunkKind::CookieAck(_)] => Some((c.user_data.len(), true)),
        _ => None,
    }
}

// A packet of one chunk under the checksum that counts.
fn counted_bytes(alloc: Global, counted: Counted) -> Result<Bytes, Error> {
    long(alloc, 1)?.marshal(alloc, &counted)
}

fn is_packet(read: Result<Packet, Error>) -> bool {
    let well = read.is_ok();
    drop(read);
    well
}

// Whether writing a packet asks the checksum once, and reading it once more.
fn is_asked_twice(alloc: Global, calls: &Cell<u32>) -> bool {
    let counted = Counted { calls };
    let front = b"\x13\x88\x13\x88\0\0\0\x01\x04\x03\x02\x01";
    match counted_bytes(alloc, counted) {
        Ok(raw) => {
            let well = calls.get() == 1
                && raw.as_slice().starts_with(front)
                && is_packet(Packet::unmarshal(alloc, &raw, &counted))
                && calls.get() == 2;
            drop(raw);
            well
        }
        Err(_) => false,
    }
}

const WHOLE_HEADER: ChunkHeader = ChunkHeader {
    typ: CT_PAYLOAD_DATA,
    flags: 3,
    value_length: 15,
};

fn clone_is_whole(chunk: &ChunkPayloadData) -> bool {
    match chunk.try_clone() {
        Ok(copy) => {
            let well = is_whole(&copy);
            drop(copy);
            well
        }
        Err(_) => false,
    }
}

fn is_read_alone(alloc: Global, raw: &Bytes) -> bool {
    match ChunkPayloadData::unmarshal(alloc, raw) {
        Ok(chunk) => {
            let well = chunk.header() == Ok(WHOLE_HEADER)
                && is_encoding(chunk.marshal(alloc), &WHOLE[..19])
                && clone_is_whole(&chunk);
            drop(chunk);
            well
        }
        Err(_) => false,
    }
}

fn chunk_alone(alloc: Global) -> bool {
    match Bytes::copy_from_slice(alloc, &WHOLE) {
        Ok(raw) => {
            let well = ChunkHeader::unmarshal(&raw) == Ok(WHOLE_HEADER)
                && is_read_alone(alloc, &raw);
            drop(raw);
            well
        }
        Err(_) => false,
    }
}

/// What does not hold of serial numbers, headers and DATA chunks.
pub fn all(alloc: Global, log: &mut Vec<u8>) {
    let calls = Cell::new(0);
    check(log, serial_numbers(), "serial numbers");
    check(log, bare_header(alloc), "a bare header");
    check(log, messages_and_fragments(alloc), "messages and fragments");
    check(log, longest_chunk(alloc), "the longest chunk");
    check(log, is_asked_twice(alloc, &calls), "the checksum is asked");
    check(log, chunk_alone(alloc), "a chunk alone");
}
