//! A packet of one DATA chunk with 1,200 bytes, read and written over and over, and its CRC-32C.

use crate::timing::{Fastest, Measured};
use bytes::{Bytes, BytesMut};
use crc32c::Crc;
use sctp_chunks::chunk::chunk_kind::ChunkKind;
use sctp_chunks::chunk::chunk_payload_data::PayloadProtocolIdentifier;
use sctp_dissect::dissection::dissect;
use sctp_packets::packet::{CommonHeader, Packet};
use sctp_util::error::Result;
use sctp_util::util::Checksum;
use std::alloc::Global;
use std::time::{Clock, Instant};

const BATCHES: u32 = 40;

const ROUNDS: u32 = 20_000;

/// 0 for any bytes, so that the codec alone is measured.
#[derive(Clone, Copy)]
pub struct Zero;

impl Checksum for Zero {
    ghost sum = { λ _ _. 0 };

    fn checksum(&self, _head: &[u8], _tail: &[u8]) -> u32 {
        0
    }
}

// The packet's header, and the chunk's before its user data.
const FRONT: [u8; 28] = [
    0x13, 0x88, 0x13, 0x89, 0, 0, 0, 1, 0, 0, 0, 0, 0, 3, 0x04, 0xc0, 0, 0, 0, 10, 0, 2, 0, 3, 0,
    0, 0, 53,
];

const USER_DATA: [u8; 1200] = [7; 1200];

/// The bytes of the packet.
pub fn datagram(alloc: Global) -> Result<Bytes> {
    let mut buf = BytesMut::new(alloc);
    buf.extend_from_slice(&FRONT)?;
    buf.extend_from_slice(&USER_DATA)?;
    Ok(buf.freeze()?)
}

/// Whether this is what the bytes of `datagram` stand for.
pub fn is_expected(packet: &Packet) -> bool {
    let header = CommonHeader {
        source_port: 5000,
        destination_port: 5001,
        verification_tag: 1,
    };
    match packet.chunks.as_slice() {
        [ChunkKind::PayloadData(c)] => {
            packet.common_header == header
                && c.beginning_fragment
                && c.ending_fragment
                && !c.unordered
                && !c.immediate_sack
                && c.tsn == 10
                && c.stream_identifier == 2
                && c.stream_sequence_number == 3
                && c.payload_type == PayloadProtocolIdentifier::Binary
                && c.user_data.as_slice() == USER_DATA.as_slice()
        }
        _ => false,
    }
}

// Reads the packet `ROUNDS` times, and gives how many chunks that were.
fn read(alloc: Global, raw: &Bytes) -> Result<usize> {
    let mut chunks = 0usize;
    for _ in 0..ROUNDS {
        let packet = Packet::unmarshal(alloc, raw, &Zero)?;
        chunks = chunks.wrapping_add(packet.chunks.len());
    }
    Ok(chunks)
}

// Looks at the packet `ROUNDS` times, and gives how many chunks that were.
fn look(alloc: Global, raw: &Bytes) -> Result<usize> {
    let mut chunks = 0usize;
    for _ in 0..ROUNDS {
        chunks = chunks.wrapping_add(dissect(alloc, raw, &Zero)?.items.len());
    }
    Ok(chunks)
}

// Writes the packet `ROUNDS` times into the same buffer, and gives how many bytes that were.
fn write(buf: &mut BytesMut, packet: &Packet) -> Result<usize> {
    let mut bytes = 0usize;
    for _ in 0..ROUNDS {
        buf.clear();
        bytes = bytes.wrapping_add(packet.marshal_to(buf, &Zero)?);
    }
    Ok(bytes)
}

// The CRC-32C of the bytes `ROUNDS` times in a row.
fn sum(raw: &[u8]) -> u32 {
    let mut crc = Crc::new();
    for _ in 0..ROUNDS {
        crc.update(raw);
    }
    crc.finish()
}

fn read_batch(clock: &impl Clock, alloc: Global, raw: &Bytes) -> anyhow::Result<Measured> {
    let start = Instant::now(clock)?;
    let given = read(alloc, raw)?;
    let elapsed = start.elapsed(clock)?;
    Ok(Measured { given, elapsed })
}

fn look_batch(clock: &impl Clock, alloc: Global, raw: &Bytes) -> anyhow::Result<Measured> {
    let start = Instant::now(clock)?;
    let given = look(alloc, raw)?;
    let elapsed = start.elapsed(clock)?;
    Ok(Measured { given, elapsed })
}

fn write_batch(
    clock: &impl Clock,
    buf: &mut BytesMut,
    packet: &Packet,
) -> anyhow::Result<Measured> {
    let start = Instant::now(clock)?;
    let given = write(buf, packet)?;
    let elapsed = start.elapsed(clock)?;
    Ok(Measured { given, elapsed })
}

fn sum_batch(clock: &impl Clock, raw: &[u8]) -> anyhow::Result<Measured> {
    let start = Instant::now(clock)?;
    let given = sum(raw) as usize;
    let elapsed = start.elapsed(clock)?;
    Ok(Measured { given, elapsed })
}

/// The nanoseconds that one reading took, in the fastest batch.
pub fn time_of_reading(clock: &impl Clock, alloc: Global, raw: &Bytes) -> anyhow::Result<u128> {
    let mut fastest = Fastest::new();
    for _ in 0..BATCHES {
        let measured = read_batch(clock, alloc, raw)?;
        if measured.given == ROUNDS as usize {
            fastest.note(measured.elapsed);
        }
    }
    Ok(fastest.of_each(ROUNDS))
}

/// The nanoseconds that one dissection took, in the fastest batch.
pub fn time_of_dissecting(clock: &impl Clock, alloc: Global, raw: &Bytes) -> anyhow::Result<u128> {
    let mut fastest = Fastest::new();
    for _ in 0..BATCHES {
        let measured = look_batch(clock, alloc, raw)?;
        if measured.given == ROUNDS as usize {
            fastest.note(measured.elapsed);
        }
    }
    Ok(fastest.of_each(ROUNDS))
}

/// The nanoseconds that one writing took, in the fastest batch.
pub fn time_of_writing(
    clock: &impl Clock,
    buf: &mut BytesMut,
    packet: &Packet,
) -> anyhow::Result<u128> {
    let mut fastest = Fastest::new();
    for _ in 0..BATCHES {
        let measured = write_batch(clock, buf, packet)?;
        if measured.given >= ROUNDS as usize {
            fastest.note(measured.elapsed);
        }
    }
    Ok(fastest.of_each(ROUNDS))
}

/// The nanoseconds that one CRC-32C took, in the fastest batch, and what the last batch gave.
pub fn time_of_summing(clock: &impl Clock, raw: &[u8]) -> anyhow::Result<(u128, usize)> {
    let mut fastest = Fastest::new();
    let mut given = 0usize;
    for _ in 0..BATCHES {
        let measured = sum_batch(clock, raw)?;
        given = measured.given;
        fastest.note(measured.elapsed);
    }
    Ok((fastest.of_each(ROUNDS), given))
}
