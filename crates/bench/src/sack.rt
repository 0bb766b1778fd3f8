//! A SACK of some gap ack blocks, written, and written and read.

use crate::subject::CALLS;
use crate::timing::Measured;
use bytes::BytesMut;
use sctp_chunks::chunk::Chunk;
use sctp_chunks::chunk::chunk_selective_ack::{ChunkSelectiveAck, GapAckBlock};
use sctp_util::error::Result;
use std::alloc::Global;
use std::time::{Clock, Instant};

/// A SACK that reports nothing beyond this TSN.
pub fn sack_to(alloc: Global, tsn: u32) -> ChunkSelectiveAck {
    ChunkSelectiveAck {
        cumulative_tsn_ack: tsn,
        advertised_receiver_window_credit: 65_536,
        gap_ack_blocks: Vec::new(alloc),
        duplicate_tsn: Vec::new(alloc),
    }
}

/// Adds so many blocks, each from its own start on, two apart, or, where an end is given, all from 2 to there.
pub fn add_blocks(sack: &mut ChunkSelectiveAck, count: u16, end: Option<u16>) -> Result<()> {
    for place in 0..count {
        let start = place.wrapping_mul(2).wrapping_add(2);
        let block = match end {
            Some(end) => GapAckBlock { start: 2, end },
            None => GapAckBlock { start, end: start },
        };
        sack.gap_ack_blocks.push(block)?;
    }
    Ok(())
}

// Writes and reads it once, and gives how many blocks came back.
fn again(alloc: Global, sack: &ChunkSelectiveAck) -> Result<usize> {
    let mut buf = BytesMut::new(alloc);
    sack.marshal_to(&mut buf)?;
    let read = ChunkSelectiveAck::unmarshal(alloc, &buf.freeze()?)?;
    Ok(read.gap_ack_blocks.len())
}

// Does so over and over, and gives the blocks of all.
fn again_and_again(alloc: Global, sack: &ChunkSelectiveAck) -> Result<usize> {
    let mut blocks = 0usize;
    for _ in 0..CALLS {
        blocks = blocks.wrapping_add(again(alloc, sack)?);
    }
    Ok(blocks)
}

// Writes it over and over into one buffer, and gives the bytes of all.
fn write_each(buf: &mut BytesMut, sack: &ChunkSelectiveAck) -> Result<usize> {
    let mut bytes = 0usize;
    for _ in 0..CALLS {
        buf.clear();
        sack.marshal_to(buf)?;
        bytes = bytes.wrapping_add(buf.len());
    }
    Ok(bytes)
}

/// Writes a SACK of so many blocks into a buffer that has room.
pub fn write(clock: &impl Clock, alloc: Global, count: u16) -> anyhow::Result<Measured> {
    let mut sack = sack_to(alloc, 0);
    add_blocks(&mut sack, count, None)?;
    let mut buf = BytesMut::new(alloc);
    sack.marshal_to(&mut buf)?;
    let start = Instant::now(clock)?;
    let given = write_each(&mut buf, &sack)?;
    let elapsed = start.elapsed(clock)?;
    Ok(Measured { given, elapsed })
}

/// Writes and reads a SACK of so many blocks.
pub fn write_and_read(clock: &impl Clock, alloc: Global, count: u16) -> anyhow::Result<Measured> {
    let mut sack = sack_to(alloc, 0);
    add_blocks(&mut sack, count, None)?;
    let start = Instant::now(clock)?;
    let given = again_and_again(alloc, &sack)?;
    let elapsed = start.elapsed(clock)?;
    Ok(Measured { given, elapsed })
}
