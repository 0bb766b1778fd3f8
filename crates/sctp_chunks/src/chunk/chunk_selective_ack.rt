//! SACK: how an acknowledgement is read and written.

ghost use Rattle.std.specs.Prelude.{◌≡◌, ◌+◌, ◌*◌, ◌^◌, ◌<◌, ◌≤◌, ◌++◌, length, IfOk, IsOkUnless};
ghost use Rattle.std.specs.List.{flat_map, AllByRecursion};
ghost use Rattle.sctp_util.specs.Each.{each};
ghost use Rattle.sctp_util.specs.Field.{be32, u32_at};
ghost use Rattle.sctp_util.specs.declared.error.Error.TheVariants.{ErrOutOfMemory};
ghost use Rattle.sctp_chunks.specs.Fits.{FitsBlock};
ghost use Rattle.sctp_data.specs.SelectiveAck.{block_at, block_encoding, sack_of};
ghost use Rattle.sctp_chunks.specs.Wire.{sack_chunk, IsSack};
ghost use Rattle.sctp_chunks.specs.Fault.{SackFault};

use super::Chunk;
use super::chunk_header::open_chunk;
use bytes::{Bytes, BytesMut};
pub use sctp_data::chunk::chunk_selective_ack::{
    ChunkSelectiveAck, GapAckBlock, SELECTIVE_ACK_HEADER_SIZE,
};
use sctp_util::error::{Error, Result};
use sctp_util::field::{put_u16, put_u32, read_u16, read_u32};
use sctp_util::util::{CT_SACK, ChunkType};
use std::alloc::Global;

/// Reads so many blocks from `at` on. Refuses only for memory.
/// Precondition: they are there.
#[tactic(auto, using(sctp_util::proofs::EachAt::each_none, sctp_util::proofs::EachAt::each_next))]
fn read_blocks(alloc: Global, value: &[u8], at: usize, count: usize) -> Result<Vec<GapAckBlock>>
    requires { at + 4 * count ≤ length value.now }
    ensures ok { IfOk result (λ v. v.items ≡ each count (λ i. block_at value.now (at + 4 * i))) }
    ensures memory { IsOkUnless result ErrOutOfMemory }
{
    let mut blocks = Vec::new(alloc);
    for i in 0..count {
        let start = read_u16(value, at + 4 * i);
        let end = read_u16(value, at + 4 * i + 2);
        blocks.push(GapAckBlock { start, end })?;
    }
    Ok(blocks)
}

/// Reads so many numbers of four bytes from `at` on. Refuses only for memory.
/// Precondition: they are there.
#[tactic(auto, using(sctp_util::proofs::EachAt::each_none, sctp_util::proofs::EachAt::each_next))]
fn read_numbers(alloc: Global, value: &[u8], at: usize, count: usize) -> Result<Vec<u32>>
    requires { at + 4 * count ≤ length value.now }
    ensures ok { IfOk result (λ v. v.items ≡ each count (λ i. u32_at value.now (at + 4 * i))) }
    ensures memory { IsOkUnless result ErrOutOfMemory }
{
    let mut numbers = Vec::new(alloc);
    for i in 0..count {
        numbers.push(read_u32(value, at + 4 * i))?;
    }
    Ok(numbers)
}

/// Appends blocks.
/// Precondition: the buffer has room for four bytes each.
fn put_blocks(buf: &mut BytesMut, blocks: &[GapAckBlock])
    requires { 4 * length blocks.now ≤ buf.old.spare }
    ensures items { buf.new.items ≡ buf.old.items ++ flat_map block_encoding blocks.now }
    ensures spare { buf.new.spare + 4 * length blocks.now ≡ buf.old.spare }
    ensures fits { AllByRecursion FitsBlock blocks.now }
{
    for block in blocks {
        put_u16(buf, block.start);
        put_u16(buf, block.end);
    }
}

/// Appends numbers of four bytes.
/// Precondition: the buffer has room for them.
fn put_numbers(buf: &mut BytesMut, numbers: &[u32])
    requires { 4 * length numbers.now ≤ buf.old.spare }
    ensures items { buf.new.items ≡ buf.old.items ++ flat_map be32 numbers.now }
    ensures spare { buf.new.spare + 4 * length numbers.now ≡ buf.old.spare }
    ensures fits { AllByRecursion (λ n. n < 2 ^ 32) numbers.now }
{
    for number in numbers {
        put_u32(buf, *number);
    }
}

#[tactic(auto, using(crate::proofs::One::sack_one, sctp_util::proofs::EachAt::length_each, crate::proofs::Lengths::length_sack_value))]
impl Chunk for ChunkSelectiveAck {
    ghost wire = { λ c. sack_chunk (sack_of c) };

    ghost IsKind = { IsSack };

    ghost IsFresh = { λ _. Unit {0} };

    ghost fault = { SackFault };

    fn unmarshal(alloc: Global, raw: &Bytes) -> Result<Self> {
        let (_flags, value) = open_chunk(raw, CT_SACK, Error::ErrChunkTypeNotSack)?;
        if value.len() < SELECTIVE_ACK_HEADER_SIZE {
            return Err(Error::ErrSackSizeNotLargeEnoughInfo);
        }
        let blocks = read_u16(value, 8) as usize;
        let duplicates = read_u16(value, 10) as usize;
        let middle = SELECTIVE_ACK_HEADER_SIZE + 4 * blocks;
        if value.len() < middle + 4 * duplicates {
            return Err(Error::ErrSackSizeNotLargeEnoughInfo);
        }
        let gap_ack_blocks = read_blocks(alloc, value, SELECTIVE_ACK_HEADER_SIZE, blocks)?;
        let duplicate_tsn = read_numbers(alloc, value, middle, duplicates)?;
        Ok(ChunkSelectiveAck {
            cumulative_tsn_ack: read_u32(value, 0),
            advertised_receiver_window_credit: read_u32(value, 4),
            gap_ack_blocks,
            duplicate_tsn,
        })
    }

    fn value_length(&self) -> usize {
        let blocks = 4 * self.gap_ack_blocks.as_slice().len();
        let duplicates = 4 * self.duplicate_tsn.as_slice().len();
        (SELECTIVE_ACK_HEADER_SIZE + blocks).saturating_add(duplicates)
    }

    fn chunk_type(&self) -> ChunkType {
        CT_SACK
    }

    fn flags(&self) -> u8 {
        0
    }

    fn put_value(&self, buf: &mut BytesMut) {
        put_u32(buf, self.cumulative_tsn_ack);
        put_u32(buf, self.advertised_receiver_window_credit);
        put_u16(buf, self.gap_ack_blocks.len() as u16);
        put_u16(buf, self.duplicate_tsn.len() as u16);
        put_blocks(buf, &self.gap_ack_blocks);
        put_numbers(buf, &self.duplicate_tsn);
    }

    fn check(&self) -> Result<()> {
        Ok(())
    }

    fn check_form(&self) -> Result<()> {
        Ok(())
    }
}
