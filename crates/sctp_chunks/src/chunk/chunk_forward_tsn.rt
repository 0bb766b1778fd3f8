//! FORWARD-TSN: how a chunk that passes TSNs is read and written.

ghost use Rattle.std.specs.Prelude.{◌≡◌, ◌+◌, ◌*◌, ◌<◌, ◌≤◌, ◌++◌, length, IfOk, IsOkUnless};
ghost use Rattle.std.specs.List.{flat_map, AllByRecursion};
ghost use Rattle.sctp_util.specs.Each.{each};
ghost use Rattle.sctp_util.specs.declared.error.Error.TheVariants.{ErrOutOfMemory, ErrChunkTooShort};
ghost use Rattle.sctp_data.specs.ForwardTsn.{FitsStream, stream_at, stream_encoding, forward_tsn_of};
ghost use Rattle.sctp_chunks.specs.Wire.{forward_tsn_chunk, IsForwardTsn};
ghost use Rattle.sctp_chunks.specs.Fault.{ForwardTsnFault};

use super::Chunk;
use super::chunk_header::open_chunk;
use bytes::{Bytes, BytesMut};
use sctp_data::chunk::chunk_forward_tsn::read_stream;
pub use sctp_data::chunk::chunk_forward_tsn::{
    ChunkForwardTsn, ChunkForwardTsnStream, FORWARD_TSN_STREAM_LENGTH, NEW_CUMULATIVE_TSN_LENGTH,
};
use sctp_util::error::{Error, Result};
use sctp_util::field::{put_u32, read_u32};
use sctp_util::util::{CT_FORWARD_TSN, ChunkType};
use std::alloc::Global;

/// Reads so many pairs, which stand behind the new cumulative TSN. Refuses only for memory.
/// Precondition: they are there.
#[tactic(auto, using(sctp_util::proofs::EachAt::each_none, sctp_util::proofs::EachAt::each_next))]
fn read_streams(alloc: Global, value: &[u8], count: usize) -> Result<Vec<ChunkForwardTsnStream>>
    requires { 4 + 4 * count ≤ length value.now }
    ensures ok { IfOk result (λ v. v.items ≡ each count (λ i. stream_at value.now (4 + 4 * i))) }
    ensures memory { IsOkUnless result ErrOutOfMemory }
{
    let mut streams = Vec::new(alloc);
    for i in 0..count {
        streams.push(read_stream(value, 4 + 4 * i))?;
    }
    Ok(streams)
}

/// Appends pairs.
/// Precondition: the buffer has room for four bytes each.
fn put_streams(buf: &mut BytesMut, streams: &[ChunkForwardTsnStream])
    requires { 4 * length streams.now ≤ buf.old.spare }
    ensures items { buf.new.items ≡ buf.old.items ++ flat_map stream_encoding streams.now }
    ensures spare { buf.new.spare + 4 * length streams.now ≡ buf.old.spare }
    ensures fits { AllByRecursion FitsStream streams.now }
{
    for stream in streams {
        stream.put(buf);
    }
}

#[tactic(auto, using(crate::proofs::One::forward_tsn_one, sctp_util::proofs::EachAt::length_each, crate::proofs::Lengths::length_forward_tsn_value))]
impl Chunk for ChunkForwardTsn {
    ghost wire = { λ c. forward_tsn_chunk (forward_tsn_of c) };

    ghost IsKind = { IsForwardTsn };

    ghost IsFresh = { λ _. Unit {0} };

    ghost fault = { ForwardTsnFault };

    fn unmarshal(alloc: Global, raw: &Bytes) -> Result<Self> {
        let (_flags, value) = open_chunk(raw, CT_FORWARD_TSN, Error::ErrChunkTypeNotForwardTsn)?;
        if value.len() < NEW_CUMULATIVE_TSN_LENGTH {
            return Err(Error::ErrChunkTooShort);
        }
        let rest = value.len() - NEW_CUMULATIVE_TSN_LENGTH;
        if rest % FORWARD_TSN_STREAM_LENGTH != 0 {
            return Err(Error::ErrChunkTooShort);
        }
        let streams = read_streams(alloc, value, rest / FORWARD_TSN_STREAM_LENGTH)?;
        Ok(ChunkForwardTsn {
            new_cumulative_tsn: read_u32(value, 0),
            streams,
        })
    }

    fn value_length(&self) -> usize {
        NEW_CUMULATIVE_TSN_LENGTH + FORWARD_TSN_STREAM_LENGTH * self.streams.as_slice().len()
    }

    fn chunk_type(&self) -> ChunkType {
        CT_FORWARD_TSN
    }

    fn flags(&self) -> u8 {
        0
    }

    fn put_value(&self, buf: &mut BytesMut) {
        put_u32(buf, self.new_cumulative_tsn);
        put_streams(buf, &self.streams);
    }

    fn check(&self) -> Result<()> {
        Ok(())
    }

    fn check_form(&self) -> Result<()> {
        Ok(())
    }
}
