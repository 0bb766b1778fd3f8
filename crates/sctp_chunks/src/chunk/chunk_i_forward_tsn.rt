//! I-FORWARD-TSN: FORWARD-TSN with message identifiers.

ghost use Rattle.std.specs.Prelude.{◌≡◌, ◌+◌, ◌*◌, ◌^◌, ◌<◌, ◌≤◌, ◌++◌, length, IfOk, IsOkUnless};
ghost use Rattle.std.specs.List.{flat_map, AllByRecursion};
ghost use Rattle.sctp_util.specs.Each.{each};
ghost use Rattle.sctp_util.specs.declared.error.Error.TheVariants.{ErrOutOfMemory};
ghost use Rattle.sctp_chunks.specs.Fits.{FitsEntry};
ghost use Rattle.sctp_chunks.specs.IForwardTsn.{entry_at, entry_encoding, i_forward_tsn_of};
ghost use Rattle.sctp_chunks.specs.Wire.{i_forward_tsn_chunk, IsIForwardTsn};
ghost use Rattle.sctp_chunks.specs.Fault.{IForwardTsnFault};

use super::Chunk;
use super::chunk_forward_tsn::NEW_CUMULATIVE_TSN_LENGTH;
use super::chunk_header::open_chunk;
use bytes::{Bytes, BytesMut};
use sctp_util::error::{Error, Result};
use sctp_util::field::{put_u16, put_u32, read_u16, read_u32};
use sctp_util::util::{CT_I_FORWARD_TSN, ChunkType};
use std::alloc::Global;
use std::fmt;

/// The bytes of an entry: stream two, flags one, reserved one, message identifier four.
const I_FORWARD_TSN_STREAM_ENTRY_LENGTH: usize = 8;

/// A stream, and the greatest message identifier that is skipped on it, among its
/// ordered or its unordered messages (RFC 8260 2.3.1, but for the place of the bit
/// that says unordered: it is bit 0 of the third byte here, of the fourth there).
#[derive(Clone, Copy, Debug, PartialEq, Eq)]
pub struct ChunkIForwardTsnStream {
    /// The stream.
    pub identifier: u16,
    /// Whether unordered messages are skipped. The other bits of the flags are ignored, and written 0.
    pub unordered: bool,
    /// The message identifier of the last message that is skipped.
    pub mid: u32,
}

/// The entry that stands at a place.
/// Precondition: there are eight bytes from there on.
fn read_entry(bytes: &[u8], at: usize) -> ChunkIForwardTsnStream
    requires { at + 8 ≤ length bytes.now }
    ensures { result ≡ entry_at bytes.now at }
{
    ChunkIForwardTsnStream {
        identifier: read_u16(bytes, at),
        unordered: bytes[at + 2] & 1 != 0,
        mid: read_u32(bytes, at + 4),
    }
}

/// Reads so many entries, which stand behind the new cumulative TSN. Refuses only for memory.
/// Precondition: they are there.
#[tactic(auto, using(sctp_util::proofs::EachAt::each_none, sctp_util::proofs::EachAt::each_next))]
fn read_entries(alloc: Global, value: &[u8], count: usize) -> Result<Vec<ChunkIForwardTsnStream>>
    requires { 4 + 8 * count ≤ length value.now }
    ensures ok { IfOk result (λ v. v.items ≡ each count (λ i. entry_at value.now (4 + 8 * i))) }
    ensures memory { IsOkUnless result ErrOutOfMemory }
{
    let mut streams = Vec::new(alloc);
    for i in 0..count {
        streams.push(read_entry(value, 4 + 8 * i))?;
    }
    Ok(streams)
}

/// Appends an entry.
/// Precondition: the buffer has room for eight bytes.
fn put_entry(buf: &mut BytesMut, entry: &ChunkIForwardTsnStream)
    requires { 8 ≤ buf.old.spare }
    ensures items { buf.new.items ≡ buf.old.items ++ entry_encoding entry.now }
    ensures spare { buf.new.spare + 8 ≡ buf.old.spare }
    ensures fits { FitsEntry entry.now }
{
    put_u16(buf, entry.identifier);
    buf.extend_reserved(&[if entry.unordered { 1 } else { 0 }, 0]);
    put_u32(buf, entry.mid);
}

/// Appends entries.
/// Precondition: the buffer has room for eight bytes each.
fn put_entries(buf: &mut BytesMut, entries: &[ChunkIForwardTsnStream])
    requires { 8 * length entries.now ≤ buf.old.spare }
    ensures items { buf.new.items ≡ buf.old.items ++ flat_map entry_encoding entries.now }
    ensures spare { buf.new.spare + 8 * length entries.now ≡ buf.old.spare }
    ensures fits { AllByRecursion FitsEntry entries.now }
{
    for entry in entries {
        put_entry(buf, entry);
    }
}

/// FORWARD-TSN with message identifiers of four bytes in the place of stream sequence
/// numbers, and a bit for unordered messages (RFC 8260 2.3.1, type 194). The value is the
/// TSN, then entries of eight bytes, at most 8,190; a rest of under eight bytes is ignored.
/// Refuses another type with `ErrChunkTypeNotForwardTsn`, a value of under four bytes with `ErrChunkTooShort`.
#[derive(Debug, Drop)]
pub struct ChunkIForwardTsn {
    /// The last TSN that is to count as received.
    pub new_cumulative_tsn: u32,
    /// The streams on which messages are skipped.
    pub streams: Vec<ChunkIForwardTsnStream>,
}

impl fmt::Display for ChunkIForwardTsn {
    fn fmt<W: fmt::Write>(&self, f: &mut fmt::Formatter<W>) -> fmt::Result {
        write!(
            f,
            "{}\nNew Cumulative TSN: {}",
            self.chunk_type(),
            self.new_cumulative_tsn
        )?;
        for s in &self.streams {
            write!(
                f,
                "\n - si={}, unordered={}, mid={}",
                s.identifier, s.unordered, s.mid
            )?;
        }
        Ok(())
    }
}

#[tactic(auto, using(crate::proofs::One::i_forward_tsn_one, sctp_util::proofs::EachAt::length_each, crate::proofs::Lengths::length_i_forward_tsn_value))]
impl Chunk for ChunkIForwardTsn {
    ghost wire = { λ c. i_forward_tsn_chunk (i_forward_tsn_of c) };

    ghost IsKind = { IsIForwardTsn };

    ghost IsFresh = { λ _. Unit {0} };

    ghost fault = { IForwardTsnFault };

    fn unmarshal(alloc: Global, raw: &Bytes) -> Result<Self> {
        let (_flags, value) = open_chunk(raw, CT_I_FORWARD_TSN, Error::ErrChunkTypeNotForwardTsn)?;
        if value.len() < NEW_CUMULATIVE_TSN_LENGTH {
            return Err(Error::ErrChunkTooShort);
        }
        let rest = value.len() - NEW_CUMULATIVE_TSN_LENGTH;
        let streams = read_entries(alloc, value, rest / I_FORWARD_TSN_STREAM_ENTRY_LENGTH)?;
        Ok(ChunkIForwardTsn {
            new_cumulative_tsn: read_u32(value, 0),
            streams,
        })
    }

    fn value_length(&self) -> usize {
        let entries = I_FORWARD_TSN_STREAM_ENTRY_LENGTH.saturating_mul(
            self.streams.as_slice().len(),
        );
        NEW_CUMULATIVE_TSN_LENGTH.saturating_add(entries)
    }

    fn chunk_type(&self) -> ChunkType {
        CT_I_FORWARD_TSN
    }

    fn flags(&self) -> u8 {
        0
    }

    fn put_value(&self, buf: &mut BytesMut) {
        put_u32(buf, self.new_cumulative_tsn);
        put_entries(buf, &self.streams);
    }

    fn check(&self) -> Result<()> {
        Ok(())
    }

    fn check_form(&self) -> Result<()> {
        Ok(())
    }
}
