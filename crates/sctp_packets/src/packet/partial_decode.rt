//! A packet of which only the beginning was read.

ghost use Rattle.std.specs.Prelude.{◌≡◌, ◌≤◌, ◌<◌, ◌==◌, ◌||◌, if◌then◌else◌, IfOk, IfErr, OnOk, Option, Some, None, length, drop};
ghost use Rattle.std.specs.List.{AllByRecursion};
ghost use Rattle.sctp_util.specs.declared.error.Error.TheVariants.{ErrChunkValueNotLongEnough};
ghost use Rattle.sctp_util.specs.Outcome.{OrMemory, GivesUnlessMemory};
ghost use Rattle.sctp_util.specs.Field.{u32_at};
ghost use Rattle.sctp_chunks.specs.Kind.{IsFreshKind};
ghost use Rattle.sctp_packets.specs.Packet.{Parts, parts_of, HavePacketEncoding, IsCanonical, ReadsPacket};
ghost use Rattle.sctp_packets.specs.Fault.{WalkFault};
ghost use Rattle.sctp_packets.specs.Partial.{ReadsPartial, Finishes, HasChunks, IsInitType, PartialFault};

use super::{CommonHeader, PACKET_HEADER_SIZE, Packet, open_packet, read_chunks};
use bytes::Bytes;
use sctp_chunks::chunk::chunk_header::{CHUNK_HEADER_SIZE, open_any, share_value};
use sctp_util::error::{Error, Result};
use sctp_util::field::read_u32;
use sctp_util::util::{CT_COOKIE_ECHO, CT_INIT, CT_INIT_ACK, Checksum, ChunkType};
use std::alloc::Global;

/// The bytes of an initiate tag, which a value begins with.
const INITIATE_TAG_LENGTH: usize = 4;

/// What tells where a packet belongs, before its chunks are read: its tag, or where
/// that says nothing, what its first chunk carries (RFC 4960 8.4, 8.5.1).
#[derive(Debug, Drop)]
pub struct PartialDecode {
    /// The header.
    pub common_header: CommonHeader,
    /// The bytes after the header, which `finish` reads.
    pub remaining: Bytes,
    /// The type of the first chunk, which may be of no kind.
    pub first_chunk_type: ChunkType,
    /// The initiate tag, where the first chunk is an INIT or INIT-ACK.
    pub initiate_tag: Option<u32>,
    /// The cookie, where the first chunk is a COOKIE-ECHO.
    pub cookie: Option<Bytes>,
}

/// The initiate tag, where a chunk of this type with this value is an INIT or INIT-ACK.
/// Refuses such a value of under four bytes with `ErrChunkValueNotLongEnough`.
fn initiate_tag_in(typ: ChunkType, value: &[u8]) -> Result<Option<u32>>
    ensures long { OnOk result (IsInitType typ.0 → 4 ≤ length value.now) }
    ensures tag { IfOk result (λ t. t
        ≡ (if typ.0 == 1 || typ.0 == 2 then Some (u32_at value.now 0) else None)) }
    ensures fault { IfErr result (λ e. (e ≡ ErrChunkValueNotLongEnough) × IsInitType typ.0
        × (length value.now < 4)) }
{
    if typ != CT_INIT && typ != CT_INIT_ACK {
        return Ok(None);
    }
    if value.len() < INITIATE_TAG_LENGTH {
        return Err(Error::ErrChunkValueNotLongEnough);
    }
    Ok(Some(read_u32(value, 0)))
}

impl PartialDecode {
    /// Reads the header, tests the checksum, and reads the header of the first
    /// chunk. A packet without chunks is refused.
    /// Refuses as `Packet::unmarshal` does for its header, under four bytes behind it with
    /// `ErrParseSctpChunkNotEnoughData`, the first header as `ChunkHeader::unmarshal` does, an INIT
    /// or INIT-ACK with a value of under four bytes with `ErrChunkValueNotLongEnough`; or for memory.
    pub fn unmarshal<C: Checksum>(
        _alloc: Global,
        raw: &Bytes,
        checksum: &C,
    ) -> Result<PartialDecode>
        ensures found { IfOk result (λ d. ReadsPartial (C.sum checksum.now) raw.now d) }
        ensures only { (d : PartialDecode) → ReadsPartial (C.sum checksum.now) raw.now d
            → GivesUnlessMemory result (λ e. e ≡ d) }
        ensures fault { IfErr result
            (λ e. OrMemory e (PartialFault (C.sum checksum.now) e raw.now)) }
        // What is finished from here is the packet, and each packet with a chunk is finished from here.
        ensures finished { IfOk result (λ d. (p : Parts) → Finishes d p
            → ReadsPacket (C.sum checksum.now) raw.now p × HasChunks p) }
        ensures packets { (p : Parts) → ReadsPacket (C.sum checksum.now) raw.now p → HasChunks p
            → GivesUnlessMemory result (λ d. Finishes d p) }
    {
        let (common_header, remaining) = open_packet(raw, checksum)?;
        if remaining.len() < CHUNK_HEADER_SIZE {
            return Err(Error::ErrParseSctpChunkNotEnoughData);
        }
        let (header, value) = open_any(&remaining)?;
        let initiate_tag = initiate_tag_in(header.typ, value)?;
        let cookie = if header.typ == CT_COOKIE_ECHO {
            Some(share_value(&remaining, value, 0)?)
        } else {
            None
        };
        Ok(PartialDecode {
            common_header,
            remaining,
            first_chunk_type: header.typ,
            initiate_tag,
            cookie,
        })
    }

    /// Reads the chunks. After a successful `unmarshal` it gives the packet exactly
    /// where `Packet::unmarshal` gives it, memory apart.
    /// Refuses as `Packet::unmarshal` does for its chunks, and what was decoded is not handed back.
    pub fn finish(self, alloc: Global) -> Result<Packet>
        ensures found { IfOk result (λ p. Finishes self (parts_of p)) }
        ensures only { (p : Parts)
            → Finishes self p → GivesUnlessMemory result (λ q. parts_of q ≡ p) }
        ensures fault { IfErr result (λ e. OrMemory e (WalkFault e self.remaining)) }
        ensures rewritable { IfOk result (λ p. HavePacketEncoding (parts_of p)) }
        ensures canonical { IfOk result (λ p. IsCanonical (parts_of p)) }
        ensures fresh { IfOk result (λ p. AllByRecursion IsFreshKind p.chunks.items) }
    {
        let chunks = read_chunks(alloc, self.remaining)?;
        Ok(Packet {
            common_header: self.common_header,
            chunks,
        })
    }
}
