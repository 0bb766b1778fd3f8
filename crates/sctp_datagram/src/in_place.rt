//! Chunks read where they lie (RFC 9260 3.2): DATA and SACK without a copy, another kind over a copy of its chunk alone.

ghost use Rattle.std.specs.Prelude.{◌≡◌, ◌≢◌, ◌⊎◌, ◌+◌, ◌*◌, ◌≤◌, ◌<◌, drop, length, IfOk, IfErr, OnOk, IsOk, IsOkUnless};
ghost use Rattle.sctp_util.specs.Each.{each};
ghost use Rattle.sctp_util.specs.Field.{u32_at};
ghost use Rattle.sctp_util.specs.Outcome.{OrMemory};
ghost use Rattle.sctp_util.specs.Padding.{padded_length};
ghost use Rattle.sctp_util.specs.declared.error.Error.TheVariants.{ErrOutOfMemory, ErrParseSctpChunkNotEnoughData};
ghost use Rattle.sctp_chunks.specs.Fault.{DataFault, SackFault};
ghost use Rattle.sctp_chunks.specs.Framing.{declared_length, type_at, value_at};
ghost use Rattle.sctp_chunks.specs.Kind.{KindFault};
ghost use Rattle.sctp_chunks.specs.Wire.{Wire, data_chunk, sack_chunk};
ghost use Rattle.sctp_data.specs.ChunkSet.{IsFreshData};
ghost use Rattle.sctp_data.specs.PayloadData as payload;
ghost use Rattle.sctp_data.specs.PayloadData.{data_of};
ghost use Rattle.sctp_data.specs.SelectiveAck.{block_at, blocks_in, duplicates_in, sack_of};
ghost use Rattle.sctp_datagram.specs.Framing.{ChunkFault, FrameFault, HasChunk, HasFrame, StartsWith};
ghost use Rattle.sctp_datagram.specs.InPlace.{HasInitType, IsInPlace, NoInitFault};
ghost use Rattle.sctp_datagram.specs.Places.{IsPlace};
ghost use Rattle.sctp_datagram.specs.Types as types;

use crate::datagram::ChunkPlace;
use bytes::Bytes;
use sctp_chunks::chunk::Chunk;
use sctp_chunks::chunk::chunk_header::CHUNK_HEADER_SIZE;
use sctp_chunks::chunk::chunk_kind::ChunkKind;
use sctp_chunks::chunk::chunk_payload_data::{
    ChunkPayloadData, PAYLOAD_DATA_BEGINING_FRAGMENT_BITMASK, PAYLOAD_DATA_ENDING_FRAGMENT_BITMASK,
    PAYLOAD_DATA_HEADER_SIZE, PAYLOAD_DATA_IMMEDIATE_SACK, PAYLOAD_DATA_UNORDERED_BITMASK,
};
use sctp_chunks::chunk::chunk_selective_ack::{
    ChunkSelectiveAck, GapAckBlock, SELECTIVE_ACK_HEADER_SIZE,
};
use sctp_util::error::{Error, Result};
use sctp_util::field::{read_u16, read_u32};
use sctp_util::util::{CT_PAYLOAD_DATA, CT_SACK, ChunkType, get_padding_size};
use std::alloc::Global;

/// Whether a chunk of a type is read.
pub(crate) fn is_read_type(typ: u8) -> bool
    ensures { result ≡ types.is_read_type typ }
{
    typ <= 11 || typ == 14 || typ == 130 || typ == 192 || typ == 194
}

/// Whether a chunk of a type is read whole with its packet: all that are read, but for those whose value is a list of parameters or causes.
pub(crate) fn is_whole_type(typ: u8) -> bool
    ensures { result ≡ types.is_whole_type typ }
{
    is_read_type(typ) && !(typ == 1 || typ == 2 || typ == 6 || typ == 9 || typ == 130)
}

/// The length that the chunk declares that the bytes begin with, its header with it. What follows the chunk is not read: padding is ignored
/// (RFC 9260 3.2). Else it refuses as `ChunkHeader::unmarshal` does.
pub fn chunk_length(bytes: &[u8]) -> Result<usize>
    ensures framed { OnOk result (HasFrame bytes.now) }
    ensures length { IfOk result (λ n. n ≡ declared_length bytes.now) }
    ensures fault { IfErr result (λ e. FrameFault e bytes.now) }
{
    if bytes.len() < CHUNK_HEADER_SIZE {
        return Err(Error::ErrChunkHeaderTooSmall);
    }
    let length = read_u16(bytes, 2) as usize;
    if length < CHUNK_HEADER_SIZE {
        return Err(Error::ErrChunkHeaderInvalidLength);
    }
    if bytes.len() < length {
        return Err(Error::ErrChunkHeaderNotEnoughSpace);
    }
    Ok(length)
}

// The value of a chunk that is to have this type; another one is refused with the error `other`.
#[tactic(auto, unfolding(sctp_chunks::specs::Framing::value_at))]
fn value_of(bytes: &[u8], typ: ChunkType, other: Error) -> Result<&[u8]>
    ensures chunk { OnOk result (HasChunk typ.0 bytes.now) }
    ensures value { IfOk result (λ v. v.now ≡ value_at bytes.now) }
    ensures declares { IfOk result (λ v. 4 + length v.now ≡ declared_length bytes.now) }
    ensures fault { IfErr result
        (λ e. FrameFault e bytes.now
        ⊎ ((e ≡ other) × HasFrame bytes.now × (type_at bytes.now ≢ typ.0))) }
{
    let length = chunk_length(bytes)?;
    if bytes[0] != typ.0 {
        return Err(other);
    }
    Ok(&bytes[CHUNK_HEADER_SIZE..length])
}

/// The value of the DATA chunk that the bytes begin with: twelve bytes of numbers, and the user data (RFC 4960 3.3.1). Refuses as
/// `ChunkPayloadData::unmarshal` does the chunk by itself, and takes no memory.
pub fn data_value(bytes: &[u8]) -> Result<&[u8]>
    ensures chunk { OnOk result (HasChunk 0 bytes.now) }
    ensures value { IfOk result (λ v. v.now ≡ value_at bytes.now) }
    ensures declares { IfOk result (λ v. 4 + length v.now ≡ declared_length bytes.now) }
    ensures long { IfOk result (λ v. 12 ≤ length v.now) }
    ensures fault { IfErr result (λ e. ChunkFault DataFault e bytes.now) }
{
    let value = value_of(bytes, CT_PAYLOAD_DATA, Error::ErrChunkTypeNotPayloadData)?;
    if value.len() < PAYLOAD_DATA_HEADER_SIZE {
        return Err(Error::ErrChunkPayloadSmall);
    }
    Ok(value)
}

/// The value of the SACK that the bytes begin with: twelve bytes of numbers, its gap ack blocks and its duplicates (RFC 4960 3.3.4).
/// Refuses as `ChunkSelectiveAck::unmarshal` does the chunk by itself, and takes no memory.
pub fn sack_value(bytes: &[u8]) -> Result<&[u8]>
    ensures chunk { OnOk result (HasChunk 3 bytes.now) }
    ensures value { IfOk result (λ v. v.now ≡ value_at bytes.now) }
    ensures declares { IfOk result (λ v. 4 + length v.now ≡ declared_length bytes.now) }
    ensures headed { IfOk result (λ v. 12 ≤ length v.now) }
    ensures long { IfOk result
        (λ v. 12 + 4 * blocks_in v.now + 4 * duplicates_in v.now ≤ length v.now) }
    ensures fault { IfErr result (λ e. ChunkFault SackFault e bytes.now) }
{
    let value = value_of(bytes, CT_SACK, Error::ErrChunkTypeNotSack)?;
    if value.len() < SELECTIVE_ACK_HEADER_SIZE {
        return Err(Error::ErrSackSizeNotLargeEnoughInfo);
    }
    let blocks = read_u16(value, 8) as usize;
    let duplicates = read_u16(value, 10) as usize;
    if value.len() < SELECTIVE_ACK_HEADER_SIZE + 4 * blocks + 4 * duplicates {
        return Err(Error::ErrSackSizeNotLargeEnoughInfo);
    }
    Ok(value)
}

/// The value of the INIT or INIT-ACK that the bytes begin with: sixteen bytes of numbers, and its parameters (RFC 9260 3.3.2, 3.3.3). Flags and
/// parameters are not looked at. It takes no memory.
#[tactic(auto, unfolding(sctp_chunks::specs::Framing::value_at))]
pub fn init_value(bytes: &[u8]) -> Result<&[u8]>
    ensures init { OnOk result (HasInitType bytes.now) }
    ensures value { IfOk result (λ v. v.now ≡ value_at bytes.now) }
    ensures long { IfOk result (λ v. 16 ≤ length v.now) }
    ensures fault { IfErr result (λ e. NoInitFault e bytes.now) }
{
    let length = chunk_length(bytes)?;
    if bytes[0] != 1 && bytes[0] != 2 {
        return Err(Error::ErrChunkTypeNotTypeInit);
    }
    if length < CHUNK_HEADER_SIZE + 16 {
        return Err(Error::ErrChunkValueNotLongEnough);
    }
    Ok(&bytes[CHUNK_HEADER_SIZE..length])
}

// The DATA chunk of these flags and this value, which ends with these user data.
fn data_made(flags: u8, value: &[u8], user_data: Bytes) -> ChunkPayloadData
    requires long { 12 ≤ length value.now }
    requires end { user_data ≡ drop 12 value.now }
    ensures fields { data_of result ≡ payload.data_in flags value.now }
    ensures fresh { IsFreshData result }
{
    ChunkPayloadData {
        unordered: flags & PAYLOAD_DATA_UNORDERED_BITMASK != 0,
        beginning_fragment: flags & PAYLOAD_DATA_BEGINING_FRAGMENT_BITMASK != 0,
        ending_fragment: flags & PAYLOAD_DATA_ENDING_FRAGMENT_BITMASK != 0,
        immediate_sack: flags & PAYLOAD_DATA_IMMEDIATE_SACK != 0,
        tsn: read_u32(value, 0),
        stream_identifier: read_u16(value, 4),
        stream_sequence_number: read_u16(value, 6),
        payload_type: read_u32(value, 8).into(),
        user_data,
        acked: false,
        miss_indicator: 0,
        message_id: 0,
        abandoned: false,
        since: None,
        reliability: None,
        deadline: None,
        nsent: 0,
        retransmit: false,
    }
}

/// Reads a DATA chunk: its user data alone are copied. Refuses as `ChunkPayloadData::unmarshal` does the chunk by itself, or
/// for memory.
pub fn read_data(alloc: Global, bytes: &[u8]) -> Result<ChunkPayloadData>
    ensures found { IfOk result (λ c. StartsWith bytes.now (data_chunk (data_of c))) }
    ensures fresh { IfOk result (λ c. IsFreshData c) }
    ensures fault { IfErr result (λ e. OrMemory e (ChunkFault DataFault e bytes.now)) }
{
    let value = data_value(bytes)?;
    let user_data = Bytes::copy_from_slice(alloc, &value[PAYLOAD_DATA_HEADER_SIZE..])?;
    Ok(data_made(bytes[1], value, user_data))
}

/// Reads a DATA chunk of a datagram. Its user data share the datagram's bytes, and it takes no memory: it refuses with `ErrOutOfMemory`,
/// and only where the count of those who share them is full.
/// Precondition: the place is that of a DATA chunk.
pub fn data_in(raw: &Bytes, place: ChunkPlace) -> Result<ChunkPayloadData>
    requires place { IsPlace raw.now place }
    requires typ { place.typ ≡ 0 }
    ensures found { IfOk result
        (λ c. StartsWith (drop place.at raw.now) (data_chunk (data_of c))) }
    ensures fresh { IfOk result (λ c. IsFreshData c) }
    ensures memory { IsOkUnless result ErrOutOfMemory }
{
    let chunk = &raw.as_slice()[place.at..];
    let value = &chunk[CHUNK_HEADER_SIZE..place.length];
    let first = place.at + CHUNK_HEADER_SIZE + PAYLOAD_DATA_HEADER_SIZE;
    let user_data = raw.slice(first..place.at + place.length)?;
    Ok(data_made(place.flags, value, user_data))
}

// The gap ack blocks in the value of a SACK that has so many. Refuses only for memory.
#[tactic(auto, using(sctp_util::proofs::EachAt::each_none, sctp_util::proofs::EachAt::each_next))]
fn read_gaps(alloc: Global, value: &[u8], count: usize) -> Result<Vec<GapAckBlock>>
    requires { 12 + 4 * count ≤ length value.now }
    ensures ok { IfOk result (λ v. v.items ≡ each count (λ i. block_at value.now (12 + 4 * i))) }
    ensures memory { IsOkUnless result ErrOutOfMemory }
{
    let mut gaps = Vec::new(alloc);
    for i in 0..count {
        let at = SELECTIVE_ACK_HEADER_SIZE + 4 * i;
        let (start, end) = (read_u16(value, at), read_u16(value, at + 2));
        gaps.push(GapAckBlock { start, end })?;
    }
    Ok(gaps)
}

// So many numbers of four bytes, from a place on. Refuses only for memory.
#[tactic(auto, using(sctp_util::proofs::EachAt::each_none, sctp_util::proofs::EachAt::each_next))]
fn read_numbers(alloc: Global, bytes: &[u8], at: usize, count: usize) -> Result<Vec<u32>>
    requires { at + 4 * count ≤ length bytes.now }
    ensures ok { IfOk result (λ v. v.items ≡ each count (λ i. u32_at bytes.now (at + 4 * i))) }
    ensures memory { IsOkUnless result ErrOutOfMemory }
{
    let mut numbers = Vec::new(alloc);
    for i in 0..count {
        numbers.push(read_u32(bytes, at + 4 * i))?;
    }
    Ok(numbers)
}

/// Reads a SACK: its gap ack blocks and duplicates alone take memory. Refuses as `ChunkSelectiveAck::unmarshal` does the chunk by
/// itself, or for memory.
pub fn read_sack(alloc: Global, bytes: &[u8]) -> Result<ChunkSelectiveAck>
    ensures found { IfOk result (λ c. StartsWith bytes.now (sack_chunk (sack_of c))) }
    ensures fault { IfErr result (λ e. OrMemory e (ChunkFault SackFault e bytes.now)) }
{
    let value = sack_value(bytes)?;
    let blocks = read_u16(value, 8) as usize;
    let duplicates = read_u16(value, 10) as usize;
    let gap_ack_blocks = read_gaps(alloc, value, blocks)?;
    let behind = SELECTIVE_ACK_HEADER_SIZE + 4 * blocks;
    let duplicate_tsn = read_numbers(alloc, value, behind, duplicates)?;
    Ok(ChunkSelectiveAck {
        cumulative_tsn_ack: read_u32(value, 0),
        advertised_receiver_window_credit: read_u32(value, 4),
        gap_ack_blocks,
        duplicate_tsn,
    })
}

// The declared length of the chunk of any kind that the bytes begin with: the chunk alone is copied, and read.
fn copied_length(alloc: Global, bytes: &[u8]) -> Result<usize>
    ensures reads { OnOk result ((w : Wire) × StartsWith bytes.now w) }
    ensures length { IfOk result (λ n. n ≡ declared_length bytes.now) }
    ensures only { (w : Wire) → StartsWith bytes.now w → IsOkUnless result ErrOutOfMemory }
    ensures fault { IfErr result (λ e. OrMemory e (ChunkFault KindFault e bytes.now)) }
{
    let length = chunk_length(bytes)?;
    let chunk = Bytes::copy_from_slice(alloc, &bytes[..length])?;
    ChunkKind::unmarshal(alloc, &chunk)?;
    Ok(length)
}

/// The declared length of the chunk that the bytes begin with, where it can be read. Refuses as `ChunkKind::unmarshal` does the chunk by itself,
/// and for memory, of which a DATA chunk and a SACK take none.
/// Precondition: there are the four bytes of its header.
pub fn read_length(alloc: Global, bytes: &[u8]) -> Result<usize>
    requires { 4 ≤ length bytes.now }
    ensures reads { OnOk result ((w : Wire) × StartsWith bytes.now w) }
    ensures length { IfOk result (λ n. n ≡ declared_length bytes.now) }
    ensures only { (w : Wire) → StartsWith bytes.now w → IsOkUnless result ErrOutOfMemory }
    ensures in_place { (w : Wire) → IsInPlace w → StartsWith bytes.now w → IsOk result }
    ensures fault { IfErr result (λ e. OrMemory e (ChunkFault KindFault e bytes.now)) }
{
    match ChunkType(bytes[0]) {
        CT_PAYLOAD_DATA => Ok(CHUNK_HEADER_SIZE + data_value(bytes)?.len()),
        CT_SACK => Ok(CHUNK_HEADER_SIZE + sack_value(bytes)?.len()),
        _ if is_read_type(bytes[0]) => copied_length(alloc, bytes),
        _ => {
            chunk_length(bytes)?;
            Err(Error::ErrUnmarshalUnknownChunkType)
        }
    }
}

/// How many bytes a chunk of this length takes with its padding. Refuses with `ErrParseSctpChunkNotEnoughData`, where they are not there.
pub fn padded_span(bytes: &[u8], declared: usize) -> Result<usize>
    requires { declared ≤ length bytes.now }
    ensures span { IfOk result (λ n. (n ≡ padded_length declared) × (n ≤ length bytes.now)) }
    ensures fault { IfErr result (λ e. (e ≡ ErrParseSctpChunkNotEnoughData)
        × (length bytes.now < padded_length declared)) }
{
    let span = declared + get_padding_size(declared);
    if bytes.len() < span {
        return Err(Error::ErrParseSctpChunkNotEnoughData);
    }
    Ok(span)
}
