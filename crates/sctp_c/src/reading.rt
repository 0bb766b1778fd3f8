//! Chunks and parameters that came, as numbers.

ghost use Rattle.std.specs.Prelude.{◌≡◌, ◌≢◌, ◌⊎◌, ◌+◌, ◌*◌, ◌≤◌, ℕ, length, map, IfOk, IfErr};
ghost use Rattle.sctp_util.specs.Each.{each};
ghost use Rattle.sctp_util.specs.Field.{u32_at};
ghost use Rattle.sctp_util.specs.Outcome.{OrMemory, GivesUnlessMemory};
ghost use Rattle.sctp_params.specs.Param.{Parameter};
ghost use Rattle.sctp_params.specs.ParamFraming.{IsParam};
ghost use Rattle.sctp_params.specs.ParamKind.{ReadsParam, ParamFault, parameter_of};
ghost use Rattle.sctp_chunks.specs.Fault.{DataFault, SackFault, ForwardTsnFault, ShutdownFault};
ghost use Rattle.sctp_chunks.specs.Init.{Init};
ghost use Rattle.sctp_chunks.specs.Wire.{Wire, ReadsChunk, data_chunk, sack_chunk, forward_tsn_chunk, init_chunk, shutdown_chunk};
ghost use Rattle.sctp_data.specs.PayloadData.{Data, data_in, weight};
ghost use Rattle.sctp_data.specs.SelectiveAck.{Sack, block_at};
ghost use Rattle.sctp_data.specs.ForwardTsn.{ForwardTsn};
ghost use Rattle.sctp_datagram.specs.Framing.{ChunkFault, StartsWith};
ghost use Rattle.sctp_datagram.specs.InPlace.{HasInit, NoInitFault};
ghost use Rattle.sctp_c.specs.Out.{filled};
ghost use Rattle.sctp_c.specs.Refusal.{IsFaultCode, IsRefusal};
ghost use Rattle.sctp_c.specs.Answered.{IsAnyParameter, IsData, IsSack, IsForwardTsn, IsInit, IsParameter};
ghost use Rattle.sctp_c.specs.Answered.{data_answered, gap_answered, init_answered, skip_answered};

use crate::code::{SCTPR_OK, of_error};
use bytes::Bytes;
use sctp_chunks::chunk::Chunk;
use sctp_chunks::chunk::chunk_forward_tsn::{ChunkForwardTsn, ChunkForwardTsnStream};
use sctp_chunks::chunk::chunk_payload_data::{
    PAYLOAD_DATA_BEGINING_FRAGMENT_BITMASK, PAYLOAD_DATA_ENDING_FRAGMENT_BITMASK,
    PAYLOAD_DATA_HEADER_SIZE, PAYLOAD_DATA_IMMEDIATE_SACK, PAYLOAD_DATA_UNORDERED_BITMASK,
};
use sctp_chunks::chunk::chunk_selective_ack::SELECTIVE_ACK_HEADER_SIZE;
use sctp_chunks::chunk::chunk_shutdown::ChunkShutdown;
use sctp_datagram::in_place::{data_value, init_value, sack_value};
use sctp_datagram::params::param_at;
use sctp_params::param::param_kind::{ParamKind, build_param};
use sctp_util::error::Result;
use sctp_util::field::{read_u16, read_u32};
use sctp_util::util::get_padding_size;
use std::alloc::Global;

/// A DATA chunk but for its user data, which are `length` bytes from byte 16 of the chunk on (RFC 4960 3.3.1). The flags are 0 or 1.
#[repr(C)]
#[derive(Clone, Copy)]
pub struct SctpData {
    pub length: usize,
    pub tsn: u32,
    /// As it came.
    pub payload_type: u32,
    pub stream: u16,
    pub sequence: u16,
    pub is_unordered: u8,
    pub begins: u8,
    pub ends: u8,
    pub wants_sack: u8,
}

/// A SACK but for its blocks and duplicates, of which these are the counts (RFC 4960 3.3.4).
#[repr(C)]
#[derive(Clone, Copy)]
pub struct SctpSack {
    pub blocks: usize,
    pub duplicates: usize,
    pub cumulative_tsn: u32,
    pub credit: u32,
}

/// A run of TSNs that came, by the distances of its first and its last from the cumulative one.
#[repr(C)]
#[derive(Clone, Copy)]
pub struct SctpGap {
    pub start: u16,
    pub end: u16,
}

/// A stream, and the last message that is skipped on it (RFC 3758 3.2).
#[repr(C)]
#[derive(Clone, Copy)]
pub struct SctpSkip {
    pub stream: u16,
    pub sequence: u16,
}

/// An INIT, or where `is_ack` is not 0 an INIT-ACK, but for its parameters, which begin at byte 20 of the chunk (RFC 4960 3.3.2, 3.3.3).
#[repr(C)]
#[derive(Clone, Copy)]
pub struct SctpInit {
    pub initiate_tag: u32,
    pub credit: u32,
    pub initial_tsn: u32,
    pub outbound_streams: u16,
    pub inbound_streams: u16,
    pub is_ack: u8,
}

/// A parameter: its value is `length` bytes from byte 4 on, and the next one begins at byte `next` (RFC 4960 3.2.1).
#[repr(C)]
#[derive(Clone, Copy)]
pub struct SctpParam {
    pub length: usize,
    pub next: usize,
    pub typ: u16,
}

/// Reads bytes as a chunk of a kind. Refuses as `Chunk::unmarshal` does, or for memory.
pub fn read<C: Chunk>(alloc: Global, chunk: &[u8]) -> Result<C>
    ensures found { IfOk result (λ c. ReadsChunk chunk.now (C.wire c)) }
    ensures only { (w : Wire) → C.IsKind w → ReadsChunk chunk.now w
        → GivesUnlessMemory result (λ c. C.wire c ≡ w) }
    ensures fault { IfErr result (λ e. OrMemory e (C.fault e chunk.now)) }
    ensures fresh { IfOk result (λ c. C.IsFresh c) }
{
    let bytes = Bytes::copy_from_slice(alloc, chunk)?;
    C::unmarshal(alloc, &bytes)
}

fn flag(set: bool) -> u8
    ensures { result ≡ weight set 1 }
{
    if set { 1 } else { 0 }
}

// The numbers of a DATA chunk with these flags and this value.
fn answered(flags: u8, value: &[u8]) -> SctpData
    requires { 12 ≤ length value.now }
    ensures { result ≡ data_answered (u32_at value.now 8) (data_in flags value.now) }
{
    SctpData {
        length: value.len() - PAYLOAD_DATA_HEADER_SIZE,
        tsn: read_u32(value, 0),
        payload_type: read_u32(value, 8),
        stream: read_u16(value, 4),
        sequence: read_u16(value, 6),
        is_unordered: flag(flags & PAYLOAD_DATA_UNORDERED_BITMASK != 0),
        begins: flag(flags & PAYLOAD_DATA_BEGINING_FRAGMENT_BITMASK != 0),
        ends: flag(flags & PAYLOAD_DATA_ENDING_FRAGMENT_BITMASK != 0),
        wants_sack: flag(flags & PAYLOAD_DATA_IMMEDIATE_SACK != 0),
    }
}

/// Reads a DATA chunk. Its padding is ignored (RFC 9260 3.2). Refuses as `ChunkPayloadData::unmarshal` does the chunk by itself, and then
/// changes nothing.
#[unsafe(no_mangle)]
pub extern "C" fn sctpr_read_data(_alloc: Global, chunk: &[u8], fields: &mut SctpData) -> u32
    ensures read { result ≡ 0 → IsData chunk.now fields.new }
    ensures only { (d : Data) → StartsWith chunk.now (data_chunk d) → result ≢ 0 → result ≡ 16 }
    ensures refused { result ≢ 0 → IsRefusal (λ e. ChunkFault DataFault e chunk.now) result }
    // It takes no memory.
    ensures granted { result ≢ 16 }
    ensures kept { result ≢ 0 → fields.new ≡ fields.old }
{
    match data_value(chunk) {
        Ok(value) => {
            *fields = answered(chunk[1], value);
            SCTPR_OK
        }
        Err(e) => of_error(e),
    }
}

// Writes the gap ack blocks in the value of a SACK that has so many: as many as there are rows.
fn fill_gaps(rows: &mut [SctpGap], value: &[u8], count: usize)
    requires { 12 + 4 * count ≤ length value.now }
    ensures { rows.new ≡ filled (map gap_answered
        (each count (λ i. block_at value.now (12 + 4 * i)))) rows.old }
{
    let filled = rows.len().min(count);
    for i in 0..filled {
        let at = SELECTIVE_ACK_HEADER_SIZE + 4 * i;
        rows[i] = SctpGap {
            start: read_u16(value, at),
            end: read_u16(value, at + 2),
        };
    }
}

// Writes numbers of four bytes, of which so many stand from a place on: as many as there are rows.
fn fill_numbers(rows: &mut [u32], bytes: &[u8], at: usize, count: usize)
    requires { at + 4 * count ≤ length bytes.now }
    ensures { rows.new ≡ filled (each count (λ i. u32_at bytes.now (at + 4 * i))) rows.old }
{
    let filled = rows.len().min(count);
    for i in 0..filled {
        rows[i] = read_u32(bytes, at + 4 * i);
    }
}

fn fill_skips(rows: &mut [SctpSkip], streams: &[ChunkForwardTsnStream])
    ensures { rows.new ≡ filled (map skip_answered streams.now) rows.old }
{
    let count = rows.len().min(streams.len());
    for i in 0..count {
        rows[i] = SctpSkip {
            stream: streams[i].identifier,
            sequence: streams[i].sequence,
        };
    }
}

/// Reads a SACK. As many blocks and duplicates as there is room for stand in `blocks` and `duplicates`; `sack` says how many there are.
/// Its padding is ignored (RFC 9260 3.2). Refuses as `ChunkSelectiveAck::unmarshal` does the chunk by itself, and then changes nothing.
#[unsafe(no_mangle)]
pub extern "C" fn sctpr_read_sack(
    _alloc: Global,
    chunk: &[u8],
    sack: &mut SctpSack,
    blocks: &mut [SctpGap],
    duplicates: &mut [u32],
) -> u32
    ensures read { result ≡ 0
        → IsSack chunk.now sack.new blocks.old blocks.new duplicates.old duplicates.new }
    ensures only { (s : Sack) → StartsWith chunk.now (sack_chunk s) → result ≢ 0 → result ≡ 16 }
    ensures refused { result ≢ 0 → IsRefusal (λ e. ChunkFault SackFault e chunk.now) result }
    // It takes no memory.
    ensures granted { result ≢ 16 }
    ensures kept { result ≢ 0 → (sack.new ≡ sack.old) × (blocks.new ≡ blocks.old)
        × (duplicates.new ≡ duplicates.old) }
{
    match sack_value(chunk) {
        Ok(value) => {
            let gaps = read_u16(value, 8) as usize;
            let repeats = read_u16(value, 10) as usize;
            *sack = SctpSack {
                blocks: gaps,
                duplicates: repeats,
                cumulative_tsn: read_u32(value, 0),
                credit: read_u32(value, 4),
            };
            fill_gaps(blocks, value, gaps);
            let behind = SELECTIVE_ACK_HEADER_SIZE + 4 * gaps;
            fill_numbers(duplicates, value, behind, repeats);
            SCTPR_OK
        }
        Err(e) => of_error(e),
    }
}

/// Reads a FORWARD-TSN. `count` becomes how many streams it names, and as many as there is room for stand in `streams`. Refuses as
/// `ChunkForwardTsn::unmarshal` does, and then changes nothing.
#[unsafe(no_mangle)]
pub extern "C" fn sctpr_read_forward_tsn(
    alloc: Global,
    chunk: &[u8],
    new_cumulative_tsn: &mut u32,
    streams: &mut [SctpSkip],
    count: &mut usize,
) -> u32
    ensures read { result ≡ 0
        → IsForwardTsn chunk.now new_cumulative_tsn.new count.new streams.old streams.new }
    ensures only { (f : ForwardTsn) → ReadsChunk chunk.now (forward_tsn_chunk f)
        → result ≢ 0 → result ≡ 16 }
    ensures refused { result ≢ 0 → IsRefusal (λ e. ForwardTsnFault e chunk.now) result }
    ensures kept { result ≢ 0 → (new_cumulative_tsn.new ≡ new_cumulative_tsn.old)
        × (count.new ≡ count.old) × (streams.new ≡ streams.old) }
{
    match read::<ChunkForwardTsn>(alloc, chunk) {
        Ok(read) => {
            *new_cumulative_tsn = read.new_cumulative_tsn;
            *count = read.streams.len();
            fill_skips(streams, &read.streams);
            SCTPR_OK
        }
        Err(e) => of_error(e),
    }
}

/// Reads the numbers of an INIT or INIT-ACK. Flags are ignored (RFC 9260 3.3.2), and its parameters, from byte 20 on, are walked by
/// `sctpr_read_any_param`. It takes no memory.
#[unsafe(no_mangle)]
pub extern "C" fn sctpr_read_init(chunk: &[u8], init: &mut SctpInit) -> u32
    ensures read { result ≡ 0 → IsInit chunk.now init.new }
    ensures only { HasInit chunk.now → result ≡ 0 }
    // What the reader of whole packets takes is read, with the same numbers.
    ensures strict { (i : Init) → ReadsChunk chunk.now (init_chunk i)
        → (result ≡ 0) × (init.new ≡ init_answered i) }
    ensures refused { result ≢ 0 → IsFaultCode (λ e. NoInitFault e chunk.now) result }
    ensures kept { result ≢ 0 → init.new ≡ init.old }
{
    match init_value(chunk) {
        Ok(value) => {
            *init = SctpInit {
                initiate_tag: read_u32(value, 0),
                credit: read_u32(value, 4),
                initial_tsn: read_u32(value, 12),
                outbound_streams: read_u16(value, 8),
                inbound_streams: read_u16(value, 10),
                is_ack: flag(chunk[0] == 2),
            };
            SCTPR_OK
        }
        Err(e) => of_error(e),
    }
}

/// Reads a SHUTDOWN: `cumulative_tsn` becomes the TSN up to which its sender received all (RFC 4960 3.3.8). Refuses as
/// `ChunkShutdown::unmarshal` does, and then changes nothing.
#[unsafe(no_mangle)]
pub extern "C" fn sctpr_read_shutdown(alloc: Global, chunk: &[u8], cumulative_tsn: &mut u32) -> u32
    ensures read { result ≡ 0 → ReadsChunk chunk.now (shutdown_chunk cumulative_tsn.new) }
    ensures only { (n : ℕ) → ReadsChunk chunk.now (shutdown_chunk n) → result ≢ 0 → result ≡ 16 }
    ensures refused { result ≢ 0 → IsRefusal (λ e. ShutdownFault e chunk.now) result }
    ensures kept { result ≢ 0 → cumulative_tsn.new ≡ cumulative_tsn.old }
{
    match read::<ChunkShutdown>(alloc, chunk) {
        Ok(read) => {
            *cumulative_tsn = read.cumulative_tsn_ack;
            SCTPR_OK
        }
        Err(e) => of_error(e),
    }
}

fn read_param(alloc: Global, raw: &[u8]) -> Result<ParamKind>
    ensures found { IfOk result (λ p. ReadsParam raw.now (parameter_of p)) }
    ensures only { (p : Parameter)
        → ReadsParam raw.now p → GivesUnlessMemory result (λ q. parameter_of q ≡ p) }
    ensures fault { IfErr result (λ e. OrMemory e (ParamFault e raw.now)) }
{
    let bytes = Bytes::copy_from_slice(alloc, raw)?;
    build_param(alloc, &bytes)
}

/// Reads the parameter that the bytes begin with. Refuses as `build_param` does, and then changes nothing.
#[unsafe(no_mangle)]
pub extern "C" fn sctpr_read_param(alloc: Global, raw: &[u8], param: &mut SctpParam) -> u32
    ensures read { result ≡ 0 → IsParameter raw.now param.new }
    ensures only { (p : Parameter) → ReadsParam raw.now p → result ≢ 0 → result ≡ 16 }
    ensures refused { result ≢ 0 → IsRefusal (λ e. ParamFault e raw.now) result }
    ensures kept { result ≢ 0 → param.new ≡ param.old }
{
    match read_param(alloc, raw) {
        Ok(_) => {
            let length = read_u16(raw, 2) as usize;
            let next = length + get_padding_size(length);
            *param = SctpParam {
                length: length - 4,
                next: next.min(raw.len()),
                typ: read_u16(raw, 0),
            };
            SCTPR_OK
        }
        Err(e) => of_error(e),
    }
}

/// Reads the header of the parameter that the bytes begin with, of any type and with any value (RFC 9260 3.2.1). Refuses with the code of
/// `ErrParamHeaderTooShort`, exactly where they begin with none, and then changes nothing. It takes no memory.
#[unsafe(no_mangle)]
pub extern "C" fn sctpr_read_any_param(raw: &[u8], param: &mut SctpParam) -> u32
    ensures codes { (result ≡ 0) ⊎ (result ≡ 81) }
    ensures read { result ≡ 0 → IsAnyParameter raw.now param.new }
    ensures fault { result ≡ 81 → IsParam raw.now → ⊥ }
    ensures kept { result ≢ 0 → param.new ≡ param.old }
{
    match param_at(raw, 0) {
        Ok(place) => {
            *param = SctpParam {
                length: place.length,
                next: place.next,
                typ: place.typ,
            };
            SCTPR_OK
        }
        Err(e) => of_error(e),
    }
}
