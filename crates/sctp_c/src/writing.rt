//! Chunks and parameters that go out, into a caller's buffer.

ghost use Rattle.std.specs.Prelude.{◌≡◌, ◌≢◌, ◌⊎◌, ◌+◌, ◌^◌, ◌<◌, ◌≤◌, ℕ, None, true, false, length, All, IfOk, IfErr, IfSome, IsOkUnless};
ghost use Rattle.sctp_util.specs.declared.error.Error.TheVariants.{ErrLengthTooLarge, ErrOutOfMemory};
ghost use Rattle.sctp_util.specs.Outcome.{GivesUnlessMemory, OrMemory};
ghost use Rattle.sctp_params.specs.Param.{Parameter};
ghost use Rattle.sctp_params.specs.ParamFraming.{param_framed};
ghost use Rattle.sctp_params.specs.ParamKind.{ParamFault, ReadsParam};
ghost use Rattle.sctp_chunks.specs.Framing.{chunk_encoding};
ghost use Rattle.sctp_chunks.specs.Kind.{wire_of};
ghost use Rattle.sctp_chunks.specs.Wire.{Wire, ReadsChunk, HasEncoding, type_of, value_of};
ghost use Rattle.sctp_c.specs.Out.{padded, IsWritten, IsTooShort};
ghost use Rattle.sctp_c.specs.Refusal.{IsRefusal};
ghost use Rattle.sctp_c.specs.Requests as words;
ghost use Rattle.sctp_c.specs.Written.{AreRequests, IsAsGiven, IsChanged, IsChunk, IsDataValue, IsEncoded, IsFlaggedChunk, IsFramedChunk, IsReadChunk};
ghost use Rattle.sctp_c.specs.Written.{IsOwnParam, IsOwnRequest, IsParam, IsReadParam};
ghost use Rattle.sctp_c.specs.Written.{ChunkFault, FlaggedChunkFault, ParameterFault, init_type, init_bytes};

use crate::bytes_out::put_padded;
use crate::code::{SCTPR_NOT_AS_GIVEN, of_error};
use crate::reading::SctpInit;
use crate::requests::{has_length_of, is_own, requests_end};
use bytes::{Bytes, BytesMut};
use sctp_chunks::chunk::chunk_header::{CHUNK_HEADER_SIZE, put_header};
use sctp_chunks::chunk::chunk_kind::ChunkKind;
use sctp_chunks::chunk::chunk_payload_data::PAYLOAD_DATA_HEADER_SIZE;
use sctp_chunks::chunk::{Chunk, ChunkType};
use sctp_params::param::param_kind::build_param;
use sctp_util::error::{Error, Result};
use sctp_util::field::{put_u16, put_u32};
use sctp_util::util::get_padding_size;
use std::alloc::Global;

// A header, and the value behind it.
fn framed(alloc: Global, typ: u8, flags: u8, value: &[u8]) -> Result<Bytes>
    ensures ok { IfOk result (λ b. b ≡ chunk_encoding typ flags value.now) }
    ensures short { IfOk result (λ _. 4 + length value.now < 2 ^ 16) }
    ensures err { IfErr result (λ e. OrMemory e
        ((e ≡ ErrLengthTooLarge) × (65531 < length value.now))) }
{
    let mut raw = BytesMut::new(alloc);
    put_header(&mut raw, ChunkType(typ), flags, value.len())?;
    raw.extend_reserved(value);
    Ok(raw.freeze()?)
}

// A chunk under these flags, whatever flags its kind is written with.
fn encoded_under(alloc: Global, flags: u8, chunk: &ChunkKind) -> Result<Bytes>
    requires { HasEncoding (wire_of chunk.now) }
    ensures ok { IfOk result (λ b. b ≡ chunk_encoding (type_of (wire_of chunk.now)) flags
        (value_of (wire_of chunk.now))) }
    ensures memory { IsOkUnless result ErrOutOfMemory }
{
    let mut raw = BytesMut::new(alloc);
    put_header(&mut raw, chunk.chunk_type(), flags, chunk.value_length())?;
    chunk.put_value(&mut raw);
    Ok(raw.freeze()?)
}

// The chunk of a type, flags and a value, read as a chunk of its kind and written as that kind is, under the flags.
fn chunk_of(alloc: Global, typ: u8, flags: u8, value: &[u8]) -> Result<Bytes>
    ensures found { IfOk result (λ b. IsEncoded typ flags value.now b) }
    ensures only { (w : Wire) → ReadsChunk (chunk_encoding typ flags value.now) w
        → 4 + length value.now < 2 ^ 16
        → GivesUnlessMemory result (λ b. b ≡ chunk_encoding (type_of w) flags (value_of w)) }
    ensures fault { IfErr result (λ e. OrMemory e (FlaggedChunkFault typ flags value.now e)) }
{
    let raw = framed(alloc, typ, flags, value)?;
    let read = ChunkKind::unmarshal(alloc, &raw)?;
    encoded_under(alloc, flags, &read)
}

fn is_same(a: &[u8], b: &[u8]) -> bool
    ensures yes { result ≡ true → a.now ≡ b.now }
    ensures no { result ≡ false → a.now ≡ b.now → ⊥ }
{
    a == b
}

fn is_zeros(bytes: &[u8]) -> bool
    ensures yes { result ≡ true → All (λ x. x ≡ 0) bytes.now }
    ensures no { result ≡ false → All (λ x. x ≡ 0) bytes.now → ⊥ }
{
    bytes.iter().all(|b| *b == 0)
}

// Whether a value was read as what was given.
fn is_as_given(given: &[u8], read: &[u8]) -> bool
    ensures yes { result ≡ true → IsAsGiven given.now read.now }
    ensures no { result ≡ false → IsAsGiven given.now read.now → ⊥ }
{
    if is_same(given, read) {
        return true;
    }
    let length = read.len();
    if given.len() != length + get_padding_size(length) {
        return false;
    }
    let (front, rest) = given.split_at(length);
    is_same(front, read) && is_zeros(rest)
}

// Writes the chunk of a type, flags and a value with its padding, where it is read so.
fn write_read(
    alloc: Global,
    typ: u8,
    flags: u8,
    value: &[u8],
    out: &mut [u8],
    written: &mut usize,
) -> u32
    ensures done { result ≡ 0
        → IsWritten (IsReadChunk typ flags value.now) out.old out.new written.new }
    ensures short { result ≡ 17
        → IsTooShort (IsReadChunk typ flags value.now) out.old out.new written.new }
    ensures changed { result ≡ 90 → IsChanged typ flags value.now }
    ensures only { (w : Wire) → ReadsChunk (chunk_encoding typ flags value.now) w
        → IsAsGiven value.now (value_of w) → 4 + length value.now < 2 ^ 16
        → result ≢ 0 → result ≢ 17 → result ≡ 16 }
    ensures refused { result ≢ 0 → result ≢ 17 → result ≢ 90
        → IsRefusal (FlaggedChunkFault typ flags value.now) result }
    ensures kept { result ≢ 0 → result ≢ 17
        → (out.new ≡ out.old) × (written.new ≡ written.old) }
{
    let bytes = match chunk_of(alloc, typ, flags, value) {
        Ok(bytes) => bytes,
        Err(e) => return of_error(e),
    };
    if !is_as_given(value, &bytes[CHUNK_HEADER_SIZE..]) {
        return SCTPR_NOT_AS_GIVEN;
    }
    put_padded(out, written, &bytes)
}

// Writes a header, and the value behind it, with its padding.
fn write_framed(
    alloc: Global,
    typ: u8,
    flags: u8,
    value: &[u8],
    out: &mut [u8],
    written: &mut usize,
) -> u32
    ensures codes { (result ≡ 0) ⊎ ((result ≡ 16) ⊎ ((result ≡ 17) ⊎ (result ≡ 19))) }
    ensures done { result ≡ 0
        → IsWritten (IsFramedChunk typ flags value.now) out.old out.new written.new }
    ensures short { result ≡ 17
        → IsTooShort (IsFramedChunk typ flags value.now) out.old out.new written.new }
    ensures large { result ≡ 19 → 65531 < length value.now }
    ensures kept { result ≢ 0 → result ≢ 17
        → (out.new ≡ out.old) × (written.new ≡ written.old) }
{
    match framed(alloc, typ, flags, value) {
        Ok(bytes) => put_padded(out, written, &bytes),
        Err(e) => of_error(e),
    }
}

// Where the requests end that are the value of a RE-CONFIG, as it is given.
fn given_end(typ: u8, value: &[u8]) -> Option<usize>
    ensures found { IfSome result (λ end. AreRequests typ value.now end) }
    ensures within { IfSome result (λ end. end ≤ length value.now) }
    ensures none { result ≡ None → (end : ℕ) → AreRequests typ value.now end → ⊥ }
{
    let end = requests_end(value);
    if typ != 130 || end == 0 || !is_as_given(value, &value[..end]) {
        return None;
    }
    Some(end)
}

// Writes the chunk of a type, flags and a value with its padding.
fn write_under(
    alloc: Global,
    typ: u8,
    flags: u8,
    value: &[u8],
    out: &mut [u8],
    written: &mut usize,
) -> u32
    ensures done { result ≡ 0
        → IsWritten (IsFlaggedChunk typ flags value.now) out.old out.new written.new }
    ensures short { result ≡ 17
        → IsTooShort (IsFlaggedChunk typ flags value.now) out.old out.new written.new }
    ensures changed { result ≡ 90 → IsChanged typ flags value.now }
    ensures only { (w : Wire) → ReadsChunk (chunk_encoding typ flags value.now) w
        → IsAsGiven value.now (value_of w) → 4 + length value.now < 2 ^ 16
        → result ≢ 0 → result ≢ 17 → result ≡ 16 }
    ensures requests { (end : ℕ) → AreRequests typ value.now end
        → 4 + length value.now < 2 ^ 16 → result ≢ 0 → result ≢ 17 → result ≡ 16 }
    ensures payload { IsDataValue typ value.now
        → 4 + length value.now < 2 ^ 16 → result ≢ 0 → result ≢ 17 → result ≡ 16 }
    ensures refused { result ≢ 0 → result ≢ 17 → result ≢ 90
        → IsRefusal (FlaggedChunkFault typ flags value.now) result }
    ensures kept { result ≢ 0 → result ≢ 17
        → (out.new ≡ out.old) × (written.new ≡ written.old) }
{
    if typ == 0 && value.len() >= PAYLOAD_DATA_HEADER_SIZE {
        return write_framed(alloc, typ, flags, value, out, written);
    }
    match given_end(typ, value) {
        Some(end) => write_framed(alloc, typ, flags, &value[..end], out, written),
        None => write_read(alloc, typ, flags, value, out, written),
    }
}

/// Writes a chunk of a type and a value with its padding, its flags 0: of any type that is read (RFC 4960 3.2, 3.3), a RE-CONFIG of any
/// requests (RFC 6525 3.1), and DATA of any payload type (RFC 9260 3.3.1). `written` becomes how many bytes that is, or with
/// `SCTPR_SHORT_BUFFER` would be. Refuses with `SCTPR_NOT_AS_GIVEN`, where other bytes would be written, and with `SCTPR_LENGTH_TOO_LARGE`.
#[unsafe(no_mangle)]
pub extern "C" fn sctpr_write_chunk(
    alloc: Global,
    typ: u8,
    value: &[u8],
    out: &mut [u8],
    written: &mut usize,
) -> u32
    ensures done { result ≡ 0
        → IsWritten (IsChunk typ value.now) out.old out.new written.new }
    ensures short { result ≡ 17
        → IsTooShort (IsChunk typ value.now) out.old out.new written.new }
    ensures changed { result ≡ 90 → IsChanged typ 0 value.now }
    ensures only { (w : Wire) → ReadsChunk (chunk_encoding typ 0 value.now) w
        → IsAsGiven value.now (value_of w) → 4 + length value.now < 2 ^ 16
        → result ≢ 0 → result ≢ 17 → result ≡ 16 }
    ensures requests { (end : ℕ) → AreRequests typ value.now end
        → 4 + length value.now < 2 ^ 16 → result ≢ 0 → result ≢ 17 → result ≡ 16 }
    ensures payload { IsDataValue typ value.now
        → 4 + length value.now < 2 ^ 16 → result ≢ 0 → result ≢ 17 → result ≡ 16 }
    ensures refused { result ≢ 0 → result ≢ 17 → result ≢ 90
        → IsRefusal (ChunkFault typ value.now) result }
    ensures kept { result ≢ 0 → result ≢ 17
        → (out.new ≡ out.old) × (written.new ≡ written.old) }
{
    write_under(alloc, typ, 0, value, out, written)
}

/// As `sctpr_write_chunk`, with flags, as they are given. So the T bit of an ABORT or a SHUTDOWN-COMPLETE is set, which is 1 (RFC 4960
/// 3.3.7, 3.3.13): its packet has the verification tag of the packet that it answers (8.4, 8.5.1). An INIT or INIT-ACK is refused with
/// flags other than 0.
#[unsafe(no_mangle)]
pub extern "C" fn sctpr_write_chunk_with_flags(
    alloc: Global,
    typ: u8,
    flags: u8,
    value: &[u8],
    out: &mut [u8],
    written: &mut usize,
) -> u32
    ensures done { result ≡ 0
        → IsWritten (IsFlaggedChunk typ flags value.now) out.old out.new written.new }
    ensures short { result ≡ 17
        → IsTooShort (IsFlaggedChunk typ flags value.now) out.old out.new written.new }
    ensures changed { result ≡ 90 → IsChanged typ flags value.now }
    ensures only { (w : Wire) → ReadsChunk (chunk_encoding typ flags value.now) w
        → IsAsGiven value.now (value_of w) → 4 + length value.now < 2 ^ 16
        → result ≢ 0 → result ≢ 17 → result ≡ 16 }
    ensures requests { (end : ℕ) → AreRequests typ value.now end
        → 4 + length value.now < 2 ^ 16 → result ≢ 0 → result ≢ 17 → result ≡ 16 }
    ensures payload { IsDataValue typ value.now
        → 4 + length value.now < 2 ^ 16 → result ≢ 0 → result ≢ 17 → result ≡ 16 }
    ensures refused { result ≢ 0 → result ≢ 17 → result ≢ 90
        → IsRefusal (FlaggedChunkFault typ flags value.now) result }
    ensures kept { result ≢ 0 → result ≢ 17
        → (out.new ≡ out.old) × (written.new ≡ written.old) }
{
    write_under(alloc, typ, flags, value, out, written)
}

#[tactic(auto, unfolding(crate::specs::Written::init_bytes))]
fn init_value(alloc: Global, init: &SctpInit, params: &[u8]) -> Result<BytesMut>
    ensures ok { IfOk result (λ b. b.items ≡ init_bytes init.now params.now) }
    ensures memory { IsOkUnless result ErrOutOfMemory }
{
    let mut value = BytesMut::new(alloc);
    value.reserve(16)?;
    put_u32(&mut value, init.initiate_tag);
    put_u32(&mut value, init.credit);
    put_u16(&mut value, init.outbound_streams);
    put_u16(&mut value, init.inbound_streams);
    put_u32(&mut value, init.initial_tsn);
    value.extend_from_slice(params)?;
    Ok(value)
}

/// Writes an INIT, or where `is_ack` is not 0 an INIT-ACK, with its padding (RFC 4960 3.3.2, 3.3.3). `params` are its parameters, each with
/// its padding, as `sctpr_write_param` writes them. Otherwise as `sctpr_write_chunk`.
#[unsafe(no_mangle)]
pub extern "C" fn sctpr_write_init(
    alloc: Global,
    init: &SctpInit,
    params: &[u8],
    out: &mut [u8],
    written: &mut usize,
) -> u32
    ensures done { result ≡ 0
        → IsWritten (IsChunk (init_type init.now) (init_bytes init.now params.now))
        out.old out.new written.new }
    ensures short { result ≡ 17
        → IsTooShort (IsChunk (init_type init.now) (init_bytes init.now params.now))
        out.old out.new written.new }
    ensures changed { result ≡ 90
        → IsChanged (init_type init.now) 0 (init_bytes init.now params.now) }
    ensures only { (w : Wire)
        → ReadsChunk (chunk_encoding (init_type init.now) 0 (init_bytes init.now params.now)) w
        → IsAsGiven (init_bytes init.now params.now) (value_of w)
        → 4 + length (init_bytes init.now params.now) < 2 ^ 16
        → result ≢ 0 → result ≢ 17 → result ≡ 16 }
    ensures refused { result ≢ 0 → result ≢ 17 → result ≢ 90
        → IsRefusal (ChunkFault (init_type init.now) (init_bytes init.now params.now)) result }
    ensures kept { result ≢ 0 → result ≢ 17
        → (out.new ≡ out.old) × (written.new ≡ written.old) }
{
    let typ = if init.is_ack == 0 { 1 } else { 2 };
    match init_value(alloc, init, params) {
        Ok(value) => write_under(alloc, typ, 0, value.as_slice(), out, written),
        Err(e) => of_error(e),
    }
}

#[tactic(auto, unfolding(sctp_util::specs::Field::be16))]
fn framed_param(alloc: Global, typ: u16, value: &[u8]) -> Result<Bytes>
    ensures ok { IfOk result (λ b. b ≡ param_framed typ value.now) }
    ensures short { IfOk result (λ _. 4 + length value.now < 2 ^ 16) }
    ensures err { IfErr result (λ e. OrMemory e
        ((e ≡ ErrLengthTooLarge) × (65531 < length value.now))) }
{
    if value.len() > 65_531 {
        return Err(Error::ErrLengthTooLarge);
    }
    let length = 4 + value.len();
    let mut raw = BytesMut::new(alloc);
    raw.reserve(length)?;
    put_u16(&mut raw, typ);
    put_u16(&mut raw, length as u16);
    raw.extend_reserved(value);
    Ok(raw.freeze()?)
}

// A parameter of a type and a value, where a reader takes it.
fn read_param(alloc: Global, typ: u16, value: &[u8]) -> Result<Bytes>
    ensures ok { IfOk result (λ b. IsReadParam typ value.now (padded b)) }
    ensures only { (p : Parameter) → ReadsParam (param_framed typ value.now) p
        → 4 + length value.now < 2 ^ 16 → IsOkUnless result ErrOutOfMemory }
    ensures fault { IfErr result (λ e. OrMemory e
        (((e ≡ ErrLengthTooLarge) × (65531 < length value.now))
        ⊎ ParamFault e (param_framed typ value.now))) }
{
    let raw = framed_param(alloc, typ, value)?;
    build_param(alloc, &raw)?;
    Ok(raw)
}

// A request that no reader of a whole packet takes.
fn own_param(alloc: Global, typ: u16, value: &[u8]) -> Result<Bytes>
    requires { words.is_own typ ≡ true }
    ensures ok { IfOk result (λ b. IsOwnParam typ value.now (padded b)) }
    ensures only { words.has_length_of typ (length value.now) ≡ true
        → 4 + length value.now < 2 ^ 16 → IsOkUnless result ErrOutOfMemory }
    ensures fault { IfErr result (λ e. OrMemory e (ParameterFault typ value.now e)) }
{
    if !has_length_of(typ, value.len()) {
        return Err(Error::ErrSsnResetRequestParamInvalidLength);
    }
    framed_param(alloc, typ, value)
}

// A parameter of a type and a value.
fn param_of(alloc: Global, typ: u16, value: &[u8]) -> Result<Bytes>
    ensures ok { IfOk result (λ b. IsParam typ value.now (padded b)) }
    ensures only { (p : Parameter) → ReadsParam (param_framed typ value.now) p
        → 4 + length value.now < 2 ^ 16 → IsOkUnless result ErrOutOfMemory }
    ensures own { IsOwnRequest typ value.now
        → 4 + length value.now < 2 ^ 16 → IsOkUnless result ErrOutOfMemory }
    ensures fault { IfErr result (λ e. OrMemory e (ParameterFault typ value.now e)) }
{
    if is_own(typ) {
        own_param(alloc, typ, value)
    } else {
        read_param(alloc, typ, value)
    }
}

/// Writes a parameter with its padding (RFC 4960 3.2.1). `written` becomes how many bytes that is, also where it refuses with
/// `SCTPR_SHORT_BUFFER`. Refuses with `SCTPR_LENGTH_TOO_LARGE` a value of more than 65,531 bytes, and with the reader's error where no reader
/// takes that value for that type. A request of the types 14, 15, 17 and 18 is written, where it has the length of its type (RFC 6525 4).
#[unsafe(no_mangle)]
pub extern "C" fn sctpr_write_param(
    alloc: Global,
    typ: u16,
    value: &[u8],
    out: &mut [u8],
    written: &mut usize,
) -> u32
    ensures done { result ≡ 0 → IsWritten (IsParam typ value.now) out.old out.new written.new }
    ensures short { result ≡ 17
        → IsTooShort (IsParam typ value.now) out.old out.new written.new }
    ensures only { (p : Parameter) → ReadsParam (param_framed typ value.now) p
        → 4 + length value.now < 2 ^ 16 → result ≢ 0 → result ≢ 17 → result ≡ 16 }
    ensures own { IsOwnRequest typ value.now
        → 4 + length value.now < 2 ^ 16 → result ≢ 0 → result ≢ 17 → result ≡ 16 }
    ensures refused { result ≢ 0 → result ≢ 17 → IsRefusal (ParameterFault typ value.now) result }
    ensures kept { result ≢ 0 → result ≢ 17
        → (out.new ≡ out.old) × (written.new ≡ written.old) }
{
    match param_of(alloc, typ, value) {
        Ok(bytes) => put_padded(out, written, &bytes),
        Err(e) => of_error(e),
    }
}
