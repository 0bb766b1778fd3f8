//! The requests of a RE-CONFIG that go out: from their words, and from bytes (RFC 6525 3.1, 4).

ghost use Rattle.std.specs.Prelude.{◌≡◌, ◌≢◌, ◌⊎◌, ◌+◌, ◌*◌, ◌<◌, ◌≤◌, ◌++◌, true, length, IfOk, IfErr, IsOkUnless};
ghost use Rattle.std.specs.List.{flat_map};
ghost use Rattle.sctp_util.specs.Field.{be16, be32};
ghost use Rattle.sctp_util.specs.Outcome.{OrMemory};
ghost use Rattle.sctp_util.specs.declared.error.Error.TheVariants.{ErrLengthTooLarge, ErrOutOfMemory};
ghost use Rattle.sctp_params.specs.ParamFraming.{param_framed};
ghost use Rattle.sctp_c.specs.Out.{at_front, IsWritten, IsTooShort};
ghost use Rattle.sctp_c.specs.Requests as words;
ghost use Rattle.sctp_c.specs.Requests.{add_streams_bytes, incoming_reset_bytes, reset_bytes, ssn_tsn_reset_bytes};

use crate::bytes_out::put_padded;
use crate::code::{SCTPR_OK, SCTPR_SHORT_BUFFER, of_error};
use crate::reconfig::{SctpAddStreams, SctpReset};
use bytes::{Bytes, BytesMut};
use sctp_util::error::{Error, Result};
use sctp_util::field::{put_u16, read_u16};
use sctp_util::util::get_padding_size;
use std::alloc::Global;

// ---- From their words --------------------------------------------------------------------------------------------------------

// Appends streams, two bytes each.
fn put_streams(buf: &mut BytesMut, streams: &[u16])
    requires { 2 * length streams.now ≤ buf.old.spare }
    ensures { buf.new.items ≡ buf.old.items ++ flat_map be16 streams.now }
{
    for stream in streams {
        put_u16(buf, *stream);
    }
}

// A parameter of a type, whose value is these bytes and the streams behind them.
fn streams_param(alloc: Global, typ: u16, front: &[u8], streams: &[u16]) -> Result<Bytes>
    requires { length front.now ≤ 12 }
    ensures ok { IfOk result (λ b. b ≡ param_framed typ (front.now ++ flat_map be16 streams.now)) }
    ensures short { IfOk result (λ _. length front.now + 2 * length streams.now ≤ 65531) }
    ensures err { IfErr result (λ e. OrMemory e ((e ≡ ErrLengthTooLarge)
        × (65531 < length front.now + 2 * length streams.now))) }
    ensures only { IfErr result (λ e. 65531 < length front.now + 2 * length streams.now
        → e ≡ ErrLengthTooLarge) }
{
    if streams.len() > (65_531 - front.len()) / 2 {
        return Err(Error::ErrLengthTooLarge);
    }
    let length = 4 + front.len() + 2 * streams.len();
    let mut raw = BytesMut::new(alloc);
    raw.reserve(length)?;
    put_u16(&mut raw, typ);
    put_u16(&mut raw, length as u16);
    raw.extend_reserved(front);
    put_streams(&mut raw, streams);
    Ok(raw.freeze()?)
}

// The three numbers of an Outgoing SSN Reset Request.
#[tactic(auto, unfolding(sctp_util::specs::Field::be32))]
fn put_numbers(place: &mut [u8], reset: &SctpReset)
    requires { length place.old ≡ 12 }
    ensures { place.new
        ≡ be32 reset.now.request ++ be32 reset.now.response ++ be32 reset.now.last_tsn }
{
    let (request, rest) = place.split_at_mut(4);
    let (response, last_tsn) = rest.split_at_mut(4);
    request.copy_from_slice(&u32::to_be_bytes(reset.request));
    response.copy_from_slice(&u32::to_be_bytes(reset.response));
    last_tsn.copy_from_slice(&u32::to_be_bytes(reset.last_tsn));
}

/// Writes an Outgoing SSN Reset Request with its padding (RFC 6525 4.1); no stream means all. `written` becomes how many bytes that is, also
/// where it refuses with `SCTPR_SHORT_BUFFER`. Refuses with `SCTPR_LENGTH_TOO_LARGE` exactly where there are more than 32,759 streams, and
/// with `SCTPR_NO_MEMORY`.
#[unsafe(no_mangle)]
pub extern "C" fn sctpr_write_reset(
    alloc: Global,
    reset: &SctpReset,
    streams: &[u16],
    out: &mut [u8],
    written: &mut usize,
) -> u32
    ensures codes { (result ≡ 0) ⊎ ((result ≡ 16) ⊎ ((result ≡ 17) ⊎ (result ≡ 19))) }
    ensures done { result ≡ 0
        → IsWritten (λ b. b ≡ reset_bytes reset.now streams.now) out.old out.new written.new }
    ensures short { result ≡ 17
        → IsTooShort (λ b. b ≡ reset_bytes reset.now streams.now) out.old out.new written.new }
    ensures large { result ≡ 19 → 32759 < length streams.now }
    ensures only { 32759 < length streams.now → result ≡ 19 }
    ensures kept { result ≢ 0 → result ≢ 17
        → (out.new ≡ out.old) × (written.new ≡ written.old) }
{
    let mut front = [0u8; 12];
    put_numbers(&mut front, reset);
    match streams_param(alloc, 13, &front, streams) {
        Ok(bytes) => put_padded(out, written, &bytes),
        Err(e) => of_error(e),
    }
}

/// Writes an Incoming SSN Reset Request with its padding (RFC 6525 4.2): the peer is asked to reset these streams that it sends on, or all
/// where there is none. Otherwise as `sctpr_write_reset`, with up to 32,763 streams.
#[tactic(auto, unfolding(sctp_util::specs::Field::be32))]
#[unsafe(no_mangle)]
pub extern "C" fn sctpr_write_incoming_reset(
    alloc: Global,
    request: u32,
    streams: &[u16],
    out: &mut [u8],
    written: &mut usize,
) -> u32
    ensures codes { (result ≡ 0) ⊎ ((result ≡ 16) ⊎ ((result ≡ 17) ⊎ (result ≡ 19))) }
    ensures done { result ≡ 0 → IsWritten (λ b. b ≡ incoming_reset_bytes request streams.now)
        out.old out.new written.new }
    ensures short { result ≡ 17 → IsTooShort (λ b. b ≡ incoming_reset_bytes request streams.now)
        out.old out.new written.new }
    ensures large { result ≡ 19 → 32763 < length streams.now }
    ensures only { 32763 < length streams.now → result ≡ 19 }
    ensures kept { result ≢ 0 → result ≢ 17
        → (out.new ≡ out.old) × (written.new ≡ written.old) }
{
    match streams_param(alloc, 14, &u32::to_be_bytes(request), streams) {
        Ok(bytes) => put_padded(out, written, &bytes),
        Err(e) => of_error(e),
    }
}

// Puts the eight bytes of an SSN/TSN Reset Request.
#[tactic(auto, unfolding(sctp_util::specs::Field::be16, sctp_util::specs::Field::be32))]
fn put_ssn_tsn_reset(place: &mut [u8], request: u32)
    requires { length place.old ≡ 8 }
    ensures { place.new ≡ ssn_tsn_reset_bytes request }
{
    let (front, rest) = place.split_at_mut(2);
    let (size, number) = rest.split_at_mut(2);
    front.copy_from_slice(&u16::to_be_bytes(15));
    size.copy_from_slice(&u16::to_be_bytes(8));
    number.copy_from_slice(&u32::to_be_bytes(request));
}

/// Writes an SSN/TSN Reset Request (RFC 6525 4.3). `written` becomes 8, also where it refuses with `SCTPR_SHORT_BUFFER`; nothing else changed
/// then. It takes no memory.
#[unsafe(no_mangle)]
pub extern "C" fn sctpr_write_ssn_tsn_reset(
    request: u32,
    out: &mut [u8],
    written: &mut usize,
) -> u32
    ensures written { written.new ≡ 8 }
    ensures done { result ≡ 0 → out.new ≡ at_front (ssn_tsn_reset_bytes request) out.old }
    ensures short { result ≢ 0
        → (result ≡ 17) × (length out.old < 8) × (out.new ≡ out.old) }
{
    *written = 8;
    if out.len() < 8 {
        return SCTPR_SHORT_BUFFER;
    }
    put_ssn_tsn_reset(&mut out[..8], request);
    SCTPR_OK
}

// Puts the twelve bytes of a request to add streams.
#[tactic(auto, unfolding(sctp_util::specs::Field::be16, sctp_util::specs::Field::be32))]
fn put_add_streams(place: &mut [u8], add: &SctpAddStreams)
    requires { length place.old ≡ 12 }
    ensures { place.new ≡ add_streams_bytes add.now }
{
    let typ: u16 = if add.is_incoming == 0 { 17 } else { 18 };
    let (front, rest) = place.split_at_mut(2);
    let (size, value) = rest.split_at_mut(2);
    let (number, streams) = value.split_at_mut(4);
    let (count, reserved) = streams.split_at_mut(2);
    front.copy_from_slice(&u16::to_be_bytes(typ));
    size.copy_from_slice(&u16::to_be_bytes(12));
    number.copy_from_slice(&u32::to_be_bytes(add.request));
    count.copy_from_slice(&u16::to_be_bytes(add.count));
    reserved.copy_from_slice(&u16::to_be_bytes(0));
}

/// Writes an Add Outgoing Streams Request, or where `is_incoming` is not 0 an Add Incoming Streams Request (RFC 6525 4.5, 4.6). `written`
/// becomes 12, also where it refuses with `SCTPR_SHORT_BUFFER`; nothing else changed then. It takes no memory.
#[unsafe(no_mangle)]
pub extern "C" fn sctpr_write_add_streams(
    add: &SctpAddStreams,
    out: &mut [u8],
    written: &mut usize,
) -> u32
    ensures written { written.new ≡ 12 }
    ensures done { result ≡ 0 → out.new ≡ at_front (add_streams_bytes add.now) out.old }
    ensures short { result ≢ 0
        → (result ≡ 17) × (length out.old < 12) × (out.new ≡ out.old) }
{
    *written = 12;
    if out.len() < 12 {
        return SCTPR_SHORT_BUFFER;
    }
    put_add_streams(&mut out[..12], add);
    SCTPR_OK
}

// ---- From their bytes --------------------------------------------------------------------------------------------------------

/// Whether no reader of a whole packet takes a request of a type.
pub fn is_own(typ: u16) -> bool
    ensures { result ≡ words.is_own typ }
{
    typ == 14 || typ == 15 || typ == 17 || typ == 18
}

/// Whether a request of a type has a value of so many bytes.
pub fn has_length_of(typ: u16, n: usize) -> bool
    ensures { result ≡ words.has_length_of typ n }
{
    (typ == 13 && n >= 12 && n % 2 == 0)
        || (typ == 14 && n >= 4 && n % 2 == 0)
        || (typ == 15 && n == 4)
        || ((typ == 17 || typ == 18) && n == 8)
}

// Whether the bytes begin with a request that has the length of its type.
fn is_sized(bytes: &[u8]) -> bool
    ensures sized { result ≡ words.is_sized bytes.now }
{
    if bytes.len() < 4 {
        return false;
    }
    let length = read_u16(bytes, 2) as usize;
    length >= 4 && length <= bytes.len() && has_length_of(read_u16(bytes, 0), length - 4)
}

// How many bytes the parameter that the bytes begin with takes with its padding.
fn padded_span(bytes: &[u8]) -> usize
    requires { 4 ≤ length bytes.now }
    ensures { result ≡ words.padded_span bytes.now }
{
    let length = read_u16(bytes, 2) as usize;
    length + get_padding_size(length)
}

// Whether such a request is the last one.
fn is_last(bytes: &[u8]) -> bool
    ensures { result ≡ words.is_last bytes.now }
{
    is_sized(bytes) && bytes.len() <= padded_span(bytes)
}

fn may_precede(a: u16, b: u16) -> bool
    ensures { result ≡ words.may_precede a b }
{
    (a == 13 && b == 14) || (a == 17 && b == 18)
}

// Whether two requests stand one behind the other.
fn are_two(value: &[u8]) -> bool
    ensures { result ≡ words.are_two value.now }
{
    if !is_sized(value) || value.len() < padded_span(value) {
        return false;
    }
    let rest = &value[padded_span(value)..];
    is_last(rest) && may_precede(read_u16(value, 0), read_u16(rest, 0))
}

/// Where the requests of a value end, without the padding of the last one; 0, where it is neither one of the types 14, 15, 17 and 18 nor two
/// that may stand together (RFC 6525 3.1).
pub fn requests_end(value: &[u8]) -> usize
    ensures end { result ≡ words.requests_end value.now }
    ensures within { result ≤ length value.now }
{
    if is_last(value) && is_own(read_u16(value, 0)) {
        return read_u16(value, 2) as usize;
    }
    if are_two(value) {
        let span = padded_span(value);
        return span + read_u16(&value[span..], 2) as usize;
    }
    0
}
