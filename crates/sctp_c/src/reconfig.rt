//! The parameters of a RE-CONFIG as numbers: its requests, and its response (RFC 6525 4).

ghost use Rattle.std.specs.Prelude.{◌≡◌, ◌≢◌, ◌+◌, ◌*◌, ◌-◌, ◌/◌, ◌^◌, ◌<◌, ◌≤◌, ◌++◌, ◌⊎◌, length, IfOk, IfErr, OnOk, IsOkUnless};
ghost use Rattle.sctp_util.specs.Each.{each};
ghost use Rattle.sctp_util.specs.Field.{u16_at};
ghost use Rattle.sctp_util.specs.Outcome.{OrMemory};
ghost use Rattle.sctp_util.specs.declared.error.Error.TheVariants.{ErrLengthTooLarge, ErrOutOfMemory};
ghost use Rattle.sctp_params.specs.ParamFraming.{IsParam, param_framed, param_type_at, param_value_at};
ghost use Rattle.sctp_c.specs.Out.{at_front, filled};
ghost use Rattle.sctp_c.specs.Reconfig as words;
ghost use Rattle.sctp_c.specs.Reconfig.{IsAddStreams, IsIncomingReset, IsRequest, IsReset, IsResponse, response_bytes};
ghost use Rattle.sctp_c.specs.Reconfig.{AddStreamsFault, IncomingResetFault, NoParamFault, RequestFault, ResetFault, ResponseFault};
ghost use Rattle.sctp_c.specs.Refusal.{IsFaultCode};

use crate::code::{SCTPR_OK, SCTPR_SHORT_BUFFER, of_error};
use sctp_util::error::{Error, Result};
use sctp_util::field::{read_u16, read_u32};

/// An Outgoing SSN Reset Request but for its streams (RFC 6525 4.1).
#[repr(C)]
#[derive(Clone, Copy)]
pub struct SctpReset {
    /// The Re-configuration Request Sequence Number.
    pub request: u32,
    /// The Re-configuration Response Sequence Number.
    pub response: u32,
    /// The Sender's Last Assigned TSN.
    pub last_tsn: u32,
}

/// An Add Outgoing Streams Request, or where `is_incoming` is not 0 an Add Incoming Streams Request (RFC 6525 4.5, 4.6).
#[repr(C)]
#[derive(Clone, Copy)]
pub struct SctpAddStreams {
    /// The Re-configuration Request Sequence Number.
    pub request: u32,
    /// The number of new streams.
    pub count: u16,
    /// Whose they are: 0, the sender's of the request; else the receiver's.
    pub is_incoming: u8,
}

/// A Re-configuration Response, but for the TSNs that it may have (RFC 6525 4.4).
#[repr(C)]
#[derive(Clone, Copy)]
pub struct SctpResponse {
    /// The number of the request that it answers.
    pub response: u32,
    /// 0 to 6 (RFC 6525 4.4).
    pub result: u32,
}

// The value of the parameter that the bytes begin with.
#[tactic(auto, unfolding(sctp_params::specs::ParamFraming::param_value_at))]
fn param_value(raw: &[u8]) -> Result<&[u8]>
    ensures is { OnOk result (IsParam raw.now) }
    ensures value { IfOk result (λ v. v.now ≡ param_value_at raw.now) }
    ensures fault { IfErr result (λ e. NoParamFault e raw.now) }
{
    let length = if raw.len() < 4 {
        0
    } else {
        read_u16(raw, 2) as usize
    };
    if length < 4 || raw.len() < length {
        return Err(Error::ErrParamHeaderTooShort);
    }
    Ok(&raw[4..length])
}

// Whether a parameter of a type is a request.
fn is_request(typ: u16) -> bool
    ensures { result ≡ words.is_request typ }
{
    typ == 13 || typ == 14 || typ == 15 || typ == 17 || typ == 18
}

// The number of a request.
fn request_number(raw: &[u8]) -> Result<u32>
    ensures ok { IfOk result (λ n. IsRequest raw.now n) }
    ensures fault { IfErr result (λ e. RequestFault e raw.now) }
{
    let value = param_value(raw)?;
    if !is_request(read_u16(raw, 0)) {
        return Err(Error::ErrParamTypeUnexpected);
    }
    if value.len() < 4 {
        return Err(Error::ErrSsnResetRequestParamTooShort);
    }
    Ok(read_u32(value, 0))
}

/// Reads the number of the request that the bytes begin with: `number` becomes its Re-configuration Request Sequence Number (RFC 6525 4.1,
/// 4.2, 4.3, 4.5, 4.6). A response with this number answers it. It takes no memory.
#[unsafe(no_mangle)]
pub extern "C" fn sctpr_read_request(raw: &[u8], number: &mut u32) -> u32
    ensures read { result ≡ 0 → IsRequest raw.now number.new }
    ensures refused { result ≢ 0 → IsFaultCode (λ e. RequestFault e raw.now) result }
    ensures kept { result ≢ 0 → number.new ≡ number.old }
{
    match request_number(raw) {
        Ok(read) => {
            *number = read;
            SCTPR_OK
        }
        Err(e) => of_error(e),
    }
}

// The value of an Outgoing SSN Reset Request.
fn reset_value(raw: &[u8]) -> Result<&[u8]>
    ensures value { IfOk result (λ v. v.now ≡ param_value_at raw.now) }
    ensures is { OnOk result (IsParam raw.now × (param_type_at raw.now ≡ 13)) }
    ensures long { IfOk result (λ v. 12 ≤ length v.now) }
    ensures even { IfOk result (λ v. words.IsEven (length v.now)) }
    ensures fault { IfErr result (λ e. ResetFault e raw.now) }
{
    let value = param_value(raw)?;
    if read_u16(raw, 0) != 13 {
        return Err(Error::ErrParamTypeUnexpected);
    }
    if value.len() < 12 {
        return Err(Error::ErrSsnResetRequestParamTooShort);
    }
    if value.len() % 2 != 0 {
        return Err(Error::ErrSsnResetRequestParamInvalidLength);
    }
    Ok(value)
}

// Writes numbers of two bytes, of which so many stand from a place on: as many as there are rows.
fn fill_shorts(rows: &mut [u16], bytes: &[u8], at: usize, count: usize)
    requires { at + 2 * count ≤ length bytes.now }
    ensures { rows.new ≡ filled (each count (λ i. u16_at bytes.now (at + 2 * i))) rows.old }
{
    let filled = rows.len().min(count);
    for i in 0..filled {
        rows[i] = read_u16(bytes, at + 2 * i);
    }
}

/// Reads the Outgoing SSN Reset Request that the bytes begin with (RFC 6525 4.1). `count` becomes how many streams it names, none where it
/// means all, and as many as there is room for stand in `streams`. It takes no memory.
#[unsafe(no_mangle)]
pub extern "C" fn sctpr_read_reset(
    raw: &[u8],
    reset: &mut SctpReset,
    streams: &mut [u16],
    count: &mut usize,
) -> u32
    ensures read { result ≡ 0 → IsReset raw.now reset.new count.new streams.old streams.new }
    ensures refused { result ≢ 0 → IsFaultCode (λ e. ResetFault e raw.now) result }
    ensures kept { result ≢ 0 → (reset.new ≡ reset.old) × (count.new ≡ count.old)
        × (streams.new ≡ streams.old) }
{
    match reset_value(raw) {
        Ok(value) => {
            *reset = SctpReset {
                request: read_u32(value, 0),
                response: read_u32(value, 4),
                last_tsn: read_u32(value, 8),
            };
            *count = (value.len() - 12) / 2;
            fill_shorts(streams, value, 12, (value.len() - 12) / 2);
            SCTPR_OK
        }
        Err(e) => of_error(e),
    }
}

// The value of an Incoming SSN Reset Request.
fn incoming_reset_value(raw: &[u8]) -> Result<&[u8]>
    ensures value { IfOk result (λ v. v.now ≡ param_value_at raw.now) }
    ensures is { OnOk result (IsParam raw.now × (param_type_at raw.now ≡ 14)) }
    ensures long { IfOk result (λ v. 4 ≤ length v.now) }
    ensures even { IfOk result (λ v. words.IsEven (length v.now)) }
    ensures fault { IfErr result (λ e. IncomingResetFault e raw.now) }
{
    let value = param_value(raw)?;
    if read_u16(raw, 0) != 14 {
        return Err(Error::ErrParamTypeUnexpected);
    }
    if value.len() < 4 {
        return Err(Error::ErrSsnResetRequestParamTooShort);
    }
    if value.len() % 2 != 0 {
        return Err(Error::ErrSsnResetRequestParamInvalidLength);
    }
    Ok(value)
}

/// Reads the Incoming SSN Reset Request that the bytes begin with (RFC 6525 4.2): `number` becomes its number, `count` how many streams it
/// names, none where it means all, and as many as there is room for stand in `streams`. It takes no memory.
#[unsafe(no_mangle)]
pub extern "C" fn sctpr_read_incoming_reset(
    raw: &[u8],
    number: &mut u32,
    streams: &mut [u16],
    count: &mut usize,
) -> u32
    ensures read { result ≡ 0
        → IsIncomingReset raw.now number.new count.new streams.old streams.new }
    ensures refused { result ≢ 0 → IsFaultCode (λ e. IncomingResetFault e raw.now) result }
    ensures kept { result ≢ 0 → (number.new ≡ number.old) × (count.new ≡ count.old)
        × (streams.new ≡ streams.old) }
{
    match incoming_reset_value(raw) {
        Ok(value) => {
            *number = read_u32(value, 0);
            *count = (value.len() - 4) / 2;
            fill_shorts(streams, value, 4, (value.len() - 4) / 2);
            SCTPR_OK
        }
        Err(e) => of_error(e),
    }
}

// The value of a request to add streams.
fn add_streams_value(raw: &[u8]) -> Result<&[u8]>
    ensures value { IfOk result (λ v. v.now ≡ param_value_at raw.now) }
    ensures is { OnOk result (IsParam raw.now
        × ((param_type_at raw.now ≡ 17) ⊎ (param_type_at raw.now ≡ 18))) }
    ensures long { IfOk result (λ v. length v.now ≡ 8) }
    ensures fault { IfErr result (λ e. AddStreamsFault e raw.now) }
{
    let value = param_value(raw)?;
    let typ = read_u16(raw, 0);
    if typ != 17 && typ != 18 {
        return Err(Error::ErrParamTypeUnexpected);
    }
    if value.len() != 8 {
        return Err(Error::ErrSsnResetRequestParamInvalidLength);
    }
    Ok(value)
}

/// Reads the Add Outgoing Streams Request or Add Incoming Streams Request that the bytes begin with (RFC 6525 4.5, 4.6). It takes no memory.
#[unsafe(no_mangle)]
pub extern "C" fn sctpr_read_add_streams(raw: &[u8], add: &mut SctpAddStreams) -> u32
    ensures read { result ≡ 0 → IsAddStreams raw.now add.new }
    ensures refused { result ≢ 0 → IsFaultCode (λ e. AddStreamsFault e raw.now) result }
    ensures kept { result ≢ 0 → add.new ≡ add.old }
{
    match add_streams_value(raw) {
        Ok(value) => {
            *add = SctpAddStreams {
                request: read_u32(value, 0),
                count: read_u16(value, 4),
                is_incoming: if read_u16(raw, 0) == 17 { 0 } else { 1 },
            };
            SCTPR_OK
        }
        Err(e) => of_error(e),
    }
}

// The value of a Re-configuration Response.
fn response_value(raw: &[u8]) -> Result<&[u8]>
    ensures value { IfOk result (λ v. v.now ≡ param_value_at raw.now) }
    ensures is { OnOk result (IsParam raw.now × (param_type_at raw.now ≡ 16)) }
    ensures long { IfOk result (λ v. 8 ≤ length v.now) }
    ensures fault { IfErr result (λ e. ResponseFault e raw.now) }
{
    let value = param_value(raw)?;
    if read_u16(raw, 0) != 16 {
        return Err(Error::ErrParamTypeUnexpected);
    }
    if value.len() < 8 {
        return Err(Error::ErrReconfigRespParamTooShort);
    }
    Ok(value)
}

/// Reads the Re-configuration Response that the bytes begin with (RFC 6525 4.4). The TSNs that may follow are not read. It takes no memory.
#[unsafe(no_mangle)]
pub extern "C" fn sctpr_read_response(raw: &[u8], response: &mut SctpResponse) -> u32
    ensures read { result ≡ 0 → IsResponse raw.now response.new }
    ensures refused { result ≢ 0 → IsFaultCode (λ e. ResponseFault e raw.now) result }
    ensures kept { result ≢ 0 → response.new ≡ response.old }
{
    match response_value(raw) {
        Ok(value) => {
            *response = SctpResponse {
                response: read_u32(value, 0),
                result: read_u32(value, 4),
            };
            SCTPR_OK
        }
        Err(e) => of_error(e),
    }
}

// Puts the twelve bytes of a response.
#[tactic(auto, unfolding(sctp_util::specs::Field::be16, sctp_util::specs::Field::be32))]
fn put_response(place: &mut [u8], response: &SctpResponse)
    requires { length place.old ≡ 12 }
    ensures { place.new ≡ response_bytes response.now }
{
    let (front, rest) = place.split_at_mut(2);
    let (size, value) = rest.split_at_mut(2);
    let (number, outcome) = value.split_at_mut(4);
    front.copy_from_slice(&u16::to_be_bytes(16));
    size.copy_from_slice(&u16::to_be_bytes(12));
    number.copy_from_slice(&u32::to_be_bytes(response.response));
    outcome.copy_from_slice(&u32::to_be_bytes(response.result));
}

/// Writes a Re-configuration Response without TSNs, with any result: 0 "nothing to do", 1 "performed", 2 "denied", 3 to 6 as in RFC 6525 4.4.
/// `written` becomes 12, also where it refuses with `SCTPR_SHORT_BUFFER`; nothing else changed then. It takes no memory.
#[unsafe(no_mangle)]
pub extern "C" fn sctpr_write_response(
    response: &SctpResponse,
    out: &mut [u8],
    written: &mut usize,
) -> u32
    ensures written { written.new ≡ 12 }
    ensures done { result ≡ 0 → out.new ≡ at_front (response_bytes response.now) out.old }
    ensures short { result ≢ 0
        → (result ≡ 17) × (length out.old < 12) × (out.new ≡ out.old) }
{
    *written = 12;
    if out.len() < 12 {
        return SCTPR_SHORT_BUFFER;
    }
    put_response(&mut out[..12], response);
    SCTPR_OK
}
