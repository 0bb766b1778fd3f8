//! The request to reset outgoing streams (RFC 6525 4.1).

ghost use Rattle.std.specs.Prelude.{◌≡◌, ◌+◌, ◌*◌, ◌≤◌, ◌++◌, length, IfOk, IsOkUnless};
ghost use Rattle.sctp_util.specs.declared.error.Error.TheVariants.{ErrOutOfMemory};
ghost use Rattle.std.specs.List.{flat_map};
ghost use Rattle.sctp_util.specs.Field.{be16, u16_at};
ghost use Rattle.sctp_util.specs.Each.{each};
ghost use Rattle.sctp_params.specs.ResetRequest.{reset_request_of};
ghost use Rattle.sctp_params.specs.Param.{outgoing_reset_request};
ghost use Rattle.sctp_params.specs.ParamKinds.{IsOutgoingResetRequest};
ghost use Rattle.sctp_params.specs.ParamFault.{ResetRequestFault};

use super::Param;
use super::param_header::open_param;
use super::param_type::ParamType;
use bytes::{Bytes, BytesMut};
use sctp_util::error::{Error, Result};
use sctp_util::field::{put_u16, put_u32, read_u16, read_u32};
use std::alloc::Global;
use std::fmt;

/// Where the stream identifiers begin in the value, in bytes.
pub const PARAM_OUTGOING_RESET_REQUEST_STREAM_IDENTIFIERS_OFFSET: usize = 12;

/// The request to reset some outgoing streams, or all of them where none is listed (RFC 6525 4.1,
/// type 13). The value is three numbers of four bytes, then two bytes for each stream.
/// Refuses a value of under 12 bytes with `ErrSsnResetRequestParamTooShort`, an odd
/// longer one with `ErrSsnResetRequestParamInvalidLength`.
#[derive(Debug, Drop, PartialEq, Eq)]
pub struct ParamOutgoingResetRequest {
    /// The number of this request: it begins at the initial TSN and rises by one with each request.
    pub reconfig_request_sequence_number: u32,
    /// Where this request answers one of the peer's, the number of that request;
    /// else the next number expected, minus one.
    pub reconfig_response_sequence_number: u32,
    /// The last TSN that the sender assigned.
    pub sender_last_tsn: u32,
    /// The streams whose numbers are to begin at 0 again.
    pub stream_identifiers: Vec<u16>,
}

impl fmt::Display for ParamOutgoingResetRequest {
    fn fmt<W: fmt::Write>(&self, f: &mut fmt::Formatter<W>) -> fmt::Result {
        write!(
            f,
            "{} {} {} {} {:?}",
            self.param_type(),
            self.reconfig_request_sequence_number,
            self.reconfig_response_sequence_number,
            self.sender_last_tsn,
            self.stream_identifiers
        )
    }
}

/// Reads so many stream identifiers from `at` on, two bytes each. Refuses only for memory.
/// Precondition: they are there.
#[tactic(auto, using(sctp_util::proofs::EachAt::each_none, sctp_util::proofs::EachAt::each_next))]
fn read_streams(alloc: Global, value: &[u8], at: usize, count: usize) -> Result<Vec<u16>>
    requires { at + 2 * count ≤ length value.now }
    ensures ok { IfOk result (λ v. v.items ≡ each count (λ i. u16_at value.now (at + 2 * i))) }
    ensures memory { IsOkUnless result ErrOutOfMemory }
{
    let mut streams = Vec::new(alloc);
    for i in 0..count {
        streams.push(read_u16(value, at + 2 * i))?;
    }
    Ok(streams)
}

/// Appends stream identifiers, two bytes each.
/// Precondition: the buffer has room for them.
fn put_streams(buf: &mut BytesMut, streams: &[u16])
    requires { 2 * length streams.now ≤ buf.old.spare }
    ensures items { buf.new.items ≡ buf.old.items ++ flat_map be16 streams.now }
    ensures spare { buf.new.spare + 2 * length streams.now ≡ buf.old.spare }
{
    for stream in streams {
        put_u16(buf, *stream);
    }
}

#[tactic(auto, using(crate::proofs::ParamOne::outgoing_reset_request_one, crate::proofs::ParamLengths::length_reset_request_value))]
impl Param for ParamOutgoingResetRequest {
    ghost wire = { λ p. outgoing_reset_request (reset_request_of p) };

    ghost IsKind = { IsOutgoingResetRequest };

    ghost fault = { ResetRequestFault };

    fn unmarshal(alloc: Global, raw: &Bytes) -> Result<Self> {
        let (_header, value) = open_param(raw)?;
        if value.len() < PARAM_OUTGOING_RESET_REQUEST_STREAM_IDENTIFIERS_OFFSET {
            return Err(Error::ErrSsnResetRequestParamTooShort);
        }
        if value.len() % 2 != 0 {
            return Err(Error::ErrSsnResetRequestParamInvalidLength);
        }
        let count = (value.len() - PARAM_OUTGOING_RESET_REQUEST_STREAM_IDENTIFIERS_OFFSET) / 2;
        let stream_identifiers = read_streams(
            alloc,
            value,
            PARAM_OUTGOING_RESET_REQUEST_STREAM_IDENTIFIERS_OFFSET,
            count,
        )?;
        Ok(ParamOutgoingResetRequest {
            reconfig_request_sequence_number: read_u32(value, 0),
            reconfig_response_sequence_number: read_u32(value, 4),
            sender_last_tsn: read_u32(value, 8),
            stream_identifiers,
        })
    }

    fn param_type(&self) -> ParamType {
        ParamType::OutSsnResetReq
    }

    fn value_length(&self) -> usize {
        PARAM_OUTGOING_RESET_REQUEST_STREAM_IDENTIFIERS_OFFSET
            + 2 * self.stream_identifiers.as_slice().len()
    }

    fn put_value(&self, buf: &mut BytesMut) {
        put_u32(buf, self.reconfig_request_sequence_number);
        put_u32(buf, self.reconfig_response_sequence_number);
        put_u32(buf, self.sender_last_tsn);
        put_streams(buf, &self.stream_identifiers);
    }

    fn try_clone(&self, alloc: Global) -> Result<Self> {
        Ok(ParamOutgoingResetRequest {
            reconfig_request_sequence_number: self.reconfig_request_sequence_number,
            reconfig_response_sequence_number: self.reconfig_response_sequence_number,
            sender_last_tsn: self.sender_last_tsn,
            stream_identifiers: Vec::from_slice(alloc, &self.stream_identifiers)?,
        })
    }
}
