//! The response to a request to reconfigure streams (RFC 6525 4.4).

ghost use Rattle.std.specs.Prelude.{◌≡◌, Some};
ghost use Rattle.sctp_params.specs.ReconfigResponse.{result_from, result_name, result_number};
ghost use Rattle.sctp_params.specs.Param.{reconfig_response};
ghost use Rattle.sctp_params.specs.ParamKinds.{IsReconfigResponse};
ghost use Rattle.sctp_params.specs.ParamFault.{ResponseFault};

use super::Param;
use super::param_header::open_param;
use super::param_type::ParamType;
use bytes::{Bytes, BytesMut};
use sctp_util::error::{Error, Result};
use sctp_util::field::{put_u32, read_u32};
use std::alloc::Global;
use std::fmt;

/// What became of a request (RFC 6525 4.4). Any other number than 0 to 6 is read as `Unknown`, which is written
/// as 7. It prints as its number and name, `Unknown` as `Unknown ReconfigResult`.
#[derive(Clone, Copy, Debug, PartialEq, Eq)]
pub enum ReconfigResult {
    /// Success, there was nothing to do.
    SuccessNop = 0,
    /// Success, it was done.
    SuccessPerformed = 1,
    /// The peer denied it.
    Denied = 2,
    /// A stream number in the request was wrong.
    ErrorWrongSsn = 3,
    /// Another request is being worked on.
    ErrorRequestAlreadyInProgress = 4,
    /// The sequence number was not the expected one.
    ErrorBadSequenceNumber = 5,
    /// It is being worked on: ask again.
    InProgress = 6,
    /// Another number.
    Unknown,
}

impl fmt::Display for ReconfigResult {
    ghost output = { λ r. Some (result_name r) };

    fn fmt<W: fmt::Write>(&self, f: &mut fmt::Formatter<W>) -> fmt::Result {
        f.write_str(match self {
            ReconfigResult::SuccessNop => "0: Success - Nothing to do",
            ReconfigResult::SuccessPerformed => "1: Success - Performed",
            ReconfigResult::Denied => "2: Denied",
            ReconfigResult::ErrorWrongSsn => "3: Error - Wrong SSN",
            ReconfigResult::ErrorRequestAlreadyInProgress =>
                "4: Error - Request already in progress",
            ReconfigResult::ErrorBadSequenceNumber => "5: Error - Bad Sequence Number",
            ReconfigResult::InProgress => "6: In progress",
            ReconfigResult::Unknown => "Unknown ReconfigResult",
        })
    }
}

/// The result with a number, `Unknown` for a number past 6.
#[tactic(auto, unfolding(crate::specs::ReconfigResponse::result_from))]
impl From<u32> for ReconfigResult {
    ghost from_gives = { λ n r. r ≡ result_from n };

    fn from(v: u32) -> ReconfigResult {
        match v {
            0 => ReconfigResult::SuccessNop,
            1 => ReconfigResult::SuccessPerformed,
            2 => ReconfigResult::Denied,
            3 => ReconfigResult::ErrorWrongSsn,
            4 => ReconfigResult::ErrorRequestAlreadyInProgress,
            5 => ReconfigResult::ErrorBadSequenceNumber,
            6 => ReconfigResult::InProgress,
            _ => ReconfigResult::Unknown,
        }
    }
}

/// The number of a result, 7 for `Unknown`.
#[tactic(auto, unfolding(crate::specs::ReconfigResponse::result_number))]
impl From<ReconfigResult> for u32 {
    ghost from_gives = { λ r n. n ≡ result_number r };

    fn from(v: ReconfigResult) -> u32 {
        v as u32
    }
}

/// The response to a request, by the request's number (RFC 6525 4.4, type 16). The value is
/// two numbers of four bytes, and two more where TSNs are named; what follows is ignored.
/// Refuses a value of under eight bytes with `ErrReconfigRespParamTooShort`.
#[derive(Clone, Copy, Debug, PartialEq, Eq)]
pub struct ParamReconfigResponse {
    /// The request's sequence number.
    pub reconfig_response_sequence_number: u32,
    /// What became of the request.
    pub result: ReconfigResult,
    /// The sender's next TSN and the receiver's next TSN, where the value has 16 bytes or more.
    pub next_tsns: Option<(u32, u32)>,
}

impl fmt::Display for ParamReconfigResponse {
    fn fmt<W: fmt::Write>(&self, f: &mut fmt::Formatter<W>) -> fmt::Result {
        write!(
            f,
            "{} {} {}",
            self.param_type(),
            self.reconfig_response_sequence_number,
            self.result
        )
    }
}

#[tactic(auto, using(crate::proofs::ParamOne::reconfig_response_one, crate::proofs::ParamLengths::length_response_value))]
impl Param for ParamReconfigResponse {
    ghost wire = { reconfig_response };

    ghost IsKind = { IsReconfigResponse };

    ghost fault = { ResponseFault };

    fn unmarshal(_alloc: Global, raw: &Bytes) -> Result<Self> {
        let (_header, value) = open_param(raw)?;
        if value.len() < 8 {
            return Err(Error::ErrReconfigRespParamTooShort);
        }
        let next_tsns = if value.len() >= 16 {
            Some((read_u32(value, 8), read_u32(value, 12)))
        } else {
            None
        };
        Ok(ParamReconfigResponse {
            reconfig_response_sequence_number: read_u32(value, 0),
            result: read_u32(value, 4).into(),
            next_tsns,
        })
    }

    fn param_type(&self) -> ParamType {
        ParamType::ReconfigResp
    }

    fn value_length(&self) -> usize {
        match self.next_tsns {
            Some(_) => 16,
            None => 8,
        }
    }

    fn put_value(&self, buf: &mut BytesMut) {
        put_u32(buf, self.reconfig_response_sequence_number);
        put_u32(buf, self.result.into());
        if let Some((sender, receiver)) = self.next_tsns {
            put_u32(buf, sender);
            put_u32(buf, receiver);
        }
    }

    fn try_clone(&self, _alloc: Global) -> Result<Self> {
        Ok(*self)
    }
}
