//! A parameter of any kind.

ghost use Rattle.std.specs.Prelude.{◌≡◌, IfOk, IfErr};
ghost use Rattle.sctp_util.specs.Outcome.{OrMemory, GivesUnlessMemory};
ghost use Rattle.sctp_params.specs.Param.{Parameter, ReadsBack};
ghost use Rattle.sctp_params.specs.ParamKind.{parameter_of, IsReadAs, ReadsParam, ParamFault};

use super::Param;
use super::param_chunk_list::ParamChunkList;
use super::param_forward_tsn_supported::ParamForwardTsnSupported;
use super::param_header::PARAM_HEADER_LENGTH;
use super::param_heartbeat_info::ParamHeartbeatInfo;
use super::param_outgoing_reset_request::ParamOutgoingResetRequest;
use super::param_random::ParamRandom;
use super::param_reconfig_response::ParamReconfigResponse;
use super::param_requested_hmac_algorithm::ParamRequestedHmacAlgorithm;
use super::param_state_cookie::ParamStateCookie;
use super::param_supported_address_types::ParamSupportedAddressTypes;
use super::param_supported_extensions::ParamSupportedExtensions;
use super::param_type::ParamType;
use super::param_unknown::ParamUnknown;
use bytes::{Bytes, BytesMut};
use sctp_util::error::{Error, Result};
use sctp_util::field::read_u16;
use std::alloc::Global;
use std::fmt;

/// A parameter of one of the ten kinds that are read, or one of an unknown type
/// that is kept. It prints as that kind does.
#[derive(Debug, Drop, PartialEq, Eq)]
pub enum ParamKind {
    HeartbeatInfo(ParamHeartbeatInfo),
    StateCookie(ParamStateCookie),
    SupportedAddressTypes(ParamSupportedAddressTypes),
    OutgoingResetRequest(ParamOutgoingResetRequest),
    ReconfigResponse(ParamReconfigResponse),
    Random(ParamRandom),
    ChunkList(ParamChunkList),
    RequestedHmacAlgorithm(ParamRequestedHmacAlgorithm),
    SupportedExtensions(ParamSupportedExtensions),
    ForwardTsnSupported(ParamForwardTsnSupported),
    Unknown(ParamUnknown),
}

impl fmt::Display for ParamKind {
    fn fmt<W: fmt::Write>(&self, f: &mut fmt::Formatter<W>) -> fmt::Result {
        match self {
            ParamKind::HeartbeatInfo(p) => write!(f, "{p}"),
            ParamKind::StateCookie(p) => write!(f, "{p}"),
            ParamKind::SupportedAddressTypes(p) => write!(f, "{p}"),
            ParamKind::OutgoingResetRequest(p) => write!(f, "{p}"),
            ParamKind::ReconfigResponse(p) => write!(f, "{p}"),
            ParamKind::Random(p) => write!(f, "{p}"),
            ParamKind::ChunkList(p) => write!(f, "{p}"),
            ParamKind::RequestedHmacAlgorithm(p) => write!(f, "{p}"),
            ParamKind::SupportedExtensions(p) => write!(f, "{p}"),
            ParamKind::ForwardTsnSupported(p) => write!(f, "{p}"),
            ParamKind::Unknown(p) => write!(f, "{p}"),
        }
    }
}

/// Reads the parameter that the bytes begin with, by its type. The ten kinds are types 1, 7, 12, 13, 16, 32770, 32771, 32772,
/// 32776 and 49152. Any other type, also one that `ParamType` names, is kept as `ParamUnknown` where its highest bit is
/// set, else refused with `ErrParamTypeUnhandled`: as are the addresses of an INIT, 5 and 6 (RFC 4960 3.3.2.1). That bit says that
/// a receiver which does not know the type skips it and goes on (RFC 4960 3.2.1).
/// Refuses with `ErrParamHeaderTooShort` where there is no header, else as the kind's reader does, or for memory.
#[tactic(auto, using(crate::proofs::ParamAgain::own_again), unfolding(crate::specs::ParamKind::ParamFault))]
pub fn build_param(alloc: Global, raw: &Bytes) -> Result<ParamKind>
    ensures found { IfOk result (λ p. ReadsParam raw.now (parameter_of p)) }
    ensures only { (p : Parameter)
        → ReadsParam raw.now p → GivesUnlessMemory result (λ q. parameter_of q ≡ p) }
    ensures fault { IfErr result (λ e. OrMemory e (ParamFault e raw.now)) }
    ensures again { IfOk result (λ p. ReadsBack IsReadAs (parameter_of p)) }
{
    if raw.len() < PARAM_HEADER_LENGTH {
        return Err(Error::ErrParamHeaderTooShort);
    }
    let typ = read_u16(raw.as_slice(), 0);
    match typ {
        1 => Ok(ParamKind::HeartbeatInfo(ParamHeartbeatInfo::unmarshal(alloc, raw)?)),
        7 => Ok(ParamKind::StateCookie(ParamStateCookie::unmarshal(alloc, raw)?)),
        12 => Ok(ParamKind::SupportedAddressTypes(ParamSupportedAddressTypes::unmarshal(
            alloc, raw,
        )?)),
        13 => Ok(ParamKind::OutgoingResetRequest(ParamOutgoingResetRequest::unmarshal(
            alloc, raw,
        )?)),
        16 => Ok(ParamKind::ReconfigResponse(ParamReconfigResponse::unmarshal(alloc, raw)?)),
        32770 => Ok(ParamKind::Random(ParamRandom::unmarshal(alloc, raw)?)),
        32771 => Ok(ParamKind::ChunkList(ParamChunkList::unmarshal(alloc, raw)?)),
        32772 => Ok(ParamKind::RequestedHmacAlgorithm(ParamRequestedHmacAlgorithm::unmarshal(
            alloc, raw,
        )?)),
        32776 => Ok(ParamKind::SupportedExtensions(ParamSupportedExtensions::unmarshal(
            alloc, raw,
        )?)),
        49152 => Ok(ParamKind::ForwardTsnSupported(ParamForwardTsnSupported::unmarshal(
            alloc, raw,
        )?)),
        0x8000.. => Ok(ParamKind::Unknown(ParamUnknown::unmarshal(alloc, raw)?)),
        _ => Err(Error::ErrParamTypeUnhandled { typ }),
    }
}

impl Param for ParamKind {
    ghost wire = { parameter_of };

    ghost IsKind = { IsReadAs };

    ghost fault = { ParamFault };

    fn unmarshal(alloc: Global, raw: &Bytes) -> Result<Self> {
        build_param(alloc, raw)
    }

    fn param_type(&self) -> ParamType {
        match self {
            ParamKind::HeartbeatInfo(p) => p.param_type(),
            ParamKind::StateCookie(p) => p.param_type(),
            ParamKind::SupportedAddressTypes(p) => p.param_type(),
            ParamKind::OutgoingResetRequest(p) => p.param_type(),
            ParamKind::ReconfigResponse(p) => p.param_type(),
            ParamKind::Random(p) => p.param_type(),
            ParamKind::ChunkList(p) => p.param_type(),
            ParamKind::RequestedHmacAlgorithm(p) => p.param_type(),
            ParamKind::SupportedExtensions(p) => p.param_type(),
            ParamKind::ForwardTsnSupported(p) => p.param_type(),
            ParamKind::Unknown(p) => p.param_type(),
        }
    }

    fn value_length(&self) -> usize {
        match self {
            ParamKind::HeartbeatInfo(p) => p.value_length(),
            ParamKind::StateCookie(p) => p.value_length(),
            ParamKind::SupportedAddressTypes(p) => p.value_length(),
            ParamKind::OutgoingResetRequest(p) => p.value_length(),
            ParamKind::ReconfigResponse(p) => p.value_length(),
            ParamKind::Random(p) => p.value_length(),
            ParamKind::ChunkList(p) => p.value_length(),
            ParamKind::RequestedHmacAlgorithm(p) => p.value_length(),
            ParamKind::SupportedExtensions(p) => p.value_length(),
            ParamKind::ForwardTsnSupported(p) => p.value_length(),
            ParamKind::Unknown(p) => p.value_length(),
        }
    }

    fn put_value(&self, buf: &mut BytesMut) {
        match self {
            ParamKind::HeartbeatInfo(p) => p.put_value(buf),
            ParamKind::StateCookie(p) => p.put_value(buf),
            ParamKind::SupportedAddressTypes(p) => p.put_value(buf),
            ParamKind::OutgoingResetRequest(p) => p.put_value(buf),
            ParamKind::ReconfigResponse(p) => p.put_value(buf),
            ParamKind::Random(p) => p.put_value(buf),
            ParamKind::ChunkList(p) => p.put_value(buf),
            ParamKind::RequestedHmacAlgorithm(p) => p.put_value(buf),
            ParamKind::SupportedExtensions(p) => p.put_value(buf),
            ParamKind::ForwardTsnSupported(p) => p.put_value(buf),
            ParamKind::Unknown(p) => p.put_value(buf),
        }
    }

    fn try_clone(&self, alloc: Global) -> Result<Self> {
        Ok(match self {
            ParamKind::HeartbeatInfo(p) => ParamKind::HeartbeatInfo(p.try_clone(alloc)?),
            ParamKind::StateCookie(p) => ParamKind::StateCookie(p.try_clone(alloc)?),
            ParamKind::SupportedAddressTypes(p) => ParamKind::SupportedAddressTypes(p.try_clone(
                alloc,
            )?),
            ParamKind::OutgoingResetRequest(p) => ParamKind::OutgoingResetRequest(p.try_clone(
                alloc,
            )?),
            ParamKind::ReconfigResponse(p) => ParamKind::ReconfigResponse(p.try_clone(alloc)?),
            ParamKind::Random(p) => ParamKind::Random(p.try_clone(alloc)?),
            ParamKind::ChunkList(p) => ParamKind::ChunkList(p.try_clone(alloc)?),
            ParamKind::RequestedHmacAlgorithm(p) => ParamKind::RequestedHmacAlgorithm(p.try_clone(
                alloc,
            )?),
            ParamKind::SupportedExtensions(p) => ParamKind::SupportedExtensions(p.try_clone(
                alloc,
            )?),
            ParamKind::ForwardTsnSupported(p) => ParamKind::ForwardTsnSupported(p.try_clone(
                alloc,
            )?),
            ParamKind::Unknown(p) => ParamKind::Unknown(p.try_clone(alloc)?),
        })
    }
}
