//! RECONFIG: streams are reset or added.

ghost use Rattle.std.specs.Prelude.{◌≡◌, ◌↔◌, Option, IfOk, IfErr, IsOkUnless, IsTrue, option_map};
ghost use Rattle.sctp_util.specs.Outcome.{OrMemory, GivesUnlessMemory};
ghost use Rattle.sctp_params.specs.Param.{Parameter};
ghost use Rattle.sctp_params.specs.ParamKind.{parameter_of};
ghost use Rattle.sctp_util.specs.declared.error.Error.TheVariants.{ErrOutOfMemory};
ghost use Rattle.sctp_chunks.specs.Reconfig.{ReadsPair, PairReadsBack, MayStandTogether, reconfig_of};
ghost use Rattle.sctp_chunks.specs.Wire.{reconfig_chunk, IsReconfig};
ghost use Rattle.sctp_chunks.specs.Fault.{ReconfigFault, PairValueFault};

use super::Chunk;
use super::chunk_header::{open_chunk, share_value};
use super::params::{param_length, put_param, read_param};
use bytes::{Bytes, BytesMut};
use sctp_params::param::Param;
use sctp_params::param::param_header::PARAM_HEADER_LENGTH;
use sctp_params::param::param_kind::{ParamKind, build_param};
use sctp_params::param::param_type::ParamType;
use sctp_util::error::{Error, Result};
use sctp_util::util::{CT_RECONFIG, ChunkType};
use std::alloc::Global;
use std::fmt;

/// Asks for outgoing streams to be reset, or answers a request (RFC 6525 3.1, type 130). The value is one parameter, and
/// a second where bytes are left behind the first and its padding; bytes behind the second are ignored.
/// Refuses another type with `ErrChunkTypeNotReconfig`, a value of under four bytes with `ErrChunkTooShort`, and a
/// parameter as `build_param` does: the other requests of RFC 6525, types 14, 15, 17 and 18, with `ErrParamTypeUnhandled`.
/// It is written only with a first parameter: else `ErrChunkReconfigInvalidParamA`. `check` also asks that the two types
/// may stand together: else `ErrChunkReconfigInvalidParamCombination`.
#[derive(Debug, Drop)]
pub struct ChunkReconfig {
    /// The first parameter, which a chunk that was read has.
    pub param_a: Option<ParamKind>,
    /// The second, if there is one. The first is padded to a multiple of four before it.
    pub param_b: Option<ParamKind>,
}

impl fmt::Display for ChunkReconfig {
    fn fmt<W: fmt::Write>(&self, f: &mut fmt::Formatter<W>) -> fmt::Result {
        if let Some(param_a) = &self.param_a {
            write!(f, "Param A:\n {param_a}")?;
        }
        if let Some(param_b) = &self.param_b {
            write!(f, "Param B:\n {param_b}")?;
        }
        Ok(())
    }
}

/// An equal parameter, if there is one. Refuses only for memory.
fn clone_param(param: &Option<ParamKind>, alloc: Global) -> Result<Option<ParamKind>>
    ensures ok { IfOk result (λ p. option_map parameter_of p ≡ option_map parameter_of param.now) }
    ensures memory { IsOkUnless result ErrOutOfMemory }
{
    match param {
        Some(p) => Ok(Some(p.try_clone(alloc)?)),
        None => Ok(None),
    }
}

impl ChunkReconfig {
    /// An equal chunk: a `Bytes` is shared, a list is copied. Refuses only for memory.
    pub fn try_clone(&self, alloc: Global) -> Result<Self>
        ensures ok { IfOk result (λ c. reconfig_of c ≡ reconfig_of self.now) }
        ensures memory { IsOkUnless result ErrOutOfMemory }
    {
        Ok(ChunkReconfig {
            param_a: clone_param(&self.param_a, alloc)?,
            param_b: clone_param(&self.param_b, alloc)?,
        })
    }
}

/// Whether parameters of these types may stand together, in this order (RFC 6525 3.1): the requests to reset outgoing
/// and incoming streams, those to add outgoing and incoming ones, a response and a request to reset outgoing ones, and
/// two responses. No `ParamKind` has the type of a request to reset incoming streams or to add any.
fn may_stand_together(a: ParamType, b: ParamType) -> bool
    ensures { IsTrue result ↔ MayStandTogether a b }
{
    (a == ParamType::OutSsnResetReq && b == ParamType::IncSsnResetReq)
        || (a == ParamType::AddOutStreamsReq && b == ParamType::AddIncStreamsReq)
        || (a == ParamType::ReconfigResp && b == ParamType::OutSsnResetReq)
        || (a == ParamType::ReconfigResp && b == ParamType::ReconfigResp)
}

/// Reads a parameter, and a second where bytes remain after the first and its padding.
fn read_pair(alloc: Global, value: Bytes) -> Result<ChunkReconfig>
    ensures found { IfOk result
        (λ c. ReadsPair value (reconfig_of c).param_a (reconfig_of c).param_b) }
    ensures again { IfOk result
        (λ c. PairReadsBack (reconfig_of c).param_a (reconfig_of c).param_b) }
    ensures only { (a : Option Parameter) → (b : Option Parameter) → ReadsPair value a b
        → GivesUnlessMemory result (λ c. reconfig_of c ≡ record { param_a = a; param_b = b }) }
    ensures fault { IfErr result (λ e. OrMemory e (PairValueFault e value)) }
{
    if value.len() < PARAM_HEADER_LENGTH {
        return Err(Error::ErrChunkTooShort);
    }
    let (param_a, length) = read_param(alloc, &value)?;
    let mut rest = value;
    rest.advance(length);
    let param_b = if rest.is_empty() {
        None
    } else {
        Some(build_param(alloc, &rest)?)
    };
    Ok(ChunkReconfig {
        param_a: Some(param_a),
        param_b,
    })
}

#[tactic(auto, using(crate::proofs::One::reconfig_one, crate::proofs::ParamsEncoding::pair_short, crate::proofs::ParamsEncoding::pair_first, crate::proofs::ParamsEncoding::length_both, crate::proofs::ParamsEncoding::both_encoding, crate::proofs::ParamsEncoding::only_encoding))]
impl Chunk for ChunkReconfig {
    ghost wire = { λ c. reconfig_chunk (reconfig_of c) };

    ghost IsKind = { IsReconfig };

    ghost IsFresh = { λ _. Unit {0} };

    ghost fault = { ReconfigFault };

    fn unmarshal(alloc: Global, raw: &Bytes) -> Result<Self> {
        let (_flags, value) = open_chunk(raw, CT_RECONFIG, Error::ErrChunkTypeNotReconfig)?;
        read_pair(alloc, share_value(raw, value, 0)?)
    }

    fn value_length(&self) -> usize {
        let Some(a) = &self.param_a else {
            return 0;
        };
        match &self.param_b {
            Some(b) => param_length(a, false).saturating_add(param_length(b, true)),
            None => param_length(a, true),
        }
    }

    fn chunk_type(&self) -> ChunkType {
        CT_RECONFIG
    }

    fn flags(&self) -> u8 {
        0
    }

    fn put_value(&self, buf: &mut BytesMut) {
        let Some(a) = &self.param_a else {
            return;
        };
        match &self.param_b {
            Some(b) => {
                put_param(buf, a, false);
                put_param(buf, b, true);
            }
            None => put_param(buf, a, true),
        }
    }

    fn check(&self) -> Result<()> {
        let Some(a) = &self.param_a else {
            return Err(Error::ErrChunkReconfigInvalidParamA);
        };
        let Some(b) = &self.param_b else {
            return Ok(());
        };
        if !may_stand_together(a.param_type(), b.param_type()) {
            return Err(Error::ErrChunkReconfigInvalidParamCombination);
        }
        Ok(())
    }

    fn check_form(&self) -> Result<()> {
        if self.param_a.is_none() {
            return Err(Error::ErrChunkReconfigInvalidParamA);
        }
        Ok(())
    }
}
