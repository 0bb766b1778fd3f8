//! HEARTBEAT: is the peer there.

ghost use Rattle.std.specs.Prelude.{◌≡◌, List, map, IfOk, IfErr};
ghost use Rattle.sctp_util.specs.Outcome.{OrMemory, GivesUnlessMemory};
ghost use Rattle.sctp_params.specs.Param.{Parameter};
ghost use Rattle.sctp_chunks.specs.Heartbeat.{ReadsHeartbeat, IsReadHeartbeat};
ghost use Rattle.sctp_params.specs.ParamKind.{parameter_of};
ghost use Rattle.sctp_chunks.specs.Wire.{heartbeat_chunk, IsHeartbeat};
ghost use Rattle.sctp_chunks.specs.Fault.{HeartbeatFault, InfoFault};

use super::Chunk;
use super::chunk_header::{open_chunk, share_value};
use super::params::{params_length, put_params};
use bytes::{Bytes, BytesMut};
use sctp_params::param::param_header::PARAM_HEADER_LENGTH;
use sctp_params::param::param_kind::{ParamKind, build_param};
use sctp_util::error::{Error, Result};
use sctp_util::util::{CT_HEARTBEAT, ChunkType};
use std::alloc::Global;
use std::fmt;

/// Asks the peer to send the parameter back (RFC 4960 3.3.5, type 4). The value is one Heartbeat
/// Info; bytes behind it are ignored. Parameters are written one behind the other, without padding.
/// Refuses another type with `ErrChunkTypeNotHeartbeat`, a value of under four
/// bytes with `ErrHeartbeatNotLongEnoughInfo`, another parameter with
/// `ErrHeartbeatParam`, and a parameter as `build_param` does.
#[derive(Debug, Drop)]
pub struct ChunkHeartbeat {
    /// A chunk that was read has exactly one, a Heartbeat Info.
    pub params: Vec<ParamKind>,
}

impl fmt::Display for ChunkHeartbeat {
    fn fmt<W: fmt::Write>(&self, f: &mut fmt::Formatter<W>) -> fmt::Result {
        write!(f, "{}", self.chunk_type())
    }
}

/// Reads the one parameter of a HEARTBEAT or HEARTBEAT-ACK (RFC 4960 3.3.5, 3.3.6). Bytes after it are ignored.
/// Refuses under four bytes with `ErrHeartbeatNotLongEnoughInfo`, another parameter
/// with `ErrHeartbeatParam`, and a parameter as `build_param` does.
pub fn read_info(alloc: Global, value: &Bytes) -> Result<Vec<ParamKind>>
    ensures found { IfOk result (λ v. ReadsHeartbeat value.now (map parameter_of v.items)) }
    ensures again { IfOk result (λ v. IsReadHeartbeat (map parameter_of v.items)) }
    ensures only { (ps : List Parameter) → ReadsHeartbeat value.now ps
        → GivesUnlessMemory result (λ v. map parameter_of v.items ≡ ps) }
    ensures fault { IfErr result (λ e. OrMemory e (InfoFault e value.now)) }
{
    if value.len() < PARAM_HEADER_LENGTH {
        return Err(Error::ErrHeartbeatNotLongEnoughInfo);
    }
    let param = build_param(alloc, value)?;
    let ParamKind::HeartbeatInfo(info) = param else {
        return Err(Error::ErrHeartbeatParam);
    };
    let mut params = Vec::new(alloc);
    params.push(ParamKind::HeartbeatInfo(info))?;
    Ok(params)
}

#[tactic(auto, using(crate::proofs::One::heartbeat_one, crate::proofs::ParamsEncoding::heartbeat_short))]
impl Chunk for ChunkHeartbeat {
    ghost wire = { λ c. heartbeat_chunk (map parameter_of c.params.items) };

    ghost IsKind = { IsHeartbeat };

    ghost IsFresh = { λ _. Unit {0} };

    ghost fault = { HeartbeatFault };

    fn unmarshal(alloc: Global, raw: &Bytes) -> Result<Self> {
        let (_flags, value) = open_chunk(raw, CT_HEARTBEAT, Error::ErrChunkTypeNotHeartbeat)?;
        let params = read_info(alloc, &share_value(raw, value, 0)?)?;
        Ok(ChunkHeartbeat { params })
    }

    fn value_length(&self) -> usize {
        params_length(&self.params, true)
    }

    fn chunk_type(&self) -> ChunkType {
        CT_HEARTBEAT
    }

    fn flags(&self) -> u8 {
        0
    }

    fn put_value(&self, buf: &mut BytesMut) {
        put_params(buf, &self.params, true);
    }

    fn check(&self) -> Result<()> {
        Ok(())
    }

    fn check_form(&self) -> Result<()> {
        Ok(())
    }
}
