//! HEARTBEAT-ACK: the answer to a HEARTBEAT.

ghost use Rattle.std.specs.Prelude.{map};
ghost use Rattle.sctp_params.specs.ParamKind.{parameter_of};
ghost use Rattle.sctp_chunks.specs.Wire.{heartbeat_ack_chunk, IsHeartbeatAck};
ghost use Rattle.sctp_chunks.specs.Fault.{HeartbeatAckFault};

use super::Chunk;
use super::chunk_header::{open_chunk, share_value};
use super::chunk_heartbeat::read_info;
use super::params::{params_length, put_params};
use bytes::{Bytes, BytesMut};
use sctp_params::param::Param;
use sctp_params::param::param_kind::ParamKind;
use sctp_params::param::param_type::ParamType;
use sctp_util::error::{Error, Result};
use sctp_util::util::{CT_HEARTBEAT_ACK, ChunkType};
use std::alloc::Global;
use std::fmt;

/// Gives the parameter of a HEARTBEAT back (RFC 4960 3.3.6, type 5). It is read as a HEARTBEAT
/// is, under `ErrChunkTypeNotHeartbeatAck`. It is written only with exactly one parameter, a
/// Heartbeat Info: else `ErrHeartbeatAckParams` or `ErrHeartbeatAckNotHeartbeatInfo`.
#[derive(Debug, Drop)]
pub struct ChunkHeartbeatAck {
    /// A chunk that was read has exactly one, a Heartbeat Info.
    pub params: Vec<ParamKind>,
}

impl fmt::Display for ChunkHeartbeatAck {
    fn fmt<W: fmt::Write>(&self, f: &mut fmt::Formatter<W>) -> fmt::Result {
        write!(f, "{}", self.chunk_type())
    }
}

#[tactic(auto, using(crate::proofs::One::heartbeat_ack_one, crate::proofs::ParamsEncoding::heartbeat_short, crate::proofs::ParamsEncoding::one_info))]
impl Chunk for ChunkHeartbeatAck {
    ghost wire = { λ c. heartbeat_ack_chunk (map parameter_of c.params.items) };

    ghost IsKind = { IsHeartbeatAck };

    ghost IsFresh = { λ _. Unit {0} };

    ghost fault = { HeartbeatAckFault };

    fn unmarshal(alloc: Global, raw: &Bytes) -> Result<Self> {
        let (_flags, value) = open_chunk(
            raw,
            CT_HEARTBEAT_ACK,
            Error::ErrChunkTypeNotHeartbeatAck,
        )?;
        let params = read_info(alloc, &share_value(raw, value, 0)?)?;
        Ok(ChunkHeartbeatAck { params })
    }

    fn value_length(&self) -> usize {
        params_length(&self.params, true)
    }

    fn chunk_type(&self) -> ChunkType {
        CT_HEARTBEAT_ACK
    }

    fn flags(&self) -> u8 {
        0
    }

    fn put_value(&self, buf: &mut BytesMut) {
        put_params(buf, &self.params, true);
    }

    fn check(&self) -> Result<()> {
        Ok(())
    }

    fn check_form(&self) -> Result<()> {
        let [param] = self.params.as_slice() else {
            return Err(Error::ErrHeartbeatAckParams);
        };
        if param.param_type() != ParamType::HeartbeatInfo {
            return Err(Error::ErrHeartbeatAckNotHeartbeatInfo);
        }
        Ok(())
    }
}
