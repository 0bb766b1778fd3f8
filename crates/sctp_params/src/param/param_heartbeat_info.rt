//! What a HEARTBEAT carries (RFC 4960 3.3.5).

ghost use Rattle.sctp_params.specs.Param.{heartbeat_info};
ghost use Rattle.sctp_params.specs.ParamKinds.{IsHeartbeatInfo};
ghost use Rattle.sctp_params.specs.ParamFault.{ParamHeaderFault};

use super::Param;
use super::param_header::share_param;
use super::param_type::ParamType;
use bytes::{Bytes, BytesMut};
use sctp_util::error::Result;
use std::alloc::Global;
use std::fmt;

/// Bytes that the peer sends back as they are: only their sender knows what they
/// mean (RFC 4960 3.3.5, type 1). The value is those bytes.
#[derive(Debug, Drop, PartialEq, Eq)]
pub struct ParamHeartbeatInfo {
    pub heartbeat_information: Bytes,
}

impl fmt::Display for ParamHeartbeatInfo {
    fn fmt<W: fmt::Write>(&self, f: &mut fmt::Formatter<W>) -> fmt::Result {
        write!(f, "{} {:?}", self.param_type(), self.heartbeat_information)
    }
}

#[tactic(auto, using(crate::proofs::ParamOne::heartbeat_info_one))]
impl Param for ParamHeartbeatInfo {
    ghost wire = { λ p. heartbeat_info p.heartbeat_information };

    ghost IsKind = { IsHeartbeatInfo };

    ghost fault = { ParamHeaderFault };

    fn unmarshal(_alloc: Global, raw: &Bytes) -> Result<Self> {
        let (_header, heartbeat_information) = share_param(raw)?;
        Ok(ParamHeartbeatInfo {
            heartbeat_information,
        })
    }

    fn param_type(&self) -> ParamType {
        ParamType::HeartbeatInfo
    }

    fn value_length(&self) -> usize {
        self.heartbeat_information.len()
    }

    fn put_value(&self, buf: &mut BytesMut) {
        buf.extend_reserved(&self.heartbeat_information);
    }

    fn try_clone(&self, _alloc: Global) -> Result<Self> {
        Ok(ParamHeartbeatInfo {
            heartbeat_information: self.heartbeat_information.clone()?,
        })
    }
}
