//! Random bytes, from which keys are made (RFC 4895 3.1).

ghost use Rattle.sctp_params.specs.Param.{random};
ghost use Rattle.sctp_params.specs.ParamKinds.{IsRandom};
ghost use Rattle.sctp_params.specs.ParamFault.{ParamHeaderFault};

use super::Param;
use super::param_header::share_param;
use super::param_type::ParamType;
use bytes::{Bytes, BytesMut};
use sctp_util::error::Result;
use std::alloc::Global;
use std::fmt;

/// The sender's random bytes (RFC 4895 3.1, type 32770). The value is those bytes, however many.
#[derive(Debug, Drop, PartialEq, Eq)]
pub struct ParamRandom {
    pub random_data: Bytes,
}

impl fmt::Display for ParamRandom {
    fn fmt<W: fmt::Write>(&self, f: &mut fmt::Formatter<W>) -> fmt::Result {
        write!(f, "{} {:?}", self.param_type(), self.random_data)
    }
}

#[tactic(auto, using(crate::proofs::ParamOne::random_one))]
impl Param for ParamRandom {
    ghost wire = { λ p. random p.random_data };

    ghost IsKind = { IsRandom };

    ghost fault = { ParamHeaderFault };

    fn unmarshal(_alloc: Global, raw: &Bytes) -> Result<Self> {
        let (_header, random_data) = share_param(raw)?;
        Ok(ParamRandom { random_data })
    }

    fn param_type(&self) -> ParamType {
        ParamType::Random
    }

    fn value_length(&self) -> usize {
        self.random_data.len()
    }

    fn put_value(&self, buf: &mut BytesMut) {
        buf.extend_reserved(&self.random_data);
    }

    fn try_clone(&self, _alloc: Global) -> Result<Self> {
        Ok(ParamRandom {
            random_data: self.random_data.clone()?,
        })
    }
}
