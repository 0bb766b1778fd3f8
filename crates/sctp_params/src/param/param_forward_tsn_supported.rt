//! That the sender can skip messages (RFC 3758 3.1).

ghost use Rattle.std.specs.Prelude.{Some};
ghost use Rattle.sctp_params.specs.declared.param.param_type.ParamType.TheVariants.{ForwardTsnSupp};
ghost use Rattle.sctp_params.specs.ParamType.{type_name};
ghost use Rattle.sctp_params.specs.Param.{forward_tsn_supported};
ghost use Rattle.sctp_params.specs.ParamKinds.{IsForwardTsnSupported};
ghost use Rattle.sctp_params.specs.ParamFault.{ParamHeaderFault};

use super::Param;
use super::param_header::open_param;
use super::param_type::ParamType;
use bytes::{Bytes, BytesMut};
use sctp_util::error::Result;
use std::alloc::Global;
use std::fmt;

/// The sender of an INIT or INIT-ACK understands FORWARD-TSN (RFC 3758 3.1, type
/// 49152). A value is ignored, and written empty.
#[derive(Clone, Copy, Debug, PartialEq, Eq)]
pub struct ParamForwardTsnSupported;

impl fmt::Display for ParamForwardTsnSupported {
    ghost output = { λ _. Some (type_name ForwardTsnSupp) };

    fn fmt<W: fmt::Write>(&self, f: &mut fmt::Formatter<W>) -> fmt::Result {
        write!(f, "{}", self.param_type())
    }
}

#[tactic(auto, using(crate::proofs::ParamOne::forward_tsn_supported_one))]
impl Param for ParamForwardTsnSupported {
    ghost wire = { λ _. forward_tsn_supported };

    ghost IsKind = { IsForwardTsnSupported };

    ghost fault = { ParamHeaderFault };

    fn unmarshal(_alloc: Global, raw: &Bytes) -> Result<Self> {
        open_param(raw)?;
        Ok(ParamForwardTsnSupported)
    }

    fn param_type(&self) -> ParamType {
        ParamType::ForwardTsnSupp
    }

    fn value_length(&self) -> usize {
        0
    }

    fn put_value(&self, _buf: &mut BytesMut) {}

    fn try_clone(&self, _alloc: Global) -> Result<Self> {
        Ok(*self)
    }
}
