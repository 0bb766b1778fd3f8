//! A parameter of a type that is not known (RFC 4960 3.2.1).

ghost use Rattle.sctp_params.specs.Param.{unknown_param};
ghost use Rattle.sctp_params.specs.ParamKinds.{IsUnknownParam};
ghost use Rattle.sctp_params.specs.ParamFault.{ParamHeaderFault};

use super::Param;
use super::param_header::share_param;
use super::param_type::ParamType;
use bytes::{Bytes, BytesMut};
use sctp_util::error::Result;
use std::alloc::Global;
use std::fmt;

/// Any parameter, kept as it stands: it can be written again, as in a report to its sender (RFC 4960 3.2.1, 3.2.2).
#[derive(Debug, Drop, PartialEq, Eq)]
pub struct ParamUnknown {
    /// The type number.
    pub typ: u16,
    /// The value, without header and padding.
    pub value: Bytes,
}

impl fmt::Display for ParamUnknown {
    fn fmt<W: fmt::Write>(&self, f: &mut fmt::Formatter<W>) -> fmt::Result {
        write!(f, "ParamUnknown( {} {:?} )", self.param_type(), self.value)
    }
}

#[tactic(auto, using(crate::proofs::ParamOne::unknown_param_one, crate::proofs::ParamTypes::number_of_type_from))]
impl Param for ParamUnknown {
    ghost wire = { λ p. unknown_param p.typ p.value };

    ghost IsKind = { IsUnknownParam };

    ghost fault = { ParamHeaderFault };

    fn unmarshal(_alloc: Global, raw: &Bytes) -> Result<Self> {
        let (header, value) = share_param(raw)?;
        Ok(ParamUnknown {
            typ: header.typ.into(),
            value,
        })
    }

    fn param_type(&self) -> ParamType {
        ParamType::Unknown {
            param_type: self.typ,
        }
    }

    fn value_length(&self) -> usize {
        self.value.len()
    }

    fn put_value(&self, buf: &mut BytesMut) {
        buf.extend_reserved(&self.value);
    }

    fn try_clone(&self, _alloc: Global) -> Result<Self> {
        Ok(ParamUnknown {
            typ: self.typ,
            value: self.value.clone()?,
        })
    }
}
