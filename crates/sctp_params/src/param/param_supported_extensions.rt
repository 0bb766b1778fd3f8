//! The extensions that a sender supports, by their chunk types (RFC 5061 4.2.7).

ghost use Rattle.sctp_params.specs.Param.{supported_extensions};
ghost use Rattle.sctp_params.specs.ParamKinds.{IsSupportedExtensions};
ghost use Rattle.sctp_params.specs.ParamFault.{ParamHeaderFault};

use super::param_header::open_param;
use super::param_type::ParamType;
use super::{Param, put_chunk_types, read_chunk_types, write_joined};
use bytes::{Bytes, BytesMut};
use sctp_util::error::Result;
use sctp_util::util::ChunkType;
use std::alloc::Global;
use std::fmt;

/// The chunk types of the extensions that the sender understands, one in a byte of
/// the value (RFC 5061 4.2.7, type 32776).
#[derive(Debug, Drop, PartialEq, Eq)]
pub struct ParamSupportedExtensions {
    pub chunk_types: Vec<ChunkType>,
}

impl fmt::Display for ParamSupportedExtensions {
    fn fmt<W: fmt::Write>(&self, f: &mut fmt::Formatter<W>) -> fmt::Result {
        write!(f, "{} ", self.param_type())?;
        write_joined(f, &self.chunk_types)
    }
}

#[tactic(auto, using(crate::proofs::ParamOne::supported_extensions_one, crate::proofs::ParamLengths::length_chunk_type_numbers))]
impl Param for ParamSupportedExtensions {
    ghost wire = { λ p. supported_extensions p.chunk_types.items };

    ghost IsKind = { IsSupportedExtensions };

    ghost fault = { ParamHeaderFault };

    fn unmarshal(alloc: Global, raw: &Bytes) -> Result<Self> {
        let (_header, value) = open_param(raw)?;
        let chunk_types = read_chunk_types(alloc, value)?;
        Ok(ParamSupportedExtensions { chunk_types })
    }

    fn param_type(&self) -> ParamType {
        ParamType::SupportedExt
    }

    fn value_length(&self) -> usize {
        self.chunk_types.len()
    }

    fn put_value(&self, buf: &mut BytesMut) {
        put_chunk_types(buf, &self.chunk_types);
    }

    fn try_clone(&self, alloc: Global) -> Result<Self> {
        Ok(ParamSupportedExtensions {
            chunk_types: Vec::from_slice(alloc, &self.chunk_types)?,
        })
    }
}
