//! The chunks that a sender wants authenticated (RFC 4895 3.2).

ghost use Rattle.sctp_params.specs.Param.{chunk_list};
ghost use Rattle.sctp_params.specs.ParamKinds.{IsChunkList};
ghost use Rattle.sctp_params.specs.ParamFault.{ChunkListFault};

use super::param_header::open_param;
use super::param_type::ParamType;
use super::{Param, put_chunk_types, read_chunk_types, write_joined};
use bytes::{Bytes, BytesMut};
use sctp_util::error::{Error, Result};
use sctp_util::util::ChunkType;
use std::alloc::Global;
use std::fmt;

/// The chunk types, one in a byte of the value. It is the one parameter whose own
/// reader tests the type number: `ErrParamTypeUnexpected` where it is not 32771.
#[derive(Debug, Drop, PartialEq, Eq)]
pub struct ParamChunkList {
    pub chunk_types: Vec<ChunkType>,
}

impl fmt::Display for ParamChunkList {
    fn fmt<W: fmt::Write>(&self, f: &mut fmt::Formatter<W>) -> fmt::Result {
        write!(f, "{} ", self.param_type())?;
        write_joined(f, &self.chunk_types)
    }
}

#[tactic(auto, using(crate::proofs::ParamOne::chunk_list_one, crate::proofs::ParamTypes::is_chunk_list, crate::proofs::ParamTypes::not_chunk_list, crate::proofs::ParamLengths::length_chunk_type_numbers))]
impl Param for ParamChunkList {
    ghost wire = { λ p. chunk_list p.chunk_types.items };

    ghost IsKind = { IsChunkList };

    ghost fault = { ChunkListFault };

    fn unmarshal(alloc: Global, raw: &Bytes) -> Result<Self> {
        let (header, value) = open_param(raw)?;
        if header.typ != ParamType::ChunkList {
            return Err(Error::ErrParamTypeUnexpected);
        }
        let chunk_types = read_chunk_types(alloc, value)?;
        Ok(ParamChunkList { chunk_types })
    }

    fn param_type(&self) -> ParamType {
        ParamType::ChunkList
    }

    fn value_length(&self) -> usize {
        self.chunk_types.len()
    }

    fn put_value(&self, buf: &mut BytesMut) {
        put_chunk_types(buf, &self.chunk_types);
    }

    fn try_clone(&self, alloc: Global) -> Result<Self> {
        Ok(ParamChunkList {
            chunk_types: Vec::from_slice(alloc, &self.chunk_types)?,
        })
    }
}
