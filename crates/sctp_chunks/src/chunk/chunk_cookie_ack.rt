//! COOKIE-ACK: the answer to a COOKIE-ECHO.

ghost use Rattle.sctp_chunks.specs.Wire.{cookie_ack_chunk, IsCookieAck};
ghost use Rattle.sctp_chunks.specs.Fault.{OpenFault};
ghost use Rattle.sctp_util.specs.declared.error.Error.TheVariants.{ErrChunkTypeNotCookieAck};

use super::Chunk;
use super::chunk_header::open_chunk;
use bytes::{Bytes, BytesMut};
use sctp_util::error::{Error, Result};
use sctp_util::util::{CT_COOKIE_ACK, ChunkType};
use std::alloc::Global;
use std::fmt;

/// The answer to a COOKIE-ECHO (RFC 4960 3.3.12, type 11). Its value is ignored, and written empty.
/// Refuses another type with `ErrChunkTypeNotCookieAck`.
#[derive(Clone, Copy, Debug, PartialEq, Eq)]
pub struct ChunkCookieAck;

impl fmt::Display for ChunkCookieAck {
    fn fmt<W: fmt::Write>(&self, f: &mut fmt::Formatter<W>) -> fmt::Result {
        write!(f, "{}", self.chunk_type())
    }
}

#[tactic(auto, using(crate::proofs::One::cookie_ack_one))]
impl Chunk for ChunkCookieAck {
    ghost wire = { λ _. cookie_ack_chunk };

    ghost IsKind = { IsCookieAck };

    ghost IsFresh = { λ _. Unit {0} };

    ghost fault = { OpenFault 11 ErrChunkTypeNotCookieAck };

    fn unmarshal(_alloc: Global, raw: &Bytes) -> Result<Self> {
        open_chunk(raw, CT_COOKIE_ACK, Error::ErrChunkTypeNotCookieAck)?;
        Ok(ChunkCookieAck)
    }

    fn value_length(&self) -> usize {
        0
    }

    fn chunk_type(&self) -> ChunkType {
        CT_COOKIE_ACK
    }

    fn flags(&self) -> u8 {
        0
    }

    fn put_value(&self, _buf: &mut BytesMut) {}

    fn check(&self) -> Result<()> {
        Ok(())
    }

    fn check_form(&self) -> Result<()> {
        Ok(())
    }
}
