//! COOKIE-ECHO: the peer's state cookie, given back.

ghost use Rattle.sctp_util.specs.declared.error.Error.TheVariants.{ErrChunkTypeNotCookieEcho};
ghost use Rattle.sctp_chunks.specs.Wire.{cookie_echo_chunk, IsCookieEcho};
ghost use Rattle.sctp_chunks.specs.Fault.{OpenFault};

use super::Chunk;
use super::chunk_header::{open_chunk, share_value};
use bytes::{Bytes, BytesMut};
use sctp_util::error::{Error, Result};
use sctp_util::util::{CT_COOKIE_ECHO, ChunkType};
use std::alloc::Global;
use std::fmt;

/// The cookie of the peer's INIT-ACK (RFC 4960 3.3.11, type 10). The value is the cookie's bytes, however many.
/// Refuses another type with `ErrChunkTypeNotCookieEcho`.
#[derive(Debug, Drop)]
pub struct ChunkCookieEcho {
    pub cookie: Bytes,
}

impl fmt::Display for ChunkCookieEcho {
    fn fmt<W: fmt::Write>(&self, f: &mut fmt::Formatter<W>) -> fmt::Result {
        write!(f, "{}", self.chunk_type())
    }
}

#[tactic(auto, using(crate::proofs::One::cookie_echo_one))]
impl Chunk for ChunkCookieEcho {
    ghost wire = { λ c. cookie_echo_chunk c.cookie };

    ghost IsKind = { IsCookieEcho };

    ghost IsFresh = { λ _. Unit {0} };

    ghost fault = { OpenFault 10 ErrChunkTypeNotCookieEcho };

    fn unmarshal(_alloc: Global, raw: &Bytes) -> Result<Self> {
        let (_flags, value) = open_chunk(raw, CT_COOKIE_ECHO, Error::ErrChunkTypeNotCookieEcho)?;
        let cookie = share_value(raw, value, 0)?;
        Ok(ChunkCookieEcho { cookie })
    }

    fn value_length(&self) -> usize {
        self.cookie.len()
    }

    fn chunk_type(&self) -> ChunkType {
        CT_COOKIE_ECHO
    }

    fn flags(&self) -> u8 {
        0
    }

    fn put_value(&self, buf: &mut BytesMut) {
        buf.extend_reserved(&self.cookie);
    }

    fn check(&self) -> Result<()> {
        Ok(())
    }

    fn check_form(&self) -> Result<()> {
        Ok(())
    }
}
