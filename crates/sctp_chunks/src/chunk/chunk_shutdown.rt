//! SHUTDOWN: no more user data will be sent.

ghost use Rattle.sctp_chunks.specs.Wire.{shutdown_chunk, IsShutdown};
ghost use Rattle.sctp_chunks.specs.Fault.{ShutdownFault};

use super::Chunk;
use super::chunk_header::open_chunk;
use bytes::{Bytes, BytesMut};
use sctp_util::error::{Error, Result};
use sctp_util::field::{put_u32, read_u32};
use sctp_util::util::{CT_SHUTDOWN, ChunkType};
use std::alloc::Global;
use std::fmt;

/// The bytes of the value.
pub const CUMULATIVE_TSN_ACK_LENGTH: usize = 4;

/// The sender has no more user data, and received all up to this TSN (RFC 4960 3.3.8, type 7). The value is the TSN.
/// Refuses another type with `ErrChunkTypeNotShutdown`, a value of other than four bytes with `ErrInvalidChunkSize`.
#[derive(Clone, Copy, Debug, PartialEq, Eq)]
pub struct ChunkShutdown {
    /// The last TSN up to which all arrived.
    pub cumulative_tsn_ack: u32,
}

impl fmt::Display for ChunkShutdown {
    fn fmt<W: fmt::Write>(&self, f: &mut fmt::Formatter<W>) -> fmt::Result {
        write!(f, "{}", self.chunk_type())
    }
}

#[tactic(auto, using(crate::proofs::One::shutdown_one, sctp_util::proofs::Fields::length_be32))]
impl Chunk for ChunkShutdown {
    ghost wire = { λ c. shutdown_chunk c.cumulative_tsn_ack };

    ghost IsKind = { IsShutdown };

    ghost IsFresh = { λ _. Unit {0} };

    ghost fault = { ShutdownFault };

    fn unmarshal(_alloc: Global, raw: &Bytes) -> Result<Self> {
        let (_flags, value) = open_chunk(raw, CT_SHUTDOWN, Error::ErrChunkTypeNotShutdown)?;
        if value.len() != CUMULATIVE_TSN_ACK_LENGTH {
            return Err(Error::ErrInvalidChunkSize);
        }
        Ok(ChunkShutdown {
            cumulative_tsn_ack: read_u32(value, 0),
        })
    }

    fn value_length(&self) -> usize {
        CUMULATIVE_TSN_ACK_LENGTH
    }

    fn chunk_type(&self) -> ChunkType {
        CT_SHUTDOWN
    }

    fn flags(&self) -> u8 {
        0
    }

    fn put_value(&self, buf: &mut BytesMut) {
        put_u32(buf, self.cumulative_tsn_ack);
    }

    fn check(&self) -> Result<()> {
        Ok(())
    }

    fn check_form(&self) -> Result<()> {
        Ok(())
    }
}
