//! SHUTDOWN-ACK: the answer to a SHUTDOWN.

ghost use Rattle.sctp_chunks.specs.Wire.{shutdown_ack_chunk, IsShutdownAck};
ghost use Rattle.sctp_chunks.specs.Fault.{OpenFault};
ghost use Rattle.sctp_util.specs.declared.error.Error.TheVariants.{ErrChunkTypeNotShutdownAck};

use super::Chunk;
use super::chunk_header::open_chunk;
use bytes::{Bytes, BytesMut};
use sctp_util::error::{Error, Result};
use sctp_util::util::{CT_SHUTDOWN_ACK, ChunkType};
use std::alloc::Global;
use std::fmt;

/// The answer to a SHUTDOWN (RFC 4960 3.3.9, type 8). Its value is ignored, and written empty.
/// Refuses another type with `ErrChunkTypeNotShutdownAck`.
#[derive(Clone, Copy, Debug, PartialEq, Eq)]
pub struct ChunkShutdownAck;

impl fmt::Display for ChunkShutdownAck {
    fn fmt<W: fmt::Write>(&self, f: &mut fmt::Formatter<W>) -> fmt::Result {
        write!(f, "{}", self.chunk_type())
    }
}

#[tactic(auto, using(crate::proofs::One::shutdown_ack_one))]
impl Chunk for ChunkShutdownAck {
    ghost wire = { λ _. shutdown_ack_chunk };

    ghost IsKind = { IsShutdownAck };

    ghost IsFresh = { λ _. Unit {0} };

    ghost fault = { OpenFault 8 ErrChunkTypeNotShutdownAck };

    fn unmarshal(_alloc: Global, raw: &Bytes) -> Result<Self> {
        open_chunk(raw, CT_SHUTDOWN_ACK, Error::ErrChunkTypeNotShutdownAck)?;
        Ok(ChunkShutdownAck)
    }

    fn value_length(&self) -> usize {
        0
    }

    fn chunk_type(&self) -> ChunkType {
        CT_SHUTDOWN_ACK
    }

    fn flags(&self) -> u8 {
        0
    }

    fn put_value(&self, _buf: &mut BytesMut) {}

    fn check(&self) -> Result<()> {
        Ok(())
    }

    fn check_form(&self) -> Result<()> {
        Ok(())
    }
}
