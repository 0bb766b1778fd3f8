//! SHUTDOWN-COMPLETE: the end of an association.

ghost use Rattle.sctp_chunks.specs.Wire.{shutdown_complete_chunk, IsShutdownComplete};
ghost use Rattle.sctp_chunks.specs.Fault.{OpenFault};
ghost use Rattle.sctp_util.specs.declared.error.Error.TheVariants.{ErrChunkTypeNotShutdownComplete};

use super::Chunk;
use super::chunk_header::open_chunk;
use bytes::{Bytes, BytesMut};
use sctp_util::error::{Error, Result};
use sctp_util::util::{CT_SHUTDOWN_COMPLETE, ChunkType};
use std::alloc::Global;
use std::fmt;

/// The answer to a SHUTDOWN-ACK (RFC 4960 3.3.13, type 14). Its value is ignored,
/// and written empty. The flags, and so the T bit, are not kept.
/// Refuses another type with `ErrChunkTypeNotShutdownComplete`.
#[derive(Clone, Copy, Debug, PartialEq, Eq)]
pub struct ChunkShutdownComplete;

impl fmt::Display for ChunkShutdownComplete {
    fn fmt<W: fmt::Write>(&self, f: &mut fmt::Formatter<W>) -> fmt::Result {
        write!(f, "{}", self.chunk_type())
    }
}

#[tactic(auto, using(crate::proofs::One::shutdown_complete_one))]
impl Chunk for ChunkShutdownComplete {
    ghost wire = { λ _. shutdown_complete_chunk };

    ghost IsKind = { IsShutdownComplete };

    ghost IsFresh = { λ _. Unit {0} };

    ghost fault = { OpenFault 14 ErrChunkTypeNotShutdownComplete };

    fn unmarshal(_alloc: Global, raw: &Bytes) -> Result<Self> {
        open_chunk(
            raw,
            CT_SHUTDOWN_COMPLETE,
            Error::ErrChunkTypeNotShutdownComplete,
        )?;
        Ok(ChunkShutdownComplete)
    }

    fn value_length(&self) -> usize {
        0
    }

    fn chunk_type(&self) -> ChunkType {
        CT_SHUTDOWN_COMPLETE
    }

    fn flags(&self) -> u8 {
        0
    }

    fn put_value(&self, _buf: &mut BytesMut) {}

    fn check(&self) -> Result<()> {
        Ok(())
    }

    fn check_form(&self) -> Result<()> {
        Ok(())
    }
}
