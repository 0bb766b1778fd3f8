//! ERROR: the peer made errors.

ghost use Rattle.sctp_chunks.specs.Wire.{error_chunk, IsError};
ghost use Rattle.sctp_chunks.specs.Fault.{ErrorFault};

use super::Chunk;
use super::chunk_header::{open_chunk, share_value};
use super::error_cause::{ErrorCause, causes_length, put_causes, read_causes};
use bytes::{Bytes, BytesMut};
use sctp_util::error::{Error, Result};
use sctp_util::util::{CT_ERROR, ChunkType};
use std::alloc::Global;
use std::fmt;

/// The peer made these errors, which alone do not end the association (RFC 4960 3.3.10, type 9). The value is the
/// causes, read and written with no padding between them, though RFC 4960 3.3.10 pads each to a multiple of four
/// (`dissect_causes` of `sctp_dissect` reads so); up to three bytes behind the last are ignored.
/// Refuses another type with `ErrChunkTypeNotCt`, a cause with `ErrErrorCauseTooSmall`.
#[derive(Debug, Drop)]
pub struct ChunkError {
    pub error_causes: Vec<ErrorCause>,
}

impl fmt::Display for ChunkError {
    fn fmt<W: fmt::Write>(&self, f: &mut fmt::Formatter<W>) -> fmt::Result {
        write!(f, "{}", self.chunk_type())?;
        for cause in &self.error_causes {
            write!(f, "\n - {cause}")?;
        }
        Ok(())
    }
}

#[tactic(auto, using(crate::proofs::One::error_one, crate::proofs::Causes::causes_short))]
impl Chunk for ChunkError {
    ghost wire = { λ c. error_chunk c.error_causes.items };

    ghost IsKind = { IsError };

    ghost IsFresh = { λ _. Unit {0} };

    ghost fault = { ErrorFault };

    fn unmarshal(alloc: Global, raw: &Bytes) -> Result<Self> {
        let (_flags, value) = open_chunk(raw, CT_ERROR, Error::ErrChunkTypeNotCt)?;
        let error_causes = read_causes(alloc, share_value(raw, value, 0)?)?;
        Ok(ChunkError { error_causes })
    }

    fn value_length(&self) -> usize {
        causes_length(&self.error_causes)
    }

    fn chunk_type(&self) -> ChunkType {
        CT_ERROR
    }

    fn flags(&self) -> u8 {
        0
    }

    fn put_value(&self, buf: &mut BytesMut) {
        put_causes(buf, &self.error_causes);
    }

    fn check(&self) -> Result<()> {
        Ok(())
    }

    fn check_form(&self) -> Result<()> {
        Ok(())
    }
}
