//! ABORT: the association is closed at once.

ghost use Rattle.sctp_chunks.specs.Wire.{abort_chunk, IsAbort};
ghost use Rattle.sctp_chunks.specs.Fault.{AbortFault};

use super::Chunk;
use super::chunk_header::{open_chunk, share_value};
use super::error_cause::{ErrorCause, causes_length, put_causes, read_causes};
use bytes::{Bytes, BytesMut};
use sctp_util::error::{Error, Result};
use sctp_util::util::{CT_ABORT, ChunkType};
use std::alloc::Global;
use std::fmt;

/// The association is closed at once, for these causes (RFC 4960 3.3.7, type 6). The value is the causes, read and written with
/// no padding between them, though RFC 4960 3.3.10 pads each to a multiple of four (`dissect_causes` of `sctp_dissect` reads so);
/// up to three bytes behind the last are ignored. The flags, and so the T bit, are not kept.
/// Refuses another type with `ErrChunkTypeNotAbort`, a cause with `ErrErrorCauseTooSmall`.
#[derive(Debug, Drop)]
pub struct ChunkAbort {
    pub error_causes: Vec<ErrorCause>,
}

impl fmt::Display for ChunkAbort {
    fn fmt<W: fmt::Write>(&self, f: &mut fmt::Formatter<W>) -> fmt::Result {
        write!(f, "{}", self.chunk_type())?;
        for cause in &self.error_causes {
            write!(f, "\n - {cause}")?;
        }
        Ok(())
    }
}

#[tactic(auto, using(crate::proofs::One::abort_one, crate::proofs::Causes::causes_short))]
impl Chunk for ChunkAbort {
    ghost wire = { λ c. abort_chunk c.error_causes.items };

    ghost IsKind = { IsAbort };

    ghost IsFresh = { λ _. Unit {0} };

    ghost fault = { AbortFault };

    fn unmarshal(alloc: Global, raw: &Bytes) -> Result<Self> {
        let (_flags, value) = open_chunk(raw, CT_ABORT, Error::ErrChunkTypeNotAbort)?;
        let error_causes = read_causes(alloc, share_value(raw, value, 0)?)?;
        Ok(ChunkAbort { error_causes })
    }

    fn value_length(&self) -> usize {
        causes_length(&self.error_causes)
    }

    fn chunk_type(&self) -> ChunkType {
        CT_ABORT
    }

    fn flags(&self) -> u8 {
        0
    }

    fn put_value(&self, buf: &mut BytesMut) {
        put_causes(buf, &self.error_causes);
    }

    fn check(&self) -> Result<()> {
        Ok(())
    }

    fn check_form(&self) -> Result<()> {
        Ok(())
    }
}
