//! A fragment by itself on the heap.

ghost use Rattle.std.specs.Prelude.{◌≡◌, IfOk, IfErr};
ghost use Rattle.sctp_util.specs.declared.error.Error.TheVariants.{ErrOutOfMemory};

use sctp_data::chunk::chunk_payload_data::ChunkPayloadData;
use sctp_util::error::Error;
use std::alloc::{AllocError, Global};
use std::marker::Model;
use std::ops::Deref;

/// A fragment on the heap, so that an insertion among many moves no more than a pointer of each.
#[derive(Drop)]
pub struct Fragment {
    chunk: Box<ChunkPayloadData>,
}

impl Model for Fragment {
    ghost use Rattle.sctp_data.specs.declared.chunk.chunk_payload_data.ChunkPayloadData.{ChunkPayloadData};

    ghost Value = { ChunkPayloadData };

    ghost view = { λ f. f.chunk.value };
}

impl Fragment {
    /// Puts a fragment on the heap.
    pub fn new(alloc: Global, chunk: ChunkPayloadData) -> Result<Self, AllocError>
        ensures { IfOk result (λ fragment. fragment ≡ chunk) }
    {
        let chunk = Box::new(alloc, chunk)?;
        Ok(Fragment { chunk })
    }

    /// The fragment.
    pub fn chunk(&self) -> &ChunkPayloadData
        ensures { result.now ≡ self.now }
    {
        &self.chunk
    }

    /// The allocator.
    pub(crate) fn alloc(&self) -> Global {
        *Box::allocator(&self.chunk)
    }

    /// An equal one, which shares its bytes. Refuses only for memory.
    pub fn try_clone(&self, alloc: Global) -> Result<Self, Error>
        ensures ok { IfOk result (λ fragment. fragment ≡ self.now) }
        ensures memory { IfErr result (λ e. e ≡ ErrOutOfMemory) }
    {
        let copy = self.chunk().try_clone()?;
        Ok(Fragment::new(alloc, copy)?)
    }
}

impl Deref for Fragment {
    type Target = ChunkPayloadData;

    ghost deref_gives = { λ f c. c ≡ f };

    fn deref(&self) -> &ChunkPayloadData
        ensures { result.now ≡ self.now }
    {
        self.chunk()
    }
}
