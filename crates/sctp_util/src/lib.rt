//! What every layer shares: refusals, serial numbers, padding, checksums, byte sources, numbers in bytes, and laws of lists.
#![tactic(auto)]

pub mod error;
pub mod field;
pub mod util;

pub use error::{Error, Result};
pub use util::{
    AssociationId, AssociationIdGenerator, ByteSlice, BytesArray, BytesSource, Checksum, ChunkType,
};
