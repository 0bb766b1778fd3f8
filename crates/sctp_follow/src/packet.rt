//! A packet of a record.

use crate::flow::Extent;
use crate::sack::{NR_SACK, SACK, read_sack};
use sctp_capture::record::Time;
use sctp_data::chunk::chunk_selective_ack::ChunkSelectiveAck;
use sctp_dissect::dissection::{Dissection, Item, Reading};
use sctp_util::error::Error;
use std::alloc::{AllocError, Global};
use std::net::IpAddr;

/// With which record a chunk came, and when.
#[derive(Clone, Copy)]
pub struct Arrived {
    pub number: u64,
    pub time: Option<Time>,
}

/// A packet of a record.
#[derive(Drop)]
pub struct Packet<'a> {
    /// The number of its record in the input, from 1 on.
    pub number: u64,
    pub seen: &'a Dissection,
    /// The addresses between which it went, where they are known.
    pub ends: Option<(IpAddr, IpAddr)>,
    pub time: Option<Time>,
    pub extent: Extent,
    /// How many of its bytes are missing.
    pub missing: usize,
    /// Whether its checksum was computed, and is wrong.
    pub is_wrong: bool,
}

/// What a chunk acknowledges that the reader of packets refuses: a SACK that is cut off, or an NR-SACK. Another SACK that it refuses breaks a
/// rule, and acknowledges nothing. Refuses only for memory.
pub fn refused_sack(alloc: Global, item: &Item) -> Result<Option<ChunkSelectiveAck>, AllocError> {
    let Reading::Raw(raw) = &item.reading else {
        return Ok(None);
    };
    match (raw.typ.0, raw.refusal) {
        (SACK, Error::ErrChunkHeaderNotEnoughSpace) | (NR_SACK, _) => {
            read_sack(alloc, item.bytes.as_slice())
        }
        _ => Ok(None),
    }
}
