//! DATA: how a chunk of user data is read and written.

ghost use Rattle.sctp_data.specs.PayloadData.{data_of};
ghost use Rattle.sctp_data.specs.ChunkSet.{IsFreshData};
ghost use Rattle.sctp_chunks.specs.Wire.{data_chunk, IsData};
ghost use Rattle.sctp_chunks.specs.Fault.{DataFault};

use super::Chunk;
use super::chunk_header::{open_chunk, share_value};
use bytes::{Bytes, BytesMut};
pub use sctp_data::chunk::chunk_payload_data::{
    ChunkPayloadData, PAYLOAD_DATA_BEGINING_FRAGMENT_BITMASK, PAYLOAD_DATA_ENDING_FRAGMENT_BITMASK,
    PAYLOAD_DATA_HEADER_SIZE, PAYLOAD_DATA_IMMEDIATE_SACK, PAYLOAD_DATA_UNORDERED_BITMASK,
    PayloadProtocolIdentifier, ReliabilityType,
};
use sctp_util::error::{Error, Result};
use sctp_util::field::{put_u16, put_u32, read_u16, read_u32};
use sctp_util::util::{CT_PAYLOAD_DATA, ChunkType};
use std::alloc::Global;

#[tactic(auto, using(crate::proofs::One::data_one, crate::proofs::Lengths::length_data_value))]
impl Chunk for ChunkPayloadData {
    ghost wire = { λ c. data_chunk (data_of c) };

    ghost IsKind = { IsData };

    ghost IsFresh = { IsFreshData };

    ghost fault = { DataFault };

    fn unmarshal(_alloc: Global, raw: &Bytes) -> Result<Self> {
        let (flags, value) = open_chunk(raw, CT_PAYLOAD_DATA, Error::ErrChunkTypeNotPayloadData)?;
        if value.len() < PAYLOAD_DATA_HEADER_SIZE {
            return Err(Error::ErrChunkPayloadSmall);
        }
        let user_data = share_value(raw, value, PAYLOAD_DATA_HEADER_SIZE)?;
        Ok(ChunkPayloadData {
            unordered: flags & PAYLOAD_DATA_UNORDERED_BITMASK != 0,
            beginning_fragment: flags & PAYLOAD_DATA_BEGINING_FRAGMENT_BITMASK != 0,
            ending_fragment: flags & PAYLOAD_DATA_ENDING_FRAGMENT_BITMASK != 0,
            immediate_sack: flags & PAYLOAD_DATA_IMMEDIATE_SACK != 0,
            tsn: read_u32(value, 0),
            stream_identifier: read_u16(value, 4),
            stream_sequence_number: read_u16(value, 6),
            payload_type: read_u32(value, 8).into(),
            user_data,
            acked: false,
            miss_indicator: 0,
            message_id: 0,
            abandoned: false,
            since: None,
            reliability: None,
            deadline: None,
            nsent: 0,
            retransmit: false,
        })
    }

    fn value_length(&self) -> usize {
        PAYLOAD_DATA_HEADER_SIZE + self.user_data.len()
    }

    fn chunk_type(&self) -> ChunkType {
        CT_PAYLOAD_DATA
    }

    #[tactic(auto, unfolding(sctp_data::specs::PayloadData::data_flags))]
    fn flags(&self) -> u8 {
        let mut flags = 0;
        if self.ending_fragment {
            flags += PAYLOAD_DATA_ENDING_FRAGMENT_BITMASK;
        }
        if self.beginning_fragment {
            flags += PAYLOAD_DATA_BEGINING_FRAGMENT_BITMASK;
        }
        if self.unordered {
            flags += PAYLOAD_DATA_UNORDERED_BITMASK;
        }
        if self.immediate_sack {
            flags += PAYLOAD_DATA_IMMEDIATE_SACK;
        }
        flags
    }

    fn put_value(&self, buf: &mut BytesMut) {
        put_u32(buf, self.tsn);
        put_u16(buf, self.stream_identifier);
        put_u16(buf, self.stream_sequence_number);
        put_u32(buf, self.payload_type.number());
        buf.extend_reserved(&self.user_data);
    }

    fn check(&self) -> Result<()> {
        Ok(())
    }

    fn check_form(&self) -> Result<()> {
        Ok(())
    }
}
