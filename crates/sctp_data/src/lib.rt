//! The chunks of data transfer as values, which queues, senders and receivers keep and make: DATA, SACK and FORWARD-TSN.
//! How they are read and written stands with the other kinds of chunk, in `sctp_chunks`, which offers these names too.
#![tactic(auto)]

pub mod chunk;

pub use chunk::chunk_forward_tsn::{ChunkForwardTsn, ChunkForwardTsnStream};
pub use chunk::chunk_payload_data::{ChunkPayloadData, PayloadProtocolIdentifier, ReliabilityType};
pub use chunk::chunk_selective_ack::{ChunkSelectiveAck, GapAckBlock};
pub use chunk::error_cause::ErrorCauseCode;
