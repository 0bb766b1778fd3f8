//! The chunks of a packet (RFC 4960 3.2).
#![tactic(auto)]

pub mod chunk;

pub use chunk::chunk_abort::ChunkAbort;
pub use chunk::chunk_cookie_ack::ChunkCookieAck;
pub use chunk::chunk_cookie_echo::ChunkCookieEcho;
pub use chunk::chunk_error::ChunkError;
pub use chunk::chunk_forward_tsn::{ChunkForwardTsn, ChunkForwardTsnStream};
pub use chunk::chunk_header::ChunkHeader;
pub use chunk::chunk_heartbeat::ChunkHeartbeat;
pub use chunk::chunk_heartbeat_ack::ChunkHeartbeatAck;
pub use chunk::chunk_i_forward_tsn::{ChunkIForwardTsn, ChunkIForwardTsnStream};
pub use chunk::chunk_init::{ChunkInit, ChunkInitAck};
pub use chunk::chunk_kind::ChunkKind;
pub use chunk::chunk_payload_data::{ChunkPayloadData, PayloadProtocolIdentifier, ReliabilityType};
pub use chunk::chunk_reconfig::ChunkReconfig;
pub use chunk::chunk_selective_ack::{ChunkSelectiveAck, GapAckBlock};
pub use chunk::chunk_shutdown::ChunkShutdown;
pub use chunk::chunk_shutdown_ack::ChunkShutdownAck;
pub use chunk::chunk_shutdown_complete::ChunkShutdownComplete;
pub use chunk::error_cause::{ErrorCause, ErrorCauseCode};
pub use chunk::{Chunk, ChunkType};
