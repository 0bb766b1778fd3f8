//! SCTP for WebRTC data channels, below the association: the packets, a sender and a receiver of user data (RFC 9260, RFC 3758).
//!
//! A program that uses SCTP imports this crate, and `bytes` for user data. What each name promises stands at the name.
#![tactic(auto)]

// packets and their chunks (RFC 9260 3)
pub use sctp_chunks::chunk::error_cause;
pub use sctp_chunks::{
    ChunkAbort, ChunkCookieAck, ChunkCookieEcho, ChunkError, ChunkForwardTsn,
    ChunkForwardTsnStream, ChunkHeartbeat, ChunkHeartbeatAck, ChunkIForwardTsn,
    ChunkIForwardTsnStream, ChunkInit, ChunkInitAck, ChunkKind, ChunkPayloadData, ChunkReconfig,
    ChunkSelectiveAck, ChunkShutdown, ChunkShutdownAck, ChunkShutdownComplete, ErrorCause,
    ErrorCauseCode, GapAckBlock, PayloadProtocolIdentifier, ReliabilityType,
};
pub use sctp_packets::{CommonHeader, Crc32c, Packet, PacketReader, PacketWriter, PartialDecode};
pub use sctp_params::{
    HmacAlgorithm, ParamChunkList, ParamForwardTsnSupported, ParamHeartbeatInfo, ParamKind,
    ParamOutgoingResetRequest, ParamRandom, ParamReconfigResponse, ParamRequestedHmacAlgorithm,
    ParamStateCookie, ParamSupportedAddressTypes, ParamSupportedExtensions, ParamType,
    ParamUnknown, ReconfigResult,
};
pub use sctp_util::{Checksum, Error, Result};

// serial order of TSNs and of stream sequence numbers (RFC 1982)
pub use sctp_util::util::{sna16lt, sna16lte, sna32lt, sna32lte};

// the two halves (RFC 9260 6)
pub use sctp_outbound::payload_queue::outstanding::Outstanding;
pub use sctp_reassembly::Chunks;
pub use sctp_receiver::advice::{AbortCause, Advice, SkipAdvice, advise, advise_skip};
pub use sctp_receiver::receiver::Receiver;
pub use sctp_receiver::receiver::arrival::{Arrival, Closed, Forwarded};
pub use sctp_receiver::receiver::limits::Limits;
pub use sctp_receiver::receiver::refusal::ReceiverRefusal;
pub use sctp_sender::sender::flight::Released;
pub use sctp_sender::sender::flight::kept::TakenBack;
pub use sctp_sender::sender::flight::late::AbandonedMessage;
pub use sctp_sender::sender::refusal::SenderRefusal;
pub use sctp_sender::sender::{Dropped, ExpiredMessages, Reported, Sender};
pub use sctp_stream::{DataChannelStats, OutboundStream};
