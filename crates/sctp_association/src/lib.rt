//! An SCTP association for WebRTC data channels (RFC 9260, 3758, 6525, 8831): from an application to datagrams and back. It has no clock,
//! socket or random source: moments, datagrams and secrets are handed in.
#![tactic(auto)]

pub mod alone;
mod asking;
mod association;
mod config;
mod draft;
mod due;
mod event;
mod fault;
mod inbound;
pub mod laws;
mod once;
mod outbound;
pub mod pair;
mod stream_set;

pub use association::{Association, Reason, Stats, Taken};
pub use config::{Config, Secrets};
pub use event::{Ending, Event};
pub use fault::Fault;
pub use sctp_data::chunk::chunk_payload_data::{PayloadProtocolIdentifier, ReliabilityType};
pub use sctp_handshake::State;
pub use sctp_path::RtoLimits;
pub use sctp_reassembly::Chunks;
pub use sctp_stream::DataChannelStats;
