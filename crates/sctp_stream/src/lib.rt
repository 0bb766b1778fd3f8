//! What a stream keeps (RFC 4960 6.5, 6.6; RFC 8831), and how it is found by its number.
#![tactic(auto)]

pub mod outbound_stream;
pub mod stream;
pub mod stream_numbers;

pub use outbound_stream::OutboundStream;
pub use stream::{
    DataChannelStats, RecvSendState, StreamEvent, StreamId, StreamResetError, StreamState,
};
