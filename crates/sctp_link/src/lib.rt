//! A sender and a receiver over a network in memory, and what a stream keeps.
#![tactic(auto)]

mod datagram;
pub mod event;
pub mod link;
mod link_receiver;
mod progress;
mod record;
mod skipped;

pub use event::{Event, LinkRefusal, Reply};
pub use link::Link;
pub use link::accessors::Ledger;
pub use sctp_stream::stream;
pub use sctp_stream::stream::{
    DataChannelStats, RecvSendState, StreamEvent, StreamId, StreamResetError, StreamState,
};
