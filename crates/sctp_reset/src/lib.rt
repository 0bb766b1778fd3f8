//! Stream reset (RFC 6525, RFC 8831 6.7): which request is due, under way or answered, and what a peer's request is answered.
#![tactic(auto)]

pub mod laws;
pub mod own_requests;
pub mod peer_requests;

pub use own_requests::{Answer, OwnRequests, ResetRequest};
pub use peer_requests::{Due, PeerRequests};
