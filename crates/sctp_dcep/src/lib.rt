//! The Data Channel Establishment Protocol of WebRTC (RFC 8832): its two messages, and which side opens a channel on which stream.
#![tactic(auto)]

pub mod fault;
pub mod message;
pub mod side;

pub use fault::Fault;
pub use message::{Message, Open};
pub use side::Side;
