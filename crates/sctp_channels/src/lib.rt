//! The data channels of an association (RFC 8831, 8832): which streams they are on, and the messages that open them.
#![tactic(auto)]

mod channel;
mod channels;
mod closing;
mod control;
mod event;
mod received;
mod sends;

pub use channel::{Channel, Stage};
pub use channels::{Channels, Refusal};
pub use event::ChannelEvent;
pub use received::Received;
pub use sctp_dcep::{Open, Side};
