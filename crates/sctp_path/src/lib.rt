//! What an association knows of its path (RFC 9260 6.2, 6.3, 7.2, 8): timeouts, the congestion window, failures, when a SACK is due.
#![tactic(auto)]

pub mod ack_delay;
pub mod congestion;
pub mod failures;
pub mod heartbeat;
pub mod laws;
pub mod rto;
pub mod timer;

pub use ack_delay::AckDelay;
pub use congestion::{Acknowledged, Congestion};
pub use failures::Failures;
pub use heartbeat::Heartbeat;
pub use rto::{Rto, RtoLimits};
pub use timer::{Timer, earliest};
