//! What the queues of an association share: serial order (RFC 1982), and a count of turns.
#![tactic(auto)]

pub mod serial;
pub mod turns;

pub use turns::Turns;
