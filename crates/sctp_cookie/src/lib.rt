//! State Cookies (RFC 9260 5.1.3): bytes and the moment of their making, under a message authentication code. A responder sends
//! one in its INIT ACK, keeps nothing, and finds in the COOKIE ECHO what it needs.
#![tactic(auto)]

pub mod cookie;
pub mod mac;

pub use cookie::{is_stale, open, seal};
pub use mac::{HmacSha256, Mac};
