//! The sending half of user data transfer (RFC 4960 6).
#![tactic(auto)]

pub mod costs;
pub mod laws;
pub mod replay;
pub mod sender;
