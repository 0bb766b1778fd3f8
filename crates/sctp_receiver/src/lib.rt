//! The receiving half of user data transfer (RFC 4960 6).
#![tactic(auto)]

pub mod advice;
pub mod costs;
pub mod laws;
pub mod receiver;
pub mod replay;
