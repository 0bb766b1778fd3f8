//! The events of a link, its refusals, and what holds of every history of events.
#![tactic(auto)]

pub mod event;
pub mod laws;
