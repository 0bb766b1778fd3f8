//! Scripts of events, a line for each, run on a link under a checksum that is handed in.
#![tactic(auto)]

pub mod field;
pub mod run;
pub mod script;
