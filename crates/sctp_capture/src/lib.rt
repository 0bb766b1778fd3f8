//! The records of a capture, or of lines of hex text, and the SCTP datagrams in them.
#![tactic(auto)]

pub mod blocks;
pub mod dump;
pub mod exported;
pub mod fields;
pub mod frame;
pub mod input;
pub mod kind;
pub mod lead;
mod options;
pub mod preamble;
pub mod record;
pub mod text;
pub mod window;
pub mod write;
