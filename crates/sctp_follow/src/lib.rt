//! What went each way in the associations of a capture.
#![tactic(auto)]

pub mod associations;
pub mod band;
pub mod blocks;
pub mod channels;
pub mod flow;
pub mod handshake;
pub mod index;
pub mod interleave;
mod keys;
pub mod ladder;
pub mod lanes;
pub mod load;
pub mod outstanding;
pub mod packet;
pub mod plot;
pub mod sack;
mod spots;
pub mod stall;
mod strip;
pub mod summarize;
pub mod sums;
pub mod svg;
pub mod text;
pub mod track;
pub mod trips;
pub mod tsns;
