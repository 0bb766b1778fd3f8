//! Datagrams read where they lie, with all types of chunks and parameters that RFC 9260 3.2 and 3.2.1 allow.
#![tactic(auto)]

pub mod causes;
pub mod datagram;
pub mod in_place;
pub mod laws;
pub mod params;

pub use causes::CausePlace;
pub use datagram::{ChunkPlace, Datagram, ZeroChecksum};
pub use params::ParamPlace;
