//! Looks at a datagram, whatever its bytes.
#![tactic(auto)]

pub mod causes;
pub mod dissection;
pub mod params;
