//! Chunks by TSN: what waits for one, what is in flight, what came.
#![tactic(auto)]

pub mod laws;
pub mod outbound_queue;
pub mod payload_queue;
pub mod pending_queue;

pub use outbound_queue::OutboundQueue;
pub use payload_queue::{PayloadQueue, held};
pub use pending_queue::PendingQueue;
