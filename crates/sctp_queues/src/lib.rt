//! The queues of an association: what waits, what is in flight, what came.
#![tactic(auto)]

pub use sctp_outbound::{
    OutboundQueue, PayloadQueue, PendingQueue, held, laws, outbound_queue, payload_queue,
    pending_queue,
};
pub use sctp_reassembly::{
    Chunk, Chunks, Fragment, Fragments, ReassemblyQueue, chunks, fragment, reassembly_queue,
    unassembled,
};
pub use sctp_serial::{Turns, turns};
