//! The queue in which the fragments of a stream become messages again (RFC 4960 6.9).
#![tactic(auto)]

pub mod reassembly_queue;

pub use reassembly_queue::chunks::{Chunk, Chunks, Fragments};
pub use reassembly_queue::fragment::Fragment;
pub use reassembly_queue::{ReassemblyQueue, chunks, fragment, ordered_skips, unassembled, undo};
