//! From a datagram to a message, over `sctp_packets` and `sctp_queues`.

use bytes::Bytes;
use sctp_base::error::Result;
use sctp_base::util::Checksum;
use sctp_chunks::chunk::chunk_kind::ChunkKind;
use sctp_packets::packet::Packet;
use sctp_queues::chunks::Chunks;
use sctp_queues::reassembly_queue::ReassemblyQueue;
use std::alloc::Global;

/// Reads a datagram, puts the user data in it into the queue of a stream, and reads that stream's next message,
/// where one is whole then.
pub fn receive<C: Checksum>(
    alloc: Global,
    datagram: &Bytes,
    checksum: &C,
    queue: &mut ReassemblyQueue,
) -> Result<Option<Chunks>> {
    let packet = Packet::unmarshal(alloc, datagram, checksum)?;
    for chunk in packet.chunks {
        if let ChunkKind::PayloadData(data) = chunk {
            queue.push(data)?;
        }
    }
    Ok(queue.read())
}
