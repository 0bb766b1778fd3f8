//! Callers of `sctp_queues`: a sender that meets each precondition by the call that tells, and a reader.

ghost use Rattle.std.specs.Prelude.{◌≡◌, ◌++◌, None, Some, drop, if◌then◌else◌, length, IfOk, MatchOption, OnErr};
ghost use Rattle.sctp_data.specs.ChunkSet.{ChunkSet};
ghost use Rattle.sctp_outbound.specs.outbound_queue.OutboundQueue.{with_message};
ghost use Rattle.sctp_reassembly.specs.reassembly_queue.Fragments.{payload_of};
ghost use Rattle.sctp_reassembly.specs.reassembly_queue.ReassemblyQueue.{message_read};

use sctp_base::error::Result;
use sctp_chunks::chunk::chunk_payload_data::ChunkPayloadData;
use sctp_queues::outbound_queue::OutboundQueue;
use sctp_queues::reassembly_queue::ReassemblyQueue;

/// Puts the fragments of a message behind those that wait. The answer is false, and nothing changes, where
/// they are not one complete message or one more can't be counted.
pub fn queue_message(queue: &mut OutboundQueue, fragments: Vec<ChunkPayloadData>) -> Result<bool>
    ensures ok { IfOk result (λ taken. queue.new
        ≡ (if taken then with_message fragments.items queue.old else queue.old)) }
    ensures err { OnErr result (queue.new ≡ queue.old) }
{
    if !queue.can_push(&fragments) {
        return Ok(false);
    }
    queue.push(fragments)?;
    Ok(true)
}

/// Puts the next fragment in flight under the next TSN, and answers it: None where none waits, or where 2^31 TSNs
/// after the oldest chunk in flight are used up.
pub fn send_one(queue: &mut OutboundQueue, next_tsn: &mut u32, now: u64) -> Result<Option<u32>>
    ensures { OnErr result ((queue.new ≡ queue.old) × (next_tsn.new ≡ next_tsn.old)) }
{
    if !queue.can_send(*next_tsn) {
        return Ok(None);
    }
    queue.send_next(next_tsn, now)
}

/// Reads the next message of a stream into a buffer and gives its length, or None where no message is whole.
pub fn read_next(queue: &mut ReassemblyQueue, buf: &mut [u8]) -> Option<Result<usize>>
    ensures { MatchOption result (message_read queue.old.held ≡ None)
        (λ read. (set : ChunkSet) × (message_read queue.old.held ≡ Some set)
        × IfOk read (λ n. (n ≡ length (payload_of set.chunks))
        × (buf.new ≡ payload_of set.chunks ++ drop n buf.old))) }
{
    let message = queue.read()?;
    Some(message.read(buf))
}
