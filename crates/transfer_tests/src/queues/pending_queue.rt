//! Worked examples of a pending queue by itself.

ghost use Rattle.std.specs.Prelude.{◌≡◌, length};

use crate::queues::chunk::chunk;
use sctp_data::chunk::chunk_payload_data::ChunkPayloadData;
use sctp_queues::pending_queue::PendingQueue;
use sctp_util::error::Error;
use std::alloc::Global;

// A chunk of one byte that begins a message.
fn beginning(message_id: u64, unordered: bool, ending_fragment: bool) -> ChunkPayloadData
    ensures { length result.user_data ≡ 1 }
{
    let mut chunk = chunk(0);
    chunk.message_id = message_id;
    chunk.unordered = unordered;
    chunk.ending_fragment = ending_fragment;
    chunk
}

fn push(queue: &mut PendingQueue, chunk: ChunkPayloadData) -> Result<(), Error>
    requires { length chunk.user_data ≡ 1 }
{
    if queue.get_num_bytes() < 1000 {
        return queue.push(chunk);
    }
    drop(chunk);
    Ok(())
}

// Whether the chunk is of this message.
fn is_of(chunk: Option<&ChunkPayloadData>, want: u64) -> bool {
    match chunk {
        Some(chunk) => chunk.message_id == want,
        None => false,
    }
}

// Whether the chunk that is popped is of this message, or there is none.
fn pops(queue: &mut PendingQueue, begins: bool, unordered: bool, want: Option<u64>) -> bool {
    match queue.pop(begins, unordered) {
        Some(chunk) => {
            let well = want == Some(chunk.message_id);
            drop(chunk);
            well
        }
        None => want.is_none(),
    }
}

fn unordered_is_first(queue: &mut PendingQueue) -> bool {
    queue.reserve(1, 1).is_ok()
        && push(queue, beginning(0, false, true)).is_ok()
        && push(queue, beginning(1, true, true)).is_ok()
        && is_of(queue.peek(), 1)
}

fn ordered_is_popped(queue: &mut PendingQueue) -> bool {
    pops(queue, false, true, None)
        && pops(queue, true, false, Some(0))
        && queue.contains_message(1)
        && !queue.contains_message(0)
        && queue.contains_stream(1)
        && queue.len() == 1
        && queue.get_num_bytes() == 1
        && !queue.is_empty()
}

pub(crate) fn unordered_goes_first(alloc: Global) -> bool {
    let mut queue = PendingQueue::new(alloc);
    let well = unordered_is_first(&mut queue) && ordered_is_popped(&mut queue);
    drop(queue);
    well
}

// Whether so many bytes of this message are removed, and the last chunk of them is of this one.
fn removes(queue: &mut PendingQueue, message: u64, bytes: usize, last: Option<u64>) -> bool {
    let (removed, chunk) = queue.remove_message(message);
    match chunk {
        Some(chunk) => {
            let well = removed == bytes && last == Some(chunk.message_id);
            drop(chunk);
            well
        }
        None => removed == bytes && last.is_none(),
    }
}

fn half_is_sent(queue: &mut PendingQueue) -> bool {
    push(queue, beginning(0, false, false)).is_ok()
        && pops(queue, true, false, Some(0))
        && push(queue, beginning(1, false, true)).is_ok()
        && push(queue, beginning(2, true, true)).is_ok()
        && removes(queue, 1, 1, Some(1))
        && queue.peek().is_none()
        && removes(queue, 0, 0, None)
        && is_of(queue.peek(), 2)
}

// Whether the next chunk has no moment at which it expires, and the stream sequence number 0.
fn next_is_unchanged(queue: &PendingQueue) -> bool {
    match queue.peek() {
        Some(chunk) => chunk.deadline.is_none() && chunk.stream_sequence_number == 0,
        None => false,
    }
}

pub(crate) fn a_message_with_no_end_stays_partially_sent(alloc: Global) -> bool {
    let mut queue = PendingQueue::new(alloc);
    let well = half_is_sent(&mut queue);
    queue.start_timed_messages(0, 5);
    queue.compact_ordered_ssns(1);
    let well = well && next_is_unchanged(&queue);
    drop(queue);
    well
}
