//! Runs of an outbound queue.

ghost use Rattle.std.specs.Prelude.{◌≡◌, ◌+◌, ◌<◌, ◌^◌, [], IfOk};
ghost use Rattle.sctp_outbound.specs.pending_queue.Whole.{IsMessageOrNone};
ghost use Rattle.bench.specs.Near.{AreBelow};

use crate::subject::whole;
use crate::timing::Measured;
use sctp_chunks::chunk::chunk_payload_data::ChunkPayloadData;
use sctp_queues::outbound_queue::OutboundQueue;
use sctp_queues::pending_queue::PendingQueue;
use sctp_util::error::Result;
use std::alloc::Global;
use std::time::{Clock, Instant};

// A message of one fragment.
fn message(alloc: Global) -> Result<Vec<ChunkPayloadData>>
    ensures { IfOk result (λ chunks. IsMessageOrNone chunks.items) }
{
    let mut chunks = Vec::with_capacity(alloc, 1)?;
    chunks.push(whole(0))?;
    Ok(chunks)
}

// A queue in which so many messages wait.
fn waiting(alloc: Global, count: u16) -> Result<OutboundQueue>
    ensures { IfOk result (λ queue. queue.inflight.chunks ≡ []) }
{
    let mut queue = OutboundQueue::new(alloc);
    for _ in 0..count {
        let chunks = message(alloc)?;
        if queue.can_push(&chunks) {
            queue.push(chunks)?;
        }
    }
    Ok(queue)
}

// Sends the chunk in front under this TSN, and says whether there was one.
fn send(queue: &mut OutboundQueue, tsn: u32) -> Result<bool>
    requires in_flight { AreBelow tsn queue.old.inflight.chunks }
    requires some { 0 < tsn }
    requires near { tsn < 2 ^ 31 }
    ensures { AreBelow (tsn + 1) queue.new.inflight.chunks }
{
    let mut next_tsn = tsn;
    Ok(queue.send_next(&mut next_tsn, 0)?.is_some())
}

// Sends so often, and gives how often there was something.
fn send_each(queue: &mut OutboundQueue, count: u16) -> Result<usize>
    requires { queue.old.inflight.chunks ≡ [] }
{
    let mut sent = 0usize;
    for place in 0..count {
        if send(queue, u32::from(place) + 1)? {
            sent = sent.wrapping_add(1);
        }
    }
    Ok(sent)
}

/// Sends messages of one fragment that wait.
pub fn send_all(clock: &impl Clock, alloc: Global, count: u16) -> anyhow::Result<Measured> {
    let mut queue = waiting(alloc, count)?;
    let start = Instant::now(clock)?;
    let given = send_each(&mut queue, count)?;
    let elapsed = start.elapsed(clock)?;
    Ok(Measured { given, elapsed })
}

/// Puts messages of one fragment behind those that wait.
pub fn push_all(clock: &impl Clock, alloc: Global, count: u16) -> anyhow::Result<Measured> {
    let start = Instant::now(clock)?;
    let queue = waiting(alloc, count)?;
    let elapsed = start.elapsed(clock)?;
    Ok(Measured {
        given: queue.pending_len(),
        elapsed,
    })
}

// More bytes than any run holds.
const MOST_BYTES: usize = 1_000_000;

// Puts so many messages of one fragment into the queue.
fn pend_all(queue: &mut PendingQueue, count: u16) -> Result<()> {
    for _ in 0..count {
        if queue.get_num_bytes() < MOST_BYTES {
            queue.push(whole(0))?;
        }
    }
    Ok(())
}

// Takes so many out, and gives how many there were.
fn take_all(queue: &mut PendingQueue, count: u16) -> usize {
    let mut taken = 0usize;
    for _ in 0..count {
        if queue.pop(true, false).is_some() {
            taken = taken.wrapping_add(1);
        }
    }
    taken
}

/// Puts messages of one fragment into a pending queue, and takes them out.
pub fn pend(clock: &impl Clock, alloc: Global, count: u16) -> anyhow::Result<Measured> {
    let mut queue = PendingQueue::new(alloc);
    let start = Instant::now(clock)?;
    pend_all(&mut queue, count)?;
    let given = take_all(&mut queue, count);
    let elapsed = start.elapsed(clock)?;
    Ok(Measured { given, elapsed })
}
