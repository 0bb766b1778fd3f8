//! Runs of a payload queue.

ghost use Rattle.std.specs.Prelude.{◌<◌, ◌≤◌, ◌^◌};
ghost use Rattle.bench.specs.Near.{AreBelow};

use crate::subject::{CALLS, Order, number_at, whole};
use crate::timing::Measured;
use sctp_queues::payload_queue::PayloadQueue;
use sctp_util::error::Result;
use std::alloc::Global;
use std::time::{Clock, Instant};

/// One call of a payload queue.
#[derive(Clone, Copy)]
pub enum Touch {
    Push,
    Pop,
    Get,
    Mark,
}

// More bytes than any run holds.
const MOST_BYTES: usize = 1_000_000;

// More chunks than any run holds.
const MOST_HELD: u32 = 1_000_000;

// Pushes a chunk, beyond the cumulative TSN 0.
fn put(queue: &mut PayloadQueue, tsn: u32) -> Result<()>
    requires held { AreBelow (2 ^ 31) queue.old.chunks }
    requires some { 0 < tsn }
    requires near { tsn < 2 ^ 31 }
    ensures { AreBelow (2 ^ 31) queue.new.chunks }
{
    let chunk = whole(tsn);
    if queue.get_num_bytes() < MOST_BYTES && chunk.user_data.len() < MOST_BYTES {
        queue.push(chunk, 0)?;
    }
    Ok(())
}

// Pushes the chunks 1 to `count`.
fn push_all(queue: &mut PayloadQueue, count: u16, order: Order) -> Result<()>
    requires { AreBelow (2 ^ 31) queue.old.chunks }
{
    for place in 0..count {
        put(queue, 1 + u32::from(number_at(place, count, order)))?;
    }
    Ok(())
}

// Pops the chunks 1 to `count` in order, and gives how many there were.
fn pop_all(queue: &mut PayloadQueue, count: u16) -> usize {
    let mut popped = 0usize;
    for place in 0..count {
        if queue.pop(u32::from(place) + 1).is_some() {
            popped = popped.wrapping_add(1);
        }
    }
    popped
}

/// Pushes chunks in the order given, and pops them in order.
pub fn push_and_pop(
    clock: &impl Clock,
    alloc: Global,
    count: u16,
    order: Order,
) -> anyhow::Result<Measured> {
    let mut queue = PayloadQueue::new(alloc);
    let start = Instant::now(clock)?;
    push_all(&mut queue, count, order)?;
    let given = pop_all(&mut queue, count);
    let elapsed = start.elapsed(clock)?;
    Ok(Measured { given, elapsed })
}

// A queue that holds so many chunks in runs of this length, one TSN missing before each.
fn with_runs(alloc: Global, held: u16, run: u16) -> Result<PayloadQueue> {
    let mut queue = PayloadQueue::new(alloc);
    for place in 0..held {
        let runs_before = place / run.max(1);
        put(&mut queue, 2 + u32::from(place) + u32::from(runs_before))?;
    }
    Ok(queue)
}

/// Asks for the gap ack blocks of so many chunks in runs of this length.
pub fn gap_blocks(
    clock: &impl Clock,
    alloc: Global,
    held: u16,
    run: u16,
) -> anyhow::Result<Measured> {
    let queue = with_runs(alloc, held, run)?;
    let start = Instant::now(clock)?;
    let blocks = queue.get_gap_ack_blocks(alloc, 0)?;
    let elapsed = start.elapsed(clock)?;
    Ok(Measured {
        given: blocks.len(),
        elapsed,
    })
}

// Pushes so many chunks, from this TSN on.
fn push_from(queue: &mut PayloadQueue, first: u32, count: u32) -> Result<()>
    requires held { AreBelow (2 ^ 31) queue.old.chunks }
    requires some { 0 < first }
    requires near { first ≤ 2 ^ 24 }
    requires few { count ≤ 2 ^ 24 }
    ensures { AreBelow (2 ^ 31) queue.new.chunks }
{
    for place in 0..count {
        put(queue, first + place)?;
    }
    Ok(())
}

// Looks up chunks here and there among the first so many, and gives how many there were.
fn get_each(queue: &PayloadQueue, held: u32) -> usize {
    let mut found = 0usize;
    for turn in 0..CALLS {
        let place = turn.wrapping_mul(7919) % held.max(1);
        if queue.get(place.wrapping_add(1)).is_some() {
            found = found.wrapping_add(1);
        }
    }
    found
}

// Marks chunks here and there among the first so many, and gives how many bytes left.
fn mark_each(queue: &mut PayloadQueue, held: u32) -> usize {
    let mut left = 0usize;
    for turn in 0..CALLS {
        let place = turn.wrapping_mul(7919) % held.max(1);
        left = left.wrapping_add(queue.mark_as_acked(place.wrapping_add(1)));
    }
    left
}

// Makes the calls on a queue that holds the chunks 1 to `held`.
fn touch_each(queue: &mut PayloadQueue, held: u32, call: Touch) -> Result<usize>
    requires held { AreBelow (2 ^ 31) queue.old.chunks }
    requires few { held < 2 ^ 24 }
{
    match call {
        Touch::Push => {
            push_from(queue, held + 1, CALLS)?;
            Ok(CALLS as usize)
        }
        Touch::Pop => Ok(pop_all(queue, CALLS as u16)),
        Touch::Get => Ok(get_each(queue, held)),
        Touch::Mark => Ok(mark_each(queue, held)),
    }
}

/// Makes calls on a queue that holds so many chunks.
pub fn touch_held(
    clock: &impl Clock,
    alloc: Global,
    call: Touch,
    held: u32,
) -> anyhow::Result<Measured> {
    let held = held.min(MOST_HELD);
    let mut queue = PayloadQueue::new(alloc);
    push_from(&mut queue, 1, held)?;
    let start = Instant::now(clock)?;
    let given = touch_each(&mut queue, held, call)?;
    let elapsed = start.elapsed(clock)?;
    Ok(Measured { given, elapsed })
}
