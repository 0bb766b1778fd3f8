//! Runs of a reassembly queue.

ghost use Rattle.std.specs.Prelude.{◌<◌};

use crate::subject::{Delivery, FRAGMENTS, Order, STREAM, fragment, number_at};
use crate::timing::Measured;
use bytes::Bytes;
use sctp_queues::chunks::Chunks;
use sctp_queues::reassembly_queue::ReassemblyQueue;
use sctp_util::error::Result;
use std::alloc::Global;
use std::time::{Clock, Instant};

const FRAGMENT_LENGTH: usize = 1200;

// The length of the 55th fragment of 64 KiB.
const LAST_LENGTH: usize = 65_536 - 54 * FRAGMENT_LENGTH;

const MESSAGES: u32 = 1000;

static USER_DATA: [u8; FRAGMENT_LENGTH] = [7; FRAGMENT_LENGTH];

// Pushes the fragments of a message of 64 KiB.
fn push_message(queue: &mut ReassemblyQueue, delivery: Delivery, order: Order) -> Result<()> {
    for place in 0..FRAGMENTS {
        let number = number_at(place, FRAGMENTS, order);
        let last = number == FRAGMENTS - 1;
        let len = if last { LAST_LENGTH } else { FRAGMENT_LENGTH };
        let user_data = Bytes::from_static(&USER_DATA[..len]);
        let tsn = 1 + u32::from(number);
        queue.push(fragment(tsn, delivery, number == 0, last, user_data))?;
    }
    Ok(())
}

/// The length of what was read, 0 where it was nothing.
pub fn length_of(message: Option<Chunks>) -> usize {
    match message {
        Some(message) => message.len(),
        None => 0,
    }
}

/// Pushes the fragments of one message, and reads it; its bytes are not copied out.
pub fn one_message(
    clock: &impl Clock,
    alloc: Global,
    delivery: Delivery,
    order: Order,
) -> anyhow::Result<Measured> {
    let mut queue = ReassemblyQueue::new(alloc, STREAM, 65_536);
    let start = Instant::now(clock)?;
    push_message(&mut queue, delivery, order)?;
    let message = queue.read();
    let elapsed = start.elapsed(clock)?;
    Ok(Measured {
        given: length_of(message),
        elapsed,
    })
}

// Pushes one fragment of each message, of four.
fn push_numbered(queue: &mut ReassemblyQueue, number: u32) -> Result<()>
    requires { number < 4 }
{
    for message in 0..MESSAGES {
        let user_data = Bytes::from_static(&USER_DATA);
        let tsn = 4 * message + number;
        queue.push(fragment(
            tsn,
            Delivery::Unordered,
            number == 0,
            number == 3,
            user_data,
        ))?;
    }
    Ok(())
}

// How many of the messages can be read.
fn messages_in(queue: &mut ReassemblyQueue) -> usize {
    let mut count = 0usize;
    for _ in 0..MESSAGES {
        if length_of(queue.read()) == 4 * FRAGMENT_LENGTH {
            count = count.wrapping_add(1);
        }
    }
    count
}

/// Pushes fragment 0 of each unordered message, then 1 of each, and so on.
pub fn interleaved(clock: &impl Clock, alloc: Global) -> anyhow::Result<Measured> {
    let mut queue = ReassemblyQueue::new(alloc, STREAM, 65_536);
    let start = Instant::now(clock)?;
    for number in 0..4 {
        push_numbered(&mut queue, number)?;
    }
    let elapsed = start.elapsed(clock)?;
    Ok(Measured {
        given: messages_in(&mut queue),
        elapsed,
    })
}
