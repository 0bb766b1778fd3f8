//! Calls of a sender that holds much.

use crate::ends::Ends;
use crate::sack::{add_blocks, sack_to};
use crate::subject::{CALLS, STREAM, stream_at};
use bytes::Bytes;
use sctp_chunks::chunk::chunk_payload_data::{PayloadProtocolIdentifier, ReliabilityType};
use sctp_sender::replay::{expire, expire_late, open_streams, start};
use sctp_sender::sender::Sender;
use std::alloc::Global;

/// What is called.
#[derive(Clone, Copy, PartialEq, Eq)]
pub enum Sending {
    /// Writes, while so many messages wait.
    Write,
    /// Sends, while so many chunks are in flight.
    SendNext,
    /// SACKs of one chunk more, while so many are in flight.
    Acked,
    /// One SACK of 16,000 gap ack blocks, each over all that are in flight but the first.
    AckedBlocks,
    /// All that are in flight are late.
    ExpireLate,
    /// None of those in flight is late.
    NoneLate,
    /// The first of those that wait is past its deadline.
    Expire,
    /// All that wait are past their deadlines, and leave one by one.
    ExpireEach,
    /// Streams are closed, here and there among so many that are open.
    Close,
    /// Every second one of so many open streams is closed.
    CloseEach,
}

// How many blocks a SACK of many has.
const BLOCKS: u16 = 16_000;

// Past the lifetime of what was sent or started at 0, in nanoseconds.
const LATE: u64 = 2_000_000;

// Writes messages of one byte, and gives how many were taken.
fn write_each(sender: &mut Sender, count: u32) -> usize {
    let bytes = Bytes::from_static(&[7]);
    let mut written = 0usize;
    for _ in 0..count {
        if sender
            .write(STREAM, PayloadProtocolIdentifier::Binary, &bytes)
            .is_ok()
        {
            written = written.wrapping_add(1);
        }
    }
    written
}

// Sends what waits, and gives how many chunks that were.
fn send_each(sender: &mut Sender, count: u32) -> usize {
    let mut sent = 0usize;
    for _ in 0..count {
        if let Ok(Some(_)) = sender.send_next(0) {
            sent = sent.wrapping_add(1);
        }
    }
    sent
}

// Acknowledges one chunk after another, and gives how many SACKs were taken.
fn ack_each(alloc: Global, sender: &mut Sender) -> usize {
    let mut taken = 0usize;
    for turn in 0..CALLS {
        if sender.acked(&sack_to(alloc, turn.wrapping_add(1))).is_ok() {
            taken = taken.wrapping_add(1);
        }
    }
    taken
}

// Opens the streams 2, 3, .., and gives how many.
fn open_each(sender: &mut Sender, count: u32) -> usize {
    let mut opened = 0usize;
    for place in 0..count {
        if sender.open(stream_at(place)).is_ok() {
            opened = opened.wrapping_add(1);
        }
    }
    opened
}

// Closes so many streams, each so many places past the one before, and gives how many were open.
fn close_each(sender: &mut Sender, count: u32, step: u32, held: u32) -> usize {
    let before = open_streams(sender).len();
    for turn in 0..count {
        sender.close(stream_at(turn.wrapping_mul(step) % held.max(1)));
    }
    before.wrapping_sub(open_streams(sender).len())
}

// Has the messages leave that are past their deadlines, at most so many, and gives how many.
fn expire_each(sender: &mut Sender, count: u32) -> usize {
    let mut gone = 0usize;
    for _ in 0..count {
        if expire(sender, LATE).is_some() {
            gone = gone.wrapping_add(1);
        }
    }
    gone
}

/// Opens so many streams where some are to be closed. Else opens the stream, with a lifetime of a millisecond, and writes and sends so many
/// messages of one byte.
pub fn prepare(ends: &mut Ends, call: Sending, held: u32) -> bool {
    if matches!(call, Sending::Close | Sending::CloseEach) {
        return open_each(&mut ends.sender, held) == held as usize;
    }
    let unordered = !matches!(call, Sending::Expire | Sending::ExpireEach);
    let waits = call == Sending::Write || !unordered;
    let is_open = ends.open()
        && ends
            .sender
            .set_mode(STREAM, unordered, ReliabilityType::Timed, 1)
            .is_ok();
    write_each(&mut ends.sender, held);
    if !waits {
        send_each(&mut ends.sender, held);
    }
    match call {
        Sending::SendNext => is_open && write_each(&mut ends.sender, CALLS) > 0,
        Sending::AckedBlocks => is_open
            && add_blocks(&mut ends.sack, BLOCKS, Some(held.min(65_535) as u16)).is_ok(),
        _ => {
            start(&mut ends.sender, 0);
            is_open
        }
    }
}

/// Makes the calls, and gives how many did what they are for; of `expire_late` how many messages were abandoned.
pub fn run(ends: &mut Ends, call: Sending, held: u32) -> usize {
    let sender = &mut ends.sender;
    match call {
        Sending::Write => write_each(sender, CALLS),
        Sending::SendNext => send_each(sender, CALLS),
        Sending::Acked => ack_each(ends.alloc, sender),
        Sending::AckedBlocks => match sender.acked(&ends.sack) {
            Ok(acked) => acked.released.len(),
            Err(_) => 0,
        },
        Sending::ExpireLate => abandoned(sender, LATE),
        Sending::NoneLate => abandoned(sender, 0).wrapping_add(1),
        Sending::Expire => expire_each(sender, 1),
        Sending::ExpireEach => expire_each(sender, held),
        Sending::Close => close_each(sender, CALLS, 7919, held),
        Sending::CloseEach => close_each(sender, held / 2, 2, held),
    }
}

// How many messages are late now.
fn abandoned(sender: &mut Sender, now: u64) -> usize {
    match expire_late(sender, now) {
        Ok(messages) => messages.len(),
        Err(_) => 0,
    }
}
