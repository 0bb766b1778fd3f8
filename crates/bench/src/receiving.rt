//! Calls of a receiver that holds much.

use crate::ends::Ends;
use crate::reassembly::length_of;
use crate::subject::{CALLS, Delivery, STREAM, fragment, stream_at};
use bytes::Bytes;
use sctp_chunks::chunk::chunk_forward_tsn::ChunkForwardTsnStream;
use sctp_chunks::chunk::chunk_payload_data::ChunkPayloadData;
use sctp_receiver::receiver::Receiver;
use sctp_receiver::receiver::arrival::Closed;
use sctp_receiver::replay::open_streams;

/// What is called.
#[derive(Clone, Copy, PartialEq, Eq)]
pub enum Receiving {
    /// DATA chunks of a message each, while so many came beyond a gap and were not read.
    Data,
    /// The same, two of them a turn.
    DataPairs,
    /// Two of them a turn, while so many streams are open.
    Streams,
    /// SACKs, while so many TSNs came beyond a gap.
    Sack,
    /// Reads, while so many messages can be read.
    Read,
    /// A FORWARD-TSN over one of so many unordered messages that are incomplete.
    Skip,
    /// One that names 16,381 of so many ordered messages, each by its number.
    SkipNames,
    /// Streams are closed, here and there among so many that are open.
    Close,
    /// Every second one of so many open streams is closed.
    CloseEach,
}

// How many names a FORWARD-TSN has room for.
const NAMES: u32 = 16_381;

// A chunk of an unordered message, the whole of it or its beginning.
fn piece(tsn: u32, is_whole: bool) -> ChunkPayloadData {
    fragment(
        tsn,
        Delivery::Unordered,
        true,
        is_whole,
        Bytes::from_static(&[7]),
    )
}

// Takes unordered messages of a chunk each, and gives how many.
fn take_each(receiver: &mut Receiver, first: u32, count: u32) -> usize {
    let mut taken = 0usize;
    for place in 0..count {
        if receiver
            .data(&piece(first.wrapping_add(place), true))
            .is_ok()
        {
            taken = taken.wrapping_add(1);
        }
    }
    taken
}

// Takes an unordered message of a chunk, reads it, and gives how many bytes it has.
fn take_and_read(receiver: &mut Receiver, tsn: u32) -> usize {
    if receiver.data(&piece(tsn, true)).is_err() {
        return 0;
    }
    match receiver.read(STREAM) {
        Ok(message) => length_of(message),
        Err(_) => 0,
    }
}

/// The same of so many, of every second TSN from the first on.
pub fn take_apart(receiver: &mut Receiver, first: u32, count: u32) -> usize {
    let mut bytes = 0usize;
    for place in 0..count {
        let tsn = first.wrapping_add(place.wrapping_mul(2));
        bytes = bytes.wrapping_add(take_and_read(receiver, tsn));
    }
    bytes
}

// Takes the beginnings of unordered messages, a TSN missing behind each, and gives how many.
fn begin_each(receiver: &mut Receiver, count: u32) -> usize {
    let mut taken = 0usize;
    for place in 0..count {
        let tsn = place.wrapping_mul(2).wrapping_add(1);
        if receiver.data(&piece(tsn, false)).is_ok() {
            taken = taken.wrapping_add(1);
        }
    }
    taken
}

// The same of ordered ones.
fn begin_ordered(receiver: &mut Receiver, count: u32) -> usize {
    let mut taken = 0usize;
    for place in 0..count {
        let mut chunk = piece(place.wrapping_mul(2).wrapping_add(1), false);
        chunk.unordered = false;
        chunk.stream_sequence_number = (place % 65_536) as u16;
        if receiver.data(&chunk).is_ok() {
            taken = taken.wrapping_add(1);
        }
    }
    taken
}

// Opens the streams 2, 3, .., and gives how many.
fn open_each(receiver: &mut Receiver, count: u32) -> usize {
    let mut opened = 0usize;
    for place in 0..count {
        if receiver.open(stream_at(place)).is_ok() {
            opened = opened.wrapping_add(1);
        }
    }
    opened
}

// Closes so many streams, each so many places past the one before, and gives how many were open.
fn close_each(receiver: &mut Receiver, count: u32, step: u32, held: u32) -> usize {
    let before = open_streams(receiver).len();
    for turn in 0..count {
        receiver.close(stream_at(turn.wrapping_mul(step) % held.max(1)));
    }
    before.wrapping_sub(open_streams(receiver).len())
}

// Names so many ordered messages of one stream, each by its number.
fn name_each(names: &mut Vec<ChunkForwardTsnStream>, count: u32) -> bool {
    for place in 0..count {
        let name = ChunkForwardTsnStream {
            identifier: STREAM,
            sequence: (place % 65_536) as u16,
        };
        if names.push(name).is_err() {
            return false;
        }
    }
    true
}

/// Opens the stream, and has so much come as the calls are to find.
pub fn prepare(ends: &mut Ends, call: Receiving, held: u32) -> bool {
    let is_open = ends.open();
    let receiver = &mut ends.receiver;
    let came = match call {
        Receiving::Streams | Receiving::Close | Receiving::CloseEach => open_each(receiver, held),
        Receiving::Skip => begin_each(receiver, held),
        Receiving::SkipNames => begin_ordered(receiver, held),
        _ => take_each(receiver, 2, held),
    };
    is_open
        && came == held as usize
        && (call != Receiving::SkipNames || name_each(&mut ends.skip.streams, NAMES))
}

// Takes two chunks, over and over, and gives how many.
fn take_pairs(receiver: &mut Receiver, first: u32) -> usize {
    let mut taken = 0usize;
    for turn in 0..CALLS {
        let tsn = first.wrapping_add(turn.wrapping_mul(2));
        taken = taken.wrapping_add(take_each(receiver, tsn, 2));
    }
    taken
}

// Makes SACKs, and gives the blocks of all.
fn sack_each(receiver: &mut Receiver) -> usize {
    let mut blocks = 0usize;
    for _ in 0..CALLS {
        if let Ok(sack) = receiver.sack(usize::MAX) {
            blocks = blocks.wrapping_add(sack.gap_ack_blocks.len());
        }
    }
    blocks
}

// Reads messages, and gives how many bytes.
fn read_each(receiver: &mut Receiver) -> usize {
    let mut bytes = 0usize;
    for _ in 0..CALLS {
        if let Ok(message) = receiver.read(STREAM) {
            bytes = bytes.wrapping_add(length_of(message));
        }
    }
    bytes
}

/// Makes the calls, and gives how many did what they are for.
pub fn run(ends: &mut Ends, call: Receiving, held: u32) -> usize {
    let receiver = &mut ends.receiver;
    let next = held.wrapping_add(2);
    match call {
        Receiving::Data => take_each(receiver, next, CALLS),
        Receiving::DataPairs => take_pairs(receiver, next),
        Receiving::Streams => take_pairs(receiver, 1),
        Receiving::Sack => sack_each(receiver),
        Receiving::Read => read_each(receiver),
        Receiving::Close => close_each(receiver, CALLS, 7919, held),
        Receiving::CloseEach => close_each(receiver, held / 2, 2, held),
        Receiving::Skip | Receiving::SkipNames => usize::from(
            receiver.forward_tsn(&ends.skip, Closed::Refuse).is_ok(),
        ),
    }
}
