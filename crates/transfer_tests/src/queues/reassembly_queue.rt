//! Worked examples of a reassembly queue. Where sets stand is worked out from the order of serial numbers by hand.

use crate::ended::{gives_none, is_there};
use crate::log::check;
use crate::queues::part::{FIRST, LAST, MIDDLE, WHOLE, ordered, unordered};
use sctp_data::chunk::chunk_payload_data::ChunkPayloadData;
use sctp_queues::chunks::Chunks;
use sctp_queues::reassembly_queue::ReassemblyQueue;
use sctp_queues::turns::Turns;
use sctp_util::error::Error;
use std::alloc::Global;

/// A call, and what it answers. An arrival is Some(true) where a message is whole with it, and None where it is refused as too long.
enum Step {
    /// TSN, stream sequence number, whether it begins and ends its message, bytes.
    Ordered(u32, u16, (bool, bool), &'static [u8], Option<bool>),
    Unordered(u32, (bool, bool), &'static [u8], Option<bool>),
    /// The next message has these bytes.
    Read(&'static [u8]),
    Unreadable,
    Readable,
    SkipOrdered(u16),
    SkipUnordered(u32),
    SkipIncomplete(u32),
    /// Up to the stream sequence number 1 and this TSN.
    SkipBounded(u32),
    /// How far such a skip may go: TSN, the peer's cumulative TSN.
    Applicable(u32, u32, Option<u16>),
    Reset(u32),
    Subtract(usize),
    /// The TSNs of the unordered fragments that no message has.
    Loose(&'static [u32]),
    /// The stream sequence numbers of the ordered messages.
    Sets(&'static [u16]),
    NextSsn(u16),
    Bytes(usize),
    /// Of stream 1 and this maximum, with so many unordered messages.
    Is(u32, usize),
    /// No unordered message is found in the unassembled fragments.
    NoneFound,
}

use Step::{
    Applicable, Bytes, Is, Loose, NextSsn, NoneFound, Ordered, Read, Readable, Reset, Sets,
    SkipBounded, SkipIncomplete, SkipOrdered, SkipUnordered, Subtract, Unordered, Unreadable,
};

// Each case: what it shows, the maximum message size, and its steps.
const CASES: [(&str, u32, &[Step]); 25] = [
    (
        "repeats of an ordered fragment count once",
        100,
        &[
            Ordered(10, 0, FIRST, b"aaa", Some(false)),
            Ordered(10, 0, FIRST, b"aaa", Some(false)),
            Bytes(3),
            Subtract(7),
            Bytes(0),
        ],
    ),
    (
        "repeats of an unordered fragment are kept",
        100,
        &[
            Unordered(10, FIRST, b"aaa", Some(false)),
            Unordered(10, FIRST, b"aaa", Some(false)),
            Bytes(6),
            Subtract(7),
            Bytes(0),
        ],
    ),
    (
        "an ordered message past the maximum is refused",
        5,
        &[
            Ordered(10, 0, FIRST, b"aaa", Some(false)),
            Ordered(11, 0, MIDDLE, b"bbb", None),
            Bytes(3),
            Is(5, 0),
        ],
    ),
    (
        "an unordered message past the maximum is refused",
        5,
        &[
            Unordered(10, FIRST, b"aaa", Some(false)),
            Unordered(12, LAST, b"bb", Some(false)),
            Unordered(11, MIDDLE, b"c", None),
            Bytes(5),
        ],
    ),
    (
        "a message half a circle ahead waits",
        100,
        &[
            Ordered(10, 32768, WHOLE, b"a", Some(true)),
            Unreadable,
            SkipOrdered(32768),
            NextSsn(0),
            SkipOrdered(32767),
            NextSsn(32768),
            Readable,
            Read(b"a"),
            NextSsn(32769),
            Bytes(0),
        ],
    ),
    (
        "a bounded skip may go so far",
        100,
        &[
            Ordered(10, 0, FIRST, b"a", Some(false)),
            Ordered(12, 1, WHOLE, b"bc", Some(true)),
            Applicable(11, 12, Some(1)),
            Applicable(11, 11, Some(0)),
            Applicable(10, 9, None),
        ],
    ),
    (
        "a bounded skip before the missing fragment changes nothing",
        100,
        &[
            Ordered(10, 0, FIRST, b"a", Some(false)),
            Ordered(12, 1, WHOLE, b"bc", Some(true)),
            SkipBounded(10),
            Sets(&[0, 1]),
            NextSsn(0),
            Bytes(3),
        ],
    ),
    (
        "a bounded skip stops before a later message",
        100,
        &[
            Ordered(10, 0, FIRST, b"a", Some(false)),
            Ordered(12, 1, WHOLE, b"bc", Some(true)),
            SkipBounded(11),
            Sets(&[1]),
            NextSsn(1),
            Bytes(2),
        ],
    ),
    (
        "a bounded skip keeps a complete message",
        100,
        &[
            Ordered(10, 0, FIRST, b"a", Some(false)),
            Ordered(12, 1, WHOLE, b"bc", Some(true)),
            SkipBounded(12),
            Sets(&[1]),
            NextSsn(2),
            Bytes(2),
            Read(b"bc"),
        ],
    ),
    (
        "unordered messages are read first",
        100,
        &[
            Ordered(10, 0, WHOLE, b"aaa", Some(true)),
            Unordered(12, LAST, b"ccc", Some(false)),
            Unordered(11, FIRST, b"bbb", Some(true)),
            Is(100, 1),
            Read(b"bbbccc"),
            Read(b"aaa"),
            NoneFound,
        ],
    ),
    (
        "interleaved messages come whole over the wrap",
        2,
        &[
            Unordered(2, FIRST, b"x", Some(false)),
            Unordered(4294967294, FIRST, b"x", Some(false)),
            Unordered(0, FIRST, b"x", Some(false)),
            Unordered(1, LAST, b"x", Some(true)),
            Unordered(3, LAST, b"x", Some(true)),
            Unordered(5, LAST, b"x", Some(false)),
            Unordered(4294967295, LAST, b"x", Some(true)),
            Loose(&[5]),
        ],
    ),
    (
        "repeats stand side by side and order comes back",
        4,
        &[
            Unordered(10, FIRST, b"x", Some(false)),
            Unordered(10, FIRST, b"x", Some(false)),
            Unordered(12, MIDDLE, b"x", Some(false)),
            Unordered(11, LAST, b"x", Some(true)),
            Loose(&[10, 12]),
            Unordered(13, LAST, b"x", Some(false)),
            Unordered(11, MIDDLE, b"x", Some(true)),
            Loose(&[]),
        ],
    ),
    (
        "messages that come in reverse are read in order",
        100,
        &[
            Ordered(4, 4, WHOLE, b"x", Some(true)),
            Ordered(3, 3, WHOLE, b"x", Some(true)),
            Ordered(2, 2, WHOLE, b"x", Some(true)),
            Ordered(1, 1, WHOLE, b"x", Some(true)),
            Ordered(0, 0, WHOLE, b"x", Some(true)),
            Sets(&[0, 1, 2, 3, 4]),
            Read(b"x"),
            Read(b"x"),
            Read(b"x"),
            Read(b"x"),
            Read(b"x"),
            Unreadable,
        ],
    ),
    (
        "messages stand in order where numbers wrap",
        100,
        &[
            SkipOrdered(32767),
            SkipOrdered(65533),
            Ordered(1, 1, WHOLE, b"x", Some(true)),
            Ordered(65534, 65534, WHOLE, b"x", Some(true)),
            Ordered(0, 0, WHOLE, b"x", Some(true)),
            Ordered(65535, 65535, WHOLE, b"x", Some(true)),
            Ordered(2, 2, WHOLE, b"x", Some(true)),
            Sets(&[65534, 65535, 0, 1, 2]),
        ],
    ),
    (
        "so they do in another order of arrivals",
        100,
        &[
            SkipOrdered(32767),
            SkipOrdered(65533),
            Ordered(65535, 65535, WHOLE, b"x", Some(true)),
            Ordered(2, 2, WHOLE, b"x", Some(true)),
            Ordered(65534, 65534, WHOLE, b"x", Some(true)),
            Ordered(1, 1, WHOLE, b"x", Some(true)),
            Ordered(0, 0, WHOLE, b"x", Some(true)),
            Sets(&[65534, 65535, 0, 1, 2]),
        ],
    ),
    (
        // 0 and 32768 lie half a circle apart, so neither comes before the other; 1 comes before 32768.
        "a message half a circle away goes behind",
        100,
        &[
            Ordered(0, 0, WHOLE, b"x", Some(true)),
            Ordered(32768, 32768, WHOLE, b"x", Some(true)),
            Ordered(1, 1, WHOLE, b"x", Some(true)),
            Ordered(32767, 32767, WHOLE, b"x", Some(true)),
            Ordered(1, 1, WHOLE, b"x", Some(false)),
            Sets(&[0, 1, 32767, 32768]),
        ],
    ),
    (
        "so it does where it is the first",
        100,
        &[
            Ordered(32768, 32768, WHOLE, b"x", Some(true)),
            Ordered(0, 0, WHOLE, b"x", Some(true)),
            Ordered(1, 1, WHOLE, b"x", Some(true)),
            Ordered(32767, 32767, WHOLE, b"x", Some(true)),
            Ordered(0, 0, WHOLE, b"x", Some(false)),
            Sets(&[1, 32767, 32768, 0]),
        ],
    ),
    (
        "a fragment finds its message among many",
        100,
        &[
            Ordered(11, 5, LAST, b"b", Some(false)),
            Ordered(5, 2, LAST, b"b", Some(false)),
            Ordered(9, 4, LAST, b"b", Some(false)),
            Ordered(7, 3, LAST, b"b", Some(false)),
            Ordered(8, 4, FIRST, b"a", Some(true)),
            Ordered(4, 2, FIRST, b"a", Some(true)),
            Ordered(10, 5, FIRST, b"a", Some(true)),
            Ordered(6, 3, FIRST, b"a", Some(true)),
            Sets(&[2, 3, 4, 5]),
        ],
    ),
    (
        // Two complete messages and a begun one of the old use, which ends with TSN 12, and one of the new use.
        "a reset keeps complete messages before new ones",
        100,
        &[
            Ordered(10, 0, WHOLE, b"a", Some(true)),
            Ordered(11, 1, WHOLE, b"b", Some(true)),
            Ordered(12, 2, FIRST, b"x", Some(false)),
            Reset(12),
            Ordered(13, 0, WHOLE, b"c", Some(true)),
            Bytes(3),
            Read(b"a"),
            Read(b"b"),
            Read(b"c"),
            NextSsn(1),
        ],
    ),
    (
        // The end of a message comes too late, and the next one is read.
        "a skip without names blocks nothing",
        100,
        &[
            Ordered(1, 0, FIRST, b"a", Some(false)),
            SkipIncomplete(2),
            Ordered(3, 0, LAST, b"c", Some(false)),
            Ordered(4, 1, WHOLE, b"d", Some(true)),
            Read(b"d"),
            Bytes(0),
        ],
    ),
    (
        "of three fragments one would be too many",
        5,
        &[
            Ordered(10, 0, FIRST, b"abc", Some(false)),
            Ordered(11, 0, MIDDLE, b"xyz", None),
            Unreadable,
            Ordered(11, 0, LAST, b"d", Some(true)),
            Read(b"abcd"),
        ],
    ),
    (
        // The second message is read once the first one is skipped (RFC 3758 3.6).
        "a message is skipped by its number",
        5,
        &[
            Ordered(10, 0, FIRST, b"a", Some(false)),
            Ordered(12, 1, WHOLE, b"bcde", Some(true)),
            NextSsn(0),
            SkipOrdered(0),
            NextSsn(1),
            Bytes(4),
            Read(b"bcde"),
            NextSsn(2),
        ],
    ),
    (
        "a message is skipped by its TSN",
        5,
        &[
            Ordered(10, 0, FIRST, b"a", Some(false)),
            Ordered(12, 1, WHOLE, b"bcde", Some(true)),
            NextSsn(0),
            SkipIncomplete(11),
            NextSsn(1),
            Bytes(4),
            Read(b"bcde"),
            NextSsn(2),
        ],
    ),
    (
        // Of 10 and 20 the first one lies up to 19 (RFC 3758 3.6).
        "unordered fragments are skipped",
        5,
        &[
            Unordered(20, FIRST, b"xy", Some(false)),
            Unordered(10, FIRST, b"xy", Some(false)),
            SkipUnordered(19),
            Loose(&[20]),
            Bytes(2),
        ],
    ),
    ("half a circle away is not before", 100, HALF_CIRCLE),
];

const HALF_CIRCLE: &[Step] = &[
    Unordered(5, MIDDLE, b"x", Some(false)),
    Unordered(2147483653, MIDDLE, b"x", Some(false)),
    Unordered(6, MIDDLE, b"x", Some(false)),
    Unordered(4, MIDDLE, b"x", Some(false)),
    Unordered(2147483654, MIDDLE, b"x", Some(false)),
    Loose(&[2147483654, 4, 5, 6, 2147483653]),
];

const SKIPPED_HALF: &[Step] = &[
    SkipUnordered(6),
    Bytes(5),
    Loose(&[2147483654, 4, 5, 6, 2147483653]),
    SkipUnordered(5),
    Loose(&[6, 2147483653]),
    Bytes(2),
];

// What a push answered, without the error of a message that is too long.
fn judged(answer: Result<bool, Error>, want: Option<bool>) -> bool {
    match answer {
        Ok(whole) => want == Some(whole),
        Err(e) => want.is_none() && e == Error::ErrInboundPacketTooLarge,
    }
}

// Whether a fragment is taken so by the call that counts its turns, once it is asked whether the message is too long.
fn comes_counted(
    queue: &mut ReassemblyQueue,
    fragment: ChunkPayloadData,
    want: Option<bool>,
) -> bool {
    let mut turns = Turns::new();
    let is_foreseen = queue.is_too_large_counted(&fragment, &mut turns) == want.is_none();
    judged(queue.push_counted(fragment, &mut turns), want) && is_foreseen
}

// Whether a fragment is taken so.
fn comes(
    queue: &mut ReassemblyQueue,
    fragment: Result<ChunkPayloadData, Error>,
    want: Option<bool>,
    counted: bool,
) -> bool {
    let Ok(fragment) = fragment else {
        return false;
    };
    if counted {
        return comes_counted(queue, fragment, want);
    }
    judged(queue.push(fragment), want)
}

// Whether the message has these bytes, at most eight.
fn has_bytes(message: &Chunks, bytes: &[u8]) -> bool {
    let mut buffer = [0; 8];
    message.read(&mut buffer) == Ok(bytes.len()) && buffer.get(..bytes.len()) == Some(bytes)
}

// Whether the next piece of at most three bytes is this one, or none is left for none.
fn piece_is(alloc: Global, message: &mut Chunks, bytes: &[u8]) -> bool {
    match message.next_counted(alloc, 3, &mut Turns::new()) {
        Ok(Some(piece)) => {
            let well = piece.bytes.as_slice() == bytes;
            drop(piece);
            well
        }
        Ok(None) => bytes.is_empty(),
        Err(_) => false,
    }
}

// Whether the next message has these bytes, at most six, also in pieces.
fn reads(alloc: Global, queue: &mut ReassemblyQueue, bytes: &[u8], counted: bool) -> bool {
    let message = if counted {
        queue.read_counted(&mut Turns::new())
    } else {
        queue.read()
    };
    let (first, rest) = bytes.split_at(bytes.len().min(3));
    match message {
        Some(mut message) => {
            let well = has_bytes(&message, bytes)
                && piece_is(alloc, &mut message, first)
                && piece_is(alloc, &mut message, rest);
            drop(message);
            well
        }
        None => false,
    }
}

fn unassembled_are(queue: &ReassemblyQueue, tsns: &[u32]) -> bool {
    let mut well = queue.unordered_chunks().len() == tsns.len();
    for (fragment, tsn) in queue.unordered_chunks().iter().zip(tsns.iter()) {
        well = well && fragment.chunk().tsn == *tsn;
    }
    well
}

fn sets_are(queue: &ReassemblyQueue, ssns: &[u16]) -> bool {
    let mut well = queue.ordered().len() == ssns.len();
    for (set, ssn) in queue.ordered().iter().zip(ssns.iter()) {
        well = well && set.ssn() == *ssn;
    }
    well
}

// Skips, by the call that counts its turns or the one that does not.
fn skip(queue: &mut ReassemblyQueue, step: &Step, counted: bool) {
    let mut turns = Turns::new();
    match step {
        SkipOrdered(ssn) if counted => queue.forward_tsn_for_ordered_counted(*ssn, &mut turns),
        SkipOrdered(ssn) => queue.forward_tsn_for_ordered(*ssn),
        SkipUnordered(tsn) if counted => queue.forward_tsn_for_unordered_counted(*tsn, &mut turns),
        SkipUnordered(tsn) => queue.forward_tsn_for_unordered(*tsn),
        SkipIncomplete(tsn) if counted => {
            queue.forward_tsn_for_incomplete_counted(*tsn, &mut turns)
        }
        SkipIncomplete(tsn) => queue.forward_tsn_for_incomplete(*tsn),
        SkipBounded(tsn) => queue.forward_tsn_for_ordered_bounded(1, *tsn),
        Subtract(bytes) => queue.subtract_num_bytes(*bytes),
        _ => (),
    }
}

// Whether a step that changes nothing answers so.
fn is_seen(queue: &ReassemblyQueue, step: &Step) -> bool {
    match step {
        Loose(tsns) => unassembled_are(queue, tsns),
        Sets(ssns) => sets_are(queue, ssns),
        NextSsn(ssn) => queue.next_ssn() == *ssn,
        Bytes(bytes) => queue.get_num_bytes() == *bytes,
        Readable => queue.is_readable(),
        Applicable(tsn, peer, want) => {
            queue.applicable_forward_tsn_for_ordered_bounded(1, *tsn, *peer) == *want
        }
        Is(most, unordered) => {
            queue.si() == 1
                && queue.max_message_size() == *most
                && queue.unordered().len() == *unordered
        }
        _ => false,
    }
}

// Whether a step goes so, by the calls that count their turns where there is one, or by those that do not.
fn goes(alloc: Global, queue: &mut ReassemblyQueue, step: &Step, counted: bool) -> bool {
    match step {
        Ordered(tsn, ssn, flags, bytes, want) => {
            comes(
                queue,
                ordered(alloc, *tsn, *ssn, *flags, bytes),
                *want,
                counted,
            )
        }
        Unordered(tsn, flags, bytes, want) => {
            comes(queue, unordered(alloc, *tsn, *flags, bytes), *want, counted)
        }
        Read(bytes) => reads(alloc, queue, bytes, counted),
        Unreadable => !queue.is_readable() && !is_there(queue.read()),
        Reset(tsn) => queue.reset(*tsn).is_ok(),
        NoneFound => gives_none(queue.find_complete_unordered_chunk_set(alloc)),
        SkipOrdered(_) | SkipUnordered(_) | SkipIncomplete(_) | SkipBounded(_) | Subtract(_) => {
            skip(queue, step, counted);
            true
        }
        _ => is_seen(queue, step),
    }
}

fn all_go(alloc: Global, queue: &mut ReassemblyQueue, steps: &[Step], counted: bool) -> bool {
    let mut well = true;
    for step in steps {
        well = well && goes(alloc, queue, step, counted);
    }
    well
}

// Whether all steps go so with a new queue.
fn goes_well(alloc: Global, most: u32, steps: &[Step], counted: bool) -> bool {
    let mut queue = ReassemblyQueue::new(alloc, 1, most);
    let well = all_go(alloc, &mut queue, steps, counted);
    drop(queue);
    well
}

/// Each case goes by the calls that count their turns as by those that do not.
pub(crate) fn reassembly_cases(alloc: Global, log: &mut Vec<u8>) {
    for (name, most, steps) in CASES {
        check(log, goes_well(alloc, most, steps, false), name);
        check(log, goes_well(alloc, most, steps, true), name);
    }
}

// Skips change the queue and leave its copy.
fn copy_stays(alloc: Global, queue: &mut ReassemblyQueue) -> bool {
    match queue.try_clone(alloc) {
        Ok(copy) => {
            let well = all_go(alloc, queue, SKIPPED_HALF, false)
                && unassembled_are(&copy, &[2147483654, 4, 5, 6, 2147483653]);
            drop(copy);
            well
        }
        Err(_) => false,
    }
}

// A message that comes whole, and the push is undone.
fn leaves_nothing(alloc: Global, queue: &mut ReassemblyQueue) -> bool {
    let Ok(fragment) = ordered(alloc, 10, 0, WHOLE, b"abc") else {
        return false;
    };
    match queue.push_undoable_counted(fragment, &mut Turns::new()) {
        Ok((whole, undo)) => {
            let was_readable = queue.is_readable();
            queue.undo_push(undo);
            whole && was_readable && !queue.is_readable() && queue.get_num_bytes() == 0
        }
        Err(_) => false,
    }
}

pub(crate) fn a_push_is_undone_and_a_copy_stays(alloc: Global) -> bool {
    let mut queue = ReassemblyQueue::new(alloc, 1, 100);
    let well = leaves_nothing(alloc, &mut queue)
        && all_go(alloc, &mut queue, HALF_CIRCLE, false)
        && copy_stays(alloc, &mut queue);
    drop(queue);
    well
}
