//! Worked examples of an outbound queue. Moments are nanoseconds; the lifetimes here are one millisecond.

use crate::ended::is_there;
use crate::log::check;
use crate::queues::chunk::chunk;
use bytes::Bytes;
use sctp_data::chunk::chunk_payload_data::{ChunkPayloadData, ReliabilityType};
use sctp_queues::outbound_queue::{ExpiredRun, OutboundQueue};
use sctp_util::error::Error;
use std::alloc::Global;

const MILLISECOND: u64 = 1_000_000;

/// A call, and what it answers.
enum Step {
    /// `abcdefg` in three fragments, with a lifetime or none.
    Letters(bool),
    /// A message of one byte: stream, the number that its stream gives it, whether it is unordered, whether it has a lifetime.
    Letter(u16, u16, bool, bool),
    Send(Option<u32>),
    Abandon(u32, Option<(u16, usize)>),
    /// Moment, and the stream, message and bytes whose tail is abandoned then.
    ExpireTail(u64, Option<(u16, u64, usize)>),
    /// The TSN that is sent next.
    NextTsn(u32),
    CanSend(u32, bool),
    /// How many chunks are in flight, their bytes, and how many chunks and bytes wait.
    Sizes(usize, usize, usize, usize),
    /// An abandoned chunk without bytes that ends a message.
    Terminal(u32),
    Outstanding(Option<u32>),
    Abandoned(u32, bool),
    Acked(u32),
    /// At this moment so many TSNs are late, each of them 10.
    Late(u64, usize),
    Pop(u32, bool),
    Start(u64),
    Expire(u64, Option<(u16, bool, usize)>),
    /// Moment, stream, whether unordered, and how many messages of one byte expire together.
    ExpireRun(u64, Option<(u16, bool, u16)>),
    /// What waits at a place: its message, and the number that its stream gives it.
    Waits(usize, Option<(u64, u16)>),
    /// A stream, and whether a chunk of it waits, and is held at all.
    Streams(u16, bool, bool),
    Reserve,
    MarkAll,
    /// Of TSN 10: how often sent, since when, reported missing how often, to be sent again.
    Set(u32, Option<u64>, u8, bool),
    Marked(u32, Option<u64>, u8, bool),
}

use Step::{
    Abandon, Abandoned, Acked, CanSend, Expire, ExpireRun, ExpireTail, Late, Letter, Letters,
    MarkAll, Marked, NextTsn, Outstanding, Pop, Reserve, Send, Set, Sizes, Start, Streams,
    Terminal, Waits,
};

// Each case: what it shows, the next TSN, and its steps.
const CASES: [(&str, u32, &[Step]); 14] = [
    (
        "leaves a terminal chunk",
        10,
        &[
            Letters(false),
            Send(Some(10)),
            Abandon(10, Some((1, 7))),
            NextTsn(12),
            Sizes(2, 0, 0, 0),
            Terminal(11),
            Outstanding(None),
        ],
    ),
    (
        "abandons once",
        10,
        &[
            Letters(false),
            Send(Some(10)),
            Abandon(99, None),
            Abandon(10, Some((1, 7))),
            Abandon(10, Some((1, 0))),
            NextTsn(12),
            Abandoned(10, true),
            Abandoned(11, true),
            Abandoned(12, false),
        ],
    ),
    (
        "lists what is late",
        10,
        &[
            Letters(true),
            Send(Some(10)),
            Acked(10),
            Sizes(1, 0, 2, 4),
            Late(MILLISECOND - 1, 0),
            Late(MILLISECOND, 1),
        ],
    ),
    (
        "abandons a tail",
        10,
        &[
            Letters(true),
            Send(Some(10)),
            Acked(10),
            Pop(11, false),
            Pop(10, true),
            ExpireTail(MILLISECOND - 1, None),
            ExpireTail(MILLISECOND, Some((1, 0, 4))),
            NextTsn(12),
            Sizes(1, 0, 0, 0),
            Abandoned(11, true),
        ],
    ),
    (
        // Two messages on stream 1, the first with a lifetime, and one with a lifetime on stream 2. The lifetimes begin at 0.
        "closes up later numbers",
        10,
        &[
            Letter(1, 0, false, true),
            Letter(1, 1, false, false),
            Letter(2, 0, false, true),
            Start(0),
            Expire(MILLISECOND - 1, None),
            Expire(MILLISECOND, Some((1, false, 1))),
            Expire(MILLISECOND, None),
            Waits(0, Some((1, 0))),
            Waits(1, Some((2, 0))),
            Streams(2, true, true),
            Streams(1, true, true),
            Streams(3, false, false),
        ],
    ),
    (
        "starts no lifetime twice",
        10,
        &[
            Letter(1, 0, false, true),
            Letter(1, 1, false, false),
            Letter(2, 0, false, true),
            Start(0),
            Expire(MILLISECOND, Some((1, false, 1))),
            Start(7 * MILLISECOND),
            Send(Some(10)),
            Expire(MILLISECOND, Some((2, false, 1))),
            Send(None),
        ],
    ),
    (
        // What is unordered goes first. The third message of stream 1 is sent as its first one, since nothing of those before was
        // sent.
        "messages expire together",
        10,
        &[
            Letter(1, 0, false, true),
            Letter(1, 1, false, true),
            Letter(1, 2, false, false),
            Letter(2, 0, false, true),
            Letter(1, 3, true, true),
            Start(0),
            ExpireRun(MILLISECOND - 1, None),
            ExpireRun(MILLISECOND, Some((1, true, 1))),
            ExpireRun(MILLISECOND, Some((1, false, 2))),
            ExpireRun(MILLISECOND, None),
            Waits(0, Some((2, 0))),
            Send(Some(10)),
            ExpireRun(MILLISECOND, Some((2, false, 1))),
            Sizes(1, 1, 0, 0),
        ],
    ),
    (
        // A lifetime that ends with the last moment.
        "a message expires at the end of time",
        10,
        &[
            Letter(1, 0, false, true),
            Start(u64::MAX - MILLISECOND),
            Expire(u64::MAX - 1, None),
            Expire(u64::MAX, Some((1, false, 1))),
        ],
    ),
    (
        "a lifetime past the end of time does not end",
        10,
        &[
            Letter(1, 0, false, true),
            Start(u64::MAX),
            Expire(u64::MAX - 1, None),
            Expire(u64::MAX, None),
        ],
    ),
    (
        "peeks in order",
        10,
        &[
            Letters(false),
            Send(Some(10)),
            Reserve,
            Letter(1, 1, false, false),
            Letter(2, 0, true, false),
            Waits(0, Some((0, 0))),
            Waits(1, Some((0, 0))),
            Waits(2, Some((2, 0))),
            Waits(3, Some((1, 1))),
            Waits(4, None),
        ],
    ),
    (
        "sends around the end",
        4294967295,
        &[
            Reserve,
            Letters(false),
            Send(Some(4294967295)),
            Send(Some(0)),
            Send(Some(1)),
            Send(None),
            NextTsn(2),
            Sizes(3, 7, 0, 0),
        ],
    ),
    (
        "marks what is in flight",
        10,
        &[
            Letters(false),
            Send(Some(10)),
            MarkAll,
            Marked(1, Some(0), 0, true),
            Set(2, None, 1, false),
            Marked(2, None, 1, false),
        ],
    ),
    (
        // 2147483657 lies less than half a circle after 10, and 2147483659 less than half a circle before it.
        "tells what may be sent",
        10,
        &[
            Letters(false),
            Send(Some(10)),
            CanSend(9, true),
            CanSend(10, false),
            CanSend(11, true),
            CanSend(2147483657, true),
            CanSend(2147483658, false),
            CanSend(2147483659, true),
        ],
    ),
    (
        "nothing was sent",
        10,
        &[NextTsn(10), Sizes(0, 0, 0, 0), Outstanding(None)],
    ),
];

// A fragment on a stream, of a message with a lifetime or none.
fn fragment(
    stream_identifier: u16,
    timed: bool,
    first: bool,
    last: bool,
    user_data: Bytes,
) -> ChunkPayloadData {
    let mut fragment = chunk(0);
    fragment.stream_identifier = stream_identifier;
    fragment.unordered = false;
    fragment.beginning_fragment = first;
    fragment.ending_fragment = last;
    fragment.user_data = user_data;
    if timed {
        fragment.reliability = Some((ReliabilityType::Timed, 1));
    }
    fragment
}

// `abcdefg` in three fragments.
fn letters(alloc: Global, timed: bool) -> Result<Vec<ChunkPayloadData>, Error> {
    let mut chunks = Vec::with_capacity(alloc, 3)?;
    chunks.push(fragment(1, timed, true, false, Bytes::from_static(&[97, 98, 99])))?;
    chunks.push(fragment(1, timed, false, false, Bytes::from_static(&[100, 101, 102])))?;
    chunks.push(fragment(1, timed, false, true, Bytes::from_static(&[103])))?;
    Ok(chunks)
}

// A message of one byte, with the number that its stream gives it.
fn letter(
    alloc: Global,
    stream_identifier: u16,
    number: u16,
    unordered: bool,
    timed: bool,
) -> Result<Vec<ChunkPayloadData>, Error> {
    let mut only = fragment(
        stream_identifier,
        timed,
        true,
        true,
        Bytes::from_static(&[97]),
    );
    only.unordered = unordered;
    only.stream_sequence_number = number;
    let mut chunks = Vec::with_capacity(alloc, 1)?;
    chunks.push(only)?;
    Ok(chunks)
}

fn push(queue: &mut OutboundQueue, chunks: Vec<ChunkPayloadData>) -> Result<(), Error> {
    if queue.can_push(&chunks) {
        return queue.push(chunks);
    }
    drop(chunks);
    Ok(())
}

fn send(queue: &mut OutboundQueue, next_tsn: &mut u32, now: u64) -> Result<Option<u32>, Error> {
    if queue.can_send(*next_tsn) {
        return queue.send_next(next_tsn, now);
    }
    Ok(None)
}

fn abandon(
    queue: &mut OutboundQueue,
    tsn: u32,
    next_tsn: &mut u32,
) -> Result<Option<(u16, usize)>, Error> {
    if queue.can_send(*next_tsn) {
        return queue.abandon(tsn, next_tsn);
    }
    Ok(None)
}

fn expire_tail(
    queue: &mut OutboundQueue,
    now: u64,
    next_tsn: &mut u32,
) -> Result<Option<(u16, u64, usize)>, Error> {
    if queue.can_send(*next_tsn) {
        return queue.expire_pending_tail(now, next_tsn);
    }
    Ok(None)
}

// Whether the chunks were made, and are pushed where that is allowed.
fn pushes(queue: &mut OutboundQueue, chunks: Result<Vec<ChunkPayloadData>, Error>) -> bool {
    match chunks {
        Ok(chunks) => push(queue, chunks).is_ok(),
        Err(_) => false,
    }
}

fn is_terminal_chunk(chunk: Option<&ChunkPayloadData>) -> bool {
    match chunk {
        Some(c) => {
            c.ending_fragment && !c.beginning_fragment && c.abandoned && c.user_data.is_empty()
        }
        None => false,
    }
}

// Whether so many TSNs are late at this moment, each of them 10.
fn are_late(alloc: Global, queue: &OutboundQueue, now: u64, want: usize) -> bool {
    match queue.expired_inflight(alloc, now) {
        Ok(late) => {
            let well = late.len() == want && late.iter().all(|tsn| *tsn == 10);
            drop(late);
            well
        }
        Err(_) => false,
    }
}

// Whether a chunk is of this message and has this number, or there is none.
fn is_numbered(chunk: Option<&ChunkPayloadData>, want: &Option<(u64, u16)>) -> bool {
    match (chunk, want) {
        (Some(c), Some(want)) => (c.message_id, c.stream_sequence_number) == *want,
        (None, None) => true,
        _ => false,
    }
}

// Whether the messages of one byte that expire together then are these, or there is none.
fn expires_together(queue: &mut OutboundQueue, now: u64, want: &Option<(u16, bool, u16)>) -> bool {
    let want = match want {
        Some((stream_identifier, unordered, messages)) => Some(ExpiredRun {
            stream_identifier: *stream_identifier,
            unordered: *unordered,
            messages: *messages,
            bytes: usize::from(*messages),
        }),
        None => None,
    };
    queue.expire_pending_run(now) == want
}

// Whether a chunk was sent so often, first at this moment, was reported missing so often, and is to be sent again.
fn is_marked(
    chunk: Option<&ChunkPayloadData>,
    nsent: u32,
    since: Option<u64>,
    missing: u8,
    again: bool,
) -> bool {
    match chunk {
        Some(c) => {
            c.nsent == nsent
                && c.since == since
                && c.miss_indicator == missing
                && c.retransmit == again
        }
        None => false,
    }
}

fn sizes_are(
    queue: &OutboundQueue,
    flight: usize,
    sent: usize,
    chunks: usize,
    bytes: usize,
) -> bool {
    queue.inflight_len() == flight
        && queue.inflight_bytes() == sent
        && queue.pending_len() == chunks
        && queue.pending_bytes() == bytes
}

// Whether a step that changes nothing answers so.
fn is_seen(alloc: Global, queue: &OutboundQueue, step: &Step) -> bool {
    match step {
        CanSend(tsn, want) => queue.can_send(*tsn) == *want,
        Sizes(flight, sent, chunks, bytes) => sizes_are(queue, *flight, *sent, *chunks, *bytes),
        Terminal(tsn) => is_terminal_chunk(queue.get(*tsn)),
        Outstanding(want) => queue.earliest_outstanding_tsn() == *want,
        Abandoned(tsn, want) => queue.is_abandoned(*tsn) == *want,
        Late(now, want) => are_late(alloc, queue, *now, *want),
        Waits(0, want) if !is_numbered(queue.peek_pending(), want) => false,
        Waits(place, want) => is_numbered(queue.peek_pending_at(*place), want),
        Streams(stream, waits, held) => {
            queue.pending_contains_stream(*stream) == *waits
                && queue.contains_stream(*stream) == *held
        }
        Marked(nsent, since, missing, again) => {
            is_marked(queue.get(10), *nsent, *since, *missing, *again)
        }
        _ => false,
    }
}

// Whether a step that takes or sets something goes so.
fn is_taken(queue: &mut OutboundQueue, step: &Step) -> bool {
    match step {
        Acked(tsn) => queue.mark_as_acked(*tsn) > 0,
        Pop(tsn, want) => is_there(queue.pop(*tsn)) == *want,
        Expire(now, want) => queue.expire_pending(*now) == *want,
        ExpireRun(now, want) => expires_together(queue, *now, want),
        Reserve => queue.reserve(1, 1).is_ok() && queue.reserve_inflight(3).is_ok(),
        Set(nsent, since, missing, again) => {
            queue.set_nsent(10, *nsent)
                && queue.set_since(10, *since)
                && queue.set_miss_indicator(10, *missing)
                && queue.set_retransmit(10, *again)
        }
        Start(now) => {
            queue.start_timed_messages(*now);
            true
        }
        MarkAll => {
            queue.mark_all_to_retransmit();
            true
        }
        _ => false,
    }
}

// Whether a step goes so.
fn goes(alloc: Global, queue: &mut OutboundQueue, next_tsn: &mut u32, step: &Step) -> bool {
    match step {
        Letters(timed) => pushes(queue, letters(alloc, *timed)),
        Letter(stream, number, unordered, timed) => {
            pushes(queue, letter(alloc, *stream, *number, *unordered, *timed))
        }
        Send(want) => send(queue, next_tsn, 0) == Ok(*want),
        Abandon(tsn, want) => abandon(queue, *tsn, next_tsn) == Ok(*want),
        ExpireTail(now, want) => expire_tail(queue, *now, next_tsn) == Ok(*want),
        NextTsn(want) => *next_tsn == *want,
        _ => is_seen(alloc, queue, step) || is_taken(queue, step),
    }
}

// Whether all steps go so with a new queue.
fn goes_well(alloc: Global, first_tsn: u32, steps: &[Step]) -> bool {
    let mut queue = OutboundQueue::new(alloc);
    let mut next_tsn = first_tsn;
    let mut well = true;
    for step in steps {
        well = well && goes(alloc, &mut queue, &mut next_tsn, step);
    }
    drop(queue);
    well
}

pub(crate) fn outbound_cases(alloc: Global, log: &mut Vec<u8>) {
    for (name, first_tsn, steps) in CASES {
        check(log, goes_well(alloc, first_tsn, steps), name);
    }
}

fn nothing_is_pushed(queue: &mut OutboundQueue, none: Vec<ChunkPayloadData>) -> bool {
    push(queue, none).is_ok() && queue.next_message_id() == 0 && queue.pending_len() == 0
}

// Two ordered fragments with these flags, or an ordered and an unordered one.
fn two(
    alloc: Global,
    begin: [bool; 2],
    end: [bool; 2],
    mixed: bool,
) -> Result<Vec<ChunkPayloadData>, Error> {
    let mut chunks = Vec::with_capacity(alloc, 2)?;
    for place in 0..2 {
        let mut next = fragment(
            1,
            false,
            begin[place],
            end[place],
            Bytes::from_static(&[97]),
        );
        next.unordered = mixed && place == 1;
        chunks.push(next)?;
    }
    Ok(chunks)
}

// Whether two such fragments may be pushed, or may not.
fn answers(
    alloc: Global,
    queue: &OutboundQueue,
    begin: [bool; 2],
    end: [bool; 2],
    mixed: bool,
    want: bool,
) -> bool {
    match two(alloc, begin, end, mixed) {
        Ok(chunks) => {
            let well = queue.can_push(&chunks) == want;
            drop(chunks);
            well
        }
        Err(_) => false,
    }
}

fn takes_one_message(alloc: Global, queue: &OutboundQueue) -> bool {
    let mut well = true;
    for (begin, end, mixed, want) in [
        ([true, false], [false, true], false, true),
        ([true, false], [false, true], true, false),
        ([false, true], [true, false], false, false),
        ([true, true], [true, true], false, false),
        ([true, false], [false, false], false, false),
        ([false, false], [false, true], false, false),
    ] {
        well = well && answers(alloc, queue, begin, end, mixed, want);
    }
    well
}

pub(crate) fn takes_one_message_of_one_kind_or_nothing(alloc: Global) -> bool {
    let mut queue = OutboundQueue::new(alloc);
    let well = takes_one_message(alloc, &queue) && nothing_is_pushed(&mut queue, Vec::new(alloc));
    drop(queue);
    well
}
