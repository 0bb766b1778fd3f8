//! Calls on a receiver, and what they answer.

ghost use Rattle.std.specs.Prelude.{◌≡◌, ◌+◌, ◌*◌, ◌≤◌, length};
ghost use Rattle.sctp_receiver.specs.SkipCosts.{held_fragments, held_messages};
ghost use Rattle.sctp_receiver.specs.Visited.{to_visit};

use crate::ended::{gives_some, is_taken};
use crate::part::{chunk, reads};
use crate::receiving::{acknowledge, take_chunk, take_or_discard, take_or_follow};
use sctp_chunks::chunk::chunk_forward_tsn::{ChunkForwardTsn, ChunkForwardTsnStream};
use sctp_chunks::chunk::chunk_payload_data::ChunkPayloadData;
use sctp_chunks::chunk::chunk_selective_ack::{ChunkSelectiveAck, GapAckBlock};
use sctp_receiver::advice::AbortCause;
use sctp_receiver::costs;
use sctp_receiver::laws::a_skip_costs_by_what_is_held;
use sctp_receiver::receiver::Receiver;
use sctp_receiver::receiver::arrival::{Arrival, Closed, Forwarded};
use sctp_receiver::receiver::refusal::ReceiverRefusal;
use sctp_receiver::replay::{forward_tsn_by_names, open_streams};
use sctp_serial::turns::Turns;
use sctp_util::error::Error;
use std::alloc::Global;

/// A call, and what it answers.
pub(crate) enum Step {
    /// The streams that are opened.
    Open(&'static [u16]),
    OpenAgain(u16),
    Close(u16),
    /// A chunk: stream, TSN, stream sequence number, its flags U, B and E, its bytes.
    Data(u16, u32, u16, (bool, bool, bool), &'static [u8], Result<Arrival, ReceiverRefusal>),
    /// A TSN whose chunk is dropped.
    Discard(u32, Result<Arrival, ReceiverRefusal>),
    /// A chunk of stream 1 by the caller that drops what is refused, and by the one that drops what is of no open stream.
    Take(u32, bool),
    TakeOrDiscard(u32, bool),
    /// A chunk as `Data` by the caller that follows the advice at a refusal, and the cause of the ABORT that is due.
    Advised(u16, u32, u16, (bool, bool, bool), &'static [u8], Option<AbortCause>),
    /// A FORWARD-TSN: how names of closed streams are taken, its TSN, its streams and their numbers.
    Forward(Way, u32, &'static [(u16, u16)], Result<Forwarded, ReceiverRefusal>),
    Reset(u16, u32, Result<(), ReceiverRefusal>),
    Read(&'static [u8]),
    /// A message of a stream is read, whatever it is, or the stream is not open.
    ReadOf(u16, bool),
    /// The streams that have a message to read.
    Readable(&'static [u16]),
    IsReadable(u16, bool),
    /// The next SACK: its cumulative TSN, blocks and duplicates.
    Sack(u32, &'static [(u16, u16)], &'static [u32]),
    /// The SACK for a packet of so many bytes has so many blocks and duplicates.
    SackWithin(usize, usize, usize),
    /// The SACK of at most so many bytes, which is made and not sent, has so many blocks and duplicates.
    MakeSack(usize, usize, usize),
    /// The SACK that was made was sent.
    SackSent,
    Cumulative(u32),
    /// The bytes that are held, and the window that is told.
    Held(usize, u32),
    /// Bytes by the open streams.
    Streams(&'static [(u16, usize)]),
    /// Whether a stream has statistics.
    HasStats(u16, bool),
    NothingBeyond,
}

use Step::{
    Advised, Close, Cumulative, Data, Discard, Forward, HasStats, Held, IsReadable, MakeSack,
    NothingBeyond, Open, OpenAgain, Read, ReadOf, Readable, Reset, Sack, SackSent, SackWithin,
    Streams, Take, TakeOrDiscard,
};

/// How a FORWARD-TSN is followed: it may name open streams only, or closed ones too, or it discards by names alone.
#[derive(Clone, Copy)]
pub(crate) enum Way {
    Known,
    PastClosed,
    ByNames,
}

// A FORWARD-TSN up to a TSN that names these streams and stream sequence numbers.
fn named(alloc: Global, tsn: u32, names: &[(u16, u16)]) -> Result<ChunkForwardTsn, Error> {
    let mut streams = Vec::new(alloc);
    for (identifier, sequence) in names {
        streams.push(ChunkForwardTsnStream {
            identifier: *identifier,
            sequence: *sequence,
        })?;
    }
    Ok(ChunkForwardTsn {
        new_cumulative_tsn: tsn,
        streams,
    })
}

// Follows a FORWARD-TSN. Where one message of one fragment is held, it looks at most twice for each name, once for the stream, 14 times
// for the message and six times for its fragment.
fn follow(
    receiver: &mut Receiver,
    skip: &ChunkForwardTsn,
    way: Way,
    skips: &mut Turns,
) -> Result<Forwarded, ReceiverRefusal>
    ensures looks { held_messages receiver.old.streams ≡ 1
        → held_fragments receiver.old.streams ≡ 1 → length (to_visit receiver.old.streams) ≡ 1
        → skips.new ≤ skips.old + 2 * length skip.now.streams.items + 21 }
{
    a_skip_costs_by_what_is_held();
    let mut turns = Turns::new();
    match way {
        Way::Known => costs::forward_tsn(receiver, skip, Closed::Refuse, &mut turns, skips),
        Way::PastClosed => costs::forward_tsn(receiver, skip, Closed::PassOver, &mut turns, skips),
        Way::ByNames => forward_tsn_by_names(receiver, skip),
    }
}

fn forward(
    receiver: &mut Receiver,
    skip: &ChunkForwardTsn,
    way: Way,
    counted: bool,
) -> Result<Forwarded, ReceiverRefusal> {
    if counted {
        return follow(receiver, skip, way, &mut Turns::new());
    }
    match way {
        Way::Known => receiver.forward_tsn(skip, Closed::Refuse),
        Way::PastClosed => receiver.forward_tsn(skip, Closed::PassOver),
        Way::ByNames => forward_tsn_by_names(receiver, skip),
    }
}

// Takes a chunk that was made.
fn take(
    receiver: &mut Receiver,
    made: Result<ChunkPayloadData, Error>,
    counted: bool,
) -> Result<Arrival, ReceiverRefusal> {
    match made {
        Ok(chunk) => {
            let answer = if counted {
                costs::data(receiver, &chunk, &mut Turns::new())
            } else {
                receiver.data(&chunk)
            };
            drop(chunk);
            answer
        }
        Err(_) => Err(ReceiverRefusal::OutOfMemory),
    }
}

// Whether the caller that follows the advice at a refusal answers so to a chunk that was made.
fn is_advised(
    receiver: &mut Receiver,
    made: Result<ChunkPayloadData, Error>,
    want: Option<AbortCause>,
) -> bool {
    match made {
        Ok(chunk) => {
            let well = take_or_follow(receiver, &chunk) == Ok(want);
            drop(chunk);
            well
        }
        Err(_) => false,
    }
}

// A chunk of a stream: TSN, stream sequence number, flags and bytes.
fn part(
    alloc: Global,
    stream: u16,
    numbers: (u32, u16),
    flags: (bool, bool, bool),
    bytes: &[u8],
) -> Result<ChunkPayloadData, Error> {
    let mut one = chunk(alloc, numbers.0, flags.1, flags.2, bytes)?;
    one.stream_identifier = stream;
    one.stream_sequence_number = numbers.1;
    one.unordered = flags.0;
    Ok(one)
}

// Whether one of the two callers answers so to a message of stream 1.
fn is_called(alloc: Global, receiver: &mut Receiver, tsn: u32, drops: bool, want: bool) -> bool {
    match chunk(alloc, tsn, true, true, b"a") {
        Ok(chunk) => {
            let answer = if drops {
                take_or_discard(receiver, &chunk)
            } else {
                take_chunk(receiver, &chunk)
            };
            drop(chunk);
            answer == Ok(want)
        }
        Err(_) => false,
    }
}

fn opens(receiver: &mut Receiver, streams: &[u16]) -> bool {
    let mut well = true;
    for stream in streams {
        well = well && receiver.open(*stream).is_ok();
    }
    well
}

fn are_blocks(blocks: &[GapAckBlock], want: &[(u16, u16)]) -> bool {
    let mut well = blocks.len() == want.len();
    for (block, ends) in blocks.iter().zip(want.iter()) {
        well = well && (block.start, block.end) == *ends;
    }
    well
}

fn says(sack: &ChunkSelectiveAck, tsn: u32, blocks: &[(u16, u16)], duplicates: &[u32]) -> bool {
    sack.cumulative_tsn_ack == tsn
        && are_blocks(&sack.gap_ack_blocks, blocks)
        && sack.duplicate_tsn.as_slice() == duplicates
}

// Whether the next SACK says so.
fn reports(
    receiver: &mut Receiver,
    tsn: u32,
    blocks: &[(u16, u16)],
    duplicates: &[u32],
    counted: bool,
) -> bool {
    let window = receiver.window();
    let sack = if counted {
        costs::sack(receiver, usize::MAX, &mut Turns::new())
    } else {
        receiver.sack(usize::MAX)
    };
    match sack {
        Ok(sack) => {
            let well = sack.advertised_receiver_window_credit == window
                && says(&sack, tsn, blocks, duplicates);
            drop(sack);
            well
        }
        Err(_) => false,
    }
}

// Whether a SACK was made, and has so many blocks and duplicates.
fn has(made: Result<ChunkSelectiveAck, ReceiverRefusal>, blocks: usize, duplicates: usize) -> bool {
    match made {
        Ok(sack) => {
            let well = sack.gap_ack_blocks.len() == blocks
                && sack.duplicate_tsn.len() == duplicates;
            drop(sack);
            well
        }
        Err(_) => false,
    }
}

// Whether the SACK for a packet of so many bytes has so many blocks and duplicates.
fn fits(receiver: &mut Receiver, packet: usize, blocks: usize, duplicates: usize) -> bool {
    packet >= 28 && has(acknowledge(receiver, packet), blocks, duplicates)
}

fn are_readable(receiver: &Receiver, due: &[u16]) -> bool {
    match receiver.readable_streams() {
        Ok(streams) => {
            let well = streams.as_slice() == due;
            drop(streams);
            well
        }
        Err(_) => false,
    }
}

fn streams_are(receiver: &Receiver, due: &[(u16, usize)]) -> bool {
    let mut well = open_streams(receiver).len() == due.len();
    for (stream, want) in open_streams(receiver).iter().zip(due.iter()) {
        well = well && (stream.queue.si(), stream.queue.get_num_bytes()) == *want;
    }
    well
}

// Whether a step that changes nothing answers so.
fn is_seen(receiver: &Receiver, step: &Step) -> bool {
    match step {
        Readable(streams) => are_readable(receiver, streams),
        IsReadable(stream, want) => receiver.is_readable(*stream) == *want,
        Cumulative(tsn) => receiver.cumulative_tsn() == *tsn,
        Held(bytes, window) => receiver.held_bytes() == *bytes && receiver.window() == *window,
        Streams(due) => streams_are(receiver, due),
        HasStats(stream, want) => receiver.stats(*stream).is_some() == *want,
        NothingBeyond => !receiver.has_gaps(),
        MakeSack(room, blocks, duplicates) => {
            has(receiver.make_sack(*room), *blocks, *duplicates)
        }
        _ => false,
    }
}

// Whether a step on streams goes so.
fn is_done(receiver: &mut Receiver, step: &Step) -> bool {
    match step {
        Open(streams) => opens(receiver, streams),
        OpenAgain(stream) => receiver.open(*stream) == Err(ReceiverRefusal::StreamOpen),
        Close(stream) => {
            receiver.close(*stream);
            true
        }
        Reset(stream, tsn, want) => receiver.reset(*stream, *tsn) == *want,
        SackSent => {
            receiver.sack_sent();
            true
        }
        Read(bytes) => reads(receiver, bytes),
        ReadOf(stream, true) => gives_some(receiver.read(*stream)),
        ReadOf(stream, false) => !is_taken(receiver.read(*stream)),
        _ => is_seen(receiver, step),
    }
}

// Whether a step goes so, by the calls that count their turns where there is one, or by those that do not.
fn goes(alloc: Global, receiver: &mut Receiver, step: &Step, counted: bool) -> bool {
    match step {
        Data(stream, tsn, ssn, flags, bytes, want) => {
            let made = part(alloc, *stream, (*tsn, *ssn), *flags, bytes);
            take(receiver, made, counted) == *want
        }
        Advised(stream, tsn, ssn, flags, bytes, want) => {
            let made = part(alloc, *stream, (*tsn, *ssn), *flags, bytes);
            is_advised(receiver, made, *want)
        }
        Discard(tsn, want) => receiver.discard(*tsn) == *want,
        Take(tsn, want) => is_called(alloc, receiver, *tsn, false, *want),
        TakeOrDiscard(tsn, want) => is_called(alloc, receiver, *tsn, true, *want),
        Forward(way, tsn, names, want) => match named(alloc, *tsn, names) {
            Ok(skip) => {
                let answer = forward(receiver, &skip, *way, counted);
                drop(skip);
                answer == *want
            }
            Err(_) => false,
        },
        Sack(tsn, blocks, duplicates) => reports(receiver, *tsn, blocks, duplicates, counted),
        SackWithin(packet, blocks, duplicates) => fits(receiver, *packet, *blocks, *duplicates),
        _ => is_done(receiver, step),
    }
}

/// Whether all steps go so.
pub(crate) fn all_go(
    alloc: Global,
    receiver: &mut Receiver,
    steps: &[Step],
    counted: bool,
) -> bool {
    let mut well = true;
    for step in steps {
        well = well && goes(alloc, receiver, step, counted);
    }
    well
}
