//! Calls on the sender of one of two hosts, and what they answer.

ghost use Rattle.std.specs.Prelude.{◌≡◌, ◌+◌, ◌≤◌, length};
ghost use Rattle.std.specs.List.{count_by};
ghost use Rattle.sctp_data.specs.SelectiveAck.{sack_of};
ghost use Rattle.sctp_sender.specs.Costs.{is_left_out, to_sort};
ghost use Rattle.sctp_sender.specs.Sender.{taken_back_by};

use crate::ended::gives_none;
use crate::host::{Host, acknowledges, sends, sends_again, skips};
use crate::part::reads;
use crate::sending::highest_acked;
use sctp_chunks::chunk::chunk_payload_data::ReliabilityType;
use sctp_chunks::chunk::chunk_selective_ack::{ChunkSelectiveAck, GapAckBlock};
use sctp_sender::sender::flight::Released;
use sctp_sender::sender::flight::kept::TakenBack;
use sctp_sender::sender::flight::late::AbandonedMessage;
use sctp_sender::sender::refusal::SenderRefusal;
use sctp_sender::sender::{Dropped, ExpiredMessage, ExpiredMessages, Reported, Sender};
use sctp_sender::{costs, replay};
use sctp_serial::turns::Turns;
use std::alloc::Global;
use std::mem::replace;

/// A call on the sender of a host, and what it answers.
pub(crate) enum Step {
    /// Stream 1 is opened on both hosts.
    Open,
    /// The hosts change places.
    Swap,
    Write(&'static [u8], bool),
    /// The next fragment is sent, and lost or not.
    Send(bool),
    /// Nothing is left to send.
    Idle,
    /// What is sent next has this stream sequence number, and is lost.
    SendNumbered(u16),
    /// The first fragment that is not acknowledged is sent again.
    SendFirstAgain,
    /// The peer acknowledges what came.
    Ack,
    /// The peer is told what was abandoned, if anything was.
    Skip(bool),
    /// The peer reads a message.
    Read(&'static [u8]),
    /// Whether the peer has a message to read.
    Readable(bool),
    /// The peer's cumulative TSN.
    PeerAt(u32),
    /// The TSN up to which all is acknowledged, the chunks in flight and their bytes.
    Flight(u32, usize, usize),
    /// Of the chunk at a place: its TSN, how often and when it was sent, and whether it is marked.
    At(usize, Option<(u32, u32, Option<u64>, bool)>),
    /// The bytes of a TSN that are not acknowledged.
    BytesOf(u32, Option<usize>),
    /// A SACK of a TSN with a block, and what it acknowledges anew.
    Acked(u32, (u16, u16), Result<&'static [Released], SenderRefusal>),
    /// Such a SACK to a sender that keeps what was reported: what comes back, and the bytes in flight before it is taken and after.
    TakeBack(u32, (u16, u16), &'static [TakenBack], usize, usize),
    /// Whether the sender keeps what is reported.
    /// A sender that keeps what is reported, with this first TSN.
    Keep(u32),
    Buffered(Option<usize>),
    MarkAll,
    /// The first chunk that is marked.
    Marked(Option<u32>),
    /// It is sent again at a moment, as the second time.
    SendMarked(u64, Option<u32>),
    /// It is sent again if it takes at most so many bytes of a packet.
    SendWithin(usize, Option<u32>),
    Resend(u32, u64, Result<&'static [u8], SenderRefusal>),
    /// So many chunks are marked as a TSN counts what is missing before it, or the block of one that a SACK reports.
    Miss(u32, usize),
    MissBlock(u16, usize),
    Mode(bool, ReliabilityType, u32),
    Worn(&'static [AbandonedMessage]),
    Late(u64, &'static [AbandonedMessage]),
    Abandon(u32, AbandonedMessage),
    /// A FORWARD-TSN of at most so many bytes, or up to a TSN: its TSN, and how many streams it names.
    Within(usize, Option<(u32, usize)>),
    UpTo(u32, Option<u32>),
    Start(u64),
    Expire(u64, Option<ExpiredMessage>),
    /// What `drop_expired` answers at a moment: messages that expired unsent, or those that are abandoned.
    DropExpired(u64, Option<ExpiredMessages>, &'static [AbandonedMessage]),
    Drained(bool),
    Reset(Result<(), SenderRefusal>),
    IsOpen(bool),
    /// The next stream sequence number of stream 1.
    Sequence(u16),
    /// Nothing was written to stream 1.
    Unused,
    Threshold(u16, usize, Result<(), SenderRefusal>),
    Fragments(u32),
    /// The fragment size, the maximum message size, and how many chunks wait.
    Sizes(u32, u32, usize),
    Close,
    /// The peer closes the stream, and opens it again.
    Reopen,
    Contains(bool),
    NextTsn(u32),
    /// How often a chunk in flight was sent; 0 where none is.
    Sendings(u32, u32),
    CountResend(u32),
    AckPoint(u32),
}

use Step::{
    Abandon, Ack, AckPoint, Acked, At, Buffered, BytesOf, Close, Contains, CountResend, Drained,
    DropExpired, Expire, Flight, Fragments, Idle, IsOpen, Keep, Late, MarkAll, Marked, Miss,
    MissBlock, Mode, NextTsn, Open, PeerAt, Read, Readable, Reopen, Resend, Reset, Send,
    SendFirstAgain, SendMarked, SendNumbered, SendWithin, Sendings, Sequence, Sizes, Skip, Start,
    Swap, TakeBack, Threshold, Unused, UpTo, Within, Worn, Write,
};

// The SACK up to a TSN with one block, or with none for that of 0 to 0.
fn sack(alloc: Global, tsn: u32, block: (u16, u16)) -> Option<ChunkSelectiveAck> {
    let mut sack = ChunkSelectiveAck {
        cumulative_tsn_ack: tsn,
        advertised_receiver_window_credit: 1000,
        gap_ack_blocks: Vec::new(alloc),
        duplicate_tsn: Vec::new(alloc),
    };
    let (start, end) = block;
    let is_made = block == (0, 0) || sack.gap_ack_blocks.push(GapAckBlock { start, end }).is_ok();
    if is_made {
        return Some(sack);
    }
    drop(sack);
    None
}

// Whether the SACK acknowledges these chunks anew, or is refused so.
fn acknowledges_anew(
    sender: &mut Sender,
    sack: &ChunkSelectiveAck,
    due: &Result<&[Released], SenderRefusal>,
    counted: bool,
) -> bool {
    let answer = if counted {
        costs::acked(sender, sack, &mut Turns::new())
    } else {
        sender.acked(sack)
    };
    match answer {
        Ok(acked) => {
            let well = *due == Ok(acked.released.as_slice());
            drop(acked);
            well
        }
        Err(e) => *due == Err(e),
    }
}

// Takes back what a SACK leaves out. With one block, where it leaves out the one chunk in flight that is acknowledged, it looks 16
// times at most: seven for the block, two for the chunk, one as it is left out, five as it comes back, and one.
fn take_back(
    sender: &mut Sender,
    sack: &ChunkSelectiveAck,
    turns: &mut Turns,
) -> Result<Vec<TakenBack>, SenderRefusal>
    ensures looks { length sack.now.gap_ack_blocks.items ≡ 1
        → to_sort sack.now.gap_ack_blocks.items ≡ 0
        → count_by (λ c. c.acked) sender.old.flight.queue.inflight.chunks ≡ 1
        → count_by (is_left_out (sack_of sack.now)) sender.old.flight.queue.inflight.chunks ≡ 1
        → length (taken_back_by (sack_of sack.now) sender.old) ≡ 1
        → turns.new ≤ turns.old + 16 }
{
    costs::take_back(sender, sack, turns)
}

// Whether the SACK takes back these chunks.
fn takes_back(sender: &mut Sender, sack: &ChunkSelectiveAck, due: &[TakenBack]) -> bool {
    match take_back(sender, sack, &mut Turns::new()) {
        Ok(back) => {
            let well = back.as_slice() == due;
            drop(back);
            well
        }
        Err(_) => false,
    }
}

// Whether the SACK is taken, and takes back these chunks.
fn is_taken(sender: &mut Sender, sack: &ChunkSelectiveAck, due: &[TakenBack]) -> bool {
    match sender.acked(sack) {
        Ok(acked) => {
            let well = acked.taken_back.as_slice() == due;
            drop(acked);
            well
        }
        Err(_) => false,
    }
}

/// How many bytes of a stream are buffered; None where it is not open.
pub(crate) fn buffered(sender: &Sender, stream: u16) -> Option<usize> {
    Some(sender.stream(stream)?.buffered_amount())
}

// Whether so many bytes are in flight and buffered.
fn has_bytes(sender: &Sender, bytes: usize) -> bool {
    sender.outbound().inflight_bytes() == bytes && buffered(sender, 1) == Some(bytes)
}

// Whether a SACK that was made goes so.
fn sack_goes(sender: &mut Sender, sack: &ChunkSelectiveAck, step: &Step, counted: bool) -> bool {
    match step {
        Acked(_, _, due) => acknowledges_anew(sender, sack, due, counted),
        TakeBack(_, _, due, before, after) => {
            let due_then: &[TakenBack] = if counted { &[] } else { due };
            (!counted || takes_back(sender, sack, due) && has_bytes(sender, *before))
                && is_taken(sender, sack, due_then)
                && has_bytes(sender, *after)
        }
        MissBlock(_, marked) => match highest_acked(sender, sack) {
            Ok(Some(tsn)) => sender.add_miss_indications(tsn) == *marked,
            _ => false,
        },
        _ => false,
    }
}

// Whether the chunk at a place has this TSN, was sent so often and last then, and is marked or not.
fn is_at(sender: &Sender, place: usize, due: &Option<(u32, u32, Option<u64>, bool)>) -> bool {
    match (replay::in_flight_at(sender, place), due) {
        (Some(chunk), Some(due)) => {
            (chunk.tsn, chunk.nsent, chunk.since, chunk.retransmit) == *due
        }
        (None, None) => true,
        _ => false,
    }
}

// Whether the first chunk that is marked is sent again then, and has this TSN.
fn sends_marked(sender: &mut Sender, now: u64, due: Option<u32>) -> bool {
    match sender.resend_next(now, usize::MAX) {
        Ok(Some(chunk)) => {
            let well = due == Some(chunk.tsn)
                && chunk.nsent == 2
                && chunk.since == Some(now)
                && !chunk.retransmit;
            drop(chunk);
            well
        }
        Ok(None) => due.is_none(),
        Err(_) => false,
    }
}

// Whether the first chunk that is marked is sent again within so many bytes, and has this TSN.
fn sends_within(sender: &mut Sender, room: usize, due: Option<u32>) -> bool {
    match sender.resend_next(1, room) {
        Ok(Some(chunk)) => {
            let well = due == Some(chunk.tsn);
            drop(chunk);
            well
        }
        Ok(None) => due.is_none(),
        Err(_) => false,
    }
}

// Whether the chunk with a TSN is sent again with these bytes, or is not.
fn resends(sender: &mut Sender, tsn: u32, now: u64, due: &Result<&[u8], SenderRefusal>) -> bool {
    match sender.resend(tsn, now) {
        Ok(chunk) => {
            let well = chunk.tsn == tsn && *due == Ok(chunk.user_data.as_slice());
            drop(chunk);
            well
        }
        Err(e) => *due == Err(e),
    }
}

fn sends_numbered(sender: &mut Sender, ssn: u16) -> bool {
    match sender.send_next(0) {
        Ok(Some(chunk)) => {
            let well = chunk.stream_sequence_number == ssn;
            drop(chunk);
            well
        }
        _ => false,
    }
}

// Whether these messages are abandoned, by their lifetimes at a moment or else by how often they were sent.
fn abandons(sender: &mut Sender, now: Option<u64>, due: &[AbandonedMessage]) -> bool {
    let answer = match now {
        Some(now) => replay::expire_late(sender, now),
        None => replay::expire_rexmit(sender),
    };
    match answer {
        Ok(abandoned) => {
            let well = abandoned.as_slice() == due;
            drop(abandoned);
            well
        }
        Err(_) => false,
    }
}

// Whether the next group that is dropped is this run of messages, or these that are abandoned, or none.
fn drops(
    sender: &mut Sender,
    now: u64,
    run: &Option<ExpiredMessages>,
    due: &[AbandonedMessage],
) -> bool {
    match sender.drop_expired(now) {
        Ok(Some(Dropped::Expired(gone))) => *run == Some(gone),
        Ok(Some(Dropped::Abandoned(gone))) => {
            let well = run.is_none() && gone.as_slice() == due;
            drop(gone);
            well
        }
        Ok(None) => run.is_none() && due.is_empty(),
        Err(_) => false,
    }
}

// Whether the FORWARD-TSN of at most so many bytes goes to a TSN and names so many streams.
fn skips_within(sender: &Sender, bytes: usize, due: &Option<(u32, usize)>) -> bool {
    match sender.forward_tsn(bytes) {
        Ok(Some(skip)) => {
            let well = *due == Some((skip.new_cumulative_tsn, skip.streams.len()));
            drop(skip);
            well
        }
        Ok(None) => due.is_none(),
        Err(_) => false,
    }
}

// Whether the FORWARD-TSN up to a TSN goes to this one, if anywhere.
fn skips_to(sender: &Sender, tsn: u32, due: &Option<u32>) -> bool {
    match replay::forward_tsn_to(sender, tsn) {
        Ok(Some(skip)) => {
            let well = *due == Some(skip.new_cumulative_tsn);
            drop(skip);
            well
        }
        Ok(None) => due.is_none(),
        Err(_) => false,
    }
}

// Of stream 1 the next stream sequence number, the buffered bytes, and how many messages were sent.
fn numbers(sender: &Sender) -> Option<(u16, usize, u64)> {
    let state = sender.stream(1)?;
    Some((
        state.sequence_number(),
        state.buffered_amount(),
        state.stats().messages_sent,
    ))
}

// The TSN of the first chunk that is marked.
fn marked(sender: &Sender) -> Option<u32> {
    let chunk = replay::next_to_retransmit(sender)?;
    Some(chunk.tsn)
}

// How many bytes the chunk in flight with a TSN has; None where none is.
fn bytes_of(sender: &Sender, tsn: u32) -> Option<usize> {
    Some(sender.outbound().get(tsn)?.user_data.len())
}

// How often a chunk in flight was sent; 0 where none is.
fn sendings(sender: &Sender, tsn: u32) -> u32 {
    match sender.outbound().get(tsn) {
        Some(chunk) => chunk.nsent,
        None => 0,
    }
}

// Whether a threshold is set, and stands then, or is refused so.
fn sets_low(
    sender: &mut Sender,
    stream: u16,
    bytes: usize,
    due: &Result<(), SenderRefusal>,
) -> bool {
    let well = sender.set_buffered_amount_low_threshold(stream, bytes) == *due;
    match sender.stream(stream) {
        Some(state) => well && state.buffered_amount_low_threshold() == bytes,
        None => well,
    }
}

// Whether a step that changes nothing answers so.
fn is_seen(sender: &Sender, step: &Step) -> bool {
    match step {
        Flight(tsn, chunks, bytes) => {
            sender.acked_tsn() == *tsn
                && sender.outbound().inflight_len() == *chunks
                && sender.outbound().inflight_bytes() == *bytes
        }
        At(place, due) => is_at(sender, *place, due),
        BytesOf(tsn, bytes) => bytes_of(sender, *tsn) == *bytes,
        Buffered(due) => buffered(sender, 1) == *due,
        Marked(due) => marked(sender) == *due,
        Within(bytes, due) => skips_within(sender, *bytes, due),
        UpTo(tsn, due) => skips_to(sender, *tsn, due),
        Drained(due) => sender.is_drained(1) == *due,
        IsOpen(due) => sender.stream(1).is_some() == *due,
        Sequence(due) => numbers(sender).is_some_and(|it| it.0 == *due),
        Unused => numbers(sender) == Some((0, 0, 0)),
        Sizes(fragment, message, waiting) => {
            replay::fragment_size(sender) == *fragment
                && replay::max_message_size(sender) == *message
                && sender.outbound().pending_len() == *waiting
        }
        Contains(due) => sender.outbound().contains_stream(1) == *due,
        NextTsn(tsn) => sender.next_tsn() == *tsn,
        Sendings(tsn, due) => sendings(sender, *tsn) == *due,
        AckPoint(tsn) => replay::advanced_ack_point(sender) == *tsn,
        _ => false,
    }
}

// Makes a change that answers nothing; whether the step is one.
fn is_made(sender: &mut Sender, step: &Step) -> bool {
    match step {
        MarkAll => sender.retransmit_all(),
        Start(now) => replay::start(sender, *now),
        Fragments(size) if *size > 0 && *size < 65_519 => sender.set_fragment_size(*size),
        Close => sender.close(1),
        CountResend(tsn) => replay::count_resend(sender, *tsn),
        _ => return false,
    }
    true
}

// Whether a step on the sender goes so.
fn is_done(sender: &mut Sender, step: &Step) -> bool {
    match step {
        Idle => gives_none(sender.send_next(0)),
        SendNumbered(ssn) => sends_numbered(sender, *ssn),
        SendMarked(now, due) => sends_marked(sender, *now, *due),
        SendWithin(room, due) => sends_within(sender, *room, *due),
        Resend(tsn, now, due) => resends(sender, *tsn, *now, due),
        Miss(tsn, due) => sender.add_miss_indications(*tsn) == *due,
        Mode(unordered, kind, value) => sender.set_mode(1, *unordered, *kind, *value).is_ok(),
        Worn(due) => abandons(sender, None, due),
        Late(now, due) => abandons(sender, Some(*now), due),
        Abandon(tsn, due) => sender.abandon(*tsn) == Ok(*due),
        Expire(now, due) => replay::expire(sender, *now) == *due,
        DropExpired(now, run, due) => drops(sender, *now, run, due),
        Reset(due) => sender.reset(1) == *due,
        Threshold(stream, bytes, due) => sets_low(sender, *stream, *bytes, due),
        _ => is_made(sender, step) || is_seen(sender, step),
    }
}

// Whether a step that the peer takes part in goes so.
fn goes_between(alloc: Global, a: &mut Host, b: &mut Host, step: &Step) -> bool {
    match step {
        Keep(first_tsn) => {
            let kept = Sender::new(alloc, *first_tsn, 3, 100, Reported::Keep);
            drop(replace(&mut a.sender, kept));
            true
        }
        Open => a.opens() && b.opens(),
        Write(text, due) => a.writes(alloc, text) == *due,
        Send(is_lost) => sends(alloc, a, b, *is_lost),
        SendFirstAgain => sends_again(alloc, a, b),
        Ack => acknowledges(alloc, b, a),
        Skip(due) => skips(alloc, a, b) == *due,
        Read(text) => reads(&mut b.receiver, text),
        Readable(due) => b.receiver.is_readable(1) == *due,
        PeerAt(tsn) => b.receiver.cumulative_tsn() == *tsn,
        Reopen => {
            b.receiver.close(1);
            a.sender.open(1).is_ok() && b.receiver.open(1).is_ok()
        }
        _ => is_done(&mut a.sender, step),
    }
}

// Whether a step goes so.
fn goes(alloc: Global, a: &mut Host, b: &mut Host, step: &Step, counted: bool) -> bool {
    let (tsn, block) = match step {
        Acked(tsn, block, _) => (*tsn, *block),
        TakeBack(tsn, block, _, _, _) => (*tsn, *block),
        MissBlock(far, _) => (a.sender.acked_tsn(), (*far, *far)),
        _ => return goes_between(alloc, a, b, step),
    };
    match sack(alloc, tsn, block) {
        Some(sack) => {
            let well = sack_goes(&mut a.sender, &sack, step, counted);
            drop(sack);
            well
        }
        None => false,
    }
}

/// Whether all steps go so, by the calls that count their turns where there is one, or by those that do not.
pub(crate) fn all_go(
    alloc: Global,
    a: &mut Host,
    b: &mut Host,
    steps: &[Step],
    counted: bool,
) -> bool {
    let mut swapped = false;
    let mut well = true;
    for step in steps {
        if matches!(step, Swap) {
            swapped = !swapped;
        } else if swapped {
            well = well && goes(alloc, b, a, step, counted);
        } else {
            well = well && goes(alloc, a, b, step, counted);
        }
    }
    well
}
