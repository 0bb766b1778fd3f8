//! The sending half of a link (RFC 4960 6.1, 6.2.1, 6.9).

ghost use Rattle.std.specs.Prelude.{◌≡◌, ◌≢◌, ◌==◌, ◌<◌, ◌≤◌, ◌^◌, ◌⊎◌, true, false, None, Some, OnOk, OnErr, IfOk, IfErr, IfNone, IfSome, IsOk, ◌+◌, option_map, option_copied, slice_get, find, length, if◌then◌else◌};
ghost use Rattle.sctp_outbound.specs.outbound_queue.OutboundQueue.{total_bytes, with_message};
ghost use Rattle.sctp_sender.specs.Flight.{with_queue};
ghost use Rattle.sctp_sender.specs.Outgoing.{after_releases, fragments_with_mode};
ghost use Rattle.sctp_sender.specs.Thresholds.{with_lows};
ghost use Rattle.sctp_sender.specs.Sender.{is_full_of};
ghost use Rattle.sctp_sender.specs.declared.sender.refusal.SenderRefusal.TheVariants.{StreamOpen, StreamUnknown, OutOfMemory};

mod abandonment;
mod drops;
pub mod flight;
mod kept;
mod outbound_streams;
pub mod refusal;
mod retransmission;
mod settings;

use self::flight::anew::{keep_anew, make_room};
use self::flight::kept::{Kept, TakenBack};
use self::flight::late::AbandonedMessage;
use self::flight::{InFlight, Released};
use self::outbound_streams::{OutboundStreams, fragments_of, sole_fragment};
use self::refusal::SenderRefusal;
use bytes::Bytes;
use sctp_data::chunk::chunk_payload_data::{
    ChunkPayloadData, PayloadProtocolIdentifier, ReliabilityType,
};
use sctp_data::chunk::chunk_selective_ack::ChunkSelectiveAck;
use sctp_outbound::outbound_queue::OutboundQueue;
use sctp_serial::turns::Turns;
use sctp_stream::outbound_stream::OutboundStream;
use std::alloc::Global;
use std::collections::VecDeque;
use std::marker::Model;

/// A message that expired.
#[derive(Clone, Copy, Debug, PartialEq, Eq)]
pub struct ExpiredMessage {
    /// Its stream.
    pub stream: u16,
    /// How many bytes it had.
    pub bytes: usize,
    /// Whether with them the buffered amount of its stream fell from above the low threshold to at most it.
    pub is_low: bool,
}

/// Messages of one stream that expired, one after another.
#[derive(Clone, Copy, Debug, PartialEq, Eq)]
pub struct ExpiredMessages {
    /// Their stream.
    pub stream: u16,
    /// Whether they were unordered, or all ordered.
    pub unordered: bool,
    /// How many they are.
    pub messages: u16,
    /// How many bytes they had.
    pub bytes: usize,
    /// Whether with them the buffered amount of their stream fell from above the low threshold to at most it.
    pub is_low: bool,
}

/// Messages that were dropped.
#[derive(Drop)]
pub enum Dropped {
    /// They were unsent, and nothing of them is told to the peer (RFC 3758 4.1).
    Expired(ExpiredMessages),
    /// Some of each was sent: `Sender::forward_tsn` gives what the peer is to be sent (RFC 3758 3.5).
    Abandoned(Vec<AbandonedMessage>),
}

/// What a SACK does.
#[derive(Drop)]
pub struct Acked {
    /// The chunks that it reports anew, each with its stream and its bytes: each stream has so much less, and where its amount so fell to
    /// its low threshold one chunk says that.
    pub released: Vec<Released>,
    /// The chunks that it no longer reports (RFC 4960 6.2.1 D iv), in order of TSNs: each is outstanding again, and its stream had so
    /// much more before the others left. None of an abandoned message, none past the last block, if there is one: a SACK may be cut
    /// (6.7). None where the sender keeps nothing.
    pub taken_back: Vec<TakenBack>,
}

/// What becomes of the user data of a chunk that a gap ack block reports (RFC 4960 6.2.1 D iv).
#[derive(Clone, Copy, Debug, PartialEq, Eq)]
pub enum Reported {
    /// It goes with the report: the chunk can't be sent again.
    Drop,
    /// It is kept, shared, until the cumulative TSN passes the chunk: a SACK that no longer reports the chunk gives it back.
    Keep,
}

/// The sending half of a link: what was written and is not yet acknowledged. It takes every SACK that a peer may send.
///
/// It keeps the open streams, what waits and what is in flight. Of a message that was acknowledged or abandoned, and whose
/// TSNs the cumulative one passed, nothing is kept but the counters.
#[derive(Drop)]
pub struct Sender {
    alloc: Global,
    fragment_size: u32,
    max_message_size: u32,
    streams: OutboundStreams,
    flight: InFlight,
    kept: Option<Kept>,
}

impl Model for Sender {
    ghost use Rattle.std.specs.Prelude.{◌<◌, ◌≤◌, option_map};
    ghost use Rattle.sctp_sender.specs.Keeping.{AreReported, IsCovered};
    ghost use Rattle.sctp_sender.specs.Sender.{Transmission};
    ghost use Rattle.sctp_sender.specs.Totals.{IsAllSettled};

    ghost Value = { Transmission };

    ghost view = { λ s. record {
      streams = s.streams;
      flight = s.flight;
      fragment_size = s.fragment_size;
      max_message_size = s.max_message_size;
      kept = option_map (λ k. k.user_data.items) s.kept;
    } };

    ghost invariant = { λ s. (0 < s.fragment_size) × (s.fragment_size ≤ 65519)
        × IsAllSettled s.flight.queue × IsCovered s.kept s.flight
        × AreReported s.kept s.flight };
}

impl Sender {
    ghost use Rattle.sctp_data.specs.SelectiveAck.{sack_of};
    ghost use Rattle.sctp_outbound.specs.outbound_queue.OutboundQueue.{all_started, as_sent, AreExpiredOf, expiring, stream_and_kind, total_bytes};
    ghost use Rattle.sctp_stream.specs.declared.outbound_stream.OutboundStream.{OutboundStream};
    ghost use Rattle.sctp_outbound.specs.pending_queue.PendingQueue.{next_pending};
    ghost use Rattle.sctp_serial.specs.DataChunks.{has_tsn};
    ghost use Rattle.sctp_serial.specs.Window.{is_held};
    ghost use Rattle.sctp_sender.specs.Flight.{with_queue, with_room, resent, message_to_abandon, has_tail_at};
    ghost use Rattle.sctp_sender.specs.Abandonment.{abandon_refusal};
    ghost use Rattle.sctp_sender.specs.Calls.{Acknowledges, Acks, AcksInFlight, CountsAcked, CountsSack, Expires, ExpiresTail, SendsTsn};
    ghost use Rattle.sctp_sender.specs.Numbers.{refusal_of, send_refusal, tsn_refusal};
    ghost use Rattle.sctp_sender.specs.Outgoing.{fragments_with_mode};
    ghost use Rattle.sctp_sender.specs.Sender.{with_nothing, with_reported, stream_of, is_open, open_stream, close_stream, with_mode_on, with_flight, write_refusal, written_to, after_send, after_abandon, after_expire_run};
    ghost use Rattle.sctp_sender.specs.Thresholds.{fell};

    /// A sender with no stream, whose first chunk gets the first TSN. It takes no memory.
    /// Precondition: `fragment_size` is 1 to 65,519.
    pub fn new(
        alloc: Global,
        first_tsn: u32,
        fragment_size: u32,
        max_message_size: u32,
        reported: Reported,
    ) -> Self
        requires some { 0 < fragment_size }
        requires short { fragment_size ≤ 65519 }
        ensures { result ≡ with_reported reported
            (with_nothing first_tsn fragment_size max_message_size) }
    {
        let kept = match reported {
            Reported::Drop => None,
            Reported::Keep => Some(Kept {
                user_data: VecDeque::new(alloc),
                reported: Vec::new(alloc),
            }),
        };
        Sender {
            alloc,
            fragment_size,
            max_message_size,
            streams: OutboundStreams::new(alloc),
            flight: InFlight::new(alloc, first_tsn),
            kept,
        }
    }

    /// Opens a stream, ordered and reliable. Refuses with `StreamOpen`, where it is open, and else only for memory.
    /// The sender is as it was then.
    pub fn open(&mut self, stream: u16) -> Result<(), SenderRefusal>
        ensures ok { OnOk result (self.new ≡ open_stream stream self.old) }
        ensures accepted { IsOk result → is_open stream self.old ≡ false }
        ensures refused { IfErr result (λ e. e
            ≡ (if is_open stream self.old then StreamOpen else OutOfMemory)) }
        ensures err { OnErr result (self.new ≡ self.old) }
    {
        if self.streams.place_of(stream).is_some() {
            return Err(SenderRefusal::StreamOpen);
        }
        self.streams.open(stream, self.fragment_size)
    }

    /// Closes a stream, where it is open: its state, its amount and its counters go. What waits and is in flight of it stays, and
    /// goes on as before. Other streams do not move, but the last one takes its place. Where it is not open nothing changes. It takes no
    /// memory.
    /// Open it again only once `outbound().contains_stream` is false: what then leaves would else lower the new amount.
    pub fn close(&mut self, stream: u16)
        ensures { self.new ≡ close_stream stream self.old }
    {
        self.streams.close(stream);
    }

    /// Sets the mode of later writes to a stream; a DCEP message is ordered in any mode (RFC 8832 6). `value` counts the sendings of a
    /// chunk after the first (`Rexmit`), or is a lifetime in milliseconds (`Timed`), or means nothing (`Reliable`). Refuses with
    /// `StreamUnknown`, where the stream is not open. It takes no memory.
    pub fn set_mode(
        &mut self,
        stream: u16,
        unordered: bool,
        reliability: ReliabilityType,
        value: u32,
    ) -> Result<(), SenderRefusal>
        ensures ok { OnOk result (self.new
            ≡ with_mode_on stream unordered reliability value self.old) }
        ensures accepted { IsOk result → is_open stream self.old ≡ true }
        ensures refused { IfErr result (λ e. (e ≡ StreamUnknown)
            × (is_open stream self.old ≡ false)) }
        ensures err { OnErr result (self.new ≡ self.old) }
    {
        let Some(_) = self.streams.find(stream) else {
            return Err(SenderRefusal::StreamUnknown);
        };
        self.streams
            .set_mode(stream, (unordered, reliability, value));
        Ok(())
    }

    /// Starts the lifetimes of the messages written since the last time; `now` is in nanoseconds. It takes no memory.
    pub(crate) fn start(&mut self, now: u64)
        ensures { self.new ≡ with_flight
            (with_queue self.old.flight (all_started now self.old.flight.queue)) self.old }
    {
        self.flight.start(now);
    }

    /// Takes a write: its fragments wait, each with the mode of the stream, but a DCEP message is ordered in any mode (RFC 8832
    /// 6). Answers the number of its message and how many fragments it has; a write of no bytes has none, and changes nothing.
    /// The refusals, in the order in which they are looked for: `StreamUnknown`, `MessageTooLarge`, `QueueFull`, `OutOfMemory`.
    /// The sender is as it was then.
    pub fn write(
        &mut self,
        stream: u16,
        ppi: PayloadProtocolIdentifier,
        bytes: &Bytes,
    ) -> Result<(Option<u64>, usize), SenderRefusal>
        ensures empty { length bytes.now ≡ 0 → OnOk result (self.new ≡ self.old) }
        ensures ok { 0 < length bytes.now
            → OnOk result ((l : OutboundStream) → stream_of stream self.old ≡ Some l
            → self.new ≡ written_to l stream ppi bytes.now self.old) }
        ensures number { IfOk result (λ r. r.0 ≡ (if length bytes.now == 0 then None
            else Some self.old.flight.queue.next_message_id)) }
        ensures count { IfOk result (λ r. (l : OutboundStream) → stream_of stream self.old ≡ Some l
            → 0 < length bytes.now → r.1 ≡ length (fragments_with_mode l ppi bytes.now)) }
        ensures none { length bytes.now ≡ 0 → IfOk result (λ r. r.1 ≡ 0) }
        ensures bytes { OnOk result (total_bytes self.new.flight.queue
            ≡ total_bytes self.old.flight.queue + length bytes.now) }
        ensures idle { length bytes.now ≡ 0 → write_refusal stream 0 self.old ≡ None → IsOk result }
        ensures accepted { IsOk result → write_refusal stream (length bytes.now) self.old ≡ None }
        ensures refused { IfErr result
            (λ e. ((e ≡ OutOfMemory) × (write_refusal stream (length bytes.now) self.old ≡ None))
            ⊎ (write_refusal stream (length bytes.now) self.old ≡ Some e)) }
        ensures err { OnErr result (self.new ≡ self.old) }
    {
        let Some(state) = self.streams.find(stream) else {
            return Err(SenderRefusal::StreamUnknown);
        };
        let len = bytes.len();
        if len > self.max_message_size as usize {
            return Err(SenderRefusal::MessageTooLarge);
        }
        if is_full(self.flight.queue(), len) {
            return Err(SenderRefusal::QueueFull);
        }
        if len == 0 {
            return Ok((None, 0));
        }
        let number = self.flight.queue().next_message_id();
        let count = push_cut(&mut self.flight, self.alloc, state, ppi, bytes)?;
        self.streams.wrote(stream, ppi, len);
        Ok((Some(number), count))
    }

    /// Sends the fragment that is next: gives it the next TSN, puts it in flight, and answers the DATA chunk as it is noted there,
    /// sent once at `now`, in nanoseconds; None where nothing waits. Lifetimes start. Refuses, only where something waits, in this
    /// order: with `TsnsUsedUp`; with `SsnsUsedUp`: it waits on, and all ordered ones behind it; for memory. The sender is as it was
    /// then, no lifetime starts.
    #[tactic(auto, using(crate::proofs::Sent::unrefused))]
    pub fn send_next(&mut self, now: u64) -> Result<Option<ChunkPayloadData>, SenderRefusal>
        ensures answer { IfOk result (λ sent. sent
            ≡ option_map (as_sent self.old.flight.next_tsn now)
            (next_pending (all_started now self.old.flight.queue).pending)) }
        ensures noted { IfOk result (λ sent. IfSome sent
            (λ c. find (has_tsn self.old.flight.next_tsn) self.new.flight.queue.inflight.chunks
            ≡ Some c)) }
        ensures nothing { next_pending self.old.flight.queue.pending ≡ None
            → IfOk result (λ sent. sent ≡ None) }
        ensures ok { OnOk result (self.new ≡ after_send now self.old) }
        ensures bytes { OnOk result (total_bytes self.new.flight.queue
            ≡ total_bytes self.old.flight.queue) }
        ensures accepted { IsOk result → send_refusal self.old.flight ≡ None }
        ensures refused { IfErr result
            (λ e. ((e ≡ OutOfMemory) × (send_refusal self.old.flight ≡ None))
            ⊎ (send_refusal self.old.flight ≡ Some e)) }
        ensures idle { next_pending self.old.flight.queue.pending ≡ None → IsOk result }
        ensures err { OnErr result (self.new ≡ self.old) }
    {
        let Some(mut chunk) = self.copy_next()? else {
            self.send_next_tsn_unbounded(now)?;
            return Ok(None);
        };
        let tsn = self.flight.next_tsn();
        self.send_next_tsn_unbounded(now)?;
        let Some(noted) = self.flight.get(tsn) else {
            unreachable!()
        };
        chunk.tsn = tsn;
        chunk.since = noted.since;
        chunk.nsent = noted.nsent;
        chunk.deadline = noted.deadline;
        Ok(Some(chunk))
    }

    // Whether the fragment that is next may be sent.
    fn test_next(&self) -> Result<(), SenderRefusal>
        ensures accepted { OnOk result (send_refusal self.now.flight ≡ None) }
        ensures refused { IfErr result (λ e. send_refusal self.now.flight ≡ Some e) }
    {
        match self.flight.queue().peek_pending() {
            Some(chunk) => self.test(chunk),
            None => Ok(()),
        }
    }

    // Whether a fragment may be sent.
    #[inline(always)]
    fn test(&self, chunk: &ChunkPayloadData) -> Result<(), SenderRefusal>
        ensures accepted { OnOk result (refusal_of (Some chunk.now) self.now.flight ≡ None) }
        ensures refused { IfErr result
            (λ e. refusal_of (Some chunk.now) self.now.flight ≡ Some e) }
    {
        if !self.flight.may_send() {
            return Err(SenderRefusal::TsnsUsedUp);
        }
        if self.flight.is_too_far(chunk) {
            return Err(SenderRefusal::SsnsUsedUp);
        }
        Ok(())
    }

    // A copy of the fragment that is next, if it may be sent; None where nothing waits.
    #[inline(always)]
    fn copy_next(&self) -> Result<Option<ChunkPayloadData>, SenderRefusal>
        ensures ok { IfOk result (λ copied. copied
            ≡ next_pending self.now.flight.queue.pending) }
        ensures accepted { OnOk result (send_refusal self.now.flight ≡ None) }
        ensures refused { IfErr result
            (λ e. ((e ≡ OutOfMemory) × (send_refusal self.now.flight ≡ None))
            ⊎ (send_refusal self.now.flight ≡ Some e)) }
        ensures idle { next_pending self.now.flight.queue.pending ≡ None → IsOk result }
    {
        let Some(waiting) = self.flight.queue().peek_pending() else {
            return Ok(None);
        };
        self.test(waiting)?;
        Ok(Some(waiting.try_clone()?))
    }

    /// From here on so many sends and terminal chunks together take no memory in flight: `replay::send_next_tsn` and `abandon` take
    /// none then, `send_next` what a copy of the chunk wants, `drop_expired` what its answer wants. Refuses only for memory, and the
    /// sender is as it was then.
    pub fn reserve(&mut self, sends: usize) -> Result<(), SenderRefusal>
        ensures ok { OnOk result (self.new
            ≡ with_flight (with_queue self.old.flight
            (with_room sends self.old.flight.queue)) self.old) }
        ensures memory { IfErr result (λ e. e ≡ OutOfMemory) }
        ensures succeeds { sends ≤ self.old.flight.queue.inflight.room → IsOk result }
        ensures err { OnErr result (self.new ≡ self.old) }
    {
        self.flight.reserve_inflight(sends)
    }

    /// As `send_next`, but answers the TSN alone: `outbound().get` lends the chunk. So within the room of `reserve` it takes
    /// no memory; `send_next` takes what a copy of the chunk wants.
    #[tactic(auto, using(crate::proofs::Sent::unrefused))]
    pub(crate) fn send_next_tsn(&mut self, now: u64) -> Result<Option<u32>, SenderRefusal>
        ensures { SendsTsn (send_refusal self.old.flight) now self.old self.new result }
    {
        self.test_next()?;
        self.send_next_tsn_unbounded(now)
    }

    /// As `send_next_tsn`, however far the numbers of ordered messages go: for a caller that sees to it that its receiver can still tell
    /// them apart. Refuses, only where something waits, with `TsnsUsedUp`, where 2^31 - 1 chunks are in flight, and for memory, but not
    /// within the room of `reserve`. The sender is as it was then.
    #[inline(always)]
    pub(crate) fn send_next_tsn_unbounded(&mut self, now: u64) -> Result<Option<u32>, SenderRefusal>
        ensures { SendsTsn (tsn_refusal self.old.flight) now self.old self.new result }
    {
        self.flight.queue().are_whole();
        let Some(_) = self.flight.queue().peek_pending() else {
            self.flight.start(now);
            return Ok(None);
        };
        if !self.flight.may_send() {
            return Err(SenderRefusal::TsnsUsedUp);
        }
        let sent = self.flight.send_next(now)?;
        Ok(sent)
    }

    /// Abandons the message of a chunk in flight (RFC 3758 3.5), and answers it with the bytes that left: none where it was abandoned
    /// before. Refuses with `NotInFlight`; and, only where some of the message waits, so that a terminal chunk goes in flight, with
    /// `TsnsUsedUp`, and for memory, though not within the room of `reserve`. The sender is as it was then.
    pub fn abandon(&mut self, tsn: u32) -> Result<AbandonedMessage, SenderRefusal>
        ensures ok { IfOk result (λ r. self.new
            ≡ after_abandon (message_to_abandon tsn self.old.flight) r.stream r.bytes
            self.old) }
        ensures stream { IfOk result (λ r. Some r.stream ≡ option_map
            (λ c. c.stream_identifier) (find (has_tsn tsn) self.old.flight.queue.inflight.chunks)) }
        ensures number { IfOk result (λ r. Some r.number ≡ option_map
            (λ c. c.message_id) (find (has_tsn tsn) self.old.flight.queue.inflight.chunks)) }
        ensures released { IfOk result (λ r. total_bytes self.new.flight.queue + r.bytes
            ≡ total_bytes self.old.flight.queue) }
        ensures low { IfOk result (λ r. r.is_low ≡ fell r.stream self.old self.new) }
        ensures accepted { IsOk result → abandon_refusal tsn self.old.flight ≡ None }
        ensures refused { IfErr result (λ e.
            ((e ≡ OutOfMemory) × (abandon_refusal tsn self.old.flight ≡ None))
            ⊎ (abandon_refusal tsn self.old.flight ≡ Some e)) }
        ensures no_tail { is_held self.old.flight.queue.inflight.chunks tsn ≡ true
            → has_tail_at self.old.flight tsn ≡ false
            → IsOk result }
        ensures succeeds { 0 < self.old.flight.queue.inflight.room
            → abandon_refusal tsn self.old.flight ≡ None → IsOk result }
        ensures err { OnErr result (self.new ≡ self.old) }
    {
        let Some(chunk) = self.flight.queue().get(tsn) else {
            return Err(SenderRefusal::NotInFlight);
        };
        let number = chunk.message_id;
        if self.flight.has_tail_at(tsn) && !self.flight.may_send() {
            return Err(SenderRefusal::TsnsUsedUp);
        }
        let Some((stream, bytes)) = self.flight.abandon(tsn)? else {
            unreachable!()
        };
        let is_low = self.streams.release(stream, bytes);
        Ok(AbandonedMessage {
            stream,
            number,
            bytes,
            is_low,
        })
    }

    /// Removes the message in front, where it is past its deadline and wholly unsent, and answers it (RFC 3758 4.1). `now` is in
    /// nanoseconds. It takes no memory.
    pub(crate) fn expire(&mut self, now: u64) -> Option<ExpiredMessage>
        ensures { Expires now self.old self.new result }
    {
        let (stream, unordered, bytes) = self.flight.expire(now)?;
        let is_low = self.streams.expire(stream, unordered, 1, bytes);
        Some(ExpiredMessage {
            stream,
            bytes,
            is_low,
        })
    }

    /// As `expire` so often as it removes messages of one stream, all ordered or all unordered, but at most 65,535 times, and answers
    /// them together (RFC 3758 4.1). It looks at these messages, and where they are ordered once at all that waits in order. `now` is
    /// in nanoseconds. It takes no memory.
    pub(crate) fn expire_run(&mut self, now: u64) -> Option<ExpiredMessages>
        ensures some { IfSome result (λ r. self.new
            ≡ after_expire_run r.stream r.unordered r.messages r.bytes now self.old) }
        ensures of_one { IfSome result (λ r.
            AreExpiredOf r.stream r.unordered now r.messages self.old.flight.queue) }
        ensures any { IfSome result (λ r. 0 < r.messages) }
        // none of them is left in front, but where the count is at its greatest
        ensures all { IfSome result (λ r. r.messages + 1 < 2 ^ 16
            → stream_and_kind (expiring now self.new.flight.queue) ≢ Some (r.stream, r.unordered)) }
        ensures none { IfNone result ((expiring now self.old.flight.queue ≡ None)
            × (self.new ≡ self.old)) }
        ensures released { IfSome result (λ r. total_bytes self.new.flight.queue + r.bytes
            ≡ total_bytes self.old.flight.queue) }
        ensures low { IfSome result (λ r. r.is_low ≡ fell r.stream self.old self.new) }
    {
        let gone = self.flight.expire_run(now)?;
        let is_low = self.streams.expire(
            gone.stream_identifier,
            gone.unordered,
            gone.messages,
            gone.bytes,
        );
        Some(ExpiredMessages {
            stream: gone.stream_identifier,
            unordered: gone.unordered,
            messages: gone.messages,
            bytes: gone.bytes,
            is_low,
        })
    }

    /// Abandons the rest of the partially sent message in front, where it is past its deadline, and answers the message with the
    /// bytes that left. `now` is in nanoseconds. Refuses, only where there is such a message, with `TsnsUsedUp`, where 2^31 - 1
    /// chunks are in flight, and for memory, though not within the room of `reserve`. The sender is as it was then.
    pub(crate) fn expire_tail(
        &mut self,
        now: u64,
    ) -> Result<Option<AbandonedMessage>, SenderRefusal>
        ensures { ExpiresTail now self.old self.new result }
    {
        if self.flight.queue().is_tail_expired(now) && !self.flight.may_send() {
            return Err(SenderRefusal::TsnsUsedUp);
        }
        let Some((stream, number, bytes)) = self.flight.expire_tail(now)? else {
            return Ok(None);
        };
        let is_low = self.streams.release(stream, bytes);
        Ok(Some(AbandonedMessage {
            stream,
            number,
            bytes,
            is_low,
        }))
    }

    /// Counts one more sending of the chunk in flight with a TSN, up to the greatest u32; none is counted where the TSN is not in
    /// flight. It takes no memory.
    pub(crate) fn count_resend(&mut self, tsn: u32)
        ensures counted { (c : ChunkPayloadData)
            → find (has_tsn tsn) self.old.flight.queue.inflight.chunks ≡ Some c
            → self.new ≡ with_flight (resent tsn c self.old.flight) self.old }
        ensures none { find (has_tsn tsn) self.old.flight.queue.inflight.chunks ≡ None
            → self.new ≡ self.old }
    {
        self.flight.count_resend(tsn);
    }

    /// Takes a SACK, whatever a peer claims (RFC 4960 6.2.1): answers what it reports anew, with all bytes that leave, and what comes
    /// back (`Reported`). One that is out of date changes nothing. Refuses with `InflightQueueTsnPop` or `TsnRequestNotExist`; for memory;
    /// with `QueueFull`, where with what comes back all bytes exceed a usize. All is as it was then.
    pub fn acked(&mut self, sack: &ChunkSelectiveAck) -> Result<Acked, SenderRefusal>
        ensures { Acknowledges (sack_of sack.now) self.old self.new result }
    {
        self.acked_counted(sack, &mut Turns::new())
    }

    /// The same, and its turns are added: at most `sack_turns`, as `InFlight::acked_counted` says, and where the sender keeps what is
    /// reported at most `take_back_turns` and `keeping_turns` more; none where the SACK is out of date, and at most one for each block
    /// where it is refused for what it claims. The amounts of the streams take one for each chunk that comes back.
    pub(crate) fn acked_counted(
        &mut self,
        sack: &ChunkSelectiveAck,
        turns: &mut Turns,
    ) -> Result<Acked, SenderRefusal>
        ensures acks { Acknowledges (sack_of sack.now) self.old self.new result }
        ensures turns { CountsSack (sack_of sack.now) self.old turns.old turns.new }
    {
        if self.kept.is_some() {
            return self.acked_keeping(sack, turns);
        }
        let mut released = self.acked_dropping(sack, turns)?;
        release_each(&mut self.streams, &mut released);
        Ok(Acked {
            released,
            taken_back: Vec::new(self.alloc),
        })
    }

    // What `acked` does of what is in flight, where nothing is kept: it makes no list but the answer. The streams stay as they are.
    #[inline(always)]
    fn acked_dropping(
        &mut self,
        sack: &ChunkSelectiveAck,
        turns: &mut Turns,
    ) -> Result<Vec<Released>, SenderRefusal>
        requires { self.old.kept ≡ None }
        ensures acks { AcksInFlight (sack_of sack.now) self.old self.new result }
        ensures turns { CountsAcked (sack_of sack.now) self.old turns.old turns.new }
    {
        let gone = self.flight.acked_counted(self.alloc, sack, turns)?;
        Ok(gone)
    }

    /// Takes a SACK by which nothing comes back, whatever it does not report. It does what `acked` does of a sender that keeps nothing.
    pub(crate) fn acked_alone(
        &mut self,
        sack: &ChunkSelectiveAck,
    ) -> Result<Vec<Released>, SenderRefusal>
        ensures { Acks (sack_of sack.now) self.old self.new result }
    {
        let mut released = self.acked_in_flight_counted(sack, &mut Turns::new())?;
        release_each(&mut self.streams, &mut released);
        Ok(released)
    }

    // The same, but the streams stay as they are. Its turns are added: where the sender does not keep what is reported, at most
    // `sack_turns`, and where it does, at most `keeping_turns` more.
    fn acked_in_flight_counted(
        &mut self,
        sack: &ChunkSelectiveAck,
        turns: &mut Turns,
    ) -> Result<Vec<Released>, SenderRefusal>
        ensures acks { AcksInFlight (sack_of sack.now) self.old self.new result }
        ensures turns { CountsAcked (sack_of sack.now) self.old turns.old turns.new }
    {
        let anew = self.anew_by(sack, turns)?;
        make_room(&mut self.kept, &anew, turns)?;
        let released = self.flight.acked_counted(self.alloc, sack, turns)?;
        keep_anew(&mut self.kept, anew, turns);
        Ok(released)
    }

    /// The TSN that the next chunk gets (RFC 4960 6.1).
    pub fn next_tsn(&self) -> u32
        ensures { result ≡ self.now.flight.next_tsn }
    {
        self.flight.next_tsn()
    }

    /// How many bytes a fragment has at most: 1 to 65,519.
    pub(crate) fn fragment_size(&self) -> u32
        ensures value { result ≡ self.now.fragment_size }
        ensures some { 0 < result }
        ensures short { result ≤ 65519 }
    {
        self.fragment_size
    }

    /// How many bytes a message has at most.
    pub(crate) fn max_message_size(&self) -> u32
        ensures { result ≡ self.now.max_message_size }
    {
        self.max_message_size
    }

    /// The TSN up to which all was acknowledged (RFC 4960 6.2.1).
    pub fn acked_tsn(&self) -> u32
        ensures { result ≡ self.now.flight.acked_tsn }
    {
        self.flight.acked_tsn()
    }

    /// The chunk in flight at a place, lent: the first has the place 0, and the TSN past `acked_tsn`. None where there are no more.
    pub(crate) fn in_flight_at(&self, place: usize) -> Option<&ChunkPayloadData>
        ensures { option_copied result ≡ slice_get self.now.flight.queue.inflight.chunks place }
    {
        self.flight.at(place)
    }

    /// What waits and what is in flight.
    pub fn outbound(&self) -> &OutboundQueue
        ensures { result.now ≡ self.now.flight.queue }
    {
        self.flight.queue()
    }

    /// The state of a stream: its mode, its number for the next ordered message, its amount and its counters; None where it is
    /// not open.
    pub fn stream(&self, stream: u16) -> Option<&OutboundStream>
        ensures { option_copied result ≡ stream_of stream self.now }
    {
        self.streams.find(stream)
    }
}

// Whether a message of so many bytes can't wait.
fn is_full(queue: &OutboundQueue, len: usize) -> bool
    ensures { result ≡ is_full_of len queue.now }
{
    if queue.next_message_id() == u64::MAX {
        return true;
    }
    match queue.pending_bytes().checked_add(queue.inflight_bytes()) {
        Some(held) => held.checked_add(len).is_none(),
        None => true,
    }
}

// Cuts a write into its fragments, and puts them behind those that wait. Answers how many they are. A message of one fragment takes no list.
fn push_cut(
    flight: &mut InFlight,
    alloc: Global,
    state: &OutboundStream,
    ppi: PayloadProtocolIdentifier,
    bytes: &Bytes,
) -> Result<usize, SenderRefusal>
    requires some { 0 < length bytes.now }
    requires number { flight.old.queue.next_message_id + 1 < 2 ^ 64 }
    requires bytes { total_bytes flight.old.queue + length bytes.now < 2 ^ 64 }
    ensures ok { OnOk result (flight.new ≡ with_queue flight.old
        (with_message (fragments_with_mode state.now ppi bytes.now) flight.old.queue)) }
    ensures count { IfOk result (λ n. n ≡ length (fragments_with_mode state.now ppi bytes.now)) }
    ensures bytes { OnOk result (total_bytes flight.new.queue
        ≡ total_bytes flight.old.queue + length bytes.now) }
    ensures err { OnErr result (flight.new ≡ flight.old) }
    ensures memory { IfErr result (λ e. e ≡ OutOfMemory) }
{
    let len = bytes.len();
    let size = state.max_payload_size() as usize;
    if len <= size {
        let chunk = sole_fragment(state, ppi, bytes)?;
        flight.push_sole(chunk)?;
        return Ok(1);
    }
    let chunks = fragments_of(alloc, state, ppi, bytes)?;
    let count = chunks.len();
    flight.push(chunks)?;
    Ok(count)
}

// Takes off each stream what left of it, and notes with which chunks its amount fell to its low threshold.
fn release_each(streams: &mut OutboundStreams, gone: &mut Vec<Released>)
    ensures less { streams.new ≡ after_releases gone.old.items streams.old }
    ensures lows { gone.new.items ≡ with_lows gone.old.items streams.old }
{
    for one in gone.iter_mut() {
        one.is_low = streams.release(one.stream, one.bytes);
    }
}
