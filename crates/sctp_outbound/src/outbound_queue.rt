//! What waits to be sent and what is in flight.

ghost use Rattle.std.specs.Prelude.{◌≡◌, ◌==◌, ℕ, Bool, ◌⊎◌, ◌+◌, ◌^◌, ◌<◌, ◌≤◌, ◌||◌, [], ◌∷◌, length, map, max, false, true, OnOk, OnErr, OnSome, IfOk, IfSome, IsOk, IsOkUnless, IsSome, IsTrue, find, is_some, unwrap_or, option_copied, Some, slice_get, slice_index_or, slice_set, if◌then◌else◌};
ghost use Rattle.std.specs.Option.{option_map};
ghost use Rattle.std.specs.List.{list_any};
ghost use Rattle.sctp_data.specs.Reliability.{is_past};
ghost use Rattle.sctp_data.specs.declared.chunk.chunk_payload_data.ChunkPayloadData.{ChunkPayloadData};
ghost use Rattle.sctp_util.specs.declared.error.Error.TheVariants.{ErrOutOfMemory};
ghost use Rattle.sctp_util.specs.Lists.{change_where};
ghost use Rattle.sctp_outbound.specs.Marks.{IsBetween, is_of, is_outstanding};
ghost use Rattle.sctp_outbound.specs.Outstanding.{outstanding_of};
ghost use Rattle.sctp_outbound.specs.pending_queue.PendingQueue as pending;
ghost use Rattle.sctp_outbound.specs.pending_queue.Whole.{GoesOn, IsMessageOrNone, partially_sent, waits};
ghost use Rattle.sctp_serial.specs.Window.{SpansOneWindow, is_held};
ghost use Rattle.sctp_serial.specs.DataChunks.{has_tsn, bytes_of, following_tsn, is_on};
ghost use Rattle.sctp_outbound.specs.outbound_queue.OutboundQueue.{is_expired, is_expired_tail, is_late, released_of, expired_bytes, tail_bytes};

mod expiry;
mod message;
mod waiting;

pub use self::expiry::ExpiredRun;
use self::message::{is_message_or_none, is_room_for};
use crate::payload_queue::outstanding::Outstanding;
use crate::payload_queue::{PayloadQueue, is_outstanding};
use crate::pending_queue::PendingQueue;
use bytes::Bytes;
use sctp_data::chunk::chunk_payload_data::ChunkPayloadData;
use sctp_serial::turns::Turns;
use sctp_util::error::Result;
use std::alloc::Global;
use std::marker::Model;

/// Messages that wait, and their chunks in flight. A number that all fragments of a message share finds them in
/// both when the message is abandoned. Moments are in nanoseconds, from any beginning that the caller keeps to.
#[derive(Drop)]
pub struct OutboundQueue {
    pending: PendingQueue,
    inflight: PayloadQueue,
    next_message_id: u64,
    next_unstarted_message_id: u64,
}

impl Model for OutboundQueue {
    ghost use Rattle.std.specs.Prelude.{◌+◌, ◌^◌, ◌<◌};
    ghost use Rattle.sctp_outbound.specs.outbound_queue.OutboundQueue.{Outbound};
    ghost use Rattle.sctp_outbound.specs.pending_queue.PendingQueue.{total_bytes};
    ghost use Rattle.sctp_outbound.specs.pending_queue.Whole.{IsSendable};
    ghost use Rattle.sctp_serial.specs.DataChunks.{bytes_of};

    ghost Value = { Outbound };

    ghost view = { λ q. record {
      pending = q.pending;
      inflight = q.inflight;
      next_message_id = q.next_message_id;
      next_unstarted = q.next_unstarted_message_id;
    } };

    ghost invariant = { λ q.
        record {
          sendable : IsSendable q.pending q.inflight.chunks q.next_message_id;
          fits : total_bytes q.pending + bytes_of q.inflight.chunks < 2 ^ 64;
        } };
}

impl OutboundQueue {
    ghost use Rattle.sctp_outbound.specs.Marks.{as_acknowledged, as_taken_back, with_retransmit, with_nsent, with_since, with_miss_indicator};
    ghost use Rattle.sctp_outbound.specs.outbound_queue.OutboundQueue.{Outbound, new_outbound, total_bytes, with_inflight, with_message, has_room, all_started, sent_peeked, sent_next, abandon_chunks, tsn_after, to_abandon, abandoned_of, tsn_after_of, has_tail, expiring, expired_of, expiring_tail, message_of, late_tsns, after_sends};
    ghost use Rattle.sctp_outbound.specs.payload_queue.PayloadQueue.{front_with, without_front};

    /// A queue of nothing, whose first message gets the number 0. It takes no memory.
    pub fn new(alloc: Global) -> Self
        ensures { result ≡ new_outbound }
    {
        OutboundQueue {
            pending: PendingQueue::new(alloc),
            inflight: PayloadQueue::new(alloc),
            next_message_id: 0,
            next_unstarted_message_id: 0,
        }
    }

    /// The number that the next message gets: how many were pushed.
    pub fn next_message_id(&self) -> u64
        ensures { result ≡ self.now.next_message_id }
    {
        self.next_message_id
    }

    /// Whether `push` may be called with these chunks: they are none or one complete message, all ordered or all unordered; the number
    /// of the next message is below the greatest u64; and all bytes, with theirs, are at most the greatest usize.
    #[inline(always)]
    pub fn can_push(&self, chunks: &[ChunkPayloadData]) -> bool
        ensures message { result ≡ true → IsMessageOrNone chunks.now }
        ensures number { result ≡ true → self.now.next_message_id + 1 < 2 ^ 64 }
        ensures bytes { result ≡ true → total_bytes self.now + bytes_of chunks.now < 2 ^ 64 }
        ensures exact { IsMessageOrNone chunks.now → self.now.next_message_id + 1 < 2 ^ 64
            → total_bytes self.now + bytes_of chunks.now < 2 ^ 64 → result ≡ true }
    {
        let n_bytes = self.pending.get_num_bytes() + self.inflight.get_num_bytes();
        self.next_message_id < u64::MAX
            && is_room_for(n_bytes, chunks)
            && is_message_or_none(chunks)
    }

    /// Puts the fragments of a message behind those that wait, under the next number.
    /// An empty list changes nothing. Numbers are never used twice, so that one
    /// never stands for two messages that wait.
    /// Precondition: the list is empty, or one complete message, all ordered or all unordered; the number is
    /// below the greatest u64; and the bytes that wait and are in flight, with these, are fewer than 2^64. `can_push` tells.
    /// Refuses only for memory, and never within the room of `reserve`. The queue is as it was then.
    #[inline(always)]
    pub fn push(&mut self, chunks: Vec<ChunkPayloadData>) -> Result<()>
        requires message { IsMessageOrNone chunks.items }
        requires number { self.old.next_message_id + 1 < 2 ^ 64 }
        requires bytes { total_bytes self.old + bytes_of chunks.items < 2 ^ 64 }
        ensures ok { OnOk result (self.new ≡ with_message chunks.items self.old) }
        ensures err { OnErr result (self.new ≡ self.old) }
        ensures memory { IsOkUnless result ErrOutOfMemory }
        ensures succeeds { IsTrue (has_room chunks.items self.old) → IsOk result }
    {
        let unordered = match chunks.first() {
            Some(chunk) => chunk.unordered,
            None => return Ok(()),
        };
        self.pending
            .push_message(chunks, unordered, self.next_message_id)?;
        self.next_message_id += 1;
        Ok(())
    }

    /// As `push` of a list of this one chunk, without the list.
    /// Precondition: it is a complete message; the number is below the greatest u64; and the bytes that wait and are in flight, with its
    /// own, are fewer than 2^64.
    /// Refuses only for memory, and never within the room of `reserve`. The queue is as it was then.
    #[inline(always)]
    pub fn push_sole(&mut self, chunk: ChunkPayloadData) -> Result<()>
        requires message { IsMessageOrNone (chunk ∷ []) }
        requires number { self.old.next_message_id + 1 < 2 ^ 64 }
        requires bytes { total_bytes self.old + length chunk.user_data < 2 ^ 64 }
        ensures ok { OnOk result (self.new ≡ with_message (chunk ∷ []) self.old) }
        ensures err { OnErr result (self.new ≡ self.old) }
        ensures memory { IsOkUnless result ErrOutOfMemory }
        ensures succeeds { IsTrue (has_room (chunk ∷ []) self.old) → IsOk result }
    {
        let number = self.next_message_id;
        let mut chunk = chunk;
        chunk.message_id = number;
        self.pending.push(chunk)?;
        self.next_message_id = number + 1;
        Ok(())
    }

    /// Starts the lifetimes of the timed messages pushed since the last time: a chunk that has no deadline gets `now` plus the
    /// milliseconds of its reliability, in nanoseconds, or none where that passes the greatest u64. Messages that establish a channel
    /// never get one (RFC 8832 6). No message is started twice, nor later than at the first call of this or of `send_next` after its
    /// push, if that is not refused. It takes no memory.
    pub fn start_timed_messages(&mut self, now: u64)
        ensures { self.new ≡ all_started now self.old }
    {
        if self.next_unstarted_message_id == self.next_message_id {
            return;
        }
        self.pending
            .start_latest_messages(self.next_unstarted_message_id, now);
        self.next_unstarted_message_id = self.next_message_id;
    }

    /// The chunk that would be sent next: while a message is partially sent, its next fragment.
    pub fn peek_pending(&self) -> Option<&ChunkPayloadData>
        ensures value { option_copied result ≡ pending.next_pending self.now.pending }
        ensures goes_on { (m : ℕ)
            → partially_sent self.now.pending ≡ Some m
            → GoesOn m (pending.next_pending self.now.pending) }
    {
        self.pending.peek()
    }

    /// The chunk that a peek would give after so many sends, its deadline not yet started. None where no more chunks than that wait.
    pub fn peek_pending_at(&self, sends: usize) -> Option<&ChunkPayloadData>
        ensures { option_copied result ≡ pending.next_pending (after_sends sends self.now.pending) }
    {
        self.pending.peek_at(sends)
    }

    /// Whether `send_next`, `abandon` and `expire_pending_tail` may be called with this next TSN: it is not in flight, and there is a
    /// number after which it and all that are lie at distance 1 to 2^31.
    pub fn can_send(&self, next_tsn: u32) -> bool
        ensures fresh { result ≡ true → is_held self.now.inflight.chunks next_tsn ≡ false }
        ensures window { result ≡ true → SpansOneWindow self.now.inflight.chunks next_tsn }
        ensures exact { is_held self.now.inflight.chunks next_tsn ≡ false
            → SpansOneWindow self.now.inflight.chunks next_tsn → result ≡ true }
    {
        self.inflight.can_push_no_check(next_tsn)
    }

    /// Starts lifetimes and puts the peeked chunk in flight under `next_tsn`, which goes up by one.
    /// Its `since` is `now`, in nanoseconds, and its `nsent` is 1. Answers the TSN,
    /// or None with nothing pending; lifetimes start then too.
    /// Precondition: `next_tsn` is not in flight, and lies with all that is at distance 1 to 2^31 after some number;
    /// `can_send` tells. Refuses only for memory, and not where nothing is pending nor within the
    /// room of `reserve_inflight`. The queue and `next_tsn` are as they were then.
    pub fn send_next(&mut self, next_tsn: &mut u32, now: u64) -> Result<Option<u32>>
        requires fresh { is_held self.old.inflight.chunks next_tsn.old ≡ false }
        requires window { SpansOneWindow self.old.inflight.chunks next_tsn.old }
        ensures goes_on { (m : ℕ)
            → partially_sent self.old.pending ≡ Some m
            → GoesOn m (pending.next_pending self.old.pending) }
        ensures sent { IfOk result (λ sent. sent
            ≡ option_map (λ _. next_tsn.old) (pending.next_pending self.old.pending)) }
        ensures ok { OnOk result (self.new ≡ sent_next self.old next_tsn.old now) }
        ensures raised { OnOk result (next_tsn.new
            ≡ (if is_some (pending.next_pending self.old.pending)
            then following_tsn next_tsn.old else next_tsn.old)) }
        ensures err { OnErr result ((self.new ≡ self.old) × (next_tsn.new ≡ next_tsn.old)) }
        ensures memory { IsOkUnless result ErrOutOfMemory }
        ensures succeeds { 0 < self.old.inflight.room → IsOk result }
        ensures idle { pending.next_pending self.old.pending ≡ None → IsOk result }
    {
        let Some(_) = self.pending.peek() else {
            self.start_timed_messages(now);
            return Ok(None);
        };
        self.inflight.reserve(1)?;
        self.start_timed_messages(now);
        let tsn = *next_tsn;
        self.send_peeked(tsn, now);
        *next_tsn = tsn.wrapping_add(1);
        Ok(Some(tsn))
    }

    // Puts the peeked chunk in flight. There is one, and room for it.
    fn send_peeked(&mut self, tsn: u32, now: u64)
        requires some { IsSome (pending.next_pending self.old.pending) }
        requires room { 0 < self.old.inflight.room }
        requires fresh { is_held self.old.inflight.chunks tsn ≡ false }
        requires window { SpansOneWindow self.old.inflight.chunks tsn }
        ensures { self.new ≡ sent_peeked self.old tsn now }
    {
        let Some(chunk) = self.pending.peek() else {
            unreachable!()
        };
        let beginning_fragment = chunk.beginning_fragment;
        let unordered = chunk.unordered;
        let Some(mut chunk) = self.pending.pop(beginning_fragment, unordered) else {
            unreachable!()
        };
        chunk.tsn = tsn;
        chunk.since = Some(now);
        chunk.nsent = 1;
        match self.inflight.push_no_check(chunk) {
            Ok(()) => {}
            Err(_) => unreachable!(),
        }
    }

    /// Abandons the message of a chunk in flight: its chunks in flight are cleared and flagged, its
    /// unsent tail goes, and one terminal chunk in flight stands for the tail, an empty last fragment
    /// (RFC 3758 3.5). Answers the stream and the bytes that left, 0 where the message was abandoned
    /// before; None where the TSN is not in flight. The mark takes `next_tsn`, which goes up by one,
    /// so that a FORWARD-TSN has a TSN to go to even where every fragment that was sent arrived and
    /// only its acknowledgement was lost. One mark is enough: the tail's bytes never had TSNs.
    /// Precondition: as for `send_next`.
    /// Refuses only for memory, and not where the message has no tail nor within the
    /// room of `reserve_inflight`. The queue and `next_tsn` are as they were then.
    pub fn abandon(&mut self, tsn: u32, next_tsn: &mut u32) -> Result<Option<(u16, usize)>>
        requires fresh { is_held self.old.inflight.chunks next_tsn.old ≡ false }
        requires window { SpansOneWindow self.old.inflight.chunks next_tsn.old }
        ensures answer { IfOk result (λ r. option_map (λ a. a.0) r
            ≡ option_map (λ c. c.stream_identifier) (find (has_tsn tsn) self.old.inflight.chunks)) }
        ensures released { IfOk result (λ r. total_bytes self.new + released_of r
            ≡ total_bytes self.old) }
        ensures ok { OnOk result (self.new ≡ abandoned_of
            (to_abandon (find (has_tsn tsn) self.old.inflight.chunks)) next_tsn.old self.old) }
        ensures raised { OnOk result (next_tsn.new ≡ tsn_after_of
            (to_abandon (find (has_tsn tsn) self.old.inflight.chunks)) next_tsn.old self.old) }
        // the next TSN is the same while a message stays partially sent
        ensures partial { OnOk result ((next_tsn.new ≡ next_tsn.old)
            ⊎ (partially_sent self.new.pending ≡ None)) }
        ensures err { OnErr result ((self.new ≡ self.old) × (next_tsn.new ≡ next_tsn.old)) }
        ensures memory { IsOkUnless result ErrOutOfMemory }
        ensures succeeds { 0 < self.old.inflight.room → IsOk result }
        ensures no_tail { has_tail (to_abandon
            (find (has_tsn tsn) self.old.inflight.chunks)) self.old ≡ false → IsOk result }
    {
        let len = self.inflight.len();
        self.abandon_between(tsn, 0, len, next_tsn)
    }

    /// As `abandon`, and of what is in flight it looks only at the places from `start` on and before `end`, beside a search for the TSN.
    /// Precondition: as for `abandon`, and the chunks in flight of the TSN's message stand there.
    pub fn abandon_between(
        &mut self,
        tsn: u32,
        start: usize,
        end: usize,
        next_tsn: &mut u32,
    ) -> Result<Option<(u16, usize)>>
        requires fresh { is_held self.old.inflight.chunks next_tsn.old ≡ false }
        requires window { SpansOneWindow self.old.inflight.chunks next_tsn.old }
        requires between { (c : ChunkPayloadData)
            → find (has_tsn tsn) self.old.inflight.chunks ≡ Some c
            → IsBetween c.message_id start end self.old.inflight.chunks }
        ensures answer { IfOk result (λ r. option_map (λ a. a.0) r
            ≡ option_map (λ c. c.stream_identifier) (find (has_tsn tsn) self.old.inflight.chunks)) }
        ensures released { IfOk result (λ r. total_bytes self.new + released_of r
            ≡ total_bytes self.old) }
        ensures ok { OnOk result (self.new ≡ abandoned_of
            (to_abandon (find (has_tsn tsn) self.old.inflight.chunks)) next_tsn.old self.old) }
        ensures raised { OnOk result (next_tsn.new ≡ tsn_after_of
            (to_abandon (find (has_tsn tsn) self.old.inflight.chunks)) next_tsn.old self.old) }
        // the next TSN is the same while a message stays partially sent
        ensures partial { OnOk result ((next_tsn.new ≡ next_tsn.old)
            ⊎ (partially_sent self.new.pending ≡ None)) }
        ensures err { OnErr result ((self.new ≡ self.old) × (next_tsn.new ≡ next_tsn.old)) }
        ensures memory { IsOkUnless result ErrOutOfMemory }
        ensures succeeds { 0 < self.old.inflight.room → IsOk result }
        ensures no_tail { has_tail (to_abandon
            (find (has_tsn tsn) self.old.inflight.chunks)) self.old ≡ false → IsOk result }
    {
        let Some(chunk) = self.inflight.get(tsn) else {
            return Ok(None);
        };
        let stream_identifier = chunk.stream_identifier;
        if chunk.abandoned {
            return Ok(Some((stream_identifier, 0)));
        }
        let message_id = chunk.message_id;
        let bytes = self.abandon_message(message_id, start, end, next_tsn)?;
        Ok(Some((stream_identifier, bytes)))
    }

    // Abandons a message, whose chunks in flight stand between two places, and answers the bytes that left. Where some of it waits, it is
    // the partially sent one. It grows first, and only for a tail.
    fn abandon_message(
        &mut self,
        message_id: u64,
        start: usize,
        end: usize,
        next_tsn: &mut u32,
    ) -> Result<usize>
        requires between { IsBetween message_id start end self.old.inflight.chunks }
        requires partial { waits message_id self.old.pending ≡ true
            → partially_sent self.old.pending ≡ Some message_id }
        requires fresh { is_held self.old.inflight.chunks next_tsn.old ≡ false }
        requires window { SpansOneWindow self.old.inflight.chunks next_tsn.old }
        ensures released { IfOk result (λ bytes. total_bytes self.new + bytes
            ≡ total_bytes self.old) }
        ensures ok { OnOk result (self.new ≡ abandon_chunks message_id next_tsn.old self.old) }
        ensures raised { OnOk result (next_tsn.new ≡ tsn_after message_id next_tsn.old self.old) }
        ensures err { OnErr result ((self.new ≡ self.old) × (next_tsn.new ≡ next_tsn.old)) }
        ensures memory { IsOkUnless result ErrOutOfMemory }
        ensures succeeds { 0 < self.old.inflight.room → IsOk result }
        ensures no_tail { waits message_id self.old.pending ≡ false → IsOk result }
    {
        if !self.rest_waits(message_id) {
            return Ok(self.inflight.abandon_between(message_id, start, end));
        }
        self.inflight.reserve(1)?;
        let tsn = *next_tsn;
        let bytes = self.abandon_with_tail(message_id, (start, end), tsn);
        *next_tsn = tsn.wrapping_add(1);
        Ok(bytes)
    }

    // Abandons a message with a tail. There is room for its terminal chunk.
    fn abandon_with_tail(&mut self, message_id: u64, places: (usize, usize), tsn: u32) -> usize
        requires between { IsBetween message_id places.0 places.1 self.old.inflight.chunks }
        requires tail { waits message_id self.old.pending ≡ true }
        requires partial { partially_sent self.old.pending ≡ Some message_id }
        requires room { 0 < self.old.inflight.room }
        requires fresh { is_held self.old.inflight.chunks tsn ≡ false }
        requires window { SpansOneWindow self.old.inflight.chunks tsn }
        ensures released { total_bytes self.new + result ≡ total_bytes self.old }
        ensures abandoned { self.new ≡ abandon_chunks message_id tsn self.old }
    {
        let (start, end) = places;
        let in_flight = self.inflight.abandon_between(message_id, start, end);
        let (pending, last) = self.pending.pop_message(message_id);
        let Some(mut mark) = last else { unreachable!() };
        mark.tsn = tsn;
        mark.beginning_fragment = false;
        mark.ending_fragment = true;
        mark.abandoned = true;
        mark.retransmit = false;
        mark.user_data.clear();
        match self.inflight.push_no_check(mark) {
            Ok(()) => {}
            Err(_) => unreachable!(),
        }
        in_flight + pending
    }

    /// Removes the message in front, where it is past its deadline and wholly unsent, without a TSN: a
    /// FORWARD-TSN need not pass it. The later numbers of its stream close up where it is ordered;
    /// the caller then lowers the stream's next number by one, for an ordered message alone. Answers its stream, whether it is
    /// unordered, and its bytes. `now` is in nanoseconds; a message is past its deadline from its deadline
    /// on, and an empty fragment and one that establishes a channel never are. It looks at that message, and where it is ordered at all
    /// that waits in order; `expire_pending_run` looks at that once for several. It takes no memory.
    pub fn expire_pending(&mut self, now: u64) -> Option<(u16, bool, usize)>
        ensures answer { option_map {U = ℕ × Bool} (λ a. (a.0, a.1)) result ≡ option_map {U = ℕ
            × Bool} (λ c. (c.stream_identifier, c.unordered)) (expiring now self.old) }
        ensures released { total_bytes self.new + expired_bytes result ≡ total_bytes self.old }
        ensures expired { self.new ≡ expired_of (expiring now self.old) self.old }
    {
        let chunk = self.pending.peek()?;
        if !is_expired(chunk, now) {
            return None;
        }
        let stream_identifier = chunk.stream_identifier;
        let unordered = chunk.unordered;
        let message_id = chunk.message_id;
        let bytes = self.remove_pending(message_id);
        if !unordered {
            self.lower_ordered_ssns(stream_identifier, 1);
        }
        Some((stream_identifier, unordered, bytes))
    }

    // Removes what waits of the message in front, and answers its bytes.
    fn remove_pending(&mut self, message_id: u64) -> usize
        requires { option_map (λ c. c.message_id) (pending.next_pending self.old.pending)
            ≡ Some message_id }
        ensures released { total_bytes self.new + result ≡ total_bytes self.old }
        ensures removed { self.new
            ≡ record self.old { pending = pending.without message_id self.old.pending } }
    {
        let (bytes, _) = self.pending.pop_message(message_id);
        bytes
    }

    // Lowers the numbers of a stream's ordered messages that wait by so many.
    fn lower_ordered_ssns(&mut self, stream_identifier: u16, by: u16)
        ensures bytes { total_bytes self.new ≡ total_bytes self.old }
        ensures lowered { self.new
            ≡ record self.old { pending = pending.lowered stream_identifier by self.old.pending } }
    {
        self.pending.lower_ordered_ssns(stream_identifier, by);
    }

    /// Abandons the rest of the partially sent message in front, where it is past its deadline, as `abandon` does;
    /// its fragments in flight may all be acknowledged and gone, so that no TSN is left to abandon
    /// it by. `now` is in nanoseconds. Answers its stream, its number and the bytes that left.
    /// Precondition: as for `send_next`.
    /// Refuses only for memory, and not where there is no such message nor within the
    /// room of `reserve_inflight`. The queue and `next_tsn` are as they were then.
    pub fn expire_pending_tail(
        &mut self,
        now: u64,
        next_tsn: &mut u32,
    ) -> Result<Option<(u16, u64, usize)>>
        requires fresh { is_held self.old.inflight.chunks next_tsn.old ≡ false }
        requires window { SpansOneWindow self.old.inflight.chunks next_tsn.old }
        ensures answer { IfOk result (λ r. option_map {U = ℕ × ℕ} (λ a. (a.0, a.1)) r ≡ option_map
            {U = ℕ × ℕ} (λ c. (c.stream_identifier, c.message_id)) (expiring_tail now self.old)) }
        ensures released { IfOk result (λ r. total_bytes self.new + tail_bytes r
            ≡ total_bytes self.old) }
        ensures ok { OnOk result (self.new
            ≡ abandoned_of (message_of (expiring_tail now self.old)) next_tsn.old self.old) }
        ensures raised { OnOk result (next_tsn.new
            ≡ tsn_after_of (message_of (expiring_tail now self.old)) next_tsn.old self.old) }
        // the next TSN is the same while a message stays partially sent
        ensures partial { OnOk result ((next_tsn.new ≡ next_tsn.old)
            ⊎ (partially_sent self.new.pending ≡ None)) }
        ensures err { OnErr result ((self.new ≡ self.old) × (next_tsn.new ≡ next_tsn.old)) }
        ensures memory { IsOkUnless result ErrOutOfMemory }
        ensures succeeds { 0 < self.old.inflight.room → IsOk result }
        ensures idle { expiring_tail now self.old ≡ None → IsOk result }
    {
        let Some(chunk) = self.pending.peek() else {
            return Ok(None);
        };
        if !is_expired_tail(chunk, now) {
            return Ok(None);
        }
        let stream_identifier = chunk.stream_identifier;
        let message_id = chunk.message_id;
        let len = self.inflight.len();
        let bytes = self.abandon_message(message_id, 0, len, next_tsn)?;
        Ok(Some((stream_identifier, message_id, bytes)))
    }

    /// The TSNs of chunks in flight past their deadlines that are not abandoned, and are either not acknowledged or of a
    /// message with an unsent tail, in serial order. A message that was acknowledged whole is not named. They are listed before
    /// any of them is abandoned, so that what is abandoned does not hang on how much may be sent. `now` is in nanoseconds.
    /// Before the earliest deadline of what was sent since `settle_deadlines`, or was in flight then, it looks at nothing.
    /// Refuses only for memory, and not where there are none.
    pub fn expired_inflight(&self, alloc: Global, now: u64) -> Result<Vec<u32>>
        ensures ok { IfOk result (λ tsns. tsns.items ≡ late_tsns now self.now) }
        ensures memory { IsOkUnless result ErrOutOfMemory }
        ensures idle { late_tsns now self.now ≡ [] → IsOk result }
    {
        let mut tsns = Vec::new(alloc);
        if now < self.inflight.earliest_deadline() {
            return Ok(tsns);
        }
        let mut turns = Turns::new();
        for place in 0..self.inflight.len() {
            let chunk = self.inflight.look(place, &mut turns);
            if !self.is_late(chunk, now) {
                continue;
            }
            tsns.push(chunk.tsn)?;
        }
        Ok(tsns)
    }

    /// Has the next calls of `expired_inflight` look at nothing before the earliest deadline of what is in flight now and not
    /// abandoned. It looks at all of it, unless it is before that moment now. `now` is in nanoseconds.
    pub fn settle_deadlines(&mut self, now: u64)
        ensures { self.new ≡ self.old }
    {
        if self.inflight.earliest_deadline() <= now {
            self.inflight.settle_deadlines();
        }
    }

    // Whether a chunk in flight is past its deadline, not abandoned, and not acknowledged or of a message with an unsent tail.
    fn is_late(&self, chunk: &ChunkPayloadData, now: u64) -> bool
        requires { list_any (is_of chunk.now.message_id) self.now.inflight.chunks ≡ true }
        ensures { result ≡ is_late now self.now.pending chunk.now }
    {
        self.are_whole();
        !chunk.abandoned
            && is_past(chunk.deadline, now)
            && (!chunk.acked || self.rest_waits(chunk.message_id))
    }

    /// The chunk in flight with this TSN.
    pub fn get(&self, tsn: u32) -> Option<&ChunkPayloadData>
        ensures { option_copied result ≡ find (has_tsn tsn) self.now.inflight.chunks }
    {
        self.inflight.get(tsn)
    }

    /// The chunk in flight at a place, without a search; the first has the place 0. None where there are no more.
    pub fn inflight_at(&self, place: usize) -> Option<&ChunkPayloadData>
        ensures { option_copied result ≡ slice_get self.now.inflight.chunks place }
    {
        if place >= self.inflight.len() {
            return None;
        }
        Some(self.inflight.look(place, &mut Turns::new()))
    }

    /// Takes the first chunk in flight, if it has this TSN.
    #[inline(always)]
    pub fn pop(&mut self, tsn: u32) -> Option<ChunkPayloadData>
        ensures popped { result ≡ front_with tsn self.old.inflight.chunks }
        ensures rest { self.new
            ≡ with_inflight self.old (without_front tsn self.old.inflight.chunks) }
    {
        self.inflight.pop(tsn)
    }

    /// Marks a chunk in flight as acknowledged: its bytes go, and it is not to be
    /// sent again. Answers how many bytes left, 0 where the TSN is not in flight.
    pub fn mark_as_acked(&mut self, tsn: u32) -> usize
        ensures acked { self.new ≡ with_inflight self.old
            (change_where (has_tsn tsn) as_acknowledged self.old.inflight.chunks) }
        ensures left { total_bytes self.new + result ≡ total_bytes self.old }
    {
        self.inflight.mark_as_acked(tsn)
    }

    /// Marks the chunk in flight at a place as `mark_as_acked` does, without a search. Answers how many bytes left.
    /// Precondition: the place has a chunk.
    pub fn mark_as_acked_at(&mut self, place: usize) -> usize
        requires { place < length self.old.inflight.chunks }
        ensures acked { (d : _) → self.new ≡ with_inflight self.old
            (slice_set self.old.inflight.chunks place
            (as_acknowledged (slice_index_or self.old.inflight.chunks place d))) }
        ensures left { total_bytes self.new + result ≡ total_bytes self.old }
    {
        self.inflight.mark_as_acked_at(place)
    }

    /// Takes back the acknowledgement of the chunk in flight at a place, as where a peer reports it no more (RFC 4960 6.2.1 D iv): it
    /// is not acknowledged, and has these bytes again. It takes no memory.
    /// Precondition: the place has a chunk, and the bytes that wait and are in flight, with these, are fewer than 2^64.
    pub fn take_back_at(&mut self, place: usize, user_data: Bytes)
        requires place { place < length self.old.inflight.chunks }
        requires bytes { total_bytes self.old + length user_data < 2 ^ 64 }
        ensures back { (d : _) → self.new ≡ with_inflight self.old
            (slice_set self.old.inflight.chunks place
            (as_taken_back user_data (slice_index_or self.old.inflight.chunks place d))) }
        ensures counted { (d : _)
            → total_bytes self.new
            + length (slice_index_or self.old.inflight.chunks place d).user_data
            ≡ total_bytes self.old + length user_data }
    {
        self.inflight.take_back_at(place, user_data);
    }

    /// Flags each chunk in flight that is neither acknowledged nor abandoned to be
    /// sent again, as after the retransmission timer ran out (RFC 4960 6.3.3).
    pub fn mark_all_to_retransmit(&mut self)
        ensures { self.new ≡ with_inflight self.old
            (change_where is_outstanding (with_retransmit true) self.old.inflight.chunks) }
    {
        self.inflight.mark_all_to_retransmit();
    }

    /// Whether the TSN is in flight; the chunk is to be sent again then, or not, as `retransmit` says.
    pub fn set_retransmit(&mut self, tsn: u32, retransmit: bool) -> bool
        ensures changed { self.new ≡ with_inflight self.old
            (change_where (has_tsn tsn) (with_retransmit retransmit) self.old.inflight.chunks) }
        ensures held { result ≡ is_held self.old.inflight.chunks tsn }
    {
        self.inflight.set_retransmit(tsn, retransmit)
    }

    /// Whether the TSN is in flight; the chunk counts as sent so often then.
    pub fn set_nsent(&mut self, tsn: u32, nsent: u32) -> bool
        ensures changed { self.new ≡ with_inflight self.old
            (change_where (has_tsn tsn) (with_nsent nsent) self.old.inflight.chunks) }
        ensures held { result ≡ is_held self.old.inflight.chunks tsn }
    {
        self.inflight.set_nsent(tsn, nsent)
    }

    /// Whether the TSN is in flight; the chunk counts as sent at that moment then, in nanoseconds.
    pub fn set_since(&mut self, tsn: u32, since: Option<u64>) -> bool
        ensures changed { self.new ≡ with_inflight self.old
            (change_where (has_tsn tsn) (with_since since) self.old.inflight.chunks) }
        ensures held { result ≡ is_held self.old.inflight.chunks tsn }
    {
        self.inflight.set_since(tsn, since)
    }

    /// Whether the TSN is in flight; the chunk then counts as reported missing by so
    /// many acknowledgements, which fast retransmission looks at (RFC 4960 7.2.4).
    pub fn set_miss_indicator(&mut self, tsn: u32, miss_indicator: u8) -> bool
        ensures changed { self.new ≡ with_inflight self.old (change_where
            (has_tsn tsn) (with_miss_indicator miss_indicator) self.old.inflight.chunks) }
        ensures held { result ≡ is_held self.old.inflight.chunks tsn }
    {
        self.inflight.set_miss_indicator(tsn, miss_indicator)
    }

    /// Whether the chunk in flight with this TSN is abandoned; false where there is none.
    pub fn is_abandoned(&self, tsn: u32) -> bool
        ensures { result ≡ unwrap_or
            (option_map (λ c. c.abandoned) (find (has_tsn tsn) self.now.inflight.chunks)) false }
    {
        match self.inflight.get(tsn) {
            Some(chunk) => chunk.abandoned,
            None => false,
        }
    }

    /// The first TSN in flight that is neither acknowledged nor abandoned: the first that may have to be sent again
    /// (RFC 4960 6.3.3).
    pub fn earliest_outstanding_tsn(&self) -> Option<u32>
        ensures { result ≡ option_map (λ c. c.tsn) (find is_outstanding self.now.inflight.chunks) }
    {
        let mut turns = Turns::new();
        for place in 0..self.inflight.len() {
            let chunk = self.inflight.look(place, &mut turns);
            if is_outstanding(chunk) {
                return Some(chunk.tsn);
            }
        }
        None
    }

    /// Whether a chunk of the stream waits.
    pub fn pending_contains_stream(&self, stream_identifier: u16) -> bool
        ensures { result ≡ list_any (is_on stream_identifier) self.now.pending.unordered
            || list_any (is_on stream_identifier) self.now.pending.ordered }
    {
        self.pending.contains_stream(stream_identifier)
    }

    /// Whether a chunk of the stream waits or is in flight.
    pub fn contains_stream(&self, stream_identifier: u16) -> bool
        ensures { result ≡ (list_any (is_on stream_identifier) self.now.pending.unordered
            || list_any (is_on stream_identifier) self.now.pending.ordered)
            || list_any (is_on stream_identifier) self.now.inflight.chunks }
    {
        self.pending.contains_stream(stream_identifier)
            || self.inflight.contains_stream(stream_identifier)
    }

    /// How many chunks wait.
    pub fn pending_len(&self) -> usize
        ensures { result ≡ pending.chunk_count self.now.pending }
    {
        self.pending.len()
    }

    /// The bytes of user data of what waits.
    pub fn pending_bytes(&self) -> usize
        ensures { result ≡ pending.total_bytes self.now.pending }
    {
        self.pending.get_num_bytes()
    }

    /// How many chunks are in flight.
    pub fn inflight_len(&self) -> usize
        ensures { result ≡ length self.now.inflight.chunks }
    {
        self.inflight.len()
    }

    /// The bytes of user data in flight.
    pub fn inflight_bytes(&self) -> usize
        ensures { result ≡ bytes_of self.now.inflight.chunks }
    {
        self.inflight.get_num_bytes()
    }

    /// What is outstanding: in flight, and neither acknowledged nor abandoned; and how much of that is marked to be sent again (RFC 9260
    /// 6.3.3, 7.2.4). It is a look.
    pub fn outstanding(&self) -> Outstanding
        ensures { result ≡ outstanding_of self.now.inflight.chunks }
    {
        self.inflight.outstanding()
    }

    /// From here on messages of `ordered` ordered and `unordered` unordered fragments in all can be pushed without memory: the
    /// room counts fragments, and a push takes as much as its message has.
    /// Refuses only for memory, and the queue is as it was then.
    pub fn reserve(&mut self, ordered: usize, unordered: usize) -> Result<()>
        ensures ok { OnOk result (self.new
            ≡ record self.old { pending = pending.with_room self.old.pending ordered unordered }) }
        ensures err { OnErr result (self.new ≡ self.old) }
        ensures memory { IsOkUnless result ErrOutOfMemory }
        ensures succeeds { ordered ≤ self.old.pending.ordered_room
            → unordered ≤ self.old.pending.unordered_room → IsOk result }
    {
        self.pending.reserve(ordered, unordered)
    }

    /// From here on so many sends and terminal chunks take no memory.
    /// Refuses only for memory, and the queue is as it was then.
    pub fn reserve_inflight(&mut self, sends: usize) -> Result<()>
        ensures ok { OnOk result (self.new
            ≡ record self.old {
              inflight = record self.old.inflight {
                room = max
                    sends self.old.inflight.room;
              };
            }) }
        ensures err { OnErr result (self.new ≡ self.old) }
        ensures memory { IsOkUnless result ErrOutOfMemory }
        ensures succeeds { sends ≤ self.old.inflight.room → IsOk result }
    {
        self.inflight.reserve(sends)
    }
}

// Whether a moment is reached, where there is one.
fn is_past(deadline: Option<u64>, now: u64) -> bool
    ensures { result ≡ is_past now deadline }
{
    match deadline {
        Some(deadline) => now >= deadline,
        None => false,
    }
}

// Whether the chunk begins a message past its deadline. DCEP messages never expire.
fn is_expired(chunk: &ChunkPayloadData, now: u64) -> bool
    ensures { result ≡ is_expired now chunk.now }
{
    chunk.beginning_fragment
        && !chunk.user_data.is_empty()
        && !chunk.payload_type.is_dcep()
        && is_past(chunk.deadline, now)
}

// Whether the chunk goes on with a message past its deadline.
fn is_expired_tail(chunk: &ChunkPayloadData, now: u64) -> bool
    ensures { result ≡ is_expired_tail now chunk.now }
{
    !chunk.beginning_fragment && !chunk.payload_type.is_dcep() && is_past(chunk.deadline, now)
}
