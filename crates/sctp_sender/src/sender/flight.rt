//! What is in flight: each TSN from the one behind the acknowledged ones to the one before the next.

ghost use Rattle.std.specs.Prelude.{◌≡◌, ◌≢◌, not, ◌+◌, ◌-◌, ◌<◌, ◌≤◌, ◌^◌, [], ◌∷◌, ℕ, true, false, is_some, length, Some, None, OnOk, OnErr, IfOk, IfErr, IfNone, IfSome, IsOk, option_copied, option_map, slice_get, find, Bool, List};
ghost use Rattle.sctp_data.specs.declared.chunk.chunk_payload_data.ChunkPayloadData.{ChunkPayloadData};
ghost use Rattle.sctp_data.specs.declared.chunk.chunk_selective_ack.GapAckBlock.{GapAckBlock};
ghost use Rattle.sctp_sender.specs.Reporting.{AreKnown};
ghost use Rattle.sctp_sender.specs.declared.sender.refusal.SenderRefusal.TheVariants.{OutOfMemory};
ghost use Rattle.sctp_serial.specs.DataChunks.{bytes_of, has_tsn};

pub mod anew;
mod answers;
pub mod kept;
pub mod late;
mod numbers;
mod order;
mod pairs;
mod places;
mod reports;
mod retransmission;
pub mod returns;
pub(crate) mod runs;
mod skips;

use crate::sender::refusal::SenderRefusal;
use sctp_data::chunk::chunk_payload_data::ChunkPayloadData;
use sctp_data::chunk::chunk_selective_ack::GapAckBlock;
use sctp_outbound::outbound_queue::{ExpiredRun, OutboundQueue};
use sctp_serial::serial::distance;
use std::alloc::Global;
use std::marker::Model;

/// A chunk that was acknowledged.
#[derive(Clone, Copy, Debug, PartialEq, Eq)]
pub struct Released {
    /// Its TSN.
    pub tsn: u32,
    /// Its stream.
    pub stream: u16,
    /// How many bytes of user data it had, 0 where its message was abandoned before.
    pub bytes: usize,
    /// How often it was sent: an acknowledgement of a chunk that was sent once alone tells the round trip time (RFC 4960 6.3.1 C5).
    pub nsent: u32,
    /// When it was sent last, in nanoseconds; None of a chunk that stood for what was never sent.
    pub since: Option<u64>,
    /// The number of its message.
    pub message: u64,
    /// Whether the message is acknowledged whole now: nothing of it waits, each chunk of it in flight is acknowledged, and it was not
    /// abandoned.
    pub is_message_acked: bool,
    /// Whether with it, after those before it in the answer, the buffered amount of its stream fell from above the low threshold to
    /// at most it. The parts of a sender know no streams, and answer false.
    pub is_low: bool,
}

/// What waits and what is in flight, with the next TSN and the TSN up to which all was acknowledged.
#[derive(Drop)]
pub struct InFlight {
    queue: OutboundQueue,
    next_tsn: u32,
    acked_tsn: u32,
    // Gap ack blocks in ascending order, as distances from `acked_tsn`: those of the last SACK that was taken, or what a sender was left of
    // those that it kept, where a report was taken back since; none behind a lone `restore`. What they report is acknowledged, and the
    // next SACK does not look at it.
    known: Vec<GapAckBlock>,
    // How many of the chunks in flight, from the first on, are known not to be marked for retransmission: a walk that looks for one that is
    // begins behind them.
    unmarked: usize,
}

impl Model for InFlight {
    ghost use Rattle.sctp_sender.specs.Flight.{Flight, IsContiguous};
    ghost use Rattle.std.specs.Prelude.{◌≡◌, true};
    ghost use Rattle.sctp_sender.specs.Reporting.{AreKnown, ascends_from};
    ghost use Rattle.sctp_sender.specs.Resending.{AreUnmarked};

    ghost Value = { Flight };

    ghost view = { λ f. record {
      queue = f.queue;
      next_tsn = f.next_tsn;
      acked_tsn = f.acked_tsn;
    } };

    ghost invariant = { λ f.
        record {
          contiguous : IsContiguous (record {
            queue = f.queue;
            next_tsn = f.next_tsn;
            acked_tsn = f.acked_tsn;
          });
          ascend : ascends_from 0 f.known.items ≡ true;
          known : AreKnown f.known.items f.queue.inflight.chunks;
          unmarked : AreUnmarked f.unmarked f.queue.inflight.chunks;
        } };
}

impl InFlight {
    ghost use Rattle.sctp_outbound.specs.outbound_queue.OutboundQueue.{with_message, has_room, total_bytes, all_started, as_sent, sent_next, AreExpiredOf, expired_of, expired_times, expiring, stream_and_kind, expiring_tail, message_of, released_of as bytes_left, expired_bytes, tail_bytes};
    ghost use Rattle.sctp_outbound.specs.pending_queue.PendingQueue as pending;
    ghost use Rattle.sctp_outbound.specs.pending_queue.Whole.{IsMessageOrNone};
    ghost use Rattle.sctp_sender.specs.Flight.{with_queue, with_room, at_first, may_send, next_after_send, resent, message_to_abandon, has_tail_at, after_abandonment};

    /// Nothing waits, and the first TSN is the next. It takes no memory.
    pub(crate) fn new(alloc: Global, first_tsn: u32) -> Self
        ensures { result ≡ at_first first_tsn }
    {
        InFlight {
            queue: OutboundQueue::new(alloc),
            next_tsn: first_tsn,
            acked_tsn: first_tsn.wrapping_sub(1),
            known: Vec::new(alloc),
            unmarked: 0,
        }
    }

    /// What waits and what is in flight.
    pub(crate) fn queue(&self) -> &OutboundQueue
        ensures { result.now ≡ self.now.queue }
    {
        &self.queue
    }

    /// The chunk in flight at a place; the first has the place 0. None where there are no more.
    pub(crate) fn at(&self, place: usize) -> Option<&ChunkPayloadData>
        ensures { option_copied result ≡ slice_get self.now.queue.inflight.chunks place }
    {
        self.queue.inflight_at(place)
    }

    /// The chunk in flight with a TSN, looked for at its place alone; None where the TSN is not in flight.
    pub(crate) fn get(&self, tsn: u32) -> Option<&ChunkPayloadData>
        ensures { option_copied result ≡ find (has_tsn tsn) self.now.queue.inflight.chunks }
    {
        let ahead = distance(self.acked_tsn, tsn) as usize;
        if ahead == 0 {
            return None;
        }
        self.queue.inflight_at(ahead - 1)
    }

    /// The TSN that is given out next.
    pub(crate) fn next_tsn(&self) -> u32
        ensures { result ≡ self.now.next_tsn }
    {
        self.next_tsn
    }

    /// The TSN up to which all was acknowledged.
    pub(crate) fn acked_tsn(&self) -> u32
        ensures { result ≡ self.now.acked_tsn }
    {
        self.acked_tsn
    }

    /// Whether a further TSN may be given out: fewer than 2^31 - 1 are in flight.
    pub(crate) fn may_send(&self) -> bool
        ensures { result ≡ may_send self.now }
    {
        self.queue.inflight_len() + 1 < 1 << 31
    }

    /// Puts the fragments of a message behind those that wait, as the queue's `push` does.
    /// Precondition: as there; the queue's `can_push` tells.
    /// Refuses only for memory, and never within the room of `reserve`. All is as it was then.
    pub(crate) fn push(&mut self, chunks: Vec<ChunkPayloadData>) -> Result<(), SenderRefusal>
        requires message { IsMessageOrNone chunks.items }
        requires number { self.old.queue.next_message_id + 1 < 2 ^ 64 }
        requires bytes { total_bytes self.old.queue + bytes_of chunks.items < 2 ^ 64 }
        ensures ok { OnOk result (self.new
            ≡ with_queue self.old (with_message chunks.items self.old.queue)) }
        ensures err { OnErr result (self.new ≡ self.old) }
        ensures memory { IfErr result (λ e. e ≡ OutOfMemory) }
        ensures succeeds { has_room chunks.items self.old.queue ≡ true → IsOk result }
    {
        self.queue.push(chunks)?;
        Ok(())
    }

    /// Puts the one fragment of a message behind those that wait, as the queue's `push_sole` does.
    /// Precondition: as there.
    /// Refuses only for memory, and all is as it was then.
    #[inline(always)]
    pub(crate) fn push_sole(&mut self, chunk: ChunkPayloadData) -> Result<(), SenderRefusal>
        requires message { IsMessageOrNone (chunk ∷ []) }
        requires number { self.old.queue.next_message_id + 1 < 2 ^ 64 }
        requires bytes { total_bytes self.old.queue + length chunk.user_data < 2 ^ 64 }
        ensures ok { OnOk result (self.new
            ≡ with_queue self.old (with_message (chunk ∷ []) self.old.queue)) }
        ensures err { OnErr result (self.new ≡ self.old) }
        ensures memory { IfErr result (λ e. e ≡ OutOfMemory) }
    {
        self.queue.push_sole(chunk)?;
        Ok(())
    }

    /// From here on so many sends and terminal chunks take no memory.
    /// Refuses only for memory, and all is as it was then.
    pub(crate) fn reserve_inflight(&mut self, sends: usize) -> Result<(), SenderRefusal>
        ensures ok { OnOk result (self.new ≡ with_queue self.old (with_room sends self.old.queue)) }
        ensures err { OnErr result (self.new ≡ self.old) }
        ensures memory { IfErr result (λ e. e ≡ OutOfMemory) }
        ensures succeeds { sends ≤ self.old.queue.inflight.room → IsOk result }
    {
        self.queue.reserve_inflight(sends)?;
        Ok(())
    }

    /// Starts the lifetimes of the messages pushed since the last time; `now` is in nanoseconds. It takes no memory.
    pub(crate) fn start(&mut self, now: u64)
        ensures { self.new ≡ with_queue self.old (all_started now self.old.queue) }
    {
        self.queue.start_timed_messages(now);
    }

    /// Gives the next TSN to the fragment that is next, and puts it in flight; lifetimes start. Answers the TSN, None where
    /// nothing waits. `now` is in nanoseconds.
    /// Precondition: a further TSN may be given out; `may_send` tells.
    /// Refuses only for memory, and not where nothing waits nor within the room of `reserve_inflight`. All is as it was then.
    pub(crate) fn send_next(&mut self, now: u64) -> Result<Option<u32>, SenderRefusal>
        requires { may_send self.old ≡ true }
        ensures sent { IfOk result (λ sent. sent
            ≡ option_map (λ _. self.old.next_tsn) (pending.next_pending self.old.queue.pending)) }
        ensures noted { OnOk result (find (has_tsn self.old.next_tsn) self.new.queue.inflight.chunks
            ≡ option_map (as_sent self.old.next_tsn now)
            (pending.next_pending (all_started now self.old.queue).pending)) }
        ensures ok { OnOk result (self.new ≡ record self.old {
          queue = sent_next
              self.old.queue self.old.next_tsn now;
          next_tsn = next_after_send self.old;
        }) }
        ensures err { OnErr result (self.new ≡ self.old) }
        ensures memory { IfErr result (λ e. e ≡ OutOfMemory) }
        ensures succeeds { 0 < self.old.queue.inflight.room → IsOk result }
        ensures idle { pending.next_pending self.old.queue.pending ≡ None → IsOk result }
        ensures known { (bs : List GapAckBlock) → AreKnown bs self.old.queue.inflight.chunks
            → AreKnown bs self.new.queue.inflight.chunks }
    {
        self.queue.are_whole();
        let sent = self.queue.send_next(&mut self.next_tsn, now)?;
        Ok(sent)
    }

    /// Abandons the message of a chunk in flight, as the queue's `abandon` does, and answers its stream and the bytes that
    /// left; None where the TSN is not in flight.
    /// Precondition: where some of the message still waits, which `has_tail_at` tells, a further TSN may be given out, which
    /// `may_send` tells.
    /// Refuses only for memory, and not where the message has no tail nor within the room of `reserve_inflight`. All is as it
    /// was then.
    pub(crate) fn abandon(&mut self, tsn: u32) -> Result<Option<(u16, usize)>, SenderRefusal>
        requires { has_tail_at self.old tsn ≡ true → may_send self.old ≡ true }
        ensures answer { IfOk result (λ r. option_map (λ a. a.0) r ≡ option_map
            (λ c. c.stream_identifier) (find (has_tsn tsn) self.old.queue.inflight.chunks)) }
        ensures ok { OnOk result (self.new
            ≡ after_abandonment (message_to_abandon tsn self.old) self.old) }
        ensures err { OnErr result (self.new ≡ self.old) }
        ensures memory { IfErr result (λ e. e ≡ OutOfMemory) }
        ensures released { IfOk result (λ r. total_bytes self.new.queue + bytes_left r
            ≡ total_bytes self.old.queue) }
        ensures succeeds { 0 < self.old.queue.inflight.room → IsOk result }
        ensures no_tail { has_tail_at self.old tsn ≡ false → IsOk result }
        ensures known { (bs : List GapAckBlock) → AreKnown bs self.old.queue.inflight.chunks
            → AreKnown bs self.new.queue.inflight.chunks }
    {
        self.queue.are_whole();
        let (start, end) = self.places_of(tsn);
        let abandoned = self
            .queue
            .abandon_between(tsn, start, end, &mut self.next_tsn)?;
        Ok(abandoned)
    }

    /// Removes the message in front, where it is past its deadline and wholly unsent, as the queue's `expire_pending` does. It
    /// takes no memory.
    pub(crate) fn expire(&mut self, now: u64) -> Option<(u16, bool, usize)>
        ensures answer { option_map {U = ℕ × Bool} (λ a. (a.0, a.1)) result ≡ option_map {U = ℕ
            × Bool} (λ c. (c.stream_identifier, c.unordered)) (expiring now self.old.queue) }
        ensures released { total_bytes self.new.queue + expired_bytes result
            ≡ total_bytes self.old.queue }
        ensures expired { self.new
            ≡ with_queue self.old (expired_of (expiring now self.old.queue) self.old.queue) }
    {
        self.queue.expire_pending(now)
    }

    /// As `expire` so often as it removes messages of one stream, all ordered or all unordered, but at most 65,535 times: the queue's
    /// `expire_pending_run`. It takes no memory.
    pub(crate) fn expire_run(&mut self, now: u64) -> Option<ExpiredRun>
        ensures expired { IfSome result (λ run. self.new
            ≡ with_queue self.old (expired_times now run.messages self.old.queue)) }
        ensures of_one { IfSome result (λ run. AreExpiredOf
            run.stream_identifier run.unordered now run.messages self.old.queue) }
        ensures some { IfSome result (λ run. 0 < run.messages) }
        ensures all { IfSome result (λ run. run.messages + 1 < 2 ^ 16
            → stream_and_kind (expiring now self.new.queue)
            ≢ Some (run.stream_identifier, run.unordered)) }
        ensures released { IfSome result (λ run. total_bytes self.new.queue + run.bytes
            ≡ total_bytes self.old.queue) }
        ensures none { IfNone result ((expiring now self.old.queue ≡ None) × (self.new ≡ self.old)) }
    {
        self.queue.expire_pending_run(now)
    }

    /// Abandons the rest of the partially sent message in front, where it is past its deadline, as the queue's `expire_pending_tail` does.
    /// Precondition: where there is such a message, a further TSN may be given out; `may_send` tells.
    /// Refuses only for memory, and not where there is no such message nor within the room of `reserve_inflight`. All is as it
    /// was then.
    pub(crate) fn expire_tail(
        &mut self,
        now: u64,
    ) -> Result<Option<(u16, u64, usize)>, SenderRefusal>
        requires { is_some (expiring_tail now self.old.queue) ≡ true → may_send self.old ≡ true }
        ensures ok { OnOk result (self.new
            ≡ after_abandonment (message_of (expiring_tail now self.old.queue)) self.old) }
        ensures err { OnErr result (self.new ≡ self.old) }
        ensures memory { IfErr result (λ e. e ≡ OutOfMemory) }
        ensures answer { IfOk result (λ r. option_map {U = ℕ × ℕ} (λ a. (a.0, a.1)) r
            ≡ option_map {U = ℕ
            × ℕ} (λ c. (c.stream_identifier, c.message_id)) (expiring_tail now self.old.queue)) }
        ensures released { IfOk result (λ r. total_bytes self.new.queue + tail_bytes r
            ≡ total_bytes self.old.queue) }
        ensures succeeds { 0 < self.old.queue.inflight.room → IsOk result }
        ensures idle { expiring_tail now self.old.queue ≡ None → IsOk result }
        ensures known { (bs : List GapAckBlock) → AreKnown bs self.old.queue.inflight.chunks
            → AreKnown bs self.new.queue.inflight.chunks }
    {
        self.queue.are_whole();
        let abandoned = self.queue.expire_pending_tail(now, &mut self.next_tsn)?;
        Ok(abandoned)
    }

    /// Counts one more sending of the chunk in flight with a TSN, up to the greatest u32; none is counted where the TSN is not in
    /// flight. It takes no memory.
    pub(crate) fn count_resend(&mut self, tsn: u32)
        ensures counted { (c : ChunkPayloadData)
            → find (has_tsn tsn) self.old.queue.inflight.chunks ≡ Some c
            → self.new ≡ resent tsn c self.old }
        ensures none { find (has_tsn tsn) self.old.queue.inflight.chunks ≡ None
            → self.new ≡ self.old }
    {
        let Some(chunk) = self.queue.get(tsn) else {
            return;
        };
        let nsent = chunk.nsent.saturating_add(1);
        self.queue.set_nsent(tsn, nsent);
    }
}
