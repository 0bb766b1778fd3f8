//! What goes into a packet (RFC 9260 6.1, 6.10).

ghost use Rattle.std.specs.Prelude.{◌≡◌, ◌⊎◌, ◌+◌, ◌-◌, ◌^◌, ◌<◌, ◌≤◌, [], min, true, false, None, Some, IfOk, IfSome, OnErr, OnOk, find, length, ◌∷◌};
ghost use Rattle.sctp_association.specs.Congested.{LeavesWithin, Resends, SendsNew, StaysOrAgain, StaysOrLeaves, begun, idle_at, may_again, path_of, used_after};
ghost use Rattle.sctp_association.specs.Counts.{CountsNone, IsCountedAlong, IsCountedOn};
ghost use Rattle.sctp_association.specs.Filled.{IfNonePut};
ghost use Rattle.sctp_association.specs.Idle.{SendsNoneAgain, SendsNoneNew, WaitsBehind, WaitsForSacks, in_flight};
ghost use Rattle.sctp_association.specs.Most.{FewerWherePut, most_data};
ghost use Rattle.sctp_association.specs.Ordered.{PutsInOrder, PutsTypes};
ghost use Rattle.sctp_association.specs.Packets.{PutsOut, PutsSkip, Stands};
ghost use Rattle.sctp_association.specs.Sending.{EndsWithin, IsTimed, flight_of, idle_times, is_early, is_front_late, is_later, lowered_times, lowered, marked_in, may_send_again, may_send_next, sent_at};
ghost use Rattle.sctp_association.specs.Skips.{LeavesSkip};
ghost use Rattle.sctp_outbound.specs.pending_queue.PendingQueue.{chunk_count, next_pending};
ghost use Rattle.sctp_path.specs.Rto.{smoothed_of};
ghost use Rattle.sctp_sender.specs.Resending.{is_to_resend, next_within};
ghost use Rattle.sctp_stream.specs.Stats.{count_up};
ghost use Rattle.sctp_util.specs.Padding.{padded_length};

use super::{DATA_HEADER, Outbound};
use crate::draft::Draft;
use crate::fault::Fault;
use sctp_sender::replay;
use sctp_sender::sender::refusal::SenderRefusal;
use sctp_util::util::get_padding_size;

// More chunks than a packet has room for.
const MOST_CHUNKS: usize = 4096;

// After so many RTOs the congestion window is at its least.
const MOST_HALVINGS: u64 = 64;

// How long a DATA chunk with so many bytes of user data is, with its padding.
fn data_length(bytes: usize) -> usize
    ensures { result ≡ min (16 + padded_length bytes) (2 ^ 64 - 1) }
{
    DATA_HEADER.saturating_add(bytes.saturating_add(get_padding_size(bytes)))
}

impl Outbound {
    /// Puts the FORWARD-TSN that is due, what is to be sent again, and what waits, as far as they fit and may be sent. T3-rtx runs then, after
    /// a refusal too, while something is in flight.
    pub(crate) fn put(&mut self, packet: &mut Draft, now: u64) -> Result<(), Fault>
        ensures made { PutsSkip self.old.is_skip_due self.new.is_skip_due self.old.sender
            self.new.sender packet.old.bytes packet.new.bytes }
        ensures timed { IsTimed self.new.sender.flight.queue.inflight.chunks self.new.timer.at }
        ensures counted { IsCountedAlong self.old self.new }
        // T3-rtx runs out as it did, or after the RTO at the latest.
        ensures soon { EndsWithin now self.old.rto.limits.most self.old.timer.at
            self.new.timer.at }
        ensures limit { packet.new.limit ≡ packet.old.limit }
        ensures grows { length packet.old.bytes ≤ length packet.new.bytes }
        // Where nothing was put: what waits, or is to be sent again, waits for a SACK, and no FORWARD-TSN is due.
        ensures idle { OnOk result (IfNonePut packet.old.bytes packet.new.bytes
            (WaitsForSacks packet.old.limit self.new.sender)) }
        ensures skip { OnOk result (IfNonePut packet.old.bytes packet.new.bytes
            (self.new.is_skip_due ≡ false)) }
        ensures leaves { 12 ≤ length packet.old.bytes
            → LeavesSkip (Stands packet.old.bytes packet.new.bytes) packet.old.limit
            self.old.sender self.old.is_skip_due self.new.is_skip_due }
        ensures within { LeavesWithin now self.old self.new }
        ensures fewer { FewerWherePut (most_data self.old) (most_data self.new)
            packet.old.bytes packet.new.bytes }
        ensures order { PutsInOrder (192 ∷ []) packet.old.bytes packet.new.bytes }
    {
        let filled = self.put_all(packet, now);
        self.run_timer(now);
        filled
    }

    // The same, but the timer stays as it is.
    #[tactic(auto, using(crate::proofs::Counted::on_then, crate::proofs::Counted::on_none, crate::proofs::Counted::on_same))]
    fn put_all(&mut self, packet: &mut Draft, now: u64) -> Result<(), Fault>
        ensures made { PutsSkip self.old.is_skip_due self.new.is_skip_due self.old.sender
            self.new.sender packet.old.bytes packet.new.bytes }
        ensures counts { IsCountedOn self.old self.new }
        ensures limit { packet.new.limit ≡ packet.old.limit }
        ensures grows { length packet.old.bytes ≤ length packet.new.bytes }
        ensures idle { OnOk result (IfNonePut packet.old.bytes packet.new.bytes
            (WaitsForSacks packet.old.limit self.new.sender)) }
        ensures skip { OnOk result (IfNonePut packet.old.bytes packet.new.bytes
            (self.new.is_skip_due ≡ false)) }
        ensures leaves { 12 ≤ length packet.old.bytes
            → LeavesSkip (Stands packet.old.bytes packet.new.bytes) packet.old.limit
            self.old.sender self.old.is_skip_due self.new.is_skip_due }
        ensures within { LeavesWithin now self.old self.new }
        ensures fewer { FewerWherePut (most_data self.old) (most_data self.new)
            packet.old.bytes packet.new.bytes }
        ensures order { PutsInOrder (192 ∷ []) packet.old.bytes packet.new.bytes }
    {
        self.put_skip(packet)?;
        self.put_lost(packet, now)?;
        self.put_new(packet, now)
    }

    // Puts the FORWARD-TSN that is due (RFC 3758 3.5 C3, F2), before any DATA.
    #[tactic(auto, using(crate::proofs::Ordered::order_one, crate::proofs::Ordered::order_none))]
    fn put_skip(&mut self, packet: &mut Draft) -> Result<(), Fault>
        ensures made { PutsSkip self.old.is_skip_due self.new.is_skip_due self.old.sender
            self.new.sender packet.old.bytes packet.new.bytes }
        ensures limit { packet.new.limit ≡ packet.old.limit }
        ensures rest { self.new ≡ self.old
            ⊎ self.new ≡ record self.old { is_skip_due = false } }
        ensures err { OnErr result (self.new ≡ self.old) }
        ensures grows { length packet.old.bytes ≤ length packet.new.bytes }
        ensures skip { OnOk result (IfNonePut packet.old.bytes packet.new.bytes
            (self.new.is_skip_due ≡ false)) }
        ensures leaves { 12 ≤ length packet.old.bytes
            → LeavesSkip (Stands packet.old.bytes packet.new.bytes) packet.old.limit
            self.old.sender self.old.is_skip_due self.new.is_skip_due }
        ensures fewer { FewerWherePut (most_data self.old) (most_data self.new)
            packet.old.bytes packet.new.bytes }
        ensures order { PutsTypes (192 ∷ []) packet.old.bytes packet.new.bytes }
    {
        if !self.is_skip_due {
            return Ok(());
        }
        let skip = self.sender.forward_tsn(packet.room())?;
        // Behind other chunks there may be too little room: it waits for a packet that is empty.
        if skip.is_none() && !packet.is_empty() {
            return Ok(());
        }
        self.is_skip_due = false;
        if let Some(skip) = skip {
            packet.put(&skip);
        }
        Ok(())
    }

    // Puts what is to be sent again, from the first on (RFC 9260 6.1 C, 6.3.3 E3, 7.2.4).
    fn put_lost(&mut self, packet: &mut Draft, now: u64) -> Result<(), Fault>
        ensures made { PutsOut self.old.sender self.new.sender packet.old.bytes packet.new.bytes }
        ensures counts { IsCountedOn self.old self.new }
        ensures limit { packet.new.limit ≡ packet.old.limit }
        ensures grows { length packet.old.bytes ≤ length packet.new.bytes }
        ensures idle { OnOk result (IfNonePut packet.old.bytes packet.new.bytes
            (SendsNoneAgain (packet.old.limit - length packet.old.bytes) self.old self.new)) }
        ensures again { Resends now self.old.rto self.old.is_fast
            (flight_of (in_flight self.old.sender)) (path_of self.old) (path_of self.new) }
        ensures fewer { FewerWherePut (most_data self.old) (most_data self.new)
            packet.old.bytes packet.new.bytes }
    {
        let flight = self.flight();
        self.put_marked(packet, self.is_fast, flight, now)
    }

    // The same; `is_fast` and `flight` are as they were when the packet began.
    #[tactic(auto, using(crate::proofs::Counted::on_then))]
    fn put_marked(
        &mut self,
        packet: &mut Draft,
        is_fast: bool,
        flight: usize,
        now: u64,
    ) -> Result<(), Fault>
        ensures made { PutsOut self.old.sender self.new.sender packet.old.bytes packet.new.bytes }
        ensures counts { IsCountedOn self.old self.new }
        ensures limit { packet.new.limit ≡ packet.old.limit }
        ensures grows { length packet.old.bytes ≤ length packet.new.bytes }
        ensures idle { OnOk result (IfNonePut packet.old.bytes packet.new.bytes
            (flight ≡ flight_of (in_flight self.old.sender)
            → SendsNoneAgain (packet.old.limit - length packet.old.bytes) self.old self.new)) }
        ensures again { Resends now self.old.rto is_fast flight (path_of self.old)
            (path_of self.new) }
        ensures fewer { FewerWherePut (most_data self.old) (most_data self.new)
            packet.old.bytes packet.new.bytes }
    {
        if !self.put_again(packet, is_fast, flight, now)? {
            return Ok(());
        }
        for _ in 1..MOST_CHUNKS {
            if !self.put_again(packet, is_fast, flight, now)? {
                break;
            }
        }
        Ok(())
    }

    // Sends the first chunk again that is marked, where it may go and fits, and answers whether it did. `flight` is what was outstanding when the
    // packet began. T3-rtx begins again with the first chunk that is in flight (RFC 9260 7.2.4).
    fn put_again(
        &mut self,
        packet: &mut Draft,
        is_fast: bool,
        flight: usize,
        now: u64,
    ) -> Result<bool, Fault>
        ensures made { PutsOut self.old.sender self.new.sender packet.old.bytes packet.new.bytes }
        ensures sent { IfOk result (λ sent. sent ≡ true
            → may_send_again is_fast
            (is_early flight now self.old.timed_out (smoothed_of self.old.rto.trips)
            (sent_at (find is_to_resend self.old.sender.flight.queue.inflight.chunks)))
            flight self.old.congestion ≡ true) }
        ensures counted { IfOk result (λ sent. sent ≡ true
            → self.new.resent ≡ count_up self.old.resent 1) }
        ensures uncounted { IfOk result (λ sent. sent ≡ false
            → self.new.resent ≡ self.old.resent) }
        ensures counts { IsCountedOn self.old self.new }
        ensures held { IfOk result (λ sent. sent ≡ false
            → (self.new.sender ≡ self.old.sender) × (packet.new ≡ packet.old)) }
        ensures err { OnErr result ((self.new ≡ self.old) × (packet.new ≡ packet.old)) }
        ensures limit { packet.new.limit ≡ packet.old.limit }
        ensures grows { length packet.old.bytes ≤ length packet.new.bytes }
        ensures put { 12 ≤ length packet.old.bytes
            → IfOk result (λ sent. sent ≡ true → 12 < length packet.new.bytes) }
        ensures none { IfOk result (λ sent. sent ≡ false
            → flight ≡ flight_of (in_flight self.old.sender)
            → SendsNoneAgain (packet.old.limit - length packet.old.bytes) self.old self.new) }
        ensures again { StaysOrAgain now
            (may_again now self.old.rto is_fast flight (path_of self.old)) (path_of self.old)
            (path_of self.new) }
        ensures fewer { FewerWherePut (most_data self.old) (most_data self.new)
            packet.old.bytes packet.new.bytes }
    {
        if !self.may_send_again(is_fast, flight, now) {
            return Ok(false);
        }
        // Where none is marked, what waits may go.
        if self.sender.outstanding().marked == 0 {
            return Ok(false);
        }
        self.put_first(packet, now)
    }

    // Whether DATA may be sent again (RFC 9260 6.3.3 E3, 7.2.4). `is_fast` and `flight` are as they were when the packet began.
    fn may_send_again(&self, is_fast: bool, flight: usize, now: u64) -> bool
        ensures value { result ≡ may_send_again is_fast
            (is_early flight now self.now.timed_out (smoothed_of self.now.rto.trips)
            (sent_at (find is_to_resend self.now.sender.flight.queue.inflight.chunks)))
            flight self.now.congestion }
        ensures first { flight ≡ 0 → result ≡ true }
    {
        if is_fast {
            return true;
        }
        self.congestion.may_send(flight) && !self.is_early(flight, now)
    }

    // Whether the chunk that is to be sent again first waits: a SACK of its first sending may still come, and something is outstanding. It is
    // looked for only in the round trip after T3-rtx expired.
    fn is_early(&self, flight: usize, now: u64) -> bool
        ensures value { result ≡ is_early flight now self.now.timed_out (smoothed_of self.now.rto.trips)
            (sent_at (find is_to_resend self.now.sender.flight.queue.inflight.chunks)) }
        ensures first { flight ≡ 0 → result ≡ false }
    {
        let Some(trip) = self.rto.smoothed() else {
            return false;
        };
        if flight == 0 || now.saturating_sub(self.timed_out) >= trip {
            return false;
        }
        let Some(chunk) = replay::next_to_retransmit(&self.sender) else {
            return false;
        };
        match chunk.since {
            Some(since) => since < self.timed_out && now.saturating_sub(since) < trip,
            None => false,
        }
    }

    // Sends the first chunk again that is marked, where it fits: seldom, and so apart.
    #[inline(never)]
    fn put_first(&mut self, packet: &mut Draft, now: u64) -> Result<bool, Fault>
        ensures made { PutsOut self.old.sender self.new.sender packet.old.bytes packet.new.bytes }
        ensures counted { IfOk result (λ sent. sent ≡ true
            → self.new.resent ≡ count_up self.old.resent 1) }
        ensures uncounted { IfOk result (λ sent. sent ≡ false
            → self.new.resent ≡ self.old.resent) }
        ensures counts { IsCountedOn self.old self.new }
        ensures held { IfOk result (λ sent. sent ≡ false
            → (self.new.sender ≡ self.old.sender) × (packet.new ≡ packet.old)) }
        ensures err { OnErr result ((self.new ≡ self.old) × (packet.new ≡ packet.old)) }
        ensures limit { packet.new.limit ≡ packet.old.limit }
        ensures grows { length packet.old.bytes ≤ length packet.new.bytes }
        ensures put { 12 ≤ length packet.old.bytes
            → IfOk result (λ sent. sent ≡ true → 12 < length packet.new.bytes) }
        ensures none { IfOk result (λ sent. sent ≡ false → next_within
            (packet.old.limit - length packet.old.bytes) self.old.sender.flight ≡ None) }
        ensures again { StaysOrAgain now true (path_of self.old) (path_of self.new) }
        ensures fewer { FewerWherePut (most_data self.old) (most_data self.new)
            packet.old.bytes packet.new.bytes }
    {
        let Some(chunk) = self.sender.resend_next(now, packet.room())? else {
            return Ok(false);
        };
        self.is_fast = false;
        self.resent = self.resent.saturating_add(1);
        self.used = now;
        self.congestion.sent_again();
        self.stop_where_first(chunk.tsn);
        packet.put(&chunk);
        Ok(true)
    }

    // T3-rtx ends where the first chunk in flight is sent again (RFC 9260 7.2.4).
    fn stop_where_first(&mut self, tsn: u32)
        ensures rest { self.new ≡ record self.old { timer = self.new.timer } }
        ensures at { (self.new.timer.at ≡ self.old.timer.at) ⊎ (self.new.timer.at ≡ None) }
    {
        if tsn == self.sender.acked_tsn().wrapping_add(1) {
            self.timer.stop();
        }
    }

    /// Nothing more leaves at this moment: the time to send is over.
    pub(crate) fn pause(&mut self, now: u64)
        ensures { self.new ≡ record self.old { paused = Some now } }
    {
        self.paused = Some(now);
    }

    // A later moment than that at which nothing more left is a new time to send: a new burst begins (RFC 9260 6.1 D).
    fn begin_burst(&mut self, now: u64)
        ensures anew { is_later now self.old.paused ≡ true
            → self.new ≡ record self.old { burst = None; paused = None } }
        ensures same { is_later now self.old.paused ≡ false → self.new ≡ self.old }
    {
        if let Some(paused) = self.paused {
            if now > paused {
                self.burst = None;
                self.paused = None;
            }
        }
    }

    // Whether something waits, and nothing is left to be sent again (RFC 9260 6.1 C). While nothing is in flight the congestion window falls.
    fn begin_new(&mut self, now: u64) -> bool
        ensures sender { self.new.sender ≡ self.old.sender }
        ensures counts { CountsNone self.old self.new }
        ensures skip { self.new.is_skip_due ≡ self.old.is_skip_due }
        ensures begins { path_of self.new ≡ begun now self.old.rto result (path_of self.old) }
        ensures waits { result ≡ true → 0 < chunk_count self.old.sender.flight.queue.pending }
        ensures clear { result ≡ true → marked_in self.old.sender ≡ 0 }
        ensures none { result ≡ false → (0 < marked_in self.old.sender)
            ⊎ (chunk_count self.old.sender.flight.queue.pending ≡ 0) }
    {
        self.begin_burst(now);
        if self.has_marked() || self.sender.outbound().pending_len() == 0 {
            return false;
        }
        if self.sender.outbound().inflight_len() == 0 {
            self.note_idle(now);
        }
        true
    }

    // Puts what waits, where nothing is left to be sent again.
    #[tactic(auto, using(crate::proofs::Counted::none_then))]
    fn put_new(&mut self, packet: &mut Draft, now: u64) -> Result<(), Fault>
        ensures made { PutsOut self.old.sender self.new.sender packet.old.bytes packet.new.bytes }
        ensures counts { CountsNone self.old self.new }
        ensures limit { packet.new.limit ≡ packet.old.limit }
        ensures grows { length packet.old.bytes ≤ length packet.new.bytes }
        ensures idle { OnOk result (IfNonePut packet.old.bytes packet.new.bytes
            (SendsNoneNew (packet.old.limit - length packet.old.bytes) self.old self.new)) }
        ensures within { SendsNew now self.old.rto (path_of self.old) (path_of self.new) }
        ensures fewer { FewerWherePut (most_data self.old) (most_data self.new)
            packet.old.bytes packet.new.bytes }
    {
        if !self.begin_new(now) {
            return Ok(());
        }
        if !self.put_next(packet, now)? {
            return Ok(());
        }
        for _ in 1..MOST_CHUNKS {
            if !self.put_timely(packet, now)? {
                break;
            }
        }
        Ok(())
    }

    // Lowers the congestion window for an idle RTO, where it is more than four packets.
    fn lower(&mut self)
        ensures { self.new ≡ record self.old { congestion = lowered self.old.congestion } }
    {
        if self.congestion.window() / 4 > self.congestion.pmdcs() {
            self.congestion.idled();
        }
    }

    // Lowers the congestion window once for each RTO since DATA left last (RFC 9260 7.2.1).
    fn note_idle(&mut self, now: u64)
        ensures idled { self.new.congestion ≡ lowered_times
            (idle_times now self.old.used self.old.rto.rto) self.old.congestion }
        ensures rest { self.new ≡ record self.old {
          congestion = self.new.congestion;
          used = self.new.used;
        } }
        // These RTOs count no more.
        ensures over { self.new.used
            ≡ used_after now (idle_at now self.old.rto (path_of self.old)) self.old.used }
    {
        let rto = self.rto.get().max(1);
        let times = (now.saturating_sub(self.used) / rto).min(MOST_HALVINGS);
        for _step in 0..times {
            self.lower();
        }
        if times > 0 {
            self.used = now;
        }
    }

    // Whether so many bytes more may be sent, by both windows, the burst and the most chunks in flight (RFC 9260 6.1 A, B, D).
    fn may_send(&self, bytes: usize) -> bool
        ensures value { result ≡ may_send_next bytes self.now.most_in_flight self.now.peer_window
            self.now.burst self.now.congestion self.now.sender.flight.queue.inflight.chunks }
        ensures first { in_flight self.now.sender ≡ [] → result ≡ true }
    {
        if self.sender.outbound().inflight_len() >= self.most_in_flight.max(1) {
            return false;
        }
        let flight = self.flight();
        if flight == 0 {
            return true;
        }
        let user_data = self.sender.outstanding().bytes;
        if user_data as u128 + bytes as u128 > self.peer_window as u128 {
            return false;
        }
        if !self.congestion.may_send(flight) {
            return false;
        }
        let base = match self.burst {
            Some(base) => base,
            None => flight,
        };
        self.congestion.may_burst(base, flight)
    }

    // The same of a chunk behind others, unless its message is past its lifetime: that is abandoned before the next packet (RFC 9260 11.1.5).
    fn put_timely(&mut self, packet: &mut Draft, now: u64) -> Result<bool, Fault>
        ensures made { PutsOut self.old.sender self.new.sender packet.old.bytes packet.new.bytes }
        ensures late { IfOk result (λ sent. sent ≡ true → (self.old.is_partial ≡ false)
            ⊎ (is_front_late now (next_pending self.old.sender.flight.queue.pending) ≡ false)) }
        ensures counts { CountsNone self.old self.new }
        ensures limit { packet.new.limit ≡ packet.old.limit }
        ensures grows { length packet.old.bytes ≤ length packet.new.bytes }
        ensures within { StaysOrLeaves now (path_of self.old) (path_of self.new) }
        ensures fewer { FewerWherePut (most_data self.old) (most_data self.new)
            packet.old.bytes packet.new.bytes }
    {
        if self.is_partial && self.is_front_late(now) {
            return Ok(false);
        }
        self.put_next(packet, now)
    }

    // Sends the first chunk that waits, where it may go and fits, and answers whether it did (RFC 9260 6.1).
    fn put_next(&mut self, packet: &mut Draft, now: u64) -> Result<bool, Fault>
        ensures made { PutsOut self.old.sender self.new.sender packet.old.bytes packet.new.bytes }
        ensures sent { IfOk result (λ sent. sent ≡ true
            → IfSome (next_pending self.old.sender.flight.queue.pending) (λ c. may_send_next
            (length c.user_data) self.old.most_in_flight self.old.peer_window self.old.burst
            self.old.congestion self.old.sender.flight.queue.inflight.chunks ≡ true)) }
        ensures counts { CountsNone self.old self.new }
        ensures held { IfOk result (λ sent. sent ≡ false
            → (self.new ≡ self.old) × (packet.new ≡ packet.old)) }
        ensures err { OnErr result ((self.new ≡ self.old) × (packet.new ≡ packet.old)) }
        ensures limit { packet.new.limit ≡ packet.old.limit }
        ensures grows { length packet.old.bytes ≤ length packet.new.bytes }
        ensures put { 12 ≤ length packet.old.bytes
            → IfOk result (λ sent. sent ≡ true → 12 < length packet.new.bytes) }
        ensures none { IfOk result (λ sent. sent ≡ false
            → WaitsBehind (packet.old.limit - length packet.old.bytes) self.old.sender) }
        ensures within { StaysOrLeaves now (path_of self.old) (path_of self.new) }
        ensures fewer { FewerWherePut (most_data self.old) (most_data self.new)
            packet.old.bytes packet.new.bytes }
    {
        let Some(chunk) = self.sender.outbound().peek_pending() else {
            return Ok(false);
        };
        let bytes = chunk.user_data.len();
        if data_length(bytes) > packet.room() || !self.may_send(bytes) {
            return Ok(false);
        }
        let flight = self.flight();
        self.sender.outbound().are_whole();
        let sent = match replay::send_next_tsn(&mut self.sender, now) {
            Ok(sent) => sent,
            Err(SenderRefusal::SsnsUsedUp) => return Ok(false),
            Err(e) => return Err(Fault::from(e)),
        };
        self.burst = Some(match self.burst {
            Some(base) if flight > 0 => base,
            _ => flight,
        });
        self.used = now;
        if let Some(tsn) = sent {
            // It is put as it is noted there: no copy of it is made.
            let Some(chunk) = self.sender.outbound().get(tsn) else {
                unreachable!()
            };
            packet.put(chunk);
        }
        Ok(true)
    }
}
