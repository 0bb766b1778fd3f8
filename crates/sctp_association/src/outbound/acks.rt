//! What a SACK acknowledges (RFC 9260 6.2.1, 6.3, 7.2).

ghost use Rattle.std.specs.Prelude.{◌≡◌, ◌⊎◌, ◌-◌, ◌==◌, length, not, if◌then◌else◌, None, true, is_some, Ok, IfOk, OnErr};
ghost use Rattle.std.specs.List.{list_any};
ghost use Rattle.sctp_association.specs.Ends.{IsForged};
ghost use Rattle.sctp_association.specs.Acks.{acked_by, grown_by, size_acked, without_blocks};
ghost use Rattle.sctp_association.specs.Arrivals.{AsksToHear, HearsBy, IsCount, without_gaps};
ghost use Rattle.sctp_association.specs.Brought.{AddsOnly, falls_at, falls_by};
ghost use Rattle.sctp_association.specs.Counts.{HasLimitsOf, IsCountedAlike};
ghost use Rattle.sctp_association.specs.Lows.{PutsAll};
ghost use Rattle.sctp_association.specs.Paths.{IsMissedBefore, MovesBy, cleared_by, taken_as, measured_again, measured_by, missing_before, sent_once, trips_of};
ghost use Rattle.sctp_association.specs.Sacks.{HearsSackFirst};
ghost use Rattle.sctp_association.specs.Shutting.{ShutsBy};
ghost use Rattle.sctp_association.specs.Telling.{Stays};
ghost use Rattle.sctp_association.specs.declared.outbound.acks.SackTaken.TheVariants.{Taken, Forged};
ghost use Rattle.sctp_chunks.specs.Wire.{sack_chunk, shutdown_chunk};
ghost use Rattle.sctp_data.specs.SelectiveAck.{sack_of};
ghost use Rattle.sctp_sender.specs.Sender.{after_acked};
ghost use Rattle.sctp_sender.specs.Thresholds.{fell, tells_low};
ghost use Rattle.sctp_stream.specs.Stats.{count_up};
ghost use Rattle.sctp_util.specs.Serial.{distance};

use super::{DATA_HEADER, Outbound};
use crate::fault::Fault;
use crate::stream_set::StreamSet;
use sctp_data::chunk::chunk_selective_ack::ChunkSelectiveAck;
use sctp_path::Acknowledged;
use sctp_sender::replay;
use sctp_sender::sender::flight::Released;
use sctp_sender::sender::refusal::SenderRefusal;
use sctp_util::util::sna32lt;
use std::alloc::Global;

/// What became of a SACK.
#[derive(Clone, Copy, Debug, PartialEq, Eq)]
pub(crate) enum SackTaken {
    /// It was taken, or is out of date.
    Taken,
    /// It claims what can't be: an ABORT is due (RFC 9260 3.3.10.13).
    Forged,
}

// The total size of the DATA chunks that are acknowledged, as `flight` counts it (RFC 9260 7.2.1, 7.2.2). An abandoned one was not outstanding: it has
// no bytes (RFC 3758 3.5).
fn size_acked(released: &[Released]) -> usize
    ensures { result ≡ size_acked released.now }
{
    let mut sum = 0usize;
    for one in released {
        if one.bytes > 0 {
            sum = sum.saturating_add(one.bytes).saturating_add(DATA_HEADER);
        }
    }
    sum
}

// When the last chunk was sent that is acknowledged now and was sent once (RFC 9260 6.3.1 C4, C5). An abandoned one may not have come: it has
// no bytes (RFC 3758 3.5).
fn sent_once(released: &[Released]) -> Option<u64>
    ensures { result ≡ sent_once released.now }
{
    let mut sent = None;
    for one in released {
        if one.nsent == 1 && one.bytes > 0 {
            sent = one.since;
        }
    }
    sent
}

// Notes the streams whose buffered amount fell to the low threshold.
fn note_low(low: &mut StreamSet, released: &[Released])
    ensures stays { Stays low.old low.new }
    ensures only { AddsOnly (λ n. list_any (tells_low n) released.now ≡ true) low.old low.new }
    ensures told { PutsAll (λ n. list_any (tells_low n) released.now) low.old low.new }
    ensures room { length low.new ≡ length low.old }
{
    for one in released {
        if one.is_low {
            low.insert(one.stream);
        }
    }
}

impl Outbound {
    /// Takes the cumulative TSN of a SHUTDOWN, which leaves the window as it is (RFC 9260 9.2). It tells of no gaps, so what SACKs reported past
    /// its TSN stays acknowledged (3.3.8). Refuses only for memory, and nothing has changed then, nor where it claims what can't be.
    #[tactic(auto, using(crate::proofs::Arriving::acknowledged_as, crate::proofs::Arriving::acknowledged_then, crate::proofs::Arriving::acknowledged_same))]
    pub(crate) fn take_shutdown(
        &mut self,
        alloc: Global,
        tsn: u32,
        low: &mut StreamSet,
        now: u64,
    ) -> Result<SackTaken, Fault>
        ensures low { Stays low.old low.new }
        ensures room { length low.new ≡ length low.old }
        ensures fell { AddsOnly (λ n. falls_at n (without_blocks tsn) self.old.sender ≡ true)
            low.old low.new }
        // Each stream is added whose buffered amount falls, if the set has room for it.
        ensures told { IfOk result (λ taken. PutsAll (λ n. fell n self.old.sender self.new.sender)
            low.old low.new) }
        ensures hearing { HearsBy (AsksToHear (shutdown_chunk tsn))
            self.old.sender self.new.sender }
        ensures acked { result ≡ Ok Taken
            → self.new.sender ≡ after_acked (without_blocks tsn) self.old.sender }
        ensures path { IfOk result (λ taken. ShutsBy tsn now self.old self.new) }
        ensures back { self.new.came_back ≡ self.old.came_back }
        ensures counts { IsCountedAlike self.old self.new }
        ensures limits { HasLimitsOf self.old self.new }
        ensures forged { result ≡ Ok Forged → self.new ≡ self.old }
        ensures err { OnErr result ((self.new ≡ self.old) × (low.new ≡ low.old)) }
    {
        let sack = ChunkSelectiveAck {
            cumulative_tsn_ack: tsn,
            advertised_receiver_window_credit: 0,
            gap_ack_blocks: Vec::new(alloc),
            duplicate_tsn: Vec::new(alloc),
        };
        let before = self.sender.acked_tsn();
        let flight = self.flight();
        let released = match replay::acked(&mut self.sender, &sack) {
            Ok(released) => released,
            Err(SenderRefusal::OutOfMemory) => return Err(Fault::OutOfMemory),
            Err(_) => return Ok(SackTaken::Forged),
        };
        if sna32lt(tsn, before) {
            return Ok(SackTaken::Taken);
        }
        note_low(low, &released);
        self.follow(&released, before, flight, now);
        self.run_timer(now);
        Ok(SackTaken::Taken)
    }

    /// Takes a SACK, unless it is out of date. Refuses only for memory, and nothing has changed then. A peer that takes back again and again
    /// what it reported has its blocks passed over: else each such SACK costs as much as is in flight.
    pub(crate) fn take_sack(
        &mut self,
        sack: &mut ChunkSelectiveAck,
        low: &mut StreamSet,
        now: u64,
    ) -> Result<SackTaken, Fault>
        // Whatever it answers, the sender is called for this SACK alone.
        ensures low { Stays low.old low.new }
        ensures room { length low.new ≡ length low.old }
        // Of streams only those are added whose buffered amount falls to the low threshold.
        ensures fell { AddsOnly (λ n. falls_by n (sack_of sack.old) self.old ≡ true)
            low.old low.new }
        // And each such stream is, if the set has room for it.
        ensures told { result ≡ Ok Taken
            → PutsAll (λ n. falls_by n (sack_of sack.old) self.old) low.old low.new }
        ensures hearing { HearsBy (AsksToHear (sack_chunk (sack_of sack.old)))
            self.old.sender self.new.sender }
        // The sender takes it, or it is outdated.
        ensures hears { result ≡ Ok Taken
            → HearsSackFirst (sack_of sack.old) self.old.sender self.new.sender }
        // And the windows, the RTO, T3-rtx and what is counted are what it makes of them (RFC 9260 6.3, 7.2).
        ensures path { result ≡ Ok Taken → MovesBy (sack_of sack.old) now self.old self.new }
        ensures counts { IsCountedAlike self.old self.new }
        ensures limits { HasLimitsOf self.old self.new }
        ensures forged { result ≡ Ok Forged → self.new ≡ self.old }
        ensures claims { result ≡ Ok Forged → IsForged (sack_of sack.old) self.old }
        ensures err { OnErr result ((self.new ≡ self.old) × (low.new ≡ low.old)) }
    {
        let before = self.sender.acked_tsn();
        if sna32lt(sack.cumulative_tsn_ack, before) {
            return Ok(SackTaken::Taken);
        }
        self.pass_over_blocks(sack);
        let flight = self.flight();
        let released = match self.sender.acked(sack) {
            Ok(acked) => {
                self.note_back(before, acked.taken_back.len());
                acked.released
            }
            Err(SenderRefusal::OutOfMemory) => return Err(Fault::OutOfMemory),
            Err(_) => return Ok(SackTaken::Forged),
        };
        note_low(low, &released);
        self.peer_window = sack.advertised_receiver_window_credit as usize;
        self.congestion.came_twice(&sack.duplicate_tsn);
        self.follow(&released, before, flight, now);
        let has_advanced = self.sender.acked_tsn() != before;
        self.count_missing(sack, &released, has_advanced, now);
        self.run_timer(now);
        Ok(SackTaken::Taken)
    }

    // Passes over the gap ack blocks of a SACK, where too much came back.
    fn pass_over_blocks(&self, sack: &mut ChunkSelectiveAck)
        ensures either { (sack_of sack.new ≡ sack_of sack.old)
            ⊎ (sack_of sack.new ≡ without_gaps (sack_of sack.old)) }
        ensures taken { sack_of sack.new ≡ taken_as (sack_of sack.old) self.now }
    {
        if self.came_back >= self.most_in_flight {
            sack.gap_ack_blocks.clear();
        }
    }

    // Counts what a SACK took back, against what the cumulative TSN passed.
    #[tactic(auto, unfolding(sctp_util::specs::Serial::distance))]
    fn note_back(&mut self, before: u32, back: usize)
        ensures { self.new ≡ record self.old {
          came_back = count_up (self.old.came_back
              - distance before self.old.sender.flight.acked_tsn) back;
        } }
    {
        let passed = self.sender.acked_tsn().wrapping_sub(before) as usize;
        self.came_back = self.came_back.saturating_sub(passed).saturating_add(back);
    }

    // Follows what was acknowledged: round trip, congestion window, and T3-rtx, which begins again where the cumulative TSN moved.
    fn follow(&mut self, released: &[Released], before: u32, flight: usize, now: u64)
        ensures grown { self.new.congestion
            ≡ grown_by (acked_by before flight released.now self.old.sender) released.now
            self.old.congestion }
        ensures trips { trips_of self.new
            ≡ measured_by now (sent_once released.now) (trips_of self.old) }
        ensures failures { self.new.failures
            ≡ cleared_by self.old.peer_window released.now self.old.failures }
        ensures timer { self.new.timer.at ≡ (
            if not (self.old.sender.flight.acked_tsn == before) then None
            else self.old.timer.at) }
        ensures rest { self.new ≡ record self.old {
          congestion = self.new.congestion;
          rto = self.new.rto;
          timer = self.new.timer;
          failures = self.new.failures;
          measured = self.new.measured;
          burst = None;
          is_skip_due = true;
        } }
        ensures limits { HasLimitsOf self.old self.new }
    {
        self.is_skip_due = true;
        self.burst = None;
        // A probe of a window of 0 that is answered is no failure (RFC 9260 6.1 A).
        if !released.is_empty() || self.peer_window == 0 {
            self.failures.clear();
        }
        self.measure(released, now);
        let has_advanced = self.sender.acked_tsn() != before;
        if has_advanced {
            self.timer.stop();
        }
        if has_advanced || !released.is_empty() {
            self.congestion.acked(Acknowledged {
                cumulative_tsn: self.sender.acked_tsn(),
                advances: has_advanced,
                bytes: size_acked(released),
                flight,
                all: self.sender.outbound().inflight_len() == 0,
            });
        }
    }

    // Measures a round trip, once in each (RFC 9260 6.3.1 C4).
    fn measure(&mut self, released: &[Released], now: u64)
        ensures trips { trips_of self.new
            ≡ measured_by now (sent_once released.now) (trips_of self.old) }
        ensures rest { self.new ≡ record self.old {
          rto = self.new.rto;
          measured = self.new.measured;
        } }
        ensures limits { self.new.rto.limits ≡ self.old.rto.limits }
    {
        let Some(since) = sent_once(released) else {
            return;
        };
        if since >= self.measured {
            self.rto.measured(now.saturating_sub(since));
            self.measured = now;
        }
    }

    // Measures a round trip as Fast Recovery begins, unless this SACK has done so. What is sent again waits in the queue that just overflowed, and T3-rtx
    // begins again with it (RFC 9260 7.2.4): an RTO of the trip before would expire before its SACK.
    fn measure_again(&mut self, released: &[Released], now: u64)
        ensures once { self.old.measured ≡ now → self.new ≡ self.old }
        ensures trips { trips_of self.new ≡ measured_again (is_some self.old.congestion.exit)
            now (sent_once released.now) (trips_of self.old) }
        ensures rest { self.new ≡ record self.old {
          rto = self.new.rto;
          measured = self.new.measured;
        } }
        ensures limits { self.new.rto.limits ≡ self.old.rto.limits }
    {
        if self.congestion.is_recovering() || self.measured == now {
            return;
        }
        let Some(since) = sent_once(released) else {
            return;
        };
        self.rto.measured(now.saturating_sub(since));
        self.measured = now;
    }

    // The TSN before which chunks are missing: the highest that is acknowledged now; in fast recovery, where the cumulative TSN moved, the highest
    // that the SACK reports (RFC 9260 7.2.4).
    fn missing_before(
        &self,
        sack: &ChunkSelectiveAck,
        released: &[Released],
        has_advanced: bool,
    ) -> Option<u32>
        ensures { result ≡ missing_before (sack_of sack.now) released.now has_advanced self.now }
    {
        let Some(block) = sack.gap_ack_blocks.last() else {
            return None;
        };
        let Some(one) = released.last() else {
            return None;
        };
        // What was sent before T3-rtx ran out says nothing of what was sent again since.
        if one.since.unwrap_or(0) < self.timed_out {
            return None;
        }
        if has_advanced && self.congestion.is_recovering() {
            let end = u32::from(block.end);
            return Some(sack.cumulative_tsn_ack.wrapping_add(end));
        }
        Some(one.tsn)
    }

    // Counts what is missing, and takes a third time for a loss (RFC 9260 7.2.4).
    #[tactic(auto, using(crate::proofs::Arriving::acknowledged_same, crate::proofs::Arriving::acknowledged_count))]
    fn count_missing(
        &mut self,
        sack: &ChunkSelectiveAck,
        released: &[Released],
        has_advanced: bool,
        now: u64,
    )
        ensures hearing { HearsBy IsCount self.old.sender self.new.sender }
        ensures missed { IsMissedBefore now (sent_once released.now)
            (missing_before (sack_of sack.now) released.now has_advanced self.old)
            self.old self.new }
        ensures rest { self.new ≡ record self.old {
          sender = self.new.sender;
          congestion = self.new.congestion;
          rto = self.new.rto;
          measured = self.new.measured;
          is_fast = self.new.is_fast;
        } }
        ensures limits { self.new.rto.limits ≡ self.old.rto.limits }
    {
        let Some(before) = self.missing_before(sack, released, has_advanced) else {
            return;
        };
        if self.sender.add_miss_indications(before) > 0 {
            self.measure_again(released, now);
            let acked = self.sender.acked_tsn();
            self.congestion
                .lost(acked, self.sender.next_tsn().wrapping_sub(1));
            self.is_fast = true;
        }
    }
}
