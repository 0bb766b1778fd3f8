//! What is sent, and when (RFC 9260 6.1, 6.3, 7.2; RFC 3758 3.5; RFC 7496 3.1).

ghost use Rattle.std.specs.Prelude.{◌≡◌, ◌⊎◌, ◌-◌, ◌<◌, ◌≤◌, ◌==◌, ◌||◌, [], max, min, nat_lt, not, true, false, None, Some, OnOk, OnErr, IfOk, IfErr, IsOk, length};
ghost use Rattle.sctp_association.specs.declared.fault.Fault.TheVariants.{OutOfMemory};
ghost use Rattle.std.specs.List.{list_any};
ghost use Rattle.sctp_association.specs.Arrivals.{new_sender};
ghost use Rattle.sctp_association.specs.Asked.{AsksOn};
ghost use Rattle.sctp_association.specs.Beats.{after_beat};
ghost use Rattle.sctp_association.specs.Brought.{AddsOnly};
ghost use Rattle.sctp_association.specs.Congested.{expired_at, path_of};
ghost use Rattle.sctp_association.specs.Counts.{CountsNone, HasLimitsOf};
ghost use Rattle.sctp_association.specs.Halves.{fragment_size};
ghost use Rattle.sctp_association.specs.Lows.{PutsAll, tells_drop_low};
ghost use Rattle.sctp_association.specs.Most.{most_data, tells_some};
ghost use Rattle.sctp_association.specs.Runs.{Sends};
ghost use Rattle.sctp_association.specs.Telling.{Stays};
ghost use Rattle.sctp_association.specs.Waiting.{IsRefusal, closed_where, fault_of, opened, waiting_fault};
ghost use Rattle.sctp_sender.specs.Settings.{IsKeptWithin, with_fragment_size, with_low_on};
ghost use Rattle.sctp_stream.specs.Stats.{count_up};
ghost use Rattle.sctp_stream.specs.declared.outbound_stream.OutboundStream.{OutboundStream};
ghost use Rattle.sctp_association.specs.Sending.{EndsWithin, IsTimed, flight_of, holds_nothing, is_front_late, is_none_of, marked_in, may_drop, t3_after, t3_time};
ghost use Rattle.sctp_delivery.specs.SenderCalls.{sets_low, sets_mode, writes};
ghost use Rattle.sctp_outbound.specs.pending_queue.PendingQueue.{chunk_count, next_pending};
ghost use Rattle.sctp_path.specs.Congestion.{after_timeout, first as first_control};
ghost use Rattle.sctp_path.specs.Rto.{after_back_off, first as first_rto};
ghost use Rattle.sctp_path.specs.Timers.{is_due, is_passed, one_more};
ghost use Rattle.sctp_sender.specs.Drops.{with_lifetimes};
ghost use Rattle.sctp_sender.specs.Resending.{all_marked};
ghost use Rattle.sctp_sender.specs.Thresholds.{fell, tells_message_low};
ghost use Rattle.sctp_sender.specs.Sender.{is_open, stream_of, with_flight, with_mode_on, written_to};

mod acks;
mod sending;

pub(crate) use self::acks::SackTaken;
use crate::fault::Fault;
use crate::stream_set::StreamSet;
use bytes::Bytes;
use sctp_data::chunk::chunk_payload_data::{PayloadProtocolIdentifier, ReliabilityType};
use sctp_path::{Congestion, Failures, Rto, RtoLimits, Timer};
use sctp_sender::replay;
use sctp_sender::sender::flight::late::AbandonedMessage;
use sctp_sender::sender::refusal::SenderRefusal;
use sctp_sender::sender::{Dropped, Reported, Sender};
use std::alloc::Global;

/// The bytes of a DATA chunk before its user data.
pub(crate) const DATA_HEADER: usize = 16;

// More groups of messages than expire at once.
const MOST_DROPS: u32 = 10_000;

/// How the sending half is set up.
#[derive(Clone, Copy)]
pub(crate) struct OutboundConfig {
    pub(crate) first_tsn: u32,
    pub(crate) mtu: usize,
    pub(crate) max_message_size: u32,
    pub(crate) most_waiting: usize,
    pub(crate) most_in_flight: usize,
    pub(crate) max_retrans: u32,
    pub(crate) rto: RtoLimits,
}

/// The sending half: what was written and is not acknowledged, and when it is sent.
#[derive(Drop)]
pub(crate) struct Outbound {
    pub(crate) sender: Sender,
    pub(crate) congestion: Congestion,
    pub(crate) rto: Rto,
    timer: Timer,
    failures: Failures,
    mtu: usize,
    most_waiting: usize,
    // The most chunks in flight beside the last ones of abandoned messages.
    most_in_flight: usize,
    // When DATA left last, or the congestion window was lowered for idle time.
    used: u64,
    // When a round trip was measured last, and when T3-rtx ran out last.
    measured: u64,
    timed_out: u64,
    // How many chunks SACKs took back, less those that the cumulative TSN of a SACK passed since.
    came_back: usize,
    // The credit of the last SACK, or of the handshake.
    pub(crate) peer_window: usize,
    // How many bytes of DATA chunks were outstanding when the burst began that is under way.
    burst: Option<usize>,
    // When nothing more left in it: it is over at a later moment.
    paused: Option<u64>,
    // How often a DATA chunk was sent again, and T3-rtx ran out.
    pub(crate) resent: u64,
    pub(crate) timeouts: u64,
    // Whether the peer takes FORWARD-TSN: else every message is reliable.
    is_partial: bool,
    // Whether a FORWARD-TSN is due, if there is something to tell by one.
    is_skip_due: bool,
    // Whether chunks were just reported missing three times: one packet of them ignores the window.
    is_fast: bool,
}

// How many bytes of user data a chunk of at most so many bytes has.
fn fragment_of(pmdcs: usize) -> u32
    ensures value { result ≡ max 1 (min (pmdcs - 16) 65519) }
    ensures some { 0 < result }
    ensures short { result ≤ 65519 }
{
    pmdcs.saturating_sub(DATA_HEADER).min(65_519).max(1) as u32
}

// What an application is told, where its message is not taken.
fn fault_of(refusal: SenderRefusal) -> Fault
    ensures { result ≡ fault_of refusal }
{
    match refusal {
        SenderRefusal::MessageTooLarge => Fault::MessageTooLarge,
        SenderRefusal::QueueFull => Fault::Full,
        _ => Fault::OutOfMemory,
    }
}

// Notes the streams whose buffered amount fell to the low threshold as messages were abandoned.
fn note_abandoned(low: &mut StreamSet, gone: &[AbandonedMessage])
    ensures stays { Stays low.old low.new }
    ensures told { PutsAll (λ s. list_any (tells_message_low s) gone.now) low.old low.new }
    ensures only { AddsOnly (λ s. list_any (tells_message_low s) gone.now ≡ true)
        low.old low.new }
    ensures room { length low.new ≡ length low.old }
{
    for one in gone {
        if one.is_low {
            low.insert(one.stream);
        }
    }
}

impl Outbound {
    /// Nothing is written. It takes no memory.
    pub(crate) fn new(alloc: Global, config: OutboundConfig) -> Outbound
        ensures sender { result.sender ≡ new_sender
            config.first_tsn (fragment_size config.mtu) config.max_message_size }
        ensures failures { result.failures ≡ record { count = 0; most = config.max_retrans } }
        ensures rto { result.rto ≡ first_rto config.rto }
        ensures congestion { result.congestion ≡ first_control config.mtu 0 }
    {
        let congestion = Congestion::new(config.mtu, 0);
        Outbound {
            sender: Sender::new(
                alloc,
                config.first_tsn,
                fragment_of(congestion.pmdcs()),
                config.max_message_size,
                Reported::Keep,
            ),
            congestion,
            mtu: config.mtu,
            rto: Rto::new(config.rto),
            timer: Timer::new(),
            failures: Failures::new(config.max_retrans),
            most_waiting: config.most_waiting,
            most_in_flight: config.most_in_flight,
            used: 0,
            measured: 0,
            timed_out: 0,
            came_back: 0,
            peer_window: 0,
            burst: None,
            paused: None,
            resent: 0,
            timeouts: 0,
            is_partial: false,
            is_skip_due: false,
            is_fast: false,
        }
    }

    /// The peer told its window, and whether it takes FORWARD-TSN.
    pub(crate) fn connected(&mut self, peer_window: usize, is_partial: bool)
        ensures rest { self.new ≡ record self.old {
          congestion = self.new.congestion;
          peer_window = peer_window;
          is_partial = is_partial;
        } }
    {
        self.congestion = Congestion::new(self.mtu, peer_window);
        self.peer_window = peer_window;
        self.is_partial = is_partial;
    }

    /// Takes a message, on a stream that opens by that. Nothing has changed after a refusal.
    #[tactic(auto, using(crate::proofs::Opened::restored))]
    pub(crate) fn write(
        &mut self,
        stream: u16,
        ppi: PayloadProtocolIdentifier,
        bytes: &Bytes,
    ) -> Result<(), Fault>
        ensures ok { 0 < length bytes.now → OnOk result ((l : OutboundStream)
            → stream_of stream (opened stream self.old.sender) ≡ Some l
            → self.new ≡ record self.old {
              sender = written_to l stream ppi bytes.now
                  (opened stream self.old.sender);
            }) }
        // A message of no bytes opens its stream, and no more.
        ensures empty { length bytes.now ≡ 0 → OnOk result (self.new
            ≡ record self.old { sender = opened stream self.old.sender }) }
        ensures asks { OnOk result
            (AsksOn stream (writes stream ppi bytes.now) self.old.sender self.new.sender) }
        ensures sender { self.new ≡ record self.old { sender = self.new.sender } }
        ensures accepted { IsOk result → waiting_fault stream (length bytes.now)
            self.old.most_waiting self.old.sender ≡ None }
        ensures refused { IfErr result (λ e. IsRefusal e (waiting_fault stream (length bytes.now)
            self.old.most_waiting self.old.sender)) }
        ensures err { OnErr result (self.new ≡ self.old) }
    {
        let waiting = self.sender.outbound().pending_bytes();
        if bytes.len() > self.most_waiting.saturating_sub(waiting) {
            return Err(Fault::Full);
        }
        let is_new = self.open(stream)?;
        match self.sender.write(stream, ppi, bytes) {
            Ok(_) => Ok(()),
            Err(refusal) => {
                self.close_again(stream, is_new);
                Err(fault_of(refusal))
            }
        }
    }

    /// Opens a stream, unless it is open, and answers whether it did. Refuses only for memory, and nothing has changed then.
    pub(crate) fn open(&mut self, stream: u16) -> Result<bool, Fault>
        ensures ok { OnOk result (self.new
            ≡ record self.old { sender = opened stream self.old.sender }) }
        ensures did { IfOk result (λ did. did ≡ not (is_open stream self.old.sender)) }
        ensures memory { IfErr result (λ e. e ≡ OutOfMemory) }
        ensures err { OnErr result (self.new ≡ self.old) }
    {
        if self.sender.stream(stream).is_some() {
            return Ok(false);
        }
        match self.sender.open(stream) {
            Ok(()) => Ok(true),
            Err(_) => Err(Fault::OutOfMemory),
        }
    }

    // Closes a stream again, where a call opened it.
    fn close_again(&mut self, stream: u16, was_opened: bool)
        ensures { self.new ≡ record self.old {
          sender = closed_where was_opened stream self.old.sender;
        } }
    {
        if was_opened {
            self.sender.close(stream);
        }
    }

    /// Sets the mode of what is written to a stream from now on; the stream opens by that. Refuses only for memory, and nothing has
    /// changed then.
    #[tactic(auto, using(crate::proofs::Opened::opened_is))]
    pub(crate) fn set_mode(
        &mut self,
        stream: u16,
        unordered: bool,
        reliability: ReliabilityType,
        value: u32,
    ) -> Result<(), Fault>
        ensures ok { OnOk result (self.new ≡ record self.old {
          sender = with_mode_on stream
              unordered reliability value (opened stream self.old.sender);
        }) }
        ensures asks { OnOk result (AsksOn stream
            (sets_mode stream unordered reliability value) self.old.sender self.new.sender) }
        ensures memory { IfErr result (λ e. e ≡ OutOfMemory) }
        ensures err { OnErr result (self.new ≡ self.old) }
    {
        self.open(stream)?;
        match self.sender.set_mode(stream, unordered, reliability, value) {
            Ok(()) => Ok(()),
            Err(_) => unreachable!(),
        }
    }

    /// Sets the amount of a stream down to which a fall is told; the stream opens by that. Refuses only for memory, and nothing has changed
    /// then.
    #[tactic(auto, using(crate::proofs::Opened::opened_is))]
    pub(crate) fn set_low(&mut self, stream: u16, bytes: usize) -> Result<(), Fault>
        ensures ok { OnOk result (self.new ≡ record self.old {
          sender = with_low_on stream bytes (opened stream self.old.sender);
        }) }
        ensures asks { OnOk result
            (AsksOn stream (sets_low stream bytes) self.old.sender self.new.sender) }
        ensures memory { IfErr result (λ e. e ≡ OutOfMemory) }
        ensures err { OnErr result (self.new ≡ self.old) }
    {
        self.open(stream)?;
        match self.sender.set_buffered_amount_low_threshold(stream, bytes) {
            Ok(()) => Ok(()),
            Err(_) => unreachable!(),
        }
    }

    /// Packets have at most so many bytes from now on, and what is written is cut to that (RFC 9260 7.3). Call it where nothing waits or is in
    /// flight, or with more bytes than before.
    pub(crate) fn set_mtu(&mut self, mtu: usize)
        ensures sender { self.new.sender
            ≡ with_fragment_size (fragment_size mtu) self.old.sender }
        ensures kept { IsKeptWithin self.old.sender }
        ensures counts { CountsNone self.old self.new }
    {
        self.mtu = mtu;
        self.congestion.set_mtu(mtu);
        self.sender
            .set_fragment_size(fragment_of(self.congestion.pmdcs()));
    }

    /// When T3-rtx runs out. Where it does not run though something is in flight, it is to be started at once.
    pub(crate) fn next_time(&self) -> Option<u64>
        ensures { result ≡ t3_time self.now.sender.flight.queue.inflight.chunks self.now.timer.at }
    {
        if self.timer.at().is_none() && self.sender.outbound().inflight_len() > 0 {
            return Some(0);
        }
        self.timer.at()
    }

    /// Whether DATA left at this moment.
    pub(crate) fn was_used(&self, now: u64) -> bool
        ensures { result ≡ true → self.now.used ≡ now }
    {
        self.used == now && self.is_in_flight()
    }

    /// Whether a chunk is in flight.
    pub(crate) fn is_in_flight(&self) -> bool
        ensures { result ≡ not (is_none_of self.now.sender.flight.queue.inflight.chunks) }
    {
        self.sender.outbound().inflight_len() > 0
    }

    /// Whether a chunk waits.
    pub(crate) fn is_waiting(&self) -> bool
        ensures { result ≡ not (chunk_count self.now.sender.flight.queue.pending == 0) }
    {
        self.sender.outbound().pending_len() > 0
    }

    /// Whether nothing waits and nothing is in flight.
    pub(crate) fn is_drained(&self) -> bool
        ensures { result ≡ holds_nothing self.now.sender }
    {
        !self.is_in_flight() && !self.is_waiting()
    }

    // Whether a chunk in flight is marked to be sent again: then nothing new is sent (RFC 9260 6.1 C).
    fn has_marked(&self) -> bool
        ensures { result ≡ nat_lt 0 (marked_in self.now.sender) }
    {
        self.sender.outstanding().marked > 0
    }

    /// Whether something waits, or is to be sent again.
    pub(crate) fn has_data(&self) -> bool {
        self.has_marked() || self.is_waiting()
    }

    /// A HEARTBEAT was answered after this time (RFC 9260 8.3).
    pub(crate) fn trip_measured(&mut self, trip: u64)
        ensures trip { self.new ≡ after_beat (Some trip) self.old }
        ensures limits { HasLimitsOf self.old self.new }
    {
        self.rto.measured(trip);
        self.failures.clear();
    }

    /// A HEARTBEAT was not answered. Answers whether it was so once too often (RFC 9260 8.1).
    pub(crate) fn count_failure(&mut self) -> bool
        ensures counted { self.new.failures ≡ one_more self.old.failures }
        ensures more { self.old.failures.count ≤ self.new.failures.count }
        ensures passed { result ≡ is_passed self.new.failures }
        ensures backed_off { self.new.rto ≡ after_back_off self.old.rto }
        ensures rest { self.new ≡ record self.old {
          rto = self.new.rto;
          failures = self.new.failures;
        } }
    {
        self.rto.backed_off();
        self.failures.count()
    }

    // The total size of the DATA chunks that are outstanding: sent, and neither acknowledged nor abandoned nor taken for lost (RFC 9260 2.3, 7.2).
    fn flight(&self) -> usize
        ensures { result ≡ flight_of self.now.sender.flight.queue.inflight.chunks }
    {
        let outstanding = self.sender.outstanding();
        let headers = outstanding.chunks.saturating_mul(DATA_HEADER);
        outstanding.bytes.saturating_add(headers)
    }

    /// T3-rtx ran out, if it did (RFC 9260 6.3.3). Answers whether it did so once too often (8.1). It runs then while something is in flight.
    pub(crate) fn time_out(&mut self, now: u64) -> bool
        ensures waits { is_due now self.old.timer.at ≡ false → (result ≡ false)
            × (self.new ≡ record self.old { timer = self.new.timer }) }
        ensures counted { is_due now self.old.timer.at ≡ true
            → (self.new.failures ≡ one_more self.old.failures)
            × (result ≡ is_passed self.new.failures) }
        ensures more { self.old.failures.count ≤ self.new.failures.count }
        ensures backed_off { is_due now self.old.timer.at ≡ true
            → (self.new.rto ≡ after_back_off self.old.rto)
            × (self.new.congestion ≡ after_timeout self.old.congestion) }
        ensures marked { is_due now self.old.timer.at ≡ true → self.new.sender
            ≡ with_flight (all_marked self.old.sender.flight) self.old.sender }
        ensures told { is_due now self.old.timer.at ≡ true
            → self.new.timeouts ≡ count_up self.old.timeouts 1 }
        ensures resent { self.new.resent ≡ self.old.resent }
        ensures timed { IsTimed self.new.sender.flight.queue.inflight.chunks self.new.timer.at }
        ensures path { path_of self.new
            ≡ expired_at now (is_due now self.old.timer.at) (path_of self.old) }
        ensures limits { HasLimitsOf self.old self.new }
        ensures soon { EndsWithin now self.new.rto.limits.most self.old.timer.at
            self.new.timer.at }
    {
        if !self.timer.is_due(now) {
            self.run_timer(now);
            return false;
        }
        self.timer.stop();
        self.timed_out = now;
        self.timeouts = self.timeouts.saturating_add(1);
        self.rto.backed_off();
        self.congestion.timed_out();
        self.sender.retransmit_all();
        self.is_skip_due = true;
        self.burst = None;
        self.run_timer(now);
        self.failures.count()
    }

    // The timer runs while a chunk is in flight; an abandoned one is until a SACK passes it (RFC 9260 6.3.2; RFC 3758 3.5).
    fn run_timer(&mut self, now: u64)
        ensures at { self.new.timer.at ≡ t3_after now self.old.rto.rto
            self.old.sender.flight.queue.inflight.chunks self.old.timer.at }
        ensures rest { self.new ≡ record self.old { timer = self.new.timer } }
        ensures timed { IsTimed self.new.sender.flight.queue.inflight.chunks self.new.timer.at }
        ensures soon { EndsWithin now self.new.rto.limits.most self.old.timer.at
            self.new.timer.at }
    {
        if self.sender.outbound().inflight_len() == 0 {
            self.timer.stop();
        } else {
            self.timer.start(now, self.rto.get());
        }
    }

    /// Abandons what is past its lifetime (RFC 3758 4.1), and what was sent as often as it may be (RFC 7496 3.1). While nothing is to be sent
    /// again, what is in flight may have come: it is not abandoned, unless more of the message in front waits than its last chunk.
    pub(crate) fn abandon(&mut self, low: &mut StreamSet, now: u64) -> Result<(), Fault>
        ensures low { Stays low.old low.new }
        ensures room { length low.new ≡ length low.old }
        ensures told { PutsAll (λ s. fell s self.old.sender self.new.sender) low.old low.new }
        ensures only { AddsOnly (λ s. fell s self.old.sender self.new.sender ≡ true)
            low.old low.new }
        ensures dropped { Sends [] self.old.sender self.new.sender }
        ensures early { may_drop now self.old.sender ≡ false → self.new ≡ self.old
            ⊎ self.new ≡ record self.old { sender = with_lifetimes now self.old.sender } }
        ensures rest { self.new ≡ record self.old {
          sender = self.new.sender;
          is_skip_due = self.new.is_skip_due;
        } }
        ensures fewer { most_data self.new ≤ most_data self.old }
        ensures skip { self.old.is_skip_due ≡ true → self.new.is_skip_due ≡ true }
    {
        if !self.is_partial || self.is_drained() {
            return Ok(());
        }
        for _ in 0..MOST_DROPS {
            if !self.may_drop(now) {
                replay::start(&mut self.sender, now);
                break;
            }
            match self.sender.drop_expired(now)? {
                Some(dropped) => self.note_dropped(low, &dropped),
                None => break,
            }
        }
        Ok(())
    }

    // A FORWARD-TSN is due where some message of which a part was sent is dropped (RFC 3758 3.5 A3).
    fn note_dropped(&mut self, low: &mut StreamSet, dropped: &Dropped)
        ensures low { Stays low.old low.new }
        ensures told { PutsAll (λ s. tells_drop_low s dropped.now) low.old low.new }
        ensures only { AddsOnly (λ s. tells_drop_low s dropped.now ≡ true) low.old low.new }
        ensures room { length low.new ≡ length low.old }
        ensures rest { self.new ≡ record self.old {
          is_skip_due = tells_some dropped.now || self.old.is_skip_due;
        } }
    {
        match dropped {
            Dropped::Expired(gone) => {
                if gone.is_low {
                    low.insert(gone.stream);
                }
            }
            Dropped::Abandoned(gone) => {
                note_abandoned(low, gone);
                if !gone.is_empty() {
                    self.is_skip_due = true;
                }
            }
        }
    }

    // Whether something is to be sent again, or the message in front is past its lifetime, and more of it waits than its last chunk.
    fn may_drop(&self, now: u64) -> bool
        ensures { result ≡ may_drop now self.now.sender }
    {
        self.sender.outstanding().marked > 0 || self.is_front_late(now)
    }

    // Whether the message in front is past its lifetime, and more of it waits than its last chunk.
    fn is_front_late(&self, now: u64) -> bool
        ensures { result ≡ is_front_late now
            (next_pending self.now.sender.flight.queue.pending) }
    {
        let Some(chunk) = self.sender.outbound().peek_pending() else {
            return false;
        };
        let is_last = chunk.ending_fragment && !chunk.beginning_fragment;
        match chunk.deadline {
            Some(deadline) => deadline <= now && !is_last,
            None => false,
        }
    }
}
