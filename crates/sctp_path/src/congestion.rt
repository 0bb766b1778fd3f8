//! The congestion window (RFC 9260 7.2): how many bytes may be outstanding. All amounts are in bytes.

ghost use Rattle.std.specs.Prelude.{◌≡◌, ◌+◌, ◌<◌, ◌≤◌, IsTrue, is_some};
ghost use Rattle.sctp_path.specs.Congestion.{pmdcs_of, first, after_sack, after_slow_start, slow_step, after_avoidance, halved, after_loss, after_timeout, after_idling, with_mtu, may_send, may_burst, after_resending, after_repeat, after_repeats};

use sctp_util::util::{sna32lt, sna32lte};
use std::marker::Model;

/// What a SACK acknowledges.
#[derive(Clone, Copy, Debug, PartialEq, Eq)]
pub struct Acknowledged {
    /// Its Cumulative TSN Ack.
    pub cumulative_tsn: u32,
    /// Whether that advances the Cumulative TSN Ack Point.
    pub advances: bool,
    /// The bytes of all DATA chunks that it acknowledges anew, also by gap ack blocks, with chunk headers and padding.
    pub bytes: usize,
    /// How many bytes were outstanding before it arrived.
    pub flight: usize,
    /// Whether all data that was sent is acknowledged now.
    pub all: bool,
}

// What a loss changed, while it may turn out that nothing was lost: cwnd and ssthresh before; which TSNs were outstanding, past one and up to
// another; how many chunks were sent again since, less those that came twice.
#[derive(Clone, Copy, Debug, PartialEq, Eq)]
struct Undo {
    window: usize,
    threshold: usize,
    above: u32,
    last: u32,
    again: usize,
}

/// The congestion window, what it depends on, and how it grows and falls. It is at least one packet.
#[derive(Clone, Copy, Debug, PartialEq, Eq)]
pub struct Congestion {
    pmdcs: usize,
    window: usize,
    threshold: usize,
    acked: usize,
    exit: Option<u32>,
    single: bool,
    idle: bool,
    undo: Option<Undo>,
}

impl Model for Congestion {
    ghost use Rattle.std.specs.Prelude.{◌≤◌, ◌<◌};
    ghost use Rattle.sctp_path.specs.Congestion.{Control};

    ghost Value = { Control };

    ghost view = { λ c. record {
      pmdcs = c.pmdcs;
      window = c.window;
      threshold = c.threshold;
      acked = c.acked;
      exit = c.exit;
      single = c.single;
      idle = c.idle;
      undo = c.undo;
    } };

    ghost inverse = { λ c. record {
      pmdcs = c.pmdcs;
      window = c.window;
      threshold = c.threshold;
      acked = c.acked;
      exit = c.exit;
      single = c.single;
      idle = c.idle;
      undo = c.undo;
    } };

    ghost invariant = { λ c. (4 ≤ c.pmdcs) × (c.pmdcs ≤ 65535) × (c.pmdcs ≤ c.window) };
}

impl Congestion {
    /// Of a path whose packets have at most `mtu` bytes, to a peer that advertised this window. Of an `mtu` over 65,535 no more
    /// is used; a packet is taken to have room for a word at least.
    pub fn new(mtu: usize, peer_window: usize) -> Congestion
        ensures { result ≡ first mtu peer_window }
    {
        let pmdcs = pmdcs_of(mtu);
        Congestion {
            pmdcs,
            window: (4 * pmdcs).min((2 * pmdcs).max(4404)),
            threshold: peer_window,
            acked: 0,
            exit: None,
            single: false,
            idle: false,
            undo: None,
        }
    }

    /// Takes a SACK that acknowledges DATA anew, or whose Cumulative TSN Ack advances. Call it before `lost` of the same SACK.
    pub fn acked(&mut self, sack: Acknowledged)
        ensures after { self.new ≡ after_sack sack self.old }
        ensures no_less { self.old.window ≤ self.new.window }
        ensures a_packet_more { self.new.window ≤ self.old.window + self.old.pmdcs }
    {
        if let Some(exit) = self.exit {
            if sna32lte(exit, sack.cumulative_tsn) {
                self.exit = None;
            }
        }
        if self.exit.is_some() {
            // Nothing grows in Fast Recovery.
        } else if self.window <= self.threshold {
            self.start_slowly(sack);
        } else {
            self.avoid(sack);
        }
        if sack.all {
            self.acked = 0;
        }
        if sack.bytes > 0 {
            self.single = false;
            self.idle = false;
        }
    }

    fn start_slowly(&mut self, sack: Acknowledged)
        ensures after { self.new ≡ after_slow_start sack self.old }
        ensures no_less { self.old.window ≤ self.new.window }
        ensures a_packet_more { self.new.window ≤ self.old.window + self.old.pmdcs }
    {
        if sack.advances && self.window - self.pmdcs < sack.flight {
            let step = self.slow_step();
            self.window = self.window.saturating_add(sack.bytes.min(step));
        }
    }

    // By how much slow start widens cwnd at most: by a packet, and by less from 200 packets on (RFC 3742).
    fn slow_step(&self) -> usize
        ensures value { result ≡ slow_step self.now }
        ensures a_packet { result ≤ self.now.pmdcs }
    {
        let parts = (self.window / (100 * self.pmdcs)).max(1);
        (self.pmdcs / parts).max(1)
    }

    fn avoid(&mut self, sack: Acknowledged)
        ensures { self.new ≡ after_avoidance sack self.old }
    {
        let acked = self.acked.saturating_add(sack.bytes);
        if sack.flight < self.window {
            self.acked = acked.min(self.window);
        } else if acked < self.window {
            self.acked = acked;
        } else {
            self.acked = acked - self.window;
            self.window = self.window.saturating_add(self.pmdcs);
        }
    }

    // Half of the window, and at least four packets.
    fn halved(&self) -> usize
        ensures value { result ≡ halved self.now }
        ensures least { self.now.pmdcs ≤ result }
    {
        (self.window / 2).max(4 * self.pmdcs)
    }

    /// SACKs reported a chunk missing, so that it is to be sent again (RFC 9260 7.2.4). TSNs past `acked`, the Cumulative TSN Ack Point, up to
    /// `highest` are outstanding.
    pub fn lost(&mut self, acked: u32, highest: u32)
        ensures { self.new ≡ after_loss acked highest self.old.exit self.old }
    {
        if self.exit.is_none() {
            let half = self.halved();
            self.undo = Some(Undo {
                window: self.window,
                threshold: self.threshold,
                above: acked,
                last: highest,
                again: 0,
            });
            self.threshold = half;
            self.window = half;
            self.acked = 0;
            self.exit = Some(highest);
            self.idle = false;
        }
    }

    /// A chunk was sent again.
    pub fn sent_again(&mut self)
        ensures { self.new ≡ after_resending self.old.undo self.old }
    {
        if let Some(undo) = self.undo {
            self.undo = Some(Undo {
                again: undo.again.saturating_add(1),
                ..undo
            });
        }
    }

    /// Takes the Duplicate TSNs of a SACK (RFC 9260 3.3.4). Where each chunk that was sent again since a loss came twice nothing was lost: cwnd and
    /// ssthresh are no less than before it. Call it before `acked` of the same SACK.
    pub fn came_twice(&mut self, tsns: &[u32])
        ensures { self.new ≡ after_repeats tsns.now self.old }
    {
        for tsn in tsns {
            self.take_repeat(*tsn);
        }
    }

    // The same of one of them.
    fn take_repeat(&mut self, tsn: u32)
        ensures { self.new ≡ after_repeat tsn self.old.undo self.old }
    {
        let Some(undo) = self.undo else {
            return;
        };
        if undo.again == 0 || !sna32lt(undo.above, tsn) || !sna32lte(tsn, undo.last) {
            return;
        }
        if undo.again > 1 {
            self.undo = Some(Undo {
                again: undo.again - 1,
                ..undo
            });
            return;
        }
        self.window = self.window.max(undo.window);
        self.threshold = self.threshold.max(undo.threshold);
        self.undo = None;
    }

    /// T3-rtx expired.
    pub fn timed_out(&mut self)
        ensures { self.new ≡ after_timeout self.old }
    {
        self.threshold = self.halved();
        self.window = self.pmdcs;
        self.acked = 0;
        self.exit = None;
        self.single = true;
        self.idle = false;
        self.undo = None;
    }

    /// No DATA was sent for one RTO, and none is outstanding.
    pub fn idled(&mut self)
        ensures { self.new ≡ after_idling self.old }
    {
        let half = self.halved();
        if !self.idle {
            self.threshold = self.window;
        }
        self.window = half;
        self.idle = true;
        self.undo = None;
    }

    /// The packets of the path have at most so many bytes now.
    pub fn set_mtu(&mut self, mtu: usize)
        ensures { self.new ≡ with_mtu mtu self.old }
    {
        let pmdcs = pmdcs_of(mtu);
        self.pmdcs = pmdcs;
        self.window = self.window.max(pmdcs);
    }

    /// PMDCS: the bytes of chunks that a packet has room for.
    pub fn pmdcs(&self) -> usize
        ensures value { result ≡ self.now.pmdcs }
        ensures positive { 0 < result }
    {
        self.pmdcs
    }

    /// cwnd: how many bytes may be outstanding.
    pub fn window(&self) -> usize
        ensures value { result ≡ self.now.window }
        ensures a_packet { self.now.pmdcs ≤ result }
    {
        self.window
    }

    /// ssthresh: the window up to which slow start grows it.
    pub fn threshold(&self) -> usize
        ensures { result ≡ self.now.threshold }
    {
        self.threshold
    }

    /// Whether Fast Recovery lasts.
    pub fn is_recovering(&self) -> bool
        ensures { result ≡ is_some self.now.exit }
    {
        self.exit.is_some()
    }

    /// Whether another packet may be sent while so many bytes are outstanding: at most cwnd. One packet may breach cwnd (RFC 9260 6.1 B).
    pub fn may_send(&self, flight: usize) -> bool
        ensures value { result ≡ may_send flight self.now }
        ensures one { flight ≡ 0 → IsTrue result }
    {
        if self.single {
            flight == 0
        } else {
            flight <= self.window
        }
    }

    /// Whether another packet may be sent in a burst that began while `base` bytes were outstanding, as `flight` are: Max.Burst is four packets
    /// (RFC 9260 6.1 D).
    pub fn may_burst(&self, base: usize, flight: usize) -> bool
        ensures value { result ≡ may_burst base flight self.now }
        ensures first { flight ≤ base → IsTrue result }
    {
        flight.saturating_sub(base) < 4 * self.pmdcs
    }
}

// PMDCS of packets that have at most so many bytes.
fn pmdcs_of(mtu: usize) -> usize
    ensures value { result ≡ pmdcs_of mtu }
    ensures least { 4 ≤ result }
    ensures most { result ≤ 65535 }
{
    let bytes = mtu.min(65535).saturating_sub(12);
    (bytes / 4 * 4).max(4)
}
