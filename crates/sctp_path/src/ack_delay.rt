//! When a SACK is due (RFC 9260 6.2).

ghost use Rattle.std.specs.Prelude.{◌≡◌, ◌+◌, ◌≤◌, None, IfSome};
ghost use Rattle.sctp_path.specs.Timers.{most_delay, new_delay, after_packet, is_due};

use crate::timer;
use std::marker::Model;

/// When the next SACK is due. Moments are in nanoseconds.
#[derive(Clone, Copy, Debug, PartialEq, Eq)]
pub struct AckDelay {
    delay: u64,
    due: Option<u64>,
}

impl Model for AckDelay {
    ghost use Rattle.std.specs.Prelude.{◌≤◌};
    ghost use Rattle.sctp_path.specs.Timers.{Delay, most_delay};

    ghost Value = { Delay };

    ghost view = { λ a. record { delay = a.delay; due = a.due } };

    ghost inverse = { λ a. record { delay = a.delay; due = a.due } };

    ghost invariant = { λ a. a.delay ≤ most_delay };
}

impl AckDelay {
    /// No SACK is due. SACK.Delay is 200 ms by RFC 9260 16, and no more than 500 ms is used.
    pub fn new(delay: u64) -> AckDelay
        ensures { result ≡ new_delay delay }
    {
        AckDelay {
            delay: delay.min(500_000_000),
            due: None,
        }
    }

    /// A packet with DATA came. `at_once`: a gap or a repeat is to be reported, a chunk had the I bit (RFC 7053), or the window opened.
    pub fn packet_came(&mut self, now: u64, at_once: bool)
        ensures after { self.new ≡ after_packet now at_once self.old }
        ensures soon { IfSome self.new.due (λ at. at ≤ now + most_delay) }
    {
        let due = match self.due {
            Some(at) => at.min(now),
            None if at_once => now,
            None => now.saturating_add(self.delay),
        };
        self.due = Some(due);
    }

    /// A SACK was sent.
    pub fn sent(&mut self)
        ensures { self.new ≡ record self.old { due = None } }
    {
        self.due = None;
    }

    /// When a SACK is due, None where no packet waits for one.
    pub fn at(&self) -> Option<u64>
        ensures { result ≡ self.now.due }
    {
        self.due
    }

    /// Whether a SACK is due now.
    pub fn is_due(&self, now: u64) -> bool
        ensures { result ≡ is_due now self.now.due }
    {
        timer::is_due(now, self.due)
    }
}
