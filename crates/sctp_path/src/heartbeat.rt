//! Heartbeats of an idle path (RFC 9260 8.3).

ghost use Rattle.std.specs.Prelude.{◌≡◌, None, is_some};
ghost use Rattle.sctp_path.specs.Heartbeats.{next_at, after_asking, trip_of, asked_after};

// A heartbeat that was sent: the nonce of its Heartbeat Info, and when.
#[derive(Clone, Copy, Debug, PartialEq, Eq)]
struct Asked {
    nonce: u64,
    at: u64,
}

/// When the path was used, and the heartbeat that waits for its answer. Moments are in nanoseconds.
#[derive(Clone, Copy, Debug, PartialEq, Eq)]
pub struct Heartbeat {
    interval: u64,
    used: u64,
    asked: Option<Asked>,
}

impl Heartbeat {
    /// Of a path that is used now. `interval` is HB.interval, 30 s by RFC 9260 16.
    pub fn new(now: u64, interval: u64) -> Heartbeat
        ensures { result ≡ record { interval = interval; used = now; asked = None } }
    {
        Heartbeat {
            interval,
            used: now,
            asked: None,
        }
    }

    /// DATA was sent.
    pub fn used(&mut self, now: u64)
        ensures { self.new ≡ record self.old { used = now } }
    {
        self.used = now;
    }

    /// When the next HEARTBEAT is due. The caller may add jitter to the RTO.
    pub fn at(&self, rto: u64) -> u64
        ensures { result ≡ next_at rto self.now }
    {
        self.used.saturating_add(rto).saturating_add(self.interval)
    }

    /// A HEARTBEAT was sent, with this nonce in its Heartbeat Info.
    pub fn sent(&mut self, now: u64, nonce: u64)
        ensures { self.new ≡ after_asking now nonce self.old }
    {
        self.used(now);
        self.asked = Some(Asked { nonce, at: now });
    }

    /// A HEARTBEAT ACK came back with this nonce. Answers the round trip where it is the one that waits; any other changes nothing.
    pub fn answered(&mut self, now: u64, nonce: u64) -> Option<u64>
        ensures trip { result ≡ trip_of now nonce self.old.asked }
        ensures after { self.new ≡ record self.old { asked = asked_after nonce self.old.asked } }
    {
        match self.asked {
            Some(asked) if asked.nonce == nonce => {
                self.asked = None;
                Some(now.saturating_sub(asked.at))
            }
            _ => None,
        }
    }

    /// The last HEARTBEAT counts as a failure (8.1). It does so once: nothing waits for its answer any more.
    pub fn failed(&mut self)
        ensures { self.new ≡ record self.old { asked = None } }
    {
        if self.asked.is_some() {
            self.asked = None;
        }
    }

    /// Whether the last HEARTBEAT was not answered. Where that is so as the next one is due, it counts as a failure (8.1), and the
    /// RTO backs off.
    pub fn is_unanswered(&self) -> bool
        ensures { result ≡ is_some self.now.asked }
    {
        self.asked.is_some()
    }
}
