//! When the peer counts as unreachable (RFC 9260 8.1).

ghost use Rattle.std.specs.Prelude.{◌≡◌, ◌≤◌};
ghost use Rattle.sctp_path.specs.Timers.{one_more, is_passed};

/// How often in a row T3-rtx expired or a HEARTBEAT was not answered.
#[derive(Clone, Copy, Debug, PartialEq, Eq)]
pub struct Failures {
    count: u32,
    most: u32,
}

impl Failures {
    /// None yet. `most` is Association.Max.Retrans, or Max.Init.Retransmits.
    pub fn new(most: u32) -> Failures
        ensures { result ≡ record { count = 0; most = most } }
    {
        Failures { count: 0, most }
    }

    /// Counts one more, and answers whether the limit is passed, so that the association fails.
    pub fn count(&mut self) -> bool
        ensures counted { self.new ≡ one_more self.old }
        ensures more { self.old.count ≤ self.new.count }
        ensures passed { result ≡ is_passed self.new }
    {
        self.count = self.count.saturating_add(1);
        self.most < self.count
    }

    /// DATA or a HEARTBEAT was acknowledged.
    pub fn clear(&mut self)
        ensures { self.new ≡ record self.old { count = 0 } }
    {
        self.count = 0;
    }
}
