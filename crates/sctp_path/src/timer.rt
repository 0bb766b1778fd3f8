//! A timer, by the moments that its caller passes (RFC 9260 6.3.2). It never reads a clock: where `now` goes back, it is due later.

ghost use Rattle.std.specs.Prelude.{◌≡◌, None, Some};
ghost use Rattle.sctp_path.specs.Timers.{later, started, is_due, earliest};

/// A timer that is stopped, or runs until a moment in nanoseconds.
#[derive(Clone, Copy, Debug, PartialEq, Eq)]
pub struct Timer {
    at: Option<u64>,
}

impl Timer {
    /// A timer that is stopped.
    pub fn new() -> Timer
        ensures { result.at ≡ None }
    {
        Timer { at: None }
    }

    /// Starts it where it is stopped: DATA was sent, or a SACK took back what an earlier one reported (RFC 9260 6.3.2).
    pub fn start(&mut self, now: u64, after: u64)
        ensures { self.new.at ≡ started now after self.old.at }
    {
        if self.at.is_none() {
            self.restart(now, after);
        }
    }

    /// Starts it anew: the earliest outstanding TSN was acknowledged, and more is outstanding (RFC 9260 6.3.2).
    pub fn restart(&mut self, now: u64, after: u64)
        ensures { self.new.at ≡ Some (later now after) }
    {
        self.at = Some(now.saturating_add(after));
    }

    /// Stops it: nothing is outstanding, or it expired (RFC 9260 6.3.2).
    pub fn stop(&mut self)
        ensures { self.new.at ≡ None }
    {
        self.at = None;
    }

    /// When it expires.
    pub fn at(&self) -> Option<u64>
        ensures { result ≡ self.now.at }
    {
        self.at
    }

    /// Whether it has expired. It stays so until it is stopped or restarted.
    pub fn is_due(&self, now: u64) -> bool
        ensures { result ≡ is_due now self.now.at }
    {
        is_due(now, self.at)
    }
}

/// The first of two moments.
pub fn earliest(a: Option<u64>, b: Option<u64>) -> Option<u64>
    ensures { result ≡ earliest a b }
{
    match (a, b) {
        (Some(a), Some(b)) => Some(a.min(b)),
        (Some(a), None) => Some(a),
        (None, b) => b,
    }
}

// Whether this moment has come.
pub(crate) fn is_due(now: u64, at: Option<u64>) -> bool
    ensures { result ≡ is_due now at }
{
    match at {
        None => false,
        Some(at) => at <= now,
    }
}
