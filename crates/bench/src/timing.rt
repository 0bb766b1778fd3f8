//! How much a run gave and how long it took, and the fastest of several runs.

ghost use Rattle.std.specs.Prelude.{◌≡◌, ◌-◌, ◌/◌, ◌^◌, max, min};
ghost use Rattle.std.specs.Duration.{as_nanos};

use std::time::Duration;

/// How much a run gave, and how long it took.
#[derive(Drop)]
pub struct Measured {
    pub given: usize,
    pub elapsed: Duration,
}

/// The nanoseconds of the fastest run so far.
#[derive(Clone, Copy)]
pub struct Fastest {
    pub nanos: u128,
}

impl Fastest {
    /// There was no run yet.
    pub fn new() -> Self
        ensures { result.nanos ≡ 2 ^ 128 - 1 }
    {
        Fastest { nanos: u128::MAX }
    }

    /// Takes note of a run.
    pub fn note(&mut self, elapsed: Duration)
        ensures { self.new.nanos ≡ min self.old.nanos (as_nanos elapsed) }
    {
        self.nanos = self.nanos.min(elapsed.as_nanos());
    }

    /// What each of so many equal parts took, one for none.
    pub fn of_each(&self, parts: u32) -> u128
        ensures { result ≡ self.now.nanos / max parts 1 }
    {
        self.nanos / u128::from(parts.max(1))
    }
}
