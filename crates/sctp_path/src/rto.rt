//! The retransmission timeout (RFC 9260 6.3.1, 6.3.3). All times are in nanoseconds.

ghost use Rattle.std.specs.Prelude.{◌≡◌, ◌≤◌};
ghost use Rattle.sctp_path.specs.Rto.{limits_of, usual, within, first, first_trip, next_trip, timeout_of, after_trip, after_back_off, smoothed_of};

use std::marker::Model;

/// Between which times the RTO stays.
#[derive(Clone, Copy, Debug, PartialEq, Eq)]
pub struct RtoLimits {
    initial: u64,
    least: u64,
    most: u64,
    granularity: u64,
}

impl Model for RtoLimits {
    ghost use Rattle.std.specs.Prelude.{◌≤◌};
    ghost use Rattle.sctp_path.specs.Rto.{Limits};

    ghost Value = { Limits };

    ghost view = { λ l. record {
      initial = l.initial;
      least = l.least;
      most = l.most;
      granularity = l.granularity;
    } };

    ghost inverse = { λ l. record {
      initial = l.initial;
      least = l.least;
      most = l.most;
      granularity = l.granularity;
    } };

    ghost invariant = { λ l. l.least ≤ l.most };
}

impl RtoLimits {
    /// RTO.Initial, RTO.Min, RTO.Max, and the granularity of the clock. A greatest time under the least is raised to it; the
    /// initial time is put between them.
    pub fn new(initial: u64, least: u64, most: u64, granularity: u64) -> RtoLimits
        ensures { result ≡ limits_of initial least most granularity }
    {
        let most = most.max(least);
        RtoLimits {
            initial: initial.max(least).min(most),
            least,
            most,
            granularity,
        }
    }

    // A time within the limits.
    fn within(&self, time: u128) -> u64
        ensures { result ≡ within self.now time }
    {
        if time < self.least as u128 {
            self.least
        } else if time > self.most as u128 {
            self.most
        } else {
            time as u64
        }
    }
}

/// Those of WebRTC: 1 s, 200 ms and 60 s; the clock counts milliseconds.
impl Default for RtoLimits {
    ghost is_default = { λ l. l ≡ usual };

    fn default() -> RtoLimits {
        RtoLimits::new(1_000_000_000, 200_000_000, 60_000_000_000, 1_000_000)
    }
}

// SRTT and RTTVAR.
#[derive(Clone, Copy, Debug, PartialEq, Eq)]
struct RoundTrips {
    smoothed: u64,
    variation: u64,
}

impl RoundTrips {
    fn first(granularity: u64, trip: u64) -> RoundTrips
        ensures { result ≡ first_trip granularity trip }
    {
        RoundTrips {
            smoothed: trip,
            variation: (trip / 2).max(granularity),
        }
    }

    fn next(&self, granularity: u64, trip: u64) -> RoundTrips
        ensures { result ≡ next_trip granularity trip self.now }
    {
        let smoothed = (7 * self.smoothed as u128 + trip as u128) / 8;
        let off = self.smoothed.abs_diff(trip);
        let variation = (3 * self.variation as u128 + off as u128) / 4;
        RoundTrips {
            smoothed: smoothed as u64,
            variation: (variation as u64).max(granularity),
        }
    }

    fn timeout(&self) -> u128
        ensures { result ≡ timeout_of self.now }
    {
        self.smoothed as u128 + 4 * self.variation as u128
    }
}

/// How long T3-rtx runs, and what round trips made of it.
#[derive(Clone, Copy, Debug, PartialEq, Eq)]
pub struct Rto {
    limits: RtoLimits,
    trips: Option<RoundTrips>,
    rto: u64,
}

impl Model for Rto {
    ghost use Rattle.std.specs.Prelude.{◌≤◌};
    ghost use Rattle.sctp_path.specs.Rto.{Timeout};

    ghost Value = { Timeout };

    ghost view = { λ t. record { limits = t.limits; trips = t.trips; rto = t.rto } };

    ghost inverse = { λ t. record { limits = t.limits; trips = t.trips; rto = t.rto } };

    ghost invariant = { λ t. (t.limits.least ≤ t.rto) × (t.rto ≤ t.limits.most) };
}

impl Rto {
    /// Before the first round trip.
    pub fn new(limits: RtoLimits) -> Rto
        ensures { result ≡ first limits }
    {
        Rto {
            limits,
            trips: None,
            rto: limits.within(limits.initial as u128),
        }
    }

    /// Takes the time of a round trip: of DATA that was sent once (Karn's rule, C5), or of a HEARTBEAT.
    pub fn measured(&mut self, trip: u64)
        ensures { self.new ≡ after_trip trip self.old }
    {
        let limits = self.limits;
        let trips = match self.trips {
            None => RoundTrips::first(limits.granularity, trip),
            Some(trips) => trips.next(limits.granularity, trip),
        };
        self.trips = Some(trips);
        self.rto = limits.within(trips.timeout());
    }

    /// T3-rtx expired, or a HEARTBEAT was not answered.
    pub fn backed_off(&mut self)
        ensures { self.new ≡ after_back_off self.old }
    {
        let limits = self.limits;
        self.rto = self.rto.saturating_mul(2).min(limits.most);
    }

    /// The RTO.
    pub fn get(&self) -> u64
        ensures value { result ≡ self.now.rto }
        ensures least { self.now.limits.least ≤ result }
        ensures most { result ≤ self.now.limits.most }
    {
        self.rto
    }

    /// SRTT.
    pub fn smoothed(&self) -> Option<u64>
        ensures { result ≡ smoothed_of self.now.trips }
    {
        self.trips.map(|trips| trips.smoothed)
    }
}
