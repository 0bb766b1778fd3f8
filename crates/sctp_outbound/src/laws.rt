//! What holds after every run of calls: laws, each the contract of a function that does nothing.

ghost use Rattle.sctp_outbound.specs.outbound_queue.Numbering.{AfterEachRun, AreConsecutive, PutsInFlight, StandInLine, WasPut};

/// The fragments of one message have consecutive TSNs, where each call of an outbound queue is handed the next TSN as the
/// one before left it: they are put in flight side by side, under TSNs that rise by one, and so is a terminal chunk behind them.
pub fn messages_have_consecutive_tsns()
    ensures consecutive { AfterEachRun (λ s. AreConsecutive s.put) }
    ensures side_by_side { AfterEachRun (λ s. StandInLine s.put) }
    ensures puts { PutsInFlight }
    ensures in_flight { AfterEachRun (λ s. WasPut s.queue.inflight.chunks s.put) }
{}
