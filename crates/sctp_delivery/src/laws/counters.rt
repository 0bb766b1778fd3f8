//! The counters of a stream are sums over what was written to it.

ghost use Rattle.sctp_delivery.specs.Counters.{AreSums};
ghost use Rattle.sctp_delivery.specs.Messages.{AfterEachFitSession};

/// The counters of each open stream of a sender are sums over what was written to it, up to the greatest number of 64 bits: how many messages
/// of text, of binary data and of the two empty kinds, and how many bytes the first two have.
pub fn counters_are_sums_over_writes()
    ensures { AfterEachFitSession AreSums }
{}
