//! How often and when chunks in flight were sent, and which are to be sent again (RFC 9260 6.3.3, 7.2.4): a law.

ghost use Rattle.sctp_delivery.specs.Retransmission.{AfterEachSessionWithEvents, AreNoted};

/// In every session of fewer than 2^31 TSNs, of each chunk in flight that is neither acknowledged nor abandoned: `nsent` is how often the
/// session sent its TSN, up to 2^32 - 1, and `since` when last. It is marked exactly where, since it was sent last, it was reported missing
/// for the third time, or `retransmit_all` was called.
pub fn chunks_in_flight_are_noted()
    ensures { AfterEachSessionWithEvents AreNoted }
{}
