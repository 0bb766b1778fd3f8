//! What holds after every run of calls: a law, the contract of a function that does nothing.

ghost use Rattle.sctp_reset.specs.Agreement.{BothAgree, EachCanEnd};
ghost use Rattle.sctp_reset.specs.Runs.{AddsNothing, AnswersAlike, AsksEachOnce, HoldsAfterEachPeerRun, HoldsAfterEachRun, PerformsOnce, RespondsOnceEach, StaysAsked};

/// A stream is asked for once at most, in the request under way or among those that wait. It stays asked for until a response ends its
/// request (RFC 6525 5.1.2 A1).
pub fn a_stream_is_asked_for_until_it_is_answered()
    ensures once { HoldsAfterEachRun AsksEachOnce }
    ensures until { StaysAsked }
{}

/// No response makes this side hold more streams, whatever the peer writes into it. The peer's requests are kept in a fixed number of
/// fields (`PeerRequests`), and no two of the responses that are due are to one request.
pub fn a_peer_adds_nothing()
    ensures asked { AddsNothing }
    ensures due { HoldsAfterEachPeerRun RespondsOnceEach }
{}

/// A request of the peer that had its last word is not performed again, whatever comes, until 2^32 of them were said: numbers wrap
/// (RFC 6525 4.1). Until two others had theirs, it is answered as it was (5.2.1).
pub fn a_request_is_performed_once()
    ensures once { PerformsOnce }
    ensures alike { AnswersAlike }
{}

/// Two sides agree over a network that loses, repeats and reorders, and forges nothing: the requests of the one side ended with the last
/// words that the other said, in order, and at most one word is still to come back. Wherever events led, the request under way can end: it
/// comes, it is answered, and the response comes back. So it is while fewer than 2^32 requests begin.
pub fn both_sides_agree()
    ensures agree { BothAgree }
    ensures end { EachCanEnd }
{}
