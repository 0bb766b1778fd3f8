//! A receiver that is read refuses nothing that an honest sender still needs taken: so it is in every session of fewer than 2^31 TSNs, and
//! of chunks where the receiver has no limits.

ghost use Rattle.sctp_delivery.specs.Messages.{WhileFewTsns};
ghost use Rattle.sctp_delivery.specs.Refused.{AfterEachUnlimitedSession, NoneInFlightIsRefused, NoneIsRefusedWhereRead, NoneMadeIsRefused};

/// A DATA chunk that has the wire fields of a chunk in flight, or was made under its TSN, where the message is not abandoned, is refused
/// for want of memory alone, however often and in whatever order the network hands chunks over: where the receiver takes messages as long
/// as the sender writes, the chunk's stream is open, and nothing is to be read there; an unordered one also where something is. So none on
/// an open stream is where nothing is to be read on any (RFC 4960 6.2, 6.6).
pub fn no_chunk_in_flight_is_refused()
    ensures due { AfterEachUnlimitedSession NoneInFlightIsRefused }
    ensures read { AfterEachUnlimitedSession NoneIsRefusedWhereRead }
{}

/// A FORWARD-TSN that the sender may make now is not refused, where each stream that it names is open, and nothing is to be read there
/// (RFC 3758 3.6).
pub fn no_forward_tsn_is_refused()
    ensures { WhileFewTsns NoneMadeIsRefused }
{}
