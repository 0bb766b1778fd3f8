//! Two hosts that both send: each has a sender and a receiver.

ghost use Rattle.sctp_delivery.specs.BothWays.{AreReadBothWays, AreReadBothWaysSo, AreReadBothWaysWhileYoung, EachWayIsASession, EachWayIsASessionSo};

/// However the calls of two hosts that both send follow one another: those of the sender of one host and of the receiver of the other are a
/// session, each way, so each law of sessions holds both ways. What is read both ways is what was written, and what was written ordered is
/// read in the order of the writes, where each way gives out fewer than 2^31 TSNs; and in a whole life, while nothing is handed over or held
/// there that is 2^31 TSNs old.
pub fn each_way_is_a_session()
    ensures session { EachWayIsASession }
    ensures read { AreReadBothWays }
    ensures recent { AreReadBothWaysWhileYoung }
{}

/// So it is where a sender keeps what gap ack blocks report, each of them or one: there fewer than 2^64 bytes are written each way.
pub fn each_way_is_a_session_whatever_comes_back()
    ensures session { EachWayIsASessionSo }
    ensures read { AreReadBothWaysSo }
{}
