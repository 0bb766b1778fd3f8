//! What holds of sessions in which the receiver drops chunks too (`Receiver::discard`, RFC 9260 6.2, 6.5): those of a stream that is not
//! open, or of a message that is too long. A TSN counts as come then, and its chunk is not kept: so its message is never read.
//!
//! Not said here: in which order messages are read, that each is read in the end, and that a chunk in flight is not refused. Where ordered
//! chunks are dropped without end on one stream, stream sequence numbers wrap behind the one for which the receiver waits.

ghost use Rattle.std.specs.Prelude.{◌^◌};
ghost use Rattle.sctp_delivery.specs.Discards.{AcknowledgedCameSo, AfterEachWithDiscards, AfterEachWithDiscardsOfFewTsns, LeftCameSo, ReleasedCameSo, ReportWhatCameSo, WhileFewerTsnsWithDiscards};
ghost use Rattle.sctp_delivery.specs.Messages.{AreWrites, AreWritesOfTheirOwn, NoneIsReadTwice};
ghost use Rattle.sctp_delivery.specs.Rounds.{CanBeAnswered};
ghost use Rattle.sctp_delivery.specs.Sacks.{AllReportedLeaves, EachSackTells, NoneIsRefused, NoneIsTakenTwice, PassAbandoned, StaysAcknowledged};
ghost use Rattle.sctp_delivery.specs.Session.{AreMade, AreMessages, IsAccounted};

/// Each byte that was written waits, is in flight, or was answered as gone; and each message that is read is whole and of one message,
/// and each of its fragments is a chunk that the sender made.
pub fn whatever_is_dropped_bytes_and_fragments_are_accounted_for()
    ensures bytes { AfterEachWithDiscards IsAccounted }
    ensures made { AfterEachWithDiscards AreMade }
    ensures whole { AfterEachWithDiscards AreMessages }
{}

/// Each message that is read is one that was written, on the stream that it is read on, with its payload type and byte for byte, while the
/// sender has given out fewer than 2^32 TSNs; and no write is read twice, while it has given out fewer than 2^31.
pub fn whatever_is_dropped_messages_are_writes()
    ensures written { WhileFewerTsnsWithDiscards (2 ^ 32) AreWrites }
    ensures tsns { AfterEachWithDiscardsOfFewTsns (λ first count calls s. NoneIsReadTwice s) }
    ensures own { WhileFewerTsnsWithDiscards (2 ^ 31) AreWritesOfTheirOwn }
{}

/// While the sender has given out fewer than 2^31 TSNs: the receiver can make a SACK at any time, and the sender refuses none of them.
/// A SACK reports, a chunk in flight is acknowledged, and one leaves, only where the receiver took the chunk or dropped it, or a
/// FORWARD-TSN went past it. A SACK leaves out nothing that was taken. One that has the last TSN as its cumulative one leaves nothing in
/// flight; and no TSN is taken twice.
pub fn whatever_is_dropped_sacks_tell_what_came()
    ensures can { AfterEachWithDiscardsOfFewTsns (λ first count calls s. CanBeAnswered s) }
    ensures refused { AfterEachWithDiscardsOfFewTsns (λ first count calls s. NoneIsRefused s) }
    ensures reported { AfterEachWithDiscardsOfFewTsns ReportWhatCameSo }
    ensures told { AfterEachWithDiscardsOfFewTsns (λ first count calls s. EachSackTells s) }
    ensures came { AfterEachWithDiscardsOfFewTsns
        (λ first count calls s. AcknowledgedCameSo calls s) }
    ensures released { AfterEachWithDiscardsOfFewTsns
        (λ first count calls s. ReleasedCameSo calls s) }
    ensures left { AfterEachWithDiscardsOfFewTsns
        (λ first count calls s. LeftCameSo first calls s) }
    ensures passed { AfterEachWithDiscardsOfFewTsns (λ first count calls s. PassAbandoned s) }
    ensures stays { AfterEachWithDiscardsOfFewTsns (λ first count calls s. StaysAcknowledged s) }
    ensures all { AfterEachWithDiscardsOfFewTsns (λ first count calls s. AllReportedLeaves s) }
    ensures once { AfterEachWithDiscardsOfFewTsns (λ first count calls s. NoneIsTakenTwice s) }
{}
