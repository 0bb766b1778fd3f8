//! What holds of sessions of a sender that keeps what gap ack blocks report (`Reported::Keep`): a SACK that no longer reports a chunk takes
//! that back, and the chunk is outstanding again (RFC 9260 6.2.1 D iv).
//!
//! `acked` of such a sender is two calls of these sessions: `take_back`, and then `acked` alone. In most laws fewer than 2^64 bytes are
//! written. Those of what the receiver takes and reads hold while fewer than 2^31 TSNs are given out. Those of the sender alone hold
//! while fewer than 2^31 chunks are in flight, as a `Sender` sees to it, however many TSNs it gives out.
//!
//! Not said here: what is noted of chunks in flight, and rounds.

ghost use Rattle.sctp_delivery.specs.Abandoned.{IsEachOtherReadInTheEnd};
ghost use Rattle.sctp_delivery.specs.Amounts.{AmountsEnd, EachIsTold};
ghost use Rattle.sctp_delivery.specs.Counters.{AreSums};
ghost use Rattle.sctp_delivery.specs.Expiries.{EachDueExpires, OnlyTheDueExpire};
ghost use Rattle.sctp_delivery.specs.Messages.{AreParts, AreSame, AreWrites, AreWritesOfTheirOwn, NoneIsReadTwice};
ghost use Rattle.sctp_delivery.specs.Modes.{AreReadAsWritten, AreSentAsWritten};
ghost use Rattle.sctp_delivery.specs.Order.{AreReadInOrder};
ghost use Rattle.sctp_delivery.specs.Refused.{NoneInFlightIsRefusedSo, NoneIsRefusedWhereReadSo, NoneMadeIsRefused};
ghost use Rattle.sctp_delivery.specs.ReturnEndings.{AfterEachWithReturnsAndTsnsLeft, EndsWhereTakenSo, EndsWithAllReadSo};
ghost use Rattle.sctp_delivery.specs.Returns.{AfterEachWithReturns, AfterEachWithReturnsOfFewInFlight, AfterEachWithReturnsOfFewTsns, AmountsAreLeftSo, EachAckedIsTwoCalls, EachReturnIsTold, IsAccountedSo, NoneIsRefusedSo, other_calls};
ghost use Rattle.sctp_delivery.specs.Sacks.{AcknowledgedCame, EachSackTells, LeftCame, NoneIsRefused, NoneIsTakenTwice, ReportWhatCame};
ghost use Rattle.sctp_delivery.specs.Session.{AreMade, AreMessages};

/// Each byte that was written, or came back, waits, is in flight, or was answered as gone.
pub fn whatever_comes_back_bytes_are_accounted_for()
    ensures { AfterEachWithReturns (λ calls s. IsAccountedSo s) }
{}

/// Each message that is read is one that was written, on the stream that it is read on, with its payload type and byte for byte. No TSN and
/// no write is read twice. What was written while a stream was ordered, and each DCEP message, is read in the order of the writes.
pub fn whatever_comes_back_messages_are_writes()
    ensures made { AfterEachWithReturnsOfFewTsns (λ first given gone calls s. AreMade s) }
    ensures whole { AfterEachWithReturnsOfFewTsns (λ first given gone calls s. AreMessages s) }
    ensures written { AfterEachWithReturnsOfFewTsns (λ first given gone calls s. AreWrites s) }
    ensures tsns { AfterEachWithReturnsOfFewTsns (λ first given gone calls s. NoneIsReadTwice s) }
    ensures own { AfterEachWithReturnsOfFewTsns
        (λ first given gone calls s. AreWritesOfTheirOwn s) }
    ensures order { AfterEachWithReturnsOfFewTsns (λ first given gone calls s. AreReadInOrder s) }
    ensures modes { AfterEachWithReturnsOfFewTsns
        (λ first given gone calls s. AreReadAsWritten (other_calls calls) s) }
{}

/// Each DATA chunk that the sender makes, for the first time or again, is a part of a write, also where its bytes came back, and is unordered
/// exactly where its write is: however many TSNs are given out. Two of one TSN are the same, while fewer than 2^31 are.
pub fn whatever_comes_back_chunks_are_parts()
    ensures part { AfterEachWithReturnsOfFewInFlight (λ calls s. AreParts s) }
    ensures same { AfterEachWithReturnsOfFewTsns (λ first given gone calls s. AreSame s) }
    ensures modes { AfterEachWithReturnsOfFewInFlight
        (λ calls s. AreSentAsWritten (other_calls calls) s) }
{}

/// Where nothing waits, is in flight or is readable, each write was read exactly once, unless a call abandoned its message, or let it
/// expire.
pub fn whatever_comes_back_each_other_write_is_read_in_the_end()
    ensures { AfterEachWithReturnsOfFewTsns
        (λ first given gone calls s. IsEachOtherReadInTheEnd gone s) }
{}

/// The sender refuses no SACK that the receiver made, but for memory: neither what it takes back, nor what it acknowledges then. A SACK
/// reports only what the receiver took, or a FORWARD-TSN passed, and leaves out nothing that was taken. A chunk in flight is acknowledged
/// only where the receiver took it, or its message was abandoned.
pub fn whatever_comes_back_sacks_tell_what_came()
    ensures back { AfterEachWithReturnsOfFewTsns (λ first given gone calls s. NoneIsRefusedSo s) }
    ensures refused { AfterEachWithReturnsOfFewTsns (λ first given gone calls s. NoneIsRefused s) }
    ensures reported { AfterEachWithReturnsOfFewTsns
        (λ first given gone calls s. ReportWhatCame first given s) }
    ensures told { AfterEachWithReturnsOfFewTsns (λ first given gone calls s. EachSackTells s) }
    ensures came { AfterEachWithReturnsOfFewTsns
        (λ first given gone calls s. AcknowledgedCame s) }
    ensures left { AfterEachWithReturnsOfFewTsns (λ first given gone calls s. LeftCame first s) }
    ensures once { AfterEachWithReturnsOfFewTsns (λ first given gone calls s. NoneIsTakenTwice s) }
{}

/// A message expires only where its lifetime is over, or its limit of retransmissions is passed, as it was written: none but `abandon`
/// gives up a reliable one, or one of DCEP. And what is due expires.
pub fn whatever_comes_back_only_what_may_expire_expires()
    ensures only { AfterEachWithReturnsOfFewInFlight
        (λ calls s. OnlyTheDueExpire (other_calls calls) s) }
    ensures due { AfterEachWithReturnsOfFewInFlight
        (λ calls s. EachDueExpires (other_calls calls) s) }
{}

/// The counters of each open stream of the sender are sums over what was written to it.
pub fn whatever_comes_back_counters_are_sums_over_writes()
    ensures { AfterEachWithReturnsOfFewInFlight (λ calls s. AreSums s) }
{}

/// The buffered amount of each open stream is the bytes that calls wrote on it, less those that their answers told on it, and with those
/// that came back. It is 0 once nothing of the stream waits, and each of its chunks in flight is acknowledged or abandoned.
pub fn whatever_comes_back_amounts_are_what_is_left()
    ensures left { AfterEachWithReturnsOfFewInFlight AmountsAreLeftSo }
    ensures end { AfterEachWithReturnsOfFewInFlight (λ calls s. AmountsEnd s) }
{}

/// What an answer tells of a chunk that a SACK releases is that chunk's, and its message is told to be acknowledged exactly where none of it
/// is left. What it tells of one that comes back is that of a DATA chunk that was made.
pub fn whatever_comes_back_what_is_told_is_of_the_chunk()
    ensures gone { AfterEachWithReturnsOfFewInFlight (λ calls s. EachIsTold s) }
    ensures back { AfterEachWithReturnsOfFewInFlight (λ calls s. EachReturnIsTold s) }
{}

/// A receiver without limits that is read refuses no DATA chunk that the sender still needs taken, as `no_chunk_in_flight_is_refused` says of a
/// sender that keeps nothing; and whatever its limits, no FORWARD-TSN that the sender may make now.
pub fn whatever_comes_back_what_is_due_is_not_refused()
    ensures due { AfterEachWithReturnsOfFewTsns
        (λ first given gone calls s. NoneInFlightIsRefusedSo s) }
    ensures read { AfterEachWithReturnsOfFewTsns
        (λ first given gone calls s. NoneIsRefusedWhereReadSo s) }
    ensures forward { AfterEachWithReturnsOfFewTsns
        (λ first given gone calls s. NoneMadeIsRefused s) }
{}

/// Each such session can be ended, as `every_session_can_end` says of a sender that keeps nothing, and under the same premises: calls exist,
/// at whatever moment, none of which is refused for a reason, behind which nothing waits, nothing is in flight, and nothing is to be read.
/// None of them writes, abandons a message, or lets one expire; and each SACK is taken as `acked` takes it.
pub fn whatever_comes_back_every_session_can_end()
    ensures ends { AfterEachWithReturnsAndTsnsLeft EndsWhereTakenSo }
    ensures all { AfterEachWithReturnsAndTsnsLeft EndsWithAllReadSo }
{}

/// What `acked` makes of the sender of such a session is these two calls of it.
pub fn each_acked_is_two_calls()
    ensures { AfterEachWithReturnsOfFewTsns
        (λ first given gone calls s. EachAckedIsTwoCalls s) }
{}
