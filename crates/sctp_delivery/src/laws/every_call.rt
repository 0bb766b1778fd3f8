//! What holds of sessions in which both hosts make any call but those of `replay`: streams are closed and reset, chunks dropped, names of
//! streams that are not open passed over, and what a SACK no longer reports is taken back, too.
//!
//! Where the sender resets or closes a stream, and the receiver does not, two messages may have one number. Where one is sent right behind
//! the other, and the receiver has not read the first one, it reads both as one message.
//!
//! Not said here: that a chunk in flight is not refused.

ghost use Rattle.sctp_delivery.specs.EveryCall.{AcknowledgedArrived, AfterEachAny, AfterEachAnyOfFewBytes, AfterEachAnyOfFewTsns, AreSingle, AreSingleWhereSteady, AreSingleWritesOfTheirOwn, AreToldApart, AreWritesWhereSingle, LeftArrived, ReleasedArrived, ReportWhatArrived};
ghost use Rattle.sctp_delivery.specs.EveryEnd.{AfterEachAnyOfLost, AfterEachAnyOfMessages, IsOrderedReadInTheEnd, IsSentReadInTheEnd, IsUnorderedHeldReadOrPassed, IsUnorderedReadInTheEnd, IsUnorderedReadOrHeld, IsUnorderedSentReadInTheEnd};
ghost use Rattle.sctp_delivery.specs.EveryOrder.{AreReadInTurnWhereUnbroken, AreSingleReadAsWritten, AreSingleReadInOrder};
ghost use Rattle.sctp_delivery.specs.EveryRecent.{AreReadAsGiven, AreTakenAsGiven, FewTsnsAreYoungAny, WhileAllAnyYoung, WhileAnyRecent, WhileAnyYoung};
ghost use Rattle.sctp_delivery.specs.Messages.{AreParts, AreSame, NoneIsReadTwice};
ghost use Rattle.sctp_delivery.specs.Recent.{NoneYoungIsRefused};
ghost use Rattle.sctp_delivery.specs.Returns.{IsAccountedSo, NoneIsRefusedSo};
ghost use Rattle.sctp_delivery.specs.Rounds.{CanBeAnswered};
ghost use Rattle.sctp_delivery.specs.Sacks.{AllReportedLeaves, EachSackTells, NoneIsRefused, NoneIsTakenTwice, PassAbandoned, StaysAcknowledged};
ghost use Rattle.sctp_delivery.specs.Session.{AreMade, AreMessages};
ghost use Rattle.sctp_delivery.specs.Uses.{AfterEachThatGoesOn, EachLaterUseReadsItsOwn};

/// Each byte that was written, or came back, waits, is in flight, or was answered as gone: what of a stream waits or is in flight stays so
/// where the stream is closed. And each message that is read is whole and of one message, and each of its fragments is a chunk that the
/// sender made.
pub fn whatever_is_called_bytes_and_fragments_are_accounted_for()
    ensures bytes { AfterEachAny (λ calls s. IsAccountedSo s) }
    ensures made { AfterEachAny (λ calls s. AreMade s) }
    ensures whole { AfterEachAny (λ calls s. AreMessages s) }
{}

/// While the sender has given out fewer than 2^31 TSNs, and fewer than 2^64 bytes were written: each message that is read, and of which no
/// fragment but the first begins one, is one that was written, on the stream that it is read on, with its payload type and byte for byte.
/// No write is read twice so. On a stream that the sender neither resets nor closes each message is so; and each is, in every session, where
/// of two ordered messages of a stream that are sent one right behind another the second has a number of its own. It is so in a whole life, too,
/// however many TSNs are given out. Two things are asked then: nothing that is handed over has a TSN that is 2^31 TSNs old, and no DATA chunk that is
/// taken or held is so old.
pub fn whatever_is_called_messages_are_writes()
    ensures written { AfterEachAnyOfFewBytes (λ calls s. AreWritesWhereSingle s) }
    ensures single { AfterEachAnyOfFewBytes AreSingleWhereSteady }
    ensures apart { AfterEachAny (λ calls s. AreToldApart s → AreSingle s) }
    ensures own { AfterEachAnyOfFewBytes (λ calls s. AreSingleWritesOfTheirOwn s) }
    ensures part { AfterEachAnyOfFewBytes (λ calls s. AreParts s) }
    ensures same { AfterEachAnyOfFewBytes (λ calls s. AreSame s) }
    ensures back { AfterEachAnyOfFewBytes (λ calls s. NoneIsRefusedSo s) }
    ensures written_recent { WhileAnyYoung (λ calls s. AreWritesWhereSingle s) }
    ensures single_recent { WhileAnyYoung AreSingleWhereSteady }
    ensures own_recent { WhileAnyYoung (λ calls s. AreSingleWritesOfTheirOwn s) }
    ensures part_recent { WhileAnyYoung (λ calls s. AreParts s) }
{}

/// With so few TSNs and bytes: on a stream that goes on, ordered messages are read in the order of their writes, and so is what was written
/// while it was ordered, and each DCEP message. A stream goes on that neither host closes or resets, of which the receiver drops no ordered
/// chunk, and passes over no name before it opens it. It is so in a whole life, too, where two things are asked. Nothing that is handed over has a
/// TSN that is 2^31 TSNs old; and no FORWARD-TSN, and no DATA chunk that is taken, held or dropped, is so old.
pub fn whatever_is_called_messages_are_read_in_order()
    ensures order { AfterEachAnyOfFewBytes AreSingleReadInOrder }
    ensures modes { AfterEachAnyOfFewBytes AreSingleReadAsWritten }
    ensures turn { AfterEachAnyOfFewBytes AreReadInTurnWhereUnbroken }
    ensures order_recent { WhileAllAnyYoung AreSingleReadInOrder }
    ensures modes_recent { WhileAllAnyYoung AreSingleReadAsWritten }
    ensures turn_recent { WhileAllAnyYoung AreReadInTurnWhereUnbroken }
{}

/// In each session that gives out fewer than 2^31 TSNs, and in which fewer than 2^64 bytes were written, nothing is handed over or held that is 2^31
/// TSNs old. So what is said of a whole life is said of it, too.
pub fn whatever_is_called_few_tsns_are_young()
    ensures { FewTsnsAreYoungAny }
{}

/// With so few TSNs and bytes, of two uses of a stream, one after the other: where as many messages were read on the stream as were written on
/// it, each that is read on it from then on was written from then on, whichever host closes, resets or opens the stream in between (RFC 6525
/// 5.1.2, 5.2.2). It is said of messages of which no fragment but the first begins one.
pub fn whatever_is_called_a_later_use_reads_its_own_writes()
    ensures { AfterEachThatGoesOn EachLaterUseReadsItsOwn }
{}

/// With so few TSNs and bytes: where nothing waits to be sent, nothing is in flight, and on no stream is a message to read, take a stream that goes
/// on, whatever FORWARD-TSNs name. Each ordered write on it was read exactly once, unless a call abandoned its message, or let it expire.
/// Where no FORWARD-TSN names the stream, each ordered DATA chunk that was made was read.
pub fn whatever_is_called_what_is_ordered_is_read_in_the_end()
    ensures writes { AfterEachAnyOfMessages IsOrderedReadInTheEnd }
    ensures chunks { AfterEachAnyOfFewBytes IsSentReadInTheEnd }
{}

/// With so few TSNs and bytes: where nothing waits to be sent, nothing is in flight, and on no stream is a message to read, take a stream that goes
/// on, whatever FORWARD-TSNs name. Each unordered write on it was read exactly once, unless a call abandoned its message or let it expire, or the
/// receiver dropped a chunk of it that had not come. Where none was lost so, each unordered DATA chunk was read.
pub fn whatever_is_called_what_is_unordered_is_read_in_the_end()
    ensures writes { AfterEachAnyOfLost IsUnorderedReadInTheEnd }
    ensures chunks { AfterEachAnyOfLost IsUnorderedSentReadInTheEnd }
{}

/// On a stream that goes on, each unordered DATA chunk that was taken was read, is held, or is one that a FORWARD-TSN passed, and counts once in
/// these. One that was read may be passed, too. With few TSNs and bytes, where nothing waits or is in flight: each that was made was read, or
/// is held, unless the receiver dropped it, or a FORWARD-TSN passes it.
pub fn whatever_is_called_what_is_unordered_is_held_or_read()
    ensures held { AfterEachAny IsUnorderedHeldReadOrPassed }
    ensures ends { AfterEachAnyOfFewBytes IsUnorderedReadOrHeld }
{}

/// While the sender has given out fewer than 2^31 TSNs: the receiver can make a SACK at any time, and the sender refuses none of them.
/// A SACK reports, a chunk in flight is acknowledged, and one leaves, only where the receiver took the chunk or dropped it, or a
/// FORWARD-TSN went past it. A SACK leaves out nothing that was taken. One that has the last TSN as its cumulative one leaves nothing in
/// flight; and no TSN is taken, or read, twice. In a whole life, too, while fewer than 2^31 chunks are in flight, and nothing is handed over that is
/// 2^31 TSNs old: the receiver can make a SACK, the sender refuses none that is younger, and each TSN is taken, and read, at most as often as it
/// was given out.
pub fn whatever_is_called_sacks_tell_what_came()
    ensures can { AfterEachAnyOfFewTsns (λ first count calls s. CanBeAnswered s) }
    ensures refused { AfterEachAnyOfFewTsns (λ first count calls s. NoneIsRefused s) }
    ensures reported { AfterEachAnyOfFewTsns ReportWhatArrived }
    ensures told { AfterEachAnyOfFewTsns (λ first count calls s. EachSackTells s) }
    ensures came { AfterEachAnyOfFewTsns (λ first count calls s. AcknowledgedArrived calls s) }
    ensures released { AfterEachAnyOfFewTsns (λ first count calls s. ReleasedArrived calls s) }
    ensures left { AfterEachAnyOfFewTsns (λ first count calls s. LeftArrived first calls s) }
    ensures passed { AfterEachAnyOfFewTsns (λ first count calls s. PassAbandoned s) }
    ensures stays { AfterEachAnyOfFewTsns (λ first count calls s. StaysAcknowledged s) }
    ensures all { AfterEachAnyOfFewTsns (λ first count calls s. AllReportedLeaves s) }
    ensures once { AfterEachAnyOfFewTsns (λ first count calls s. NoneIsTakenTwice s) }
    ensures read { AfterEachAnyOfFewTsns (λ first count calls s. NoneIsReadTwice s) }
    ensures can_recent { WhileAnyRecent (λ given sacks s. CanBeAnswered s) }
    ensures refused_recent { WhileAnyRecent (λ given sacks s. NoneYoungIsRefused sacks s) }
    ensures once_recent { WhileAnyRecent (λ given sacks s. AreTakenAsGiven given s) }
    ensures read_recent { WhileAnyRecent (λ given sacks s. AreReadAsGiven given s) }
{}
