//! What is sent and what is read is what was written.

ghost use Rattle.sctp_delivery.specs.Messages.{AfterEachFitSession, AreParts, AreSame, AreWrites, AreWritesOfTheirOwn, NoneIsReadTwice, WhileFewTsns, WhileTsnsLast};
ghost use Rattle.sctp_delivery.specs.Order.{AreReadInOrder};
ghost use Rattle.sctp_delivery.specs.Recent.{EachIsTakenOnceWhereGiven, FewTsnsAreYoung, WhileAllAreYoung, WhileRecentAndYoung, WhileYoung};
ghost use Rattle.sctp_delivery.specs.Sacks.{AfterEachSessionOfFewTsns};

/// Each DATA chunk that a sender makes, for the first time or again, is a part of a write: on its stream, with its payload type, and its
/// user data are bytes of the write, one behind another. Two that it makes under one TSN are the same, while it has given out fewer
/// than 2^32 TSNs.
pub fn each_chunk_made_is_a_part_of_a_write()
    ensures part { AfterEachFitSession AreParts }
    ensures same { WhileTsnsLast AreSame }
{}

/// Whatever the network loses, delays, repeats and reorders: each message that is read is one that was written, on the stream that it
/// is read on, with its payload type and byte for byte, while the sender has given out fewer than 2^32 TSNs, so that none is given out
/// twice. So it is in a whole life, too, however many TSNs are given out: while no DATA chunk is handed over that is 2^31 TSNs old, and the
/// receiver holds none that is.
pub fn each_message_read_was_written()
    ensures written { WhileTsnsLast AreWrites }
    ensures recent { WhileYoung AreWrites }
{}

/// No TSN stands in two messages that are read, or twice in one, however often the network hands its chunk over; and no write is read
/// twice: each message is a write at a place of its own. So it is in sessions that give out fewer than 2^31 TSNs. That no write is read twice
/// holds in a whole life, too, while nothing is handed over or held that is 2^31 TSNs old.
pub fn no_message_is_read_twice()
    ensures tsns { AfterEachSessionOfFewTsns (λ first given s. NoneIsReadTwice s) }
    ensures writes { WhileFewTsns AreWritesOfTheirOwn }
    ensures recent { WhileRecentAndYoung AreWritesOfTheirOwn }
{}

/// The ordered messages of a stream are read in the order of their writes, each a write at a place of its own, whatever is skipped and
/// however many there are. So it is in sessions that give out fewer than 2^31 TSNs. It holds in a whole life, too, while nothing is handed over
/// or held that is 2^31 TSNs old.
pub fn messages_are_read_in_order()
    ensures few { WhileFewTsns AreReadInOrder }
    ensures recent { WhileAllAreYoung AreReadInOrder }
{}

/// In each session that gives out fewer than 2^31 TSNs nothing is handed over or held that is 2^31 TSNs old. So what is said of a whole life
/// is said of it, too.
pub fn few_tsns_are_young()
    ensures { FewTsnsAreYoung }
{}

/// Each time that a TSN is given out, at most one DATA chunk with it is taken as new, however often and in whatever order the network hands chunks
/// over. So it is however many TSNs are given out, while fewer than 2^31 are in flight, and nothing is handed over that is 2^31 TSNs old.
pub fn no_tsn_is_taken_more_often_than_given()
    ensures { EachIsTakenOnceWhereGiven }
{}
