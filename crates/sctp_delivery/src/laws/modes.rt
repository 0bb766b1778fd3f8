//! Each message is sent as it was written: ordered or not, by the mode that the calls gave its stream before the write (RFC 8832 5.1, 6).

ghost use Rattle.sctp_delivery.specs.InOrder.{AreReadInTurn};
ghost use Rattle.sctp_delivery.specs.Modes.{AfterEachFitRun, AfterEachRunOfFewTsns, AreReadAsWritten, AreSentAsWritten};
ghost use Rattle.sctp_delivery.specs.Recent.{AfterEachYoungRun};

/// Each DATA chunk that a sender makes, for the first time or again, is a part of a write. It says that it is unordered exactly where its
/// stream was set to be unordered before the write, and the message is none of DCEP (RFC 8832 6).
pub fn each_chunk_is_sent_as_it_was_written()
    ensures { AfterEachFitRun AreSentAsWritten }
{}

/// What was written on a stream while it was ordered, and each DCEP message, is read in the order of the writes. Each is a write at a place
/// of its own, whatever is skipped. So it is in sessions that give out fewer than 2^31 TSNs, and in a whole life, while nothing is handed over
/// or held that is 2^31 TSNs old.
pub fn what_is_written_ordered_is_read_in_order()
    ensures few { AfterEachRunOfFewTsns AreReadAsWritten }
    ensures recent { AfterEachYoungRun AreReadAsWritten }
{}

/// What was read of a stream that no call made unordered is what was written to it, message by message and in the same order, but for
/// writes that are left out: none where as many were read. So it is in sessions that give out fewer than 2^31 TSNs, and in a whole life, while
/// nothing is handed over or held that is 2^31 TSNs old.
pub fn what_is_read_of_an_ordered_stream_is_what_was_written()
    ensures few { AfterEachRunOfFewTsns AreReadInTurn }
    ensures recent { AfterEachYoungRun AreReadInTurn }
{}
