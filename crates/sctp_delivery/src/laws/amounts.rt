//! The buffered amount of each stream, by what a session wrote and what its answers told.

ghost use Rattle.sctp_delivery.specs.Amounts.{AmountsAreLeft, AmountsEnd, EachIsTold};
ghost use Rattle.sctp_delivery.specs.Messages.{AfterEachFitSession};
ghost use Rattle.sctp_delivery.specs.Modes.{AfterEachFitRun};

/// The buffered amount of each open stream is the bytes that the session's calls wrote on it, less those that their answers told on it: of
/// chunks that were acknowledged (RFC 9260 6.2.1), and of messages that were abandoned or expired (RFC 3758 3.5).
pub fn amounts_are_what_is_left()
    ensures { AfterEachFitRun AmountsAreLeft }
{}

/// It is 0 once nothing of the stream waits, and each of its chunks in flight is acknowledged or abandoned.
pub fn amounts_end_at_nothing()
    ensures { AfterEachFitSession AmountsEnd }
{}

/// What an answer tells of a chunk that a SACK releases is that chunk's: one with bytes has the TSN, the stream and the bytes of a DATA
/// chunk that the sender made (RFC 9260 6.2.1). Its message is told to be acknowledged exactly where none of it is left: nothing of it
/// waits, each of its chunks in flight is acknowledged, and it was not abandoned.
pub fn what_is_told_is_of_the_chunk()
    ensures { AfterEachFitSession EachIsTold }
{}
