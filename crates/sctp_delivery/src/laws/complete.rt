//! What is taken is held or was read, and in the end each write was read: so it is in every reliable session, one in which no message
//! is abandoned or expires; and where some are, each other write was read.

ghost use Rattle.std.specs.Prelude.{◌<◌};
ghost use Rattle.sctp_delivery.specs.Abandoned.{AfterEachOfFewInFlight, AfterEachSessionOfMessages, AreOfWrites, IsEachOtherReadInTheEnd, IsHeldReadOrPassed, OnlyTheirsAreMarked};
ghost use Rattle.sctp_delivery.specs.Complete.{AfterEachReliableSession, IsAllReadInTheEnd, IsAllReadWhereSettled, IsHeldOrRead};
ghost use Rattle.sctp_delivery.specs.Messages.{WhileFewTsns};
ghost use Rattle.sctp_delivery.specs.Recent.{WhileReliableAndYoung};

/// Nothing that the receiver took as new is dropped in silence: each chunk stands in a message that was read on its stream, or is held
/// there, and none of them twice. So it is in reliable sessions that give out fewer than 2^31 TSNs; and in a whole life, while nothing is
/// handed over or held that is 2^31 TSNs old.
pub fn what_is_taken_is_held_or_read()
    ensures few { AfterEachReliableSession (λ size s. IsHeldOrRead s) }
    ensures recent { WhileReliableAndYoung IsHeldOrRead }
{}

/// And in every session, whatever is abandoned, each such chunk that is dropped is one that a FORWARD-TSN passed (RFC 3758 3.6): the
/// others are held or were read, and none of them twice. So it is in sessions that give out fewer than 2^31 TSNs.
pub fn what_is_taken_is_held_read_or_passed()
    ensures { WhileFewTsns IsHeldReadOrPassed }
{}

/// Whatever the network loses, delays, repeats and reorders: where nothing waits to be sent, nothing is in flight, and the receiver
/// holds nothing, each write was read exactly once. So it is in reliable sessions that give out fewer than 2^31 TSNs; and in a whole life,
/// while nothing is handed over or held that is 2^31 TSNs old.
pub fn each_write_is_read_where_nothing_is_held()
    ensures few { AfterEachReliableSession (λ size s. 0 < size → IsAllReadWhereSettled s) }
    ensures recent { WhileReliableAndYoung IsAllReadWhereSettled }
{}

/// And where nothing waits to be sent, nothing is in flight, and on no stream is a message to read: each write was read exactly once.
/// So it is in reliable sessions that give out fewer than 2^31 TSNs, however many writes a stream has.
pub fn all_is_read_in_the_end()
    ensures { AfterEachReliableSession (λ size s. 0 < size → IsAllReadInTheEnd s) }
{}

/// Where messages are abandoned or expire (RFC 3758 3.5): where nothing waits to be sent, nothing is in flight, and on no stream is a
/// message to read, each write whose message no call abandoned was read exactly once. So it is in sessions that give out fewer than
/// 2^31 TSNs.
pub fn each_other_write_is_read_in_the_end()
    ensures { AfterEachSessionOfMessages (λ size gone s. 0 < size → IsEachOtherReadInTheEnd gone s) }
{}

/// Each message that a call abandons or lets expire is a write; and of the chunks in flight none is marked as abandoned but those of
/// such messages. So a FORWARD-TSN passes no chunk in flight of another message (RFC 3758 3.5;
/// `sacks::what_is_acknowledged_came_or_was_abandoned`). So it is while fewer than 2^31 chunks are in flight, as a `Sender` sees to it, however
/// many TSNs it gives out.
pub fn what_is_abandoned_was_written()
    ensures written { AfterEachOfFewInFlight AreOfWrites }
    ensures marked { AfterEachOfFewInFlight OnlyTheirsAreMarked }
{}
