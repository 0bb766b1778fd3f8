//! Only what may expire expires, and at its moment: by how each message was written, as the calls of a session say it (RFC 3758 3.5, 4.1;
//! RFC 7496 3.1).

ghost use Rattle.sctp_delivery.specs.Expiries.{AfterEachRunOfAsked, EachDueExpires, IsEachReliableReadInTheEnd, OnlyTheDueExpire};
ghost use Rattle.sctp_delivery.specs.Modes.{AfterEachFitRun, AfterEachRunOfFewInFlight};

/// A message that an expiry abandons is none of DCEP. It was written on a stream in a timed mode, and its lifetime, from the first start or
/// send behind the write, is over; or its retransmissions are limited, and a chunk of it was sent more often. A reliable one is left to
/// `abandon` alone. So it is while fewer than 2^31 chunks are in flight, as a `Sender` sees to it, however many TSNs it gives out.
pub fn only_what_may_expire_expires()
    ensures { AfterEachRunOfFewInFlight OnlyTheDueExpire }
{}

/// And at that moment it does. What an expiry finds to be so, in front and in flight, are the messages of which that is true by the mode
/// and the lifetime of their writes.
pub fn what_is_due_expires()
    ensures { AfterEachFitRun EachDueExpires }
{}

/// Where nothing waits to be sent, nothing is in flight, and on no stream is a message to read: each write in the reliable mode, and each of
/// DCEP, was read exactly once, unless a call of `abandon` named its message. So it is in sessions that give out fewer than 2^31 TSNs,
/// whichever others expire.
pub fn each_reliable_write_is_read_in_the_end()
    ensures { AfterEachRunOfAsked IsEachReliableReadInTheEnd }
{}
