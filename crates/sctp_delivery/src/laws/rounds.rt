//! Exchanges that get through empty the sender: a FORWARD-TSN passes what is abandoned, and each SACK of a receiver that is caught up
//! leaves fewer chunks in flight (RFC 4960 6.2.1; RFC 3758 3.5).

ghost use Rattle.sctp_delivery.specs.Ending.{AfterEachSessionWithTsnsLeft, ArrivalsAreDetermined, EachMakesOneStep, EndsWhereTaken, EndsWithAllRead, ReleasesAreDetermined};
ghost use Rattle.sctp_delivery.specs.Messages.{WhileFewTsns};
ghost use Rattle.sctp_delivery.specs.Modes.{WhileFewInFlight};
ghost use Rattle.sctp_delivery.specs.Recent.{WhileRecent};
ghost use Rattle.sctp_delivery.specs.Rounds.{AfterEachFitReliableSession, AfterEachFitSessionOfFewTsns, AllIsReadAfterRounds, CanBeAnswered, EachAnswerLeavesFewer, EachCanGoOn, EachRoundTakesOne, RoundsEnd, SkipsToPoint};
ghost use Rattle.sctp_delivery.specs.Sacks.{AfterEachSessionOfFewTsns};

/// Where the message of the first chunk in flight is abandoned, a FORWARD-TSN goes to the Advanced.Peer.Ack.Point: what is abandoned
/// never stops the sender (RFC 3758 3.5). So it is while fewer than 2^31 chunks are in flight, as a `Sender` sees to it, however many TSNs it
/// gives out.
pub fn what_is_abandoned_can_be_passed()
    ensures { WhileFewInFlight SkipsToPoint }
{}

/// Each chunk in flight that the receiver did not take, and whose message is not abandoned, can be sent again (RFC 4960 6.3.3): what
/// is lost never stops the sender either. So it is in sessions that give out fewer than 2^31 TSNs.
pub fn what_is_lost_can_be_sent_again()
    ensures { AfterEachSessionOfFewTsns (λ first given s. EachCanGoOn s) }
{}

/// The receiver can make a SACK at any time, by each call that makes one and with any credit, and the sender can take it. So it is however many
/// TSNs are given out, while fewer than 2^31 are in flight, and nothing is handed over that is 2^31 TSNs old.
pub fn a_sack_can_be_made_and_taken()
    ensures { WhileRecent CanBeAnswered }
{}

/// Where the receiver took each chunk in flight whose message is not abandoned, and followed the FORWARD-TSN that can be made, a SACK
/// that it makes, once the sender takes it, leaves fewer chunks in flight: none, or chunks of which the first is of an abandoned message.
/// So it is in sessions that give out fewer than 2^31 TSNs.
pub fn a_sack_of_what_came_leaves_fewer()
    ensures { WhileFewTsns EachAnswerLeavesFewer }
{}

/// Calls of both hosts up to where the receiver is caught up, and then its SACK, are a round. Each round takes one chunk at least, so
/// after as many as chunks wait and are in flight together, nothing waits, and nothing is in flight: whatever the network loses, delays,
/// repeats and reorders in between, and whichever messages are abandoned. So it is in sessions that give out fewer than 2^31 TSNs.
pub fn rounds_end()
    ensures fewer { AfterEachFitSessionOfFewTsns EachRoundTakesOne }
    ensures done { AfterEachFitSessionOfFewTsns RoundsEnd }
{}

/// Where no message is abandoned or expires: after as many rounds as chunks wait and are in flight together, and reads until on no stream
/// is a message to read, each write was read exactly once. So it is in sessions that give out fewer than 2^31 TSNs.
pub fn all_is_read_after_rounds()
    ensures { AfterEachFitReliableSession AllIsReadAfterRounds }
{}

/// Each session can be ended, however much waits: where the receiver has no limits, or room within them for what is in flight and begun,
/// and then for one message after another, and takes messages as long as the sender writes, calls exist, at whatever moment, none of which
/// is refused for a reason, behind which nothing waits, nothing is in flight, and nothing is to be read. None of them writes, abandons a
/// message, or lets one expire; and each write whose message had not been abandoned was read exactly once then: each, where none had been.
/// So it is in sessions that give out fewer than 2^31 TSNs, with one for each chunk that waits.
pub fn every_session_can_end()
    ensures ends { AfterEachSessionWithTsnsLeft EndsWhereTaken }
    ensures all { AfterEachSessionWithTsnsLeft EndsWithAllRead }
{}

/// Each call, with its arguments and its answer, leads from a session to one other alone; whether a message becomes complete by a chunk is
/// settled by the receiver, and what is answered of the chunks that a SACK releases by the sender. So the hosts themselves, where memory
/// suffices, go from session to session as calls say that are known to exist.
pub fn each_call_makes_one_step()
    ensures step { EachMakesOneStep }
    ensures arrival { ArrivalsAreDetermined }
    ensures sack { ReleasesAreDetermined }
{}
