//! What holds of every session of two hosts: laws, each the contract of a function that does nothing.

pub mod amounts;
pub mod both_ways;
pub mod complete;
pub mod counters;
pub mod discards;
pub mod every_call;
pub mod expiry;
pub mod messages;
pub mod modes;
pub mod progress;
pub mod retransmission;
pub mod returns;
pub mod rounds;
pub mod stands;

ghost use Rattle.sctp_delivery.specs.Session.{AfterEachSession, AreMade, AreMessages, AreRuns, IsAccounted};

/// What the sender did in a session is a run of its calls, and what the receiver did one of its own: so the laws of `sctp_sender` and
/// `sctp_receiver` hold of every session.
pub fn both_hosts_run()
    ensures { AfterEachSession AreRuns }
{}

/// After every session each byte that was written waits, is in flight, or was answered as gone.
pub fn each_written_byte_waits_or_was_released()
    ensures { AfterEachSession IsAccounted }
{}

/// Whatever the network loses, delays, repeats and reorders: each message that is read is whole and of one message, and each of its
/// fragments is a chunk that the sender made, with its user data byte for byte.
pub fn messages_are_of_chunks_that_were_made()
    ensures made { AfterEachSession AreMade }
    ensures whole { AfterEachSession AreMessages }
{}
