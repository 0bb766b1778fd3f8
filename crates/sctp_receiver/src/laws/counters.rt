//! What the counters of a receiver's streams say, after every run of its calls: a law.

ghost use Rattle.sctp_receiver.specs.Counters.{CountersAreSums};

/// Whatever calls a receiver had: on each open stream `messages_received` is the number of text and binary messages that were read there
/// since it was opened, the empty ones too, and `bytes_received` their bytes. Both stay at the greatest u64.
pub fn counters_are_sums()
    ensures { CountersAreSums }
{}
