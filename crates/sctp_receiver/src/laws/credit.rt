//! What a SACK tells of the window, after every run of calls of a receiver (RFC 9260 3.3.4, 6.2): a law.

ghost use Rattle.sctp_receiver.specs.Credit.{AfterEachLimitedRun, AfterEachUnlimitedRun, OpensByReads, TellsTheMost, TellsWhatIsLeft};

/// Whatever calls a receiver had, the credit of its next SACK is what the window leaves over the chunks that are held, each counted with
/// its bytes and `CHUNK_COST`, up to the greatest u32. Where all that was taken was read it is the whole window. Without limits it is the
/// greatest u32. Fewer than 2^64 bytes were taken as new.
pub fn credit_is_what_is_left()
    ensures exact { AfterEachLimitedRun TellsWhatIsLeft }
    ensures opens { AfterEachLimitedRun OpensByReads }
    ensures unlimited { AfterEachUnlimitedRun TellsTheMost }
{}
