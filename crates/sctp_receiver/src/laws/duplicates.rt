//! What SACKs tell of TSNs that came again, after every run of calls of a receiver (RFC 9260 6.2): a law.

ghost use Rattle.sctp_receiver.specs.Duplicates.{AfterEachRunWithRepeats, AreToldOnce, FillTheSack};

/// Whatever calls a receiver had: the duplicates in its SACKs, one SACK after another, and those that are noted for the next one, are the
/// TSNs that came again, once for each time and in order. The next SACK tells as many as fit behind its gap ack blocks. With limits a TSN is
/// not noted while 16,379 wait. Where a SACK of `make_sack` is sent, those that did not fit are forgotten.
pub fn repeats_are_told_once()
    ensures once { AfterEachRunWithRepeats AreToldOnce }
    ensures fill { AfterEachRunWithRepeats FillTheSack }
{}
