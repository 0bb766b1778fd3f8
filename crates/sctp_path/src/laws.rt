//! What holds of every run of calls: a law, the contract of a function that does nothing.

ghost use Rattle.sctp_path.specs.Rto.{DoublingEndsAtMost};

/// As often as T3-rtx expires in a row, the RTO is that power of two times what it was, until RTO.Max is reached; there it stays.
pub fn doubling_ends_at_the_greatest()
    ensures { DoublingEndsAtMost }
{}
