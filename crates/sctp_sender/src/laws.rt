//! What holds of every sender, or after every run of its calls: laws, each the contract of a function that does nothing.

ghost use Rattle.sctp_sender.specs.Costs.{CostsByWhatIsNew, CostsTogether};
ghost use Rattle.sctp_sender.specs.Numbers.{NumbersTell};
ghost use Rattle.sctp_sender.specs.SenderRuns.{AfterEachRun, IsAccounted};

/// After every run of calls of a sender, the bytes of the writes that it accepted are as many as those that wait, those in
/// flight, and those that its calls answered as gone, together.
pub fn each_written_byte_is_accounted_for()
    ensures { AfterEachRun IsAccounted }
{}

/// Where the ordered chunks of each stream were numbered in turn, as `write` numbers them, `SsnsUsedUp` hangs on the numbers alone: a
/// message whose number is 2^14 or more past that of the first one in flight has 2^14 chunks of its stream in flight before it.
pub fn numbers_alone_bound_what_is_begun()
    ensures { NumbersTell }
{}

/// Beside its blocks and what was acknowledged before, what a SACK costs goes by what it reports anew: six turns for each such chunk, and
/// one for each chunk in flight of their messages. One that reports nothing anew costs nothing more, whatever else is in flight.
pub fn a_sack_costs_by_what_is_new()
    ensures { CostsByWhatIsNew }
{}

/// What `acked` costs, where what was reported is kept: 20 turns for each block, and 13 for
/// each distance that has to be sorted; 14 for each chunk in flight that was acknowledged before; 12 for each that the SACK reports anew,
/// and one for each chunk in flight of their messages; five for each that comes back; and one for each place at which something is kept for the first time.
pub fn a_report_that_is_taken_back_costs_by_what_comes_back()
    ensures { CostsTogether }
{}
