//! What SACKs and FORWARD-TSNs say in every session of two hosts that gives out fewer than 2^31 TSNs: laws, each the contract of a
//! function that does nothing, and a caller of one.

ghost use Rattle.std.specs.Prelude.{◌≡◌, ◌<◌, true, IfErr, IfOk, OnErr, All, Contains};
ghost use Rattle.sctp_data.specs.SelectiveAck.{sack_of};
ghost use Rattle.sctp_sender.specs.declared.sender.refusal.SenderRefusal.TheVariants.{OutOfMemory};
ghost use Rattle.sctp_delivery.specs.Recent.{NoYoungSackIsRefused};
ghost use Rattle.sctp_delivery.specs.SenderCalls.{SenderMakes, takes_sack};
ghost use Rattle.sctp_delivery.specs.Sacks.{AfterEachSessionOfFewTsns, AcknowledgedCame, AllReportedLeaves, EachSackTells, LeftCame, NextSackTells, NoneIsRefused, NoneIsTakenTwice, PassAbandoned, ReleasedCame, ReportWhatCame, StaysAcknowledged, was_taken};

use sctp_data::chunk::chunk_selective_ack::ChunkSelectiveAck;
use sctp_sender::replay;
use sctp_sender::sender::Sender;
use sctp_sender::sender::flight::Released;
use sctp_sender::sender::refusal::SenderRefusal;

/// The sender refuses no SACK that the receiver made, however late, however often and in whatever order the network hands them over;
/// one that a later one overtook is out of date, and changes nothing (RFC 4960 6.2.1). So it is in sessions that give out fewer than 2^31 TSNs.
/// It holds in a whole life, too, of each SACK that is less than 2^31 TSNs old.
pub fn no_sack_is_refused()
    ensures few { AfterEachSessionOfFewTsns (λ first count s. NoneIsRefused s) }
    ensures recent { NoYoungSackIsRefused }
{}

/// From the first TSN on, a SACK reports none, cumulatively or in a gap ack block, but those that the receiver took as new and those
/// up to which a FORWARD-TSN of the sender goes; each of these was given out.
pub fn what_a_sack_reports_came()
    ensures { AfterEachSessionOfFewTsns ReportWhatCame }
{}

/// A SACK that the receiver makes, by whichever call (`each`), leaves out nothing that it took as new: the TSN after its cumulative one
/// was not taken; and it reports each that was, but for those 65,536 or more past the cumulative one, and for what a full list of blocks
/// cuts off.
pub fn what_came_is_reported()
    ensures next { AfterEachSessionOfFewTsns (λ first count s. NextSackTells s) }
    ensures each { AfterEachSessionOfFewTsns (λ first count s. EachSackTells s) }
{}

/// Of the chunks in flight, one that is acknowledged, or that any SACK of the receiver reports, was taken by the receiver, or its
/// message is abandoned; and each with bytes that such a SACK releases was taken. What left cumulatively was taken, or a FORWARD-TSN
/// goes up to it; and a FORWARD-TSN passes chunks of abandoned messages alone (RFC 3758 3.5).
pub fn what_is_acknowledged_came_or_was_abandoned()
    ensures came { AfterEachSessionOfFewTsns (λ first count s. AcknowledgedCame s) }
    ensures released { AfterEachSessionOfFewTsns (λ first count s. ReleasedCame s) }
    ensures left { AfterEachSessionOfFewTsns (λ first count s. LeftCame first s) }
    ensures passed { AfterEachSessionOfFewTsns (λ first count s. PassAbandoned s) }
{}

/// A chunk in flight that is acknowledged stays so in every call of either host, while it is in flight: nothing that the sender does,
/// and no SACK that comes late or out of order, makes it outstanding again (RFC 4960 6.2.1).
pub fn what_is_acknowledged_stays_so()
    ensures { AfterEachSessionOfFewTsns (λ first count s. StaysAcknowledged s) }
{}

/// A SACK of the receiver that has as its cumulative TSN the last one given out leaves nothing in flight.
pub fn a_sack_of_all_leaves_nothing()
    ensures { AfterEachSessionOfFewTsns (λ first count s. AllReportedLeaves s) }
{}

/// The receiver takes no TSN as new twice, however often the network hands its chunk over (RFC 4960 6.2).
pub fn no_tsn_is_taken_twice()
    ensures { AfterEachSessionOfFewTsns (λ first count s. NoneIsTakenTwice s) }
{}

/// Takes a SACK of the other host. In whatever session the sender stands, one that the receiver made is refused for want of memory
/// alone, and each chunk with bytes that leaves by it is one that the receiver took.
pub fn take_sack(
    sender: &mut Sender,
    sack: &ChunkSelectiveAck,
) -> Result<Vec<Released>, SenderRefusal>
    ensures step { IfOk result
        (λ gone. SenderMakes (takes_sack (sack_of sack.now) gone.items) sender.old sender.new) }
    ensures err { OnErr result (sender.new ≡ sender.old) }
    ensures refused { IfErr result (λ e. AfterEachSessionOfFewTsns (λ first count s.
        s.sending.sender ≡ sender.old → Contains s.sacks (sack_of sack.now) → e ≡ OutOfMemory)) }
    ensures came { IfOk result (λ gone. AfterEachSessionOfFewTsns (λ first count s.
        s.sending.sender ≡ sender.old → Contains s.sacks (sack_of sack.now)
        → All (λ r. 0 < r.bytes → was_taken r.tsn s ≡ true) gone.items)) }
{
    no_sack_is_refused();
    what_is_acknowledged_came_or_was_abandoned();
    replay::acked(sender, sack)
}
