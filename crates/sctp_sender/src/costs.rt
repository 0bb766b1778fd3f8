//! The calls of `Sender` with their turns counted, for a proof of what a call costs (SECURITY.md). They do the same, and the plain ones
//! do not go through them.

ghost use Rattle.std.specs.Prelude.{◌+◌, ◌*◌, ◌≤◌, length};
ghost use Rattle.sctp_data.specs.SelectiveAck.{sack_of};
ghost use Rattle.sctp_sender.specs.Calls.{Acknowledges, CountsBack, CountsSack, Misses, TakesBack};
ghost use Rattle.sctp_sender.specs.Resending.{count_before};
ghost use Rattle.sctp_sender.specs.Sender.{taken_back_by};

use crate::sender::flight::kept::TakenBack;
use crate::sender::refusal::SenderRefusal;
use crate::sender::{Acked, Sender};
use sctp_data::chunk::chunk_selective_ack::ChunkSelectiveAck;
use sctp_serial::turns::Turns;

/// `Sender::acked`, and its turns are added: at most `sack_turns`, where the sender keeps nothing that is reported, and at most
/// `take_back_turns` and `keeping_turns` more, where it does; none where the SACK is out of date, and at most one for each gap ack block
/// where it is refused for what it claims.
pub fn acked(
    sender: &mut Sender,
    sack: &ChunkSelectiveAck,
    turns: &mut Turns,
) -> Result<Acked, SenderRefusal>
    ensures acks { Acknowledges (sack_of sack.now) sender.old sender.new result }
    ensures turns { CountsSack (sack_of sack.now) sender.old turns.old turns.new }
{
    sender.acked_counted(sack, turns)
}

/// `replay::take_back`, and its turns are added: at most `take_back_turns`; none where nothing is kept or the SACK is out of date, and at
/// most one for each gap ack block where it is refused for what it claims. What else is in flight costs nothing.
pub fn take_back(
    sender: &mut Sender,
    sack: &ChunkSelectiveAck,
    turns: &mut Turns,
) -> Result<Vec<TakenBack>, SenderRefusal>
    ensures takes { TakesBack (sack_of sack.now) sender.old sender.new result }
    ensures turns { CountsBack (sack_of sack.now) sender.old
        (length (taken_back_by (sack_of sack.now) sender.old)) turns.old turns.new }
{
    sender.take_back_alone(sack, turns)
}

/// `Sender::add_miss_indications`, and its turns are added: at most two for each chunk in flight whose TSN is before this one.
pub fn add_miss_indications(sender: &mut Sender, before: u32, turns: &mut Turns) -> usize
    ensures misses { Misses before sender.old sender.new result }
    ensures not_back { turns.old ≤ turns.new }
    ensures cost { turns.new ≤ turns.old + 2 * count_before before sender.old.flight }
{
    sender.add_miss_indications_counted(before, turns)
}
