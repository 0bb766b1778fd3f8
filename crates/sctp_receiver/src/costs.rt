//! The calls of `Receiver` with their turns counted, for a proof of what a call costs. A turn is one look at a TSN that is held beyond
//! the cumulative one, at a name of a FORWARD-TSN that is followed, or at a stream that it visits.

ghost use Rattle.std.specs.Prelude.{false};
ghost use Rattle.sctp_data.specs.ForwardTsn.{forward_tsn_of};
ghost use Rattle.sctp_receiver.specs.Calls.{CountsBlocks, MakesSack, Sacks, SkipsCounted, TakesDataCounted};
ghost use Rattle.sctp_receiver.specs.Skips.{refusal_to_skip};

use crate::receiver::Receiver;
use crate::receiver::arrival::{Arrival, Closed, Forwarded};
use crate::receiver::refusal::ReceiverRefusal;
use sctp_data::chunk::chunk_forward_tsn::ChunkForwardTsn;
use sctp_data::chunk::chunk_payload_data::ChunkPayloadData;
use sctp_data::chunk::chunk_selective_ack::ChunkSelectiveAck;
use sctp_serial::turns::Turns;

/// `Receiver::data`, and its turns are added: at most three times as many as the number of TSNs beyond has binary digits, five more, and
/// those of the push in the queue of its stream (`IsWithinData`). A chunk that is refused, or a repeat, takes no more.
pub fn data(
    receiver: &mut Receiver,
    chunk: &ChunkPayloadData,
    turns: &mut Turns,
) -> Result<Arrival, ReceiverRefusal>
    ensures { TakesDataCounted
        chunk.now receiver.old receiver.new result turns.old turns.new }
{
    receiver.take(chunk, turns)
}

/// `Receiver::forward_tsn`, and its turns are added: two for each stream with unassembled fragments or ordered messages, one for each name
/// and for each TSN beyond that leaves (`forward_turns`). What it looks at within streams is added to `skips` (`skips_walk`): what is
/// held, once, also where it names a stream with several numbers (RFC 3758 3.2; `laws::a_skip_costs_by_what_is_held`).
pub fn forward_tsn(
    receiver: &mut Receiver,
    chunk: &ChunkForwardTsn,
    closed: Closed,
    turns: &mut Turns,
    skips: &mut Turns,
) -> Result<Forwarded, ReceiverRefusal>
    ensures { SkipsCounted (refusal_to_skip closed) (forward_tsn_of chunk.now)
        receiver.old receiver.new result turns.old turns.new skips.old skips.new }
{
    receiver.follow(chunk, closed, turns, skips)
}

/// `Receiver::sack`, and its turns are added: at most 34 for each gap ack block of the SACK, one more, and as many as the number of TSNs
/// held beyond the cumulative one has binary digits; where memory runs out, for each block that the SACK would have else.
pub fn sack(
    receiver: &mut Receiver,
    room: usize,
    turns: &mut Turns,
) -> Result<ChunkSelectiveAck, ReceiverRefusal>
    ensures sacks { Sacks room receiver.old receiver.new result }
    ensures cost { CountsBlocks room receiver.old result turns.old turns.new }
{
    receiver.report(room, turns)
}

/// `Receiver::make_sack`, and its turns are added as `sack` adds them.
pub fn make_sack(
    receiver: &Receiver,
    room: usize,
    turns: &mut Turns,
) -> Result<ChunkSelectiveAck, ReceiverRefusal>
    ensures made { MakesSack room receiver.now result }
    ensures cost { CountsBlocks room receiver.now result turns.old turns.new }
{
    receiver.sack_within(room, turns)
}
