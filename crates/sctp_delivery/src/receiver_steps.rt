//! Each call of a receiver makes the step that sessions have of it (RFC 4960 6.2; RFC 3758 3.6): here it is called and nothing else.
//!
//! Left out are `close` and `reset`, which are no calls of a session, and the calls that test less: `forward_tsn` where it passes over
//! names of closed streams, and of `replay` `data_each_with_any_ssn` and `forward_tsn_by_names`.

ghost use Rattle.std.specs.Prelude.{◌≡◌, OnErr, OnOk, IfOk, option_map};
ghost use Rattle.sctp_data.specs.ForwardTsn.{forward_tsn_of};
ghost use Rattle.sctp_data.specs.SelectiveAck.{sack_of};
ghost use Rattle.sctp_reassembly.specs.reassembly_queue.ReassemblyQueue.{at_start};
ghost use Rattle.sctp_receiver.specs.Receiver.{message_on, sack, sack_within, window};
ghost use Rattle.sctp_delivery.specs.Discards.{ReceiverDiscards};
ghost use Rattle.sctp_delivery.specs.ReceiverCalls.{ReceiverMakes, follows, forgets, makes_sack, opens, reads, reports, reports_within, takes};

use sctp_data::chunk::chunk_forward_tsn::ChunkForwardTsn;
use sctp_data::chunk::chunk_payload_data::ChunkPayloadData;
use sctp_data::chunk::chunk_selective_ack::ChunkSelectiveAck;
use sctp_reassembly::chunks::Chunks;
use sctp_receiver::receiver::Receiver;
use sctp_receiver::receiver::arrival::{Arrival, Closed, Forwarded};
use sctp_receiver::receiver::refusal::ReceiverRefusal;
use sctp_receiver::{costs, replay};
use sctp_serial::turns::Turns;

/// Opens a stream.
pub fn open(receiver: &mut Receiver, stream: u16) -> Result<(), ReceiverRefusal>
    ensures step { OnOk result (ReceiverMakes (opens stream) receiver.old receiver.new) }
    ensures err { OnErr result (receiver.new ≡ receiver.old) }
{
    receiver.open(stream)
}

/// Takes a DATA chunk.
pub fn data(receiver: &mut Receiver, chunk: &ChunkPayloadData) -> Result<Arrival, ReceiverRefusal>
    ensures step { IfOk result
        (λ arrival. ReceiverMakes (takes chunk.now arrival) receiver.old receiver.new) }
    ensures err { OnErr result (receiver.new ≡ receiver.old) }
{
    receiver.data(chunk)
}

/// Drops a DATA chunk, and takes its TSN: a step of the sessions of `laws::discards` alone.
pub fn discard(receiver: &mut Receiver, tsn: u32) -> Result<Arrival, ReceiverRefusal>
    ensures step { OnOk result (ReceiverDiscards tsn receiver.old receiver.new) }
    ensures err { OnErr result (receiver.new ≡ receiver.old) }
{
    receiver.discard(tsn)
}

/// Takes a FORWARD-TSN, which is refused where it names a stream that is not open.
pub fn forward_tsn(
    receiver: &mut Receiver,
    chunk: &ChunkForwardTsn,
) -> Result<Forwarded, ReceiverRefusal>
    ensures step { OnOk result
        (ReceiverMakes (follows (forward_tsn_of chunk.now)) receiver.old receiver.new) }
    ensures err { OnErr result (receiver.new ≡ receiver.old) }
{
    receiver.forward_tsn(chunk, Closed::Refuse)
}

/// Makes a SACK in a chunk of at most `room` bytes; the duplicates that do not fit are kept for the next one.
pub fn send_sack(receiver: &mut Receiver, room: usize) -> Result<ChunkSelectiveAck, ReceiverRefusal>
    ensures step { OnOk result
        (ReceiverMakes (reports_within (window receiver.old) room) receiver.old receiver.new) }
    ensures sack { IfOk result
        (λ s. sack_of s ≡ sack_within (window receiver.old) room receiver.old) }
    ensures err { OnErr result (receiver.new ≡ receiver.old) }
{
    receiver.sack(room)
}

/// Makes a SACK with a credit, and forgets all duplicates.
pub fn send_sack_with(
    receiver: &mut Receiver,
    credit: u32,
) -> Result<ChunkSelectiveAck, ReceiverRefusal>
    ensures step { OnOk result (ReceiverMakes (reports credit) receiver.old receiver.new) }
    ensures sack { IfOk result (λ s. sack_of s ≡ sack credit receiver.old) }
    ensures err { OnErr result (receiver.new ≡ receiver.old) }
{
    let sack = replay::make_sack(receiver, credit)?;
    Receiver::sack_sent(receiver);
    Ok(sack)
}

/// Makes a SACK in a chunk of at most `room` bytes, and forgets no duplicate.
pub fn make_sack(receiver: &Receiver, room: usize) -> Result<ChunkSelectiveAck, ReceiverRefusal>
    ensures step { OnOk result
        (ReceiverMakes (makes_sack (window receiver.now) room) receiver.now receiver.now) }
    ensures sack { IfOk result
        (λ s. sack_of s ≡ sack_within (window receiver.now) room receiver.now) }
{
    receiver.make_sack(room)
}

/// Makes a SACK with a credit, and forgets no duplicate.
pub fn make_sack_with(
    receiver: &Receiver,
    credit: u32,
) -> Result<ChunkSelectiveAck, ReceiverRefusal>
    ensures step { OnOk result
        (ReceiverMakes (makes_sack credit 65532) receiver.now receiver.now) }
    ensures sack { IfOk result (λ s. sack_of s ≡ sack_within credit 65532 receiver.now) }
{
    replay::make_sack(receiver, credit)
}

/// Forgets the duplicates, once a SACK was sent.
pub fn sack_sent(receiver: &mut Receiver)
    ensures { ReceiverMakes forgets receiver.old receiver.new }
{
    receiver.sack_sent();
}

/// Reads the next message of a stream.
pub fn read(receiver: &mut Receiver, stream: u16) -> Result<Option<Chunks>, ReceiverRefusal>
    ensures step { OnOk result (ReceiverMakes (reads stream) receiver.old receiver.new) }
    ensures message { IfOk result (λ message. message
        ≡ option_map at_start (message_on stream receiver.old)) }
    ensures err { OnErr result (receiver.new ≡ receiver.old) }
{
    receiver.read(stream)
}

// ## The same, with turns that are counted

/// Takes a DATA chunk.
pub fn data_counted(
    receiver: &mut Receiver,
    chunk: &ChunkPayloadData,
    turns: &mut Turns,
) -> Result<Arrival, ReceiverRefusal>
    ensures step { IfOk result
        (λ arrival. ReceiverMakes (takes chunk.now arrival) receiver.old receiver.new) }
    ensures err { OnErr result (receiver.new ≡ receiver.old) }
{
    costs::data(receiver, chunk, turns)
}

/// Takes a FORWARD-TSN.
pub fn forward_tsn_counted(
    receiver: &mut Receiver,
    chunk: &ChunkForwardTsn,
    turns: &mut Turns,
    skips: &mut Turns,
) -> Result<Forwarded, ReceiverRefusal>
    ensures step { OnOk result
        (ReceiverMakes (follows (forward_tsn_of chunk.now)) receiver.old receiver.new) }
    ensures err { OnErr result (receiver.new ≡ receiver.old) }
{
    costs::forward_tsn(receiver, chunk, Closed::Refuse, turns, skips)
}

/// Makes a SACK in a chunk of at most `room` bytes.
pub fn send_sack_counted(
    receiver: &mut Receiver,
    room: usize,
    turns: &mut Turns,
) -> Result<ChunkSelectiveAck, ReceiverRefusal>
    ensures step { OnOk result
        (ReceiverMakes (reports_within (window receiver.old) room) receiver.old receiver.new) }
    ensures sack { IfOk result
        (λ s. sack_of s ≡ sack_within (window receiver.old) room receiver.old) }
    ensures err { OnErr result (receiver.new ≡ receiver.old) }
{
    costs::sack(receiver, room, turns)
}

/// Makes a SACK in a chunk of at most `room` bytes, and forgets no duplicate.
pub fn make_sack_counted(
    receiver: &Receiver,
    room: usize,
    turns: &mut Turns,
) -> Result<ChunkSelectiveAck, ReceiverRefusal>
    ensures step { OnOk result
        (ReceiverMakes (makes_sack (window receiver.now) room) receiver.now receiver.now) }
    ensures sack { IfOk result
        (λ s. sack_of s ≡ sack_within (window receiver.now) room receiver.now) }
{
    costs::make_sack(receiver, room, turns)
}
