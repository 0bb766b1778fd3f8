//! What the laws of what is refused tell a caller.

ghost use Rattle.std.specs.Prelude.{◌≡◌, ◌≤◌, IfErr, IfOk, IsOk, OnErr, OnOk, true};
ghost use Rattle.sctp_data.specs.ForwardTsn.{forward_tsn_of};
ghost use Rattle.sctp_receiver.specs.declared.receiver.refusal.ReceiverRefusal.TheVariants.{OutOfMemory};
ghost use Rattle.sctp_delivery.specs.Messages.{WhileFewTsns};
ghost use Rattle.sctp_delivery.specs.ReceiverCalls.{ReceiverMakes, follows, takes};
ghost use Rattle.sctp_delivery.specs.Refused.{AfterEachUnlimitedSession, IsInFlight, MayMake, is_due_named, is_takable};

use crate::laws::progress::{no_chunk_in_flight_is_refused, no_forward_tsn_is_refused};
use sctp_data::chunk::chunk_forward_tsn::ChunkForwardTsn;
use sctp_data::chunk::chunk_payload_data::ChunkPayloadData;
use sctp_receiver::receiver::Receiver;
use sctp_receiver::receiver::arrival::{Arrival, Closed, Forwarded};
use sctp_receiver::receiver::refusal::ReceiverRefusal;

/// Takes a DATA chunk of the other host. In whatever session of fewer than 2^31 TSNs the receiver stands without limits, where it takes
/// messages as long as the sender writes, the chunk's stream is open, and nothing is to be read there, or the chunk is unordered: one with
/// the wire fields of a chunk in flight, or made under its TSN, is refused for want of memory alone, where the message is not abandoned;
/// and it may be handed over again.
pub fn take_chunk(
    receiver: &mut Receiver,
    chunk: &ChunkPayloadData,
) -> Result<Arrival, ReceiverRefusal>
    ensures step { IfOk result
        (λ arrival. ReceiverMakes (takes chunk.now arrival) receiver.old receiver.new) }
    ensures err { OnErr result (receiver.new ≡ receiver.old) }
    ensures refused { IfErr result (λ e. is_takable chunk.now receiver.old ≡ true
        → AfterEachUnlimitedSession (λ s. s.receiving.receiver ≡ receiver.old
        → s.sending.sender.max_message_size ≤ receiver.old.max_message_size
        → IsInFlight chunk.now s → e ≡ OutOfMemory)) }
{
    no_chunk_in_flight_is_refused();
    receiver.data(chunk)
}

/// Follows a FORWARD-TSN of the other host. In whatever session of fewer than 2^31 TSNs the receiver stands, with limits or without: where
/// each stream that it names is open, and nothing is to be read there, one that the sender may make now is not refused.
pub fn follow(
    receiver: &mut Receiver,
    chunk: &ChunkForwardTsn,
) -> Result<Forwarded, ReceiverRefusal>
    ensures step { OnOk result
        (ReceiverMakes (follows (forward_tsn_of chunk.now)) receiver.old receiver.new) }
    ensures err { OnErr result (receiver.new ≡ receiver.old) }
    ensures taken { is_due_named (forward_tsn_of chunk.now) receiver.old ≡ true
        → WhileFewTsns (λ s. s.receiving.receiver ≡ receiver.old
        → MayMake (forward_tsn_of chunk.now) s.sending.sender → IsOk result) }
{
    no_forward_tsn_is_refused();
    receiver.forward_tsn(chunk, Closed::Refuse)
}
