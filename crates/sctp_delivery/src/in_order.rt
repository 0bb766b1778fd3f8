//! What the law of order tells a caller.

ghost use Rattle.std.specs.Prelude.{IfOk, IfSome, OnOk};
ghost use Rattle.sctp_delivery.specs.Messages.{WhileFewTsns};
ghost use Rattle.sctp_delivery.specs.Order.{IsNextIn};
ghost use Rattle.sctp_delivery.specs.ReceiverCalls.{ReceiverMakes, reads};

use crate::laws::messages::messages_are_read_in_order;
use sctp_reassembly::chunks::Chunks;
use sctp_receiver::receiver::Receiver;
use sctp_receiver::receiver::refusal::ReceiverRefusal;

/// Reads the next message of a stream. In whatever session of fewer than 2^31 TSNs the receiver stands: what it answers is a write of
/// its own; and where it is ordered, it was written later than each ordered message of the stream that was read before.
pub fn read_in_order(
    receiver: &mut Receiver,
    stream: u16,
) -> Result<Option<Chunks>, ReceiverRefusal>
    ensures step { OnOk result (ReceiverMakes (reads stream) receiver.old receiver.new) }
    ensures order { IfOk result (λ message. IfSome message
        (λ chunks. WhileFewTsns (IsNextIn receiver.old stream chunks.set.chunks))) }
{
    messages_are_read_in_order();
    receiver.read(stream)
}
