//! What the law of messages tells a caller.

ghost use Rattle.std.specs.Prelude.{◌≡◌, IfOk, IfSome};
ghost use Rattle.sctp_delivery.specs.Messages.{IsReadIn, WhileTsnsLast};

use crate::laws::messages::each_message_read_was_written;
use sctp_reassembly::chunks::Chunks;
use sctp_receiver::receiver::Receiver;
use sctp_receiver::receiver::refusal::ReceiverRefusal;

/// Reads the next message of a stream. In whatever session the receiver stands, while TSNs last: what it answers is a write of the
/// sender on that stream, with its payload type and byte for byte.
pub fn read_write(receiver: &mut Receiver, stream: u16) -> Result<Option<Chunks>, ReceiverRefusal>
    ensures { IfOk result (λ message. IfSome message
        (λ chunks. WhileTsnsLast (IsReadIn receiver.old stream chunks.set.chunks))) }
{
    each_message_read_was_written();
    receiver.read(stream)
}
