//! What the law of retransmission tells a caller.

ghost use Rattle.std.specs.Prelude.{◌≡◌, ◌+◌, ◌-◌, ◌^◌, IfOk, Some, length, min};
ghost use Rattle.sctp_delivery.specs.Retransmission.{AfterEachSessionWithEvents, moments};

use crate::laws::retransmission::chunks_in_flight_are_noted;
use sctp_data::chunk::chunk_payload_data::ChunkPayloadData;
use sctp_sender::sender::Sender;
use sctp_sender::sender::refusal::SenderRefusal;

/// Sends the chunk in flight with a TSN again, as `Sender::resend` does. In whatever session of fewer than 2^31 TSNs the sender stands: the
/// chunk says that it was sent once more often than the session sent its TSN before, up to 2^32 - 1, and `now` as the last moment.
pub fn resend_counted(
    sender: &mut Sender,
    tsn: u32,
    now: u64,
) -> Result<ChunkPayloadData, SenderRefusal>
    ensures count { IfOk result (λ again. AfterEachSessionWithEvents
        (λ es s. s.sending.sender ≡ sender.old
        → again.nsent ≡ min (length (moments tsn es) + 1) (2 ^ 32 - 1))) }
    ensures since { IfOk result (λ again. again.since ≡ Some now) }
{
    chunks_in_flight_are_noted();
    sender.resend(tsn, now)
}
