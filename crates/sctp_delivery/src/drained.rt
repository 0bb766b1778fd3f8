//! What the law of bytes tells a caller.

ghost use Rattle.std.specs.Prelude.{◌≡◌, ◌==◌};
ghost use Rattle.sctp_delivery.specs.Session.{AfterEachSession, bytes_written};

use crate::laws::each_written_byte_waits_or_was_released;
use sctp_sender::sender::Sender;

/// Whether nothing waits or is in flight: in whatever session the sender stands, all bytes that were written were released then, and
/// only then.
pub fn is_all_released(sender: &Sender) -> bool
    ensures { AfterEachSession (λ s. s.sending.sender ≡ sender.now
        → result ≡ (bytes_written s == s.sending.released)) }
{
    each_written_byte_waits_or_was_released();
    sender.outbound().pending_bytes() == 0 && sender.outbound().inflight_bytes() == 0
}
