//! What the law of rounds tells a caller.

ghost use Rattle.std.specs.Prelude.{◌≡◌, ◌^◌, ◌≤◌, IfSome, MatchOption};
ghost use Rattle.sctp_delivery.specs.Rounds.{AfterEachFitSessionOfFewTsns, IsEmptyAfter, chunks_left};

use crate::laws::rounds::rounds_end;
use sctp_sender::sender::Sender;

/// How many chunks wait and are in flight together; None for 2^64 or more. In whatever session of fewer than 2^31 TSNs the sender
/// stands: after so many rounds nothing waits, and nothing is in flight.
pub fn rounds_left(sender: &Sender) -> Option<usize>
    ensures exact { MatchOption result (2 ^ 64 ≤ chunks_left sender.now)
        (λ rounds. rounds ≡ chunks_left sender.now) }
    ensures empty { IfSome result (λ rounds. AfterEachFitSessionOfFewTsns
        (λ given s. s.sending.sender ≡ sender.now → IsEmptyAfter rounds given s)) }
{
    rounds_end();
    let outbound = sender.outbound();
    outbound.pending_len().checked_add(outbound.inflight_len())
}
