//! What the law of amounts tells a caller.

ghost use Rattle.std.specs.Prelude.{◌≡◌, ◌+◌, IfSome, option_map};
ghost use Rattle.sctp_sender.specs.Sender.{stream_of};
ghost use Rattle.sctp_delivery.specs.Amounts.{told_on, written_on};
ghost use Rattle.sctp_delivery.specs.Modes.{AfterEachFitRun};

use crate::laws::amounts::amounts_are_what_is_left;
use sctp_sender::sender::Sender;

/// The buffered amount of a stream, in bytes; None where it is not open. In whatever session the sender stands: so many bytes were written
/// on the stream, and told by no answer since.
pub fn buffered_amount(sender: &Sender, stream: u16) -> Option<usize>
    ensures exact { result
        ≡ option_map (λ l. l.buffered_amount) (stream_of stream sender.now) }
    ensures left { IfSome result (λ amount. AfterEachFitRun (λ calls s.
        s.sending.sender ≡ sender.now
        → amount + told_on stream calls ≡ written_on stream calls)) }
{
    amounts_are_what_is_left();
    let state = sender.stream(stream)?;
    Some(state.buffered_amount())
}
