//! What the law of calls that end a session tells a caller.

ghost use Rattle.std.specs.Prelude.{◌≡◌, ◌<◌, false, not, true};
ghost use Rattle.sctp_delivery.specs.Abandoned.{AfterEachSessionOfMessages, EachOtherIsReadOnce};
ghost use Rattle.sctp_delivery.specs.Complete.{is_exhausted};
ghost use Rattle.sctp_delivery.specs.Ending.{AfterEachSessionWithTsnsLeft, EndsWhereTaken};

use crate::laws::rounds::every_session_can_end;
use crate::settled::is_all_read;
use sctp_receiver::receiver::Receiver;
use sctp_sender::sender::Sender;

/// Whether something waits, is in flight, or is to be read still. In whatever session of fewer than 2^31 TSNs the two stand: where it is
/// not so, each write was read exactly once whose message no call abandoned; and where it is, calls exist that end the session, if the
/// receiver has room for one message after another, takes messages as long as the sender writes, and a TSN is left for each chunk that waits.
pub fn is_unfinished(sender: &Sender, receiver: &Receiver) -> bool
    ensures exact { result ≡ not (is_exhausted sender.now receiver.now) }
    ensures over { result ≡ false → AfterEachSessionOfMessages (λ size gone s. 0 < size
        → s.sending.sender ≡ sender.now → s.receiving.receiver ≡ receiver.now
        → EachOtherIsReadOnce gone s) }
    ensures ends { result ≡ true → AfterEachSessionWithTsnsLeft (λ gone s.
        s.sending.sender ≡ sender.now → s.receiving.receiver ≡ receiver.now
        → EndsWhereTaken gone s) }
{
    every_session_can_end();
    !is_all_read(sender, receiver)
}
