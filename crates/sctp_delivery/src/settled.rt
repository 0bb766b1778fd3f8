//! What the laws of what is read in the end tell a caller.

ghost use Rattle.std.specs.Prelude.{◌≡◌, ◌<◌, true};
ghost use Rattle.sctp_delivery.specs.Abandoned.{AfterEachSessionOfMessages, EachOtherIsReadOnce};
ghost use Rattle.sctp_delivery.specs.Complete.{AfterEachReliableSession, EachIsReadOnce, holds_nothing, is_exhausted, is_settled, reads_nothing};
ghost use Rattle.sctp_delivery.specs.Expiries.{AfterEachRunOfAsked, EachReliableIsReadOnce};
ghost use Rattle.sctp_delivery.specs.Returns.{AfterEachWithReturnsOfFewTsns};

use crate::laws::complete::{
    all_is_read_in_the_end, each_other_write_is_read_in_the_end,
    each_write_is_read_where_nothing_is_held,
};
use crate::laws::expiry::each_reliable_write_is_read_in_the_end;
use crate::laws::returns::whatever_comes_back_each_other_write_is_read_in_the_end;
use sctp_receiver::receiver::Receiver;
use sctp_receiver::replay::open_streams;
use sctp_sender::sender::Sender;

/// Whether a receiver holds nothing on any stream.
pub fn is_nothing_held(receiver: &Receiver) -> bool
    ensures { result ≡ holds_nothing receiver.now }
{
    for inbound in open_streams(receiver) {
        if inbound.queue.chunk_count() != 0 {
            return false;
        }
    }
    true
}

/// Whether nothing waits, nothing is in flight, and the receiver holds nothing. In whatever reliable session the two stand, each write
/// was read exactly once where that is so.
pub fn is_each_read(sender: &Sender, receiver: &Receiver) -> bool
    ensures exact { result ≡ is_settled sender.now receiver.now }
    ensures read { result ≡ true → AfterEachReliableSession (λ size s. 0 < size
        → s.sending.sender ≡ sender.now → s.receiving.receiver ≡ receiver.now
        → EachIsReadOnce s) }
{
    each_write_is_read_where_nothing_is_held();
    sender.outbound().pending_len() == 0
        && sender.outbound().inflight_len() == 0
        && is_nothing_held(receiver)
}

/// Whether a receiver has no message to read on any stream.
pub fn is_nothing_readable(receiver: &Receiver) -> bool
    ensures { result ≡ reads_nothing receiver.now }
{
    for inbound in open_streams(receiver) {
        if inbound.queue.is_readable() {
            return false;
        }
    }
    true
}

/// Whether nothing waits, nothing is in flight, and nothing is to be read. In whatever reliable session the two stand, each write was
/// read exactly once where that is so. In whatever session of fewer than 2^31 TSNs, each write was whose message no call abandoned, and
/// each reliable one that no call of `abandon` named. So it is, but for the reliable ones, of a sender that keeps what is reported.
pub fn is_all_read(sender: &Sender, receiver: &Receiver) -> bool
    ensures exact { result ≡ is_exhausted sender.now receiver.now }
    ensures read { result ≡ true → AfterEachReliableSession (λ size s. 0 < size
        → s.sending.sender ≡ sender.now → s.receiving.receiver ≡ receiver.now
        → EachIsReadOnce s) }
    ensures unless_abandoned { result ≡ true → AfterEachSessionOfMessages (λ size gone s. 0 < size
        → s.sending.sender ≡ sender.now → s.receiving.receiver ≡ receiver.now
        → EachOtherIsReadOnce gone s) }
    ensures reliable { result ≡ true → AfterEachRunOfAsked (λ ws asked s.
        s.sending.sender ≡ sender.now → s.receiving.receiver ≡ receiver.now
        → EachReliableIsReadOnce ws asked s) }
    ensures keeping { result ≡ true → AfterEachWithReturnsOfFewTsns (λ first given gone calls s.
        s.sending.sender ≡ sender.now → s.receiving.receiver ≡ receiver.now
        → EachOtherIsReadOnce gone s) }
{
    all_is_read_in_the_end();
    each_other_write_is_read_in_the_end();
    each_reliable_write_is_read_in_the_end();
    whatever_comes_back_each_other_write_is_read_in_the_end();
    sender.outbound().pending_len() == 0
        && sender.outbound().inflight_len() == 0
        && is_nothing_readable(receiver)
}
