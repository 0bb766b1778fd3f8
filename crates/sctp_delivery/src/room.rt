//! What the law of calls that end a session asks of a sender and a receiver.

ghost use Rattle.std.specs.Prelude.{◌≡◌, ℕ, ◌^◌, ◌<◌, ◌&&◌, nat_le, true};
ghost use Rattle.sctp_delivery.specs.Ending.{AfterEachSessionWithTsnsLeft, CanEnd, cost_left, has_room};
ghost use Rattle.sctp_delivery.specs.Rounds.{chunks_left};

use crate::laws::rounds::every_session_can_end;
use sctp_receiver::receiver::Receiver;
use sctp_receiver::receiver::limits::{CHUNK_COST, Limits};
use sctp_sender::replay::max_message_size as max_message_size_of;
use sctp_sender::sender::Sender;

/// How many chunks wait and are in flight together.
pub fn chunks_left(sender: &Sender) -> u128
    ensures exact { result ≡ chunks_left sender.now }
    ensures few { result < 2 ^ 65 }
{
    sender.outbound().pending_len() as u128 + sender.outbound().inflight_len() as u128
}

/// What they count for, in bytes, as a receiver counts what it holds.
pub fn cost_left(sender: &Sender) -> u128
    ensures exact { result ≡ cost_left sender.now }
    ensures few { result < 2 ^ 74 }
{
    let bytes = sender.outbound().pending_bytes() as u128
        + sender.outbound().inflight_bytes() as u128;
    bytes + CHUNK_COST as u128 * chunks_left(sender)
}

/// Whether a receiver of these limits has room for them.
pub fn is_room_left(sender: &Sender, receiver: &Receiver, limits: Option<Limits>) -> bool
    ensures { result ≡ has_room limits sender.now receiver.now }
{
    match limits {
        Some(limits) => {
            chunks_left(sender) <= limits.reach as u128
                && receiver.held_bytes() as u128 + cost_left(sender) < limits.window as u128
        }
        None => true,
    }
}

/// Whether a receiver that was made with these limits, for messages of at most so many bytes, takes all that is left. In whatever session
/// of the two that leaves a TSN for each chunk that waits, calls exist that end it where that is so.
pub fn can_end(
    sender: &Sender,
    receiver: &Receiver,
    limits: Option<Limits>,
    max_message_size: u32,
) -> bool
    ensures exact { result ≡ (has_room limits sender.now receiver.now
        && nat_le sender.now.max_message_size max_message_size) }
    ensures ends { result ≡ true → limits ≡ receiver.now.limits
        → max_message_size ≡ receiver.now.max_message_size
        → AfterEachSessionWithTsnsLeft (λ gone s. s.sending.sender ≡ sender.now
        → s.receiving.receiver ≡ receiver.now → (now : ℕ) → CanEnd now gone s) }
{
    every_session_can_end();
    is_room_left(sender, receiver, limits) && max_message_size_of(sender) <= max_message_size
}
