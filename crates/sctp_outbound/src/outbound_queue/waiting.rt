//! Which messages wait.

ghost use Rattle.std.specs.Prelude.{◌≡◌, Some, is_some, true};
ghost use Rattle.sctp_outbound.specs.outbound_queue.OutboundQueue.{expiring_tail};
ghost use Rattle.sctp_outbound.specs.pending_queue.Whole.{IsSendable, partially_sent, waits};

use super::{OutboundQueue, is_expired_tail};

impl OutboundQueue {
    /// Whether a fragment of the message with this number waits, told by what is in front alone.
    /// Precondition: where one waits, the message is partially sent, as each that is in flight (`are_whole`).
    pub fn rest_waits(&self, message_id: u64) -> bool
        requires { waits message_id self.now.pending ≡ true
            → partially_sent self.now.pending ≡ Some message_id }
        ensures { result ≡ waits message_id self.now.pending }
    {
        match self.pending.peek() {
            Some(chunk) => chunk.message_id == message_id,
            None => false,
        }
    }

    /// Whether the message in front is partially sent and past its deadline, so that `expire_pending_tail` abandons its rest.
    /// `now` is in nanoseconds.
    pub fn is_tail_expired(&self, now: u64) -> bool
        ensures { result ≡ is_some (expiring_tail now self.now) }
    {
        match self.pending.peek() {
            Some(chunk) => is_expired_tail(chunk, now),
            None => false,
        }
    }

    /// Does nothing: its clause holds of every queue. Each message waits whole, but for the partially sent one, which is in front;
    /// and of what is in flight only that one waits too.
    pub fn are_whole(&self)
        ensures { IsSendable self.now.pending self.now.inflight.chunks self.now.next_message_id }
    {
        let _pending = &self.pending;
    }
}
