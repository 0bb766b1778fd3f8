//! Messages that expire one after another.

ghost use Rattle.std.specs.Prelude.{◌≡◌, ◌≢◌, ℕ, ◌+◌, ◌<◌, ◌^◌, Some, None, IfSome, IfNone};
ghost use Rattle.sctp_outbound.specs.outbound_queue.OutboundQueue.{AreExpiredOf, IsOfRun, closed_run, expired_times, expiring, stream_and_kind, total_bytes};
ghost use Rattle.sctp_outbound.specs.pending_queue.PendingQueue.{next_pending};

use super::{OutboundQueue, is_expired};

/// Messages of one stream that expired, one after another.
#[derive(Clone, Copy, PartialEq, Eq)]
pub struct ExpiredRun {
    /// Their stream.
    pub stream_identifier: u16,
    /// Whether they are unordered, or all ordered.
    pub unordered: bool,
    /// How many they are.
    pub messages: u16,
    /// Their bytes of user data.
    pub bytes: usize,
}

impl OutboundQueue {
    /// As `expire_pending` so often as it removes messages of one stream, all ordered or all unordered, but at most 65,535 times. It looks
    /// at those messages, and once at what waits in order. The caller then lowers the stream's next number by as many, where they
    /// are ordered. `now` is in nanoseconds. It takes no memory.
    pub fn expire_pending_run(&mut self, now: u64) -> Option<ExpiredRun>
        ensures expired { IfSome result (λ run. self.new
            ≡ expired_times now run.messages self.old) }
        ensures of_one { IfSome result (λ run. AreExpiredOf
            run.stream_identifier run.unordered now run.messages self.old) }
        ensures some { IfSome result (λ run. 0 < run.messages) }
        // none of the run is left in front, but where the count is at its greatest
        ensures all { IfSome result (λ run. run.messages + 1 < 2 ^ 16
            → stream_and_kind (expiring now self.new)
            ≢ Some (run.stream_identifier, run.unordered)) }
        ensures released { IfSome result (λ run. total_bytes self.new + run.bytes
            ≡ total_bytes self.old) }
        ensures none { IfNone result ((expiring now self.old ≡ None) × (self.new ≡ self.old)) }
    {
        let Some(chunk) = self.peek_pending() else {
            return None;
        };
        if !is_expired(chunk, now) {
            return None;
        }
        let stream_identifier = chunk.stream_identifier;
        let unordered = chunk.unordered;
        let message_id = chunk.message_id;
        let (messages, bytes) = self.remove_run(now, stream_identifier, unordered, message_id);
        if !unordered {
            self.lower_ordered_ssns(stream_identifier, messages);
        }
        Some(ExpiredRun {
            stream_identifier,
            unordered,
            messages,
            bytes,
        })
    }

    // Removes the message in front, and those behind it that are past their deadlines and of the stream and the kind, up to 65,535.
    // Answers how many, and their bytes. Their numbers are not closed up yet.
    fn remove_run(
        &mut self,
        now: u64,
        stream_identifier: u16,
        unordered: bool,
        message_id: u64,
    ) -> (u16, usize)
        requires { IsOfRun
            now stream_identifier unordered message_id (next_pending self.old.pending) }
        ensures removed { closed_run stream_identifier unordered result.0 self.new
            ≡ expired_times now result.0 self.old }
        ensures of_one { AreExpiredOf stream_identifier unordered now result.0 self.old }
        ensures some { 0 < result.0 }
        ensures all { result.0 + 1 < 2 ^ 16 → (m : ℕ)
            → IsOfRun now stream_identifier unordered m (next_pending self.new.pending) → ⊥ }
        ensures released { total_bytes self.new + result.1 ≡ total_bytes self.old }
    {
        let before = self.pending_bytes();
        self.remove_pending(message_id);
        let mut messages = 1;
        while let Some(next) = self.next_of_run(now, stream_identifier, unordered, messages) {
            self.remove_pending(next);
            messages += 1;
        }
        (messages, before - self.pending_bytes())
    }

    // The message in front, where it is past its deadline and of the stream and the kind, and fewer than 65,535 are removed.
    fn next_of_run(
        &self,
        now: u64,
        stream_identifier: u16,
        unordered: bool,
        messages: u16,
    ) -> Option<u64>
        ensures some { IfSome result (λ m. (messages + 1 < 2 ^ 16)
            × IsOfRun now stream_identifier unordered m (next_pending self.now.pending)) }
        ensures none { IfNone result (messages + 1 < 2 ^ 16 → (m : ℕ)
            → IsOfRun now stream_identifier unordered m (next_pending self.now.pending) → ⊥) }
    {
        let chunk = self.peek_pending()?;
        if messages == u16::MAX
            || chunk.stream_identifier != stream_identifier
            || chunk.unordered != unordered
            || !is_expired(chunk, now)
        {
            return None;
        }
        Some(chunk.message_id)
    }
}
