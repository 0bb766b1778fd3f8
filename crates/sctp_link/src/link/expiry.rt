//! Messages whose lifetime ends before any of them is sent (RFC 3758 3.5, 4.1).

ghost use Rattle.std.specs.Prelude.{◌≡◌};

use super::Link;
use crate::event::Reply;
use sctp_sender::replay;
use sctp_util::util::Checksum;

impl<C: Checksum + Drop> Link<C> {
    ghost use Rattle.sctp_model.specs.Steps.{IsRight};
    ghost use Rattle.sctp_model.specs.declared.event.Event.TheVariants as E;
    ghost use Rattle.sctp_link.specs.Replies.{reply_of};

    /// Removes the front message where it is unsent and its lifetime is over; `now`
    /// is in nanoseconds. It takes no memory.
    pub(super) fn expire(&mut self, now: u64) -> Reply
        ensures right { IsRight self.old.recorded (E.Expire now)
            (reply_of result) self.new.recorded }
        ensures checksum { self.new.checksum ≡ self.old.checksum }
    {
        let Some(chunk) = self.sender.outbound().peek_pending() else {
            return Reply::Idle;
        };
        let number = chunk.message_id as usize;
        let unordered = chunk.unordered;
        let Some(gone) = replay::expire(&mut self.sender, now) else {
            return Reply::Idle;
        };
        self.progress.record_expiry(gone.stream, unordered);
        self.messages[number].expired = true;
        Reply::Expired {
            stream: gone.stream,
            bytes: gone.bytes as u64,
        }
    }
}
