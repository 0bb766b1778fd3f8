//! Messages that are in flight when their lifetime ends (RFC 3758 3.5, 4.1).

ghost use Rattle.std.specs.Prelude.{◌≡◌, ◌<◌, true, false, None, OnOk, OnErr, IfOk, IsOkUnless, find, length};
ghost use Rattle.std.specs.List.{list_all};
ghost use Rattle.sctp_util.specs.declared.error.Error.TheVariants.{ErrOutOfMemory};
ghost use Rattle.sctp_model.specs.refinement.InTurn.{message_of_tsn, abandoned_tsn};

use super::Link;
use crate::event::Reply;
use sctp_util::error::Result;
use sctp_util::util::Checksum;

impl<C: Checksum + Drop> Link<C> {
    ghost use Rattle.sctp_model.specs.Messages.{place_of, is_in_flight, is_partially_sent};
    ghost use Rattle.sctp_model.specs.Amounts.{growth};
    ghost use Rattle.sctp_model.specs.Steps.{IsRight, refusal_of, takes_memory, after};
    ghost use Rattle.sctp_model.specs.declared.event.Event.TheVariants as E;
    ghost use Rattle.sctp_link.specs.Replies.{reply_of};

    /// Abandons the messages in flight whose lifetime is over; `now` is in
    /// nanoseconds. Refuses only for memory, and nothing changes then.
    pub(super) fn late(&mut self, now: u64) -> Result<Reply>
        ensures ok { IfOk result
            (λ reply. IsRight self.old.recorded (E.Late now) (reply_of reply) self.new.recorded) }
        ensures checksum { self.new.checksum ≡ self.old.checksum }
        ensures err { OnErr result (self.new.recorded ≡ self.old.recorded) }
        ensures memory { IsOkUnless result ErrOutOfMemory }
        ensures wants { OnErr result (takes_memory self.old.recorded (E.Late now) ≡ true) }
    {
        let tsns = self.sender.outbound().expired_inflight(self.alloc, now)?;
        // The partially sent message comes first: it alone takes memory, for its terminal chunk.
        let mut bytes = self.abandon_partially_sent(&tsns)?;
        for at in 0..tsns.len() {
            bytes += self.abandon_fully_sent(tsns[at]);
        }
        Ok(Reply::Late {
            listed: tsns.len() as u64,
            bytes,
        })
    }

    // Abandons the partially sent message of these TSNs, where there is one, and answers how many bytes left.
    fn abandon_partially_sent(&mut self, tsns: &[u32]) -> Result<u64>
        requires { list_all (λ t. is_in_flight self.old.recorded
            (place_of self.old.recorded t)) tsns.now
            ≡ true }
        ensures moves { OnOk result (self.new.recorded ≡ abandoned_tsn self.old.recorded
            (find (λ t. is_partially_sent self.old.recorded
            (message_of_tsn self.old.recorded t)) tsns.now)) }
        ensures bytes { IfOk result (λ b. b ≡ growth self.old.recorded self.new.recorded) }
        ensures checksum { self.new.checksum ≡ self.old.checksum }
        ensures err { OnErr result (self.new.recorded ≡ self.old.recorded) }
        ensures memory { IsOkUnless result ErrOutOfMemory }
        ensures wants { OnErr result (0 < length tsns.now) }
    {
        let Some(tsn) = self.first_partially_sent(tsns) else {
            return Ok(0);
        };
        let (_, bytes) = self.abandon_message(tsn)?;
        Ok(bytes)
    }

    // The first of these TSNs whose message is partially sent.
    fn first_partially_sent(&self, tsns: &[u32]) -> Option<u32>
        requires { list_all (λ t. is_in_flight self.now.recorded
            (place_of self.now.recorded t)) tsns.now
            ≡ true }
        ensures { result
            ≡ find (λ t. is_partially_sent self.now.recorded
            (message_of_tsn self.now.recorded t)) tsns.now }
    {
        for at in 0..tsns.len() {
            let place = tsns[at].wrapping_sub(self.first_tsn) as usize;
            if self.is_partially_sent(self.slots[place].message as usize) {
                return Some(tsns[at]);
            }
        }
        None
    }

    // Abandons the message of a TSN in flight, which takes no memory since it is not partially sent, and answers how many bytes left.
    fn abandon_fully_sent(&mut self, tsn: u32) -> u64
        requires accepted { refusal_of self.old.recorded (E.Abandon tsn) ≡ None }
        requires complete { takes_memory self.old.recorded (E.Abandon tsn) ≡ false }
        ensures moves { self.new.recorded ≡ after self.old.recorded (E.Abandon tsn) }
        ensures bytes { result ≡ growth self.old.recorded self.new.recorded }
        ensures checksum { self.new.checksum ≡ self.old.checksum }
    {
        match self.abandon_message(tsn) {
            Ok((_, bytes)) => bytes,
            Err(_) => unreachable!(),
        }
    }
}
