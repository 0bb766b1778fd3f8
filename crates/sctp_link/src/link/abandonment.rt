//! Messages that are abandoned once some of them was sent (RFC 3758 3.5, 4.1).

ghost use Rattle.std.specs.Prelude.{◌≡◌, ◌<◌, ◌++◌, Bool, true, None, OnOk, OnErr, IfOk, IsOkUnless, length, vec_len, vec_capacity};
ghost use Rattle.sctp_data.specs.Reliability.{is_past};
ghost use Rattle.sctp_util.specs.declared.error.Error.TheVariants.{ErrOutOfMemory};
ghost use Rattle.sctp_link.specs.OpenStreams.{terminals};

use super::streams::fragments_in;
use super::{Link, memory};
use crate::event::{LinkRefusal, Reply};
use crate::record::{Message, Slot};
use sctp_sender::replay;
use sctp_util::error::Result;
use sctp_util::util::Checksum;

impl<C: Checksum + Drop> Link<C> {
    ghost use Rattle.sctp_model.specs.Messages.{message_at, message_of, place_of, is_partially_sent};
    ghost use Rattle.sctp_model.specs.Amounts.{growth};
    ghost use Rattle.sctp_model.specs.Steps.{IsRight, refusal_of, takes_memory, after};
    ghost use Rattle.sctp_model.specs.declared.event.Event.TheVariants as E;
    ghost use Rattle.sctp_link.specs.Replies.{reply_of};

    /// Why the message of a TSN is not abandoned, if it is not.
    pub(super) fn refusal_abandon(&self, tsn: u32) -> Option<LinkRefusal>
        ensures { result ≡ refusal_of self.now.recorded (E.Abandon tsn) }
    {
        let place = tsn.wrapping_sub(self.first_tsn) as usize;
        if place < self.taken || place >= self.slots.len() {
            return Some(LinkRefusal::NotInFlight);
        }
        None
    }

    // Whether some but not all of a message was sent, and it is not abandoned.
    pub(super) fn is_partially_sent(&self, number: usize) -> bool
        requires { number < length self.now.recorded.messages }
        ensures { result ≡ is_partially_sent self.now.recorded number }
    {
        let message = &self.messages[number];
        let count = fragments_in(
            message.bytes.len(),
            replay::fragment_size(&self.sender) as usize,
        );
        0 < message.sent && message.sent < count as u64 && !message.abandoned
    }

    /// Abandons the message of a TSN in flight. Refuses only for memory, and nothing changes then.
    /// Precondition: the event is not to be refused.
    pub(super) fn abandon(&mut self, tsn: u32) -> Result<Reply>
        requires { refusal_of self.old.recorded (E.Abandon tsn) ≡ None }
        ensures ok { IfOk result
            (λ reply. IsRight self.old.recorded (E.Abandon tsn)
            (reply_of reply) self.new.recorded) }
        ensures checksum { self.new.checksum ≡ self.old.checksum }
        ensures err { OnErr result (self.new.recorded ≡ self.old.recorded) }
        ensures memory { IsOkUnless result ErrOutOfMemory }
        ensures wants { OnErr result (takes_memory self.old.recorded (E.Abandon tsn) ≡ true) }
    {
        let (stream, bytes) = self.abandon_message(tsn)?;
        Ok(Reply::Released { stream, bytes })
    }

    // Abandons the message of a TSN in flight: its stream, and how many bytes left. It takes memory only for a terminal chunk.
    pub(super) fn abandon_message(&mut self, tsn: u32) -> Result<(u16, u64)>
        requires { refusal_of self.old.recorded (E.Abandon tsn) ≡ None }
        ensures moves { OnOk result (self.new.recorded ≡ after self.old.recorded (E.Abandon tsn)) }
        ensures stream { IfOk result (λ r. r.0 ≡ (message_at self.old.recorded
            (message_of self.old.recorded (place_of self.old.recorded tsn))).stream) }
        ensures bytes { IfOk result (λ r. r.1 ≡ growth self.old.recorded self.new.recorded) }
        ensures checksum { self.new.checksum ≡ self.old.checksum }
        ensures err { OnErr result (self.new.recorded ≡ self.old.recorded) }
        ensures memory { IsOkUnless result ErrOutOfMemory }
        ensures wants { OnErr result (takes_memory self.old.recorded (E.Abandon tsn) ≡ true) }
    {
        let place = tsn.wrapping_sub(self.first_tsn) as usize;
        let number = self.slots[place].message;
        let partial = self.is_partially_sent(number as usize);
        make_room(&mut self.slots, partial)?;
        let gone = match self.sender.abandon(tsn) {
            Ok(gone) => gone,
            Err(refusal) => return Err(memory(refusal)),
        };
        let message = &mut self.messages[number as usize];
        settle(message, &mut self.slots, number, partial);
        Ok((gone.stream, gone.bytes as u64))
    }

    /// Abandons the front message where it is partially sent and its lifetime is over;
    /// `now` is in nanoseconds. Refuses only for memory, and nothing changes then.
    pub(super) fn tail(&mut self, now: u64) -> Result<Reply>
        ensures ok { IfOk result
            (λ reply. IsRight self.old.recorded (E.Tail now) (reply_of reply) self.new.recorded) }
        ensures checksum { self.new.checksum ≡ self.old.checksum }
        ensures err { OnErr result (self.new.recorded ≡ self.old.recorded) }
        ensures memory { IsOkUnless result ErrOutOfMemory }
        ensures wants { OnErr result (takes_memory self.old.recorded (E.Tail now) ≡ true) }
    {
        let Some(chunk) = self.sender.outbound().peek_pending() else {
            return Ok(Reply::Idle);
        };
        if chunk.beginning_fragment {
            return Ok(Reply::Idle);
        }
        if !is_past(chunk.deadline, now) {
            return Ok(Reply::Idle);
        }
        make_room(&mut self.slots, true)?;
        let gone = match replay::expire_tail(&mut self.sender, now) {
            Ok(gone) => gone,
            Err(refusal) => return Err(memory(refusal)),
        };
        let Some(gone) = gone else { unreachable!() };
        let message = &mut self.messages[gone.number as usize];
        settle(message, &mut self.slots, gone.number, true);
        Ok(Reply::Released {
            stream: gone.stream,
            bytes: gone.bytes as u64,
        })
    }
}

// Whether a deadline is reached, where there is one.
fn is_past(deadline: Option<u64>, now: u64) -> bool
    ensures { result ≡ is_past now deadline }
{
    match deadline {
        Some(deadline) => deadline <= now,
        None => false,
    }
}

// Makes room for the slot of a terminal chunk, where there is to be one.
fn make_room(slots: &mut Vec<Slot>, partial: bool) -> Result<()>
    ensures items { slots.new.items ≡ slots.old.items }
    ensures room { OnOk result (partial ≡ true → vec_len slots.new < vec_capacity slots.new) }
    ensures memory { IsOkUnless result ErrOutOfMemory }
    ensures wants { OnErr result (partial ≡ true) }
{
    if partial {
        slots.reserve(1)?;
    }
    Ok(())
}

/// Records that a message was abandoned: a partially sent one takes a slot for its terminal chunk.
fn settle(message: &mut Message, slots: &mut Vec<Slot>, number: u64, partial: bool)
    requires { partial ≡ true → vec_len slots.old < vec_capacity slots.old }
    ensures message { message.new ≡ record message.old { abandoned = true } }
    ensures slots { slots.new.items ≡ slots.old.items ++ terminals partial number message.old.sent }
{
    message.abandoned = true;
    if partial {
        slots.push_reserved(Slot {
            message: number,
            fragment: message.sent,
            is_terminal_chunk: true,
            arrived: false,
            acknowledged: false,
        });
    }
}
