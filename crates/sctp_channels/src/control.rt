//! The messages of RFC 8832 that come on channels' streams.

ghost use Rattle.std.specs.Prelude.{◌≡◌, ◌⊎◌, ℕ, ◌^◌, None, Ok, Err, IfErr, IsErr, OnErr, OnOk, true, false};
ghost use Rattle.sctp_association.specs.Reads.{AreReadOff, message_in};
ghost use Rattle.sctp_channels.specs.Channels.{Gains, asked};
ghost use Rattle.sctp_channels.specs.Dcep.{Closes, FollowsDcep, IsKnownOn, Knows, may_open};
ghost use Rattle.sctp_channels.specs.Reading.{TakesControl, TakesControlOf, is_control, is_data};
ghost use Rattle.sctp_association.specs.Calls.{write_fault};
ghost use Rattle.sctp_channels.specs.Refusals.{FollowRefused};
ghost use Rattle.sctp_channels.specs.declared.channels.Refusal.TheVariants.{OutOfMemory};
ghost use Rattle.sctp_channels.specs.Rest.{Keeps, KeepsDue};
ghost use Rattle.sctp_channels.specs.Sends.{IsModed};
ghost use Rattle.sctp_channels.specs.Steps.{Comes, FollowsHeld, IsBegun, IsHeld, IsLooked, held_fault, held_of, state_of};
ghost use Rattle.sctp_dcep.specs.declared.fault.Fault.TheVariants as names;
ghost use Rattle.sctp_dcep.specs.declared.message.Message.TheVariants as message;

use crate::channel::{Channel, News, Stage};
use crate::channels::{Channels, Held, MOST, Refusal, is_of_application};
use crate::sends::{answer, ask, set_mode_of};
use bytes::Bytes;
use sctp_association::{Association, PayloadProtocolIdentifier};
use sctp_dcep::{Message, Open};

// The bytes of a DATA_CHANNEL_OPEN before its label (RFC 8832 5.1).
const OPEN_HEADER: usize = 12;

impl Channels {
    // Does what is left to do: resets, a message that is held, and arrivals on a stream.
    #[tactic(auto, using(crate::proofs::Gaining::gains_same, crate::proofs::Gaining::gains_more, crate::proofs::Refusing::follow_memory))]
    pub(crate) fn settle(&mut self, association: &mut Association, now: u64) -> Result<(), Refusal>
        ensures gains { Gains self.old.side self.old.channels.items self.new.channels.items }
        ensures side { self.new.side ≡ self.old.side }
        ensures control { TakesControl now association.old association.new }
        ensures comes { Comes now 0 (state_of self.old association.old)
            (state_of self.new association.new) }
        ensures done { OnOk result ((self.new.held ≡ None) × (self.new.owed ≡ None)) }
        ensures looked { OnOk result ((self.new.arrived ≡ None)
            ⊎ Comes now (2 ^ 20) (state_of self.old association.old)
            (state_of self.new association.new)) }
        ensures refused { IfErr result (FollowRefused (held_fault (held_of self.new.held)
            association.new)) }
    {
        self.ask_reset(association)?;
        self.follow_held(association)?;
        let Some(stream) = self.arrived else {
            return Ok(());
        };
        self.follow_control(association, stream, now)?;
        self.look(association, stream);
        Ok(())
    }

    // Looks at what came on a stream, once its messages of RFC 8832 are followed.
    fn look(&mut self, association: &Association, stream: u16)
        requires was { self.old.arrived ≡ Some stream }
        requires none { self.old.held ≡ None }
        requires known { is_data (message_in stream association.now.inbound) ≡ true
            → IsKnownOn stream self.old.channels.items }
        ensures same { asked self.new.channels.items ≡ asked self.old.channels.items }
        ensures side { self.new.side ≡ self.old.side }
        ensures held { self.new.held ≡ self.old.held }
        ensures owed { self.new.owed ≡ self.old.owed }
        ensures looked { is_control (message_in stream association.now.inbound) ≡ false
            → (self.new.arrived ≡ None)
            × IsLooked (state_of self.old association.now) (state_of self.new association.now) }
        ensures stays { is_control (message_in stream association.now.inbound) ≡ true
            → self.new ≡ self.old }
    {
        let came = association.next_len(stream);
        if is_of_application(came) {
            self.note(stream, News::Readable);
        } else if came.is_some() {
            return;
        }
        self.arrived = None;
    }

    // Follows the messages of RFC 8832 that are next on a stream.
    #[tactic(auto, using(crate::proofs::Gaining::gains_same, crate::proofs::Gaining::gains_more, crate::proofs::Refusing::follow_memory))]
    pub(crate) fn follow_control(
        &mut self,
        association: &mut Association,
        stream: u16,
        now: u64,
    ) -> Result<(), Refusal>
        ensures gains { Gains self.old.side self.old.channels.items self.new.channels.items }
        ensures side { self.new.side ≡ self.old.side }
        ensures control { TakesControlOf now stream association.old association.new }
        ensures due { KeepsDue self.old self.new }
        ensures comes { Comes now 0 (state_of self.old association.old)
            (state_of self.new association.new) }
        ensures done { OnOk result (self.new.held ≡ None) }
        ensures ends { OnOk result
            ((is_control (message_in stream association.new.inbound) ≡ false)
            ⊎ Comes now (2 ^ 20) (state_of self.old association.old)
            (state_of self.new association.new)) }
        ensures known { OnOk result (is_data (message_in stream association.new.inbound) ≡ true
            → IsKnownOn stream self.new.channels.items) }
        ensures refused { IfErr result (FollowRefused (held_fault (held_of self.new.held)
            association.new)) }
    {
        self.follow_held(association)?;
        for _done in 0..MOST {
            let next = association.next_len(stream);
            if is_of_application(next) {
                return self.knows(association, stream);
            }
            if next.is_none() {
                return Ok(());
            }
            self.follow_next(association, stream, now)?;
        }
        self.knows_next(association, stream)
    }

    // Takes out the message of RFC 8832 that is next on a stream, and follows it.
    #[tactic(auto, using(crate::proofs::Refusing::follow_memory))]
    fn follow_next(
        &mut self,
        association: &mut Association,
        stream: u16,
        now: u64,
    ) -> Result<(), Refusal>
        requires next { is_control (message_in stream association.old.inbound) ≡ true }
        requires none { self.old.held ≡ None }
        ensures gains { Gains self.old.side self.old.channels.items self.new.channels.items }
        ensures side { self.new.side ≡ self.old.side }
        ensures control { TakesControlOf now stream association.old association.new }
        ensures due { KeepsDue self.old self.new }
        ensures ok { OnOk result (Comes now 1 (state_of self.old association.old)
            (state_of self.new association.new)) }
        ensures comes { Comes now 0 (state_of self.old association.old)
            (state_of self.new association.new) }
        ensures done { OnOk result (self.new.held ≡ None) }
        ensures refused { IfErr result (FollowRefused (held_fault (held_of self.new.held)
            association.new)) }
    {
        self.hold(association, stream, now)?;
        self.follow_held(association)
    }

    // Reads the message of RFC 8832 that is next, and holds it. Of one that is too long nothing is held but its first byte.
    fn hold(&mut self, association: &mut Association, stream: u16, now: u64) -> Result<(), Refusal>
        requires next { is_control (message_in stream association.old.inbound) ≡ true }
        requires none { self.old.held ≡ None }
        ensures same { self.new.channels ≡ self.old.channels }
        ensures side { self.new.side ≡ self.old.side }
        ensures due { KeepsDue self.old self.new }
        ensures read { OnOk result (AreReadOff now stream
            association.old.inbound association.new.inbound) }
        ensures held { OnOk result (IsHeld now stream (state_of self.old association.old)
            (state_of self.new association.new)) }
        ensures err { OnErr result ((association.new ≡ association.old)
            × (self.new ≡ self.old)) }
        ensures memory { IfErr result (λ e. e ≡ OutOfMemory) }
    {
        let Some((length, _)) = association.next_len(stream) else {
            return Ok(());
        };
        let most = self.most_name.saturating_add(OPEN_HEADER);
        let mut raw = Vec::new(self.alloc);
        raw.resize(if length > most { 1 } else { length }, 0u8)?;
        let Some(message) = association.read(stream, now)? else {
            return Ok(());
        };
        let _ = message.read(&mut raw);
        self.held = Some(Held { stream, raw });
        Ok(())
    }

    // Follows the message that is held, if one is.
    #[tactic(auto, using(crate::proofs::Refusing::follow_memory))]
    fn follow_held(&mut self, association: &mut Association) -> Result<(), Refusal>
        ensures gains { Gains self.old.side self.old.channels.items self.new.channels.items }
        ensures side { self.new.side ≡ self.old.side }
        ensures inbound { association.new.inbound ≡ association.old.inbound }
        ensures due { KeepsDue self.old self.new }
        ensures ok { OnOk result (FollowsHeld (held_of self.old.held)
            (state_of self.old association.old) (state_of self.new association.new)) }
        ensures done { OnOk result (self.new.held ≡ None) }
        ensures err { OnErr result
            ((state_of self.new association.new ≡ state_of self.old association.old)
            ⊎ IsBegun (state_of self.old association.old) (state_of self.new association.new)) }
        ensures refused { IfErr result (FollowRefused (held_fault (held_of self.new.held)
            association.new)) }
    {
        let Some(held) = &self.held else {
            return Ok(());
        };
        let stream = held.stream;
        let raw = Bytes::copy_from_slice(self.alloc, &held.raw)?;
        self.follow(association, stream, Message::read(&raw))?;
        self.held = None;
        Ok(())
    }

    // Follows a message that came on a stream, by what it is read as.
    #[tactic(auto, using(crate::proofs::Gaining::gains_same, crate::proofs::Refusing::follow_memory))]
    fn follow(
        &mut self,
        association: &mut Association,
        stream: u16,
        read: Result<Message, sctp_dcep::Fault>,
    ) -> Result<(), Refusal>
        ensures gains { Gains self.old.side self.old.channels.items self.new.channels.items }
        ensures inbound { association.new.inbound ≡ association.old.inbound }
        ensures rest { Keeps self.old self.new }
        ensures ok { OnOk result (FollowsDcep self.old.side stream read
            self.old.channels.items association.old self.new.channels.items association.new) }
        ensures memory { read ≡ Err names.OutOfMemory → IsErr result }
        ensures err { OnErr result ((self.new.channels.items ≡ self.old.channels.items)
            × ((association.new ≡ association.old)
            ⊎ ((o : Open) × (read ≡ Ok (message.Open o))
            × (may_open self.old.side stream self.old.channels.items ≡ true)
            × IsModed stream o.unordered o.reliability o.value association.old association.new))) }
        ensures refused { IfErr result (FollowRefused (write_fault stream 1 association.new)) }
    {
        match read {
            Ok(Message::Ack) => self.knows(association, stream),
            Ok(Message::Open(open)) => self.accept(association, stream, open),
            Err(sctp_dcep::Fault::OutOfMemory) => Err(Refusal::OutOfMemory),
            Err(_) => self.refuse(association, stream),
        }
    }

    // Where a message of the application is next, the peer knows the channel.
    fn knows_next(&mut self, association: &mut Association, stream: u16) -> Result<(), Refusal>
        ensures same { asked self.new.channels.items ≡ asked self.old.channels.items }
        ensures inbound { association.new.inbound ≡ association.old.inbound }
        ensures rest { Keeps self.old self.new }
        ensures comes { (now : ℕ) → Comes now 0 (state_of self.old association.old)
            (state_of self.new association.new) }
        ensures known { OnOk result (is_data (message_in stream association.new.inbound) ≡ true
            → IsKnownOn stream self.new.channels.items) }
        ensures memory { IfErr result (λ e. e ≡ OutOfMemory) }
    {
        if is_of_application(association.next_len(stream)) {
            return self.knows(association, stream);
        }
        Ok(())
    }

    // The peer knows a channel: its messages may go out of order, if they are to.
    #[tactic(auto, using(crate::proofs::Known::known_noted))]
    fn knows(&mut self, association: &mut Association, stream: u16) -> Result<(), Refusal>
        ensures same { asked self.new.channels.items ≡ asked self.old.channels.items }
        ensures inbound { association.new.inbound ≡ association.old.inbound }
        ensures rest { Keeps self.old self.new }
        ensures ok { OnOk result (Knows stream self.old.channels.items association.old
            self.new.channels.items association.new) }
        ensures known { OnOk result (IsKnownOn stream self.new.channels.items) }
        ensures err { OnErr result ((self.new.channels.items ≡ self.old.channels.items)
            × (association.new ≡ association.old)) }
        ensures memory { IfErr result (λ e. e ≡ OutOfMemory) }
    {
        let Some(channel) = self.find(stream) else {
            return Ok(());
        };
        if channel.stage != Stage::Opening {
            return Ok(());
        }
        let (unordered, reliability) = (channel.unordered, channel.reliability);
        set_mode_of(association, stream, unordered, reliability, channel.value)?;
        self.note(stream, News::Known);
        Ok(())
    }

    // The peer opens a channel: DATA_CHANNEL_ACK answers (RFC 8832 6). On a stream that it may not choose, or that has a channel, it is
    // closed.
    #[tactic(auto, using(crate::proofs::Gaining::gains_same, crate::proofs::Gaining::gains_push, crate::proofs::Refusing::follow_memory))]
    fn accept(
        &mut self,
        association: &mut Association,
        stream: u16,
        request: Open,
    ) -> Result<(), Refusal>
        ensures gains { Gains self.old.side self.old.channels.items self.new.channels.items }
        ensures inbound { association.new.inbound ≡ association.old.inbound }
        ensures rest { Keeps self.old self.new }
        ensures ok { OnOk result (FollowsDcep self.old.side stream (Ok (message.Open request))
            self.old.channels.items association.old self.new.channels.items association.new) }
        ensures err { OnErr result ((self.new.channels.items ≡ self.old.channels.items)
            × ((association.new ≡ association.old)
            ⊎ ((may_open self.old.side stream self.old.channels.items ≡ true)
            × IsModed stream request.unordered request.reliability request.value
            association.old association.new))) }
        ensures refused { IfErr result (FollowRefused (write_fault stream 1 association.new)) }
    {
        if self.side.is_ours(stream) || self.has(stream) {
            return self.refuse(association, stream);
        }
        self.channels.reserve(1)?;
        // Where it takes none, it is about to end, or the stream is being reset.
        if !answer(self.alloc, association, stream, &request)? {
            return Ok(());
        }
        let mut channel = Channel::new(stream, Stage::Open, request);
        channel.is_new = true;
        self.put(channel);
        Ok(())
    }

    // A stream on which the protocol is violated is reset (RFC 8832 6). Where the association resets none, nothing can be closed.
    fn refuse(&mut self, association: &mut Association, stream: u16) -> Result<(), Refusal>
        ensures same { asked self.new.channels.items ≡ asked self.old.channels.items }
        ensures inbound { association.new.inbound ≡ association.old.inbound }
        ensures rest { Keeps self.old self.new }
        ensures ok { OnOk result (Closes stream self.old.channels.items association.old
            self.new.channels.items association.new) }
        ensures err { OnErr result ((self.new.channels.items ≡ self.old.channels.items)
            × (association.new ≡ association.old)) }
        ensures memory { IfErr result (λ e. e ≡ OutOfMemory) }
    {
        if ask(association, stream)? {
            self.note(stream, News::Closing);
        }
        Ok(())
    }
}
