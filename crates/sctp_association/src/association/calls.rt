//! What an application writes, and how it is sent.

ghost use Rattle.std.specs.Prelude.{◌≡◌, ◌<◌, None, Some, Err, OnOk, OnErr, IfErr, IsOk, length};
ghost use Rattle.sctp_association.specs.declared.fault.Fault.{Fault};
ghost use Rattle.sctp_association.specs.Asked.{AsksOn};
ghost use Rattle.sctp_association.specs.Beginnings.{IsKeptButMtu};
ghost use Rattle.sctp_association.specs.Events.{BringsNone};
ghost use Rattle.sctp_association.specs.Halves.{SetsFragmentSize};
ghost use Rattle.sctp_association.specs.Lasting.{LastsNoLonger};
ghost use Rattle.sctp_association.specs.Made.{mtu_fault};
ghost use Rattle.sctp_association.specs.Sized.{HoldsNothing};
ghost use Rattle.sctp_association.specs.Telling.{Tells};
ghost use Rattle.sctp_association.specs.Waiting.{IsRefusal, opened};
ghost use Rattle.sctp_delivery.specs.SenderCalls.{sets_low, sets_mode, writes};
ghost use Rattle.sctp_sender.specs.Sender.{stream_of, with_mode_on, written_to};
ghost use Rattle.sctp_sender.specs.Settings.{with_low_on};
ghost use Rattle.sctp_stream.specs.declared.outbound_stream.OutboundStream.{OutboundStream};

use super::Association;
use crate::draft::Draft;
use crate::fault::Fault;
use bytes::Bytes;
use sctp_data::chunk::chunk_payload_data::{PayloadProtocolIdentifier, ReliabilityType};
use sctp_handshake::State;

impl Association {
    ghost use Rattle.sctp_association.specs.Calls.{or_else, reset_fault, use_fault, write_fault};

    // Whether the application may not write to a stream, and why.
    fn use_fault(&self, stream: u16) -> Option<Fault>
        ensures { result ≡ use_fault stream self.now }
    {
        let state = self.machine.state();
        let is_waiting = state == State::Closed && !self.is_over;
        if !is_waiting && !state.accepts_writes() {
            return Some(Fault::WrongState);
        }
        let streams = match self.machine.agreed() {
            Some(agreed) => agreed.outbound_streams,
            None => self.config.outbound_streams,
        };
        if stream >= streams {
            return Some(Fault::NoSuchStream);
        }
        None
    }

    /// Takes a message for a stream: it waits until it may be sent, before the association stands too. A stream opens by its first
    /// message. Its lifetime begins with the next `poll_transmit`. Refuses with `WrongState`, `NoSuchStream`, `Resetting`, `Full`,
    /// `MessageTooLarge`, in this order, or for memory, and nothing has changed then.
    pub fn write(
        &mut self,
        stream: u16,
        ppi: PayloadProtocolIdentifier,
        bytes: &Bytes,
    ) -> Result<(), Fault>
        ensures tells { Tells self.old self.new }
        ensures ok { 0 < length bytes.now → OnOk result ((l : OutboundStream)
            → stream_of stream (opened stream self.old.outbound.sender) ≡ Some l
            → self.new.outbound ≡ record self.old.outbound {
              sender = written_to l stream ppi
                  bytes.now (opened stream self.old.outbound.sender);
            }) }
        // A message of no bytes opens its stream, and no more.
        ensures empty { length bytes.now ≡ 0 → OnOk result
            (self.new.outbound ≡ record self.old.outbound {
              sender = opened stream self.old.outbound.sender;
            }) }
        // It is so many calls of the sender, of a session too (`sctp_delivery`).
        ensures asks { OnOk result (AsksOn stream (writes stream ppi bytes.now)
            self.old.outbound.sender self.new.outbound.sender) }
        // Of the sending half the sender alone changes.
        ensures sender { self.new.outbound
            ≡ record self.old.outbound { sender = self.new.outbound.sender } }
        ensures accepted { IsOk result → write_fault stream (length bytes.now) self.old ≡ None }
        ensures named { (e : Fault) → or_else (use_fault stream self.old)
            (reset_fault stream self.old) ≡ Some e → result ≡ Err e }
        ensures refused { IfErr result
            (λ e. IsRefusal e (write_fault stream (length bytes.now) self.old)) }
        ensures rest { self.new ≡ record self.old {
          outbound = self.new.outbound;
          events = self.new.events;
        } }
        // There is room for the event that its buffered amount falls.
        ensures room { OnOk result (stream < length self.new.events.low) }
        ensures quiet { BringsNone self.old.events self.new.events }
        ensures err { OnErr result (self.new ≡ self.old) }
    {
        if let Some(fault) = self.use_fault(stream) {
            return Err(fault);
        }
        if self.requests.is_asked(stream) {
            return Err(Fault::Resetting);
        }
        let rooms = self.events.reserve_outbound(stream)?;
        let written = self.outbound.write(stream, ppi, bytes);
        if written.is_err() {
            self.events.shrink_outbound(rooms);
        }
        written
    }

    /// Sets how what is written to a stream from now on is sent: `value` counts retransmissions (`Rexmit`), or is a lifetime in
    /// milliseconds (`Timed`). Where the peer does not know FORWARD-TSN every message is reliable. Refuses with `WrongState`,
    /// `NoSuchStream`, or for memory, and nothing has changed then.
    pub fn set_mode(
        &mut self,
        stream: u16,
        unordered: bool,
        reliability: ReliabilityType,
        value: u32,
    ) -> Result<(), Fault>
        ensures tells { Tells self.old self.new }
        ensures ok { OnOk result (self.new.outbound ≡ record self.old.outbound {
          sender = with_mode_on stream unordered reliability value
              (opened stream self.old.outbound.sender);
        }) }
        ensures asks { OnOk result (AsksOn stream (sets_mode stream unordered reliability value)
            self.old.outbound.sender self.new.outbound.sender) }
        ensures accepted { IsOk result → use_fault stream self.old ≡ None }
        ensures named { (e : Fault) → use_fault stream self.old ≡ Some e → result ≡ Err e }
        ensures refused { IfErr result (λ e. IsRefusal e (use_fault stream self.old)) }
        ensures rest { self.new ≡ record self.old {
          outbound = self.new.outbound;
          events = self.new.events;
        } }
        // There is room for the event that its buffered amount falls.
        ensures room { OnOk result (stream < length self.new.events.low) }
        ensures quiet { BringsNone self.old.events self.new.events }
        ensures err { OnErr result (self.new ≡ self.old) }
    {
        if let Some(fault) = self.use_fault(stream) {
            return Err(fault);
        }
        let rooms = self.events.reserve_outbound(stream)?;
        let set = self
            .outbound
            .set_mode(stream, unordered, reliability, value);
        if set.is_err() {
            self.events.shrink_outbound(rooms);
        }
        set
    }

    /// At which buffered amount `BufferedAmountLow` is told of a stream: where the amount falls from above it to at most it. Refuses with
    /// `WrongState`, `NoSuchStream`, or for memory, and nothing has changed then.
    pub fn set_buffered_amount_low_threshold(
        &mut self,
        stream: u16,
        threshold: usize,
    ) -> Result<(), Fault>
        ensures tells { Tells self.old self.new }
        ensures ok { OnOk result (self.new.outbound ≡ record self.old.outbound {
          sender = with_low_on stream threshold (opened stream self.old.outbound.sender);
        }) }
        ensures asks { OnOk result (AsksOn stream (sets_low stream threshold)
            self.old.outbound.sender self.new.outbound.sender) }
        ensures accepted { IsOk result → use_fault stream self.old ≡ None }
        ensures named { (e : Fault) → use_fault stream self.old ≡ Some e → result ≡ Err e }
        ensures refused { IfErr result (λ e. IsRefusal e (use_fault stream self.old)) }
        ensures rest { self.new ≡ record self.old {
          outbound = self.new.outbound;
          events = self.new.events;
        } }
        // There is room for the event that its buffered amount falls.
        ensures room { OnOk result (stream < length self.new.events.low) }
        ensures quiet { BringsNone self.old.events self.new.events }
        ensures err { OnErr result (self.new ≡ self.old) }
    {
        if let Some(fault) = self.use_fault(stream) {
            return Err(fault);
        }
        let rooms = self.events.reserve_outbound(stream)?;
        let set = self.outbound.set_low(stream, threshold);
        if set.is_err() {
            self.events.shrink_outbound(rooms);
        }
        set
    }

    /// Packets have at most so many bytes from now on, and what is written is cut to that (RFC 9260 7.3). What `datagram` lent is gone. Refuses
    /// with `BadConfig` under 512 and over 65,535, and with `WrongState` where something waits or is in flight that was cut for more; nothing
    /// has changed then.
    pub fn set_mtu(&mut self, mtu: usize) -> Result<(), Fault>
        ensures tells { Tells self.old self.new }
        ensures ok { OnOk result ((self.new.config.mtu ≡ mtu) × (self.new.draft.limit ≡ mtu)) }
        ensures halves { OnOk result (SetsFragmentSize mtu self.old self.new) }
        ensures lower { OnOk result (mtu < self.old.config.mtu
            → HoldsNothing self.old.outbound.sender) }
        ensures kept { IsKeptButMtu self.old self.new }
        ensures accepted { IsOk result → mtu_fault mtu self.old ≡ None }
        ensures refused { IfErr result (λ e. mtu_fault mtu self.old ≡ Some e) }
        ensures inbound { self.new.inbound ≡ self.old.inbound }
        ensures left { LastsNoLonger self.old self.new }
        ensures quiet { self.new.events ≡ self.old.events }
        ensures err { OnErr result (self.new ≡ self.old) }
    {
        if mtu < 512 || mtu > 65_535 {
            return Err(Fault::BadConfig);
        }
        if mtu < self.config.mtu && !self.outbound.is_drained() {
            return Err(Fault::WrongState);
        }
        self.draft = Draft::new(self.alloc, mtu);
        self.config.mtu = mtu;
        self.outbound.set_mtu(mtu);
        Ok(())
    }
}
