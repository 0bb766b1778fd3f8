//! Streams and writes of a link.

ghost use Rattle.std.specs.Prelude.{◌≡◌, ◌<◌, ◌≤◌, ◌+◌, ◌-◌, ◌^◌, ◌∷◌, ◌++◌, ℕ, [], None, Some, List, OnOk, OnErr, IfOk, IsOkUnless, length, nat_le, if◌then◌else◌, true};
ghost use Rattle.sctp_util.specs.declared.error.Error.TheVariants.{ErrOutOfMemory};
ghost use Rattle.sctp_util.specs.Lists.{pieces};
ghost use Rattle.sctp_data.specs.PayloadTypes.{is_ordered};
ghost use Rattle.sctp_link.specs.OpenStreams.{start_from, message_written};
ghost use Rattle.sctp_link.specs.declared.record.Message.{Message};

use super::{Link, memory};
use crate::event::{LinkRefusal, Reply};
use crate::record::{Message, Written};
use bytes::Bytes;
use sctp_chunks::chunk::chunk_payload_data::{PayloadProtocolIdentifier, ReliabilityType};
use sctp_sender::replay;
use sctp_stream::outbound_stream::OutboundStream;
use sctp_util::error::{Error, Result};
use sctp_util::util::Checksum;

impl<C: Checksum + Drop> Link<C> {
    ghost use Rattle.sctp_model.specs.Steps.{IsRight, refusal_of, takes_memory};
    ghost use Rattle.sctp_model.specs.declared.event.Event.TheVariants as E;
    ghost use Rattle.sctp_link.specs.Replies.{reply_of};

    /// Opens a stream. Refuses only for memory, and nothing changes then.
    /// Precondition: the event is not to be refused.
    pub(super) fn open(&mut self, stream: u16) -> Result<Reply>
        requires { refusal_of self.old.recorded (E.Open stream) ≡ None }
        ensures ok { IfOk result
            (λ reply. IsRight self.old.recorded (E.Open stream)
            (reply_of reply) self.new.recorded) }
        ensures checksum { self.new.checksum ≡ self.old.checksum }
        ensures err { OnErr result (self.new.recorded ≡ self.old.recorded) }
        ensures memory { IsOkUnless result ErrOutOfMemory }
    {
        if self.sender.open(stream).is_err() {
            return Err(Error::ErrOutOfMemory);
        }
        if self.receiver.open(stream).is_err() {
            self.sender.close(stream);
            return Err(Error::ErrOutOfMemory);
        }
        if self.progress.open(stream).is_err() {
            self.receiver.close(stream);
            self.sender.close(stream);
            return Err(Error::ErrOutOfMemory);
        }
        Ok(Reply::Opened)
    }

    /// Sets the mode of later writes.
    /// Precondition: the event is not to be refused.
    pub(super) fn mode(
        &mut self,
        stream: u16,
        unordered: bool,
        reliability: ReliabilityType,
        value: u32,
    ) -> Reply
        requires { refusal_of self.old.recorded (E.Mode stream unordered reliability value) ≡ None }
        ensures right { IsRight self.old.recorded
            (E.Mode stream unordered reliability value) (reply_of result) self.new.recorded }
        ensures checksum { self.new.checksum ≡ self.old.checksum }
    {
        let _ = self.sender.set_mode(stream, unordered, reliability, value);
        Reply::Set
    }

    /// Why a write of `len` bytes is refused, if it is.
    pub(super) fn refusal_write(&self, stream: u16, len: usize) -> Option<LinkRefusal>
        ensures { (ppi : PayloadProtocolIdentifier) (bytes : List ℕ)
            → len ≡ length bytes → result
            ≡ refusal_of self.now.recorded (E.Write stream ppi bytes) }
    {
        if !self.is_open(stream) {
            return Some(LinkRefusal::StreamUnknown);
        }
        if len > replay::max_message_size(&self.sender) as usize {
            return Some(LinkRefusal::MessageTooLarge);
        }
        let fragments = fragments_in(len, replay::fragment_size(&self.sender) as usize);
        if self.fragments + fragments >= 0x8000_0000 {
            return Some(LinkRefusal::TsnsUsedUp);
        }
        None
    }

    /// Takes a write. Refuses only for memory, and nothing changes then.
    /// Precondition: the event is not to be refused.
    pub(super) fn write(
        &mut self,
        stream: u16,
        ppi: PayloadProtocolIdentifier,
        bytes: Bytes,
    ) -> Result<Reply>
        requires { refusal_of self.old.recorded (E.Write stream ppi bytes) ≡ None }
        ensures ok { IfOk result (λ reply.
            IsRight self.old.recorded (E.Write stream ppi bytes)
            (reply_of reply) self.new.recorded) }
        ensures checksum { self.new.checksum ≡ self.old.checksum }
        ensures err { OnErr result (self.new.recorded ≡ self.old.recorded) }
        ensures memory { IsOkUnless result ErrOutOfMemory }
        ensures wants { OnErr result (takes_memory self.old.recorded (E.Write stream ppi bytes)
            ≡ true) }
    {
        if bytes.is_empty() {
            return Ok(Reply::Wrote {
                number: None,
                fragments: 0,
            });
        }
        let len = bytes.len();
        let count = fragments_in(len, replay::fragment_size(&self.sender) as usize);
        self.messages.reserve(1)?;
        let Some(state) = self.sender.stream(stream) else {
            unreachable!()
        };
        let written = written_of(state, ppi, self.progress.ordered(stream));
        match self.sender.write(stream, ppi, &bytes) {
            Ok(_) => {}
            Err(refusal) => return Err(memory(refusal)),
        }
        self.progress.record_write(stream, written.ordered);
        let number = self.messages.len() as u64;
        self.messages
            .push_reserved(message_written(stream, written, ppi, bytes));
        self.fragments += count;
        self.written += len as u64;
        Ok(Reply::Wrote {
            number: Some(number),
            fragments: count as u64,
        })
    }

    /// Starts the lifetimes of the messages written since the last time; `now` is in nanoseconds.
    pub(super) fn start(&mut self, now: u64) -> Reply
        ensures right { IsRight self.old.recorded (E.Start now)
            (reply_of result) self.new.recorded }
        ensures checksum { self.new.checksum ≡ self.old.checksum }
    {
        replay::start(&mut self.sender, now);
        start_from(&mut self.messages, self.unstarted, now);
        self.unstarted = self.messages.len();
        Reply::Started
    }
}

/// What is recorded of a write to a stream on which so many ordered messages were written before.
fn written_of(state: &OutboundStream, ppi: PayloadProtocolIdentifier, before: u64) -> Written
    ensures ordered { result.ordered ≡ is_ordered state.now.unordered ppi }
    ensures reliability { result.reliability ≡ state.now.reliability_type }
    ensures value { result.value ≡ state.now.reliability_value }
    ensures before { result.before ≡ before }
{
    Written {
        ordered: state.is_ordered(ppi),
        reliability: state.reliability_type(),
        value: state.reliability_value(),
        before,
    }
}

/// What is kept of an accepted write.
fn message_written(
    stream: u16,
    written: Written,
    ppi: PayloadProtocolIdentifier,
    bytes: Bytes,
) -> Message
    ensures { result ≡ message_written stream written ppi bytes }
{
    Message {
        stream,
        ordered: written.ordered,
        ppi,
        bytes,
        reliability: written.reliability,
        value: written.value,
        before: written.before,
        index: 0,
        started: None,
        expired: false,
        abandoned: false,
        read: false,
        sent: 0,
    }
}

/// How many fragments of a size so many bytes take.
/// Precondition: the size is not 0.
pub(super) fn fragments_in(len: usize, size: usize) -> usize
    requires { 0 < size }
    ensures value { (bytes : List ℕ)
        → len ≡ length bytes → result ≡ length (pieces (length bytes) size bytes) }
    ensures short { result ≤ len }
{
    let full = len / size;
    if len % size == 0 { full } else { full + 1 }
}

/// Starts the lifetimes of the messages from a place on; `now` is in nanoseconds.
pub(super) fn start_from(messages: &mut [Message], first: usize, now: u64)
    ensures { messages.new ≡ start_from first now messages.old }
{
    for place in first..messages.len() {
        messages[place].started = Some(now);
    }
}
