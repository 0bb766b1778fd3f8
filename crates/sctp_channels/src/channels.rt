//! The channels of an association: they are opened, written to, read and listed.

ghost use Rattle.std.specs.Prelude.{◌≡◌, ◌<◌, ◌++◌, ◌∷◌, ◌⊎◌, [], true, false, None, Some, Err, IfErr, IfOk, IfSome, OnErr, OnOk, length, option_copied, position, vec_capacity, vec_len};
ghost use Rattle.std.specs.List.{list_any};
ghost use Rattle.sctp_channels.specs.Channels.{Gains, IsFull, IsNextFree, asked, asked_for, channel_on, has_channel, has_news, is_on, is_once, note_on, takes_messages};
ghost use Rattle.sctp_channels.specs.Sends.{IsLeftByOpen, IsModed, SendsOnly};
ghost use Rattle.sctp_channels.specs.Events.{TellsMaybe};
ghost use Rattle.sctp_channels.specs.Messages.{IsHanded, IsOpened, kind_of, sent_of};
ghost use Rattle.sctp_channels.specs.Reading.{ReadsNext, TakesControl, TakesControlOf, tells_data};
ghost use Rattle.sctp_channels.specs.Refusals.{AgreedRefused, FollowRefused, OpenRefused, WriteRefused, refusal_of, refusal_of_name};
ghost use Rattle.sctp_channels.specs.declared.channel.Stage.TheVariants as stage;
ghost use Rattle.sctp_channels.specs.declared.channels.Refusal.TheVariants.{InUse, NoChannel, NoStream, OutOfMemory};
ghost use Rattle.sctp_channels.specs.Waiting.{KeepsNews, KeepsOthers};
ghost use Rattle.sctp_association.specs.Calls.{use_fault, write_fault};

use crate::channel::{Channel, News, Stage};
use crate::event::{ChannelEvent, is_end};
use crate::received::Received;
use bytes::Bytes;
use sctp_association::{Association, Event, Fault, PayloadProtocolIdentifier};
use sctp_dcep::{Message, Open, Side};
use std::alloc::{AllocError, AllocFailed, Global};

/// Why a call is refused. The list of channels is as it was then, but where a call says otherwise.
#[derive(Clone, Copy, Debug, PartialEq, Eq)]
pub enum Refusal {
    /// Memory ran out.
    OutOfMemory,
    /// Each stream that this side may choose has a channel (RFC 8832 6).
    NoStream,
    /// The stream has a channel.
    InUse,
    /// The stream has no channel that takes messages.
    NoChannel,
    /// The label and the protocol are longer than this side takes itself.
    NameTooLong,
    /// The association refuses.
    Association(Fault),
}

impl From<AllocError> for Refusal {
    ghost from_gives = { λ _ r. r ≡ OutOfMemory };

    fn from(_e: AllocError) -> Refusal {
        Refusal::OutOfMemory
    }
}

impl<T: Drop> From<AllocFailed<T>> for Refusal {
    ghost from_gives = { λ _ r. r ≡ OutOfMemory };

    fn from(_e: AllocFailed<T>) -> Refusal {
        Refusal::OutOfMemory
    }
}

impl From<Fault> for Refusal {
    ghost from_gives = { λ f r. r ≡ refusal_of f };

    fn from(e: Fault) -> Refusal {
        match e {
            Fault::OutOfMemory => Refusal::OutOfMemory,
            _ => Refusal::Association(e),
        }
    }
}

impl From<sctp_dcep::Fault> for Refusal {
    ghost from_gives = { λ f r. r ≡ refusal_of_name f };

    fn from(e: sctp_dcep::Fault) -> Refusal {
        match e {
            sctp_dcep::Fault::OutOfMemory => Refusal::OutOfMemory,
            _ => Refusal::NameTooLong,
        }
    }
}

/// A message that was read, and is still to be followed.
#[derive(Drop)]
pub(crate) struct Held {
    pub(crate) stream: u16,
    pub(crate) raw: Vec<u8>,
}

/// The channels of one association, which each call is given. No two have one stream.
#[derive(Drop)]
pub struct Channels {
    pub(crate) alloc: Global,
    pub(crate) side: Side,
    pub(crate) most_name: usize,
    pub(crate) channels: Vec<Channel>,
    pub(crate) held: Option<Held>,
    // A stream whose arrivals are still to be looked at.
    pub(crate) arrived: Option<u16>,
    // A stream that the peer has reset and this side is still to reset.
    pub(crate) owed: Option<u16>,
    ghost once: { is_once channels.items ≡ true },
}

// Whether the next message, of this length and payload type, is one of the application, and none of RFC 8832.
pub(crate) fn is_of_application(next: Option<(usize, PayloadProtocolIdentifier)>) -> bool
    ensures { result ≡ tells_data next }
{
    let Some((_, kind)) = next else {
        return false;
    };
    match kind {
        PayloadProtocolIdentifier::Dcep => false,
        PayloadProtocolIdentifier::String
        | PayloadProtocolIdentifier::StringEmpty
        | PayloadProtocolIdentifier::Binary
        | PayloadProtocolIdentifier::BinaryEmpty
        | PayloadProtocolIdentifier::Unknown => true,
    }
}

// More events than an association has at once, and more messages than a stream has.
pub(crate) const MOST: u32 = 1 << 20;

impl Channels {
    ghost use Rattle.sctp_channels.specs.Answers.{Polls, ReadsOn, after_told, next_told};
    ghost use Rattle.sctp_channels.specs.Rest.{Keeps};
    ghost use Rattle.sctp_channels.specs.Steps.{Comes, IsSettled, after_event, held_fault, held_of, looked, state_of, told_by};

    /// No channels. `side` is the role in the DTLS connection. `most_name` is how many bytes a label and a protocol of the peer may have
    /// together; a channel with longer ones is closed. It takes no memory.
    pub fn new(alloc: Global, side: Side, most_name: usize) -> Channels
        ensures none { result.channels.items ≡ [] }
        ensures side { result.side ≡ side }
        ensures most { result.most_name ≡ most_name }
        ensures settled { (a : Association) → IsSettled (state_of result a) }
    {
        Channels {
            alloc,
            side,
            most_name,
            channels: Vec::new(alloc),
            held: None,
            arrived: None,
            owed: None,
        }
    }

    /// The channels, in the order in which they were opened.
    pub fn channels(&self) -> &[Channel]
        ensures all { result.now ≡ self.now.channels.items }
        ensures once { is_once result.now ≡ true }
    {
        &self.channels
    }

    /// The channel of a stream.
    #[tactic(auto, using(crate::proofs::Lists::found_at, crate::proofs::Lists::find_at_none))]
    pub fn find(&self, stream: u16) -> Option<&Channel>
        ensures { option_copied result ≡ channel_on stream self.now.channels.items }
    {
        self.channels.get(self.place_of(stream)?)
    }

    // Where the channel of a stream stands.
    pub(crate) fn place_of(&self, stream: u16) -> Option<usize>
        ensures place { result ≡ position (is_on stream) self.now.channels.items }
        ensures within { IfSome result (λ i. i < vec_len self.now.channels) }
    {
        self.channels
            .iter()
            .position(|channel| channel.stream == stream)
    }

    // Whether a stream has a channel.
    pub(crate) fn has(&self, stream: u16) -> bool
        ensures { result ≡ has_channel stream self.now.channels.items }
    {
        self.channels.iter().any(|channel| channel.stream == stream)
    }

    // The least number that this side may choose and that has no channel (RFC 8832 6).
    #[tactic(auto, using(crate::proofs::Freeing::searched_first, crate::proofs::Freeing::searched_next, crate::proofs::Freeing::searched_found, crate::proofs::Freeing::searched_none))]
    fn free_stream(&self) -> Option<u16>
        ensures found { IfSome result (IsNextFree self.now.side self.now.channels.items) }
        ensures none { result ≡ None → IsFull self.now.side self.now.channels.items }
    {
        let mut next = Some(self.side.first());
        'number: while let Some(stream) = next {
            if !self.has(stream) {
                return Some(stream);
            }
            next = Side::next(stream);
        }
        None
    }

    /// Opens a channel on the next free stream of this side, and answers the number: DATA_CHANNEL_OPEN is written (RFC 8832 6). Messages may be
    /// written at once. Refuses with `NoStream`, `NameTooLong`, for memory, or where the association refuses, and no channel is opened then. Where it
    /// refuses the message, the stream's mode may be the one asked for.
    #[tactic(auto, using(crate::proofs::Refusing::open_refused, crate::proofs::Refusing::name_refused, crate::proofs::Refusing::not_full))]
    pub fn open(&mut self, association: &mut Association, request: Open) -> Result<u16, Refusal>
        ensures number { IfOk result (IsNextFree self.old.side self.old.channels.items) }
        ensures ok { IfOk result (λ s. self.new.channels.items
            ≡ self.old.channels.items ++ asked_for s stage.Opening request ∷ []) }
        ensures full { IsFull self.old.side self.old.channels.items → result ≡ Err NoStream }
        // DATA_CHANNEL_OPEN with the request is written on the stream, in order (RFC 8832 5.1, 6).
        ensures written { IfOk result (λ s. IsOpened s request association.old association.new) }
        ensures sends { OnOk result (SendsOnly association.old association.new) }
        ensures refused { IfErr result
            (OpenRefused self.old.side self.old.channels.items request) }
        ensures err { OnErr result (self.new.channels.items ≡ self.old.channels.items) }
        // The mode of the stream may be set, and the association is else as it was.
        ensures left { OnErr result (IsLeftByOpen self.old.side self.old.channels.items request
            association.old association.new) }
        ensures rest { Keeps self.old self.new }
    {
        let Some(stream) = self.free_stream() else {
            return Err(Refusal::NoStream);
        };
        let message = Message::Open(request);
        let bytes = message.write(self.alloc)?;
        let Message::Open(request) = message else {
            return Err(Refusal::NameTooLong);
        };
        self.channels.reserve(1)?;
        // In order until the peer knows the channel.
        association.set_mode(stream, false, request.reliability, request.value)?;
        association.write(stream, PayloadProtocolIdentifier::Dcep, &bytes)?;
        self.put(Channel::new(stream, Stage::Opening, request));
        Ok(stream)
    }

    /// Opens a channel that both sides agreed on by other means, on a stream that has none (RFC 8832 6). Nothing is sent. A message that came before is
    /// told as readable. Refuses with `InUse`, for memory, or where the association refuses the mode, and no channel is opened then.
    #[tactic(auto, using(crate::proofs::Refusing::agreed_refused))]
    pub fn open_agreed(
        &mut self,
        association: &mut Association,
        stream: u16,
        request: Open,
    ) -> Result<(), Refusal>
        ensures ok { OnOk result (asked self.new.channels.items
            ≡ asked (self.old.channels.items ++ asked_for stream stage.Open request ∷ [])) }
        ensures in_use { has_channel stream self.old.channels.items ≡ true
            → result ≡ Err InUse }
        ensures refused { IfErr result (AgreedRefused stream self.old.channels.items
            (use_fault stream association.old)) }
        // A message that came before is to be told.
        ensures told { OnOk result (self.new.channels.items ≡ looked stream association.old.inbound
            (self.old.channels.items ++ asked_for stream stage.Open request ∷ [])) }
        ensures moded { OnOk result (IsModed stream request.unordered request.reliability
            request.value association.old association.new) }
        ensures err { OnErr result ((self.new.channels.items ≡ self.old.channels.items)
            × (association.new ≡ association.old)) }
        ensures rest { Keeps self.old self.new }
    {
        if self.has(stream) {
            return Err(Refusal::InUse);
        }
        self.channels.reserve(1)?;
        association.set_mode(
            stream,
            request.unordered,
            request.reliability,
            request.value,
        )?;
        self.put(Channel::new(stream, Stage::Open, request));
        if association.next_len(stream).is_some() {
            self.note(stream, News::Readable);
        }
        Ok(())
    }

    // Adds a channel on a stream that has none, for which there is room.
    #[tactic(auto, using(crate::proofs::Lists::once_push))]
    pub(crate) fn put(&mut self, channel: Channel)
        requires free { has_channel channel.stream self.old.channels.items ≡ false }
        requires room { vec_len self.old.channels < vec_capacity self.old.channels }
        ensures rest { Keeps self.old self.new }
        ensures items { self.new.channels.items ≡ self.old.channels.items ++ channel ∷ [] }
    {
        let _ = self.channels.push(channel);
    }

    // Notes what becomes of the channel of a stream, if it has one.
    #[tactic(auto, using(crate::proofs::Lists::set_noted, crate::proofs::Lists::noted_at_none, crate::proofs::Lists::asked_set_noted, crate::proofs::Lists::once_set_noted))]
    pub(crate) fn note(&mut self, stream: u16, news: News)
        ensures items { self.new.channels.items ≡ note_on stream news self.old.channels.items }
        ensures same { asked self.new.channels.items ≡ asked self.old.channels.items }
        ensures rest { Keeps self.old self.new }
    {
        if let Some(place) = self.place_of(stream) {
            self.channels[place].note(news);
        }
    }

    /// Writes a message to a channel: text in UTF-8, or bytes. An empty one is sent as a byte with a payload type of its own (RFC 8831 6.6). Refuses with
    /// `NoChannel`, for memory, or as `Association::write`, and the association is as it was then.
    #[tactic(auto, using(crate::proofs::Refusing::write_refused, crate::proofs::Handing::kind_is, crate::proofs::Handing::sent_is))]
    pub fn write(
        &self,
        association: &mut Association,
        stream: u16,
        is_text: bool,
        bytes: &Bytes,
    ) -> Result<(), Refusal>
        ensures none { takes_messages (channel_on stream self.now.channels.items) ≡ false
            → result ≡ Err NoChannel }
        ensures refused { IfErr result (WriteRefused stream self.now.channels.items
            (write_fault stream (length (sent_of bytes.now)) association.old)) }
        ensures handed { OnOk result (IsHanded stream (kind_of is_text bytes.now)
            (sent_of bytes.now) association.old association.new) }
        ensures sends { OnOk result (SendsOnly association.old association.new) }
        ensures err { OnErr result (association.new ≡ association.old) }
    {
        match self.find(stream) {
            Some(channel) if channel.stage != Stage::Closing => {}
            _ => return Err(Refusal::NoChannel),
        }
        if !bytes.is_empty() {
            let kind = if is_text {
                PayloadProtocolIdentifier::String
            } else {
                PayloadProtocolIdentifier::Binary
            };
            return Ok(association.write(stream, kind, bytes)?);
        }
        let kind = if is_text {
            PayloadProtocolIdentifier::StringEmpty
        } else {
            PayloadProtocolIdentifier::BinaryEmpty
        };
        let byte = Bytes::copy_from_slice(self.alloc, &[0])?;
        Ok(association.write(stream, kind, &byte)?)
    }

    /// Reads the next message of a channel, None where there is none. Messages of RFC 8832 that stand before it are followed: also where it refuses,
    /// some may be, and each channel stays, but those that the peer opened are new. No other message is lost then.
    #[tactic(auto, using(crate::proofs::Gaining::gains_same, crate::proofs::Following::data_told))]
    pub fn read(
        &mut self,
        association: &mut Association,
        stream: u16,
        now: u64,
    ) -> Result<Option<Received>, Refusal>
        ensures gains { Gains self.old.side self.old.channels.items self.new.channels.items }
        ensures side { self.new.side ≡ self.old.side }
        // It is the next one of the association's stream that is none of RFC 8832.
        ensures message { IfOk result (ReadsNext now stream association.old association.new) }
        ensures err { OnErr result (TakesControlOf now stream association.old association.new) }
        // What the messages of RFC 8832 before it make is made (RFC 8832 6).
        ensures reads { IfOk result (ReadsOn now stream (state_of self.old association.old)
            (state_of self.new association.new)) }
        ensures comes { OnErr result (Comes now 0 (state_of self.old association.old)
            (state_of self.new association.new)) }
        // Nothing that waits to be told of a channel is lost.
        ensures others { KeepsNews self.old.channels.items self.new.channels.items }
        ensures refused { IfErr result (FollowRefused (held_fault (held_of self.new.held)
            association.new)) }
    {
        self.follow_control(association, stream, now)?;
        if !is_of_application(association.next_len(stream)) {
            return Ok(None);
        }
        match association.read(stream, now)? {
            Some(chunks) => Ok(Some(Received::new(chunks))),
            None => Ok(None),
        }
    }

    /// What happened next, None where nothing did. Call it after `handle_datagram`, `handle_timeout`, `read` and `close`, until it answers None.
    /// Where memory is wanting nothing is lost: call it again.
    #[tactic(auto, using(crate::proofs::Gaining::gains_then, crate::proofs::Telling::tells_then))]
    pub fn poll(
        &mut self,
        association: &mut Association,
        now: u64,
    ) -> Result<Option<ChannelEvent>, Refusal>
        ensures told { IfOk result
            (TellsMaybe self.old.side self.old.channels.items self.new.channels.items) }
        ensures err { OnErr result
            (Gains self.old.side self.old.channels.items self.new.channels.items) }
        ensures side { self.new.side ≡ self.old.side }
        // No message of the application is taken out.
        ensures control { TakesControl now association.old association.new }
        // What the peer's messages and the association's events make is made, and what waits is told (RFC 8832 6, 8831 6.7).
        ensures polls { IfOk result (Polls now (state_of self.old association.old)
            (state_of self.new association.new)) }
        ensures comes { OnErr result (Comes now 0 (state_of self.old association.old)
            (state_of self.new association.new)) }
        // Nothing that waits to be told of a channel is lost.
        ensures others { IfOk result
            (KeepsOthers self.old.channels.items self.new.channels.items) }
        ensures news { OnErr result (KeepsNews self.old.channels.items self.new.channels.items) }
        ensures refused { IfErr result (FollowRefused (held_fault (held_of self.new.held)
            association.new)) }
    {
        for _done in 0..MOST {
            self.settle(association, now)?;
            match self.next_event() {
                Some(event) => return Ok(Some(event)),
                None => {}
            }
            // So many messages of RFC 8832 came on a stream that the next call goes on.
            if self.arrived.is_some() {
                return Ok(None);
            }
            let Some(event) = association.poll() else {
                return Ok(None);
            };
            match self.take(event) {
                Some(told) => return Ok(Some(told)),
                None => {}
            }
        }
        Ok(None)
    }

    // Takes an event of the association, and answers what is to be told of it at once.
    #[tactic(auto, using(crate::proofs::Gaining::gains_same))]
    fn take(&mut self, event: Event) -> Option<ChannelEvent>
        ensures told { TellsMaybe self.old.side self.old.channels.items
            self.new.channels.items result }
        ensures side { self.new.side ≡ self.old.side }
        ensures passed { result ≡ told_by event }
        ensures after { (a : Association) → state_of self.new a
            ≡ after_event event (state_of self.old a) }
    {
        if is_end(event) {
            self.channels.clear();
            return Some(ChannelEvent::Association(event));
        }
        match event {
            Event::Readable(stream) => {
                self.arrived = Some(stream);
                None
            }
            Event::ResetByUs(stream) | Event::ResetRefused(stream) => {
                self.note(stream, News::OursReset);
                None
            }
            Event::ResetByPeer(stream) => {
                self.peers_reset_came(stream);
                None
            }
            _ => Some(ChannelEvent::Association(event)),
        }
    }

    // Where the first channel stands of which something is to be told.
    fn place_of_news(&self) -> Option<usize>
        ensures place { result ≡ position has_news self.now.channels.items }
        ensures within { IfSome result (λ i. i < vec_len self.now.channels) }
    {
        self.channels.iter().position(|channel| channel.has_news())
    }

    // What is to be told, if anything is.
    #[tactic(auto, using(crate::proofs::Lists::once_remove, crate::proofs::Lists::once_set, crate::proofs::Telling::tells_at, crate::proofs::Telling::closed_at, crate::proofs::Gaining::gains_same))]
    fn next_event(&mut self) -> Option<ChannelEvent>
        ensures told { TellsMaybe self.old.side self.old.channels.items
            self.new.channels.items result }
        ensures side { self.new.side ≡ self.old.side }
        ensures rest { Keeps self.old self.new }
        ensures next { result ≡ next_told self.old.channels.items }
        ensures left { self.new.channels.items ≡ after_told self.old.channels.items }
        ensures none { result ≡ None → (self.new ≡ self.old)
            × (list_any has_news self.old.channels.items ≡ false) }
    {
        let place = self.place_of_news()?;
        if self.channels[place].is_closed() {
            let channel = self.channels.remove(place);
            return Some(ChannelEvent::Closed(channel.stream));
        }
        Some(self.channels[place].take_event())
    }
}
