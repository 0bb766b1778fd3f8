//! The data channels of an association (RFC 8831): what was opened, what each carried, and who closed it.

ghost use Rattle.std.specs.Prelude.{◌≡◌, true, [], ◌∷◌, ◌++◌, map, IfOk, OnOk, OnErr};
ghost use Rattle.std.specs.BTreeMap as trees;
ghost use Rattle.std.specs.Ordering.{nat_cmp};
ghost use Rattle.sctp_show.specs.Filter as filters;
ghost use Rattle.sctp_follow.specs.Channels as rows;

use crate::associations::Way;
use crate::flow::{counted, payload_length};
use crate::packet::Arrived;
use sctp_show::dcep::Open;
use sctp_show::filter::payload_type_of;
use std::alloc::{AllocError, Global};
use std::collections::BTreeMap;
use std::mem::replace;

/// What a DATA_CHANNEL_OPEN says (RFC 8832 5.1).
#[derive(Drop)]
pub struct Opening {
    pub way: Way,
    pub arrived: Arrived,
    pub channel_type: u8,
    pub priority: u16,
    pub reliability: u32,
    pub label: Vec<u8>,
    pub protocol: Vec<u8>,
}

/// With which record the first request came that resets the channel's stream (RFC 8831 6.7), and which way.
#[derive(Clone, Copy)]
pub struct Closing {
    pub way: Way,
    pub arrived: Arrived,
}

/// What went one way on a channel.
#[derive(Clone, Copy)]
pub struct Carried {
    /// Messages of which the last chunk was sent, but for those of DCEP.
    pub messages: u64,
    /// The bytes of messages in chunks, each chunk counted once.
    pub bytes: u64,
    /// How often chunks were sent again.
    pub again: u64,
    /// How many chunks a FORWARD-TSN abandoned.
    pub abandoned: u64,
}

/// What becomes of a chunk that goes one way on a channel.
#[derive(Clone, Copy)]
pub enum Event {
    /// It is sent for the first time, with so many bytes of a message, of which it is the last chunk or not.
    First(bool, u64),
    /// It is sent again.
    Again,
    /// A FORWARD-TSN abandons it.
    Abandoned,
}

/// A data channel, or a stream of which no DATA_CHANNEL_OPEN was captured.
#[derive(Drop)]
pub struct Channel {
    pub opening: Option<Opening>,
    pub closing: Option<Closing>,
    pub forth: Carried,
    pub back: Carried,
}

/// The channels of a stream, in the order in which they were opened.
#[derive(Drop)]
pub struct Stream {
    pub earlier: Vec<Channel>,
    pub last: Channel,
}

/// The channels of an association.
#[derive(Drop)]
pub struct Channels {
    /// They, by stream.
    pub streams: BTreeMap<u16, Stream>,
}

/// The payload protocol identifiers of empty messages, which one byte stands for (RFC 8831 6.6).
const STRING_EMPTY: u32 = 56;

const BINARY_EMPTY: u32 = 57;

/// Nothing went yet.
const NOTHING: Carried = Carried {
    messages: 0,
    bytes: 0,
    again: 0,
    abandoned: 0,
};

/// Keeps what a DATA_CHANNEL_OPEN says. Refuses only for memory.
pub fn opening_of(
    alloc: Global,
    open: &Open<'_>,
    way: Way,
    arrived: Arrived,
) -> Result<Opening, AllocError>
    ensures { IfOk result (rows.IsOpening open.now way arrived) }
{
    Ok(Opening {
        way,
        arrived,
        channel_type: open.channel_type,
        priority: open.priority,
        reliability: open.reliability,
        label: Vec::from_slice(alloc, open.label)?,
        protocol: Vec::from_slice(alloc, open.protocol)?,
    })
}

/// Whether a payload type is that of an empty message.
fn is_empty_type(payload_type: Option<u32>) -> bool
    ensures { result ≡ rows.is_empty_type payload_type }
{
    payload_type == Some(STRING_EMPTY) || payload_type == Some(BINARY_EMPTY)
}

/// What DATA or I-DATA counts as that is sent for the first time.
/// Precondition: it is one of them.
pub fn first_of(bytes: &[u8]) -> Event
    requires { filters.is_data bytes.now ≡ true }
    ensures { result ≡ rows.first_of bytes.now }
{
    let is_last = bytes[1] % 2 == 1;
    if is_empty_type(payload_type_of(bytes)) {
        return Event::First(is_last, 0);
    }
    Event::First(is_last, payload_length(bytes))
}

impl Carried {
    /// Counts a chunk.
    fn note(&mut self, event: Event)
        ensures { self.new ≡ rows.carried_with event self.old }
    {
        match event {
            Event::First(is_last, bytes) => {
                self.messages = counted(self.messages, if is_last { 1 } else { 0 });
                self.bytes = counted(self.bytes, bytes);
            }
            Event::Again => self.again = counted(self.again, 1),
            Event::Abandoned => self.abandoned = counted(self.abandoned, 1),
        }
    }
}

impl Channel {
    /// Nothing is known of it.
    fn new() -> Self
        ensures { result ≡ rows.unknown }
    {
        Channel {
            opening: None,
            closing: None,
            forth: NOTHING,
            back: NOTHING,
        }
    }

    /// Counts a chunk that goes this way.
    fn note(&mut self, way: Way, event: Event)
        ensures { self.new ≡ rows.channel_with way event self.old }
    {
        match way {
            Way::Forth => self.forth.note(event),
            Way::Back => self.back.note(event),
        }
    }

    /// Closes it, unless it is closed.
    fn close(&mut self, closing: Closing)
        ensures { self.new ≡ rows.closed_by closing self.old }
    {
        if self.closing.is_none() {
            self.closing = Some(closing);
        }
    }
}

impl Stream {
    /// Takes a DATA_CHANNEL_OPEN. Refuses only for memory.
    fn open(&mut self, opening: Opening) -> Result<(), AllocError>
        ensures ok { OnOk result (self.new.earlier.items ++ self.new.last ∷ []
            ≡ rows.opened opening (self.old.earlier.items ++ self.old.last ∷ [])) }
        ensures err { OnErr result (self.new.earlier.items ++ self.new.last ∷ []
            ≡ self.old.earlier.items ++ self.old.last ∷ []) }
    {
        if self.last.opening.is_some() || self.last.closing.is_some() {
            self.earlier.reserve(1)?;
            let before = replace(&mut self.last, Channel::new());
            self.earlier.push(before)?;
        }
        self.last.opening = Some(opening);
        Ok(())
    }
}

impl Channels {
    /// None yet.
    pub fn new(alloc: Global) -> Self {
        Channels {
            streams: BTreeMap::new(alloc),
        }
    }

    /// Counts a chunk that goes this way on the last channel of a stream. Refuses only for memory.
    pub fn note(
        &mut self,
        alloc: Global,
        way: Way,
        stream: u16,
        event: Event,
    ) -> Result<(), AllocError>
        ensures ok { OnOk result (rows.Become stream
            (rows.noted way event (rows.channels_of (trees.get nat_cmp self.old.streams stream)))
            self.old.streams self.new.streams) }
        ensures err { OnErr result (trees.IsUnchanged self.old.streams self.new.streams) }
    {
        if let Some(known) = self.streams.get_mut(&stream) {
            known.last.note(way, event);
            return Ok(());
        }
        let mut last = Channel::new();
        last.note(way, event);
        self.add(alloc, stream, last)
    }

    /// Adds the first channel of a stream.
    fn add(&mut self, alloc: Global, stream: u16, last: Channel) -> Result<(), AllocError>
        ensures ok { OnOk result
            (rows.Become stream (last ∷ []) self.old.streams self.new.streams) }
        ensures err { OnErr result (trees.IsUnchanged self.old.streams self.new.streams) }
    {
        let earlier = Vec::new(alloc);
        if self
            .streams
            .insert(stream, Stream { earlier, last })
            .is_err()
        {
            return Err(AllocError);
        }
        Ok(())
    }

    /// Takes a DATA_CHANNEL_OPEN of a stream: it is of the last channel of the stream, if only chunks of that are known, or of a new one.
    /// Refuses only for memory.
    pub fn open(&mut self, alloc: Global, stream: u16, opening: Opening) -> Result<(), AllocError>
        ensures ok { OnOk result (rows.Become stream
            (rows.opened opening (rows.channels_of (trees.get nat_cmp self.old.streams stream)))
            self.old.streams self.new.streams) }
        ensures err { OnErr result (rows.Stay self.old.streams self.new.streams) }
    {
        if let Some(known) = self.streams.get_mut(&stream) {
            return known.open(opening);
        }
        let mut last = Channel::new();
        last.opening = Some(opening);
        self.add(alloc, stream, last)
    }

    /// Takes a request to reset a stream: it closes its last channel, unless that is closed.
    pub fn close(&mut self, stream: u16, closing: Closing)
        ensures { rows.Become stream
            (rows.closed closing (rows.channels_of (trees.get nat_cmp self.old.streams stream)))
            self.old.streams self.new.streams }
    {
        if let Some(known) = self.streams.get_mut(&stream) {
            known.last.close(closing);
        }
    }

    /// Takes a request to reset all streams.
    pub fn close_all(&mut self, closing: Closing)
        ensures { self.new.streams.entries
            ≡ map (λ e. (e.0, rows.stream_closed closing e.1)) self.old.streams.entries }
    {
        self.streams.retain(|_stream, channels| {
            channels.last.close(closing);
            true
        });
    }
}
