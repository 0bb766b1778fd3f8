//! A data channel.

ghost use Rattle.std.specs.Prelude.{◌≡◌, IsTrue, ◌↔◌, ◌&&◌, ◌||◌, true, IfSome};
ghost use Rattle.sctp_channels.specs.Answers.{event_of, told_once};
ghost use Rattle.sctp_channels.specs.Channels.{as_asked, asked_for, has_news, is_reset, noted};
ghost use Rattle.sctp_channels.specs.Events.{IsAbout};

use crate::event::ChannelEvent;
use bytes::Bytes;
use sctp_association::ReliabilityType;

/// How far a channel is.
#[derive(Clone, Copy, Debug, PartialEq, Eq)]
pub enum Stage {
    /// We asked for it, and nothing came on it yet. Messages may be written; they go in order until then (RFC 8832 6).
    Opening,
    /// It is open.
    Open,
    /// It is being closed: each side resets its stream (RFC 8831 6.7).
    Closing,
}

/// A channel, on the stream with its number in both directions.
#[derive(Drop)]
pub struct Channel {
    /// The number of its streams.
    pub stream: u16,
    /// How far it is.
    pub stage: Stage,
    /// Its name, and the name of its protocol, in UTF-8 as the opener says (RFC 8832 5.1). It is not tested here.
    pub label: Bytes,
    pub protocol: Bytes,
    /// How its messages are sent.
    pub unordered: bool,
    pub reliability: ReliabilityType,
    pub value: u32,
    // What is to be told of it.
    pub(crate) is_new: bool,
    pub(crate) is_acknowledged: bool,
    pub(crate) is_readable: bool,
    // Which directions are reset.
    pub(crate) ours_is_reset: bool,
    pub(crate) peers_is_reset: bool,
}

/// What becomes of a channel.
#[derive(Clone, Copy)]
pub(crate) enum News {
    /// The peer knows it: it is open.
    Known,
    /// A message of the application can be read.
    Readable,
    /// It is being closed.
    Closing,
    /// Our direction is reset, or cannot be.
    OursReset,
    /// The peer's direction is reset: it closes the channel.
    PeersReset,
}

impl Channel {
    /// A channel as it was asked for.
    pub(crate) fn new(stream: u16, stage: Stage, request: sctp_dcep::Open) -> Channel
        ensures { result ≡ asked_for stream stage request }
    {
        Channel {
            stream,
            stage,
            label: request.label,
            protocol: request.protocol,
            unordered: request.unordered,
            reliability: request.reliability,
            value: request.value,
            is_new: false,
            is_acknowledged: false,
            is_readable: false,
            ours_is_reset: false,
            peers_is_reset: false,
        }
    }

    /// Notes what becomes of it.
    pub(crate) fn note(&mut self, news: News)
        ensures { self.new ≡ noted news self.old }
    {
        match news {
            News::Known => {
                self.stage = Stage::Open;
                self.is_acknowledged = true;
            }
            News::Readable => self.is_readable = true,
            News::Closing => self.stage = Stage::Closing,
            News::OursReset => self.ours_is_reset = true,
            News::PeersReset => {
                self.peers_is_reset = true;
                self.stage = Stage::Closing;
            }
        }
    }

    /// Whether something is to be told of it.
    pub(crate) fn has_news(&self) -> bool
        ensures { result ≡ has_news self.now }
    {
        self.is_new || self.is_acknowledged || self.is_readable || self.is_closed()
    }

    /// Whether both directions are reset.
    pub(crate) fn is_closed(&self) -> bool
        ensures { result ≡ is_reset self.now }
    {
        self.ours_is_reset && self.peers_is_reset
    }

    /// What is to be told next of a channel that is not closed; it is told then.
    pub(crate) fn take_event(&mut self) -> ChannelEvent
        ensures same { as_asked self.new ≡ as_asked self.old }
        ensures about { IsAbout self.old.stream result }
        ensures told { result ≡ event_of self.old }
        ensures once { self.new ≡ told_once self.old }
    {
        if self.is_new {
            self.is_new = false;
            return ChannelEvent::Opened(self.stream);
        }
        if self.is_acknowledged {
            self.is_acknowledged = false;
            return ChannelEvent::Acknowledged(self.stream);
        }
        self.is_readable = false;
        ChannelEvent::Readable(self.stream)
    }
}
