//! What is told of channels.

ghost use Rattle.std.specs.Prelude.{◌≡◌};
ghost use Rattle.sctp_channels.specs.Events.{is_end};

use sctp_association::Event;

/// What happened.
#[derive(Clone, Copy, Debug, PartialEq, Eq)]
pub enum ChannelEvent {
    /// The peer opened a channel on this stream.
    Opened(u16),
    /// The peer knows the channel that we opened on this stream (RFC 8832 5.2).
    Acknowledged(u16),
    /// A message of the channel can be read.
    Readable(u16),
    /// The channel is closed, and its stream may have a new one.
    Closed(u16),
    /// Any other event of the association. Its events of messages that can be read and of resets are not told.
    Association(Event),
}

/// Whether no channel is left by an event of the association.
pub(crate) fn is_end(event: Event) -> bool
    ensures { result ≡ is_end event }
{
    matches!(event, Event::Closed(_) | Event::Restarted)
}
