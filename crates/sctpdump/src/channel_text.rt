//! A data channel as it is printed: as text or as JSON.

use crate::text::Style;
use sctp_capture::record::Time;
use sctp_follow::associations::Way;
use sctp_follow::channels::{Carried, Channel, Closing, Opening, Stream};
use sctp_follow::packet::Arrived;
use sctp_show::dcep::channel_name;
use sctp_show::page::{Form, put_quoted};
use sctp_show::time::put_clock;
use std::alloc::AllocError;

/// How channels are printed, and of which association they are.
#[derive(Clone, Copy)]
pub struct Place {
    pub style: Style,
    /// The first time that a record had.
    pub start: Option<Time>,
    pub association: usize,
}

/// With which record something came, and when.
fn put_arrived(
    text: &mut String,
    style: Style,
    start: &Option<Time>,
    arrived: &Arrived,
) -> Result<(), AllocError> {
    let number = arrived.number;
    write!(text, "in {number}")?;
    if arrived.time.is_none() {
        return Ok(());
    }
    text.push_str(" at ")?;
    put_clock(text, style.clock, start, &arrived.time)
}

/// How reliable a channel is: the name of its type, and how often a message is sent again, or for how many milliseconds.
fn put_reliability(text: &mut String, opening: &Opening) -> Result<(), AllocError> {
    let (name, limit) = (channel_name(opening.channel_type), opening.reliability);
    match opening.channel_type % 128 {
        0 => write!(text, " {name}"),
        1 => write!(text, " {name} {limit} times"),
        2 => write!(text, " {name} {limit} ms"),
        other => write!(text, " {name} {other}"),
    }
}

/// What the DATA_CHANNEL_OPEN says, if it was captured.
fn put_opening(
    text: &mut String,
    style: Style,
    start: &Option<Time>,
    opening: &Option<Opening>,
) -> Result<(), AllocError> {
    let Some(opening) = opening else {
        return text.push_str(": no DATA_CHANNEL_OPEN");
    };
    text.push_str(" ")?;
    put_quoted(text, &opening.label)?;
    put_reliability(text, opening)?;
    let priority = opening.priority;
    write!(text, " priority {priority}")?;
    if !opening.protocol.is_empty() {
        text.push_str(" protocol ")?;
        put_quoted(text, &opening.protocol)?;
    }
    let way = opening.way.arrow();
    write!(text, ": opened {way} ")?;
    put_arrived(text, style, start, &opening.arrived)
}

/// Who closed the channel, if it is closed.
fn put_closing(
    text: &mut String,
    style: Style,
    start: &Option<Time>,
    closing: &Option<Closing>,
) -> Result<(), AllocError> {
    let Some(closing) = closing else {
        return text.push_str(", not closed");
    };
    let way = closing.way.arrow();
    write!(text, ", closed {way} ")?;
    put_arrived(text, style, start, &closing.arrived)
}

/// What went one way.
fn put_carried(text: &mut String, way: Way, carried: &Carried) -> Result<(), AllocError> {
    let way = way.arrow();
    let (messages, bytes) = (carried.messages, carried.bytes);
    let (again, abandoned) = (carried.again, carried.abandoned);
    write!(
        text,
        "; {way} {messages} messages {bytes} bytes, {again} chunks sent again, {abandoned} abandoned"
    )
}

/// A channel as a line.
fn put_line(
    text: &mut String,
    place: &Place,
    stream: u16,
    channel: &Channel,
) -> Result<(), AllocError> {
    write!(text, "s{stream}")?;
    put_opening(text, place.style, &place.start, &channel.opening)?;
    put_closing(text, place.style, &place.start, &channel.closing)?;
    put_carried(text, Way::Forth, &channel.forth)?;
    put_carried(text, Way::Back, &channel.back)?;
    text.push_str("\n")
}

/// Members that say which way something came, with which record, and when.
fn put_members(
    text: &mut String,
    key: &str,
    way: Way,
    arrived: &Arrived,
) -> Result<(), AllocError> {
    let (number, word) = (arrived.number, way.word());
    write!(text, ",\"{key}\":{number},\"{key}_by\":\"{word}\"")?;
    match &arrived.time {
        Some(time) => write!(text, ",\"{key}_time\":\"{time}\""),
        None => Ok(()),
    }
}

/// Members that say what a DATA_CHANNEL_OPEN says.
fn put_opening_members(text: &mut String, opening: &Opening) -> Result<(), AllocError> {
    text.push_str(",\"label\":")?;
    put_quoted(text, &opening.label)?;
    text.push_str(",\"protocol\":")?;
    put_quoted(text, &opening.protocol)?;
    let (typ, name) = (opening.channel_type, channel_name(opening.channel_type));
    let (reliability, priority) = (opening.reliability, opening.priority);
    write!(
        text,
        ",\"channel_type\":{typ},\"channel\":\"{name}\",\"reliability\":{reliability},\"priority\":{priority}"
    )?;
    put_members(text, "opened", opening.way, &opening.arrived)
}

/// The object that says what went one way.
fn put_carried_object(text: &mut String, key: &str, carried: &Carried) -> Result<(), AllocError> {
    let (messages, bytes) = (carried.messages, carried.bytes);
    let (again, abandoned) = (carried.again, carried.abandoned);
    write!(
        text,
        ",\"{key}\":{{\"messages\":{messages},\"bytes\":{bytes},\"sent_again\":{again},\"abandoned\":{abandoned}}}"
    )
}

/// A channel as JSON.
fn put_object(
    text: &mut String,
    association: usize,
    stream: u16,
    channel: &Channel,
) -> Result<(), AllocError> {
    write!(text, "{{\"association\":{association},\"stream\":{stream}")?;
    if let Some(opening) = &channel.opening {
        put_opening_members(text, opening)?;
    }
    if let Some(closing) = &channel.closing {
        put_members(text, "closed", closing.way, &closing.arrived)?;
    }
    put_carried_object(text, "forth", &channel.forth)?;
    put_carried_object(text, "back", &channel.back)?;
    text.push_str("}\n")
}

/// Appends a channel.
fn put_channel(
    text: &mut String,
    place: &Place,
    stream: u16,
    channel: &Channel,
) -> Result<(), AllocError> {
    match place.style.form {
        Form::Text => put_line(text, place, stream, channel),
        Form::Json => put_object(text, place.association, stream, channel),
    }
}

/// Appends the channels of a stream, in the order in which they were opened.
pub fn put_channels(
    text: &mut String,
    place: &Place,
    stream: u16,
    channels: &Stream,
) -> Result<(), AllocError> {
    for channel in &channels.earlier {
        put_channel(text, place, stream, channel)?;
    }
    put_channel(text, place, stream, &channels.last)
}
