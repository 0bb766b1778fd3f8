//! A message as it is printed, as text or as JSON.

use crate::way::{Dropped, Message, Missed, Unread, WayReader};
use itoa::Buffer;
use sctp_capture::record::Time;
use sctp_dissect::dissection::Item;
use sctp_follow::associations::{Association, Way};
use sctp_follow::text::put_ends;
use sctp_show::brief::{DCEP, put_brief, put_chunk, put_payload_type, put_tsn};
use sctp_show::dcep::{put_brief_message, put_message};
use sctp_show::follow::Bases;
use sctp_show::names::payload_name;
use sctp_show::page::{Form, Page, put_all, put_quoted};
use sctp_show::time::{Clock, put_clock};
use std::alloc::{AllocError, Global};
use std::str;

/// How messages are printed.
#[derive(Clone, Copy)]
pub struct Style {
    pub form: Form,
    /// How times are printed, where messages are printed as text.
    pub clock: Clock,
    /// Whether TSNs are printed relative to those that they are counted from, likewise.
    pub is_relative: bool,
}

/// With which packet a message could be read.
#[derive(Clone, Copy)]
pub struct Moment {
    /// The number of its record.
    pub number: u64,
    pub time: Option<Time>,
    /// The first time of the input.
    pub start: Option<Time>,
    /// The number of its association, and its way.
    pub association: usize,
    pub way: Way,
    pub bases: Bases,
    /// How many bytes of the packet are missing.
    pub missing: usize,
}

/// The line that says which association it is.
pub fn put_name(
    text: &mut String,
    form: Form,
    number: usize,
    association: &Association,
) -> Result<(), AllocError> {
    match form {
        Form::Text => write!(text, "Association {number}:")?,
        Form::Json => write!(text, "{{\"association\":{number}")?,
    }
    put_ends(text, form, association)?;
    match form {
        Form::Text => Ok(()),
        Form::Json => text.push_str("}\n"),
    }
}

/// When a packet was captured.
fn put_when(
    text: &mut String,
    style: Style,
    start: &Option<Time>,
    time: &Option<Time>,
) -> Result<(), AllocError> {
    match (style.form, time) {
        (Form::Text, _) => {
            text.push_str(" ")?;
            put_clock(text, style.clock, start, time)
        }
        (Form::Json, None) => Ok(()),
        (Form::Json, Some(time)) => write!(text, ",\"time\":\"{time}\""),
    }
}

/// The association and the way.
pub fn put_way(
    text: &mut String,
    form: Form,
    association: usize,
    way: Way,
) -> Result<(), AllocError> {
    let (arrow, word) = (way.arrow(), way.word());
    match form {
        Form::Text => write!(text, "{association} {arrow}"),
        Form::Json => write!(text, "\"association\":{association},\"way\":\"{word}\""),
    }
}

/// What stands before a message.
pub fn put_lead(text: &mut String, style: Style, moment: &Moment) -> Result<(), AllocError> {
    let number = moment.number;
    match style.form {
        Form::Text => write!(text, "{number}")?,
        Form::Json => write!(text, "{{\"record\":{number}")?,
    }
    put_when(text, style, &moment.start, &moment.time)?;
    text.push_str(if style.form == Form::Text { " " } else { "," })?;
    put_way(text, style.form, moment.association, moment.way)
}

/// Whether bytes are shown as text: they are UTF-8, and no control characters but tabs and ends of lines.
fn is_text(bytes: &[u8]) -> bool {
    match str::from_utf8(bytes) {
        Ok(words) => words
            .chars()
            .all(|c| !c.is_control() || c == '\t' || c == '\n' || c == '\r'),
        Err(_) => false,
    }
}

/// The stream, and the number of an ordered message.
fn put_stream(text: &mut String, message: &Message) -> Result<(), AllocError> {
    let (stream, number) = (message.stream, message.number);
    if message.unordered {
        return write!(text, " s{stream} unordered");
    }
    write!(text, " s{stream}/{number}")
}

/// The bytes of a message: as text between quotes, or as hex digits.
fn put_bytes(alloc: Global, text: &mut String, bytes: &[u8]) -> Result<(), AllocError> {
    text.push_str(" ")?;
    if is_text(bytes) {
        return put_quoted(text, bytes);
    }
    let digits = hex::encode(alloc, bytes)?;
    text.push_str(digits.as_str())
}

/// A message as a line.
fn put_line(
    alloc: Global,
    text: &mut String,
    bases: Bases,
    message: &Message,
) -> Result<(), AllocError> {
    let bytes = message.bytes.as_slice();
    put_stream(text, message)?;
    put_payload_type(text, message.identifier)?;
    let (first, last) = (message.first_tsn, message.last_tsn);
    put_tsn(text, " TSN ", bases.own, first)?;
    if first != last {
        put_tsn(text, "-", bases.own, last)?;
    }
    put_all(text, &[" ", Buffer::new().format(bytes.len()), " bytes"])?;
    if message.identifier == DCEP {
        put_brief_message(text, bytes)?;
    } else {
        put_bytes(alloc, text, bytes)?;
    }
    text.push_str("\n")
}

/// The members that say which message it is.
fn put_members(page: &mut Page, message: &Message) -> Result<(), AllocError> {
    page.number("Stream", "stream", message.stream as u32)?;
    let key = if message.is_interleaved { "mid" } else { "ssn" };
    if !message.unordered {
        page.number("Number", key, message.number)?;
    }
    page.number("Type", "ppid", message.identifier)?;
    let name = payload_name(message.identifier);
    if !name.is_empty() {
        page.words("Name", "payload_type", name)?;
    }
    page.truth("Unordered", "unordered", message.unordered)?;
    page.number("First TSN", "first_tsn", message.first_tsn)?;
    page.number("Last TSN", "last_tsn", message.last_tsn)
}

/// A message as JSON.
fn put_object(alloc: Global, text: &mut String, message: &Message) -> Result<(), AllocError> {
    let bytes = message.bytes.as_slice();
    let mut page = Page::new(alloc, Form::Json);
    put_members(&mut page, message)?;
    page.bytes(alloc, "Data", "data", bytes)?;
    if message.identifier == DCEP {
        put_message(&mut page, bytes)?;
    } else if is_text(bytes) {
        page.text.push_str(",\"text\":")?;
        put_quoted(&mut page.text, bytes)?;
    }
    text.push_str(&page.text)?;
    text.push_str("}\n")
}

/// Appends a message.
pub fn put_read(
    alloc: Global,
    text: &mut String,
    style: Style,
    moment: &Moment,
    message: &Message,
) -> Result<(), AllocError> {
    put_lead(text, style, moment)?;
    match style.form {
        Form::Text => put_line(alloc, text, moment.bases, message),
        Form::Json => put_object(alloc, text, message),
    }
}

/// Why a chunk is not read, in words.
fn put_why(text: &mut String, why: Unread) -> Result<(), AllocError> {
    match why {
        Unread::Refused(refusal) => write!(text, "{refusal:?}"),
        Unread::Early => text.push_str("TSN before the first one"),
        Unread::NoBeginning => text.push_str("beginning not captured"),
        Unread::Passed => text.push_str("captured after its message was passed"),
        Unread::Malformed => text.push_str("malformed"),
        Unread::CutOff => text.push_str("cut off in the capture"),
        Unread::NoUserData => text.push_str("no user data (RFC 9260 6.2)"),
        Unread::Late => text.push_str("captured after its TSN was passed"),
    }
}

/// Appends that a chunk is not read, and why.
pub fn put_unread(
    text: &mut String,
    style: Style,
    moment: &Moment,
    item: &Item,
    why: Unread,
) -> Result<(), AllocError> {
    put_lead(text, style, moment)?;
    let (before, between, after) = match style.form {
        Form::Text => (" not read: ", ": ", "\n"),
        Form::Json => (",\"chunk\":\"", "\",\"not_read\":\"", "\"}\n"),
    };
    text.push_str(before)?;
    match why {
        Unread::NoUserData => put_chunk(text, moment.bases, item)?,
        _ => put_brief(text, moment.bases, moment.missing, item)?,
    }
    text.push_str(between)?;
    put_why(text, why)?;
    text.push_str(after)
}

/// Appends that TSNs were acknowledged and not captured.
pub fn put_missed(
    text: &mut String,
    style: Style,
    moment: &Moment,
    missed: Missed,
) -> Result<(), AllocError> {
    put_lead(text, style, moment)?;
    let (first, acknowledged) = (missed.first, missed.acknowledged);
    if style.form == Form::Json {
        return write!(
            text,
            ",\"not_captured\":{first},\"acknowledged\":{acknowledged}}}\n"
        );
    }
    put_tsn(text, " not captured: TSN ", moment.bases.own, first)?;
    put_tsn(
        text,
        ", acknowledged up to ",
        moment.bases.own,
        acknowledged,
    )?;
    text.push_str("\n")
}

/// Appends that so much was dropped of a stream: with a FORWARD-TSN, or because the rest was not captured.
pub fn put_dropped(
    text: &mut String,
    style: Style,
    moment: &Moment,
    dropped: Dropped,
    is_abandoned: bool,
) -> Result<(), AllocError> {
    put_lead(text, style, moment)?;
    let (stream, chunks, bytes) = (dropped.stream, dropped.chunks, dropped.bytes);
    match (style.form, is_abandoned) {
        (Form::Text, true) => write!(
            text,
            " s{stream} abandoned by FORWARD-TSN: {chunks} chunks, {bytes} bytes\n"
        ),
        (Form::Text, false) => write!(
            text,
            " s{stream} not complete: {chunks} chunks, {bytes} bytes\n"
        ),
        (Form::Json, _) => write!(
            text,
            ",\"stream\":{stream},\"abandoned\":{is_abandoned},\"dropped_chunks\":{chunks},\"dropped_bytes\":{bytes}}}\n"
        ),
    }
}

/// Appends that a packet is not read, since its checksum is wrong.
pub fn put_wrong_checksum(
    text: &mut String,
    style: Style,
    number: u64,
    time: &Option<Time>,
    start: &Option<Time>,
) -> Result<(), AllocError> {
    match style.form {
        Form::Text => write!(text, "{number}")?,
        Form::Json => write!(text, "{{\"record\":{number}")?,
    }
    put_when(text, style, start, time)?;
    match style.form {
        Form::Text => text.push_str(" not read: wrong checksum\n"),
        Form::Json => text.push_str(",\"not_read\":\"wrong checksum\"}\n"),
    }
}

/// Appends that so much is held of a stream and was not read.
fn put_amount(
    text: &mut String,
    form: Form,
    association: usize,
    way: Way,
    held: Dropped,
) -> Result<(), AllocError> {
    let (stream, chunks, bytes) = (held.stream, held.chunks, held.bytes);
    text.push_str(if form == Form::Text { "" } else { "{" })?;
    put_way(text, form, association, way)?;
    match form {
        Form::Text => write!(
            text,
            " s{stream} not complete: {chunks} chunks, {bytes} bytes\n"
        ),
        Form::Json => write!(
            text,
            ",\"stream\":{stream},\"held_chunks\":{chunks},\"held_bytes\":{bytes}}}\n"
        ),
    }
}

/// Appends how much is held of each stream and was not read.
fn put_amounts(
    text: &mut String,
    form: Form,
    association: usize,
    way: Way,
    amounts: &[Dropped],
) -> Result<(), AllocError> {
    for held in amounts {
        if held.chunks > 0 {
            put_amount(text, form, association, way, *held)?;
        }
    }
    Ok(())
}

/// Appends what is held of one way and was not read, stream by stream: of DATA, and then of I-DATA.
pub fn put_held(
    alloc: Global,
    text: &mut String,
    form: Form,
    association: usize,
    way: Way,
    reader: &WayReader,
) -> Result<(), AllocError> {
    let held = reader.held(alloc)?;
    put_amounts(text, form, association, way, &held)?;
    let held = reader.held_interleaved(alloc)?;
    put_amounts(text, form, association, way, &held)
}
