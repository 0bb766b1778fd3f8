//! Messages of the Data Channel Establishment Protocol (RFC 8832).

ghost use Rattle.std.specs.Prelude.{IfSome, IfNone};
ghost use Rattle.sctp_show.specs.Dcep.{IsMessage};
ghost use Rattle.sctp_show.specs.declared.dcep.Message.{Message};

use crate::page::{Form, Page, put_quoted};
use sctp_util::field::{read_u16, read_u32};
use std::alloc::AllocError;

/// The bytes of a DATA_CHANNEL_OPEN before its label.
const OPEN_HEADER: usize = 12;

/// A DATA_CHANNEL_OPEN message (RFC 8832 5.1).
#[derive(Clone, Copy)]
pub struct Open<'a> {
    pub channel_type: u8,
    pub priority: u16,
    /// How often a message is sent again, or for how many milliseconds, by the channel type.
    pub reliability: u32,
    pub label: &'a [u8],
    pub protocol: &'a [u8],
}

/// The lengths of a DATA_CHANNEL_ACK: its type alone, or with three bytes behind it, as pion sends it.
const ACK: usize = 1;

const PADDED_ACK: usize = 4;

/// A message.
#[derive(Clone, Copy)]
pub enum Message<'a> {
    /// DATA_CHANNEL_ACK (RFC 8832 5.2).
    Ack,
    Open(Open<'a>),
}

/// The message that these bytes are, if they are one: a DATA_CHANNEL_ACK of one byte or four, or a DATA_CHANNEL_OPEN that ends with its protocol.
pub fn read_message(bytes: &[u8]) -> Option<Message<'_>>
    ensures some { IfSome result (IsMessage bytes.now) }
    ensures none { IfNone result ((m : Message) → IsMessage bytes.now m → ⊥) }
{
    if (bytes.len() == ACK || bytes.len() == PADDED_ACK) && bytes[0] == 2 {
        return Some(Message::Ack);
    }
    if bytes.len() < OPEN_HEADER || bytes[0] != 3 {
        return None;
    }
    let label_end = OPEN_HEADER + read_u16(bytes, 8) as usize;
    let end = label_end + read_u16(bytes, 10) as usize;
    if bytes.len() != end {
        return None;
    }
    Some(Message::Open(Open {
        channel_type: bytes[1],
        priority: read_u16(bytes, 2),
        reliability: read_u32(bytes, 4),
        label: &bytes[OPEN_HEADER..label_end],
        protocol: &bytes[label_end..end],
    }))
}

/// The name of a channel type (RFC 8832 8.2.2).
pub fn channel_name(channel_type: u8) -> &'static str {
    match channel_type {
        0x00 => "RELIABLE",
        0x80 => "RELIABLE_UNORDERED",
        0x01 => "PARTIAL_RELIABLE_REXMIT",
        0x81 => "PARTIAL_RELIABLE_REXMIT_UNORDERED",
        0x02 => "PARTIAL_RELIABLE_TIMED",
        0x82 => "PARTIAL_RELIABLE_TIMED_UNORDERED",
        _ => "unknown channel type",
    }
}

/// What the line of a packet says of a message.
pub fn put_brief_message(text: &mut String, bytes: &[u8]) -> Result<(), AllocError> {
    match read_message(bytes) {
        None => Ok(()),
        Some(Message::Ack) => text.push_str(" DATA_CHANNEL_ACK"),
        Some(Message::Open(open)) => {
            text.push_str(" DATA_CHANNEL_OPEN ")?;
            put_quoted(text, open.label)?;
            text.push_str(" ")?;
            text.push_str(channel_name(open.channel_type))
        }
    }
}

/// A fact that is text of the peer, between quotes.
fn put_text(page: &mut Page, label: &str, key: &str, bytes: &[u8]) -> Result<(), AllocError> {
    match page.form {
        Form::Text => {
            write!(page.text, "        {label}: ")?;
            put_quoted(&mut page.text, bytes)?;
            page.text.push_str("\n")
        }
        Form::Json => {
            write!(page.text, ",\"{key}\":")?;
            put_quoted(&mut page.text, bytes)
        }
    }
}

fn put_open(page: &mut Page, open: &Open<'_>) -> Result<(), AllocError> {
    page.words("Message", "message", "DATA_CHANNEL_OPEN")?;
    page.number("Channel type", "channel_type", open.channel_type as u32)?;
    page.words("Channel", "channel", channel_name(open.channel_type))?;
    page.number("Priority", "priority", open.priority as u32)?;
    page.number("Reliability", "reliability", open.reliability)?;
    put_text(page, "Label", "label", open.label)?;
    put_text(page, "Protocol", "protocol", open.protocol)
}

/// What is shown of a message.
pub fn put_message(page: &mut Page, bytes: &[u8]) -> Result<(), AllocError> {
    match read_message(bytes) {
        None => page.words("Message", "message", "malformed"),
        Some(Message::Ack) => page.words("Message", "message", "DATA_CHANNEL_ACK"),
        Some(Message::Open(open)) => put_open(page, &open),
    }
}
