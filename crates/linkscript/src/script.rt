//! The script language: lines that are events, and lines that are replies.

ghost use Rattle.std.specs.Prelude.{◌≤◌, ℕ, IfSome};

use crate::field::{FieldFault, field_bytes, field_text};
use crate::run::RunFault;
use sctp_chunks::chunk::chunk_payload_data::{PayloadProtocolIdentifier, ReliabilityType};
use sctp_link::event::{Event, LinkRefusal, Reply};
use sctp_link::link::Link;
use sctp_queues::chunks::Chunks;
use sctp_util::util::Checksum;
use std::alloc::Global;
use std::io::{self, Write};

/// Why a line gives no event.
#[derive(Clone, Copy, Debug, PartialEq, Eq)]
pub enum LineFault {
    Unreadable,
    Memory,
}

const MAX_FRAGMENT_SIZE: u32 = 65_519;

/// A link, and whether the reply to a send tells how many chunks its datagram has.
#[derive(Drop)]
pub struct Play<C: Checksum + Drop> {
    pub link: Link<C>,
    pub counts: bool,
}

/// Reads `link FIRST SIZE MAX` or `link FIRST SIZE MAX LIMIT`; with a limit, also of 0, the replies to sends tell
/// how many chunks their datagrams have.
pub fn read_link<C: Checksum + Drop>(alloc: Global, checksum: C, line: &str) -> Option<Play<C>> {
    let mut rest = Some(line);
    if take_word(&mut rest)? != "link" {
        return None;
    }
    let first_tsn = take_u32(&mut rest)?;
    let fragment_size = take_u32(&mut rest)?;
    let max_message_size = take_u32(&mut rest)?;
    let limit = match rest {
        Some(_) => Some(take_u32(&mut rest)?),
        None => None,
    };
    if rest.is_some() || fragment_size < 1 || fragment_size > MAX_FRAGMENT_SIZE {
        return None;
    }
    let link = match limit {
        Some(limit) => Link::with_limit(
            alloc,
            first_tsn,
            fragment_size,
            max_message_size,
            limit,
            checksum,
        ),
        None => Link::new(alloc, first_tsn, fragment_size, max_message_size, checksum),
    };
    let counts = limit.is_some();
    Some(Play { link, counts })
}

/// Reads an event.
pub fn read_event(alloc: Global, line: &str) -> Result<Event, LineFault> {
    let mut rest = Some(line);
    let word = take_word(&mut rest).ok_or(LineFault::Unreadable)?;
    let event = match word {
        "write" => read_write(alloc, &mut rest)?,
        "skip" => read_skip(alloc, &mut rest)?,
        "mode" => read_mode(&mut rest).ok_or(LineFault::Unreadable)?,
        _ => read_short(word, &mut rest).ok_or(LineFault::Unreadable)?,
    };
    match rest {
        None => Ok(event),
        Some(_) => Err(LineFault::Unreadable),
    }
}

/// Reads the field of an event of one number.
fn read_short(word: &str, rest: &mut Option<&str>) -> Option<Event> {
    match word {
        "open" => Some(Event::Open {
            stream: take_u16(rest)?,
        }),
        "start" => Some(Event::Start {
            now: take_u64(rest)?,
        }),
        "send" => Some(Event::Send {
            now: take_u64(rest)?,
        }),
        "resend" => Some(Event::Resend {
            tsn: take_u32(rest)?,
        }),
        "ack" => Some(Event::Ack {
            credit: take_u32(rest)?,
        }),
        "arrive" => Some(Event::Arrive { k: take_u64(rest)? }),
        "acked" => Some(Event::Acked { k: take_u64(rest)? }),
        "read" => Some(Event::Read {
            stream: take_u16(rest)?,
        }),
        _ => read_abandonment(word, rest),
    }
}

/// Reads the field of an event that abandons a message.
fn read_abandonment(word: &str, rest: &mut Option<&str>) -> Option<Event> {
    match word {
        "expire" => Some(Event::Expire {
            now: take_u64(rest)?,
        }),
        "tail" => Some(Event::Tail {
            now: take_u64(rest)?,
        }),
        "late" => Some(Event::Late {
            now: take_u64(rest)?,
        }),
        "abandon" => Some(Event::Abandon {
            tsn: take_u32(rest)?,
        }),
        _ => None,
    }
}

fn read_mode(rest: &mut Option<&str>) -> Option<Event> {
    let stream = take_u16(rest)?;
    let unordered = match take_word(rest)? {
        "ordered" => false,
        "unordered" => true,
        _ => return None,
    };
    let reliability = match take_word(rest)? {
        "reliable" => ReliabilityType::Reliable,
        "rexmit" => ReliabilityType::Rexmit,
        "timed" => ReliabilityType::Timed,
        _ => return None,
    };
    Some(Event::Mode {
        stream,
        unordered,
        reliability,
        value: take_u32(rest)?,
    })
}

fn read_write(alloc: Global, rest: &mut Option<&str>) -> Result<Event, LineFault> {
    let stream = take_u16(rest).ok_or(LineFault::Unreadable)?;
    let ppi = take_u32(rest).ok_or(LineFault::Unreadable)?;
    let text = take_word(rest).ok_or(LineFault::Unreadable)?;
    let bytes = match field_bytes(alloc, text) {
        Ok(bytes) => bytes,
        Err(FieldFault::NotHex) => return Err(LineFault::Unreadable),
        Err(FieldFault::OutOfMemory) => return Err(LineFault::Memory),
    };
    Ok(Event::Write {
        stream,
        ppi: ppi.into(),
        bytes,
    })
}

/// Reads the fields of a skip: a TSN, and the numbers of messages with commas between them, or `-`.
fn read_skip(alloc: Global, rest: &mut Option<&str>) -> Result<Event, LineFault> {
    let upto = take_u32(rest).ok_or(LineFault::Unreadable)?;
    let names = take_word(rest).ok_or(LineFault::Unreadable)?;
    let mut messages = Vec::new(alloc);
    if names == "-" {
        return Ok(Event::Skip { upto, messages });
    }
    for name in names.split(',') {
        let number = number_of(name, u64::MAX).ok_or(LineFault::Unreadable)?;
        if messages.push(number).is_err() {
            return Err(LineFault::Memory);
        }
    }
    Ok(Event::Skip { upto, messages })
}

/// Takes the next word. Words stand one space apart.
fn take_word<'a>(rest: &mut Option<&'a str>) -> Option<&'a str> {
    let line = (*rest)?;
    match line.split_once(' ') {
        Some((word, others)) => {
            *rest = Some(others);
            Some(word)
        }
        None => {
            *rest = None;
            Some(line)
        }
    }
}

/// Takes a number in decimal digits, at most this one.
fn take_number(rest: &mut Option<&str>, most: u64) -> Option<u64>
    ensures { IfSome result (λ n. n ≤ most) }
{
    number_of(take_word(rest)?, most)
}

/// The number that these decimal digits write, where it is at most this one.
fn number_of(word: &str, most: u64) -> Option<u64>
    ensures { IfSome result (λ n. n ≤ most) }
{
    if !word.bytes().all(|b| b.is_ascii_digit()) {
        return None;
    }
    let number = word.parse::<u64>().ok()?;
    if number > most {
        return None;
    }
    Some(number)
}

fn take_u16(rest: &mut Option<&str>) -> Option<u16> {
    Some(take_number(rest, u16::MAX as u64)? as u16)
}

fn take_u32(rest: &mut Option<&str>) -> Option<u32> {
    Some(take_number(rest, u32::MAX as u64)? as u32)
}

fn take_u64(rest: &mut Option<&str>) -> Option<u64> {
    take_number(rest, u64::MAX)
}

/// Prints the line of a reply; of a send with its count of chunks, where `counts` says so.
pub fn print_reply<W: Write>(
    alloc: Global,
    output: &mut W,
    reply: &Result<Reply, LinkRefusal>,
    counts: bool,
) -> Result<(), RunFault> {
    let written = match reply {
        Ok(
            Reply::Message {
                stream,
                ppi,
                chunks,
            },
        ) => return print_message(alloc, output, *stream, *ppi, chunks),
        Ok(
            Reply::Sent {
                datagram,
                tsn,
                ssn,
                count,
            },
        ) if counts => write!(output, "sent {datagram} {tsn} {ssn} {count}\n"),
        Ok(reply) => print_numbers(output, reply),
        Err(refusal) => write!(output, "refused L{}\n", refusal_number(*refusal)),
    };
    match written {
        Ok(()) => Ok(()),
        Err(_) => Err(RunFault::Output),
    }
}

/// Prints the line of a reply that is a word and numbers.
fn print_numbers<W: Write>(output: &mut W, reply: &Reply) -> io::Result<()> {
    match reply {
        Reply::Opened => write!(output, "opened\n"),
        Reply::Set => write!(output, "set\n"),
        Reply::Wrote {
            number: Some(number),
            fragments,
        } => write!(output, "wrote {number} {fragments}\n"),
        Reply::Wrote {
            number: None,
            fragments,
        } => write!(output, "wrote - {fragments}\n"),
        Reply::Started => write!(output, "started\n"),
        Reply::Sent {
            datagram,
            tsn,
            ssn,
            ..
        } => write!(output, "sent {datagram} {tsn} {ssn}\n"),
        Reply::Idle => write!(output, "idle\n"),
        Reply::Resent { datagram } => write!(output, "resent {datagram}\n"),
        Reply::Expired { stream, bytes } => write!(output, "expired {stream} {bytes}\n"),
        Reply::Released { stream, bytes } => write!(output, "released {stream} {bytes}\n"),
        Reply::Late { listed, bytes } => write!(output, "late {listed} {bytes}\n"),
        Reply::Skip { datagram } => write!(output, "skip {datagram}\n"),
        Reply::Ack { datagram } => write!(output, "ack {datagram}\n"),
        Reply::New => write!(output, "new\n"),
        Reply::Repeat => write!(output, "repeat\n"),
        Reply::Skipped => write!(output, "skipped\n"),
        Reply::Stale => write!(output, "stale\n"),
        Reply::Acked { bytes } => write!(output, "acked {bytes}\n"),
        Reply::Message { .. } | Reply::Nothing => write!(output, "none\n"),
    }
}

/// Prints a message, its chunks joined.
fn print_message<W: Write>(
    alloc: Global,
    output: &mut W,
    stream: u16,
    ppi: PayloadProtocolIdentifier,
    chunks: &Chunks,
) -> Result<(), RunFault> {
    let Ok(text) = message_text(alloc, chunks) else {
        return Err(RunFault::Memory);
    };
    match write!(output, "message {stream} {} {text}\n", ppi.number()) {
        Ok(()) => Ok(()),
        Err(_) => Err(RunFault::Output),
    }
}

/// The field of a message's bytes.
fn message_text(alloc: Global, chunks: &Chunks) -> Result<String, FieldFault> {
    let Ok(mut bytes) = Vec::from_elem(alloc, 0u8, chunks.len()) else {
        return Err(FieldFault::OutOfMemory);
    };
    match chunks.read(&mut bytes) {
        Ok(_) => field_text(alloc, &bytes),
        Err(_) => Err(FieldFault::OutOfMemory),
    }
}

/// The number that a refusal is printed by.
fn refusal_number(refusal: LinkRefusal) -> u8 {
    match refusal {
        LinkRefusal::StreamUnknown => 1,
        LinkRefusal::StreamOpen => 2,
        LinkRefusal::MessageTooLarge => 3,
        LinkRefusal::TsnsUsedUp => 4,
        LinkRefusal::NoSuchDatagram => 5,
        LinkRefusal::NotInFlight => 6,
        LinkRefusal::SkipUnassigned => 7,
        LinkRefusal::SkipNames => 8,
        LinkRefusal::SpanTooWide => 9,
        LinkRefusal::OutOfMemory => 10,
    }
}
