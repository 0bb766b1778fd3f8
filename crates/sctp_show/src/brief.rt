//! What the line of a packet says of its chunks.

ghost use Rattle.std.specs.Prelude.{◌≡◌, ◌++◌, decimal, OnOk};
ghost use Rattle.std.specs.String.{string_bytes};
ghost use Rattle.sctp_util.specs.Serial.{distance};

use crate::chunk_text::{type_of, u16_at, u32_at};
use crate::dcep::put_brief_message;
use crate::fields::result_name;
use crate::filter::{is_bad, is_data, payload_type_of};
use crate::follow::Bases;
use crate::names::{ChunkName, parameter_name, payload_name, put_cause_name};
use crate::page::{put_all, put_quoted};
use crate::rules::rule_in;
use itoa::Buffer;
use sctp_chunks::chunk::chunk_kind::ChunkKind;
use sctp_chunks::chunk::chunk_selective_ack::ChunkSelectiveAck;
use sctp_dissect::dissection::{Item, Reading};
use sctp_serial::serial::distance;
use sctp_util::util::get_padding_size;
use std::alloc::AllocError;
use std::str;

/// The payload protocol identifier of DCEP (RFC 8832 8.1).
pub const DCEP: u32 = 50;

/// Appends a number behind a word.
fn put_number(text: &mut String, word: &str, number: u32) -> Result<(), AllocError> {
    put_all(text, &[word, Buffer::new().format(number)])
}

/// Appends a TSN behind a word: how far it lies after the base, modulo 2^32.
pub fn put_tsn(text: &mut String, word: &str, base: u32, tsn: u32) -> Result<(), AllocError>
    ensures { OnOk result (string_bytes text.new
        ≡ string_bytes text.old ++ (word.now ++ decimal (distance base tsn))) }
{
    let mut buffer = Buffer::new();
    put_all(text, &[word, buffer.format(distance(base, tsn))])
}

/// Appends the letters of the flags of DATA and I-DATA that are set, or a hyphen: immediate, unordered, beginning, end.
fn put_flags(text: &mut String, flags: u8) -> Result<(), AllocError> {
    text.push_str(match flags % 16 {
        0 => " -",
        1 => " E",
        2 => " B",
        3 => " BE",
        4 => " U",
        5 => " UE",
        6 => " UB",
        7 => " UBE",
        8 => " I",
        9 => " IE",
        10 => " IB",
        11 => " IBE",
        12 => " IU",
        13 => " IUE",
        14 => " IUB",
        _ => " IUBE",
    })
}

/// Appends a payload protocol identifier, and its name.
pub fn put_payload_type(text: &mut String, identifier: u32) -> Result<(), AllocError> {
    put_number(text, " ", identifier)?;
    let name = payload_name(identifier);
    if name.is_empty() {
        return Ok(());
    }
    put_all(text, &[" ", name])
}

/// The bytes behind the first `at` of a chunk, without its padding.
fn payload_in(bytes: &[u8], at: usize) -> &[u8] {
    bytes.get(at..u16_at(bytes, 2) as usize).unwrap_or(b"")
}

/// The type and the flags of a chunk, or 0 where they are not there.
fn first_two(bytes: &[u8]) -> (u8, u8) {
    match bytes {
        [typ, flags, ..] => (*typ, *flags),
        _ => (0, 0),
    }
}

/// DATA or I-DATA: the TSN, the stream and the number in it, the flags, the payload type (or the number of a fragment), and how long it is.
fn put_brief_data(text: &mut String, base: u32, bytes: &[u8]) -> Result<(), AllocError> {
    let (first, flags) = first_two(bytes);
    let is_interleaved = first == 64;
    put_tsn(text, " ", base, u32_at(bytes, 4))?;
    put_number(text, " s", u16_at(bytes, 8) as u32)?;
    let number = if is_interleaved {
        u32_at(bytes, 12)
    } else {
        u16_at(bytes, 10) as u32
    };
    put_number(text, "/", number)?;
    put_flags(text, flags)?;
    match payload_type_of(bytes) {
        Some(identifier) => put_payload_type(text, identifier)?,
        None => put_number(text, " fragment ", u32_at(bytes, 16))?,
    }
    let at = if is_interleaved { 20 } else { 16 };
    let payload = payload_in(bytes, at);
    let length = (u16_at(bytes, 2) as usize).saturating_sub(at);
    put_all(text, &[" ", Buffer::new().format(length), " bytes"])?;
    if flags % 4 == 3 && payload_type_of(bytes) == Some(DCEP) {
        put_brief_message(text, payload)?;
    }
    Ok(())
}

/// INIT or INIT-ACK: the tag, the credit, the streams and the TSN.
fn put_brief_init(text: &mut String, base: u32, bytes: &[u8]) -> Result<(), AllocError> {
    write!(text, " tag 0x{:08x}", u32_at(bytes, 4))?;
    put_number(text, " rwnd ", u32_at(bytes, 8))?;
    put_number(text, " streams ", u16_at(bytes, 12) as u32)?;
    put_number(text, "/", u16_at(bytes, 14) as u32)?;
    put_tsn(text, " tsn ", base, u32_at(bytes, 16))
}

/// SACK: the TSN, the credit, and how many gap blocks and duplicates there are.
fn put_brief_sack(text: &mut String, base: u32, c: &ChunkSelectiveAck) -> Result<(), AllocError> {
    put_tsn(text, " ", base, c.cumulative_tsn_ack)?;
    put_number(text, " rwnd ", c.advertised_receiver_window_credit)?;
    if !c.gap_ack_blocks.is_empty() {
        put_all(
            text,
            &[" gaps ", Buffer::new().format(c.gap_ack_blocks.len())],
        )?;
    }
    if !c.duplicate_tsn.is_empty() {
        put_all(
            text,
            &[" duplicates ", Buffer::new().format(c.duplicate_tsn.len())],
        )?;
    }
    Ok(())
}

/// Whether a cause of this code says words that can be read: User-Initiated Abort, and Protocol Violation (RFC 9260 3.3.10.12, 3.3.10.13).
pub fn has_text(code: u16, value: &[u8]) -> bool {
    if code != 12 && code != 13 {
        return false;
    }
    match str::from_utf8(value) {
        Ok(words) => !words.is_empty() && words.chars().all(|c| !c.is_control()),
        Err(_) => false,
    }
}

/// What a cause is about: a stream, the type of a chunk, or a TSN, which is relative to a base (RFC 9260 3.3.10.1, 3.3.10.6, 3.3.10.9).
fn put_brief_subject(
    text: &mut String,
    base: u32,
    code: u16,
    value: &[u8],
) -> Result<(), AllocError> {
    match (code, value) {
        (1, [_, _, ..]) => put_number(text, " s", u16_at(value, 0) as u32),
        (6, [typ, ..]) => {
            text.push_str(" ")?;
            ChunkName(*typ).put(text)
        }
        (9, [_, _, _, _, ..]) => put_tsn(text, " ", base, u32_at(value, 0)),
        _ => Ok(()),
    }
}

/// The name of a cause, what it is about, and its text.
fn put_brief_cause(
    text: &mut String,
    base: u32,
    code: u16,
    value: &[u8],
) -> Result<(), AllocError> {
    put_cause_name(text, code)?;
    put_brief_subject(text, base, code, value)?;
    if has_text(code, value) {
        text.push_str(" ")?;
        put_quoted(text, value)?;
    }
    Ok(())
}

/// The causes of an ABORT or ERROR, each padded to a multiple of four bytes (RFC 9260 3.2.1), as far as there are any.
fn put_brief_causes(text: &mut String, base: u32, value: &[u8]) -> Result<(), AllocError> {
    let (mut rest, mut lead) = (value, " ");
    for _turn in 0..value.len() / 4 {
        let length = u16_at(rest, 2) as usize;
        if length < 4 || rest.len() < length {
            return Ok(());
        }
        let own = rest.get(4..length).unwrap_or(b"");
        text.push_str(lead)?;
        put_brief_cause(text, base, u16_at(rest, 0), own)?;
        lead = " and ";
        rest = rest.get(length + get_padding_size(length)..).unwrap_or(b"");
    }
    Ok(())
}

/// The T bit of ABORT and SHUTDOWN-COMPLETE: the tag is the one that the packet before had (RFC 4960 8.5.1).
fn put_brief_reflected(text: &mut String, bytes: &[u8]) -> Result<(), AllocError> {
    match bytes.get(1) {
        Some(flags) if flags % 2 == 1 => text.push_str(" T"),
        _ => Ok(()),
    }
}

/// The most streams that a line names of a request.
const MOST_STREAMS: usize = 8;

/// The streams that a request resets, by their numbers, or how many they are. None stand for all of them (RFC 6525 4.1).
fn put_brief_streams(text: &mut String, streams: &[u8]) -> Result<(), AllocError> {
    let count = streams.len() / 2;
    if count == 0 {
        return text.push_str(" all streams");
    }
    if count > MOST_STREAMS {
        return put_all(text, &[" ", Buffer::new().format(count), " streams"]);
    }
    for at in 0..count {
        put_number(text, " s", u16_at(streams, at.saturating_mul(2)) as u32)?;
    }
    Ok(())
}

/// What a request or a response of RE-CONFIG says: its number, and its streams, its result, or how many streams are to be added (RFC 6525 4).
fn put_brief_request(text: &mut String, typ: u16, value: &[u8]) -> Result<(), AllocError> {
    if value.len() < 4 {
        return Ok(());
    }
    put_number(text, " ", u32_at(value, 0))?;
    match typ {
        13 if value.len() >= 12 => put_brief_streams(text, value.get(12..).unwrap_or(b"")),
        14 => put_brief_streams(text, value.get(4..).unwrap_or(b"")),
        16 if value.len() >= 8 => put_all(text, &[" ", result_name(u32_at(value, 4))]),
        17 | 18 if value.len() >= 8 => put_number(text, " new streams ", u16_at(value, 4) as u32),
        _ => Ok(()),
    }
}

/// The parameter of a RE-CONFIG that begins the bytes, behind a word.
fn put_brief_param(text: &mut String, word: &str, bytes: &[u8]) -> Result<(), AllocError> {
    let typ = u16_at(bytes, 0);
    let name = parameter_name(typ);
    if bytes.len() < 4 || name.is_empty() {
        return Ok(());
    }
    text.push_str(word)?;
    text.push_str(name)?;
    put_brief_request(text, typ, payload_in(bytes, 4))
}

/// The parameters of a RE-CONFIG, which has two at most (RFC 6525 3.1).
fn put_brief_reconfig(text: &mut String, bytes: &[u8]) -> Result<(), AllocError> {
    let value = bytes.get(4..).unwrap_or(b"");
    put_brief_param(text, " ", value)?;
    let length = u16_at(value, 2) as usize;
    let next = length.saturating_add(3) / 4 * 4;
    put_brief_param(text, " and ", value.get(next.max(4)..).unwrap_or(b""))
}

/// NR-SACK (draft-natarajan-tsvwg-sctp-nrsack): the TSN, the credit, and how many blocks there are of either list, and duplicates.
fn put_brief_nr_sack(text: &mut String, base: u32, bytes: &[u8]) -> Result<(), AllocError> {
    if bytes.len() < 20 {
        return Ok(());
    }
    put_tsn(text, " ", base, u32_at(bytes, 4))?;
    put_number(text, " rwnd ", u32_at(bytes, 8))?;
    put_number(text, " gaps ", u16_at(bytes, 12) as u32)?;
    put_number(text, " nr-gaps ", u16_at(bytes, 14) as u32)?;
    put_number(text, " duplicates ", u16_at(bytes, 16) as u32)
}

/// What is said of a chunk that is read.
fn put_brief_strict(
    text: &mut String,
    bases: Bases,
    chunk: &ChunkKind,
    bytes: &[u8],
) -> Result<(), AllocError> {
    match chunk {
        ChunkKind::SelectiveAck(c) => put_brief_sack(text, bases.other, c),
        ChunkKind::Abort(_) => put_brief_reflected(text, bytes),
        ChunkKind::Shutdown(c) => put_tsn(text, " ", bases.other, c.cumulative_tsn_ack),
        ChunkKind::ShutdownComplete(_) => put_brief_reflected(text, bytes),
        ChunkKind::ForwardTsn(c) => put_tsn(text, " ", bases.own, c.new_cumulative_tsn),
        ChunkKind::IForwardTsn(c) => put_tsn(text, " ", bases.own, c.new_cumulative_tsn),
        _ => Ok(()),
    }
}

/// The name of a chunk, and what the fixed part of DATA, I-DATA, INIT or INIT-ACK says, if all of it is there, its TSN relative to a base.
fn put_brief_cut(text: &mut String, base: u32, bytes: &[u8]) -> Result<(), AllocError> {
    let (typ, _) = first_two(bytes);
    ChunkName(typ).put(text)?;
    if is_data(bytes) {
        return put_brief_data(text, base, bytes);
    }
    if (typ == 1 || typ == 2) && bytes.len() >= 20 {
        return put_brief_init(text, base, bytes);
    }
    Ok(())
}

/// What a line says of a chunk, its name first, and TSNs relative to these bases.
pub fn put_chunk(text: &mut String, bases: Bases, item: &Item) -> Result<(), AllocError> {
    let bytes = item.bytes.as_slice();
    put_brief_cut(text, bases.own, bytes)?;
    if let Reading::Strict(chunk) = &item.reading {
        put_brief_strict(text, bases, chunk, bytes)?;
    }
    match type_of(item) {
        6 | 9 => put_brief_causes(text, bases.other, payload_in(bytes, 4)),
        16 => put_brief_nr_sack(text, bases.other, bytes),
        130 => put_brief_reconfig(text, bytes),
        _ => Ok(()),
    }
}

/// What the line of a packet, of which so many bytes are missing, says of a chunk, and behind it the rule that it breaks, if it does.
pub fn put_brief(
    text: &mut String,
    bases: Bases,
    missing: usize,
    item: &Item,
) -> Result<(), AllocError> {
    put_chunk(text, bases, item)?;
    if is_bad(missing, item) {
        return put_all(text, &[" [", rule_in(item), "]"]);
    }
    Ok(())
}
