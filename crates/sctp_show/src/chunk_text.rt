//! A chunk as it is printed.

ghost use Rattle.std.specs.Prelude.{◌≡◌, ◌≤◌, ◌+◌, ◌++◌, length, slice_index, OnOk, IfOk};
ghost use Rattle.std.specs.String.{string_bytes};
ghost use Rattle.sctp_util.specs.Field;
ghost use Rattle.sctp_show.specs.ChunkText.{IsCutData, data_text, init_text, i_data_text, payload_text, block_lines, block_object, block_text};

use crate::brief::DCEP;
use crate::cause_text::put_causes;
use crate::cut::missing_of;
use crate::dcep::put_message;
use crate::fields::{has_kind, param_rule_of, put_chunk_fields, put_nr_sack, put_param_fields};
use crate::filter::is_bad;
use crate::follow::Bases;
use crate::names::{ChunkName, parameter_name, payload_name};
use crate::page::{Form, Page};
use crate::rules::rule_in;
use bytes::Bytes;
use sctp_chunks::chunk::chunk_forward_tsn::ChunkForwardTsn;
use sctp_chunks::chunk::chunk_i_forward_tsn::ChunkIForwardTsn;
use sctp_chunks::chunk::chunk_kind::ChunkKind;
use sctp_chunks::chunk::chunk_payload_data::{ChunkPayloadData, PayloadProtocolIdentifier};
use sctp_chunks::chunk::chunk_selective_ack::{ChunkSelectiveAck, GapAckBlock};
use sctp_dissect::dissection::{Item, RawChunk, Reading};
use sctp_dissect::params::{ParamItem, ParamReading, dissect_params};
use sctp_serial::serial::distance;
use sctp_util::field::{read_u16, read_u32};
use std::alloc::{AllocError, Global};

/// The type of I-DATA (RFC 8260 2.1).
const I_DATA: u8 = 64;

/// The type of an item's chunk: its first byte.
pub fn type_of(item: &Item) -> u8
    ensures { result ≡ slice_index item.now.bytes 0 }
{
    item.bytes.as_slice().first().copied().unwrap_or(0)
}

/// The number in the two bytes from `at` on, or 0 where they are not there.
pub(crate) fn u16_at(bytes: &[u8], at: usize) -> u16
    ensures { at + 2 ≤ length bytes.now → result ≡ Field.u16_at bytes.now at }
{
    if bytes.len() < 2 || bytes.len() - 2 < at {
        return 0;
    }
    read_u16(bytes, at)
}

/// The number in the four bytes from `at` on, or 0 where they are not there.
pub(crate) fn u32_at(bytes: &[u8], at: usize) -> u32 {
    if bytes.len() < 4 || bytes.len() - 4 < at {
        return 0;
    }
    read_u32(bytes, at)
}

/// The name of a payload protocol identifier, where it has one.
fn put_payload_name(page: &mut Page, ppid: u32) -> Result<(), AllocError>
    ensures form { page.new.form ≡ page.old.form }
    ensures text { OnOk result (string_bytes page.new.text
        ≡ string_bytes page.old.text ++ payload_text page.old.form ppid) }
{
    let name = payload_name(ppid);
    if name.is_empty() {
        return Ok(());
    }
    page.words("Payload type", "payload_type", name)
}

/// DATA, with its TSN relative to a base, and the payload type that stands in its bytes.
fn put_data(
    alloc: Global,
    page: &mut Page,
    base: u32,
    c: &ChunkPayloadData,
    ppid: u32,
) -> Result<(), AllocError>
    ensures { OnOk result (string_bytes page.new.text
        ≡ data_text page.old.form (string_bytes page.old.text) base c.now ppid) }
{
    let bytes = c.user_data.as_slice();
    page.number("TSN", "tsn", distance(base, c.tsn))?;
    page.number("Stream identifier", "stream", c.stream_identifier as u32)?;
    page.number(
        "Stream sequence number",
        "ssn",
        c.stream_sequence_number as u32,
    )?;
    page.number("Payload protocol identifier", "ppid", ppid)?;
    put_payload_name(page, ppid)?;
    page.truth("Unordered", "unordered", c.unordered)?;
    page.truth("First fragment", "first", c.beginning_fragment)?;
    page.truth("Last fragment", "last", c.ending_fragment)?;
    page.truth("Immediate SACK", "immediate", c.immediate_sack)?;
    page.bytes(alloc, "User data", "data", bytes)?;
    Ok(())
}

/// The fixed part of an INIT or INIT-ACK, as it stands in the first sixteen bytes of its value, its TSN relative to a base.
fn put_init(page: &mut Page, base: u32, value: &[u8]) -> Result<(), AllocError>
    requires { 16 ≤ length value.now }
    ensures { OnOk result (string_bytes page.new.text
        ≡ init_text page.old.form (string_bytes page.old.text) base value.now) }
{
    page.number("Initiate tag", "initiate_tag", read_u32(value, 0))?;
    page.number(
        "Advertised receiver window credit",
        "credit",
        read_u32(value, 4),
    )?;
    page.number(
        "Outbound streams",
        "outbound_streams",
        read_u16(value, 8) as u32,
    )?;
    page.number(
        "Inbound streams",
        "inbound_streams",
        read_u16(value, 10) as u32,
    )?;
    page.number(
        "Initial TSN",
        "initial_tsn",
        distance(base, read_u32(value, 12)),
    )?;
    Ok(())
}

/// I-DATA, for show (RFC 8260 2.1), its TSN relative to a base.
fn put_i_data(alloc: Global, page: &mut Page, base: u32, value: &[u8]) -> Result<(), AllocError>
    requires { 16 ≤ length value.now }
    ensures { OnOk result (string_bytes page.new.text
        ≡ i_data_text page.old.form (string_bytes page.old.text) base value.now) }
{
    let (_, bytes) = value.split_at(16);
    page.number("TSN", "tsn", distance(base, read_u32(value, 0)))?;
    page.number("Stream identifier", "stream", read_u16(value, 4) as u32)?;
    page.number("Message identifier", "mid", read_u32(value, 8))?;
    page.number(
        "Payload protocol identifier or fragment",
        "ppid_or_fsn",
        read_u32(value, 12),
    )?;
    page.bytes(alloc, "User data", "data", bytes)?;
    Ok(())
}

fn put_gaps(page: &mut Page, blocks: &[GapAckBlock]) -> Result<(), AllocError> {
    let mut is_first = true;
    for block in blocks {
        page.row(is_first, "Gap ack block start", "start", block.start as u32)?;
        page.number("Gap ack block end", "end", block.end as u32)?;
        page.in_json("}")?;
        is_first = false;
    }
    Ok(())
}

fn put_duplicates(page: &mut Page, base: u32, duplicates: &[u32]) -> Result<(), AllocError> {
    let mut is_first = true;
    for tsn in duplicates {
        page.row(is_first, "Duplicate TSN", "tsn", distance(base, *tsn))?;
        page.in_json("}")?;
        is_first = false;
    }
    Ok(())
}

fn put_sack(page: &mut Page, base: u32, c: &ChunkSelectiveAck) -> Result<(), AllocError> {
    let cumulative = distance(base, c.cumulative_tsn_ack);
    let credit = c.advertised_receiver_window_credit;
    page.number("Cumulative TSN ack", "cumulative", cumulative)?;
    page.number("Advertised receiver window credit", "credit", credit)?;
    page.in_json(",\"gaps\":[")?;
    put_gaps(page, &c.gap_ack_blocks)?;
    page.in_json("],\"duplicates\":[")?;
    put_duplicates(page, base, &c.duplicate_tsn)?;
    page.in_json("]")
}

/// What a parameter of a kind that is known is read as, or the rule that another one breaks, if it does.
fn put_reading(
    alloc: Global,
    page: &mut Page,
    typ: u16,
    reading: &ParamReading,
) -> Result<(), AllocError> {
    match reading {
        ParamReading::Strict(param) if has_kind(typ) => {
            let words = param.to_string(alloc)?;
            page.words("Parameter", "is", &words)
        }
        ParamReading::Strict(_) => Ok(()),
        ParamReading::Raw(param) => match param_rule_of(param.refusal) {
            Some(rule) => page.words("Parameter refused", "refused", rule),
            None => Ok(()),
        },
    }
}

/// The name of a parameter's type, where it has one.
fn put_parameter_name(page: &mut Page, typ: u16) -> Result<(), AllocError> {
    let name = parameter_name(typ);
    if name.is_empty() {
        return Ok(());
    }
    page.words("Parameter name", "name", name)
}

/// The chunk types that a parameter lists by their numbers, where it does: Supported Extensions (RFC 5061 4.2.7) and Chunk List (RFC 4895 3.2).
fn put_chunk_types(
    alloc: Global,
    page: &mut Page,
    typ: u16,
    value: &[u8],
) -> Result<(), AllocError> {
    if typ != 32_776 && typ != 32_771 {
        return Ok(());
    }
    let mut names = String::new(alloc);
    for typ in value {
        if !names.is_empty() {
            names.push_str(", ")?;
        }
        ChunkName(*typ).put(&mut names)?;
    }
    page.words("Chunk types", "chunk_types", &names)
}

/// A parameter: its type and name, what it is read as or why it is refused, its value, and its fields.
fn put_param(
    alloc: Global,
    page: &mut Page,
    item: &ParamItem,
    is_first: bool,
) -> Result<(), AllocError> {
    let typ = u16_at(item.bytes.as_slice(), 0);
    page.row(is_first, "Parameter type", "type", typ as u32)?;
    let mut row = Page::new(alloc, page.form);
    put_parameter_name(&mut row, typ)?;
    put_reading(alloc, &mut row, typ, &item.reading)?;
    let length = u16_at(item.bytes.as_slice(), 2) as usize;
    let value = item.bytes.as_slice().get(4..length).unwrap_or(b"");
    row.bytes(alloc, "Parameter value", "value", value)?;
    put_param_fields(alloc, &mut row, typ, value)?;
    put_chunk_types(alloc, &mut row, typ, value)?;
    page.inner(&row)?;
    page.in_json("}")
}

fn put_each_param(alloc: Global, page: &mut Page, items: &[ParamItem]) -> Result<(), AllocError> {
    let mut is_first = true;
    for item in items {
        put_param(alloc, page, item, is_first)?;
        is_first = false;
    }
    Ok(())
}

/// The end of a list, and the bytes behind it that begin no other item of it.
pub(crate) fn put_list_end(alloc: Global, page: &mut Page, rest: &[u8]) -> Result<(), AllocError> {
    page.in_json("]")?;
    if rest.is_empty() {
        return Ok(());
    }
    page.bytes(alloc, "Left over", "left_over", rest)
}

/// Parameters, read or raw, one behind the other.
pub(crate) fn put_params(alloc: Global, page: &mut Page, raw: Bytes) -> Result<(), AllocError> {
    page.in_json(",\"parameters\":[")?;
    let params = dissect_params(alloc, raw)?;
    put_each_param(alloc, page, &params.items)?;
    put_list_end(alloc, page, params.rest.as_slice())
}

fn put_forward_tsn(page: &mut Page, base: u32, c: &ChunkForwardTsn) -> Result<(), AllocError> {
    let cumulative = distance(base, c.new_cumulative_tsn);
    page.number("New cumulative TSN", "new_cumulative", cumulative)?;
    page.in_json(",\"streams\":[")?;
    let mut is_first = true;
    for s in &c.streams {
        page.row(is_first, "Stream identifier", "stream", s.identifier as u32)?;
        page.number("Stream sequence number", "ssn", s.sequence as u32)?;
        page.in_json("}")?;
        is_first = false;
    }
    page.in_json("]")
}

/// The flags of an entry are all sixteen bits between its stream and its message identifier.
fn put_i_forward_tsn(
    page: &mut Page,
    base: u32,
    c: &ChunkIForwardTsn,
    bytes: &[u8],
) -> Result<(), AllocError> {
    let cumulative = distance(base, c.new_cumulative_tsn);
    page.number("New cumulative TSN", "new_cumulative", cumulative)?;
    page.in_json(",\"streams\":[")?;
    let mut at = 10usize;
    for s in &c.streams {
        let flags = u16_at(bytes, at) as u32;
        page.row(at == 10, "Stream identifier", "stream", s.identifier as u32)?;
        page.number("Flags", "flags", flags)?;
        page.number("Message identifier", "mid", s.mid)?;
        page.in_json("}")?;
        at = at.saturating_add(8);
    }
    page.in_json("]")
}

/// The value of an item: what stands between its header and its padding.
fn value_in(item: &Item) -> Result<Bytes, AllocError> {
    let length = u16_at(item.bytes.as_slice(), 2) as usize;
    if length < 4 || item.bytes.len() < length {
        return Ok(Bytes::new());
    }
    item.bytes.slice(4..length)
}

/// An INIT or INIT-ACK, or what there is of one.
fn put_whole_init(
    alloc: Global,
    page: &mut Page,
    base: u32,
    value: Bytes,
) -> Result<(), AllocError> {
    if value.len() < 16 {
        return page.bytes(alloc, "Value", "value", value.as_slice());
    }
    let params = value.slice(16..value.len())?;
    put_init(page, base, value.as_slice())?;
    put_params(alloc, page, params)
}

/// DATA, and the message of DCEP that it holds, if it holds all of one.
fn put_whole_data(
    alloc: Global,
    page: &mut Page,
    base: u32,
    c: &ChunkPayloadData,
    ppid: u32,
) -> Result<(), AllocError> {
    put_data(alloc, page, base, c, ppid)?;
    if ppid == DCEP && c.beginning_fragment && c.ending_fragment {
        return put_message(page, c.user_data.as_slice());
    }
    Ok(())
}

/// The T bit of ABORT and SHUTDOWN-COMPLETE (RFC 4960 3.3.7, 3.3.13).
fn put_reflected(page: &mut Page, bytes: &[u8]) -> Result<(), AllocError> {
    let flags = bytes.get(1).copied().unwrap_or(0);
    page.truth("T bit", "t_bit", flags % 2 == 1)
}

/// What a chunk says that is read.
fn put_strict(
    alloc: Global,
    page: &mut Page,
    bases: Bases,
    chunk: &ChunkKind,
    item: &Item,
) -> Result<(), AllocError> {
    let bytes = item.bytes.as_slice();
    match chunk {
        ChunkKind::PayloadData(c) => put_whole_data(alloc, page, bases.own, c, u32_at(bytes, 12)),
        ChunkKind::Init(_) => put_whole_init(alloc, page, bases.own, value_in(item)?),
        ChunkKind::SelectiveAck(c) => put_sack(page, bases.other, c),
        ChunkKind::Heartbeat(_) | ChunkKind::HeartbeatAck(_) | ChunkKind::Reconfig(_) => {
            put_params(alloc, page, value_in(item)?)
        }
        ChunkKind::Abort(_) => {
            put_reflected(page, bytes)?;
            put_causes(alloc, page, bases.other, value_in(item)?)
        }
        ChunkKind::ShutdownComplete(_) => put_reflected(page, bytes),
        ChunkKind::Error(_) => put_causes(alloc, page, bases.other, value_in(item)?),
        ChunkKind::Shutdown(c) => {
            let cumulative = distance(bases.other, c.cumulative_tsn_ack);
            page.number("Cumulative TSN ack", "cumulative", cumulative)
        }
        ChunkKind::CookieEcho(c) => page.bytes(alloc, "Cookie", "cookie", c.cookie.as_slice()),
        ChunkKind::ForwardTsn(c) => put_forward_tsn(page, bases.own, c),
        ChunkKind::IForwardTsn(c) => put_i_forward_tsn(page, bases.own, c, bytes),
        _ => Ok(()),
    }
}

/// Why the reader of packets does not read a chunk.
fn put_refusal(alloc: Global, page: &mut Page, raw: &RawChunk) -> Result<(), AllocError> {
    let words = raw.refusal.to_string(alloc)?;
    page.words("Not read by the codec", "codec", &words)
}

/// The fields of a chunk that the reader of packets has no chunk for, and what stands behind them.
fn put_fields(alloc: Global, page: &mut Page, raw: &RawChunk) -> Result<(), AllocError> {
    let typ = raw.typ.0;
    let at = put_chunk_fields(page, typ, raw.value.as_slice())?;
    if (typ == 128 || typ == 193) && at <= raw.value.len() {
        return put_params(alloc, page, raw.value.slice(at..raw.value.len())?);
    }
    let value = raw.value.as_slice().get(at..).unwrap_or(b"");
    if value.is_empty() {
        return Ok(());
    }
    page.bytes(alloc, "Value", "value", value)
}

/// I-DATA, the name of its payload type, and the message of DCEP that it holds, if it holds all of one.
fn put_whole_i_data(
    alloc: Global,
    page: &mut Page,
    base: u32,
    raw: &RawChunk,
) -> Result<(), AllocError> {
    let value = raw.value.as_slice();
    if value.len() < 16 {
        return page.bytes(alloc, "Value", "value", value);
    }
    put_i_data(alloc, page, base, value)?;
    let ppid = u32_at(value, 12);
    if raw.flags / 2 % 2 == 0 {
        return Ok(());
    }
    put_payload_name(page, ppid)?;
    if ppid == DCEP && raw.flags % 2 == 1 {
        return put_message(page, &value[16..]);
    }
    Ok(())
}

/// DATA of which all of the fixed part is there, and as much of the user data as is.
fn cut_data(raw: &RawChunk) -> Result<ChunkPayloadData, AllocError>
    requires { 12 ≤ length raw.now.value }
    ensures { IfOk result (IsCutData raw.now) }
{
    let value = raw.value.as_slice();
    Ok(ChunkPayloadData {
        unordered: raw.flags / 4 % 2 == 1,
        beginning_fragment: raw.flags / 2 % 2 == 1,
        ending_fragment: raw.flags % 2 == 1,
        immediate_sack: raw.flags / 8 % 2 == 1,
        tsn: read_u32(value, 0),
        stream_identifier: read_u16(value, 4),
        stream_sequence_number: read_u16(value, 6),
        payload_type: PayloadProtocolIdentifier::Unknown,
        user_data: raw.value.slice(12..value.len())?,
        acked: false,
        miss_indicator: 0,
        abandoned: false,
        retransmit: false,
        nsent: 0,
        message_id: 0,
        since: None,
        deadline: None,
        reliability: None,
    })
}

/// What is there of a chunk that is cut off, but for how many bytes are missing.
fn put_cut(alloc: Global, page: &mut Page, bases: Bases, raw: &RawChunk) -> Result<(), AllocError> {
    let (base, value) = (bases.own, raw.value.as_slice());
    match raw.typ.0 {
        0 if value.len() >= 12 => {
            let data = cut_data(raw)?;
            put_data(alloc, page, base, &data, read_u32(value, 8))
        }
        64 if value.len() >= 16 => put_i_data(alloc, page, base, value),
        1 | 2 => put_whole_init(alloc, page, base, raw.value.clone()?),
        4 | 5 | 130 => put_params(alloc, page, raw.value.clone()?),
        6 | 9 => put_causes(alloc, page, bases.other, raw.value.clone()?),
        16 if value.len() >= 16 => put_nr_sack(page, bases.other, value),
        _ => page.bytes(alloc, "Value", "value", value),
    }
}

/// What a chunk shows that is not read, of a packet of which so many bytes are missing.
fn put_raw(
    alloc: Global,
    page: &mut Page,
    bases: Bases,
    missing: usize,
    item: &Item,
    raw: &RawChunk,
) -> Result<(), AllocError> {
    if !is_bad(missing, item) && missing > 0 && missing_of(item) > 0 {
        page.number(
            "Missing bytes",
            "missing",
            u32::try_from(missing_of(item)).unwrap_or(u32::MAX),
        )?;
        return put_cut(alloc, page, bases, raw);
    }
    put_refusal(alloc, page, raw)?;
    let value = raw.value.as_slice();
    match raw.typ.0 {
        I_DATA => put_whole_i_data(alloc, page, bases.own, raw),
        12 | 13 | 15 | 128 | 129 | 193 => put_fields(alloc, page, raw),
        1 | 2 => put_whole_init(alloc, page, bases.own, raw.value.clone()?),
        4 | 5 | 130 => put_params(alloc, page, raw.value.clone()?),
        6 | 9 => put_causes(alloc, page, bases.other, raw.value.clone()?),
        16 if value.len() >= 16 => put_nr_sack(page, bases.other, value),
        _ => page.bytes(alloc, "Value", "value", value),
    }
}

/// What a chunk says, or shows.
fn body_of(
    alloc: Global,
    form: Form,
    bases: Bases,
    missing: usize,
    item: &Item,
) -> Result<Page, AllocError> {
    let mut body = Page::new(alloc, form);
    if form == Form::Json {
        body.bytes(alloc, "Bytes", "bytes", item.bytes.as_slice())?;
    }
    if is_bad(missing, item) {
        body.words("Refused", "refused", rule_in(item))?;
    }
    match &item.reading {
        Reading::Strict(chunk) => put_strict(alloc, &mut body, bases, chunk, item)?,
        Reading::Raw(raw) => put_raw(alloc, &mut body, bases, missing, item, raw)?,
    }
    Ok(body)
}

/// What the four bytes of a chunk's header say.
#[derive(Clone, Copy)]
pub struct Head {
    pub typ: u8,
    pub flags: u8,
    pub length: u16,
}

/// A block as text.
fn put_lines(
    text: &mut String,
    name: &str,
    digits: &str,
    head: Head,
    shown: &str,
) -> Result<(), AllocError>
    ensures { OnOk result (string_bytes text.new
        ≡ string_bytes text.old ++ block_lines name.now digits.now head shown.now) }
{
    let (typ, length) = (head.typ, head.length);
    write!(
        text,
        "    {name} chunk: type {typ}, flags 0x{digits}, length {length}\n{shown}"
    )
}

/// A block as JSON, behind what it begins with.
fn put_object(
    text: &mut String,
    lead: &str,
    name: &str,
    head: Head,
    shown: &str,
) -> Result<(), AllocError>
    ensures { OnOk result (string_bytes text.new
        ≡ string_bytes text.old ++ block_object lead.now name.now head shown.now) }
{
    let (typ, flags, length) = (head.typ, head.flags, head.length);
    write!(
        text,
        "{lead}\"type\":{typ},\"name\":\"{name}\",\"flags\":{flags},\"length\":{length}{shown}}}"
    )
}

/// A chunk's name and header, its flags as hex digits in text, and what it shows.
fn put_framed(
    page: &mut Page,
    is_first: bool,
    name: &str,
    digits: &str,
    head: Head,
    shown: &str,
) -> Result<(), AllocError>
    ensures { OnOk result (string_bytes page.new.text ≡ string_bytes page.old.text
        ++ block_text page.old.form is_first name.now digits.now head shown.now) }
{
    match (page.form, is_first) {
        (Form::Text, _) => put_lines(&mut page.text, name, digits, head, shown),
        (Form::Json, true) => put_object(&mut page.text, "{", name, head, shown),
        (Form::Json, false) => put_object(&mut page.text, ",{", name, head, shown),
    }
}

/// The block of a chunk of a packet of which so many bytes are missing, its TSNs relative to these bases.
pub fn put_block(
    alloc: Global,
    page: &mut Page,
    bases: Bases,
    missing: usize,
    item: &Item,
    is_first: bool,
) -> Result<(), AllocError> {
    let mut name = String::new(alloc);
    ChunkName(type_of(item)).put(&mut name)?;
    let head = Head {
        typ: type_of(item),
        flags: item.bytes.as_slice().get(1).copied().unwrap_or(0),
        length: u16_at(item.bytes.as_slice(), 2),
    };
    let digits = hex::encode(alloc, [head.flags].as_slice())?;
    let body = body_of(alloc, page.form, bases, missing, item)?;
    put_framed(page, is_first, &name, &digits, head, &body.text)
}
