//! The causes of an ABORT or ERROR as they are printed (RFC 9260 3.3.10).

use crate::brief::has_text;
use crate::chunk_text::{put_list_end, put_params, u16_at, u32_at};
use crate::names::{ChunkName, parameter_name, put_cause_name};
use crate::page::{Page, put_all, put_quoted};
use bytes::Bytes;
use itoa::Buffer;
use sctp_chunks::chunk::error_cause::ErrorCause;
use sctp_dissect::causes::{CauseItem, dissect_causes};
use sctp_serial::serial::distance;
use std::alloc::{AllocError, Global};

/// The name of a cause.
fn put_name(alloc: Global, page: &mut Page, code: u16) -> Result<(), AllocError> {
    let mut name = String::new(alloc);
    put_cause_name(&mut name, code)?;
    page.words("Cause", "is", &name)
}

/// The text of a cause, where it has one.
fn put_cause_text(page: &mut Page, cause: &ErrorCause) -> Result<(), AllocError> {
    if !has_text(cause.code.0, cause.raw.as_slice()) {
        return Ok(());
    }
    page.in_text("        Cause text: ")?;
    page.in_json(",\"text\":")?;
    put_quoted(&mut page.text, cause.raw.as_slice())?;
    page.in_text("\n")
}

/// The name of a parameter's type, or `type-` and its number.
fn put_type_name(text: &mut String, typ: u16) -> Result<(), AllocError> {
    let name = parameter_name(typ);
    if name.is_empty() {
        return put_all(text, &["type-", Buffer::new().format(typ)]);
    }
    text.push_str(name)
}

/// The parameters that were missing, by their types (RFC 9260 3.3.10.2).
fn put_missing_types(alloc: Global, page: &mut Page, types: &[u8]) -> Result<(), AllocError> {
    let mut names = String::new(alloc);
    for at in 0..types.len() / 2 {
        if !names.is_empty() {
            names.push_str(", ")?;
        }
        put_type_name(&mut names, u16_at(types, at.saturating_mul(2)))?;
    }
    page.words("Missing parameters", "missing_parameters", &names)
}

/// The type of the chunk that a cause has in it (RFC 9260 3.3.10.6).
fn put_cause_chunk(alloc: Global, page: &mut Page, typ: u8) -> Result<(), AllocError> {
    let mut name = String::new(alloc);
    ChunkName(typ).put(&mut name)?;
    page.words("Unrecognized chunk", "chunk", &name)
}

/// The fields of a cause, where they are there: of RFC 9260 3.3.10, the parameters that RFC 5061 4.3 copies, and the identifier of RFC 4895 4.1.
/// A TSN is relative to a base.
fn put_cause_fields(
    alloc: Global,
    page: &mut Page,
    base: u32,
    code: u16,
    value: Bytes,
) -> Result<(), AllocError> {
    let bytes = value.as_slice();
    match code {
        1 if bytes.len() >= 2 => {
            page.number("Stream identifier", "stream", u16_at(bytes, 0) as u32)
        }
        2 if bytes.len() >= 4 => put_missing_types(alloc, page, bytes.get(4..).unwrap_or(b"")),
        3 if bytes.len() >= 4 => {
            page.number("Staleness (microseconds)", "staleness", u32_at(bytes, 0))
        }
        5 | 8 | 11 | 160..=162 | 164 => put_params(alloc, page, value),
        6 if !bytes.is_empty() => put_cause_chunk(alloc, page, bytes.first().copied().unwrap_or(0)),
        9 if bytes.len() >= 4 => page.number("TSN", "tsn", distance(base, u32_at(bytes, 0))),
        261 if bytes.len() >= 2 => page.number("HMAC identifier", "hmac", u16_at(bytes, 0) as u32),
        _ => Ok(()),
    }
}

/// A cause: its code, its name, its value and its text, and its fields.
fn put_cause(
    alloc: Global,
    page: &mut Page,
    base: u32,
    cause: &ErrorCause,
    is_first: bool,
) -> Result<(), AllocError> {
    let code = cause.code.0;
    page.row(is_first, "Cause code", "code", code as u32)?;
    let mut row = Page::new(alloc, page.form);
    put_name(alloc, &mut row, code)?;
    row.bytes(alloc, "Cause value", "value", cause.raw.as_slice())?;
    put_cause_text(&mut row, cause)?;
    put_cause_fields(alloc, &mut row, base, code, cause.raw.clone()?)?;
    page.inner(&row)?;
    page.in_json("}")
}

fn put_each_cause(
    alloc: Global,
    page: &mut Page,
    base: u32,
    items: &[CauseItem],
) -> Result<(), AllocError> {
    let mut is_first = true;
    for item in items {
        put_cause(alloc, page, base, &item.cause, is_first)?;
        is_first = false;
    }
    Ok(())
}

/// The causes of an ABORT or ERROR, by their declared lengths, each padded to a multiple of four bytes.
pub fn put_causes(alloc: Global, page: &mut Page, base: u32, raw: Bytes) -> Result<(), AllocError> {
    page.in_json(",\"causes\":[")?;
    let causes = dissect_causes(alloc, raw)?;
    put_each_cause(alloc, page, base, &causes.items)?;
    put_list_end(alloc, page, causes.rest.as_slice())
}
