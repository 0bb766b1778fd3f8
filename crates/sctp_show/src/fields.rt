//! The fields of parameters and of chunks that the reader of packets does not read.

ghost use Rattle.std.specs.Prelude.{◌≡◌};
ghost use Rattle.sctp_show.specs.Names as names;

use crate::chunk_text::{u16_at, u32_at};
use crate::names::parameter_name;
use crate::page::Page;
use sctp_serial::serial::distance;
use sctp_util::error::Error;
use std::alloc::{AllocError, Global};
use std::net::IpAddr;

/// Whether the words of the reader of parameters say what stands in one of this type.
pub fn has_kind(typ: u16) -> bool {
    matches!(typ, 1 | 7 | 32_770)
}

/// The rule that a parameter breaks that is refused, if it breaks one.
pub fn param_rule_of(refusal: Error) -> Option<&'static str> {
    match refusal {
        Error::ErrParamTypeUnhandled { .. } => None,
        Error::ErrInvalidAlgorithmType => None,
        Error::ErrSsnResetRequestParamTooShort => Some("RFC 6525 4.1: too short"),
        Error::ErrSsnResetRequestParamInvalidLength => Some("RFC 6525 4.1: half a stream number"),
        Error::ErrReconfigRespParamTooShort => Some("RFC 6525 4.4: too short"),
        Error::ErrSupportedAddressTypesParamInvalidLength => {
            Some("RFC 9260 3.3.2.1: half an address type")
        }
        _ => Some("RFC 9260 3.2.1: wrong length"),
    }
}

/// What a Re-configuration Response answers (RFC 6525 4.4).
pub fn result_name(answer: u32) -> &'static str
    ensures { result.now ≡ names.result_name answer }
{
    match answer {
        0 => "Success - Nothing to do",
        1 => "Success - Performed",
        2 => "Denied",
        3 => "Error - Wrong SSN",
        4 => "Error - Request already in progress",
        5 => "Error - Bad Sequence Number",
        6 => "In progress",
        _ => "unknown",
    }
}

/// The numbers of streams from a place on.
fn put_streams(
    alloc: Global,
    page: &mut Page,
    value: &[u8],
    from: usize,
) -> Result<(), AllocError> {
    let mut names = String::new(alloc);
    let streams = value.get(from..).unwrap_or(b"");
    for at in 0..streams.len() / 2 {
        if !names.is_empty() {
            names.push_str(", ")?;
        }
        write!(names, "{}", u16_at(streams, at.saturating_mul(2)))?;
    }
    if names.is_empty() {
        names.push_str("all")?;
    }
    page.words("Streams", "streams", &names)
}

/// An address of four or of sixteen bytes.
fn put_address(alloc: Global, page: &mut Page, value: &[u8]) -> Result<(), AllocError> {
    let address = match (<[u8; 4]>::try_from(value), <[u8; 16]>::try_from(value)) {
        (Ok(octets), _) => IpAddr::from(octets),
        (_, Ok(octets)) => IpAddr::from(octets),
        _ => return Ok(()),
    };
    let words = format!(in alloc; "{address}")?;
    page.words("Address", "address", &words)
}

/// The TSNs from which both ways go on behind an SSN/TSN reset, where a response has them (RFC 6525 4.4).
fn put_next_tsns(page: &mut Page, value: &[u8]) -> Result<(), AllocError> {
    if value.len() < 16 {
        return Ok(());
    }
    page.number("Sender's next TSN", "sender_next_tsn", u32_at(value, 8))?;
    page.number(
        "Receiver's next TSN",
        "receiver_next_tsn",
        u32_at(value, 12),
    )
}

/// The name of an algorithm that authenticates chunks (RFC 4895 8).
fn hmac_name(identifier: u16) -> &'static str {
    match identifier {
        1 => "SHA-1",
        3 => "SHA-256",
        _ => "",
    }
}

/// The name of a number that a parameter of this type lists, where it has one: Supported Address Types, and Requested HMAC Algorithm.
fn listed_name(typ: u16, number: u16) -> &'static str {
    match typ {
        12 => parameter_name(number),
        _ => hmac_name(number),
    }
}

/// The numbers of two bytes that a parameter of this type lists, by the names that they have, between commas.
fn put_listed(
    alloc: Global,
    page: &mut Page,
    label: &str,
    key: &str,
    typ: u16,
    value: &[u8],
) -> Result<(), AllocError> {
    let mut names = String::new(alloc);
    for at in 0..value.len() / 2 {
        if !names.is_empty() {
            names.push_str(", ")?;
        }
        let number = u16_at(value, at.saturating_mul(2));
        let name = listed_name(typ, number);
        if name.is_empty() {
            write!(names, "{number}")?;
        } else {
            names.push_str(name)?;
        }
    }
    page.words(label, key, &names)
}

/// Gap ack blocks of an NR-SACK: so many from a place on, as far as they are there.
fn put_blocks(
    page: &mut Page,
    labels: (&str, &str),
    blocks: &[u8],
    count: usize,
) -> Result<(), AllocError> {
    for number in 0..count.min(blocks.len() / 4) {
        let at = number.saturating_mul(4);
        page.row(number == 0, labels.0, "start", u16_at(blocks, at) as u32)?;
        page.number(labels.1, "end", u16_at(blocks, at.saturating_add(2)) as u32)?;
        page.in_json("}")?;
    }
    Ok(())
}

/// Duplicate TSNs of an NR-SACK, relative to a base: so many, as far as they are there.
fn put_duplicates(
    page: &mut Page,
    base: u32,
    numbers: &[u8],
    count: usize,
) -> Result<(), AllocError> {
    for number in 0..count.min(numbers.len() / 4) {
        let tsn = u32_at(numbers, number.saturating_mul(4));
        page.row(number == 0, "Duplicate TSN", "tsn", distance(base, tsn))?;
        page.in_json("}")?;
    }
    Ok(())
}

/// An NR-SACK, whose fixed part is there, its TSNs relative to a base (draft-natarajan-tsvwg-sctp-nrsack): gap ack blocks, then those of chunks that are
/// not reneged, then duplicates.
pub fn put_nr_sack(page: &mut Page, base: u32, value: &[u8]) -> Result<(), AllocError> {
    let cumulative = distance(base, u32_at(value, 0));
    page.number("Cumulative TSN ack", "cumulative", cumulative)?;
    page.number(
        "Advertised receiver window credit",
        "credit",
        u32_at(value, 4),
    )?;
    let (gaps, kept) = (u16_at(value, 8) as usize, u16_at(value, 10) as usize);
    let behind = gaps.saturating_mul(4).saturating_add(16);
    let last = kept.saturating_mul(4).saturating_add(behind);
    page.in_json(",\"gaps\":[")?;
    let labels = ("Gap ack block start", "Gap ack block end");
    put_blocks(page, labels, value.get(16..).unwrap_or(b""), gaps)?;
    page.in_json("],\"nr_gaps\":[")?;
    let labels = ("NR gap ack block start", "NR gap ack block end");
    put_blocks(page, labels, value.get(behind..).unwrap_or(b""), kept)?;
    page.in_json("],\"duplicates\":[")?;
    let count = u16_at(value, 12) as usize;
    put_duplicates(page, base, value.get(last..).unwrap_or(b""), count)?;
    page.in_json("]")
}

/// The fields of a request or a response of RE-CONFIG (RFC 6525 4).
fn put_reconfig(alloc: Global, page: &mut Page, typ: u16, value: &[u8]) -> Result<(), AllocError> {
    if typ != 16 {
        page.number("Request sequence number", "request", u32_at(value, 0))?;
    }
    match typ {
        13 => {
            page.number("Response sequence number", "response", u32_at(value, 4))?;
            page.number("Last TSN", "last_tsn", u32_at(value, 8))?;
            put_streams(alloc, page, value, 12)
        }
        14 => put_streams(alloc, page, value, 4),
        16 => {
            page.number("Response sequence number", "response", u32_at(value, 0))?;
            page.words("Result", "result", result_name(u32_at(value, 4)))?;
            put_next_tsns(page, value)
        }
        17 | 18 => page.number("New streams", "new_streams", u16_at(value, 4) as u32),
        _ => Ok(()),
    }
}

/// The fields of a parameter, where all of its fixed part is there: addresses (RFC 9260 3.3.2.1; in a request of ASCONF: RFC 5061 4.2), what RE-CONFIG asks for and answers (RFC 6525 4),
/// the error detection method of Zero Checksum Acceptable (RFC 9653 4).
pub fn put_param_fields(
    alloc: Global,
    page: &mut Page,
    typ: u16,
    value: &[u8],
) -> Result<(), AllocError> {
    match typ {
        5 if value.len() == 4 => put_address(alloc, page, value),
        6 if value.len() == 16 => put_address(alloc, page, value),
        9 if value.len() == 4 => {
            page.number("Lifespan increment (ms)", "increment", u32_at(value, 0))
        }
        12 => put_listed(alloc, page, "Address types", "address_types", typ, value),
        32_772 => put_listed(alloc, page, "HMACs", "hmacs", typ, value),
        13 if value.len() >= 12 => put_reconfig(alloc, page, typ, value),
        14 | 15 if value.len() >= 4 => put_reconfig(alloc, page, typ, value),
        16 | 17 | 18 if value.len() >= 8 => put_reconfig(alloc, page, typ, value),
        49_153 | 49_154 | 49_156 if value.len() >= 8 => {
            page.number("Correlation identifier", "correlation", u32_at(value, 0))?;
            put_address(alloc, page, value.get(8..).unwrap_or(b""))
        }
        32_769 if value.len() == 4 => {
            page.number("Error detection method", "method", u32_at(value, 0))
        }
        _ => Ok(()),
    }
}

/// The fields of a chunk that the reader of packets has no chunk for, where its fixed part is there: AUTH (RFC 4895 4.1), ECNE and CWR
/// (RFC 4960 Appendix A), the serial number of ASCONF and ASCONF-ACK (RFC 5061 4.1), and PKTDROP (draft-stewart-sctp-pktdrprep). Answers where its
/// parameters begin, or its value has no field.
pub fn put_chunk_fields(page: &mut Page, typ: u8, value: &[u8]) -> Result<usize, AllocError> {
    if value.len() < 4 {
        return Ok(0);
    }
    match typ {
        12 | 13 => {
            page.number("Lowest TSN", "lowest_tsn", u32_at(value, 0))?;
            Ok(4)
        }
        15 => {
            page.number("Shared key identifier", "key", u16_at(value, 0) as u32)?;
            page.number("HMAC identifier", "hmac", u16_at(value, 2) as u32)?;
            Ok(4)
        }
        128 | 193 => {
            page.number("Serial number", "serial", u32_at(value, 0))?;
            Ok(4)
        }
        129 if value.len() >= 12 => {
            page.number("Maximum bandwidth", "bandwidth", u32_at(value, 0))?;
            page.number("Bytes in the queue", "queued", u32_at(value, 4))?;
            page.number("Truncated length", "truncated", u16_at(value, 8) as u32)?;
            Ok(12)
        }
        _ => Ok(0),
    }
}
