//! Lines of four fields, as tshark writes them: seconds, a source, a destination, and hex text.

ghost use Rattle.std.specs.Prelude.{◌≡◌, ◌≤◌, ◌+◌, ◌++◌, length, OnOk, IfSome, IfNone, slice_range};
ghost use Rattle.std.specs.declared.net.ip_addr.IpAddr.{IpAddr};
ghost use Rattle.std.specs.Net.Grammar.{IsIpText};
ghost use Rattle.sctp_capture.specs.Fields as said;
ghost use Rattle.sctp_capture.specs.Fields.{IsWithin, AreEnds};

use crate::lead::{LEAST_DIGITS, Lead, behind_text, lead_of, word_end};
use crate::preamble::{Moment, with_fraction};
use crate::record::{Time, is_blank};
use std::alloc::AllocError;
use std::net::IpAddr;

/// Where a word of a line stands.
#[derive(Clone, Copy)]
pub struct Word {
    pub start: usize,
    /// The place behind its last byte.
    pub end: usize,
}

/// The fields of a line.
#[derive(Clone, Copy)]
pub struct Fields {
    pub time: Time,
    pub source: Word,
    pub destination: Word,
    /// The hex text.
    pub text: Word,
}

/// Whether a byte is a decimal digit.
fn is_decimal(byte: u8) -> bool
    ensures { result ≡ said.is_decimal byte }
{
    byte >= b'0' && byte <= b'9'
}

/// A number with a digit behind it, or the greatest one.
fn with_digit(value: u64, digit: u8) -> u64
    ensures { result ≡ said.with_digit value digit }
{
    value
        .saturating_mul(10)
        .saturating_add(digit.saturating_sub(b'0') as u64)
}

/// So many seconds, whose digits end in this place.
fn whole_at(seconds: u64, end: usize) -> Moment
    ensures { result ≡ said.whole_at seconds end }
{
    Moment {
        time: Time {
            seconds,
            fraction: 0,
            nanoseconds: false,
        },
        end,
    }
}

/// The seconds that the digits at the front of a line say.
#[tactic(auto, using(crate::proofs::Seconds::seconds_end, crate::proofs::Seconds::seconds_go, crate::proofs::Seconds::seconds_full))]
fn seconds_in(line: &[u8]) -> Moment
    ensures is { result ≡ said.seconds_in line.now }
    ensures within { result.end ≤ length line.now }
{
    let mut value = 0u64;
    for at in 0..line.len() {
        if !is_decimal(line[at]) {
            return whole_at(value, at);
        }
        value = with_digit(value, line[at]);
    }
    whole_at(value, line.len())
}

/// The word behind the blank in this place.
fn word_behind(line: &[u8], at: usize) -> Word
    requires { at ≤ length line.now }
    ensures is { result ≡ said.word_behind line.now at }
    ensures within { IsWithin line.now result }
{
    let start = if at < line.len() { at + 1 } else { at };
    Word {
        start,
        end: word_end(line, start),
    }
}

/// The fields of a line whose time ends at a blank.
fn fields_at(line: &[u8], moment: Moment) -> Fields
    requires { moment.end ≤ length line.now }
    ensures is { result ≡ said.fields_at line.now moment }
    ensures source { IsWithin line.now result.source }
    ensures destination { IsWithin line.now result.destination }
    ensures text { IsWithin line.now result.text }
{
    let source = word_behind(line, moment.end);
    let destination = word_behind(line, source.end);
    Fields {
        time: moment.time,
        source,
        destination,
        text: word_behind(line, destination.end),
    }
}

/// Whether a line begins with digits and a fraction, and then a blank.
fn is_time(line: &[u8], whole: Moment, moment: Moment) -> bool
    ensures { result ≡ said.is_time line.now whole moment }
{
    whole.end != 0
        && moment.end != whole.end
        && (moment.end < line.len() && is_blank(line[moment.end]))
}

/// Whether a word has as many digits as a common header, and no other text stands from it on but a comment.
fn is_text(line: &[u8], word: Word) -> bool
    requires { IsWithin line.now word }
    ensures { result ≡ said.is_text line.now word }
{
    word.end - word.start >= LEAST_DIGITS && behind_text(line) <= word.start
}

/// The fields of a line, if it has them.
pub fn fields_of(line: &[u8]) -> Option<Fields>
    ensures is { result ≡ said.fields_of line.now }
    ensures source { IfSome result (λ f. IsWithin line.now f.source) }
    ensures destination { IfSome result (λ f. IsWithin line.now f.destination) }
    ensures text { IfSome result (λ f. IsWithin line.now f.text) }
{
    let whole = seconds_in(line);
    let moment = with_fraction(line, whole);
    if !is_time(line, whole, moment) {
        return None;
    }
    let fields = fields_at(line, moment);
    if is_text(line, fields.text) {
        Some(fields)
    } else {
        None
    }
}

/// The lead of a line with these fields, or with none.
pub fn lead_by(line: &[u8], fields: &Option<Fields>) -> Lead
    requires { IfSome fields.now (λ f. IsWithin line.now f.text) }
    ensures is { result ≡ said.lead_by line.now fields.now }
    ensures within { result.length ≤ length line.now }
{
    match fields {
        None => lead_of(line),
        Some(fields) => Lead {
            length: fields.text.start,
            direction: None,
            time: Some(fields.time),
        },
    }
}

/// The address that a word of a line is.
fn address_in(line: &[u8], word: Word) -> Option<IpAddr>
    requires { IsWithin line.now word }
    ensures some { IfSome result (λ a. IsIpText (said.word_of line.now word) a) }
    ensures none { IfNone result
        ((a : IpAddr) → IsIpText (said.word_of line.now word) a → ⊥) }
{
    match IpAddr::parse_ascii(&line[word.start..word.end]) {
        Ok(address) => Some(address),
        Err(_) => None,
    }
}

/// The addresses that the source and the destination of a line are, if both are one.
pub fn ends_in(line: &[u8], fields: &Option<Fields>) -> Option<(IpAddr, IpAddr)>
    requires source { IfSome fields.now (λ f. IsWithin line.now f.source) }
    requires destination { IfSome fields.now (λ f. IsWithin line.now f.destination) }
    ensures { AreEnds line.now fields.now result }
{
    let Some(fields) = fields else {
        return None;
    };
    match (
        address_in(line, fields.source),
        address_in(line, fields.destination),
    ) {
        (Some(source), Some(destination)) => Some((source, destination)),
        _ => None,
    }
}

/// Appends the tag of an address: its number, which is the one of IPv4 or that of IPv6, the length, and the address.
fn put_address(frame: &mut Vec<u8>, four: u8, six: u8, address: IpAddr) -> Result<(), AllocError>
    ensures { OnOk result (frame.new.items ≡ frame.old.items ++ said.address_tag four six address) }
{
    match address {
        IpAddr::V4(ip) => {
            frame.extend_from_slice(&[0, four, 0, 4])?;
            frame.extend_from_slice(&ip.octets())
        }
        IpAddr::V6(ip) => {
            frame.extend_from_slice(&[0, six, 0, 16])?;
            frame.extend_from_slice(&ip.octets())
        }
    }
}

/// Appends the tags that stand before a datagram which went between these addresses.
pub fn put_tags(frame: &mut Vec<u8>, ends: (IpAddr, IpAddr)) -> Result<(), AllocError>
    ensures { OnOk result (frame.new.items ≡ frame.old.items ++ said.tags_of (Some ends)) }
{
    frame.extend_from_slice(&[0, 12, 0, 4, 115, 99, 116, 112])?;
    put_address(frame, 20, 22, ends.0)?;
    put_address(frame, 21, 23, ends.1)?;
    frame.extend_from_slice(&[0, 0, 0, 0])
}
