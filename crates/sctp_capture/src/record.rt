//! The records of an input: the entries of a capture, or lines of hex text.

ghost use Rattle.std.specs.Prelude.{◌≡◌, ◌≤◌, ◌<◌, ◌+◌, ℕ, Option, None, Some, length, drop, ◌++◌, ◌⊎◌, Ok, Err, ◌≢◌, Bool, MatchResult, IfOk, IfErr, OnOk, IfSome, IfNone, IsTrue, ◌↔◌};
ghost use Rattle.std.specs.Io.KnownBytes.{Keeps, IsAtEnd, prepend_known};
ghost use Rattle.hex.specs.Hex.{decode_of};
ghost use Rattle.sctp_capture.specs.declared.record.Fault.TheVariants.{NotHex};
ghost use Rattle.sctp_capture.specs.Fault.{fault_text};
ghost use Rattle.sctp_capture.specs.Window.{IsFailure};
ghost use Rattle.sctp_capture.specs.Fields as said;
ghost use Rattle.sctp_capture.specs.Fields.{said_in};
ghost use Rattle.sctp_capture.specs.Record.{IsHead, magic_of, number_at, IsEntry, entry_span, time_at, after_entry, line_in, HoldsLine, is_blank, digits_in, IsLineFound, after_line, IsNext};

use crate::fields::{ends_in, fields_of, lead_by, put_tags};
use crate::input::ReadFault;
use crate::lead::Lead;
use crate::window::Window;
use bytes::Bytes;
use hex::FromHexError;
use sctp_util::field::{read_u32, read_u32_le};
use std::alloc::{AllocError, Global};
use std::fmt;
use std::io::Read;
use std::net::IpAddr;

/// The bytes of a capture's header, and those of the header of one of its entries.
pub const CAPTURE_HEADER: usize = 24;

pub const ENTRY_HEADER: usize = 16;

/// The most bytes that a record may have.
pub const MAX_RECORD: usize = 262_144;

/// The most bytes of a line.
pub const MAX_LINE: usize = 524_288;

/// The link type of a line: a datagram alone.
const LINE_LINK: u32 = 248;

/// The link type of a line with addresses: an exported PDU.
const EXPORTED_LINK: u32 = 252;

const MICROSECONDS: u32 = 0xa1b2_c3d4;

const NANOSECONDS: u32 = 0xa1b2_3c4d;

/// The order of the bytes of a capture's numbers.
#[derive(Clone, Copy, Debug, PartialEq, Eq)]
pub enum Order {
    Big,
    Little,
}

/// What the header of a capture says.
#[derive(Clone, Copy, Debug, PartialEq, Eq)]
pub struct Head {
    pub order: Order,
    /// Whether fractions of a second are nanoseconds, and not microseconds.
    pub nanoseconds: bool,
    pub link_type: u32,
}

/// When a record was captured.
#[derive(Clone, Copy, Debug, PartialEq, Eq)]
pub struct Time {
    pub seconds: u64,
    pub fraction: u64,
    /// Whether the fraction is nanoseconds, and not microseconds.
    pub nanoseconds: bool,
}

impl fmt::Display for Time {
    fn fmt<W: fmt::Write>(&self, f: &mut fmt::Formatter<W>) -> fmt::Result {
        if self.nanoseconds {
            write!(f, "{}.{:09}", self.seconds, self.fraction)
        } else {
            write!(f, "{}.{:06}", self.seconds, self.fraction)
        }
    }
}

/// Why no packet is shown of a record.
#[derive(Clone, Copy, Debug, PartialEq, Eq)]
pub enum Fault {
    /// The line is no hex text.
    NotHex,
    /// The input ends within the record.
    CutOff,
    /// The record is longer than 256 KiB.
    TooLong,
    /// A header of the frame is cut off or malformed, or what it carries is shorter than it says, as in a capture that cuts frames.
    Short,
    /// The frame holds a fragment of an IP packet.
    Fragment,
    /// The frame holds no SCTP, or it stands behind more than three VLAN tags or fifteen extension headers of IPv6, or in more than four
    /// tunnels.
    OtherProtocol,
    /// The link type, which this is, is not known.
    OtherLink(u32),
    /// A length in a block of the capture is wrong.
    BadBlock,
    /// A block names an interface that was not described.
    NoInterface,
    /// The offset of a dump's line is not how many bytes stand before it.
    BadOffset,
}

impl fmt::Display for Fault {
    ghost output = { λ f. Some (fault_text f) };

    fn fmt<W: fmt::Write>(&self, f: &mut fmt::Formatter<W>) -> fmt::Result {
        match self {
            Fault::NotHex => f.write_str("not hex text"),
            Fault::CutOff => f.write_str("cut off"),
            Fault::TooLong => f.write_str("longer than 256 KiB"),
            Fault::Short => f.write_str("frame cut off"),
            Fault::Fragment => f.write_str("fragment of an IP packet"),
            Fault::OtherProtocol => f.write_str("no SCTP"),
            Fault::OtherLink(link_type) => write!(f, "unknown link type {link_type}"),
            Fault::BadBlock => f.write_str("wrong length in a block"),
            Fault::NoInterface => f.write_str("unknown interface"),
            Fault::BadOffset => f.write_str("wrong offset in a dump"),
        }
    }
}

/// Whether a packet came in, or went out.
#[derive(Clone, Copy, Debug, PartialEq, Eq)]
pub enum Direction {
    In,
    Out,
}

/// A record: when it was captured, whither it went, the link type of its frame, and the frame, or why there is none.
#[derive(Debug, Drop)]
pub struct Record {
    pub time: Option<Time>,
    /// As a log says it, or a capture in the newer format.
    pub direction: Option<Direction>,
    pub link_type: u32,
    /// How many bytes the frame had behind those that were captured.
    pub lost: u32,
    pub frame: Result<Bytes, Fault>,
}

/// The number in the four bytes from `at` on, in this order.
/// Precondition: there are four from there on.
pub fn read_number(order: Order, bytes: &[u8], at: usize) -> u32
    requires { at + 4 ≤ length bytes.now }
    ensures { result ≡ number_at order bytes.now at }
{
    match order {
        Order::Big => read_u32(bytes, at),
        Order::Little => read_u32_le(bytes, at),
    }
}

/// The order in which a magic number stands at the front, and whether it is that of nanoseconds.
fn read_magic(bytes: &[u8]) -> Option<(Order, bool)>
    requires { 4 ≤ length bytes.now }
    ensures some { IfSome result (λ x. number_at x.0 bytes.now 0 ≡ magic_of x.1) }
    ensures none { IfNone result ((order : Order) (nanoseconds : Bool)
        → number_at order bytes.now 0 ≢ magic_of nanoseconds) }
{
    match (read_u32(bytes, 0), read_u32_le(bytes, 0)) {
        (MICROSECONDS, _) => Some((Order::Big, false)),
        (NANOSECONDS, _) => Some((Order::Big, true)),
        (_, MICROSECONDS) => Some((Order::Little, false)),
        (_, NANOSECONDS) => Some((Order::Little, true)),
        _ => None,
    }
}

/// The header of the capture that the bytes begin with, if they do.
pub fn read_head(bytes: &[u8]) -> Option<Head>
    ensures some { IfSome result (IsHead bytes.now) }
    ensures none { IfNone result ((h : Head) → IsHead bytes.now h → ⊥) }
{
    if bytes.len() < CAPTURE_HEADER {
        return None;
    }
    match read_magic(bytes) {
        Some((order, nanoseconds)) => Some(Head {
            order,
            nanoseconds,
            link_type: read_number(order, bytes, 20) % 65_536,
        }),
        None => None,
    }
}

/// How many bytes of an entry are to be held before it is read.
fn wanted_in(head: &Head, held: &[u8]) -> usize
    ensures long { 16 ≤ result }
    ensures whole { 16 ≤ length held.now → number_at head.now.order held.now 8 ≤ 262144
        → result ≡ entry_span head.now held.now }
{
    if held.len() < ENTRY_HEADER {
        return ENTRY_HEADER;
    }
    let length = read_number(head.order, held, 8) as usize;
    if length > MAX_RECORD {
        return ENTRY_HEADER;
    }
    ENTRY_HEADER + length
}

/// The record of an entry with this frame, which lost so many bytes.
fn entry_record(head: &Head, time: Option<Time>, lost: u32, frame: Result<Bytes, Fault>) -> Record
    ensures link_type { result.link_type ≡ head.now.link_type }
    ensures direction { result.direction ≡ None }
    ensures lost { result.lost ≡ lost }
    ensures time { result.time ≡ time }
    ensures frame { result.frame ≡ frame }
{
    Record {
        time,
        direction: None,
        link_type: head.link_type,
        lost,
        frame,
    }
}

/// When the entry that the bytes begin with was captured.
/// Precondition: its header is there.
fn entry_time(head: &Head, held: &[u8]) -> Time
    requires { 16 ≤ length held.now }
    ensures { result ≡ time_at head.now held.now }
{
    Time {
        seconds: read_number(head.order, held, 0) as u64,
        fraction: read_number(head.order, held, 4) as u64,
        nanoseconds: head.nanoseconds,
    }
}

/// Reads the entry that the bytes begin with.
fn read_entry(alloc: Global, head: &Head, held: &[u8]) -> Result<Record, AllocError>
    ensures { IfOk result (IsEntry head.now held.now) }
{
    if held.len() < ENTRY_HEADER {
        return Ok(entry_record(head, None, 0, Err(Fault::CutOff)));
    }
    let time = Some(entry_time(head, held));
    let length = read_number(head.order, held, 8) as usize;
    if length > MAX_RECORD {
        return Ok(entry_record(head, time, 0, Err(Fault::TooLong)));
    }
    if held.len() < ENTRY_HEADER + length {
        return Ok(entry_record(head, time, 0, Err(Fault::CutOff)));
    }
    let frame = Bytes::copy_from_slice(alloc, &held[ENTRY_HEADER..ENTRY_HEADER + length])?;
    let lost = read_number(head.order, held, 12).saturating_sub(read_number(head.order, held, 8));
    Ok(entry_record(head, time, lost, Ok(frame)))
}

/// How many bytes the entry at the front takes, if all of it is there.
fn span_in(head: &Head, held: &[u8]) -> usize
    ensures short { length held.now < 16 → result ≡ 16 }
    ensures whole { 16 ≤ length held.now → result ≡ entry_span head.now held.now }
{
    if held.len() < ENTRY_HEADER {
        return ENTRY_HEADER;
    }
    ENTRY_HEADER + read_number(head.order, held, 8) as usize
}

/// Whether the entry at the front is held whole.
pub fn holds_entry(head: &Head, held: &[u8]) -> bool
    ensures { IsTrue result ↔ (16 ≤ length held.now × (entry_span head.now held.now ≤ length held.now)) }
{
    held.len() >= ENTRY_HEADER && held.len() >= span_in(head, held)
}

/// Takes the next entry of a capture. There is none at the end of the input.
pub fn next_entry<R: Read + Drop>(
    alloc: Global,
    window: &mut Window<R>,
    head: &Head,
) -> Result<Option<Record>, ReadFault>
    ensures takes { IfOk result
        (λ next. IfSome (prepend_known window.old.held.items (R.remaining window.old.reader)) (λ xs.
        IsNext (IsEntry head.now) (after_entry head.now) xs
        (prepend_known window.new.held.items (R.remaining window.new.reader)) next)) }
    ensures fault { IfErr result IsFailure }
{
    window.fill(ENTRY_HEADER)?;
    let wanted = wanted_in(head, window.held());
    window.fill(wanted)?;
    if window.held().is_empty() {
        return Ok(None);
    }
    let record = read_entry(alloc, head, window.held())?;
    let span = span_in(head, window.held());
    window.skip(span)?;
    Ok(Some(record))
}

/// How many bytes stand before the first line feed, or in all.
#[tactic(auto, using(crate::proofs::Lines::line_stops, crate::proofs::Lines::line_goes_on))]
pub fn line_length(bytes: &[u8]) -> usize
    ensures { result ≡ length (line_in bytes.now) }
{
    for i in 0..bytes.len() {
        if bytes[i] == b'\n' {
            return i;
        }
    }
    bytes.len()
}

/// Whether the line at the front is held with its line feed.
pub fn holds_line(held: &[u8]) -> bool
    ensures { IsTrue result ↔ length (line_in held.now) < length held.now }
{
    line_length(held) < held.len()
}

/// Holds the line at the front with its line feed, more than a line may have, or all that there is.
pub fn fill_line<R: Read + Drop>(window: &mut Window<R>) -> Result<(), ReadFault>
    ensures keeps { OnOk result
        (Keeps (prepend_known window.old.held.items (R.remaining window.old.reader))
        (prepend_known window.new.held.items (R.remaining window.new.reader))) }
    ensures full { OnOk result (HoldsLine window.new.held.items
        ⊎ IsAtEnd (R.remaining window.new.reader)) }
    ensures fault { IfErr result IsFailure }
{
    'fill: while window.held().len() <= MAX_LINE {
        if line_length(window.held()) < window.held().len() || !window.read_more()? {
            return Ok(());
        }
    }
    Ok(())
}

/// The record of a line with this frame.
pub fn line_record(
    time: Option<Time>,
    direction: Option<Direction>,
    frame: Result<Bytes, Fault>,
) -> Record
    ensures link_type { result.link_type ≡ 248 }
    ensures lost { result.lost ≡ 0 }
    ensures time { result.time ≡ time }
    ensures direction { result.direction ≡ direction }
    ensures frame { result.frame ≡ frame }
{
    Record {
        time,
        direction,
        link_type: LINE_LINK,
        lost: 0,
        frame,
    }
}

/// Whether a byte may stand between hex digits: a space, a tab or a carriage return.
pub fn is_blank(byte: u8) -> bool
    ensures { result ≡ is_blank byte }
{
    byte == b' ' || byte == b'\t' || byte == b'\r'
}

/// The bytes of a line up to a comment, which `#` begins, without the blanks among them.
#[tactic(auto, using(crate::proofs::Digits::digits_stop, crate::proofs::Digits::digits_pass, crate::proofs::Digits::digits_keep, crate::proofs::Digits::digits_end))]
fn digits_of(alloc: Global, line: &[u8]) -> Result<Vec<u8>, AllocError>
    ensures { IfOk result (λ digits. digits.items ≡ digits_in line.now) }
{
    let mut digits = Vec::with_capacity(alloc, line.len())?;
    for byte in line {
        if *byte == b'#' {
            return Ok(digits);
        }
        if !is_blank(*byte) {
            digits.push(*byte)?;
        }
    }
    Ok(digits)
}

/// The digits of a line behind its lead.
fn line_digits(alloc: Global, line: &[u8], lead: &Lead) -> Result<Vec<u8>, AllocError>
    requires { (lead.now ≡ said.line_lead line.now) × (lead.now.length ≤ length line.now) }
    ensures { IfOk result (λ digits. digits.items ≡ digits_in (said_in line.now)) }
{
    digits_of(alloc, &line[lead.length..])
}

/// Reads the line that the bytes begin with. There is no record where it has nothing behind its lead but blanks and a comment.
pub fn read_line(alloc: Global, held: &[u8]) -> Result<Option<Record>, AllocError>
    ensures { IfOk result (IsLineFound held.now) }
{
    let length = line_length(held);
    if length > MAX_LINE {
        return Ok(Some(line_record(None, None, Err(Fault::TooLong))));
    }
    let line = &held[..length];
    let fields = fields_of(line);
    let lead = lead_by(line, &fields);
    let digits = line_digits(alloc, line, &lead)?;
    if digits.is_empty() {
        return Ok(None);
    }
    let ends = ends_in(line, &fields);
    Ok(Some(said_record(alloc, &lead, ends, &digits)?))
}

/// The record of a line with this lead that says these digits, of a datagram that went between these addresses.
fn said_record(
    alloc: Global,
    lead: &Lead,
    ends: Option<(IpAddr, IpAddr)>,
    digits: &[u8],
) -> Result<Record, AllocError>
    ensures lost { IfOk result (λ r. r.lost ≡ 0) }
    ensures time { IfOk result (λ r. r.time ≡ lead.now.time) }
    ensures direction { IfOk result (λ r. r.direction ≡ lead.now.direction) }
    ensures link_type { IfOk result (λ r. r.link_type ≡ said.link_by ends) }
    ensures frame { IfOk result (λ r. MatchResult (decode_of digits.now)
        (λ bytes. r.frame ≡ Ok (said.tags_of ends ++ bytes)) (λ _. r.frame ≡ Err NotHex)) }
{
    let frame = read_hex(alloc, digits)?;
    let mut record = line_record(lead.time, lead.direction, frame);
    let Some(ends) = ends else {
        return Ok(record);
    };
    record.link_type = EXPORTED_LINK;
    if let Ok(bytes) = &record.frame {
        record.frame = Ok(tagged(alloc, ends, bytes)?);
    }
    Ok(record)
}

/// A datagram behind the tags of the addresses between which it went.
fn tagged(alloc: Global, ends: (IpAddr, IpAddr), bytes: &[u8]) -> Result<Bytes, AllocError>
    ensures { IfOk result (λ frame. frame ≡ said.tags_of (Some ends) ++ bytes.now) }
{
    let mut frame = Vec::new(alloc);
    put_tags(&mut frame, ends)?;
    frame.extend_from_slice(bytes)?;
    Ok(Bytes::from_vec(frame)?)
}

/// The bytes that hex text says.
fn read_hex(alloc: Global, text: &[u8]) -> Result<Result<Bytes, Fault>, AllocError>
    ensures { IfOk result (λ frame.
        MatchResult (decode_of text.now) (λ bytes. frame ≡ Ok bytes) (λ _. frame ≡ Err NotHex)) }
{
    match hex::decode(alloc, text) {
        Ok(bytes) => Ok(Ok(Bytes::from_vec(bytes)?)),
        Err(FromHexError::OutOfMemory) => Err(AllocError),
        Err(_) => Ok(Err(Fault::NotHex)),
    }
}

/// Drops the line at the front, with its line feed.
pub fn skip_line<R: Read + Drop>(window: &mut Window<R>) -> Result<(), ReadFault>
    ensures skips { OnOk result
        (IfSome (prepend_known window.old.held.items (R.remaining window.old.reader)) (λ xs.
        Keeps (Some (after_line xs)) (prepend_known window.new.held.items
        (R.remaining window.new.reader)))) }
    ensures fault { IfErr result IsFailure }
{
    for _ in 0..u64::MAX {
        let held = window.held().len();
        let length = line_length(window.held());
        if length < held {
            window.advance(length + 1);
            return Ok(());
        }
        window.advance(held);
        if !window.read_more()? {
            return Ok(());
        }
    }
    Err(ReadFault::Input(None))
}

/// Takes the line at the front.
/// Precondition: it is held.
pub fn take_single<R: Read + Drop>(
    alloc: Global,
    window: &mut Window<R>,
) -> Result<Option<Record>, ReadFault>
    requires { (0 < length window.old.held.items) × (HoldsLine window.old.held.items
        ⊎ IsAtEnd (R.remaining window.old.reader)) }
    ensures takes { IfOk result
        (λ found. IfSome (prepend_known window.old.held.items (R.remaining window.old.reader)) (λ xs.
        IsLineFound xs found × Keeps (Some (after_line xs))
        (prepend_known window.new.held.items (R.remaining window.new.reader)))) }
    ensures fault { IfErr result IsFailure }
{
    let found = read_line(alloc, window.held())?;
    skip_line(window)?;
    Ok(found)
}
