//! Which packets are shown: those that have what is asked for.

ghost use Rattle.std.specs.Prelude.{◌≡◌, true};
ghost use Rattle.std.specs.List.{list_any};
ghost use Rattle.sctp_show.specs.Filter as filters;

use crate::chunk_text::type_of;
use crate::cut::missing_of;
use crate::names::ChunkName;
use crate::rules::breaks_rule;
use crate::scene::{Scene, Span, ask_addresses, ask_times, is_span_asked};
use sctp_dissect::dissection::{Dissection, Fault, Header, Item, Reading};
use sctp_serial::serial::distance;
use sctp_util::field::{read_u16, read_u32};
use std::alloc::{AllocError, Global};

/// TSNs from one to another, going up, and from 2^32 - 1 on to 0.
#[derive(Clone, Copy, Debug, PartialEq, Eq)]
pub struct TsnRange {
    pub first: u32,
    pub last: u32,
}

/// What is asked of packets: of each list one of its numbers, if it has any. What is asked of chunks, one and the same chunk has to meet.
#[derive(Debug, Drop)]
pub struct Filter {
    /// Ports, of either end.
    pub ports: Vec<u16>,
    /// Verification tags.
    pub tags: Vec<u32>,
    /// Types of chunks.
    pub types: Vec<u8>,
    /// Stream identifiers of DATA and I-DATA.
    pub streams: Vec<u16>,
    /// TSNs of DATA and I-DATA.
    pub tsns: Vec<TsnRange>,
    /// Payload protocol identifiers of DATA and I-DATA.
    pub payload_types: Vec<u32>,
    /// Addresses, of either end, of the source, and of the destination.
    pub addresses: Vec<Span>,
    pub sources: Vec<Span>,
    pub destinations: Vec<Span>,
    /// Times, in nanoseconds since the first record.
    pub times: Vec<Span>,
    /// Whether only packets are asked for that have a refused chunk or bytes left over.
    pub only_refused: bool,
    /// Whether only packets are asked for whose checksum is wrong.
    pub only_wrong: bool,
}

/// Whether the bytes of a chunk are DATA or I-DATA, with all of its fixed part.
pub fn is_data(bytes: &[u8]) -> bool
    ensures { result ≡ filters.is_data bytes.now }
{
    (bytes.len() >= 16 && bytes[0] == 0) || (bytes.len() >= 20 && bytes[0] == 64)
}

/// The TSN of a chunk, if it has one.
fn tsn_of(bytes: &[u8]) -> Option<u32>
    ensures { result ≡ filters.tsn_of bytes.now }
{
    if is_data(bytes) {
        return Some(read_u32(bytes, 4));
    }
    None
}

/// The stream of a chunk, if it has one.
fn stream_of(bytes: &[u8]) -> Option<u16>
    ensures { result ≡ filters.stream_of bytes.now }
{
    if is_data(bytes) {
        return Some(read_u16(bytes, 8));
    }
    None
}

/// The payload protocol identifier of a chunk, if it has one. Of I-DATA only a first fragment has one (RFC 8260 2.1).
pub fn payload_type_of(bytes: &[u8]) -> Option<u32>
    ensures { result ≡ filters.payload_type_of bytes.now }
{
    if !is_data(bytes) {
        return None;
    }
    if bytes[0] == 0 {
        return Some(read_u32(bytes, 12));
    }
    if bytes[1] / 2 % 2 == 1 {
        return Some(read_u32(bytes, 16));
    }
    None
}

fn is_byte_asked(numbers: &[u8], number: u8) -> bool
    ensures { result ≡ filters.is_asked numbers.now number }
{
    numbers.is_empty() || numbers.contains(&number)
}

fn is_short_asked(numbers: &[u16], number: u16) -> bool
    ensures { result ≡ filters.is_asked numbers.now number }
{
    numbers.is_empty() || numbers.contains(&number)
}

fn is_word_asked(numbers: &[u32], number: u32) -> bool
    ensures { result ≡ filters.is_asked numbers.now number }
{
    numbers.is_empty() || numbers.contains(&number)
}

fn is_stream_asked(numbers: &[u16], number: Option<u16>) -> bool
    ensures { result ≡ filters.is_asked_of numbers.now number }
{
    match number {
        None => numbers.is_empty(),
        Some(number) => is_short_asked(numbers, number),
    }
}

fn is_payload_type_asked(numbers: &[u32], number: Option<u32>) -> bool
    ensures { result ≡ filters.is_asked_of numbers.now number }
{
    match number {
        None => numbers.is_empty(),
        Some(number) => is_word_asked(numbers, number),
    }
}

/// The number that a text says, in decimal digits, or in hex digits behind `0x`.
fn number_in(text: &str) -> Option<u32> {
    match text.strip_prefix("0x") {
        Some(digits) => u32::from_str_radix(digits, 16).ok(),
        None => text.parse::<u32>().ok(),
    }
}

/// Asks for a number of 32 bits, if the text says one.
fn ask_word(numbers: &mut Vec<u32>, text: &str) -> Result<bool, AllocError> {
    let Some(number) = number_in(text) else {
        return Ok(false);
    };
    numbers.push(number)?;
    Ok(true)
}

/// Asks for a number of 16 bits, if the text says one.
fn ask_short(numbers: &mut Vec<u16>, text: &str) -> Result<bool, AllocError> {
    let Some(number) = number_in(text).and_then(|number| u16::try_from(number).ok()) else {
        return Ok(false);
    };
    numbers.push(number)?;
    Ok(true)
}

/// Asks for a type of chunk, if the text is its name or its number.
fn ask_type(numbers: &mut Vec<u8>, text: &str) -> Result<bool, AllocError> {
    let number = number_in(text).and_then(|number| u8::try_from(number).ok());
    let Some(number) = number.or(ChunkName::of(text)) else {
        return Ok(false);
    };
    numbers.push(number)?;
    Ok(true)
}

/// Asks for a TSN, or for those from one to another, if the text says so.
fn ask_range(ranges: &mut Vec<TsnRange>, text: &str) -> Result<bool, AllocError> {
    let (first, last) = text.split_once('-').unwrap_or((text, text));
    let (Some(first), Some(last)) = (number_in(first), number_in(last)) else {
        return Ok(false);
    };
    ranges.push(TsnRange { first, last })?;
    Ok(true)
}

impl TsnRange {
    /// Whether a TSN is one of these.
    pub fn contains(&self, tsn: u32) -> bool
        ensures { result ≡ filters.is_in_range tsn self.now }
    {
        distance(self.first, tsn) <= distance(self.first, self.last)
    }
}

/// Whether a TSN is in one of the ranges.
fn is_in_some(ranges: &[TsnRange], tsn: u32) -> bool
    ensures { result ≡ list_any (filters.is_in_range tsn) ranges.now }
{
    ranges.iter().any(|range| range.contains(tsn))
}

fn is_tsn_asked(ranges: &[TsnRange], tsn: Option<u32>) -> bool
    ensures { result ≡ filters.is_tsn_asked ranges.now tsn }
{
    match tsn {
        None => ranges.is_empty(),
        Some(tsn) => ranges.is_empty() || is_in_some(ranges, tsn),
    }
}

/// Whether an item is a chunk that the reader of packets does not read, and that breaks a rule.
fn breaks(item: &Item) -> bool
    ensures { result ≡ filters.breaks item.now.reading }
{
    match &item.reading {
        Reading::Raw(raw) => breaks_rule(raw),
        Reading::Strict(_) => false,
    }
}

/// Whether the bytes of a chunk are DATA or I-DATA without user data, by the length that it declares (RFC 9260 6.2).
fn is_empty_data(bytes: &[u8]) -> bool
    ensures { result ≡ filters.is_empty_data bytes.now }
{
    is_data(bytes) && read_u16(bytes, 2) == if bytes[0] == 0 { 16 } else { 20 }
}

/// Whether an item breaks a rule, and is there to its end, or of a packet of which no bytes are missing: then it is refused.
pub fn is_bad(missing: usize, item: &Item) -> bool
    ensures { result ≡ filters.is_bad missing item.now }
{
    (breaks(item) || is_empty_data(item.bytes.as_slice()))
        && (missing == 0 || missing_of(item) == 0)
}

/// Whether one of the items is such a chunk.
fn has_bad(missing: usize, items: &[Item]) -> bool
    ensures { result ≡ list_any (filters.is_bad missing) items.now }
{
    items.iter().any(|item| is_bad(missing, item))
}

/// Whether bytes are left over that begin no chunk, and no header that is cut off.
pub fn is_left_over(missing: usize, fault: Option<Fault>) -> bool
    ensures { result ≡ filters.is_left_over missing fault }
{
    match fault {
        None => false,
        Some(Fault::ShortPacket) | Some(Fault::ShortHeader) => missing == 0,
        Some(Fault::LengthTooSmall) | Some(Fault::LengthPastEnd) => true,
    }
}

/// Whether a chunk is refused, or bytes are left over, of a packet of which so many bytes are missing.
pub fn is_refused(missing: usize, seen: &Dissection) -> bool
    ensures { result ≡ filters.is_refused missing seen.now }
{
    is_left_over(missing, seen.fault) || has_bad(missing, &seen.items)
}

impl Filter {
    /// Asks for nothing, so that every packet passes.
    pub fn new(alloc: Global) -> Self
        ensures { filters.asks_nothing result ≡ true }
    {
        Filter {
            ports: Vec::new(alloc),
            tags: Vec::new(alloc),
            types: Vec::new(alloc),
            streams: Vec::new(alloc),
            tsns: Vec::new(alloc),
            payload_types: Vec::new(alloc),
            addresses: Vec::new(alloc),
            sources: Vec::new(alloc),
            destinations: Vec::new(alloc),
            times: Vec::new(alloc),
            only_refused: false,
            only_wrong: false,
        }
    }

    /// Asks for what a word says: `refused`, `refused=checksum`, or one of `port`, `tag`, `type`, `stream`, `tsn`, `ppid`, `addr`, `src`, `dst`
    /// and `time`, `=`, and values with commas between them. Answers whether it says that.
    pub fn ask(&mut self, word: &str) -> Result<bool, AllocError> {
        if word == "refused" {
            self.only_refused = true;
            return Ok(true);
        }
        let Some((key, values)) = word.split_once('=') else {
            return Ok(false);
        };
        for value in values.split(',') {
            if !self.ask_value(key, value)? {
                return Ok(false);
            }
        }
        Ok(true)
    }

    /// Asks for one value.
    fn ask_value(&mut self, key: &str, value: &str) -> Result<bool, AllocError> {
        match key {
            "port" => ask_short(&mut self.ports, value),
            "tag" => ask_word(&mut self.tags, value),
            "type" => ask_type(&mut self.types, value),
            "stream" => ask_short(&mut self.streams, value),
            "tsn" => ask_range(&mut self.tsns, value),
            "ppid" => ask_word(&mut self.payload_types, value),
            "addr" => ask_addresses(&mut self.addresses, value),
            "src" => ask_addresses(&mut self.sources, value),
            "dst" => ask_addresses(&mut self.destinations, value),
            "time" => ask_times(&mut self.times, value),
            "refused" => Ok(self.ask_refused(value)),
            _ => Ok(false),
        }
    }

    /// Asks for packets that are refused for this: `checksum` is the one that there is.
    fn ask_refused(&mut self, value: &str) -> bool {
        if value != "checksum" {
            return false;
        }
        self.only_wrong = true;
        true
    }

    /// Whether a chunk meets all that is asked of chunks.
    fn meets(&self, item: &Item) -> bool
        ensures { result ≡ filters.meets self.now item.now }
    {
        let bytes = item.bytes.as_slice();
        is_byte_asked(&self.types, type_of(item))
            && is_stream_asked(&self.streams, stream_of(bytes))
            && is_tsn_asked(&self.tsns, tsn_of(bytes))
            && is_payload_type_asked(&self.payload_types, payload_type_of(bytes))
    }

    /// Whether nothing is asked of chunks.
    fn asks_no_chunk(&self) -> bool
        ensures { result ≡ filters.asks_no_chunk self.now }
    {
        self.types.is_empty()
            && self.streams.is_empty()
            && self.tsns.is_empty()
            && self.payload_types.is_empty()
    }

    /// Whether a header has a port and a tag that are asked for.
    fn has_asked_header(&self, header: &Option<Header>) -> bool
        ensures { result ≡ filters.has_asked_header self.now header.now }
    {
        let Some(header) = header else {
            return self.ports.is_empty() && self.tags.is_empty();
        };
        let fields = header.fields;
        (is_short_asked(&self.ports, fields.source_port)
            || is_short_asked(&self.ports, fields.destination_port))
            && is_word_asked(&self.tags, fields.verification_tag)
    }

    /// Whether one of the items meets all that is asked of chunks.
    fn is_met_by(&self, items: &[Item]) -> bool
        ensures { result ≡ list_any (filters.meets self.now) items.now }
    {
        items.iter().any(|item| self.meets(item))
    }

    /// Whether a scene has the addresses and the time that are asked for.
    fn has_asked_scene(&self, scene: &Scene) -> bool
        ensures { result ≡ filters.has_asked_scene self.now scene.now }
    {
        (is_span_asked(&self.addresses, scene.source)
            || is_span_asked(&self.addresses, scene.destination))
            && is_span_asked(&self.sources, scene.source)
            && is_span_asked(&self.destinations, scene.destination)
            && is_span_asked(&self.times, scene.since)
    }

    /// Whether nothing is asked of scenes.
    fn asks_no_scene(&self) -> bool
        ensures { result ≡ filters.asks_no_scene self.now }
    {
        self.addresses.is_empty()
            && self.sources.is_empty()
            && self.destinations.is_empty()
            && self.times.is_empty()
    }

    /// Whether a packet that was captured so has what is asked for. It takes no memory.
    pub fn passes(&self, seen: &Dissection, scene: &Scene) -> bool
        ensures { result ≡ filters.passes self.now scene.now seen.now }
    {
        self.has_asked_header(&seen.header)
            && (self.asks_no_chunk() || self.is_met_by(&seen.items))
            && (!self.only_refused || is_refused(scene.missing, seen))
            && (!self.only_wrong || scene.is_wrong)
            && self.has_asked_scene(scene)
    }

    /// Whether nothing is asked for.
    pub fn asks_nothing(&self) -> bool
        ensures { result ≡ filters.asks_nothing self.now }
    {
        self.ports.is_empty()
            && self.tags.is_empty()
            && self.asks_no_chunk()
            && !self.only_refused
            && !self.only_wrong
            && self.asks_no_scene()
    }
}
