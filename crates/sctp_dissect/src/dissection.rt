//! What a datagram shows: its header, and item by item its chunks, read or raw.

ghost use Rattle.std.specs.Prelude.{◌≡◌, ◌≢◌, ◌↔◌, ◌≤◌, ◌<◌, ℕ, List, [], length, drop, MatchOption, IsTrue, IfOk, IfErr, IfSome, IsSomeAnd, Some};
ghost use Rattle.sctp_util.specs.declared.error.Error.TheVariants.{ErrOutOfMemory};
ghost use Rattle.sctp_util.specs.Outcome.{OrMemory, GivesUnlessMemory};
ghost use Rattle.sctp_util.specs.Walk.{Walks};
ghost use Rattle.sctp_chunks.specs.Kind.{wire_of, IsFreshKind};
ghost use Rattle.sctp_chunks.specs.Wire.{Wire};
ghost use Rattle.sctp_packets.specs.Packet.{Parts, ReadsPacket, Steps, after};
ghost use Rattle.sctp_packets.specs.Fault.{PlaceFault};
ghost use Rattle.sctp_dissect.specs.Dissection.{IsWhole, span, ReadsHeader, IsRaw, Reads, Shows, Stops, IsShort, IsPacket, shown_bytes};

use bytes::Bytes;
use sctp_chunks::chunk::Chunk;
use sctp_chunks::chunk::chunk_header::CHUNK_HEADER_SIZE;
use sctp_chunks::chunk::chunk_kind::ChunkKind;
use sctp_packets::packet::{CommonHeader, PACKET_HEADER_SIZE};
use sctp_util::error::Error;
use sctp_util::field::{read_u16, read_u32, read_u32_le};
use sctp_util::util::{Checksum, ChunkType, get_padding_size};
use std::alloc::{AllocError, Global};

/// The header of a datagram, and its checksum (RFC 4960 3.1).
#[derive(Debug, Drop)]
pub struct Header {
    /// The twelve bytes.
    pub bytes: Bytes,
    /// The ports and the verification tag.
    pub fields: CommonHeader,
    /// The checksum that stands in the datagram.
    pub checksum: u32,
    /// The checksum of the datagram's bytes.
    pub computed: u32,
}

/// A chunk that is refused by the reader of packets.
#[derive(Debug, Drop)]
pub struct RawChunk {
    pub typ: ChunkType,
    pub flags: u8,
    /// The length that the chunk declares: four bytes of header, and its value.
    pub length: u16,
    pub value: Bytes,
    /// Why it is refused.
    pub refusal: Error,
}

/// What a chunk is read as.
#[derive(Debug, Drop)]
pub enum Reading {
    /// As the reader of packets reads it.
    Strict(ChunkKind),
    /// As it stands, where the reader of packets refuses it.
    Raw(RawChunk),
}

/// A chunk and its bytes.
#[derive(Debug, Drop)]
pub struct Item {
    /// The chunk's bytes, and those of its padding that are there.
    pub bytes: Bytes,
    pub reading: Reading,
}

/// Why bytes are left over.
#[derive(Clone, Copy, Debug, PartialEq, Eq)]
pub enum Fault {
    /// There are fewer than the twelve bytes of a packet's header.
    ShortPacket,
    /// There are fewer than the four bytes of a chunk's header.
    ShortHeader,
    /// The next chunk declares a length under four.
    LengthTooSmall,
    /// The next chunk declares more bytes than there are.
    LengthPastEnd,
}

/// What a datagram shows.
#[derive(Debug, Drop)]
pub struct Dissection {
    /// The header, where there are twelve bytes.
    pub header: Option<Header>,
    pub items: Vec<Item>,
    /// The bytes behind the last item.
    pub rest: Bytes,
    /// Why they are left over. There is none where no bytes are.
    pub fault: Option<Fault>,
}

impl Header {
    /// Whether the checksum that stands in the datagram is that of its bytes.
    pub fn has_right_checksum(&self) -> bool
        ensures { IsTrue result ↔ (self.now.checksum ≡ self.now.computed) }
    {
        self.checksum == self.computed
    }
}

/// Reads the header of a datagram.
fn read_header<C: Checksum>(raw: &Bytes, checksum: &C) -> Result<Header, AllocError>
    requires { 12 ≤ length raw.now }
    ensures { IfOk result (ReadsHeader (C.sum checksum.now) raw.now) }
{
    let bytes = raw.as_slice();
    let fields = CommonHeader {
        source_port: read_u16(bytes, 0),
        destination_port: read_u16(bytes, 2),
        verification_tag: read_u32(bytes, 4),
    };
    let stands = read_u32_le(bytes, 8);
    let computed = checksum.checksum(&bytes[..8], &bytes[PACKET_HEADER_SIZE..]);
    let mut bytes = raw.clone()?;
    bytes.truncate(PACKET_HEADER_SIZE);
    Ok(Header {
        bytes,
        fields,
        checksum: stands,
        computed,
    })
}

/// Reads the chunk at the front as the reader of packets does where it comes to it.
fn read_strict(alloc: Global, rest: &Bytes) -> Result<ChunkKind, Error>
    requires { IsWhole rest.now }
    ensures found { IfOk result (λ k. Steps rest.now (wire_of k)) }
    ensures fresh { IfOk result IsFreshKind }
    ensures only { (w : Wire) → Steps rest.now w → GivesUnlessMemory result (λ k. wire_of k ≡ w) }
    ensures fault { IfErr result (λ e. OrMemory e (PlaceFault e rest.now)) }
{
    let chunk = ChunkKind::unmarshal(alloc, rest)?;
    let length = read_u16(rest.as_slice(), 2) as usize;
    let span = length + get_padding_size(length);
    if rest.len() < span {
        return Err(Error::ErrParseSctpChunkNotEnoughData);
    }
    Ok(chunk)
}

/// The chunk at the front, which is refused.
#[tactic(auto, unfolding(sctp_chunks::specs::Framing::value_at))]
fn read_raw(rest: &Bytes, refusal: Error) -> Result<RawChunk, AllocError>
    requires whole { IsWhole rest.now }
    requires refusal { PlaceFault refusal rest.now }
    requires refused { (w : Wire) → Steps rest.now w → ⊥ }
    ensures { IfOk result (IsRaw rest.now) }
{
    let bytes = rest.as_slice();
    let length = read_u16(bytes, 2);
    Ok(RawChunk {
        typ: ChunkType(bytes[0]),
        flags: bytes[1],
        length,
        value: rest.slice(CHUNK_HEADER_SIZE..length as usize)?,
        refusal,
    })
}

/// What the chunk at the front is read as.
fn read_chunk(alloc: Global, rest: &Bytes) -> Result<Reading, AllocError>
    requires { IsWhole rest.now }
    ensures { IfOk result (Reads rest.now) }
{
    match read_strict(alloc, rest) {
        Ok(chunk) => Ok(Reading::Strict(chunk)),
        Err(Error::ErrOutOfMemory) => Err(AllocError),
        Err(refusal) => Ok(Reading::Raw(read_raw(rest, refusal)?)),
    }
}

/// The chunk at the front, and its bytes.
#[tactic(auto, unfolding(crate::specs::Dissection::span))]
fn read_item(alloc: Global, rest: &Bytes) -> Result<Item, AllocError>
    requires { IsWhole rest.now }
    ensures { IfOk result (Shows rest.now) }
{
    let reading = read_chunk(alloc, rest)?;
    let length = read_u16(rest.as_slice(), 2) as usize;
    let mut bytes = rest.clone()?;
    bytes.truncate(length + get_padding_size(length));
    Ok(Item { bytes, reading })
}

/// Why no item stands at the front, if none does.
fn fault_at(rest: &[u8]) -> Option<Fault>
    requires { 0 < length rest.now }
    ensures { MatchOption result (IsWhole rest.now) (λ fault. Stops (Some fault) rest.now) }
{
    if rest.len() < CHUNK_HEADER_SIZE {
        return Some(Fault::ShortHeader);
    }
    let length = read_u16(rest, 2) as usize;
    if length < CHUNK_HEADER_SIZE {
        return Some(Fault::LengthTooSmall);
    }
    if rest.len() < length {
        return Some(Fault::LengthPastEnd);
    }
    None
}

/// The items, the bytes behind them, and why those are left over.
fn read_items(alloc: Global, raw: Bytes) -> Result<(Vec<Item>, Bytes, Option<Fault>), AllocError>
    ensures items { IfOk result (λ x. Walks Shows after raw x.0.items x.1) }
    ensures fault { IfOk result (λ x. Stops x.2 x.1) }
{
    let mut items = Vec::new(alloc);
    let mut rest = raw;
    'walk: while !rest.is_empty() {
        if let Some(fault) = fault_at(rest.as_slice()) {
            return Ok((items, rest, Some(fault)));
        }
        let item = read_item(alloc, &rest)?;
        let length = item.bytes.len();
        items.push(item)?;
        rest.advance(length);
    }
    Ok((items, rest, None))
}

/// Looks at a datagram, whatever its bytes: the header, then each chunk by its declared length, read or raw, up to where no chunk
/// begins. Neither a wrong checksum nor a refused chunk stops it; under twelve bytes all are `rest`. The only refusal is for memory.
pub fn dissect<C: Checksum>(
    alloc: Global,
    raw: &Bytes,
    checksum: &C,
) -> Result<Dissection, AllocError>
    // Nothing is lost, and nothing shown twice.
    ensures joins { IfOk result (λ d. shown_bytes d ≡ raw.now) }
    ensures short { length raw.now < 12 → IfOk result (IsShort raw.now) }
    ensures header { 12 ≤ length raw.now
        → IfOk result (λ d. IsSomeAnd d.header (ReadsHeader (C.sum checksum.now) raw.now)) }
    ensures items { 12 ≤ length raw.now
        → IfOk result (λ d. Walks Shows after (drop 12 raw.now) d.items.items d.rest) }
    ensures fault { 12 ≤ length raw.now → IfOk result (λ d. Stops d.fault d.rest) }
    // A datagram is a packet exactly where each item is read and the checksum is right.
    ensures packet { IfOk result (λ d.
        (p : Parts) → ReadsPacket (C.sum checksum.now) raw.now p ↔ IsPacket d p) }
{
    if raw.len() < PACKET_HEADER_SIZE {
        return Ok(Dissection {
            header: None,
            items: Vec::new(alloc),
            rest: raw.clone()?,
            fault: Some(Fault::ShortPacket),
        });
    }
    let header = read_header(raw, checksum)?;
    let mut body = raw.clone()?;
    body.advance(PACKET_HEADER_SIZE);
    let (items, rest, fault) = read_items(alloc, body)?;
    Ok(Dissection {
        header: Some(header),
        items,
        rest,
        fault,
    })
}
