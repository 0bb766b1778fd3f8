//! Packets: a header of 12 bytes, then chunks, each with zeros behind it up to a multiple of four (RFC 4960 3).
//! The header is source port and destination port, two bytes each, the verification tag and the checksum, four
//! bytes each. The checksum stands with its lowest byte first, every other number with its highest.

ghost use Rattle.std.specs.Prelude.{◌≡◌, ◌<◌, ◌^◌, ◌+◌, ◌-◌, ◌++◌, ℕ, min, List, true, length, map, drop, ◌⊎◌, IfOk, IfErr, IsOkUnless, OnOk, OnErr, take, ◌≤◌, vec_len, vec_capacity};
ghost use Rattle.std.specs.List.{AllByRecursion};
ghost use Rattle.std.specs.Prelude.{[]};
ghost use Rattle.sctp_util.specs.Field.{le32, u16_at, u32_at};
ghost use Rattle.sctp_util.specs.declared.error.Error.TheVariants.{ErrOutOfMemory, ErrParseSctpChunkNotEnoughData};
ghost use Rattle.sctp_util.specs.Outcome.{OrMemory, GivesUnlessMemory};
ghost use Rattle.sctp_chunks.specs.Check.{EncodingFault, IsEncodingError};
ghost use Rattle.sctp_chunks.specs.Kind.{wire_of, IsFreshKind};
ghost use Rattle.sctp_chunks.specs.Fits.{Fits, Canonical};
ghost use Rattle.sctp_chunks.specs.Wire.{Wire, HasEncoding};
ghost use Rattle.sctp_chunks.specs.Framing.{declared_length};
ghost use Rattle.sctp_util.specs.Padding.{padded_length, four_zeroes};
ghost use Rattle.sctp_util.specs.Walk.{Walks};
ghost use Rattle.sctp_packets.specs.Packet.{Parts, parts_of, IsCanonical, IsHeaded, ReadsPacket, Steps, TakesChunk, after, padded_encoding, body_of, head_encoding, head_of, HavePacketEncoding, packet_encoding, FitsParts};
ghost use Rattle.sctp_packets.specs.Valid.{is_init, has_init, IsValid, InitFault, ValidFault};
ghost use Rattle.sctp_packets.specs.Fault.{HeadFault, PacketFault, PlaceFault, WalkFault, FirstEncodingFault, PacketEncodingFault, LacksRoom};

pub mod partial_decode;
pub mod reader;
pub mod writer;

use bytes::{BufMut, Bytes, BytesMut};
pub use partial_decode::PartialDecode;
use sctp_chunks::chunk::Chunk;
use sctp_chunks::chunk::chunk_header::CHUNK_HEADER_SIZE;
use sctp_chunks::chunk::chunk_kind::ChunkKind;
use sctp_util::error::{Error, Result};
use sctp_util::field::{put_u16, put_u32, read_u16, read_u32, read_u32_le, u32_le_bytes};
use sctp_util::util::{Checksum, get_padding_size};
use std::alloc::Global;
use std::fmt;

/// The bytes of a header.
pub const PACKET_HEADER_SIZE: usize = 12;

// No IP datagram has more bytes (RFC 791 3.1).
const MAX_DATAGRAM: usize = 65_535;

// What a packet over IPv4 has at most until a greater path MTU is found (RFC 8831 5).
const USUAL_PACKET: usize = 1_200;

// The bytes of a SACK without blocks (RFC 4960 3.3.4); a chunk of DATA has more.
const USUAL_CHUNK: usize = 16;

// How many chunks a list that is read has room for at first, at most.
const FIRST_CHUNKS: usize = 4;

/// What the header says beside the checksum (RFC 4960 3.1).
#[derive(Clone, Copy, Debug, PartialEq, Eq)]
pub struct CommonHeader {
    /// The sender's port, for which 0 is not allowed.
    pub source_port: u16,
    /// The receiver's port, for which 0 is not allowed.
    pub destination_port: u16,
    /// The tag that the receiver gave to its peer, by which packets of an old
    /// association are told; 0 with an INIT (RFC 4960 8.5).
    pub verification_tag: u32,
}

/// A header and the chunks behind it (RFC 4960 3). There may be none.
#[derive(Debug, Drop)]
pub struct Packet {
    pub common_header: CommonHeader,
    pub chunks: Vec<ChunkKind>,
}

impl fmt::Display for Packet {
    fn fmt<W: fmt::Write>(&self, f: &mut fmt::Formatter<W>) -> fmt::Result {
        let header = &self.common_header;
        write!(f, "Packet:\n        source_port: {}", header.source_port)?;
        write!(f, "\n        destination_port: {}", header.destination_port)?;
        write!(f, "\n        verification_tag: {}", header.verification_tag)?;
        f.write_str("\n        ")?;
        for chunk in &self.chunks {
            write!(f, "Chunk: {chunk}")?;
        }
        Ok(())
    }
}

/// Reads the chunk that the bytes begin with, and gives how many bytes it takes with its padding, which has to be there.
/// Refuses with `ErrParseSctpChunkNotEnoughData`, or as `ChunkKind::unmarshal` does.
/// Precondition: there are bytes.
#[inline]
fn read_front(alloc: Global, rest: &Bytes) -> Result<(ChunkKind, usize)>
    requires { 0 < length rest.now }
    ensures found { IfOk result (λ r. Steps rest.now (wire_of r.0)) }
    ensures rewritable { IfOk result (λ r. HasEncoding (wire_of r.0)) }
    ensures canonical { IfOk result (λ r. Canonical (wire_of r.0)) }
    ensures fresh { IfOk result (λ r. IsFreshKind r.0) }
    ensures length { IfOk result (λ r. r.1 ≡ padded_length (declared_length rest.now)) }
    ensures only { (w : Wire) → Steps rest.now w
        → GivesUnlessMemory result (λ r. wire_of r.0 ≡ w) }
    ensures fault { IfErr result (λ e. OrMemory e (PlaceFault e rest.now)) }
{
    if rest.len() < CHUNK_HEADER_SIZE {
        return Err(Error::ErrParseSctpChunkNotEnoughData);
    }
    let chunk = ChunkKind::unmarshal(alloc, rest)?;
    let length = read_u16(rest.as_slice(), 2) as usize;
    let length = length + get_padding_size(length);
    if rest.len() < length {
        return Err(cut_off(chunk));
    }
    Ok((chunk, length))
}

// Drops a chunk whose padding is not there, and answers the refusal. It stands apart, so that other chunks are moved as a whole.
#[cold]
#[inline(never)]
fn cut_off(chunk: ChunkKind) -> Error
    ensures { result ≡ ErrParseSctpChunkNotEnoughData }
{
    drop(chunk);
    Error::ErrParseSctpChunkNotEnoughData
}

/// Reads the chunk at the front to the end of the list, and gives how many bytes it takes with its padding. Refuses as `read_front`
/// does; the list is as it was then.
/// Precondition: there are bytes, and the list has room.
fn read_step(alloc: Global, rest: &Bytes, chunks: &mut Vec<ChunkKind>) -> Result<usize>
    requires bytes { 0 < length rest.now }
    requires room { vec_len chunks.old < vec_capacity chunks.old }
    ensures found { OnOk result (TakesChunk rest.now chunks.old.items chunks.new.items) }
    ensures length { IfOk result (λ n. n ≡ padded_length (declared_length rest.now)) }
    ensures only { (w : Wire) → Steps rest.now w → IsOkUnless result ErrOutOfMemory }
    ensures err { OnErr result (chunks.new.items ≡ chunks.old.items) }
    ensures fault { IfErr result (λ e. OrMemory e (PlaceFault e rest.now)) }
{
    let (chunk, length) = read_front(alloc, rest)?;
    chunks.push_reserved(chunk);
    Ok(length)
}

/// Reads chunks up to the end of the bytes. Refuses as `read_step` does at a place that the walk comes to.
fn read_chunks(alloc: Global, raw: Bytes) -> Result<Vec<ChunkKind>>
    ensures found { IfOk result (λ v. Walks Steps after raw (map wire_of v.items) []) }
    ensures only { (ws : List Wire) → Walks Steps after raw ws []
        → GivesUnlessMemory result (λ v. map wire_of v.items ≡ ws) }
    ensures fault { IfErr result (λ e. OrMemory e (WalkFault e raw)) }
    ensures rewritable { IfOk result (λ v. AllByRecursion HasEncoding (map wire_of v.items)) }
    ensures canonical { IfOk result (λ v. AllByRecursion Canonical (map wire_of v.items)) }
    ensures fresh { IfOk result (λ v. AllByRecursion IsFreshKind v.items) }
{
    let mut chunks = Vec::with_capacity(alloc, (raw.len() / USUAL_CHUNK).min(FIRST_CHUNKS))?;
    let mut rest = raw;
    'walk: while !rest.is_empty() {
        chunks.reserve(1)?;
        let length = read_step(alloc, &rest, &mut chunks)?;
        rest.advance(length);
    }
    Ok(chunks)
}

/// Reads the header and tests the checksum. Gives the header and the bytes after it.
/// Refuses with `ErrPacketRawTooSmall`, `ErrChecksumMismatch`, or for memory.
fn open_packet<C: Checksum>(raw: &Bytes, checksum: &C) -> Result<(CommonHeader, Bytes)>
    ensures headed { IfOk result (λ x. IsHeaded (C.sum checksum.now) raw.now) }
    ensures source_port { IfOk result (λ x. x.0.source_port ≡ u16_at raw.now 0) }
    ensures destination_port { IfOk result (λ x. x.0.destination_port ≡ u16_at raw.now 2) }
    ensures verification_tag { IfOk result (λ x. x.0.verification_tag ≡ u32_at raw.now 4) }
    ensures rest { IfOk result (λ x. x.1 ≡ drop 12 raw.now) }
    ensures only { IsHeaded (C.sum checksum.now) raw.now → IsOkUnless result ErrOutOfMemory }
    ensures fault { IfErr result (λ e. OrMemory e (HeadFault (C.sum checksum.now) e raw.now)) }
{
    let bytes = raw.as_slice();
    if bytes.len() < PACKET_HEADER_SIZE {
        return Err(Error::ErrPacketRawTooSmall);
    }
    let theirs = read_u32_le(bytes, 8);
    let ours = checksum.checksum(&bytes[..8], &bytes[PACKET_HEADER_SIZE..]);
    if theirs != ours {
        return Err(Error::ErrChecksumMismatch);
    }
    let header = CommonHeader {
        source_port: read_u16(bytes, 0),
        destination_port: read_u16(bytes, 2),
        verification_tag: read_u32(bytes, 4),
    };
    let mut rest = raw.clone()?;
    rest.advance(PACKET_HEADER_SIZE);
    Ok((header, rest))
}

/// Appends a chunk and its padding. Refuses as `Chunk::marshal_to` does, and the bytes are as they were then.
fn put_chunk<K: Chunk>(buf: &mut BytesMut, chunk: &K) -> Result<()>
    ensures ok { OnOk result (HasEncoding (K.wire chunk.now)
        × (buf.new.items ≡ buf.old.items ++ padded_encoding (K.wire chunk.now))) }
    ensures spare { OnOk result
        (buf.old.spare ≤ buf.new.spare + length (padded_encoding (K.wire chunk.now))) }
    ensures fits { OnOk result (Fits (K.wire chunk.now)) }
    ensures err { OnErr result (buf.new.items ≡ buf.old.items) }
    ensures refused { IfErr result (λ e. EncodingFault e (K.wire chunk.now)
        ⊎ ((e ≡ ErrOutOfMemory) × HasEncoding (K.wire chunk.now)
        × (buf.old.spare < length (padded_encoding (K.wire chunk.now))))) }
{
    let start = buf.len();
    let end = chunk.marshal_to(buf)?;
    let padding = get_padding_size(end - start);
    match buf.put_bytes(0, padding) {
        Ok(()) => Ok(()),
        Err(_) => {
            buf.truncate(start);
            Err(Error::ErrOutOfMemory)
        }
    }
}

/// How many bytes a chunk takes with its padding, up to the greatest `usize`.
fn padded_length_of<K: Chunk>(chunk: &K) -> usize
    ensures { result ≡ min (length (padded_encoding (K.wire chunk.now))) (2 ^ 64 - 1) }
{
    let length = chunk.value_length().saturating_add(CHUNK_HEADER_SIZE);
    length.saturating_add(get_padding_size(length))
}

/// How many bytes a packet of these chunks has, up to the greatest `usize`.
fn length_with(chunks: &[ChunkKind]) -> usize
    ensures { result ≡ min (12 + length (body_of (map wire_of chunks.now))) (2 ^ 64 - 1) }
{
    let mut total = PACKET_HEADER_SIZE;
    for chunk in chunks {
        total = total.saturating_add(padded_length_of(chunk));
    }
    total
}

/// Makes room for a packet of these chunks at once, so that the buffer doesn't grow for each part. It measures them only where
/// less than a usual packet's room is left. Where memory is refused the parts tell of it.
fn make_room(buf: &mut BytesMut, chunks: &[ChunkKind])
    ensures items { buf.new.items ≡ buf.old.items }
    ensures spare { buf.old.spare ≤ buf.new.spare }
{
    if buf.capacity() - buf.len() < USUAL_PACKET {
        let _ = buf.reserve(length_with(chunks).min(MAX_DATAGRAM));
    }
}

/// Appends chunks, each with its padding. After a refusal some may stand there.
fn put_chunks(buf: &mut BytesMut, chunks: &[ChunkKind]) -> Result<()>
    ensures ok { OnOk result (AllByRecursion HasEncoding (map wire_of chunks.now)
        × (buf.new.items ≡ buf.old.items ++ body_of (map wire_of chunks.now))) }
    ensures fits { OnOk result (AllByRecursion Fits (map wire_of chunks.now)) }
    ensures kept { take (length buf.old.items) buf.new.items ≡ buf.old.items }
    ensures spare { OnOk result
        (buf.old.spare ≤ buf.new.spare + length (body_of (map wire_of chunks.now))) }
    ensures refused { IfErr result (λ e. FirstEncodingFault e (map wire_of chunks.now)
        ⊎ ((e ≡ ErrOutOfMemory) × LacksRoom buf.old.spare 0 (map wire_of chunks.now))) }
{
    for chunk in chunks {
        put_chunk(buf, chunk)?;
    }
    Ok(())
}

/// Appends the header, with zeros where the checksum is to stand.
#[tactic(auto, unfolding(crate::specs::Packet::head_encoding))]
fn put_head(buf: &mut BytesMut, header: CommonHeader) -> Result<()>
    ensures ok { OnOk result (buf.new.items ≡ buf.old.items
        ++ head_encoding header.source_port header.destination_port header.verification_tag
        ++ four_zeroes) }
    ensures fits { OnOk result ((header.source_port < 2 ^ 16) × (header.destination_port < 2 ^ 16)
        × (header.verification_tag < 2 ^ 32)) }
    ensures err { OnErr result (buf.new.items ≡ buf.old.items) }
    ensures spare { OnOk result (buf.old.spare ≤ buf.new.spare + 12) }
    ensures refused { IfErr result (λ e. (e ≡ ErrOutOfMemory) × (buf.old.spare < 12)) }
{
    buf.reserve(PACKET_HEADER_SIZE)?;
    put_u16(buf, header.source_port);
    put_u16(buf, header.destination_port);
    put_u32(buf, header.verification_tag);
    buf.extend_reserved(&[0, 0, 0, 0]);
    Ok(())
}

/// Writes the checksum of the packet that begins at `start` into its place.
fn store_checksum<C: Checksum>(buf: &mut BytesMut, start: usize, checksum: &C)
    requires { start + 12 ≤ length buf.old.items }
    ensures fits { C.sum checksum.now (take 8 (drop start buf.old.items) ++ four_zeroes
        ++ drop (start + 12) buf.old.items) < 2 ^ 32 }
    ensures items { buf.new.items ≡ take (start + 8) buf.old.items
        ++ le32 (C.sum checksum.now (take 8 (drop start buf.old.items) ++ four_zeroes
        ++ drop (start + 12) buf.old.items))
        ++ drop (start + 12) buf.old.items }
    ensures spare { buf.new.spare ≡ buf.old.spare }
{
    let bytes = buf.as_slice();
    let sum = checksum.checksum(
        &bytes[start..start + 8],
        &bytes[start + PACKET_HEADER_SIZE..],
    );
    let place = &mut buf.as_mut_slice()[start + 8..start + PACKET_HEADER_SIZE];
    place.copy_from_slice(&u32_le_bytes(sum));
}

impl Packet {
    /// Reads a packet, all of the bytes. A header alone is a packet without chunks.
    /// Refuses under 12 bytes with `ErrPacketRawTooSmall`, another checksum with `ErrChecksumMismatch`, and only then a chunk as
    /// `ChunkKind::unmarshal` does: one of an unknown type refuses the whole packet, and where fewer than four bytes follow the
    /// length of a chunk and one of them is not zero, it is `ErrChunkHeaderPaddingNonZero`. Refuses a last chunk whose padding
    /// is not there, and one to three other bytes too many, with `ErrParseSctpChunkNotEnoughData`; or for memory.
    pub fn unmarshal<C: Checksum>(alloc: Global, raw: &Bytes, checksum: &C) -> Result<Packet>
        ensures found { IfOk result (λ p. ReadsPacket (C.sum checksum.now) raw.now (parts_of p)) }
        ensures only { (p : Parts) → ReadsPacket (C.sum checksum.now) raw.now p
            → GivesUnlessMemory result (λ q. parts_of q ≡ p) }
        ensures fault { IfErr result
            (λ e. OrMemory e (PacketFault (C.sum checksum.now) e raw.now)) }
        // What was read has an encoding, which reads back.
        ensures rewritable { IfOk result (λ p. HavePacketEncoding (parts_of p)) }
        ensures canonical { IfOk result (λ p. IsCanonical (parts_of p)) }
        // What the sender alone keeps of a chunk is not set.
        ensures fresh { IfOk result (λ p. AllByRecursion IsFreshKind p.chunks.items) }
    {
        let (common_header, rest) = open_packet(raw, checksum)?;
        let chunks = read_chunks(alloc, rest)?;
        Ok(Packet {
            common_header,
            chunks,
        })
    }

    /// Appends the packet, whatever stands before it in the buffer, and answers the
    /// buffer's length. The checksum is of the packet's own bytes.
    /// Refuses as `Chunk::marshal_to` does for the first chunk that has no encoding, or for
    /// memory where the buffer lacked room. The buffer's bytes are as they were then.
    #[tactic(auto, using(crate::proofs::Again::packet_again))]
    pub fn marshal_to<C: Checksum>(&self, buf: &mut BytesMut, checksum: &C) -> Result<usize>
        ensures ok { IfOk result (λ n. HavePacketEncoding (parts_of self.now)
            × (buf.new.items ≡ buf.old.items ++ packet_encoding (C.sum checksum.now)
            (parts_of self.now))
            × (n ≡ length buf.new.items)) }
        // What room is left serves the next packet.
        ensures spare { OnOk result (buf.old.spare ≤ buf.new.spare
            + length (packet_encoding (C.sum checksum.now) (parts_of self.now))) }
        // What is written reads back.
        ensures reads_back { IsCanonical (parts_of self.now)
            → OnOk result (ReadsPacket (C.sum checksum.now)
            (packet_encoding (C.sum checksum.now) (parts_of self.now)) (parts_of self.now)) }
        ensures err { OnErr result (buf.new.items ≡ buf.old.items) }
        ensures refused { IfErr result (λ e.
            (IsEncodingError e × (HavePacketEncoding (parts_of self.now) → ⊥))
            ⊎ ((e ≡ ErrOutOfMemory)
            × (buf.old.spare < length (packet_encoding (C.sum checksum.now)
            (parts_of self.now))))) }
        // The fault is that of the first chunk without an encoding; for memory it is refused only where room was short before it.
        ensures names { IfErr result (λ e. PacketEncodingFault e (parts_of self.now)
            ⊎ ((e ≡ ErrOutOfMemory) × LacksRoom buf.old.spare 12 (parts_of self.now).chunks)) }
    {
        let start = buf.len();
        make_room(buf, &self.chunks);
        match self.put(buf, checksum) {
            Ok(()) => Ok(buf.len()),
            Err(e) => {
                buf.truncate(start);
                Err(e)
            }
        }
    }

    /// The packet as bytes. Refuses as `Chunk::marshal` does for the first chunk that has no encoding, or for memory.
    pub fn marshal<C: Checksum>(&self, alloc: Global, checksum: &C) -> Result<Bytes>
        ensures ok { IfOk result (λ b. HavePacketEncoding (parts_of self.now)
            × (b ≡ packet_encoding (C.sum checksum.now) (parts_of self.now))) }
        ensures reads_back { IsCanonical (parts_of self.now)
            → IfOk result (λ b. ReadsPacket (C.sum checksum.now) b (parts_of self.now)) }
        ensures refused { IfErr result (λ e. OrMemory e
            (IsEncodingError e × (HavePacketEncoding (parts_of self.now) → ⊥))) }
        ensures names { IfErr result (λ e. OrMemory e (PacketEncodingFault e (parts_of self.now))) }
    {
        let length = length_with(&self.chunks).min(MAX_DATAGRAM);
        let mut buf = BytesMut::with_capacity(alloc, length)?;
        self.put(&mut buf, checksum)?;
        match buf.freeze() {
            Ok(bytes) => Ok(bytes),
            Err(_) => Err(Error::ErrOutOfMemory),
        }
    }

    // After a refusal a part may stand there.
    fn put<C: Checksum>(&self, buf: &mut BytesMut, checksum: &C) -> Result<()>
        ensures ok { OnOk result (HavePacketEncoding (parts_of self.now)
            × (buf.new.items ≡ buf.old.items ++ packet_encoding (C.sum checksum.now)
            (parts_of self.now))) }
        ensures fits { OnOk result (FitsParts (parts_of self.now)) }
        ensures sum_fits { OnOk result (C.sum checksum.now
            (head_of (parts_of self.now) ++ four_zeroes ++ body_of (parts_of self.now).chunks)
            < 2 ^ 32) }
        ensures kept { take (length buf.old.items) buf.new.items ≡ buf.old.items }
        ensures spare { OnOk result (buf.old.spare
            ≤ buf.new.spare + (12 + length (body_of (parts_of self.now).chunks))) }
        ensures refused { IfErr result (λ e. PacketEncodingFault e (parts_of self.now)
            ⊎ ((e ≡ ErrOutOfMemory) × LacksRoom buf.old.spare 12 (parts_of self.now).chunks)) }
    {
        let start = buf.len();
        put_head(buf, self.common_header)?;
        put_chunks(buf, &self.chunks)?;
        store_checksum(buf, start, checksum);
        Ok(())
    }
}

/// Whether the chunk is an INIT, and no INIT-ACK.
fn is_init(chunk: &ChunkKind) -> bool
    ensures { result ≡ is_init (wire_of chunk.now) }
{
    match chunk {
        ChunkKind::Init(init) => !init.is_ack,
        _ => false,
    }
}

/// Whether one of the chunks is an INIT.
#[tactic(auto, using(crate::proofs::MappedLists::any_mapped))]
fn has_init(chunks: &[ChunkKind]) -> bool
    ensures { result ≡ has_init (map wire_of chunks.now) }
{
    chunks.iter().any(|chunk| is_init(chunk))
}

impl Packet {
    /// Tests three rules, in this order: ports are not 0 (RFC 4960 3.1), an INIT is the only chunk (RFC 4960 6.10), and it
    /// stands under tag 0 (RFC 4960 8.5.1). An INIT-ACK or SHUTDOWN-COMPLETE with other chunks passes, though RFC 4960 6.10
    /// forbids that too. Neither reading nor writing asks for it, and it takes no memory.
    /// Refuses with `ErrSctpPacketSourcePortZero`, `ErrSctpPacketDestinationPortZero`,
    /// `ErrInitChunkBundled` or `ErrInitChunkVerifyTagNotZero`.
    pub fn check_packet(&self) -> Result<()>
        ensures ok { OnOk result (IsValid (parts_of self.now)) }
        ensures fault { IfErr result (λ e. ValidFault e (parts_of self.now)) }
    {
        if self.common_header.source_port == 0 {
            return Err(Error::ErrSctpPacketSourcePortZero);
        }
        if self.common_header.destination_port == 0 {
            return Err(Error::ErrSctpPacketDestinationPortZero);
        }
        self.check_init()
    }

    // Tests that an INIT stands alone under tag 0.
    fn check_init(&self) -> Result<()>
        ensures alone { OnOk result (has_init (parts_of self.now).chunks ≡ true
            → length (parts_of self.now).chunks ≡ 1) }
        ensures tag { OnOk result (has_init (parts_of self.now).chunks ≡ true
            → (parts_of self.now).verification_tag ≡ 0) }
        ensures fault { IfErr result (λ e. InitFault e (parts_of self.now)) }
    {
        let has_init = has_init(&self.chunks);
        if has_init && self.chunks.len() != 1 {
            return Err(Error::ErrInitChunkBundled);
        }
        if has_init && self.common_header.verification_tag != 0 {
            return Err(Error::ErrInitChunkVerifyTagNotZero);
        }
        Ok(())
    }
}
