//! Packets: read whole, and sealed under a header and its checksum (RFC 4960 3).

ghost use Rattle.std.specs.Prelude.{◌≡◌, ◌≢◌, ◌+◌, ◌≤◌, ◌<◌, ◌++◌, [], List, length, take, drop, IfOk, IfErr, OnOk, IsOk, IsOkUnless};
ghost use Rattle.std.specs.List.{AllByRecursion};
ghost use Rattle.crc32c.specs.Castagnoli.{crc32c_of};
ghost use Rattle.sctp_util.specs.Field.{le32};
ghost use Rattle.sctp_util.specs.Padding.{four_zeroes, padded_length};
ghost use Rattle.sctp_util.specs.Outcome.{OrMemory};
ghost use Rattle.sctp_util.specs.Walk.{Walks};
ghost use Rattle.sctp_util.specs.declared.error.Error.TheVariants.{ErrOutOfMemory};
ghost use Rattle.sctp_chunks.specs.Fault.{HeaderFault};
ghost use Rattle.sctp_chunks.specs.Framing.{IsFramed, declared_length};
ghost use Rattle.sctp_chunks.specs.Wire.{Wire};
ghost use Rattle.sctp_packets.specs.Fault.{PacketFault, PlaceFault, WalkFault};
ghost use Rattle.sctp_packets.specs.Packet.{IsHeaded, Parts, ReadsPacket, Steps, after, body_of, packet_encoding};
ghost use Rattle.sctp_datagram.specs.InPlace.{IsInPlace};
ghost use Rattle.sctp_c.specs.Head as heads;
ghost use Rattle.sctp_c.specs.Head.{HaveChunks, HeadsPacket, IsPacket, Lie, chunks_from, head_bytes, sealed, parts_under};
ghost use Rattle.sctp_c.specs.Out.{filled};
ghost use Rattle.sctp_c.specs.Refusal.{IsRefusal};

pub mod any;

use crate::code::{SCTPR_OK, SCTPR_SHORT_BUFFER, of_error};
use sctp_chunks::chunk::chunk_header::CHUNK_HEADER_SIZE;
use sctp_datagram::datagram::check_head;
use sctp_datagram::in_place::{chunk_length, padded_span, read_length};
use sctp_packets::checksum::Crc32c;
use sctp_packets::packet::PACKET_HEADER_SIZE;
use sctp_util::error::{Error, Result};
use sctp_util::field::{read_u16, read_u32, u32_le_bytes};
use sctp_util::util::{Checksum, get_padding_size};
use std::alloc::Global;

/// A packet's header but for the checksum.
#[repr(C)]
#[derive(Clone, Copy)]
pub struct SctpHead {
    /// 0 with an INIT (RFC 4960 8.5).
    pub verification_tag: u32,
    pub source_port: u16,
    pub destination_port: u16,
}

/// Where a chunk lies in its packet: `length` bytes from `at` on, its header of four bytes with them and its padding not.
#[repr(C)]
#[derive(Clone, Copy)]
pub struct SctpChunk {
    pub at: usize,
    pub length: usize,
    pub typ: u8,
    pub flags: u8,
}

fn chunk_at(packet: &[u8], at: usize) -> SctpChunk
    requires { at + 4 ≤ length packet.now }
    ensures { result ≡ heads.chunk_at packet.now at }
{
    let rest = &packet[at..];
    SctpChunk {
        at,
        length: read_u16(rest, 2) as usize,
        typ: rest[0],
        flags: rest[1],
    }
}

// Writes where the chunks of a packet lie, of which there are so many: as many as there are rows.
fn fill(rows: &mut [SctpChunk], packet: &[u8], count: usize)
    requires { Lie packet.now 12 count }
    ensures { rows.new ≡ filled (chunks_from packet.now 12 count) rows.old }
{
    let mut at = PACKET_HEADER_SIZE;
    let filled = rows.len().min(count);
    for i in 0..filled {
        let chunk = chunk_at(packet, at);
        rows[i] = chunk;
        at += chunk.length + get_padding_size(chunk.length);
    }
}

fn head_at(raw: &[u8]) -> SctpHead
    requires { 12 ≤ length raw.now }
    ensures { HeadsPacket raw.now result }
{
    SctpHead {
        verification_tag: read_u32(raw, 4),
        source_port: read_u16(raw, 0),
        destination_port: read_u16(raw, 2),
    }
}

// Tests the header of the chunk that the bytes begin with, and one to three bytes behind it, which are its padding: they are all that follow.
fn check_frame(rest: &[u8]) -> Result<()>
    ensures framed { OnOk result (IsFramed rest.now) }
    ensures fault { IfErr result (λ e. HeaderFault e rest.now) }
{
    let length = chunk_length(rest)?;
    if rest.len() < length + 4 && !rest[length..].iter().all(|b| *b == 0) {
        return Err(Error::ErrChunkHeaderPaddingNonZero);
    }
    Ok(())
}

// How many bytes the chunk that the bytes begin with takes with its padding.
fn read_next(alloc: Global, rest: &[u8]) -> Result<usize>
    requires { 0 < length rest.now }
    ensures found { OnOk result ((w : Wire) × Steps rest.now w) }
    ensures span { IfOk result (λ n. n ≡ padded_length (declared_length rest.now)) }
    ensures some { IfOk result (λ n. 4 ≤ n) }
    ensures within { IfOk result (λ n. n ≤ length rest.now) }
    ensures only { (w : Wire) → Steps rest.now w → IsOkUnless result ErrOutOfMemory }
    ensures in_place { (w : Wire) → IsInPlace w → Steps rest.now w → IsOk result }
    ensures fault { IfErr result (λ e. OrMemory e (PlaceFault e rest.now)) }
{
    if rest.len() < CHUNK_HEADER_SIZE {
        return Err(Error::ErrParseSctpChunkNotEnoughData);
    }
    check_frame(rest)?;
    let length = read_length(alloc, rest)?;
    padded_span(rest, length)
}

// How many chunks a packet has, up to its end.
fn count_chunks(alloc: Global, raw: &[u8]) -> Result<usize>
    requires { 12 ≤ length raw.now }
    ensures found { IfOk result (HaveChunks (drop 12 raw.now)) }
    ensures only { (ws : List Wire) → Walks Steps after (drop 12 raw.now) ws []
        → IsOkUnless result ErrOutOfMemory }
    ensures in_place { (ws : List Wire) → AllByRecursion IsInPlace ws
        → Walks Steps after (drop 12 raw.now) ws [] → IsOk result }
    ensures fault { IfErr result (λ e. OrMemory e (WalkFault e (drop 12 raw.now))) }
{
    let mut count = 0;
    let mut at = PACKET_HEADER_SIZE;
    'walk: while at < raw.len() {
        at += read_next(alloc, &raw[at..])?;
        count += 1;
    }
    Ok(count)
}

// How many chunks the bytes have, which are a packet under a checksum.
fn count_in<C: Checksum>(alloc: Global, raw: &[u8], checksum: &C) -> Result<usize>
    ensures headed { OnOk result (IsHeaded (C.sum checksum.now) raw.now) }
    ensures found { IfOk result (HaveChunks (drop 12 raw.now)) }
    ensures only { (p : Parts) → ReadsPacket (C.sum checksum.now) raw.now p
        → IsOkUnless result ErrOutOfMemory }
    ensures in_place { (p : Parts) → AllByRecursion IsInPlace p.chunks
        → ReadsPacket (C.sum checksum.now) raw.now p → IsOk result }
    ensures fault { IfErr result (λ e. OrMemory e (PacketFault (C.sum checksum.now) e raw.now)) }
{
    check_head(raw, checksum)?;
    count_chunks(alloc, raw)
}

// Reads a packet under a checksum, and tells where its chunks lie.
fn tell<C: Checksum>(
    alloc: Global,
    raw: &[u8],
    checksum: &C,
    head: &mut SctpHead,
    rows: &mut [SctpChunk],
    count: &mut usize,
) -> u32
    ensures read { result ≡ 0
        → IsPacket (C.sum checksum.now) raw.now head.new count.new rows.old rows.new }
    ensures only { (p : Parts) → ReadsPacket (C.sum checksum.now) raw.now p
        → result ≢ 0 → result ≡ 16 }
    ensures in_place { (p : Parts) → AllByRecursion IsInPlace p.chunks
        → ReadsPacket (C.sum checksum.now) raw.now p → result ≡ 0 }
    ensures refused { result ≢ 0
        → IsRefusal (λ e. PacketFault (C.sum checksum.now) e raw.now) result }
    ensures kept { result ≢ 0
        → (head.new ≡ head.old) × (count.new ≡ count.old) × (rows.new ≡ rows.old) }
{
    match count_in(alloc, raw, checksum) {
        Ok(chunks) => {
            *head = head_at(raw);
            *count = chunks;
            fill(rows, raw, chunks);
            SCTPR_OK
        }
        Err(e) => of_error(e),
    }
}

/// Reads a packet under CRC-32C. Where it is one, `head` becomes its header, `count` how many chunks it has, and `rows` begin with the
/// places of as many as there is room for. It is read where it lies: chunks but for DATA and SACKs are copied one by one, and freed. Refuses
/// as `Packet::unmarshal` does, and then changes nothing.
#[unsafe(no_mangle)]
pub extern "C" fn sctpr_read_packet(
    alloc: Global,
    raw: &[u8],
    head: &mut SctpHead,
    rows: &mut [SctpChunk],
    count: &mut usize,
) -> u32
    ensures read { result ≡ 0
        → IsPacket crc32c_of raw.now head.new count.new rows.old rows.new }
    ensures only { (p : Parts) → ReadsPacket crc32c_of raw.now p → result ≢ 0 → result ≡ 16 }
    // Of DATA and SACKs alone it is read with no memory.
    ensures in_place { (p : Parts) → AllByRecursion IsInPlace p.chunks
        → ReadsPacket crc32c_of raw.now p → result ≡ 0 }
    ensures refused { result ≢ 0 → IsRefusal (λ e. PacketFault crc32c_of e raw.now) result }
    ensures kept { result ≢ 0
        → (head.new ≡ head.old) × (count.new ≡ count.old) × (rows.new ≡ rows.old) }
{
    tell(alloc, raw, &Crc32c, head, rows, count)
}

// The sum that a caller took.
#[derive(Clone, Copy)]
struct Given {
    sum: u32,
}

impl Checksum for Given {
    ghost sum = { λ given _. given.sum };

    fn checksum(&self, _head: &[u8], _tail: &[u8]) -> u32 {
        self.sum
    }
}

/// Reads a packet as `sctpr_read_packet` does, under a sum that the caller took: of its first eight bytes, four zeros, and its bytes from
/// the twelfth on.
#[unsafe(no_mangle)]
pub extern "C" fn sctpr_read_packet_with_sum(
    alloc: Global,
    raw: &[u8],
    sum: u32,
    head: &mut SctpHead,
    rows: &mut [SctpChunk],
    count: &mut usize,
) -> u32
    ensures read { result ≡ 0
        → IsPacket (λ _. sum) raw.now head.new count.new rows.old rows.new }
    ensures only { (p : Parts) → ReadsPacket (λ _. sum) raw.now p → result ≢ 0 → result ≡ 16 }
    // Of DATA and SACKs alone it is read with no memory.
    ensures in_place { (p : Parts) → AllByRecursion IsInPlace p.chunks
        → ReadsPacket (λ _. sum) raw.now p → result ≡ 0 }
    ensures refused { result ≢ 0 → IsRefusal (λ e. PacketFault (λ _. sum) e raw.now) result }
    ensures kept { result ≢ 0
        → (head.new ≡ head.old) × (count.new ≡ count.old) × (rows.new ≡ rows.old) }
{
    tell(alloc, raw, &Given { sum }, head, rows, count)
}

// Writes a header up to the checksum.
#[tactic(auto, unfolding(sctp_packets::specs::Packet::head_encoding, sctp_util::specs::Field::be16, sctp_util::specs::Field::be32))]
fn put_head(place: &mut [u8], head: &SctpHead)
    requires { length place.old ≡ 8 }
    ensures { place.new ≡ head_bytes head.now }
{
    let (source, rest) = place.split_at_mut(2);
    let (destination, tag) = rest.split_at_mut(2);
    source.copy_from_slice(&u16::to_be_bytes(head.source_port));
    destination.copy_from_slice(&u16::to_be_bytes(head.destination_port));
    tag.copy_from_slice(&u32::to_be_bytes(head.verification_tag));
}

/// Writes the header and the CRC-32C of a packet into its first twelve bytes. The chunks stand behind them, each with its padding, and
/// stay as they are. Refuses with `SCTPR_SHORT_BUFFER` under twelve bytes, and then changes nothing.
#[unsafe(no_mangle)]
pub extern "C" fn sctpr_seal_packet(head: &SctpHead, packet: &mut [u8]) -> u32
    ensures sealed { result ≡ 0 → packet.new ≡ sealed head.now (drop 12 packet.old) }
    // With chunks behind the header it is the encoding of a packet.
    ensures packet { (chunks : List Wire) → drop 12 packet.old ≡ body_of chunks → result ≡ 0
        → packet.new ≡ packet_encoding crc32c_of (parts_under head.now chunks) }
    ensures short { result ≢ 0
        → (result ≡ 17) × (length packet.old < 12) × (packet.new ≡ packet.old) }
{
    if packet.len() < PACKET_HEADER_SIZE {
        return SCTPR_SHORT_BUFFER;
    }
    let (first, chunks) = packet.split_at_mut(PACKET_HEADER_SIZE);
    let (front, sum) = first.split_at_mut(8);
    put_head(front, head);
    sum.copy_from_slice(&u32_le_bytes(Crc32c.checksum(front, chunks)));
    SCTPR_OK
}

/// Writes the header of a packet into its first twelve bytes, with zeros where the checksum is to stand. So the caller can take a sum of
/// the packet, and store it by `sctpr_store_sum`. Refuses with `SCTPR_SHORT_BUFFER` under twelve bytes, and then changes nothing.
#[unsafe(no_mangle)]
pub extern "C" fn sctpr_write_head(head: &SctpHead, packet: &mut [u8]) -> u32
    ensures head { result ≡ 0
        → packet.new ≡ head_bytes head.now ++ four_zeroes ++ drop 12 packet.old }
    ensures short { result ≢ 0
        → (result ≡ 17) × (length packet.old < 12) × (packet.new ≡ packet.old) }
{
    if packet.len() < PACKET_HEADER_SIZE {
        return SCTPR_SHORT_BUFFER;
    }
    let (first, _) = packet.split_at_mut(PACKET_HEADER_SIZE);
    let (front, sum) = first.split_at_mut(8);
    put_head(front, head);
    sum.copy_from_slice(&[0; 4]);
    SCTPR_OK
}

/// Stores the checksum of a packet, the lowest byte first (RFC 4960 Appendix B). Refuses with `SCTPR_SHORT_BUFFER` under twelve bytes, and
/// then changes nothing.
#[unsafe(no_mangle)]
pub extern "C" fn sctpr_store_sum(sum: u32, packet: &mut [u8]) -> u32
    ensures stored { result ≡ 0 → packet.new ≡ take 8 packet.old ++ le32 sum ++ drop 12 packet.old }
    ensures short { result ≢ 0
        → (result ≡ 17) × (length packet.old < 12) × (packet.new ≡ packet.old) }
{
    if packet.len() < PACKET_HEADER_SIZE {
        return SCTPR_SHORT_BUFFER;
    }
    let (first, _) = packet.split_at_mut(PACKET_HEADER_SIZE);
    let (_, place) = first.split_at_mut(8);
    place.copy_from_slice(&u32_le_bytes(sum));
    SCTPR_OK
}
