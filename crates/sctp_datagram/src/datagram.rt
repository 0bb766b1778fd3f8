//! A datagram: its header and checksum, and where its chunks lie, which may be of any types (RFC 9260 3, 3.2).

ghost use Rattle.std.specs.Prelude.{◌≡◌, ◌+◌, ◌≤◌, [], ◌∷◌, List, length, drop, true, IfOk, IfErr, IfNone, IfSome, OnOk, IsOk, IsOkUnless};
ghost use Rattle.std.specs.List.{AllByRecursion};
ghost use Rattle.sctp_util.specs.Outcome.{OrMemory};
ghost use Rattle.sctp_util.specs.Padding.{padded_length};
ghost use Rattle.sctp_util.specs.Walk.{Walks};
ghost use Rattle.sctp_util.specs.declared.error.Error.TheVariants.{ErrOutOfMemory};
ghost use Rattle.sctp_chunks.specs.Framing.{declared_length, type_at};
ghost use Rattle.sctp_chunks.specs.Wire.{Wire};
ghost use Rattle.sctp_packets.specs.Fault.{HeadFault};
ghost use Rattle.sctp_packets.specs.Packet.{IsHeaded, after};
ghost use Rattle.sctp_datagram.specs.Datagram.{IsHeader};
ghost use Rattle.sctp_datagram.specs.Fault.{AnyPlaceFault, AnyWalkFault, DatagramFault, HeadRefusal, IsAccepted, NextFault};
ghost use Rattle.sctp_datagram.specs.Framing.{HasFrame, StartsPadded, StartsWith};
ghost use Rattle.sctp_datagram.specs.InPlace.{IsInPlace};
ghost use Rattle.sctp_datagram.specs.Places as places;
ghost use Rattle.sctp_datagram.specs.Places.{HasChunks, IsPlace, IsThere, TellsAll};
ghost use Rattle.sctp_datagram.specs.Types as types;

use crate::in_place::{chunk_length, is_read_type, is_whole_type, padded_span, read_length};
use sctp_chunks::chunk::chunk_header::CHUNK_HEADER_SIZE;
use sctp_packets::CommonHeader;
use sctp_packets::packet::PACKET_HEADER_SIZE;
use sctp_util::error::{Error, Result};
use sctp_util::field::{read_u16, read_u32, read_u32_le};
use sctp_util::util::{Checksum, get_padding_size};
use std::alloc::Global;
use std::marker::Model;

/// Where a chunk lies in its datagram: `length` bytes from `at` on, its header of four bytes with them and its padding not.
#[derive(Clone, Copy, Debug, PartialEq, Eq)]
pub struct ChunkPlace {
    pub at: usize,
    pub length: usize,
    pub typ: u8,
    pub flags: u8,
    /// Whether its type is one that is read.
    pub is_known: bool,
    /// Whether it is not known, and its sender is to be told of it in an ERROR (RFC 9260 3.2, 3.3.10.6).
    pub is_reported: bool,
}

/// Whether a datagram is read whose checksum is 0, with no look at its sum (RFC 9653 5.3).
#[derive(Clone, Copy, Debug, PartialEq, Eq)]
pub enum ZeroChecksum {
    Refused,
    /// The lower layer finds errors in another way, as DTLS does, and the receiver has told its peer so.
    Allowed,
}

/// Tests the length of a header, and the checksum.
pub fn check_head<C: Checksum>(raw: &[u8], checksum: &C) -> Result<()>
    ensures headed { OnOk result (IsHeaded (C.sum checksum.now) raw.now) }
    ensures only { IsHeaded (C.sum checksum.now) raw.now → IsOk result }
    ensures fault { IfErr result (λ e. HeadFault (C.sum checksum.now) e raw.now) }
{
    if raw.len() < PACKET_HEADER_SIZE {
        return Err(Error::ErrPacketRawTooSmall);
    }
    let ours = checksum.checksum(&raw[..8], &raw[PACKET_HEADER_SIZE..]);
    if read_u32_le(raw, 8) != ours {
        return Err(Error::ErrChecksumMismatch);
    }
    Ok(())
}

// The same, where a checksum of 0 may be allowed.
fn check_head_or_zero<C: Checksum>(raw: &[u8], checksum: &C, zero: ZeroChecksum) -> Result<()>
    ensures accepted { OnOk result (IsAccepted zero (C.sum checksum.now) raw.now) }
    ensures only { IsAccepted zero (C.sum checksum.now) raw.now → IsOk result }
    ensures fault { IfErr result (λ e. HeadRefusal zero (C.sum checksum.now) e raw.now) }
{
    match zero {
        ZeroChecksum::Refused => check_head(raw, checksum),
        ZeroChecksum::Allowed => {
            if raw.len() >= PACKET_HEADER_SIZE && read_u32_le(raw, 8) == 0 {
                return Ok(());
            }
            check_head(raw, checksum)
        }
    }
}

// Whether the reading stops behind a chunk of a type.
fn is_stopping(typ: u8) -> bool
    ensures { result ≡ types.is_stopping typ }
{
    !is_read_type(typ) && typ < 128
}

// The declared length of the chunk that the bytes begin with. It is read whole, where its type is one of those; else its header is.
fn length_next(alloc: Global, rest: &[u8]) -> Result<usize>
    requires { 4 ≤ length rest.now }
    ensures framed { OnOk result (HasFrame rest.now) }
    ensures length { IfOk result (λ n. n ≡ declared_length rest.now) }
    ensures reads { OnOk result (types.is_whole_type (type_at rest.now) ≡ true
        → (w : Wire) × StartsWith rest.now w) }
    ensures only { IsThere rest.now → IsOkUnless result ErrOutOfMemory }
    ensures in_place { (w : Wire) → IsInPlace w → StartsWith rest.now w → IsOk result }
    ensures fault { IfErr result (λ e. OrMemory e (NextFault e rest.now)) }
{
    if is_whole_type(rest[0]) {
        read_length(alloc, rest)
    } else {
        chunk_length(rest)
    }
}

// How many bytes the chunk that the bytes begin with takes with its padding.
fn read_next(alloc: Global, rest: &[u8]) -> Result<usize>
    ensures there { OnOk result (IsThere rest.now) }
    ensures span { IfOk result (λ n. n ≡ padded_length (declared_length rest.now)) }
    ensures some { IfOk result (λ n. 4 ≤ n) }
    ensures within { IfOk result (λ n. n ≤ length rest.now) }
    ensures only { IsThere rest.now → IsOkUnless result ErrOutOfMemory }
    ensures in_place { (w : Wire) → IsInPlace w → StartsPadded rest.now w → IsOk result }
    ensures fault { IfErr result (λ e. OrMemory e (AnyPlaceFault e rest.now)) }
{
    if rest.len() < CHUNK_HEADER_SIZE {
        return Err(Error::ErrParseSctpChunkNotEnoughData);
    }
    let length = length_next(alloc, rest)?;
    padded_span(rest, length)
}

// How many chunks a packet has: up to its end, or up to the first one that stops the reading, and that one.
fn count_chunks(alloc: Global, raw: &[u8]) -> Result<usize>
    requires { 12 ≤ length raw.now }
    ensures found { IfOk result (HasChunks raw.now) }
    ensures only { (rows : List ChunkPlace)
        → TellsAll places.place_at raw.now rows → IsOkUnless result ErrOutOfMemory }
    ensures in_place { (ws : List Wire) → AllByRecursion IsInPlace ws
        → Walks StartsPadded after (drop 12 raw.now) ws [] → IsOk result }
    ensures fault { IfErr result (λ e. OrMemory e (AnyWalkFault e raw.now)) }
{
    let mut count = 0;
    let mut at = PACKET_HEADER_SIZE;
    'walk: while at < raw.len() {
        let span = read_next(alloc, &raw[at..])?;
        count += 1;
        if is_stopping(raw[at]) {
            return Ok(count);
        }
        at += span;
    }
    Ok(count)
}

// What is told of the chunk that begins at a place of a packet.
fn place_at(packet: &[u8], at: usize) -> ChunkPlace
    requires { at + 4 ≤ length packet.now }
    ensures { result ≡ places.place_at packet.now at }
{
    let rest = &packet[at..];
    let typ = rest[0];
    let is_known = is_read_type(typ);
    ChunkPlace {
        at,
        length: read_u16(rest, 2) as usize,
        typ,
        flags: rest[1],
        is_known,
        is_reported: !is_known && typ % 128 >= 64,
    }
}

/// A datagram that was tested whole, so that no chunk of it is refused later. It gives the places of its chunks, one after another.
#[derive(Drop)]
pub struct Datagram<'a> {
    raw: &'a [u8],
    // where the next chunk begins, and how many are left
    at: usize,
    left: usize,
}

impl<'a> Model for Datagram<'a> {
    ghost use Rattle.std.specs.Prelude.{◌≤◌, length};
    ghost use Rattle.sctp_datagram.specs.Datagram.{Walked};
    ghost use Rattle.sctp_datagram.specs.Places.{AreThere, place_at, rows_from};

    ghost Value = { Walked };

    ghost view = { λ d. record {
      bytes = d.raw.now;
      left = rows_from place_at d.raw.now d.at d.left;
    } };

    ghost invariant = { λ d. (12 ≤ length d.raw.now) × AreThere d.raw.now d.at d.left };
}

impl<'a> Datagram<'a> {
    /// Tests a header, its checksum, and all chunks up to the end or to the first one of an unknown type below 128, which ends the reading.
    /// Of an unknown chunk, an INIT, an INIT-ACK, an ABORT, an ERROR and a RE-CONFIG it tests the header, of others the whole chunk.
    /// DATA and SACKs take no memory.
    pub fn open<C: Checksum>(
        alloc: Global,
        raw: &'a [u8],
        checksum: &C,
        zero: ZeroChecksum,
    ) -> Result<Datagram<'a>>
        ensures accepted { OnOk result (IsAccepted zero (C.sum checksum.now) raw.now) }
        ensures bytes { IfOk result (λ d. d.bytes ≡ raw.now) }
        ensures all { IfOk result (λ d. TellsAll places.place_at raw.now d.left) }
        ensures only { (rows : List ChunkPlace) → IsAccepted zero (C.sum checksum.now) raw.now
            → TellsAll places.place_at raw.now rows → IsOkUnless result ErrOutOfMemory }
        // Of DATA and SACKs alone it is read with no memory.
        ensures in_place { (ws : List Wire) → IsAccepted zero (C.sum checksum.now) raw.now
            → AllByRecursion IsInPlace ws → Walks StartsPadded after (drop 12 raw.now) ws []
            → IsOk result }
        ensures fault { IfErr result
            (λ e. OrMemory e (DatagramFault zero (C.sum checksum.now) e raw.now)) }
    {
        check_head_or_zero(raw, checksum, zero)?;
        let left = count_chunks(alloc, raw)?;
        Ok(Datagram {
            raw,
            at: PACKET_HEADER_SIZE,
            left,
        })
    }

    /// What the header says beside the checksum (RFC 9260 3.1).
    pub fn header(&self) -> CommonHeader
        ensures { IsHeader self.now.bytes result }
    {
        CommonHeader {
            source_port: read_u16(self.raw, 0),
            destination_port: read_u16(self.raw, 2),
            verification_tag: read_u32(self.raw, 4),
        }
    }

    /// How many chunks are still to come.
    pub fn left(&self) -> usize
        ensures { result ≡ length self.now.left }
    {
        self.left
    }

    /// The place of the next chunk; None behind the last one.
    pub fn next(&mut self) -> Option<ChunkPlace>
        ensures place { IfSome result (λ p. self.old.left ≡ p ∷ self.new.left) }
        ensures there { IfSome result (IsPlace self.old.bytes) }
        ensures end { IfNone result (self.old.left ≡ []) }
        ensures ended { IfNone result (self.new ≡ self.old) }
        ensures bytes { self.new.bytes ≡ self.old.bytes }
    {
        if self.left == 0 {
            return None;
        }
        let place = place_at(self.raw, self.at);
        self.at += place.length + get_padding_size(place.length);
        self.left -= 1;
        Some(place)
    }
}
