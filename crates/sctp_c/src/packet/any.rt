//! Packets that may have chunks of types that are not read (RFC 9260 3.2).

ghost use Rattle.std.specs.Prelude.{◌≡◌, ◌≢◌, List, [], drop, map};
ghost use Rattle.std.specs.List.{AllByRecursion};
ghost use Rattle.crc32c.specs.Castagnoli.{crc32c_of};
ghost use Rattle.sctp_util.specs.Walk.{Walks};
ghost use Rattle.sctp_chunks.specs.Wire.{Wire};
ghost use Rattle.sctp_packets.specs.Packet.{IsHeaded, Parts, ReadsPacket, after};
ghost use Rattle.sctp_datagram.specs.Fault.{AnyPacketFault};
ghost use Rattle.sctp_datagram.specs.Framing.{StartsPadded};
ghost use Rattle.sctp_datagram.specs.InPlace.{IsInPlace};
ghost use Rattle.sctp_c.specs.AnyChunks.{IsAnyPacket, TellsAll, any_row};
ghost use Rattle.sctp_c.specs.Out.{filled};
ghost use Rattle.sctp_c.specs.Refusal.{IsRefusal};
ghost use Rattle.sctp_c.specs.declared.packet.any.SctpAnyChunk.{SctpAnyChunk};

use super::{Given, SctpHead, head_at};
use crate::code::{SCTPR_OK, of_error};
use sctp_datagram::{ChunkPlace, Datagram, ZeroChecksum};
use sctp_packets::checksum::Crc32c;
use sctp_util::util::Checksum;
use std::alloc::Global;

/// Where a chunk lies in its packet: `length` bytes from `at` on, its header of four bytes with them and its padding not.
#[repr(C)]
#[derive(Clone, Copy)]
pub struct SctpAnyChunk {
    pub at: usize,
    pub length: usize,
    pub typ: u8,
    pub flags: u8,
    /// 1 where its type is one that is read; else 0.
    pub is_known: u8,
    /// 1 where it is not known, and its sender is to be told of it in an ERROR (RFC 4960 3.2, 3.3.10.6); else 0.
    pub is_reported: u8,
}

// A place in numbers.
fn row_of(place: ChunkPlace) -> SctpAnyChunk
    ensures { result ≡ any_row place }
{
    SctpAnyChunk {
        at: place.at,
        length: place.length,
        typ: place.typ,
        flags: place.flags,
        is_known: place.is_known as u8,
        is_reported: place.is_reported as u8,
    }
}

// Writes where the chunks lie that are left of a datagram: as many as there are rows.
fn fill(rows: &mut [SctpAnyChunk], datagram: &mut Datagram)
    ensures { rows.new ≡ filled (map any_row datagram.old.left) rows.old }
{
    let filled = rows.len().min(datagram.left());
    for i in 0..filled {
        if let Some(place) = datagram.next() {
            rows[i] = row_of(place);
        }
    }
}

// Reads a packet under a checksum, and tells where its chunks lie.
fn tell_any<C: Checksum>(
    alloc: Global,
    raw: &[u8],
    checksum: &C,
    head: &mut SctpHead,
    rows: &mut [SctpAnyChunk],
    count: &mut usize,
) -> u32
    ensures read { result ≡ 0
        → IsAnyPacket (C.sum checksum.now) raw.now head.new count.new rows.old rows.new }
    ensures only { (all : List SctpAnyChunk) → IsHeaded (C.sum checksum.now) raw.now
        → TellsAll raw.now all → result ≢ 0 → result ≡ 16 }
    ensures in_place { (ws : List Wire) → IsHeaded (C.sum checksum.now) raw.now
        → AllByRecursion IsInPlace ws → Walks StartsPadded after (drop 12 raw.now) ws []
        → result ≡ 0 }
    ensures refused { result ≢ 0
        → IsRefusal (λ e. AnyPacketFault (C.sum checksum.now) e raw.now) result }
    ensures kept { result ≢ 0
        → (head.new ≡ head.old) × (count.new ≡ count.old) × (rows.new ≡ rows.old) }
{
    match Datagram::open(alloc, raw, checksum, ZeroChecksum::Refused) {
        Ok(mut datagram) => {
            *head = head_at(raw);
            *count = datagram.left();
            fill(rows, &mut datagram);
            SCTPR_OK
        }
        Err(e) => of_error(e),
    }
}

/// Reads a packet under CRC-32C with all that RFC 9260 3.2 allows. Where it is one, `head` becomes its header, `count` how many chunks it has,
/// and `rows` begin with the places of as many as there is room for. Of an unknown chunk, an INIT, an INIT-ACK, an ABORT, an ERROR and a
/// RE-CONFIG the header is read, of others the whole chunk. Padding is ignored. An unknown type below 128 ends the reading.
#[unsafe(no_mangle)]
pub extern "C" fn sctpr_read_any_packet(
    alloc: Global,
    raw: &[u8],
    head: &mut SctpHead,
    rows: &mut [SctpAnyChunk],
    count: &mut usize,
) -> u32
    ensures read { result ≡ 0
        → IsAnyPacket crc32c_of raw.now head.new count.new rows.old rows.new }
    ensures only { (all : List SctpAnyChunk) → IsHeaded crc32c_of raw.now
        → TellsAll raw.now all → result ≢ 0 → result ≡ 16 }
    // What `sctpr_read_packet` reads is read here too.
    ensures strict { (p : Parts) → ReadsPacket crc32c_of raw.now p → result ≢ 0 → result ≡ 16 }
    // Of DATA and SACKs alone it is read with no memory.
    ensures in_place { (ws : List Wire) → IsHeaded crc32c_of raw.now
        → AllByRecursion IsInPlace ws → Walks StartsPadded after (drop 12 raw.now) ws []
        → result ≡ 0 }
    ensures refused { result ≢ 0 → IsRefusal (λ e. AnyPacketFault crc32c_of e raw.now) result }
    ensures kept { result ≢ 0
        → (head.new ≡ head.old) × (count.new ≡ count.old) × (rows.new ≡ rows.old) }
{
    tell_any(alloc, raw, &Crc32c, head, rows, count)
}

/// Reads a packet as `sctpr_read_any_packet` does, under a sum that the caller took: of its first eight bytes, four zeros, and its bytes
/// from the twelfth on.
#[unsafe(no_mangle)]
pub extern "C" fn sctpr_read_any_packet_with_sum(
    alloc: Global,
    raw: &[u8],
    sum: u32,
    head: &mut SctpHead,
    rows: &mut [SctpAnyChunk],
    count: &mut usize,
) -> u32
    ensures read { result ≡ 0
        → IsAnyPacket (λ _. sum) raw.now head.new count.new rows.old rows.new }
    ensures only { (all : List SctpAnyChunk) → IsHeaded (λ _. sum) raw.now
        → TellsAll raw.now all → result ≢ 0 → result ≡ 16 }
    // What `sctpr_read_packet_with_sum` reads is read here too.
    ensures strict { (p : Parts) → ReadsPacket (λ _. sum) raw.now p → result ≢ 0 → result ≡ 16 }
    // Of DATA and SACKs alone it is read with no memory.
    ensures in_place { (ws : List Wire) → IsHeaded (λ _. sum) raw.now
        → AllByRecursion IsInPlace ws → Walks StartsPadded after (drop 12 raw.now) ws []
        → result ≡ 0 }
    ensures refused { result ≢ 0 → IsRefusal (λ e. AnyPacketFault (λ _. sum) e raw.now) result }
    ensures kept { result ≢ 0
        → (head.new ≡ head.old) × (count.new ≡ count.old) × (rows.new ≡ rows.old) }
{
    tell_any(alloc, raw, &Given { sum }, head, rows, count)
}
