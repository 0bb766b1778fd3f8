//! Callers of `sctp_packets`: one reads a datagram chunk by chunk, two write one.

ghost use Rattle.std.specs.Prelude.{◌≡◌, ◌<◌, ◌^◌, ◌∷◌, [], true, false, length, IfOk, IsOkUnless};
ghost use Rattle.packet_tests.specs.Passing.{HasRead, Passes};
ghost use Rattle.sctp_data.specs.SelectiveAck.{sack_of};
ghost use Rattle.sctp_util.specs.declared.error.Error.TheVariants.{ErrOutOfMemory};
ghost use Rattle.sctp_chunks.specs.Wire.{sack_chunk};
ghost use Rattle.sctp_packets.specs.Draft.{headed, with_chunk};
ghost use Rattle.sctp_packets.specs.Packet.{Parts, ReadsPacket};

use bytes::Bytes;
use sctp_base::error::Result;
use sctp_base::util::Checksum;
use sctp_chunks::chunk::chunk_kind::ChunkKind;
use sctp_chunks::chunk::chunk_selective_ack::ChunkSelectiveAck;
use sctp_packets::packet::{CommonHeader, Packet};
use sctp_packets::{PacketReader, PacketWriter};
use std::alloc::Global;

/// How many chunks a datagram has, read one after another.
pub fn count_chunks<C: Checksum>(alloc: Global, raw: &Bytes, checksum: &C) -> Result<usize>
    ensures { IfOk result (λ count. (p : Parts)
        × ReadsPacket (C.sum checksum.now) raw.now p × (count ≡ length p.chunks)) }
{
    let (_, mut reader) = PacketReader::open(raw, checksum)?;
    let count = count_rest(alloc, &mut reader)?;
    Ok(count)
}

// How many chunks are left; then none is.
fn count_rest(alloc: Global, reader: &mut PacketReader) -> Result<usize>
    requires { length reader.old < 2 ^ 64 }
    ensures { IfOk result (λ count. HasRead reader.old [] count) }
{
    let mut count = 0;
    'walk: loop {
        if !pass_chunk(alloc, reader)? {
            break;
        }
        count += 1;
    }
    Ok(count)
}

// Reads the next chunk, and answers whether there was one.
fn pass_chunk(alloc: Global, reader: &mut PacketReader) -> Result<bool>
    ensures passed { IfOk result (λ more. more ≡ true → Passes reader.old reader.new) }
    ensures shorter { IfOk result (λ more. more ≡ true
        → length reader.new < length reader.old) }
    ensures end { IfOk result (λ more. more ≡ false → reader.old ≡ []) }
{
    let chunk = reader.next(alloc)?;
    Ok(chunk.is_some())
}

/// Writes the datagram of a SACK into a writer, and answers whether it fits. Whoever reads it reads that SACK.
pub fn write_sack<C: Checksum>(
    writer: &mut PacketWriter,
    header: CommonHeader,
    sack: &ChunkSelectiveAck,
    checksum: &C,
) -> Result<bool>
    ensures reads { IfOk result (λ put. put ≡ true
        → ReadsPacket (C.sum checksum.now) writer.new.bytes
        (with_chunk (sack_chunk (sack_of sack.now)) (headed header))) }
{
    writer.begin(header);
    if !writer.put(sack)? {
        return Ok(false);
    }
    writer.seal(checksum);
    Ok(true)
}

/// The datagram of a SACK of everything up to a TSN, to where a header came from. Whoever reads it
/// reads that SACK. It is refused for memory alone.
pub fn acknowledge<C: Checksum>(
    alloc: Global,
    header: CommonHeader,
    peer_tag: u32,
    cumulative_tsn_ack: u32,
    credit: u32,
    checksum: &C,
) -> Result<Bytes>
    ensures reads { IfOk result (λ b. ReadsPacket (C.sum checksum.now) b (record {
      source_port = header.destination_port;
      destination_port = header.source_port;
      verification_tag = peer_tag;
      chunks = sack_chunk (record {
        cumulative_tsn_ack = cumulative_tsn_ack;
        advertised_receiver_window_credit = credit;
        gap_ack_blocks = [];
        duplicate_tsn = [];
      }) ∷ [];
    })) }
    ensures memory { IsOkUnless result ErrOutOfMemory }
{
    let sack = ChunkSelectiveAck {
        cumulative_tsn_ack,
        advertised_receiver_window_credit: credit,
        gap_ack_blocks: Vec::new(alloc),
        duplicate_tsn: Vec::new(alloc),
    };
    let mut chunks = Vec::new(alloc);
    chunks.push(ChunkKind::SelectiveAck(sack))?;
    let packet = Packet {
        common_header: CommonHeader {
            source_port: header.destination_port,
            destination_port: header.source_port,
            verification_tag: peer_tag,
        },
        chunks,
    };
    packet.marshal(alloc, checksum)
}
