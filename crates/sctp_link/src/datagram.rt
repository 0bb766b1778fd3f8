//! Datagrams: written, and read again.

ghost use Rattle.std.specs.Prelude.{◌≡◌, ◌≤◌, ◌+◌, ◌∷◌, [], List, length, map, IfOk, IsOkUnless};
ghost use Rattle.std.specs.List.{AllByRecursion};
ghost use Rattle.sctp_util.specs.declared.error.Error.TheVariants.{ErrOutOfMemory};
ghost use Rattle.sctp_data.specs.PayloadData.{Data, data_of};
ghost use Rattle.sctp_data.specs.SelectiveAck.{Sack, sack_of};
ghost use Rattle.sctp_data.specs.ForwardTsn.{ForwardTsn, forward_tsn_of};
ghost use Rattle.sctp_data.specs.ChunkSet.{fresh};
ghost use Rattle.sctp_chunks.specs.Wire.{Wire, data_chunk, sack_chunk, forward_tsn_chunk, HasEncoding};
ghost use Rattle.sctp_chunks.specs.Fits.{Canonical};
ghost use Rattle.sctp_chunks.specs.Kind.{wire_of, IsFreshKind};
ghost use Rattle.sctp_packets.specs.Packet.{ReadsPacket, packet_encoding};
ghost use Rattle.sctp_link.specs.Encodings.{packet_with};

use bytes::Bytes;
use sctp_chunks::chunk::chunk_forward_tsn::ChunkForwardTsn;
use sctp_chunks::chunk::chunk_kind::ChunkKind;
use sctp_chunks::chunk::chunk_payload_data::ChunkPayloadData;
use sctp_chunks::chunk::chunk_selective_ack::ChunkSelectiveAck;
use sctp_packets::packet::{CommonHeader, Packet};
use sctp_util::error::{Error, Result};
use sctp_util::util::Checksum;
use std::alloc::Global;

const PORT: u16 = 5000;

const VERIFICATION_TAG: u32 = 1;

/// Writes the datagram of a chunk. Its bytes read back. Refuses only for memory.
/// Precondition: the chunk has an encoding, which reads back.
pub fn write_datagram<C: Checksum>(alloc: Global, chunk: ChunkKind, checksum: &C) -> Result<Bytes>
    requires encoding { HasEncoding (wire_of chunk) }
    requires canonical { Canonical (wire_of chunk) }
    ensures encoding { IfOk result (λ b. b
        ≡ packet_encoding (C.sum checksum.now) (packet_with (wire_of chunk ∷ []))) }
    ensures reads { IfOk result
        (λ b. ReadsPacket (C.sum checksum.now) b (packet_with (wire_of chunk ∷ []))) }
    ensures memory { IsOkUnless result ErrOutOfMemory }
{
    let mut chunks = Vec::new(alloc);
    chunks.push(chunk)?;
    write_chunks(alloc, chunks, checksum)
}

/// Writes the datagram of some chunks. Its bytes read back. Refuses only for memory.
/// Precondition: each chunk has an encoding, which reads back.
pub fn write_chunks<C: Checksum>(
    alloc: Global,
    chunks: Vec<ChunkKind>,
    checksum: &C,
) -> Result<Bytes>
    requires encoding { AllByRecursion HasEncoding (map wire_of chunks.items) }
    requires canonical { AllByRecursion Canonical (map wire_of chunks.items) }
    ensures encoding { IfOk result (λ b. b
        ≡ packet_encoding (C.sum checksum.now) (packet_with (map wire_of chunks.items))) }
    ensures reads { IfOk result
        (λ b. ReadsPacket (C.sum checksum.now) b (packet_with (map wire_of chunks.items))) }
    ensures memory { IsOkUnless result ErrOutOfMemory }
{
    let packet = Packet {
        common_header: CommonHeader {
            source_port: PORT,
            destination_port: PORT,
            verification_tag: VERIFICATION_TAG,
        },
        chunks,
    };
    packet.marshal(alloc, checksum)
}

/// Reads a datagram of one chunk. It is refused for memory alone.
/// Precondition: the bytes are one, under the checksum.
fn read_datagram<C: Checksum>(alloc: Global, raw: &Bytes, checksum: &C) -> Result<ChunkKind>
    requires { (w : Wire) × ReadsPacket (C.sum checksum.now) raw.now (packet_with (w ∷ [])) }
    ensures chunk { (w : Wire) → ReadsPacket (C.sum checksum.now) raw.now (packet_with (w ∷ []))
        → IfOk result (λ k. wire_of k ≡ w) }
    ensures fresh { IfOk result (λ k. IsFreshKind k) }
    ensures memory { IsOkUnless result ErrOutOfMemory }
{
    let mut packet = Packet::unmarshal(alloc, raw, checksum)?;
    let Some(kind) = packet.chunks.pop() else {
        unreachable!()
    };
    Ok(kind)
}

/// Reads a datagram of DATA chunks, in their order. Refuses only for memory.
/// Precondition: the bytes are one, under the checksum.
pub fn read_data<C: Checksum>(
    alloc: Global,
    raw: &Bytes,
    checksum: &C,
) -> Result<Vec<ChunkPayloadData>>
    requires { (ds : List Data)
        × ReadsPacket (C.sum checksum.now) raw.now (packet_with (map data_chunk ds)) }
    ensures chunks { (ds : List Data) → ReadsPacket (C.sum checksum.now) raw.now
        (packet_with (map data_chunk ds)) → IfOk result (λ cs. cs.items ≡ map fresh ds) }
    ensures memory { IsOkUnless result ErrOutOfMemory }
{
    let packet = Packet::unmarshal(alloc, raw, checksum)?;
    data_chunks(alloc, packet.chunks)
}

// The chunks, all of them DATA. Refuses only for memory.
fn data_chunks(alloc: Global, kinds: Vec<ChunkKind>) -> Result<Vec<ChunkPayloadData>>
    requires data { (ds : List Data) × (map wire_of kinds.items ≡ map data_chunk ds) }
    requires fresh { AllByRecursion IsFreshKind kinds.items }
    ensures chunks { (ds : List Data) → map wire_of kinds.items ≡ map data_chunk ds
        → IfOk result (λ cs. cs.items ≡ map fresh ds) }
    ensures memory { IsOkUnless result ErrOutOfMemory }
{
    let mut kinds = kinds;
    let mut chunks = Vec::new(alloc);
    while let Some(kind) = kinds.pop() {
        let ChunkKind::PayloadData(chunk) = kind else {
            unreachable!()
        };
        chunks.push(chunk)?;
    }
    chunks.reverse();
    Ok(chunks)
}

/// Reads a datagram of one SACK. Refuses only for memory.
/// Precondition: the bytes are one, under the checksum.
pub fn read_sack<C: Checksum>(alloc: Global, raw: &Bytes, checksum: &C) -> Result<ChunkSelectiveAck>
    requires { (s : Sack)
        × ReadsPacket (C.sum checksum.now) raw.now (packet_with (sack_chunk s ∷ [])) }
    ensures chunk { (s : Sack) → ReadsPacket (C.sum checksum.now) raw.now
        (packet_with (sack_chunk s ∷ [])) → IfOk result (λ c. sack_of c ≡ s) }
    ensures memory { IsOkUnless result ErrOutOfMemory }
{
    match read_datagram(alloc, raw, checksum)? {
        ChunkKind::SelectiveAck(chunk) => Ok(chunk),
        _ => unreachable!(),
    }
}

/// Reads a datagram of one FORWARD-TSN. Refuses only for memory.
/// Precondition: the bytes are one, under the checksum.
pub fn read_forward_tsn<C: Checksum>(
    alloc: Global,
    raw: &Bytes,
    checksum: &C,
) -> Result<ChunkForwardTsn>
    requires { (f : ForwardTsn)
        × ReadsPacket (C.sum checksum.now) raw.now (packet_with (forward_tsn_chunk f ∷ [])) }
    ensures chunk { (f : ForwardTsn) → ReadsPacket (C.sum checksum.now) raw.now
        (packet_with (forward_tsn_chunk f ∷ [])) → IfOk result (λ c. forward_tsn_of c ≡ f) }
    ensures memory { IsOkUnless result ErrOutOfMemory }
{
    match read_datagram(alloc, raw, checksum)? {
        ChunkKind::ForwardTsn(chunk) => Ok(chunk),
        _ => unreachable!(),
    }
}
