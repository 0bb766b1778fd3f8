//! Packets that are written chunk by chunk, without a list of their chunks.

ghost use Rattle.std.specs.Prelude.{◌≡◌, ◌+◌, ◌<◌, ◌≤◌, ◌++◌, [], true, nat_le, false, max, IfOk, IfErr, IsOkUnless, OnErr, length, take, drop};
ghost use Rattle.sctp_util.specs.declared.error.Error.TheVariants.{ErrOutOfMemory};
ghost use Rattle.sctp_chunks.specs.Check.{EncodingFault};
ghost use Rattle.sctp_chunks.specs.Wire.{HasEncoding};
ghost use Rattle.sctp_util.specs.Field.{le32};
ghost use Rattle.sctp_packets.specs.Packet.{IsCanonical, Parts, ReadsPacket, checksum_input, packet_encoding, padded_encoding};
ghost use Rattle.sctp_packets.specs.Draft.{IsDraft, headed, with_chunk};

use super::{
    CommonHeader, PACKET_HEADER_SIZE, padded_length_of, put_chunk, put_head, store_checksum,
};
use bytes::BytesMut;
use sctp_chunks::chunk::Chunk;
use sctp_util::error::Result;
use sctp_util::util::Checksum;
use std::alloc::Global;
use std::marker::Model;

/// Writes packets, one after another, into a buffer of its own: `begin`, then `put` for each chunk, then `seal`. `bytes` is the
/// datagram then. Only `new` takes memory.
#[derive(Drop)]
pub struct PacketWriter {
    buf: BytesMut,
    limit: usize,
}

impl Model for PacketWriter {
    ghost use Rattle.std.specs.Prelude.{◌≤◌, ◌+◌, length};
    ghost use Rattle.sctp_packets.specs.Draft.{Draft};

    ghost Value = { Draft };

    ghost view = { λ w. record { bytes = w.buf.items; limit = w.limit } };

    ghost invariant = { λ w. record {
      header : 12 ≤ w.limit;
      room : w.limit ≤ length w.buf.items + w.buf.spare;
      within : length w.buf.items ≤ w.limit;
    } };
}

impl PacketWriter {
    /// A writer of packets that have at most `limit` bytes; a header alone always fits. Refuses only for memory.
    pub fn new(alloc: Global, limit: usize) -> Result<Self>
        ensures ok { IfOk result (λ w. w ≡ record { bytes = []; limit = max 12 limit }) }
        ensures memory { IsOkUnless result ErrOutOfMemory }
    {
        let limit = limit.max(PACKET_HEADER_SIZE);
        let buf = BytesMut::with_capacity(alloc, limit)?;
        Ok(PacketWriter { buf, limit })
    }

    /// Begins a packet, with a header and no chunks; what stood in the buffer is gone. It takes no memory.
    pub fn begin(&mut self, header: CommonHeader)
        ensures draft { IsDraft (headed header) self.new.bytes }
        ensures limit { self.new.limit ≡ self.old.limit }
    {
        self.buf.clear();
        let Ok(()) = put_head(&mut self.buf, header) else {
            unreachable!()
        };
    }

    /// Appends a chunk and its padding, if the packet then has at most `limit` bytes, and answers whether it did. It takes no memory.
    /// Refuses a chunk that has no encoding, as `Chunk::marshal_to` does. The packet is as it was then, and where the answer is no.
    pub fn put<K: Chunk>(&mut self, chunk: &K) -> Result<bool>
        ensures fits { IfOk result (λ put. put
            ≡ nat_le (length self.old.bytes + length (padded_encoding (K.wire chunk.now)))
            self.old.limit) }
        ensures put { IfOk result (λ put. put ≡ true → HasEncoding (K.wire chunk.now)
            × (self.new ≡ record self.old {
              bytes = self.old.bytes ++ padded_encoding (K.wire chunk.now);
            })) }
        ensures draft { IfOk result (λ put. put ≡ true → (p : Parts) → IsDraft p self.old.bytes
            → IsDraft (with_chunk (K.wire chunk.now) p) self.new.bytes) }
        ensures full { IfOk result (λ put. put ≡ false → self.new ≡ self.old) }
        ensures err { OnErr result (self.new ≡ self.old) }
        ensures refused { IfErr result (λ e. EncodingFault e (K.wire chunk.now)) }
    {
        chunk.check_form()?;
        chunk.header()?;
        if padded_length_of(chunk) > self.limit - self.buf.len() {
            return Ok(false);
        }
        let Ok(()) = put_chunk(&mut self.buf, chunk) else {
            unreachable!()
        };
        Ok(true)
    }

    /// Writes the checksum into its place: the bytes are then the encoding of the packet that was begun, with the chunks that were put.
    /// No other byte changes. Where no packet was begun nothing changes. It takes no memory.
    pub fn seal<C: Checksum>(&mut self, checksum: &C)
        ensures sealed { (p : Parts) → IsDraft p self.old.bytes
            → self.new.bytes ≡ packet_encoding (C.sum checksum.now) p }
        ensures reads_back { (p : Parts) → IsDraft p self.old.bytes → IsCanonical p
            → ReadsPacket (C.sum checksum.now) self.new.bytes p }
        ensures stored { 12 ≤ length self.old.bytes → self.new.bytes ≡ take 8 self.old.bytes
            ++ le32 (C.sum checksum.now (checksum_input self.old.bytes))
            ++ drop 12 self.old.bytes }
        ensures unbegun { length self.old.bytes < 12 → self.new ≡ self.old }
        ensures limit { self.new.limit ≡ self.old.limit }
    {
        if self.buf.len() >= PACKET_HEADER_SIZE {
            store_checksum(&mut self.buf, 0, checksum);
        }
    }

    /// The bytes that were written.
    pub fn bytes(&self) -> &[u8]
        ensures { result.now ≡ self.now.bytes }
    {
        self.buf.as_slice()
    }
}
