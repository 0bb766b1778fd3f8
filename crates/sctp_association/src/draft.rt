//! The packet that is being written.

ghost use Rattle.std.specs.Prelude.{◌≡◌, ◌+◌, ◌-◌, ◌≤◌, ◌++◌, nat_le, max, min, true, false, OnErr, OnOk, [], length};
ghost use Rattle.sctp_chunks.specs.Wire.{HasEncoding};
ghost use Rattle.sctp_association.specs.Packets.{Adds, put_where, sum_of};
ghost use Rattle.sctp_packets.specs.Draft.{IsDraft, headed};
ghost use Rattle.sctp_packets.specs.Packet.{Parts, packet_encoding, padded_encoding};

use sctp_chunks::chunk::Chunk;
use sctp_packets::PacketWriter;
use sctp_packets::checksum::Crc32c;
use sctp_packets::packet::{CommonHeader, PACKET_HEADER_SIZE};
use sctp_util::util::Checksum;
use std::alloc::{AllocError, Global};
use std::marker::Model;

// A packet has at least as many bytes, so that it takes any control chunk of this side.
const LEAST: usize = 512;

// A packet has at most so many bytes, so that a chunk in it has a length (RFC 9260 3.2).
const MOST: usize = 65_535;

/// The checksum 0 of a path whose lower layer detects damage (RFC 9653 5.2).
#[derive(Clone, Copy)]
struct NoSum;

impl Checksum for NoSum {
    ghost sum = { λ _ bytes. 0 };

    fn checksum(&self, _head: &[u8], _tail: &[u8]) -> u32 {
        0
    }
}

/// A packet that is filled, of at most so many bytes. Its buffer is allocated with the first packet.
#[derive(Drop)]
pub(crate) struct Draft {
    alloc: Global,
    limit: usize,
    writer: Option<PacketWriter>,
}

impl Model for Draft {
    ghost use Rattle.std.specs.Prelude.{◌≡◌, ◌≤◌, length};
    ghost use Rattle.sctp_association.specs.Drafts.{bytes_in, limit_in};
    ghost use Rattle.sctp_packets.specs.Draft as draft;

    ghost Value = { draft.Draft };

    ghost view = { λ d. record { bytes = bytes_in d.writer; limit = d.limit } };

    ghost invariant = { λ d. (512 ≤ d.limit) × (d.limit ≤ 65535)
        × (limit_in d.limit d.writer ≡ d.limit)
        × (length (bytes_in d.writer) ≤ d.limit) };
}

impl Draft {
    /// No packet. It has room for its header and any control chunk at least. It takes no memory.
    pub(crate) fn new(alloc: Global, limit: usize) -> Draft
        ensures { result ≡ record { bytes = []; limit = min 65535 (max 512 limit) } }
    {
        Draft {
            alloc,
            limit: limit.max(LEAST).min(MOST),
            writer: None,
        }
    }

    /// Begins a packet. Refuses only for memory; no other call takes any.
    #[tactic(auto, using(crate::proofs::Drafting::headed_within, crate::proofs::Drafting::headed_length))]
    pub(crate) fn begin(&mut self, header: CommonHeader) -> Result<(), AllocError>
        ensures begun { OnOk result (IsDraft (headed header) self.new.bytes) }
        ensures limit { self.new.limit ≡ self.old.limit }
        ensures head { OnOk result (length self.new.bytes ≡ 12) }
        ensures err { OnErr result (self.new ≡ self.old) }
    {
        if self.writer.is_none() {
            match PacketWriter::new(self.alloc, self.limit) {
                Ok(writer) => self.writer = Some(writer),
                Err(_) => return Err(AllocError),
            }
        }
        if let Some(writer) = &mut self.writer {
            writer.begin(header);
        }
        Ok(())
    }

    /// How many bytes the packet has room for.
    pub(crate) fn room(&self) -> usize
        ensures value { result ≡ self.now.limit - length self.now.bytes }
        ensures least { 512 ≤ self.now.limit }
        ensures most { self.now.limit ≤ 65535 }
    {
        self.limit.saturating_sub(self.bytes().len())
    }

    /// Puts a chunk behind the others, if it fits, and answers whether it did. It changes nothing where the answer is no.
    #[tactic(auto, using(crate::proofs::Putting::added_put))]
    pub(crate) fn put<K: Chunk>(&mut self, chunk: &K) -> bool
        ensures added { Adds (put_where result (K.wire chunk.now)) self.old.bytes self.new.bytes }
        ensures limit { self.new.limit ≡ self.old.limit }
        ensures full { result ≡ false → self.new ≡ self.old }
        ensures least { 28 ≤ self.old.limit }
        ensures grows { length self.old.bytes ≤ length self.new.bytes }
        ensures put { result ≡ true
            → self.new.bytes ≡ self.old.bytes ++ padded_encoding (K.wire chunk.now) }
        // It fits where the packet was begun, and has room for it.
        ensures fits { HasEncoding (K.wire chunk.now) → 12 ≤ length self.old.bytes
            → length self.old.bytes + length (padded_encoding (K.wire chunk.now))
            ≤ self.old.limit → result ≡ true }
    {
        match &mut self.writer {
            Some(writer) => match writer.put(chunk) {
                Ok(put) => put,
                Err(_) => false,
            },
            None => false,
        }
    }

    /// Whether it has no chunk.
    pub(crate) fn is_empty(&self) -> bool
        ensures { result ≡ nat_le (length self.now.bytes) 12 }
    {
        self.bytes().len() <= PACKET_HEADER_SIZE
    }

    /// Writes the checksum, or 0 in its place.
    pub(crate) fn seal(&mut self, is_zero: bool)
        ensures sealed { (p : Parts) → IsDraft p self.old.bytes
            → self.new.bytes ≡ packet_encoding (sum_of is_zero) p }
        ensures limit { self.new.limit ≡ self.old.limit }
    {
        let Some(writer) = &mut self.writer else {
            return;
        };
        if is_zero {
            writer.seal(&NoSum);
            return;
        }
        writer.seal(&Crc32c);
    }

    /// The bytes of the packet: none before the first.
    pub(crate) fn bytes(&self) -> &[u8]
        ensures value { result.now ≡ self.now.bytes }
        ensures within { length result.now ≤ self.now.limit }
    {
        match &self.writer {
            Some(writer) => writer.bytes(),
            None => &[],
        }
    }
}
