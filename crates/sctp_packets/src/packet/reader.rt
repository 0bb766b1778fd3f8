//! The chunks of a packet, read one after another, without a list.

ghost use Rattle.std.specs.Prelude.{◌≡◌, [], None, Some, IfOk, IfErr, IfSome, IfNone, IsOk, IsOkUnless, OnErr, drop, length, option_map, ◌<◌};
ghost use Rattle.sctp_util.specs.Field.{u16_at, u32_at};
ghost use Rattle.sctp_util.specs.Outcome.{OrMemory, GivesUnlessMemory};
ghost use Rattle.sctp_util.specs.declared.error.Error.TheVariants.{ErrOutOfMemory};
ghost use Rattle.sctp_chunks.specs.Fits.{Canonical};
ghost use Rattle.sctp_chunks.specs.Kind.{wire_of, IsFreshKind};
ghost use Rattle.sctp_chunks.specs.Wire.{HasEncoding, Wire};
ghost use Rattle.sctp_packets.specs.Fault.{HeadFault, PlaceFault};
ghost use Rattle.sctp_packets.specs.Packet.{IsHeaded, Steps, after};

use super::{CommonHeader, open_packet, read_front};
use bytes::Bytes;
use sctp_chunks::chunk::chunk_kind::ChunkKind;
use sctp_util::error::Result;
use sctp_util::util::Checksum;
use std::alloc::Global;
use std::marker::Model;

/// The chunks of a packet that are not read yet. Read to the end it gives the chunks of `Packet::unmarshal`, and the first refusal is
/// its refusal; the chunks before were given then.
#[derive(Drop)]
pub struct PacketReader {
    rest: Bytes,
}

impl Model for PacketReader {
    ghost use Rattle.std.specs.Prelude.{ℕ, List};

    ghost Value = { List ℕ };

    ghost view = { λ r. r.rest };
}

impl PacketReader {
    /// Reads the header and tests the checksum. Refuses with `ErrPacketRawTooSmall`, `ErrChecksumMismatch`, or for memory.
    pub fn open<C: Checksum>(raw: &Bytes, checksum: &C) -> Result<(CommonHeader, PacketReader)>
        ensures headed { IfOk result (λ x. IsHeaded (C.sum checksum.now) raw.now) }
        ensures source_port { IfOk result (λ x. x.0.source_port ≡ u16_at raw.now 0) }
        ensures destination_port { IfOk result (λ x. x.0.destination_port ≡ u16_at raw.now 2) }
        ensures verification_tag { IfOk result (λ x. x.0.verification_tag ≡ u32_at raw.now 4) }
        ensures rest { IfOk result (λ x. x.1 ≡ drop 12 raw.now) }
        ensures only { IsHeaded (C.sum checksum.now) raw.now → IsOkUnless result ErrOutOfMemory }
        ensures fault { IfErr result
            (λ e. OrMemory e (HeadFault (C.sum checksum.now) e raw.now)) }
    {
        let (header, rest) = open_packet(raw, checksum)?;
        Ok((header, PacketReader { rest }))
    }

    /// The next chunk; None at the end. Refuses as `Packet::unmarshal` does for a chunk, or for memory, and stays where it is then.
    pub fn next(&mut self, alloc: Global) -> Result<Option<ChunkKind>>
        ensures chunk { IfOk result (λ r. IfSome r (λ c. Steps self.old (wire_of c)
            × (self.new ≡ after self.old))) }
        ensures shorter { IfOk result (λ r. IfSome r (λ _. length self.new < length self.old)) }
        ensures end { IfOk result (λ r. IfNone r ((self.old ≡ []) × (self.new ≡ []))) }
        ensures ended { self.old ≡ [] → IfOk result (λ r. option_map wire_of r ≡ None) }
        ensures idle { self.old ≡ [] → IsOk result }
        ensures only { (w : Wire) → Steps self.old w
            → GivesUnlessMemory result (λ r. option_map wire_of r ≡ Some w) }
        ensures fault { IfErr result (λ e. OrMemory e (PlaceFault e self.old)) }
        ensures rewritable { IfOk result (λ r. IfSome r (λ c. HasEncoding (wire_of c))) }
        ensures canonical { IfOk result (λ r. IfSome r (λ c. Canonical (wire_of c))) }
        ensures fresh { IfOk result (λ r. IfSome r (λ c. IsFreshKind c)) }
        ensures err { OnErr result (self.new ≡ self.old) }
    {
        if self.rest.is_empty() {
            return Ok(None);
        }
        let (chunk, length) = read_front(alloc, &self.rest)?;
        self.rest.advance(length);
        Ok(Some(chunk))
    }
}
