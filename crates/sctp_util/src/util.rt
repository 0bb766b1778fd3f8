//! Serial numbers, padding, the interface of a checksum, and the numbers of chunk types.

ghost use Rattle.std.specs.Prelude.{◌≡◌, ◌+◌, ◌↔◌, ◌⊎◌, ℕ, List, ◌++◌, not, IsTrue};
ghost use Rattle.sctp_util.specs.Serial.{comes_before, at_or_before, comes_after, comes_before16, at_or_before16, comes_after16};
ghost use Rattle.sctp_util.specs.Padding.{padding_of, four_zeroes};
ghost use Rattle.sctp_util.specs.Names.{chunk_type_name};

pub mod bytes_source;

pub use bytes_source::{
    AssociationId, AssociationIdGenerator, ByteSlice, BytesArray, BytesSource, constant_time_eq,
};
use std::fmt;

/// Chunks and parameters begin at multiples of this many bytes (RFC 4960 3.2).
pub const PADDING_MULTIPLE: usize = 4;

/// Whether `i1` comes before `i2`: `i2` lies 1 to 2^31 - 1 after it (RFC 1982 3.2).
#[tactic(auto, unfolding(crate::specs::Serial::distance, crate::specs::Serial::comes_before))]
pub fn sna32lt(i1: u32, i2: u32) -> bool
    ensures { result ≡ comes_before i1 i2 }
{
    let distance = i2.wrapping_sub(i1);
    0 < distance && distance < 1 << 31
}

/// Whether `i1` is `i2` or comes before it (RFC 1982 3.2).
#[tactic(auto, unfolding(crate::specs::Serial::distance, crate::specs::Serial::comes_before, crate::specs::Serial::at_or_before))]
pub fn sna32lte(i1: u32, i2: u32) -> bool
    ensures value { result ≡ at_or_before i1 i2 }
    ensures meaning { IsTrue result ↔ ((i1 ≡ i2) ⊎ IsTrue (comes_before i1 i2)) }
{
    i2.wrapping_sub(i1) < 1 << 31
}

/// Whether `i1` is neither `i2` nor before it: at a distance of exactly 2^31, which
/// RFC 1982 3.2 leaves undefined, it is so in both directions.
#[tactic(auto, unfolding(crate::specs::Serial::distance, crate::specs::Serial::comes_before, crate::specs::Serial::comes_after))]
pub fn sna32gt(i1: u32, i2: u32) -> bool
    ensures { result ≡ comes_after i1 i2 }
{
    i2.wrapping_sub(i1) >= 1 << 31
}

/// Whether `i1` is not before `i2`: it is `i2` or `sna32gt` holds.
#[tactic(auto, unfolding(crate::specs::Serial::distance, crate::specs::Serial::comes_before, crate::specs::Serial::comes_after))]
pub fn sna32gte(i1: u32, i2: u32) -> bool
    ensures value { result ≡ not (comes_before i1 i2) }
    ensures meaning { IsTrue result ↔ ((i1 ≡ i2) ⊎ IsTrue (comes_after i1 i2)) }
{
    !sna32lt(i1, i2)
}

/// Whether `i1` is `i2`.
pub fn sna32eq(i1: u32, i2: u32) -> bool
    ensures { IsTrue result ↔ (i1 ≡ i2) }
{
    i1 == i2
}

/// Whether `i1` comes before `i2`: `i2` lies 1 to 2^15 - 1 after it (RFC 1982 3.2).
/// Stream sequence numbers are compared so (RFC 4960 1.6).
#[tactic(auto, unfolding(crate::specs::Serial::distance16, crate::specs::Serial::comes_before16))]
pub fn sna16lt(i1: u16, i2: u16) -> bool
    ensures { result ≡ comes_before16 i1 i2 }
{
    let distance = i2.wrapping_sub(i1);
    0 < distance && distance < 1 << 15
}

/// Whether `i1` is `i2` or comes before it (RFC 1982 3.2).
#[tactic(auto, unfolding(crate::specs::Serial::distance16, crate::specs::Serial::comes_before16, crate::specs::Serial::at_or_before16))]
pub fn sna16lte(i1: u16, i2: u16) -> bool
    ensures value { result ≡ at_or_before16 i1 i2 }
    ensures meaning { IsTrue result ↔ ((i1 ≡ i2) ⊎ IsTrue (comes_before16 i1 i2)) }
{
    i2.wrapping_sub(i1) < 1 << 15
}

/// Whether `i1` is neither `i2` nor before it: at a distance of exactly 2^15, which
/// RFC 1982 3.2 leaves undefined, it is so in both directions.
#[tactic(auto, unfolding(crate::specs::Serial::distance16, crate::specs::Serial::comes_before16, crate::specs::Serial::comes_after16))]
pub fn sna16gt(i1: u16, i2: u16) -> bool
    ensures { result ≡ comes_after16 i1 i2 }
{
    i2.wrapping_sub(i1) >= 1 << 15
}

/// Whether `i1` is not before `i2`: it is `i2` or `sna16gt` holds.
#[tactic(auto, unfolding(crate::specs::Serial::distance16, crate::specs::Serial::comes_before16, crate::specs::Serial::comes_after16))]
pub fn sna16gte(i1: u16, i2: u16) -> bool
    ensures value { result ≡ not (comes_before16 i1 i2) }
    ensures meaning { IsTrue result ↔ ((i1 ≡ i2) ⊎ IsTrue (comes_after16 i1 i2)) }
{
    !sna16lt(i1, i2)
}

/// Whether `i1` is `i2`.
pub fn sna16eq(i1: u16, i2: u16) -> bool
    ensures { IsTrue result ↔ (i1 ≡ i2) }
{
    i1 == i2
}

/// How many zero bytes fill `len` bytes up to a multiple of four: 0 to 3 (RFC 4960 3.2).
pub fn get_padding_size(len: usize) -> usize
    ensures { result ≡ padding_of len }
{
    (PADDING_MULTIPLE - len % PADDING_MULTIPLE) % PADDING_MULTIPLE
}

/// A checksum of packets: one function of a packet's bytes, taken with four zero bytes where the
/// checksum itself stands (RFC 4960 6.8, Appendix B). Each function will do; SCTP's own is CRC-32C.
pub trait Checksum {
    // the sum of the bytes
    ghost sum: { Self → List ℕ → ℕ };

    /// The sum of `head`, four zero bytes and `tail`: `head` is bytes 0 to 7 of a packet,
    /// `tail` all from byte 12 on. It is written into bytes 8 to 11 with the lowest byte first.
    fn checksum(&self, head: &[u8], tail: &[u8]) -> u32
        ensures { result ≡ sum self.now (head.now ++ four_zeroes ++ tail.now) };
}

/// The number that says what a chunk is, its first byte (RFC 4960 3.2). It prints
/// as its name, or as `Unknown ChunkType: N`.
#[derive(Clone, Copy, Debug, PartialEq, Eq)]
pub struct ChunkType(pub u8);

/// DATA (RFC 4960 3.3.1)
pub const CT_PAYLOAD_DATA: ChunkType = ChunkType(0);

/// INIT (RFC 4960 3.3.2)
pub const CT_INIT: ChunkType = ChunkType(1);

/// INIT-ACK (RFC 4960 3.3.3)
pub const CT_INIT_ACK: ChunkType = ChunkType(2);

/// SACK (RFC 4960 3.3.4)
pub const CT_SACK: ChunkType = ChunkType(3);

/// HEARTBEAT (RFC 4960 3.3.5)
pub const CT_HEARTBEAT: ChunkType = ChunkType(4);

/// HEARTBEAT-ACK (RFC 4960 3.3.6)
pub const CT_HEARTBEAT_ACK: ChunkType = ChunkType(5);

/// ABORT (RFC 4960 3.3.7)
pub const CT_ABORT: ChunkType = ChunkType(6);

/// SHUTDOWN (RFC 4960 3.3.8)
pub const CT_SHUTDOWN: ChunkType = ChunkType(7);

/// SHUTDOWN-ACK (RFC 4960 3.3.9)
pub const CT_SHUTDOWN_ACK: ChunkType = ChunkType(8);

/// ERROR (RFC 4960 3.3.10)
pub const CT_ERROR: ChunkType = ChunkType(9);

/// COOKIE-ECHO (RFC 4960 3.3.11)
pub const CT_COOKIE_ECHO: ChunkType = ChunkType(10);

/// COOKIE-ACK (RFC 4960 3.3.12)
pub const CT_COOKIE_ACK: ChunkType = ChunkType(11);

/// CWR, which no `ChunkKind` reads (RFC 4960 Appendix A). It prints as ECNE.
pub const CT_CWR: ChunkType = ChunkType(13);

/// SHUTDOWN-COMPLETE (RFC 4960 3.3.13)
pub const CT_SHUTDOWN_COMPLETE: ChunkType = ChunkType(14);

/// RECONFIG (RFC 6525 3.1)
pub const CT_RECONFIG: ChunkType = ChunkType(130);

/// FORWARD-TSN (RFC 3758 3.2)
pub const CT_FORWARD_TSN: ChunkType = ChunkType(192);

/// I-FORWARD-TSN (RFC 8260 2.3.1)
pub const CT_I_FORWARD_TSN: ChunkType = ChunkType(194);

impl fmt::Display for ChunkType {
    ghost output = { chunk_type_name };

    fn fmt<W: fmt::Write>(&self, f: &mut fmt::Formatter<W>) -> fmt::Result {
        match self.0 {
            0 => f.write_str("DATA"),
            1 => f.write_str("INIT"),
            2 => f.write_str("INIT-ACK"),
            3 => f.write_str("SACK"),
            4 => f.write_str("HEARTBEAT"),
            5 => f.write_str("HEARTBEAT-ACK"),
            6 => f.write_str("ABORT"),
            7 => f.write_str("SHUTDOWN"),
            8 => f.write_str("SHUTDOWN-ACK"),
            9 => f.write_str("ERROR"),
            10 => f.write_str("COOKIE-ECHO"),
            11 => f.write_str("COOKIE-ACK"),
            13 => f.write_str("ECNE"),
            14 => f.write_str("SHUTDOWN-COMPLETE"),
            130 => f.write_str("RECONFIG"),
            192 => f.write_str("FORWARD-TSN"),
            194 => f.write_str("I-FORWARD-TSN"),
            other => write!(f, "Unknown ChunkType: {other}"),
        }
    }
}
