//! Numbers as they stand in a packet, the highest byte first.

ghost use Rattle.std.specs.Prelude.{◌≡◌, ◌+◌, ◌≤◌, ◌++◌, length};
ghost use Rattle.sctp_util.specs.Field.{be16, be32, le32, u16_at, u32_at, u32_le_at};

use bytes::BytesMut;

/// The number in the two bytes from `at` on, the highest first (RFC 4960 3).
/// Precondition: they are there.
#[tactic(auto, unfolding(crate::specs::Field::u16_at))]
pub fn read_u16(bytes: &[u8], at: usize) -> u16
    requires { at + 2 ≤ length bytes.now }
    ensures { result ≡ u16_at bytes.now at }
{
    u16::from_be_bytes([bytes[at], bytes[at + 1]])
}

/// The number in the four bytes from `at` on, the highest first (RFC 4960 3).
/// Precondition: they are there.
#[tactic(auto, unfolding(crate::specs::Field::u32_at))]
pub fn read_u32(bytes: &[u8], at: usize) -> u32
    requires { at + 4 ≤ length bytes.now }
    ensures { result ≡ u32_at bytes.now at }
{
    u32::from_be_bytes([bytes[at], bytes[at + 1], bytes[at + 2], bytes[at + 3]])
}

/// The number in the four bytes from `at` on, the lowest first, as a checksum stands (RFC 4960 Appendix B).
/// Precondition: they are there.
#[tactic(auto, unfolding(crate::specs::Field::u32_le_at))]
pub fn read_u32_le(bytes: &[u8], at: usize) -> u32
    requires { at + 4 ≤ length bytes.now }
    ensures { result ≡ u32_le_at bytes.now at }
{
    u32::from_le_bytes([bytes[at], bytes[at + 1], bytes[at + 2], bytes[at + 3]])
}

/// The four bytes of a number, the lowest first.
#[tactic(auto, unfolding(crate::specs::Field::le32))]
pub fn u32_le_bytes(n: u32) -> [u8; 4]
    ensures { result ≡ le32 n }
{
    n.to_le_bytes()
}

/// Appends the two bytes of a number, the highest first. It takes no memory.
/// Precondition: the buffer has room for them.
#[tactic(auto, unfolding(crate::specs::Field::be16))]
pub fn put_u16(buf: &mut BytesMut, n: u16)
    requires { 2 ≤ buf.old.spare }
    ensures items { buf.new.items ≡ buf.old.items ++ be16 n }
    ensures spare { buf.new.spare + 2 ≡ buf.old.spare }
{
    buf.extend_reserved(&u16::to_be_bytes(n));
}

/// Appends the four bytes of a number, the highest first. It takes no memory.
/// Precondition: the buffer has room for them.
#[tactic(auto, unfolding(crate::specs::Field::be32))]
pub fn put_u32(buf: &mut BytesMut, n: u32)
    requires { 4 ≤ buf.old.spare }
    ensures items { buf.new.items ≡ buf.old.items ++ be32 n }
    ensures spare { buf.new.spare + 4 ≡ buf.old.spare }
{
    buf.extend_reserved(&u32::to_be_bytes(n));
}
