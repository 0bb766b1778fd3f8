//! The remainder after further bytes: sixteen a step, then four, then one.

ghost use Rattle.std.specs.Prelude.{◌≡◌, ◌<◌, ◌≤◌, ◌%◌, ◌+◌, ℕ, fold, bit_xor};
ghost use Rattle.crc32c.specs.Castagnoli.{byte_step, zero_bytes};

use crate::tables::TABLES;

/// The remainder after so many zero bytes, from the lowest byte of a word.
#[inline(always)]
fn after_zeros(zeros: usize, word: u32) -> u32
    requires some { 0 < zeros }
    requires tables { zeros ≤ 16 }
    ensures { result ≡ zero_bytes zeros (word % 256) }
{
    TABLES[zeros - 1][(word & 0xff) as usize]
}

/// The remainder after so many zero bytes, from all four bytes of a word.
#[inline(always)]
fn word_after_zeros(zeros: usize, word: u32) -> u32
    requires some { 4 ≤ zeros }
    requires tables { zeros ≤ 16 }
    ensures { result ≡ zero_bytes zeros word }
{
    let low = after_zeros(zeros, word) ^ after_zeros(zeros - 1, word >> 8);
    let high = after_zeros(zeros - 2, word >> 16) ^ after_zeros(zeros - 3, word >> 24);
    low ^ high
}

/// The remainder after four bytes and then so many zero bytes.
#[inline(always)]
fn four_then_zeros(remainder: u32, four: &[u8; 4], zeros: usize) -> u32
    requires tables { zeros ≤ 12 }
    ensures { result ≡ zero_bytes zeros (fold byte_step remainder four.now) }
{
    word_after_zeros(zeros + 4, remainder ^ u32::from_le_bytes(*four))
}

/// What four bytes and then so many zero bytes leave where the remainder before them is 0. From
/// another one they leave the exclusive or of this and of what it becomes after as many zero bytes.
#[inline(always)]
fn four_alone(four: &[u8; 4], zeros: usize) -> u32
    requires tables { zeros ≤ 12 }
    ensures { (r : ℕ) → zero_bytes zeros (fold byte_step r four.now)
        ≡ bit_xor (zero_bytes (zeros + 4) r) result }
{
    four_then_zeros(0, four, zeros)
}

/// `four_alone` with no zero bytes. Each byte is loaded by itself, which takes fewer instructions
/// and more loads than to cut it out of a word.
#[inline(always)]
fn last_four_alone(four: &[u8; 4]) -> u32
    ensures { (r : ℕ) → fold byte_step r four.now ≡ bit_xor (zero_bytes 4 r) result }
{
    let low = after_zeros(4, u32::from(four[0])) ^ after_zeros(3, u32::from(four[1]));
    let high = after_zeros(2, u32::from(four[2])) ^ after_zeros(1, u32::from(four[3]));
    low ^ high
}

#[inline(always)]
fn next_byte(remainder: u32, byte: u8) -> u32
    ensures { result ≡ byte_step remainder byte }
{
    after_zeros(1, remainder ^ u32::from(byte)) ^ (remainder >> 8)
}

#[inline(always)]
fn next_four(remainder: u32, four: &[u8; 4]) -> u32
    ensures { result ≡ fold byte_step remainder four.now }
{
    four_then_zeros(remainder, four, 0)
}

/// Only the lookups of the first four bytes wait for the remainder before.
#[inline(always)]
fn next_sixteen(remainder: u32, fours: &[[u8; 4]; 4]) -> u32
    ensures { result ≡ fold (fold byte_step) remainder fours.now }
{
    let last = four_alone(&fours[2], 4) ^ last_four_alone(&fours[3]);
    let last = four_alone(&fours[1], 8) ^ last;
    four_then_zeros(remainder, &fours[0], 12) ^ last
}

fn next_sixteens(remainder: u32, sixteens: &[[[u8; 4]; 4]]) -> u32
    ensures { result ≡ fold (fold (fold byte_step)) remainder sixteens.now }
{
    sixteens
        .iter()
        .fold(remainder, |r, sixteen| next_sixteen(r, sixteen))
}

fn next_fours(remainder: u32, fours: &[[u8; 4]]) -> u32
    ensures { result ≡ fold (fold byte_step) remainder fours.now }
{
    fours.iter().fold(remainder, |r, four| next_four(r, four))
}

fn next_each(remainder: u32, bytes: &[u8]) -> u32
    ensures { result ≡ fold byte_step remainder bytes.now }
{
    bytes.iter().fold(remainder, |r, byte| next_byte(r, *byte))
}

/// The remainder after these bytes.
pub fn next_bytes(remainder: u32, bytes: &[u8]) -> u32
    ensures { result ≡ fold byte_step remainder bytes.now }
{
    let (fours, rest) = bytes.as_chunks::<4>();
    let (sixteens, fours) = fours.as_chunks::<4>();
    next_each(next_fours(next_sixteens(remainder, sixteens), fours), rest)
}
