//! Bytes that are handed out in pieces.

ghost use Rattle.std.specs.Prelude.{◌≡◌, ◌+◌, ◌-◌, ◌^◌, ◌<◌, ◌≤◌, ◌↔◌, ◌++◌, ◌==◌, ◌&&◌, ℕ, List, [], length, drop, take, nat_lt, min, slice_index_or, IfOk, IfErr, OnErr, IsTrue, if◌then◌else◌};
ghost use Rattle.std.specs.List.{concat};
ghost use Rattle.sctp_util.specs.declared.error.Error.TheVariants.{ErrOutOfMemory};
ghost use Rattle.sctp_util.specs.Sources.{used_up};

use crate::error::Result;
use bytes::Bytes;
use std::alloc::Global;
use std::mem;

/// Whether two byte strings are equal. Where their lengths are, the loop looks at all bytes,
/// so that the place of a difference does not show in its time; nothing is proved of time.
pub fn constant_time_eq(a: &[u8], b: &[u8]) -> bool
    ensures { IsTrue result ↔ (a.now ≡ b.now) }
{
    if a.len() != b.len() {
        return false;
    }
    let mut same = true;
    for i in 0..a.len() {
        same = same & (a[i] == b[i]);
    }
    same
}

/// The number of an association.
pub type AssociationId = u32;

/// Gives numbers to associations. Only the interface is here: nothing is promised
/// of the numbers, not even that none comes twice.
pub trait AssociationIdGenerator: Send + Sync {
    /// The next number.
    fn generate_aid(&mut self) -> AssociationId;

    /// How long a number lasts, in nanoseconds, None where it does not end.
    fn aid_lifetime(&self) -> Option<u64>;
}

/// A source of one or more buffers, which are made into `Bytes` as they are asked
/// for. The pieces, joined, are the bytes of the source.
pub trait BytesSource {
    // the bytes that are left
    ghost left: { Self → List ℕ };

    /// The next piece, of at most `limit` bytes, and a count of the chunks of the source that it used up, of which the trait
    /// promises nothing: each source says what it counts. The piece is empty exactly where the limit is 0 or nothing is left.
    /// Refuses only for memory, and what is left is the same then.
    fn pop_chunk(&mut self, alloc: Global, limit: usize) -> Result<(Bytes, usize)>
        ensures joins { IfOk result (λ p. p.0 ++ left self.new ≡ left self.old) }
        ensures limited { IfOk result (λ p. length p.0 ≤ limit) }
        ensures some { IfOk result (λ p. 0 < limit → 0 < length (left self.old) → 0 < length p.0) }
        ensures err { OnErr result (left self.new ≡ left self.old) }
        ensures memory { IfErr result (λ e. e ≡ ErrOutOfMemory) };

    /// Whether any bytes are left.
    fn has_remaining(&self) -> bool
        ensures { result ≡ nat_lt 0 (length (left self.now)) };

    /// How many bytes are left.
    fn remaining(&self) -> usize
        ensures { result ≡ length (left self.now) };
}

/// A source over a slice, which is copied piece by piece. It counts as one chunk, used up with its last bytes.
#[derive(Drop)]
pub struct ByteSlice<'a> {
    data: &'a [u8],
}

impl<'a> ByteSlice<'a> {
    /// A source of all bytes of the slice. It copies none.
    pub fn from_slice(slice: &'a [u8]) -> Self
        ensures { result.data.now ≡ slice.now }
    {
        ByteSlice { data: slice }
    }
}

impl<'a> BytesSource for ByteSlice<'a> {
    ghost left = { λ s. s.data.now };

    fn pop_chunk(&mut self, alloc: Global, limit: usize) -> Result<(Bytes, usize)>
        ensures joins { IfOk result (λ p. p.0 ++ self.new.data.now ≡ self.old.data.now) }
        ensures limited { IfOk result (λ p. length p.0 ≤ limit) }
        ensures some { IfOk result (λ p. 0 < limit
            → 0 < length self.old.data.now → 0 < length p.0) }
        ensures used { IfOk result (λ p. p.1
            ≡ (if nat_lt 0 (length p.0) && (length self.new.data.now == 0) then 1 else 0)) }
        ensures err { OnErr result (self.new.data.now ≡ self.old.data.now) }
        ensures memory { IfErr result (λ e. e ≡ ErrOutOfMemory) }
    {
        let len = limit.min(self.data.len());
        if len == 0 {
            return Ok((Bytes::new(), 0));
        }
        let piece = Bytes::copy_from_slice(alloc, &self.data[..len])?;
        self.data = &self.data[len..];
        let used = if self.data.is_empty() { 1 } else { 0 };
        Ok((piece, used))
    }

    fn has_remaining(&self) -> bool {
        !self.data.is_empty()
    }

    fn remaining(&self) -> usize {
        self.data.len()
    }
}

/// A source over buffers that are there. It counts whole buffers, empty ones that were skipped included. What is handed out is no
/// longer among the bytes that are left; what a used-up buffer then holds is not promised.
#[derive(Drop)]
pub struct BytesArray<'a> {
    chunks: &'a mut [Bytes],
    // how many buffers were used up
    consumed: usize,
    ghost within: { consumed ≤ length chunks.now },
    ghost small: { length (concat (drop consumed chunks.now)) < 2 ^ 64 },
}

impl<'a> BytesArray<'a> {
    /// A source over these buffers, none of which is used up yet.
    /// Precondition: their lengths sum to less than 2^64.
    pub fn from_chunks(chunks: &'a mut [Bytes]) -> Self
        requires { length (concat chunks.old) < 2 ^ 64 }
        ensures chunks { result.chunks.now ≡ chunks.old }
        ensures consumed { result.consumed ≡ 0 }
        ensures same_reference { result.chunks.ghost_name ≡ chunks.entry.ghost_name }
    {
        BytesArray {
            chunks,
            consumed: 0,
        }
    }
}

// The place of the first buffer that has bytes, from this one on, or the end.
fn first_filled(chunks: &[Bytes], from: usize) -> usize
    requires { from ≤ length chunks.now }
    ensures in_range { result ≤ length chunks.now }
    ensures onwards { from ≤ result }
    ensures filled { result < length chunks.now → 0 < length (slice_index_or chunks.now result []) }
    ensures skipped { concat (drop result chunks.now) ≡ concat (drop from chunks.now) }
    ensures used { (limit : ℕ) → used_up limit (drop from chunks.now)
        ≡ (result - from) + used_up limit (drop result chunks.now) }
{
    let mut place = from;
    while place < chunks.len() {
        if !chunks[place].is_empty() {
            return place;
        }
        place += 1;
    }
    place
}

// The next piece of the buffers from this one on, and the first that is left.
fn pop_from(chunks: &mut [Bytes], from: usize, limit: usize) -> Result<(Bytes, usize)>
    requires { from ≤ length chunks.old }
    ensures joins { IfOk result (λ p. p.0 ++ concat (drop p.1 chunks.new)
        ≡ concat (drop from chunks.old)) }
    ensures left { IfOk result (λ p. concat (drop from chunks.new) ≡ concat (drop p.1 chunks.new)) }
    ensures limited { IfOk result (λ p. length p.0 ≤ limit) }
    ensures some { IfOk result (λ p. 0 < limit
        → 0 < length (concat (drop from chunks.old)) → 0 < length p.0) }
    ensures used { IfOk result (λ p. (from ≤ p.1)
        × (p.1 ≤ length chunks.old) × (p.1 - from ≡ used_up limit (drop from chunks.old))) }
    ensures err { OnErr result (chunks.new ≡ chunks.old) }
    ensures memory { IfErr result (λ e. e ≡ ErrOutOfMemory) }
{
    let place = first_filled(chunks, from);
    if place == chunks.len() {
        return Ok((Bytes::new(), place));
    }
    if chunks[place].len() <= limit {
        let piece = mem::replace(&mut chunks[place], Bytes::new());
        return Ok((piece, place + 1));
    }
    let piece = chunks[place].split_to(limit)?;
    Ok((piece, place))
}

impl<'a> BytesSource for BytesArray<'a> {
    ghost left = { λ a. concat (drop a.consumed a.chunks.now) };

    fn pop_chunk(&mut self, _alloc: Global, limit: usize) -> Result<(Bytes, usize)>
        ensures joins { IfOk result (λ p. p.0 ++ concat (drop self.new.consumed self.new.chunks.now)
            ≡ concat (drop self.old.consumed self.old.chunks.now)) }
        ensures limited { IfOk result (λ p. length p.0 ≤ limit) }
        ensures some { IfOk result (λ p. 0 < limit
            → 0 < length (concat (drop self.old.consumed self.old.chunks.now)) → 0 < length p.0) }
        ensures used { IfOk result (λ p. p.1
            ≡ used_up limit (drop self.old.consumed self.old.chunks.now)) }
        ensures same_reference { self.new.chunks.ghost_name ≡ self.old.chunks.ghost_name }
        ensures err { OnErr result (concat (drop self.new.consumed self.new.chunks.now)
            ≡ concat (drop self.old.consumed self.old.chunks.now)) }
        ensures memory { IfErr result (λ e. e ≡ ErrOutOfMemory) }
    {
        let (piece, consumed) = pop_from(self.chunks, self.consumed, limit)?;
        let used = consumed - self.consumed;
        self.consumed = consumed;
        Ok((piece, used))
    }

    fn has_remaining(&self) -> bool {
        let chunks = &*self.chunks;
        first_filled(chunks, self.consumed) < chunks.len()
    }

    fn remaining(&self) -> usize {
        let chunks = &*self.chunks;
        let mut total = 0;
        for chunk in &chunks[self.consumed..] {
            total += chunk.len();
        }
        total
    }
}
