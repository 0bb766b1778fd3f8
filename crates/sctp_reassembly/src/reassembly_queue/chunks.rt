//! The fragments of one message.

ghost use Rattle.std.specs.Prelude.{◌≡◌, ◌==◌, ◌+◌, ◌*◌, ◌%◌, ◌^◌, ◌-◌, ◌<◌, ◌≤◌, ◌&&◌, [], ◌∷◌, length, map, min, take, drop, ◌++◌, option_map, slice_index_or, true, false, not, OnOk, OnErr, IfOk, IfErr, IfSome, IfNone, MatchOption, if◌then◌else◌};
ghost use Rattle.std.specs.List.{concat, insert};
ghost use Rattle.sctp_reassembly.specs.reassembly_queue.Chunks.{left_from, left_of, piece_of, left_after, taken_whole, bytes_given};
ghost use Rattle.sctp_reassembly.specs.declared.reassembly_queue.chunks.Chunk.{Chunk};
ghost use Rattle.sctp_reassembly.specs.declared.reassembly_queue.chunks.Placed.{Placed};
ghost use Rattle.sctp_data.specs.declared.chunk.chunk_payload_data.ChunkPayloadData.{ChunkPayloadData};
ghost use Rattle.sctp_reassembly.specs.reassembly_queue.Fragments.{payload_of, is_complete, with_chunk, without_chunk, answer_with, is_complete_after};
ghost use Rattle.sctp_reassembly.specs.reassembly_queue.Resets.{chunks_upto, rest_past};
ghost use Rattle.sctp_serial.specs.DataChunks.{bytes_of};
ghost use Rattle.sctp_serial.specs.Ascending.{IsAscending, IsOrder};
ghost use Rattle.sctp_reassembly.specs.reassembly_queue.Orders.{digits, IsOffOnlyOutOfOrder};
ghost use Rattle.sctp_reassembly.specs.reassembly_queue.Undo.{IsNotedOf};
ghost use Rattle.sctp_util.specs.declared.error.Error.TheVariants.{ErrOutOfMemory, ErrShortBuffer};

use crate::reassembly_queue::fragment::Fragment;
use crate::reassembly_queue::fragment_list::FragmentList;
use crate::reassembly_queue::fragment_places::{insertion, tsn_of};
use bytes::{Bytes, BytesMut};
use sctp_data::chunk::chunk_payload_data::{ChunkPayloadData, PayloadProtocolIdentifier};
use sctp_serial::serial::distance;
use sctp_serial::turns::Turns;
use sctp_util::error::{Error, Result};
use sctp_util::util::sna32lte;
use std::alloc::Global;
use std::marker::Model;

/// The fragments that share one stream sequence number, or those of one unordered message.
#[derive(Drop)]
pub struct Fragments {
    ssn: u16,
    ppi: PayloadProtocolIdentifier,
    // whether their TSNs ascend
    ascending: bool,
    chunks: FragmentList,
    // the length of their user data, up to the greatest usize
    n_bytes: usize,
}

// A place in a list of messages is of this size, which SECURITY.md counts twice, as such a list may be half empty.
const _: () = prove!(size_of::<Fragments>() == 48);

impl Model for Fragments {
    ghost use Rattle.std.specs.Prelude.{◌≡◌, ◌-◌, ◌^◌, min, map};
    ghost use Rattle.sctp_data.specs.ChunkSet.{ChunkSet};
    ghost use Rattle.sctp_serial.specs.DataChunks.{bytes_of};
    ghost use Rattle.sctp_serial.specs.Ascending.{IsOrder};
    ghost use Rattle.sctp_reassembly.specs.reassembly_queue.Orders.{IsOffOnlyOutOfOrder};

    ghost Value = { ChunkSet };

    ghost view = { λ s. record { ssn = s.ssn; ppi = s.ppi; chunks = s.chunks } };

    ghost invariant = { λ s. record {
      counted : s.n_bytes
          ≡ min (bytes_of s.chunks) (2 ^ 64 - 1);
      order : IsOrder s.ascending (map (λ c. c.tsn) s.chunks);
      exact : IsOffOnlyOutOfOrder s.ascending (map (λ c. c.tsn) s.chunks);
    } };
}

impl Fragments {
    /// A set of these fragments, in the order in which they are given. It takes no memory.
    pub fn new(ssn: u16, ppi: PayloadProtocolIdentifier, chunks: Vec<Fragment>) -> Self
        ensures { result ≡ record { ssn = ssn; ppi = ppi; chunks = chunks.items } }
    {
        Fragments::new_counted(ssn, ppi, FragmentList::of(chunks), &mut Turns::new())
    }

    /// The same, and its turns are added: two for each fragment at most.
    pub(crate) fn new_counted(
        ssn: u16,
        ppi: PayloadProtocolIdentifier,
        chunks: FragmentList,
        turns: &mut Turns,
    ) -> Self
        ensures value { result ≡ record { ssn = ssn; ppi = ppi; chunks = chunks } }
        ensures not_back { turns.old ≤ turns.new }
        ensures cost { turns.new ≤ turns.old + 2 * length chunks }
    {
        let n_bytes = bytes_in(chunks.as_slice(), turns);
        let ascending = is_ascending(chunks.as_slice(), turns);
        Fragments {
            ssn,
            ppi,
            ascending,
            chunks,
            n_bytes,
        }
    }

    /// The stream sequence number, 0 of an unordered message.
    pub fn ssn(&self) -> u16
        ensures { result ≡ self.now.ssn }
    {
        self.ssn
    }

    /// What the user data is, as the fragment that made the set says.
    pub fn ppi(&self) -> PayloadProtocolIdentifier
        ensures { result ≡ self.now.ppi }
    {
        self.ppi
    }

    /// The fragments.
    pub fn fragments(&self) -> &[Fragment]
        ensures { result.now ≡ self.now.chunks }
    {
        self.chunks.as_slice()
    }

    /// The fragments by themselves. It takes no memory.
    pub(crate) fn into_fragments(self) -> FragmentList
        ensures { result ≡ self.chunks }
    {
        let Fragments { chunks, .. } = self;
        chunks
    }

    /// An equal set, which shares its bytes. Refuses only for memory.
    pub fn try_clone(&self, alloc: Global) -> Result<Self>
        ensures ok { IfOk result (λ set. set ≡ self.now) }
        ensures memory { IfErr result (λ e. e ≡ ErrOutOfMemory) }
    {
        let chunks = self.chunks.try_clone(alloc)?;
        Ok(Fragments::new_counted(self.ssn, self.ppi, chunks, &mut Turns::new()))
    }

    /// Whether the first fragment begins, the last ends, and TSNs rise by one (RFC 4960 3.3.1). Where TSNs are known to ascend it
    /// looks at both ends alone.
    pub fn is_complete(&self) -> bool
        ensures { result ≡ is_complete self.now.chunks }
    {
        self.is_complete_counted(&mut Turns::new())
    }

    /// The same, and its turns are added: two at most, but where TSNs do not ascend.
    pub(crate) fn is_complete_counted(&self, turns: &mut Turns) -> bool
        ensures value { result ≡ is_complete self.now.chunks }
        ensures not_back { turns.old ≤ turns.new }
        ensures cost { turns.new ≤ turns.old + length self.now.chunks + 2 }
        ensures few { IsAscending (map (λ c. c.tsn) self.now.chunks)
            → turns.new ≤ turns.old + 2 }
    {
        are_complete(self.ascending, self.chunks.as_slice(), turns)
    }

    /// How many bytes the fragments carry, or the greatest number where they are more.
    pub fn len(&self) -> usize
        ensures { result ≡ min (bytes_of self.now.chunks) (2 ^ 64 - 1) }
    {
        self.n_bytes
    }

    /// Puts a fragment before the first that it comes before, and says whether the set is complete then;
    /// None where its TSN is there already. Refuses only for memory, and the set is as it was then.
    pub fn put(&mut self, chunk: ChunkPayloadData) -> Result<Option<bool>>
        ensures ok { OnOk result (self.new ≡ with_chunk chunk self.old) }
        ensures answer { IfOk result (λ whole. whole ≡ answer_with chunk self.old.chunks) }
        ensures err { OnErr result (self.new ≡ self.old) }
        ensures memory { IfErr result (λ e. e ≡ ErrOutOfMemory) }
    {
        let fragment = Fragment::new(self.chunks.alloc(), chunk)?;
        match self.put_placed(fragment, &mut Turns::new())? {
            Some(put) => Ok(Some(put.whole)),
            None => Ok(None),
        }
    }

    /// The same, and says where the fragment is, from which `remove` takes it out again.
    /// Its turns are added: where TSNs ascend before and after, the digits of the number of fragments and five more at most.
    pub(crate) fn put_placed(
        &mut self,
        chunk: Fragment,
        turns: &mut Turns,
    ) -> Result<Option<Placed>>
        ensures ok { OnOk result (self.new ≡ with_chunk chunk self.old) }
        ensures answer { IfOk result (λ put. option_map (λ (p : Placed). p.whole) put
            ≡ answer_with chunk self.old.chunks) }
        ensures undo { IfOk result (λ put. MatchOption put (self.new ≡ self.old)
            (λ p. (p.place < length self.new.chunks)
            × (without_chunk p.place self.new ≡ self.old))) }
        ensures err { OnErr result (self.new ≡ self.old) }
        ensures memory { IfErr result (λ e. e ≡ ErrOutOfMemory) }
        ensures not_back { turns.old ≤ turns.new }
        ensures cost { turns.new ≤ turns.old + 3 * length self.old.chunks + 6 }
        ensures few { IsAscending (map (λ c. c.tsn) self.old.chunks)
            → IsAscending (map (λ c. c.tsn) self.new.chunks)
            → turns.new ≤ turns.old + digits (length self.old.chunks) + 5 }
    {
        let Some(at) = insertion(self.ascending, self.chunks.as_slice(), chunk.tsn, turns) else {
            return Ok(None);
        };
        let len = chunk.user_data.len();
        self.chunks.insert(at.place, chunk)?;
        self.n_bytes = self.n_bytes.saturating_add(len);
        self.ascending = at.ascending;
        let whole = self.is_complete_counted(turns);
        Ok(Some(Placed {
            place: at.place,
            whole,
        }))
    }

    /// What is noted of them.
    pub(crate) fn noted(&self) -> Noted
        ensures { IsNotedOf result self.now.chunks }
    {
        Noted {
            n_bytes: self.n_bytes,
            ascending: self.ascending,
        }
    }

    /// Takes out the fragment at a place, with what was noted before it was put in. It takes no memory, and looks at no other.
    /// Precondition: the place has one, and what was noted holds of the others.
    pub(crate) fn remove(&mut self, place: usize, noted: Noted)
        requires in_range { place < length self.old.chunks }
        requires noted { IsNotedOf noted (without_chunk place self.old).chunks }
        ensures { self.new ≡ without_chunk place self.old }
    {
        self.chunks.remove(place);
        self.n_bytes = noted.n_bytes;
        self.ascending = noted.ascending;
    }

    /// Keeps the fragments past the TSN, and counts the bytes of the others up to the greatest number. It takes no memory.
    pub(crate) fn keep_past(&mut self, tsn: u32) -> usize
        ensures rest { self.new ≡ rest_past tsn self.old }
        ensures bytes { result
            ≡ min (bytes_of (chunks_upto tsn self.old.chunks)) (2 ^ 64 - 1) }
    {
        let gone = bytes_upto(self.chunks.as_slice(), tsn);
        let mut turns = Turns::new();
        self.chunks.keep_past(tsn);
        let left = self.chunks.as_slice();
        self.n_bytes = bytes_in(left, &mut turns);
        self.ascending = still_ascending(self.ascending, left, &mut turns);
        gone
    }
}

/// What is noted of the fragments of a set, beside themselves: their bytes up to the greatest number, and whether their TSNs ascend.
#[derive(Clone, Copy)]
pub(crate) struct Noted {
    n_bytes: usize,
    ascending: bool,
}

/// Where a fragment was put in, and whether the set is complete with it.
#[derive(Clone, Copy)]
pub(crate) struct Placed {
    pub(crate) place: usize,
    pub(crate) whole: bool,
}

/// A piece of a message.
#[derive(Debug, Drop)]
pub struct Chunk {
    pub bytes: Bytes,
}

/// The fragments of a message, which can be read whole, or taken piece by piece.
#[derive(Drop)]
pub struct Chunks {
    set: Fragments,
    // the fragment that the next piece begins in, and where in it
    index: usize,
    offset: usize,
}

impl Chunks {
    /// A message of these fragments, of which nothing was taken. It takes no memory.
    pub fn new(ssn: u16, ppi: PayloadProtocolIdentifier, chunks: Vec<Fragment>) -> Self
        ensures left { concat (left_of result) ≡ payload_of chunks.items }
        ensures value { result ≡ record {
          set = record {
            ssn = ssn;
            ppi = ppi;
            chunks = chunks.items;
          };
          index = 0;
          offset = 0;
        } }
    {
        Chunks::of(Fragments::new(ssn, ppi, chunks))
    }

    /// The message of a set, of which nothing was taken.
    pub(crate) fn of(set: Fragments) -> Self
        ensures { result ≡ record { set = set; index = 0; offset = 0 } }
    {
        Chunks {
            set,
            index: 0,
            offset: 0,
        }
    }

    /// An equal message, of which as much was taken. Refuses only for memory.
    pub fn try_clone(&self, alloc: Global) -> Result<Self>
        ensures ok { IfOk result (λ message. message ≡ self.now) }
        ensures memory { IfErr result (λ e. e ≡ ErrOutOfMemory) }
    {
        Ok(Chunks {
            set: self.set.try_clone(alloc)?,
            index: self.index,
            offset: self.offset,
        })
    }

    /// The stream sequence number, 0 of an unordered message.
    pub fn ssn(&self) -> u16
        ensures { result ≡ self.now.set.ssn }
    {
        self.set.ssn()
    }

    /// What the user data is.
    pub fn ppi(&self) -> PayloadProtocolIdentifier
        ensures { result ≡ self.now.set.ppi }
    {
        self.set.ppi()
    }

    /// All fragments of the message.
    pub fn fragments(&self) -> &[Fragment]
        ensures { result.now ≡ self.now.set.chunks }
    {
        self.set.fragments()
    }

    /// Whether the first fragment begins, the last ends, and TSNs rise by one (RFC 4960 3.3.1).
    pub fn is_complete(&self) -> bool
        ensures { result ≡ is_complete self.now.set.chunks }
    {
        self.set.is_complete()
    }

    /// How many bytes the message has, or the greatest number where they are more.
    pub fn len(&self) -> usize
        ensures { result ≡ min (bytes_of self.now.set.chunks) (2 ^ 64 - 1) }
    {
        self.set.len()
    }

    /// Whether the message has no bytes.
    pub fn is_empty(&self) -> bool
        ensures { result ≡ (bytes_of self.now.set.chunks == 0) }
    {
        self.set.len() == 0
    }

    /// Puts a fragment before the first that it comes before, unless its TSN is there, and says whether the set became
    /// complete by it. What was taken stays as a count of fragments: one put in front of the next piece moves that piece back.
    /// Refuses only for memory, and the message is as it was then.
    pub fn push(&mut self, chunk: ChunkPayloadData) -> Result<bool>
        ensures ok { OnOk result (self.new
            ≡ record self.old { set = with_chunk chunk self.old.set }) }
        ensures answer { IfOk result (λ whole. whole
            ≡ is_complete_after chunk self.old.set.chunks) }
        ensures err { OnErr result (self.new ≡ self.old) }
        ensures memory { IfErr result (λ e. e ≡ ErrOutOfMemory) }
    {
        Ok(self.set.put(chunk)?.unwrap_or(false))
    }

    /// Copies the complete message into the buffer and gives its length in bytes. What
    /// follows in the buffer stays, and nothing is taken.
    /// Refuses with `ErrShortBuffer`, exactly where the message is longer: the
    /// buffer is filled with its beginning then.
    pub fn read(&self, buf: &mut [u8]) -> Result<usize>
        ensures ok { IfOk result (λ n. (n ≡ length (payload_of self.now.set.chunks))
            × (n ≤ length buf.old) × (buf.new ≡ payload_of self.now.set.chunks ++ drop n buf.old)) }
        ensures short { IfErr result (λ e. (e ≡ ErrShortBuffer)
            × (length buf.old < length (payload_of self.now.set.chunks))
            × (buf.new ≡ take (length buf.old) (payload_of self.now.set.chunks))) }
    {
        let mut n_written = 0usize;
        for chunk in self.set.fragments() {
            let data = chunk.user_data.as_slice();
            let n = data.len().min(buf.len() - n_written);
            put_at(buf, n_written, &data[..n]);
            n_written += n;
            if n < data.len() {
                return Err(Error::ErrShortBuffer);
            }
        }
        Ok(n_written)
    }

    /// The next `max_length` bytes of the message, or as many as are left; None once every fragment was taken. A message of empty
    /// fragments gives one empty piece. With a `max_length` of 0 a fragment with bytes is never taken: each call gives an empty piece.
    /// No more room is asked for than the piece takes, however great `max_length` is; no clause says so.
    /// Refuses only for memory, and nothing is taken then.
    pub fn next(&mut self, alloc: Global, max_length: usize) -> Result<Option<Chunk>>
        ensures piece { IfOk result (λ piece. option_map (λ (c : Chunk). c.bytes) piece
            ≡ piece_of max_length (left_of self.old)) }
        ensures left { OnOk result (left_of self.new ≡ left_after max_length (left_of self.old)) }
        ensures joins { IfOk result (λ piece. bytes_given piece ++ concat (left_of self.new)
            ≡ concat (left_of self.old)) }
        ensures asked { IfOk result (λ piece. 0 < length (left_of self.new)
            → length (bytes_given piece) ≡ max_length) }
        ensures ends { length (concat (left_of self.old)) ≤ max_length
            → OnOk result (left_of self.new ≡ []) }
        ensures set { self.new.set ≡ self.old.set }
        ensures err { OnErr result (self.new ≡ self.old) }
        ensures memory { IfErr result (λ e. e ≡ ErrOutOfMemory) }
    {
        self.next_counted(alloc, max_length, &mut Turns::new())
    }

    /// The same, and its turns are added: at most two for each fragment that the piece takes to its end, and two more.
    pub fn next_counted(
        &mut self,
        alloc: Global,
        max_length: usize,
        turns: &mut Turns,
    ) -> Result<Option<Chunk>>
        ensures piece { IfOk result (λ piece. option_map (λ (c : Chunk). c.bytes) piece
            ≡ piece_of max_length (left_of self.old)) }
        ensures left { OnOk result (left_of self.new ≡ left_after max_length (left_of self.old)) }
        ensures joins { IfOk result (λ piece. bytes_given piece ++ concat (left_of self.new)
            ≡ concat (left_of self.old)) }
        ensures asked { IfOk result (λ piece. 0 < length (left_of self.new)
            → length (bytes_given piece) ≡ max_length) }
        ensures ends { length (concat (left_of self.old)) ≤ max_length
            → OnOk result (left_of self.new ≡ []) }
        ensures set { self.new.set ≡ self.old.set }
        ensures err { OnErr result (self.new ≡ self.old) }
        ensures memory { IfErr result (λ e. e ≡ ErrOutOfMemory) }
        ensures not_back { turns.old ≤ turns.new }
        ensures cost { turns.new ≤ turns.old + 2 * (taken_whole max_length (left_of self.old) + 1) }
    {
        let chunks = self.set.fragments();
        if self.index >= chunks.len() {
            return Ok(None);
        }
        let room = room_of(chunks, self.index, self.offset, max_length, turns);
        let mut buf = BytesMut::with_capacity(alloc, room)?;
        let (index, offset) = gather(chunks, self.index, self.offset, max_length, &mut buf, turns)?;
        let bytes = buf.freeze()?;
        self.index = index;
        self.offset = offset;
        Ok(Some(Chunk { bytes }))
    }
}

// Writes bytes into a buffer from a place on.
fn put_at(buf: &mut [u8], at: usize, bytes: &[u8])
    requires { at + length bytes.now ≤ length buf.old }
    ensures { buf.new ≡ take at buf.old ++ bytes.now ++ drop (at + length bytes.now) buf.old }
{
    let end = at + bytes.len();
    buf[at..end].copy_from_slice(bytes);
}

// Looks at a fragment, which is a turn.
fn look<'a>(chunks: &'a [Fragment], place: usize, turns: &mut Turns) -> &'a ChunkPayloadData
    requires { place < length chunks.now }
    ensures value { result.now ≡ slice_index_or chunks.now place result.now }
    ensures turn { turns.new ≡ turns.old + 1 }
{
    turns.tick();
    chunks[place].chunk()
}

// How many bytes are left from a place on, or the limit where they are more. It looks no further than the limit.
fn room_of(
    chunks: &[Fragment],
    index: usize,
    offset: usize,
    limit: usize,
    turns: &mut Turns,
) -> usize
    ensures room { result ≡ min limit (length (concat (left_from chunks.now index offset))) }
    ensures not_back { turns.old ≤ turns.new }
    ensures cost { turns.new
        ≤ turns.old + taken_whole limit (left_from chunks.now index offset) + 1 }
{
    let mut index = index;
    let mut offset = offset;
    let mut wanted = limit;
    while index < chunks.len() && wanted > 0 {
        let len = look(chunks, index, turns).user_data.len();
        wanted = wanted.saturating_sub(len.saturating_sub(offset));
        index += 1;
        offset = 0;
    }
    limit - wanted
}

// Appends the next bytes of the fragments, at most so many, and says where the next piece begins.
fn gather(
    chunks: &[Fragment],
    index: usize,
    offset: usize,
    max_length: usize,
    buf: &mut BytesMut,
    turns: &mut Turns,
) -> Result<(usize, usize)>
    requires { buf.old.items ≡ [] }
    ensures bytes { OnOk result (buf.new.items
        ≡ take max_length (concat (left_from chunks.now index offset))) }
    ensures left { IfOk result (λ at. left_from chunks.now at.0 at.1
        ≡ left_after max_length (left_from chunks.now index offset)) }
    ensures memory { IfErr result (λ e. e ≡ ErrOutOfMemory) }
    ensures not_back { turns.old ≤ turns.new }
    ensures cost { turns.new
        ≤ turns.old + taken_whole max_length (left_from chunks.now index offset) + 1 }
{
    let mut index = index;
    let mut offset = offset;
    let mut room = max_length;
    while index < chunks.len() {
        let data = look(chunks, index, turns).user_data.as_slice();
        let start = offset.min(data.len());
        let n = room.min(data.len() - start);
        buf.extend_from_slice(&data[start..start + n])?;
        if n < data.len() - start {
            return Ok((index, start + n));
        }
        room -= n;
        index += 1;
        offset = 0;
    }
    Ok((index, offset))
}

// Whether fragments are complete. Among TSNs that ascend both ends tell: if the last is as far from the first as there are others,
// none is missing between them.
fn are_complete(ascending: bool, chunks: &[Fragment], turns: &mut Turns) -> bool
    requires { IsOrder ascending (map (λ c. c.tsn) chunks.now) }
    ensures value { result ≡ is_complete chunks.now }
    ensures not_back { turns.old ≤ turns.new }
    ensures cost { turns.new ≤ turns.old + length chunks.now + 2 }
    ensures few { ascending ≡ true → turns.new ≤ turns.old + 2 }
{
    if !may_be_complete(chunks, turns) {
        return false;
    }
    if ascending {
        return true;
    }
    follow_on(chunks, turns)
}

// A test of both ends, which complete fragments pass, and of those whose TSNs ascend no others.
fn may_be_complete(chunks: &[Fragment], turns: &mut Turns) -> bool
    ensures no { result ≡ false → is_complete chunks.now ≡ false }
    ensures yes { result ≡ true → IsAscending (map (λ c. c.tsn) chunks.now)
        → is_complete chunks.now ≡ true }
    ensures not_back { turns.old ≤ turns.new }
    ensures cost { turns.new ≤ turns.old + 2 }
{
    let len = chunks.len();
    if len == 0 {
        return false;
    }
    turns.tick();
    turns.tick();
    let first = chunks[0].chunk();
    let last = chunks[len - 1].chunk();
    if !first.beginning_fragment {
        return false;
    }
    if !last.ending_fragment {
        return false;
    }
    last.tsn == tsn_after(first.tsn, len - 1)
}

// The TSN so many places further.
fn tsn_after(tsn: u32, places: usize) -> u32
    ensures value { result ≡ (tsn + places % 2 ^ 32) % 2 ^ 32 }
    ensures fits { tsn < 2 ^ 32 }
{
    tsn.wrapping_add((places % (1 << 32)) as u32)
}

// Whether the first fragment begins, the last ends, and TSNs rise by one. It stands apart, as TSNs ascend of honest peers.
#[cold]
#[inline(never)]
fn follow_on(chunks: &[Fragment], turns: &mut Turns) -> bool
    ensures value { result ≡ is_complete chunks.now }
    ensures not_back { turns.old ≤ turns.new }
    ensures cost { turns.new ≤ turns.old + length chunks.now }
{
    let Some((first, rest)) = chunks.split_first() else {
        return false;
    };
    turns.tick();
    if !first.beginning_fragment {
        return false;
    }
    let mut last = first;
    for chunk in rest {
        turns.tick();
        if chunk.tsn != last.tsn.wrapping_add(1) {
            return false;
        }
        last = chunk;
    }
    last.ending_fragment
}

/// How many bytes fragments carry, or the greatest number where they are more.
pub(crate) fn bytes_in(chunks: &[Fragment], turns: &mut Turns) -> usize
    ensures value { result ≡ min (bytes_of chunks.now) (2 ^ 64 - 1) }
    ensures turns { turns.new ≡ turns.old + length chunks.now }
{
    let mut len = 0usize;
    for chunk in chunks {
        turns.tick();
        len = len.saturating_add(chunk.user_data.len());
    }
    len
}

// How many bytes the fragments at or before the TSN carry, or the greatest number where they are more.
fn bytes_upto(chunks: &[Fragment], tsn: u32) -> usize
    ensures { result ≡ min (bytes_of (chunks_upto tsn chunks.now)) (2 ^ 64 - 1) }
{
    let mut len = 0usize;
    for chunk in chunks {
        if sna32lte(chunk.tsn, tsn) {
            let more = chunk.user_data.len();
            len = len.saturating_add(more);
        }
    }
    len
}

// Whether TSNs ascend, where those of more fragments, of which some are gone, did or did not.
fn still_ascending(before: bool, chunks: &[Fragment], turns: &mut Turns) -> bool
    requires { before ≡ true → IsAscending (map (λ c. c.tsn) chunks.now) }
    ensures order { IsOrder result (map (λ c. c.tsn) chunks.now) }
    ensures exact { IsOffOnlyOutOfOrder result (map (λ c. c.tsn) chunks.now) }
{
    if before {
        return true;
    }
    is_ascending(chunks, turns)
}

// Whether TSNs ascend, seen by how far each lies from the first.
fn is_ascending(chunks: &[Fragment], turns: &mut Turns) -> bool
    ensures order { IsOrder result (map (λ c. c.tsn) chunks.now) }
    ensures exact { IsOffOnlyOutOfOrder result (map (λ c. c.tsn) chunks.now) }
    ensures not_back { turns.old ≤ turns.new }
    ensures cost { turns.new ≤ turns.old + length chunks.now }
{
    let len = chunks.len();
    if len == 0 {
        return true;
    }
    turns.tick();
    let first = tsn_of(&chunks[0]);
    let mut far = 0;
    for place in 1..len {
        turns.tick();
        let next = distance(first, chunks[place].tsn);
        if next <= far || next >= 1 << 31 {
            return false;
        }
        far = next;
    }
    true
}
