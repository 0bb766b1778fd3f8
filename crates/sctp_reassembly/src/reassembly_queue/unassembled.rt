//! Unassembled fragments: what came of unordered messages that are not whole. `look` takes a turn; the edits take none.

ghost use Rattle.std.specs.Prelude.{◌≡◌, ℕ, ◌==◌, ◌+◌, ◌-◌, ◌^◌, ◌<◌, ◌≤◌, ◌*◌, ◌&&◌, [], ◌∷◌, length, vec_capacity, min, slice_index_or, insert, remove, take, drop, ◌++◌, OnOk, OnErr, IfOk, IfErr, IfSome, IfNone, Some, None, true, false, IsTrue, not, if◌then◌else◌};
ghost use Rattle.std.specs.VecDeque.{deque_capacity};
ghost use Rattle.sctp_serial.specs.Runs.{IsEarliestRun, HasNoRun};
ghost use Rattle.sctp_util.specs.declared.error.Error.TheVariants.{ErrOutOfMemory};
ghost use Rattle.sctp_data.specs.declared.chunk.chunk_payload_data.ChunkPayloadData.{ChunkPayloadData};
ghost use Rattle.sctp_util.specs.Serial.{comes_before};
ghost use Rattle.sctp_serial.specs.DataChunks.{bytes_of, following_tsn};
ghost use Rattle.sctp_reassembly.specs.reassembly_queue.Loose.{IsOrderFlag};
ghost use Rattle.sctp_reassembly.specs.reassembly_queue.PoolUndo.{put_back};
ghost use Rattle.sctp_serial.specs.Window.{IsSerial};

use crate::reassembly_queue::fragment::Fragment;
use crate::reassembly_queue::fragment_list::FragmentList;
pub use crate::reassembly_queue::outward::run_around;
use sctp_data::chunk::chunk_payload_data::ChunkPayloadData;
use sctp_serial::turns::Turns;
use sctp_util::error::Error;
use sctp_util::util::sna32lt;
use std::alloc::{AllocError, Global};
use std::collections::VecDeque;
use std::marker::Model;

/// The unassembled fragments, by place, from 0. So many at once as there ever were take no memory.
#[derive(Drop)]
pub struct Loose {
    chunks: VecDeque<Fragment>,
    // the length of their user data, up to the greatest usize
    n_bytes: usize,
    // whether they stand in serial order, as fragments of honest peers do
    serial: bool,
    // so many at once take no memory
    places: usize,
    // without the fragment at this place there is no complete message, where that is known; of 32 bits, since each stream has one
    apart: Option<u32>,
}

impl Model for Loose {
    ghost use Rattle.std.specs.Prelude.{◌≡◌, ◌-◌, ◌^◌, ◌≤◌, min, remove, IfSome};
    ghost use Rattle.sctp_serial.specs.Runs.{HasNoRun};
    ghost use Rattle.std.specs.VecDeque.{deque_capacity};
    ghost use Rattle.sctp_serial.specs.DataChunks.{bytes_of};
    ghost use Rattle.sctp_reassembly.specs.reassembly_queue.Loose.{IsOrderFlag, Unassembled};

    ghost Value = { Unassembled };

    ghost view = { λ l. record { chunks = l.chunks.items; places = l.places } };

    ghost invariant = { λ l. record {
      counted : l.n_bytes
          ≡ min (bytes_of l.chunks.items) (2 ^ 64 - 1);
      order : IsOrderFlag l.serial l.chunks.items;
      room : l.places ≤ deque_capacity l.chunks;
      apart : IfSome l.apart (λ place. HasNoRun (remove l.chunks.items place));
    } };
}

/// What is noted of unassembled fragments, beside themselves: their bytes, whether they stand in serial order, and how many at
/// once take no memory.
#[derive(Clone, Copy)]
pub struct Flags {
    n_bytes: usize,
    serial: bool,
    places: usize,
}

/// What undoes an insertion and the removal of neighbours that followed it, where these are given back.
#[derive(Clone, Copy)]
pub struct InsertionUndo {
    // where the fragment was put in
    place: usize,
    // where the neighbours were taken out then
    first: usize,
    // what was noted before
    flags: Flags,
}

impl InsertionUndo {
    /// The undo of an insertion at `place`, after which neighbours were taken out from place `first` on. `flags` are from before
    /// the insertion.
    pub fn new(place: usize, first: usize, flags: Flags) -> Self
        ensures { result ≡ record { place = place; first = first; flags = flags } }
    {
        InsertionUndo {
            place,
            first,
            flags,
        }
    }
}

impl Loose {
    ghost use Rattle.sctp_reassembly.specs.reassembly_queue.Loose.{with_chunks, with_one};
    ghost use Rattle.sctp_reassembly.specs.reassembly_queue.PoolUndo.{insertion_undone, IsNoted, CanUndoInsertion};

    /// No fragments. It takes no memory.
    pub fn new(alloc: Global) -> Self
        ensures { result ≡ record { chunks = []; places = 0 } }
    {
        Loose {
            chunks: VecDeque::new(alloc),
            n_bytes: 0,
            serial: true,
            places: 0,
            apart: None,
        }
    }

    /// How many there are.
    pub fn len(&self) -> usize
        ensures { result ≡ length self.now.chunks }
    {
        self.chunks.len()
    }

    /// What is noted of them.
    pub fn flags(&self) -> Flags
        ensures { IsNoted result self.now }
    {
        Flags {
            n_bytes: self.get_num_bytes(),
            serial: self.is_serial(),
            places: self.places,
        }
    }

    /// How many bytes they carry, or the greatest number where they are more.
    pub fn get_num_bytes(&self) -> usize
        ensures { result ≡ min (bytes_of self.now.chunks) (2 ^ 64 - 1) }
    {
        self.n_bytes
    }

    /// Whether they stand in serial order: each before all that follow it.
    pub fn is_serial(&self) -> bool
        ensures { IsOrderFlag result self.now.chunks }
    {
        self.serial
    }

    /// Looks at the fragment at a place, which is a turn.
    /// Precondition: the place has one.
    pub fn look<'a>(&'a self, place: usize, turns: &mut Turns) -> &'a ChunkPayloadData
        requires { place < length self.now.chunks }
        ensures value { result.now ≡ slice_index_or self.now.chunks place result.now }
        ensures turn { turns.new ≡ turns.old + 1 }
    {
        turns.tick();
        self.chunks[place].chunk()
    }

    /// Whether it is known, from the last insertion, that without the fragment at the place there is no complete message.
    pub(crate) fn is_apart(&self, place: usize) -> bool
        ensures { result ≡ true → HasNoRun (remove self.now.chunks place) }
    {
        match self.apart {
            Some(apart) => apart as usize == place,
            None => false,
        }
    }

    /// Puts a fragment at a place, before the one that is there.
    /// Precondition: the place is at most their number.
    /// Refuses only for memory, and nothing changes then.
    pub fn insert(
        &mut self,
        alloc: Global,
        place: usize,
        chunk: ChunkPayloadData,
    ) -> Result<(), AllocError>
        requires { place ≤ length self.old.chunks }
        ensures ok { OnOk result (self.new ≡ with_one place chunk self.old) }
        ensures err { OnErr result (self.new ≡ self.old) }
    {
        self.insert_counted(alloc, place, chunk, false, &mut Turns::new())
    }

    /// The same, and its looks are added: four at most. Where nothing was complete before, as `searched` says, `is_apart` tells of the place.
    pub(crate) fn insert_counted(
        &mut self,
        alloc: Global,
        place: usize,
        chunk: ChunkPayloadData,
        searched: bool,
        turns: &mut Turns,
    ) -> Result<(), AllocError>
        requires place { place ≤ length self.old.chunks }
        requires searched { searched ≡ true → HasNoRun self.old.chunks }
        ensures ok { OnOk result (self.new ≡ with_one place chunk self.old) }
        ensures err { OnErr result (self.new ≡ self.old) }
        ensures not_back { turns.old ≤ turns.new }
        ensures few { turns.new ≤ turns.old + 4 }
    {
        let serial = self.stays_serial(place, chunk.tsn, turns);
        let len = chunk.user_data.len();
        let fragment = Fragment::new(alloc, chunk)?;
        put_among(&mut self.chunks, place, fragment)?;
        self.n_bytes = self.n_bytes.saturating_add(len);
        self.serial = serial;
        self.places = self.places.max(self.chunks.len());
        self.apart = apart_at(place, searched);
        Ok(())
    }

    // Whether they stand in serial order with the number at the place.
    #[inline(always)]
    fn stays_serial(&self, place: usize, tsn: u32, turns: &mut Turns) -> bool
        requires { place ≤ length self.now.chunks }
        ensures flag { (x : ChunkPayloadData)
            → x.tsn ≡ tsn → IsOrderFlag result (insert self.now.chunks place x) }
        ensures not_back { turns.old ≤ turns.new }
        ensures few { turns.new ≤ turns.old + 4 }
    {
        if !self.serial {
            return false;
        }
        if !is_behind(&self.chunks, place, tsn, turns) {
            return false;
        }
        is_ahead(&self.chunks, place, tsn, turns)
    }

    /// Puts the neighbours back that were taken out, and drops the fragment that was put in. It takes no memory.
    /// Precondition: `CanUndoInsertion`: both places are there, all fit without memory, and what was noted before will hold again.
    pub fn put_back(&mut self, undo: InsertionUndo, kept: Vec<Fragment>)
        requires { CanUndoInsertion undo kept.items self.old }
        ensures { self.new ≡ insertion_undone undo kept.items self.old }
    {
        self.put_back_counted(undo, FragmentList::of(kept), &mut Turns::new());
    }

    /// The same, and a turn is added for each that is put back.
    pub(crate) fn put_back_counted(
        &mut self,
        undo: InsertionUndo,
        kept: FragmentList,
        turns: &mut Turns,
    )
        requires { CanUndoInsertion undo kept self.old }
        ensures value { self.new ≡ insertion_undone undo kept self.old }
        ensures turns { turns.new ≡ turns.old + length kept }
    {
        let InsertionUndo {
            place,
            first,
            flags,
        } = undo;
        put_back(&mut self.chunks, first, kept, turns);
        take_out(&mut self.chunks, place);
        self.n_bytes = flags.n_bytes;
        self.serial = flags.serial;
        self.places = flags.places;
        self.apart = None;
    }

    /// Takes out `count` neighbours from place `first` on.
    /// Precondition: they are there.
    /// Refuses only for memory, and nothing changes then.
    pub fn take_range(
        &mut self,
        alloc: Global,
        first: usize,
        count: usize,
    ) -> Result<Vec<Fragment>, AllocError>
        requires { first + count ≤ length self.old.chunks }
        ensures taken { IfOk result (λ taken. taken.items ≡ take count (drop first self.old.chunks)) }
        ensures rest { OnOk result (self.new ≡ with_chunks self.old
            (take first self.old.chunks ++ drop (first + count) self.old.chunks)) }
        ensures err { OnErr result (self.new ≡ self.old) }
    {
        self.take_range_counted(alloc, first, count, &mut Turns::new())
    }

    /// The same, and its looks are added: one for each that is taken out, where all stand in serial order and their bytes can be counted.
    pub(crate) fn take_range_counted(
        &mut self,
        alloc: Global,
        first: usize,
        count: usize,
        turns: &mut Turns,
    ) -> Result<Vec<Fragment>, AllocError>
        requires { first + count ≤ length self.old.chunks }
        ensures taken { IfOk result (λ taken. taken.items ≡ take count (drop first self.old.chunks)) }
        ensures rest { OnOk result (self.new ≡ with_chunks self.old
            (take first self.old.chunks ++ drop (first + count) self.old.chunks)) }
        ensures err { OnErr result (self.new ≡ self.old) }
        ensures not_back { turns.old ≤ turns.new }
        ensures few { IsSerial self.old.chunks → bytes_of self.old.chunks < 2 ^ 64 - 1
            → turns.new ≤ turns.old + count }
        ensures walk { turns.new ≤ turns.old + count + 2 * length self.old.chunks }
    {
        let mut taken = Vec::with_capacity(alloc, count)?;
        let gone = bytes_from(&self.chunks, first, count, turns);
        take_each(&mut self.chunks, first, count, &mut taken);
        self.n_bytes = bytes_without(self.n_bytes, gone, &self.chunks, turns);
        self.serial = is_still_serial(self.serial, &self.chunks, turns);
        self.apart = None;
        Ok(taken)
    }

    /// The same, where one by itself takes no list.
    pub(crate) fn take_run_counted(
        &mut self,
        alloc: Global,
        first: usize,
        count: usize,
        turns: &mut Turns,
    ) -> Result<FragmentList, AllocError>
        requires { first + count ≤ length self.old.chunks }
        ensures taken { IfOk result (λ taken. taken ≡ take count (drop first self.old.chunks)) }
        ensures rest { OnOk result (self.new ≡ with_chunks self.old
            (take first self.old.chunks ++ drop (first + count) self.old.chunks)) }
        ensures err { OnErr result (self.new ≡ self.old) }
        ensures not_back { turns.old ≤ turns.new }
        ensures few { IsSerial self.old.chunks → bytes_of self.old.chunks < 2 ^ 64 - 1
            → turns.new ≤ turns.old + count }
        ensures walk { turns.new ≤ turns.old + count + 2 * length self.old.chunks }
    {
        if count == 1 {
            return Ok(FragmentList::one(self.take_one(first, turns)));
        }
        let taken = self.take_range_counted(alloc, first, count, turns)?;
        Ok(FragmentList::of(taken))
    }

    // Takes out the fragment at a place. It takes no memory. Its looks are added.
    // Precondition: the place has one.
    fn take_one(&mut self, place: usize, turns: &mut Turns) -> Fragment
        requires { place < length self.old.chunks }
        ensures taken { result ∷ [] ≡ take 1 (drop place self.old.chunks) }
        ensures rest { self.new ≡ with_chunks self.old
            (take place self.old.chunks ++ drop (place + 1) self.old.chunks) }
        ensures not_back { turns.old ≤ turns.new }
        ensures few { IsSerial self.old.chunks → bytes_of self.old.chunks < 2 ^ 64 - 1
            → turns.new ≤ turns.old + 1 }
        ensures walk { turns.new ≤ turns.old + 1 + 2 * length self.old.chunks }
    {
        let gone = bytes_from(&self.chunks, place, 1, turns);
        let fragment = take_out(&mut self.chunks, place);
        self.n_bytes = bytes_without(self.n_bytes, gone, &self.chunks, turns);
        self.serial = is_still_serial(self.serial, &self.chunks, turns);
        self.apart = None;
        fragment
    }

    /// Equal fragments, which share their bytes, and as many places. Refuses only for memory.
    pub fn try_clone(&self, alloc: Global) -> Result<Self, Error>
        ensures ok { IfOk result (λ unassembled. unassembled ≡ self.now) }
        ensures memory { IfErr result (λ e. e ≡ ErrOutOfMemory) }
    {
        Ok(Loose {
            chunks: clone_fragments(alloc, &self.chunks, self.places)?,
            n_bytes: self.n_bytes,
            serial: self.serial,
            places: self.places,
            apart: None,
        })
    }

    /// All of them, which only the queue's accessor lends on.
    pub fn as_deque(&self) -> &VecDeque<Fragment>
        ensures { result.now.items ≡ self.now.chunks }
    {
        &self.chunks
    }

    /// Drops the first `count`. It takes no memory.
    /// Precondition: there are so many.
    pub fn drop_front(&mut self, count: usize)
        requires { count ≤ length self.old.chunks }
        ensures { self.new ≡ with_chunks self.old (drop count self.old.chunks) }
    {
        self.drop_front_counted(count, &mut Turns::new());
    }

    /// The same, and its looks are added: one for each that goes, where all stand in serial order and their bytes can be counted.
    pub(crate) fn drop_front_counted(&mut self, count: usize, turns: &mut Turns)
        requires { count ≤ length self.old.chunks }
        ensures value { self.new ≡ with_chunks self.old (drop count self.old.chunks) }
        ensures not_back { turns.old ≤ turns.new }
        ensures few { IsSerial self.old.chunks → bytes_of self.old.chunks < 2 ^ 64 - 1
            → turns.new ≤ turns.old + count }
        ensures walk { turns.new ≤ turns.old + count + 2 * length self.old.chunks }
    {
        let gone = bytes_from(&self.chunks, 0, count, turns);
        for _gone in 0..count {
            self.chunks.pop_front();
        }
        self.n_bytes = bytes_without(self.n_bytes, gone, &self.chunks, turns);
        self.serial = is_still_serial(self.serial, &self.chunks, turns);
        self.apart = None;
    }
}

// The place, where it is known that without its fragment there is no complete message.
fn apart_at(place: usize, searched: bool) -> Option<u32>
    ensures { IfSome result (λ apart. (apart ≡ place) × (searched ≡ true)) }
{
    if searched && place <= u32::MAX as usize {
        return Some(place as u32);
    }
    None
}

// Puts a fragment at a place, before the one that is there; those of a message in order go to the back, reversed to the front.
// Refuses only for memory, and nothing changes then.
fn put_among(
    chunks: &mut VecDeque<Fragment>,
    place: usize,
    fragment: Fragment,
) -> Result<(), AllocError>
    requires { place ≤ length chunks.old.items }
    ensures ok { OnOk result (chunks.new.items ≡ insert chunks.old.items place fragment) }
    ensures err { OnErr result (chunks.new.items ≡ chunks.old.items) }
    ensures capacity { deque_capacity chunks.old ≤ deque_capacity chunks.new }
{
    if place == chunks.len() {
        chunks.push_back(fragment)?;
    } else if place == 0 {
        chunks.push_front(fragment)?;
    } else {
        chunks.insert(place, fragment)?;
    }
    Ok(())
}

// Whether a number comes before another; both fit.
fn is_before(first: u32, second: u32) -> bool
    ensures value { result ≡ comes_before first second }
    ensures first_fits { first < 2 ^ 32 }
    ensures second_fits { second < 2 ^ 32 }
{
    sna32lt(first, second)
}

// Whether the number comes after what stands before the place: after the nearest and the first.
fn is_behind(chunks: &VecDeque<Fragment>, place: usize, tsn: u32, turns: &mut Turns) -> bool
    requires { place ≤ length chunks.now.items }
    ensures yes { result ≡ true → IsSerial chunks.now.items → (k : ℕ) (d : ChunkPayloadData)
        → k < place → IsTrue (comes_before (slice_index_or chunks.now.items k d).tsn tsn) }
    ensures no { result ≡ false → ((k : ℕ) (d : ChunkPayloadData)
        → k < place → IsTrue (comes_before (slice_index_or chunks.now.items k d).tsn tsn)) → ⊥ }
    ensures not_back { turns.old ≤ turns.new }
    ensures few { turns.new ≤ turns.old + 2 }
{
    if place == 0 {
        return true;
    }
    turns.tick();
    if !is_before(chunks[place - 1].chunk().tsn, tsn) {
        return false;
    }
    turns.tick();
    is_before(chunks[0].chunk().tsn, tsn)
}

// Whether the number comes before what stands from the place on: before the nearest and the last.
fn is_ahead(chunks: &VecDeque<Fragment>, place: usize, tsn: u32, turns: &mut Turns) -> bool
    requires { place ≤ length chunks.now.items }
    ensures yes { result ≡ true → IsSerial chunks.now.items
        → (k : ℕ) (d : ChunkPayloadData) → place ≤ k → k < length chunks.now.items
        → IsTrue (comes_before tsn (slice_index_or chunks.now.items k d).tsn) }
    ensures no { result ≡ false
        → ((k : ℕ) (d : ChunkPayloadData) → place ≤ k → k < length chunks.now.items
        → IsTrue (comes_before tsn (slice_index_or chunks.now.items k d).tsn)) → ⊥ }
    ensures not_back { turns.old ≤ turns.new }
    ensures few { turns.new ≤ turns.old + 2 }
{
    let len = chunks.len();
    if place == len {
        return true;
    }
    turns.tick();
    if !is_before(tsn, chunks[place].chunk().tsn) {
        return false;
    }
    turns.tick();
    is_before(tsn, chunks[len - 1].chunk().tsn)
}

// Whether fragments stand in serial order: each after the one before it, and after the first.
fn are_serial(chunks: &VecDeque<Fragment>, turns: &mut Turns) -> bool
    ensures flag { IsOrderFlag result chunks.now.items }
    ensures not_back { turns.old ≤ turns.new }
    ensures walk { turns.new ≤ turns.old + length chunks.now.items }
{
    let len = chunks.len();
    if len == 0 {
        return true;
    }
    turns.tick();
    let first = chunks[0].chunk().tsn;
    let mut last = first;
    for place in 1..len {
        turns.tick();
        let tsn = chunks[place].chunk().tsn;
        if !is_before(last, tsn) {
            return false;
        }
        if !is_before(first, tsn) {
            return false;
        }
        last = tsn;
    }
    true
}

// Whether what is left stands in serial order: a list that did not is looked through.
fn is_still_serial(was_serial: bool, chunks: &VecDeque<Fragment>, turns: &mut Turns) -> bool
    requires { was_serial ≡ true → IsSerial chunks.now.items }
    ensures flag { IsOrderFlag result chunks.now.items }
    ensures not_back { turns.old ≤ turns.new }
    ensures none { was_serial ≡ true → turns.new ≡ turns.old }
    ensures walk { turns.new ≤ turns.old + length chunks.now.items }
{
    if was_serial {
        return true;
    }
    are_serial(chunks, turns)
}

// How many bytes some neighbours carry, up to the greatest number.
fn bytes_from(chunks: &VecDeque<Fragment>, first: usize, count: usize, turns: &mut Turns) -> usize
    requires { first + count ≤ length chunks.now.items }
    ensures value { result
        ≡ min (bytes_of (take count (drop first chunks.now.items))) (2 ^ 64 - 1) }
    ensures turns { turns.new ≡ turns.old + count }
{
    let mut bytes = 0usize;
    for step in 0..count {
        turns.tick();
        bytes = bytes.saturating_add(chunks[first + step].chunk().user_data.len());
    }
    bytes
}

// The bytes of what is left, where so many were taken of so many: past the greatest number the rest is counted anew.
fn bytes_without(
    n_bytes: usize,
    gone: usize,
    chunks: &VecDeque<Fragment>,
    turns: &mut Turns,
) -> usize
    ensures value { (n : ℕ) → n_bytes ≡ min (n + bytes_of chunks.now.items) (2 ^ 64 - 1)
        → gone ≡ min n (2 ^ 64 - 1) → result ≡ min (bytes_of chunks.now.items) (2 ^ 64 - 1) }
    ensures not_back { turns.old ≤ turns.new }
    ensures none { n_bytes < 2 ^ 64 - 1 → turns.new ≡ turns.old }
    ensures walk { turns.new ≤ turns.old + length chunks.now.items }
{
    if n_bytes < usize::MAX {
        return n_bytes.saturating_sub(gone);
    }
    bytes_from(chunks, 0, chunks.len(), turns)
}

/// Takes out the fragment at a place.
/// Precondition: the place has one.
fn take_out(chunks: &mut VecDeque<Fragment>, place: usize) -> Fragment
    requires { place < length chunks.old.items }
    ensures capacity { deque_capacity chunks.new ≡ deque_capacity chunks.old }
    ensures rest { chunks.new.items ≡ remove chunks.old.items place }
    ensures value { result ≡ slice_index_or chunks.old.items place result }
{
    match chunks.remove(place) {
        Some(fragment) => fragment,
        None => unreachable!(),
    }
}

// Takes out neighbours. The others are turned until these stand in front, and back, so that each of them is moved twice at most.
fn take_each(chunks: &mut VecDeque<Fragment>, first: usize, count: usize, kept: &mut Vec<Fragment>)
    requires in_range { first + count ≤ length chunks.old.items }
    requires empty { kept.old.items ≡ [] }
    requires room { count ≤ vec_capacity kept.old }
    ensures kept { kept.new.items ≡ take count (drop first chunks.old.items) }
    ensures rest { chunks.new.items
        ≡ take first chunks.old.items ++ drop (first + count) chunks.old.items }
    ensures capacity { deque_capacity chunks.new ≡ deque_capacity chunks.old }
{
    chunks.rotate_left(first);
    for _moved in 0..count {
        let Some(fragment) = chunks.pop_front() else {
            unreachable!()
        };
        match kept.push(fragment) {
            Ok(()) => {}
            Err(_) => unreachable!(),
        }
    }
    chunks.rotate_right(first);
}

/// Puts neighbours back at a place, as they were taken out. A turn is added for each.
/// Preconditions: the place is at most the number of fragments; the deque has room for all.
fn put_back(chunks: &mut VecDeque<Fragment>, first: usize, kept: FragmentList, turns: &mut Turns)
    requires in_range { first ≤ length chunks.old.items }
    requires room { length chunks.old.items + length kept ≤ deque_capacity chunks.old }
    ensures value { chunks.new.items ≡ put_back first kept chunks.old.items }
    ensures capacity { deque_capacity chunks.old ≤ deque_capacity chunks.new }
    ensures turns { turns.new ≡ turns.old + length kept }
{
    let mut kept = kept;
    chunks.rotate_left(first);
    while let Some(fragment) = kept.pop() {
        turns.tick();
        match chunks.push_front(fragment) {
            Ok(()) => {}
            Err(_) => unreachable!(),
        }
    }
    chunks.rotate_right(first);
}

// Equal fragments, which share their bytes; so many at once take no memory.
fn clone_fragments(
    alloc: Global,
    chunks: &VecDeque<Fragment>,
    places: usize,
) -> Result<VecDeque<Fragment>, Error>
    ensures ok { IfOk result (λ copies. copies.items ≡ chunks.now.items) }
    ensures room { IfOk result (λ copies. places ≤ deque_capacity copies) }
    ensures memory { IfErr result (λ e. e ≡ ErrOutOfMemory) }
{
    let mut copies = VecDeque::with_capacity(alloc, places)?;
    for place in 0..chunks.len() {
        copies.push_back(chunks[place].try_clone(alloc)?)?;
    }
    Ok(copies)
}

/// The place and the length of the run that ends earliest, by a scan that looks at each once; None where there is none.
#[inline(never)]
pub fn find_run(unassembled: &Loose, turns: &mut Turns) -> Option<(usize, usize)>
    ensures found { IfSome result (λ run. IsEarliestRun unassembled.now.chunks run.0 run.1) }
    ensures none { IfNone result (HasNoRun unassembled.now.chunks) }
    ensures not_back { turns.old ≤ turns.new }
    ensures walk { turns.new ≤ turns.old + length unassembled.now.chunks }
{
    let mut start = None;
    let mut tsn = 0u32;
    for place in 0..unassembled.len() {
        let here = unassembled.look(place, turns);
        start = start_at(start, place, tsn, here);
        tsn = here.tsn;
        if !here.ending_fragment {
            continue;
        }
        if let Some(first) = start {
            return Some((first, place + 1 - first));
        }
    }
    None
}

// Where a run that holds the place may begin, where one that holds the place before may begin there, and that one has the TSN.
fn start_at(start: Option<usize>, place: usize, tsn: u32, here: &ChunkPayloadData) -> Option<usize>
    ensures { result ≡ (if here.now.beginning_fragment then Some place
        else (if here.now.tsn == following_tsn tsn then start else None)) }
{
    if here.beginning_fragment {
        return Some(place);
    }
    if here.tsn != tsn.wrapping_add(1) {
        return None;
    }
    start
}
