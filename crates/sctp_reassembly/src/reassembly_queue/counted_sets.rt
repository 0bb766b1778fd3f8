//! Sets of fragments, whose chunks are counted.

ghost use Rattle.std.specs.Prelude.{◌≡◌, List, ◌+◌, ◌-◌, ◌*◌, ◌^◌, ◌<◌, ◌≤◌, [], ◌∷◌, ◌++◌, length, min, not, drop, set, remove, slice_index_or, option_map, MatchOption, OnOk, OnErr, IfOk, IfErr, IfSome, IfNone, IsOk, None};
ghost use Rattle.std.specs.List.{All, insert, filter};
ghost use Rattle.std.specs.VecDeque.{deque_capacity};
ghost use Rattle.sctp_data.specs.ChunkSet.{ChunkSet};
ghost use Rattle.sctp_util.specs.declared.error.Error.TheVariants.{ErrOutOfMemory};
ghost use Rattle.sctp_reassembly.specs.reassembly_queue.Orders.{digits, IsInOrder};
ghost use Rattle.sctp_reassembly.specs.reassembly_queue.Counts.{KeepsFew, set_chunks};
ghost use Rattle.sctp_util.specs.Lists.{change_at};
ghost use Rattle.sctp_reassembly.specs.declared.reassembly_queue.chunks.Placed.{Placed};
ghost use Rattle.sctp_reassembly.specs.reassembly_queue.Fragments.{with_chunk, without_chunk, answer_with};
ghost use Rattle.sctp_reassembly.specs.reassembly_queue.ReassemblyQueue.{set_bytes};
ghost use Rattle.sctp_reassembly.specs.reassembly_queue.Resets.{is_old_message, of_new_use, dropped_bytes};
ghost use Rattle.sctp_reassembly.specs.reassembly_queue.Skips.{is_discarded};
ghost use Rattle.sctp_reassembly.specs.reassembly_queue.Undo.{IsNotedOf};

use crate::reassembly_queue::chunks::{Fragments, Noted, Placed};
use crate::reassembly_queue::fragment::Fragment;
use crate::reassembly_queue::ordered_skips::SsnSpan;
use crate::reassembly_queue::room::give_back;
use crate::reassembly_queue::{resets, skips};
use sctp_serial::turns::Turns;
use sctp_util::error::Result;
use std::alloc::Global;
use std::collections::VecDeque;
use std::marker::Model;

/// Sets of fragments in a deque, and how many chunks they have together.
#[derive(Drop)]
pub(crate) struct CountedSets {
    sets: VecDeque<Fragments>,
    // up to the greatest usize
    n_chunks: usize,
}

impl Model for CountedSets {
    ghost use Rattle.std.specs.Prelude.{◌≡◌, ◌-◌, ◌^◌, min};
    ghost use Rattle.std.specs.VecDeque.{deque_capacity};
    ghost use Rattle.sctp_reassembly.specs.reassembly_queue.Counts.{SetDeque, set_chunks};

    ghost Value = { SetDeque };

    ghost view = { λ s. record { items = s.sets.items; capacity = deque_capacity s.sets } };

    ghost invariant = { λ s. s.n_chunks ≡ min (set_chunks s.sets.items) (2 ^ 64 - 1) };
}

impl CountedSets {
    /// No sets. It takes no memory.
    pub(crate) fn new(alloc: Global) -> Self
        ensures { result.items ≡ [] }
    {
        CountedSets {
            sets: VecDeque::new(alloc),
            n_chunks: 0,
        }
    }

    /// Equal sets, which share their bytes. Refuses only for memory.
    pub(crate) fn try_clone(&self, alloc: Global) -> Result<Self>
        ensures ok { IfOk result (λ sets. sets.items ≡ self.now.items) }
        ensures memory { IfErr result (λ e. e ≡ ErrOutOfMemory) }
    {
        let sets = clone_sets(alloc, &self.sets)?;
        Ok(CountedSets {
            sets,
            n_chunks: self.n_chunks,
        })
    }

    /// All of them.
    pub(crate) fn as_deque(&self) -> &VecDeque<Fragments>
        ensures { result.now.items ≡ self.now.items }
    {
        &self.sets
    }

    /// How many chunks they have, or the greatest number where they have more.
    pub(crate) fn chunk_count(&self) -> usize
        ensures { result ≡ min (set_chunks self.now.items) (2 ^ 64 - 1) }
    {
        self.n_chunks
    }

    /// Takes out the first set, and gives room back (`KeepsFew`). Its turns are added: one at most while fewer than 2^64 - 1 chunks are
    /// held, else one for each set.
    pub(crate) fn pop_front(&mut self, turns: &mut Turns) -> Option<Fragments>
        ensures some { IfSome result (λ s. self.old.items ≡ s ∷ self.new.items) }
        ensures none { IfNone result ((self.old.items ≡ []) × (self.new.items ≡ self.old.items)) }
        ensures rest { self.new.items ≡ drop 1 self.old.items }
        ensures not_back { turns.old ≤ turns.new }
        ensures cost { turns.new ≤ turns.old + length self.old.items }
        ensures few { set_chunks self.old.items < 2 ^ 64 - 1 → turns.new ≤ turns.old + 1 }
        ensures room { IfSome result (λ s. KeepsFew self.new) }
    {
        let gone = first_chunks(&self.sets);
        let set = self.sets.pop_front()?;
        turns.tick();
        self.n_chunks = chunks_without(self.n_chunks, gone, &self.sets, turns);
        give_back(&mut self.sets);
        Some(set)
    }

    /// Puts a chunk into the set at a place, and says where it is there and whether that set is complete then; None where its
    /// TSN is there already. Its turns are added: where the TSNs of that set ascend before and after, the digits of the number of
    /// its fragments and six more at most.
    /// Precondition: the place has a set.
    /// Refuses only for memory, and nothing changes then.
    pub(crate) fn put_into(
        &mut self,
        place: usize,
        chunk: Fragment,
        turns: &mut Turns,
    ) -> Result<Option<Placed>>
        requires { place < length self.old.items }
        ensures ok { OnOk result ((d : ChunkSet) → self.new.items ≡ set self.old.items place
            (with_chunk chunk (slice_index_or self.old.items place d))) }
        ensures answer { IfOk result (λ put. (d : ChunkSet)
            → option_map (λ (p : Placed). p.whole) put
            ≡ answer_with chunk (slice_index_or self.old.items place d).chunks) }
        ensures undo { IfOk result (λ put. MatchOption put (self.new.items ≡ self.old.items)
            (λ p. ((d : ChunkSet)
            → p.place < length (slice_index_or self.new.items place d).chunks)
            × (change_at (without_chunk p.place) place self.new.items ≡ self.old.items))) }
        ensures err { OnErr result (self.new.items ≡ self.old.items) }
        ensures memory { IfErr result (λ e. e ≡ ErrOutOfMemory) }
        ensures not_back { turns.old ≤ turns.new }
        ensures cost { (d : ChunkSet) → turns.new
            ≤ turns.old + 3 * length (slice_index_or self.old.items place d).chunks + 7 }
        ensures few { (d : ChunkSet) → IsInOrder (slice_index_or self.old.items place d)
            → IsInOrder (slice_index_or self.new.items place d) → turns.new
            ≤ turns.old + digits (length (slice_index_or self.old.items place d).chunks) + 6 }
    {
        turns.tick();
        let set = &mut self.sets[place];
        let put = set.put_placed(chunk, turns)?;
        if put.is_some() {
            self.n_chunks = self.n_chunks.saturating_add(1);
        }
        Ok(put)
    }

    /// What is noted of the set at a place.
    /// Precondition: the place has one.
    pub(crate) fn noted_at(&self, place: usize) -> Noted
        requires { place < length self.now.items }
        ensures { (d : ChunkSet) → IsNotedOf result (slice_index_or self.now.items place d).chunks }
    {
        self.sets[place].noted()
    }

    /// Takes the chunk at a place out of the set at a place, with what was noted of that set before it was put in, and how many chunks all
    /// had. It takes no memory, and looks at no other set.
    /// Precondition: both places exist, and what was noted holds of what is left.
    pub(crate) fn remove_from(&mut self, place: usize, at: usize, noted: Noted, n_chunks: usize)
        requires set { place < length self.old.items }
        requires chunk { (d : ChunkSet)
            → at < length (slice_index_or self.old.items place d).chunks }
        requires noted { (d : ChunkSet) → IsNotedOf noted
            (without_chunk at (slice_index_or self.old.items place d)).chunks }
        requires counted { n_chunks ≡ min
            (set_chunks (change_at (without_chunk at) place self.old.items)) (2 ^ 64 - 1) }
        ensures { self.new.items ≡ change_at (without_chunk at) place self.old.items }
    {
        self.sets[place].remove(at, noted);
        self.n_chunks = n_chunks;
    }

    /// Takes out the set at a place, where all had so many chunks before it was put in. It takes no memory, and looks at no other set.
    /// Precondition: the place has one, and so many chunks are left.
    pub(crate) fn remove(&mut self, place: usize, n_chunks: usize)
        requires in_range { place < length self.old.items }
        requires counted { n_chunks
            ≡ min (set_chunks (remove self.old.items place)) (2 ^ 64 - 1) }
        ensures { self.new.items ≡ remove self.old.items place }
    {
        self.sets.remove(place);
        self.n_chunks = n_chunks;
    }

    /// Takes out the last set, where all had so many chunks before it was put in. It takes no memory, and looks at no other set.
    /// Precondition: there is one, and so many chunks are left.
    pub(crate) fn pop_back(&mut self, n_chunks: usize) -> Fragments
        requires some { 0 < length self.old.items }
        requires counted { n_chunks ≡ min
            (set_chunks (remove self.old.items (length self.old.items - 1))) (2 ^ 64 - 1) }
        ensures { self.old.items ≡ self.new.items ++ result ∷ [] }
    {
        let Some(set) = self.sets.pop_back() else {
            unreachable!()
        };
        self.n_chunks = n_chunks;
        set
    }

    /// Puts a set at a place, before the one that is there.
    /// Precondition: the place is at most their number.
    /// Refuses only for memory, and nothing changes then.
    #[inline(never)]
    pub(crate) fn insert(&mut self, place: usize, set: Fragments) -> Result<()>
        requires { place ≤ length self.old.items }
        ensures ok { OnOk result (self.new.items ≡ insert self.old.items place set) }
        ensures err { OnErr result (self.new.items ≡ self.old.items) }
        ensures memory { IfErr result (λ e. e ≡ ErrOutOfMemory) }
    {
        let more = set.fragments().len();
        reserve(&mut self.sets, 1)?;
        self.sets.insert(place, set)?;
        self.n_chunks = self.n_chunks.saturating_add(more);
        Ok(())
    }

    /// Makes room for so many more sets. Refuses only for memory, and not where it is for none.
    pub(crate) fn reserve(&mut self, more: usize) -> Result<()>
        ensures items { self.new.items ≡ self.old.items }
        ensures room { OnOk result (length self.new.items + more ≤ self.new.capacity) }
        ensures none { more ≡ 0 → IsOk result }
        ensures memory { IfErr result (λ e. e ≡ ErrOutOfMemory) }
    {
        reserve(&mut self.sets, more)
    }

    /// The allocator.
    pub(crate) fn alloc(&self) -> Global {
        *self.sets.allocator()
    }

    /// Gives back all room, where no set is left. It takes no memory.
    pub(crate) fn give_back(&mut self)
        ensures { self.new.items ≡ self.old.items }
    {
        if self.sets.is_empty() {
            self.sets.shrink_to_fit();
        }
    }

    /// Puts a set behind the others. It takes no memory.
    /// Precondition: there is room for it.
    pub(crate) fn push_back_reserved(&mut self, set: Fragments)
        requires { length self.old.items < self.old.capacity }
        ensures items { self.new.items ≡ self.old.items ++ set ∷ [] }
        ensures capacity { self.new.capacity ≡ self.old.capacity }
    {
        let more = set.fragments().len();
        self.sets.push_back_reserved(set);
        self.n_chunks = self.n_chunks.saturating_add(more);
    }

    /// Removes the sets that a skip discards: the incomplete ones, those alone whose numbers are in the stretch where there is
    /// one, and those alone that miss a TSN where there is a bound. Counts their bytes up to the greatest number, and gives room back
    /// (`KeepsFew`). Its turns are added: four for each set at most where there is no bound and TSNs ascend in each.
    pub(crate) fn discard(
        &mut self,
        passed: Option<SsnSpan>,
        bound: Option<u32>,
        turns: &mut Turns,
    ) -> usize
        ensures rest { self.new.items
            ≡ filter (λ s. not (is_discarded passed bound s)) self.old.items }
        ensures bytes { result
            ≡ min (set_bytes (filter (is_discarded passed bound) self.old.items)) (2 ^ 64 - 1) }
        ensures not_back { turns.old ≤ turns.new }
        ensures few { bound ≡ None → All IsInOrder self.old.items
            → turns.new ≤ turns.old + 4 * length self.old.items }
        ensures walk { turns.new
            ≤ turns.old + 4 * length self.old.items + 2 * set_chunks self.old.items }
        ensures room { KeepsFew self.new }
    {
        let gone = skips::discard(&mut self.sets, passed, bound, turns);
        self.n_chunks = chunks_in(&self.sets, turns);
        give_back(&mut self.sets);
        gone
    }

    /// Moves the complete messages of the old use, which ends with the TSN, behind others, and keeps of the rest what is of
    /// the new use. Counts the bytes that are dropped up to the greatest number, and gives room back (`KeepsFew`). It takes no memory.
    /// Precondition: there is room for those that are moved.
    pub(crate) fn end_use(&mut self, last_tsn: u32, moved: &mut CountedSets) -> usize
        requires { length moved.old.items + length (filter (is_old_message last_tsn) self.old.items)
            ≤ moved.old.capacity }
        ensures rest { self.new.items ≡ of_new_use last_tsn self.old.items }
        ensures moved { moved.new.items
            ≡ moved.old.items ++ filter (is_old_message last_tsn) self.old.items }
        ensures bytes { result ≡ min (dropped_bytes last_tsn self.old.items) (2 ^ 64 - 1) }
        ensures room { KeepsFew self.new }
    {
        let gone = resets::end_use(&mut self.sets, last_tsn, moved);
        let left = chunks_in(&self.sets, &mut Turns::new());
        self.n_chunks = left;
        give_back(&mut self.sets);
        gone
    }
}

// Makes room for so many more sets.
#[inline(always)]
fn reserve(sets: &mut VecDeque<Fragments>, more: usize) -> Result<()>
    ensures items { sets.new.items ≡ sets.old.items }
    ensures room { OnOk result (length sets.new.items + more ≤ deque_capacity sets.new) }
    ensures none { more ≡ 0 → IsOk result }
    ensures memory { IfErr result (λ e. e ≡ ErrOutOfMemory) }
{
    if more > 0 && more <= sets.capacity().saturating_sub(sets.len()) {
        return Ok(());
    }
    grow(sets, more)
}

// The same, exactly where there is room for none: most streams hold one message at a time. It stands apart, so that what finds room
// stays small.
#[cold]
#[inline(never)]
fn grow(sets: &mut VecDeque<Fragments>, more: usize) -> Result<()>
    ensures items { sets.new.items ≡ sets.old.items }
    ensures room { OnOk result (length sets.new.items + more ≤ deque_capacity sets.new) }
    ensures none { more ≡ 0 → IsOk result }
    ensures memory { IfErr result (λ e. e ≡ ErrOutOfMemory) }
{
    if sets.capacity() == 0 {
        sets.reserve_exact(more)?;
    } else {
        sets.reserve(more)?;
    }
    Ok(())
}

// Equal sets, which share their bytes.
fn clone_sets(alloc: Global, sets: &VecDeque<Fragments>) -> Result<VecDeque<Fragments>>
    ensures ok { IfOk result (λ copies. copies.items ≡ sets.now.items) }
    ensures memory { IfErr result (λ e. e ≡ ErrOutOfMemory) }
{
    let mut copies = VecDeque::new(alloc);
    for place in 0..sets.len() {
        copies.push_back(sets[place].try_clone(alloc)?)?;
    }
    Ok(copies)
}

// How many chunks sets have, up to the greatest number. It stands apart, as no more than 2^64 - 1 chunks are met in practice.
#[cold]
#[inline(never)]
fn chunks_in(sets: &VecDeque<Fragments>, turns: &mut Turns) -> usize
    ensures value { result ≡ min (set_chunks sets.now.items) (2 ^ 64 - 1) }
    ensures turns { turns.new ≡ turns.old + length sets.now.items }
{
    let mut count = 0usize;
    for place in 0..sets.len() {
        turns.tick();
        count = count.saturating_add(sets[place].fragments().len());
    }
    count
}

// How many chunks the first set has, 0 where there is none.
fn first_chunks(sets: &VecDeque<Fragments>) -> usize
    ensures { (set : ChunkSet) (rest : List ChunkSet)
        → sets.now.items ≡ set ∷ rest → result ≡ length set.chunks }
{
    match sets.front() {
        Some(set) => set.fragments().len(),
        None => 0,
    }
}

// The chunks of the sets that are left, where so many were taken of so many: past the greatest number they are counted anew.
fn chunks_without(
    n_chunks: usize,
    gone: usize,
    sets: &VecDeque<Fragments>,
    turns: &mut Turns,
) -> usize
    ensures value { n_chunks ≡ min (gone + set_chunks sets.now.items) (2 ^ 64 - 1)
        → result ≡ min (set_chunks sets.now.items) (2 ^ 64 - 1) }
    ensures not_back { turns.old ≤ turns.new }
    ensures cost { turns.new ≤ turns.old + length sets.now.items }
    ensures few { n_chunks < 2 ^ 64 - 1 → turns.new ≡ turns.old }
{
    if n_chunks < usize::MAX {
        return n_chunks.saturating_sub(gone);
    }
    chunks_in(sets, turns)
}
