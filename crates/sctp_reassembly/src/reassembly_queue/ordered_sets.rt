//! The sets of ordered messages, in the order of their numbers where these lie within half a circle.

ghost use Rattle.std.specs.Prelude.{◌≡◌, ◌+◌, ◌-◌, ◌*◌, ◌^◌, ◌<◌, ◌≤◌, ◌&&◌, [], ◌∷◌, ◌++◌, length, map, min, true, false, not, option_map, MatchOption, OnOk, OnErr, IfOk, IfErr, IfSome, IfNone, Some, None};
ghost use Rattle.std.specs.List.{list_any, position_or_len, filter, insert};
ghost use Rattle.std.specs.List.Sorted.{IsNonDecreasingBy, IsPartitionPoint};
ghost use Rattle.sctp_util.specs.Serial.{comes_before16, distance};
ghost use Rattle.sctp_reassembly.specs.reassembly_queue.ReassemblyQueue.{set_bytes, without_first};
ghost use Rattle.sctp_reassembly.specs.reassembly_queue.Resets.{is_old_message, of_new_use, dropped_bytes};
ghost use Rattle.sctp_reassembly.specs.reassembly_queue.Skips.{is_discarded};
ghost use Rattle.sctp_reassembly.specs.reassembly_queue.Fragments.{is_complete, has_ssn, chunks_of_ssn, sets_with, answer_with, new_set, set_before};
ghost use Rattle.sctp_reassembly.specs.reassembly_queue.Counts.{set_chunks};
ghost use Rattle.sctp_reassembly.specs.declared.reassembly_queue.ordered_sets.OrderedPut.{OrderedPut};
ghost use Rattle.sctp_reassembly.specs.reassembly_queue.Undo.{AreNoted, CanUndoOrdered, ordered_undone};
ghost use Rattle.sctp_serial.specs.DataChunks.{bytes_of};
ghost use Rattle.sctp_serial.specs.Ascending.{IsAscending, IsOrder, IsInsertion, upper_half};
ghost use Rattle.sctp_serial.specs.Turns.{IsWithinDigits};
ghost use Rattle.sctp_data.specs.ChunkSet.{ChunkSet};
ghost use Rattle.sctp_reassembly.specs.reassembly_queue.Orders.{digits, IsOffOnlyOutOfOrder, IsOrderly};
ghost use Rattle.sctp_util.specs.declared.error.Error.TheVariants.{ErrOutOfMemory};

use crate::reassembly_queue::chunks::{Fragments, Noted};
use crate::reassembly_queue::counted_sets::CountedSets;
use crate::reassembly_queue::fragment::Fragment;
use crate::reassembly_queue::fragment_list::FragmentList;
use crate::reassembly_queue::ordered_skips::SsnSpan;
use sctp_serial::serial::{Insertion, distance, upper_half};
use sctp_serial::turns::Turns;
use sctp_util::error::Result;
use sctp_util::util::sna16lt;
use std::alloc::Global;
use std::collections::VecDeque;
use std::marker::Model;
use std::result;

/// The sets of ordered messages.
#[derive(Drop)]
pub(crate) struct OrderedSets {
    sets: CountedSets,
    // whether their numbers ascend
    ascending: bool,
}

/// What is noted of sets, beside themselves: how many chunks they have, up to the greatest number, and whether their numbers ascend.
#[derive(Clone, Copy)]
pub(crate) struct SetsNoted {
    n_chunks: usize,
    ascending: bool,
}

/// Where a chunk was put, so that it can be taken out again.
#[derive(Clone, Copy)]
pub(crate) enum OrderedPlace {
    /// Into the set at a place, at a place among its chunks; and what was noted of that set before.
    InSet {
        set: usize,
        place: usize,
        noted: Noted,
    },
    /// Into a new set, at a place.
    NewSet {
        set: usize,
    },
}

/// Where a chunk was put, and what was noted of the sets before.
#[derive(Clone, Copy)]
pub(crate) struct OrderedUndo {
    at: OrderedPlace,
    noted: SetsNoted,
}

/// Whether the set of a chunk that was put in is complete, and how it is undone.
#[derive(Clone, Copy)]
pub(crate) struct OrderedPut {
    pub(crate) whole: bool,
    pub(crate) undo: OrderedUndo,
}

impl Model for OrderedSets {
    ghost use Rattle.std.specs.Prelude.{List, map};
    ghost use Rattle.sctp_data.specs.ChunkSet.{ChunkSet};
    ghost use Rattle.sctp_serial.specs.Ascending.{IsOrder, upper_half};
    ghost use Rattle.sctp_reassembly.specs.reassembly_queue.Orders.{IsOffOnlyOutOfOrder};

    ghost Value = { List ChunkSet };

    ghost view = { λ s. s.sets.items };

    ghost invariant = { λ s. record {
      order : IsOrder s.ascending (map (λ x. upper_half x.ssn) s.sets.items);
      exact : IsOffOnlyOutOfOrder s.ascending (map (λ x. upper_half x.ssn) s.sets.items);
    } };
}

impl OrderedSets {
    /// No sets. It takes no memory.
    pub(crate) fn new(alloc: Global) -> Self
        ensures { result ≡ [] }
    {
        OrderedSets {
            sets: CountedSets::new(alloc),
            ascending: true,
        }
    }

    /// Equal sets, which share their bytes. Refuses only for memory.
    pub(crate) fn try_clone(&self, alloc: Global) -> Result<Self>
        ensures ok { IfOk result (λ sets. sets ≡ self.now) }
        ensures memory { IfErr result (λ e. e ≡ ErrOutOfMemory) }
    {
        let sets = self.sets.try_clone(alloc)?;
        Ok(OrderedSets {
            sets,
            ascending: self.ascending,
        })
    }

    /// All of them.
    pub(crate) fn as_deque(&self) -> &VecDeque<Fragments>
        ensures { result.now.items ≡ self.now }
    {
        self.sets.as_deque()
    }

    /// How many chunks they have, or the greatest number where they have more.
    pub(crate) fn chunk_count(&self) -> usize
        ensures { result ≡ min (set_chunks self.now) (2 ^ 64 - 1) }
    {
        self.sets.chunk_count()
    }

    // What is noted of them.
    fn noted(&self) -> SetsNoted
        ensures { AreNoted result self.now }
    {
        SetsNoted {
            n_chunks: self.sets.chunk_count(),
            ascending: self.ascending,
        }
    }

    /// The first set.
    pub(crate) fn front(&self) -> Option<&Fragments>
        ensures some { IfSome result (λ s. self.now ≡ s.now ∷ without_first self.now) }
        ensures none { IfNone result (self.now ≡ []) }
    {
        self.sets.as_deque().front()
    }

    /// Takes out the first set. Its turns are added: one at most where numbers ascend and fewer than 2^64 - 1 chunks are held.
    pub(crate) fn pop_front(&mut self, turns: &mut Turns) -> Option<Fragments>
        ensures some { IfSome result (λ s. self.old ≡ s ∷ self.new) }
        ensures none { IfNone result ((self.old ≡ []) × (self.new ≡ self.old)) }
        ensures not_back { turns.old ≤ turns.new }
        ensures cost { turns.new ≤ turns.old + 2 * length self.old }
        ensures few { IsAscending (map (λ s. upper_half s.ssn) self.old)
            → set_chunks self.old < 2 ^ 64 - 1 → turns.new ≤ turns.old + 1 }
    {
        let set = self.sets.pop_front(turns);
        let sets = self.sets.as_deque();
        self.ascending = still_ascending(self.ascending, sets, turns);
        set
    }

    /// Where the first set of a number is, or where a set of it is put in; and the bytes of that set, up to the greatest number.
    /// Its turns are added: where numbers ascend, the digits of the number of sets and five more at most.
    #[inline]
    pub(crate) fn spot_of(
        &self,
        ssn: u16,
        turns: &mut Turns,
    ) -> (result::Result<usize, Insertion>, usize)
        ensures there { IfOk result.0 (λ place. (place ≡ position_or_len (has_ssn ssn) self.now)
            × (place < length self.now)) }
        ensures free { IfErr result.0 (λ at. IsInsertion
            (has_ssn ssn) (λ s. upper_half s.ssn) set_before self.now at.place at.ascending) }
        ensures exact { IfErr result.0 (λ at. (x : ChunkSet) → x.ssn ≡ ssn → IsOffOnlyOutOfOrder
            at.ascending (map (λ s. upper_half s.ssn) (insert self.now at.place x))) }
        ensures bytes { result.1 ≡ min (bytes_of (chunks_of_ssn ssn self.now)) (2 ^ 64 - 1) }
        ensures not_back { turns.old ≤ turns.new }
        ensures cost { turns.new ≤ turns.old + 2 * length self.now + 5 }
        ensures few { IsAscending (map (λ s. upper_half s.ssn) self.now)
            → turns.new ≤ turns.old + digits (length self.now) + 5 }
    {
        let sets = self.sets.as_deque();
        let spot = seek(self.ascending, sets, ssn, turns);
        let bytes = match spot {
            Ok(place) => {
                turns.tick();
                sets[place].len()
            }
            Err(_) => 0,
        };
        (spot, bytes)
    }

    /// The bytes of the first set of a number, up to the greatest number. Its turns are added as by `spot_of`.
    pub(crate) fn bytes_there(&self, ssn: u16, turns: &mut Turns) -> usize
        ensures value { result ≡ min (bytes_of (chunks_of_ssn ssn self.now)) (2 ^ 64 - 1) }
        ensures not_back { turns.old ≤ turns.new }
        ensures cost { turns.new ≤ turns.old + 2 * length self.now + 5 }
        ensures few { IsAscending (map (λ s. upper_half s.ssn) self.now)
            → turns.new ≤ turns.old + digits (length self.now) + 5 }
    {
        let (_spot, bytes) = self.spot_of(ssn, turns);
        bytes
    }

    /// Puts a chunk into the first set of its number, or into a new one at its place, and says whether that set
    /// is complete then, and how it is undone; None where its TSN is there already.
    /// Precondition: the spot is that of the chunk's number (`spot_of`).
    /// Refuses only for memory, and nothing changes then. Its turns are added: where TSNs ascend in each set before and
    /// after, the digits of the number of the fragments of the chunk's set, and six more at most.
    pub(crate) fn put(
        &mut self,
        spot: result::Result<usize, Insertion>,
        chunk: Fragment,
        turns: &mut Turns,
    ) -> Result<Option<OrderedPut>>
        requires there { IfOk spot (λ place.
            (place ≡ position_or_len (has_ssn chunk.stream_sequence_number) self.old)
            × (place < length self.old)) }
        requires free { IfErr spot (λ at. IsInsertion (has_ssn chunk.stream_sequence_number)
            (λ s. upper_half s.ssn) set_before self.old at.place at.ascending) }
        requires exact { IfErr spot (λ at. (x : ChunkSet) → x.ssn ≡ chunk.stream_sequence_number
            → IsOffOnlyOutOfOrder at.ascending
            (map (λ s. upper_half s.ssn) (insert self.old at.place x))) }
        ensures ok { OnOk result (self.new ≡ sets_with chunk self.old) }
        ensures answer { IfOk result (λ put. option_map (λ (p : OrderedPut). p.whole) put
            ≡ answer_with chunk (chunks_of_ssn chunk.stream_sequence_number self.old)) }
        ensures undo { IfOk result (λ put. MatchOption put (self.new ≡ self.old)
            (λ p. CanUndoOrdered p.undo self.new × (ordered_undone p.undo self.new ≡ self.old))) }
        ensures err { OnErr result (self.new ≡ self.old) }
        ensures memory { IfErr result (λ e. e ≡ ErrOutOfMemory) }
        ensures not_back { turns.old ≤ turns.new }
        ensures cost { turns.new ≤ turns.old
            + 3 * length (chunks_of_ssn chunk.stream_sequence_number self.old) + 7 }
        ensures few { IsOrderly self.old → IsOrderly self.new
            → turns.new ≤ turns.old
            + digits (length (chunks_of_ssn chunk.stream_sequence_number self.old)) + 6 }
    {
        match spot {
            Ok(set) => {
                let noted = self.noted();
                let set_noted = self.sets.noted_at(set);
                let Some(put) = self.sets.put_into(set, chunk, turns)? else {
                    return Ok(None);
                };
                let at = OrderedPlace::InSet {
                    set,
                    place: put.place,
                    noted: set_noted,
                };
                let undo = OrderedUndo { at, noted };
                Ok(Some(OrderedPut {
                    whole: put.whole,
                    undo,
                }))
            }
            Err(at) => Ok(Some(self.put_new(chunk, at, turns)?)),
        }
    }

    // Puts a chunk into a new set, and says whether it is complete, and how it is undone. It stands apart, so that what chunks of
    // sets that are there take stays small. Its turns are added: five at most.
    // Precondition: no set has the number, and a set of it goes to that place.
    // Refuses only for memory, and nothing changes then.
    #[inline(never)]
    fn put_new(&mut self, chunk: Fragment, at: Insertion, turns: &mut Turns) -> Result<OrderedPut>
        requires free { IsInsertion (has_ssn chunk.stream_sequence_number)
            (λ s. upper_half s.ssn) set_before self.old at.place at.ascending }
        requires exact { (x : ChunkSet) → x.ssn ≡ chunk.stream_sequence_number
            → IsOffOnlyOutOfOrder at.ascending
            (map (λ s. upper_half s.ssn) (insert self.old at.place x)) }
        ensures ok { OnOk result (self.new ≡ sets_with chunk self.old) }
        ensures answer { IfOk result (λ put. Some put.whole
            ≡ answer_with chunk (chunks_of_ssn chunk.stream_sequence_number self.old)) }
        ensures undo { IfOk result (λ put. CanUndoOrdered put.undo self.new
            × (ordered_undone put.undo self.new ≡ self.old)) }
        ensures err { OnErr result (self.new ≡ self.old) }
        ensures memory { IfErr result (λ e. e ≡ ErrOutOfMemory) }
        ensures not_back { turns.old ≤ turns.new }
        ensures few { turns.new ≤ turns.old + 5 }
    {
        let noted = self.noted();
        let set = new_set(chunk, turns);
        let whole = set.is_complete_counted(turns);
        self.sets.insert(at.place, set)?;
        self.ascending = at.ascending;
        let at = OrderedPlace::NewSet { set: at.place };
        let undo = OrderedUndo { at, noted };
        Ok(OrderedPut { whole, undo })
    }

    /// Undoes a `put`. It takes no memory, and looks at no other set or fragment.
    /// Precondition: the places that it says exist, and what was noted before will hold again.
    pub(crate) fn undo_put(&mut self, undo: OrderedUndo)
        requires { CanUndoOrdered undo self.old }
        ensures { self.new ≡ ordered_undone undo self.old }
    {
        let n_chunks = undo.noted.n_chunks;
        match undo.at {
            OrderedPlace::InSet { set, place, noted } => {
                self.sets.remove_from(set, place, noted, n_chunks);
            }
            OrderedPlace::NewSet { set } => self.sets.remove(set, n_chunks),
        }
        self.ascending = undo.noted.ascending;
    }

    /// The allocator.
    pub(crate) fn alloc(&self) -> Global {
        self.sets.alloc()
    }

    /// Gives back all room, where no set is left. It takes no memory.
    pub(crate) fn give_back(&mut self)
        ensures { self.new ≡ self.old }
    {
        self.sets.give_back();
    }

    /// Removes the sets that a skip discards: the incomplete ones, those alone whose numbers are in the stretch where there is
    /// one, and those alone that miss a TSN where there is a bound. Counts their bytes up to the greatest number. Its turns are added:
    /// four for each set at most where there is no bound, numbers ascend, and TSNs in each set.
    pub(crate) fn discard(
        &mut self,
        passed: Option<SsnSpan>,
        bound: Option<u32>,
        turns: &mut Turns,
    ) -> usize
        ensures rest { self.new ≡ filter (λ s. not (is_discarded passed bound s)) self.old }
        ensures bytes { result
            ≡ min (set_bytes (filter (is_discarded passed bound) self.old)) (2 ^ 64 - 1) }
        ensures not_back { turns.old ≤ turns.new }
        ensures few { bound ≡ None → IsOrderly self.old
            → turns.new ≤ turns.old + 4 * length self.old }
        ensures walk { turns.new
            ≤ turns.old + 5 * length self.old + 2 * set_chunks self.old }
    {
        let gone = self.sets.discard(passed, bound, turns);
        let sets = self.sets.as_deque();
        self.ascending = still_ascending(self.ascending, sets, turns);
        gone
    }

    /// Moves the complete messages of the old use, which ends with the TSN, behind others, and keeps of the rest what is of
    /// the new use. Counts the bytes that are dropped up to the greatest number. It takes no memory.
    /// Precondition: there is room for those that are moved.
    pub(crate) fn end_use(&mut self, last_tsn: u32, moved: &mut CountedSets) -> usize
        requires { length moved.old.items + length (filter (is_old_message last_tsn) self.old)
            ≤ moved.old.capacity }
        ensures rest { self.new ≡ of_new_use last_tsn self.old }
        ensures moved { moved.new.items
            ≡ moved.old.items ++ filter (is_old_message last_tsn) self.old }
        ensures bytes { result ≡ min (dropped_bytes last_tsn self.old) (2 ^ 64 - 1) }
    {
        let gone = self.sets.end_use(last_tsn, moved);
        let sets = self.sets.as_deque();
        self.ascending = still_ascending(self.ascending, sets, &mut Turns::new());
        gone
    }
}

// A set that a chunk alone makes. It takes no memory.
fn new_set(chunk: Fragment, turns: &mut Turns) -> Fragments
    ensures value { result ≡ new_set chunk }
    ensures not_back { turns.old ≤ turns.new }
    ensures cost { turns.new ≤ turns.old + 2 }
{
    let ssn = chunk.stream_sequence_number;
    let ppi = chunk.payload_type;
    Fragments::new_counted(ssn, ppi, FragmentList::one(chunk), turns)
}

// The place of the first set of a number, or where a set of it is put in. Among numbers that ascend the last set is looked at
// first: most chunks are of it.
fn seek(
    ascending: bool,
    sets: &VecDeque<Fragments>,
    ssn: u16,
    turns: &mut Turns,
) -> result::Result<usize, Insertion>
    requires order { IsOrder ascending (map (λ s. upper_half s.ssn) sets.now.items) }
    requires exact { IsOffOnlyOutOfOrder ascending (map (λ s. upper_half s.ssn) sets.now.items) }
    ensures there { IfOk result (λ place. (place ≡ position_or_len (has_ssn ssn) sets.now.items)
        × (place < length sets.now.items)) }
    ensures free { IfErr result (λ at. IsInsertion
        (has_ssn ssn) (λ s. upper_half s.ssn) set_before sets.now.items at.place at.ascending) }
    ensures exact { IfErr result (λ at. (x : ChunkSet) → x.ssn ≡ ssn → IsOffOnlyOutOfOrder
        at.ascending (map (λ s. upper_half s.ssn) (insert sets.now.items at.place x))) }
    ensures not_back { turns.old ≤ turns.new }
    ensures cost { turns.new ≤ turns.old + 2 * length sets.now.items + 4 }
    ensures few { ascending ≡ true
        → turns.new ≤ turns.old + digits (length sets.now.items) + 4 }
{
    let len = sets.len();
    if ascending && len > 0 {
        turns.tick();
        if sets[len - 1].ssn() == ssn {
            return Ok(len - 1);
        }
    }
    seek_among(ascending, sets, ssn, turns)
}

// The same by halves among numbers that ascend, else by a walk. It stands apart, so that what chunks of the last set take stays
// small.
#[inline(never)]
fn seek_among(
    ascending: bool,
    sets: &VecDeque<Fragments>,
    ssn: u16,
    turns: &mut Turns,
) -> result::Result<usize, Insertion>
    requires order { IsOrder ascending (map (λ s. upper_half s.ssn) sets.now.items) }
    requires exact { IsOffOnlyOutOfOrder ascending (map (λ s. upper_half s.ssn) sets.now.items) }
    ensures there { IfOk result (λ place. (place ≡ position_or_len (has_ssn ssn) sets.now.items)
        × (place < length sets.now.items)) }
    ensures free { IfErr result (λ at. IsInsertion
        (has_ssn ssn) (λ s. upper_half s.ssn) set_before sets.now.items at.place at.ascending) }
    ensures exact { IfErr result (λ at. (x : ChunkSet) → x.ssn ≡ ssn → IsOffOnlyOutOfOrder
        at.ascending (map (λ s. upper_half s.ssn) (insert sets.now.items at.place x))) }
    ensures not_back { turns.old ≤ turns.new }
    ensures cost { turns.new ≤ turns.old + 2 * length sets.now.items + 3 }
    ensures few { ascending ≡ true
        → turns.new ≤ turns.old + digits (length sets.now.items) + 3 }
{
    let len = sets.len();
    if len == 0 {
        return Err(Insertion {
            place: 0,
            ascending: true,
        });
    }
    if !ascending {
        return seek_by_walk(sets, ssn, turns);
    }
    turns.tick();
    let first = upper_half(sets[0].ssn());
    let number = upper_half(ssn);
    let far = distance(first, number);
    if far == 1 << 31 {
        return Err(Insertion {
            place: len,
            ascending: false,
        });
    }
    turns.tick();
    if far > 1 << 31 {
        let ascending = distance(number, upper_half(sets[len - 1].ssn())) < 1 << 31;
        return Err(Insertion {
            place: 0,
            ascending,
        });
    }
    let place = place_within(sets, first, far, turns);
    if sets[place - 1].ssn() == ssn {
        return Ok(place - 1);
    }
    Err(Insertion {
        place,
        ascending: true,
    })
}

// The place behind the sets that lie no farther from the first number. The last is looked at first.
fn place_within(sets: &VecDeque<Fragments>, first: u32, far: u32, turns: &mut Turns) -> usize
    requires { IsNonDecreasingBy (λ s. distance first (upper_half s.ssn)) sets.now.items }
    ensures in_range { result ≤ length sets.now.items }
    ensures split { IsPartitionPoint (λ s. distance first (upper_half s.ssn) ≤ far)
        (λ s. far < distance first (upper_half s.ssn)) sets.now.items result }
    ensures not_back { turns.old ≤ turns.new }
    ensures cost { turns.new ≤ turns.old + digits (length sets.now.items) + 1 }
{
    let len = sets.len();
    if len > 0 {
        turns.tick();
        if distance(first, upper_half(sets[len - 1].ssn())) <= far {
            return len;
        }
    }
    by_halves(sets, first, far, turns)
}

// The same by halves.
fn by_halves(sets: &VecDeque<Fragments>, first: u32, far: u32, turns: &mut Turns) -> usize
    requires { IsNonDecreasingBy (λ s. distance first (upper_half s.ssn)) sets.now.items }
    ensures in_range { result ≤ length sets.now.items }
    ensures split { IsPartitionPoint (λ s. distance first (upper_half s.ssn) ≤ far)
        (λ s. far < distance first (upper_half s.ssn)) sets.now.items result }
    ensures not_back { turns.old ≤ turns.new }
    ensures cost { IsWithinDigits (length sets.now.items) (turns.new - turns.old) }
{
    let mut low = 0;
    let mut high = sets.len();
    while low < high {
        let middle = low + (high - low) / 2;
        turns.tick();
        let here = distance(first, upper_half(sets[middle].ssn()));
        if here <= far {
            low = middle + 1;
        } else {
            high = middle;
        }
    }
    low
}

// The same by a walk, among numbers that do not ascend.
fn seek_by_walk(
    sets: &VecDeque<Fragments>,
    ssn: u16,
    turns: &mut Turns,
) -> result::Result<usize, Insertion>
    requires { IsAscending (map (λ s. upper_half s.ssn) sets.now.items) → ⊥ }
    ensures there { IfOk result (λ place. (place ≡ position_or_len (has_ssn ssn) sets.now.items)
        × (place < length sets.now.items)) }
    ensures free { IfErr result (λ at. IsInsertion
        (has_ssn ssn) (λ s. upper_half s.ssn) set_before sets.now.items at.place at.ascending) }
    ensures exact { IfErr result (λ at. (x : ChunkSet) → x.ssn ≡ ssn → IsOffOnlyOutOfOrder
        at.ascending (map (λ s. upper_half s.ssn) (insert sets.now.items at.place x))) }
    ensures not_back { turns.old ≤ turns.new }
    ensures cost { turns.new ≤ turns.old + 2 * length sets.now.items }
{
    match first_place(sets, ssn, turns) {
        Some(place) => Ok(place),
        None => Err(Insertion {
            place: set_gap(sets, ssn, turns),
            ascending: false,
        }),
    }
}

// The place of the first set of a number.
fn first_place(sets: &VecDeque<Fragments>, ssn: u16, turns: &mut Turns) -> Option<usize>
    ensures found { IfSome result (λ place. (place ≡ position_or_len (has_ssn ssn) sets.now.items)
        × (place < length sets.now.items)) }
    ensures absent { IfNone result (position_or_len (has_ssn ssn) sets.now.items
        ≡ length sets.now.items) }
    ensures not_back { turns.old ≤ turns.new }
    ensures cost { turns.new ≤ turns.old + length sets.now.items }
{
    for place in 0..sets.len() {
        turns.tick();
        if sets[place].ssn() == ssn {
            return Some(place);
        }
    }
    None
}

// Where a set of this number is put in: before the first that it comes before, or at the end.
fn set_gap(sets: &VecDeque<Fragments>, ssn: u16, turns: &mut Turns) -> usize
    ensures place { result ≡ position_or_len (λ s. comes_before16 ssn s.ssn) sets.now.items }
    ensures in_range { result ≤ length sets.now.items }
    ensures not_back { turns.old ≤ turns.new }
    ensures cost { turns.new ≤ turns.old + length sets.now.items }
{
    for place in 0..sets.len() {
        turns.tick();
        if sna16lt(ssn, sets[place].ssn()) {
            return place;
        }
    }
    sets.len()
}

// Whether numbers ascend, where those of more sets, of which some are gone, did or did not.
fn still_ascending(before: bool, sets: &VecDeque<Fragments>, turns: &mut Turns) -> bool
    requires { before ≡ true → IsAscending (map (λ s. upper_half s.ssn) sets.now.items) }
    ensures order { IsOrder result (map (λ s. upper_half s.ssn) sets.now.items) }
    ensures exact { IsOffOnlyOutOfOrder result (map (λ s. upper_half s.ssn) sets.now.items) }
    ensures not_back { turns.old ≤ turns.new }
    ensures cost { turns.new ≤ turns.old + length sets.now.items }
    ensures none { before ≡ true → turns.new ≡ turns.old }
{
    if before {
        return true;
    }
    are_ascending(sets, turns)
}

// Whether numbers ascend, seen by how far each lies from the first.
#[inline(never)]
fn are_ascending(sets: &VecDeque<Fragments>, turns: &mut Turns) -> bool
    ensures order { IsOrder result (map (λ s. upper_half s.ssn) sets.now.items) }
    ensures exact { IsOffOnlyOutOfOrder result (map (λ s. upper_half s.ssn) sets.now.items) }
    ensures not_back { turns.old ≤ turns.new }
    ensures cost { turns.new ≤ turns.old + length sets.now.items }
{
    let len = sets.len();
    if len == 0 {
        return true;
    }
    turns.tick();
    let first = upper_half(sets[0].ssn());
    let mut far = 0;
    for place in 1..len {
        turns.tick();
        let number = upper_half(sets[place].ssn());
        let next = distance(first, number);
        if next <= far || next >= 1 << 31 {
            return false;
        }
        far = next;
    }
    true
}
