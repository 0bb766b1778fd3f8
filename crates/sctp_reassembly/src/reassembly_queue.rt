//! Fragments that become messages again (RFC 4960 6.5, 6.6).

ghost use Rattle.std.specs.Prelude.{◌≡◌, ℕ, insert, ◌==◌, nat_lt, ◌+◌, ◌-◌, ◌*◌, ◌%◌, ◌^◌, ◌<◌, ◌≤◌, [], ◌∷◌, length, map, min, OnOk, OnErr, true, false, IfOk, IfErr, IfSome, IfNone, IsOk, IsTrue, Ok, Err, Some, None, MatchOption, not, is_some, option_map, slice_index_or, if◌then◌else◌};
ghost use Rattle.std.specs.List.{list_any, position_or_len, filter};
ghost use Rattle.sctp_util.specs.Serial.{comes_before16, at_or_before, at_or_before16};
ghost use Rattle.sctp_reassembly.specs.reassembly_queue.ReassemblyQueue.{is_passed, set_bytes, set_of_run};
ghost use Rattle.sctp_reassembly.specs.reassembly_queue.Fragments.{has_ssn, chunks_of_ssn, sets_with, answer_with, new_set};
ghost use Rattle.sctp_serial.specs.DataChunks.{bytes_of};
ghost use Rattle.sctp_reassembly.specs.reassembly_queue.Loose.{place_among};
ghost use Rattle.sctp_reassembly.specs.reassembly_queue.Sizes.{projected_size, size_before, size_after};
ghost use Rattle.sctp_serial.specs.Runs.{HasNoRun, IsStretch};
ghost use Rattle.sctp_serial.specs.Window.{IsSerial};
ghost use Rattle.sctp_serial.specs.Ascending.{IsAscending, upper_half};
ghost use Rattle.sctp_reassembly.specs.reassembly_queue.Orders.{digits, IsOrderly};
ghost use Rattle.sctp_reassembly.specs.reassembly_queue.Costs.{ordered_push_looks, ordered_push_walk, read_walk, FitsInOrder, Joins, IsAtEnd, JoinsAtEnd, unordered_push_looks, unordered_push_walk, StandsInOrder, unordered_skip_walk, ordered_skip_walk};
ghost use Rattle.sctp_reassembly.specs.reassembly_queue.Skips.{after_bounded_skip, applicable, is_upto};
ghost use Rattle.sctp_reassembly.specs.reassembly_queue.Undo.{undone, CanUndo};
ghost use Rattle.sctp_util.specs.declared.error.Error.TheVariants.{ErrOutOfMemory, ErrInboundPacketTooLarge};

pub mod chunks;
mod counted_sets;
pub mod fragment;
mod fragment_list;
mod fragment_places;
mod incomplete;
mod ordered_sets;
pub mod ordered_skips;
mod outward;
mod pool;
mod resets;
mod room;
mod sizes;
mod skips;
pub mod unassembled;
mod unassembled_places;
pub mod undo;

use self::chunks::{Chunks, Fragments};
use self::counted_sets::CountedSets;
use self::fragment::Fragment;
use self::fragment_list::FragmentList;
use self::ordered_sets::OrderedSets;
use self::ordered_skips::SsnSpan;
use self::pool::Pool;
use self::sizes::{bytes_of_front, size_after, size_before};
use self::skips::{earliest_from, goal, has_settled, latest_passable};
use self::unassembled::Loose;
use self::unassembled_places::{front_upto, place_for};
use self::undo::{MessageUndo, PushChange, PushUndo};
use sctp_data::chunk::chunk_payload_data::{ChunkPayloadData, PayloadProtocolIdentifier};
use sctp_serial::turns::Turns;
use sctp_util::error::{Error, Result};
use sctp_util::util::{sna16gt, sna16lt, sna16lte, sna32lte};
use std::alloc::Global;
use std::collections::VecDeque;
use std::marker::Model;

/// What came of the messages of one stream and was not read: sets of ordered fragments by their
/// stream sequence numbers, complete unordered messages, and unassembled fragments of unordered ones.
#[derive(Drop)]
pub struct ReassemblyQueue {
    si: u16,
    next_ssn: u16,
    max_message_size: u32,
    ordered: OrderedSets,
    unordered: CountedSets,
    unordered_chunks: Pool,
    n_bytes: usize,
}

impl Model for ReassemblyQueue {
    ghost use Rattle.sctp_reassembly.specs.reassembly_queue.ReassemblyQueue.{ReassemblyState};

    ghost Value = { ReassemblyState };

    ghost view = { λ q. record {
      si = q.si;
      held = record {
        next_ssn = q.next_ssn;
        ordered = q.ordered;
        unordered = q.unordered.items;
        unassembled = q.unordered_chunks.chunks;
      };
      bytes = q.n_bytes;
      max_message_size = q.max_message_size;
      places = q.unordered_chunks.places;
    } };
}

impl ReassemblyQueue {
    ghost use Rattle.sctp_reassembly.specs.reassembly_queue.ReassemblyQueue.{ReassemblyState, message_read, rest_read, state_read, at_start, after_ordered_skip, after_unordered_skip, is_too_large, after_ordered_push, is_complete_with, PushesUnordered, GivesRun, IsCounted, held_bytes, held_chunks, bytes_read, complete_sets, leading_upto};

    /// An empty queue of the stream `si`, which takes messages of at most `max_message_size`
    /// bytes and expects the stream sequence number 0 first (RFC 4960 6.5). It takes no memory.
    pub fn new(alloc: Global, si: u16, max_message_size: u32) -> Self
        ensures { result ≡ record {
          si = si;
          held = record {
            next_ssn = 0;
            ordered = [];
            unordered = [];
            unassembled = [];
          };
          bytes = 0;
          max_message_size = max_message_size;
          places = 0;
        } }
    {
        ReassemblyQueue {
            si,
            next_ssn: 0,
            ordered: OrderedSets::new(alloc),
            unordered: CountedSets::new(alloc),
            unordered_chunks: Pool::new(alloc),
            n_bytes: 0,
            max_message_size,
        }
    }

    // The allocator, which each of its lists has.
    fn alloc(&self) -> Global {
        self.ordered.alloc()
    }

    /// An equal queue, which shares its bytes. Refuses only for memory.
    pub fn try_clone(&self, alloc: Global) -> Result<Self>
        ensures ok { IfOk result (λ queue. queue ≡ self.now) }
        ensures memory { IfErr result (λ e. e ≡ ErrOutOfMemory) }
    {
        Ok(ReassemblyQueue {
            si: self.si,
            next_ssn: self.next_ssn,
            ordered: self.ordered.try_clone(alloc)?,
            unordered: self.unordered.try_clone(alloc)?,
            unordered_chunks: self.unordered_chunks.try_clone(alloc)?,
            n_bytes: self.n_bytes,
            max_message_size: self.max_message_size,
        })
    }

    /// The stream.
    pub fn si(&self) -> u16
        ensures { result ≡ self.now.si }
    {
        self.si
    }

    /// The stream sequence number expected next.
    pub fn next_ssn(&self) -> u16
        ensures { result ≡ self.now.held.next_ssn }
    {
        self.next_ssn
    }

    /// The sets of ordered messages.
    pub fn ordered(&self) -> &VecDeque<Fragments>
        ensures { result.now.items ≡ self.now.held.ordered }
    {
        self.ordered.as_deque()
    }

    /// The complete unordered messages.
    pub fn unordered(&self) -> &VecDeque<Fragments>
        ensures { result.now.items ≡ self.now.held.unordered }
    {
        self.unordered.as_deque()
    }

    /// The fragments of unordered messages that are not whole.
    pub fn unordered_chunks(&self) -> &VecDeque<Fragment>
        ensures { result.now.items ≡ self.now.held.unassembled }
    {
        self.unordered_chunks.unassembled().as_deque()
    }

    /// How many bytes a message may have.
    pub fn max_message_size(&self) -> u32
        ensures { result ≡ self.now.max_message_size }
    {
        self.max_message_size
    }

    /// The byte count: it rises by what `push` keeps, and falls by what is read or discarded.
    pub fn get_num_bytes(&self) -> usize
        ensures { result ≡ self.now.bytes }
    {
        self.n_bytes
    }

    /// How many chunks the queue holds, of ordered messages, of complete unordered ones and of those that are not whole, or the
    /// greatest number where it holds more. It takes no walk.
    pub fn chunk_count(&self) -> usize
        ensures { result ≡ min (held_chunks self.now.held) (2 ^ 64 - 1) }
    {
        self.ordered
            .chunk_count()
            .saturating_add(self.unordered.chunk_count())
            .saturating_add(self.unordered_chunks.unassembled().len())
    }

    /// Gives back the room of the lists of messages in which none is left, by no clause. It takes no memory.
    pub fn give_back(&mut self)
        ensures { self.new ≡ self.old }
    {
        self.ordered.give_back();
        self.unordered.give_back();
    }

    /// Lowers the byte count, which stops at 0. Where it was the sum of the bytes held and so many more, it is the sum again.
    pub fn subtract_num_bytes(&mut self, n_bytes: usize)
        ensures counted { self.old.bytes ≡ held_bytes self.old.held + n_bytes → IsCounted self.new }
        ensures value { self.new ≡ record self.old { bytes = self.old.bytes - n_bytes } }
    {
        self.n_bytes = self.n_bytes.saturating_sub(n_bytes);
    }

    /// Takes a chunk, and says whether a message became whole by it.
    ///
    /// A chunk of another stream, an ordered one before the next number and one whose
    /// TSN is in its set are not kept. Repeats of unordered ones are kept: the filter
    /// of TSNs keeps them away. The byte count grows up to the greatest usize.
    /// Refuses with `ErrInboundPacketTooLarge`, exactly where the bytes held of its message and its own are together
    /// more than `max_message_size` (`is_too_large`), also where the chunk would not be kept: so a repeat of an ordered
    /// fragment counts a second time. Else it refuses only for memory. The queue is as it was then.
    pub fn push(&mut self, chunk: ChunkPayloadData) -> Result<bool>
        ensures other_stream { (chunk.stream_identifier == self.old.si) ≡ false
            → (result ≡ Ok false) × (self.new ≡ self.old) }
        ensures ordered { (chunk.stream_identifier == self.old.si) ≡ true → chunk.unordered ≡ false
            → IfOk result (λ whole. (self.new ≡ after_ordered_push chunk self.old)
            × (whole ≡ is_complete_with chunk self.old.held)) }
        ensures unordered { (chunk.stream_identifier == self.old.si) ≡ true → chunk.unordered ≡ true
            → IfOk result (λ whole. PushesUnordered chunk self.old self.new whole) }
        ensures fits { IsOk result → is_too_large chunk self.old ≡ false }
        ensures refused { IfErr result (λ e. e
            ≡ (if is_too_large chunk self.old then ErrInboundPacketTooLarge else ErrOutOfMemory)) }
        ensures err { OnErr result (self.new ≡ self.old) }
        ensures counted { held_bytes self.old.held + length chunk.user_data < 2 ^ 64
            → IsCounted self.old → IsCounted self.new }
    {
        let (whole, _undo) = self.push_undoable(chunk)?;
        Ok(whole)
    }

    /// The same, and what it looks at is added: a turn for each look at a set or at a fragment. Moves of pointers are no turns.
    /// Of an ordered chunk, where the numbers of the sets and the TSNs in each ascend within half a circle (`IsOrderly`), before and
    /// after, the turns are at most `ordered_push_looks`, and `ordered_push_walk` whatever the numbers. Of an unordered one, where the
    /// TSNs of all unassembled fragments ascend with it within half a circle (`FitsInOrder`), they are at most `unordered_push_looks`: the
    /// digits of their number, and five for each other one of the longest stretch of TSNs that it joins; the digits and 9 more where it
    /// is put at an end of that, its message goes on there, and all are no longer than one message may be (`JoinsAtEnd`); and
    /// `unordered_push_walk` whatever is held.
    pub fn push_counted(&mut self, chunk: ChunkPayloadData, turns: &mut Turns) -> Result<bool>
        ensures other_stream { (chunk.stream_identifier == self.old.si) ≡ false
            → (result ≡ Ok false) × (self.new ≡ self.old) }
        ensures ordered { (chunk.stream_identifier == self.old.si) ≡ true → chunk.unordered ≡ false
            → IfOk result (λ whole. (self.new ≡ after_ordered_push chunk self.old)
            × (whole ≡ is_complete_with chunk self.old.held)) }
        ensures unordered { (chunk.stream_identifier == self.old.si) ≡ true → chunk.unordered ≡ true
            → IfOk result (λ whole. PushesUnordered chunk self.old self.new whole) }
        ensures fits { IsOk result → is_too_large chunk self.old ≡ false }
        ensures refused { IfErr result (λ e. e
            ≡ (if is_too_large chunk self.old then ErrInboundPacketTooLarge else ErrOutOfMemory)) }
        ensures err { OnErr result (self.new ≡ self.old) }
        ensures counted { held_bytes self.old.held + length chunk.user_data < 2 ^ 64
            → IsCounted self.old → IsCounted self.new }
        ensures not_back { turns.old ≤ turns.new }
        ensures ordered_cost { chunk.unordered ≡ false → IsOrderly self.old.held.ordered
            → IsOrderly self.new.held.ordered
            → turns.new ≤ turns.old + ordered_push_looks chunk self.old.held }
        ensures ordered_walk { chunk.unordered ≡ false
            → turns.new ≤ turns.old + ordered_push_walk chunk self.old.held }
        ensures unordered_cost { chunk.unordered ≡ true → FitsInOrder chunk self.old.held
            → (first last : ℕ) → Joins chunk self.old.held first last
            → turns.new ≤ turns.old + unordered_push_looks self.old.held first last }
        ensures unordered_few { chunk.unordered ≡ true → FitsInOrder chunk self.old.held
            → (first last : ℕ) → JoinsAtEnd chunk self.old first last
            → turns.new ≤ turns.old + digits (length self.old.held.unassembled) + 9 }
        ensures unordered_walk { chunk.unordered ≡ true
            → turns.new ≤ turns.old + unordered_push_walk self.old.held }
    {
        let (whole, _undo) = self.push_undoable_counted(chunk, turns)?;
        Ok(whole)
    }

    /// The same, and what it looks at is added: no more than `push_counted` says of a push.
    pub fn is_too_large_counted(&self, chunk: &ChunkPayloadData, turns: &mut Turns) -> bool
        ensures answer { result ≡ is_too_large chunk.now self.now }
        ensures not_back { turns.old ≤ turns.new }
        ensures ordered_cost { chunk.now.unordered ≡ false → IsOrderly self.now.held.ordered
            → turns.new ≤ turns.old + ordered_push_looks chunk.now self.now.held }
        ensures ordered_walk { chunk.now.unordered ≡ false
            → turns.new ≤ turns.old + ordered_push_walk chunk.now self.now.held }
        ensures unordered_cost { chunk.now.unordered ≡ true → FitsInOrder chunk.now self.now.held
            → (first last : ℕ) → Joins chunk.now self.now.held first last
            → turns.new ≤ turns.old + unordered_push_looks self.now.held first last }
        ensures unordered_few { chunk.now.unordered ≡ true → FitsInOrder chunk.now self.now.held
            → (first last : ℕ) → JoinsAtEnd chunk.now self.now first last
            → turns.new ≤ turns.old + digits (length self.now.held.unassembled) + 9 }
        ensures unordered_walk { chunk.now.unordered ≡ true
            → turns.new ≤ turns.old + unordered_push_walk self.now.held }
    {
        if self.si != chunk.stream_identifier {
            return false;
        }
        let place = self.place_of(chunk, turns);
        self.is_too_large_at(chunk, place, turns)
    }

    // Where an unordered chunk goes among the unassembled fragments. An ordered one takes no turn.
    fn place_of(&self, chunk: &ChunkPayloadData, turns: &mut Turns) -> usize
        ensures place { chunk.now.unordered ≡ true
            → result ≡ place_among chunk.now.tsn self.now.held.unassembled }
        ensures fits { chunk.now.unordered ≡ true → chunk.now.tsn < 2 ^ 32 }
        ensures not_back { turns.old ≤ turns.new }
        ensures none { chunk.now.unordered ≡ false → turns.new ≡ turns.old }
        ensures few { IsSerial self.now.held.unassembled
            → turns.new ≤ turns.old + digits (length self.now.held.unassembled) + 2 }
        ensures walk { turns.new ≤ turns.old + length self.now.held.unassembled + 2 }
    {
        if !chunk.unordered {
            return 0;
        }
        place_for(self.unordered_chunks.unassembled(), chunk.tsn, turns)
    }

    // Whether the message of the chunk, which goes to this place among the unassembled fragments if it is unordered, would be too
    // long with it. Its turns are added.
    fn is_too_large_at(&self, chunk: &ChunkPayloadData, place: usize, turns: &mut Turns) -> bool
        requires place { chunk.now.unordered ≡ true
            → place ≡ place_among chunk.now.tsn self.now.held.unassembled }
        requires fits { chunk.now.unordered ≡ true → chunk.now.tsn < 2 ^ 32 }
        ensures value { result ≡ nat_lt self.now.max_message_size
            (projected_size chunk.now self.now.held.ordered self.now.held.unassembled) }
        ensures not_back { turns.old ≤ turns.new }
        ensures cost { chunk.now.unordered ≡ false
            → turns.new ≤ turns.old + 2 * length self.now.held.ordered + 5 }
        ensures few { chunk.now.unordered ≡ false
            → IsAscending (map (λ s. upper_half s.ssn) self.now.held.ordered)
            → turns.new ≤ turns.old + digits (length self.now.held.ordered) + 5 }
        ensures unordered_cost { chunk.now.unordered ≡ true → (first last : ℕ)
            → IsSerial (insert self.now.held.unassembled place chunk.now)
            → IsStretch (insert self.now.held.unassembled place chunk.now) place first last
            → turns.new ≤ turns.old + (last - first) + 5 }
        ensures none { chunk.now.unordered ≡ true → IsSerial self.now.held.unassembled
            → bytes_of self.now.held.unassembled + length chunk.now.user_data
            ≤ self.now.max_message_size → turns.new ≡ turns.old }
        ensures unordered_walk { chunk.now.unordered ≡ true
            → turns.new ≤ turns.old + 4 * length self.now.held.unassembled + 3 }
    {
        if !chunk.unordered {
            let there = self
                .ordered
                .bytes_there(chunk.stream_sequence_number, turns);
            return there.saturating_add(chunk.user_data.len()) > self.max_message_size as usize;
        }
        if self.fits_beside_all(chunk) {
            return false;
        }
        let unassembled = self.unordered_chunks.unassembled();
        unordered_size(chunk, unassembled, place, turns) > self.max_message_size as usize
    }

    // Whether all unassembled fragments and the chunk are no longer than one message may be, in serial order. Then its
    // message is no longer either, since no fragment stands on both sides of the chunk.
    fn fits_beside_all(&self, chunk: &ChunkPayloadData) -> bool
        ensures yes { result ≡ true → IsSerial self.now.held.unassembled
            × (bytes_of self.now.held.unassembled
            + length chunk.now.user_data ≤ self.now.max_message_size) }
        ensures no { result ≡ false → IsSerial self.now.held.unassembled → self.now.max_message_size
            < bytes_of self.now.held.unassembled + length chunk.now.user_data }
    {
        let unassembled = self.unordered_chunks.unassembled();
        let all = unassembled
            .get_num_bytes()
            .saturating_add(chunk.user_data.len());
        unassembled.is_serial() && all <= self.max_message_size as usize
    }

    /// Takes an ordered chunk, and says how it is undone. Refuses as `push` does. Its turns are added.
    fn push_ordered(
        &mut self,
        chunk: ChunkPayloadData,
        turns: &mut Turns,
    ) -> Result<(bool, PushUndo)>
        ensures ok { OnOk result (self.new ≡ after_ordered_push chunk self.old) }
        ensures answer { IfOk result (λ put. put.0 ≡ is_complete_with chunk self.old.held) }
        ensures undo { IfOk result (λ put. undone put.1 self.new ≡ self.old) }
        ensures can { IfOk result (λ put. CanUndo put.1 self.new) }
        ensures fits { IsOk result → nat_lt self.old.max_message_size
            (bytes_of (chunks_of_ssn chunk.stream_sequence_number self.old.held.ordered)
            + length chunk.user_data) ≡ false }
        ensures refused { IfErr result (λ e. e ≡ (if nat_lt self.old.max_message_size
            (bytes_of (chunks_of_ssn chunk.stream_sequence_number self.old.held.ordered)
            + length chunk.user_data)
            then ErrInboundPacketTooLarge else ErrOutOfMemory)) }
        ensures err { OnErr result (self.new ≡ self.old) }
        ensures not_back { turns.old ≤ turns.new }
        ensures cost { turns.new ≤ turns.old + 2 * length self.old.held.ordered
            + 3 * length (chunks_of_ssn chunk.stream_sequence_number self.old.held.ordered) + 12 }
        ensures few { IsOrderly self.old.held.ordered → IsOrderly self.new.held.ordered
            → turns.new ≤ turns.old + digits (length self.old.held.ordered) + digits
            (length (chunks_of_ssn chunk.stream_sequence_number self.old.held.ordered)) + 11 }
    {
        let before = self.n_bytes;
        let ssn = chunk.stream_sequence_number;
        let len = chunk.user_data.len();
        let (spot, there) = self.ordered.spot_of(ssn, turns);
        if there.saturating_add(len) > self.max_message_size as usize {
            return Err(Error::ErrInboundPacketTooLarge);
        }
        if sna16lt(ssn, self.next_ssn) {
            return Ok((false, PushUndo::of(PushChange::NotKept, before)));
        }
        let fragment = Fragment::new(self.alloc(), chunk)?;
        let Some(put) = self.ordered.put(spot, fragment, turns)? else {
            return Ok((false, PushUndo::of(PushChange::NotKept, before)));
        };
        self.n_bytes = before.saturating_add(len);
        let undo = PushUndo::of(PushChange::Ordered(put.undo), before);
        Ok((put.whole, undo))
    }

    /// Takes an unordered chunk, and says how it is undone. Its turns are added.
    /// Precondition: `place` is where it goes among the unassembled fragments.
    /// Refuses only for memory.
    fn push_unordered(
        &mut self,
        chunk: ChunkPayloadData,
        place: usize,
        turns: &mut Turns,
    ) -> Result<(bool, PushUndo)>
        requires { place ≡ place_among chunk.tsn self.old.held.unassembled }
        ensures ok { IfOk result (λ put. PushesUnordered chunk self.old self.new put.0) }
        ensures undo { IfOk result (λ put. undone put.1 self.new ≡ self.old) }
        ensures can { IfOk result (λ put. CanUndo put.1 self.new) }
        ensures err { OnErr result (self.new ≡ self.old) }
        ensures memory { IfErr result (λ e. e ≡ ErrOutOfMemory) }
        ensures not_back { turns.old ≤ turns.new }
        ensures cost { FitsInOrder chunk self.old.held → (first last : ℕ)
            → Joins chunk self.old.held first last
            → turns.new ≤ turns.old + 4 * (last - first) + 10 }
        ensures few { FitsInOrder chunk self.old.held → (first last : ℕ)
            → Joins chunk self.old.held first last → IsAtEnd chunk place first last
            → turns.new ≤ turns.old + 7 }
        ensures walk { turns.new ≤ turns.old + 7 * length self.old.held.unassembled + 13 }
    {
        let before = self.n_bytes;
        let len = chunk.user_data.len();
        self.unordered.reserve(1)?;
        let n_chunks = self.unordered.chunk_count();
        let alloc = self.alloc();
        let (run, undo) = self
            .unordered_chunks
            .put_undoable(alloc, place, chunk, turns)?;
        self.n_bytes = before.saturating_add(len);
        match run {
            Some(chunks) => {
                self.unordered.push_back_reserved(set_of_run(chunks, turns));
                let undo = MessageUndo::of(undo, n_chunks);
                Ok((true, PushUndo::of(PushChange::Message(undo), before)))
            }
            None => Ok((false, PushUndo::of(PushChange::Unassembled(undo), before))),
        }
    }

    /// Takes the run that ends earliest out of the unassembled fragments, if there is one. The byte count stays: where it was the sum of
    /// the bytes held, it is more by those of the run, until `subtract_num_bytes` takes them off. Refuses only for memory; the queue
    /// is as it was then.
    pub fn find_complete_unordered_chunk_set(&mut self, alloc: Global) -> Result<Option<Chunks>>
        ensures ok { IfOk result
            (λ set. MatchOption set (HasNoRun self.old.held.unassembled × (self.new ≡ self.old))
            (λ chunks. GivesRun self.old self.new chunks.set × (chunks ≡ at_start chunks.set))) }
        ensures counted { IfOk result (λ set. IsCounted self.old → self.new.bytes
            ≡ held_bytes self.new.held + bytes_read (option_map (λ c. c.set) set)) }
        ensures err { OnErr result (self.new ≡ self.old) }
        ensures memory { IfErr result (λ e. e ≡ ErrOutOfMemory) }
    {
        let Some(chunks) = self.unordered_chunks.take_run(alloc)? else {
            return Ok(None);
        };
        Ok(Some(Chunks::of(set_of_run(chunks, &mut Turns::new()))))
    }

    /// Whether `read` would give a message.
    pub fn is_readable(&self) -> bool
        ensures { result ≡ is_some (message_read self.now.held) }
    {
        self.next_message().is_some()
    }

    /// The length in bytes, or the greatest number where it is more, and the payload type of the message that `read` would give;
    /// None where it would give none. Nothing is taken out. It looks at the fragments of one message at most, and takes no memory.
    pub fn next_len(&self) -> Option<(usize, PayloadProtocolIdentifier)>
        ensures { result ≡ option_map (λ s. (min (bytes_of s.chunks) (2 ^ 64 - 1), s.ppi))
            (message_read self.now.held) }
    {
        let set = self.next_message()?;
        Some((set.len(), set.ppi()))
    }

    // The message that `read` would give.
    fn next_message(&self) -> Option<&Fragments>
        ensures some { IfSome result (λ s. message_read self.now.held ≡ Some s.now) }
        ensures none { IfNone result (message_read self.now.held ≡ None) }
    {
        if let Some(set) = self.unordered.as_deque().front() {
            return Some(set);
        }
        let set = self.ordered.front()?;
        if set.is_complete() && sna16lte(set.ssn(), self.next_ssn) {
            Some(set)
        } else {
            None
        }
    }

    /// Takes out the first complete unordered message, else the front ordered one where it is whole and its number is
    /// not after the next (RFC 4960 6.6). The next number rises only with a message that has it. It takes no memory.
    pub fn read(&mut self) -> Option<Chunks>
        ensures message { result ≡ option_map at_start (message_read self.old.held) }
        ensures rest { self.new ≡ state_read self.old }
        ensures counted { IsCounted self.old → IsCounted self.new }
    {
        self.read_counted(&mut Turns::new())
    }

    /// The same, and what it looks at is added: four turns at most where the sets of ordered messages are in order (`IsOrderly`) and
    /// fewer than 2^64 - 1 chunks are held, and `read_walk` whatever is held. A list of which few are left gives room back, as after
    /// skips and resets (`room::give_back`); sets that move by it are no turns.
    pub fn read_counted(&mut self, turns: &mut Turns) -> Option<Chunks>
        ensures message { result ≡ option_map at_start (message_read self.old.held) }
        ensures rest { self.new ≡ state_read self.old }
        ensures counted { IsCounted self.old → IsCounted self.new }
        ensures not_back { turns.old ≤ turns.new }
        ensures few { IsOrderly self.old.held.ordered → held_chunks self.old.held < 2 ^ 64 - 1
            → turns.new ≤ turns.old + 4 }
        ensures walk { turns.new ≤ turns.old + read_walk self.old.held }
    {
        let set = self.take_message(turns)?;
        self.release(set.len());
        Some(Chunks::of(set))
    }

    // Lowers the byte count by a number that was counted up to the greatest usize.
    fn release(&mut self, counted: usize)
        ensures { (n : ℕ) → counted ≡ min n (2 ^ 64 - 1)
            → self.new ≡ record self.old { bytes = self.old.bytes - n } }
    {
        self.n_bytes = self.n_bytes.saturating_sub(counted);
    }

    /// The same, without the byte count.
    fn take_message(&mut self, turns: &mut Turns) -> Option<Fragments>
        ensures message { result ≡ message_read self.old.held }
        ensures rest { self.new ≡ record self.old { held = rest_read self.old.held } }
        ensures not_back { turns.old ≤ turns.new }
        ensures few { IsOrderly self.old.held.ordered → held_chunks self.old.held < 2 ^ 64 - 1
            → turns.new ≤ turns.old + 4 }
        ensures walk { turns.new ≤ turns.old + read_walk self.old.held }
    {
        if let Some(set) = self.unordered.pop_front(turns) {
            return Some(set);
        }
        turns.tick();
        let set = self.ordered.front()?;
        if !set.is_complete_counted(turns) || !sna16lte(set.ssn(), self.next_ssn) {
            return None;
        }
        let set = self.ordered.pop_front(turns)?;
        if set.ssn() == self.next_ssn {
            self.next_ssn = self.next_ssn.wrapping_add(1);
        }
        Some(set)
    }

    /// Discards the incomplete sets at or before `last_ssn`, and moves the next number past it, where it was not past it yet: no
    /// message up to `last_ssn` is waited for, though nothing came of it (RFC 3758 3.6). Whole sets stay. It takes no memory.
    pub fn forward_tsn_for_ordered(&mut self, last_ssn: u16)
        ensures value { self.new ≡ after_ordered_skip last_ssn self.old }
        ensures counted { IsCounted self.old → IsCounted self.new }
        ensures complete { complete_sets self.new.held ≡ complete_sets self.old.held }
    {
        self.forward_tsn_for_ordered_counted(last_ssn, &mut Turns::new());
    }

    /// The same, and what it looks at is added: four turns for each set of ordered messages at most, where these are in order
    /// (`IsOrderly`), and `ordered_skip_walk` whatever the numbers.
    pub fn forward_tsn_for_ordered_counted(&mut self, last_ssn: u16, turns: &mut Turns)
        ensures value { self.new ≡ after_ordered_skip last_ssn self.old }
        ensures counted { IsCounted self.old → IsCounted self.new }
        ensures complete { complete_sets self.new.held ≡ complete_sets self.old.held }
        ensures not_back { turns.old ≤ turns.new }
        ensures few { IsOrderly self.old.held.ordered
            → turns.new ≤ turns.old + 4 * length self.old.held.ordered }
        ensures walk { turns.new ≤ turns.old + ordered_skip_walk self.old.held }
    {
        let noted = self.note_ordered_skip(None, last_ssn);
        self.forward_tsn_for_ordered_noted_counted(noted, turns);
    }

    /// Discards every incomplete set at or before `last_ssn` that is seen to miss a TSN at or before `new_cumulative_tsn`: the
    /// one before its first fragment, one between two, or the one behind its last. The next number moves forward past `last_ssn`,
    /// or only to the first set at or before it that is incomplete and stays, or is whole with a TSN after `new_cumulative_tsn`:
    /// a set discarded behind that one is still waited for. So a FORWARD-TSN that was kept over a reset of the stream does not
    /// reach into messages whose TSNs come after its own (RFC 3758 3.6). It takes no memory.
    pub fn forward_tsn_for_ordered_bounded(&mut self, last_ssn: u16, new_cumulative_tsn: u32)
        ensures value { self.new ≡ after_bounded_skip last_ssn new_cumulative_tsn self.old }
        ensures counted { IsCounted self.old → IsCounted self.new }
        ensures complete { complete_sets self.new.held ≡ complete_sets self.old.held }
    {
        let goal = goal(self.ordered.as_deque(), last_ssn, new_cumulative_tsn);
        self.next_ssn = ssn_upto(self.next_ssn, goal);
        let gone = self.ordered.discard(
            Some(SsnSpan::upto(last_ssn)),
            Some(new_cumulative_tsn),
            &mut Turns::new(),
        );
        self.release(gone);
    }

    /// The greatest number, at most `last_ssn`, that `forward_tsn_for_ordered_bounded` may be called with now, for this
    /// `new_cumulative_tsn`; `last_ssn` where the next number is past it. None where the skip has to wait: then the TSNs that came do
    /// not show that it overtakes no message that is still to come. `peer_last_tsn` is the cumulative TSN of what came from the peer.
    /// It takes no memory.
    pub fn applicable_forward_tsn_for_ordered_bounded(
        &self,
        last_ssn: u16,
        new_cumulative_tsn: u32,
        peer_last_tsn: u32,
    ) -> Option<u16>
        ensures { result ≡ applicable last_ssn new_cumulative_tsn peer_last_tsn self.now.held }
    {
        if sna16gt(self.next_ssn, last_ssn)
            || has_settled(
                self.ordered.as_deque(),
                self.next_ssn,
                last_ssn,
                new_cumulative_tsn,
            )
        {
            return Some(last_ssn);
        }
        let first = earliest_from(self.ordered.as_deque(), last_ssn);
        if is_upto(first, peer_last_tsn) {
            return Some(last_ssn);
        }
        latest_passable(
            self.ordered.as_deque(),
            self.next_ssn,
            last_ssn,
            new_cumulative_tsn,
            peer_last_tsn,
        )
    }

    /// Drops the unassembled fragments up to the first that is after the TSN
    /// (RFC 3758 3.6). Whole unordered messages stay. It takes no memory.
    pub fn forward_tsn_for_unordered(&mut self, new_cumulative_tsn: u32)
        ensures value { self.new ≡ after_unordered_skip new_cumulative_tsn self.old }
        ensures counted { IsCounted self.old → IsCounted self.new }
    {
        self.forward_tsn_for_unordered_counted(new_cumulative_tsn, &mut Turns::new());
    }

    /// The same, and what it looks at is added: three turns for each fragment that leaves and one more, where the TSNs of all
    /// unassembled fragments ascend within half a circle (`StandsInOrder`); and `unordered_skip_walk` whatever is held.
    pub fn forward_tsn_for_unordered_counted(&mut self, new_cumulative_tsn: u32, turns: &mut Turns)
        ensures value { self.new ≡ after_unordered_skip new_cumulative_tsn self.old }
        ensures counted { IsCounted self.old → IsCounted self.new }
        ensures not_back { turns.old ≤ turns.new }
        ensures few { StandsInOrder self.old.held → turns.new ≤ turns.old
            + 3 * length (leading_upto new_cumulative_tsn self.old.held.unassembled) + 1 }
        ensures walk { turns.new ≤ turns.old + unordered_skip_walk self.old.held }
    {
        let unassembled = self.unordered_chunks.unassembled();
        let count = front_upto(unassembled, new_cumulative_tsn, turns);
        let gone = bytes_of_front(unassembled, count, turns);
        self.unordered_chunks.drop_front(count, turns);
        self.release(gone);
    }
}

// A complete message of these fragments. Its turns are added.
fn set_of_run(chunks: FragmentList, turns: &mut Turns) -> Fragments
    ensures value { result ≡ set_of_run chunks }
    ensures not_back { turns.old ≤ turns.new }
    ensures cost { turns.new ≤ turns.old + 2 * length chunks + 1 }
{
    turns.tick();
    let ppi = match chunks.as_slice().first() {
        Some(chunk) => chunk.payload_type,
        None => PayloadProtocolIdentifier::Unknown,
    };
    Fragments::new_counted(0, ppi, chunks, turns)
}

// How long the message of an unordered chunk would be with it, up to the greatest number. Its turns are added.
fn unordered_size(
    chunk: &ChunkPayloadData,
    unassembled: &Loose,
    place: usize,
    turns: &mut Turns,
) -> usize
    requires { place ≡ place_among chunk.now.tsn unassembled.now.chunks }
    ensures value { result ≡ min (size_before chunk.now unassembled.now.chunks
        + length chunk.now.user_data + size_after chunk.now unassembled.now.chunks) (2 ^ 64 - 1) }
    ensures not_back { turns.old ≤ turns.new }
    ensures cost { (first last : ℕ) → IsSerial (insert unassembled.now.chunks place chunk.now)
        → IsStretch (insert unassembled.now.chunks place chunk.now) place first last
        → turns.new ≤ turns.old + (last - first) + 5 }
    ensures walk { turns.new ≤ turns.old + 4 * length unassembled.now.chunks + 3 }
{
    let before = size_before(chunk, unassembled, place, turns);
    let after = size_after(chunk, unassembled, place, turns);
    before
        .saturating_add(chunk.user_data.len())
        .saturating_add(after)
}

// The number expected next, once no message up to the other one is waited for.
fn ssn_past(next_ssn: u16, last_ssn: u16) -> u16
    ensures { result
        ≡ (if at_or_before16 next_ssn last_ssn then (last_ssn + 1) % 2 ^ 16 else next_ssn) }
{
    if sna16lte(next_ssn, last_ssn) {
        last_ssn.wrapping_add(1)
    } else {
        next_ssn
    }
}

// The number expected next, moved forward to the goal.
fn ssn_upto(next_ssn: u16, goal: u16) -> u16
    ensures { result ≡ (if comes_before16 next_ssn goal then goal else next_ssn) }
{
    if sna16lt(next_ssn, goal) {
        goal
    } else {
        next_ssn
    }
}

// Whether there is a TSN, at or before the other one.
fn is_upto(tsn: Option<u32>, peer_last_tsn: u32) -> bool
    ensures { result ≡ is_upto peer_last_tsn tsn }
{
    match tsn {
        Some(tsn) => sna32lte(tsn, peer_last_tsn),
        None => false,
    }
}
