//! Chunks taken so that they can be taken back.

ghost use Rattle.std.specs.Prelude.{◌≡◌, ℕ, ◌==◌, ◌+◌, ◌-◌, ◌^◌, ◌<◌, ◌≤◌, length, OnErr, IfOk, IfErr, IsOk, IsOkAnd, true, false, if◌then◌else◌};
ghost use Rattle.sctp_reassembly.specs.reassembly_queue.ReassemblyQueue.{is_too_large, after_ordered_push, is_complete_with, PushesUnordered, IsCounted, held_bytes};
ghost use Rattle.sctp_reassembly.specs.reassembly_queue.PoolUndo.{CanUndoPut, pool_undone};
ghost use Rattle.sctp_reassembly.specs.reassembly_queue.Undo.{undone, CanUndo, CanUndoMessage, last_chunks, unassembled_of, with_unassembled, without_last};
ghost use Rattle.sctp_reassembly.specs.reassembly_queue.Costs.{ordered_push_looks, ordered_push_walk, FitsInOrder, Joins, JoinsAtEnd, unordered_push_looks, unordered_push_walk};
ghost use Rattle.sctp_reassembly.specs.reassembly_queue.Orders.{digits, IsOrderly};
ghost use Rattle.sctp_util.specs.declared.error.Error.TheVariants.{ErrOutOfMemory, ErrInboundPacketTooLarge};

use crate::reassembly_queue::ReassemblyQueue;
use crate::reassembly_queue::fragment_list::FragmentList;
use crate::reassembly_queue::ordered_sets::OrderedUndo;
use crate::reassembly_queue::pool::undo::PoolUndo;
use sctp_data::chunk::chunk_payload_data::ChunkPayloadData;
use sctp_serial::turns::Turns;
use sctp_util::error::{Error, Result};

/// What `push_undoable` did, so that `undo_push` can take it back.
#[derive(Drop)]
pub struct PushUndo {
    change: PushChange,
    // the byte count before
    n_bytes: usize,
}

/// What a push changed in what is held.
#[derive(Drop)]
pub(crate) enum PushChange {
    /// Nothing: the chunk was not kept.
    NotKept,
    /// An ordered chunk came.
    Ordered(OrderedUndo),
    /// An unordered chunk came, and no message became whole.
    Unassembled(PoolUndo),
    /// An unordered chunk came, and a message became whole.
    Message(MessageUndo),
}

/// What a chunk by which an unordered message became whole did.
#[derive(Clone, Copy)]
pub(crate) struct MessageUndo {
    put: PoolUndo,
    // how many chunks the complete messages had before, up to the greatest usize
    n_chunks: usize,
}

impl MessageUndo {
    /// The undo of this, where the complete messages had so many chunks.
    pub(crate) fn of(put: PoolUndo, n_chunks: usize) -> Self
        ensures { result ≡ record { put = put; n_chunks = n_chunks } }
    {
        MessageUndo { put, n_chunks }
    }
}

impl PushUndo {
    /// The undo of this change, where the byte count was this one.
    pub(crate) fn of(change: PushChange, n_bytes: usize) -> Self
        ensures { result ≡ record { change = change; n_bytes = n_bytes } }
    {
        PushUndo { change, n_bytes }
    }
}

impl ReassemblyQueue {
    /// Takes a chunk as `push` does, and says how it is undone: `undo_push` makes the queue what it was before, so long as no
    /// other call has changed it.
    ///
    /// Refuses as `push` does, and the queue is as it was then.
    pub fn push_undoable(&mut self, chunk: ChunkPayloadData) -> Result<(bool, PushUndo)>
        ensures other_stream { (chunk.stream_identifier == self.old.si) ≡ false
            → IsOkAnd result (λ put. put.0 ≡ false) × (self.new ≡ self.old) }
        ensures ordered { (chunk.stream_identifier == self.old.si) ≡ true → chunk.unordered ≡ false
            → IfOk result (λ put. (self.new ≡ after_ordered_push chunk self.old)
            × (put.0 ≡ is_complete_with chunk self.old.held)) }
        ensures unordered { (chunk.stream_identifier == self.old.si) ≡ true → chunk.unordered ≡ true
            → IfOk result (λ put. PushesUnordered chunk self.old self.new put.0) }
        ensures undo { IfOk result (λ put. undone put.1 self.new ≡ self.old) }
        ensures can { IfOk result (λ put. CanUndo put.1 self.new) }
        ensures fits { IsOk result → is_too_large chunk self.old ≡ false }
        ensures refused { IfErr result (λ e. e
            ≡ (if is_too_large chunk self.old then ErrInboundPacketTooLarge else ErrOutOfMemory)) }
        ensures err { OnErr result (self.new ≡ self.old) }
        ensures counted { held_bytes self.old.held + length chunk.user_data < 2 ^ 64
            → IsCounted self.old → IsCounted self.new }
    {
        self.push_undoable_counted(chunk, &mut Turns::new())
    }

    /// The same, and what it looks at is added, as `push_counted` says.
    pub fn push_undoable_counted(
        &mut self,
        chunk: ChunkPayloadData,
        turns: &mut Turns,
    ) -> Result<(bool, PushUndo)>
        ensures other_stream { (chunk.stream_identifier == self.old.si) ≡ false
            → IsOkAnd result (λ put. put.0 ≡ false) × (self.new ≡ self.old) }
        ensures ordered { (chunk.stream_identifier == self.old.si) ≡ true → chunk.unordered ≡ false
            → IfOk result (λ put. (self.new ≡ after_ordered_push chunk self.old)
            × (put.0 ≡ is_complete_with chunk self.old.held)) }
        ensures unordered { (chunk.stream_identifier == self.old.si) ≡ true → chunk.unordered ≡ true
            → IfOk result (λ put. PushesUnordered chunk self.old self.new put.0) }
        ensures undo { IfOk result (λ put. undone put.1 self.new ≡ self.old) }
        ensures can { IfOk result (λ put. CanUndo put.1 self.new) }
        ensures fits { IsOk result → is_too_large chunk self.old ≡ false }
        ensures refused { IfErr result (λ e. e
            ≡ (if is_too_large chunk self.old then ErrInboundPacketTooLarge else ErrOutOfMemory)) }
        ensures err { OnErr result (self.new ≡ self.old) }
        ensures counted { held_bytes self.old.held + length chunk.user_data < 2 ^ 64
            → IsCounted self.old → IsCounted self.new }
        ensures not_back { turns.old ≤ turns.new }
        ensures ordered_cost { chunk.unordered ≡ false → IsOrderly self.old.held.ordered
            → IsOrderly self.new.held.ordered
            → turns.new ≤ turns.old + ordered_push_looks chunk self.old.held }
        ensures ordered_walk { chunk.unordered ≡ false
            → turns.new ≤ turns.old + ordered_push_walk chunk self.old.held }
        ensures unordered_cost { chunk.unordered ≡ true → FitsInOrder chunk self.old.held
            → (first last : ℕ) → Joins chunk self.old.held first last
            → turns.new ≤ turns.old + unordered_push_looks self.old.held first last }
        ensures unordered_few { chunk.unordered ≡ true → FitsInOrder chunk self.old.held
            → (first last : ℕ) → JoinsAtEnd chunk self.old first last
            → turns.new ≤ turns.old + digits (length self.old.held.unassembled) + 9 }
        ensures unordered_walk { chunk.unordered ≡ true
            → turns.new ≤ turns.old + unordered_push_walk self.old.held }
    {
        if chunk.stream_identifier != self.si {
            return Ok((false, PushUndo::of(PushChange::NotKept, self.n_bytes)));
        }
        if !chunk.unordered {
            return self.push_ordered(chunk, turns);
        }
        let place = self.place_of(&chunk, turns);
        if self.is_too_large_at(&chunk, place, turns) {
            return Err(Error::ErrInboundPacketTooLarge);
        }
        self.push_unordered(chunk, place, turns)
    }

    /// Undoes a `push_undoable`: the queue is again what it was before that call. It takes no memory.
    /// Precondition: `CanUndo`, which that call promises of the queue as it left it.
    pub fn undo_push(&mut self, undo: PushUndo)
        requires { CanUndo undo self.old }
        ensures { self.new ≡ undone undo self.old }
    {
        self.undo_push_counted(undo, &mut Turns::new());
    }

    /// The same, and its turns are added: one for each fragment of the message that it takes apart, where the chunk completed an unordered
    /// one, and else none.
    pub fn undo_push_counted(&mut self, undo: PushUndo, turns: &mut Turns)
        requires { CanUndo undo self.old }
        ensures value { self.new ≡ undone undo self.old }
        ensures not_back { turns.old ≤ turns.new }
        ensures cost { turns.new ≤ turns.old
            + (length self.new.held.unassembled + 1 - length self.old.held.unassembled) }
    {
        let PushUndo { change, n_bytes } = undo;
        match change {
            PushChange::NotKept => {}
            PushChange::Ordered(put) => self.ordered.undo_put(put),
            PushChange::Unassembled(put) => {
                let none = FragmentList::of(Vec::new(self.alloc()));
                self.unordered_chunks.undo_put(put, none, turns);
            }
            PushChange::Message(put) => self.undo_message(put, turns),
        }
        self.n_bytes = n_bytes;
    }

    // Takes the message that became whole last apart again, and puts its fragments back but for the one that completed it.
    // A turn is added for each of its fragments.
    fn undo_message(&mut self, undo: MessageUndo, turns: &mut Turns)
        requires { CanUndoMessage undo self.old }
        ensures value { self.new ≡ with_unassembled (without_last self.old)
            (pool_undone undo.put (last_chunks self.old.held.unordered) (unassembled_of self.old)) }
        ensures turns { turns.new ≡ turns.old + length (last_chunks self.old.held.unordered) }
    {
        let run = self.unordered.pop_back(undo.n_chunks).into_fragments();
        self.unordered_chunks.undo_put(undo.put, run, turns);
    }
}
