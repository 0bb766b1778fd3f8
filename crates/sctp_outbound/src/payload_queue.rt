//! Chunks by their TSNs, in serial order: what is in flight, or what came beyond the cumulative TSN.

ghost use Rattle.std.specs.Prelude.{◌≡◌, ◌==◌, ◌≢◌, ℕ, ◌+◌, ◌*◌, ◌-◌, ◌^◌, ◌<◌, ◌≤◌, [], length, map, max, OnOk, OnErr, IfOk, IfErr, IfSome, IsOk, IsOkUnless, IsTrue, All, find, not, option_copied, slice_get, slice_index_or, slice_set, is_some, unwrap_or, true, false, string_bytes, if◌then◌else◌};
ghost use Rattle.std.specs.Option.{option_map};
ghost use Rattle.std.specs.List.{list_any};
ghost use Rattle.sctp_util.specs.declared.error.Error.TheVariants.{ErrOutOfMemory};
ghost use Rattle.sctp_util.specs.Kept.{runs_of};
ghost use Rattle.sctp_util.specs.Serial.{distance};
ghost use Rattle.sctp_util.specs.Lists.{change_where};
ghost use Rattle.sctp_serial.specs.Runs.{IsRising};
ghost use Rattle.sctp_serial.specs.Turns.{IsWithinDigits};
ghost use Rattle.sctp_serial.specs.Window.{IsSerial, IsPlaceFor, IsHeldAt, IsWindow, SpansOneWindow, is_held, is_new};
ghost use Rattle.sctp_serial.specs.DataChunks.{has_tsn, bytes_of};
ghost use Rattle.sctp_outbound.specs.Stored.{NoneBefore};
ghost use Rattle.sctp_outbound.specs.Marks.{IsBetween, is_outstanding};
ghost use Rattle.sctp_outbound.specs.payload_queue.PayloadQueue.{IsLatestPlace};
ghost use Rattle.sctp_outbound.specs.payload_queue.Blocks.{IsFirstAfter, IsRunUntil, Reports, gap_offsets, ends_of, gap_text};

mod arrival;
mod blocks;
pub mod held;
pub mod outstanding;
mod room;
mod window;

use self::held::{Held, Mark};
use self::outstanding::Outstanding;
use self::window::{are_within_half, is_front_up_to, span_one_window};
use bytes::Bytes;
use sctp_data::chunk::chunk_payload_data::ChunkPayloadData;
use sctp_data::chunk::chunk_selective_ack::GapAckBlock;
use sctp_serial::serial::distance;
use sctp_serial::turns::Turns;
use sctp_util::error::Result;
use sctp_util::util::{sna32lt, sna32lte};
use std::alloc::Global;
use std::marker::Model;
use std::mem;

/// Chunks by their TSNs, each TSN once, in serial order (RFC 4960 1.6): on the sender what is in
/// flight, on the receiver what came beyond the cumulative TSN. It also notes which TSNs came again.
#[derive(Drop)]
pub struct PayloadQueue {
    held: Held,
    dup_tsn: Vec<u32>,
    n_bytes: usize,
}

impl Model for PayloadQueue {
    ghost use Rattle.std.specs.Prelude.{◌≡◌};
    ghost use Rattle.sctp_outbound.specs.payload_queue.PayloadQueue.{Payload};
    ghost use Rattle.sctp_serial.specs.Window.{IsSerial};
    ghost use Rattle.sctp_serial.specs.DataChunks.{bytes_of};

    ghost Value = { Payload };

    ghost view = { λ q. record {
      chunks = q.held.chunks;
      duplicates = q.dup_tsn.items;
      room = q.held.room;
    } };

    ghost invariant = { λ q. record {
      serial : IsSerial q.held.chunks;
      counted : q.n_bytes
          ≡ bytes_of q.held.chunks;
    } };
}

// A place at which, as behind it, no chunk comes before the TSN: the one that it has where TSNs follow each other. It takes no turn.
#[inline]
fn latest_place(held: &Held, tsn: u32) -> usize
    requires { IsSerial held.now.chunks }
    ensures latest { IsLatestPlace held.now.chunks tsn result }
    ensures small { result < 2 ^ 32 }
    ensures fits { tsn < 2 ^ 32 }
{
    match held.front_tsn() {
        Some(front) => distance(front, tsn) as usize,
        None => 0,
    }
}

// Where a TSN is held, with its chunk, or where it would go: a binary search that looks at no place behind the latest. So where TSNs
// follow each other, a TSN of their first half is found by a look.
fn search<'a>(
    held: &'a Held,
    tsn: u32,
    turns: &mut Turns,
) -> std::result::Result<(usize, &'a ChunkPayloadData), usize>
    requires { IsSerial held.now.chunks }
    ensures found { IfOk result (λ spot. IsHeldAt held.now.chunks tsn spot.0 spot.1.now) }
    ensures absent { OnErr result (All (λ c. c.tsn ≢ tsn) held.now.chunks) }
    ensures place { IfErr result (IsPlaceFor held.now.chunks tsn) }
    ensures fits { tsn < 2 ^ 32 }
    ensures not_back { turns.old ≤ turns.new }
    ensures cost { IsWithinDigits (length held.now.chunks) (turns.new - turns.old) }
{
    let latest = latest_place(held, tsn);
    let mut low = 0;
    let mut high = held.len();
    while low < high {
        let middle = (low + (high - low) / 2).min(latest);
        let seen = held.see(middle, turns);
        let here = seen.tsn();
        if here == tsn {
            return Ok((middle, seen.chunk()));
        }
        if sna32lt(here, tsn) {
            low = middle + 1;
        } else {
            high = middle;
        }
    }
    Err(low)
}

// Where a chunk with this TSN goes, unless it is held: mostly behind the last. A look at the last, then a search.
#[inline(always)]
fn free_place(held: &Held, tsn: u32, turns: &mut Turns) -> Option<usize>
    requires { IsSerial held.now.chunks }
    ensures free { is_some result ≡ not (is_held held.now.chunks tsn) }
    ensures place { IfSome result (IsPlaceFor held.now.chunks tsn) }
    ensures fits { tsn < 2 ^ 32 }
    ensures not_back { turns.old ≤ turns.new }
    ensures cost { IsWithinDigits (length held.now.chunks) (turns.new - turns.old - 1) }
{
    let len = held.len();
    if len == 0 {
        return Some(0);
    }
    let last = held.tsn_at(len - 1, turns);
    if sna32lt(last, tsn) {
        return Some(len);
    }
    searched_place(held, tsn, turns)
}

// The same by a search of TSNs alone, none behind the latest place. It stands apart, so that a push behind the last stays small.
#[inline(never)]
fn searched_place(held: &Held, tsn: u32, turns: &mut Turns) -> Option<usize>
    requires { IsSerial held.now.chunks }
    ensures free { is_some result ≡ not (is_held held.now.chunks tsn) }
    ensures place { IfSome result (IsPlaceFor held.now.chunks tsn) }
    ensures fits { tsn < 2 ^ 32 }
    ensures not_back { turns.old ≤ turns.new }
    ensures cost { IsWithinDigits (length held.now.chunks) (turns.new - turns.old) }
{
    let tsns = held.tsns();
    let mut low = 0;
    let mut high = held.len().min(latest_place(held, tsn) + 1);
    while low < high {
        let middle = (low + high) / 2;
        let here = tsns.tsn_at(middle, turns);
        if here == tsn {
            return None;
        }
        if sna32lt(here, tsn) {
            low = middle + 1;
        } else {
            high = middle;
        }
    }
    Some(low)
}

// The place of the first chunk after the cumulative TSN, from where on each is farther after it.
fn first_after(held: &Held, cumulative_tsn: u32, turns: &mut Turns) -> usize
    requires { IsSerial held.now.chunks }
    ensures first { IsFirstAfter cumulative_tsn held.now.chunks result }
    ensures not_back { turns.old ≤ turns.new }
    ensures cost { IsWithinDigits (length held.now.chunks) (turns.new - turns.old) }
{
    let Some(front) = held.front_tsn() else {
        return 0;
    };
    if !sna32lte(front, cumulative_tsn) {
        return 0;
    }
    match search(held, cumulative_tsn, turns) {
        Ok((place, _)) => place + 1,
        Err(place) => place,
    }
}

// Behind how many places of a run it is looked for with leaps.
const WALKED: usize = 4;

// The last place before `end` up to which TSNs rise by one, from a place behind which four do, up to this TSN; and the TSN behind it
// where it was seen. It looks as far ahead as the run reaches, then between.
fn run_end(
    held: &Held,
    place: usize,
    tsn: u32,
    end: usize,
    turns: &mut Turns,
) -> (usize, Option<u32>)
    requires serial { IsSerial held.now.chunks }
    requires rising { IsRising held.now.chunks place (place + 4) }
    requires number { (d : _) → (slice_index_or held.now.chunks (place + 4) d).tsn ≡ tsn }
    requires some { place + 4 < end }
    requires near { end < place + 2 ^ 16 }
    requires in_range { end ≤ length held.now.chunks }
    ensures run { IsRunUntil held.now.chunks end place result.0 }
    ensures seen { IfSome result.1 (λ tsn. (d : _)
        → (slice_index_or held.now.chunks (result.0 + 1) d).tsn ≡ tsn) }
    ensures not_back { turns.old ≤ turns.new }
    ensures cost { 2 ^ (turns.new - turns.old)
        < (result.0 + 1 - place) * (result.0 + 1 - place) }
    ensures most { turns.new ≤ turns.old + 29 }
{
    let mut last = place + WALKED;
    let mut tsn = tsn;
    let mut step = WALKED;
    while step < end - last {
        let ahead = held.tsn_at(last + step, turns);
        if distance(tsn, ahead) as usize != step {
            return run_end_between(held, last, tsn, last + step, Some(ahead), turns);
        }
        last += step;
        tsn = ahead;
        step = last - place;
    }
    run_end_between(held, last, tsn, end, None, turns)
}

// The same by halves, where the TSN at the end may have been seen: as many turns as the number of places behind the first has
// binary digits. It stands apart, so that what short runs take stays small.
#[cold]
#[inline(never)]
fn run_end_between(
    held: &Held,
    place: usize,
    tsn: u32,
    end: usize,
    seen: Option<u32>,
    turns: &mut Turns,
) -> (usize, Option<u32>)
    requires serial { IsSerial held.now.chunks }
    requires number { (d : _) → (slice_index_or held.now.chunks place d).tsn ≡ tsn }
    requires some { place < end }
    requires in_range { end ≤ length held.now.chunks }
    requires seen { IfSome seen (λ tsn. (d : _)
        → (slice_index_or held.now.chunks end d).tsn ≡ tsn) }
    ensures run { IsRunUntil held.now.chunks end place result.0 }
    ensures seen { IfSome result.1 (λ tsn. (d : _)
        → (slice_index_or held.now.chunks (result.0 + 1) d).tsn ≡ tsn) }
    ensures not_back { turns.old ≤ turns.new }
    ensures cost { IsWithinDigits (end - place - 1) (turns.new - turns.old) }
{
    let mut last = place;
    let mut tsn = tsn;
    let mut beyond = end;
    let mut seen = seen;
    while last + 1 < beyond {
        let middle = last + (beyond - last) / 2;
        let ahead = held.tsn_at(middle, turns);
        if distance(tsn, ahead) as usize == middle - last {
            last = middle;
            tsn = ahead;
        } else {
            beyond = middle;
            seen = Some(ahead);
        }
    }
    (last, seen)
}

// Whether the chunk is neither acknowledged nor abandoned.
pub(crate) fn is_outstanding(chunk: &ChunkPayloadData) -> bool
    ensures { result ≡ is_outstanding chunk.now }
{
    !chunk.acked && !chunk.abandoned
}

impl PayloadQueue {
    ghost use Rattle.sctp_outbound.specs.payload_queue.PayloadQueue.{FirstStays, FrontGoesFirst, Payload, with_chunks, push_chunk, add_duplicate, front_with, without_front, without, past};
    ghost use Rattle.sctp_outbound.specs.Outstanding.{outstanding_of};
    ghost use Rattle.sctp_outbound.specs.Marks.{with_mark, as_acknowledged, as_taken_back, as_abandoned, with_retransmit, with_nsent, with_since, with_miss_indicator, is_of};

    /// A queue of nothing. It takes no memory.
    pub fn new(alloc: Global) -> Self
        ensures { result ≡ record { chunks = []; duplicates = []; room = 0 } }
    {
        PayloadQueue {
            held: Held::new(alloc),
            dup_tsn: Vec::new(alloc),
            n_bytes: 0,
        }
    }

    /// Whether the chunk is neither held nor at or before `cumulative_tsn`. `push` keeps such a one.
    pub fn can_push(&self, chunk: &ChunkPayloadData, cumulative_tsn: u32) -> bool
        ensures { result ≡ is_new self.now.chunks chunk.now.tsn cumulative_tsn }
    {
        self.can_push_counted(chunk, cumulative_tsn, &mut Turns::new())
    }

    /// The same, and its turns are added: at most as many as the number of held chunks has binary digits.
    pub fn can_push_counted(
        &self,
        chunk: &ChunkPayloadData,
        cumulative_tsn: u32,
        turns: &mut Turns,
    ) -> bool
        ensures answer { result ≡ is_new self.now.chunks chunk.now.tsn cumulative_tsn }
        ensures not_back { turns.old ≤ turns.new }
        ensures cost { IsWithinDigits (length self.now.chunks) (turns.new - turns.old) }
    {
        self.get_counted(chunk.tsn, turns).is_none() && !sna32lte(chunk.tsn, cumulative_tsn)
    }

    /// Whether TSNs let `push` be called with a chunk of this TSN: it is not new, or it and all that is held lie at distance 1 to 2^31
    /// after `cumulative_tsn`.
    pub fn fits(&self, cumulative_tsn: u32, tsn: u32) -> bool
        ensures yes { result ≡ true → IsTrue (is_new self.now.chunks tsn cumulative_tsn)
            → IsWindow cumulative_tsn self.now.chunks tsn }
        ensures no { (IsTrue (is_new self.now.chunks tsn cumulative_tsn)
            → IsWindow cumulative_tsn self.now.chunks tsn) → result ≡ true }
    {
        if are_within_half(&self.held, cumulative_tsn) {
            return true;
        }
        self.get(tsn).is_some() || sna32lte(tsn, cumulative_tsn)
    }

    /// Whether TSNs let `push_no_check` be called with a chunk of this TSN: it is not held, and there is a number after which it and all
    /// that is held lie at distance 1 to 2^31.
    pub fn can_push_no_check(&self, tsn: u32) -> bool
        ensures fresh { result ≡ true → is_held self.now.chunks tsn ≡ false }
        ensures window { result ≡ true → SpansOneWindow self.now.chunks tsn }
        ensures exact { is_held self.now.chunks tsn ≡ false
            → SpansOneWindow self.now.chunks tsn → result ≡ true }
    {
        span_one_window(&self.held, tsn) && free_place(&self.held, tsn, &mut Turns::new()).is_some()
    }

    /// Puts a chunk whose TSN is not held, in one window with all that are.
    /// Precondition: its TSN is not held; it and all that is held lie at distance 1
    /// to 2^31 after some number (`can_push_no_check` tells); and the bytes of all are fewer than 2^64.
    /// Refuses only for memory, and never within the room of `reserve`. The queue is as it was then.
    #[inline(always)]
    pub fn push_no_check(&mut self, chunk: ChunkPayloadData) -> Result<()>
        requires fresh { is_held self.old.chunks chunk.tsn ≡ false }
        requires window { SpansOneWindow self.old.chunks chunk.tsn }
        requires bytes { bytes_of self.old.chunks + length chunk.user_data < 2 ^ 64 }
        ensures ok { OnOk result (self.new ≡ push_chunk self.old chunk) }
        ensures err { OnErr result (self.new ≡ self.old) }
        ensures memory { IsOkUnless result ErrOutOfMemory }
        ensures succeeds { 0 < self.old.room → IsOk result }
    {
        match free_place(&self.held, chunk.tsn, &mut Turns::new()) {
            Some(place) => self.insert(place, chunk),
            None => unreachable!(),
        }
    }

    // Puts a chunk where it goes.
    #[inline(always)]
    fn insert(&mut self, place: usize, chunk: ChunkPayloadData) -> Result<()>
        requires place { IsPlaceFor self.old.chunks chunk.tsn place }
        requires window { SpansOneWindow self.old.chunks chunk.tsn }
        requires fits { chunk.tsn < 2 ^ 32 }
        requires bytes { bytes_of self.old.chunks + length chunk.user_data < 2 ^ 64 }
        ensures ok { OnOk result (self.new ≡ push_chunk self.old chunk) }
        ensures err { OnErr result (self.new ≡ self.old) }
        ensures memory { IsOkUnless result ErrOutOfMemory }
        ensures succeeds { 0 < self.old.room → IsOk result }
    {
        let len = chunk.user_data.len();
        self.held.insert(place, chunk)?;
        self.n_bytes += len;
        Ok(())
    }

    /// The front chunk, taken out, if it has this TSN.
    #[inline(always)]
    pub fn pop(&mut self, tsn: u32) -> Option<ChunkPayloadData>
        ensures popped { result ≡ front_with tsn self.old.chunks }
        ensures rest { self.new ≡ with_chunks self.old (without_front tsn self.old.chunks) }
    {
        let room = self.room();
        let chunk = self.pop_leaving_room(tsn);
        self.limit_room(room);
        chunk
    }

    /// Takes out all that is at or before `cumulative_tsn` (RFC 3758 3.6). The number
    /// comes off the wire in a FORWARD-TSN and may lie almost 2^31 ahead: what a
    /// hostile jump costs depends on how much is held, not on how far it goes.
    pub fn pop_up_to(&mut self, cumulative_tsn: u32)
        ensures { self.new ≡ with_chunks self.old (past cumulative_tsn self.old.chunks) }
    {
        self.pop_up_to_counted(cumulative_tsn, &mut Turns::new());
    }

    /// The same, and its turns are added: at most one for each chunk held; and one more than chunks leave, where the last
    /// leaves only with the first, as where all lie less than half a circle past one TSN.
    pub fn pop_up_to_counted(&mut self, cumulative_tsn: u32, turns: &mut Turns)
        ensures kept { self.new ≡ with_chunks self.old (past cumulative_tsn self.old.chunks) }
        ensures not_back { turns.old ≤ turns.new }
        ensures cost { turns.new ≤ turns.old + length self.old.chunks }
        ensures few { FrontGoesFirst cumulative_tsn self.old.chunks
            → turns.new + length self.new.chunks ≤ turns.old + length self.old.chunks + 1 }
    {
        while is_front_up_to(&self.held, cumulative_tsn) {
            turns.tick();
            let removed = self.held.remove(0);
            self.n_bytes -= removed.user_data.len();
        }
        self.pop_last_up_to(cumulative_tsn, turns);
    }

    // The same, where the first stays, so that only the last ones may leave: those that lie more than half a circle past the TSN
    // behind which the first lies.
    fn pop_last_up_to(&mut self, cumulative_tsn: u32, turns: &mut Turns)
        requires { FirstStays cumulative_tsn self.old.chunks }
        ensures kept { self.new ≡ with_chunks self.old (past cumulative_tsn self.old.chunks) }
        ensures not_back { turns.old ≤ turns.new }
        ensures cost { turns.new ≤ turns.old + (length self.old.chunks - 1) }
        ensures few { turns.new + length self.new.chunks
            ≤ turns.old + length self.old.chunks + 1 }
    {
        while self.held.len() > 1 {
            let last = self.held.len() - 1;
            if !sna32lte(self.held.tsn_at(last, turns), cumulative_tsn) {
                return;
            }
            let removed = self.held.remove(last);
            self.n_bytes -= removed.user_data.len();
        }
    }

    /// The chunk with this TSN.
    pub fn get(&self, tsn: u32) -> Option<&ChunkPayloadData>
        ensures { option_copied result ≡ find (has_tsn tsn) self.now.chunks }
    {
        self.get_counted(tsn, &mut Turns::new())
    }

    /// The same, and its turns are added: at most as many as the number of held chunks has binary digits.
    pub fn get_counted<'a>(&'a self, tsn: u32, turns: &mut Turns) -> Option<&'a ChunkPayloadData>
        ensures value { option_copied result ≡ find (has_tsn tsn) self.now.chunks }
        ensures variant { is_some result ≡ is_held self.now.chunks tsn }
        ensures not_back { turns.old ≤ turns.new }
        ensures cost { IsWithinDigits (length self.now.chunks) (turns.new - turns.old) }
    {
        match search(&self.held, tsn, turns) {
            Ok((_, chunk)) => Some(chunk),
            Err(_) => None,
        }
    }

    /// The TSN of the chunk at a place, counted from 0 in serial order; None past the last.
    pub fn tsn_at(&self, place: usize) -> Option<u32>
        ensures { result ≡ option_map (λ c. c.tsn) (slice_get self.now.chunks place) }
    {
        if place < self.held.len() {
            Some(self.held.tsn_at(place, &mut Turns::new()))
        } else {
            None
        }
    }

    /// Takes out the chunk with this TSN, wherever it is.
    pub fn take(&mut self, tsn: u32) -> Option<ChunkPayloadData>
        ensures taken { result ≡ find (has_tsn tsn) self.old.chunks }
        ensures rest { self.new ≡ with_chunks self.old (without tsn self.old.chunks) }
    {
        let room = self.room();
        let chunk = self.take_leaving_room(tsn);
        self.limit_room(room);
        chunk
    }

    /// Abandons what is held of a message: its chunks are cleared and flagged, whatever their TSNs,
    /// and stay in flight until they are taken out (RFC 3758 3.5). Answers the bytes that left.
    pub fn abandon_message(&mut self, message_id: u64) -> usize
        ensures abandoned { self.new
            ≡ with_chunks self.old (change_where (is_of message_id) as_abandoned self.old.chunks) }
        ensures left { bytes_of self.new.chunks + result ≡ bytes_of self.old.chunks }
    {
        let len = self.held.len();
        self.abandon_between(message_id, 0, len)
    }

    /// The same, and it looks only at the places from `start` on and before `end`.
    /// Precondition: the chunks of the message stand there.
    pub(crate) fn abandon_between(&mut self, message_id: u64, start: usize, end: usize) -> usize
        requires { IsBetween message_id start end self.old.chunks }
        ensures abandoned { self.new
            ≡ with_chunks self.old (change_where (is_of message_id) as_abandoned self.old.chunks) }
        ensures left { bytes_of self.new.chunks + result ≡ bytes_of self.old.chunks }
    {
        let mut turns = Turns::new();
        let before = self.n_bytes;
        for place in start..end {
            if self.held.look(place, &mut turns).message_id != message_id {
                continue;
            }
            self.n_bytes -= self.held.mark(place, Mark::Abandoned, &mut turns);
        }
        before - self.n_bytes
    }

    /// Flags each chunk that is neither acknowledged nor abandoned to be sent
    /// again, as after the retransmission timer ran out (RFC 4960 6.3.3).
    pub fn mark_all_to_retransmit(&mut self)
        ensures { self.new ≡ with_chunks self.old
            (change_where is_outstanding (with_retransmit true) self.old.chunks) }
    {
        let mut turns = Turns::new();
        for place in 0..self.held.len() {
            if !is_outstanding(self.held.look(place, &mut turns)) {
                continue;
            }
            self.held.mark(place, Mark::Retransmit(true), &mut turns);
        }
    }

    /// The TSNs that came again, noted so far, oldest first (RFC 4960 3.3.4).
    pub fn duplicates(&self) -> &[u32]
        ensures { result.now ≡ self.now.duplicates }
    {
        &self.dup_tsn
    }

    /// The same, and forgets them.
    pub fn pop_duplicates(&mut self, alloc: Global) -> Vec<u32>
        ensures taken { result.items ≡ self.old.duplicates }
        ensures rest { self.new ≡ record self.old { duplicates = [] } }
    {
        mem::replace(&mut self.dup_tsn, Vec::new(alloc))
    }

    /// The runs of TSNs held at distance 1 to 65,535 after `cumulative_tsn`: they ascend, and none
    /// touches the next (RFC 4960 3.3.4). A distance there has two bytes and does not wrap: farther TSNs
    /// stay held, and are reported once the cumulative TSN has come nearer. Refuses only for memory.
    pub fn get_gap_ack_blocks(&self, alloc: Global, cumulative_tsn: u32) -> Result<Vec<GapAckBlock>>
        ensures reported { IfOk result
            (λ blocks. Reports cumulative_tsn self.now.chunks blocks.items) }
        ensures runs { IfOk result (λ blocks. map ends_of blocks.items
            ≡ runs_of (gap_offsets cumulative_tsn self.now.chunks)) }
        ensures memory { IsOkUnless result ErrOutOfMemory }
    {
        self.get_gap_ack_blocks_counted(alloc, cumulative_tsn, &mut Turns::new())
    }

    /// The same, and its turns are added: at most 34 for each block, and beside these one more
    /// than the number of held chunks has binary digits; where memory runs out, for each block that there would be else.
    pub fn get_gap_ack_blocks_counted(
        &self,
        alloc: Global,
        cumulative_tsn: u32,
        turns: &mut Turns,
    ) -> Result<Vec<GapAckBlock>>
        ensures reported { IfOk result
            (λ blocks. Reports cumulative_tsn self.now.chunks blocks.items) }
        ensures runs { IfOk result (λ blocks. map ends_of blocks.items
            ≡ runs_of (gap_offsets cumulative_tsn self.now.chunks)) }
        ensures memory { IsOkUnless result ErrOutOfMemory }
        ensures not_back { turns.old ≤ turns.new }
        ensures cost { IfOk result (λ blocks. IsWithinDigits
            (length self.now.chunks) (turns.new - turns.old - 34 * length blocks.items - 1)) }
        ensures cost_of_runs { IsWithinDigits (length self.now.chunks) (turns.new
            - turns.old - 34 * length (runs_of (gap_offsets cumulative_tsn self.now.chunks)) - 1) }
    {
        // no list is so long
        let blocks = self.get_gap_ack_blocks_within(alloc, cumulative_tsn, usize::MAX, turns)?;
        Ok(blocks)
    }

    /// The blocks as text: `cumTSN=10,2-3,5-5`. Refuses only for memory.
    pub fn get_gap_ack_blocks_string(&self, alloc: Global, cumulative_tsn: u32) -> Result<String>
        ensures text { IfOk result (λ s. string_bytes s
            ≡ gap_text cumulative_tsn (runs_of (gap_offsets cumulative_tsn self.now.chunks))) }
        ensures memory { IsOkUnless result ErrOutOfMemory }
    {
        let blocks = self.get_gap_ack_blocks(alloc, cumulative_tsn)?;
        let mut text = format!(in alloc; "cumTSN={cumulative_tsn}")?;
        for block in &blocks {
            write!(text, ",{}-{}", block.start, block.end)?;
        }
        Ok(text)
    }

    /// An equal queue, which shares its bytes; its room is as great. Refuses only for memory.
    pub fn try_clone(&self, alloc: Global) -> Result<PayloadQueue>
        ensures ok { IfOk result (λ q. q ≡ self.now) }
        ensures memory { IsOkUnless result ErrOutOfMemory }
    {
        let n_bytes = self.get_num_bytes();
        let mut turns = Turns::new();
        let mut held = Held::new(alloc);
        held.reserve(self.held.len())?;
        for place in 0..self.held.len() {
            held.insert(place, self.held.look(place, &mut turns).try_clone()?)?;
        }
        held.reserve(self.held.room())?;
        Ok(PayloadQueue {
            held,
            dup_tsn: self.dup_tsn.clone()?,
            n_bytes,
        })
    }

    /// Marks a chunk as acknowledged: its bytes go, and it is not to be sent again.
    /// Answers how many bytes left, 0 where the TSN is not held.
    pub fn mark_as_acked(&mut self, tsn: u32) -> usize
        ensures acked { self.new
            ≡ with_chunks self.old (change_where (has_tsn tsn) as_acknowledged self.old.chunks) }
        ensures left { bytes_of self.new.chunks + result ≡ bytes_of self.old.chunks }
    {
        self.mark(tsn, Mark::Acknowledged).unwrap_or(0)
    }

    /// Marks the chunk at a place as `mark_as_acked` does, without a search. Answers how many bytes left.
    /// Precondition: the place has a chunk.
    pub fn mark_as_acked_at(&mut self, place: usize) -> usize
        requires { place < length self.old.chunks }
        ensures acked { (d : _) → self.new ≡ with_chunks self.old (slice_set self.old.chunks place
            (as_acknowledged (slice_index_or self.old.chunks place d))) }
        // no other chunk has its TSN
        ensures alone { (d : _) → self.new ≡ with_chunks self.old (change_where
            (has_tsn (slice_index_or self.old.chunks place d).tsn)
            as_acknowledged self.old.chunks) }
        ensures left { bytes_of self.new.chunks + result ≡ bytes_of self.old.chunks }
    {
        let left = self.held.mark(place, Mark::Acknowledged, &mut Turns::new());
        self.n_bytes -= left;
        left
    }

    /// Takes back the acknowledgement of the chunk at a place, without a search: it has these bytes again. It takes no memory.
    /// Precondition: the place has a chunk, and the bytes of all are fewer than 2^64 with these.
    pub fn take_back_at(&mut self, place: usize, user_data: Bytes)
        requires place { place < length self.old.chunks }
        requires bytes { bytes_of self.old.chunks + length user_data < 2 ^ 64 }
        ensures back { (d : _) → self.new ≡ with_chunks self.old (slice_set self.old.chunks place
            (as_taken_back user_data (slice_index_or self.old.chunks place d))) }
        // no other chunk has its TSN
        ensures alone { (d : _) → self.new ≡ with_chunks self.old (change_where
            (has_tsn (slice_index_or self.old.chunks place d).tsn)
            (as_taken_back user_data) self.old.chunks) }
        ensures counted { (d : _)
            → bytes_of self.new.chunks
            + length (slice_index_or self.old.chunks place d).user_data
            ≡ bytes_of self.old.chunks + length user_data }
    {
        let len = user_data.len();
        let had = self.held.take_back(place, user_data, &mut Turns::new());
        self.n_bytes = self.n_bytes - had + len;
    }

    /// Whether the TSN is held; the chunk is to be sent again then, or not, as `retransmit` says.
    pub fn set_retransmit(&mut self, tsn: u32, retransmit: bool) -> bool
        ensures changed { self.new ≡ with_chunks self.old
            (change_where (has_tsn tsn) (with_retransmit retransmit) self.old.chunks) }
        ensures held { result ≡ is_held self.old.chunks tsn }
    {
        self.mark(tsn, Mark::Retransmit(retransmit)).is_some()
    }

    /// Whether the TSN is held; the chunk counts as sent so often then.
    pub fn set_nsent(&mut self, tsn: u32, nsent: u32) -> bool
        ensures changed { self.new
            ≡ with_chunks self.old (change_where (has_tsn tsn) (with_nsent nsent) self.old.chunks) }
        ensures held { result ≡ is_held self.old.chunks tsn }
    {
        self.mark(tsn, Mark::Nsent(nsent)).is_some()
    }

    /// Whether the TSN is held; the chunk counts as sent at that moment then, in nanoseconds.
    pub fn set_since(&mut self, tsn: u32, since: Option<u64>) -> bool
        ensures changed { self.new
            ≡ with_chunks self.old (change_where (has_tsn tsn) (with_since since) self.old.chunks) }
        ensures held { result ≡ is_held self.old.chunks tsn }
    {
        self.mark(tsn, Mark::Since(since)).is_some()
    }

    /// Whether the TSN is held; the chunk then counts as reported missing by so
    /// many acknowledgements, which fast retransmission looks at (RFC 4960 7.2.4).
    pub fn set_miss_indicator(&mut self, tsn: u32, miss_indicator: u8) -> bool
        ensures changed { self.new ≡ with_chunks self.old
            (change_where (has_tsn tsn) (with_miss_indicator miss_indicator) self.old.chunks) }
        ensures held { result ≡ is_held self.old.chunks tsn }
    {
        self.mark(tsn, Mark::MissIndicator(miss_indicator))
            .is_some()
    }

    // Marks the chunk with this TSN, and answers the bytes that left with it.
    fn mark(&mut self, tsn: u32, mark: Mark) -> Option<usize>
        ensures changed { self.new
            ≡ with_chunks self.old (change_where (has_tsn tsn) (with_mark mark) self.old.chunks) }
        ensures held { is_some result ≡ is_held self.old.chunks tsn }
        ensures left { bytes_of self.new.chunks + unwrap_or result 0 ≡ bytes_of self.old.chunks }
    {
        let mut turns = Turns::new();
        match search(&self.held, tsn, &mut turns) {
            Ok((place, _)) => {
                let left = self.held.mark(place, mark, &mut turns);
                self.n_bytes -= left;
                Some(left)
            }
            Err(_) => None,
        }
    }

    /// The TSN of the last chunk in serial order; None where nothing is held.
    pub fn get_last_tsn_received(&self) -> Option<u32>
        ensures { result
            ≡ option_map (λ c. c.tsn) (slice_get self.now.chunks (length self.now.chunks - 1)) }
    {
        let len = self.held.len();
        if len == 0 {
            return None;
        }
        self.tsn_at(len - 1)
    }

    /// The bytes of user data of all that is held.
    pub fn get_num_bytes(&self) -> usize
        ensures { result ≡ bytes_of self.now.chunks }
    {
        self.n_bytes
    }

    /// What of them is outstanding: neither acknowledged nor abandoned; and how much of that is marked to be sent again. It is a look.
    pub fn outstanding(&self) -> Outstanding
        ensures { result ≡ outstanding_of self.now.chunks }
    {
        self.held.outstanding()
    }

    /// How many chunks are held.
    pub fn len(&self) -> usize
        ensures { result ≡ length self.now.chunks }
    {
        self.held.len()
    }

    /// Whether nothing is held.
    pub fn is_empty(&self) -> bool
        ensures { result ≡ (length self.now.chunks == 0) }
    {
        self.held.is_empty()
    }

    /// Whether a chunk of the stream is held.
    pub fn contains_stream(&self, stream_identifier: u16) -> bool
        ensures { result
            ≡ list_any (λ c. c.stream_identifier == stream_identifier) self.now.chunks }
    {
        let mut turns = Turns::new();
        for place in 0..self.held.len() {
            if self.held.look(place, &mut turns).stream_identifier == stream_identifier {
                return true;
            }
        }
        false
    }

    /// From here on `additional` pushes of new TSNs take no memory.
    /// Refuses only for memory, and the queue is as it was then.
    pub fn reserve(&mut self, additional: usize) -> Result<()>
        ensures ok { OnOk result (self.new
            ≡ record self.old { room = max additional self.old.room }) }
        ensures err { OnErr result (self.new ≡ self.old) }
        ensures memory { IsOkUnless result ErrOutOfMemory }
        ensures succeeds { additional ≤ self.old.room → IsOk result }
    {
        self.held.reserve(additional)
    }

    /// A moment in nanoseconds before which no chunk that is not abandoned has a deadline.
    pub(crate) fn earliest_deadline(&self) -> u64
        ensures { NoneBefore result self.now.chunks }
    {
        self.held.earliest()
    }

    /// Looks at each chunk, so that `earliest_deadline` hangs on those alone that are held and not abandoned.
    pub(crate) fn settle_deadlines(&mut self)
        ensures { self.new ≡ self.old }
    {
        self.held.settle_earliest(&mut Turns::new());
    }

    /// Looks at the chunk at a place, which is a turn.
    /// Precondition: the place has one.
    pub(crate) fn look<'a>(&'a self, place: usize, turns: &mut Turns) -> &'a ChunkPayloadData
        requires { place < length self.now.chunks }
        ensures value { result.now ≡ slice_index_or self.now.chunks place result.now }
        ensures turn { turns.new ≡ turns.old + 1 }
    {
        self.held.look(place, turns)
    }
}
