//! The streams of a receiver.

ghost use Rattle.std.specs.Prelude.{◌≡◌, ◌==◌, ◌<◌, ◌≤◌, ◌+◌, ◌-◌, ◌^◌, ◌++◌, ◌∷◌, ◌⊎◌, [], true, false, Some, None, OnOk, OnErr, IfOk, IfErr, IsOk, MatchOption, length, map, find, option_map, option_copied, is_some, if◌then◌else◌};
ghost use Rattle.std.specs.List.{sum_by};
ghost use Rattle.sctp_util.specs.Lists.{change_where};
ghost use Rattle.sctp_receiver.specs.declared.receiver.refusal.ReceiverRefusal.TheVariants.{MessageTooLarge, OutOfMemory, StreamUnknown};
ghost use Rattle.sctp_stream.specs.Numbers.{IsOnlyPlace, IsAbsent, swapped_out};
ghost use Rattle.sctp_reassembly.specs.reassembly_queue.ReassemblyQueue.{is_too_large};
ghost use Rattle.sctp_reassembly.specs.reassembly_queue.Undo.{CanUndo};
ghost use Rattle.sctp_receiver.specs.Costs.{IsWithinPush, IsWithinPushOn};
ghost use Rattle.sctp_receiver.specs.Limits.{held_cost};
ghost use Rattle.sctp_receiver.specs.Receiver.{readable_streams};
ghost use Rattle.sctp_receiver.specs.Resets.{stream_reset, keeps_message};
ghost use Rattle.sctp_receiver.specs.SkipCosts.{named_walk, visit_walk, settle_walk};
ghost use Rattle.sctp_receiver.specs.Undo.{stream_undone, undone_at, CanUndoAt, IsSpanAt};
ghost use Rattle.sctp_receiver.specs.Visited.{skip_forwarded, to_visit};

use crate::receiver::limits::cost_of;
use crate::receiver::names::{make_each, make_room, note_each};
use crate::receiver::received::Received;
use crate::receiver::refusal::ReceiverRefusal;
use crate::receiver::spans::TsnSpan;
use crate::receiver::visit::{Skip, forward_each, renew, renew_within};
use crate::receiver::visits::Visits;
use bytes::Bytes;
use sctp_data::chunk::chunk_forward_tsn::ChunkForwardTsnStream;
use sctp_data::chunk::chunk_payload_data::ChunkPayloadData;
use sctp_reassembly::chunks::Chunks;
use sctp_reassembly::ordered_skips::OrderedSkips;
use sctp_reassembly::reassembly_queue::ReassemblyQueue;
use sctp_reassembly::reassembly_queue::undo::PushUndo;
use sctp_serial::turns::Turns;
use sctp_stream::stream_numbers::{StreamNumbers, make_place, put};
use sctp_util::error::Error;
use std::alloc::Global;
use std::marker::Model;

/// A stream of a receiver: what came of its messages, and its counters.
#[derive(Drop)]
pub struct InboundStream {
    /// What came and was not read.
    pub queue: ReassemblyQueue,
    /// What was read.
    pub stats: Received,
}

impl InboundStream {
    ghost use Rattle.sctp_reassembly.specs.reassembly_queue.ReassemblyQueue.{message_read, at_start};
    ghost use Rattle.sctp_receiver.specs.Inbound.{new_stream, Pushes, stream_read};

    /// A stream on which nothing came. It takes no memory.
    pub(crate) fn new(alloc: Global, stream: u16, max_message_size: u32) -> Self
        ensures { result ≡ new_stream stream max_message_size }
    {
        InboundStream {
            queue: ReassemblyQueue::new(alloc, stream, max_message_size),
            stats: Received::new(stream),
        }
    }

    /// Takes a chunk, and says how it is taken back. With an allocator the user data is copied (`to_keep`). Its turns are added: those of a
    /// push in its queue.
    pub(crate) fn push_undoable_counted(
        &mut self,
        chunk: &ChunkPayloadData,
        copies: Option<Global>,
        turns: &mut Turns,
    ) -> Result<(bool, PushUndo), ReceiverRefusal>
        requires { (chunk.now.stream_identifier == self.old.queue.si) ≡ true }
        ensures ok { IfOk result (λ put.
            Pushes chunk.now put.0 self.old.queue self.new.queue) }
        ensures undo { IfOk result (λ put. stream_undone put.1 self.new ≡ self.old) }
        ensures can { IfOk result (λ put. CanUndo put.1 self.new.queue) }
        ensures rest { self.new ≡ record self.old { queue = self.new.queue } }
        ensures fits { IsOk result → is_too_large chunk.now self.old.queue ≡ false }
        ensures refused { IfErr result (λ e.
            e ≡ (if is_too_large chunk.now self.old.queue then MessageTooLarge else OutOfMemory)) }
        ensures err { OnErr result (self.new ≡ self.old) }
        ensures not_back { turns.old ≤ turns.new }
        ensures cost { IsWithinPush chunk.now self.old.queue (turns.new - turns.old) }
    {
        let Ok(fragment) = to_keep(chunk, copies) else {
            return Err(refusal_without_memory(&self.queue, chunk, turns));
        };
        Ok(self.queue.push_undoable_counted(fragment, turns)?)
    }

    /// Takes a chunk back. It takes no memory.
    pub(crate) fn undo_push(&mut self, undo: PushUndo)
        requires { CanUndo undo self.old.queue }
        ensures { self.new ≡ stream_undone undo self.old }
    {
        self.queue.undo_push(undo);
    }

    /// Takes the next message out, where there is one, and counts it. It takes no memory.
    pub(crate) fn read(&mut self) -> Option<Chunks>
        ensures message { result ≡ option_map at_start (message_read self.old.queue.held) }
        ensures rest { self.new ≡ stream_read self.old }
    {
        let chunks = self.queue.read()?;
        self.stats.count(chunks.ppi(), chunks.len());
        Some(chunks)
    }

    /// Resets the stream, whose old use ends with the TSN (RFC 6525 5.2.2). Its counters stay. Refuses only for memory, and only where
    /// a complete ordered message is to be kept; the stream is as it was then.
    pub(crate) fn reset(&mut self, last_tsn: u32) -> Result<(), ReceiverRefusal>
        ensures ok { OnOk result (self.new ≡ stream_reset last_tsn self.old) }
        ensures wants { OnErr result (keeps_message last_tsn (Some self.old) ≡ true) }
        ensures err { OnErr result (self.new ≡ self.old) }
        ensures memory { IfErr result (λ e. e ≡ OutOfMemory) }
    {
        Ok(self.queue.reset(last_tsn)?)
    }
}

/// The streams of a receiver, in the order in which they were opened; where one was closed, the last one stands in its place. Each is
/// found at once by its number, and the sum of what they hold is kept: of each stream up to the greatest usize, so that it can be
/// lowered again. So are the places of the streams that a FORWARD-TSN visits: of each that holds something incomplete, and of none that
/// holds neither ordered messages nor unassembled fragments. There is room to note what a FORWARD-TSN names on each stream. What is held
/// is copied, where there is an allocator for that.
#[derive(Drop)]
pub struct InboundStreams {
    numbers: StreamNumbers,
    items: Vec<InboundStream>,
    cost: u128,
    visits: Visits,
    // by place, nothing but while the names of a FORWARD-TSN are followed
    noted: Vec<Option<OrderedSkips>>,
    copies: Option<Global>,
    // the stream that was read last
    last_read: u16,
}

impl Model for InboundStreams {
    ghost use Rattle.std.specs.Prelude.{◌≡◌, ◌≤◌, List, length};
    ghost use Rattle.sctp_receiver.specs.declared.receiver.inbound_streams.InboundStream.{InboundStream};
    ghost use Rattle.std.specs.List.{sum_by};
    ghost use Rattle.sctp_receiver.specs.Inbound.{numbers_of};
    ghost use Rattle.sctp_receiver.specs.Limits.{cost_within};
    ghost use Rattle.sctp_receiver.specs.Noted.{AreNone};
    ghost use Rattle.sctp_receiver.specs.Visited.{IsListing};

    ghost Value = { List InboundStream };

    ghost view = { λ s. s.items.items };

    ghost invariant = { λ s. record {
      numbers : s.numbers ≡ numbers_of s.items.items;
      cost : s.cost ≡ sum_by cost_within s.items.items;
      visits : IsListing s.visits s.items.items;
      places : length s.numbers ≤ length s.noted.items;
      none : AreNone s.noted.items;
    } };
}

impl InboundStreams {
    ghost use Rattle.sctp_reassembly.specs.reassembly_queue.ReassemblyQueue.{at_start};
    ghost use Rattle.sctp_receiver.specs.Inbound.{has_number, numbers_of, new_stream, PushesOn, stream_read, named_forwarded};
    ghost use Rattle.sctp_receiver.specs.Receiver.{message_of, stream_refusal, IsRefusedFor};

    /// No streams. Chunks are copied with the second allocator, if there is one, else they share their user data. It takes no memory.
    pub(crate) fn new(alloc: Global, copies: Option<Global>) -> Self
        ensures { result ≡ [] }
    {
        InboundStreams {
            numbers: StreamNumbers::new(alloc),
            items: Vec::new(alloc),
            cost: 0,
            visits: Visits::new(alloc),
            noted: Vec::new(alloc),
            copies,
            last_read: 0,
        }
    }

    /// What they hold counts for, up to the greatest usize.
    pub(crate) fn held_bytes(&self) -> usize
        ensures { result ≡ held_cost self.now }
    {
        self.cost.min(usize::MAX as u128) as usize
    }

    /// The place of the stream with a number, None where it is not open.
    pub(crate) fn place_of(&self, stream: u16) -> Option<usize>
        ensures { MatchOption result
            (IsAbsent stream (numbers_of self.now)) (IsOnlyPlace stream (numbers_of self.now)) }
    {
        self.numbers.place_of(stream)
    }

    /// The stream with a number, None where it is not open.
    pub(crate) fn find(&self, stream: u16) -> Option<&InboundStream>
        ensures { option_copied result ≡ find (has_number stream) self.now }
    {
        let Some(place) = self.numbers.place_of(stream) else {
            return None;
        };
        Some(&self.items[place])
    }

    /// The streams, lent.
    pub(crate) fn as_slice(&self) -> &[InboundStream]
        ensures { result.now ≡ self.now }
    {
        &self.items
    }

    /// The numbers of the streams with a message to read, in their order. Refuses only for memory.
    pub(crate) fn readable(&self, alloc: Global) -> Result<Vec<u16>, ReceiverRefusal>
        ensures ok { IfOk result (λ numbers. numbers.items ≡ readable_streams self.now) }
        ensures memory { IfErr result (λ e. e ≡ OutOfMemory) }
    {
        readable_each(alloc, &self.items)
    }

    /// Opens a stream. Refuses only for memory, and the streams are as they were then.
    /// Precondition: it is not open.
    pub(crate) fn open(
        &mut self,
        alloc: Global,
        stream: u16,
        max_message_size: u32,
    ) -> Result<(), ReceiverRefusal>
        requires { IsAbsent stream (numbers_of self.old) }
        ensures ok { OnOk result (self.new ≡ self.old ++ new_stream stream max_message_size ∷ []) }
        ensures err { OnErr result (self.new ≡ self.old) }
        ensures memory { IfErr result (λ e. e ≡ OutOfMemory) }
    {
        let opened = InboundStream::new(alloc, stream, max_message_size);
        if make_place(&mut self.items).is_err() || self.visits.reserve().is_err() {
            return Err(ReceiverRefusal::OutOfMemory);
        }
        make_room(&mut self.noted, self.items.len())?;
        self.numbers.push(stream)?;
        put(&mut self.items, opened);
        self.visits.push();
        Ok(())
    }

    /// Closes a stream, where it is open: the last one takes its place, and what came on it and was not read is dropped. It takes no
    /// memory.
    pub(crate) fn close(&mut self, stream: u16)
        ensures { self.new ≡ swapped_out (has_number stream) self.old }
    {
        let Some(place) = self.numbers.place_of(stream) else {
            return;
        };
        let closed = self.items.swap_remove(place);
        self.cost -= cost_of(&closed.queue) as u128;
        self.numbers.remove(stream);
        self.visits.swap_remove(place);
    }

    /// The stream at a place takes a chunk, and it is said how that is taken back. Its turns are added: those of a push in the queue of that
    /// stream.
    pub(crate) fn push_undoable_at_counted(
        &mut self,
        place: usize,
        chunk: &ChunkPayloadData,
        turns: &mut Turns,
    ) -> Result<(bool, PushUndo), ReceiverRefusal>
        requires { IsOnlyPlace chunk.now.stream_identifier (numbers_of self.old) place }
        ensures ok { IfOk result (λ put. PushesOn chunk.now put.0 self.old self.new) }
        ensures undo { IfOk result (λ put. undone_at place put.1 self.new ≡ self.old) }
        ensures can { IfOk result (λ put. CanUndoAt place put.1 self.new) }
        ensures fits { IsOk result → stream_refusal chunk.now
            (find (has_number chunk.now.stream_identifier) self.old) ≡ None }
        ensures refused { IfErr result (λ e. IsRefusedFor
            (stream_refusal chunk.now (find (has_number chunk.now.stream_identifier) self.old)) e) }
        ensures err { OnErr result (self.new ≡ self.old) }
        ensures not_back { turns.old ≤ turns.new }
        ensures cost { IsWithinPushOn chunk.now
            (find (has_number chunk.now.stream_identifier) self.old) (turns.new - turns.old) }
    {
        let stream = &mut self.items[place];
        let before = cost_of(&stream.queue);
        let was_empty = stream.queue.ordered().is_empty();
        let pushed = stream.push_undoable_counted(chunk, self.copies, turns);
        self.cost = moved(self.cost, before, cost_of(&stream.queue));
        let span = self.visits.span_at(place).pushed(was_empty, chunk.tsn);
        renew_within(&mut self.visits, place, &stream.queue, span);
        pushed
    }

    /// Why the stream at a place does not take a chunk, where memory was wanting for its TSN: for that alone, where its message would not be
    /// too long. It takes no memory. Its turns are added: those of a push in the queue of that stream.
    pub(crate) fn refusal_at(
        &self,
        place: usize,
        chunk: &ChunkPayloadData,
        turns: &mut Turns,
    ) -> ReceiverRefusal
        requires { IsOnlyPlace chunk.now.stream_identifier (numbers_of self.now) place }
        ensures refused { IsRefusedFor
            (stream_refusal chunk.now (find (has_number chunk.now.stream_identifier) self.now))
            result }
        ensures not_back { turns.old ≤ turns.new }
        ensures cost { IsWithinPushOn chunk.now
            (find (has_number chunk.now.stream_identifier) self.now) (turns.new - turns.old) }
    {
        refusal_without_memory(&self.items[place].queue, chunk, turns)
    }

    /// The stretch of the stream at a place, which is noted again where a fragment is taken back.
    /// Precondition: it is a place.
    pub(crate) fn span_at(&self, place: usize) -> TsnSpan
        requires { place < length self.now }
        ensures { IsSpanAt place result self.now }
    {
        self.visits.span_at(place)
    }

    /// Takes a fragment of a stream back by what `push_undoable_at_counted` answered. It takes no memory.
    /// Precondition: the stream at the place is as that left it (`CanUndoAt`), and the stretch is the one from before.
    pub(crate) fn undo_push_at(&mut self, place: usize, undo: PushUndo, span: TsnSpan)
        requires can { CanUndoAt place undo self.old }
        requires span { IsSpanAt place span (undone_at place undo self.old) }
        ensures { self.new ≡ undone_at place undo self.old }
    {
        let inbound = &mut self.items[place];
        let before = cost_of(&inbound.queue);
        inbound.undo_push(undo);
        self.cost = moved(self.cost, before, cost_of(&inbound.queue));
        renew_within(&mut self.visits, place, &inbound.queue, span);
    }

    /// Takes the next message of a stream out, where there is one. Refuses with `StreamUnknown`, where the stream is not open. It takes no
    /// memory.
    pub(crate) fn read(&mut self, stream: u16) -> Result<Option<Chunks>, ReceiverRefusal>
        ensures message { IfOk result (λ message. message
            ≡ option_map at_start (message_of (find (has_number stream) self.old))) }
        ensures ok { OnOk result (self.new
            ≡ change_where (has_number stream) stream_read self.old) }
        ensures accepted { IsOk result → is_some (find (has_number stream) self.old) ≡ true }
        ensures refused { IfErr result (λ e. (e ≡ StreamUnknown)
            × (is_some (find (has_number stream) self.old) ≡ false)) }
        ensures err { OnErr result (self.new ≡ self.old) }
    {
        let answer = self.take(stream);
        self.leave(stream);
        answer
    }

    // The same, and no stream gives back room.
    fn take(&mut self, stream: u16) -> Result<Option<Chunks>, ReceiverRefusal>
        ensures message { IfOk result (λ message. message
            ≡ option_map at_start (message_of (find (has_number stream) self.old))) }
        ensures ok { OnOk result (self.new
            ≡ change_where (has_number stream) stream_read self.old) }
        ensures accepted { IsOk result → is_some (find (has_number stream) self.old) ≡ true }
        ensures refused { IfErr result (λ e. (e ≡ StreamUnknown)
            × (is_some (find (has_number stream) self.old) ≡ false)) }
        ensures err { OnErr result (self.new ≡ self.old) }
    {
        let Some(place) = self.numbers.place_of(stream) else {
            return Err(ReceiverRefusal::StreamUnknown);
        };
        let inbound = &mut self.items[place];
        let before = cost_of(&inbound.queue);
        let message = inbound.read();
        self.cost = moved(self.cost, before, cost_of(&inbound.queue));
        renew(&mut self.visits, place, &inbound.queue, false);
        Ok(message)
    }

    // The stream that was read last gives back the room of its messages, where none is left, and another one is read now. So of streams on
    // which a message comes now and then, one at most keeps it. It takes no memory.
    fn leave(&mut self, stream: u16)
        ensures { self.new ≡ self.old }
    {
        let last = self.last_read;
        if last == stream {
            return;
        }
        self.last_read = stream;
        if let Some(place) = self.numbers.place_of(last) {
            give_back_at(&mut self.items, place);
        }
    }

    /// Resets a stream, whose old use ends with the TSN (RFC 6525 5.2.2). Refuses with `StreamUnknown`, where the stream is not open, else only
    /// for memory, and only where a complete ordered message is to be kept; the streams are as they were then.
    pub(crate) fn reset(&mut self, stream: u16, last_tsn: u32) -> Result<(), ReceiverRefusal>
        ensures ok { OnOk result (self.new
            ≡ change_where (has_number stream) (stream_reset last_tsn) self.old) }
        ensures accepted { IsOk result → is_some (find (has_number stream) self.old) ≡ true }
        ensures refused { IfErr result (λ e. e
            ≡ (if is_some (find (has_number stream) self.old) then OutOfMemory else StreamUnknown)) }
        ensures wants { IfErr result (λ e. e ≡ OutOfMemory
            → keeps_message last_tsn (find (has_number stream) self.old) ≡ true) }
        ensures err { OnErr result (self.new ≡ self.old) }
    {
        let Some(place) = self.numbers.place_of(stream) else {
            return Err(ReceiverRefusal::StreamUnknown);
        };
        let inbound = &mut self.items[place];
        let before = cost_of(&inbound.queue);
        let answer = inbound.reset(last_tsn);
        self.cost = moved(self.cost, before, cost_of(&inbound.queue));
        renew_within(&mut self.visits, place, &inbound.queue, TsnSpan::whole());
        answer
    }

    /// Discards what a FORWARD-TSN names, one name after another (RFC 3758 3.6); what it names on a stream that is not open is passed over.
    /// A turn is taken for each name. What it looks at within streams is added to `skips`: one turn for each name, and for each stream
    /// that is named, however often, five for each ordered message and two for each of their fragments, at most. It takes no memory.
    pub(crate) fn forward_named_counted(
        &mut self,
        names: &[ChunkForwardTsnStream],
        turns: &mut Turns,
        skips: &mut Turns,
    )
        ensures value { self.new ≡ named_forwarded names.now self.old }
        ensures cost { turns.new ≡ turns.old + length names.now }
        ensures skips_not_back { skips.old ≤ skips.new }
        ensures walk { skips.new ≤ skips.old + named_walk names.now self.old }
    {
        note_each(&self.numbers, &self.items, &mut self.noted, names, turns);
        self.cost = make_each(
            &self.numbers,
            &mut self.items,
            self.cost,
            &mut self.visits,
            &mut self.noted,
            names,
            skips,
        );
    }

    /// Discards, as the skip says, on all streams: the unassembled fragments up to a TSN, or the incomplete ordered messages that miss a TSN
    /// at or before it (RFC 3758 3.6). Its turns are added: at most one for each stream that has unassembled fragments or ordered messages.
    /// What it looks at within these is added to `skips`: six turns for each unassembled fragment at most, and one more for each stream; or
    /// nine for each ordered message, and four for each of their fragments. It takes no memory.
    pub(crate) fn forward(&mut self, skip: Skip, tsn: u32, turns: &mut Turns, skips: &mut Turns)
        ensures value { self.new ≡ map (skip_forwarded skip tsn) self.old }
        ensures not_back { turns.old ≤ turns.new }
        ensures cost { turns.new ≤ turns.old + length (to_visit self.old) }
        ensures skips_not_back { skips.old ≤ skips.new }
        ensures walk { skips.new ≤ skips.old
            + sum_by (λ l. visit_walk skip l.queue.held) (to_visit self.old)
            + sum_by (λ l. settle_walk skip l.queue.held) self.old }
    {
        self.cost = forward_each(
            &mut self.items,
            self.cost,
            &mut self.visits,
            skip,
            tsn,
            turns,
            skips,
        );
    }
}

// A sum of which one term changes.
// Precondition: the term is a part of it, and the new sum fits.
pub(crate) fn moved(total: u128, before: usize, after: usize) -> u128
    requires part { before ≤ total }
    requires fits { total - before + after < 2 ^ 128 }
    ensures { result ≡ total - before + after }
{
    total - before as u128 + after as u128
}

// The stream at a place gives back the room of its messages, where it is one and none is left. It stands apart, so that a read after
// another one of the same stream stays small.
#[cold]
#[inline(never)]
fn give_back_at(streams: &mut Vec<InboundStream>, place: usize)
    ensures { streams.new.items ≡ streams.old.items }
{
    if place < streams.len() {
        streams[place].queue.give_back();
    }
}

// The numbers of those with a message to read.
fn readable_each(alloc: Global, streams: &[InboundStream]) -> Result<Vec<u16>, ReceiverRefusal>
    ensures ok { IfOk result (λ numbers. numbers.items ≡ readable_streams streams.now) }
    ensures memory { IfErr result (λ e. e ≡ OutOfMemory) }
{
    let mut numbers = Vec::new(alloc);
    for stream in streams {
        if !stream.queue.is_readable() {
            continue;
        }
        if numbers.push(stream.queue.si()).is_err() {
            return Err(ReceiverRefusal::OutOfMemory);
        }
    }
    Ok(numbers)
}

// Why a chunk for which memory was wanting is refused: for that alone, where its message would not be too long. It takes no
// memory. Its turns are added: those of a push in its queue.
fn refusal_without_memory(
    queue: &ReassemblyQueue,
    chunk: &ChunkPayloadData,
    turns: &mut Turns,
) -> ReceiverRefusal
    ensures value { result
        ≡ (if is_too_large chunk.now queue.now then MessageTooLarge else OutOfMemory) }
    ensures not_back { turns.old ≤ turns.new }
    ensures cost { IsWithinPush chunk.now queue.now (turns.new - turns.old) }
{
    let large = queue.is_too_large_counted(chunk, turns);
    if large {
        ReceiverRefusal::MessageTooLarge
    } else {
        ReceiverRefusal::OutOfMemory
    }
}

// An equal chunk, to be kept. With an allocator its user data is copied, and keeps no other byte of its datagram; else it is shared.
fn to_keep(chunk: &ChunkPayloadData, copies: Option<Global>) -> Result<ChunkPayloadData, Error>
    ensures ok { IfOk result (λ kept. kept ≡ chunk.now) }
{
    match copies {
        Some(alloc) => copied(alloc, chunk),
        None => chunk.try_clone(),
    }
}

// An equal chunk with user data of its own.
fn copied(alloc: Global, chunk: &ChunkPayloadData) -> Result<ChunkPayloadData, Error>
    ensures ok { IfOk result (λ kept. kept ≡ chunk.now) }
{
    Ok(ChunkPayloadData {
        unordered: chunk.unordered,
        beginning_fragment: chunk.beginning_fragment,
        ending_fragment: chunk.ending_fragment,
        immediate_sack: chunk.immediate_sack,
        tsn: chunk.tsn,
        stream_identifier: chunk.stream_identifier,
        stream_sequence_number: chunk.stream_sequence_number,
        payload_type: chunk.payload_type,
        user_data: Bytes::copy_from_slice(alloc, &chunk.user_data)?,
        acked: chunk.acked,
        miss_indicator: chunk.miss_indicator,
        message_id: chunk.message_id,
        abandoned: chunk.abandoned,
        since: chunk.since,
        reliability: chunk.reliability,
        deadline: chunk.deadline,
        nsent: chunk.nsent,
        retransmit: chunk.retransmit,
    })
}
