//! How far the messages of each open stream are.

ghost use Rattle.std.specs.Prelude.{◌≡◌, ◌<◌, ◌≤◌, ◌+◌, ◌^◌, ◌⊎◌, ◌++◌, ◌∷◌, [], None, Some, OnOk, OnErr, IfOk, IfErr, IsOkUnless, MatchOption, find, is_some, length, map, option_map, slice_index_or, if◌then◌else◌};
ghost use Rattle.sctp_util.specs.declared.error.Error.TheVariants.{ErrOutOfMemory};
ghost use Rattle.sctp_link.specs.Progress.{Standing, standing_of, fresh};

mod completions;

use self::completions::{make_room, record_complete};
use crate::link_receiver::LinkReceiver;
use sctp_data::chunk::chunk_payload_data::ChunkPayloadData;
use sctp_receiver::receiver::arrival::Arrival;
use sctp_receiver::receiver::refusal::ReceiverRefusal;
use sctp_stream::stream_numbers::{StreamNumbers, put};
use sctp_util::error::Error;
use std::alloc::Global;
use std::collections::VecDeque;
use std::marker::Model;

// How far the messages of a stream are.
#[derive(Drop)]
pub(crate) struct StreamProgress {
    number: u16,
    // the unordered messages that are complete and not read, by their numbers, in the order in which they became complete
    complete: VecDeque<u64>,
    // while room is made for the chunks of a datagram, how many of those so far are of this stream; else it means nothing
    incoming: usize,
    // how many ordered messages were written and did not expire
    ordered: u64,
    // how many of them were begun to be sent
    begun: u64,
    // the index of the ordered message that is expected next
    next: u64,
    // one more than the greatest index that a skip named, or 0
    named: u64,
}

impl StreamProgress {
    // Of a stream that nothing was written to. It takes no memory.
    fn new(alloc: Global, number: u16) -> Self
        ensures { standing_of result ≡ fresh number }
    {
        StreamProgress {
            number,
            complete: VecDeque::new(alloc),
            incoming: 0,
            ordered: 0,
            begun: 0,
            next: 0,
            named: 0,
        }
    }
}

/// How far the messages of each open stream are, at its sender and at its receiver, in the order in which the streams were opened. What
/// lies between the two is not its matter.
#[derive(Drop)]
pub(crate) struct Progress {
    alloc: Global,
    // the numbers of the streams, by which each is found
    numbers: StreamNumbers,
    streams: Vec<StreamProgress>,
}

impl Model for Progress {
    ghost use Rattle.std.specs.Prelude.{◌≡◌, List, map};
    ghost use Rattle.sctp_link.specs.Progress.{Standing, standing_of};

    ghost Value = { List Standing };

    ghost view = { λ p. map standing_of p.streams.items };

    ghost invariant = { λ p. p.numbers ≡ map (λ s. s.number) p.streams.items };
}

impl Progress {
    ghost use Rattle.sctp_util.specs.Lists.{change_at, change_where};
    ghost use Rattle.sctp_receiver.specs.Receiver.{TakesEach, StopsAt};
    ghost use Rattle.sctp_receiver.specs.declared.receiver.refusal.ReceiverRefusal.TheVariants.{OutOfMemory};
    ghost use Rattle.sctp_stream.specs.Numbers.{IsAbsent, IsOnlyPlace};
    ghost use Rattle.sctp_link.specs.Progress.{has_number, numbers_of, ordered_in, begun_in, with_write, with_expiry, with_begun, with_read, with_named, after_each};

    /// No stream is open. It takes no memory.
    pub(crate) fn new(alloc: Global) -> Self
        ensures { result ≡ [] }
    {
        Progress {
            alloc,
            numbers: StreamNumbers::new(alloc),
            streams: Vec::new(alloc),
        }
    }

    /// Opens a stream. Refuses only for memory, and all is as it was then.
    /// Precondition: it is not open.
    pub(crate) fn open(&mut self, stream: u16) -> Result<(), Error>
        requires { find (has_number stream) self.old ≡ None }
        ensures ok { OnOk result (self.new ≡ self.old ++ fresh stream ∷ []) }
        ensures err { OnErr result (self.new ≡ self.old) }
        ensures memory { IsOkUnless result ErrOutOfMemory }
    {
        self.streams.reserve(1)?;
        self.numbers.push(stream)?;
        put(&mut self.streams, StreamProgress::new(self.alloc, stream));
        Ok(())
    }

    /// Whether a stream is open.
    pub(crate) fn is_open(&self, stream: u16) -> bool
        ensures { result ≡ is_some (find (has_number stream) self.now) }
    {
        self.numbers.place_of(stream).is_some()
    }

    /// How many streams were opened before one that is open; None where it is not.
    pub(crate) fn place_of(&self, stream: u16) -> Option<usize>
        ensures { MatchOption result (IsAbsent stream (numbers_of self.now))
            (IsOnlyPlace stream (numbers_of self.now)) }
    {
        self.numbers.place_of(stream)
    }

    /// How many streams are open.
    pub(crate) fn len(&self) -> usize
        ensures { result ≡ length self.now }
    {
        self.streams.len()
    }

    /// The number of the stream that was opened after so many others.
    /// Precondition: so many and one are open.
    pub(crate) fn number_at(&self, place: usize) -> u16
        requires { place < length self.now }
        ensures { (d : Standing) → result ≡ (slice_index_or self.now place d).number }
    {
        self.streams[place].number
    }

    /// The index of the ordered message that is expected next on a stream; None where it is not open.
    pub(crate) fn next_index(&self, stream: u16) -> Option<u64>
        ensures { result ≡ option_map (λ p. p.next) (find (has_number stream) self.now) }
    {
        let Some(place) = self.numbers.place_of(stream) else {
            return None;
        };
        Some(self.streams[place].next)
    }

    /// How many ordered messages were written to a stream and did not expire; 0 where it is not open.
    pub(crate) fn ordered(&self, stream: u16) -> u64
        ensures { result ≡ ordered_in (find (has_number stream) self.now) }
    {
        let Some(place) = self.numbers.place_of(stream) else {
            return 0;
        };
        self.streams[place].ordered
    }

    /// Records that a message was written to a stream, an ordered one or not. It takes no memory.
    /// Precondition: fewer than the greatest u64 ordered ones were.
    pub(crate) fn record_write(&mut self, stream: u16, ordered: bool)
        requires { ordered_in (find (has_number stream) self.old) + 1 < 2 ^ 64 }
        ensures { self.new ≡ change_where (has_number stream) (with_write ordered) self.old }
    {
        let Some(place) = self.numbers.place_of(stream) else {
            return;
        };
        let count = self.streams[place].ordered + one_if(ordered);
        self.streams[place].ordered = count;
    }

    /// Records that a message of a stream expired, an unordered one or not. It takes no memory.
    pub(crate) fn record_expiry(&mut self, stream: u16, unordered: bool)
        ensures { self.new ≡ change_where (has_number stream) (with_expiry unordered) self.old }
    {
        let Some(place) = self.numbers.place_of(stream) else {
            return;
        };
        let less = one_if(!unordered);
        let ordered = self.streams[place].ordered.saturating_sub(less);
        self.streams[place].ordered = ordered;
    }

    /// The index of the next ordered message of a stream that is begun, which is begun; 0 where the stream is not open.
    /// Precondition: fewer than the greatest u64 were begun.
    pub(crate) fn begin(&mut self, stream: u16) -> u64
        requires { begun_in (find (has_number stream) self.old) + 1 < 2 ^ 64 }
        ensures index { result ≡ begun_in (find (has_number stream) self.old) }
        ensures rest { self.new ≡ change_where (has_number stream) with_begun self.old }
    {
        let Some(place) = self.numbers.place_of(stream) else {
            return 0;
        };
        let index = self.streams[place].begun;
        self.streams[place].begun = index + 1;
        index
    }

    /// Hands DATA chunks to a receiver one after another, each with the number of its message, and answers what each was. The
    /// number of each unordered message that becomes complete is recorded. The first chunk that the receiver refuses refuses them
    /// all, with its refusal; `OutOfMemory` may come in the place of any other. All is as it was then.
    /// Precondition: each chunk has a number.
    pub(crate) fn data_each(
        &mut self,
        receiver: &mut LinkReceiver,
        chunks: &[ChunkPayloadData],
        numbers: &[u64],
    ) -> Result<Vec<Arrival>, ReceiverRefusal>
        requires { length chunks.now ≤ length numbers.now }
        ensures taken { IfOk result (λ arrivals.
            TakesEach chunks.now arrivals.items receiver.old receiver.new) }
        ensures ok { IfOk result (λ arrivals.
            self.new ≡ after_each chunks.now numbers.now arrivals.items self.old) }
        ensures refused { IfErr result (λ e. (e ≡ OutOfMemory)
            ⊎ StopsAt chunks.now receiver.old e) }
        ensures err { OnErr result (self.new ≡ self.old) }
        ensures kept { OnErr result (receiver.new ≡ receiver.old) }
    {
        if make_room(&mut self.streams, &self.numbers, chunks).is_err() {
            return Err(ReceiverRefusal::OutOfMemory);
        }
        let arrivals = receiver.data_each(chunks)?;
        record_complete(&mut self.streams, &self.numbers, chunks, numbers, &arrivals);
        Ok(arrivals)
    }

    /// Records that the message that was last read of a stream was an ordered one with this index, or the first complete unordered
    /// one. It takes no memory.
    /// Precondition: `index` is below the greatest u64.
    pub(crate) fn record_read(&mut self, stream: u16, ordered: bool, index: u64)
        requires { index + 1 < 2 ^ 64 }
        ensures { self.new ≡ change_where (has_number stream) (with_read ordered index) self.old }
    {
        let Some(place) = self.numbers.place_of(stream) else {
            return;
        };
        let progress = &mut self.streams[place];
        if !ordered {
            progress.complete.pop_front();
        } else if index == progress.next {
            progress.next = index + 1;
        }
    }

    /// Records, of the stream that was opened after so many others, that its ordered messages before an index were named by a
    /// skip. It takes no memory.
    /// Precondition: so many and one are open.
    pub(crate) fn record_named(&mut self, place: usize, end: u64)
        requires { place < length self.old }
        ensures { self.new ≡ change_at (with_named end) place self.old }
    {
        let progress = &mut self.streams[place];
        progress.next = progress.next.max(end);
        progress.named = progress.named.max(end);
    }
}

fn one_if(test: bool) -> u64
    ensures { result ≡ (if test then 1 else 0) }
{
    if test { 1 } else { 0 }
}
