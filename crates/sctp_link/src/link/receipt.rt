//! What comes to the receiver of a link, and what is read there.

ghost use Rattle.std.specs.Prelude.{◌≡◌, ◌<◌, ◌≤◌, ◌+◌, ◌-◌, ◌^◌, ◌∷◌, ℕ, List, [], true, None, Some, OnErr, IfOk, IsOkUnless, length, slice_get, slice_index_or, map, min, max, if◌then◌else◌};
ghost use Rattle.sctp_util.specs.declared.error.Error.TheVariants.{ErrOutOfMemory};
ghost use Rattle.sctp_data.specs.declared.chunk.chunk_payload_data.ChunkPayloadData.{ChunkPayloadData};
ghost use Rattle.sctp_model.specs.Steps.{unless};
ghost use Rattle.sctp_model.specs.Reply as R;
ghost use Rattle.sctp_link.specs.Replies.{reply_of};
ghost use Rattle.sctp_model.specs.declared.event.LinkRefusal.TheVariants.{SpanTooWide};
ghost use Rattle.sctp_receiver.specs.declared.receiver.refusal.ReceiverRefusal.TheVariants.{OutOfMemory};

use super::Link;
use super::arrivals::{message_numbers, record_arrivals};
use super::skips::count_of;
use crate::datagram::read_data;
use crate::event::{LinkRefusal, Reply};
use crate::record::Kind;
use sctp_queues::chunks::{Chunks, Fragments};
use sctp_receiver::receiver::refusal::ReceiverRefusal;
use sctp_receiver::replay;
use sctp_util::error::{Error, Result};
use sctp_util::util::Checksum;

impl<C: Checksum + Drop> Link<C> {
    ghost use Rattle.sctp_model.specs.LinkRecord.{Data};
    ghost use Rattle.sctp_model.specs.Messages.{message_at, index_of, tsn_of, is_open};
    ghost use Rattle.sctp_model.specs.Receiver.{is_new, is_held, held_on, next_of, least, greatest};
    ghost use Rattle.sctp_model.specs.Queues.{set_of};
    ghost use Rattle.sctp_model.specs.Steps.{IsRight, refusal_of, is_for_receiver, arrival_fits};
    ghost use Rattle.sctp_model.specs.declared.event.Event.TheVariants as E;
    ghost use Rattle.sctp_link.specs.Replies.{reply_of};
    ghost use Rattle.sctp_model.specs.refinement.Arriving.{LiesSomewhere, slot_fits};

    /// Why datagram k is not taken by the receiver, if it is not.
    pub(super) fn refusal_arrive(&self, k: u64) -> Option<LinkRefusal>
        ensures { result ≡ refusal_of self.now.recorded (E.Arrive k) }
    {
        if k >= self.network.len() as u64 {
            return Some(LinkRefusal::NoSuchDatagram);
        }
        match &self.network[k as usize].kind {
            Kind::Data { places } => unless_fits(self.span_fits(places)),
            Kind::Forward { upto, messages } => unless_fits(self.skip_fits(*upto, messages)),
            Kind::Sack { .. } => Some(LinkRefusal::NoSuchDatagram),
        }
    }

    // Whether stream sequence numbers can still be told apart once these slots have come (RFC 4960 6.5).
    fn span_fits(&self, places: &[u64]) -> bool
        requires { (k : ℕ) × (slice_get self.now.recorded.network k ≡ Some (Data places.now)) }
        ensures { result ≡ arrival_fits self.now.recorded (Some (Data places.now)) }
    {
        // What holds of the fields is known once one of them is read.
        let _fragments = self.fragments;
        for at in 0..places.len() {
            if !self.slot_fits(places[at] as usize) {
                return false;
            }
        }
        true
    }

    // So once the slot at a place has come. What is new lies at or past the index expected next: so each slot is tested by itself.
    fn slot_fits(&self, place: usize) -> bool
        requires { LiesSomewhere self.now.recorded place }
        ensures { result ≡ slot_fits self.now.recorded place }
    {
        let message = &self.messages[self.slots[place].message as usize];
        if !message.ordered {
            return true;
        }
        if !self.is_new(place) {
            return true;
        }
        let (low, high) = self.index_range(message.stream);
        high.max(message.index).saturating_sub(low) < 0x8000
    }

    // The least and the greatest of the index expected next and those of the messages held: they stand at the ends of the queue.
    pub(super) fn index_range(&self, stream: u16) -> (u64, u64)
        requires { is_open self.now.recorded stream ≡ true }
        ensures low { result.0 ≡ least (next_of self.now.recorded stream)
            (map (index_of self.now.recorded) (held_on self.now.recorded stream)) }
        ensures high { result.1 ≡ greatest (next_of self.now.recorded stream)
            (map (index_of self.now.recorded) (held_on self.now.recorded stream)) }
    {
        let Some(next) = self.progress.next_index(stream) else {
            unreachable!()
        };
        let Some(queue) = replay::reassembly(self.receiver.receiver(), stream) else {
            unreachable!()
        };
        let held = queue.ordered();
        let Some(first) = held.front() else {
            return (next, next);
        };
        let Some(last) = held.back() else {
            return (next, next);
        };
        let low = next.min(self.index_of(first));
        let high = next.max(self.index_of(last));
        (low, high)
    }

    // The index of the message whose fragments these are.
    pub(super) fn index_of(&self, set: &Fragments) -> u64
        requires { (s n : ℕ)
            × (is_held self.now.recorded s n ≡ true) × (set.now ≡ set_of self.now.recorded n) }
        ensures { (s n : ℕ) → is_held self.now.recorded s n ≡ true
            → set.now ≡ set_of self.now.recorded n → result ≡ index_of self.now.recorded n }
    {
        let tsn = set.fragments()[0].tsn;
        let place = tsn.wrapping_sub(self.first_tsn) as usize;
        self.messages[self.slots[place].message as usize].index
    }

    fn is_new(&self, place: usize) -> bool
        requires { place < length self.now.recorded.slots }
        ensures { result ≡ is_new self.now.recorded place }
    {
        let cumulative = count_of(self.receiver.receiver().cumulative_tsn(), self.first_tsn);
        cumulative <= place as u64 && !self.slots[place].arrived
    }

    /// Takes datagram k to the receiver. Refuses only for memory, and nothing changes then.
    /// Precondition: the event is not to be refused.
    pub(super) fn arrive(&mut self, k: u64) -> Result<Reply>
        requires { refusal_of self.old.recorded (E.Arrive k) ≡ None }
        ensures ok { IfOk result
            (λ reply. IsRight self.old.recorded (E.Arrive k) (reply_of reply) self.new.recorded) }
        ensures checksum { self.new.checksum ≡ self.old.checksum }
        ensures err { OnErr result (self.new.recorded ≡ self.old.recorded) }
        ensures memory { IsOkUnless result ErrOutOfMemory }
    {
        match &self.network[k as usize].kind {
            Kind::Data { .. } => self.arrive_data(k),
            Kind::Forward { upto, .. } => {
                let upto = *upto;
                self.arrive_skip(k, upto)
            }
            Kind::Sack { .. } => unreachable!(),
        }
    }

    // Takes the DATA chunks of datagram k, one after another.
    fn arrive_data(&mut self, k: u64) -> Result<Reply>
        requires none { refusal_of self.old.recorded (E.Arrive k) ≡ None }
        requires lies { (places : List ℕ)
            × (slice_get self.old.recorded.network k ≡ Some (Data places)) }
        ensures ok { IfOk result
            (λ reply. IsRight self.old.recorded (E.Arrive k) (reply_of reply) self.new.recorded) }
        ensures checksum { self.new.checksum ≡ self.old.checksum }
        ensures err { OnErr result (self.new.recorded ≡ self.old.recorded) }
        ensures memory { IsOkUnless result ErrOutOfMemory }
    {
        let chunks = read_data(self.alloc, &self.network[k as usize].bytes, &self.checksum)?;
        let Kind::Data { places } = &self.network[k as usize].kind else {
            unreachable!()
        };
        let numbers = message_numbers(self.alloc, &self.slots, places)?;
        self.duplicates.reserve(places.len())?;
        let arrivals = match self
            .progress
            .data_each(&mut self.receiver, &chunks, &numbers)
        {
            Ok(arrivals) => arrivals,
            Err(refusal) => return Err(memory_of_receiver(refusal)),
        };
        let new = record_arrivals(&mut self.slots, &mut self.duplicates, places, &arrivals);
        Ok(reply_to_data(new))
    }

    /// Reads the next message of a stream.
    /// Precondition: the event is not to be refused.
    pub(super) fn read(&mut self, stream: u16) -> Reply
        requires { refusal_of self.old.recorded (E.Read stream) ≡ None }
        ensures right { IsRight self.old.recorded (E.Read stream)
            (reply_of result) self.new.recorded }
        ensures checksum { self.new.checksum ≡ self.old.checksum }
    {
        let Ok(message) = self.receiver.read(stream) else {
            unreachable!()
        };
        let Some(chunks) = message else {
            return Reply::Nothing;
        };
        let place = first_tsn(&chunks).wrapping_sub(self.first_tsn) as usize;
        let number = self.slots[place].message as usize;
        let ppi = chunks.ppi();
        let message = &mut self.messages[number];
        message.read = true;
        self.progress
            .record_read(stream, message.ordered, message.index);
        Reply::Message {
            stream,
            ppi,
            chunks,
        }
    }
}

// The error of a receiver that refused for memory.
fn memory_of_receiver(refusal: ReceiverRefusal) -> Error
    requires { refusal ≡ OutOfMemory }
    ensures { result ≡ ErrOutOfMemory }
{
    match refusal {
        ReceiverRefusal::OutOfMemory => Error::ErrOutOfMemory,
        _ => unreachable!(),
    }
}

// The refusal of what fails the span test.
fn unless_fits(fits: bool) -> Option<LinkRefusal>
    ensures { result ≡ unless fits SpanTooWide None }
{
    if fits {
        None
    } else {
        Some(LinkRefusal::SpanTooWide)
    }
}

// The reply to DATA chunks of which one is new, or none.
fn reply_to_data(new: bool) -> Reply
    ensures { reply_of result ≡ (if new then R.New else R.Repeat) }
{
    if new { Reply::New } else { Reply::Repeat }
}

// The TSN of the first fragment of a message.
fn first_tsn(chunks: &Chunks) -> u32
    requires { 0 < length chunks.now.set.chunks }
    ensures { (d : ChunkPayloadData) → result ≡ (slice_index_or chunks.now.set.chunks 0 d).tsn }
{
    chunks.fragments()[0].tsn
}
