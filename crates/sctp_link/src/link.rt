//! The link: each event is answered as its record says, by a sender and a receiver.

ghost use Rattle.std.specs.Prelude.{◌≡◌, ◌==◌, ◌<◌, ◌≤◌, ◌+◌, ◌∷◌, ◌++◌, ℕ, [], None, Some, List, OnOk, OnErr, IfOk, IsOkUnless, MatchOption, length, vec_len, vec_capacity, option_map, find, true};
ghost use Rattle.sctp_util.specs.declared.error.Error.TheVariants.{ErrOutOfMemory};
ghost use Rattle.sctp_sender.specs.declared.sender.refusal.SenderRefusal.TheVariants.{OutOfMemory};

mod abandonment;
pub mod accessors;
mod arrivals;
mod expiry;
mod fragments;
mod late;
mod names;
mod receipt;
mod sack_in;
mod sack_out;
mod sends;
mod skips;
mod streams;

use crate::event::{Event, LinkRefusal, Reply};
use crate::link_receiver::LinkReceiver;
use crate::progress::Progress;
use crate::record::{Datagram, Kind, Message, Slot};
use bytes::Bytes;
use sctp_sender::sender::refusal::SenderRefusal;
use sctp_sender::sender::{Reported, Sender};
use sctp_util::error::Error;
use sctp_util::util::Checksum;
use std::alloc::Global;
use std::marker::Model;

/// A sender and a receiver, with the network between them.
#[derive(Drop)]
pub struct Link<C: Checksum + Drop> {
    alloc: Global,
    checksum: C,
    first_tsn: u32,
    // the greatest length of a datagram of several chunks
    limit: u32,
    // the three have the same streams, in the same order
    sender: Sender,
    receiver: LinkReceiver,
    progress: Progress,
    messages: Vec<Message>,
    // the number of the first message whose lifetime has not started
    unstarted: usize,
    slots: Vec<Slot>,
    network: Vec<Datagram>,
    // how many slots the last counting skip covered
    skipped: usize,
    // how many slots the taken SACKs acknowledged cumulatively
    taken: usize,
    // the places that came again since the last SACK was made
    duplicates: Vec<u64>,
    // how many fragments were accepted
    fragments: usize,
    // how many bytes were written
    written: u64,
}

impl<C: Checksum + Drop> Model for Link<C> {
    ghost use Rattle.sctp_link.specs.Linked.{Linked, IsLinked};
    ghost use Rattle.sctp_link.specs.Sides.{IsAligned};

    ghost Value = { Linked C };

    ghost use Rattle.sctp_link.specs.Fields.{record_in, state_in};

    ghost view = { λ a. record { recorded = record_in a; checksum = a.checksum } };

    ghost invariant = { λ a. IsAligned a.sender a.receiver a.progress
        × IsLinked (C.sum a.checksum) (state_in a) };
}

impl<C: Checksum + Drop> Link<C> {
    ghost use Rattle.sctp_model.specs.LinkRecord.{Setup, start};
    ghost use Rattle.sctp_model.specs.Messages.{is_open};
    ghost use Rattle.sctp_model.specs.Contents.{Contents, datagram};
    ghost use Rattle.sctp_model.specs.Steps.{Answers, History, StandsFor, StandsAfter, IsRight, refusal_of, takes_memory};
    ghost use Rattle.sctp_model.specs.declared.event.Event.TheVariants as E;
    ghost use Rattle.sctp_link.specs.Fields.{setup_of};
    ghost use Rattle.sctp_link.specs.Replies.{reply_of, answer_of};
    ghost use Rattle.sctp_link.specs.Encodings.{datagram_encoding};

    /// A link with nothing opened yet, of which each datagram has one DATA chunk. It takes no memory.
    /// It cuts messages into fragments of `fragment_size` bytes, and takes messages
    /// of at most `max_message_size` bytes.
    /// Precondition: `fragment_size` is 1 to 65,519.
    pub fn new(
        alloc: Global,
        first_tsn: u32,
        fragment_size: u32,
        max_message_size: u32,
        checksum: C,
    ) -> Self
        requires some { 1 ≤ fragment_size }
        requires short { fragment_size ≤ 65519 }
        ensures empty { result.recorded
            ≡ start (setup_of first_tsn fragment_size max_message_size 0) }
        ensures checksum { result.checksum ≡ checksum }
        ensures stands { StandsFor
            (setup_of first_tsn fragment_size max_message_size 0) result.recorded [] }
    {
        Link::with_limit(
            alloc,
            first_tsn,
            fragment_size,
            max_message_size,
            0,
            checksum,
        )
    }

    /// The same with as many DATA chunks in each datagram as wait and leave it within `limit` bytes, and with one
    /// where the first alone is longer. It takes no memory.
    /// Precondition: `fragment_size` is 1 to 65,519.
    pub fn with_limit(
        alloc: Global,
        first_tsn: u32,
        fragment_size: u32,
        max_message_size: u32,
        limit: u32,
        checksum: C,
    ) -> Self
        requires some { 1 ≤ fragment_size }
        requires short { fragment_size ≤ 65519 }
        ensures empty { result.recorded
            ≡ start (setup_of first_tsn fragment_size max_message_size limit) }
        ensures checksum { result.checksum ≡ checksum }
        ensures stands { StandsFor
            (setup_of first_tsn fragment_size max_message_size limit) result.recorded [] }
    {
        Link {
            alloc,
            checksum,
            first_tsn,
            limit,
            sender: Sender::new(
                alloc,
                first_tsn,
                fragment_size,
                max_message_size,
                Reported::Drop,
            ),
            receiver: LinkReceiver::new(alloc, first_tsn, max_message_size),
            progress: Progress::new(alloc),
            messages: Vec::new(alloc),
            unstarted: 0,
            slots: Vec::new(alloc),
            network: Vec::new(alloc),
            skipped: 0,
            taken: 0,
            duplicates: Vec::new(alloc),
            fragments: 0,
            written: 0,
        }
    }

    /// Takes one event. What is refused changes nothing. The refusals, in the order in which they are looked for:
    ///
    /// - Open: `StreamOpen`, where the stream is open.
    /// - Mode, Write and Read: `StreamUnknown`, where the stream is not open.
    /// - Write: `MessageTooLarge`, where the bytes are more than the greatest message size; `TsnsUsedUp`, where with
    ///   its fragments 2^31 or more would have been accepted in all.
    /// - Resend: `NotInFlight`, where the TSN was not given out, is acknowledged, or its message is abandoned.
    /// - Abandon: `NotInFlight`, where the TSN was not given out or is acknowledged cumulatively.
    /// - Skip: `SkipUnassigned`, where the TSN was not given out; `SkipNames`, where there are more than 16,381 names, or one is no
    ///   ordered message, expired, waits in part and was not abandoned, or has a TSN past this one.
    /// - Arrive and Acked: `NoSuchDatagram`, where datagram k was not made, or is of the other kind.
    /// - Arrive: `SpanTooWide`, where stream sequence numbers could no longer be told apart (RFC 4960 6.5).
    /// - Each event that takes memory: `OutOfMemory`, where it was refused.
    pub fn step(&mut self, event: Event) -> Result<Reply, LinkRefusal>
        // What is refused, what is answered, and what is recorded.
        ensures answers { Answers self.old.recorded event (answer_of result) self.new.recorded }
        ensures checksum { self.new.checksum ≡ self.old.checksum }
        // So it is for every history that the link stands for: it then stands for the longer one.
        ensures stands { (setup : Setup) (h : History) → StandsFor setup self.old.recorded h
            → StandsAfter setup self.new.recorded event (answer_of result) h }
    {
        if let Some(refusal) = self.refusal(&event) {
            return Err(refusal);
        }
        match self.take(event) {
            Ok(reply) => Ok(reply),
            Err(_e) => Err(LinkRefusal::OutOfMemory),
        }
    }

    // Takes an event that is not refused.
    fn take(&mut self, event: Event) -> Result<Reply, Error>
        requires accepted { refusal_of self.old.recorded event ≡ None }
        ensures ok { IfOk result
            (λ reply. IsRight self.old.recorded event (reply_of reply) self.new.recorded) }
        ensures checksum { self.new.checksum ≡ self.old.checksum }
        ensures err { OnErr result (self.new.recorded ≡ self.old.recorded) }
        ensures memory { IsOkUnless result ErrOutOfMemory }
        ensures wants { OnErr result (takes_memory self.old.recorded event ≡ true) }
    {
        match event {
            Event::Open { stream } => self.open(stream),
            Event::Mode {
                stream,
                unordered,
                reliability,
                value,
            } => Ok(self.mode(stream, unordered, reliability, value)),
            Event::Write { stream, ppi, bytes } => self.write(stream, ppi, bytes),
            Event::Start { now } => Ok(self.start(now)),
            Event::Send { now } => self.send(now),
            Event::Resend { tsn } => self.resend(tsn),
            Event::Ack { credit } => self.ack(credit),
            Event::Arrive { k } => self.arrive(k),
            Event::Acked { k } => self.acked(k),
            Event::Read { stream } => Ok(self.read(stream)),
            Event::Expire { now } => Ok(self.expire(now)),
            Event::Tail { now } => self.tail(now),
            Event::Late { now } => self.late(now),
            Event::Abandon { tsn } => self.abandon(tsn),
            Event::Skip { upto, messages } => self.skip(upto, messages),
        }
    }

    /// The bytes of datagram k, None where it was not made.
    pub fn datagram(&self, k: u64) -> Option<&Bytes>
        ensures { MatchOption result (datagram self.now.recorded k ≡ None)
            (λ b. (c : Contents) × (datagram self.now.recorded k ≡ Some c)
            × (b.now ≡ datagram_encoding (C.sum self.now.checksum) c)) }
    {
        if k >= self.network.len() as u64 {
            return None;
        }
        Some(&self.network[k as usize].bytes)
    }

    /// The refusal that is due, the first one that holds.
    fn refusal(&self, event: &Event) -> Option<LinkRefusal>
        ensures { result ≡ refusal_of self.now.recorded event.now }
    {
        match event {
            Event::Open { stream } => self.refusal_open(*stream),
            Event::Mode { stream, .. } => self.refusal_unless_open(*stream),
            Event::Write { stream, bytes, .. } => self.refusal_write(*stream, bytes.len()),
            Event::Resend { tsn } => self.refusal_resend(*tsn),
            Event::Abandon { tsn } => self.refusal_abandon(*tsn),
            Event::Skip { upto, messages } => self.refusal_skip(*upto, messages),
            Event::Arrive { k } => self.refusal_arrive(*k),
            Event::Acked { k } => self.refusal_acked(*k),
            Event::Read { stream } => self.refusal_unless_open(*stream),
            _ => None,
        }
    }

    fn is_open(&self, stream: u16) -> bool
        ensures { result ≡ is_open self.now.recorded stream }
    {
        self.progress.is_open(stream)
    }

    fn refusal_open(&self, stream: u16) -> Option<LinkRefusal>
        ensures { result ≡ refusal_of self.now.recorded (E.Open stream) }
    {
        if self.is_open(stream) {
            return Some(LinkRefusal::StreamOpen);
        }
        None
    }

    fn refusal_unless_open(&self, stream: u16) -> Option<LinkRefusal>
        ensures { result ≡ refusal_of self.now.recorded (E.Read stream) }
    {
        if !self.is_open(stream) {
            return Some(LinkRefusal::StreamUnknown);
        }
        None
    }
}

// The error of a sender that refused for memory.
fn memory(refusal: SenderRefusal) -> Error
    requires { refusal ≡ OutOfMemory }
    ensures { result ≡ ErrOutOfMemory }
{
    match refusal {
        SenderRefusal::OutOfMemory => Error::ErrOutOfMemory,
        _ => unreachable!(),
    }
}
