//! The messages that go one way in an association.

mod interleaved;

use crate::reading::{bytes_of, read_all, take_chunk};
use sctp_chunks::chunk::chunk_kind::ChunkKind;
use sctp_chunks::chunk::chunk_reconfig::ChunkReconfig;
use sctp_data::chunk::chunk_forward_tsn::{ChunkForwardTsn, ChunkForwardTsnStream};
use sctp_data::chunk::chunk_payload_data::ChunkPayloadData;
use sctp_dissect::dissection::{Item, Reading};
use sctp_follow::interleave::is_i_data;
use sctp_follow::lanes::Interleaved;
use sctp_follow::packet::Arrived;
use sctp_params::param::param_kind::ParamKind;
use sctp_params::param::param_outgoing_reset_request::ParamOutgoingResetRequest;
use sctp_reassembly::chunks::Chunks;
use sctp_reassembly::reassembly_queue::ReassemblyQueue;
use sctp_receiver::receiver::Receiver;
use sctp_receiver::receiver::arrival::{Arrival, Closed};
use sctp_receiver::receiver::refusal::ReceiverRefusal;
use sctp_receiver::replay::{has_come, open_streams, reassembly};
use sctp_show::filter::is_data;
use sctp_util::error::Error;
use sctp_util::field::{read_u16, read_u32};
use sctp_util::util::{sna16lt, sna16lte, sna32lt};
use std::alloc::{AllocError, Global};
use std::collections::BTreeMap;

/// The type of I-DATA (RFC 8260 2.1).
const I_DATA: u8 = 64;

/// What a fragment of a message says, and with which record it came.
#[derive(Clone, Copy)]
pub struct Origin {
    /// The payload protocol identifier, whichever number it is.
    pub identifier: u32,
    pub sequence: u16,
    pub arrived: Arrived,
}

/// A message that is read.
#[derive(Drop)]
pub struct Message {
    pub stream: u16,
    pub unordered: bool,
    /// Whether it is of I-DATA (RFC 8260).
    pub is_interleaved: bool,
    /// Its number in its stream: of DATA the stream sequence number, of I-DATA the message identifier.
    pub number: u32,
    /// What its first fragment says.
    pub identifier: u32,
    pub first_tsn: u32,
    pub last_tsn: u32,
    /// With which record the last one of its fragments came.
    pub arrived: Arrived,
    pub bytes: Vec<u8>,
}

/// Why a chunk is not read.
#[derive(Clone, Copy, Debug, PartialEq, Eq)]
pub enum Unread {
    /// The receiver refuses it, or a FORWARD-TSN.
    Refused(ReceiverRefusal),
    /// It has a TSN before the first one that was seen.
    Early,
    /// The beginning of its message was not captured.
    NoBeginning,
    /// Its message was read, or was passed.
    Passed,
    /// It is refused by the reader of packets.
    Malformed,
    /// Its end was not captured.
    CutOff,
    /// It has no user data, which breaks the protocol (RFC 9260 6.2).
    NoUserData,
    /// It was captured behind what passed its TSN: a FORWARD-TSN, or a SACK that acknowledges it.
    Late,
}

/// What was held of a stream, and is dropped with a FORWARD-TSN, or where the rest of it was not captured.
#[derive(Clone, Copy, Debug, PartialEq, Eq)]
pub struct Dropped {
    pub stream: u16,
    pub chunks: usize,
    pub bytes: usize,
}

/// What a chunk gave.
#[derive(Drop)]
pub struct Outcome {
    /// The messages that could be read then.
    pub messages: Vec<Message>,
    /// Why the chunk is not read, if it is not.
    pub unread: Option<Unread>,
    /// What a SACK acknowledges that was not captured, if there is any.
    pub missed: Option<Missed>,
    /// What is dropped that was held, stream by stream.
    pub dropped: Vec<Dropped>,
}

/// TSNs that came to the other end, as a SACK says, and were not captured: the first one of them, and the last that the SACK acknowledges.
#[derive(Clone, Copy, Debug, PartialEq, Eq)]
pub struct Missed {
    pub first: u32,
    pub acknowledged: u32,
}

/// What is read of one way. A receiver with no limits takes its chunks: what it holds grows with what does not become complete.
#[derive(Drop)]
pub struct WayReader {
    pub receiver: Receiver,
    /// The TSN that the receiver began with.
    first_tsn: u32,
    /// Whether that is the initial TSN: then each stream begins with the number 0.
    is_whole: bool,
    /// The number that the messages of each stream are counted from, which the receiver has as 0.
    firsts: BTreeMap<u16, u16>,
    /// What the fragments of messages say that are not read yet, by TSN.
    origins: BTreeMap<u32, Origin>,
    /// The messages of I-DATA.
    pub interleaved: Interleaved,
    /// The number of the last request to reset streams that was followed.
    reset: Option<u32>,
}

/// What the fragments of a message say, one more of which is this: the first one, but with the later record.
fn joined(origin: Option<Origin>, of: Origin) -> Origin {
    let Some(first) = origin else {
        return of;
    };
    if of.arrived.number > first.arrived.number {
        return Origin {
            arrived: of.arrived,
            ..first
        };
    }
    first
}

/// No memory, whatever else a call refuses.
fn no_memory(_refusal: ReceiverRefusal) -> AllocError {
    AllocError
}

impl Outcome {
    /// Nothing is read.
    fn none(alloc: Global) -> Self {
        Outcome {
            messages: Vec::new(alloc),
            unread: None,
            missed: None,
            dropped: Vec::new(alloc),
        }
    }

    /// Nothing is read, and this is why.
    fn unread(alloc: Global, why: Unread) -> Self {
        Outcome {
            messages: Vec::new(alloc),
            unread: Some(why),
            missed: None,
            dropped: Vec::new(alloc),
        }
    }

    /// Whether there is nothing to be printed.
    pub fn is_empty(&self) -> bool {
        self.messages.is_empty()
            && self.unread.is_none()
            && self.missed.is_none()
            && self.dropped.is_empty()
    }
}

/// The first and the last TSN of a message, where it has any.
fn tsns_of(message: &Chunks) -> (u32, u32) {
    match message.fragments() {
        [] => (0, 0),
        [one] => (one.tsn, one.tsn),
        [one, .., last] => (one.tsn, last.tsn),
    }
}

/// Whether a message is unordered.
fn is_unordered(message: &Chunks) -> bool {
    match message.fragments().first() {
        Some(fragment) => fragment.unordered,
        None => false,
    }
}

/// A chunk whose sequence number is counted from another one.
fn counted_from(chunk: &ChunkPayloadData, first: u16) -> Result<ChunkPayloadData, AllocError> {
    let Ok(mut chunk) = chunk.try_clone() else {
        return Err(AllocError);
    };
    if !chunk.unordered {
        chunk.stream_sequence_number = chunk.stream_sequence_number.wrapping_sub(first);
    }
    Ok(chunk)
}

impl WayReader {
    /// Nothing came yet, and this TSN is expected next, which is the initial one, or the first one that was seen.
    pub fn new(alloc: Global, first_tsn: u32, is_whole: bool) -> Self {
        WayReader {
            receiver: Receiver::new(alloc, first_tsn, u32::MAX, None),
            first_tsn,
            is_whole,
            firsts: BTreeMap::new(alloc),
            origins: BTreeMap::new(alloc),
            interleaved: Interleaved::new(alloc, is_whole),
            reset: None,
        }
    }

    /// Opens a stream, unless it is open.
    fn open(&mut self, stream: u16) -> Result<(), AllocError> {
        match self.receiver.open(stream) {
            Ok(()) | Err(ReceiverRefusal::StreamOpen) => Ok(()),
            Err(_) => Err(AllocError),
        }
    }

    /// The number that the messages of a stream are counted from. Where it is not known yet, and the first ones of the stream may not have been
    /// seen, it is this one from now on.
    fn first_of(&mut self, stream: u16, number: u16) -> Result<u16, AllocError> {
        if let Some(first) = self.firsts.get(&stream) {
            return Ok(*first);
        }
        let first = if self.is_whole { 0 } else { number };
        match self.firsts.insert(stream, first) {
            Ok(_) => Ok(first),
            Err(_) => Err(AllocError),
        }
    }

    /// The chunk as the receiver is to have it: numbers of its stream begin with the first message of which the first fragment may come.
    fn as_received(&mut self, chunk: &ChunkPayloadData) -> Result<ChunkPayloadData, AllocError> {
        self.open(chunk.stream_identifier)?;
        if chunk.unordered {
            return counted_from(chunk, 0);
        }
        let more = if chunk.beginning_fragment { 0 } else { 1 };
        let number = chunk.stream_sequence_number.wrapping_add(more);
        let first = self.first_of(chunk.stream_identifier, number)?;
        let first = self.moved(chunk, number, first);
        if self.firsts.insert(chunk.stream_identifier, first).is_err() {
            return Err(AllocError);
        }
        counted_from(chunk, first)
    }

    /// The number that messages of the chunk's stream are counted from, which it may change where nothing of the stream is held. Where all
    /// TSNs before the chunk's have come, the next message that can be read is this one: it is another than the receiver waits for where
    /// messages between were not captured. Where the chunk is new and its number was passed, this one is next too: some stacks name in a
    /// FORWARD-TSN the number that an unordered message has, which is that of the next ordered one.
    fn moved(&self, chunk: &ChunkPayloadData, number: u16, first: u16) -> u16 {
        let Some(queue) = reassembly(&self.receiver, chunk.stream_identifier) else {
            return first;
        };
        if !queue.ordered().is_empty() {
            return first;
        }
        if chunk.tsn == self.receiver.cumulative_tsn().wrapping_add(1) {
            return number.wrapping_sub(queue.next_ssn());
        }
        let received = chunk.stream_sequence_number.wrapping_sub(first);
        if sna16lt(received, queue.next_ssn()) && !self.has_come(chunk.tsn) {
            return chunk.stream_sequence_number.wrapping_sub(queue.next_ssn());
        }
        first
    }

    /// Whether a TSN came, or was passed.
    fn has_come(&self, tsn: u32) -> bool {
        has_come(&self.receiver, tsn)
    }

    /// Keeps what a fragment of a message says, and with which record it came.
    fn note_origin(
        &mut self,
        chunk: &ChunkPayloadData,
        bytes: &[u8],
        arrived: Arrived,
    ) -> Result<(), AllocError> {
        if bytes.len() < 16 {
            return Ok(());
        }
        let origin = Origin {
            identifier: read_u32(bytes, 12),
            sequence: read_u16(bytes, 10),
            arrived,
        };
        match self.origins.insert(chunk.tsn, origin) {
            Ok(_) => Ok(()),
            Err(_) => Err(AllocError),
        }
    }

    /// What the first fragment of a message says, and with which record the last one of them came, which is forgotten.
    fn origin_of(&mut self, chunks: &Chunks) -> Origin {
        let mut origin = None;
        for fragment in chunks.fragments() {
            if let Some(of) = self.origins.remove(&fragment.tsn) {
                origin = Some(joined(origin, of));
            }
        }
        origin.unwrap_or(Origin {
            identifier: 0,
            sequence: chunks.ssn(),
            arrived: Arrived {
                number: 0,
                time: None,
            },
        })
    }

    /// A message that the receiver read, with what its fragments said.
    fn message_of(
        &mut self,
        alloc: Global,
        stream: u16,
        chunks: Chunks,
    ) -> Result<Message, AllocError> {
        let origin = self.origin_of(&chunks);
        let (first_tsn, last_tsn) = tsns_of(&chunks);
        Ok(Message {
            stream,
            unordered: is_unordered(&chunks),
            is_interleaved: false,
            number: origin.sequence as u32,
            identifier: origin.identifier,
            first_tsn,
            last_tsn,
            arrived: origin.arrived,
            bytes: bytes_of(alloc, &chunks)?,
        })
    }

    /// Adds messages that the receiver read of a stream.
    fn add_each(
        &mut self,
        alloc: Global,
        outcome: &mut Outcome,
        stream: u16,
        messages: Vec<Chunks>,
    ) -> Result<(), AllocError> {
        for chunks in messages {
            let message = self.message_of(alloc, stream, chunks)?;
            outcome.messages.push(message)?;
        }
        Ok(())
    }

    /// Adds all messages that can be read.
    fn add_readable(&mut self, alloc: Global, outcome: &mut Outcome) -> Result<(), AllocError> {
        let streams = self.receiver.readable_streams().map_err(no_memory)?;
        for stream in &streams {
            let mut messages = Vec::new(alloc);
            read_all(&mut self.receiver, *stream, &mut messages)?;
            self.add_each(alloc, outcome, *stream, messages)?;
        }
        Ok(())
    }

    /// What becomes of a chunk that the receiver refuses: its TSN counts as come.
    fn refuse(
        &mut self,
        alloc: Global,
        chunk: &ChunkPayloadData,
        refusal: ReceiverRefusal,
    ) -> Result<Outcome, AllocError> {
        if refusal == ReceiverRefusal::OutOfMemory {
            return Err(AllocError);
        }
        if let Err(ReceiverRefusal::OutOfMemory) = self.receiver.discard(chunk.tsn) {
            return Err(AllocError);
        }
        if refusal == ReceiverRefusal::SsnTooFar && !chunk.beginning_fragment {
            return Ok(Outcome::unread(alloc, Unread::NoBeginning));
        }
        Ok(Outcome::unread(alloc, Unread::Refused(refusal)))
    }

    /// Whether a TSN lies before the first one that was seen, where that is not the initial one.
    fn is_early(&self, tsn: u32) -> bool {
        !self.is_whole && sna32lt(tsn, self.first_tsn)
    }

    /// What becomes of DATA or I-DATA that is not read: its TSN came all the same, so that no SACK tells of a gap there.
    fn pass_unread(&mut self, alloc: Global, tsn: u32, why: Unread) -> Result<Outcome, AllocError> {
        if self.is_early(tsn) {
            return Ok(Outcome::unread(alloc, why));
        }
        match self.receiver.discard(tsn) {
            Ok(Arrival::Repeat) => self.receiver.sack_sent(),
            Ok(Arrival::New { .. }) => {}
            Err(ReceiverRefusal::OutOfMemory) => return Err(AllocError),
            Err(_) => {}
        }
        Ok(Outcome::unread(alloc, why))
    }

    /// Takes a chunk that the reader of packets refuses.
    fn take_raw(
        &mut self,
        alloc: Global,
        bytes: &[u8],
        refusal: Error,
        arrived: Arrived,
        is_new: bool,
    ) -> Result<Outcome, AllocError> {
        let is_cut = match refusal {
            Error::ErrChunkHeaderNotEnoughSpace => true,
            _ => false,
        };
        if !is_data(bytes) {
            return Ok(Outcome::none(alloc));
        }
        if is_cut {
            return self.pass_unread(alloc, read_u32(bytes, 4), Unread::CutOff);
        }
        if is_i_data(bytes) {
            return self.take_i_data(alloc, bytes, arrived, is_new);
        }
        let has_none = bytes[0] == I_DATA && read_u16(bytes, 2) == 20;
        let why = if has_none {
            Unread::NoUserData
        } else {
            Unread::Malformed
        };
        self.pass_unread(alloc, read_u32(bytes, 4), why)
    }

    /// Takes a DATA chunk, of which these are the bytes.
    fn take_data(
        &mut self,
        alloc: Global,
        chunk: &ChunkPayloadData,
        bytes: &[u8],
        arrived: Arrived,
        is_new: bool,
    ) -> Result<Outcome, AllocError> {
        if self.is_early(chunk.tsn) {
            return Ok(Outcome::unread(alloc, Unread::Early));
        }
        if chunk.user_data.is_empty() {
            return self.pass_unread(alloc, chunk.tsn, Unread::NoUserData);
        }
        let received = self.as_received(chunk)?;
        let mut messages = Vec::new(alloc);
        let taken = match take_chunk(&mut self.receiver, &received, &mut messages) {
            Ok(taken) => taken,
            Err(refusal) => return self.refuse(alloc, chunk, refusal),
        };
        if !taken.is_all {
            return Err(AllocError);
        }
        if taken.arrival == Arrival::Repeat {
            self.receiver.sack_sent();
            return Ok(repeated(alloc, is_new));
        }
        self.note_origin(chunk, bytes, arrived)?;
        let mut outcome = Outcome::none(alloc);
        self.add_each(alloc, &mut outcome, chunk.stream_identifier, messages)?;
        Ok(outcome)
    }

    /// The last number that a FORWARD-TSN passes on a stream of which it names this one: none of a message that is held with all its TSNs
    /// behind the new cumulative one, which the sender has not abandoned (RFC 3758 3.5).
    fn last_passed(&self, stream: u16, named: u16, tsn: u32) -> u16 {
        match reassembly(&self.receiver, stream) {
            Some(queue) => last_before(queue, named, tsn),
            None => named,
        }
    }

    /// How much is held of each open stream.
    pub fn held(&self, alloc: Global) -> Result<Vec<Dropped>, AllocError> {
        let mut held = Vec::new(alloc);
        for inbound in open_streams(&self.receiver) {
            held.push(held_of(&inbound.queue))?;
        }
        Ok(held)
    }

    /// Adds how much less is held of each open stream than before.
    fn add_dropped(&self, outcome: &mut Outcome, before: &[Dropped]) -> Result<(), AllocError> {
        for (inbound, was) in open_streams(&self.receiver).iter().zip(before.iter()) {
            let is = held_of(&inbound.queue);
            if is.chunks < was.chunks {
                outcome.dropped.push(Dropped {
                    stream: was.stream,
                    chunks: was.chunks.saturating_sub(is.chunks),
                    bytes: was.bytes.saturating_sub(is.bytes),
                })?;
            }
        }
        Ok(())
    }

    /// A FORWARD-TSN as the receiver is to have it.
    fn forward_received(
        &mut self,
        alloc: Global,
        chunk: &ChunkForwardTsn,
    ) -> Result<ChunkForwardTsn, AllocError> {
        let mut streams = Vec::new(alloc);
        for name in &chunk.streams {
            self.open(name.identifier)?;
            let first = self.first_of(name.identifier, name.sequence.wrapping_add(1))?;
            let named = name.sequence.wrapping_sub(first);
            streams.push(ChunkForwardTsnStream {
                identifier: name.identifier,
                sequence: self.last_passed(name.identifier, named, chunk.new_cumulative_tsn),
            })?;
        }
        Ok(ChunkForwardTsn {
            new_cumulative_tsn: chunk.new_cumulative_tsn,
            streams,
        })
    }

    /// Takes a FORWARD-TSN.
    fn take_forward(
        &mut self,
        alloc: Global,
        chunk: &ChunkForwardTsn,
    ) -> Result<Outcome, AllocError> {
        let received = self.forward_received(alloc, chunk)?;
        let held = self.held(alloc)?;
        if let Err(refusal) = self.receiver.forward_tsn(&received, Closed::PassOver) {
            return Ok(Outcome::unread(alloc, Unread::Refused(refusal)));
        }
        let mut outcome = Outcome::none(alloc);
        self.add_dropped(&mut outcome, &held)?;
        self.add_readable(alloc, &mut outcome)?;
        Ok(outcome)
    }

    /// What is passed where all up to a TSN came to the other end: on each stream what is before the last message that is held up to there.
    fn passed_by(&self, alloc: Global, tsn: u32) -> Result<ChunkForwardTsn, AllocError> {
        let mut streams = Vec::new(alloc);
        for inbound in open_streams(&self.receiver) {
            if let Some(number) = last_begun(&inbound.queue, tsn) {
                streams.push(ChunkForwardTsnStream {
                    identifier: inbound.queue.si(),
                    sequence: number.wrapping_sub(1),
                })?;
            }
        }
        Ok(ChunkForwardTsn {
            new_cumulative_tsn: tsn,
            streams,
        })
    }

    /// The last TSN up to this one that did not come, where one did not.
    fn last_missing(&self, acknowledged: u32) -> u32 {
        let mut tsn = acknowledged;
        for _come in 0..acknowledged.wrapping_sub(self.receiver.cumulative_tsn()) {
            if !has_come(&self.receiver, tsn) {
                return tsn;
            }
            tsn = tsn.wrapping_sub(1);
        }
        tsn
    }

    /// Whether all TSNs up to this one came, or were passed.
    pub fn has_all(&self, tsn: u32) -> bool {
        !sna32lt(self.receiver.cumulative_tsn(), tsn)
    }

    /// Passes what a SACK acknowledges up to this TSN, and was not captured: it will not come, as with a FORWARD-TSN.
    pub fn pass(&mut self, alloc: Global, acknowledged: u32) -> Result<Outcome, AllocError> {
        let stood = self.receiver.cumulative_tsn();
        let mut outcome = Outcome::none(alloc);
        if !sna32lt(stood, acknowledged) {
            return Ok(outcome);
        }
        let missing = self.last_missing(acknowledged);
        let passed = self.passed_by(alloc, missing)?;
        let held = self.held(alloc)?;
        if let Err(refusal) = self.receiver.forward_tsn(&passed, Closed::PassOver) {
            return Ok(Outcome::unread(alloc, Unread::Refused(refusal)));
        }
        outcome.missed = Some(Missed {
            first: stood.wrapping_add(1),
            acknowledged,
        });
        self.add_dropped(&mut outcome, &held)?;
        self.add_readable(alloc, &mut outcome)?;
        let passing = self.interleaved.pass(alloc, missing)?;
        outcome.add_passing(alloc, &passing)?;
        Ok(outcome)
    }

    /// Begins the numbers of a stream at 0 again. Answers whether that may be done now (RFC 6525 5.2.2).
    fn reset_stream(&mut self, stream: u16, last_tsn: u32) -> Result<bool, AllocError> {
        match self.receiver.reset(stream, last_tsn) {
            Ok(()) | Err(ReceiverRefusal::StreamUnknown) => {}
            Err(ReceiverRefusal::OutOfMemory) => return Err(AllocError),
            Err(_) => return Ok(false),
        }
        self.interleaved.reset(stream);
        match self.firsts.insert(stream, 0) {
            Ok(_) => Ok(true),
            Err(_) => Err(AllocError),
        }
    }

    /// The streams that a request names: where it names none, all.
    fn streams_of(
        &self,
        alloc: Global,
        request: &ParamOutgoingResetRequest,
    ) -> Result<Vec<u16>, AllocError> {
        let mut streams = Vec::new(alloc);
        streams.extend_from_slice(request.stream_identifiers.as_slice())?;
        if streams.is_empty() {
            for stream in open_streams(&self.receiver) {
                streams.push(stream.queue.si())?;
            }
        }
        Ok(streams)
    }

    /// Takes a request to reset streams, once. While chunks that were sent before may still come it is left, since it comes again.
    fn take_request(
        &mut self,
        alloc: Global,
        request: &ParamOutgoingResetRequest,
    ) -> Result<(), AllocError> {
        let number = request.reconfig_request_sequence_number;
        if self.reset == Some(number) {
            return Ok(());
        }
        let streams = self.streams_of(alloc, request)?;
        for stream in &streams {
            if !self.reset_stream(*stream, request.sender_last_tsn)? {
                return Ok(());
            }
        }
        self.reset = Some(number);
        Ok(())
    }

    /// Takes a RE-CONFIG.
    fn take_reconfig(
        &mut self,
        alloc: Global,
        chunk: &ChunkReconfig,
    ) -> Result<Outcome, AllocError> {
        if let Some(ParamKind::OutgoingResetRequest(request)) = &chunk.param_a {
            self.take_request(alloc, request)?;
        }
        if let Some(ParamKind::OutgoingResetRequest(request)) = &chunk.param_b {
            self.take_request(alloc, request)?;
        }
        let mut outcome = Outcome::none(alloc);
        self.add_readable(alloc, &mut outcome)?;
        Ok(outcome)
    }

    /// Takes a chunk of a packet of a record: DATA, FORWARD-TSN, and what resets streams. Of others nothing is read. The packet has a TSN
    /// that came before, or is new. Refuses only for memory.
    pub fn take(
        &mut self,
        alloc: Global,
        item: &Item,
        arrived: Arrived,
        is_new: bool,
    ) -> Result<Outcome, AllocError> {
        let bytes = item.bytes.as_slice();
        match &item.reading {
            Reading::Strict(ChunkKind::PayloadData(chunk)) => {
                self.take_data(alloc, chunk, bytes, arrived, is_new)
            }
            Reading::Strict(ChunkKind::ForwardTsn(chunk)) => self.take_forward(alloc, chunk),
            Reading::Strict(ChunkKind::IForwardTsn(_)) => self.take_i_forward(alloc, bytes),
            Reading::Strict(ChunkKind::Reconfig(chunk)) => self.take_reconfig(alloc, chunk),
            Reading::Strict(_) => Ok(Outcome::none(alloc)),
            Reading::Raw(raw) => self.take_raw(alloc, bytes, raw.refusal, arrived, is_new),
        }
    }
}

/// The number of the last ordered message that is held and begins no later than right behind a TSN, if there is one: those before it end no
/// later than at the TSN. None is looked at behind the first one that begins later.
fn last_begun(queue: &ReassemblyQueue, tsn: u32) -> Option<u16> {
    let mut number = None;
    for set in queue.ordered() {
        if let Some(first) = set.fragments().first() {
            if sna32lt(tsn.wrapping_add(1), first.tsn) {
                return number;
            }
            number = Some(set.ssn());
        }
    }
    number
}

/// The last number up to a named one that comes before each message that is held with all its TSNs behind this one. Messages are held in the order
/// of their numbers, so none is looked at behind the first one that has them.
fn last_before(queue: &ReassemblyQueue, named: u16, tsn: u32) -> u16 {
    for set in queue.ordered() {
        if !sna16lte(set.ssn(), named) {
            return named;
        }
        if let Some(first) = set.fragments().first()
            && sna32lt(tsn, first.tsn)
        {
            return set.ssn().wrapping_sub(1);
        }
    }
    named
}

/// How much a queue holds.
fn held_of(queue: &ReassemblyQueue) -> Dropped {
    Dropped {
        stream: queue.si(),
        chunks: queue.chunk_count(),
        bytes: queue.get_num_bytes(),
    }
}

/// What a chunk gives whose TSN came before, or was passed: in a packet that has no TSN which was captured before it was passed.
fn repeated(alloc: Global, is_new: bool) -> Outcome {
    if is_new {
        return Outcome::unread(alloc, Unread::Late);
    }
    Outcome::none(alloc)
}
