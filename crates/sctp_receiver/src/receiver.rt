//! The receiving half of a link (RFC 4960 6.2; RFC 3758 3.6).

ghost use Rattle.std.specs.Prelude.{◌≡◌, true, false, not, None, Some, OnOk, OnErr, IfOk, IfErr, IsOk, option_map, option_copied, is_some, find, min, length, ◌==◌, ◌<◌, ◌-◌, ◌^◌, if◌then◌else◌};
ghost use Rattle.sctp_receiver.specs.declared.receiver.refusal.ReceiverRefusal.TheVariants.{StreamOpen, StreamUnknown, OutOfMemory};

pub mod arrival;
mod data_each;
pub mod inbound_streams;
pub(crate) mod intake;
pub mod limits;
mod names;
pub mod received;
pub mod refusal;
mod resets;
pub(crate) mod sack_out;
mod skips;
mod spans;
mod ssns;
pub mod tsn_filter;
mod visit;
mod visits;

use self::arrival::Arrival;
use self::inbound_streams::{InboundStream, InboundStreams};
use self::intake::{Rules, note_repeat, take};
use self::limits::Limits;
use self::refusal::ReceiverRefusal;
use self::tsn_filter::TsnFilter;
use sctp_data::chunk::chunk_payload_data::{ChunkPayloadData, PayloadProtocolIdentifier};
use sctp_reassembly::chunks::Chunks;
use sctp_reassembly::reassembly_queue::ReassemblyQueue;
use sctp_serial::turns::Turns;
use sctp_stream::stream::DataChannelStats;
use std::alloc::Global;
use std::marker::Model;

/// The receiving half of a link: what came of the peer's messages. It takes every DATA and FORWARD-TSN chunk that
/// a peer may send: each has its answer or its refusal, and nothing is asked of the caller.
///
/// It keeps the open streams, with what came on them and was not read, the TSNs beyond the cumulative one, and those
/// that came again since the last SACK, with limits no more of these than one SACK can report. Of a message that was read,
/// and of a TSN that the cumulative one passed, nothing is kept but the counters.
#[derive(Drop)]
pub struct Receiver {
    alloc: Global,
    max_message_size: u32,
    limits: Option<Limits>,
    streams: InboundStreams,
    filter: TsnFilter,
}

impl Model for Receiver {
    ghost use Rattle.sctp_receiver.specs.Receiver.{Reception};

    ghost Value = { Reception };

    ghost view = { λ r. record {
      streams = r.streams;
      cumulative_tsn = r.filter.cumulative_tsn;
      beyond = r.filter.beyond;
      duplicates = r.filter.duplicates;
      max_message_size = r.max_message_size;
      limits = r.limits;
    } };
}

impl Receiver {
    ghost use Rattle.sctp_reassembly.specs.reassembly_queue.ReassemblyQueue.{at_start};
    ghost use Rattle.sctp_receiver.specs.Calls.{TakesData, TakesDataCounted};
    ghost use Rattle.sctp_receiver.specs.TsnFilter.{has_come};
    ghost use Rattle.sctp_serial.specs.DataChunks.{bytes_of};
    ghost use Rattle.sctp_receiver.specs.Receiver.{at_first, filter_of, stream_of, is_open, open_stream, close_stream, IsRefusedFor, arrival_of, discard_refusal, after_discard, discard_takes_memory, message_on, readable_streams, after_read};

    /// A receiver with no stream, to which nothing came. It expects `first_tsn` next, and a message may have `max_message_size` bytes.
    /// With limits it copies the user data that it keeps. Without them it shares that, refuses nothing for them, and notes each TSN that
    /// comes again. It takes no memory.
    pub fn new(alloc: Global, first_tsn: u32, max_message_size: u32, limits: Option<Limits>) -> Self
        ensures { result ≡ at_first first_tsn max_message_size limits }
    {
        Receiver {
            alloc,
            max_message_size,
            limits,
            streams: InboundStreams::new(alloc, copies_by(alloc, limits)),
            filter: TsnFilter::new(alloc, first_tsn),
        }
    }

    /// Opens a stream. Refuses with `StreamOpen`, where it is open, else only for memory, and changes nothing then.
    pub fn open(&mut self, stream: u16) -> Result<(), ReceiverRefusal>
        ensures ok { OnOk result (self.new ≡ open_stream stream self.old) }
        ensures accepted { IsOk result → is_open stream self.old ≡ false }
        ensures refused { IfErr result (λ e. e
            ≡ (if is_open stream self.old then StreamOpen else OutOfMemory)) }
        ensures err { OnErr result (self.new ≡ self.old) }
    {
        if self.streams.place_of(stream).is_some() {
            return Err(ReceiverRefusal::StreamOpen);
        }
        self.streams.open(self.alloc, stream, self.max_message_size)
    }

    /// Closes a stream, where it is open: it drops what came on it and was not read, and its counters. The TSNs stay as they are. Other
    /// streams do not move, but the last one takes its place. It takes no memory.
    pub fn close(&mut self, stream: u16)
        ensures { self.new ≡ close_stream stream self.old }
    {
        self.streams.close(stream);
    }

    /// Takes a DATA chunk (RFC 4960 6.2): `New`, where its TSN is new, or `Repeat`; the next SACK reports a repeat as a duplicate. It
    /// refuses, by the first that holds, with `SsnTooFar`, `TsnOpposite`, `TsnTooFar`, `WindowFull`, `StreamUnknown`, `MessageTooLarge` or
    /// `OutOfMemory`, and changes nothing then. A chunk that it takes as new stays (`kept`), unless a FORWARD-TSN passed its message.
    pub fn data(&mut self, chunk: &ChunkPayloadData) -> Result<Arrival, ReceiverRefusal>
        ensures { TakesData chunk.now self.old self.new result }
    {
        self.take(chunk, &mut Turns::new())
    }

    // Takes a DATA chunk. Its turns are added.
    pub(crate) fn take(
        &mut self,
        chunk: &ChunkPayloadData,
        turns: &mut Turns,
    ) -> Result<Arrival, ReceiverRefusal>
        ensures { TakesDataCounted chunk.now self.old self.new result turns.old turns.new }
    {
        let rules = self.rules();
        let arrival = take(&mut self.streams, &mut self.filter, rules, chunk, turns)?;
        self.filter.settle();
        Ok(arrival)
    }

    // By what it takes chunks.
    pub(crate) fn rules(&self) -> Rules
        ensures { result ≡ record {
          max_message_size = self.now.max_message_size;
          limits = self.now.limits;
        } }
    {
        Rules {
            max_message_size: self.max_message_size,
            limits: self.limits,
        }
    }

    /// Takes the TSN of a DATA chunk that is dropped, as one of a stream that is not open, or of a message that is too long (RFC 4960
    /// 6.5): it counts as come, and is acknowledged. It answers as `data` does, with no message complete. It refuses, by the first that
    /// holds, with `TsnOpposite`, `TsnTooFar`, `WindowFull` or `OutOfMemory`, and changes nothing then.
    pub fn discard(&mut self, tsn: u32) -> Result<Arrival, ReceiverRefusal>
        ensures answer { IfOk result (λ arrival. arrival ≡ arrival_of tsn false self.old) }
        ensures ok { OnOk result (self.new ≡ after_discard tsn self.old) }
        ensures accepted { IsOk result → discard_refusal tsn self.old ≡ None }
        ensures came { IsOk result → has_come tsn (filter_of self.new) ≡ true }
        ensures refused { IfErr result (λ e. IsRefusedFor (discard_refusal tsn self.old) e) }
        ensures wants { IfErr result (λ e. e ≡ OutOfMemory
            → discard_takes_memory tsn self.old ≡ true) }
        ensures err { OnErr result (self.new ≡ self.old) }
    {
        if self.filter.has_come(tsn) {
            note_repeat(&mut self.filter, self.limits, tsn)?;
            return Ok(Arrival::Repeat);
        }
        if self.filter.is_opposite(tsn) {
            return Err(ReceiverRefusal::TsnOpposite);
        }
        if let Some(refusal) = self.new_refusal(tsn) {
            return Err(refusal);
        }
        self.filter.make_room(tsn)?;
        self.filter.accept(tsn, &mut Turns::new());
        self.filter.settle();
        Ok(Arrival::New { complete: false })
    }

    /// Takes the next message of a stream out, where there is one: the first complete unordered one, else the ordered
    /// one that is due (RFC 4960 6.6). Refuses with `StreamUnknown`, where the stream is not open. It takes no memory.
    pub fn read(&mut self, stream: u16) -> Result<Option<Chunks>, ReceiverRefusal>
        ensures message { IfOk result (λ message. message
            ≡ option_map at_start (message_on stream self.old)) }
        ensures ok { OnOk result (self.new ≡ after_read stream self.old) }
        ensures accepted { IsOk result → is_open stream self.old ≡ true }
        ensures refused { IfErr result (λ e. (e ≡ StreamUnknown)
            × (is_open stream self.old ≡ false)) }
        ensures err { OnErr result (self.new ≡ self.old) }
    {
        self.streams.read(stream)
    }

    // The open streams, in the order in which they were opened; where one was closed, the last one stands in its place.
    pub(crate) fn open_streams(&self) -> &[InboundStream]
        ensures { result.now ≡ self.now.streams }
    {
        self.streams.as_slice()
    }

    /// The length in bytes, or the greatest usize where it is more, and the payload type of the message that `read` would give; None where
    /// it would give none, or the stream is not open. Nothing is taken out.
    pub fn next_len(&self, stream: u16) -> Option<(usize, PayloadProtocolIdentifier)>
        ensures { result ≡ option_map (λ s. (min (bytes_of s.chunks) (2 ^ 64 - 1), s.ppi))
            (message_on stream self.now) }
    {
        match self.streams.find(stream) {
            Some(inbound) => inbound.queue.next_len(),
            None => None,
        }
    }

    /// The numbers of the streams with a message to read, in the order in which they were opened; where one was closed, the last one
    /// stands in its place. It looks at each open stream once; of one chunk `data` answers it at no cost. Refuses only for memory.
    pub fn readable_streams(&self) -> Result<Vec<u16>, ReceiverRefusal>
        ensures ok { IfOk result
            (λ numbers. numbers.items ≡ readable_streams self.now.streams) }
        ensures memory { IfErr result (λ e. e ≡ OutOfMemory) }
    {
        self.streams.readable(self.alloc)
    }

    /// Whether `read` would give a message of the stream; false where it is not open.
    pub fn is_readable(&self, stream: u16) -> bool
        ensures { result ≡ is_some (message_on stream self.now) }
    {
        match self.streams.find(stream) {
            Some(inbound) => inbound.queue.is_readable(),
            None => false,
        }
    }

    /// The TSN up to which all came, or was skipped.
    pub fn cumulative_tsn(&self) -> u32
        ensures { result ≡ self.now.cumulative_tsn }
    {
        self.filter.cumulative_tsn()
    }

    /// Whether a TSN came beyond the cumulative one, so that one is missing before it.
    pub fn has_gaps(&self) -> bool
        ensures { result ≡ not (length self.now.beyond == 0) }
    {
        self.filter.has_gaps()
    }

    // Whether a TSN came.
    pub(crate) fn has_come(&self, tsn: u32) -> bool
        ensures { result ≡ has_come tsn (filter_of self.now) }
    {
        self.filter.has_come(tsn)
    }

    // What came on a stream and was not read; None where it is not open.
    pub(crate) fn reassembly(&self, stream: u16) -> Option<&ReassemblyQueue>
        ensures { option_copied result ≡ option_map (λ l. l.queue) (stream_of stream self.now) }
    {
        match self.streams.find(stream) {
            Some(inbound) => Some(&inbound.queue),
            None => None,
        }
    }

    /// The counters of what was read on a stream, in which nothing was sent; None where it is not open.
    pub fn stats(&self, stream: u16) -> Option<DataChannelStats>
        ensures { result ≡ option_map (λ l. l.stats) (stream_of stream self.now) }
    {
        match self.streams.find(stream) {
            Some(inbound) => Some(inbound.stats.stats()),
            None => None,
        }
    }
}

// With limits, what is held is copied; without them it shares the bytes of its datagram.
fn copies_by(alloc: Global, limits: Option<Limits>) -> Option<Global> {
    match limits {
        Some(_) => Some(alloc),
        None => None,
    }
}
