//! The streams of a sender.

ghost use Rattle.std.specs.Prelude.{◌≡◌, ◌<◌, ◌≤◌, ◌^◌, ◌++◌, ◌∷◌, [], ℕ, List, true, false, Some, None, OnOk, OnErr, IfOk, IfErr, IsOkUnless, MatchOption, length, map, find, option_copied};
ghost use Rattle.sctp_util.specs.declared.error.Error.TheVariants.{ErrOutOfMemory};
ghost use Rattle.sctp_data.specs.declared.chunk.chunk_payload_data.PayloadProtocolIdentifier.TheVariants.{Unknown};
ghost use Rattle.sctp_util.specs.Lists.{change_where};
ghost use Rattle.sctp_serial.specs.DataChunks.{bytes_of};
ghost use Rattle.sctp_sender.specs.declared.sender.refusal.SenderRefusal.TheVariants.{OutOfMemory};
ghost use Rattle.sctp_stream.specs.Numbers.{IsOnlyPlace, IsAbsent, swapped_out};
ghost use Rattle.sctp_stream.specs.Stream.{falls_low};
ghost use Rattle.sctp_sender.specs.Keeping.{more_by};
ghost use Rattle.sctp_sender.specs.Outgoing.{fragments_with_mode, sole_fragment, with_reliability, with_size, wrote, after_expiries, less_by};

use crate::sender::refusal::SenderRefusal;
use bytes::Bytes;
use sctp_data::chunk::chunk_payload_data::{
    ChunkPayloadData, PayloadProtocolIdentifier, ReliabilityType,
};
use sctp_stream::outbound_stream::OutboundStream;
use sctp_stream::stream_numbers::{StreamNumbers, make_place, put};
use sctp_util::error::Result;
use std::alloc::Global;
use std::marker::Model;

/// The streams of a sender, in the order in which they were opened; where one was closed, the last one stands in its place. Each is
/// found at once by its number.
#[derive(Drop)]
pub struct OutboundStreams {
    numbers: StreamNumbers,
    items: Vec<OutboundStream>,
}

impl Model for OutboundStreams {
    ghost use Rattle.std.specs.Prelude.{◌≡◌, List};
    ghost use Rattle.sctp_stream.specs.declared.outbound_stream.OutboundStream.{OutboundStream};
    ghost use Rattle.sctp_sender.specs.Outgoing.{numbers_of};

    ghost Value = { List OutboundStream };

    ghost view = { λ s. s.items.items };

    ghost invariant = { λ s. s.numbers ≡ numbers_of s.items.items };
}

impl OutboundStreams {
    ghost use Rattle.sctp_stream.specs.Stream.{new_stream};
    ghost use Rattle.sctp_sender.specs.Outgoing.{has_number, numbers_of, with_mode, with_low, from_first};
    ghost use Rattle.sctp_sender.specs.Thresholds.{falls_on};

    /// No streams. It takes no memory.
    pub(crate) fn new(alloc: Global) -> Self
        ensures { result ≡ [] }
    {
        OutboundStreams {
            numbers: StreamNumbers::new(alloc),
            items: Vec::new(alloc),
        }
    }

    /// The place of the stream with a number, None where it is not open.
    pub(crate) fn place_of(&self, stream: u16) -> Option<usize>
        ensures { MatchOption result
            (IsAbsent stream (numbers_of self.now)) (IsOnlyPlace stream (numbers_of self.now)) }
    {
        self.numbers.place_of(stream)
    }

    /// The stream with a number, None where it is not open.
    pub(crate) fn find(&self, stream: u16) -> Option<&OutboundStream>
        ensures { option_copied result ≡ find (has_number stream) self.now }
    {
        let Some(place) = self.numbers.place_of(stream) else {
            return None;
        };
        Some(&self.items[place])
    }

    /// Opens a stream. Refuses only for memory, and the streams are as they were then.
    /// Precondition: it is not open, and `fragment_size` is 1 to 65,519.
    pub(crate) fn open(
        &mut self,
        stream: u16,
        fragment_size: u32,
    ) -> std::result::Result<(), SenderRefusal>
        requires closed { IsAbsent stream (numbers_of self.old) }
        requires size { (0 < fragment_size) × (fragment_size ≤ 65519) }
        ensures ok { OnOk result (self.new
            ≡ self.old ++ new_stream stream fragment_size ∷ []) }
        ensures err { OnErr result (self.new ≡ self.old) }
        ensures memory { IfErr result (λ e. e ≡ OutOfMemory) }
    {
        let opened = OutboundStream::new(stream, fragment_size);
        if make_place(&mut self.items).is_err() {
            return Err(SenderRefusal::OutOfMemory);
        }
        self.numbers.push(stream)?;
        put(&mut self.items, opened);
        Ok(())
    }

    /// Closes a stream, where it is open: the last one takes its place. It takes no memory.
    pub(crate) fn close(&mut self, stream: u16)
        ensures { self.new ≡ swapped_out (has_number stream) self.old }
    {
        let Some(place) = self.numbers.place_of(stream) else {
            return;
        };
        self.items.swap_remove(place);
        self.numbers.remove(stream);
    }

    /// Sets the mode of later writes of a stream, where it is open. It takes no memory.
    pub(crate) fn set_mode(&mut self, stream: u16, mode: (bool, ReliabilityType, u32))
        ensures { self.new
            ≡ change_where (has_number stream) (with_mode mode.0 mode.1 mode.2) self.old }
    {
        let Some(place) = self.numbers.place_of(stream) else {
            return;
        };
        self.items[place].set_reliability_params(mode.0, mode.1, mode.2);
    }

    /// Later writes are cut into fragments of this size, on every stream. It takes no memory.
    /// Precondition: 1 to 65,519.
    pub(crate) fn set_fragment_size(&mut self, size: u32)
        requires { (0 < size) × (size ≤ 65519) }
        ensures { self.new ≡ map (with_size size) self.old }
    {
        set_sizes(&mut self.items, size);
    }

    /// Sets the low threshold of a stream, in bytes, where it is open. It takes no memory.
    pub(crate) fn set_low(&mut self, stream: u16, bytes: usize)
        ensures { self.new ≡ change_where (has_number stream) (with_low bytes) self.old }
    {
        let Some(place) = self.numbers.place_of(stream) else {
            return;
        };
        self.items[place].set_buffered_amount_low_threshold(bytes);
    }

    /// The next ordered message of a stream has the number 0, where it is open. It takes no memory.
    pub(crate) fn restart(&mut self, stream: u16)
        ensures { self.new ≡ change_where (has_number stream) from_first self.old }
    {
        let Some(place) = self.numbers.place_of(stream) else {
            return;
        };
        self.items[place].set_sequence_number(0);
    }

    /// The streams.
    pub(crate) fn all(&self) -> &[OutboundStream]
        ensures { result.now ≡ self.now }
    {
        &self.items
    }

    /// A write to a stream was accepted, where it is open. It takes no memory.
    pub(crate) fn wrote(&mut self, stream: u16, ppi: PayloadProtocolIdentifier, len: usize)
        ensures { (bytes : List ℕ) → len ≡ length bytes
            → self.new ≡ change_where (has_number stream) (wrote ppi bytes) self.old }
    {
        let Some(place) = self.numbers.place_of(stream) else {
            return;
        };
        count_write(&mut self.items[place], ppi, len);
    }

    /// Takes bytes off the amount of a stream, where it is open, and says whether it fell from above its low threshold to at most
    /// it. It takes no memory.
    pub(crate) fn release(&mut self, stream: u16, bytes: usize) -> bool
        ensures low { result ≡ falls_on stream bytes self.old }
        ensures less { self.new ≡ change_where (has_number stream) (less_by bytes) self.old }
    {
        let Some(place) = self.numbers.place_of(stream) else {
            return false;
        };
        lower(&mut self.items[place], bytes)
    }

    /// Adds bytes to the amount of a stream, where it is open. It takes no memory.
    pub(crate) fn raise(&mut self, stream: u16, bytes: usize)
        ensures { self.new ≡ change_where (has_number stream) (more_by bytes) self.old }
    {
        let Some(place) = self.numbers.place_of(stream) else {
            return;
        };
        raise(&mut self.items[place], bytes);
    }

    /// Takes so many messages that were not sent off their stream, where it is open, and says whether its amount fell from above its
    /// low threshold to at most it. It takes no memory.
    pub(crate) fn expire(
        &mut self,
        stream: u16,
        unordered: bool,
        messages: u16,
        bytes: usize,
    ) -> bool
        ensures low { result ≡ falls_on stream bytes self.old }
        ensures less { self.new ≡ change_where (has_number stream)
            (after_expiries unordered messages bytes) self.old }
    {
        let Some(place) = self.numbers.place_of(stream) else {
            return false;
        };
        expire_messages(&mut self.items[place], unordered, messages, bytes)
    }
}

/// A fragment of a write to a stream that has all its bytes, with the mode of the stream. Refuses only for memory.
#[inline(always)]
pub(crate) fn sole_fragment(
    state: &OutboundStream,
    ppi: PayloadProtocolIdentifier,
    bytes: &Bytes,
) -> Result<ChunkPayloadData>
    ensures ok { IfOk result (λ chunk. chunk ≡ sole_fragment state.now ppi bytes.now) }
    ensures memory { IsOkUnless result ErrOutOfMemory }
{
    Ok(ChunkPayloadData {
        unordered: !state.is_ordered(ppi),
        beginning_fragment: true,
        ending_fragment: true,
        immediate_sack: false,
        tsn: 0,
        stream_identifier: state.stream_identifier(),
        stream_sequence_number: state.sequence_number(),
        payload_type: ppi,
        user_data: bytes.clone()?,
        acked: false,
        miss_indicator: 0,
        message_id: 0,
        abandoned: false,
        since: None,
        reliability: Some((state.reliability_type(), state.reliability_value())),
        deadline: None,
        nsent: 0,
        retransmit: false,
    })
}

/// The fragments of a write to a stream, with its mode. Refuses only for memory.
pub(crate) fn fragments_of(
    alloc: Global,
    state: &OutboundStream,
    ppi: PayloadProtocolIdentifier,
    bytes: &Bytes,
) -> Result<Vec<ChunkPayloadData>>
    ensures ok { IfOk result
        (λ chunks. chunks.items ≡ fragments_with_mode state.now ppi bytes.now) }
    ensures length { IfOk result (λ chunks. bytes_of chunks.items ≡ length bytes.now) }
    ensures memory { IsOkUnless result ErrOutOfMemory }
{
    let mut chunks = state.fragments(alloc, bytes, ppi)?;
    set_reliability(
        &mut chunks,
        state.reliability_type(),
        state.reliability_value(),
    );
    Ok(chunks)
}

// Takes bytes off the amount of a stream, and says whether it fell from above the low threshold to at most it.
fn lower(state: &mut OutboundStream, bytes: usize) -> bool
    ensures low { result ≡ falls_low state.old bytes }
    ensures less { state.new ≡ less_by bytes state.old }
{
    let threshold = state.buffered_amount_low_threshold();
    let was_above = state.buffered_amount() > threshold;
    state.lower_buffered(bytes);
    bytes > 0 && was_above && state.buffered_amount() <= threshold
}

// Adds bytes to the amount of a stream.
fn raise(state: &mut OutboundStream, bytes: usize)
    ensures { state.new ≡ more_by bytes state.old }
{
    state.raise_buffered(bytes);
}

// Counts a write that was accepted.
fn count_write(state: &mut OutboundStream, ppi: PayloadProtocolIdentifier, len: usize)
    ensures rest { (bytes : List ℕ) → len ≡ length bytes → state.new ≡ wrote ppi bytes state.old }
    ensures number { state.new.stream_identifier ≡ state.old.stream_identifier }
{
    state.record_write(ppi, len);
    let mut stats = state.stats();
    stats.sent(ppi, len);
    state.set_stats(stats);
}

// Takes so many messages that were not sent off their stream, and says whether the amount fell from above the low threshold to at most
// it.
fn expire_messages(state: &mut OutboundStream, unordered: bool, messages: u16, bytes: usize) -> bool
    ensures low { result ≡ falls_low state.old bytes }
    ensures less { state.new ≡ after_expiries unordered messages bytes state.old }
{
    let is_low = lower(state, bytes);
    if !unordered {
        let number = state.sequence_number().wrapping_sub(messages);
        state.set_sequence_number(number);
    }
    is_low
}

// Each stream cuts later writes into fragments of this size.
fn set_sizes(streams: &mut Vec<OutboundStream>, size: u32)
    requires { (0 < size) × (size ≤ 65519) }
    ensures { streams.new.items ≡ map (with_size size) streams.old.items }
{
    for place in 0..streams.len() {
        streams[place].set_max_payload_size(size);
    }
}

// Gives each fragment the mode of its stream.
fn set_reliability(chunks: &mut Vec<ChunkPayloadData>, reliability: ReliabilityType, value: u32)
    ensures { chunks.new.items ≡ map (with_reliability reliability value) chunks.old.items }
{
    for place in 0..chunks.len() {
        chunks[place].reliability = Some((reliability, value));
    }
}
