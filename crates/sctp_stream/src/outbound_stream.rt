//! How the writes of a stream are cut and sent, and what of them waits.

ghost use Rattle.std.specs.Prelude.{◌≡◌, ◌-◌, ◌<◌, ◌≤◌, ℕ, length, List, OnOk, OnErr, IfOk, IfErr};
ghost use Rattle.sctp_util.specs.declared.error.Error.TheVariants.{ErrOutOfMemory};
ghost use Rattle.sctp_stream.specs.Stream.{fragment, fragments_of, after_write, rises_high, positive_part, falls_low, new_stream};
ghost use Rattle.sctp_stream.specs.Stats.{count_up};
ghost use Rattle.sctp_reassembly.specs.reassembly_queue.Fragments.{payload_of};
ghost use Rattle.sctp_data.specs.PayloadTypes.{is_ordered};

use crate::stream::{DataChannelStats, ReliabilityType, StreamId};
use bytes::Bytes;
use sctp_data::chunk::chunk_payload_data::{ChunkPayloadData, PayloadProtocolIdentifier};
use sctp_util::error::Result;
use std::alloc::Global;
use std::marker::Model;

/// The length of a fragment: 1 to 65,519 bytes of user data, which is what a DATA chunk can carry.
#[derive(Drop)]
struct PayloadSize {
    size: u32,
}

impl Model for PayloadSize {
    ghost use Rattle.std.specs.Prelude.{ℕ, ◌<◌, ◌≤◌};

    ghost Value = { ℕ };

    ghost view = { λ p. p.size };

    ghost invariant = { λ p. (0 < p.size) × (p.size ≤ 65519) };
}

impl PayloadSize {
    fn new(size: u32) -> Self
        requires { (0 < size) × (size ≤ 65519) }
        ensures { result ≡ size }
    {
        PayloadSize { size }
    }

    fn get(&self) -> u32
        ensures value { result ≡ self.now }
        ensures bounds { (0 < result) × (result ≤ 65519) }
    {
        self.size
    }
}

/// What a sender keeps of a stream: its mode, its counters, and what of its writes waits or is in flight.
#[derive(Drop)]
pub struct OutboundStream {
    stats: DataChannelStats,
    max_payload_size: PayloadSize,
    stream_identifier: StreamId,
    sequence_number: u16,
    unordered: bool,
    reliability_type: ReliabilityType,
    reliability_value: u32,
    buffered_amount: usize,
    buffered_amount_low: usize,
    buffered_amount_high: usize,
}

impl OutboundStream {
    /// An ordered and reliable stream, with fragments of at most `max_payload_size` bytes of user data. All counts are 0, the low
    /// threshold too; the high one is the greatest usize. It takes no memory.
    /// Precondition: `max_payload_size` is 1 to 65,519.
    pub fn new(stream_identifier: StreamId, max_payload_size: u32) -> Self
        requires { (0 < max_payload_size) × (max_payload_size ≤ 65519) }
        ensures { result ≡ new_stream stream_identifier max_payload_size }
    {
        OutboundStream {
            stats: DataChannelStats {
                stream_identifier,
                generation: 0,
                messages_sent: 0,
                bytes_sent: 0,
                messages_received: 0,
                bytes_received: 0,
            },
            max_payload_size: PayloadSize::new(max_payload_size),
            stream_identifier,
            sequence_number: 0,
            unordered: false,
            reliability_type: ReliabilityType::Reliable,
            reliability_value: 0,
            buffered_amount: 0,
            buffered_amount_low: 0,
            buffered_amount_high: usize::MAX,
        }
    }

    /// Cuts a write into fragments of `max_payload_size` bytes, the last one of what is left,
    /// and says whether the buffered amount rose from under to at least the high
    /// threshold. Messages that establish a channel are ordered always (RFC 8832 6).
    ///
    /// An ordered write of some bytes takes the sequence number, an unordered one carries it
    /// and takes none (RFC 4960 6.6). A write of no bytes gives no fragment. The fragments have
    /// no TSN, message number or reliability yet. The amount grows up to the greatest usize.
    /// Refuses only for memory, and the stream is as it was then.
    pub fn packetize(
        &mut self,
        alloc: Global,
        raw: &Bytes,
        ppi: PayloadProtocolIdentifier,
    ) -> Result<(bool, Vec<ChunkPayloadData>)>
        ensures chunks { IfOk result (λ r. r.1.items ≡ fragments_of self.old ppi raw.now) }
        ensures joined { IfOk result (λ r. payload_of r.1.items ≡ raw.now) }
        ensures high { IfOk result (λ r. r.0 ≡ rises_high self.old (length raw.now)) }
        ensures rest { OnOk result (self.new ≡ after_write self.old ppi raw.now) }
        ensures err { OnErr result (self.new ≡ self.old) }
        ensures memory { IfErr result (λ e. e ≡ ErrOutOfMemory) }
    {
        let chunks = self.fragments(alloc, raw, ppi)?;
        let high = self.record_write(ppi, raw.len());
        Ok((high, chunks))
    }

    /// Notes a write of so many bytes, whose fragments `fragments` gave: an ordered one of at least one byte takes the sequence
    /// number. Answers whether the buffered amount rose from under to at least the high threshold. It takes no memory.
    pub fn record_write(&mut self, ppi: PayloadProtocolIdentifier, len: usize) -> bool
        ensures high { result ≡ rises_high self.old len }
        ensures rest { (bytes : List ℕ)
            → len ≡ length bytes → self.new ≡ after_write self.old ppi bytes }
        ensures number { self.new.stream_identifier ≡ self.old.stream_identifier }
    {
        if len > 0 && self.is_ordered(ppi) {
            self.sequence_number = self.sequence_number.wrapping_add(1);
        }
        self.raise_buffered(len)
    }

    /// Adds bytes to the buffered amount, which stops at the greatest usize, and says whether it rose from under to at least the high
    /// threshold: those of a write, or those that a peer no longer acknowledges. It takes no memory.
    pub fn raise_buffered(&mut self, len: usize) -> bool
        ensures high { result ≡ rises_high self.old len }
        ensures rest { self.new
            ≡ record self.old { buffered_amount = count_up self.old.buffered_amount len } }
    {
        let old_amount = self.buffered_amount;
        self.buffered_amount = old_amount.saturating_add(len);
        old_amount < self.buffered_amount_high && self.buffered_amount >= self.buffered_amount_high
    }

    /// Whether a write of this payload type is ordered. A DCEP message always is (RFC 8832 6).
    pub fn is_ordered(&self, ppi: PayloadProtocolIdentifier) -> bool
        ensures { result ≡ is_ordered self.now.unordered ppi }
    {
        ppi.is_dcep() || !self.unordered
    }

    /// The fragments of a write, as `packetize` gives them; the stream stays as it is until `record_write`. Refuses only for
    /// memory.
    pub fn fragments(
        &self,
        alloc: Global,
        raw: &Bytes,
        ppi: PayloadProtocolIdentifier,
    ) -> Result<Vec<ChunkPayloadData>>
        ensures ok { IfOk result (λ chunks. chunks.items ≡ fragments_of self.now ppi raw.now) }
        ensures joined { IfOk result (λ chunks. payload_of chunks.items ≡ raw.now) }
        ensures memory { IfErr result (λ e. e ≡ ErrOutOfMemory) }
    {
        let len = raw.len();
        let size = self.max_payload_size.get() as usize;
        let mut chunks = Vec::with_capacity(alloc, len.div_ceil(size))?;
        let mut at = 0;
        while at < len {
            let end = at + size.min(len - at);
            let bytes = raw.slice(at..end)?;
            chunks.push(self.fragment(ppi, at == 0, end == len, bytes))?;
            at = end;
        }
        Ok(chunks)
    }

    // A fragment, which has no TSN yet.
    fn fragment(
        &self,
        ppi: PayloadProtocolIdentifier,
        beginning_fragment: bool,
        ending_fragment: bool,
        user_data: Bytes,
    ) -> ChunkPayloadData
        ensures { result ≡ fragment self.now ppi beginning_fragment ending_fragment user_data }
    {
        ChunkPayloadData {
            unordered: !self.is_ordered(ppi),
            beginning_fragment,
            ending_fragment,
            immediate_sack: false,
            tsn: 0,
            stream_identifier: self.stream_identifier,
            stream_sequence_number: self.sequence_number,
            payload_type: ppi,
            user_data,
            acked: false,
            miss_indicator: 0,
            message_id: 0,
            abandoned: false,
            since: None,
            reliability: None,
            deadline: None,
            nsent: 0,
            retransmit: false,
        }
    }

    /// Takes bytes off the buffered amount, which stops at 0, and says whether it fell from over to at most the
    /// low threshold. At most 0 bytes change nothing. For bytes that the peer acknowledged, or that were abandoned.
    pub fn on_buffer_released(&mut self, n_bytes_released: i64) -> bool
        ensures low { result ≡ falls_low self.old (positive_part n_bytes_released) }
        ensures rest { self.new ≡ record self.old {
          buffered_amount = self.old.buffered_amount
              - positive_part n_bytes_released;
        } }
    {
        if n_bytes_released <= 0 {
            return false;
        }
        let from_amount = self.buffered_amount;
        self.buffered_amount = from_amount.saturating_sub(n_bytes_released as usize);
        from_amount > self.buffered_amount_low && self.buffered_amount <= self.buffered_amount_low
    }

    /// Takes bytes off the buffered amount, which stops at 0. It takes no memory. `on_buffer_released` also answers
    /// whether the low threshold was reached.
    pub fn lower_buffered(&mut self, bytes: usize)
        ensures { self.new
            ≡ record self.old { buffered_amount = self.old.buffered_amount - bytes } }
    {
        self.buffered_amount = self.buffered_amount.saturating_sub(bytes);
    }

    /// The stream.
    pub fn stream_identifier(&self) -> StreamId
        ensures { result ≡ self.now.stream_identifier }
    {
        self.stream_identifier
    }

    /// The count of bytes that writes raised and releases lowered: those that wait or are in flight, where the caller releases each
    /// byte once. It stops at 0 and at the greatest usize.
    pub fn buffered_amount(&self) -> usize
        ensures { result ≡ self.now.buffered_amount }
    {
        self.buffered_amount
    }

    /// The amount, in bytes, down to which a fall is told. It is 0 at first.
    pub fn buffered_amount_low_threshold(&self) -> usize
        ensures { result ≡ self.now.buffered_amount_low }
    {
        self.buffered_amount_low
    }

    /// Sets the low threshold, in bytes.
    pub fn set_buffered_amount_low_threshold(&mut self, th: usize)
        ensures { self.new ≡ record self.old { buffered_amount_low = th } }
    {
        self.buffered_amount_low = th;
    }

    /// The amount, in bytes, from which on a rise is told. It is the greatest usize at first.
    pub fn buffered_amount_high_threshold(&self) -> usize
        ensures { result ≡ self.now.buffered_amount_high }
    {
        self.buffered_amount_high
    }

    /// Sets the high threshold, in bytes.
    pub fn set_buffered_amount_high_threshold(&mut self, th: usize)
        ensures { self.new ≡ record self.old { buffered_amount_high = th } }
    {
        self.buffered_amount_high = th;
    }

    /// Whether later writes are unordered, and how far their sending goes: `rel_val` counts
    /// the sendings of a chunk after the first (`Rexmit`), or is a lifetime in milliseconds
    /// (`Timed`), or means nothing (`Reliable`). What was written keeps what it has.
    pub fn set_reliability_params(
        &mut self,
        unordered: bool,
        rel_type: ReliabilityType,
        rel_val: u32,
    )
        ensures { self.new ≡ record self.old {
          unordered = unordered;
          reliability_type = rel_type;
          reliability_value = rel_val;
        } }
    {
        self.unordered = unordered;
        self.reliability_type = rel_type;
        self.reliability_value = rel_val;
    }

    /// Whether later writes are unordered.
    pub fn unordered(&self) -> bool
        ensures { result ≡ self.now.unordered }
    {
        self.unordered
    }

    /// How far the sending of later writes goes.
    pub fn reliability_type(&self) -> ReliabilityType
        ensures { result ≡ self.now.reliability_type }
    {
        self.reliability_type
    }

    /// The value beside it: sendings after the first, or milliseconds.
    pub fn reliability_value(&self) -> u32
        ensures { result ≡ self.now.reliability_value }
    {
        self.reliability_value
    }

    /// The counters.
    pub fn stats(&self) -> DataChannelStats
        ensures { result ≡ self.now.stats }
    {
        self.stats
    }

    /// Sets the counters.
    pub fn set_stats(&mut self, stats: DataChannelStats)
        ensures { self.new ≡ record self.old { stats = stats } }
    {
        self.stats = stats;
    }

    /// How many bytes of user data a fragment has at most: 1 to 65,519.
    pub fn max_payload_size(&self) -> u32
        ensures value { result ≡ self.now.max_payload_size }
        ensures bounds { (0 < result) × (result ≤ 65519) }
    {
        self.max_payload_size.get()
    }

    /// Sets how many bytes of user data a later fragment has at most.
    /// Precondition: 1 to 65,519, which is what a DATA chunk can carry.
    pub fn set_max_payload_size(&mut self, max_payload_size: u32)
        requires { (0 < max_payload_size) × (max_payload_size ≤ 65519) }
        ensures { self.new ≡ record self.old { max_payload_size = max_payload_size } }
    {
        self.max_payload_size = PayloadSize::new(max_payload_size);
    }

    /// The stream sequence number of the next ordered write: 0 at first, and 65,535 is followed by 0 (RFC 4960 6.5).
    pub fn sequence_number(&self) -> u16
        ensures { result ≡ self.now.sequence_number }
    {
        self.sequence_number
    }

    /// Sets the number of the next ordered write, as after an unsent message expired, or after a reset.
    pub fn set_sequence_number(&mut self, sequence_number: u16)
        ensures { self.new ≡ record self.old { sequence_number = sequence_number } }
    {
        self.sequence_number = sequence_number;
    }
}
