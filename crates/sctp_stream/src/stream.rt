//! What a stream keeps.

ghost use Rattle.std.specs.Prelude.{◌≡◌, ◌==◌, ◌<◌, ◌≤◌, ◌⊎◌, false, true, OnErr, IfOk, IfErr, IsOk};
ghost use Rattle.sctp_data.specs.PayloadTypes.{counted_as};
ghost use Rattle.sctp_util.specs.declared.error.Error.TheVariants.{ErrOutOfMemory, ErrInboundPacketTooLarge};
ghost use Rattle.sctp_stream.specs.Stats.{with_sent, with_received};

use crate::outbound_stream::OutboundStream;
pub use sctp_data::chunk::chunk_payload_data::ReliabilityType;
use sctp_data::chunk::chunk_payload_data::{ChunkPayloadData, PayloadProtocolIdentifier};
use sctp_data::chunk::error_cause::ErrorCauseCode;
use sctp_reassembly::reassembly_queue::ReassemblyQueue;
use sctp_util::error::{Error, Result};
use std::alloc::Global;
use std::ops::{Deref, DerefMut};

/// The number of a stream in its association (RFC 4960 3.3.1).
pub type StreamId = u16;

/// Messages and bytes at the boundary to the application. All counters stop at the greatest number.
///
/// A write counts once it was accepted, a read once a message was given; what is sent again or abandoned changes
/// nothing. Text and binary messages count with their bytes, the two empty kinds with none (the byte that is
/// sent in their place is not counted), others not at all. A write of no bytes queues no message, and is not to
/// be counted. What a report asks for beside these, as a label and the moment, is for the layer above.
#[derive(Clone, Copy, Debug, PartialEq, Eq)]
pub struct DataChannelStats {
    /// The stream.
    pub stream_identifier: StreamId,
    /// Which use of the number this is, within an association: a number can be used again after a reset.
    pub generation: u64,
    /// How many messages were accepted for sending.
    pub messages_sent: u64,
    /// How many bytes they have.
    pub bytes_sent: u64,
    /// How many messages were read.
    pub messages_received: u64,
    /// How many bytes they have.
    pub bytes_received: u64,
}

impl DataChannelStats {
    /// Counts a message of `len` bytes that was accepted for sending.
    pub fn sent(&mut self, ppi: PayloadProtocolIdentifier, len: usize)
        ensures { self.new ≡ with_sent (counted_as ppi len) self.old }
    {
        if let Some(bytes) = counted_as(ppi, len) {
            self.messages_sent = self.messages_sent.saturating_add(1);
            self.bytes_sent = self.bytes_sent.saturating_add(bytes);
        }
    }

    /// Counts a message of `len` bytes that was read.
    pub fn received(&mut self, ppi: PayloadProtocolIdentifier, len: usize)
        ensures { self.new ≡ with_received (counted_as ppi len) self.old }
    {
        if let Some(bytes) = counted_as(ppi, len) {
            self.messages_received = self.messages_received.saturating_add(1);
            self.bytes_received = self.bytes_received.saturating_add(bytes);
        }
    }
}

// How many bytes of a message count, if it counts.
fn counted_as(ppi: PayloadProtocolIdentifier, len: usize) -> Option<u64>
    ensures { result ≡ counted_as ppi len }
{
    match ppi {
        PayloadProtocolIdentifier::String | PayloadProtocolIdentifier::Binary => Some(len as u64),
        PayloadProtocolIdentifier::StringEmpty | PayloadProtocolIdentifier::BinaryEmpty => Some(0),
        PayloadProtocolIdentifier::Dcep | PayloadProtocolIdentifier::Unknown => None,
    }
}

/// Which directions of a stream are open.
#[derive(Clone, Copy, Debug, PartialEq, Eq)]
pub enum RecvSendState {
    /// Neither.
    Closed = 0,
    /// It can be read from.
    Readable = 1,
    /// It can be written to.
    Writable = 2,
    /// Both.
    ReadWritable = 3,
}

/// Closed.
impl Default for RecvSendState {
    ghost use Rattle.sctp_stream.specs.declared.stream.RecvSendState.TheVariants.{Closed};

    ghost is_default = { λ s. s ≡ Closed };

    fn default() -> RecvSendState {
        RecvSendState::Closed
    }
}

/// 1 is `Readable`, 2 `Writable`, 3 `ReadWritable`, any other number `Closed`.
impl From<u8> for RecvSendState {
    ghost use Rattle.sctp_stream.specs.State.{state_from};

    ghost from_gives = { λ n s. s ≡ state_from n };

    fn from(v: u8) -> RecvSendState {
        match v {
            1 => RecvSendState::Readable,
            2 => RecvSendState::Writable,
            3 => RecvSendState::ReadWritable,
            _ => RecvSendState::Closed,
        }
    }
}

/// What a stream keeps: how its writes are cut and sent, what of them waits, and what came of the peer's messages. It is used as its
/// `OutboundStream`, to which it dereferences.
#[derive(Drop)]
pub struct StreamState {
    outbound: OutboundStream,
    first_message_id: u64,
    default_payload_type: PayloadProtocolIdentifier,
    reassembly_queue: ReassemblyQueue,
    state: RecvSendState,
}

impl Deref for StreamState {
    type Target = OutboundStream;

    ghost deref_gives = { λ s o. o ≡ s.outbound };

    fn deref(&self) -> &OutboundStream
        ensures { result.now ≡ self.now.outbound }
    {
        &self.outbound
    }
}

impl DerefMut for StreamState {
    ghost use Rattle.sctp_stream.specs.Lending.{LendsOutbound};
    ghost use Rattle.std.specs.Borrow.{sem};

    ghost deref_mut_gives = { λ s o. o ≡ s.outbound };

    fn deref_mut(&mut self) -> &mut OutboundStream
        ensures* writes_back { sem 𝓛 (LendsOutbound self.entry result) }
        ensures shows { result.now ≡ self.old.outbound }
    {
        &mut self.outbound
    }
}

impl StreamState {
    ghost use Rattle.sctp_stream.specs.State.{can_read, can_write, finish_sending};
    ghost use Rattle.sctp_stream.specs.Stream.{new_state};
    ghost use Rattle.sctp_stream.specs.Lending.{LendsQueue};
    ghost use Rattle.std.specs.Borrow.{sem};
    ghost use Rattle.sctp_reassembly.specs.reassembly_queue.ReassemblyQueue.{is_too_large, after_ordered_push, is_complete_with, PushesUnordered};

    /// A stream that is open both ways, ordered and reliable, with fragments of at most `max_payload_size`
    /// bytes of user data and messages of at most `max_receive_message_size` bytes. All counts are 0, the
    /// low threshold too; the high one is the greatest usize. It takes no memory.
    /// Precondition: `max_payload_size` is 1 to 65,519.
    pub fn new(
        alloc: Global,
        stream_identifier: StreamId,
        max_payload_size: u32,
        max_receive_message_size: u32,
        default_payload_type: PayloadProtocolIdentifier,
    ) -> Self
        requires { (0 < max_payload_size) × (max_payload_size ≤ 65519) }
        ensures { result ≡ new_state
            stream_identifier max_payload_size max_receive_message_size default_payload_type }
    {
        StreamState {
            outbound: OutboundStream::new(stream_identifier, max_payload_size),
            first_message_id: 0,
            default_payload_type,
            reassembly_queue: ReassemblyQueue::new(
                alloc,
                stream_identifier,
                max_receive_message_size,
            ),
            state: RecvSendState::ReadWritable,
        }
    }

    /// Closes the direction of writes. The direction of reads stays as it is.
    pub fn finish(&mut self)
        ensures { self.new ≡ record self.old { state = finish_sending self.old.state } }
    {
        self.state = match self.state {
            RecvSendState::ReadWritable | RecvSendState::Readable => RecvSendState::Readable,
            RecvSendState::Writable | RecvSendState::Closed => RecvSendState::Closed,
        };
    }

    /// What user data is that is written without a type.
    pub fn get_default_payload_type(&self) -> PayloadProtocolIdentifier
        ensures { result ≡ self.now.default_payload_type }
    {
        self.default_payload_type
    }

    /// Sets what user data is that is written without a type.
    pub fn set_default_payload_type(&mut self, default_payload_type: PayloadProtocolIdentifier)
        ensures { self.new ≡ record self.old { default_payload_type = default_payload_type } }
    {
        self.default_payload_type = default_payload_type;
    }

    /// The number from which on messages belong to this use of the stream's number,
    /// as the layer above set it. Nothing here looks at it.
    pub fn first_message_id(&self) -> u64
        ensures { result ≡ self.now.first_message_id }
    {
        self.first_message_id
    }

    /// Sets the number from which on messages belong to this use of the stream's number.
    pub fn set_first_message_id(&mut self, first_message_id: u64)
        ensures { self.new ≡ record self.old { first_message_id = first_message_id } }
    {
        self.first_message_id = first_message_id;
    }

    /// Which directions are open.
    pub fn state(&self) -> RecvSendState
        ensures { result ≡ self.now.state }
    {
        self.state
    }

    /// Sets which directions are open.
    pub fn set_state(&mut self, state: RecvSendState)
        ensures { self.new ≡ record self.old { state = state } }
    {
        self.state = state;
    }

    /// What came of messages that were not read.
    pub fn reassembly_queue(&self) -> &ReassemblyQueue
        ensures { result.now ≡ self.now.reassembly_queue }
    {
        &self.reassembly_queue
    }

    /// The same, to be changed: as by a read or a skip.
    pub fn reassembly_queue_mut(&mut self) -> &mut ReassemblyQueue
        ensures* writes_back { sem 𝓛 (LendsQueue self.entry result) }
        ensures value { result.now ≡ self.old.reassembly_queue }
    {
        &mut self.reassembly_queue
    }

    /// Its byte count.
    pub fn get_num_bytes_in_reassembly_queue(&self) -> usize
        ensures { result ≡ self.now.reassembly_queue.bytes }
    {
        self.reassembly_queue.get_num_bytes()
    }

    /// Takes a DATA chunk for reassembly, and says whether a message became whole
    /// by it. The queue changes as by its `push`, and nothing else.
    /// Refuses with `ErrInboundPacketTooLarge`, only where the bytes held of the message and the chunk's are together more than
    /// the queue takes, or for memory, which can come in the place of that. The stream is as it was then. Whether the direction of
    /// reads is open is not looked at.
    pub fn handle_data(&mut self, pd: &ChunkPayloadData) -> Result<bool>
        ensures other_stream { (pd.now.stream_identifier == self.old.reassembly_queue.si) ≡ false
            → IfOk result (λ whole. (whole ≡ false) × (self.new ≡ self.old)) }
        ensures ordered { (pd.now.stream_identifier == self.old.reassembly_queue.si) ≡ true
            → pd.now.unordered ≡ false → IfOk result
            (λ whole. (self.new.reassembly_queue
            ≡ after_ordered_push pd.now self.old.reassembly_queue)
            × (whole ≡ is_complete_with pd.now self.old.reassembly_queue.held)) }
        ensures unordered { (pd.now.stream_identifier == self.old.reassembly_queue.si) ≡ true
            → pd.now.unordered ≡ true → IfOk result (λ whole.
            PushesUnordered pd.now self.old.reassembly_queue self.new.reassembly_queue whole) }
        ensures rest { self.new ≡ record self.old { reassembly_queue = self.new.reassembly_queue } }
        ensures fits { IsOk result → is_too_large pd.now self.old.reassembly_queue ≡ false }
        ensures refused { IfErr result (λ e. (e ≡ ErrOutOfMemory) ⊎ ((e ≡ ErrInboundPacketTooLarge)
            × (is_too_large pd.now self.old.reassembly_queue ≡ true))) }
        ensures err { OnErr result (self.new ≡ self.old) }
    {
        let chunk = pd.try_clone()?;
        self.reassembly_queue.push(chunk)
    }

    /// Whether the direction of reads is open.
    pub fn is_readable(&self) -> bool
        ensures { result ≡ can_read self.now.state }
    {
        matches!(
            self.state,
            RecvSendState::Readable | RecvSendState::ReadWritable
        )
    }

    /// Whether the direction of writes is open.
    pub fn is_writable(&self) -> bool
        ensures { result ≡ can_write self.now.state }
    {
        matches!(
            self.state,
            RecvSendState::Writable | RecvSendState::ReadWritable
        )
    }
}

/// Why a stream reset did not succeed (RFC 6525 4.4).
#[derive(Clone, Copy, Debug, PartialEq, Eq)]
#[non_exhaustive]
pub enum StreamResetError {
    /// The peer denied the request.
    Denied,
    /// A protocol error, or no answer after the last repetition.
    Failed,
}

/// What happened to a stream, or to streams at all: names for the layer above, which makes them. Nothing here does.
#[derive(Debug, Drop, PartialEq, Eq)]
#[non_exhaustive]
pub enum StreamEvent {
    /// Streams were opened.
    Opened {
        id: StreamId,
    },
    /// Data or an error waits to be read.
    Readable {
        id: StreamId,
    },
    /// A write that was refused for room may be tried again.
    Writable {
        id: StreamId,
    },
    /// A reset ended the stream: nothing more can be read or written (RFC 6525 5).
    Finished {
        id: StreamId,
    },
    /// A reset succeeded: the number may be used again.
    ResetComplete {
        id: StreamId,
    },
    /// A reset failed: the number stays taken.
    ResetFailed {
        id: StreamId,
        reason: StreamResetError,
    },
    /// The peer asked to stop sending.
    Stopped {
        id: StreamId,
        error_code: ErrorCauseCode,
    },
    /// Further streams may be opened.
    Available,
    /// The buffered amount fell to the low threshold.
    BufferedAmountLow {
        id: StreamId,
    },
    /// The buffered amount rose to the high threshold.
    BufferedAmountHigh {
        id: StreamId,
    },
}
