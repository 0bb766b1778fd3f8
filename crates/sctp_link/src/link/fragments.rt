//! The fragments of a datagram: looked at before they leave, then taken one after another.

ghost use Rattle.std.specs.Prelude.{◌≡◌, ◌<◌, ◌≤◌, ◌+◌, ◌^◌, ◌∷◌, ◌++◌, ℕ, [], Some, IfOk, IfSome, IsOkUnless, length, map, vec_len, vec_capacity};
ghost use Rattle.sctp_util.specs.declared.error.Error.TheVariants.{ErrOutOfMemory};
ghost use Rattle.sctp_util.specs.Kept.{numbers_from};
ghost use Rattle.sctp_chunks.specs.declared.chunk.chunk_kind.ChunkKind.TheVariants as C;
ghost use Rattle.sctp_outbound.specs.pending_queue.PendingQueue.{next_pending};
ghost use Rattle.sctp_outbound.specs.outbound_queue.OutboundQueue.{after_sends};
ghost use Rattle.sctp_model.specs.Changes.{chunk_length};
ghost use Rattle.sctp_model.specs.refinement.Filling.{chunks_taken};
ghost use Rattle.sctp_link.specs.OpenStreams.{begun_of, fragment_slot, with_fragment, begun_by};
ghost use Rattle.sctp_link.specs.Sends.{AreNoted, Outgoing, outgoing_of, started_from, CanSend, Leaves, Leave, SendsOnly};
ghost use Rattle.sctp_serial.specs.DataChunks.{under_tsn};

use super::streams::start_from;
use crate::progress::Progress;
use crate::record::{Message, Slot};
use sctp_chunks::chunk::chunk_header::CHUNK_HEADER_SIZE;
use sctp_chunks::chunk::chunk_kind::ChunkKind;
use sctp_chunks::chunk::chunk_payload_data::{ChunkPayloadData, PAYLOAD_DATA_HEADER_SIZE};
use sctp_packets::packet::PACKET_HEADER_SIZE;
use sctp_queues::outbound_queue::OutboundQueue;
use sctp_sender::replay;
use sctp_sender::sender::Sender;
use sctp_util::error::Result;
use std::alloc::Global;

/// The length of a DATA chunk without its user data (RFC 4960 3.3.1).
const DATA_HEADER: usize = CHUNK_HEADER_SIZE + PAYLOAD_DATA_HEADER_SIZE;

/// The chunks of the next datagram, of which the first has this TSN: the next fragment, and further ones, each the
/// next then, for as long as the datagram is no longer than the limit. Refuses only for memory.
/// Precondition: `first` is the next fragment, and none has more than 65,519 bytes.
pub(super) fn next_chunks(
    alloc: Global,
    outbound: &OutboundQueue,
    first: &ChunkPayloadData,
    tsn: u32,
    limit: u32,
) -> Result<Vec<ChunkKind>>
    requires shown { next_pending outbound.now.pending ≡ Some first.now }
    requires short { (i : ℕ) → IfSome (next_pending (after_sends i outbound.now.pending))
        (λ c. length c.user_data ≤ 65519) }
    ensures chunks { IfOk result
        (λ ks. ks.items ≡ map C.PayloadData (chunks_taken limit tsn outbound.now.pending)) }
    ensures memory { IsOkUnless result ErrOutOfMemory }
{
    let mut chunks = Vec::new(alloc);
    push_under(&mut chunks, first, tsn)?;
    let mut tsn = tsn;
    let mut used = PACKET_HEADER_SIZE + chunk_length(first.user_data.len());
    // Each further chunk has a header at least.
    for sent in 0..limit as usize / DATA_HEADER {
        let Some(chunk) = outbound.peek_pending_at(sent + 1) else {
            return Ok(chunks);
        };
        used += chunk_length(chunk.user_data.len());
        if used > limit as usize {
            return Ok(chunks);
        }
        tsn = tsn.wrapping_add(1);
        push_under(&mut chunks, chunk, tsn)?;
    }
    Ok(chunks)
}

/// Puts a chunk under a TSN behind the others. Refuses only for memory.
fn push_under(chunks: &mut Vec<ChunkKind>, chunk: &ChunkPayloadData, tsn: u32) -> Result<()>
    ensures ok { IfOk result
        (λ _. chunks.new.items ≡ chunks.old.items ++ C.PayloadData (under_tsn tsn chunk.now) ∷ []) }
    ensures memory { IsOkUnless result ErrOutOfMemory }
{
    let mut chunk = chunk.try_clone()?;
    chunk.tsn = tsn;
    chunks.push(ChunkKind::PayloadData(chunk))?;
    Ok(())
}

/// The length of a DATA chunk with so many bytes, its padding included.
/// Precondition: they are at most 65,519.
fn chunk_length(bytes: usize) -> usize
    requires { bytes ≤ 65519 }
    ensures { result ≡ chunk_length bytes }
{
    DATA_HEADER + bytes + (4 - bytes % 4) % 4
}

/// So many places, from the first on. Refuses only for memory.
/// Precondition: each fits.
pub(super) fn places_from(alloc: Global, first: usize, count: usize) -> Result<Vec<u64>>
    requires { first + count < 2 ^ 64 }
    ensures places { IfOk result (λ places. places.items ≡ numbers_from first count) }
    ensures memory { IsOkUnless result ErrOutOfMemory }
{
    let mut places = Vec::new(alloc);
    for at in 0..count {
        places.push((first + at) as u64)?;
    }
    Ok(places)
}

/// Starts the lifetimes of the messages from a place on, and takes the next fragments, one after another: each gets a slot and the next TSN,
/// and is noted as sent once, at `now`, in nanoseconds, as lifetimes are.
/// Precondition: each can leave in its turn, and there is room for all of them.
pub(super) fn send_fragments(
    sender: &mut Sender,
    progress: &mut Progress,
    messages: &mut [Message],
    unstarted: usize,
    slots: &mut Vec<Slot>,
    now: u64,
    count: usize,
)
    requires able { (i : ℕ) (s : Outgoing) → i < count
        → Leave now i (started_from unstarted now
        (outgoing_of sender.old progress.old messages.old slots.old.items)) s → CanSend s }
    requires flight { count ≤ sender.old.flight.queue.inflight.room }
    requires room { vec_len slots.old + count ≤ vec_capacity slots.old }
    ensures leave { Leave now count (started_from unstarted now
        (outgoing_of sender.old progress.old messages.old slots.old.items))
        (outgoing_of sender.new progress.new messages.new slots.new.items) }
    ensures noted { AreNoted now count
        sender.old.flight.queue.inflight.chunks sender.new.flight.queue.inflight.chunks }
    ensures rest { SendsOnly sender.old sender.new }
{
    replay::start(sender, now);
    start_from(messages, unstarted, now);
    take_fragments(sender, progress, messages, slots, now, count);
}

/// Takes the next fragments, one after another: each gets a slot and the next TSN, and is noted as sent once, at `now`, in nanoseconds.
/// Precondition: each can leave in its turn, and there is room for all of them.
fn take_fragments(
    sender: &mut Sender,
    progress: &mut Progress,
    messages: &mut [Message],
    slots: &mut Vec<Slot>,
    now: u64,
    count: usize,
)
    requires able { (i : ℕ) (s : Outgoing) → i < count
        → Leave now i (outgoing_of sender.old progress.old messages.old slots.old.items) s → CanSend s }
    requires flight { count ≤ sender.old.flight.queue.inflight.room }
    requires room { vec_len slots.old + count ≤ vec_capacity slots.old }
    ensures leave { Leave now count
        (outgoing_of sender.old progress.old messages.old slots.old.items)
        (outgoing_of sender.new progress.new messages.new slots.new.items) }
    ensures noted { AreNoted now count
        sender.old.flight.queue.inflight.chunks sender.new.flight.queue.inflight.chunks }
    ensures rest { SendsOnly sender.old sender.new }
{
    for _at in 0..count {
        take_next(sender, progress, messages, slots, now);
    }
}

/// Takes the next fragment: it gets a slot and the next TSN, and is noted as sent once, at `now`, in nanoseconds.
/// Precondition: it can leave, and there is room for it.
fn take_next(
    sender: &mut Sender,
    progress: &mut Progress,
    messages: &mut [Message],
    slots: &mut Vec<Slot>,
    now: u64,
)
    requires able { CanSend (outgoing_of sender.old progress.old messages.old slots.old.items) }
    requires flight { 0 < sender.old.flight.queue.inflight.room }
    requires room { vec_len slots.old < vec_capacity slots.old }
    ensures leaves { Leaves now (outgoing_of sender.old progress.old messages.old slots.old.items)
        (outgoing_of sender.new progress.new messages.new slots.new.items) }
    ensures noted { AreNoted now 1
        sender.old.flight.queue.inflight.chunks sender.new.flight.queue.inflight.chunks }
    ensures rest { SendsOnly sender.old sender.new }
    ensures flight { sender.old.flight.queue.inflight.room
        ≡ sender.new.flight.queue.inflight.room + 1 }
    ensures len { vec_len slots.new ≡ vec_len slots.old + 1 }
    ensures capacity { vec_capacity slots.old ≤ vec_capacity slots.new }
{
    let Some(chunk) = sender.outbound().peek_pending() else {
        unreachable!()
    };
    let number = chunk.message_id;
    if replay::send_next_tsn_unbounded(sender, now).is_err() {
        unreachable!()
    }
    let slot = take_fragment(&mut messages[number as usize], progress, number);
    slots.push_reserved(slot);
}

/// The slot of the next fragment of a message, which it takes. The first one of an ordered message takes an index.
fn take_fragment(message: &mut Message, progress: &mut Progress, number: u64) -> Slot
    requires fits { message.old.sent + 1 < 2 ^ 64 }
    requires few { begun_of message.old.stream progress.old + 1 < 2 ^ 64 }
    ensures slot { result ≡ fragment_slot number message.old.sent }
    ensures taken { message.new ≡ with_fragment progress.old message.old }
    ensures rest { progress.new ≡ begun_by message.old progress.old }
{
    if message.ordered && message.sent == 0 {
        message.index = progress.begin(message.stream);
    }
    let fragment = message.sent;
    message.sent += 1;
    Slot {
        message: number,
        fragment,
        is_terminal_chunk: false,
        arrived: false,
        acknowledged: false,
    }
}
