//! What a receiver reads of the chunks that it is given.

ghost use Rattle.std.specs.Prelude.{◌≡◌, ◌≤◌, ◌↔◌, None, true, false, vec_len, vec_capacity, IsTrue, IsOk, IsSome, IfOk, IfErr, OnOk, OnErr};
ghost use Rattle.sctp_reassembly.specs.reassembly_queue.Fragments.{payload_of};
ghost use Rattle.sctp_receiver.specs.declared.receiver.refusal.ReceiverRefusal.TheVariants.{OutOfMemory};
ghost use Rattle.sctp_receiver.specs.Receiver.{IsRefusedFor, arrival_refusal, takes_memory, message_on};
ghost use Rattle.sctpdump.specs.Messages.{ReadsOnto, TakesChunk};

use sctp_data::chunk::chunk_payload_data::ChunkPayloadData;
use sctp_reassembly::chunks::Chunks;
use sctp_receiver::receiver::Receiver;
use sctp_receiver::receiver::arrival::Arrival;
use sctp_receiver::receiver::refusal::ReceiverRefusal;
use std::alloc::{AllocError, Global};

/// What became of a DATA chunk that a receiver took.
#[derive(Drop)]
pub struct TakenChunk {
    pub arrival: Arrival,
    /// Whether each message of its stream that could be read then was read; else memory ran out, and the others are still in the receiver.
    pub is_all: bool,
}

/// Reads the messages of a stream, one after the other, and appends them, until there is none; of a stream that is not open there is none.
/// Refuses only for memory, and only where a message is left and there is no room for one more: each that was read is appended then, and
/// those that are left are still in the receiver.
pub fn read_all(
    receiver: &mut Receiver,
    stream: u16,
    messages: &mut Vec<Chunks>,
) -> Result<(), AllocError>
    ensures reads { ReadsOnto stream messages.old.items messages.new.items receiver.old receiver.new }
    ensures all { OnOk result (message_on stream receiver.new ≡ None) }
    ensures left { OnErr result (IsSome (message_on stream receiver.new)) }
    ensures full { OnErr result (vec_capacity messages.new ≤ vec_len messages.new) }
{
    'reading: for _message in 0..usize::MAX {
        if !receiver.is_readable(stream) {
            return Ok(());
        }
        messages.reserve(1)?;
        match receiver.read(stream) {
            Ok(Some(message)) => messages.push(message)?,
            Ok(None) => return Ok(()),
            Err(_) => return Ok(()),
        }
    }
    if !receiver.is_readable(stream) {
        return Ok(());
    }
    Err(AllocError)
}

/// Gives a DATA chunk to a receiver, and then reads the messages of its stream, which are appended. Refuses what `Receiver::data` refuses,
/// and for the same reason; then nothing is read, and nothing has changed. Where memory runs out later, the answer says that not all is
/// read: each message that was read is appended, and the others are still in the receiver.
pub fn take_chunk(
    receiver: &mut Receiver,
    chunk: &ChunkPayloadData,
    messages: &mut Vec<Chunks>,
) -> Result<TakenChunk, ReceiverRefusal>
    ensures takes { IfOk result (λ taken. TakesChunk chunk.now taken.arrival
        messages.old.items messages.new.items receiver.old receiver.new) }
    ensures all { IfOk result (λ taken. IsTrue taken.is_all
        ↔ (message_on chunk.now.stream_identifier receiver.new ≡ None)) }
    ensures full { IfOk result (λ taken. taken.is_all ≡ false
        → vec_capacity messages.new ≤ vec_len messages.new) }
    ensures accepted { IsOk result → arrival_refusal chunk.now receiver.old ≡ None }
    ensures refused { IfErr result (λ e. IsRefusedFor (arrival_refusal chunk.now receiver.old) e) }
    ensures wants { IfErr result (λ e. e ≡ OutOfMemory
        → takes_memory chunk.now receiver.old ≡ true) }
    ensures err { OnErr result (receiver.new ≡ receiver.old) }
    ensures err_messages { OnErr result (messages.new ≡ messages.old) }
{
    let arrival = receiver.data(chunk)?;
    let read = read_all(receiver, chunk.stream_identifier, messages);
    Ok(TakenChunk {
        arrival,
        is_all: read.is_ok(),
    })
}

/// The bytes of a message.
#[tactic(auto, using(sctp_reassembly::proofs::lemmas::reassembly_queue::PiecesTaken::payload_more))]
pub fn bytes_of(alloc: Global, message: &Chunks) -> Result<Vec<u8>, AllocError>
    ensures { IfOk result (λ bytes. bytes.items ≡ payload_of message.now.set.chunks) }
{
    let mut bytes = Vec::new(alloc);
    for fragment in message.fragments() {
        bytes.extend_from_slice(fragment.user_data.as_slice())?;
    }
    Ok(bytes)
}
