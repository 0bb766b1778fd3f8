//! A caller of a receiver.

ghost use Rattle.std.specs.Prelude.{◌≡◌, ◌++◌, ◌+◌, ◌-◌, ◌*◌, ◌≤◌, true, Some, None, OnOk, OnErr, IfOk, IfErr, drop, length, option_map, slice_get};
ghost use Rattle.sctp_data.specs.SelectiveAck.{sack_of};
ghost use Rattle.sctp_reassembly.specs.reassembly_queue.ReassemblyQueue.{at_start};
ghost use Rattle.sctp_receiver.specs.declared.receiver.refusal.ReceiverRefusal.TheVariants.{OutOfMemory, StreamUnknown};
ghost use Rattle.sctp_receiver.specs.Advice.{is_next_to_come};
ghost use Rattle.sctp_receiver.specs.Credit.{AfterEachLimitedRun, cost_held, left_of};
ghost use Rattle.sctp_receiver.specs.Drains.{due_on};
ghost use Rattle.sctp_receiver.specs.Duplicates.{AfterEachRunWithRepeats};
ghost use Rattle.sctp_receiver.specs.Receiver.{Takes, after_discard, after_sack_within, arrival_of, arrival_refusal, filter_of, sack_within, stream_of, window};
ghost use Rattle.sctp_receiver.specs.TsnFilter.{has_come};

use sctp_chunks::chunk::chunk_payload_data::ChunkPayloadData;
use sctp_chunks::chunk::chunk_selective_ack::ChunkSelectiveAck;
use sctp_reassembly::chunks::Chunks;
use sctp_receiver::advice::{AbortCause, Advice, advise};
use sctp_receiver::laws::credit::credit_is_what_is_left;
use sctp_receiver::laws::drains::a_drain_gives_what_is_due;
use sctp_receiver::laws::duplicates::repeats_are_told_once;
use sctp_receiver::laws::no_chunk_waits_for_ever;
use sctp_receiver::receiver::Receiver;
use sctp_receiver::receiver::arrival::Arrival;
use sctp_receiver::receiver::refusal::ReceiverRefusal;

/// Gives a DATA chunk to a receiver, and answers whether a message of its stream became complete with it. A chunk that the
/// receiver refuses is dropped, as RFC 4960 6.2 lets a receiver do: its sender sends it again. Fails only where memory ran out.
pub fn take_chunk(
    receiver: &mut Receiver,
    chunk: &ChunkPayloadData,
) -> Result<bool, ReceiverRefusal>
    ensures taken { arrival_refusal chunk.now receiver.old ≡ None → IfOk result (λ complete.
        Takes chunk.now (arrival_of chunk.now.tsn complete receiver.old)
        receiver.old receiver.new) }
    ensures err { OnErr result (receiver.new ≡ receiver.old) }
    ensures memory { IfErr result (λ e. e ≡ OutOfMemory) }
{
    match receiver.data(chunk) {
        Ok(Arrival::New { complete }) => Ok(complete),
        Ok(Arrival::Repeat) => Ok(false),
        Err(ReceiverRefusal::OutOfMemory) => Err(ReceiverRefusal::OutOfMemory),
        Err(_) => Ok(false),
    }
}

/// Gives a DATA chunk to a receiver. One of a stream that is not open is dropped, and its TSN acknowledged, so that the peer does
/// not send it for ever (RFC 4960 6.5): the answer is false then, and an ERROR with cause 1 is due. Fails as `data` does else.
pub fn take_or_discard(
    receiver: &mut Receiver,
    chunk: &ChunkPayloadData,
) -> Result<bool, ReceiverRefusal>
    ensures taken { arrival_refusal chunk.now receiver.old ≡ None
        → IfOk result (λ known. known ≡ true) }
    ensures dropped { arrival_refusal chunk.now receiver.old ≡ Some StreamUnknown
        → OnOk result (receiver.new ≡ after_discard chunk.now.tsn receiver.old) }
    ensures err { OnErr result (receiver.new ≡ receiver.old) }
{
    match receiver.data(chunk) {
        Ok(_) => Ok(true),
        Err(ReceiverRefusal::StreamUnknown) => {
            receiver.discard(chunk.tsn)?;
            Ok(false)
        }
        Err(refusal) => Err(refusal),
    }
}

/// Gives a DATA chunk to a receiver and follows the advice at a refusal, where the application takes no stream that it did not open. It
/// answers the cause of the ABORT that is due, if one is. Where none is and the chunk is the next to come, its TSN has come (RFC 9260
/// 6.2, 6.5).
pub fn take_or_follow(
    receiver: &mut Receiver,
    chunk: &ChunkPayloadData,
) -> Result<Option<AbortCause>, ReceiverRefusal>
    ensures settled { is_next_to_come chunk.now receiver.old ≡ true → IfOk result (λ end.
        end ≡ None → has_come chunk.now.tsn (filter_of receiver.new) ≡ true) }
    ensures memory { is_next_to_come chunk.now receiver.old ≡ true
        → IfErr result (λ e. e ≡ OutOfMemory) }
{
    let Err(refusal) = receiver.data(chunk) else {
        return Ok(None);
    };
    let _ = receiver.cumulative_tsn();
    no_chunk_waits_for_ever();
    match advise(refusal, chunk, receiver) {
        Advice::Drop => match refusal {
            ReceiverRefusal::OutOfMemory => Err(refusal),
            _ => Ok(None),
        },
        Advice::OpenOrDiscard => {
            receiver.discard(chunk.tsn)?;
            Ok(None)
        }
        Advice::CloseAndDiscard => {
            receiver.close(chunk.stream_identifier);
            receiver.discard(chunk.tsn)?;
            Ok(None)
        }
        Advice::Abort(cause) => Ok(Some(cause)),
    }
}

/// The SACK of what came, for a packet of so many bytes, of which its header takes 12 (RFC 4960 6.2). Its credit is what is left of
/// the receiver's window.
/// Precondition: the packet has room for a SACK with no blocks.
pub fn acknowledge(
    receiver: &mut Receiver,
    packet: usize,
) -> Result<ChunkSelectiveAck, ReceiverRefusal>
    requires { 28 ≤ packet }
    ensures sack { IfOk result
        (λ s. sack_of s ≡ sack_within (window receiver.old) (packet - 12) receiver.old) }
    ensures fits { IfOk result (λ s.
        28 + 4 * (length s.gap_ack_blocks.items + length s.duplicate_tsn.items) ≤ packet) }
    ensures rest { OnOk result (receiver.new ≡ after_sack_within (packet - 12) receiver.old) }
    ensures err { OnErr result (receiver.new ≡ receiver.old) }
    ensures memory { IfErr result (λ e. e ≡ OutOfMemory) }
{
    receiver.sack(packet - 12)
}

/// Makes the SACK that `Receiver::sack` makes. After whatever calls the receiver stands so: the credit is what the window leaves over what
/// is held, and the duplicates are the next ones of the TSNs that came again, of which the receiver notes the others still.
pub fn sack_as_told(
    receiver: &mut Receiver,
    room: usize,
) -> Result<ChunkSelectiveAck, ReceiverRefusal>
    ensures credit { IfOk result (λ s. AfterEachLimitedRun (λ l t. t.receiver ≡ receiver.old
        → s.advertised_receiver_window_credit ≡ left_of l.window (cost_held receiver.old))) }
    ensures duplicates { IfOk result (λ s. AfterEachRunWithRepeats
        (λ t d. t.receiver ≡ receiver.old
        → d.again ≡ d.told ++ (s.duplicate_tsn.items ++ receiver.new.duplicates))) }
{
    credit_is_what_is_left();
    repeats_are_told_once();
    receiver.sack(room)
}

/// Reads a message as `Receiver::read` does: the first of those that are due on the stream. The others stay due.
pub fn read_due(receiver: &mut Receiver, stream: u16) -> Result<Option<Chunks>, ReceiverRefusal>
    ensures first { IfOk result (λ message. message
        ≡ option_map at_start (slice_get (due_on (stream_of stream receiver.old)) 0)) }
    ensures rest { OnOk result (due_on (stream_of stream receiver.new)
        ≡ drop 1 (due_on (stream_of stream receiver.old))) }
{
    a_drain_gives_what_is_due();
    receiver.read(stream)
}
