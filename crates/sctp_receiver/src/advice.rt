//! What to do at a refusal, so that no chunk waits for ever (RFC 9260 6.2, 6.5).

ghost use Rattle.std.specs.Prelude.{◌≡◌, is_some};
ghost use Rattle.std.specs.List.{list_any};
ghost use Rattle.sctp_reassembly.specs.reassembly_queue.ReassemblyQueue.{message_read};
ghost use Rattle.sctp_receiver.specs.Advice.{advice_for, drop_or_abort, is_any_readable, is_next_to_come, skip_advice_for};

use crate::receiver::Receiver;
use crate::receiver::refusal::ReceiverRefusal;
use sctp_data::chunk::chunk_payload_data::ChunkPayloadData;

/// Why an association is to end: the cause that its ABORT tells (RFC 9260 3.3.7).
#[derive(Clone, Copy, Debug, PartialEq, Eq)]
pub enum AbortCause {
    /// Cause 4 (RFC 9260 3.3.10.4): what is held fills the window, and can't become complete.
    OutOfResource,
    /// Cause 13 (RFC 9260 3.3.10.13).
    ProtocolViolation,
}

/// What to do with a DATA chunk that `Receiver::data` refused.
#[derive(Clone, Copy, Debug, PartialEq, Eq)]
pub enum Advice {
    /// Nothing. The chunk is not acknowledged, so the peer sends it again (RFC 9260 6.2).
    Drop,
    /// `open` the stream and give the chunk to `data` again, where the application wants what comes on it. Else `discard` the TSN, answer
    /// an ERROR with cause 1, Invalid Stream Identifier (RFC 9260 6.5, 3.3.10.1), and open the stream only after the peer reset it (RFC
    /// 6525 5.2.2): what was discarded would be missing for ever.
    OpenOrDiscard,
    /// `close` the stream, so that it holds nothing of the message, then `discard` the TSN. So is each later chunk of the stream, until
    /// the peer reset it: ask for that (RFC 8831 6.7).
    CloseAndDiscard,
    /// Send an ABORT with this cause. The chunk, and all behind it, would be refused for ever, unless a FORWARD-TSN passes what is held.
    Abort(AbortCause),
}

/// What to do with a FORWARD-TSN that `Receiver::forward_tsn` refused.
#[derive(Clone, Copy, Debug, PartialEq, Eq)]
pub enum SkipAdvice {
    /// Nothing. The peer sends it again (RFC 3758 3.5).
    Drop,
    /// Open the streams that it names, or give it again with `Closed::PassOver`, and open these only after the peer reset them.
    PassOver,
    /// Send an ABORT with this cause.
    Abort(AbortCause),
}

/// What to do with a DATA chunk that `Receiver::data` refused so. Where its TSN is the lowest that is missing, and nothing can be read,
/// following it makes the TSN come, or ends the association: `laws::no_chunk_waits_for_ever`. Where it opens no stream and closes none, it
/// looks at each open stream at most once. It takes no memory.
pub fn advise(refusal: ReceiverRefusal, chunk: &ChunkPayloadData, receiver: &Receiver) -> Advice
    ensures { result ≡ advice_for refusal chunk.now receiver.now }
{
    match refusal {
        ReceiverRefusal::StreamUnknown => Advice::OpenOrDiscard,
        ReceiverRefusal::MessageTooLarge => Advice::CloseAndDiscard,
        ReceiverRefusal::WindowFull => drop_or_abort(AbortCause::OutOfResource, chunk, receiver),
        ReceiverRefusal::TsnTooFar => drop_or_abort(AbortCause::OutOfResource, chunk, receiver),
        ReceiverRefusal::SsnTooFar => drop_or_abort(AbortCause::ProtocolViolation, chunk, receiver),
        _ => Advice::Drop,
    }
}

/// What to do with a FORWARD-TSN that `Receiver::forward_tsn` refused so, for the same end. It looks at each open stream at most once. It
/// takes no memory.
pub fn advise_skip(refusal: ReceiverRefusal, receiver: &Receiver) -> SkipAdvice
    ensures { result ≡ skip_advice_for refusal receiver.now }
{
    match refusal {
        ReceiverRefusal::NamedStreamUnknown => SkipAdvice::PassOver,
        ReceiverRefusal::NamedSsnTooFar => {
            if is_any_readable(receiver) {
                SkipAdvice::Drop
            } else {
                SkipAdvice::Abort(AbortCause::ProtocolViolation)
            }
        }
        _ => SkipAdvice::Drop,
    }
}

// A chunk that is refused until something is read; where it is the next to come, and nothing can be read, that is for ever.
fn drop_or_abort(cause: AbortCause, chunk: &ChunkPayloadData, receiver: &Receiver) -> Advice
    ensures { result ≡ drop_or_abort cause chunk.now receiver.now }
{
    if is_next_to_come(chunk, receiver) {
        Advice::Abort(cause)
    } else {
        Advice::Drop
    }
}

// Whether its TSN is the lowest that is missing, and no stream has a message to read.
fn is_next_to_come(chunk: &ChunkPayloadData, receiver: &Receiver) -> bool
    ensures { result ≡ is_next_to_come chunk.now receiver.now }
{
    chunk.tsn == receiver.cumulative_tsn().wrapping_add(1) && !is_any_readable(receiver)
}

// Whether a stream has a message to read.
fn is_any_readable(receiver: &Receiver) -> bool
    ensures { result ≡ is_any_readable receiver.now }
{
    receiver
        .open_streams()
        .iter()
        .any(|stream| stream.queue.is_readable())
}
