//! Messages that are to be read (RFC 4960 6.6, 6.9).

ghost use Rattle.std.specs.Prelude.{◌≡◌, ◌≢◌, ◌<◌, ◌⊎◌, false, true, None, length, IfSome};
ghost use Rattle.sctp_c.specs.Out.{at_front};
ghost use Rattle.sctp_c.specs.Receiving.{payload_type_of, TellsNext, ReadsNext};
ghost use Rattle.sctp_reassembly.specs.reassembly_queue.ReassemblyQueue.{message_read};
ghost use Rattle.sctp_receiver.specs.Receiver.{is_open, message_on, after_read, readable_streams};

use super::SctpReceiver;
use crate::code::{
    SCTPR_NO_MEMORY, SCTPR_NOTHING, SCTPR_OK, SCTPR_SHORT_BUFFER, SCTPR_STREAM_UNKNOWN,
};
use crate::fills::put_numbers;
use sctp_reassembly::reassembly_queue::ReassemblyQueue;
use sctp_reassembly::reassembly_queue::fragment::Fragment;
use sctp_receiver::receiver::Receiver;
use sctp_receiver::replay;

// The code where a stream has no message to read.
fn of_none(receiver: &Receiver, stream: u16) -> u32
    ensures nothing { is_open stream receiver.now ≡ true → result ≡ 3 }
    ensures unknown { is_open stream receiver.now ≡ false → result ≡ 23 }
{
    if receiver.stats(stream).is_some() {
        SCTPR_NOTHING
    } else {
        SCTPR_STREAM_UNKNOWN
    }
}

// The payload type of a message of these fragments.
fn type_of(fragments: &[Fragment]) -> u32
    ensures { result ≡ payload_type_of fragments.now }
{
    match fragments.first() {
        Some(first) => (first.message_id % (1 << 32)) as u32,
        None => 0,
    }
}

// The payload type of the message that is read next of what came on a stream.
fn type_in(queue: &ReassemblyQueue) -> u32
    ensures { IfSome (message_read queue.now.held) (λ m. result ≡ payload_type_of m.chunks) }
{
    if let Some(set) = queue.unordered().front() {
        return type_of(set.fragments());
    }
    match queue.ordered().front() {
        Some(set) => type_of(set.fragments()),
        None => 0,
    }
}

// The payload type of the next message of a stream.
fn type_on(receiver: &Receiver, stream: u16) -> u32
    ensures { IfSome (message_on stream receiver.now)
        (λ m. result ≡ payload_type_of m.chunks) }
{
    match replay::reassembly(receiver, stream) {
        Some(queue) => type_in(queue),
        None => 0,
    }
}

/// Tells the next message of a stream, and takes nothing out: `size` becomes its length in bytes, `payload_type` its payload type.
/// `SCTPR_NOTHING`: there is none. Refuses with `SCTPR_STREAM_UNKNOWN`. Both stay, but with `SCTPR_OK`.
#[unsafe(no_mangle)]
pub extern "C" fn sctpr_receiver_next_length(
    receiver: &mut SctpReceiver,
    stream: u16,
    size: &mut usize,
    payload_type: &mut u32,
) -> u32
    ensures codes { (result ≡ 0) ⊎ ((result ≡ 3) ⊎ (result ≡ 23)) }
    ensures ok { result ≡ 0 → TellsNext stream size.new payload_type.new receiver.old.value }
    ensures nothing { result ≡ 3 → (message_on stream receiver.old.value ≡ None)
        × (is_open stream receiver.old.value ≡ true) }
    ensures refused { result ≡ 23 → is_open stream receiver.old.value ≡ false }
    ensures same { receiver.new.value ≡ receiver.old.value }
    ensures kept { result ≢ 0 → (size.new ≡ size.old) × (payload_type.new ≡ payload_type.old) }
{
    let held = receiver.get_mut();
    match held.next_len(stream) {
        Some((len, _)) => {
            *size = len;
            *payload_type = type_on(held, stream);
            SCTPR_OK
        }
        None => of_none(held, stream),
    }
}

/// Takes the next message of a stream out and copies it to the front of the buffer: `size` becomes its length, `payload_type` its
/// payload type. `SCTPR_NOTHING`: there is none, and both stay. Refuses with `SCTPR_STREAM_UNKNOWN`, and both stay; and with
/// `SCTPR_SHORT_BUFFER`, where the buffer is shorter than the message: both are told then, nothing is copied, and the message can still
/// be read.
#[unsafe(no_mangle)]
pub extern "C" fn sctpr_receiver_read(
    receiver: &mut SctpReceiver,
    stream: u16,
    out: &mut [u8],
    size: &mut usize,
    payload_type: &mut u32,
) -> u32
    ensures codes { (result ≡ 0) ⊎ ((result ≡ 3) ⊎ ((result ≡ 17) ⊎ (result ≡ 23))) }
    ensures ok { result ≡ 0 → (receiver.new.value ≡ after_read stream receiver.old.value)
        × ReadsNext stream out.old out.new size.new payload_type.new receiver.old.value }
    ensures nothing { result ≡ 3 → (message_on stream receiver.old.value ≡ None)
        × (is_open stream receiver.old.value ≡ true) }
    ensures short { result ≡ 17 → (length out.old < size.new)
        × TellsNext stream size.new payload_type.new receiver.old.value }
    ensures unknown { result ≡ 23 → is_open stream receiver.old.value ≡ false }
    ensures same { result ≢ 0 → (receiver.new.value ≡ receiver.old.value) × (out.new ≡ out.old) }
    ensures kept { result ≢ 0 → result ≢ 17
        → (size.new ≡ size.old) × (payload_type.new ≡ payload_type.old) }
{
    let held = receiver.get_mut();
    let Some((len, _)) = held.next_len(stream) else {
        return of_none(held, stream);
    };
    *size = len;
    *payload_type = type_on(held, stream);
    if out.len() < len {
        return SCTPR_SHORT_BUFFER;
    }
    let Ok(Some(message)) = held.read(stream) else {
        unreachable!()
    };
    match message.read(out) {
        Ok(copied) => {
            *size = copied;
            SCTPR_OK
        }
        Err(_) => unreachable!(),
    }
}

/// Writes the numbers of the streams with a message to read to the front of `streams`, in the order in which they were opened; where one
/// was closed, the last one stands in its place. `count` becomes how many there are. Refuses with `SCTPR_SHORT_BUFFER`, where there is
/// room for fewer: `count` is told then, and nothing is written; and with `SCTPR_NO_MEMORY`, and both stay.
#[unsafe(no_mangle)]
pub extern "C" fn sctpr_receiver_readable_streams(
    receiver: &mut SctpReceiver,
    streams: &mut [u16],
    count: &mut usize,
) -> u32
    ensures codes { (result ≡ 0) ⊎ ((result ≡ 16) ⊎ (result ≡ 17)) }
    ensures ok { result ≡ 0 → (count.new ≡ length (readable_streams receiver.old.value.streams))
        × (streams.new ≡ at_front (readable_streams receiver.old.value.streams) streams.old) }
    ensures short { result ≡ 17 → (length streams.old < count.new)
        × (count.new ≡ length (readable_streams receiver.old.value.streams)) }
    ensures memory { result ≡ 16 → count.new ≡ count.old }
    ensures kept { result ≢ 0 → streams.new ≡ streams.old }
    ensures same { receiver.new.value ≡ receiver.old.value }
{
    let Ok(numbers) = receiver.get_mut().readable_streams() else {
        return SCTPR_NO_MEMORY;
    };
    *count = numbers.len();
    if streams.len() < numbers.len() {
        return SCTPR_SHORT_BUFFER;
    }
    put_numbers(streams, &numbers);
    SCTPR_OK
}
