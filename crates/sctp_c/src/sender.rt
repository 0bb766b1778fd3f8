//! The sending half of a link behind a handle (RFC 4960 6.1, 6.2.1, 6.9; RFC 3758 3.5; RFC 6525 5.1.2).
//!
//! A handle is one pointer. Each call says what it makes of the value behind it: a `Sender`, in that type's own words, and the payload types
//! of messages that have no name in it. A code of 16 or more is a refusal: both are as they were then. `now` is in nanoseconds from any one
//! moment.

ghost use Rattle.std.specs.Prelude.{◌≡◌, ◌≢◌, ◌<◌, ◌≤◌, ◌⊎◌, ◌==◌, not, false, true, Option, None, Some, length, option_map, IfSome, if◌then◌else◌};
ghost use Rattle.std.specs.Borrow.{sem};
ghost use Rattle.sctp_c.specs.OwnedSender.{sender_owns, sender_coded, new_sender_owns, new_sender_coded};
ghost use Rattle.sctp_c.specs.Codes.{sender_code};
ghost use Rattle.sctp_c.specs.Sending.{IsSenderCode, Writes, new_sender, reliability_named};
ghost use Rattle.sctp_c.specs.declared.sender.typed.TypedSender.{TypedSender};
ghost use Rattle.sctp_sender.specs.Sender.{with_nothing, with_reported, is_open, open_stream, close_stream, with_mode_on, write_refusal};
ghost use Rattle.sctp_sender.specs.Settings.{reset_on, reset_refusal, with_fragment_size, with_low_on};
ghost use Rattle.sctp_sender.specs.declared.sender.Reported.TheVariants.{Drop, Keep};
ghost use Rattle.sctp_sender.specs.declared.sender.refusal.SenderRefusal.TheVariants.{StreamOpen, OutOfMemory};

pub mod abandoning;
pub mod acks;
pub mod deadlines;
pub mod forwards;
pub mod queries;
pub mod sending;
pub mod typed;
pub mod types;

use self::typed::TypedSender;
use crate::code::{
    SCTPR_INVALID, SCTPR_NO_MEMORY, SCTPR_NOTHING, SCTPR_OK, SCTPR_STREAM_UNKNOWN, of_sender,
};
use crate::parts::Parts;
use bytes::Bytes;
use sctp_data::chunk::chunk_payload_data::ReliabilityType;
use sctp_sender::sender::{Reported, Sender};
use std::alloc::Global;
use std::marker::Model;

/// What a handle points at: C never looks into it.
#[repr(C)]
pub struct SenderMemory {
    none: u8,
}

/// The handle of a sender.
#[repr(C)]
pub struct SctpSender {
    at: *mut SenderMemory,
    alloc: Global,
    pub ghost value: { TypedSender } by { sender_coded },
}

impl Model for SctpSender {
    ghost also_owns = { λ h. sender_owns h.alloc h.at h.value };
}

impl SctpSender {
    ghost use Rattle.sctp_c.specs.LentSender.{lends_sender};

    // The sender behind the handle, lent.
    fn get_mut(&mut self) -> &mut TypedSender
        ensures* writes_back { sem 𝓛 (lends_sender self.entry result) }
        ensures value { result.now ≡ self.old.value }
    {
        unsafe { &mut *(self.at as *mut TypedSender) }
    }

    // The parts of the box that the handle came of.
    fn into_parts(self) -> Parts<TypedSender, Global>
        ensures { result.value ≡ self.value }
    {
        let SctpSender { at, alloc } = self;
        Parts {
            ptr: at as *mut TypedSender,
            alloc,
        }
    }
}

/// Where a new sender's handle is written: `value` is what stands behind the handle that was written, none before. Letting it go frees
/// nothing.
#[repr(C)]
#[derive(Drop)]
pub struct SctpNewSender {
    at: *mut SenderMemory,
    alloc: Global,
    pub ghost value: { Option TypedSender } by { new_sender_coded },
}

impl Model for SctpNewSender {
    ghost also_owns = { λ h. new_sender_owns h.alloc h.at h.value };
}

impl SctpNewSender {
    // Writes the handle of what the parts own.
    fn hold(&mut self, parts: Parts<TypedSender, Global>)
        ensures { self.new.value ≡ Some parts.value }
    {
        let Parts { ptr, alloc: _ } = parts;
        self.at = ptr as *mut SenderMemory;
    }

    /// The handle that was written.
    pub fn into_handle(self) -> SctpSender
        requires written { self.value ≢ None }
        ensures { Some result.value ≡ self.value }
    {
        let SctpNewSender { at, alloc } = self;
        SctpSender { at, alloc }
    }
}

/// Makes a sender with no stream, whose first chunk gets `first_tsn`: `out` becomes its handle. A chunk has `fragment_size` bytes of user data
/// at most, a message `max_message_size`. If `keeps_reported` is not 0, it keeps what gap ack blocks report, for `sctpr_sender_take_back` (RFC
/// 4960 6.2.1 D iv). `out` stays with `SCTPR_INVALID`, where the size is not 1 to 65,519, and with `SCTPR_NO_MEMORY`.
#[unsafe(no_mangle)]
pub extern "C" fn sctpr_sender_new(
    alloc: Global,
    first_tsn: u32,
    fragment_size: u32,
    max_message_size: u32,
    keeps_reported: u8,
    out: &mut SctpNewSender,
) -> u32
    ensures codes { (result ≡ 0) ⊎ ((result ≡ 16) ⊎ (result ≡ 18)) }
    ensures ok { result ≡ 0
        → out.new.value ≡ Some (new_sender (with_reported (if keeps_reported == 0 then Drop else Keep)
        (with_nothing first_tsn fragment_size max_message_size))) }
    ensures valid { result ≢ 18 → (0 < fragment_size) × (fragment_size ≤ 65519) }
    ensures invalid { result ≡ 18 → (fragment_size ≡ 0) ⊎ (65519 < fragment_size) }
    ensures refused { result ≢ 0 → out.new ≡ out.old }
{
    if fragment_size == 0 || fragment_size > 65_519 {
        return SCTPR_INVALID;
    }
    let reported = if keeps_reported == 0 {
        Reported::Drop
    } else {
        Reported::Keep
    };
    let sender = Sender::new(alloc, first_tsn, fragment_size, max_message_size, reported);
    match Box::new(alloc, TypedSender::new(alloc, sender)) {
        Ok(held) => {
            out.hold(Parts::of(held));
            SCTPR_OK
        }
        Err(_) => SCTPR_NO_MEMORY,
    }
}

/// Frees a sender and all that it holds. The handle is not used again. It takes no memory.
// It takes the handle, which nothing has then any more: no clause could speak of it. Nor can one say that each block is given back: the
// kit's `deallocate` ensures nothing, and a body that lets the handle go, and frees nothing, is proved too. The tests in C count blocks.
#[unsafe(no_mangle)]
pub extern "C" fn sctpr_sender_free_handle(sender: SctpSender) {
    drop(sender.into_parts().into_box());
}

/// Opens a stream, ordered and reliable. Refuses with `SCTPR_STREAM_OPEN` and `SCTPR_NO_MEMORY`.
#[unsafe(no_mangle)]
pub extern "C" fn sctpr_sender_open(sender: &mut SctpSender, stream: u16) -> u32
    ensures ok { result ≡ 0 → (is_open stream sender.old.value.own ≡ false)
        × (sender.new.value.own ≡ open_stream stream sender.old.value.own) }
    ensures refused { result ≢ 0 → (result ≡ sender_code
        (if is_open stream sender.old.value.own then StreamOpen else OutOfMemory))
        × (sender.new.value ≡ sender.old.value) }
    ensures types { sender.new.value.types ≡ sender.old.value.types }
{
    match sender.get_mut().own.open(stream) {
        Ok(()) => SCTPR_OK,
        Err(e) => of_sender(e),
    }
}

/// Closes a stream, where it is open. What waits and is in flight of it goes on. It takes no memory.
#[unsafe(no_mangle)]
pub extern "C" fn sctpr_sender_close(sender: &mut SctpSender, stream: u16)
    ensures value { sender.new.value.own ≡ close_stream stream sender.old.value.own }
    ensures types { sender.new.value.types ≡ sender.old.value.types }
{
    sender.get_mut().own.close(stream);
}

// The reliability that a number names.
fn reliability_from(number: u32) -> Option<ReliabilityType>
    ensures { result ≡ reliability_named number }
{
    match number {
        0 => Some(ReliabilityType::Reliable),
        1 => Some(ReliabilityType::Rexmit),
        2 => Some(ReliabilityType::Timed),
        _ => None,
    }
}

/// Sets the mode of later writes to a stream; a DCEP message is ordered and reliable in any mode (RFC 8832 6). `unordered` is 0 for
/// ordered. `reliability` is 0: reliable, `value` is a further payload type; 1: `value` counts the sendings of a chunk after the first; 2:
/// it is a lifetime in milliseconds (RFC 3758 4.1, RFC 7496 3.1). Refuses another with `SCTPR_INVALID`, and with `SCTPR_STREAM_UNKNOWN`.
#[unsafe(no_mangle)]
pub extern "C" fn sctpr_sender_set_mode(
    sender: &mut SctpSender,
    stream: u16,
    unordered: u8,
    reliability: u32,
    value: u32,
) -> u32
    ensures codes { (result ≡ 0) ⊎ ((result ≡ 18) ⊎ (result ≡ 23)) }
    ensures ok { result ≡ 0 → Some sender.new.value.own ≡ option_map
        (λ r. with_mode_on stream (not (unordered == 0)) r value sender.old.value.own)
        (reliability_named reliability) }
    ensures invalid { result ≡ 18 → reliability_named reliability ≡ None }
    ensures unknown { result ≡ 23 → is_open stream sender.old.value.own ≡ false }
    ensures refused { result ≢ 0 → sender.new.value ≡ sender.old.value }
    ensures types { sender.new.value.types ≡ sender.old.value.types }
{
    let Some(reliability) = reliability_from(reliability) else {
        return SCTPR_INVALID;
    };
    match sender
        .get_mut()
        .own
        .set_mode(stream, unordered != 0, reliability, value)
    {
        Ok(()) => SCTPR_OK,
        Err(_) => SCTPR_STREAM_UNKNOWN,
    }
}

/// Sets how many bytes of user data a chunk of a later write has at most, on each stream, 1 to 65,519, as where the path MTU changes
/// (RFC 4821). Refuses with `SCTPR_INVALID`. It takes no memory.
#[unsafe(no_mangle)]
pub extern "C" fn sctpr_sender_set_fragment_size(sender: &mut SctpSender, size: u32) -> u32
    ensures codes { (result ≡ 0) ⊎ (result ≡ 18) }
    ensures ok { result ≡ 0 → sender.new.value.own ≡ with_fragment_size size sender.old.value.own }
    ensures invalid { result ≡ 18 → ((size ≡ 0) ⊎ (65519 < size))
        × (sender.new.value ≡ sender.old.value) }
    ensures types { sender.new.value.types ≡ sender.old.value.types }
{
    if size == 0 || size > 65_519 {
        return SCTPR_INVALID;
    }
    sender.get_mut().own.set_fragment_size(size);
    SCTPR_OK
}

/// Sets the buffered amount of a stream, in bytes, down to which a fall is told (`is_low`). Refuses with `SCTPR_STREAM_UNKNOWN`.
#[unsafe(no_mangle)]
pub extern "C" fn sctpr_sender_set_low_threshold(
    sender: &mut SctpSender,
    stream: u16,
    bytes: usize,
) -> u32
    ensures codes { (result ≡ 0) ⊎ (result ≡ 23) }
    ensures ok { result ≡ 0 → sender.new.value.own ≡ with_low_on stream bytes sender.old.value.own }
    ensures unknown { result ≡ 23 → (is_open stream sender.old.value.own ≡ false)
        × (sender.new.value ≡ sender.old.value) }
    ensures types { sender.new.value.types ≡ sender.old.value.types }
{
    match sender
        .get_mut()
        .own
        .set_buffered_amount_low_threshold(stream, bytes)
    {
        Ok(()) => SCTPR_OK,
        Err(_) => SCTPR_STREAM_UNKNOWN,
    }
}

/// Resets a stream (RFC 6525 5.1.2): its next ordered message has the number 0. Refuses with `SCTPR_STREAM_UNKNOWN`, and with
/// `SCTPR_STREAM_BUSY`, where something of it waits or is in flight. It takes no memory.
#[unsafe(no_mangle)]
pub extern "C" fn sctpr_sender_reset(sender: &mut SctpSender, stream: u16) -> u32
    ensures ok { result ≡ 0 → (reset_refusal stream sender.old.value.own ≡ None)
        × (sender.new.value.own ≡ reset_on stream sender.old.value.own) }
    ensures refused { result ≢ 0
        → (option_map sender_code (reset_refusal stream sender.old.value.own) ≡ Some result)
        × (sender.new.value ≡ sender.old.value) }
    ensures types { sender.new.value.types ≡ sender.old.value.types }
{
    match sender.get_mut().own.reset(stream) {
        Ok(()) => SCTPR_OK,
        Err(e) => of_sender(e),
    }
}

/// Takes a copy of a message of one byte or more: its fragments wait, and are sent with the payload type that is given, any number. `number`
/// becomes its number, `fragments` how many chunks it has. `SCTPR_NOTHING`: it has no bytes, and nothing changed (RFC 8831 6.6 sends one
/// byte). Refuses with `SCTPR_STREAM_UNKNOWN`, before it takes memory, `SCTPR_MESSAGE_TOO_LARGE`, `SCTPR_QUEUE_FULL`, `SCTPR_NO_MEMORY`.
#[unsafe(no_mangle)]
pub extern "C" fn sctpr_sender_write(
    alloc: Global,
    sender: &mut SctpSender,
    stream: u16,
    payload_type: u32,
    message: &[u8],
    number: &mut u64,
    fragments: &mut usize,
) -> u32
    ensures ok { result ≡ 0 → (0 < length message.now)
        × Writes stream payload_type message.now number.new fragments.new
        sender.old.value sender.new.value }
    ensures nothing { result ≡ 3 → length message.now ≡ 0 }
    ensures codes { (result ≡ 0) ⊎ ((result ≡ 3) ⊎ (16 ≤ result)) }
    // It takes no memory then.
    ensures unknown { is_open stream sender.old.value.own ≡ false → result ≡ 23 }
    ensures refused { 16 ≤ result → IsSenderCode
        (write_refusal stream (length message.now) sender.old.value.own) result }
    ensures kept { result ≢ 0 → (sender.new.value ≡ sender.old.value)
        × ((number.new ≡ number.old) × (fragments.new ≡ fragments.old)) }
{
    let held = sender.get_mut();
    if held.own.stream(stream).is_none() {
        return SCTPR_STREAM_UNKNOWN;
    }
    let Ok(bytes) = Bytes::copy_from_slice(alloc, message) else {
        return SCTPR_NO_MEMORY;
    };
    match held.write(stream, payload_type, &bytes) {
        Ok((Some(n), count)) => {
            *number = n;
            *fragments = count;
            SCTPR_OK
        }
        Ok((None, _)) => SCTPR_NOTHING,
        Err(e) => of_sender(e),
    }
}
