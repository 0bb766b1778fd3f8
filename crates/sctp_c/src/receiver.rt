//! The receiving half of a link behind a handle (RFC 4960 6.2, 6.6, 6.7; RFC 3758 3.6; RFC 6525 5.2.2).
//!
//! A handle is one pointer. Each call says what it makes of the value behind it, which is a `Receiver`, in that type's own words. A code
//! of 16 or more is a refusal: the receiver is as it was then.

ghost use Rattle.std.specs.Prelude.{◌≡◌, ◌≢◌, ◌<◌, ◌≤◌, ◌⊎◌, false, Option, None, Some, if◌then◌else◌};
ghost use Rattle.std.specs.Borrow.{sem};
ghost use Rattle.sctp_c.specs.OwnedReceiver.{receiver_owns, receiver_coded, new_receiver_owns, new_receiver_coded};
ghost use Rattle.sctp_c.specs.Codes.{receiver_code};
ghost use Rattle.sctp_c.specs.Receiving.{receiver_code_for};
ghost use Rattle.sctp_receiver.specs.Limits.{held_cost, least_window};
ghost use Rattle.sctp_receiver.specs.Receiver.{Reception, at_first, is_open, open_stream, close_stream, window};
ghost use Rattle.sctp_receiver.specs.Resets.{reset_stream, reset_refusal};
ghost use Rattle.sctp_receiver.specs.declared.receiver.refusal.ReceiverRefusal.TheVariants.{StreamOpen, OutOfMemory};

pub mod arrivals;
pub mod messages;
pub mod sacks;

use crate::code::{SCTPR_INVALID, SCTPR_NO_MEMORY, SCTPR_OK, of_receiver};
use crate::parts::Parts;
use sctp_receiver::receiver::Receiver;
use sctp_receiver::receiver::limits::Limits;
use std::alloc::Global;
use std::marker::Model;

/// What a handle points at: C never looks into it.
#[repr(C)]
pub struct ReceiverMemory {
    none: u8,
}

/// The handle of a receiver.
#[repr(C)]
pub struct SctpReceiver {
    at: *mut ReceiverMemory,
    alloc: Global,
    pub ghost value: { Reception } by { receiver_coded },
}

impl Model for SctpReceiver {
    ghost also_owns = { λ h. receiver_owns h.alloc h.at h.value };
}

impl SctpReceiver {
    ghost use Rattle.sctp_c.specs.LentReceiver.{lends_receiver};

    // The receiver behind the handle, lent.
    fn get_mut(&mut self) -> &mut Receiver
        ensures* writes_back { sem 𝓛 (lends_receiver self.entry result) }
        ensures value { result.now ≡ self.old.value }
    {
        unsafe { &mut *(self.at as *mut Receiver) }
    }

    // The parts of the box that the handle came of.
    fn into_parts(self) -> Parts<Receiver, Global>
        ensures { result.value ≡ self.value }
    {
        let SctpReceiver { at, alloc } = self;
        Parts {
            ptr: at as *mut Receiver,
            alloc,
        }
    }
}

/// Where a new receiver's handle is written: `value` is what stands behind the handle that was written, none before. Letting it go frees
/// nothing.
#[repr(C)]
#[derive(Drop)]
pub struct SctpNewReceiver {
    at: *mut ReceiverMemory,
    alloc: Global,
    pub ghost value: { Option Reception } by { new_receiver_coded },
}

impl Model for SctpNewReceiver {
    ghost also_owns = { λ h. new_receiver_owns h.alloc h.at h.value };
}

impl SctpNewReceiver {
    // Writes the handle of what the parts own.
    fn hold(&mut self, parts: Parts<Receiver, Global>)
        ensures { self.new.value ≡ Some parts.value }
    {
        let Parts { ptr, alloc: _ } = parts;
        self.at = ptr as *mut ReceiverMemory;
    }

    /// The handle that was written.
    pub fn into_handle(self) -> SctpReceiver
        requires written { self.value ≢ None }
        ensures { Some result.value ≡ self.value }
    {
        let SctpNewReceiver { at, alloc } = self;
        SctpReceiver { at, alloc }
    }
}

// Puts a receiver on the heap, and its handle into `out`.
fn hand_out(alloc: Global, receiver: Receiver, out: &mut SctpNewReceiver) -> u32
    ensures codes { (result ≡ 0) ⊎ (result ≡ 16) }
    ensures ok { result ≡ 0 → out.new.value ≡ Some receiver }
    ensures refused { result ≢ 0 → out.new ≡ out.old }
{
    match Box::new(alloc, receiver) {
        Ok(held) => {
            out.hold(Parts::of(held));
            SCTPR_OK
        }
        Err(_) => SCTPR_NO_MEMORY,
    }
}

/// Makes a receiver with no stream, to which nothing came; `first_tsn` is expected next. It holds about `window` bytes at most, each chunk
/// counted as 400 more than its user data, and no TSN farther than `reach` past the cumulative one (RFC 4960 6.2). `SCTPR_INVALID`, where
/// nothing could come: the window can't hold a message in the largest chunks, or window or reach is 0. Or `SCTPR_NO_MEMORY`.
#[unsafe(no_mangle)]
pub extern "C" fn sctpr_receiver_new(
    alloc: Global,
    first_tsn: u32,
    max_message_size: u32,
    window: usize,
    reach: u32,
    out: &mut SctpNewReceiver,
) -> u32
    ensures codes { (result ≡ 0) ⊎ ((result ≡ 16) ⊎ (result ≡ 18)) }
    ensures ok { result ≡ 0 → out.new.value ≡ Some (at_first first_tsn max_message_size
        (Some (record { window = window; reach = reach }))) }
    ensures holds { result ≢ 18
        → (0 < reach) × ((0 < window) × (least_window max_message_size 65519 ≤ window)) }
    ensures invalid { result ≡ 18
        → (reach ≡ 0) ⊎ ((window ≡ 0) ⊎ (window < least_window max_message_size 65519)) }
    ensures refused { result ≢ 0 → out.new ≡ out.old }
{
    if reach == 0 || window == 0 || window < Limits::least_window(max_message_size, 65_519) {
        return SCTPR_INVALID;
    }
    let limits = Some(Limits { window, reach });
    let receiver = Receiver::new(alloc, first_tsn, max_message_size, limits);
    hand_out(alloc, receiver, out)
}

/// As `sctpr_receiver_new`, with no limit to what is held: for a peer that is trusted, or a replay.
#[unsafe(no_mangle)]
pub extern "C" fn sctpr_receiver_new_unlimited(
    alloc: Global,
    first_tsn: u32,
    max_message_size: u32,
    out: &mut SctpNewReceiver,
) -> u32
    ensures codes { (result ≡ 0) ⊎ (result ≡ 16) }
    ensures ok { result ≡ 0 → out.new.value ≡ Some (at_first first_tsn max_message_size None) }
    ensures refused { result ≢ 0 → out.new ≡ out.old }
{
    let receiver = Receiver::new(alloc, first_tsn, max_message_size, None);
    hand_out(alloc, receiver, out)
}

/// Frees a receiver and all that it holds. The handle is not used again. It takes no memory.
// No clause can say more, as at `sctpr_sender_free_handle`.
#[unsafe(no_mangle)]
pub extern "C" fn sctpr_receiver_free_handle(receiver: SctpReceiver) {
    drop(receiver.into_parts().into_box());
}

/// Opens a stream. Refuses with `SCTPR_STREAM_OPEN` and `SCTPR_NO_MEMORY`.
#[unsafe(no_mangle)]
pub extern "C" fn sctpr_receiver_open(receiver: &mut SctpReceiver, stream: u16) -> u32
    ensures ok { result ≡ 0 → (is_open stream receiver.old.value ≡ false)
        × (receiver.new.value ≡ open_stream stream receiver.old.value) }
    ensures refused { result ≢ 0 → (result ≡ receiver_code
        (if is_open stream receiver.old.value then StreamOpen else OutOfMemory))
        × (receiver.new.value ≡ receiver.old.value) }
{
    match receiver.get_mut().open(stream) {
        Ok(()) => SCTPR_OK,
        Err(e) => of_receiver(e),
    }
}

/// Closes a stream, where it is open: what came on it and was not read is dropped; the TSNs stay. It takes no memory.
#[unsafe(no_mangle)]
pub extern "C" fn sctpr_receiver_close(receiver: &mut SctpReceiver, stream: u16)
    ensures { receiver.new.value ≡ close_stream stream receiver.old.value }
{
    receiver.get_mut().close(stream);
}

/// The peer resets a stream that it sends on: `last_tsn` is the Sender's Last Assigned TSN of its Outgoing SSN Reset Request (RFC 6525
/// 4.1, 5.2.2). The stream sequence number 0 is expected next. Refuses with `SCTPR_STREAM_UNKNOWN`, with `SCTPR_RESET_IN_PROGRESS`, where
/// the cumulative TSN is before `last_tsn`, and with `SCTPR_NO_MEMORY`.
#[unsafe(no_mangle)]
pub extern "C" fn sctpr_receiver_reset(
    receiver: &mut SctpReceiver,
    stream: u16,
    last_tsn: u32,
) -> u32
    ensures ok { result ≡ 0 → receiver.new.value
        ≡ reset_stream stream last_tsn receiver.old.value }
    ensures refused { result ≢ 0
        → (result ≡ receiver_code_for (reset_refusal stream last_tsn receiver.old.value))
        × (receiver.new.value ≡ receiver.old.value) }
{
    match receiver.get_mut().reset(stream, last_tsn) {
        Ok(()) => SCTPR_OK,
        Err(e) => of_receiver(e),
    }
}

/// The TSN up to which all came, or was skipped.
#[unsafe(no_mangle)]
pub extern "C" fn sctpr_receiver_cumulative_tsn(receiver: &mut SctpReceiver) -> u32
    ensures value { result ≡ receiver.old.value.cumulative_tsn }
    ensures kept { receiver.new.value ≡ receiver.old.value }
{
    receiver.get_mut().cumulative_tsn()
}

/// The window to advertise, in bytes (RFC 4960 3.3.4), which a SACK has as its credit; 2^32 - 1 without limits.
#[unsafe(no_mangle)]
pub extern "C" fn sctpr_receiver_window(receiver: &mut SctpReceiver) -> u32
    ensures value { result ≡ window receiver.old.value }
    ensures kept { receiver.new.value ≡ receiver.old.value }
{
    receiver.get_mut().window()
}

/// What is held and was not read: its bytes, and 400 for each chunk; the greatest `size_t` where it is more.
#[unsafe(no_mangle)]
pub extern "C" fn sctpr_receiver_held_bytes(receiver: &mut SctpReceiver) -> usize
    ensures value { result ≡ held_cost receiver.old.value.streams }
    ensures kept { receiver.new.value ≡ receiver.old.value }
{
    receiver.get_mut().held_bytes()
}
