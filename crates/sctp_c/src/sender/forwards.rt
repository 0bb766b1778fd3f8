//! FORWARD-TSN chunks that are to be sent (RFC 3758 3.2, 3.5).

ghost use Rattle.std.specs.Prelude.{◌≡◌, ◌≢◌, ◌≤◌, ◌⊎◌, None};
ghost use Rattle.sctp_c.specs.Forwards.{IsWanted, WantsForwardTo, WantsForwardTsn, WritesForwardTo, WritesForwardTsn};
ghost use Rattle.sctp_sender.specs.Abandonment.{advanced_ack_point, skip_end};

use super::SctpSender;
use crate::bytes_out::put_padded;
use crate::code::{SCTPR_NOTHING, SCTPR_OK, SCTPR_SHORT_BUFFER, of_error, of_sender};
use crate::fills::put_bytes;
use sctp_chunks::chunk::Chunk;
use sctp_sender::replay;
use sctp_sender::sender::Sender;
use std::alloc::Global;

/// The greatest length of a FORWARD-TSN chunk, in bytes: a multiple of four that two bytes declare.
pub const MAX_FORWARD_TSN_SIZE: usize = 65_532;

/// The greatest number of streams that a FORWARD-TSN chunk names.
pub const MAX_NAMES: usize = 16_381;

// Where none fits the buffer: whether there is one to be sent, and how many bytes are wanted.
fn want_forward_tsn(own: &Sender, written: &mut usize) -> u32
    ensures codes { (result ≡ 3) ⊎ ((result ≡ 16) ⊎ (result ≡ 17)) }
    ensures nothing { result ≡ 3 → skip_end (advanced_ack_point own.now.flight) own.now.flight ≡ None }
    ensures short { result ≡ 17 → IsWanted written.new own.now.flight }
    ensures kept { result ≢ 17 → written.new ≡ written.old }
{
    match replay::forward_tsn_to(own, replay::advanced_ack_point(own)) {
        Ok(Some(whole)) => {
            let names = whole.streams.len().min(MAX_NAMES);
            *written = 8 + 4 * names;
            SCTPR_SHORT_BUFFER
        }
        Ok(None) => SCTPR_NOTHING,
        Err(e) => of_sender(e),
    }
}

/// Writes the FORWARD-TSN that is to be sent to the front of the buffer (RFC 3758 3.5 C3, C4): up to the advanced ack point, or as far as
/// its names fit. `SCTPR_NOTHING`: there is nothing to tell. Refuses with `SCTPR_SHORT_BUFFER`, where nothing of it fits: `written` becomes
/// the length of all of it, or the greatest one that a chunk may have; and with `SCTPR_NO_MEMORY`.
#[unsafe(no_mangle)]
pub extern "C" fn sctpr_sender_forward_tsn(
    alloc: Global,
    sender: &mut SctpSender,
    out: &mut [u8],
    written: &mut usize,
) -> u32
    ensures codes { (result ≡ 0) ⊎ ((result ≡ 3) ⊎ (16 ≤ result)) }
    ensures ok { result ≡ 0 → WritesForwardTsn out.old out.new written.new
        sender.old.value.own.flight }
    ensures nothing { result ≡ 3
        → skip_end (advanced_ack_point sender.old.value.own.flight) sender.old.value.own.flight ≡ None }
    ensures short { result ≡ 17
        → WantsForwardTsn out.old written.new sender.old.value.own.flight }
    ensures reason { 16 ≤ result → (result ≡ 16) ⊎ (result ≡ 17) }
    ensures same { sender.new.value ≡ sender.old.value }
    ensures kept { result ≢ 0 → out.new ≡ out.old }
    ensures unanswered { result ≢ 0 → result ≢ 17 → written.new ≡ written.old }
{
    let own = &mut sender.get_mut().own;
    let room = out.len().min(MAX_FORWARD_TSN_SIZE);
    let chunk = match own.forward_tsn(room) {
        Ok(Some(chunk)) => chunk,
        Ok(None) => return want_forward_tsn(own, written),
        Err(e) => return of_sender(e),
    };
    match chunk.marshal(alloc) {
        Ok(bytes) => {
            put_bytes(out, &bytes);
            *written = bytes.len();
            SCTPR_OK
        }
        Err(e) => of_error(e),
    }
}

/// Writes the FORWARD-TSN up to a TSN, or to the last TSN before it at which a message ends (RFC 3758 3.5 C4). `SCTPR_NOTHING`: no message
/// ends up to there, or the TSN is not past what is acknowledged, or is beyond the advanced ack point. Refuses with `SCTPR_SHORT_BUFFER`:
/// `written` is what is wanted; with `SCTPR_LENGTH_TOO_LARGE` more than 16,381 streams; and with `SCTPR_NO_MEMORY`.
#[unsafe(no_mangle)]
pub extern "C" fn sctpr_sender_forward_tsn_to(
    alloc: Global,
    sender: &mut SctpSender,
    tsn: u32,
    out: &mut [u8],
    written: &mut usize,
) -> u32
    ensures codes { (result ≡ 0) ⊎ ((result ≡ 3) ⊎ (16 ≤ result)) }
    ensures ok { result ≡ 0 → WritesForwardTo tsn out.old out.new written.new
        sender.old.value.own.flight }
    ensures nothing { result ≡ 3 → skip_end tsn sender.old.value.own.flight ≡ None }
    ensures short { result ≡ 17
        → WantsForwardTo tsn out.old written.new sender.old.value.own.flight }
    ensures reason { 16 ≤ result → (result ≡ 16) ⊎ ((result ≡ 17) ⊎ (result ≡ 19)) }
    ensures same { sender.new.value ≡ sender.old.value }
    ensures kept { result ≢ 0 → out.new ≡ out.old }
    ensures unanswered { result ≢ 0 → result ≢ 17 → written.new ≡ written.old }
{
    let chunk = match replay::forward_tsn_to(&sender.get_mut().own, tsn) {
        Ok(Some(chunk)) => chunk,
        Ok(None) => return SCTPR_NOTHING,
        Err(e) => return of_sender(e),
    };
    match chunk.marshal(alloc) {
        Ok(bytes) => put_padded(out, written, &bytes),
        Err(e) => of_error(e),
    }
}
