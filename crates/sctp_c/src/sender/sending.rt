//! Chunks that go out (RFC 4960 6.1, 6.3.3, 7.2.4).

ghost use Rattle.std.specs.Prelude.{◌≡◌, ◌≢◌, ◌<◌, ◌≤◌, ◌⊎◌, ◌+◌, false, None, Some, find, length, option_map, if◌then◌else◌, IfOk, IsOkUnless};
ghost use Rattle.sctp_util.specs.declared.error.Error.TheVariants.{ErrLengthTooLarge, ErrOutOfMemory};
ghost use Rattle.sctp_c.specs.Out.{padded};
ghost use Rattle.sctp_c.specs.PayloadTypes.{as_sent};
ghost use Rattle.sctp_c.specs.Sending.{IsSenderCode, Sends, Resends, after_send, sent_with, with_tsn};
ghost use Rattle.sctp_outbound.specs.outbound_queue.OutboundQueue.{all_started};
ghost use Rattle.sctp_outbound.specs.pending_queue.PendingQueue.{next_pending};
ghost use Rattle.sctp_sender.specs.Flight.{can_resend, with_queue};
ghost use Rattle.sctp_sender.specs.Numbers.{send_refusal};
ghost use Rattle.sctp_sender.specs.Resending.{after_misses, all_marked, count_before, thirds};
ghost use Rattle.sctp_sender.specs.Sender.{with_flight};
ghost use Rattle.sctp_serial.specs.DataChunks.{has_tsn};

use super::SctpSender;
use crate::code::{
    SCTPR_NOT_IN_FLIGHT, SCTPR_NOTHING, SCTPR_OK, SCTPR_SHORT_BUFFER, of_error, of_sender,
};
use crate::data_out::{data_size, put_data, type_sent};
use sctp_data::chunk::chunk_payload_data::ChunkPayloadData;
use sctp_sender::replay;
use sctp_sender::sender::Sender;
use sctp_util::error::{Error, Result};

/// Starts the lifetimes of the messages written since the last time. `sctpr_sender_send_next` does so too. It takes no memory.
#[unsafe(no_mangle)]
pub extern "C" fn sctpr_sender_start(sender: &mut SctpSender, now: u64)
    ensures value { sender.new.value.own ≡ with_flight (with_queue sender.old.value.own.flight
        (all_started now sender.old.value.own.flight.queue)) sender.old.value.own }
    ensures types { sender.new.value.types ≡ sender.old.value.types }
{
    replay::start(&mut sender.get_mut().own, now);
}

/// Marks each chunk in flight that is neither acknowledged nor abandoned for retransmission, as where the timer T3-rtx runs out (RFC
/// 4960 6.3.3 E3). It takes no memory.
#[unsafe(no_mangle)]
pub extern "C" fn sctpr_sender_retransmit_all(sender: &mut SctpSender)
    ensures value { sender.new.value.own
        ≡ with_flight (all_marked sender.old.value.own.flight) sender.old.value.own }
    ensures types { sender.new.value.types ≡ sender.old.value.types }
{
    sender.get_mut().own.retransmit_all();
}

/// Counts each chunk in flight whose TSN is before this one, and that is neither acknowledged nor abandoned, as missing once more, and
/// marks for retransmission what is missing for the third time (RFC 4960 7.2.4). Answers how many are marked now. It takes no memory.
#[unsafe(no_mangle)]
pub extern "C" fn sctpr_sender_add_miss_indications(sender: &mut SctpSender, before: u32) -> usize
    ensures missed { sender.new.value.own ≡ with_flight (after_misses
        (count_before before sender.old.value.own.flight) sender.old.value.own.flight) sender.old.value.own }
    ensures thirds { result ≡ length (thirds
        (count_before before sender.old.value.own.flight) sender.old.value.own.flight) }
    ensures types { sender.new.value.types ≡ sender.old.value.types }
{
    sender.get_mut().own.add_miss_indications(before)
}

// The fragment that is next, as it is written once it has the next TSN; None where nothing waits.
fn next_chunk(sender: &Sender) -> Result<Option<ChunkPayloadData>>
    ensures ok { IfOk result (λ r. r ≡ option_map (with_tsn sender.now.flight.next_tsn)
        (next_pending sender.now.flight.queue.pending)) }
    ensures memory { IsOkUnless result ErrOutOfMemory }
{
    let Some(waiting) = sender.outbound().peek_pending() else {
        return Ok(None);
    };
    let mut chunk = waiting.try_clone()?;
    chunk.tsn = sender.next_tsn();
    Ok(Some(chunk))
}

/// Puts the fragment that is next in flight under the next TSN, which `tsn` becomes, and writes its DATA chunk with its padding to the
/// front of the buffer; lifetimes start. `written` becomes how many bytes that are. `SCTPR_NOTHING`: nothing waits. Refuses with
/// `SCTPR_SHORT_BUFFER`: `written` is what is wanted; with `SCTPR_TSNS_USED_UP`, `SCTPR_SSNS_USED_UP` and `SCTPR_NO_MEMORY`.
#[unsafe(no_mangle)]
#[tactic(auto, using(crate::proofs::DataSent::sends))]
pub extern "C" fn sctpr_sender_send_next(
    sender: &mut SctpSender,
    now: u64,
    out: &mut [u8],
    written: &mut usize,
    tsn: &mut u32,
) -> u32
    ensures codes { (result ≡ 0) ⊎ ((result ≡ 3) ⊎ (16 ≤ result)) }
    ensures ok { result ≡ 0 → Sends now out.old out.new written.new tsn.new
        sender.old.value sender.new.value }
    ensures nothing { result ≡ 3 → (next_pending sender.old.value.own.flight.queue.pending ≡ None)
        × (sender.new.value.own ≡ after_send now sender.old.value.own) }
    ensures refused { 16 ≤ result → sender.new.value ≡ sender.old.value }
    ensures reason { 16 ≤ result → result ≢ 17
        → (result ≡ 19) ⊎ IsSenderCode (send_refusal sender.old.value.own.flight) result }
    ensures short { result ≡ 17 → (length out.old < written.new) × (Some written.new ≡ option_map
        (λ c. length (padded (sent_with sender.old.value.types
        sender.old.value.own.flight.next_tsn c)))
        (next_pending sender.old.value.own.flight.queue.pending)) }
    ensures kept { result ≢ 0 → (out.new ≡ out.old) × (tsn.new ≡ tsn.old) }
    ensures types { sender.new.value.types ≡ sender.old.value.types }
{
    let held = sender.get_mut();
    let own = &mut held.own;
    let chunk = match next_chunk(own) {
        Ok(Some(chunk)) => chunk,
        Ok(None) => {
            let _ = replay::send_next_tsn(own, now);
            return SCTPR_NOTHING;
        }
        Err(e) => return of_error(e),
    };
    let Some(size) = data_size(&chunk) else {
        return of_error(Error::ErrLengthTooLarge);
    };
    if out.len() < size {
        *written = size;
        return SCTPR_SHORT_BUFFER;
    }
    match replay::send_next_tsn(own, now) {
        Ok(Some(sent)) => {
            *tsn = sent;
            *written = size;
            put_data(out, &chunk, type_sent(&chunk, &held.types));
            SCTPR_OK
        }
        Ok(None) => SCTPR_NOTHING,
        Err(e) => of_sender(e),
    }
}

/// Sends the chunk in flight with a TSN again: writes it with its padding to the front of the buffer, counts that, notes `now`, and takes
/// its mark. `written` becomes how many bytes that are. Refuses with `SCTPR_SHORT_BUFFER`: `written` is what is wanted; with
/// `SCTPR_NOT_IN_FLIGHT`, where none is, or it is acknowledged or abandoned; and with `SCTPR_NO_MEMORY`.
#[unsafe(no_mangle)]
pub extern "C" fn sctpr_sender_resend(
    sender: &mut SctpSender,
    tsn: u32,
    now: u64,
    out: &mut [u8],
    written: &mut usize,
) -> u32
    ensures codes { (result ≡ 0) ⊎ (16 ≤ result) }
    ensures ok { result ≡ 0 → Resends tsn now out.old out.new written.new
        sender.old.value sender.new.value }
    ensures missing { result ≡ 27 → can_resend tsn sender.old.value.own.flight ≡ false }
    ensures reason { 16 ≤ result → (result ≡ 16)
        ⊎ ((result ≡ 17) ⊎ ((result ≡ 19) ⊎ (result ≡ 27))) }
    ensures short { result ≡ 17 → (length out.old < written.new) × (Some written.new ≡ option_map
        (λ c. length (padded (as_sent sender.old.value.types c)))
        (find (has_tsn tsn) sender.old.value.own.flight.queue.inflight.chunks)) }
    ensures kept { result ≢ 0 → (sender.new.value ≡ sender.old.value) × (out.new ≡ out.old) }
    ensures types { sender.new.value.types ≡ sender.old.value.types }
{
    let held = sender.get_mut();
    let own = &mut held.own;
    let Some(sent) = own.outbound().get(tsn) else {
        return SCTPR_NOT_IN_FLIGHT;
    };
    let chunk = match sent.try_clone() {
        Ok(chunk) => chunk,
        Err(e) => return of_error(e),
    };
    let Some(size) = data_size(&chunk) else {
        return of_error(Error::ErrLengthTooLarge);
    };
    if out.len() < size {
        *written = size;
        return SCTPR_SHORT_BUFFER;
    }
    match own.resend(tsn, now) {
        Ok(_) => {
            *written = size;
            put_data(out, &chunk, type_sent(&chunk, &held.types));
            SCTPR_OK
        }
        Err(e) => of_sender(e),
    }
}
