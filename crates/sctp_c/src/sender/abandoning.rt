//! Messages that are given no more time or no more sendings (RFC 3758 3.5, 4.1; RFC 7496 3.1).

ghost use Rattle.std.specs.Prelude.{◌≡◌, ◌≢◌, ◌<◌, ◌≤◌, ◌⊎◌, None, [], length, map, if◌then◌else◌};
ghost use Rattle.sctp_c.specs.Abandoning.{Abandons, AbandonsEach, Expires, ExpiresTail, leaving_refusal};
ghost use Rattle.sctp_c.specs.Codes.{sender_code};
ghost use Rattle.sctp_c.specs.Out.{filled};
ghost use Rattle.sctp_c.specs.Rows.{abandoned_row};
ghost use Rattle.sctp_c.specs.Sending.{IsSenderCode, sender_code_for};
ghost use Rattle.sctp_outbound.specs.outbound_queue.OutboundQueue.{expiring, expiring_tail, late_tsns};
ghost use Rattle.sctp_sender.specs.Abandonment.{abandon_refusal};
ghost use Rattle.sctp_sender.specs.Flight.{may_send};
ghost use Rattle.sctp_sender.specs.Late.{after_late, after_worn, late_order, worn_order};
ghost use Rattle.sctp_sender.specs.Resending.{worn_tsns};
ghost use Rattle.sctp_sender.specs.declared.sender.refusal.SenderRefusal.TheVariants.{OutOfMemory, TsnsUsedUp};

use super::SctpSender;
use crate::code::{SCTPR_NOTHING, SCTPR_OK, SCTPR_SHORT_BUFFER, of_sender};
use sctp_sender::replay;
use sctp_sender::sender::flight::late::AbandonedMessage;

/// A message that was abandoned.
#[repr(C)]
#[derive(Clone, Copy)]
pub struct SctpAbandoned {
    /// How many of its bytes left.
    pub bytes: usize,
    /// Its number.
    pub number: u64,
    /// Its stream.
    pub stream: u16,
    /// 1 where with it, after the rows before it, the buffered amount of its stream fell from above the low threshold to at most it.
    pub is_low: u8,
}

/// A message that expired before any of it was sent.
#[repr(C)]
#[derive(Clone, Copy)]
pub struct SctpExpired {
    /// How many bytes it had.
    pub bytes: usize,
    /// Its stream.
    pub stream: u16,
    /// 1 where with it the buffered amount of its stream fell from above the low threshold to at most it.
    pub is_low: u8,
}

// What is told of a message that was abandoned.
fn abandoned_row(one: &AbandonedMessage) -> SctpAbandoned
    ensures { result ≡ abandoned_row one.now }
{
    SctpAbandoned {
        bytes: one.bytes,
        number: one.number,
        stream: one.stream,
        is_low: one.is_low as u8,
    }
}

// A row for each, as far as there is room.
fn fill_abandoned(rows: &mut [SctpAbandoned], answered: &[AbandonedMessage])
    ensures { rows.new ≡ filled (map abandoned_row answered.now) rows.old }
{
    let count = rows.len().min(answered.len());
    for place in 0..count {
        rows[place] = abandoned_row(&answered[place]);
    }
}

/// Abandons the message of a chunk in flight (RFC 3758 3.5): `row` tells of it, with no bytes where it was abandoned before. Refuses with
/// `SCTPR_NOT_IN_FLIGHT`; and, only where some of the message still waits, with `SCTPR_TSNS_USED_UP` and `SCTPR_NO_MEMORY`. `row` stays
/// then.
#[unsafe(no_mangle)]
pub extern "C" fn sctpr_sender_abandon(
    sender: &mut SctpSender,
    tsn: u32,
    row: &mut SctpAbandoned,
) -> u32
    ensures codes { (result ≡ 0) ⊎ (16 ≤ result) }
    ensures ok { result ≡ 0 → Abandons tsn row.new sender.old.value.own sender.new.value.own }
    ensures refused { 16 ≤ result
        → (result ≡ sender_code_for (abandon_refusal tsn sender.old.value.own.flight))
        × ((sender.new.value ≡ sender.old.value) × (row.new ≡ row.old)) }
    ensures types { sender.new.value.types ≡ sender.old.value.types }
{
    match sender.get_mut().own.abandon(tsn) {
        Ok(gone) => {
            *row = abandoned_row(&gone);
            SCTPR_OK
        }
        Err(e) => of_sender(e),
    }
}

/// Removes the message in front, where it is past its deadline and wholly unsent: `row` tells of it. `SCTPR_NOTHING`: there is no such
/// message, and nothing changed. It takes no memory. Call it until it says so.
#[unsafe(no_mangle)]
pub extern "C" fn sctpr_sender_expire(
    sender: &mut SctpSender,
    now: u64,
    row: &mut SctpExpired,
) -> u32
    ensures codes { (result ≡ 0) ⊎ (result ≡ 3) }
    ensures ok { result ≡ 0 → Expires now row.new sender.old.value.own sender.new.value.own }
    ensures nothing { result ≡ 3 → (expiring now sender.old.value.own.flight.queue ≡ None)
        × ((sender.new.value ≡ sender.old.value) × (row.new ≡ row.old)) }
    ensures types { sender.new.value.types ≡ sender.old.value.types }
{
    match replay::expire(&mut sender.get_mut().own, now) {
        Some(gone) => {
            *row = SctpExpired {
                bytes: gone.bytes,
                stream: gone.stream,
                is_low: gone.is_low as u8,
            };
            SCTPR_OK
        }
        None => SCTPR_NOTHING,
    }
}

/// Abandons the rest of the partially sent message in front, where it is past its deadline: `row` tells of it. `SCTPR_NOTHING`: there is
/// no such message, and nothing changed. Refuses, only where there is one, with `SCTPR_TSNS_USED_UP` and `SCTPR_NO_MEMORY`. `row` stays,
/// but with `SCTPR_OK`.
#[unsafe(no_mangle)]
pub extern "C" fn sctpr_sender_expire_tail(
    sender: &mut SctpSender,
    now: u64,
    row: &mut SctpAbandoned,
) -> u32
    ensures codes { (result ≡ 0) ⊎ ((result ≡ 3) ⊎ (16 ≤ result)) }
    ensures ok { result ≡ 0 → ExpiresTail now row.new sender.old.value.own sender.new.value.own }
    ensures nothing { result ≡ 3 → expiring_tail now sender.old.value.own.flight.queue ≡ None }
    ensures refused { 16 ≤ result → result ≡ sender_code
        (if may_send sender.old.value.own.flight then OutOfMemory else TsnsUsedUp) }
    ensures kept { result ≢ 0 → (sender.new.value ≡ sender.old.value) × (row.new ≡ row.old) }
    ensures types { sender.new.value.types ≡ sender.old.value.types }
{
    match replay::expire_tail(&mut sender.get_mut().own, now) {
        Ok(Some(gone)) => {
            *row = abandoned_row(&gone);
            SCTPR_OK
        }
        Ok(None) => SCTPR_NOTHING,
        Err(e) => of_sender(e),
    }
}

/// Abandons each message in flight that is past its deadline (RFC 3758 3.5, 4.1): `count` becomes how many, and the first so many `rows`
/// tell of them. `SCTPR_SHORT_BUFFER`, where there are rows, but fewer than chunks in flight: `count` becomes how many are wanted.
/// `SCTPR_TSNS_USED_UP`, only where 2^31 - 1 are in flight and some of such a message waits; `SCTPR_NO_MEMORY`, only where one is late.
#[unsafe(no_mangle)]
pub extern "C" fn sctpr_sender_expire_late(
    sender: &mut SctpSender,
    now: u64,
    rows: &mut [SctpAbandoned],
    count: &mut usize,
) -> u32
    ensures codes { (result ≡ 0) ⊎ (16 ≤ result) }
    ensures ok { result ≡ 0 → (sender.new.value.own ≡ after_late now sender.old.value.own)
        × AbandonsEach (late_order now sender.old.value.own.flight) rows.old rows.new count.new
        sender.old.value.own }
    ensures whole { result ≡ 0 → (length rows.old ≡ 0) ⊎ (count.new ≤ length rows.old) }
    ensures short { result ≡ 17 → (0 < length rows.old) × ((length rows.old < count.new)
        × (count.new ≡ length sender.old.value.own.flight.queue.inflight.chunks)) }
    ensures must { 0 < length rows.old
        → length rows.old < length sender.old.value.own.flight.queue.inflight.chunks
        → result ≡ 17 }
    ensures accepted { result ≡ 0
        → leaving_refusal (late_tsns now sender.old.value.own.flight.queue) sender.old.value.own.flight ≡ None }
    ensures codes_refused { 16 ≤ result → result ≢ 17
        → IsSenderCode (leaving_refusal (late_tsns now sender.old.value.own.flight.queue)
        sender.old.value.own.flight) result }
    ensures idle { late_tsns now sender.old.value.own.flight.queue ≡ [] → result ≢ 17 → result ≡ 0 }
    ensures refused { result ≢ 0 → (sender.new.value ≡ sender.old.value) × (rows.new ≡ rows.old) }
    ensures kept { 16 ≤ result → result ≢ 17 → count.new ≡ count.old }
    ensures types { sender.new.value.types ≡ sender.old.value.types }
{
    let own = &mut sender.get_mut().own;
    let in_flight = own.outbound().inflight_len();
    if !rows.is_empty() && rows.len() < in_flight {
        *count = in_flight;
        return SCTPR_SHORT_BUFFER;
    }
    match replay::expire_late(own, now) {
        Ok(gone) => {
            fill_abandoned(rows, &gone);
            *count = gone.len();
            SCTPR_OK
        }
        Err(e) => of_sender(e),
    }
}

/// Abandons each message in flight that was sent again as often as it may be (RFC 7496 3.1): a chunk of it is marked for retransmission,
/// and was sent more often than its limit, without the first time; never a DCEP message. Call it once chunks are marked. Rows, count and
/// refusals are those of `sctpr_sender_expire_late`.
#[unsafe(no_mangle)]
pub extern "C" fn sctpr_sender_expire_rexmit(
    sender: &mut SctpSender,
    rows: &mut [SctpAbandoned],
    count: &mut usize,
) -> u32
    ensures codes { (result ≡ 0) ⊎ (16 ≤ result) }
    ensures ok { result ≡ 0 → (sender.new.value.own ≡ after_worn sender.old.value.own)
        × AbandonsEach (worn_order sender.old.value.own.flight) rows.old rows.new count.new
        sender.old.value.own }
    ensures whole { result ≡ 0 → (length rows.old ≡ 0) ⊎ (count.new ≤ length rows.old) }
    ensures short { result ≡ 17 → (0 < length rows.old) × ((length rows.old < count.new)
        × (count.new ≡ length sender.old.value.own.flight.queue.inflight.chunks)) }
    ensures must { 0 < length rows.old
        → length rows.old < length sender.old.value.own.flight.queue.inflight.chunks
        → result ≡ 17 }
    ensures accepted { result ≡ 0
        → leaving_refusal (worn_tsns sender.old.value.own.flight) sender.old.value.own.flight ≡ None }
    ensures codes_refused { 16 ≤ result → result ≢ 17
        → IsSenderCode (leaving_refusal (worn_tsns sender.old.value.own.flight)
        sender.old.value.own.flight) result }
    ensures idle { worn_tsns sender.old.value.own.flight ≡ [] → result ≢ 17 → result ≡ 0 }
    ensures refused { result ≢ 0 → (sender.new.value ≡ sender.old.value) × (rows.new ≡ rows.old) }
    ensures kept { 16 ≤ result → result ≢ 17 → count.new ≡ count.old }
    ensures types { sender.new.value.types ≡ sender.old.value.types }
{
    let own = &mut sender.get_mut().own;
    let in_flight = own.outbound().inflight_len();
    if !rows.is_empty() && rows.len() < in_flight {
        *count = in_flight;
        return SCTPR_SHORT_BUFFER;
    }
    match replay::expire_rexmit(own) {
        Ok(gone) => {
            fill_abandoned(rows, &gone);
            *count = gone.len();
            SCTPR_OK
        }
        Err(e) => of_sender(e),
    }
}
