//! What a peer acknowledges, and what it takes back (RFC 4960 6.2.1).

ghost use Rattle.std.specs.Prelude.{◌≡◌, ◌≢◌, ◌<◌, ◌≤◌, ◌⊎◌, true, is_some, length, map};
ghost use Rattle.sctp_c.specs.Acks.{IsStale, RefusesSack, RefusesTakeBack, Takes, TakesBack, TakesSack, up_to};
ghost use Rattle.sctp_c.specs.Out.{filled};
ghost use Rattle.sctp_c.specs.Refusal.{IsRefusal};
ghost use Rattle.sctp_c.specs.Rows.{acked_row, taken_back_row};
ghost use Rattle.sctp_chunks.specs.Fault.{SackFault};
ghost use Rattle.sctp_data.specs.SelectiveAck.{sack_of};
ghost use Rattle.sctp_datagram.specs.Framing.{ChunkFault};
ghost use Rattle.sctp_sender.specs.Flight.{is_outdated, sack_refusal};
ghost use Rattle.sctp_c.specs.Sending.{sender_code_for};

use super::SctpSender;
use super::queries::moment_of;
use crate::code::{SCTPR_OK, SCTPR_SHORT_BUFFER, SCTPR_STALE, of_error, of_sender};
use sctp_chunks::chunk::chunk_selective_ack::ChunkSelectiveAck;
use sctp_datagram::in_place::read_sack;
use sctp_sender::replay;
use sctp_sender::sender::Sender;
use sctp_sender::sender::flight::Released;
use sctp_sender::sender::flight::kept::TakenBack;
use sctp_util::util::sna32lt;
use std::alloc::Global;

/// A chunk that a SACK acknowledged.
#[repr(C)]
#[derive(Clone, Copy)]
pub struct SctpAcked {
    /// How many bytes of user data it had, 0 where its message was abandoned before.
    pub bytes: usize,
    /// The number of its message.
    pub message: u64,
    /// When it was sent last, in nanoseconds; 0 where `has_sent_at` is 0.
    pub sent_at: u64,
    /// Its TSN.
    pub tsn: u32,
    /// How often it was sent: one that was sent once alone tells the round trip time (RFC 4960 6.3.1 C5).
    pub sent: u32,
    /// Its stream.
    pub stream: u16,
    /// 1 where it was sent; 0 of a chunk that stood for what was never sent.
    pub has_sent_at: u8,
    /// 1 where its message is acknowledged whole now, else 0.
    pub is_message_acked: u8,
    /// 1 where with it, after the rows before it, the buffered amount of its stream fell from above the low threshold to at most it.
    pub is_low: u8,
}

/// A chunk whose acknowledgement a SACK took back.
#[repr(C)]
#[derive(Clone, Copy)]
pub struct SctpTakenBack {
    /// How many bytes of user data it has again.
    pub bytes: usize,
    /// The number of its message.
    pub message: u64,
    /// Its TSN.
    pub tsn: u32,
    /// Its stream.
    pub stream: u16,
}

// What is told of a chunk that was acknowledged.
fn acked_row(one: &Released) -> SctpAcked
    ensures { result ≡ acked_row one.now }
{
    SctpAcked {
        bytes: one.bytes,
        message: one.message,
        sent_at: moment_of(one.since),
        tsn: one.tsn,
        sent: one.nsent,
        stream: one.stream,
        has_sent_at: one.since.is_some() as u8,
        is_message_acked: one.is_message_acked as u8,
        is_low: one.is_low as u8,
    }
}

// A row for each, as far as there is room.
fn fill_acked(rows: &mut [SctpAcked], released: &[Released])
    ensures { rows.new ≡ filled (map acked_row released.now) rows.old }
{
    let count = rows.len().min(released.len());
    for place in 0..count {
        rows[place] = acked_row(&released[place]);
    }
}

// What is told of a chunk that was taken back.
fn taken_back_row(one: &TakenBack) -> SctpTakenBack
    ensures { result ≡ taken_back_row one.now }
{
    SctpTakenBack {
        bytes: one.bytes,
        message: one.message,
        tsn: one.tsn,
        stream: one.stream,
    }
}

// A row for each, as far as there is room.
fn fill_taken_back(rows: &mut [SctpTakenBack], answered: &[TakenBack])
    ensures { rows.new ≡ filled (map taken_back_row answered.now) rows.old }
{
    let count = rows.len().min(answered.len());
    for place in 0..count {
        rows[place] = taken_back_row(&answered[place]);
    }
}

// Whether a SACK is out of date.
fn is_stale(own: &Sender, sack: &ChunkSelectiveAck) -> bool
    ensures { result ≡ is_outdated (sack_of sack.now) own.now.flight }
{
    sna32lt(sack.cumulative_tsn_ack, own.acked_tsn())
}

// Takes a SACK, and fills a row for each chunk that it reports anew.
fn take_sack(
    own: &mut Sender,
    sack: &ChunkSelectiveAck,
    rows: &mut [SctpAcked],
    count: &mut usize,
) -> u32
    ensures codes { (result ≡ 0) ⊎ ((result ≡ 2) ⊎ (16 ≤ result)) }
    ensures ok { result ≡ 0
        → Takes (sack_of sack.now) rows.old rows.new count.new own.old own.new }
    ensures few { result ≡ 0
        → count.new ≤ length own.old.flight.queue.inflight.chunks }
    ensures stale { result ≡ 2 → (is_outdated (sack_of sack.now) own.old.flight ≡ true)
        × (count.new ≡ 0) }
    ensures refused { result ≢ 0 → (own.new ≡ own.old) × (rows.new ≡ rows.old) }
    ensures reason { 16 ≤ result
        → result ≡ sender_code_for (sack_refusal (sack_of sack.now) own.old.flight) }
    ensures kept { 16 ≤ result → (result ≢ 17) × (count.new ≡ count.old) }
{
    if is_stale(own, sack) {
        *count = 0;
        return SCTPR_STALE;
    }
    match replay::acked(own, sack) {
        Ok(released) => {
            fill_acked(rows, &released);
            *count = released.len();
            SCTPR_OK
        }
        Err(e) => of_sender(e),
    }
}

/// Takes a SACK, of which these are the bytes. `SCTPR_OK`: `count` becomes how many chunks it reports anew, and the first so many `rows`
/// tell of them. `SCTPR_STALE`: it is out of date; `count` becomes 0. `SCTPR_SHORT_BUFFER`: there are rows, but fewer than chunks in
/// flight, which `count` becomes. Or a code of bytes that are no SACK, `SCTPR_SACK_BEYOND_SENT`, `SCTPR_SACK_BAD_GAP`, `SCTPR_NO_MEMORY`.
#[unsafe(no_mangle)]
pub extern "C" fn sctpr_sender_acked(
    alloc: Global,
    sender: &mut SctpSender,
    chunk: &[u8],
    rows: &mut [SctpAcked],
    count: &mut usize,
) -> u32
    ensures codes { (result ≡ 0) ⊎ ((result ≡ 2) ⊎ (16 ≤ result)) }
    ensures ok { result ≡ 0 → TakesSack chunk.now rows.old rows.new count.new
        sender.old.value.own sender.new.value.own }
    ensures stale { result ≡ 2 → IsStale chunk.now sender.old.value.own × (count.new ≡ 0) }
    ensures whole { result ≡ 0 → (length rows.old ≡ 0) ⊎ (count.new ≤ length rows.old) }
    ensures short { result ≡ 17 → (0 < length rows.old) × ((length rows.old < count.new)
        × (count.new ≡ length sender.old.value.own.flight.queue.inflight.chunks)) }
    ensures refused { result ≢ 0 → (sender.new.value ≡ sender.old.value) × (rows.new ≡ rows.old) }
    ensures reason { 16 ≤ result → result ≢ 17 → IsRefusal (λ e. ChunkFault SackFault e chunk.now) result
        ⊎ RefusesSack chunk.now result sender.old.value.own }
    ensures kept { 16 ≤ result → result ≢ 17 → count.new ≡ count.old }
    ensures types { sender.new.value.types ≡ sender.old.value.types }
{
    let own = &mut sender.get_mut().own;
    let most = own.outbound().inflight_len();
    if !rows.is_empty() && rows.len() < most {
        *count = most;
        return SCTPR_SHORT_BUFFER;
    }
    match read_sack(alloc, chunk) {
        Ok(sack) => take_sack(own, &sack, rows, count),
        Err(e) => of_error(e),
    }
}

/// Takes the Cumulative TSN Ack of a SHUTDOWN (RFC 4960 3.3.8, 9.2), as `sctpr_sender_acked` takes a SACK with this TSN and no gap ack
/// blocks: rows, `count` and refusals are as there. Nothing is taken back by it, as a SHUTDOWN can't tell of gaps (3.3.8).
#[unsafe(no_mangle)]
pub extern "C" fn sctpr_sender_acked_up_to(
    alloc: Global,
    sender: &mut SctpSender,
    tsn: u32,
    rows: &mut [SctpAcked],
    count: &mut usize,
) -> u32
    ensures codes { (result ≡ 0) ⊎ ((result ≡ 2) ⊎ (16 ≤ result)) }
    ensures ok { result ≡ 0 → Takes (up_to tsn) rows.old rows.new count.new
        sender.old.value.own sender.new.value.own }
    ensures stale { result ≡ 2 → (is_outdated (up_to tsn) sender.old.value.own.flight ≡ true)
        × (count.new ≡ 0) }
    ensures whole { result ≡ 0 → (length rows.old ≡ 0) ⊎ (count.new ≤ length rows.old) }
    ensures short { result ≡ 17 → (0 < length rows.old) × ((length rows.old < count.new)
        × (count.new ≡ length sender.old.value.own.flight.queue.inflight.chunks)) }
    ensures refused { result ≢ 0 → (sender.new.value ≡ sender.old.value) × (rows.new ≡ rows.old) }
    ensures reason { 16 ≤ result → result ≢ 17
        → result ≡ sender_code_for (sack_refusal (up_to tsn) sender.old.value.own.flight) }
    ensures kept { 16 ≤ result → result ≢ 17 → count.new ≡ count.old }
    ensures types { sender.new.value.types ≡ sender.old.value.types }
{
    let own = &mut sender.get_mut().own;
    let most = own.outbound().inflight_len();
    if !rows.is_empty() && rows.len() < most {
        *count = most;
        return SCTPR_SHORT_BUFFER;
    }
    let sack = ChunkSelectiveAck {
        cumulative_tsn_ack: tsn,
        advertised_receiver_window_credit: 0,
        gap_ack_blocks: Vec::new(alloc),
        duplicate_tsn: Vec::new(alloc),
    };
    take_sack(own, &sack, rows, count)
}

/// Takes back what a SACK no longer reports (RFC 4960 6.2.1 D iv), up to its last gap ack block (6.7): such a chunk is outstanding again.
/// Call it before `sctpr_sender_acked` with the same SACK. `count` becomes how many chunks come back, and the first so many `rows` tell of
/// them. Codes are those of `sctpr_sender_acked`; and `SCTPR_QUEUE_FULL`, where all bytes would be more than the greatest `size_t`.
#[unsafe(no_mangle)]
pub extern "C" fn sctpr_sender_take_back(
    alloc: Global,
    sender: &mut SctpSender,
    chunk: &[u8],
    rows: &mut [SctpTakenBack],
    count: &mut usize,
) -> u32
    ensures codes { (result ≡ 0) ⊎ ((result ≡ 2) ⊎ (16 ≤ result)) }
    ensures ok { result ≡ 0 → TakesBack chunk.now rows.old rows.new count.new
        sender.old.value.own sender.new.value.own }
    ensures stale { result ≡ 2 → IsStale chunk.now sender.old.value.own × (count.new ≡ 0) }
    ensures whole { result ≡ 0 → (length rows.old ≡ 0) ⊎ (count.new ≤ length rows.old) }
    ensures short { result ≡ 17 → (0 < length rows.old) × ((length rows.old < count.new)
        × (count.new ≡ length sender.old.value.own.flight.queue.inflight.chunks)) }
    ensures refused { result ≢ 0 → (sender.new.value ≡ sender.old.value) × (rows.new ≡ rows.old) }
    ensures reason { 16 ≤ result → result ≢ 17 → IsRefusal (λ e. ChunkFault SackFault e chunk.now) result
        ⊎ RefusesTakeBack chunk.now result sender.old.value.own }
    ensures kept { 16 ≤ result → result ≢ 17 → count.new ≡ count.old }
    ensures types { sender.new.value.types ≡ sender.old.value.types }
{
    let own = &mut sender.get_mut().own;
    let most = own.outbound().inflight_len();
    if !rows.is_empty() && rows.len() < most {
        *count = most;
        return SCTPR_SHORT_BUFFER;
    }
    let sack = match read_sack(alloc, chunk) {
        Ok(sack) => sack,
        Err(e) => return of_error(e),
    };
    if is_stale(own, &sack) {
        *count = 0;
        return SCTPR_STALE;
    }
    match replay::take_back(own, &sack) {
        Ok(answered) => {
            fill_taken_back(rows, &answered);
            *count = answered.len();
            SCTPR_OK
        }
        Err(e) => of_sender(e),
    }
}
