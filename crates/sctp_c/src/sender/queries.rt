//! What a sender has, without a change to it.

ghost use Rattle.std.specs.Prelude.{◌≡◌, ◌⊎◌, None, Some, find, length, option_map, slice_get};
ghost use Rattle.sctp_c.specs.Flags.{flag, moment};
ghost use Rattle.sctp_c.specs.Rows.{in_flight_row, outstanding_row};
ghost use Rattle.sctp_outbound.specs.Marks.{is_outstanding};
ghost use Rattle.sctp_outbound.specs.Outstanding.{outstanding_of};
ghost use Rattle.sctp_outbound.specs.pending_queue.PendingQueue.{chunk_count};
ghost use Rattle.sctp_sender.specs.Abandonment.{advanced_ack_point};
ghost use Rattle.sctp_sender.specs.Resending.{is_to_resend};
ghost use Rattle.sctp_sender.specs.Sender.{stream_of};
ghost use Rattle.sctp_sender.specs.Settings.{is_drained};
ghost use Rattle.sctp_serial.specs.DataChunks.{bytes_of, has_tsn};

use super::SctpSender;
use super::types::Types;
use crate::code::{SCTPR_NOT_IN_FLIGHT, SCTPR_NOTHING, SCTPR_OK, SCTPR_STREAM_UNKNOWN};
use crate::data_out::type_sent;
use sctp_data::chunk::chunk_payload_data::ChunkPayloadData;
use sctp_sender::replay;

/// A chunk in flight.
#[repr(C)]
#[derive(Clone, Copy)]
pub struct SctpInFlight {
    /// How many bytes of user data it has: 0 where it is acknowledged or abandoned.
    pub size: usize,
    /// The number of its message.
    pub message: u64,
    /// When it was sent last, in nanoseconds; 0 of a chunk that stands for what was never sent.
    pub sent_at: u64,
    /// Its TSN.
    pub tsn: u32,
    /// How often it was sent.
    pub sent: u32,
    /// The payload type that it is sent with.
    pub payload_type: u32,
    /// Its stream.
    pub stream: u16,
    /// Its stream sequence number.
    pub sequence: u16,
    /// 1 where its message is unordered, else 0.
    pub is_unordered: u8,
    /// 1 where it is acknowledged, else 0.
    pub is_acked: u8,
    /// 1 where its message is abandoned, else 0.
    pub is_abandoned: u8,
    /// 1 where it is marked for retransmission, else 0.
    pub is_marked: u8,
}

/// What is outstanding: in flight, and neither acknowledged nor abandoned.
#[repr(C)]
#[derive(Clone, Copy)]
pub struct SctpOutstanding {
    /// How many bytes of user data the chunks have that are not marked for retransmission: the flight size.
    pub bytes: usize,
    /// How many chunks are not marked.
    pub chunks: usize,
    /// How many chunks are marked.
    pub marked: usize,
}

// A moment, 0 where there is none.
pub(super) fn moment_of(since: Option<u64>) -> u64
    ensures { result ≡ moment since }
{
    match since {
        Some(at) => at,
        None => 0,
    }
}

// What is told of a chunk in flight.
fn row_of(chunk: &ChunkPayloadData, types: &Types) -> SctpInFlight
    ensures { result ≡ in_flight_row types.now chunk.now }
{
    SctpInFlight {
        size: chunk.user_data.len(),
        message: chunk.message_id,
        sent_at: moment_of(chunk.since),
        tsn: chunk.tsn,
        sent: chunk.nsent,
        payload_type: type_sent(chunk, types),
        stream: chunk.stream_identifier,
        sequence: chunk.stream_sequence_number,
        is_unordered: chunk.unordered as u8,
        is_acked: chunk.acked as u8,
        is_abandoned: chunk.abandoned as u8,
        is_marked: chunk.retransmit as u8,
    }
}

/// The chunk in flight with a TSN: `row` tells of it. Refuses with `SCTPR_NOT_IN_FLIGHT`, where none is, and `row` stays.
#[unsafe(no_mangle)]
pub extern "C" fn sctpr_sender_in_flight(
    sender: &mut SctpSender,
    tsn: u32,
    row: &mut SctpInFlight,
) -> u32
    ensures codes { (result ≡ 0) ⊎ (result ≡ 27) }
    ensures ok { result ≡ 0 → Some row.new ≡ option_map (in_flight_row sender.old.value.types)
        (find (has_tsn tsn) sender.old.value.own.flight.queue.inflight.chunks) }
    ensures missing { result ≡ 27 → (row.new ≡ row.old)
        × (find (has_tsn tsn) sender.old.value.own.flight.queue.inflight.chunks ≡ None) }
    ensures same { sender.new.value ≡ sender.old.value }
{
    let held = sender.get_mut();
    match held.own.outbound().get(tsn) {
        Some(chunk) => {
            *row = row_of(chunk, &held.types);
            SCTPR_OK
        }
        None => SCTPR_NOT_IN_FLIGHT,
    }
}

/// The chunk in flight at a place: the first has the place 0, and the TSN past `sctpr_sender_acked_tsn`. `row` tells of it.
/// `SCTPR_NOTHING`: there are no more, and `row` stays.
#[unsafe(no_mangle)]
pub extern "C" fn sctpr_sender_in_flight_at(
    sender: &mut SctpSender,
    place: usize,
    row: &mut SctpInFlight,
) -> u32
    ensures codes { (result ≡ 0) ⊎ (result ≡ 3) }
    ensures ok { result ≡ 0 → Some row.new ≡ option_map (in_flight_row sender.old.value.types)
        (slice_get sender.old.value.own.flight.queue.inflight.chunks place) }
    ensures none { result ≡ 3 → (row.new ≡ row.old)
        × (slice_get sender.old.value.own.flight.queue.inflight.chunks place ≡ None) }
    ensures same { sender.new.value ≡ sender.old.value }
{
    let held = sender.get_mut();
    match replay::in_flight_at(&held.own, place) {
        Some(chunk) => {
            *row = row_of(chunk, &held.types);
            SCTPR_OK
        }
        None => SCTPR_NOTHING,
    }
}

/// The first chunk in flight that is marked for retransmission, and neither acknowledged nor abandoned: `row` tells of it;
/// `sctpr_sender_resend` sends it again, and takes the mark. `SCTPR_NOTHING`: there is none, and `row` stays.
#[unsafe(no_mangle)]
pub extern "C" fn sctpr_sender_next_to_retransmit(
    sender: &mut SctpSender,
    row: &mut SctpInFlight,
) -> u32
    ensures codes { (result ≡ 0) ⊎ (result ≡ 3) }
    ensures ok { result ≡ 0 → Some row.new ≡ option_map (in_flight_row sender.old.value.types)
        (find is_to_resend sender.old.value.own.flight.queue.inflight.chunks) }
    ensures none { result ≡ 3 → (row.new ≡ row.old)
        × (find is_to_resend sender.old.value.own.flight.queue.inflight.chunks ≡ None) }
    ensures same { sender.new.value ≡ sender.old.value }
{
    let held = sender.get_mut();
    match replay::next_to_retransmit(&held.own) {
        Some(chunk) => {
            *row = row_of(chunk, &held.types);
            SCTPR_OK
        }
        None => SCTPR_NOTHING,
    }
}

/// How many bytes of user data of a stream wait or are in flight: `amount` becomes that. Refuses with `SCTPR_STREAM_UNKNOWN`, and `amount`
/// stays.
#[unsafe(no_mangle)]
pub extern "C" fn sctpr_sender_buffered_amount(
    sender: &mut SctpSender,
    stream: u16,
    amount: &mut usize,
) -> u32
    ensures codes { (result ≡ 0) ⊎ (result ≡ 23) }
    ensures ok { result ≡ 0 → Some amount.new
        ≡ option_map (λ l. l.buffered_amount) (stream_of stream sender.old.value.own) }
    ensures unknown { result ≡ 23 → (amount.new ≡ amount.old)
        × (stream_of stream sender.old.value.own ≡ None) }
    ensures same { sender.new.value ≡ sender.old.value }
{
    match sender.get_mut().own.stream(stream) {
        Some(state) => {
            *amount = state.buffered_amount();
            SCTPR_OK
        }
        None => SCTPR_STREAM_UNKNOWN,
    }
}

/// 1 where nothing of a stream waits or is in flight, so that it can be reset (RFC 6525 5.1.2), else 0.
#[unsafe(no_mangle)]
pub extern "C" fn sctpr_sender_is_drained(sender: &mut SctpSender, stream: u16) -> u8
    ensures value { result ≡ flag (is_drained stream sender.old.value.own) }
    ensures same { sender.new.value ≡ sender.old.value }
{
    sender.get_mut().own.is_drained(stream) as u8
}

/// The TSN that the next chunk gets (RFC 4960 6.1).
#[unsafe(no_mangle)]
pub extern "C" fn sctpr_sender_next_tsn(sender: &mut SctpSender) -> u32
    ensures value { result ≡ sender.old.value.own.flight.next_tsn }
    ensures same { sender.new.value ≡ sender.old.value }
{
    sender.get_mut().own.next_tsn()
}

/// The TSN up to which all was acknowledged (RFC 4960 6.2.1).
#[unsafe(no_mangle)]
pub extern "C" fn sctpr_sender_acked_tsn(sender: &mut SctpSender) -> u32
    ensures value { result ≡ sender.old.value.own.flight.acked_tsn }
    ensures same { sender.new.value ≡ sender.old.value }
{
    sender.get_mut().own.acked_tsn()
}

/// The Advanced.Peer.Ack.Point (RFC 3758 3.5 C2).
#[unsafe(no_mangle)]
pub extern "C" fn sctpr_sender_advanced_ack_point(sender: &mut SctpSender) -> u32
    ensures value { result ≡ advanced_ack_point sender.old.value.own.flight }
    ensures same { sender.new.value ≡ sender.old.value }
{
    replay::advanced_ack_point(&sender.get_mut().own)
}

/// How many bytes of user data are in flight (RFC 4960 7.2): what is acknowledged or abandoned counts no more.
#[unsafe(no_mangle)]
pub extern "C" fn sctpr_sender_bytes_in_flight(sender: &mut SctpSender) -> usize
    ensures value { result ≡ bytes_of sender.old.value.own.flight.queue.inflight.chunks }
    ensures same { sender.new.value ≡ sender.old.value }
{
    sender.get_mut().own.outbound().inflight_bytes()
}

/// How many chunks are in flight: each TSN past `sctpr_sender_acked_tsn` and before `sctpr_sender_next_tsn` has one.
#[unsafe(no_mangle)]
pub extern "C" fn sctpr_sender_chunks_in_flight(sender: &mut SctpSender) -> usize
    ensures value { result ≡ length sender.old.value.own.flight.queue.inflight.chunks }
    ensures same { sender.new.value ≡ sender.old.value }
{
    sender.get_mut().own.outbound().inflight_len()
}

/// What is outstanding: `row` tells of it. A chunk that is marked for retransmission has no part in the flight size until it is sent again
/// (RFC 9260 6.2.1 B, 7.2).
#[unsafe(no_mangle)]
pub extern "C" fn sctpr_sender_outstanding(sender: &mut SctpSender, row: &mut SctpOutstanding)
    ensures row { row.new
        ≡ outstanding_row (outstanding_of sender.old.value.own.flight.queue.inflight.chunks) }
    ensures same { sender.new.value ≡ sender.old.value }
{
    let told = sender.get_mut().own.outstanding();
    *row = SctpOutstanding {
        bytes: told.bytes,
        chunks: told.chunks,
        marked: told.marked,
    };
}

/// The first TSN in flight that is neither acknowledged nor abandoned (RFC 4960 6.3.3): `tsn` becomes that. `SCTPR_NOTHING`: there is
/// none, and `tsn` stays.
#[unsafe(no_mangle)]
pub extern "C" fn sctpr_sender_earliest_outstanding(sender: &mut SctpSender, tsn: &mut u32) -> u32
    ensures codes { (result ≡ 0) ⊎ (result ≡ 3) }
    ensures ok { result ≡ 0 → Some tsn.new ≡ option_map (λ c. c.tsn)
        (find is_outstanding sender.old.value.own.flight.queue.inflight.chunks) }
    ensures none { result ≡ 3 → (tsn.new ≡ tsn.old)
        × (find is_outstanding sender.old.value.own.flight.queue.inflight.chunks ≡ None) }
    ensures same { sender.new.value ≡ sender.old.value }
{
    match sender.get_mut().own.outbound().earliest_outstanding_tsn() {
        Some(first) => {
            *tsn = first;
            SCTPR_OK
        }
        None => SCTPR_NOTHING,
    }
}

/// How many fragments wait.
#[unsafe(no_mangle)]
pub extern "C" fn sctpr_sender_pending(sender: &mut SctpSender) -> usize
    ensures value { result ≡ chunk_count sender.old.value.own.flight.queue.pending }
    ensures same { sender.new.value ≡ sender.old.value }
{
    sender.get_mut().own.outbound().pending_len()
}
