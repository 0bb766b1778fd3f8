//! What a peer sent (RFC 4960 6.2; RFC 3758 3.6).

ghost use Rattle.std.specs.Prelude.{◌≡◌, ◌≢◌, ◌≤◌, ◌⊎◌, false, true, IfOk, IfErr};
ghost use Rattle.sctp_util.specs.Outcome.{OrMemory};
ghost use Rattle.sctp_chunks.specs.Fault.{DataFault, ForwardTsnFault};
ghost use Rattle.sctp_chunks.specs.Wire.{ReadsChunk, data_chunk, forward_tsn_chunk};
ghost use Rattle.sctp_data.specs.ForwardTsn.{forward_tsn_of};
ghost use Rattle.sctp_data.specs.PayloadData.{data_of};
ghost use Rattle.sctp_datagram.specs.Framing.{ChunkFault, StartsWith};
ghost use Rattle.sctp_c.specs.Answered.{payload_type_at};
ghost use Rattle.sctp_c.specs.Refusal.{IsRefusal};
ghost use Rattle.sctp_c.specs.Receiving.{kept_with, receiver_code_for, TakesData, TakesNew, RefusesData, TakesForwardTsn, RefusesForwardTsn};
ghost use Rattle.sctp_receiver.specs.Receiver.{after_discard, discard_refusal, filter_of};
ghost use Rattle.sctp_receiver.specs.Skips.{skip_refusal, past_closed_refusal};
ghost use Rattle.sctp_receiver.specs.TsnFilter.{has_come};
ghost use Rattle.sctp_receiver.specs.declared.receiver.arrival.Arrival.TheVariants.{Repeat};

use super::SctpReceiver;
use crate::code::{SCTPR_OK, SCTPR_REPEAT, SCTPR_STALE, of_error, of_receiver};
use bytes::Bytes;
use sctp_chunks::chunk::Chunk;
use sctp_chunks::chunk::chunk_forward_tsn::ChunkForwardTsn;
use sctp_chunks::chunk::chunk_payload_data::ChunkPayloadData;
use sctp_datagram::in_place::{data_value, read_data};
use sctp_receiver::receiver::arrival::{Arrival, Closed, Forwarded};
use sctp_util::error::Error;
use sctp_util::field::read_u32;
use std::alloc::Global;

// Reads bytes as a DATA chunk, with its payload type as it came.
fn data_in(alloc: Global, chunk: &[u8]) -> Result<ChunkPayloadData, Error>
    ensures found { IfOk result (λ c. StartsWith chunk.now (data_chunk (data_of c))) }
    ensures kept { IfOk result (λ c. c ≡ kept_with (payload_type_at chunk.now) (data_of c)) }
    ensures fault { IfErr result (λ e. OrMemory e (ChunkFault DataFault e chunk.now)) }
{
    let payload_type = read_u32(data_value(chunk)?, 8);
    let mut data = read_data(alloc, chunk)?;
    data.message_id = payload_type as u64;
    Ok(data)
}

// Reads bytes as a FORWARD-TSN.
fn forward_tsn_in(alloc: Global, chunk: &[u8]) -> Result<ChunkForwardTsn, Error>
    ensures found { IfOk result
        (λ c. ReadsChunk chunk.now (forward_tsn_chunk (forward_tsn_of c))) }
    ensures fault { IfErr result (λ e. OrMemory e (ForwardTsnFault e chunk.now)) }
{
    let bytes = Bytes::copy_from_slice(alloc, chunk)?;
    ChunkForwardTsn::unmarshal(alloc, &bytes)
}

/// Takes the bytes of a DATA chunk (RFC 4960 6.2). `SCTPR_OK`: its TSN is new, and `complete` becomes 1 where a message of its stream
/// became complete with it, else 0. `SCTPR_REPEAT`: its TSN came before; the next SACK reports it as a duplicate. Its payload type is kept
/// as it came (RFC 9260 3.3.1). Refuses bytes that are no DATA chunk, and as `Receiver::data` does.
#[unsafe(no_mangle)]
pub extern "C" fn sctpr_receiver_data(
    alloc: Global,
    receiver: &mut SctpReceiver,
    chunk: &[u8],
    complete: &mut u8,
) -> u32
    ensures codes { (result ≤ 1) ⊎ (16 ≤ result) }
    ensures fresh { result ≡ 0
        → TakesNew chunk.now complete.new receiver.old.value receiver.new.value }
    ensures repeat { result ≡ 1
        → TakesData chunk.now Repeat receiver.old.value receiver.new.value }
    ensures kept { result ≢ 0 → complete.new ≡ complete.old }
    ensures refused { 16 ≤ result → receiver.new.value ≡ receiver.old.value }
    ensures reason { 16 ≤ result → IsRefusal (λ e. ChunkFault DataFault e chunk.now) result
        ⊎ RefusesData chunk.now result receiver.old.value }
{
    let data = match data_in(alloc, chunk) {
        Ok(data) => data,
        Err(e) => return of_error(e),
    };
    match receiver.get_mut().data(&data) {
        Ok(Arrival::New { complete: now }) => {
            *complete = now as u8;
            SCTPR_OK
        }
        Ok(Arrival::Repeat) => SCTPR_REPEAT,
        Err(e) => of_receiver(e),
    }
}

/// Takes the TSN of a DATA chunk that is dropped, as one of a stream that is not open (RFC 4960 6.5): it counts as come. `SCTPR_OK` and
/// `SCTPR_REPEAT` as `sctpr_receiver_data`. Refuses with `SCTPR_TSN_OPPOSITE`, `SCTPR_TSN_TOO_FAR`, `SCTPR_WINDOW_FULL` and `SCTPR_NO_MEMORY`.
#[unsafe(no_mangle)]
pub extern "C" fn sctpr_receiver_discard(receiver: &mut SctpReceiver, tsn: u32) -> u32
    ensures codes { (result ≤ 1) ⊎ (16 ≤ result) }
    ensures fresh { result ≡ 0 → has_come tsn (filter_of receiver.old.value) ≡ false }
    ensures repeat { result ≡ 1 → has_come tsn (filter_of receiver.old.value) ≡ true }
    ensures ok { result ≤ 1 → receiver.new.value ≡ after_discard tsn receiver.old.value }
    ensures refused { 16 ≤ result → (receiver.new.value ≡ receiver.old.value)
        × (result ≡ receiver_code_for (discard_refusal tsn receiver.old.value)) }
{
    match receiver.get_mut().discard(tsn) {
        Ok(Arrival::New { .. }) => SCTPR_OK,
        Ok(Arrival::Repeat) => SCTPR_REPEAT,
        Err(e) => of_receiver(e),
    }
}

/// Takes the bytes of a FORWARD-TSN chunk (RFC 3758 3.6). `SCTPR_OK`: it was past the cumulative TSN, and was followed. `SCTPR_STALE`: it
/// was not, and changed nothing. Refuses with the codes of bytes that are no FORWARD-TSN, and with `SCTPR_NAMED_STREAM_UNKNOWN`,
/// `SCTPR_NAMED_SSN_TOO_FAR` and `SCTPR_TSN_OPPOSITE`.
#[unsafe(no_mangle)]
pub extern "C" fn sctpr_receiver_forward_tsn(
    alloc: Global,
    receiver: &mut SctpReceiver,
    chunk: &[u8],
) -> u32
    ensures codes { (result ≡ 0) ⊎ ((result ≡ 2) ⊎ (16 ≤ result)) }
    ensures ok { result ≤ 2 → TakesForwardTsn skip_refusal chunk.now result
        receiver.old.value receiver.new.value }
    ensures refused { 16 ≤ result → receiver.new.value ≡ receiver.old.value }
    ensures reason { 16 ≤ result → IsRefusal (λ e. ForwardTsnFault e chunk.now) result
        ⊎ RefusesForwardTsn skip_refusal chunk.now result receiver.old.value }
{
    let forward = match forward_tsn_in(alloc, chunk) {
        Ok(forward) => forward,
        Err(e) => return of_error(e),
    };
    match receiver.get_mut().forward_tsn(&forward, Closed::Refuse) {
        Ok(Forwarded::Skipped) => SCTPR_OK,
        Ok(Forwarded::Stale) => SCTPR_STALE,
        Err(e) => of_receiver(e),
    }
}

/// As `sctpr_receiver_forward_tsn`, but what it names on a stream that is not open is passed over, as is right of a stream that was
/// closed on purpose: `SCTPR_NAMED_STREAM_UNKNOWN` is no refusal of it.
#[unsafe(no_mangle)]
pub extern "C" fn sctpr_receiver_forward_tsn_past_closed(
    alloc: Global,
    receiver: &mut SctpReceiver,
    chunk: &[u8],
) -> u32
    ensures codes { (result ≡ 0) ⊎ ((result ≡ 2) ⊎ (16 ≤ result)) }
    ensures ok { result ≤ 2 → TakesForwardTsn past_closed_refusal chunk.now result
        receiver.old.value receiver.new.value }
    ensures refused { 16 ≤ result → receiver.new.value ≡ receiver.old.value }
    ensures reason { 16 ≤ result → IsRefusal (λ e. ForwardTsnFault e chunk.now) result
        ⊎ RefusesForwardTsn past_closed_refusal chunk.now result receiver.old.value }
{
    let forward = match forward_tsn_in(alloc, chunk) {
        Ok(forward) => forward,
        Err(e) => return of_error(e),
    };
    match receiver.get_mut().forward_tsn(&forward, Closed::PassOver) {
        Ok(Forwarded::Skipped) => SCTPR_OK,
        Ok(Forwarded::Stale) => SCTPR_STALE,
        Err(e) => of_receiver(e),
    }
}
