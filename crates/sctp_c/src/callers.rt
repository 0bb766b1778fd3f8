//! Calls one after the other, from a new handle to a freed one: what they promise fits together. Each contract here follows from those of
//! the calls alone.

ghost use Rattle.std.specs.Prelude.{◌≡◌, IfSome};
ghost use Rattle.sctp_receiver.specs.Limits.{held_cost};
ghost use Rattle.sctp_serial.specs.DataChunks.{preceding_tsn};

use crate::code::SCTPR_OK;
use crate::receiver::{
    SctpNewReceiver, SctpReceiver, sctpr_receiver_cumulative_tsn, sctpr_receiver_free_handle,
    sctpr_receiver_held_bytes, sctpr_receiver_new_unlimited,
};
use crate::sender::sending::sctpr_sender_send_next;
use crate::sender::{
    SctpNewSender, SctpSender, sctpr_sender_free_handle, sctpr_sender_new, sctpr_sender_open,
    sctpr_sender_write,
};
use std::alloc::Global;

// Writes a message, which is the first, and sends its first chunk: the number of the message, and the TSN of the chunk.
fn send_first(
    alloc: Global,
    sender: &mut SctpSender,
    message: &[u8],
    packet: &mut [u8],
) -> Option<(u64, u32)>
    ensures { IfSome result (λ r. (r.0 ≡ sender.old.value.own.flight.queue.next_message_id)
        × (r.1 ≡ sender.old.value.own.flight.next_tsn)) }
{
    let (mut number, mut fragments) = (0, 0);
    let code = sctpr_sender_write(alloc, sender, 1, 53, message, &mut number, &mut fragments);
    if code != SCTPR_OK {
        return None;
    }
    let (mut written, mut tsn) = (0, 0);
    let code = sctpr_sender_send_next(sender, 0, packet, &mut written, &mut tsn);
    if code != SCTPR_OK {
        return None;
    }
    Some((number, tsn))
}

/// A sender is made, opens a stream, takes a message, sends its first chunk, and is freed: the message has the number 0, the chunk the first
/// TSN. `None`, where a call refused.
pub fn first_chunk(
    alloc: Global,
    mut out: SctpNewSender,
    first_tsn: u32,
    message: &[u8],
    packet: &mut [u8],
) -> Option<(u64, u32)>
    ensures { IfSome result (λ r. (r.0 ≡ 0) × (r.1 ≡ first_tsn)) }
{
    if sctpr_sender_new(alloc, first_tsn, 1200, 65_536, 0, &mut out) != SCTPR_OK {
        return None;
    }
    let mut sender = out.into_handle();
    let code = sctpr_sender_open(&mut sender, 1);
    let sent = if code == SCTPR_OK {
        send_first(alloc, &mut sender, message, packet)
    } else {
        None
    };
    sctpr_sender_free_handle(sender);
    sent
}

// What a receiver has: the TSN up to which all came, and how many bytes it holds.
fn standing(receiver: &mut SctpReceiver) -> (u32, usize)
    ensures tsn { result.0 ≡ receiver.old.value.cumulative_tsn }
    ensures held { result.1 ≡ held_cost receiver.old.value.streams }
{
    let tsn = sctpr_receiver_cumulative_tsn(receiver);
    (tsn, sctpr_receiver_held_bytes(receiver))
}

/// A receiver is made, tells up to which TSN all came, and how many bytes it holds, and is freed: the TSN before the first one, and none.
/// `None`, where there was no memory.
pub fn before_first_chunk(
    alloc: Global,
    mut out: SctpNewReceiver,
    first_tsn: u32,
) -> Option<(u32, usize)>
    ensures { IfSome result (λ r. (r.0 ≡ preceding_tsn first_tsn) × (r.1 ≡ 0)) }
{
    if sctpr_receiver_new_unlimited(alloc, first_tsn, 65_536, &mut out) != SCTPR_OK {
        return None;
    }
    let mut receiver = out.into_handle();
    let answered = standing(&mut receiver);
    sctpr_receiver_free_handle(receiver);
    Some(answered)
}
