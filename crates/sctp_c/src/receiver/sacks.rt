//! What a receiver acknowledges (RFC 4960 3.3.4, 6.2).

ghost use Rattle.std.specs.Prelude.{◌≡◌, ◌≢◌, ◌<◌, ◌⊎◌, length};
ghost use Rattle.sctp_c.specs.Receiving.{WritesSack};

use super::SctpReceiver;
use crate::code::{SCTPR_NO_MEMORY, SCTPR_OK, SCTPR_SHORT_BUFFER};
use crate::fills::put_bytes;
use bytes::BytesMut;
use sctp_chunks::chunk::Chunk;
use std::alloc::Global;

/// The length of a SACK chunk without gap ack blocks and duplicates, in bytes.
pub const MIN_SACK_SIZE: usize = 16;

/// The greatest length of a SACK chunk, in bytes: a multiple of four that two bytes declare.
pub const MAX_SACK_SIZE: usize = 65_532;

/// Writes the SACK of what came to the front of the buffer, with the window as its credit: first as many gap ack blocks as there is room
/// for, then as many duplicates, which are forgotten; the others are kept for the next SACK. `written` becomes its length, a multiple of
/// four, 16 to 65,532. Refuses with `SCTPR_SHORT_BUFFER` under 16 bytes, and with `SCTPR_NO_MEMORY`.
#[unsafe(no_mangle)]
pub extern "C" fn sctpr_receiver_sack(
    alloc: Global,
    receiver: &mut SctpReceiver,
    out: &mut [u8],
    written: &mut usize,
) -> u32
    ensures codes { (result ≡ 0) ⊎ ((result ≡ 16) ⊎ (result ≡ 17)) }
    ensures ok { result ≡ 0 → WritesSack out.old out.new written.new
        receiver.old.value receiver.new.value }
    ensures short { result ≡ 17 → length out.old < 16 }
    ensures kept { result ≢ 0 → (receiver.new.value ≡ receiver.old.value)
        × ((out.new ≡ out.old) × (written.new ≡ written.old)) }
{
    let room = out.len().min(MAX_SACK_SIZE);
    if room < MIN_SACK_SIZE {
        return SCTPR_SHORT_BUFFER;
    }
    let Ok(mut bytes) = BytesMut::with_capacity(alloc, room) else {
        return SCTPR_NO_MEMORY;
    };
    let Ok(sack) = receiver.get_mut().sack(room) else {
        return SCTPR_NO_MEMORY;
    };
    match sack.marshal_to(&mut bytes) {
        Ok(length) => {
            put_bytes(out, &bytes);
            *written = length;
            SCTPR_OK
        }
        Err(_) => unreachable!(),
    }
}
