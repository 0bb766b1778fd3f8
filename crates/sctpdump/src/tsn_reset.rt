//! Resets of TSNs and stream sequence numbers, as a RE-CONFIG says that they were made (RFC 6525 4.3).

use sctp_util::field::{read_u16, read_u32};

/// The type of RE-CONFIG (RFC 6525 3.1).
const RECONFIG: u8 = 130;

/// The type of a Re-configuration Response (RFC 6525 4.4), and its length where it answers an SSN/TSN Reset Request.
const RESPONSE: u16 = 16;

const RESPONSE_LENGTH: u16 = 20;

/// The result "Success - Performed" (RFC 6525 4.4).
const PERFORMED: u32 = 1;

/// A reset that was made, as the response to its request says.
#[derive(Clone, Copy)]
pub struct TsnReset {
    /// The number of the request.
    pub number: u32,
    /// The TSN of the next DATA chunk that the sender of the response sends.
    pub sender_next: u32,
    /// The TSN of the next DATA chunk that it expects.
    pub receiver_next: u32,
}

/// The reset that the parameter says with which the bytes begin, if it says one.
fn reset_of(param: &[u8]) -> Option<TsnReset> {
    if param.len() < 20 || read_u16(param, 0) != RESPONSE || read_u16(param, 2) != RESPONSE_LENGTH {
        return None;
    }
    if read_u32(param, 8) != PERFORMED {
        return None;
    }
    Some(TsnReset {
        number: read_u32(param, 4),
        sender_next: read_u32(param, 12),
        receiver_next: read_u32(param, 16),
    })
}

/// The reset that one of the two parameters of a RE-CONFIG says, if the bytes are of one, and one does.
pub fn tsn_reset_in(bytes: &[u8]) -> Option<TsnReset> {
    if bytes.len() < 8 || bytes[0] != RECONFIG {
        return None;
    }
    let first = &bytes[4..];
    if let Some(reset) = reset_of(first) {
        return Some(reset);
    }
    let length = read_u16(first, 2) as usize;
    reset_of(first.get((length + 3) / 4 * 4..)?)
}
