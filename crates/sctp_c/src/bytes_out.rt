//! Bytes that go out into a caller's buffer.

ghost use Rattle.std.specs.Prelude.{◌≡◌, ◌≢◌, ◌<◌, length};
ghost use Rattle.sctp_c.specs.Out.{padded, at_front};

use crate::code::{SCTPR_OK, SCTPR_SHORT_BUFFER};
use sctp_util::util::get_padding_size;

/// Writes bytes at the front of the buffer, and zeros behind them up to a multiple of four. `written` becomes how many that is. Refuses
/// with `SCTPR_SHORT_BUFFER` where the buffer is shorter, and writes nothing into it.
#[tactic(auto, unfolding(crate::specs::Out::padded))]
pub fn put_padded(out: &mut [u8], written: &mut usize, bytes: &[u8]) -> u32
    ensures written { written.new ≡ length (padded bytes.now) }
    ensures done { result ≡ 0 → out.new ≡ at_front (padded bytes.now) out.old }
    ensures short { result ≢ 0
        → (result ≡ 17) × (length out.old < length (padded bytes.now)) × (out.new ≡ out.old) }
{
    let padding = get_padding_size(bytes.len());
    let length = bytes.len() + padding;
    *written = length;
    if out.len() < length {
        return SCTPR_SHORT_BUFFER;
    }
    out[..bytes.len()].copy_from_slice(bytes);
    out[bytes.len()..length].fill(0);
    SCTPR_OK
}
