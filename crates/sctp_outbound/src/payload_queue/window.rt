//! Which TSNs fit beside those held: tests that look at the first chunk and at the last.

ghost use Rattle.std.specs.Prelude.{◌≡◌, ◌-◌, ◌^◌, ◌<◌, All, length, slice_index_or, true, false};
ghost use Rattle.sctp_util.specs.Serial.{at_or_before};
ghost use Rattle.sctp_outbound.specs.payload_queue.PayloadQueue.{FirstStays};
ghost use Rattle.sctp_serial.specs.Window.{IsSerial, IsWithinHalf, SpansOneWindow, first_among};

use crate::payload_queue::held::Held;
use sctp_serial::serial::distance;
use sctp_serial::turns::Turns;
use sctp_util::util::{sna32lt, sna32lte};

// Whether a TSN lies at distance 1 to 2^31 after the base.
fn is_within_half(base: u32, tsn: u32) -> bool
    ensures yes { result ≡ true → IsWithinHalf base tsn }
    ensures no { IsWithinHalf base tsn → result ≡ true }
{
    let far = distance(base, tsn);
    0 < far && far <= 1 << 31
}

/// Whether all that is held lies at distance 1 to 2^31 after the base. Where the first and the last do, so does each between them.
pub(crate) fn are_within_half(held: &Held, base: u32) -> bool
    requires { IsSerial held.now.chunks }
    ensures yes { result ≡ true → All (λ c. IsWithinHalf base c.tsn) held.now.chunks }
    ensures no { All (λ c. IsWithinHalf base c.tsn) held.now.chunks → result ≡ true }
    ensures fits { base < 2 ^ 32 }
{
    let len = held.len();
    if len == 0 {
        return true;
    }
    let mut turns = Turns::new();
    if !is_within_half(base, held.tsn_at(0, &mut turns)) {
        return false;
    }
    is_within_half(base, held.tsn_at(len - 1, &mut turns))
}

/// Whether there is a base after which all that is held and the TSN lie at distance 1 to 2^31. Where there is one, the number before the
/// first of them all is one.
pub(crate) fn span_one_window(held: &Held, tsn: u32) -> bool
    requires { IsSerial held.now.chunks }
    ensures yes { result ≡ true → SpansOneWindow held.now.chunks tsn }
    ensures no { SpansOneWindow held.now.chunks tsn → result ≡ true }
{
    let base = first_of(held, tsn).wrapping_sub(1);
    if !is_within_half(base, tsn) {
        return false;
    }
    are_within_half(held, base)
}

/// Whether there is a first chunk, and it is at or before the TSN. It takes no turn.
pub(crate) fn is_front_up_to(held: &Held, cumulative_tsn: u32) -> bool
    ensures yes { result ≡ true → (0 < length held.now.chunks)
        × ((d : _) → at_or_before (slice_index_or held.now.chunks 0 d).tsn cumulative_tsn ≡ true) }
    ensures no { result ≡ false → FirstStays cumulative_tsn held.now.chunks }
    ensures fits { cumulative_tsn < 2 ^ 32 }
{
    match held.front_tsn() {
        Some(front) => sna32lte(front, cumulative_tsn),
        None => false,
    }
}

// The TSN where it comes before the first that is held, or none is; else the first that is held.
fn first_of(held: &Held, tsn: u32) -> u32
    ensures { result ≡ first_among tsn held.now.chunks }
{
    match held.front_tsn() {
        Some(front) => {
            if sna32lt(tsn, front) {
                return tsn;
            }
            front
        }
        None => tsn,
    }
}
