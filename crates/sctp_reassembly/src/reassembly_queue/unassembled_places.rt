//! Places among the unassembled fragments, by TSN: found by halves where they stand in serial order, else by a walk. The searches stand
//! apart (`inline(never)`), so that what an ordered chunk takes in the same call stays small.

ghost use Rattle.std.specs.Prelude.{◌≡◌, ℕ, ◌==◌, ◌+◌, ◌-◌, ◌^◌, ◌<◌, ◌≤◌, ◌≢◌, [], length, take, drop, reverse, slice_index_or, true, false, not, IfSome, IfNone};
ghost use Rattle.std.specs.List.{position_or_len};
ghost use Rattle.sctp_data.specs.declared.chunk.chunk_payload_data.ChunkPayloadData.{ChunkPayloadData};
ghost use Rattle.sctp_util.specs.Serial.{comes_before, at_or_before};
ghost use Rattle.sctp_reassembly.specs.reassembly_queue.Loose.{place_among};
ghost use Rattle.sctp_reassembly.specs.reassembly_queue.Sizes.{back_from, on_from};
ghost use Rattle.sctp_serial.specs.Turns.{IsWithinDigits};
ghost use Rattle.sctp_serial.specs.Window.{IsSerial};
ghost use Rattle.sctp_serial.specs.DataChunks.{following_tsn, preceding_tsn};

use crate::reassembly_queue::unassembled::Loose;
use sctp_serial::turns::Turns;
use sctp_util::util::{sna32lt, sna32lte};

/// Where a fragment of this number is put in: before the first that it comes before, or at the end.
///
/// In serial order the first two looks are at both ends, so that what comes behind all takes no more.
#[inline(never)]
pub(crate) fn place_for(unassembled: &Loose, tsn: u32, turns: &mut Turns) -> usize
    ensures place { result ≡ place_among tsn unassembled.now.chunks }
    ensures in_range { result ≤ length unassembled.now.chunks }
    ensures not_back { turns.old ≤ turns.new }
    ensures cost { IsSerial unassembled.now.chunks
        → IsWithinDigits (length unassembled.now.chunks) (turns.new - turns.old - 2) }
    ensures walk { turns.new ≤ turns.old + length unassembled.now.chunks + 2 }
{
    let len = unassembled.len();
    if len == 0 {
        return 0;
    }
    if !unassembled.is_serial() {
        return first_after(unassembled, tsn, turns);
    }
    if sna32lt(tsn, unassembled.look(0, turns).tsn) {
        return 0;
    }
    if !sna32lt(tsn, unassembled.look(len - 1, turns).tsn) {
        return len;
    }
    by_halves(unassembled, tsn, turns)
}

// The place of the first fragment that the number comes before, or the end, by a walk.
#[inline(never)]
fn first_after(unassembled: &Loose, tsn: u32, turns: &mut Turns) -> usize
    ensures place { result ≡ place_among tsn unassembled.now.chunks }
    ensures in_range { result ≤ length unassembled.now.chunks }
    ensures not_back { turns.old ≤ turns.new }
    ensures walk { turns.new ≤ turns.old + length unassembled.now.chunks }
{
    for place in 0..unassembled.len() {
        if sna32lt(tsn, unassembled.look(place, turns).tsn) {
            return place;
        }
    }
    unassembled.len()
}

// The same by halves, in serial order, where the number does not come before the first.
fn by_halves(unassembled: &Loose, tsn: u32, turns: &mut Turns) -> usize
    requires some { 0 < length unassembled.now.chunks }
    requires order { IsSerial unassembled.now.chunks }
    requires first { (d : ChunkPayloadData)
        → comes_before tsn (slice_index_or unassembled.now.chunks 0 d).tsn ≡ false }
    ensures place { result ≡ place_among tsn unassembled.now.chunks }
    ensures in_range { result ≤ length unassembled.now.chunks }
    ensures not_back { turns.old ≤ turns.new }
    ensures cost { IsWithinDigits (length unassembled.now.chunks) (turns.new - turns.old) }
{
    let mut low = 0;
    let mut high = unassembled.len();
    while low < high {
        let middle = low + (high - low) / 2;
        let here = unassembled.look(middle, turns);
        if sna32lt(tsn, here.tsn) {
            high = middle;
        } else {
            low = middle + 1;
        }
    }
    low
}

/// The place of the last fragment of the number before this one, seen from where this one goes.
/// Precondition: `place` is where this one goes.
pub(crate) fn place_before(
    unassembled: &Loose,
    place: usize,
    tsn: u32,
    turns: &mut Turns,
) -> Option<usize>
    requires { place ≡ place_among tsn unassembled.now.chunks }
    ensures in_range { IfSome result (λ at. at < length unassembled.now.chunks) }
    ensures fits { IfSome result (λ at. at + 1 < 2 ^ 64) }
    ensures back { IfSome result (λ at. back_from (preceding_tsn tsn) unassembled.now.chunks
        ≡ reverse (take (at + 1) unassembled.now.chunks)) }
    ensures none { IfNone result (back_from (preceding_tsn tsn) unassembled.now.chunks ≡ []) }
    ensures near { IsSerial unassembled.now.chunks → ((d : ChunkPayloadData) → 0 < place
        → (slice_index_or unassembled.now.chunks (place - 1) d).tsn ≢ tsn)
        → IfSome result (λ at. at + 1 ≡ place) }
    ensures not_back { turns.old ≤ turns.new }
    ensures cost { IsSerial unassembled.now.chunks → turns.new ≤ turns.old + 2 }
    ensures walk { turns.new ≤ turns.old + length unassembled.now.chunks + 2 }
{
    let wanted = tsn.wrapping_sub(1);
    if !unassembled.is_serial() {
        return last_among(unassembled, wanted, turns);
    }
    if place == 0 {
        return None;
    }
    let near = unassembled.look(place - 1, turns).tsn;
    if near == wanted {
        return Some(place - 1);
    }
    // the number itself may be there already
    if near != tsn || place == 1 {
        return None;
    }
    if unassembled.look(place - 2, turns).tsn != wanted {
        return None;
    }
    Some(place - 2)
}

/// The place of the last fragment of the number after this one, seen from where this one goes.
/// Precondition: `place` is where this one goes.
pub(crate) fn place_after(
    unassembled: &Loose,
    place: usize,
    tsn: u32,
    turns: &mut Turns,
) -> Option<usize>
    requires { place ≡ place_among tsn unassembled.now.chunks }
    ensures in_range { IfSome result (λ at. at < length unassembled.now.chunks) }
    ensures on { IfSome result (λ at. on_from (following_tsn tsn) unassembled.now.chunks
        ≡ drop at unassembled.now.chunks) }
    ensures none { IfNone result (on_from (following_tsn tsn) unassembled.now.chunks ≡ []) }
    ensures near { IsSerial unassembled.now.chunks → IfSome result (λ at. at ≡ place) }
    ensures not_back { turns.old ≤ turns.new }
    ensures cost { IsSerial unassembled.now.chunks → turns.new ≤ turns.old + 1 }
    ensures walk { turns.new ≤ turns.old + length unassembled.now.chunks + 1 }
{
    let wanted = tsn.wrapping_add(1);
    if !unassembled.is_serial() {
        return last_among(unassembled, wanted, turns);
    }
    if place >= unassembled.len() {
        return None;
    }
    if unassembled.look(place, turns).tsn != wanted {
        return None;
    }
    Some(place)
}

// The place of the last fragment of this TSN, by a walk.
#[inline(never)]
fn last_among(unassembled: &Loose, tsn: u32, turns: &mut Turns) -> Option<usize>
    ensures in_range { IfSome result (λ place. place < length unassembled.now.chunks) }
    ensures fits { IfSome result (λ place. place + 1 < 2 ^ 64) }
    ensures back { IfSome result (λ place. back_from tsn unassembled.now.chunks
        ≡ reverse (take (place + 1) unassembled.now.chunks)) }
    ensures on { IfSome result (λ place. on_from tsn unassembled.now.chunks ≡ drop place unassembled.now.chunks) }
    ensures none_back { IfNone result (back_from tsn unassembled.now.chunks ≡ []) }
    ensures none_on { IfNone result (on_from tsn unassembled.now.chunks ≡ []) }
    ensures not_back { turns.old ≤ turns.new }
    ensures walk { turns.new ≤ turns.old + length unassembled.now.chunks }
{
    let mut end = unassembled.len();
    while end > 0 {
        let place = end - 1;
        if unassembled.look(place, turns).tsn == tsn {
            return Some(place);
        }
        end = place;
    }
    None
}

/// How many unassembled fragments stand before the first that is after the number.
pub(crate) fn front_upto(unassembled: &Loose, tsn: u32, turns: &mut Turns) -> usize
    ensures place { result ≡ position_or_len (λ c. not (at_or_before c.tsn tsn)) unassembled.now.chunks }
    ensures in_range { result ≤ length unassembled.now.chunks }
    ensures not_back { turns.old ≤ turns.new }
    ensures cost { turns.new ≤ turns.old + result + 1 }
{
    for place in 0..unassembled.len() {
        if !sna32lte(unassembled.look(place, turns).tsn, tsn) {
            return place;
        }
    }
    unassembled.len()
}
