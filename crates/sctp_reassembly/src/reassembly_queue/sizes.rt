//! How long the message of an unordered chunk would be with it.

ghost use Rattle.std.specs.Prelude.{◌≡◌, ℕ, ◌+◌, ◌-◌, ◌*◌, ◌^◌, ◌<◌, ◌≤◌, [], length, min, insert, take, drop, reverse, IfSome, IfNone};
ghost use Rattle.sctp_data.specs.declared.chunk.chunk_payload_data.ChunkPayloadData.{ChunkPayloadData};
ghost use Rattle.sctp_serial.specs.Runs.{IsStretch};
ghost use Rattle.sctp_serial.specs.Window.{IsSerial};
ghost use Rattle.sctp_serial.specs.DataChunks.{bytes_of};
ghost use Rattle.sctp_reassembly.specs.reassembly_queue.Loose.{place_among};
ghost use Rattle.sctp_reassembly.specs.reassembly_queue.Sizes.{bytes_down, bytes_up, back_from, on_from, size_before, size_after};

use crate::reassembly_queue::unassembled::Loose;
use crate::reassembly_queue::unassembled_places::{place_after, place_before};
use sctp_data::chunk::chunk_payload_data::ChunkPayloadData;
use sctp_serial::turns::Turns;

/// The bytes of the unassembled neighbours that come before the chunk in its message, seen from where the chunk goes.
/// Precondition: `place` is that.
pub(crate) fn size_before(
    chunk: &ChunkPayloadData,
    unassembled: &Loose,
    place: usize,
    turns: &mut Turns,
) -> usize
    requires { place ≡ place_among chunk.now.tsn unassembled.now.chunks }
    ensures value { result ≡ min (size_before chunk.now unassembled.now.chunks) (2 ^ 64 - 1) }
    ensures not_back { turns.old ≤ turns.new }
    ensures cost { (first last : ℕ) → IsSerial (insert unassembled.now.chunks place chunk.now)
        → IsStretch (insert unassembled.now.chunks place chunk.now) place first last
        → turns.new ≤ turns.old + (place - first) + 3 }
    ensures walk { turns.new ≤ turns.old + 2 * length unassembled.now.chunks + 2 }
{
    if chunk.beginning_fragment {
        return 0;
    }
    match place_before(unassembled, place, chunk.tsn, turns) {
        Some(last) => bytes_down(unassembled, last + 1, chunk.tsn, turns),
        None => 0,
    }
}

/// The bytes of the unassembled neighbours that come after the chunk in its message, seen from where the chunk goes.
/// Precondition: `place` is that.
pub(crate) fn size_after(
    chunk: &ChunkPayloadData,
    unassembled: &Loose,
    place: usize,
    turns: &mut Turns,
) -> usize
    requires { place ≡ place_among chunk.now.tsn unassembled.now.chunks }
    ensures value { result ≡ min (size_after chunk.now unassembled.now.chunks) (2 ^ 64 - 1) }
    ensures not_back { turns.old ≤ turns.new }
    ensures cost { (first last : ℕ) → IsSerial (insert unassembled.now.chunks place chunk.now)
        → IsStretch (insert unassembled.now.chunks place chunk.now) place first last
        → turns.new ≤ turns.old + (last - place) + 2 }
    ensures walk { turns.new ≤ turns.old + 2 * length unassembled.now.chunks + 1 }
{
    if chunk.ending_fragment {
        return 0;
    }
    match place_after(unassembled, place, chunk.tsn, turns) {
        Some(next) => bytes_up(unassembled, next, chunk.tsn, turns),
        None => 0,
    }
}

// The bytes of neighbours before a place, from the nearest on, while TSNs go down by one, up to one that begins.
fn bytes_down(unassembled: &Loose, end: usize, tsn: u32, turns: &mut Turns) -> usize
    requires { end ≤ length unassembled.now.chunks }
    ensures value { result
        ≡ min (bytes_down tsn (reverse (take end unassembled.now.chunks))) (2 ^ 64 - 1) }
    ensures not_back { turns.old ≤ turns.new }
    ensures cost { (x : ChunkPayloadData) (first last : ℕ) → x.tsn ≡ tsn
        → IsStretch (insert unassembled.now.chunks end x) end first last
        → turns.new ≤ turns.old + (end - first) + 1 }
    ensures walk { turns.new ≤ turns.old + end }
{
    let mut total = 0usize;
    let mut next = tsn;
    let mut end = end;
    while end > 0 {
        let place = end - 1;
        let chunk = unassembled.look(place, turns);
        if chunk.tsn != next.wrapping_sub(1) {
            return total;
        }
        total = total.saturating_add(chunk.user_data.len());
        if chunk.beginning_fragment {
            return total;
        }
        next = chunk.tsn;
        end = place;
    }
    total
}

// The bytes of neighbours from a place on, while TSNs go up by one, up to one that ends.
fn bytes_up(unassembled: &Loose, from: usize, tsn: u32, turns: &mut Turns) -> usize
    requires { from ≤ length unassembled.now.chunks }
    ensures value { result
        ≡ min (bytes_up tsn (drop from unassembled.now.chunks)) (2 ^ 64 - 1) }
    ensures not_back { turns.old ≤ turns.new }
    ensures cost { (x : ChunkPayloadData) (first last : ℕ) → x.tsn ≡ tsn
        → IsStretch (insert unassembled.now.chunks from x) from first last
        → turns.new ≤ turns.old + (last - from) + 1 }
    ensures walk { turns.new ≤ turns.old + length unassembled.now.chunks }
{
    let mut total = 0usize;
    let mut last = tsn;
    let mut place = from;
    while place < unassembled.len() {
        let chunk = unassembled.look(place, turns);
        if chunk.tsn != last.wrapping_add(1) {
            return total;
        }
        total = total.saturating_add(chunk.user_data.len());
        if chunk.ending_fragment {
            return total;
        }
        last = chunk.tsn;
        place += 1;
    }
    total
}

/// How many bytes the first fragments carry, or the greatest number where they are more.
/// Precondition: there are so many fragments.
pub(crate) fn bytes_of_front(unassembled: &Loose, count: usize, turns: &mut Turns) -> usize
    requires { count ≤ length unassembled.now.chunks }
    ensures value { result ≡ min (bytes_of (take count unassembled.now.chunks)) (2 ^ 64 - 1) }
    ensures turns { turns.new ≡ turns.old + count }
{
    let mut len = 0usize;
    for place in 0..count {
        len = len.saturating_add(unassembled.look(place, turns).user_data.len());
    }
    len
}
