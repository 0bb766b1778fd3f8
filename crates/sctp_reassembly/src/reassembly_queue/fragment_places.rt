//! Places among the fragments of one message, by TSN: found by halves where these ascend, else by a walk.

ghost use Rattle.std.specs.Prelude.{◌≡◌, ◌+◌, ◌*◌, ◌^◌, ◌-◌, ◌<◌, ◌≤◌, length, map, true, false, IfSome, IfNone};
ghost use Rattle.std.specs.List.{list_any, position_or_len, insert};
ghost use Rattle.std.specs.List.Sorted.{IsNonDecreasingBy, IsPartitionPoint};
ghost use Rattle.sctp_data.specs.declared.chunk.chunk_payload_data.ChunkPayloadData.{ChunkPayloadData};
ghost use Rattle.sctp_util.specs.Serial.{comes_before, distance};
ghost use Rattle.sctp_util.specs.Lists.{insert_before};
ghost use Rattle.sctp_serial.specs.DataChunks.{has_tsn, chunk_before};
ghost use Rattle.sctp_serial.specs.Ascending.{IsAscending, IsOrder, IsInsertion};
ghost use Rattle.sctp_serial.specs.Turns.{IsWithinDigits};
ghost use Rattle.sctp_reassembly.specs.reassembly_queue.Orders.{digits, IsOffOnlyOutOfOrder};

use crate::reassembly_queue::fragment::Fragment;
use sctp_serial::serial::{Insertion, distance};
use sctp_serial::turns::Turns;
use sctp_util::util::sna32lt;

// Where a fragment of this number is put in: before the first that it comes before, or at the end.
fn insertion_place(chunks: &[Fragment], tsn: u32, turns: &mut Turns) -> usize
    ensures in_range { result ≤ length chunks.now }
    ensures inserted { (x : ChunkPayloadData)
        → x.tsn ≡ tsn → insert chunks.now result x ≡ insert_before chunk_before x chunks.now }
    ensures not_back { turns.old ≤ turns.new }
    ensures cost { turns.new ≤ turns.old + length chunks.now }
{
    first_after(chunks, tsn, turns)
}

// The place of the first fragment that the number comes before, or the end.
fn first_after(chunks: &[Fragment], tsn: u32, turns: &mut Turns) -> usize
    ensures place { result ≡ position_or_len (λ e. comes_before tsn e.tsn) chunks.now }
    ensures in_range { result ≤ length chunks.now }
    ensures not_back { turns.old ≤ turns.new }
    ensures cost { turns.new ≤ turns.old + length chunks.now }
{
    for (place, chunk) in chunks.iter().enumerate() {
        turns.tick();
        if sna32lt(tsn, chunk.tsn) {
            return place;
        }
    }
    chunks.len()
}

/// Where a fragment of this TSN is put in, or nothing where it is there: by halves among TSNs that ascend.
pub(crate) fn insertion(
    ascending: bool,
    chunks: &[Fragment],
    tsn: u32,
    turns: &mut Turns,
) -> Option<Insertion>
    requires order { IsOrder ascending (map (λ c. c.tsn) chunks.now) }
    requires exact { IsOffOnlyOutOfOrder ascending (map (λ c. c.tsn) chunks.now) }
    ensures there { IfNone result (list_any (has_tsn tsn) chunks.now ≡ true) }
    ensures free { IfSome result (λ at.
        IsInsertion (has_tsn tsn) (λ c. c.tsn) chunk_before chunks.now at.place at.ascending) }
    ensures exact { IfSome result (λ at. (x : ChunkPayloadData) → x.tsn ≡ tsn
        → IsOffOnlyOutOfOrder at.ascending (map (λ c. c.tsn) (insert chunks.now at.place x))) }
    ensures not_back { turns.old ≤ turns.new }
    ensures cost { turns.new ≤ turns.old + 2 * length chunks.now + 3 }
    ensures few { ascending ≡ true → turns.new ≤ turns.old + digits (length chunks.now) + 3 }
{
    let len = chunks.len();
    if len == 0 {
        return Some(Insertion {
            place: 0,
            ascending: true,
        });
    }
    if !ascending {
        return insertion_by_walk(chunks, tsn, turns);
    }
    turns.tick();
    let first = tsn_of(&chunks[0]);
    let far = distance(first, tsn);
    if far == 1 << 31 {
        return Some(Insertion {
            place: len,
            ascending: false,
        });
    }
    turns.tick();
    if far > 1 << 31 {
        let ascending = distance(tsn, tsn_of(&chunks[len - 1])) < 1 << 31;
        return Some(Insertion {
            place: 0,
            ascending,
        });
    }
    let place = place_within(chunks, first, far, turns);
    if chunks[place - 1].tsn == tsn {
        return None;
    }
    Some(Insertion {
        place,
        ascending: true,
    })
}

// The place behind the fragments that lie no farther from the first TSN. The last is looked at first.
fn place_within(chunks: &[Fragment], first: u32, far: u32, turns: &mut Turns) -> usize
    requires { IsNonDecreasingBy (λ c. distance first c.tsn) chunks.now }
    ensures in_range { result ≤ length chunks.now }
    ensures split { IsPartitionPoint
        (λ c. distance first c.tsn ≤ far) (λ c. far < distance first c.tsn) chunks.now result }
    ensures not_back { turns.old ≤ turns.new }
    ensures cost { turns.new ≤ turns.old + digits (length chunks.now) + 1 }
{
    let len = chunks.len();
    if len > 0 {
        turns.tick();
        if distance(first, chunks[len - 1].tsn) <= far {
            return len;
        }
    }
    by_halves(chunks, first, far, turns)
}

// The same by halves.
#[inline(never)]
fn by_halves(chunks: &[Fragment], first: u32, far: u32, turns: &mut Turns) -> usize
    requires { IsNonDecreasingBy (λ c. distance first c.tsn) chunks.now }
    ensures in_range { result ≤ length chunks.now }
    ensures split { IsPartitionPoint
        (λ c. distance first c.tsn ≤ far) (λ c. far < distance first c.tsn) chunks.now result }
    ensures not_back { turns.old ≤ turns.new }
    ensures cost { IsWithinDigits (length chunks.now) (turns.new - turns.old) }
{
    let mut low = 0;
    let mut high = chunks.len();
    while low < high {
        let middle = low + (high - low) / 2;
        turns.tick();
        let here = distance(first, chunks[middle].tsn);
        if here <= far {
            low = middle + 1;
        } else {
            high = middle;
        }
    }
    low
}

// The same by a walk, among TSNs that do not ascend.
#[inline(never)]
fn insertion_by_walk(chunks: &[Fragment], tsn: u32, turns: &mut Turns) -> Option<Insertion>
    requires { IsAscending (map (λ c. c.tsn) chunks.now) → ⊥ }
    ensures there { IfNone result (list_any (has_tsn tsn) chunks.now ≡ true) }
    ensures free { IfSome result (λ at.
        IsInsertion (has_tsn tsn) (λ c. c.tsn) chunk_before chunks.now at.place at.ascending) }
    ensures exact { IfSome result (λ at. (x : ChunkPayloadData) → x.tsn ≡ tsn
        → IsOffOnlyOutOfOrder at.ascending (map (λ c. c.tsn) (insert chunks.now at.place x))) }
    ensures not_back { turns.old ≤ turns.new }
    ensures cost { turns.new ≤ turns.old + 2 * length chunks.now }
{
    if has_number(chunks, tsn, turns) {
        return None;
    }
    Some(Insertion {
        place: insertion_place(chunks, tsn, turns),
        ascending: false,
    })
}

/// The TSN of a fragment.
pub(crate) fn tsn_of(fragment: &Fragment) -> u32
    ensures value { result ≡ fragment.now.tsn }
    ensures fits { result < 2 ^ 32 }
{
    fragment.tsn
}

// Whether a fragment has the number.
fn has_number(chunks: &[Fragment], tsn: u32, turns: &mut Turns) -> bool
    ensures value { result ≡ list_any (has_tsn tsn) chunks.now }
    ensures not_back { turns.old ≤ turns.new }
    ensures cost { turns.new ≤ turns.old + length chunks.now }
{
    for place in 0..chunks.len() {
        turns.tick();
        if chunks[place].tsn == tsn {
            return true;
        }
    }
    false
}
