//! Skips that stop before messages whose TSNs lie past a bound.

ghost use Rattle.std.specs.Prelude.{◌≡◌, ◌==◌, ◌+◌, ◌-◌, ◌*◌, ◌%◌, ◌^◌, ◌≤◌, ◌&&◌, ◌||◌, length, min, not, None, if◌then◌else◌};
ghost use Rattle.std.specs.List.{All, list_any, list_all, filter};
ghost use Rattle.sctp_util.specs.Serial.{comes_before16, at_or_before, comes_after};
ghost use Rattle.sctp_serial.specs.DataChunks.{bytes_of};
ghost use Rattle.sctp_reassembly.specs.reassembly_queue.Counts.{set_chunks};
ghost use Rattle.sctp_reassembly.specs.reassembly_queue.Fragments.{has_ssn};
ghost use Rattle.sctp_reassembly.specs.reassembly_queue.Orders.{IsInOrder};
ghost use Rattle.sctp_reassembly.specs.reassembly_queue.ReassemblyQueue.{set_bytes};
ghost use Rattle.sctp_reassembly.specs.reassembly_queue.Skips.{misses, misses_behind, cannot_complete, is_discarded, is_abandoned, is_unaffected, earlier_ssn, goal_of, is_covered, settles, earlier_tsn, earliest_among, earliest_from, is_from, is_upto, begins_upto, is_passable, later_ssn, latest_passable};

use crate::reassembly_queue::chunks::Fragments;
use crate::reassembly_queue::fragment::Fragment;
use crate::reassembly_queue::ordered_skips::SsnSpan;
use sctp_serial::turns::Turns;
use sctp_util::util::{sna16gt, sna16lt, sna16lte, sna32gt, sna32lt, sna32lte};
use std::collections::VecDeque;

// Whether a TSN at or before the given one is missing in a set.
fn misses(chunks: &[Fragment], tsn: u32, turns: &mut Turns) -> bool
    ensures value { result ≡ misses tsn chunks.now }
    ensures not_back { turns.old ≤ turns.new }
    ensures cost { turns.new ≤ turns.old + length chunks.now }
{
    let Some((first, rest)) = chunks.split_first() else {
        return false;
    };
    turns.tick();
    if !first.beginning_fragment && sna32lte(first.tsn.wrapping_sub(1), tsn) {
        return true;
    }
    misses_behind(first, rest, tsn, turns)
}

// Whether one is missing behind the first.
fn misses_behind(first: &Fragment, rest: &[Fragment], tsn: u32, turns: &mut Turns) -> bool
    ensures value { result ≡ misses_behind tsn first.now rest.now }
    ensures not_back { turns.old ≤ turns.new }
    ensures cost { turns.new ≤ turns.old + length rest.now }
{
    let mut last = first;
    for chunk in rest {
        turns.tick();
        let next = last.tsn.wrapping_add(1);
        if chunk.tsn != next && sna32lte(next, tsn) {
            return true;
        }
        last = chunk;
    }
    !last.ending_fragment && sna32lte(last.tsn.wrapping_add(1), tsn)
}

/// Removes the sets that a skip discards: the incomplete ones, those alone whose numbers are in the stretch where there is
/// one, and those alone that miss a TSN where there is a bound. Counts their bytes up to the greatest number. Its turns are added:
/// three for each set at most where there is no bound and TSNs ascend in each.
pub(crate) fn discard(
    sets: &mut VecDeque<Fragments>,
    passed: Option<SsnSpan>,
    bound: Option<u32>,
    turns: &mut Turns,
) -> usize
    ensures rest { sets.new.items ≡ filter (λ s. not
        (is_discarded passed bound s)) sets.old.items }
    ensures bytes { result
        ≡ min (set_bytes (filter (is_discarded passed bound) sets.old.items)) (2 ^ 64 - 1) }
    ensures not_back { turns.old ≤ turns.new }
    ensures few { bound ≡ None → All IsInOrder sets.old.items
        → turns.new ≤ turns.old + 3 * length sets.old.items }
    ensures walk { turns.new
        ≤ turns.old + 3 * length sets.old.items + 2 * set_chunks sets.old.items }
{
    let mut gone = 0usize;
    let mut place = 0;
    while place < sets.len() {
        if !is_discarded(&sets[place], passed, bound, turns) {
            place += 1;
            continue;
        }
        match sets.remove(place) {
            Some(set) => {
                gone = gone.saturating_add(bytes_gone(set));
            }
            None => unreachable!(),
        }
    }
    gone
}

// How many bytes a set carried that is dropped, or the greatest number where they are more.
fn bytes_gone(set: Fragments) -> usize
    ensures { result ≡ min (bytes_of set.chunks) (2 ^ 64 - 1) }
{
    set.len()
}

// Whether a skip gives the set up.
fn is_discarded(
    set: &Fragments,
    passed: Option<SsnSpan>,
    bound: Option<u32>,
    turns: &mut Turns,
) -> bool
    ensures value { result ≡ is_discarded passed bound set.now }
    ensures not_back { turns.old ≤ turns.new }
    ensures few { bound ≡ None → IsInOrder set.now → turns.new ≤ turns.old + 3 }
    ensures walk { turns.new ≤ turns.old + 2 * length set.now.chunks + 3 }
{
    turns.tick();
    if let Some(passed) = passed
        && !passed.holds(set.ssn())
    {
        return false;
    }
    match bound {
        Some(tsn) => cannot_complete(set, tsn, turns),
        None => !set.is_complete_counted(turns),
    }
}

/// Whether the set can't become complete, where all up to the TSN counts as come. Its turns are added.
pub(crate) fn cannot_complete(set: &Fragments, tsn: u32, turns: &mut Turns) -> bool
    ensures value { result ≡ cannot_complete tsn set.now }
    ensures not_back { turns.old ≤ turns.new }
    ensures walk { turns.new ≤ turns.old + 2 * length set.now.chunks + 2 }
{
    if set.is_complete_counted(turns) {
        return false;
    }
    misses(set.fragments(), tsn, turns)
}

// Whether it leaves the set alone, at or before the number.
fn is_unaffected(set: &Fragments, last_ssn: u16, tsn: u32) -> bool
    ensures { result ≡ is_unaffected last_ssn tsn set.now }
{
    if !sna16lte(set.ssn(), last_ssn) {
        return false;
    }
    if set.is_complete() {
        reaches_past(set.fragments(), tsn)
    } else {
        !misses(set.fragments(), tsn, &mut Turns::new())
    }
}

// Whether a fragment is after the TSN.
fn reaches_past(chunks: &[Fragment], tsn: u32) -> bool
    ensures { result ≡ list_any (λ c. comes_after c.tsn tsn) chunks.now }
{
    chunks.iter().any(|c| sna32gt(c.tsn, tsn))
}

/// How far the next number may go in such a skip.
pub(crate) fn goal(sets: &VecDeque<Fragments>, last_ssn: u16, tsn: u32) -> u16
    ensures { result ≡ goal_of last_ssn tsn sets.now.items }
{
    let mut goal = None;
    for place in 0..sets.len() {
        let set = &sets[place];
        if is_unaffected(set, last_ssn, tsn) {
            goal = Some(earlier_ssn(goal, set.ssn()));
        }
    }
    goal.unwrap_or(last_ssn.wrapping_add(1))
}

// Of two numbers the second where it comes before the first.
fn earlier_ssn(first: Option<u16>, ssn: u16) -> u16
    ensures { result ≡ earlier_ssn first ssn }
{
    match first {
        Some(first) => { if sna16lt(ssn, first) { ssn } else { first } }
        None => ssn,
    }
}

/// Whether a set of the last number is covered by the skip, or due next.
pub(crate) fn has_settled(
    sets: &VecDeque<Fragments>,
    next_ssn: u16,
    last_ssn: u16,
    tsn: u32,
) -> bool
    ensures { result ≡ list_any (settles next_ssn last_ssn tsn) sets.now.items }
{
    for place in 0..sets.len() {
        let set = &sets[place];
        if set.ssn() == last_ssn && (set.ssn() == next_ssn || is_covered(set, tsn)) {
            return true;
        }
    }
    false
}

// Whether the skip covers the set.
fn is_covered(set: &Fragments, tsn: u32) -> bool
    ensures { result ≡ is_covered tsn set.now }
{
    if set.is_complete() {
        lies_upto(set.fragments(), tsn)
    } else {
        misses(set.fragments(), tsn, &mut Turns::new())
    }
}

/// Whether every fragment is at or before the TSN.
pub(crate) fn lies_upto(chunks: &[Fragment], tsn: u32) -> bool
    ensures { result ≡ list_all (λ c. at_or_before c.tsn tsn) chunks.now }
{
    chunks.iter().all(|c| sna32lte(c.tsn, tsn))
}

/// The first TSN among the sets of the number or after it.
pub(crate) fn earliest_from(sets: &VecDeque<Fragments>, last_ssn: u16) -> Option<u32>
    ensures { result ≡ earliest_from None last_ssn sets.now.items }
{
    let mut first = None;
    for place in 0..sets.len() {
        let set = &sets[place];
        if set.ssn() == last_ssn || sna16gt(set.ssn(), last_ssn) {
            first = earliest_among(first, set.fragments());
        }
    }
    first
}

// The first of a TSN and those of fragments.
fn earliest_among(first: Option<u32>, chunks: &[Fragment]) -> Option<u32>
    ensures { result ≡ earliest_among first chunks.now }
{
    let mut first = first;
    for chunk in chunks {
        first = Some(earlier_tsn(first, chunk.tsn));
    }
    first
}

// Of two TSNs the second where it comes before the first.
fn earlier_tsn(first: Option<u32>, tsn: u32) -> u32
    ensures { result ≡ earlier_tsn first tsn }
{
    match first {
        Some(first) => { if sna32lt(tsn, first) { tsn } else { first } }
        None => tsn,
    }
}

/// The last number before the given one whose set the skip may pass.
pub(crate) fn latest_passable(
    sets: &VecDeque<Fragments>,
    next_ssn: u16,
    last_ssn: u16,
    tsn: u32,
    peer_last_tsn: u32,
) -> Option<u16>
    ensures { result ≡ latest_passable None next_ssn last_ssn tsn peer_last_tsn sets.now.items }
{
    let mut found = None;
    for place in 0..sets.len() {
        let set = &sets[place];
        if is_passable(set, next_ssn, last_ssn, tsn, peer_last_tsn) {
            found = Some(later_ssn(found, set.ssn()));
        }
    }
    found
}

// Whether the skip may pass the set, which lies between the next number and the last.
fn is_passable(set: &Fragments, next_ssn: u16, last_ssn: u16, tsn: u32, peer_last_tsn: u32) -> bool
    ensures { result ≡ is_passable next_ssn last_ssn tsn peer_last_tsn set.now }
{
    let ssn = set.ssn();
    if ssn != next_ssn && !sna16gt(ssn, next_ssn) {
        return false;
    }
    sna16lt(ssn, last_ssn) && (is_covered(set, tsn) || begins_upto(set.fragments(), peer_last_tsn))
}

// Whether the first fragment is at or before the TSN.
fn begins_upto(chunks: &[Fragment], tsn: u32) -> bool
    ensures { result ≡ begins_upto tsn chunks.now }
{
    match chunks.first() {
        Some(chunk) => sna32lte(chunk.tsn, tsn),
        None => false,
    }
}

// Of two numbers the second where it comes after the first.
fn later_ssn(last: Option<u16>, ssn: u16) -> u16
    ensures { result ≡ later_ssn last ssn }
{
    match last {
        Some(last) => { if sna16gt(ssn, last) { ssn } else { last } }
        None => ssn,
    }
}
