//! The first of the serial numbers that are keys of a map (RFC 1982).

ghost use Rattle.std.specs.Prelude.{◌≡◌, ℕ, ◌<◌, ◌≤◌, ◌⊎◌, ◌≢◌, None, true, false, IsSome, IfSome, IfNone};
ghost use Rattle.std.specs.BTreeMap as trees;
ghost use Rattle.std.specs.Ordering.{nat_cmp};
ghost use Rattle.sctp_util.specs.Serial.{at_or_before, comes_before};

use sctp_util::util::sna32lte;
use std::collections::BTreeMap;

/// The first key from a number on, or else the first one of all.
fn first_from<T>(map: &BTreeMap<u32, T>, start: u32) -> Option<u32>
    ensures some { IfSome result (λ k. IsSome (trees.get nat_cmp map.now k)) }
    ensures from { IfSome result (λ k. (n : ℕ) → IsSome (trees.get nat_cmp map.now n)
        → start ≤ n → (start ≤ k) × (k ≤ n)) }
    ensures below { IfSome result (λ k. (n : ℕ) → IsSome (trees.get nat_cmp map.now n)
        → n < start → (start ≤ k) ⊎ (k ≤ n)) }
    ensures few { IfSome result (λ k. k < 4294967296) }
    ensures none { IfNone result ((n : ℕ) → trees.get nat_cmp map.now n ≡ None) }
{
    if let Some((first, _)) = map.range(start..).next() {
        return Some(*first);
    }
    match map.first_key_value() {
        Some((first, _)) => Some(*first),
        None => None,
    }
}

/// The first key that is a number or comes before it, if there is one.
pub(crate) fn first_up_to<T>(map: &BTreeMap<u32, T>, number: u32) -> Option<u32>
    ensures some { IfSome result (λ k. IsSome (trees.get nat_cmp map.now k)) }
    ensures up_to { IfSome result (λ k. at_or_before k number ≡ true) }
    ensures few { IfSome result (λ k. k < 4294967296) }
    ensures first { IfSome result (λ k. (n : ℕ) → n < 4294967296
        → IsSome (trees.get nat_cmp map.now n) → at_or_before n number ≡ true → k ≢ n
        → comes_before k n ≡ true) }
    ensures none { IfNone result ((n : ℕ) → n < 4294967296
        → IsSome (trees.get nat_cmp map.now n) → at_or_before n number ≡ false) }
{
    let first = first_from(map, number.wrapping_sub(0x7FFF_FFFF))?;
    if sna32lte(first, number) {
        Some(first)
    } else {
        None
    }
}
