//! What the arrival of slots changes of what a link keeps of them.

ghost use Rattle.std.specs.Prelude.{◌≡◌, ◌<◌, ◌≤◌, ◌+◌, ◌++◌, ℕ, IfOk, IsOkUnless, length, map, slice_index_or, vec_len, vec_capacity};
ghost use Rattle.std.specs.List.{list_any};
ghost use Rattle.sctp_util.specs.declared.error.Error.TheVariants.{ErrOutOfMemory};
ghost use Rattle.sctp_link.specs.Receiving.{number_at, arrived_in, repeated_of, is_first};

use crate::record::Slot;
use sctp_receiver::receiver::arrival::Arrival;
use sctp_util::error::Result;
use std::alloc::Global;

/// The numbers of the messages of these slots. Refuses only for memory.
/// Precondition: each place is that of a slot.
pub(super) fn message_numbers(alloc: Global, slots: &[Slot], places: &[u64]) -> Result<Vec<u64>>
    requires { (i : ℕ) → i < length places.now
        → slice_index_or places.now i 0 < length slots.now }
    ensures numbers { IfOk result (λ ns. ns.items ≡ map (number_at slots.now) places.now) }
    ensures memory { IsOkUnless result ErrOutOfMemory }
{
    let mut numbers = Vec::new(alloc);
    for place in places {
        numbers.push(slots[*place as usize].message)?;
    }
    Ok(numbers)
}

/// Records of each of these slots, one after another, that it arrived, or that it came again. Answers whether one arrived.
/// Precondition: each place is that of a slot and has one answer, and there is room for as many duplicates.
pub(super) fn record_arrivals(
    slots: &mut [Slot],
    duplicates: &mut Vec<u64>,
    places: &[u64],
    arrivals: &[Arrival],
) -> bool
    requires inside { (i : ℕ) → i < length places.now
        → slice_index_or places.now i 0 < length slots.old }
    requires count { length arrivals.now ≡ length places.now }
    requires room { vec_len duplicates.old + length places.now ≤ vec_capacity duplicates.old }
    ensures slots { slots.new ≡ arrived_in places.now arrivals.now slots.old }
    ensures duplicates { duplicates.new.items
        ≡ duplicates.old.items ++ repeated_of places.now arrivals.now }
    ensures new { result ≡ list_any is_first arrivals.now }
{
    let mut new = false;
    for at in 0..places.len() {
        match arrivals[at] {
            Arrival::New { .. } => {
                slots[places[at] as usize].arrived = true;
                new = true;
            }
            Arrival::Repeat => duplicates.push_reserved(places[at]),
        }
    }
    new
}
