//! Of the places of streams, which a FORWARD-TSN visits.

ghost use Rattle.std.specs.Prelude.{◌≡◌, ◌==◌, ◌<◌, ◌≤◌, ◌+◌, ◌-◌, ℕ, [], true, false, Some, IsOkUnless, OnOk, length, slice_get, slice_set, option_map, min, vec_capacity, if◌then◌else◌};
ghost use Rattle.sctp_util.specs.declared.error.Error.TheVariants.{ErrOutOfMemory};
ghost use Rattle.sctp_receiver.specs.Visited.{AreInverse, is_visited, swapped};

use crate::receiver::spans::TsnSpan;
use sctp_stream::stream_numbers::{make_place, put};
use sctp_util::error::Result;
use std::alloc::Global;
use std::marker::Model;

/// The places of streams, in an order in which those that are visited come first; and beside one another, what tells of each stream
/// whether a FORWARD-TSN may discard anything of it, so that the stream need not be read for that.
#[derive(Drop)]
pub(crate) struct Visits {
    // the places, in that order
    order: Vec<usize>,
    // by place, at which spot of the order it stands
    spots: Vec<usize>,
    // how many are visited
    count: usize,
    // by place, outside of which TSNs a FORWARD-TSN discards nothing of the stream
    spans: Vec<TsnSpan>,
}

impl Model for Visits {
    ghost use Rattle.std.specs.Prelude.{◌≡◌, ◌≤◌, ◌-◌, min, length, vec_capacity};
    ghost use Rattle.sctp_receiver.specs.Visited.{VisitOrder, AreInverse};

    ghost Value = { VisitOrder };

    ghost view = { λ v. record {
      order = v.order.items;
      spots = v.spots.items;
      count = v.count;
      spans = v.spans.items;
      room = min (min (vec_capacity v.order - length v.order.items)
          (vec_capacity v.spots - length v.spots.items))
          (vec_capacity v.spans - length v.spans.items);
    } };

    ghost invariant = { λ v. record {
      inverse : AreInverse v.order.items v.spots.items;
      same : length v.order.items ≡ length v.spots.items;
      within : v.count ≤ length v.order.items;
      spans : length v.spans.items ≡ length v.spots.items;
    } };
}

impl Visits {
    /// No places. It takes no memory.
    pub(crate) fn new(alloc: Global) -> Self
        ensures places { result.spots ≡ [] }
    {
        Visits {
            order: Vec::new(alloc),
            spots: Vec::new(alloc),
            count: 0,
            spans: Vec::new(alloc),
        }
    }

    /// Makes room for one place more. Refuses only for memory.
    pub(crate) fn reserve(&mut self) -> Result<()>
        ensures rest { self.new ≡ record self.old { room = self.new.room } }
        ensures room { OnOk result (0 < self.new.room) }
        ensures memory { IsOkUnless result ErrOutOfMemory }
    {
        make_place(&mut self.order)?;
        make_place(&mut self.spots)?;
        make_place(&mut self.spans)?;
        Ok(())
    }

    /// Puts a place behind the others, which is not visited. It takes no memory.
    /// Precondition: there is room for it (`reserve`).
    pub(crate) fn push(&mut self)
        requires { 0 < self.old.room }
        ensures visited { (p : ℕ) → is_visited p self.new ≡ is_visited p self.old }
        ensures places { length self.new.spots ≡ length self.old.spots + 1 }
        ensures spans { (p : ℕ) → p < length self.old.spots
            → slice_get self.new.spans p ≡ slice_get self.old.spans p }
    {
        let place = self.spots.len();
        let spot = self.order.len();
        put(&mut self.order, place);
        put(&mut self.spots, spot);
        put(&mut self.spans, TsnSpan::whole());
    }

    /// How many are visited.
    pub(crate) fn len(&self) -> usize
        ensures count { result ≡ self.now.count }
        ensures within { self.now.count ≤ length self.now.order }
        ensures inverse { AreInverse self.now.order self.now.spots }
    {
        self.count
    }

    /// The place at a spot.
    /// Precondition: it is one of those that are visited.
    pub(crate) fn at(&self, spot: usize) -> usize
        requires { spot < self.now.count }
        ensures place { slice_get self.now.order spot ≡ Some result }
        ensures inverse { AreInverse self.now.order self.now.spots }
        ensures in_range { result < length self.now.spots }
    {
        self.order[spot]
    }

    /// Outside of which TSNs a FORWARD-TSN discards nothing of the stream at a place.
    /// Precondition: it is a place.
    pub(crate) fn span_at(&self, place: usize) -> TsnSpan
        requires { place < length self.now.spots }
        ensures { slice_get self.now.spans place ≡ Some result }
    {
        self.spans[place]
    }

    /// Notes that for a place. It takes no memory.
    /// Precondition: it is a place.
    pub(crate) fn set_span(&mut self, place: usize, span: TsnSpan)
        requires { place < length self.old.spots }
        ensures rest { self.new ≡ record self.old {
          spans = slice_set self.old.spans place span;
        } }
        ensures in_range { place < length self.old.spans }
    {
        self.spans[place] = span;
    }

    // At which spot a place stands.
    // Precondition: it is a place.
    fn spot_of(&self, place: usize) -> usize
        requires { place < length self.now.spots }
        ensures spot { slice_get self.now.spots place ≡ Some result }
        ensures in_range { result < length self.now.order }
    {
        self.spots[place]
    }

    /// From here on a place is visited. It takes no memory.
    /// Precondition: it is a place.
    pub(crate) fn insert(&mut self, place: usize)
        requires { place < length self.old.spots }
        ensures visited { (p : ℕ) → is_visited p self.new
            ≡ (if p == place then true else is_visited p self.old) }
        ensures places { length self.new.spots ≡ length self.old.spots }
        ensures spans { self.new.spans ≡ self.old.spans }
    {
        let spot = self.spot_of(place);
        let first = self.count;
        if spot < first {
            return;
        }
        swap(&mut self.order, &mut self.spots, spot, first);
        self.count = first + 1;
    }

    /// From here on a place is visited no more: the last one that is visited takes its spot. It takes no memory.
    /// Precondition: it is a place.
    pub(crate) fn remove(&mut self, place: usize)
        requires { place < length self.old.spots }
        ensures visited { (p : ℕ) → is_visited p self.new
            ≡ (if p == place then false else is_visited p self.old) }
        ensures places { length self.new.spots ≡ length self.old.spots }
        ensures spans { self.new.spans ≡ self.old.spans }
        ensures moved { (i k : ℕ) → slice_get self.old.spots place ≡ Some i → i < self.old.count
            → slice_get self.new.order k ≡ slice_get self.old.order (swapped i self.new.count k) }
        ensures count { is_visited place self.old ≡ true → self.new.count + 1 ≡ self.old.count }
        ensures inverse { AreInverse self.new.order self.new.spots }
    {
        let spot = self.spot_of(place);
        if spot >= self.count {
            return;
        }
        let last = self.count - 1;
        swap(&mut self.order, &mut self.spots, spot, last);
        self.count = last;
    }

    // Whether a place is visited.
    // Precondition: it is a place.
    fn is_visited(&self, place: usize) -> bool
        requires { place < length self.now.spots }
        ensures { result ≡ is_visited place self.now }
    {
        self.spot_of(place) < self.count
    }

    /// A place is no more: the last one takes it, and it is visited from here on where that was. It takes no memory.
    /// Precondition: it is a place.
    pub(crate) fn swap_remove(&mut self, place: usize)
        requires { place < length self.old.spots }
        ensures visited { (p : ℕ) → p < length self.new.spots → is_visited p self.new
            ≡ is_visited (if p == place then length self.new.spots else p) self.old }
        ensures places { length self.new.spots + 1 ≡ length self.old.spots }
        ensures spans { (p : ℕ) → p < length self.new.spots → slice_get self.new.spans p
            ≡ slice_get self.old.spans (if p == place then length self.new.spots else p) }
    {
        let last = self.spots.len() - 1;
        let span = self.span_at(last);
        self.set_span(place, span);
        let visited = self.is_visited(last);
        self.set(place, visited);
        self.remove(last);
        self.pop();
    }

    // From here on a place is visited, or it is not. It takes no memory.
    // Precondition: it is a place.
    fn set(&mut self, place: usize, visited: bool)
        requires { place < length self.old.spots }
        ensures visited { (p : ℕ) → is_visited p self.new
            ≡ (if p == place then visited else is_visited p self.old) }
        ensures places { length self.new.spots ≡ length self.old.spots }
        ensures spans { self.new.spans ≡ self.old.spans }
    {
        if visited {
            self.insert(place);
        } else {
            self.remove(place);
        }
    }

    // The last place is no more. It takes no memory.
    // Precondition: there is one, and it is not visited.
    fn pop(&mut self)
        requires some { 0 < length self.old.spots }
        requires rest { is_visited (length self.old.spots - 1) self.old ≡ false }
        ensures visited { (p : ℕ) → p < length self.new.spots
            → is_visited p self.new ≡ is_visited p self.old }
        ensures places { length self.new.spots + 1 ≡ length self.old.spots }
        ensures spans { (p : ℕ) → p < length self.new.spots
            → slice_get self.new.spans p ≡ slice_get self.old.spans p }
    {
        let end = self.spots.len() - 1;
        let spot = self.spots[end];
        swap(&mut self.order, &mut self.spots, spot, end);
        let _ = self.order.pop();
        let _ = self.spots.pop();
        let _ = self.spans.pop();
    }
}

// What stands at two spots changes places.
// Precondition: both are spots.
fn swap(order: &mut Vec<usize>, spots: &mut Vec<usize>, i: usize, j: usize)
    requires inverse { AreInverse order.old.items spots.old.items }
    requires first { i < length order.old.items }
    requires second { j < length order.old.items }
    ensures order { (k : ℕ)
        → slice_get order.new.items k ≡ slice_get order.old.items (swapped i j k) }
    ensures spots { (p : ℕ) → slice_get spots.new.items p
        ≡ option_map (swapped i j) (slice_get spots.old.items p) }
    ensures same { length order.new.items ≡ length order.old.items }
    ensures places { length spots.new.items ≡ length spots.old.items }
{
    let here = order[i];
    let there = order[j];
    order[i] = there;
    order[j] = here;
    spots[here] = j;
    spots[there] = i;
}
