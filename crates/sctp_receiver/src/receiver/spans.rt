//! Stretches of TSNs, outside of which a FORWARD-TSN discards nothing of a stream (RFC 3758 3.6).

ghost use Rattle.std.specs.Prelude.{◌≡◌, ◌<◌, ◌^◌, ◌+◌, ℕ, true, false, not, length, IfSome, IfNone};
ghost use Rattle.std.specs.List.{list_any};
ghost use Rattle.sctp_reassembly.specs.reassembly_queue.Fragments.{is_complete};
ghost use Rattle.sctp_receiver.specs.Spans.{is_outside, lies_past, chunk_outside, sets_outside, front_outside};

use sctp_reassembly::reassembly_queue::ReassemblyQueue;
use sctp_reassembly::reassembly_queue::chunks::Fragments;
use sctp_serial::serial::distance;
use sctp_serial::turns::Turns;
use std::collections::VecDeque;

/// The TSNs from the first one on, up to so many after it. Of a stream it has the fragments of its incomplete ordered messages, or of all
/// its unread ordered messages; and the first of its unassembled fragments.
#[derive(Clone, Copy)]
pub(crate) struct TsnSpan {
    first: u32,
    length: u32,
    // whether it has the complete messages too
    all: bool,
}

impl TsnSpan {
    /// Every TSN: nothing is known.
    pub(crate) fn whole() -> Self
        ensures outside { (t : ℕ) → is_outside result t ≡ false }
        ensures all { result.all ≡ true }
    {
        TsnSpan {
            first: 0,
            length: u32::MAX,
            all: true,
        }
    }

    /// One TSN.
    pub(crate) fn of(tsn: u32, all: bool) -> Self
        ensures here { is_outside result tsn ≡ false }
        ensures all { result.all ≡ all }
        ensures fits { tsn < 2 ^ 32 }
    {
        TsnSpan {
            first: tsn,
            length: 0,
            all,
        }
    }

    /// The same TSNs, of all messages or not.
    pub(crate) fn of_all(self, all: bool) -> Self
        ensures { result ≡ record self { all = all } }
    {
        TsnSpan {
            first: self.first,
            length: self.length,
            all,
        }
    }

    /// With another TSN: it is made longer on the side where that makes it less long.
    pub(crate) fn with(self, tsn: u32) -> Self
        ensures here { is_outside result tsn ≡ false }
        ensures wider { (t : ℕ) → is_outside self t ≡ false → is_outside result t ≡ false }
        ensures all { result.all ≡ self.all }
    {
        let ahead = distance(self.first, tsn);
        if ahead <= self.length {
            return self;
        }
        let behind = distance(tsn, self.first);
        if ahead <= behind {
            return TsnSpan {
                first: self.first,
                length: ahead,
                all: self.all,
            };
        }
        TsnSpan {
            first: tsn,
            length: self.length.saturating_add(behind),
            all: self.all,
        }
    }

    /// After a fragment with a TSN came, on a stream that had unread ordered messages or was empty of these. It may be one of a complete
    /// message: where the stretch has not all of them nothing is known.
    pub(crate) fn pushed(self, was_empty: bool, tsn: u32) -> Self
        ensures here { is_outside result tsn ≡ false }
        ensures wider { (t : ℕ) → was_empty ≡ false → (self.all ≡ true → is_outside self t ≡ false)
            → is_outside result t ≡ false }
        ensures all { result.all ≡ true }
    {
        if was_empty {
            return TsnSpan::of(tsn, true);
        }
        if self.all {
            self.with(tsn)
        } else {
            TsnSpan::whole()
        }
    }

    /// Whether a TSN lies so far before it that a FORWARD-TSN up to it discards nothing of the stream.
    pub(crate) fn lies_past(self, tsn: u32) -> bool
        ensures value { result ≡ lies_past tsn self }
        ensures first_fits { self.first < 2 ^ 32 }
        ensures tsn_fits { tsn < 2 ^ 32 }
    {
        let ahead = distance(tsn, self.first);
        ahead >= 2 && u64::from(ahead) + u64::from(self.length) < 1 << 31
    }
}

/// With the first of a queue's unassembled fragments, where it has any.
pub(crate) fn with_front(span: TsnSpan, queue: &ReassemblyQueue) -> TsnSpan
    ensures front { front_outside result queue.now.held.unassembled ≡ false }
    ensures wider { (t : ℕ) → is_outside span t ≡ false → is_outside result t ≡ false }
    ensures all { result.all ≡ span.all }
{
    match queue.unordered_chunks().front() {
        Some(chunk) => span.with(chunk.tsn),
        None => span,
    }
}

/// The stretch that has the fragments of each incomplete message, and of no other; None where none is incomplete. A turn is taken for
/// each message.
pub(crate) fn measure(sets: &VecDeque<Fragments>, skips: &mut Turns) -> Option<TsnSpan>
    ensures some { IfSome result (λ span. sets_outside span sets.now.items ≡ false) }
    ensures none { IfNone result
        (list_any (λ s. not (is_complete s.chunks)) sets.now.items ≡ false) }
    ensures walk { skips.new ≡ skips.old + length sets.now.items }
{
    let mut span = None;
    let mut all = true;
    for place in 0..sets.len() {
        skips.tick();
        if sets[place].is_complete() {
            all = false;
        } else {
            span = Some(with_set(span, &sets[place]));
        }
    }
    match span {
        Some(span) => Some(span.of_all(all)),
        None => None,
    }
}

// With each fragment of a message. Of a message without fragments nothing is known.
fn with_set(before: Option<TsnSpan>, set: &Fragments) -> TsnSpan
    ensures here { list_any (chunk_outside result) set.now.chunks ≡ false }
    ensures wider { IfSome before (λ span. (t : ℕ) → is_outside span t ≡ false
        → is_outside result t ≡ false) }
{
    let chunks = set.fragments();
    let Some(first) = chunks.first() else {
        return TsnSpan::whole();
    };
    let mut span = match before {
        Some(span) => span,
        None => TsnSpan::of(first.tsn, true),
    };
    for place in 0..chunks.len() {
        span = span.with(chunks[place].tsn);
    }
    span
}
