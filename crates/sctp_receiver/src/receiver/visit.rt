//! The streams that a FORWARD-TSN visits beside those that it names (RFC 3758 3.6).

ghost use Rattle.std.specs.Prelude.{◌≡◌, ◌==◌, ◌<◌, ◌≤◌, ◌+◌, ◌&&◌, ◌||◌, ℕ, true, false, not, length, map, slice_get, slice_index_or, slice_set, Some, IfSome, IfNone};
ghost use Rattle.std.specs.List.{list_any, sum_by};
ghost use Rattle.sctp_reassembly.specs.reassembly_queue.Fragments.{is_complete};
ghost use Rattle.sctp_receiver.specs.declared.receiver.inbound_streams.InboundStream.{InboundStream};
ghost use Rattle.sctp_receiver.specs.declared.receiver.spans.TsnSpan.{TsnSpan};
ghost use Rattle.sctp_receiver.specs.Limits.{cost_within};
ghost use Rattle.sctp_receiver.specs.SkipCosts.{visit_walk, settle_walk, walk_by_spans};
ghost use Rattle.sctp_receiver.specs.Spans.{sets_outside, holds_outside};
ghost use Rattle.sctp_receiver.specs.Visited.{after_skip, skip_forwarded, holds_any, holds_incomplete, is_visited, IsListing, to_visit};

use crate::receiver::inbound_streams::{InboundStream, moved};
use crate::receiver::limits::cost_of;
use crate::receiver::spans::{TsnSpan, measure, with_front};
use crate::receiver::visits::Visits;
use sctp_reassembly::reassembly_queue::ReassemblyQueue;
use sctp_serial::turns::Turns;

/// What a FORWARD-TSN discards of streams without naming them.
#[derive(Clone, Copy)]
pub(crate) enum Skip {
    /// The unassembled fragments up to its TSN.
    Unassembled,
    /// The incomplete ordered messages that miss a TSN up to its own.
    Incomplete,
}

// Whether it has unassembled fragments, or ordered messages that were not read.
fn holds_any(queue: &ReassemblyQueue) -> bool
    ensures { result ≡ holds_any queue.now.held }
{
    !queue.unordered_chunks().is_empty() || !queue.ordered().is_empty()
}

// Outside of which TSNs nothing of a stream is discarded after such a skip; None where it need not be visited again. After one of incomplete
// messages each message is looked at: it is visited again where one is incomplete, or it has unassembled fragments. After one of
// unassembled fragments none is: it is visited again where it has any.
// Precondition: the messages have no fragment outside of what was noted before.
fn span_after(
    queue: &ReassemblyQueue,
    before: TsnSpan,
    skip: Skip,
    skips: &mut Turns,
) -> Option<TsnSpan>
    requires { sets_outside before queue.now.held.ordered ≡ false }
    ensures no { IfNone result (holds_incomplete queue.now.held ≡ false) }
    ensures yes { IfSome result (λ span. holds_any queue.now.held ≡ true) }
    ensures covers { IfSome result (λ span. holds_outside span queue.now.held ≡ false) }
    ensures not_back { skips.old ≤ skips.new }
    ensures walk { skips.new ≤ skips.old + settle_walk skip queue.now.held }
{
    let is_any = holds_any(queue);
    if !is_any {
        return None;
    }
    match skip {
        Skip::Unassembled => Some(with_front(before, queue)),
        Skip::Incomplete => match measure(queue.ordered(), skips) {
            Some(span) => Some(with_front(span, queue)),
            None => front_span(queue),
        },
    }
}

// The stretch of the first unassembled fragment alone; None where there is none.
// Precondition: no message is incomplete.
fn front_span(queue: &ReassemblyQueue) -> Option<TsnSpan>
    requires { list_any (λ s. not (is_complete s.chunks)) queue.now.held.ordered ≡ false }
    ensures no { IfNone result (holds_incomplete queue.now.held ≡ false) }
    ensures yes { IfSome result (λ span. holds_any queue.now.held ≡ true) }
    ensures covers { IfSome result (λ span. holds_outside span queue.now.held ≡ false) }
{
    match queue.unordered_chunks().front() {
        Some(chunk) => Some(TsnSpan::of(chunk.tsn, false)),
        None => None,
    }
}

/// The stream at a place has changed. From here on it is visited where it was before, and where `is_more` says that something incomplete
/// may have come; but not where it has neither unassembled fragments nor ordered messages. It takes no memory.
/// Precondition: it is a place.
pub(crate) fn renew(visits: &mut Visits, place: usize, queue: &ReassemblyQueue, is_more: bool)
    requires { place < length visits.old.spots }
    ensures places { length visits.new.spots ≡ length visits.old.spots }
    ensures others { (p : ℕ) → (p == place) ≡ false
        → is_visited p visits.new ≡ is_visited p visits.old }
    ensures here { is_visited place visits.new
        ≡ (holds_any queue.now.held && (is_more || is_visited place visits.old)) }
    ensures spans { visits.new.spans ≡ visits.old.spans }
{
    if !holds_any(queue) {
        visits.remove(place);
        return;
    }
    if is_more {
        visits.insert(place);
    }
}

/// The same where something may have come. Its messages have no fragment outside of these TSNs. Where it has unassembled fragments the
/// first of them is added. It takes no memory.
/// Precondition: it is a place, and its messages have none outside.
pub(crate) fn renew_within(
    visits: &mut Visits,
    place: usize,
    queue: &ReassemblyQueue,
    span: TsnSpan,
)
    requires place { place < length visits.old.spots }
    requires within { sets_outside span queue.now.held.ordered ≡ false }
    ensures places { length visits.new.spots ≡ length visits.old.spots }
    ensures others { (p : ℕ) → (p == place) ≡ false
        → is_visited p visits.new ≡ is_visited p visits.old }
    ensures here { is_visited place visits.new ≡ holds_any queue.now.held }
    ensures other_spans { (p : ℕ) → (p == place) ≡ false
        → slice_get visits.new.spans p ≡ slice_get visits.old.spans p }
    ensures span { (s : TsnSpan) → slice_get visits.new.spans place ≡ Some s
        → holds_outside s queue.now.held ≡ false }
{
    visits.set_span(place, with_front(span, queue));
    renew(visits, place, queue, true);
}

/// Discards, as the skip says, on each stream that is visited and is not noted to lie past the TSN; on the others there is nothing to
/// discard, and they are not read. Streams that need no visit any more are visited no more. Answers what all streams count for then. A turn
/// is taken for each that is visited, and those within streams are added to `skips`. It takes no memory.
/// Precondition: the cost is what all streams count for; those that are visited, and those that are not, are as `IsListing` says.
pub(crate) fn forward_each(
    streams: &mut Vec<InboundStream>,
    cost: u128,
    visits: &mut Visits,
    skip: Skip,
    tsn: u32,
    turns: &mut Turns,
    skips: &mut Turns,
) -> u128
    requires cost { cost ≡ sum_by cost_within streams.old.items }
    requires listing { IsListing visits.old streams.old.items }
    ensures value { streams.new.items ≡ map (skip_forwarded skip tsn) streams.old.items }
    ensures cost { result ≡ sum_by cost_within streams.new.items }
    ensures listing { IsListing visits.new streams.new.items }
    ensures not_back { turns.old ≤ turns.new }
    ensures few { turns.new ≤ turns.old + length (to_visit streams.old.items) }
    ensures skips_not_back { skips.old ≤ skips.new }
    ensures past { skips.new
        ≤ skips.old + walk_by_spans skip tsn visits.old.spans streams.old.items }
    ensures walk { skips.new ≤ skips.old
        + sum_by (λ l. visit_walk skip l.queue.held) (to_visit streams.old.items)
        + sum_by (λ l. settle_walk skip l.queue.held) (to_visit streams.old.items) }
{
    let mut cost = cost;
    let mut left = visits.len();
    while left > 0 {
        left -= 1;
        turns.tick();
        let place = visits.at(left);
        let span = visits.span_at(place);
        if span.lies_past(tsn) {
            continue;
        }
        cost = forward_at(streams, cost, place, skip, tsn, skips);
        match span_after(&streams[place].queue, span, skip, skips) {
            Some(after) => visits.set_span(place, after),
            None => visits.remove(place),
        }
    }
    cost
}

// The same on the stream at a place.
fn forward_at(
    streams: &mut Vec<InboundStream>,
    cost: u128,
    place: usize,
    skip: Skip,
    tsn: u32,
    skips: &mut Turns,
) -> u128
    requires place { place < length streams.old.items }
    requires cost { cost ≡ sum_by cost_within streams.old.items }
    ensures value { (d : InboundStream) → streams.new.items ≡ slice_set streams.old.items place
        (skip_forwarded skip tsn (slice_index_or streams.old.items place d)) }
    ensures cost { result ≡ sum_by cost_within streams.new.items }
    ensures not_back { skips.old ≤ skips.new }
    ensures walk { (d : InboundStream) → skips.new ≤ skips.old
        + visit_walk skip (slice_index_or streams.old.items place d).queue.held }
{
    let stream = &mut streams[place];
    let before = cost_of(&stream.queue);
    skip_on(&mut stream.queue, skip, tsn, skips);
    moved(cost, before, cost_of(&stream.queue))
}

// The same on a queue.
fn skip_on(queue: &mut ReassemblyQueue, skip: Skip, tsn: u32, skips: &mut Turns)
    ensures value { queue.new ≡ after_skip skip tsn queue.old }
    ensures not_back { skips.old ≤ skips.new }
    ensures walk { skips.new ≤ skips.old + visit_walk skip queue.old.held }
{
    match skip {
        Skip::Unassembled => queue.forward_tsn_for_unordered_counted(tsn, skips),
        Skip::Incomplete => queue.forward_tsn_for_incomplete_counted(tsn, skips),
    }
}
