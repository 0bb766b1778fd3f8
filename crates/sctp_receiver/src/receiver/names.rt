//! What a FORWARD-TSN names (RFC 3758 3.2): noted for each stream first, and then made at once, so that a stream is walked once, however
//! often it is named.

ghost use Rattle.std.specs.Prelude.{◌≡◌, ◌<◌, ◌≤◌, ◌+◌, ◌⊎◌, ℕ, Some, None, MatchOption, IsOkUnless, OnOk, length, slice_get, slice_set, slice_index_or};
ghost use Rattle.std.specs.List.{sum_by};
ghost use Rattle.sctp_util.specs.declared.error.Error.TheVariants.{ErrOutOfMemory};
ghost use Rattle.sctp_util.specs.Lists.{change_where};
ghost use Rattle.sctp_reassembly.specs.declared.reassembly_queue.ordered_skips.OrderedSkips.{OrderedSkips};
ghost use Rattle.sctp_reassembly.specs.reassembly_queue.Costs.{ordered_skip_walk};
ghost use Rattle.sctp_receiver.specs.declared.receiver.inbound_streams.InboundStream.{InboundStream};
ghost use Rattle.sctp_receiver.specs.Inbound.{has_number, numbers_of, named_forwarded, ssn_forwarded};
ghost use Rattle.sctp_receiver.specs.Limits.{cost_within};
ghost use Rattle.sctp_receiver.specs.Noted.{each_made, noted_made, AreNone, AreNamed};
ghost use Rattle.sctp_receiver.specs.SkipCosts.{named_walk};
ghost use Rattle.sctp_receiver.specs.Visited.{IsListing};
ghost use Rattle.sctp_stream.specs.Numbers.{IsOnlyPlace};

use crate::receiver::inbound_streams::{InboundStream, moved};
use crate::receiver::limits::cost_of;
use crate::receiver::visit::renew;
use crate::receiver::visits::Visits;
use sctp_data::chunk::chunk_forward_tsn::ChunkForwardTsnStream;
use sctp_reassembly::ordered_skips::OrderedSkips;
use sctp_serial::turns::Turns;
use sctp_stream::stream_numbers::{StreamNumbers, make_place, put};
use sctp_util::error::Result;

/// Makes room for the notes of one stream more. Refuses only for memory.
/// Precondition: there is room for those of so many streams, and nothing is noted.
pub(crate) fn make_room(noted: &mut Vec<Option<OrderedSkips>>, streams: usize) -> Result<()>
    requires places { streams ≤ length noted.old.items }
    requires none { AreNone noted.old.items }
    ensures none { AreNone noted.new.items }
    ensures kept { length noted.old.items ≤ length noted.new.items }
    ensures ok { OnOk result (streams < length noted.new.items) }
    ensures memory { IsOkUnless result ErrOutOfMemory }
{
    if noted.len() == streams {
        make_place(noted)?;
        put(noted, None);
    }
    Ok(())
}

/// Notes what each name says of its stream, one name after another, and none of a stream that is not open. No message is looked at. A turn
/// is taken for each name. It takes no memory.
/// Precondition: the numbers are those of the streams, each of which has its place, and nothing is noted.
pub(crate) fn note_each(
    numbers: &StreamNumbers,
    streams: &[InboundStream],
    noted: &mut Vec<Option<OrderedSkips>>,
    names: &[ChunkForwardTsnStream],
    turns: &mut Turns,
)
    requires numbers { numbers.now ≡ numbers_of streams.now }
    requires places { length numbers.now ≤ length noted.old.items }
    requires none { AreNone noted.old.items }
    ensures value { each_made noted.new.items streams.now
        ≡ named_forwarded names.now streams.now }
    ensures places { length noted.new.items ≡ length noted.old.items }
    ensures named { AreNamed names.now noted.new.items numbers.now }
    ensures cost { turns.new ≡ turns.old + length names.now }
{
    for place in 0..names.len() {
        turns.tick();
        note(
            numbers,
            streams,
            noted,
            names[place].identifier,
            names[place].sequence,
        );
    }
}

// Notes what one name says.
fn note(
    numbers: &StreamNumbers,
    streams: &[InboundStream],
    noted: &mut Vec<Option<OrderedSkips>>,
    stream: u16,
    ssn: u16,
)
    requires numbers { numbers.now ≡ numbers_of streams.now }
    requires places { length numbers.now ≤ length noted.old.items }
    ensures value { each_made noted.new.items streams.now
        ≡ change_where (has_number stream) (ssn_forwarded ssn)
        (each_made noted.old.items streams.now) }
    ensures places { length noted.new.items ≡ length noted.old.items }
    ensures named { (p : ℕ) (skips : OrderedSkips) → slice_get noted.new.items p ≡ Some (Some skips)
        → (slice_get numbers.now p ≡ Some stream)
        ⊎ (slice_get noted.old.items p ≡ Some (Some skips)) }
{
    let Some(place) = numbers.place_of(stream) else {
        return;
    };
    let before = noted[place];
    noted[place] = Some(streams[place].queue.note_ordered_skip(before, ssn));
}

/// Makes what is noted of each stream that is named: at its first name all of it, in one walk, so that nothing is left for a further one.
/// Answers what all streams count for then. Nothing is noted any more. Its turns are added: one for each name, and those of one skip
/// for each stream that is named. It takes no memory.
/// Precondition: something is noted only of streams that are named; the cost is what all streams count for.
pub(crate) fn make_each(
    numbers: &StreamNumbers,
    streams: &mut Vec<InboundStream>,
    cost: u128,
    visits: &mut Visits,
    noted: &mut Vec<Option<OrderedSkips>>,
    names: &[ChunkForwardTsnStream],
    skips: &mut Turns,
) -> u128
    requires numbers { numbers.now ≡ numbers_of streams.old.items }
    requires places { length numbers.now ≤ length noted.old.items }
    requires named { AreNamed names.now noted.old.items numbers.now }
    requires cost { cost ≡ sum_by cost_within streams.old.items }
    requires listing { IsListing visits.old streams.old.items }
    ensures value { streams.new.items ≡ each_made noted.old.items streams.old.items }
    ensures numbers { numbers.now ≡ numbers_of streams.new.items }
    ensures places { length noted.new.items ≡ length noted.old.items }
    ensures none { AreNone noted.new.items }
    ensures cost { result ≡ sum_by cost_within streams.new.items }
    ensures listing { IsListing visits.new streams.new.items }
    ensures not_back { skips.old ≤ skips.new }
    ensures walk { skips.new ≤ skips.old + named_walk names.now streams.old.items }
{
    let mut cost = cost;
    for place in 0..names.len() {
        skips.tick();
        let Some((there, made)) = take_note(numbers, noted, names[place].identifier) else {
            continue;
        };
        cost = make_at(streams, cost, visits, there, made, skips);
    }
    cost
}

// Takes out what is noted of a stream, with the place of that; None where nothing is, or it is not open.
fn take_note(
    numbers: &StreamNumbers,
    noted: &mut Vec<Option<OrderedSkips>>,
    stream: u16,
) -> Option<(usize, OrderedSkips)>
    requires { length numbers.now ≤ length noted.old.items }
    ensures { MatchOption result
        ((noted.new.items ≡ noted.old.items) × ((p : ℕ) (skips : OrderedSkips)
        → slice_get noted.old.items p ≡ Some (Some skips)
        → slice_get numbers.now p ≡ Some stream → ⊥))
        (λ note. (noted.new.items ≡ slice_set noted.old.items note.0 None)
        × ((slice_get noted.old.items note.0 ≡ Some (Some note.1))
        × IsOnlyPlace stream numbers.now note.0)) }
{
    let place = numbers.place_of(stream)?;
    let made = noted[place]?;
    noted[place] = None;
    Some((place, made))
}

// Makes what is noted of the stream at a place.
fn make_at(
    streams: &mut Vec<InboundStream>,
    cost: u128,
    visits: &mut Visits,
    place: usize,
    noted: OrderedSkips,
    skips: &mut Turns,
) -> u128
    requires place { place < length streams.old.items }
    requires cost { cost ≡ sum_by cost_within streams.old.items }
    requires listing { IsListing visits.old streams.old.items }
    ensures value { (d : InboundStream) → streams.new.items ≡ slice_set streams.old.items place
        (noted_made (Some noted) (slice_index_or streams.old.items place d)) }
    ensures cost { result ≡ sum_by cost_within streams.new.items }
    ensures listing { IsListing visits.new streams.new.items }
    ensures not_back { skips.old ≤ skips.new }
    ensures walk { (d : InboundStream) → skips.new ≤ skips.old
        + ordered_skip_walk (slice_index_or streams.old.items place d).queue.held }
{
    let stream = &mut streams[place];
    let before = cost_of(&stream.queue);
    stream
        .queue
        .forward_tsn_for_ordered_noted_counted(noted, skips);
    renew(visits, place, &stream.queue, false);
    moved(cost, before, cost_of(&stream.queue))
}
