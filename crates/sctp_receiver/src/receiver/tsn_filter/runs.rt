//! The TSNs beyond the cumulative one, as runs: 8 bytes each, in serial order, and none touches the next (RFC 9260 6.2). A turn is one
//! look at a run.

ghost use Rattle.std.specs.Prelude.{◌≡◌, ◌==◌, ◌<◌, ◌≤◌, ◌+◌, ◌-◌, ◌^◌, ◌∷◌, ◌++◌, false, true, not, drop, length, map, min, take, IfErr, IfOk, IfSome, IsOkUnless, insert, remove, slice_index_or};
ghost use Rattle.std.specs.List.{filter, list_any};
ghost use Rattle.std.specs.VecDeque.{deque_capacity, deque_len};
ghost use Rattle.sctp_util.specs.declared.error.Error.TheVariants.{ErrOutOfMemory};
ghost use Rattle.sctp_util.specs.Kept.{runs_of};
ghost use Rattle.sctp_util.specs.Lists.{advance_over, insert_before};
ghost use Rattle.sctp_util.specs.Serial.{at_or_before, comes_before, distance};
ghost use Rattle.sctp_outbound.specs.payload_queue.Blocks.{is_offset};
ghost use Rattle.sctp_serial.specs.Turns.{IsWithinDigits};
ghost use Rattle.sctp_receiver.specs.TsnFilter.{block_of};
ghost use Rattle.sctp_receiver.specs.TsnRuns.{AreRuns, IsSpot, count_of_runs, later, left_end, pieces, reaches, right_end, tsns_of};

use sctp_data::chunk::chunk_selective_ack::GapAckBlock;
use sctp_serial::serial::distance;
use sctp_serial::turns::Turns;
use sctp_util::error::Result;
use std::alloc::Global;
use std::collections::VecDeque;

/// TSNs one after another, from the first to the last.
#[derive(Clone, Copy)]
pub(crate) struct Run {
    pub first: u32,
    pub last: u32,
}

/// Where a TSN stands among runs: the place of the first one that begins after it, that one, and the one before it.
#[derive(Clone, Copy)]
pub(crate) struct Spot {
    pub place: usize,
    pub before: Option<Run>,
    pub after: Option<Run>,
}

// Where a TSN stands: a binary search.
fn spot_of(runs: &VecDeque<Run>, base: u32, tsn: u32, turns: &mut Turns) -> Spot
    ensures spot { IsSpot base tsn runs.now.items result }
    ensures not_back { turns.old ≤ turns.new }
    ensures cost { IsWithinDigits (length runs.now.items) (turns.new - turns.old) }
{
    let far = distance(base, tsn);
    let mut low = 0;
    let mut high = runs.len();
    let mut before = None;
    let mut after = None;
    while low < high {
        let middle = low + (high - low) / 2;
        let run = runs[middle];
        turns.tick();
        if distance(base, run.first) <= far {
            low = middle + 1;
            before = Some(run);
        } else {
            high = middle;
            after = Some(run);
        }
    }
    Spot {
        place: low,
        before,
        after,
    }
}

// The same, for a TSN that mostly stands behind the last run: a look at that, then a search.
fn spot_behind(runs: &VecDeque<Run>, base: u32, tsn: u32, turns: &mut Turns) -> Spot
    ensures spot { IsSpot base tsn runs.now.items result }
    ensures not_back { turns.old ≤ turns.new }
    ensures cost { IsWithinDigits (length runs.now.items) (turns.new - turns.old - 1) }
{
    let len = runs.len();
    if len == 0 {
        return Spot {
            place: 0,
            before: None,
            after: None,
        };
    }
    let last = runs[len - 1];
    turns.tick();
    if distance(base, last.first) <= distance(base, tsn) {
        return Spot {
            place: len,
            before: Some(last),
            after: None,
        };
    }
    spot_of(runs, base, tsn, turns)
}

// Whether a run that begins at or before a TSN has it.
fn reaches(run: Option<Run>, base: u32, tsn: u32) -> bool
    ensures value { result ≡ reaches base tsn run }
    ensures base_fits { base < 2 ^ 32 }
    ensures tsn_fits { tsn < 2 ^ 32 }
{
    match run {
        Some(run) => distance(base, tsn) <= distance(base, run.last),
        None => false,
    }
}

/// Whether a TSN is among them.
pub(crate) fn contains(runs: &VecDeque<Run>, base: u32, tsn: u32, turns: &mut Turns) -> bool
    requires { AreRuns base 0 runs.now.items }
    ensures answer { result ≡ list_any (λ t. t == tsn) (tsns_of runs.now.items) }
    ensures not_back { turns.old ≤ turns.new }
    ensures cost { IsWithinDigits (length runs.now.items) (turns.new - turns.old) }
{
    reaches(spot_of(runs, base, tsn, turns).before, base, tsn)
}

/// Makes room for one run more, beside the room that there is, and answers for how many there is room.
pub(crate) fn reserve(runs: &mut VecDeque<Run>, room: usize) -> Result<usize>
    requires { room ≤ deque_capacity runs.old }
    ensures items { runs.new.items ≡ runs.old.items }
    ensures capacity { deque_capacity runs.old ≤ deque_capacity runs.new }
    ensures ok { IfOk result (λ now. (room ≤ now) × (length runs.old.items < now)
        × (now ≤ deque_capacity runs.new)) }
    ensures memory { IsOkUnless result ErrOutOfMemory }
{
    let len = runs.len();
    if len < room {
        return Ok(room);
    }
    runs.reserve(1)?;
    Ok(len + 1)
}

// Puts a run before the one at a place.
fn put_in(runs: &mut VecDeque<Run>, place: usize, run: Run)
    requires place { place ≤ length runs.old.items }
    requires room { length runs.old.items < deque_capacity runs.old }
    ensures items { runs.new.items ≡ insert runs.old.items place run }
    ensures capacity { deque_capacity runs.old ≤ deque_capacity runs.new }
{
    if place == runs.len() {
        runs.push_back_reserved(run);
        return;
    }
    match runs.insert(place, run) {
        Ok(()) => (),
        Err(_) => unreachable!(),
    }
}

// Takes out the run at a place.
fn take_out(runs: &mut VecDeque<Run>, place: usize)
    requires { place < length runs.old.items }
    ensures items { runs.new.items ≡ remove runs.old.items place }
    ensures capacity { deque_capacity runs.new ≡ deque_capacity runs.old }
{
    match runs.remove(place) {
        Some(_) => (),
        None => unreachable!(),
    }
}

// Puts a run in the place of those from a place up to another, of which there are two at most.
fn put_for(runs: &mut VecDeque<Run>, from: usize, to: usize, run: Run)
    requires order { from ≤ to }
    requires two { to ≤ from + 2 }
    requires within { to ≤ length runs.old.items }
    requires room { length runs.old.items < deque_capacity runs.old }
    ensures items { runs.new.items ≡ take from runs.old.items ++ run ∷ drop to runs.old.items }
    ensures capacity { deque_capacity runs.old ≤ deque_capacity runs.new }
{
    if from == to {
        put_in(runs, from, run);
        return;
    }
    if from + 1 < to {
        take_out(runs, from);
    }
    runs[from] = run;
}

// Where the run begins that a TSN joins, and its place: that of the run before the TSN, where the TSN follows it.
fn left_end(spot: Spot, tsn: u32) -> (u32, usize)
    requires { IfSome spot.before (λ r. 0 < spot.place) }
    ensures { result ≡ left_end tsn spot }
{
    match spot.before {
        Some(run) if run.last.wrapping_add(1) == tsn => (run.first, spot.place - 1),
        _ => (tsn, spot.place),
    }
}

// Where it ends, and the place behind it: those of the run after the TSN, where that follows the TSN.
fn right_end(spot: Spot, tsn: u32) -> (u32, usize)
    requires { IfSome spot.after (λ r. spot.place < 2 ^ 63) }
    ensures { result ≡ right_end tsn spot }
{
    match spot.after {
        Some(run) if tsn.wrapping_add(1) == run.first => (run.last, spot.place + 1),
        _ => (tsn, spot.place),
    }
}

/// Puts in a TSN, which joins the runs that it touches. Its turns are added.
/// Precondition: it is not among them, lies at least two beyond the base, and there is room for one run more.
pub(crate) fn put(runs: &mut VecDeque<Run>, base: u32, tsn: u32, turns: &mut Turns)
    requires runs { AreRuns base 0 runs.old.items }
    requires new { list_any (λ t. t == tsn) (tsns_of runs.old.items) ≡ false }
    requires far { 1 < distance base tsn }
    requires near { distance base tsn < 2 ^ 31 }
    requires room { length runs.old.items < deque_capacity runs.old }
    ensures tsns { tsns_of runs.new.items
        ≡ insert_before comes_before tsn (tsns_of runs.old.items) }
    ensures runs { AreRuns base 0 runs.new.items }
    ensures len { length runs.new.items ≤ length runs.old.items + 1 }
    ensures capacity { deque_capacity runs.old ≤ deque_capacity runs.new }
    ensures not_back { turns.old ≤ turns.new }
    ensures cost { IsWithinDigits (length runs.old.items) (turns.new - turns.old - 1) }
{
    let spot = spot_behind(runs, base, tsn, turns);
    let (first, from) = left_end(spot, tsn);
    let (last, to) = right_end(spot, tsn);
    put_for(runs, from, to, Run { first, last });
}

// Takes a TSN out of the run that has it, which stands at a place: what is left of it are two runs at most.
fn cut(runs: &mut VecDeque<Run>, place: usize, run: Run, tsn: u32)
    requires place { place < length runs.old.items }
    requires room { length (pieces run tsn) + length runs.old.items
        ≤ deque_capacity runs.old + 1 }
    ensures items { runs.new.items ≡ take place runs.old.items
        ++ (pieces run tsn ++ drop (place + 1) runs.old.items) }
    ensures capacity { deque_capacity runs.old ≤ deque_capacity runs.new }
{
    if run.last == tsn {
        take_out(runs, place);
    } else {
        runs[place] = Run {
            first: tsn.wrapping_add(1),
            last: run.last,
        };
    }
    if run.first != tsn {
        let left = Run {
            first: run.first,
            last: tsn.wrapping_sub(1),
        };
        put_in(runs, place, left);
    }
}

/// Takes a TSN out, where it is among them. Its turns are added. It takes no memory.
/// Precondition: there is room for the runs that are left.
pub(crate) fn take_tsn(runs: &mut VecDeque<Run>, base: u32, tsn: u32, turns: &mut Turns)
    requires runs { AreRuns base 0 runs.old.items }
    requires room { count_of_runs base (filter (λ t. not (t == tsn)) (tsns_of runs.old.items))
        ≤ deque_capacity runs.old }
    ensures tsns { tsns_of runs.new.items
        ≡ filter (λ t. not (t == tsn)) (tsns_of runs.old.items) }
    ensures runs { AreRuns base 0 runs.new.items }
    ensures capacity { deque_capacity runs.old ≤ deque_capacity runs.new }
    ensures not_back { turns.old ≤ turns.new }
    ensures cost { IsWithinDigits (length runs.old.items) (turns.new - turns.old) }
{
    let spot = spot_of(runs, base, tsn, turns);
    if !reaches(spot.before, base, tsn) {
        return;
    }
    if let Some(run) = spot.before {
        cut(runs, spot.place - 1, run, tsn);
    }
}

/// Takes out all runs up to a TSN, and the one that stands next to it or has it: answers the last TSN of that one, else the TSN. Its turns
/// are added: one for each run that leaves, and one more; two at most where the TSN is next to the base, since one run leaves then at
/// most. It takes no memory.
/// Precondition: the TSN comes after the base.
pub(crate) fn pass(runs: &mut VecDeque<Run>, base: u32, tsn: u32, turns: &mut Turns) -> u32
    requires runs { AreRuns base 0 runs.old.items }
    requires after { comes_before base tsn ≡ true }
    ensures moved { advance_over tsn
        (filter (λ t. not (at_or_before t tsn)) (tsns_of runs.old.items))
        ≡ record { cum = result; held = tsns_of runs.new.items } }
    ensures runs { AreRuns result 0 runs.new.items }
    ensures fits { result < 2 ^ 32 }
    ensures len { length runs.new.items ≤ length runs.old.items }
    ensures capacity { deque_capacity runs.new ≡ deque_capacity runs.old }
    ensures not_back { turns.old ≤ turns.new }
    ensures cost { turns.new + length (tsns_of runs.new.items)
        ≤ turns.old + length (tsns_of runs.old.items) + 1 }
    ensures next { distance base tsn ≤ 1 → turns.new ≤ turns.old + 2 }
{
    let mut cumulative_tsn = tsn;
    while !runs.is_empty() {
        let run = runs[0];
        turns.tick();
        if distance(base, run.first) > distance(base, cumulative_tsn) + 1 {
            return cumulative_tsn;
        }
        take_out(runs, 0);
        cumulative_tsn = later(base, cumulative_tsn, run.last);
    }
    cumulative_tsn
}

// The one of two TSNs that lies farther from the base.
fn later(base: u32, one: u32, other: u32) -> u32
    ensures { result ≡ later base one other }
{
    if distance(base, one) < distance(base, other) {
        other
    } else {
        one
    }
}

/// The gap ack blocks of runs, so many at most. Its turns are added: one for each block, and one more.
pub(crate) fn gap_ack_blocks(
    alloc: Global,
    runs: &VecDeque<Run>,
    base: u32,
    most: usize,
    turns: &mut Turns,
) -> Result<Vec<GapAckBlock>>
    requires { AreRuns base 0 runs.now.items }
    ensures blocks { IfOk result (λ blocks. blocks.items ≡ take most (map block_of
        (runs_of (filter is_offset (map (distance base) (tsns_of runs.now.items)))))) }
    ensures memory { IsOkUnless result ErrOutOfMemory }
    ensures not_back { turns.old ≤ turns.new }
    ensures cost { IfOk result (λ blocks. turns.new ≤ turns.old + length blocks.items + 1) }
    ensures err { IfErr result (λ e. turns.new ≡ turns.old) }
{
    let mut blocks = Vec::new(alloc);
    blocks.reserve(most.min(runs.len()))?;
    for place in 0..runs.len() {
        if blocks.len() == most {
            return Ok(blocks);
        }
        let run = runs[place];
        turns.tick();
        let start = distance(base, run.first);
        if start > 65535 {
            return Ok(blocks);
        }
        blocks.push_reserved(GapAckBlock {
            start: start as u16,
            end: distance(base, run.last).min(65535) as u16,
        });
    }
    Ok(blocks)
}
