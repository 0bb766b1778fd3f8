//! The first gap ack blocks of what a payload queue holds: as many as are asked for, and no look at what lies behind them.

ghost use Rattle.std.specs.Prelude.{◌≡◌, ◌+◌, ◌*◌, ◌-◌, ◌<◌, ◌≤◌, length, map, min, take, IfOk, IfSome, IsOkUnless, slice_index_or};
ghost use Rattle.std.specs.Vec.{vec_len, vec_capacity};
ghost use Rattle.sctp_util.specs.declared.error.Error.TheVariants.{ErrOutOfMemory};
ghost use Rattle.sctp_util.specs.Kept.{runs_of};
ghost use Rattle.sctp_util.specs.Serial.{distance};
ghost use Rattle.sctp_serial.specs.Runs.{IsRising};
ghost use Rattle.sctp_serial.specs.Turns.{IsWithinDigits};
ghost use Rattle.sctp_serial.specs.Window.{IsSerial};
ghost use Rattle.sctp_outbound.specs.payload_queue.Blocks.{IsAtOffset, IsRunFrom, Reports, gap_offsets, ends_of, is_offset, offset_at};

use super::held::{Held, Tsns};
use super::{PayloadQueue, WALKED, first_after, run_end};
use sctp_data::chunk::chunk_selective_ack::GapAckBlock;
use sctp_serial::serial::distance;
use sctp_serial::turns::Turns;
use sctp_util::error::Result;
use std::alloc::Global;

// A run of TSNs, told by distances from the cumulative TSN: that of its last one, the place behind it, and the distance there.
#[derive(Clone, Copy)]
struct Run {
    end: u32,
    next: usize,
    behind: u32,
}

// Whether a gap ack block can hold a distance.
fn is_offset(offset: u32) -> bool
    ensures { result ≡ is_offset offset }
{
    offset != 0 && offset < 65536
}

// How far the TSN at a place lies after the cumulative TSN; 0 past the last.
#[inline]
fn offset_at(tsns: &Tsns<'_>, cumulative_tsn: u32, place: usize, turns: &mut Turns) -> u32
    ensures value { result
        ≡ distance cumulative_tsn (slice_index_or tsns.now place cumulative_tsn) }
    ensures turn { turns.new ≡ turns.old + 1 }
{
    distance(cumulative_tsn, tsns.tsn_or(place, cumulative_tsn, turns))
}

// The same, where the TSN may have been seen.
fn offset_behind(
    held: &Held,
    cumulative_tsn: u32,
    place: usize,
    seen: Option<u32>,
    turns: &mut Turns,
) -> u32
    requires { IfSome seen (λ tsn. (d : _)
        → (slice_index_or held.now.chunks place d).tsn ≡ tsn) }
    ensures value { result ≡ offset_at cumulative_tsn held.now.chunks place }
    ensures not_back { turns.old ≤ turns.new }
    ensures cost { turns.new ≤ turns.old + 1 }
{
    if place >= held.len() {
        return 0;
    }
    match seen {
        Some(tsn) => distance(cumulative_tsn, tsn),
        None => distance(cumulative_tsn, held.tsn_at(place, turns)),
    }
}

// The run from a place on, as far as a block can hold it. Runs of up to four TSNs are found here, with a look at each and at the one
// behind.
#[inline]
fn run_from(
    held: &Held,
    tsns: &Tsns<'_>,
    cumulative_tsn: u32,
    place: usize,
    offset: u32,
    turns: &mut Turns,
) -> Run
    requires serial { IsSerial held.now.chunks }
    requires tsns { tsns.now ≡ map (λ c. c.tsn) held.now.chunks }
    requires at { IsAtOffset cumulative_tsn held.now.chunks place offset }
    ensures run { IsRunFrom cumulative_tsn held.now.chunks place offset result }
    ensures not_back { turns.old ≤ turns.new }
    ensures cost { turns.new ≤ turns.old + 34 }
{
    let next = place + 1;
    let behind = offset_at(tsns, cumulative_tsn, next, turns);
    if behind != offset + 1 {
        return Run {
            end: offset,
            next,
            behind,
        };
    }
    // a block may end before the fifth TSN
    if offset > 65531 {
        let (next, behind) = last_run_from(held, cumulative_tsn, place, offset, turns);
        return Run {
            end: offset + (next - 1 - place) as u32,
            next,
            behind,
        };
    }
    for walked in 1..WALKED {
        let next = place + walked + 1;
        let end = offset + walked as u32;
        let behind = offset_at(tsns, cumulative_tsn, next, turns);
        if behind != end + 1 {
            return Run { end, next, behind };
        }
    }
    let (next, behind) = long_run_from(held, cumulative_tsn, place, offset, turns);
    Run {
        end: offset + (next - 1 - place) as u32,
        next,
        behind,
    }
}

// The place behind the run from a place on that ends at the greatest distance that a block can hold, or up to three before, and the
// distance there: a look at each TSN. It stands apart, so that other runs test no distance.
#[cold]
#[inline(never)]
fn last_run_from(
    held: &Held,
    cumulative_tsn: u32,
    place: usize,
    offset: u32,
    turns: &mut Turns,
) -> (usize, u32)
    requires serial { IsSerial held.now.chunks }
    requires at { IsAtOffset cumulative_tsn held.now.chunks place offset }
    requires near { 65531 < offset }
    ensures run { IsRunFrom cumulative_tsn held.now.chunks place offset
        (record { end = offset + (result.0 - 1 - place); next = result.0; behind = result.1 }) }
    ensures not_back { turns.old ≤ turns.new }
    ensures cost { turns.new ≤ turns.old + 4 }
{
    for walked in 0..WALKED {
        let next = place + walked + 1;
        let end = offset + walked as u32;
        let behind = offset_behind(held, cumulative_tsn, next, None, turns);
        if behind != end + 1 || !is_offset(behind) {
            return (next, behind);
        }
    }
    unreachable!()
}

// The place behind a run of five TSNs or more, and the distance there. It stands apart, so that what short runs take stays small.
#[cold]
#[inline(never)]
fn long_run_from(
    held: &Held,
    cumulative_tsn: u32,
    place: usize,
    offset: u32,
    turns: &mut Turns,
) -> (usize, u32)
    requires serial { IsSerial held.now.chunks }
    requires at { IsAtOffset cumulative_tsn held.now.chunks place offset }
    requires rising { IsRising held.now.chunks place (place + 4) }
    requires fifth { IsAtOffset cumulative_tsn held.now.chunks (place + 4) (offset + 4) }
    ensures run { IsRunFrom cumulative_tsn held.now.chunks place offset
        (record { end = offset + (result.0 - 1 - place); next = result.0; behind = result.1 }) }
    ensures not_back { turns.old ≤ turns.new }
    ensures cost { turns.new ≤ turns.old + 30 }
{
    // a block cannot reach past 65,535
    let reach = (held.len() - place).min(65536 - offset as usize);
    let tsn = cumulative_tsn.wrapping_add(offset + 4);
    let (last, seen) = run_end(held, place, tsn, place + reach, turns);
    let next = last + 1;
    let behind = offset_behind(held, cumulative_tsn, next, seen, turns);
    (next, behind)
}

// For how many blocks an empty list gets room at most: 256 have 1,024 bytes, the most that glibc hands out at once.
const FIRST_ROOM: usize = 256;

// The list with room for so many blocks more, one at least; an empty one for up to `FIRST_ROOM`. It stands apart, as it is seldom called.
#[cold]
#[inline(never)]
fn grown(blocks: Vec<GapAckBlock>, more: usize) -> Result<Vec<GapAckBlock>>
    ensures items { IfOk result (λ grown. grown.items ≡ blocks.items) }
    ensures room { IfOk result (λ grown. vec_len grown < vec_capacity grown) }
    ensures memory { IsOkUnless result ErrOutOfMemory }
{
    let mut blocks = blocks;
    let mut more = more.max(1);
    if blocks.is_empty() {
        more = more.min(FIRST_ROOM);
    }
    blocks.reserve(more)?;
    Ok(blocks)
}

impl PayloadQueue {
    /// The first `most` of the blocks of `get_gap_ack_blocks`, or all where there are no more. Turns are added: at most 34 for each block
    /// of the answer, and beside these one more than the number of held chunks has binary digits; where memory runs out, for each
    /// block that the answer would have had.
    pub fn get_gap_ack_blocks_within(
        &self,
        alloc: Global,
        cumulative_tsn: u32,
        most: usize,
        turns: &mut Turns,
    ) -> Result<Vec<GapAckBlock>>
        ensures runs { IfOk result (λ blocks. map ends_of blocks.items
            ≡ take most (runs_of (gap_offsets cumulative_tsn self.now.chunks))) }
        ensures whole { IfOk result (λ blocks. length blocks.items < most
            → Reports cumulative_tsn self.now.chunks blocks.items) }
        ensures memory { IsOkUnless result ErrOutOfMemory }
        ensures not_back { turns.old ≤ turns.new }
        ensures cost { IfOk result (λ blocks. IsWithinDigits
            (length self.now.chunks) (turns.new - turns.old - 34 * length blocks.items - 1)) }
        ensures cost_of_runs { IsWithinDigits (length self.now.chunks) (turns.new - turns.old
            - 34 * min most (length (runs_of (gap_offsets cumulative_tsn self.now.chunks))) - 1) }
    {
        let tsns = self.held.tsns();
        let mut blocks = Vec::new(alloc);
        let mut place = first_after(&self.held, cumulative_tsn, turns);
        let mut offset = offset_at(&tsns, cumulative_tsn, place, turns);
        while is_offset(offset) {
            if blocks.len() == most {
                return Ok(blocks);
            }
            let run = run_from(&self.held, &tsns, cumulative_tsn, place, offset, turns);
            if blocks.len() == blocks.capacity() {
                let left = most - blocks.len();
                blocks = grown(blocks, left.min(self.held.len() - place))?;
            }
            blocks.push_reserved(GapAckBlock {
                start: offset as u16,
                end: run.end as u16,
            });
            place = run.next;
            offset = run.behind;
        }
        Ok(blocks)
    }
}
