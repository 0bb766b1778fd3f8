//! The gap ack blocks of a SACK in ascending order (RFC 4960 3.3.4).

ghost use Rattle.std.specs.Prelude.{◌≡◌, ℕ, ◌+◌, ◌*◌, ◌<◌, ◌≤◌, ◌^◌, true, false, IfOk, IfErr, length, slice_index_or};
ghost use Rattle.sctp_outbound.specs.payload_queue.Blocks.{is_in_blocks};
ghost use Rattle.sctp_sender.specs.declared.sender.refusal.SenderRefusal.TheVariants.{OutOfMemory};
ghost use Rattle.sctp_sender.specs.Costs.{to_sort};
ghost use Rattle.sctp_sender.specs.Reporting.{AreSorted, ascends_from};

use super::reports::marks_of;
use crate::sender::refusal::SenderRefusal;
use sctp_data::chunk::chunk_selective_ack::GapAckBlock;
use sctp_serial::turns::Turns;
use sctp_stream::stream_numbers::put;
use std::alloc::Global;

/// Blocks that ascend and report the same distances from 1 on: these, where they ascend, else one for each distance. Refuses only
/// for memory. Turns: at most three for each block, and two for each distance up to the greatest, where they do not ascend.
#[inline(always)]
pub(super) fn sorted_blocks(
    alloc: Global,
    blocks: &[GapAckBlock],
    turns: &mut Turns,
) -> Result<Vec<GapAckBlock>, SenderRefusal>
    ensures ok { IfOk result (λ sorted. AreSorted sorted.items blocks.now) }
    ensures memory { IfErr result (λ e. e ≡ OutOfMemory) }
    ensures few { IfOk result (λ sorted. length sorted.items
        ≤ length blocks.now + to_sort blocks.now) }
    ensures not_back { turns.old ≤ turns.new }
    ensures cost { turns.new
        ≤ turns.old + 3 * length blocks.now + 2 * to_sort blocks.now }
{
    if blocks.is_empty() {
        return Ok(Vec::new(alloc));
    }
    if ascend(blocks, turns) {
        return copied(alloc, blocks, turns);
    }
    let marks = marks_of(alloc, blocks, turns)?;
    one_by_one(alloc, &marks, turns)
}

// Whether each block reports something, and begins behind the one before it.
pub(super) fn ascend(blocks: &[GapAckBlock], turns: &mut Turns) -> bool
    ensures answer { result ≡ ascends_from 0 blocks.now }
    ensures not_back { turns.old ≤ turns.new }
    ensures cost { turns.new ≤ turns.old + length blocks.now }
{
    let mut last = 0;
    for block in blocks {
        turns.tick();
        if block.start <= last || block.end < block.start {
            return false;
        }
        last = block.end;
    }
    true
}

// The same blocks.
fn copied(
    alloc: Global,
    blocks: &[GapAckBlock],
    turns: &mut Turns,
) -> Result<Vec<GapAckBlock>, SenderRefusal>
    ensures ok { IfOk result (λ copy. copy.items ≡ blocks.now) }
    ensures memory { IfErr result (λ e. e ≡ OutOfMemory) }
    ensures not_back { turns.old ≤ turns.new }
    ensures cost { turns.new ≤ turns.old + length blocks.now }
{
    let mut copy = Vec::new(alloc);
    if copy.reserve(blocks.len()).is_err() {
        return Err(SenderRefusal::OutOfMemory);
    }
    for block in blocks {
        turns.tick();
        put(&mut copy, *block);
    }
    Ok(copy)
}

// A block for each marked distance from 1 on.
fn one_by_one(
    alloc: Global,
    marks: &[bool],
    turns: &mut Turns,
) -> Result<Vec<GapAckBlock>, SenderRefusal>
    requires { length marks.now ≤ 2 ^ 16 }
    ensures ascend { IfOk result (λ blocks. ascends_from 0 blocks.items ≡ true) }
    ensures same { IfOk result (λ blocks. (n : ℕ) → 0 < n
        → is_in_blocks blocks.items n ≡ slice_index_or marks.now n false) }
    ensures memory { IfErr result (λ e. e ≡ OutOfMemory) }
    ensures few { IfOk result (λ blocks. length blocks.items ≤ length marks.now) }
    ensures not_back { turns.old ≤ turns.new }
    ensures cost { turns.new ≤ turns.old + length marks.now }
{
    let mut blocks = Vec::new(alloc);
    if blocks.reserve(marks.len()).is_err() {
        return Err(SenderRefusal::OutOfMemory);
    }
    for offset in 1..marks.len() {
        turns.tick();
        if !marks[offset] {
            continue;
        }
        put(
            &mut blocks,
            GapAckBlock {
                start: offset as u16,
                end: offset as u16,
            },
        );
    }
    Ok(blocks)
}
