//! Blocks that report what is acknowledged: without what comes back, or with those of a further SACK (RFC 4960 6.2.1 D iv).

ghost use Rattle.std.specs.Prelude.{◌≡◌, ℕ, suc, ◌+◌, ◌<◌, ◌≤◌, ◌^◌, ◌&&◌, ◌||◌, ◌++◌, ◌∷◌, [], not, true, false, nat_le, IfOk, IfErr, IfSome, OnOk, length, slice_index_or};
ghost use Rattle.std.specs.List.{list_any};
ghost use Rattle.sctp_data.specs.declared.chunk.chunk_selective_ack.GapAckBlock.{GapAckBlock};
ghost use Rattle.sctp_outbound.specs.payload_queue.Blocks.{is_in_blocks};
ghost use Rattle.sctp_sender.specs.declared.sender.flight.returns.PlacedData.{PlacedData};
ghost use Rattle.sctp_sender.specs.declared.sender.refusal.SenderRefusal.TheVariants.{OutOfMemory};
ghost use Rattle.sctp_sender.specs.Keeping.{blocks_left, is_at, rises_from};
ghost use Rattle.sctp_sender.specs.Reporting.{ascends_from};

use super::returns::PlacedData;
use crate::sender::refusal::SenderRefusal;
use sctp_data::chunk::chunk_selective_ack::GapAckBlock;
use sctp_serial::turns::Turns;
use sctp_stream::stream_numbers::put;
use std::alloc::Global;

/// Blocks that are left of what was reported, twice: one list for what is kept, and one for what is in flight.
#[derive(Drop)]
pub(crate) struct Left {
    /// Those that report what can come back.
    pub reported: Vec<GapAckBlock>,
    /// The same: those that the next SACK does not look at.
    pub known: Vec<GapAckBlock>,
}

/// The blocks without the places with which something comes back; None, and no memory, where that is none. Refuses only for memory.
/// Turns: at most one for each block, and one for each such place.
pub(super) fn without(
    alloc: Global,
    blocks: &[GapAckBlock],
    backs: &[PlacedData],
    turns: &mut Turns,
) -> Result<Option<Left>, SenderRefusal>
    requires ascend { ascends_from 0 blocks.now ≡ true }
    requires in_order { rises_from 0 backs.now ≡ true }
    ensures ascend { IfOk result (λ left. ascends_from 0 (blocks_left left blocks.now) ≡ true) }
    ensures same { IfOk result (λ left. (k : ℕ)
        → is_in_blocks (blocks_left left blocks.now) (suc k)
        ≡ (is_in_blocks blocks.now (suc k) && not (list_any (is_at k) backs.now))) }
    ensures twice { IfOk result (λ left. IfSome left (λ l. l.known.items ≡ l.reported.items)) }
    ensures none { IfOk result (λ left. left ≡ None → backs.now ≡ []) }
    ensures memory { IfErr result (λ e. e ≡ OutOfMemory) }
    ensures not_back { turns.old ≤ turns.new }
    ensures cost { turns.new ≤ turns.old + length blocks.now + length backs.now }
{
    if backs.is_empty() {
        return Ok(None);
    }
    let left = parted(alloc, blocks, backs, turns)?;
    Ok(Some(left))
}

// The same, where there are such places or not.
fn parted(
    alloc: Global,
    blocks: &[GapAckBlock],
    backs: &[PlacedData],
    turns: &mut Turns,
) -> Result<Left, SenderRefusal>
    requires ascend { ascends_from 0 blocks.now ≡ true }
    requires in_order { rises_from 0 backs.now ≡ true }
    ensures ascend { IfOk result (λ left. ascends_from 0 left.reported.items ≡ true) }
    ensures same { IfOk result (λ left. (k : ℕ) → is_in_blocks left.reported.items (suc k)
        ≡ (is_in_blocks blocks.now (suc k) && not (list_any (is_at k) backs.now))) }
    ensures twice { IfOk result (λ left. left.known.items ≡ left.reported.items) }
    ensures memory { IfErr result (λ e. e ≡ OutOfMemory) }
    ensures not_back { turns.old ≤ turns.new }
    ensures cost { turns.new ≤ turns.old + length blocks.now + length backs.now }
{
    let mut left = Left {
        reported: Vec::new(alloc),
        known: Vec::new(alloc),
    };
    let mut from: usize = 1;
    let mut next = 0;
    let mut back = 0;
    while next < blocks.len() {
        turns.tick();
        let end = blocks[next].end as usize;
        let start = from.max(blocks[next].start as usize);
        let place = place_at(backs, back, end);
        if place < end {
            put_twice(&mut left, start, place)?;
            from = from.max(place + 2);
            back += 1;
            continue;
        }
        put_twice(&mut left, start, end)?;
        from = from.max(end + 1);
        next += 1;
    }
    Ok(left)
}

// The place of the one at an index, or another number where there is none.
fn place_at(backs: &[PlacedData], index: usize, other: usize) -> usize
    ensures there { (d : PlacedData) → index < length backs.now
        → result ≡ (slice_index_or backs.now index d).place }
    ensures none { length backs.now ≤ index → result ≡ other }
{
    if index >= backs.len() {
        return other;
    }
    backs[index].place
}

/// Blocks that report each distance past the first `count` that the sorted blocks report from there on, or the listed ones from the
/// beginning. Refuses only for memory. Turns: at most one for each block.
pub(super) fn joined(
    alloc: Global,
    sorted: &[GapAckBlock],
    listed: &[GapAckBlock],
    count: usize,
    turns: &mut Turns,
) -> Result<Vec<GapAckBlock>, SenderRefusal>
    requires sorted { ascends_from 0 sorted.now ≡ true }
    requires listed { ascends_from 0 listed.now ≡ true }
    requires few { count < 2 ^ 31 }
    ensures ascend { IfOk result (λ all. ascends_from 0 all.items ≡ true) }
    ensures same { IfOk result (λ all. (k : ℕ) → is_in_blocks all.items (suc k)
        ≡ (is_in_blocks sorted.now (suc k) || is_in_blocks listed.now (suc (count + k)))) }
    ensures memory { IfErr result (λ e. e ≡ OutOfMemory) }
    ensures not_back { turns.old ≤ turns.new }
    ensures cost { turns.new ≤ turns.old + length sorted.now + length listed.now }
{
    let mut all = Vec::new(alloc);
    let mut from: usize = 1;
    let mut next = 0;
    let mut old = 0;
    while next < sorted.len() || old < listed.len() {
        turns.tick();
        if comes_first(sorted, next, listed, old, count) {
            let end = sorted[next].end as usize;
            put_run(&mut all, from.max(sorted[next].start as usize), end)?;
            from = from.max(end + 1);
            next += 1;
            continue;
        }
        let end = (listed[old].end as usize).saturating_sub(count);
        let start = (listed[old].start as usize).saturating_sub(count);
        put_run(&mut all, from.max(start), end)?;
        from = from.max(end + 1);
        old += 1;
    }
    Ok(all)
}

// Whether there is a next sorted block, and no next listed one begins before it.
fn comes_first(
    sorted: &[GapAckBlock],
    next: usize,
    listed: &[GapAckBlock],
    old: usize,
    count: usize,
) -> bool
    requires few { count < 2 ^ 31 }
    ensures yes { result ≡ true → next < length sorted.now }
    ensures before { result ≡ true → (b : GapAckBlock) → old < length listed.now
        → count + (slice_index_or sorted.now next b).start
        ≤ (slice_index_or listed.now old b).start }
    ensures no { result ≡ false → (b : GapAckBlock) → next < length sorted.now
        → (slice_index_or listed.now old b).start
        < count + (slice_index_or sorted.now next b).start }
    ensures other { result ≡ false → next < length sorted.now → old < length listed.now }
{
    if next >= sorted.len() {
        return false;
    }
    if old >= listed.len() {
        return true;
    }
    count + sorted[next].start as usize <= listed[old].start as usize
}

// Puts a block from one distance to another behind those before the first, where there is one.
fn put_run(blocks: &mut Vec<GapAckBlock>, start: usize, end: usize) -> Result<(), SenderRefusal>
    requires some { 0 < start }
    requires short { end < 2 ^ 16 }
    requires ascend { ascends_from 0 blocks.old.items ≡ true }
    requires behind { (n : ℕ) → start ≤ n → is_in_blocks blocks.old.items n ≡ false }
    ensures items { OnOk result (start ≤ end → blocks.new.items
        ≡ blocks.old.items ++ record { start = start; end = end } ∷ []) }
    ensures ascend { OnOk result (ascends_from 0 blocks.new.items ≡ true) }
    ensures same { OnOk result ((n : ℕ) → is_in_blocks blocks.new.items n
        ≡ (is_in_blocks blocks.old.items n || (nat_le start n && nat_le n end))) }
    ensures memory { IfErr result (λ e. e ≡ OutOfMemory) }
{
    if end < start {
        return Ok(());
    }
    if blocks.reserve(1).is_err() {
        return Err(SenderRefusal::OutOfMemory);
    }
    put(blocks, run(start, end));
    Ok(())
}

// The same for both lists.
fn put_twice(left: &mut Left, start: usize, end: usize) -> Result<(), SenderRefusal>
    requires some { 0 < start }
    requires short { end < 2 ^ 16 }
    requires ascend { ascends_from 0 left.old.reported.items ≡ true }
    requires behind { (n : ℕ) → start ≤ n → is_in_blocks left.old.reported.items n ≡ false }
    requires twice { left.old.known.items ≡ left.old.reported.items }
    ensures ascend { OnOk result (ascends_from 0 left.new.reported.items ≡ true) }
    ensures same { OnOk result ((n : ℕ) → is_in_blocks left.new.reported.items n
        ≡ (is_in_blocks left.old.reported.items n || (nat_le start n && nat_le n end))) }
    ensures twice { OnOk result (left.new.known.items ≡ left.new.reported.items) }
    ensures memory { IfErr result (λ e. e ≡ OutOfMemory) }
{
    if end < start {
        return Ok(());
    }
    if left.known.reserve(1).is_err() {
        return Err(SenderRefusal::OutOfMemory);
    }
    put_run(&mut left.reported, start, end)?;
    put(&mut left.known, run(start, end));
    Ok(())
}

// The block from one distance to another.
fn run(start: usize, end: usize) -> GapAckBlock
    requires start { start < 2 ^ 16 }
    requires end { end < 2 ^ 16 }
    ensures { result ≡ record { start = start; end = end } }
{
    GapAckBlock {
        start: start as u16,
        end: end as u16,
    }
}
