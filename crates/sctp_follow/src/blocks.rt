//! Whether a TSN is in one of many gap ack blocks.

ghost use Rattle.std.specs.Prelude.{◌≡◌, IsTrue, IfOk};
ghost use Rattle.std.specs.List.{list_any};
ghost use Rattle.std.specs.List.Sorted.{IsNonDecreasingBy};
ghost use Rattle.sctp_follow.specs.Outstanding.{is_in_block};
ghost use Rattle.sctp_follow.specs.Blocks.{Ascend, HaveTheSame};

use sctp_data::chunk::chunk_selective_ack::GapAckBlock;
use std::alloc::{AllocError, Global};

/// Whether neither the starts nor the ends of blocks fall: so it is where each begins behind the end of the one before it.
pub fn ascend(blocks: &[GapAckBlock]) -> bool
    ensures { IsTrue result → Ascend blocks.now }
{
    for place in 1..blocks.len() {
        let (before, block) = (blocks[place - 1], blocks[place]);
        if block.start < before.start || block.end < before.end {
            return false;
        }
    }
    true
}

/// Whether a TSN that lies so far behind the cumulative TSN of a SACK is in one of its gap ack blocks: it is in the last one that begins no
/// later, or in none.
/// Precondition: neither their starts nor their ends fall.
pub fn is_in_some(blocks: &[GapAckBlock], offset: u32) -> bool
    requires { Ascend blocks.now }
    ensures { result ≡ list_any (is_in_block offset) blocks.now }
{
    let count = blocks.partition_point(|block| block.start as u32 <= offset);
    count > 0 && offset <= blocks[count - 1].end as u32
}

/// Blocks with the same TSNs, each of which ends no earlier than those before it.
/// Precondition: their starts do not fall.
fn reaching(alloc: Global, blocks: &[GapAckBlock]) -> Result<Vec<GapAckBlock>, AllocError>
    requires { IsNonDecreasingBy (λ b. b.start) blocks.now }
    ensures ascend { IfOk result (λ reaching. Ascend reaching.items) }
    ensures same { IfOk result (λ reaching. HaveTheSame reaching.items blocks.now) }
{
    let mut reaching = Vec::new(alloc);
    let mut end = 0u16;
    for block in blocks {
        end = end.max(block.end);
        reaching.push(GapAckBlock {
            start: block.start,
            end,
        })?;
    }
    Ok(reaching)
}

/// Blocks with the same TSNs, of which neither the starts nor the ends fall. Refuses only for memory.
pub fn ascending(alloc: Global, blocks: &[GapAckBlock]) -> Result<Vec<GapAckBlock>, AllocError>
    ensures ascend { IfOk result (λ ascending. Ascend ascending.items) }
    ensures same { IfOk result (λ ascending. HaveTheSame ascending.items blocks.now) }
{
    let mut sorted = Vec::from_slice(alloc, blocks)?;
    sorted.sort_by_key(|block| block.start)?;
    reaching(alloc, &sorted)
}
