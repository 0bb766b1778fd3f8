//! SACKs that the reader of packets refuses: those that are cut off, and NR-SACKs.

ghost use Rattle.std.specs.Prelude.{◌≡◌, true, ◌+◌, ◌-◌, ◌*◌, ◌≤◌, length, is_some, IfOk, IfSome};
ghost use Rattle.sctp_util.specs.Each.{each};
ghost use Rattle.sctp_data.specs.SelectiveAck.{block_at};
ghost use Rattle.sctp_follow.specs.Sack as sacks;
ghost use Rattle.sctp_follow.specs.Sack.{IsReadOf};

use sctp_data::chunk::chunk_selective_ack::{ChunkSelectiveAck, GapAckBlock};
use sctp_util::field::{read_u16, read_u32};
use std::alloc::{AllocError, Global};

/// The types of chunks that acknowledge others: SACK (RFC 9260 3.3.4) and NR-SACK (draft-natarajan-tsvwg-sctp-nrsack).
pub(crate) const SACK: u8 = 3;

pub(crate) const NR_SACK: u8 = 16;

/// Whether the bytes of a chunk are a SACK or an NR-SACK, as far as its window.
fn is_sack(bytes: &[u8]) -> bool
    ensures { result ≡ sacks.is_sack bytes.now }
{
    bytes.len() >= 12 && (bytes[0] == SACK || bytes[0] == NR_SACK)
}

/// Where its blocks begin.
/// Precondition: it is one.
fn first_block(bytes: &[u8]) -> usize
    requires { 12 ≤ length bytes.now }
    ensures { result ≡ sacks.first_block bytes.now }
{
    if bytes[0] == SACK { 16 } else { 20 }
}

/// How many blocks it says.
/// Precondition: all that stands before them is there.
fn said_blocks(bytes: &[u8]) -> usize
    requires { sacks.has_counts bytes.now ≡ true }
    ensures { result ≡ sacks.said_blocks bytes.now }
{
    let more = if bytes[0] == SACK {
        0
    } else {
        read_u16(bytes, 14)
    };
    read_u16(bytes, 12) as usize + more as usize
}

/// How many blocks it says, and are there.
/// Precondition: it is one.
fn block_count(bytes: &[u8]) -> usize
    requires { sacks.is_sack bytes.now ≡ true }
    ensures { result ≡ sacks.block_count bytes.now }
{
    let first = first_block(bytes);
    if bytes.len() < first {
        return 0;
    }
    said_blocks(bytes).min((bytes.len() - first) / 4)
}

/// How many gap ack blocks a SACK or an NR-SACK says, the latter in both lists, and how many duplicate TSNs.
#[derive(Clone, Copy)]
pub(crate) struct Said {
    pub blocks: usize,
    pub duplicates: u16,
}

/// What the bytes of a chunk say of them. Of another chunk, and where the numbers are cut off, nothing.
pub(crate) fn said_of(bytes: &[u8]) -> Option<Said>
    ensures which { is_some result ≡ sacks.has_counts bytes.now }
    ensures blocks { IfSome result (λ said. said.blocks ≡ sacks.said_blocks bytes.now) }
    ensures duplicates { IfSome result (λ said.
        said.duplicates ≡ sacks.said_duplicates bytes.now) }
{
    if !is_sack(bytes) || bytes.len() < first_block(bytes) {
        return None;
    }
    let at = if bytes[0] == SACK { 14 } else { 16 };
    Some(Said {
        blocks: said_blocks(bytes),
        duplicates: read_u16(bytes, at),
    })
}

/// Reads so many blocks from a place on.
/// Precondition: they are there.
#[tactic(auto, using(sctp_util::proofs::EachAt::each_none, sctp_util::proofs::EachAt::each_next))]
fn read_blocks(
    alloc: Global,
    bytes: &[u8],
    first: usize,
    count: usize,
) -> Result<Vec<GapAckBlock>, AllocError>
    requires { 4 * count ≤ length bytes.now - first }
    ensures { IfOk result (λ v. v.items ≡ each count (λ i. block_at bytes.now (first + 4 * i))) }
{
    let mut blocks = Vec::new(alloc);
    for i in 0..count {
        let start = read_u16(bytes, first + 4 * i);
        let end = read_u16(bytes, first + 4 * i + 2);
        blocks.push(GapAckBlock { start, end })?;
    }
    Ok(blocks)
}

/// What the bytes of a SACK say that may be cut off, or those of an NR-SACK: its cumulative TSN, its window, and the blocks that are there,
/// of an NR-SACK those of both lists. Of another chunk, and where the window is cut off, nothing. Refuses only for memory.
pub fn read_sack(alloc: Global, bytes: &[u8]) -> Result<Option<ChunkSelectiveAck>, AllocError>
    ensures which { IfOk result (λ sack. is_some sack ≡ sacks.is_sack bytes.now) }
    ensures read { IfOk result (λ sack. IfSome sack (IsReadOf bytes.now)) }
{
    if !is_sack(bytes) {
        return Ok(None);
    }
    let blocks = read_blocks(alloc, bytes, first_block(bytes), block_count(bytes))?;
    Ok(Some(ChunkSelectiveAck {
        cumulative_tsn_ack: read_u32(bytes, 4),
        advertised_receiver_window_credit: read_u32(bytes, 8),
        gap_ack_blocks: blocks,
        duplicate_tsn: Vec::new(alloc),
    }))
}
