//! The chunk that the end of a frame cuts off.

ghost use Rattle.std.specs.Prelude.{◌≡◌, ◌≤◌, length, IfOk};
ghost use Rattle.sctp_dissect.specs.Dissection.{Stops};
ghost use Rattle.sctp_show.specs.Cut as cuts;
ghost use Rattle.sctp_show.specs.Cut.{IsCutItem, WithCut};

use bytes::Bytes;
use sctp_dissect::dissection::{Dissection, Fault, Item, RawChunk, Reading};
use sctp_util::error::Error;
use sctp_util::field::read_u16;
use sctp_util::util::{ChunkType, get_padding_size};
use std::alloc::AllocError;

/// Whether the bytes left over begin a chunk that ends among so many bytes that are missing behind them.
fn ends_missing(seen: &Dissection, missing: usize) -> bool
    requires { Stops seen.now.fault seen.now.rest }
    ensures { result ≡ cuts.ends_missing seen.now missing }
{
    let rest = seen.rest.as_slice();
    seen.fault == Some(Fault::LengthPastEnd)
        && (read_u16(rest, 2) as usize).saturating_sub(rest.len()) <= missing
}

/// What is there of a chunk that is cut off, as one that is not read.
fn cut_item(rest: &Bytes) -> Result<Item, AllocError>
    requires { 4 ≤ length rest.now }
    ensures { IfOk result (IsCutItem rest.now) }
{
    let bytes = rest.as_slice();
    let raw = RawChunk {
        typ: ChunkType(bytes[0]),
        flags: bytes[1],
        length: read_u16(bytes, 2),
        value: rest.slice(4..rest.len())?,
        refusal: Error::ErrChunkHeaderNotEnoughSpace,
    };
    Ok(Item {
        bytes: rest.clone()?,
        reading: Reading::Raw(raw),
    })
}

/// What a datagram shows of which so many bytes are missing at its end: the chunk that ends among these is an item, with what is there of
/// it. Refuses only for memory.
pub(crate) fn with_cut(seen: Dissection, missing: usize) -> Result<Dissection, AllocError>
    requires { Stops seen.fault seen.rest }
    ensures { IfOk result (WithCut missing seen) }
{
    if !ends_missing(&seen, missing) {
        return Ok(seen);
    }
    let item = cut_item(&seen.rest)?;
    let mut items = seen.items;
    items.push(item)?;
    Ok(Dissection {
        header: seen.header,
        items,
        rest: Bytes::new(),
        fault: None,
    })
}

/// How many bytes of a chunk are not there, its padding included.
pub fn missing_of(item: &Item) -> usize
    ensures { result ≡ cuts.missing_of item.now.bytes }
{
    let bytes = item.bytes.as_slice();
    if bytes.len() < 4 {
        return 0;
    }
    let length = read_u16(bytes, 2) as usize;
    (length + get_padding_size(length)).saturating_sub(bytes.len())
}
