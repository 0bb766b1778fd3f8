//! What the error causes of a chunk show, one behind the other.

ghost use Rattle.std.specs.Prelude.{◌≡◌, ◌++◌, IfOk, IfSome, IfNone};
ghost use Rattle.std.specs.List.{flat_map};
ghost use Rattle.sctp_util.specs.Walk.{Walks};
ghost use Rattle.sctp_chunks.specs.ErrorCause.{IsCause};
ghost use Rattle.sctp_dissect.specs.Causes.{after_padded_cause, ShowsCause, cause_bytes};

use bytes::Bytes;
use sctp_chunks::chunk::error_cause::ErrorCause;
use sctp_util::error::Error;
use sctp_util::field::read_u16;
use sctp_util::util::get_padding_size;
use std::alloc::{AllocError, Global};

/// A cause and its bytes.
#[derive(Debug, Drop)]
pub struct CauseItem {
    /// The cause's bytes, and those of its padding that are there.
    pub bytes: Bytes,
    pub cause: ErrorCause,
}

/// What bytes show as causes.
#[derive(Debug, Drop)]
pub struct Causes {
    pub items: Vec<CauseItem>,
    /// The bytes behind the last cause: they begin with no cause.
    pub rest: Bytes,
}

/// The cause at the front, and its bytes, if there is one.
#[tactic(auto, unfolding(crate::specs::Causes::cause_span))]
fn read_cause_item(rest: &Bytes) -> Result<Option<CauseItem>, AllocError>
    ensures some { IfOk result (λ item. IfSome item (ShowsCause rest.now)) }
    ensures none { IfOk result (λ item. IfNone item (IsCause rest.now → ⊥)) }
{
    match ErrorCause::unmarshal(rest) {
        Ok(cause) => {
            let length = read_u16(rest.as_slice(), 2) as usize;
            let mut bytes = rest.clone()?;
            bytes.truncate(length + get_padding_size(length));
            Ok(Some(CauseItem { bytes, cause }))
        }
        Err(Error::ErrOutOfMemory) => Err(AllocError),
        Err(_) => Ok(None),
    }
}

/// Looks at bytes, the value of an ABORT or ERROR, as error causes, each padded to a multiple of four bytes (RFC 4960 3.2.1, 3.3.10),
/// whatever they are; `ChunkAbort` and `ChunkError` look for no padding, and so may show others. The only refusal is for memory.
pub fn dissect_causes(alloc: Global, raw: Bytes) -> Result<Causes, AllocError>
    // Nothing is lost, and nothing shown twice.
    ensures joins { IfOk result (λ c. flat_map cause_bytes c.items.items ++ c.rest ≡ raw) }
    ensures items { IfOk result
        (λ c. Walks ShowsCause after_padded_cause raw c.items.items c.rest) }
    ensures ended { IfOk result (λ c. IsCause c.rest → ⊥) }
{
    let mut items = Vec::new(alloc);
    let mut rest = raw;
    'walk: while let Some(item) = read_cause_item(&rest)? {
        let length = item.bytes.len();
        items.push(item)?;
        rest.advance(length);
    }
    Ok(Causes { items, rest })
}
