//! What a FORWARD-TSN names on a stream (RFC 3758 3.2, 3.6).

ghost use Rattle.std.specs.Prelude.{◌≡◌, ◌+◌, ◌<◌, ◌^◌, ◌∷◌, ℕ, List, [], length, map, slice_index_or, IfOk, IsOkUnless};
ghost use Rattle.sctp_util.specs.declared.error.Error.TheVariants.{ErrOutOfMemory};
ghost use Rattle.sctp_link.specs.declared.skipped.Named.{Named};
ghost use Rattle.sctp_link.specs.Skips.{index_in, named_from, none_named, with_name, pair_in, standing_named, HasNames, IsFullOrEmpty};

use crate::progress::Progress;
use crate::record::Message;
use sctp_chunks::chunk::chunk_forward_tsn::ChunkForwardTsnStream;
use sctp_util::error::Result;
use std::alloc::Global;

/// What a skip names on a stream: the least index, and one more than the greatest, or 0 where it names none.
#[derive(Clone, Copy, Drop)]
pub struct Named {
    pub low: u64,
    pub end: u64,
}

/// What a skip that names these messages names on a stream.
/// Precondition: the index of each message is below the greatest u64.
pub fn named_on(messages: &[Message], stream: u16, names: &[u64]) -> Named
    requires { (n : ℕ) → index_in messages.now n + 1 < 2 ^ 64 }
    ensures { result ≡ named_from messages.now stream none_named names.now }
{
    let mut named = Named {
        low: u64::MAX,
        end: 0,
    };
    for number in names {
        named = with_name(messages, stream, *number, named);
    }
    named
}

// And one message more.
fn with_name(messages: &[Message], stream: u16, number: u64, named: Named) -> Named
    requires { (n : ℕ) → index_in messages.now n + 1 < 2 ^ 64 }
    ensures { result ≡ with_name messages.now stream number named }
{
    let Some(message) = messages.get(number as usize) else {
        return named;
    };
    if message.stream != stream || !message.ordered || message.expired {
        return named;
    }
    Named {
        low: named.low.min(message.index),
        end: named.end.max(message.index + 1),
    }
}

/// What a skip that names these messages names on each open stream, in the order in which they were opened: in a time that grows with
/// the names and the streams, and not with their product. Where memory is refused it has no places.
/// Precondition: the index of each message is below the greatest u64.
pub(crate) fn named_on_each(
    alloc: Global,
    progress: &Progress,
    messages: &[Message],
    names: &[u64],
) -> Vec<Named>
    requires { (n : ℕ) → index_in messages.now n + 1 < 2 ^ 64 }
    ensures names { HasNames messages.now names.now [] progress.now result.items }
    ensures count { IsFullOrEmpty (length progress.now) result.items }
{
    let mut table = none_named(alloc, progress.len());
    for number in names {
        put_name(&mut table, progress, messages, *number);
    }
    table
}

// Nothing is named on so many streams. Where memory is refused there are no places.
fn none_named(alloc: Global, count: usize) -> Vec<Named>
    ensures none { (k : ℕ) (d : Named)
        → k < length result.items → d ≡ slice_index_or result.items k d → d ≡ none_named }
    ensures count { IsFullOrEmpty count result.items }
{
    let mut table = Vec::new(alloc);
    let none = Named {
        low: u64::MAX,
        end: 0,
    };
    let _ = table.resize(count, none);
    table
}

// One message more is named, on the stream that it is one of.
fn put_name(table: &mut Vec<Named>, progress: &Progress, messages: &[Message], number: u64)
    requires { (n : ℕ) → index_in messages.now n + 1 < 2 ^ 64 }
    ensures names { (names rest : List ℕ)
        → HasNames messages.now names (number ∷ rest) progress.now table.old.items
        → HasNames messages.now names rest progress.now table.new.items }
    ensures count { length table.new.items ≡ length table.old.items }
{
    let Some(message) = messages.get(number as usize) else {
        return;
    };
    let Some(place) = progress.place_of(message.stream) else {
        return;
    };
    if place < table.len() {
        table[place] = with_name(messages, message.stream, number, table[place]);
    }
}

/// The pairs that name these messages (RFC 3758 3.2). Refuses only for memory.
/// Precondition: each name is the number of a message.
pub fn pairs_of(
    alloc: Global,
    messages: &[Message],
    names: &[u64],
) -> Result<Vec<ChunkForwardTsnStream>>
    requires { (i d : ℕ)
        → i < length names.now → slice_index_or names.now i d < length messages.now }
    ensures pairs { IfOk result (λ ps. ps.items ≡ map (pair_in messages.now) names.now) }
    ensures memory { IsOkUnless result ErrOutOfMemory }
{
    let mut pairs = Vec::new(alloc);
    pairs.reserve(names.len())?;
    for number in names {
        let message = &messages[*number as usize];
        pairs.push(ChunkForwardTsnStream {
            identifier: message.stream,
            sequence: (message.index % 0x10000) as u16,
        })?;
    }
    Ok(pairs)
}

/// Records, on each open stream, how far its ordered messages were named by a skip that names these: in a time that grows with the names
/// alone. It takes no memory.
/// Precondition: the index of each message is below the greatest u64.
pub(crate) fn record_names(progress: &mut Progress, messages: &[Message], names: &[u64])
    requires { (n : ℕ) → index_in messages.now n + 1 < 2 ^ 64 }
    ensures { progress.new ≡ map (standing_named messages.now names.now) progress.old }
{
    for number in names {
        record_name(progress, messages, *number);
    }
}

// So of one that names this message alone.
fn record_name(progress: &mut Progress, messages: &[Message], number: u64)
    requires { (n : ℕ) → index_in messages.now n + 1 < 2 ^ 64 }
    ensures { progress.new ≡ map (standing_named messages.now (number ∷ [])) progress.old }
{
    let Some(message) = messages.get(number as usize) else {
        return;
    };
    let Some(place) = progress.place_of(message.stream) else {
        return;
    };
    let none = Named {
        low: u64::MAX,
        end: 0,
    };
    let named = with_name(messages, message.stream, number, none);
    progress.record_named(place, named.end);
}
