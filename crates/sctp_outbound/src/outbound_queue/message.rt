//! What an outbound queue asks of the chunks that are pushed.

ghost use Rattle.std.specs.Prelude.{◌≡◌, ◌+◌, ◌^◌, ◌<◌, true, nat_lt};
ghost use Rattle.sctp_serial.specs.DataChunks.{bytes_of};
ghost use Rattle.sctp_outbound.specs.pending_queue.Whole.{IsMessageOrNone};

use sctp_data::chunk::chunk_payload_data::ChunkPayloadData;

/// Whether these are no fragments, or those of one complete message: the first begins it and the last ends it, and no other does; all
/// are ordered or all unordered.
#[inline]
pub(crate) fn is_message_or_none(chunks: &[ChunkPayloadData]) -> bool
    ensures yes { result ≡ true → IsMessageOrNone chunks.now }
    ensures no { IsMessageOrNone chunks.now → result ≡ true }
{
    let Some(first) = chunks.first() else {
        return true;
    };
    let mut rest = chunks;
    let mut begun = false;
    while let Some((chunk, behind)) = rest.split_first() {
        if chunk.beginning_fragment == begun
            || chunk.ending_fragment != behind.is_empty()
            || chunk.unordered != first.unordered
        {
            return false;
        }
        begun = true;
        rest = behind;
    }
    true
}

/// Whether so many bytes and those of the chunks are together at most the greatest usize.
#[inline]
pub(crate) fn is_room_for(n_bytes: usize, chunks: &[ChunkPayloadData]) -> bool
    ensures { result ≡ nat_lt (n_bytes + bytes_of chunks.now) (2 ^ 64) }
{
    let mut all = n_bytes;
    for chunk in chunks {
        let Some(more) = all.checked_add(chunk.user_data.len()) else {
            return false;
        };
        all = more;
    }
    true
}
