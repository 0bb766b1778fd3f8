//! The numbers of the unordered messages that DATA chunks complete (RFC 4960 6.6).

ghost use Rattle.std.specs.Prelude.{◌≡◌, ◌<◌, ◌≤◌, ◌+◌, ◌^◌, ◌&&◌, ◌∷◌, List, [], OnOk, IsOk, IsOkUnless, length, map, take};
ghost use Rattle.sctp_util.specs.declared.error.Error.TheVariants.{ErrOutOfMemory};
ghost use Rattle.sctp_data.specs.declared.chunk.chunk_payload_data.ChunkPayloadData.{ChunkPayloadData};
ghost use Rattle.sctp_receiver.specs.Receiver.{is_answered_complete};
ghost use Rattle.sctp_link.specs.Progress.{standing_of, after_one, after_each};
ghost use Rattle.sctp_link.specs.Rooms.{HasRoom, HasCounted};

use super::StreamProgress;
use sctp_data::chunk::chunk_payload_data::ChunkPayloadData;
use sctp_receiver::receiver::arrival::Arrival;
use sctp_stream::stream_numbers::StreamNumbers;
use sctp_util::error::Result;

/// Makes room on each stream that is open for as many numbers as there are chunks of it, in a time that grows with the chunks alone.
/// Where there is room already it takes no memory. Refuses only for memory.
pub(crate) fn make_room(
    streams: &mut Vec<StreamProgress>,
    numbers: &StreamNumbers,
    chunks: &[ChunkPayloadData],
) -> Result<()>
    requires { numbers.now ≡ map (λ p. p.number) streams.old.items }
    ensures kept { map standing_of streams.new.items ≡ map standing_of streams.old.items }
    ensures room { OnOk result (HasRoom chunks.now streams.new.items) }
    ensures spare { HasRoom chunks.now streams.old.items → IsOk result }
    ensures memory { IsOkUnless result ErrOutOfMemory }
{
    clear_counts(streams, numbers, chunks);
    for at in 0..chunks.len() {
        count_one(streams, numbers, chunks, at)?;
    }
    Ok(())
}

// The streams of these chunks have counted none.
fn clear_counts(
    streams: &mut Vec<StreamProgress>,
    numbers: &StreamNumbers,
    chunks: &[ChunkPayloadData],
)
    requires { numbers.now ≡ map (λ p. p.number) streams.old.items }
    ensures kept { map standing_of streams.new.items ≡ map standing_of streams.old.items }
    ensures stays { (cs : List ChunkPayloadData) → HasRoom cs streams.old.items
        → HasRoom cs streams.new.items }
    ensures counted { HasCounted chunks.now [] streams.new.items }
{
    for at in 0..chunks.len() {
        clear_count(streams, numbers, chunks, at);
    }
}

// Nor has that of one chunk more.
fn clear_count(
    streams: &mut Vec<StreamProgress>,
    numbers: &StreamNumbers,
    chunks: &[ChunkPayloadData],
    at: usize,
)
    requires numbers { numbers.now ≡ map (λ p. p.number) streams.old.items }
    requires inside { at < length chunks.now }
    ensures kept { map standing_of streams.new.items ≡ map standing_of streams.old.items }
    ensures stays { (cs : List ChunkPayloadData) → HasRoom cs streams.old.items
        → HasRoom cs streams.new.items }
    ensures counted { HasCounted (take at chunks.now) [] streams.old.items
        → HasCounted (take (at + 1) chunks.now) [] streams.new.items }
{
    let chunk = &chunks[at];
    let Some(place) = numbers.place_of(chunk.stream_identifier) else {
        return;
    };
    streams[place].incoming = 0;
}

// Counts one chunk more on its stream, where that is open, and makes room there for as many numbers.
fn count_one(
    streams: &mut Vec<StreamProgress>,
    numbers: &StreamNumbers,
    chunks: &[ChunkPayloadData],
    at: usize,
) -> Result<()>
    requires numbers { numbers.now ≡ map (λ p. p.number) streams.old.items }
    requires inside { at < length chunks.now }
    requires short { at + 1 < 2 ^ 64 }
    requires counted { HasCounted chunks.now (take at chunks.now) streams.old.items }
    ensures kept { map standing_of streams.new.items ≡ map standing_of streams.old.items }
    ensures counted { HasCounted chunks.now (take (at + 1) chunks.now) streams.new.items }
    ensures stays { (cs : List ChunkPayloadData) → HasRoom cs streams.old.items
        → HasRoom cs streams.new.items }
    ensures room { OnOk result (HasRoom (take at chunks.now) streams.old.items
        → HasRoom (take (at + 1) chunks.now) streams.new.items) }
    ensures spare { HasRoom chunks.now streams.old.items → IsOk result }
    ensures memory { IsOkUnless result ErrOutOfMemory }
{
    let chunk = &chunks[at];
    let Some(place) = numbers.place_of(chunk.stream_identifier) else {
        return Ok(());
    };
    let progress = &mut streams[place];
    let incoming = progress.incoming + 1;
    progress.incoming = incoming;
    progress.complete.reserve(incoming)?;
    Ok(())
}

/// Records, as chunks were answered one after another, the number of each unordered message that became complete. It takes no memory.
/// Precondition: each stream has room for as many numbers as there are chunks of it, and each chunk has the number of its message and an
/// answer.
pub(crate) fn record_complete(
    streams: &mut Vec<StreamProgress>,
    numbers: &StreamNumbers,
    chunks: &[ChunkPayloadData],
    messages: &[u64],
    arrivals: &[Arrival],
)
    requires numbers { numbers.now ≡ map (λ p. p.number) streams.old.items }
    requires room { HasRoom chunks.now streams.old.items }
    requires messages { length chunks.now ≤ length messages.now }
    requires arrivals { length arrivals.now ≡ length chunks.now }
    ensures { map standing_of streams.new.items
        ≡ after_each chunks.now messages.now arrivals.now (map standing_of streams.old.items) }
{
    for at in 0..chunks.len() {
        record_one(streams, numbers, &chunks[at], messages[at], arrivals[at]);
    }
}

// The same of one chunk.
fn record_one(
    streams: &mut Vec<StreamProgress>,
    numbers: &StreamNumbers,
    chunk: &ChunkPayloadData,
    message: u64,
    arrival: Arrival,
)
    requires numbers { numbers.now ≡ map (λ p. p.number) streams.old.items }
    requires room { HasRoom (chunk.now ∷ []) streams.old.items }
    ensures rest { (cs : List ChunkPayloadData) → HasRoom (chunk.now ∷ cs) streams.old.items
        → HasRoom cs streams.new.items }
    ensures complete { map standing_of streams.new.items
        ≡ after_one chunk.now message arrival (map standing_of streams.old.items) }
{
    let Some(place) = numbers.place_of(chunk.stream_identifier) else {
        return;
    };
    if completes(chunk, arrival) {
        streams[place].complete.push_back_reserved(message);
    }
}

// Whether an unordered message became complete with a chunk.
fn completes(chunk: &ChunkPayloadData, arrival: Arrival) -> bool
    ensures { result ≡ (is_answered_complete arrival && chunk.now.unordered) }
{
    match arrival {
        Arrival::New { complete } => complete && chunk.unordered,
        Arrival::Repeat => false,
    }
}
