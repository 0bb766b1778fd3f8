//! A DATA chunk is taken (RFC 9260 6.2): each refusal is known, and all memory is there, before anything of it is kept.

ghost use Rattle.std.specs.Prelude.{◌≡◌, ◌+◌, ◌-◌, ◌≤◌, length, true, false, None, OnOk, OnErr, IfOk, IfErr, IsOk, find};
ghost use Rattle.sctp_receiver.specs.declared.receiver.refusal.ReceiverRefusal.TheVariants.{OutOfMemory};
ghost use Rattle.sctp_receiver.specs.Receiver.{arrival_refusal, data_refusal, IsRefusedFor, takes_memory, arrival_of, is_answered_complete, Takes, stream_of, stream_refusal, is_full_by, noted_by};
ghost use Rattle.sctp_reassembly.specs.reassembly_queue.Orders.{digits};
ghost use Rattle.sctp_receiver.specs.Costs.{IsWithinData, IsWithinPushOn};
ghost use Rattle.sctp_receiver.specs.Inbound.{PushesOn, has_number, numbers_of};
ghost use Rattle.sctp_receiver.specs.Ssns.{is_kept_on};
ghost use Rattle.sctp_receiver.specs.TsnFilter.{MakesRoom, has_come};
ghost use Rattle.sctp_receiver.specs.Undo.{parts, reception_of, chunk_undone, CanUndoChunk, repeat_undone, undone_at, CanUndoAt};
ghost use Rattle.sctp_stream.specs.Numbers.{IsOnlyPlace};

use crate::receiver::arrival::Arrival;
use crate::receiver::inbound_streams::InboundStreams;
use crate::receiver::limits::{Limits, refusal_by};
use crate::receiver::refusal::ReceiverRefusal;
use crate::receiver::sack_out::MAX_SACK_ENTRIES;
use crate::receiver::spans::TsnSpan;
use crate::receiver::ssns::is_new_too_far;
use crate::receiver::tsn_filter::TsnFilter;
use crate::receiver::tsn_filter::undo::FilterUndo;
use sctp_data::chunk::chunk_payload_data::ChunkPayloadData;
use sctp_reassembly::reassembly_queue::undo::PushUndo;
use sctp_serial::turns::Turns;

/// By what a receiver takes chunks.
#[derive(Clone, Copy)]
pub(crate) struct Rules {
    /// How long a message may be, in bytes.
    pub max_message_size: u32,
    /// What is taken at most.
    pub limits: Option<Limits>,
}

/// What a chunk did, so that a replay can take it back.
#[derive(Drop)]
pub(crate) enum ChunkUndo {
    /// Its TSN came again, and was noted or not.
    Repeat {
        noted: bool,
    },
    /// Its TSN came, and the stream at a place has it, which had this stretch before.
    New {
        tsn: FilterUndo,
        place: usize,
        queue: PushUndo,
        span: TsnSpan,
    },
}

// Takes a chunk, and answers what it was. Its turns are added.
pub(crate) fn take(
    streams: &mut InboundStreams,
    filter: &mut TsnFilter,
    rules: Rules,
    chunk: &ChunkPayloadData,
    turns: &mut Turns,
) -> Result<Arrival, ReceiverRefusal>
    ensures answer { IfOk result (λ arrival. arrival
        ≡ arrival_of chunk.now.tsn (is_answered_complete arrival)
        (reception_of rules (parts streams.old filter.old))) }
    ensures ok { IfOk result (λ arrival. Takes chunk.now arrival
        (reception_of rules (parts streams.old filter.old))
        (reception_of rules (parts streams.new filter.new))) }
    ensures accepted { IsOk result
        → arrival_refusal chunk.now (reception_of rules (parts streams.old filter.old)) ≡ None }
    ensures kept { IsOk result → has_come chunk.now.tsn filter.old ≡ false
        → is_kept_on chunk.now (stream_of chunk.now.stream_identifier
        (reception_of rules (parts streams.old filter.old))) ≡ true }
    ensures came { IsOk result → has_come chunk.now.tsn filter.new ≡ true }
    ensures refused { IfErr result (λ e. IsRefusedFor
        (arrival_refusal chunk.now (reception_of rules (parts streams.old filter.old))) e) }
    ensures wants { IfErr result (λ e. e ≡ OutOfMemory → takes_memory chunk.now
        (reception_of rules (parts streams.old filter.old)) ≡ true) }
    ensures err { OnErr result (parts streams.new filter.new ≡ parts streams.old filter.old) }
    ensures not_back { turns.old ≤ turns.new }
    ensures cost { IsWithinData chunk.now (reception_of rules (parts streams.old filter.old))
        (reception_of rules (parts streams.new filter.new)) (turns.new - turns.old) }
{
    if is_new_too_far(streams, filter, chunk, turns) {
        return Err(ReceiverRefusal::SsnTooFar);
    }
    let (arrival, _) = take_any_ssn(streams, filter, rules, chunk, turns)?;
    Ok(arrival)
}

/// The same, but its stream sequence number is not looked at, and it answers too how the chunk is taken back. What refuses a chunk is tested
/// first, and memory for its TSN is taken before its fragment is pushed: so nothing that was done is undone.
pub(crate) fn take_any_ssn(
    streams: &mut InboundStreams,
    filter: &mut TsnFilter,
    rules: Rules,
    chunk: &ChunkPayloadData,
    turns: &mut Turns,
) -> Result<(Arrival, ChunkUndo), ReceiverRefusal>
    ensures answer { IfOk result (λ taken. taken.0
        ≡ arrival_of chunk.now.tsn (is_answered_complete taken.0)
        (reception_of rules (parts streams.old filter.old))) }
    ensures ok { IfOk result (λ taken. Takes chunk.now taken.0
        (reception_of rules (parts streams.old filter.old))
        (reception_of rules (parts streams.new filter.new))) }
    ensures accepted { IsOk result
        → data_refusal chunk.now (reception_of rules (parts streams.old filter.old)) ≡ None }
    ensures came { IsOk result → has_come chunk.now.tsn filter.new ≡ true }
    ensures undo { IfOk result (λ taken. chunk_undone taken.1
        (parts streams.new filter.new) ≡ parts streams.old filter.old) }
    ensures can { IfOk result (λ taken. CanUndoChunk taken.1 (parts streams.new filter.new)) }
    ensures refused { IfErr result (λ e. IsRefusedFor
        (data_refusal chunk.now (reception_of rules (parts streams.old filter.old))) e) }
    ensures wants { IfErr result (λ e. e ≡ OutOfMemory → takes_memory chunk.now
        (reception_of rules (parts streams.old filter.old)) ≡ true) }
    ensures err { OnErr result (parts streams.new filter.new ≡ parts streams.old filter.old) }
    ensures not_back { turns.old ≤ turns.new }
    ensures cost { IsWithinData chunk.now (reception_of rules (parts streams.old filter.old))
        (reception_of rules (parts streams.new filter.new))
        (turns.new - turns.old + digits (length filter.old.beyond) + 2) }
{
    if filter.has_come_counted(chunk.tsn, turns) {
        let noted = note_repeat(filter, rules.limits, chunk.tsn)?;
        return Ok((Arrival::Repeat, ChunkUndo::Repeat { noted }));
    }
    if filter.is_opposite(chunk.tsn) {
        return Err(ReceiverRefusal::TsnOpposite);
    }
    turns.tick();
    if let Some(refusal) = refusal_by(rules.limits, streams, filter, chunk.tsn) {
        return Err(refusal);
    }
    turns.tick();
    let Some(place) = streams.place_of(chunk.stream_identifier) else {
        return Err(ReceiverRefusal::StreamUnknown);
    };
    let tsn = filter.undo_of(chunk.tsn);
    let span = streams.span_at(place);
    let (complete, queue) = push_behind_room(streams, filter, place, chunk, turns)?;
    filter.accept(chunk.tsn, turns);
    let undo = ChunkUndo::New {
        tsn,
        place,
        queue,
        span,
    };
    Ok((Arrival::New { complete }, undo))
}

// Makes room for the TSN of a chunk, then pushes the chunk on the stream at a place. Where one of both is refused nothing changes. Its turns
// are added: those of the push.
// Precondition: it is the place of the stream of the chunk.
fn push_behind_room(
    streams: &mut InboundStreams,
    filter: &mut TsnFilter,
    place: usize,
    chunk: &ChunkPayloadData,
    turns: &mut Turns,
) -> Result<(bool, PushUndo), ReceiverRefusal>
    requires { IsOnlyPlace chunk.now.stream_identifier (numbers_of streams.old) place }
    ensures ok { IfOk result (λ put. PushesOn chunk.now put.0 streams.old streams.new) }
    ensures room { OnOk result (MakesRoom chunk.now.tsn filter.old filter.new) }
    ensures undo { IfOk result (λ put. undone_at place put.1 streams.new ≡ streams.old) }
    ensures can { IfOk result (λ put. CanUndoAt place put.1 streams.new) }
    ensures fits { IsOk result → stream_refusal chunk.now
        (find (has_number chunk.now.stream_identifier) streams.old) ≡ None }
    ensures refused { IfErr result (λ e. IsRefusedFor (stream_refusal chunk.now
        (find (has_number chunk.now.stream_identifier) streams.old)) e) }
    ensures err { OnErr result (parts streams.new filter.new ≡ parts streams.old filter.old) }
    ensures not_back { turns.old ≤ turns.new }
    ensures cost { IsWithinPushOn chunk.now
        (find (has_number chunk.now.stream_identifier) streams.old) (turns.new - turns.old) }
{
    let room = filter.room();
    if filter.make_room(chunk.tsn).is_err() {
        return Err(streams.refusal_at(place, chunk, turns));
    }
    match streams.push_undoable_at_counted(place, chunk, turns) {
        Ok(pushed) => Ok(pushed),
        Err(refusal) => {
            filter.set_room(room);
            Err(refusal)
        }
    }
}

// A TSN comes again: it is noted, unless the limits are there and as many duplicates are noted as a SACK can report. Answers whether it
// was noted. Where it is not it takes no memory.
pub(crate) fn note_repeat(
    filter: &mut TsnFilter,
    limits: Option<Limits>,
    tsn: u32,
) -> Result<bool, ReceiverRefusal>
    ensures ok { OnOk result (filter.new ≡ record filter.old {
      duplicates = noted_by limits tsn filter.old.duplicates;
    }) }
    ensures undo { IfOk result (λ noted. repeat_undone noted filter.new ≡ filter.old) }
    ensures refused { IfErr result (λ e. (e ≡ OutOfMemory)
        × (is_full_by limits filter.old.duplicates ≡ false)) }
    ensures err { OnErr result (filter.new ≡ filter.old) }
{
    if is_full_by(limits, filter) {
        return Ok(false);
    }
    filter.record_duplicate(tsn)?;
    Ok(true)
}

// Whether the limits are there, and as many duplicates are noted as a SACK can report.
fn is_full_by(limits: Option<Limits>, filter: &TsnFilter) -> bool
    ensures { result ≡ is_full_by limits filter.now.duplicates }
{
    match limits {
        Some(_) => filter.duplicates().len() >= MAX_SACK_ENTRIES,
        None => false,
    }
}
