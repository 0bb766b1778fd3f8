//! The DATA chunks of a packet of a record, which a replay takes all or none (RFC 9260 6.10).

ghost use Rattle.std.specs.Prelude.{◌≡◌, ◌⊎◌, ◌≤◌, [], OnErr, IfOk, IfErr};
ghost use Rattle.std.specs.Vec.{vec_capacity};
ghost use Rattle.sctp_receiver.specs.declared.receiver.refusal.ReceiverRefusal.TheVariants.{OutOfMemory};
ghost use Rattle.sctp_receiver.specs.Calls.{TakesDataEach};
ghost use Rattle.sctp_receiver.specs.Receiver.{TakesEach, StopsAt};
ghost use Rattle.sctp_receiver.specs.Undo.{parts, reception_of, chunk_undone, CanUndoChunk, chunks_undone, CanUndoChunks, repeat_undone};

use crate::receiver::Receiver;
use crate::receiver::arrival::Arrival;
use crate::receiver::inbound_streams::InboundStreams;
use crate::receiver::intake::{ChunkUndo, Rules, take_any_ssn};
use crate::receiver::refusal::ReceiverRefusal;
use crate::receiver::tsn_filter::TsnFilter;
use sctp_data::chunk::chunk_payload_data::ChunkPayloadData;
use sctp_serial::turns::Turns;
use sctp_stream::stream_numbers::put;
use std::alloc::Global;

impl Receiver {
    /// Takes DATA chunks of any stream sequence numbers one after another, all or none: the first one that is refused refuses them all,
    /// with its refusal, and those before it are taken back.
    pub(crate) fn take_all(
        &mut self,
        chunks: &[ChunkPayloadData],
    ) -> Result<Vec<Arrival>, ReceiverRefusal>
        ensures { TakesDataEach chunks.now self.old self.new result }
    {
        let rules = self.rules();
        let arrivals = take_each(
            self.alloc,
            &mut self.streams,
            &mut self.filter,
            rules,
            chunks,
        )?;
        self.filter.settle();
        Ok(arrivals)
    }
}

// Takes chunks one after another, up to the first one that is refused: then those before it are taken back.
fn take_each(
    alloc: Global,
    streams: &mut InboundStreams,
    filter: &mut TsnFilter,
    rules: Rules,
    chunks: &[ChunkPayloadData],
) -> Result<Vec<Arrival>, ReceiverRefusal>
    ensures ok { IfOk result (λ arrivals. TakesEach chunks.now arrivals.items
        (reception_of rules (parts streams.old filter.old))
        (reception_of rules (parts streams.new filter.new))) }
    ensures refused { IfErr result (λ e. (e ≡ OutOfMemory) ⊎ StopsAt
        chunks.now (reception_of rules (parts streams.old filter.old)) e) }
    ensures err { OnErr result (parts streams.new filter.new ≡ parts streams.old filter.old) }
{
    let (mut arrivals, mut undos) = room_for(alloc, chunks.len())?;
    for chunk in chunks {
        match take_any_ssn(streams, filter, rules, chunk, &mut Turns::new()) {
            Ok((arrival, undo)) => {
                put(&mut arrivals, arrival);
                put(&mut undos, undo);
            }
            Err(refusal) => {
                undo_each(streams, filter, undos);
                return Err(refusal);
            }
        }
    }
    Ok(arrivals)
}

// Room for the answers of so many chunks, and for how each is taken back.
fn room_for(alloc: Global, count: usize) -> Result<(Vec<Arrival>, Vec<ChunkUndo>), ReceiverRefusal>
    ensures arrivals { IfOk result (λ made. made.0.items ≡ []) }
    ensures arrivals_fit { IfOk result (λ made. count ≤ vec_capacity made.0) }
    ensures undos { IfOk result (λ made. made.1.items ≡ []) }
    ensures undos_fit { IfOk result (λ made. count ≤ vec_capacity made.1) }
    ensures memory { IfErr result (λ e. e ≡ OutOfMemory) }
{
    let mut arrivals = Vec::new(alloc);
    let mut undos = Vec::new(alloc);
    if arrivals.reserve(count).is_err() || undos.reserve(count).is_err() {
        return Err(ReceiverRefusal::OutOfMemory);
    }
    Ok((arrivals, undos))
}

// Takes chunks back, the last one first. It takes no memory.
// Precondition: all is as the last one left it.
fn undo_each(streams: &mut InboundStreams, filter: &mut TsnFilter, undos: Vec<ChunkUndo>)
    requires { CanUndoChunks undos.items (parts streams.old filter.old) }
    ensures { parts streams.new filter.new
        ≡ chunks_undone undos.items (parts streams.old filter.old) }
{
    let mut undos = undos;
    while let Some(undo) = undos.pop() {
        undo_chunk(streams, filter, undo);
    }
}

// Takes a chunk back.
// Precondition: all is as it left it.
fn undo_chunk(streams: &mut InboundStreams, filter: &mut TsnFilter, undo: ChunkUndo)
    requires { CanUndoChunk undo (parts streams.old filter.old) }
    ensures { parts streams.new filter.new ≡ chunk_undone undo (parts streams.old filter.old) }
{
    match undo {
        ChunkUndo::Repeat { noted } => forget_repeat(filter, noted),
        ChunkUndo::New {
            tsn,
            place,
            queue,
            span,
        } => {
            streams.undo_push_at(place, queue, span);
            filter.retract(tsn);
        }
    }
}

// A TSN that came again is taken back.
fn forget_repeat(filter: &mut TsnFilter, noted: bool)
    ensures { filter.new ≡ repeat_undone noted filter.old }
{
    if noted {
        filter.forget_last_duplicate();
    }
}
