//! DATA chunks that are taken with their turns counted: what is looked at in a case that is counted by hand.

ghost use Rattle.std.specs.Prelude.{◌≡◌, ◌-◌, None};
ghost use Rattle.sctp_receiver.specs.Costs.{IsWithinData, filter_looks};
ghost use Rattle.sctp_receiver.specs.Receiver.{at_first};

use crate::part::{chunk, reads};
use sctp_chunks::chunk::chunk_payload_data::ChunkPayloadData;
use sctp_receiver::costs;
use sctp_receiver::receiver::Receiver;
use sctp_receiver::receiver::arrival::Arrival;
use sctp_receiver::receiver::refusal::ReceiverRefusal;
use sctp_serial::turns::Turns;
use std::alloc::Global;

// Takes a DATA chunk. Where no TSN is beyond the cumulative one, it looks at 5 at most beside the push.
fn take_one(
    receiver: &mut Receiver,
    chunk: &ChunkPayloadData,
    turns: &mut Turns,
) -> Result<Arrival, ReceiverRefusal>
    ensures looks { IsWithinData chunk.now receiver.old receiver.new (turns.new - turns.old) }
    ensures by_hand { filter_looks (at_first 1 100 None) ≡ 5 }
{
    costs::data(receiver, chunk, turns)
}

// Whether a chunk is taken with this answer.
fn is_taken(receiver: &mut Receiver, chunk: &ChunkPayloadData, due: Arrival) -> bool {
    match take_one(receiver, chunk, &mut Turns::new()) {
        Ok(arrival) => arrival == due,
        Err(_) => false,
    }
}

// The two fragments of a message come twice, the last one first.
fn come_twice(receiver: &mut Receiver, first: &ChunkPayloadData, last: &ChunkPayloadData) -> bool {
    is_taken(receiver, last, Arrival::New { complete: false })
        && is_taken(receiver, first, Arrival::New { complete: true })
        && is_taken(receiver, last, Arrival::Repeat)
        && is_taken(receiver, first, Arrival::Repeat)
        && reads(receiver, b"ab")
}

fn both_come(alloc: Global, receiver: &mut Receiver) -> bool {
    let first = chunk(alloc, 1, true, false, b"a");
    let last = chunk(alloc, 2, false, true, b"b");
    match (first, last) {
        (Ok(first), Ok(last)) => come_twice(receiver, &first, &last),
        _ => false,
    }
}

/// DATA chunks are taken one after another, and their turns are counted.
pub(crate) fn taken_counted(alloc: Global) -> bool {
    let mut receiver = Receiver::new(alloc, 1, 100, None);
    let well = receiver.open(1).is_ok() && both_come(alloc, &mut receiver);
    drop(receiver);
    well
}
