//! A peer that sends one chunk again and again, to a receiver with limits and to one without.

use crate::part::{chunk, is_new, reports};
use sctp_chunks::chunk::chunk_payload_data::ChunkPayloadData;
use sctp_receiver::receiver::Receiver;
use sctp_receiver::receiver::arrival::Arrival;
use sctp_receiver::receiver::limits::Limits;
use sctp_receiver::replay::make_sack;
use std::alloc::Global;

const LIMITS: Limits = Limits {
    window: 1000,
    reach: 5,
};

// Whether the chunk comes so often, each time as a repeat.
fn comes(receiver: &mut Receiver, chunk: &ChunkPayloadData, times: u32) -> bool {
    let mut well = true;
    for _ in 0..times {
        well = matches!(receiver.data(chunk), Ok(Arrival::Repeat)) && well;
    }
    well
}

// Whether so many duplicates are noted, of which one SACK reports 16,379 at most.
fn notes(receiver: &Receiver, count: usize) -> bool {
    match make_sack(receiver, 0) {
        Ok(sack) => {
            let well = sack.duplicate_tsn.len() == count;
            drop(sack);
            well
        }
        Err(_) => false,
    }
}

// Whether no more duplicates are noted than one SACK reports, also where the TSN is dropped, and again after the SACK.
fn is_bounded(receiver: &mut Receiver, chunk: &ChunkPayloadData) -> bool {
    comes(receiver, chunk, 20_000)
        && notes(receiver, 16_379)
        && receiver.discard(1) == Ok(Arrival::Repeat)
        && notes(receiver, 16_379)
        && reports(receiver, 1, 16_379)
        && comes(receiver, chunk, 1)
        && receiver.discard(1) == Ok(Arrival::Repeat)
        && notes(receiver, 2)
}

// Whether that is so, and a receiver without limits notes one more.
fn both(alloc: Global, bounded: &mut Receiver, unbounded: &mut Receiver) -> bool {
    let ready = bounded.open(1).is_ok()
        && unbounded.open(1).is_ok()
        && is_new(alloc, bounded, 1, (true, true), b"a")
        && is_new(alloc, unbounded, 1, (true, true), b"a");
    match chunk(alloc, 1, true, true, b"a") {
        Ok(chunk) => {
            let well = ready
                && is_bounded(bounded, &chunk)
                && comes(unbounded, &chunk, 16_380)
                && reports(unbounded, 1, 16_379)
                && reports(unbounded, 1, 1);
            drop(chunk);
            well
        }
        Err(_) => false,
    }
}

/// With limits a receiver notes 16,379 repeats at most, as many as one SACK reports; without limits each.
pub(crate) fn repeats(alloc: Global) -> bool {
    let mut bounded = Receiver::new(alloc, 1, 100, Some(LIMITS));
    let mut unbounded = Receiver::new(alloc, 1, 100, None);
    let well = both(alloc, &mut bounded, &mut unbounded);
    drop(bounded);
    drop(unbounded);
    well
}
