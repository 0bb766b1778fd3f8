//! Callers of the queues, and worked examples over their public calls.

pub mod calls;
mod chunk;
mod chunks;
mod outbound_queue;
mod part;
mod payload_queue;
mod pending_queue;
mod reassembly_queue;
pub mod receive;

use crate::log::check;
use std::alloc::Global;

// The examples of messages and their fragments.
fn of_messages(alloc: Global, log: &mut Vec<u8>) {
    check(log, chunks::messages(alloc), "messages");
    check(log, chunks::empty_message(alloc), "an empty message");
    chunks::fragments_stand_in_order(alloc, log);
    let found = chunks::a_run_is_found_round_its_place(alloc);
    check(log, found, "a run is found round its place");
    let put = chunks::a_message_is_put_once(alloc);
    check(log, put, "a message is put once");
}

/// Puts to the log what does not hold of queues.
pub(crate) fn all(alloc: Global, log: &mut Vec<u8>) {
    of_messages(alloc, log);
    payload_queue::payload_cases(alloc, log);
    let taken = payload_queue::chunks_are_taken_out_and_a_copy_stays(alloc);
    check(
        log,
        taken,
        "chunks are taken out of a payload queue, and a copy stays",
    );
    reassembly_queue::reassembly_cases(alloc, log);
    let undone = reassembly_queue::a_push_is_undone_and_a_copy_stays(alloc);
    check(
        log,
        undone,
        "a push is undone, and a copy of a reassembly queue stays",
    );
    outbound_queue::outbound_cases(alloc, log);
    let one = outbound_queue::takes_one_message_of_one_kind_or_nothing(alloc);
    check(
        log,
        one,
        "an outbound queue takes one message of one kind or nothing",
    );
    let first = pending_queue::unordered_goes_first(alloc);
    check(log, first, "what is unordered goes first");
    let partial = pending_queue::a_message_with_no_end_stays_partially_sent(alloc);
    check(log, partial, "a message with no end stays partially sent");
}
