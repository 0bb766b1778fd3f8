//! Worked examples of a payload queue.

use crate::ended::is_there;
use crate::log::check;
use crate::queues::chunk::chunk;
use sctp_data::chunk::chunk_selective_ack::GapAckBlock;
use sctp_queues::payload_queue::PayloadQueue;
use sctp_queues::turns::Turns;
use sctp_util::error::Error;
use std::alloc::Global;

/// A call, and what it answers.
enum Step {
    /// A cumulative TSN, and those that are pushed where that is allowed; what the pushes answer is left out.
    Fill(u32, &'static [u32]),
    /// After the cumulative TSN 10: whether the TSN is new, and kept.
    Push(u32, bool),
    /// Such a push into the room that was reserved.
    PushNoCheck(u32),
    Reserve(usize),
    Duplicates(&'static [u32]),
    /// They are given away.
    PopDuplicates(&'static [u32]),
    /// The gap ack blocks after a cumulative TSN as they print, and as they are.
    Prints(u32, &'static str),
    Blocks(u32, &'static [(u16, u16)]),
    PopUpTo(u32),
    Pop(u32, bool),
    Take(u32, bool),
    /// What is held, in order; each is one byte unless it was acknowledged.
    Tsns(&'static [u32]),
    Bytes(usize),
    /// The TSN that was received last.
    Last(u32),
    Acked(u32, usize),
    MarkAll,
    Abandon(u64, usize),
    /// Of a TSN: to be sent again, how often sent, since when, reported missing how often; None where it is not held.
    Set(u32, bool),
    Marks(u32, Option<(bool, u32, Option<u64>, u8)>),
    Stream(u16, bool),
    /// A cumulative TSN, a TSN, and whether a push is allowed.
    Fits(u32, u32, bool),
    /// Whether a TSN may stand beside the others.
    MayStand(u32, bool),
}

use Step::{
    Abandon, Acked, Blocks, Bytes, Duplicates, Fill, Fits, Last, MarkAll, Marks, MayStand, Pop,
    PopDuplicates, PopUpTo, Prints, Push, PushNoCheck, Reserve, Set, Stream, Take, Tsns,
};

// Each case: what it shows, and its steps.
const CASES: [(&str, &[Step]); 19] = [
    (
        // RFC 4960 3.3.4
        "two blocks",
        &[
            Fill(10, &[12, 13, 15]),
            Prints(10, "cumTSN=10,2-3,5-5"),
            Blocks(10, &[(2, 3), (5, 5)]),
        ],
    ),
    (
        "a block over the wrap",
        &[Fill(4294967294, &[0, 1]), Blocks(4294967294, &[(2, 3)])],
    ),
    (
        "no block at the distance 65,536",
        &[Fill(10, &[65546]), Tsns(&[65546]), Blocks(10, &[])],
    ),
    (
        "blocks in any order of arrivals",
        &[Fill(10, &[15, 12, 13]), Prints(10, "cumTSN=10,2-3,5-5")],
    ),
    (
        "two blocks over the wrap",
        &[
            Fill(4294967294, &[0, 1, 3]),
            Prints(4294967294, "cumTSN=4294967294,2-3,5-5"),
        ],
    ),
    (
        "no block past the distance 65,535",
        &[Fill(10, &[65546, 65547, 65548]), Prints(10, "cumTSN=10")],
    ),
    (
        "a block ends at the distance 65,535",
        &[
            Fill(10, &[65544, 65545, 65546]),
            Prints(10, "cumTSN=10,65534-65535"),
        ],
    ),
    (
        "a block over the wrap prints",
        &[
            Fill(4294967293, &[4294967295, 0, 1]),
            Prints(4294967293, "cumTSN=4294967293,2-4"),
        ],
    ),
    (
        "blocks of one",
        &[Fill(10, &[11, 13, 15]), Prints(10, "cumTSN=10,1-1,3-3,5-5")],
    ),
    (
        "runs from any TSN",
        &[
            Fill(
                10,
                &[12, 13, 14, 15, 16, 17, 18, 19, 20, 22, 23, 24, 25, 26, 28],
            ),
            Prints(10, "cumTSN=10,2-10,12-16,18-18"),
            Prints(15, "cumTSN=15,1-5,7-11,13-13"),
            Prints(21, "cumTSN=21,1-5,7-7"),
            Prints(28, "cumTSN=28"),
            Prints(4294967290, "cumTSN=4294967290,18-26,28-32,34-34"),
            Prints(2147483670, "cumTSN=2147483670"),
            Prints(4294901778, "cumTSN=4294901778,65530-65535"),
        ],
    ),
    (
        "half a circle stays",
        &[
            Fill(10, &[12, 13, 2147483658]),
            PopUpTo(2147483657),
            Tsns(&[2147483658]),
        ],
    ),
    (
        "half a circle behind stays",
        &[Fill(0, &[1, 2147483648]), PopUpTo(2147483649), Tsns(&[1])],
    ),
    (
        "duplicates are noted",
        &[
            Fill(10, &[12, 13]),
            Push(12, false),
            Push(10, false),
            Push(14, true),
            Duplicates(&[12, 10]),
            PopDuplicates(&[12, 10]),
            Duplicates(&[]),
            Last(14),
            Bytes(3),
        ],
    ),
    (
        // 12, 13 and 15 come, then 13 again, and 10, which was acknowledged (RFC 4960 6.2).
        "what came is kept and reported",
        &[
            Push(13, true),
            Push(15, true),
            Push(12, true),
            Push(13, false),
            Push(10, false),
            Marks(15, Some((false, 0, None, 0))),
            Marks(14, None),
            Duplicates(&[13, 10]),
            Blocks(10, &[(2, 3), (5, 5)]),
        ],
    ),
    (
        "a chunk is marked",
        &[
            Fill(10, &[11]),
            Set(11, true),
            Set(14, false),
            Marks(11, Some((true, 3, Some(9), 2))),
            Marks(14, None),
        ],
    ),
    (
        "a chunk is acknowledged once",
        &[
            Fill(10, &[13, 11, 12]),
            Acked(12, 1),
            Acked(12, 0),
            Bytes(2),
            MarkAll,
            Marks(13, Some((true, 0, None, 0))),
            Marks(12, Some((false, 0, None, 0))),
            Abandon(0, 2),
            Bytes(0),
        ],
    ),
    (
        "two chunks have room",
        &[
            Reserve(2),
            PushNoCheck(11),
            PushNoCheck(12),
            Tsns(&[11, 12]),
        ],
    ),
    (
        // 2147483658 lies half a circle after 10. What is held, and what is at or before the cumulative TSN, is noted whatever else
        // is held.
        "what fits",
        &[
            Fill(10, &[12, 13]),
            Fits(10, 14, true),
            Fits(10, 12, true),
            Fits(10, 2147483658, true),
            Fits(10, 2147483659, true),
            Fits(12, 20, false),
            Fits(12, 13, true),
            Fits(12, 5, true),
            Fits(2147483660, 2147483662, false),
            Fits(2147483661, 2147483662, true),
        ],
    ),
    (
        // The numbers from 12 on that are less than half a circle away end at 2147483659; those before 13 begin at 2147483662.
        "what may stand beside the rest",
        &[
            Fill(10, &[12, 13]),
            MayStand(11, true),
            MayStand(12, false),
            MayStand(13, false),
            MayStand(14, true),
            MayStand(2147483659, true),
            MayStand(2147483660, false),
            MayStand(2147483661, false),
            MayStand(2147483662, true),
        ],
    ),
];

// Pushes where that is allowed, by the call that counts its turns or the one that does not; a TSN at or before the cumulative one is.
fn push(queue: &mut PayloadQueue, after: u32, tsn: u32, counted: bool) -> Result<bool, Error> {
    if !queue.fits(after, tsn) || queue.get_num_bytes() >= 1000 {
        return Ok(false);
    }
    if counted {
        return queue.push_counted(chunk(tsn), after, &mut Turns::new());
    }
    queue.push(chunk(tsn), after)
}

// Whether each is pushed, where that is allowed.
fn fills(queue: &mut PayloadQueue, after: u32, tsns: &[u32], counted: bool) -> bool {
    let mut well = true;
    for tsn in tsns {
        well = push(queue, after, *tsn, counted).is_ok() && well;
    }
    well
}

fn can_push(queue: &PayloadQueue, tsn: u32, counted: bool) -> bool {
    let one = chunk(tsn);
    let well = if counted {
        queue.can_push_counted(&one, 10, &mut Turns::new())
    } else {
        queue.can_push(&one, 10)
    };
    drop(one);
    well
}

fn push_no_check(queue: &mut PayloadQueue, tsn: u32) -> bool {
    if queue.can_push_no_check(tsn) && queue.get_num_bytes() < 1000 {
        return queue.push_no_check(chunk(tsn)).is_ok();
    }
    false
}

fn prints(alloc: Global, queue: &PayloadQueue, after: u32, want: &str) -> bool {
    match queue.get_gap_ack_blocks_string(alloc, after) {
        Ok(text) => {
            let well = text.as_str() == want;
            drop(text);
            well
        }
        Err(_) => false,
    }
}

fn are_blocks(blocks: &[GapAckBlock], want: &[(u16, u16)]) -> bool {
    let mut well = blocks.len() == want.len();
    for (block, ends) in blocks.iter().zip(want.iter()) {
        well = well && (block.start, block.end) == *ends;
    }
    well
}

fn has_blocks(
    alloc: Global,
    queue: &PayloadQueue,
    after: u32,
    want: &[(u16, u16)],
    counted: bool,
) -> bool {
    let blocks = if counted {
        queue.get_gap_ack_blocks_counted(alloc, after, &mut Turns::new())
    } else {
        queue.get_gap_ack_blocks(alloc, after)
    };
    match blocks {
        Ok(blocks) => {
            let well = are_blocks(&blocks, want);
            drop(blocks);
            well
        }
        Err(_) => false,
    }
}

fn tsns_are(queue: &PayloadQueue, want: &[u32]) -> bool {
    let mut well = queue.len() == want.len() && queue.is_empty() == want.is_empty();
    for (place, tsn) in want.iter().enumerate() {
        well = well && queue.tsn_at(place) == Some(*tsn);
    }
    well
}

// What the setters set of the chunk with a TSN.
fn marks(queue: &PayloadQueue, tsn: u32, counted: bool) -> Option<(bool, u32, Option<u64>, u8)> {
    let chunk = if counted {
        queue.get_counted(tsn, &mut Turns::new())?
    } else {
        queue.get(tsn)?
    };
    Some((
        chunk.retransmit,
        chunk.nsent,
        chunk.since,
        chunk.miss_indicator,
    ))
}

// Whether the chunk is held whose marks are set.
fn is_set(queue: &mut PayloadQueue, tsn: u32) -> bool {
    queue.set_retransmit(tsn, true)
        && queue.set_nsent(tsn, 3)
        && queue.set_since(tsn, Some(9))
        && queue.set_miss_indicator(tsn, 2)
}

fn pop_up_to(queue: &mut PayloadQueue, tsn: u32, counted: bool) {
    if counted {
        queue.pop_up_to_counted(tsn, &mut Turns::new());
    } else {
        queue.pop_up_to(tsn);
    }
}

// Whether a step that changes nothing answers so.
fn is_seen(alloc: Global, queue: &PayloadQueue, step: &Step, counted: bool) -> bool {
    match step {
        Duplicates(tsns) => queue.duplicates() == *tsns,
        Prints(after, want) => prints(alloc, queue, *after, want),
        Blocks(after, want) => has_blocks(alloc, queue, *after, want, counted),
        Tsns(tsns) => tsns_are(queue, tsns),
        Bytes(bytes) => queue.get_num_bytes() == *bytes,
        Last(tsn) => queue.get_last_tsn_received() == Some(*tsn),
        Marks(tsn, want) => marks(queue, *tsn, counted) == *want,
        Stream(stream, want) => queue.contains_stream(*stream) == *want,
        Fits(after, tsn, want) => queue.fits(*after, *tsn) == *want,
        MayStand(tsn, want) => queue.can_push_no_check(*tsn) == *want,
        _ => false,
    }
}

// Whether a step goes so, by the calls that count their turns where there is one, or by those that do not.
fn goes(alloc: Global, queue: &mut PayloadQueue, step: &Step, counted: bool) -> bool {
    match step {
        Fill(after, tsns) => fills(queue, *after, tsns, counted),
        Push(tsn, want) => {
            can_push(queue, *tsn, counted) == *want && push(queue, 10, *tsn, counted) == Ok(*want)
        }
        PushNoCheck(tsn) => push_no_check(queue, *tsn),
        Reserve(chunks) => queue.reserve(*chunks).is_ok(),
        PopDuplicates(tsns) => {
            let popped = queue.pop_duplicates(alloc);
            let well = popped.as_slice() == *tsns;
            drop(popped);
            well
        }
        PopUpTo(tsn) => {
            pop_up_to(queue, *tsn, counted);
            true
        }
        Pop(tsn, want) => is_there(queue.pop(*tsn)) == *want,
        Take(tsn, want) => is_there(queue.take(*tsn)) == *want,
        Acked(tsn, bytes) => queue.mark_as_acked(*tsn) == *bytes,
        MarkAll => {
            queue.mark_all_to_retransmit();
            true
        }
        Abandon(message, bytes) => queue.abandon_message(*message) == *bytes,
        Set(tsn, want) => is_set(queue, *tsn) == *want,
        _ => is_seen(alloc, queue, step, counted),
    }
}

fn all_go(alloc: Global, queue: &mut PayloadQueue, steps: &[Step], counted: bool) -> bool {
    let mut well = true;
    for step in steps {
        well = well && goes(alloc, queue, step, counted);
    }
    well
}

// Whether all steps go so with a new queue.
fn goes_well(alloc: Global, steps: &[Step], counted: bool) -> bool {
    let mut queue = PayloadQueue::new(alloc);
    let well = all_go(alloc, &mut queue, steps, counted);
    drop(queue);
    well
}

/// Each case goes by the calls that count their turns as by those that do not.
pub(crate) fn payload_cases(alloc: Global, log: &mut Vec<u8>) {
    for (name, steps) in CASES {
        check(log, goes_well(alloc, steps, false), name);
        check(log, goes_well(alloc, steps, true), name);
    }
}

const TAKEN: &[Step] = &[
    Take(13, true),
    Take(13, false),
    Pop(12, false),
    Pop(11, true),
    Stream(1, true),
    Stream(2, false),
    Tsns(&[12]),
];

fn copy_stays(alloc: Global, queue: &mut PayloadQueue) -> bool {
    match queue.try_clone(alloc) {
        Ok(copy) => {
            let well = all_go(alloc, queue, TAKEN, false)
                && copy.len() == 3
                && copy.get_num_bytes() == 3;
            drop(copy);
            well
        }
        Err(_) => false,
    }
}

pub(crate) fn chunks_are_taken_out_and_a_copy_stays(alloc: Global) -> bool {
    let mut queue = PayloadQueue::new(alloc);
    let well = fills(&mut queue, 10, &[13, 11, 12], false) && copy_stays(alloc, &mut queue);
    drop(queue);
    well
}
