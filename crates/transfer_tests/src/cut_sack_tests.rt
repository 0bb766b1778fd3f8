//! SACKs whose blocks report some of what is in flight, to a sender that keeps what was reported (RFC 4960 6.2.1 D iv).

use crate::ended::gives_some;
use crate::log::check;
use bytes::Bytes;
use sctp_chunks::chunk::chunk_payload_data::PayloadProtocolIdentifier;
use sctp_chunks::chunk::chunk_selective_ack::{ChunkSelectiveAck, GapAckBlock};
use sctp_sender::sender::flight::kept::TakenBack;
use sctp_sender::sender::{Reported, Sender};
use std::alloc::Global;

// A SACK, and the TSNs that it takes back.
type Sack = (u32, &'static [(u16, u16)], &'static [u32]);

// The TSNs 1 to 10 are in flight; SACKs follow, one after another.
const CASES: &[(&str, &[Sack])] = &[
    (
        "a SACK that was cut tells nothing past its last block: a later one without blocks takes back the rest",
        &[
            (0, &[(2, 10)], &[]),
            (0, &[(2, 3)], &[]),
            (3, &[], &[4, 5, 6, 7, 8, 9, 10]),
        ],
    ),
    (
        "what lies before the last block, and is not reported, comes back",
        &[(0, &[(2, 10)], &[]), (0, &[(2, 3), (6, 8)], &[4, 5])],
    ),
    (
        "the last block is the one that ends farthest, in whatever order they come",
        &[(0, &[(2, 10)], &[]), (0, &[(6, 8), (2, 3)], &[4, 5])],
    ),
    (
        "without a block nothing is reported any more",
        &[
            (0, &[(2, 10)], &[]),
            (0, &[], &[2, 3, 4, 5, 6, 7, 8, 9, 10]),
        ],
    ),
    (
        "and likewise where a block reports nothing",
        &[(0, &[(2, 3)], &[]), (0, &[(9, 8)], &[2, 3])],
    ),
];

fn sack(alloc: Global, tsn: u32, blocks: &[(u16, u16)]) -> Option<ChunkSelectiveAck> {
    let mut sack = ChunkSelectiveAck {
        cumulative_tsn_ack: tsn,
        advertised_receiver_window_credit: 1000,
        gap_ack_blocks: Vec::new(alloc),
        duplicate_tsn: Vec::new(alloc),
    };
    let mut is_made = true;
    for (start, end) in blocks {
        let block = GapAckBlock {
            start: *start,
            end: *end,
        };
        is_made = is_made && sack.gap_ack_blocks.push(block).is_ok();
    }
    if is_made {
        return Some(sack);
    }
    drop(sack);
    None
}

fn tells_of(answered: &[TakenBack], tsn: u32) -> bool {
    for one in answered {
        if one.tsn == tsn {
            return true;
        }
    }
    false
}

// Whether these TSNs come back, and no other.
fn are_taken_back(answered: &[TakenBack], due: &[u32]) -> bool {
    let mut well = answered.len() == due.len();
    for tsn in due {
        well = well && tells_of(answered, *tsn);
    }
    well
}

// Whether a SACK takes back these TSNs, and is taken then.
fn goes(alloc: Global, sender: &mut Sender, tsn: u32, blocks: &[(u16, u16)], due: &[u32]) -> bool {
    let Some(sack) = sack(alloc, tsn, blocks) else {
        return false;
    };
    let answer = sender.acked(&sack);
    drop(sack);
    match answer {
        Ok(acked) => {
            let well = are_taken_back(&acked.taken_back, due);
            drop(acked);
            well
        }
        Err(_) => false,
    }
}

fn ten_are_sent(sender: &mut Sender, byte: &Bytes) -> bool {
    let mut well = sender.open(1).is_ok();
    for _ in 0..10 {
        well = well
            && sender
                .write(1, PayloadProtocolIdentifier::Binary, byte)
                .is_ok()
            && gives_some(sender.send_next(0));
    }
    well
}

fn all_go(alloc: Global, sacks: &[Sack]) -> bool {
    let mut sender = Sender::new(alloc, 1, 3, 100, Reported::Keep);
    let mut well = match Bytes::copy_from_slice(alloc, b"a") {
        Ok(byte) => {
            let sent = ten_are_sent(&mut sender, &byte);
            drop(byte);
            sent
        }
        Err(_) => false,
    };
    for (tsn, blocks, due) in sacks {
        well = well && goes(alloc, &mut sender, *tsn, blocks, due);
    }
    drop(sender);
    well
}

/// What a SACK takes back, by its blocks.
pub(crate) fn cut_sacks(alloc: Global, log: &mut Vec<u8>) {
    for (name, sacks) in CASES {
        check(log, all_go(alloc, sacks), name);
    }
}
