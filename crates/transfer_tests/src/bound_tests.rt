//! How far the numbers of ordered messages in flight go, and a sender of several streams.

use crate::ended::{gives_some, is_taken};
use crate::hosts::buffered;
use bytes::Bytes;
use sctp_chunks::chunk::chunk_payload_data::{PayloadProtocolIdentifier, ReliabilityType};
use sctp_chunks::chunk::chunk_selective_ack::ChunkSelectiveAck;
use sctp_sender::replay::send_next_tsn;
use sctp_sender::sender::refusal::SenderRefusal;
use sctp_sender::sender::{Reported, Sender};
use std::alloc::Global;

// Whether a message of one byte is taken, and sent.
fn is_sent(sender: &mut Sender, stream: u16, byte: &Bytes) -> bool {
    sender
        .write(stream, PayloadProtocolIdentifier::Binary, byte)
        .is_ok()
        && matches!(send_next_tsn(sender, 0), Ok(Some(_)))
}

// Whether 2^14 messages are sent, of which the first has the TSN 1, a further one waits, and that of another stream does so behind it.
fn is_bounded(sender: &mut Sender, byte: &Bytes) -> bool {
    let mut well = sender.open(1).is_ok() && sender.open(2).is_ok();
    for _ in 0..1 << 14 {
        well = well && is_sent(sender, 1, byte);
    }
    well && !is_sent(sender, 1, byte)
        && !is_sent(sender, 2, byte)
        && matches!(send_next_tsn(sender, 0), Err(SenderRefusal::SsnsUsedUp))
        && sender.send_next(0).err() == Some(SenderRefusal::SsnsUsedUp)
        && sender.outbound().inflight_len() == 1 << 14
}

// Whether both are sent once the first one is acknowledged, and no other first.
fn goes_on(alloc: Global, sender: &mut Sender) -> bool {
    let sack = ChunkSelectiveAck {
        cumulative_tsn_ack: 1,
        advertised_receiver_window_credit: 1000,
        gap_ack_blocks: Vec::new(alloc),
        duplicate_tsn: Vec::new(alloc),
    };
    let answer = sender.acked(&sack);
    drop(sack);
    is_taken(answer)
        && gives_some(sender.send_next(0))
        && matches!(send_next_tsn(sender, 0), Ok(Some(_)))
        && matches!(send_next_tsn(sender, 0), Ok(None))
}

/// 2^14 ordered messages of a stream are in flight at most; the next one waits until the first is acknowledged.
pub(crate) fn bounded(alloc: Global) -> bool {
    let mut sender = Sender::new(alloc, 1, 3, 100, Reported::Drop);
    let well = is_bounded(&mut sender, &Bytes::from_static(b"a")) && goes_on(alloc, &mut sender);
    drop(sender);
    well
}

// Whether a sender answers this to a write.
fn answers(
    alloc: Global,
    sender: &mut Sender,
    stream: u16,
    due: Result<(Option<u64>, usize), SenderRefusal>,
) -> bool {
    match Bytes::copy_from_slice(alloc, b"abcd") {
        Ok(bytes) => {
            let answer = sender.write(stream, PayloadProtocolIdentifier::Binary, &bytes);
            drop(bytes);
            answer == due
        }
        Err(_) => false,
    }
}

fn three_are_written(alloc: Global, sender: &mut Sender) -> bool {
    let mut well = true;
    for stream in [1, 2, 3] {
        well = well && sender.open(stream).is_ok();
    }
    well && sender.set_mode(3, true, ReliabilityType::Rexmit, 2).is_ok()
        && answers(alloc, sender, 1, Ok((Some(0), 2)))
        && answers(alloc, sender, 2, Ok((Some(1), 2)))
}

fn is_unordered(sender: &Sender, stream: u16) -> bool {
    match sender.stream(stream) {
        Some(state) => state.unordered() && state.reliability_value() == 2,
        None => false,
    }
}

fn the_others_write(alloc: Global, sender: &mut Sender) -> bool {
    sender.close(2);
    sender.close(7);
    answers(alloc, sender, 2, Err(SenderRefusal::StreamUnknown))
        && is_unordered(sender, 3)
        && answers(alloc, sender, 3, Ok((Some(2), 2)))
        && buffered(sender, 1) == Some(4)
        && buffered(sender, 3) == Some(4)
        && sender.outbound().pending_bytes() == 12
}

/// The one in the middle of three streams is closed, and one that is not open: the others keep what they have.
pub(crate) fn sender_closes_the_middle(alloc: Global) -> bool {
    let mut sender = Sender::new(alloc, 1, 3, 4, Reported::Drop);
    let well = three_are_written(alloc, &mut sender) && the_others_write(alloc, &mut sender);
    drop(sender);
    well
}
