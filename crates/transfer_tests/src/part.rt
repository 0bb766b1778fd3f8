//! DATA chunks of stream 1, and what a receiver makes of them.

use bytes::Bytes;
use sctp_chunks::chunk::chunk_payload_data::{ChunkPayloadData, PayloadProtocolIdentifier};
use sctp_receiver::receiver::Receiver;
use sctp_receiver::receiver::arrival::Arrival;
use sctp_util::error::Error;
use std::alloc::Global;

/// A chunk of the stream, ordered, with the stream sequence number 0.
pub(crate) fn chunk(
    alloc: Global,
    tsn: u32,
    begins: bool,
    ends: bool,
    bytes: &[u8],
) -> Result<ChunkPayloadData, Error> {
    Ok(ChunkPayloadData {
        unordered: false,
        beginning_fragment: begins,
        ending_fragment: ends,
        immediate_sack: false,
        tsn,
        stream_identifier: 1,
        stream_sequence_number: 0,
        payload_type: PayloadProtocolIdentifier::Binary,
        user_data: Bytes::copy_from_slice(alloc, bytes)?,
        acked: false,
        miss_indicator: 0,
        message_id: 0,
        abandoned: false,
        since: None,
        reliability: None,
        deadline: None,
        nsent: 0,
        retransmit: false,
    })
}

/// Whether a receiver takes such a chunk as new.
pub(crate) fn is_new(
    alloc: Global,
    receiver: &mut Receiver,
    tsn: u32,
    flags: (bool, bool),
    bytes: &[u8],
) -> bool {
    match chunk(alloc, tsn, flags.0, flags.1, bytes) {
        Ok(chunk) => {
            let answer = receiver.data(&chunk);
            drop(chunk);
            matches!(answer, Ok(Arrival::New { .. }))
        }
        Err(_) => false,
    }
}

/// Whether a receiver had the TSN of such a chunk.
pub(crate) fn comes_again(alloc: Global, receiver: &mut Receiver, tsn: u32) -> bool {
    match chunk(alloc, tsn, true, true, b"a") {
        Ok(chunk) => {
            let answer = receiver.data(&chunk);
            drop(chunk);
            matches!(answer, Ok(Arrival::Repeat))
        }
        Err(_) => false,
    }
}

/// Whether the next message of stream 1 has these bytes, at most eight.
pub(crate) fn reads(receiver: &mut Receiver, bytes: &[u8]) -> bool {
    let mut buffer = [0; 8];
    match receiver.read(1) {
        Ok(Some(message)) => {
            let length = message.read(&mut buffer);
            drop(message);
            length == Ok(bytes.len()) && buffer.get(..bytes.len()) == Some(bytes)
        }
        _ => false,
    }
}

/// Whether the next SACK says this TSN, no block and so many duplicates.
pub(crate) fn reports(receiver: &mut Receiver, cumulative_tsn: u32, duplicates: usize) -> bool {
    let window = receiver.window();
    match receiver.sack(usize::MAX) {
        Ok(sack) => {
            let well = sack.gap_ack_blocks.is_empty()
                && sack.cumulative_tsn_ack == cumulative_tsn
                && sack.advertised_receiver_window_credit == window
                && sack.duplicate_tsn.len() == duplicates;
            drop(sack);
            well
        }
        Err(_) => false,
    }
}
