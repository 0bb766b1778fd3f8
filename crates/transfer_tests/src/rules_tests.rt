//! Rules of the RFCs, each by the call that a user makes.

use crate::part::{reads, reports};
use bytes::Bytes;
use sctp_chunks::chunk::Chunk;
use sctp_chunks::chunk::chunk_payload_data::ChunkPayloadData;
use sctp_receiver::receiver::Receiver;
use sctp_receiver::receiver::arrival::Arrival;
use sctp_util::error::Error;
use std::alloc::Global;

// A complete message of stream 1 with the TSN 1, whose length is that of its header alone (RFC 4960 3.3.1).
const EMPTY: [u8; 16] = [0, 3, 0, 16, 0, 0, 0, 1, 0, 1, 0, 0, 0, 0, 0, 53];

fn empty(alloc: Global) -> Result<ChunkPayloadData, Error> {
    ChunkPayloadData::unmarshal(alloc, &Bytes::copy_from_slice(alloc, &EMPTY)?)
}

fn empty_comes(alloc: Global, receiver: &mut Receiver) -> bool {
    let complete = match empty(alloc) {
        Ok(chunk) => {
            let answer = receiver.data(&chunk);
            drop(chunk);
            answer == Ok(Arrival::New { complete: true })
        }
        Err(_) => false,
    };
    complete && reports(receiver, 1, 0) && reads(receiver, b"") && !receiver.is_readable(1)
}

/// A DATA chunk without user data is read from its bytes and taken as a message of no bytes: it is acknowledged and read
/// (RFC 4960 6.2).
pub(crate) fn no_user_data(alloc: Global) -> bool {
    let mut receiver = Receiver::new(alloc, 1, 100, None);
    let well = receiver.open(1).is_ok() && empty_comes(alloc, &mut receiver);
    drop(receiver);
    well
}
