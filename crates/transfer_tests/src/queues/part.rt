//! Fragments by what they carry and where they stand.

use bytes::Bytes;
use sctp_data::chunk::chunk_payload_data::{ChunkPayloadData, PayloadProtocolIdentifier};
use sctp_util::error::Error;
use std::alloc::Global;

pub(crate) fn ordered(
    alloc: Global,
    tsn: u32,
    ssn: u16,
    flags: (bool, bool),
    bytes: &[u8],
) -> Result<ChunkPayloadData, Error> {
    Ok(ChunkPayloadData {
        unordered: false,
        beginning_fragment: flags.0,
        ending_fragment: flags.1,
        immediate_sack: false,
        tsn,
        stream_identifier: 1,
        stream_sequence_number: ssn,
        payload_type: PayloadProtocolIdentifier::Binary,
        user_data: Bytes::copy_from_slice(alloc, bytes)?,
        acked: false,
        miss_indicator: 0,
        message_id: 0,
        abandoned: false,
        since: None,
        reliability: None,
        deadline: None,
        nsent: 0,
        retransmit: false,
    })
}

pub(crate) fn unordered(
    alloc: Global,
    tsn: u32,
    flags: (bool, bool),
    bytes: &[u8],
) -> Result<ChunkPayloadData, Error> {
    let mut chunk = ordered(alloc, tsn, 0, flags, bytes)?;
    chunk.unordered = true;
    Ok(chunk)
}

pub(crate) const FIRST: (bool, bool) = (true, false);

pub(crate) const MIDDLE: (bool, bool) = (false, false);

pub(crate) const LAST: (bool, bool) = (false, true);

pub(crate) const WHOLE: (bool, bool) = (true, true);
