//! A chunk to put into queues.

ghost use Rattle.std.specs.Prelude.{◌≡◌, length};

use bytes::Bytes;
use sctp_data::chunk::chunk_payload_data::{ChunkPayloadData, PayloadProtocolIdentifier};

/// A complete message of one byte.
pub(crate) fn chunk(tsn: u32) -> ChunkPayloadData
    ensures tsn { result.tsn ≡ tsn }
    ensures len { length result.user_data ≡ 1 }
{
    ChunkPayloadData {
        unordered: false,
        beginning_fragment: true,
        ending_fragment: true,
        immediate_sack: false,
        tsn,
        stream_identifier: 1,
        stream_sequence_number: 0,
        payload_type: PayloadProtocolIdentifier::Binary,
        user_data: Bytes::from_static(&[7]),
        acked: false,
        miss_indicator: 0,
        message_id: 0,
        abandoned: false,
        since: None,
        reliability: None,
        deadline: None,
        nsent: 0,
        retransmit: false,
    }
}
