//! The chunks that runs of the queues are over.

ghost use Rattle.std.specs.Prelude.{◌≡◌, ◌<◌, ◌+◌, ◌%◌, ◌^◌, length, true};

use bytes::Bytes;
use sctp_chunks::chunk::chunk_payload_data::{ChunkPayloadData, PayloadProtocolIdentifier};

/// How often a call is made in a run that times single calls.
pub const CALLS: u32 = 64;

/// How many fragments of `FRAGMENT` bytes make 64 KiB.
pub const FRAGMENTS: u16 = 55;

/// How many of them make 16 KiB.
pub const QUARTER_FRAGMENTS: u16 = 14;

/// How many bytes of a message a chunk has.
pub const FRAGMENT: u32 = 1200;

/// How many bytes a message has at most.
pub const MESSAGE: u32 = 65_536;

/// The stream of each chunk, but where many are open.
pub const STREAM: u16 = 1;

/// The length of a message of many fragments.
#[derive(Clone, Copy)]
pub enum Size {
    Kib16,
    Kib64,
}

/// In which order chunks come.
#[derive(Clone, Copy)]
pub enum Order {
    InOrder,
    Reversed,
    Shuffled,
}

/// How messages are to be delivered.
#[derive(Clone, Copy, PartialEq, Eq)]
pub enum Delivery {
    Ordered,
    Unordered,
}

// How far apart shuffled numbers follow each other, round and round: prime to the counts in use.
const STRIDE: u32 = 617;

/// The number, below `count`, that comes at a place.
pub fn number_at(place: u16, count: u16, order: Order) -> u16
    requires { place < count }
    ensures { result < count }
{
    match order {
        Order::InOrder => place,
        Order::Reversed => count - 1 - place,
        Order::Shuffled => (u32::from(place) * STRIDE % u32::from(count)) as u16,
    }
}

/// The stream at a place among many: 2, 3, ..
pub fn stream_at(place: u32) -> u16
    ensures { result ≡ (place % 2 ^ 16 + 2) % 2 ^ 16 }
{
    ((place % 65_536) as u16).wrapping_add(2)
}

/// A fragment of a message on stream 1.
pub fn fragment(
    tsn: u32,
    delivery: Delivery,
    first: bool,
    last: bool,
    user_data: Bytes,
) -> ChunkPayloadData
    ensures tsn { result.tsn ≡ tsn }
    ensures begins { result.beginning_fragment ≡ first }
    ensures ends { result.ending_fragment ≡ last }
    ensures data { result.user_data ≡ user_data }
{
    ChunkPayloadData {
        unordered: delivery == Delivery::Unordered,
        beginning_fragment: first,
        ending_fragment: last,
        immediate_sack: false,
        tsn,
        stream_identifier: 1,
        stream_sequence_number: 0,
        payload_type: PayloadProtocolIdentifier::Binary,
        user_data,
        acked: false,
        miss_indicator: 0,
        message_id: 0,
        abandoned: false,
        since: None,
        reliability: None,
        deadline: None,
        nsent: 0,
        retransmit: false,
    }
}

/// An ordered message of one byte, whole.
pub fn whole(tsn: u32) -> ChunkPayloadData
    ensures tsn { result.tsn ≡ tsn }
    ensures begins { result.beginning_fragment ≡ true }
    ensures ends { result.ending_fragment ≡ true }
    ensures bytes { length result.user_data < 100 }
{
    fragment(tsn, Delivery::Ordered, true, true, Bytes::from_static(&[7]))
}
