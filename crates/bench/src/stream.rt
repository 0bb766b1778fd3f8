//! Messages of 16 and of 64 KiB, and how a stream cuts the longer one.

use crate::subject::{FRAGMENT, MESSAGE, STREAM};
use crate::timing::Measured;
use bytes::Bytes;
use sctp_data::chunk::chunk_payload_data::PayloadProtocolIdentifier;
use sctp_stream::stream::StreamState;
use std::alloc::Global;
use std::time::{Clock, Instant};

static TEXT: [u8; 65_536] = [7; 65_536];

/// The message of 64 KiB.
pub fn text() -> Bytes {
    Bytes::from_static(&TEXT)
}

/// The message of 16 KiB.
pub fn quarter() -> Bytes {
    Bytes::from_static(&TEXT[..16_384])
}

/// Cuts the message into fragments.
pub fn packetize(clock: &impl Clock, alloc: Global) -> anyhow::Result<Measured> {
    let binary = PayloadProtocolIdentifier::Binary;
    let mut stream = StreamState::new(alloc, STREAM, FRAGMENT, MESSAGE, binary);
    let start = Instant::now(clock)?;
    let (_, chunks) = stream.packetize(alloc, &text(), binary)?;
    let elapsed = start.elapsed(clock)?;
    Ok(Measured {
        given: chunks.len(),
        elapsed,
    })
}
