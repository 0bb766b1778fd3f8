//! Two associations by `sctp_association::pair`: the second one reads what is written to the first one.

use bytes::Bytes;
use sctp_association::pair::{begin, exchange, transfer};
use sctp_association::{Association, Config, Fault, PayloadProtocolIdentifier, Secrets};
use std::alloc::Global;

fn secrets(tag: u32, first_tsn: u32) -> Secrets {
    Secrets {
        tag,
        first_tsn,
        cookie_key: [7; 32],
    }
}

// Whether messages come as they are written, in the same order. Both stand after two rounds, and a message comes after one more.
fn is_read(alloc: Global, one: &mut Association, other: &mut Association) -> Result<bool, Fault> {
    exchange(alloc, one, other, 2, 0)?;
    let written = [Bytes::from_static(b"one"), Bytes::from_static(b"more")];
    let ppi = PayloadProtocolIdentifier::Binary;
    let Some(read) = transfer(alloc, one, other, 0, ppi, &written, 1, 0)? else {
        return Ok(false);
    };
    let mut is_same = read.len() == written.len();
    for (message, bytes) in read.iter().zip(written.iter()) {
        let mut buffer = [0u8; 64];
        let count = message.read(&mut buffer).unwrap_or(0);
        is_same = is_same && buffer.get(..count) == Some(bytes.as_slice());
    }
    Ok(is_same)
}

/// Whether what is read is what was written.
pub(crate) fn is_well(alloc: Global) -> Result<bool, Fault> {
    let (first, second) = (secrets(1, u32::MAX), secrets(2, 7));
    let (config, peer_config) = (Config::default(), Config::default());
    let (mut one, mut other) = begin(alloc, config, first, peer_config, second, 0)?;
    let is_read = is_read(alloc, &mut one, &mut other);
    drop(one);
    drop(other);
    is_read
}
