//! Two hosts, each with a sender and a receiver, which hand one another packets.

use crate::ended::is_taken;
use bytes::Bytes;
use sctp_chunks::chunk::chunk_kind::ChunkKind;
use sctp_chunks::chunk::chunk_payload_data::PayloadProtocolIdentifier;
use sctp_packets::packet::{CommonHeader, Packet};
use sctp_receiver::receiver::Receiver;
use sctp_receiver::receiver::arrival::Closed;
use sctp_sender::sender::{Reported, Sender};
use sctp_util::util::Checksum;
use std::alloc::Global;

/// The checksum that is always 0.
#[derive(Clone, Copy)]
struct Zero;

impl Checksum for Zero {
    ghost sum = { λ _ bytes. 0 };

    fn checksum(&self, _head: &[u8], _tail: &[u8]) -> u32 {
        0
    }
}

/// A host.
#[derive(Drop)]
pub(crate) struct Host {
    pub sender: Sender,
    pub receiver: Receiver,
}

impl Host {
    /// A host that cuts messages into fragments of three bytes.
    pub fn new(alloc: Global, first_tsn: u32, peer_tsn: u32) -> Host {
        Host {
            sender: Sender::new(alloc, first_tsn, 3, 100, Reported::Drop),
            receiver: Receiver::new(alloc, peer_tsn, 100, None),
        }
    }

    /// Whether stream 1 is opened on both sides.
    pub fn opens(&mut self) -> bool {
        self.sender.open(1).is_ok() && self.receiver.open(1).is_ok()
    }

    /// Whether a write to stream 1 is taken.
    pub fn writes(&mut self, alloc: Global, text: &[u8]) -> bool {
        match Bytes::copy_from_slice(alloc, text) {
            Ok(bytes) => {
                let written = self
                    .sender
                    .write(1, PayloadProtocolIdentifier::Binary, &bytes);
                drop(bytes);
                written.is_ok()
            }
            Err(_) => false,
        }
    }

    /// Whether a packet's chunk is taken.
    fn takes(&mut self, chunk: &ChunkKind) -> bool {
        match chunk {
            ChunkKind::PayloadData(chunk) => self.receiver.data(chunk).is_ok(),
            ChunkKind::SelectiveAck(chunk) => is_taken(self.sender.acked(chunk)),
            ChunkKind::ForwardTsn(chunk) => self
                .receiver
                .forward_tsn(chunk, Closed::Refuse)
                .is_ok(),
            _ => false,
        }
    }
}

// Whether the last chunk of a packet is taken.
fn takes_last(to: &mut Host, packet: &Packet) -> bool {
    match packet.chunks.last() {
        Some(chunk) => to.takes(chunk),
        None => false,
    }
}

// Whether a packet's bytes are read, and its last chunk is taken.
fn is_read(alloc: Global, to: &mut Host, raw: &Bytes) -> bool {
    match Packet::unmarshal(alloc, raw, &Zero) {
        Ok(packet) => {
            let taken = takes_last(to, &packet);
            drop(packet);
            taken
        }
        Err(_) => false,
    }
}

// Whether a packet comes to a host as its bytes.
fn comes(alloc: Global, to: &mut Host, packet: &Packet) -> bool {
    match packet.marshal(alloc, &Zero) {
        Ok(raw) => {
            let taken = is_read(alloc, to, &raw);
            drop(raw);
            taken
        }
        Err(_) => false,
    }
}

// Whether a chunk comes to a host as a packet's bytes.
fn arrives(alloc: Global, to: &mut Host, chunk: ChunkKind) -> bool {
    let mut packet = Packet {
        common_header: CommonHeader {
            source_port: 5000,
            destination_port: 5000,
            verification_tag: 1,
        },
        chunks: Vec::new(alloc),
    };
    let taken = packet.chunks.push(chunk).is_ok() && comes(alloc, to, &packet);
    drop(packet);
    taken
}

/// Sends the next fragment; whether it came, unless it is lost.
pub(crate) fn sends(alloc: Global, from: &mut Host, to: &mut Host, is_lost: bool) -> bool {
    match from.sender.send_next(0) {
        Ok(Some(chunk)) => {
            if is_lost {
                drop(chunk);
                return true;
            }
            arrives(alloc, to, ChunkKind::PayloadData(chunk))
        }
        _ => false,
    }
}

/// Sends the first fragment again that is not acknowledged, and whether it came.
pub(crate) fn sends_again(alloc: Global, from: &mut Host, to: &mut Host) -> bool {
    let Some(tsn) = from.sender.outbound().earliest_outstanding_tsn() else {
        return false;
    };
    match from.sender.resend(tsn, 0) {
        Ok(chunk) => arrives(alloc, to, ChunkKind::PayloadData(chunk)),
        Err(_) => false,
    }
}

/// Acknowledges what came; whether the SACK is taken.
pub(crate) fn acknowledges(alloc: Global, from: &mut Host, to: &mut Host) -> bool {
    match from.receiver.sack(1000) {
        Ok(sack) => arrives(alloc, to, ChunkKind::SelectiveAck(sack)),
        Err(_) => false,
    }
}

/// Tells what was abandoned; whether the FORWARD-TSN is taken.
pub(crate) fn skips(alloc: Global, from: &mut Host, to: &mut Host) -> bool {
    match from.sender.forward_tsn(1000) {
        Ok(Some(chunk)) => arrives(alloc, to, ChunkKind::ForwardTsn(chunk)),
        _ => false,
    }
}
