//! A sender and a receiver, and the chunks that they are given.

use crate::sack::sack_to;
use crate::subject::{FRAGMENT, MESSAGE, STREAM};
use sctp_chunks::chunk::chunk_forward_tsn::ChunkForwardTsn;
use sctp_chunks::chunk::chunk_selective_ack::ChunkSelectiveAck;
use sctp_receiver::receiver::Receiver;
use sctp_sender::sender::{Reported, Sender};
use std::alloc::Global;

/// The two halves of a link, whose first TSN is 1, and a SACK and a FORWARD-TSN for them.
#[derive(Drop)]
pub struct Ends {
    pub alloc: Global,
    pub sender: Sender,
    pub receiver: Receiver,
    pub sack: ChunkSelectiveAck,
    pub skip: ChunkForwardTsn,
}

impl Ends {
    /// Nothing is open yet. It takes no memory.
    pub fn new(alloc: Global) -> Ends {
        Ends {
            alloc,
            sender: Sender::new(alloc, 1, FRAGMENT, MESSAGE, Reported::Drop),
            receiver: Receiver::new(alloc, 1, MESSAGE, None),
            sack: sack_to(alloc, 0),
            skip: ChunkForwardTsn {
                new_cumulative_tsn: 2,
                streams: Vec::new(alloc),
            },
        }
    }

    /// Opens the stream in both halves, and says whether both did.
    pub fn open(&mut self) -> bool {
        self.sender.open(STREAM).is_ok() && self.receiver.open(STREAM).is_ok()
    }
}
