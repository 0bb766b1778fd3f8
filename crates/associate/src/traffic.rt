//! What is written, and what is read of it.

use bytes::Bytes;
use sctp_association::{Chunks, ReliabilityType};
use std::alloc::{AllocError, Global};

/// How many messages are written to each stream.
pub(crate) const MESSAGES: u16 = 40;

/// How many are written to a reliable stream after it is reset.
pub(crate) const LATER: u16 = 12;

// More than a message has.
const LONGEST: usize = 4096;

/// A stream and its mode.
#[derive(Clone, Copy)]
pub(crate) struct Channel {
    pub stream: u16,
    pub unordered: bool,
    pub reliability: ReliabilityType,
    pub value: u32,
}

/// The streams, in the order of their numbers; the first two are reliable.
pub(crate) const CHANNELS: [Channel; 6] = [
    Channel {
        stream: 0,
        unordered: false,
        reliability: ReliabilityType::Reliable,
        value: 0,
    },
    Channel {
        stream: 1,
        unordered: true,
        reliability: ReliabilityType::Reliable,
        value: 0,
    },
    Channel {
        stream: 2,
        unordered: false,
        reliability: ReliabilityType::Rexmit,
        value: 1,
    },
    Channel {
        stream: 3,
        unordered: true,
        reliability: ReliabilityType::Rexmit,
        value: 0,
    },
    Channel {
        stream: 4,
        unordered: false,
        reliability: ReliabilityType::Timed,
        value: 400,
    },
    Channel {
        stream: 5,
        unordered: true,
        reliability: ReliabilityType::Timed,
        value: 2500,
    },
];

// The byte at a place of a message.
fn byte_at(stream: u16, number: u16, place: usize) -> u8 {
    let seed = u32::from(number) * 31 + u32::from(stream) * 101;
    match place {
        0 => (number >> 8) as u8,
        1 => (number & 255) as u8,
        _ => (seed.wrapping_add((place % 251) as u32) & 255) as u8,
    }
}

// How long a message is: 2 to 3,001 bytes.
fn length_of(stream: u16, number: u16) -> usize {
    2 + (u32::from(number) * 733 + u32::from(stream) * 37) as usize % 3000
}

/// The message with a number of a stream.
pub(crate) fn text(alloc: Global, stream: u16, number: u16) -> Result<Bytes, AllocError> {
    let mut text = Vec::new(alloc);
    for place in 0..length_of(stream, number) {
        if text.push(byte_at(stream, number, place)).is_err() {
            return Err(AllocError);
        }
    }
    Bytes::copy_from_slice(alloc, text.as_slice())
}

/// The numbers of the messages that came on a stream, in the order in which they were read.
#[derive(Drop)]
pub(crate) struct Inbox {
    numbers: Vec<u16>,
    is_exact: bool,
    // The stream sequence number of the first message after the reset.
    first_after_reset: Option<u16>,
}

impl Inbox {
    /// Nothing came.
    pub fn new(alloc: Global) -> Inbox {
        Inbox {
            numbers: Vec::new(alloc),
            is_exact: true,
            first_after_reset: None,
        }
    }

    /// How many messages came.
    pub fn len(&self) -> usize {
        self.numbers.len()
    }

    /// Takes a message, and looks whether it is one that was written.
    pub fn take(&mut self, alloc: Global, stream: u16, message: &Chunks) -> Result<(), AllocError> {
        let mut buffer = [0u8; LONGEST];
        let read = message.read(&mut buffer).unwrap_or(0);
        let number = u16::from_be_bytes([buffer[0], buffer[1]]);
        let due = text(alloc, stream, number)?;
        let same = buffer.get(..read) == Some(due.as_slice());
        self.is_exact = self.is_exact && same && number < MESSAGES + LATER;
        if number == MESSAGES {
            self.first_after_reset = Some(message.ssn());
        }
        match self.numbers.push(number) {
            Ok(()) => Ok(()),
            Err(_) => Err(AllocError),
        }
    }

    // Whether each message has a greater number than the one before.
    fn is_in_order(&self) -> bool {
        let mut next = 0u32;
        let mut well = true;
        for number in &self.numbers {
            well = well && u32::from(*number) >= next;
            next = u32::from(*number) + 1;
        }
        well
    }

    // Whether no message came twice.
    fn has_no_repeat(&self) -> bool {
        let mut well = true;
        for number in 0..MESSAGES + LATER {
            let mut count = 0usize;
            for one in &self.numbers {
                if *one == number {
                    count = count.saturating_add(1);
                }
            }
            well = well && count < 2;
        }
        well
    }

    /// Whether what came is what the mode of the channel promises.
    pub fn is_as(&self, channel: &Channel) -> bool {
        let is_reliable = channel.reliability == ReliabilityType::Reliable;
        let are_all = self.len() == (MESSAGES + LATER) as usize;
        self.is_exact
            && self.has_no_repeat()
            && (channel.unordered || self.is_in_order())
            && (!is_reliable || (are_all && self.first_after_reset == Some(0)))
    }
}
