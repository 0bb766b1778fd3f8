//! The messages of I-DATA that go one way in an association (RFC 8260).

use crate::way::{Dropped, Message, Outcome, Unread, WayReader, repeated};
use sctp_data::chunk::chunk_forward_tsn::ChunkForwardTsn;
use sctp_follow::interleave::{Name, Whole, fragment_of, name_of, names_in};
use sctp_follow::lanes::Passing;
use sctp_follow::outstanding::forward_of;
use sctp_follow::packet::Arrived;
use sctp_receiver::receiver::arrival::{Arrival, Closed};
use sctp_receiver::receiver::refusal::ReceiverRefusal;
use sctp_util::field::read_u32;
use std::alloc::{AllocError, Global};

/// With no record.
const NEVER: Arrived = Arrived {
    number: 0,
    time: None,
};

/// What the last one of the fragments of a message came with.
fn last_arrived(first: Arrived, message: &Whole) -> Arrived {
    let mut last = first;
    for fragment in message.fragments.values() {
        if fragment.arrived.number > last.number {
            last = fragment.arrived;
        }
    }
    last
}

/// A message of I-DATA.
fn interleaved(alloc: Global, message: &Whole) -> Result<Message, AllocError> {
    let (identifier, first_tsn, arrived) = match message.fragments.first_key_value() {
        Some((_, first)) => (first.identifier, first.tsn, first.arrived),
        None => (0, 0, NEVER),
    };
    let last_tsn = match message.fragments.last_key_value() {
        Some((_, last)) => last.tsn,
        None => 0,
    };
    Ok(Message {
        stream: message.name.stream,
        unordered: message.name.unordered,
        is_interleaved: true,
        number: message.name.number,
        identifier,
        first_tsn,
        last_tsn,
        arrived: last_arrived(arrived, message),
        bytes: message.payload(alloc)?,
    })
}

impl Outcome {
    /// Adds messages of I-DATA.
    fn add_interleaved(&mut self, alloc: Global, messages: &[Whole]) -> Result<(), AllocError> {
        for message in messages {
            self.messages.push(interleaved(alloc, message)?)?;
        }
        Ok(())
    }

    /// Adds what is gained of I-DATA where numbers or TSNs are passed.
    pub fn add_passing(&mut self, alloc: Global, passing: &Passing) -> Result<(), AllocError> {
        for amount in &passing.dropped {
            self.dropped.push(Dropped {
                stream: amount.stream,
                chunks: amount.chunks,
                bytes: amount.bytes,
            })?;
        }
        self.add_interleaved(alloc, &passing.messages)
    }
}

impl WayReader {
    /// Takes I-DATA: the receiver notes its TSN, and its fragment goes to its message.
    pub fn take_i_data(
        &mut self,
        alloc: Global,
        bytes: &[u8],
        arrived: Arrived,
        is_new: bool,
    ) -> Result<Outcome, AllocError> {
        if bytes.len() < 20 {
            return Ok(Outcome::none(alloc));
        }
        let tsn = read_u32(bytes, 4);
        if self.is_early(tsn) {
            return Ok(Outcome::unread(alloc, Unread::Early));
        }
        match self.receiver.discard(tsn) {
            Ok(Arrival::Repeat) => {
                self.receiver.sack_sent();
                return Ok(repeated(alloc, is_new));
            }
            Ok(Arrival::New { .. }) => {}
            Err(ReceiverRefusal::OutOfMemory) => return Err(AllocError),
            Err(refusal) => return Ok(Outcome::unread(alloc, Unread::Refused(refusal))),
        }
        let fragment = fragment_of(alloc, bytes, arrived)?;
        let is_first = fragment.place == 0;
        let Some(messages) = self.interleaved.take(alloc, name_of(bytes), fragment)? else {
            let why = if is_first {
                Unread::Passed
            } else {
                Unread::NoBeginning
            };
            return Ok(Outcome::unread(alloc, why));
        };
        let mut outcome = Outcome::none(alloc);
        outcome.add_interleaved(alloc, &messages)?;
        Ok(outcome)
    }

    /// Skips what is before a message of a stream, and adds what is gained.
    fn skip(&mut self, alloc: Global, name: Name, outcome: &mut Outcome) -> Result<(), AllocError> {
        let passing = self.interleaved.skip(alloc, name)?;
        outcome.add_passing(alloc, &passing)
    }

    /// Skips what is before each message that an I-FORWARD-TSN names.
    fn skip_each(
        &mut self,
        alloc: Global,
        names: &[Name],
        outcome: &mut Outcome,
    ) -> Result<(), AllocError> {
        for name in names {
            self.skip(alloc, *name, outcome)?;
        }
        Ok(())
    }

    /// Takes an I-FORWARD-TSN (RFC 8260 2.3.1).
    pub fn take_i_forward(&mut self, alloc: Global, bytes: &[u8]) -> Result<Outcome, AllocError> {
        let Some(new_cumulative_tsn) = forward_of(bytes) else {
            return Ok(Outcome::none(alloc));
        };
        let passed = ChunkForwardTsn {
            new_cumulative_tsn,
            streams: Vec::new(alloc),
        };
        if let Err(refusal) = self.receiver.forward_tsn(&passed, Closed::PassOver) {
            return Ok(Outcome::unread(alloc, Unread::Refused(refusal)));
        }
        let names = names_in(alloc, bytes)?;
        let mut outcome = Outcome::none(alloc);
        self.skip_each(alloc, &names, &mut outcome)?;
        Ok(outcome)
    }

    /// How much is held of the streams of I-DATA.
    pub fn held_interleaved(&self, alloc: Global) -> Result<Vec<Dropped>, AllocError> {
        let mut held = Vec::new(alloc);
        for amount in &self.interleaved.held(alloc)? {
            held.push(Dropped {
                stream: amount.stream,
                chunks: amount.chunks,
                bytes: amount.bytes,
            })?;
        }
        Ok(held)
    }
}
