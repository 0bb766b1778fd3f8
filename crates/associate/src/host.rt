//! A host: an association, and what it read on each stream.

use crate::network::Network;
use crate::traffic::{CHANNELS, Channel, Inbox, text};
use bytes::Bytes;
use sctp_association::{
    Association, Config, Ending, Event, Fault, PayloadProtocolIdentifier, Secrets, State,
};
use std::alloc::Global;

// More events than a host takes at once, and more messages than it reads at once.
const MOST: u32 = 10_000;

/// A host.
#[derive(Drop)]
pub(crate) struct Host {
    pub association: Association,
    pub inboxes: Vec<Inbox>,
    /// How many streams the peer has reset as asked.
    pub resets: u32,
    /// How the association ended.
    pub ending: Option<Ending>,
    /// How many messages were read.
    pub messages: u64,
}

impl Host {
    /// A host with these secrets.
    pub fn new(alloc: Global, tag: u32, first_tsn: u32) -> Result<Host, Fault> {
        let secrets = Secrets {
            tag,
            first_tsn,
            cookie_key: [(tag & 255) as u8; 32],
        };
        // At 40 % of loss eleven expiries in a row are no rare thing.
        let mut config = Config::default();
        config.max_retrans = 40;
        Ok(Host {
            association: Association::new(alloc, config, secrets)?,
            inboxes: Vec::new(alloc),
            resets: 0,
            ending: None,
            messages: 0,
        })
    }

    /// Connects, and sets the mode of each stream.
    pub fn connect(&mut self, alloc: Global, now: u64) -> Result<(), Fault> {
        self.association.connect(now)?;
        for channel in CHANNELS {
            self.association.set_mode(
                channel.stream,
                channel.unordered,
                channel.reliability,
                channel.value,
            )?;
            self.inboxes.push(Inbox::new(alloc))?;
        }
        Ok(())
    }

    /// Writes a message to each of these streams.
    pub fn write(&mut self, alloc: Global, channels: &[Channel], number: u16) -> Result<(), Fault> {
        for channel in channels {
            let bytes = text(alloc, channel.stream, number)?;
            let ppi = PayloadProtocolIdentifier::Binary;
            self.association.write(channel.stream, ppi, &bytes)?;
        }
        Ok(())
    }

    /// Asks for a reset of each of these streams.
    pub fn reset(&mut self, channels: &[Channel]) -> Result<(), Fault> {
        for channel in channels {
            self.association.reset_stream(channel.stream)?;
        }
        Ok(())
    }

    /// Gives the network all datagrams that are due.
    pub fn transmit(&mut self, network: &mut Network, to: usize, now: u64) -> Result<(), Fault> {
        while self.association.poll_transmit(now)? {
            network.send(to, self.association.datagram(), now)?;
        }
        Ok(())
    }

    /// Takes a datagram, and then each event.
    pub fn take(&mut self, alloc: Global, datagram: &Bytes, now: u64) -> Result<(), Fault> {
        self.association.handle_datagram(datagram, now)?;
        self.follow_events(alloc, now)
    }

    /// Takes each event that waits.
    pub fn follow_events(&mut self, alloc: Global, now: u64) -> Result<(), Fault> {
        for _ in 0..MOST {
            match self.association.poll() {
                Some(Event::Readable(stream)) => self.read(alloc, stream, now)?,
                Some(Event::ResetByUs(_)) => self.resets = self.resets.saturating_add(1),
                Some(Event::Closed(ending)) => self.ending = Some(ending),
                Some(_) => {}
                None => break,
            }
        }
        Ok(())
    }

    // Reads a stream until nothing is left.
    fn read(&mut self, alloc: Global, stream: u16, now: u64) -> Result<(), Fault> {
        for _ in 0..MOST {
            let Some(message) = self.association.read(stream, now)? else {
                break;
            };
            self.messages = self.messages.saturating_add(1);
            let taken = match self.inboxes.get_mut(stream as usize) {
                Some(inbox) => inbox.take(alloc, stream, &message),
                None => Ok(()),
            };
            drop(message);
            taken?;
        }
        Ok(())
    }

    /// Whether nothing that was written waits or is in flight.
    pub fn is_drained(&self) -> bool {
        let mut all = self.association.state() == State::Established;
        for channel in CHANNELS {
            all = all && self.association.buffered_amount(channel.stream) == 0;
        }
        all
    }

    /// Whether on each stream came what its mode promises, and the association ended by a shutdown.
    pub fn is_served(&self) -> bool {
        let mut well = self.ending == Some(Ending::Shutdown);
        for (channel, inbox) in CHANNELS.iter().zip(self.inboxes.iter()) {
            well = well && inbox.is_as(channel);
        }
        well
    }
}
