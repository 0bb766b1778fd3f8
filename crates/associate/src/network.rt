//! A network that loses, repeats and reorders datagrams, by a seeded generator.

use bytes::Bytes;
use sctp_association::Fault;
use std::alloc::Global;

/// A millisecond.
pub(crate) const MS: u64 = 1_000_000;

// A datagram under way: when it comes, and to whom.
#[derive(Drop)]
struct Flight {
    at: u64,
    to: usize,
    datagram: Bytes,
}

/// The network.
#[derive(Drop)]
pub(crate) struct Network {
    alloc: Global,
    random: u32,
    loss: u32,
    flights: Vec<Flight>,
    /// How many datagrams were sent, and how many of them it lost.
    pub sent: u64,
    pub lost: u64,
}

impl Network {
    /// A network that loses so many of 100 datagrams.
    pub fn new(alloc: Global, loss: u32) -> Network {
        Network {
            alloc,
            random: 2_463_534_242,
            loss,
            flights: Vec::new(alloc),
            sent: 0,
            lost: 0,
        }
    }

    // A number below 100 (xorshift).
    fn roll(&mut self) -> u32 {
        let mut next = self.random;
        next ^= next.wrapping_shl(13);
        next ^= next >> 17;
        next ^= next.wrapping_shl(5);
        self.random = next;
        next % 100
    }

    // Lets a datagram travel 20 to 69 milliseconds.
    fn put(&mut self, to: usize, datagram: Bytes, now: u64) -> Result<(), Fault> {
        let way = u64::from(20 + self.roll() / 2) * MS;
        self.flights.push(Flight {
            at: now.saturating_add(way),
            to,
            datagram,
        })?;
        Ok(())
    }

    /// Takes a datagram: it is lost, or comes, or comes twice.
    pub fn send(&mut self, to: usize, datagram: &[u8], now: u64) -> Result<(), Fault> {
        self.sent = self.sent.saturating_add(1);
        if self.roll() < self.loss {
            self.lost = self.lost.saturating_add(1);
            return Ok(());
        }
        let bytes = Bytes::copy_from_slice(self.alloc, datagram)?;
        if self.roll() < 5 {
            self.put(to, bytes.clone()?, now)?;
        }
        self.put(to, bytes, now)
    }

    /// When the next datagram comes.
    pub fn next_time(&self) -> Option<u64> {
        let mut first = None;
        for flight in &self.flights {
            first = match first {
                Some(at) if at <= flight.at => Some(at),
                _ => Some(flight.at),
            };
        }
        first
    }

    /// A datagram that came, and to whom.
    pub fn take(&mut self, now: u64) -> Option<(usize, Bytes)> {
        let place = self.flights.iter().position(|flight| flight.at <= now)?;
        if place >= self.flights.len() {
            return None;
        }
        let flight = self.flights.swap_remove(place);
        Some((flight.to, flight.datagram))
    }
}
