//! Two hosts that connect at once, exchange messages, reset streams and shut down.

use crate::host::Host;
use crate::network::{MS, Network};
use crate::traffic::{CHANNELS, Channel, LATER, MESSAGES};
use sctp_association::Fault;
use std::alloc::Global;

// More steps than a run takes.
const STEPS: u32 = 200_000;

/// What a run shows.
#[derive(Clone, Copy)]
pub(crate) struct Figures {
    pub is_well: bool,
    pub datagrams: u64,
    pub lost: u64,
    pub messages: u64,
    pub milliseconds: u64,
}

impl Figures {
    /// Of a run that failed.
    pub fn none() -> Figures {
        Figures {
            is_well: false,
            datagrams: 0,
            lost: 0,
            messages: 0,
            milliseconds: 0,
        }
    }
}

// The earlier of two moments, if there is one.
fn earlier(a: Option<u64>, b: Option<u64>) -> Option<u64> {
    match (a, b) {
        (Some(a), Some(b)) => Some(a.min(b)),
        (Some(a), None) => Some(a),
        (None, b) => b,
    }
}

// Two hosts, and the network between them.
#[derive(Drop)]
struct Exchange {
    alloc: Global,
    first: Host,
    second: Host,
    network: Network,
    now: u64,
}

// The exchange of a host and of a second one, if that could be made.
fn exchange_of(
    alloc: Global,
    first: Host,
    second: Result<Host, Fault>,
    loss: u32,
) -> Result<Exchange, Fault> {
    match second {
        Ok(second) => Ok(Exchange {
            alloc,
            first,
            second,
            network: Network::new(alloc, loss),
            now: 0,
        }),
        Err(fault) => {
            drop(first);
            Err(fault)
        }
    }
}

impl Exchange {
    fn new(alloc: Global, loss: u32) -> Result<Exchange, Fault> {
        let first = Host::new(alloc, 0x1234_5678, u32::MAX - 50)?;
        exchange_of(alloc, first, Host::new(alloc, 0x9abc_def0, 77), loss)
    }

    // Lets both connect.
    fn connect(&mut self) -> Result<(), Fault> {
        self.first.connect(self.alloc, self.now)?;
        self.second.connect(self.alloc, self.now)
    }

    // Lets both write a message to each of these streams.
    fn write(&mut self, channels: &[Channel], number: u16) -> Result<(), Fault> {
        self.first.write(self.alloc, channels, number)?;
        self.second.write(self.alloc, channels, number)
    }

    // Lets both reset these streams.
    fn reset(&mut self, channels: &[Channel]) -> Result<(), Fault> {
        self.first.reset(channels)?;
        self.second.reset(channels)
    }

    // Lets both send what is due, and time go on to what happens next, or by so much.
    fn wait(&mut self, most: u64) -> Result<(), Fault> {
        self.first.transmit(&mut self.network, 1, self.now)?;
        self.second.transmit(&mut self.network, 0, self.now)?;
        let timers = earlier(
            self.first.association.poll_timeout(),
            self.second.association.poll_timeout(),
        );
        let end = self.now.saturating_add(most);
        let next = earlier(timers, self.network.next_time()).unwrap_or(end);
        self.now = self.now.max(next.min(end));
        self.first.association.handle_timeout(self.now);
        self.second.association.handle_timeout(self.now);
        Ok(())
    }

    // Lets a datagram come that is due.
    fn deliver(&mut self) -> Result<(), Fault> {
        let Some((to, datagram)) = self.network.take(self.now) else {
            return Ok(());
        };
        if to == 0 {
            self.first.take(self.alloc, &datagram, self.now)
        } else {
            self.second.take(self.alloc, &datagram, self.now)
        }
    }

    // A step of both.
    fn step(&mut self, most: u64) -> Result<(), Fault> {
        self.wait(most)?;
        self.deliver()?;
        self.first.follow_events(self.alloc, self.now)?;
        self.second.follow_events(self.alloc, self.now)
    }

    // Lets what was written come, until both are drained and so many streams are reset; false where that takes more steps than there are.
    fn drain(&mut self, resets: u32) -> Result<bool, Fault> {
        for _ in 0..STEPS {
            let are_reset = self.first.resets >= resets && self.second.resets >= resets;
            if are_reset && self.first.is_drained() && self.second.is_drained() {
                return Ok(true);
            }
            self.step(u64::MAX)?;
        }
        Ok(false)
    }

    // Lets both write messages with these numbers, one each 20 milliseconds, and then lets them come.
    fn exchange(&mut self, channels: &[Channel], from: u16, to: u16) -> Result<bool, Fault> {
        for number in from..to {
            self.write(channels, number)?;
            self.step(20 * MS)?;
        }
        self.drain(0)
    }

    // Lets the first host shut down, until both have ended.
    fn shut_down(&mut self) -> Result<bool, Fault> {
        self.first.association.shutdown(self.now)?;
        for _ in 0..STEPS {
            if self.first.ending.is_some() && self.second.ending.is_some() {
                return Ok(true);
            }
            self.step(u64::MAX)?;
        }
        Ok(false)
    }

    // Whether all goes well.
    fn goes_well(&mut self) -> Result<bool, Fault> {
        self.connect()?;
        let reliable = CHANNELS.get(..2).unwrap_or(&[]);
        let came = self.exchange(&CHANNELS, 0, MESSAGES)?;
        self.reset(reliable)?;
        let are_reset = self.drain(2)?;
        let more = self.exchange(reliable, MESSAGES, MESSAGES + LATER)?;
        let ended = self.shut_down()?;
        Ok(came && are_reset && more && ended && self.first.is_served() && self.second.is_served())
    }

    // What it shows.
    fn figures(&self, is_well: bool) -> Figures {
        Figures {
            is_well,
            datagrams: self.network.sent,
            lost: self.network.lost,
            messages: self.first.messages.saturating_add(self.second.messages),
            milliseconds: self.now / MS,
        }
    }
}

/// Runs both over a network that loses so many of 100 datagrams. All is well where reliable messages all come, each once, ordered ones in
/// order; where of the others those that come are such as were written; where a stream that is reset begins with the number 0 again; and
/// where both end by a shutdown.
pub(crate) fn run(alloc: Global, loss: u32) -> Result<Figures, Fault> {
    let mut exchange = Exchange::new(alloc, loss)?;
    let is_well = matches!(exchange.goes_well(), Ok(true));
    let figures = exchange.figures(is_well);
    drop(exchange);
    Ok(figures)
}
