//! When the chunks of a handshake were seen (RFC 9260 5.1).

ghost use Rattle.std.specs.Prelude.{◌≡◌, IfSome, IsSome};
ghost use Rattle.sctp_follow.specs.Handshake as shakes;

use crate::packet::Arrived;
use sctp_capture::record::Time;
use sctp_show::time::{Elapsed, total_of};

/// The types of its chunks.
const INIT: u8 = 1;

const INIT_ACK: u8 = 2;

const COOKIE_ECHO: u8 = 10;

const COOKIE_ACK: u8 = 11;

/// With which record each chunk of a handshake came first.
#[derive(Clone, Copy)]
pub struct Handshake {
    pub init: Option<Arrived>,
    pub init_ack: Option<Arrived>,
    pub cookie_echo: Option<Arrived>,
    pub cookie_ack: Option<Arrived>,
}

/// With which record a chunk of a type came first, behind another chunk.
fn first_of(typ: u8, known: Option<Arrived>, bytes: &[u8], arrived: Arrived) -> Option<Arrived>
    ensures { result ≡ shakes.first_of typ known bytes.now arrived }
{
    if known.is_some() {
        return known;
    }
    if !bytes.is_empty() && bytes[0] == typ {
        return Some(arrived);
    }
    None
}

/// The time of a record, if it is known.
fn time_of(known: &Option<Arrived>) -> Option<Time>
    ensures { result ≡ shakes.time_of known.now }
{
    match known {
        Some(arrived) => arrived.time,
        None => None,
    }
}

impl Handshake {
    /// None of its chunks was seen.
    pub fn new() -> Self
        ensures { result ≡ shakes.unseen }
    {
        Handshake {
            init: None,
            init_ack: None,
            cookie_echo: None,
            cookie_ack: None,
        }
    }

    /// Notes a chunk of the association that came with a record, of either way.
    pub fn note(&mut self, bytes: &[u8], arrived: Arrived)
        ensures { self.new ≡ shakes.with_chunk bytes.now arrived self.old }
    {
        self.init = first_of(INIT, self.init, bytes, arrived);
        self.init_ack = first_of(INIT_ACK, self.init_ack, bytes, arrived);
        self.cookie_echo = first_of(COOKIE_ECHO, self.cookie_echo, bytes, arrived);
        self.cookie_ack = first_of(COOKIE_ACK, self.cookie_ack, bytes, arrived);
    }

    /// Whether each of its chunks was seen.
    pub fn is_complete(&self) -> bool
        ensures { result ≡ shakes.is_complete self.now }
    {
        self.init.is_some()
            && self.init_ack.is_some()
            && self.cookie_echo.is_some()
            && self.cookie_ack.is_some()
    }

    /// The time from the INIT to another chunk. There is none where one of them has no time, or the INIT has the later one.
    pub fn after(&self, other: &Option<Arrived>) -> Option<Elapsed>
        ensures measured { IfSome result (shakes.IsAfter self.now other.now) }
        ensures told { shakes.HasAfter self.now other.now → IsSome result }
    {
        let (Some(from), Some(to)) = (time_of(&self.init), time_of(other)) else {
            return None;
        };
        let (start, end) = (total_of(&from), total_of(&to));
        if end < start {
            return None;
        }
        Some(Elapsed {
            is_before: false,
            nanoseconds: end - start,
            is_fine: from.nanoseconds || to.nanoseconds,
        })
    }
}
