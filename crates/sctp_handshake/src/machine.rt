//! The state machine of an association (RFC 9260 4), as it stands between two inputs.

mod begins;
mod cookies;
mod ends;
mod timeouts;

ghost use Rattle.std.specs.Prelude.{◌≡◌};

use crate::offer::Offer;
use crate::state::State;
use crate::ticket::TieTags;
pub use begins::ConnectError;

/// How often something is sent again before the association fails (RFC 9260 16).
#[derive(Clone, Copy, Debug, PartialEq, Eq)]
pub struct Limits {
    /// Max.Init.Retransmits, 8 by default: for INIT, for COOKIE ECHO, and for stale cookies.
    pub max_init_retransmits: u32,
    /// Association.Max.Retrans, 10 by default: for SHUTDOWN and SHUTDOWN ACK.
    pub association_max_retrans: u32,
}

/// What both sides agreed on (RFC 9260 5.1.1; RFC 3758 3.3; RFC 6525 5). Whether a checksum of 0 may be sent is the peer's alone to say
/// (RFC 9653 5.2).
#[derive(Clone, Copy, Debug, PartialEq, Eq)]
pub struct Agreed {
    /// How many streams this side may send on.
    pub outbound_streams: u16,
    /// How many streams the peer may send on.
    pub inbound_streams: u16,
    /// Whether both know FORWARD-TSN.
    pub forward_tsn: bool,
    /// Whether both know RE-CONFIG.
    pub reconfig: bool,
}

/// The association as it stands. Each input is a call, and one table of `specs` says what it does in each state.
#[derive(Clone, Copy, Debug, PartialEq, Eq)]
pub struct Machine {
    state: State,
    // What this side offers: that of the ticket, where the association began with one.
    own: Offer,
    // What the peer offered, from `CookieEchoed` on.
    peer: Option<Offer>,
    limits: Limits,
    // How often the timer of the state has run out.
    attempts: u32,
    // How many cookies of this association were stale.
    stale: u32,
    // Whether the peer has begun again.
    has_restarted: bool,
}

impl Machine {
    ghost use Rattle.sctp_handshake.specs.Machines.{new_machine, agreed, into, closed, tie_tags_of};

    /// No association yet, and what this side will offer.
    pub fn new(own: Offer, limits: Limits) -> Machine
        ensures { result ≡ new_machine own limits }
    {
        Machine {
            state: State::Closed,
            own,
            peer: None,
            limits,
            attempts: 0,
            stale: 0,
            has_restarted: false,
        }
    }

    /// The state.
    pub fn state(&self) -> State
        ensures { result ≡ self.now.state }
    {
        self.state
    }

    /// What this side offers: its tag is the one that packets of the peer have.
    pub fn own(&self) -> Offer
        ensures { result ≡ self.now.own }
    {
        self.own
    }

    /// What the peer offered, from `CookieEchoed` on: its tag is the one that packets to the peer have.
    pub fn peer(&self) -> Option<Offer>
        ensures { result ≡ self.now.peer }
    {
        self.peer
    }

    /// Whether the peer has begun again since the association stood first (RFC 9260 5.2.4 A): `Restarted` was told.
    pub fn has_restarted(&self) -> bool
        ensures { result ≡ self.now.has_restarted }
    {
        self.has_restarted
    }

    /// What both sides agreed on, where the peer's offer is known.
    pub fn agreed(&self) -> Option<Agreed>
        ensures { result ≡ agreed self.now }
    {
        let peer = self.peer?;
        Some(Agreed {
            outbound_streams: self.own.outbound_streams.min(peer.inbound_streams),
            inbound_streams: self.own.inbound_streams.min(peer.outbound_streams),
            forward_tsn: self.own.forward_tsn && peer.forward_tsn,
            reconfig: self.own.reconfig && peer.reconfig,
        })
    }

    // Enters a state, whose timer has not run out yet.
    fn enter(&mut self, state: State)
        ensures { self.new ≡ into state self.old }
    {
        self.state = state;
        self.attempts = 0;
    }

    // Ends the association.
    fn close(&mut self)
        ensures { self.new ≡ closed self.old }
    {
        self.state = State::Closed;
        self.peer = None;
        self.attempts = 0;
        self.stale = 0;
    }

    // The tags of the association, where both are known.
    fn tie_tags(&self) -> Option<TieTags>
        ensures { result ≡ tie_tags_of self.now }
    {
        let peer = self.peer?;
        Some(TieTags {
            own: self.own.tag,
            peer: peer.tag,
        })
    }
}
