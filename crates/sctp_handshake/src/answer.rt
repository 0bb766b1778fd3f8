//! What an input is answered: a chunk to the peer, and a notice to the application.

ghost use Rattle.std.specs.Prelude.{◌≡◌};
ghost use Rattle.sctp_handshake.specs.Answers as answers;

use crate::ticket::Ticket;

/// The cause that an ABORT tells (RFC 9260 3.3.10).
#[derive(Clone, Copy, Debug, PartialEq, Eq)]
pub enum AbortCause {
    /// Cause 7: an INIT or an INIT ACK has an offer that can't stand.
    InvalidMandatoryParameter,
    /// Cause 12: the application asked for it.
    UserInitiatedAbort,
}

/// What is sent to the peer.
#[derive(Clone, Copy, Debug, PartialEq, Eq)]
pub enum Reply {
    /// An INIT with the own offer; the packet's tag is 0.
    Init,
    /// An INIT ACK with the offer `own` of the ticket and a cookie that holds the ticket.
    InitAck(Ticket),
    /// The cookie of the last INIT ACK that was taken.
    CookieEcho,
    CookieAck,
    /// An ERROR with cause 3 (RFC 9260 3.3.10.3).
    StaleCookie,
    /// A SHUTDOWN ACK, and an ERROR with cause 10 (RFC 9260 5.2.4 A, 3.3.10.10).
    CookieWhileShuttingDown,
    Shutdown,
    ShutdownAck,
    /// With `is_reflected` the packet has the tag of the packet that it answers, and the chunk the T bit (RFC 9260 8.4).
    ShutdownComplete { is_reflected: bool },
    Abort(AbortCause),
}

/// What the application is told (RFC 9260 11.2).
#[derive(Clone, Copy, Debug, PartialEq, Eq)]
pub enum Told {
    /// COMMUNICATION UP.
    Connected,
    /// RESTART: the peer began anew; both sides begin again at their first TSN.
    Restarted,
    /// The peer asked for a shutdown: no write is accepted any more.
    ShutdownBegun,
    /// SHUTDOWN COMPLETE: the association ended as it was asked to.
    Closed,
    /// COMMUNICATION LOST: the peer sent an ABORT, an offer can't stand, or no answer came.
    Failed,
}

/// What an input is answered; with neither of both it was dropped.
#[derive(Clone, Copy, Debug, PartialEq, Eq)]
pub struct Answer {
    pub reply: Option<Reply>,
    pub told: Option<Told>,
}

impl Answer {
    // Nothing is sent or told.
    pub(crate) fn silent() -> Answer
        ensures { result ≡ answers.silent }
    {
        Answer {
            reply: None,
            told: None,
        }
    }

    // A reply alone.
    pub(crate) fn replied(reply: Reply) -> Answer
        ensures { result ≡ answers.replied reply }
    {
        Answer {
            reply: Some(reply),
            told: None,
        }
    }

    // A notice alone.
    pub(crate) fn noticed(told: Told) -> Answer
        ensures { result ≡ answers.noticed told }
    {
        Answer {
            reply: None,
            told: Some(told),
        }
    }

    // Both.
    pub(crate) fn both(reply: Reply, told: Told) -> Answer
        ensures { result ≡ answers.both reply told }
    {
        Answer {
            reply: Some(reply),
            told: Some(told),
        }
    }
}
