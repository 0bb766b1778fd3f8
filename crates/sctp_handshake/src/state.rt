//! The states of an association (RFC 9260 4), and what may be done in each.

ghost use Rattle.std.specs.Prelude.{◌≡◌};
ghost use Rattle.sctp_handshake.specs.States as states;

/// The states of the figure of RFC 9260 4. In `Closed` there is no association.
#[derive(Clone, Copy, Debug, PartialEq, Eq)]
pub enum State {
    Closed,
    CookieWait,
    CookieEchoed,
    Established,
    ShutdownPending,
    ShutdownSent,
    ShutdownReceived,
    ShutdownAckSent,
}

/// The timers of the handshake and of the shutdown (RFC 9260 5.1, 9.2).
#[derive(Clone, Copy, Debug, PartialEq, Eq)]
pub enum Timer {
    /// T1-init: an INIT is sent again.
    T1Init,
    /// T1-cookie: a COOKIE ECHO is sent again.
    T1Cookie,
    /// T2-shutdown: a SHUTDOWN or a SHUTDOWN ACK is sent again.
    T2Shutdown,
}

impl State {
    /// Which timer runs (RFC 9260 5.1 A and C, 9.2). It begins anew with each reply that `timed_out` sends again, and where a call
    /// enters the state.
    pub fn timer(self) -> Option<Timer>
        ensures { result ≡ states.timer self }
    {
        match self {
            State::CookieWait => Some(Timer::T1Init),
            State::CookieEchoed => Some(Timer::T1Cookie),
            State::ShutdownSent | State::ShutdownAckSent => Some(Timer::T2Shutdown),
            _ => None,
        }
    }

    /// Whether new user data is accepted from the application (RFC 9260 9.2).
    pub fn accepts_writes(self) -> bool
        ensures { result ≡ states.accepts_writes self }
    {
        matches!(
            self,
            State::CookieWait | State::CookieEchoed | State::Established
        )
    }

    /// Whether DATA may be sent (RFC 9260 6). In `CookieEchoed` it may only stand behind the COOKIE ECHO, in its packet (5.1 C).
    pub fn sends_data(self) -> bool
        ensures { result ≡ states.sends_data self }
    {
        matches!(
            self,
            State::CookieEchoed
                | State::Established
                | State::ShutdownPending
                | State::ShutdownReceived
        )
    }

    /// Whether DATA that arrives is taken (RFC 9260 6): in other states it is discarded.
    pub fn takes_data(self) -> bool
        ensures { result ≡ states.takes_data self }
    {
        matches!(
            self,
            State::Established | State::ShutdownPending | State::ShutdownSent
        )
    }

    /// Whether a SACK that arrives is processed (RFC 9260 6): in other states it is discarded.
    pub fn takes_sacks(self) -> bool
        ensures { result ≡ states.takes_sacks self }
    {
        matches!(
            self,
            State::CookieEchoed
                | State::Established
                | State::ShutdownPending
                | State::ShutdownReceived
        )
    }
}
