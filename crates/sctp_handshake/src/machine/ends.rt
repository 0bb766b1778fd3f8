//! Shutdown and abort (RFC 9260 9).

ghost use Rattle.std.specs.Prelude.{◌≡◌};

use super::Machine;
use crate::answer::{AbortCause, Answer, Reply, Told};
use crate::state::State;

impl Machine {
    ghost use Rattle.sctp_handshake.specs.Answers.{silent};
    ghost use Rattle.sctp_handshake.specs.Endings.{on_shutdown_asked, on_drained, on_shutdown, on_shutdown_ack, on_shutdown_complete, on_abort, on_abort_asked};
    ghost use Rattle.sctp_handshake.specs.Machines.{Takes};

    /// The application asks for a shutdown (RFC 9260 9.2): what waits is still sent. In `CookieWait` the attempt is ended. In
    /// `CookieEchoed` nothing happens: ask again once the association stands, since a lost COOKIE ECHO is sent again in that state alone.
    /// Call `drained` as soon as nothing waits or is in flight.
    pub fn shutdown_asked(&mut self) -> Answer
        ensures { Takes (on_shutdown_asked self.old) self.new result }
    {
        match self.state {
            State::CookieWait => {
                self.close();
                Answer::noticed(Told::Closed)
            }
            State::Established => {
                self.enter(State::ShutdownPending);
                Answer::silent()
            }
            _ => Answer::silent(),
        }
    }

    /// Nothing waits or is in flight any more (RFC 9260 9.2): in `ShutdownPending` a SHUTDOWN is sent, in `ShutdownReceived` a
    /// SHUTDOWN ACK. In other states the call does nothing.
    pub fn drained(&mut self) -> Answer
        ensures { Takes (on_drained self.old) self.new result }
    {
        match self.state {
            State::ShutdownPending => {
                self.enter(State::ShutdownSent);
                Answer::replied(Reply::Shutdown)
            }
            State::ShutdownReceived => {
                self.enter(State::ShutdownAckSent);
                Answer::replied(Reply::ShutdownAck)
            }
            _ => Answer::silent(),
        }
    }

    /// A SHUTDOWN came (RFC 9260 9.2). Its cumulative TSN is for the caller, and then `drained` where it leaves nothing in flight.
    pub fn shutdown(&mut self) -> Answer
        ensures takes { Takes (on_shutdown self.old) self.new result }
        // What is not answered changes nothing.
        ensures dropped { result ≡ silent → self.new ≡ self.old }
    {
        match self.state {
            State::Established | State::ShutdownPending => {
                self.enter(State::ShutdownReceived);
                Answer::noticed(Told::ShutdownBegun)
            }
            State::ShutdownSent => {
                self.enter(State::ShutdownAckSent);
                Answer::replied(Reply::ShutdownAck)
            }
            State::ShutdownAckSent => Answer::replied(Reply::ShutdownAck),
            _ => Answer::silent(),
        }
    }

    /// A SHUTDOWN ACK came (RFC 9260 9.2). In `Closed`, `CookieWait` and `CookieEchoed` it is out of the blue (8.4, 8.5.1 E).
    pub fn shutdown_ack(&mut self) -> Answer
        ensures takes { Takes (on_shutdown_ack self.old) self.new result }
        // What is not answered changes nothing.
        ensures dropped { result ≡ silent → self.new ≡ self.old }
    {
        match self.state {
            State::Closed | State::CookieWait | State::CookieEchoed => {
                Answer::replied(Reply::ShutdownComplete { is_reflected: true })
            }
            State::ShutdownSent | State::ShutdownAckSent => {
                self.close();
                let complete = Reply::ShutdownComplete {
                    is_reflected: false,
                };
                Answer::both(complete, Told::Closed)
            }
            _ => Answer::silent(),
        }
    }

    /// A SHUTDOWN COMPLETE came (RFC 9260 9.2). In each state but `ShutdownAckSent` it is dropped (8.5.1 C).
    pub fn shutdown_complete(&mut self) -> Answer
        ensures takes { Takes (on_shutdown_complete self.old) self.new result }
        // What is not answered changes nothing.
        ensures dropped { result ≡ silent → self.new ≡ self.old }
    {
        if self.state != State::ShutdownAckSent {
            return Answer::silent();
        }
        self.close();
        Answer::noticed(Told::Closed)
    }

    /// An ABORT came (RFC 9260 9.1).
    pub fn abort(&mut self) -> Answer
        ensures takes { Takes (on_abort self.old) self.new result }
        // What is not answered changes nothing.
        ensures dropped { result ≡ silent → self.new ≡ self.old }
    {
        if self.state == State::Closed {
            return Answer::silent();
        }
        self.close();
        Answer::noticed(Told::Failed)
    }

    /// The application gives up the association (RFC 9260 9.1). In `CookieWait` the peer's tag is not known, and nothing is sent.
    pub fn abort_asked(&mut self) -> Answer
        ensures { Takes (on_abort_asked self.old) self.new result }
    {
        match self.state {
            State::Closed => return Answer::silent(),
            State::CookieWait => {
                self.close();
                return Answer::noticed(Told::Closed);
            }
            _ => {}
        }
        self.close();
        Answer::both(Reply::Abort(AbortCause::UserInitiatedAbort), Told::Closed)
    }
}
