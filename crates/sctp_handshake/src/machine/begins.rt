//! INIT and INIT ACK (RFC 9260 5.1, 5.2.1 to 5.2.3).

ghost use Rattle.std.specs.Prelude.{◌≡◌, ◌↔◌, ◌≢◌, IfOk, OnErr, IsErrOf};
ghost use Rattle.sctp_handshake.specs.declared.machine.begins.ConnectError.TheVariants as refusal;
ghost use Rattle.sctp_handshake.specs.declared.state.State.TheVariants as state;

use super::Machine;
use crate::answer::{AbortCause, Answer, Reply, Told};
use crate::offer::{Offer, OfferFault};
use crate::state::State;
use crate::ticket::{Ticket, TieTags};

/// Why no INIT is sent.
#[derive(Clone, Copy, Debug, PartialEq, Eq)]
pub enum ConnectError {
    /// There is an association, or one is being set up.
    NotClosed,
}

impl Machine {
    ghost use Rattle.sctp_handshake.specs.Answers.{silent};
    ghost use Rattle.sctp_handshake.specs.Beginnings.{on_connect, init_reply, on_init_ack, init_ack_checked};
    ghost use Rattle.sctp_handshake.specs.Offers.{offer_fault};
    ghost use Rattle.sctp_handshake.specs.Machines.{Takes};

    /// The application asks for an association (RFC 9260 5.1 A): an INIT is sent. Refuses with `NotClosed`, exactly in each state but
    /// `Closed`. A machine that was in use has its old tag: make a new one (5.3.1).
    pub fn connect(&mut self) -> Result<Answer, ConnectError>
        ensures ok { IfOk result (λ a. Takes (on_connect self.old) self.new a) }
        ensures refused { IsErrOf result refusal.NotClosed ↔ (self.old.state ≢ state.Closed) }
        ensures err { OnErr result (self.new ≡ self.old) }
    {
        if self.state != State::Closed {
            return Err(ConnectError::NotClosed);
        }
        self.enter(State::CookieWait);
        Ok(Answer::replied(Reply::Init))
    }

    /// What an INIT is answered (RFC 9260 5.1 B, 5.2.1, 5.2.2, 9.2). It changes nothing in any state: all that the answer rests on is in
    /// the ticket. `tag` is not 0, and drawn for this INIT alone; so an old cookie never has the tag of an association that began with
    /// another one. What else this side offers stays, its first TSN too (5.2.2). An ABORT has the tag of the INIT.
    pub fn init(&self, peer: Offer, tag: u32) -> Option<Reply>
        ensures { result ≡ init_reply peer tag self.now }
    {
        match peer.fault() {
            Some(OfferFault::NoTag) => return None,
            Some(_) => return Some(Reply::Abort(AbortCause::InvalidMandatoryParameter)),
            None => {}
        }
        let mut own = self.own;
        match self.state {
            State::ShutdownAckSent => return Some(Reply::ShutdownAck),
            State::CookieWait | State::CookieEchoed => {}
            _ => own.tag = tag,
        }
        own.outbound_streams = own.outbound_streams.min(peer.inbound_streams);
        let tie_tags = match self.state {
            State::Closed | State::CookieWait => None,
            _ => self.tie_tags(),
        };
        Some(Reply::InitAck(Ticket {
            own,
            peer,
            tie_tags,
        }))
    }

    /// An INIT ACK came (RFC 9260 5.1 C, 5.2.3): the cookie in it is to be echoed. In each state but `CookieWait` it is dropped. An ABORT
    /// has its tag.
    pub fn init_ack(&mut self, peer: Offer) -> Answer
        ensures takes { Takes (on_init_ack peer self.old) self.new result }
        // What is not answered changes nothing.
        ensures dropped { result ≡ silent → self.new ≡ self.old }
    {
        if self.state != State::CookieWait {
            return Answer::silent();
        }
        let abort = Reply::Abort(AbortCause::InvalidMandatoryParameter);
        match peer.fault() {
            None => {
                self.enter(State::CookieEchoed);
                self.peer = Some(peer);
                Answer::replied(Reply::CookieEcho)
            }
            Some(OfferFault::NoTag) => {
                self.close();
                Answer::noticed(Told::Failed)
            }
            Some(OfferFault::NoStreams) => {
                self.close();
                Answer::both(abort, Told::Failed)
            }
            Some(OfferFault::SmallWindow) => Answer::replied(abort),
        }
    }
}
