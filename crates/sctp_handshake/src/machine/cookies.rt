//! COOKIE ECHO, COOKIE ACK and stale cookies (RFC 9260 5.1 D and E, 5.2.4 to 5.2.6).

ghost use Rattle.std.specs.Prelude.{◌≡◌};

use super::Machine;
use crate::answer::{Answer, Reply, Told};
use crate::state::State;
use crate::ticket::{Ticket, TieTags};

/// Which row of the table of RFC 9260 5.2.4 a ticket matches.
#[derive(Clone, Copy, Debug, PartialEq, Eq)]
pub enum CookieRow {
    /// There is no association (RFC 9260 5.1 D).
    First,
    /// Row A: the peer began again, and its ticket has the tie-tags of this association.
    Restart,
    /// Row B: both sides began at once, and the peer has another tag now.
    Collision,
    /// Row C: the ticket is of an earlier tag of this side.
    Late,
    /// Row D: both tags match.
    Repeat,
    /// No row.
    Unlisted,
}

impl Machine {
    ghost use Rattle.sctp_handshake.specs.Answers.{silent};
    ghost use Rattle.sctp_handshake.specs.Cookies.{are_tie_tags, row_of, established_by, established, renewal_row, repeat_row, on_cookie_echo, on_cookie_ack, on_stale_cookie};
    ghost use Rattle.sctp_handshake.specs.Machines.{Takes, tie_tags_of};

    // Whether these are the tags of the association.
    fn has_tie_tags(&self, tie_tags: Option<TieTags>) -> bool
        ensures { result ≡ are_tie_tags tie_tags (tie_tags_of self.now) }
    {
        match (tie_tags, self.tie_tags()) {
            (Some(tie_tags), Some(own)) => tie_tags.own == own.own && tie_tags.peer == own.peer,
            _ => false,
        }
    }

    // The row of the table that a ticket matches.
    fn row(&self, ticket: &Ticket) -> CookieRow
        ensures { result ≡ row_of ticket.now self.now }
    {
        if self.state == State::Closed {
            return CookieRow::First;
        }
        let is_peer = match self.peer {
            Some(peer) => ticket.peer.tag == peer.tag,
            None => false,
        };
        match (ticket.own.tag == self.own.tag, is_peer) {
            (true, true) => CookieRow::Repeat,
            (true, false) => CookieRow::Collision,
            (false, true) => {
                if ticket.tie_tags.is_none() {
                    CookieRow::Late
                } else {
                    CookieRow::Unlisted
                }
            }
            (false, false) => {
                if self.has_tie_tags(ticket.tie_tags) {
                    CookieRow::Restart
                } else {
                    CookieRow::Unlisted
                }
            }
        }
    }

    // The association stands that was being set up.
    fn establish(&mut self)
        ensures { self.new ≡ established self.old }
    {
        self.enter(State::Established);
        self.stale = 0;
    }

    // The association begins with a ticket, or begins anew.
    fn renew(&mut self, ticket: Ticket) -> Answer
        ensures { Takes (renewal_row self.old.state ticket self.old) self.new result }
    {
        let told = match self.state {
            State::ShutdownAckSent => return Answer::replied(Reply::CookieWhileShuttingDown),
            State::Closed | State::CookieWait | State::CookieEchoed => Told::Connected,
            _ => {
                self.has_restarted = true;
                Told::Restarted
            }
        };
        self.establish();
        self.own = ticket.own;
        self.peer = Some(ticket.peer);
        Answer::both(Reply::CookieAck, told)
    }

    // Both tags of a ticket match.
    fn repeat(&mut self) -> Answer
        ensures { Takes (repeat_row self.old.state self.old) self.new result }
    {
        if self.state != State::CookieEchoed {
            return Answer::replied(Reply::CookieAck);
        }
        self.establish();
        Answer::both(Reply::CookieAck, Told::Connected)
    }

    /// A COOKIE ECHO came, whose cookie this side made, with this ticket (RFC 9260 5.1 D, 5.2.4). `is_stale` says that the life of the
    /// cookie is over. `StaleCookie` and `CookieWhileShuttingDown` go to the tag of the ticket's peer.
    pub fn cookie_echo(&mut self, ticket: Ticket, is_stale: bool) -> Answer
        ensures takes { Takes (on_cookie_echo ticket is_stale self.old) self.new result }
        // What is not answered changes nothing.
        ensures dropped { result ≡ silent → self.new ≡ self.old }
    {
        match self.row(&ticket) {
            CookieRow::Repeat => self.repeat(),
            _ if is_stale => Answer::replied(Reply::StaleCookie),
            CookieRow::First | CookieRow::Restart | CookieRow::Collision => self.renew(ticket),
            CookieRow::Late | CookieRow::Unlisted => Answer::silent(),
        }
    }

    /// A COOKIE ACK came (RFC 9260 5.1 E). In each state but `CookieEchoed` it is dropped (5.2.5).
    pub fn cookie_ack(&mut self) -> Answer
        ensures takes { Takes (on_cookie_ack self.old) self.new result }
        // What is not answered changes nothing.
        ensures dropped { result ≡ silent → self.new ≡ self.old }
    {
        if self.state != State::CookieEchoed {
            return Answer::silent();
        }
        self.establish();
        Answer::noticed(Told::Connected)
    }

    /// An ERROR with the cause Stale Cookie came (RFC 9260 5.2.6). In `CookieEchoed` the handshake begins again with a new INIT, at most
    /// Max.Init.Retransmits times (as usrsctp counts them); in other states it is dropped. `tag` is the tag of that INIT: not 0, and drawn for
    /// it alone. So a peer that has an association with the earlier tag takes the next cookie for a restart (5.2.4 A).
    pub fn stale_cookie(&mut self, tag: u32) -> Answer
        ensures takes { Takes (on_stale_cookie tag self.old) self.new result }
        // What is not answered changes nothing.
        ensures dropped { result ≡ silent → self.new ≡ self.old }
    {
        if self.state != State::CookieEchoed {
            return Answer::silent();
        }
        if self.stale >= self.limits.max_init_retransmits {
            self.close();
            return Answer::noticed(Told::Failed);
        }
        self.enter(State::CookieWait);
        self.own.tag = tag;
        self.peer = None;
        self.stale += 1;
        Answer::replied(Reply::Init)
    }
}
