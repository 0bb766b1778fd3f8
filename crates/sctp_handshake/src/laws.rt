//! What holds of tickets, and of any inputs one after another: laws, each the contract of a function that does nothing.

ghost use Rattle.std.specs.Prelude.{◌≡◌, IfOk};
ghost use Rattle.sctp_handshake.specs.declared.offer.Offer.{Offer};
ghost use Rattle.sctp_handshake.specs.declared.ticket.Ticket.{Ticket};
ghost use Rattle.sctp_handshake.specs.InitValues.{init_bytes, init_in};
ghost use Rattle.sctp_handshake.specs.Laws.{NeedsCookie, OffersStay, PeerIsKnown, SilenceEnds};
ghost use Rattle.sctp_handshake.specs.Tickets.{OfferFits, TicketFits, ticket_bytes, ticket_in};

/// A ticket is read from its bytes as it was.
pub fn a_ticket_is_read_as_it_was()
    ensures { (t : Ticket) → TicketFits t → ticket_in (ticket_bytes t) ≡ Ok t }
{}

/// A ticket is read from no other bytes.
pub fn a_ticket_is_read_from_its_bytes(bytes: &[u8])
    ensures { IfOk (ticket_in bytes.now) (λ t. ticket_bytes t ≡ bytes.now) }
{}

/// An offer is read from the value of an INIT as it was written.
pub fn an_offer_is_read_as_it_was()
    ensures { (o : Offer) → OfferFits o
        → init_in (init_bytes o) ≡ Ok (record { offer = o; cookie = None }) }
{}

/// After any inputs the peer's offer is known in each state but `Closed` and `CookieWait`, and only there.
pub fn the_peer_is_known()
    ensures { PeerIsKnown }
{}

/// Whatever comes, without a COOKIE ECHO or a COOKIE ACK no association stands (RFC 9260 5.1).
pub fn only_a_cookie_makes_an_association()
    ensures { NeedsCookie }
{}

/// Where a timer runs and no answer comes, the association ends once the timer has run out more often than its limit (RFC 9260 4, 9.2).
pub fn silence_ends_it()
    ensures { SilenceEnds }
{}

/// Where an association stands, both offers and so both tags stay, but in rows A and B of the table of RFC 9260 5.2.4; or it ends.
pub fn offers_stay()
    ensures { OffersStay }
{}
