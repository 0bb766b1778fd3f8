//! What a state cookie holds (RFC 9260 5.1.3): both offers, and the tags of an association that stands already.

ghost use Rattle.std.specs.Prelude.{◌≡◌, ◌+◌, ◌≤◌, ◌++◌, length};

use crate::offer::Offer;
use bytes::BytesMut;
use sctp_util::field::{put_u16, put_u32, read_u16, read_u32};

/// How many bytes a ticket has.
pub const TICKET_LENGTH: usize = 47;

// How many of them an offer has.
const OFFER_LENGTH: usize = 19;

/// The tags of the association that stood when an INIT came (RFC 9260 5.2.2).
#[derive(Clone, Copy, Debug, PartialEq, Eq)]
pub struct TieTags {
    /// The Local Tie-Tag.
    pub own: u32,
    /// The Peer's Tie-Tag.
    pub peer: u32,
}

/// What a state cookie holds: an endpoint that has sent an INIT ACK keeps none of it (RFC 9260 5.1 B). The moment and the MAC of a
/// cookie are added by another crate (5.1.3).
#[derive(Clone, Copy, Debug, PartialEq, Eq)]
pub struct Ticket {
    /// What the INIT ACK said.
    pub own: Offer,
    /// What the INIT said.
    pub peer: Offer,
    /// The tie-tags; None stands for tags of 0.
    pub tie_tags: Option<TieTags>,
}

/// Why bytes are no ticket.
#[derive(Clone, Copy, Debug, PartialEq, Eq)]
pub enum TicketFault {
    /// There are not 47 bytes.
    WrongLength,
    /// A byte that says yes or no is neither 0 nor 1.
    NoFlag,
    /// There are tie-tags, and the byte before them says that there are none.
    StrayTieTags,
}

impl Ticket {
    ghost use Rattle.sctp_handshake.specs.Tickets.{offer_bytes, tie_tags_bytes, ticket_bytes, are_flags, offer_at, tie_tags_at, ticket_in};

    /// Appends the bytes of a ticket. It takes no memory.
    /// Precondition: the buffer has room for them.
    pub fn put(&self, buf: &mut BytesMut)
        requires { TICKET_LENGTH ≤ buf.old.spare }
        ensures items { buf.new.items ≡ buf.old.items ++ ticket_bytes self.now }
        ensures spare { buf.new.spare + TICKET_LENGTH ≡ buf.old.spare }
    {
        Self::put_offer(&self.own, buf);
        Self::put_offer(&self.peer, buf);
        let tie_tags = self.tie_tags.unwrap_or(TieTags { own: 0, peer: 0 });
        buf.extend_reserved(&[u8::from(self.tie_tags.is_some())]);
        put_u32(buf, tie_tags.own);
        put_u32(buf, tie_tags.peer);
    }

    // Appends the bytes of an offer.
    fn put_offer(offer: &Offer, buf: &mut BytesMut)
        requires { OFFER_LENGTH ≤ buf.old.spare }
        ensures items { buf.new.items ≡ buf.old.items ++ offer_bytes offer.now }
        ensures spare { buf.new.spare + OFFER_LENGTH ≡ buf.old.spare }
    {
        put_u32(buf, offer.tag);
        put_u32(buf, offer.window);
        put_u16(buf, offer.outbound_streams);
        put_u16(buf, offer.inbound_streams);
        put_u32(buf, offer.first_tsn);
        buf.extend_reserved(&[
            u8::from(offer.forward_tsn),
            u8::from(offer.reconfig),
            u8::from(offer.zero_checksum),
        ]);
    }

    /// The ticket that bytes are. Each ticket is read from its bytes and from no others (`laws`). It takes no memory.
    pub fn read(bytes: &[u8]) -> Result<Ticket, TicketFault>
        ensures { result ≡ ticket_in bytes.now }
    {
        if bytes.len() != TICKET_LENGTH {
            return Err(TicketFault::WrongLength);
        }
        let has_tie_tags = bytes[2 * OFFER_LENGTH];
        if !Self::are_flags(bytes, 16) || !Self::are_flags(bytes, 35) || has_tie_tags > 1 {
            return Err(TicketFault::NoFlag);
        }
        let tags = TieTags {
            own: read_u32(bytes, 39),
            peer: read_u32(bytes, 43),
        };
        if has_tie_tags == 0 && (tags.own != 0 || tags.peer != 0) {
            return Err(TicketFault::StrayTieTags);
        }
        Ok(Ticket {
            own: Self::offer_at(bytes, 0),
            peer: Self::offer_at(bytes, OFFER_LENGTH),
            tie_tags: (has_tie_tags == 1).then_some(tags),
        })
    }

    // Whether the three bytes from a place on are 0 or 1.
    fn are_flags(bytes: &[u8], at: usize) -> bool
        requires { at + 3 ≤ length bytes.now }
        ensures { result ≡ are_flags bytes.now at }
    {
        bytes[at] <= 1 && bytes[at + 1] <= 1 && bytes[at + 2] <= 1
    }

    // The offer in the bytes from a place on.
    fn offer_at(bytes: &[u8], at: usize) -> Offer
        requires { at + OFFER_LENGTH ≤ length bytes.now }
        ensures { result ≡ offer_at bytes.now at }
    {
        Offer {
            tag: read_u32(bytes, at),
            window: read_u32(bytes, at + 4),
            outbound_streams: read_u16(bytes, at + 8),
            inbound_streams: read_u16(bytes, at + 10),
            first_tsn: read_u32(bytes, at + 12),
            forward_tsn: bytes[at + 16] == 1,
            reconfig: bytes[at + 17] == 1,
            zero_checksum: bytes[at + 18] == 1,
        }
    }
}
