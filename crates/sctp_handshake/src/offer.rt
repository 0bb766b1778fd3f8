//! What an INIT or an INIT ACK says of its sender (RFC 9260 3.3.2, 3.3.3).

ghost use Rattle.std.specs.Prelude.{◌≡◌};

/// The least window that an INIT or an INIT ACK may advertise, in bytes (RFC 9260 3.3.2).
pub const LEAST_WINDOW: u32 = 1500;

/// What an INIT or an INIT ACK says of its sender.
#[derive(Clone, Copy, Debug, PartialEq, Eq)]
pub struct Offer {
    /// The verification tag that the other side puts into its packets (RFC 9260 5.3.1).
    pub tag: u32,
    /// The window in bytes (a_rwnd).
    pub window: u32,
    /// How many streams the sender wants to send on (OS).
    pub outbound_streams: u16,
    /// How many streams the sender takes at most (MIS).
    pub inbound_streams: u16,
    /// The TSN of its first DATA chunk.
    pub first_tsn: u32,
    /// Whether it knows FORWARD-TSN (RFC 3758 3.1).
    pub forward_tsn: bool,
    /// Whether it knows RE-CONFIG (RFC 6525 3.1; RFC 5061 4.2.7).
    pub reconfig: bool,
    /// Whether it takes packets with a checksum of 0 over DTLS (RFC 9653 4.1).
    pub zero_checksum: bool,
}

/// Why an association can't begin with an offer.
#[derive(Clone, Copy, Debug, PartialEq, Eq)]
pub enum OfferFault {
    /// The tag is 0.
    NoTag,
    /// A number of streams is 0.
    NoStreams,
    /// The window is under 1,500 bytes.
    SmallWindow,
}

impl Offer {
    ghost use Rattle.sctp_handshake.specs.Offers.{offer_fault};

    /// The first fault of an offer, in the order of `OfferFault` (RFC 9260 3.3.2, 3.3.3).
    pub fn fault(&self) -> Option<OfferFault>
        ensures { result ≡ offer_fault self.now }
    {
        if self.tag == 0 {
            return Some(OfferFault::NoTag);
        }
        if self.outbound_streams == 0 || self.inbound_streams == 0 {
            return Some(OfferFault::NoStreams);
        }
        if self.window < LEAST_WINDOW {
            return Some(OfferFault::SmallWindow);
        }
        None
    }
}
