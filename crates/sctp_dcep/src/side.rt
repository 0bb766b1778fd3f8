//! Which side opens a channel on which stream (RFC 8832 6, RFC 8831 6.5).

ghost use Rattle.std.specs.Prelude.{◌≡◌, ◌%◌, ◌↔◌, IsTrue};
ghost use Rattle.sctp_dcep.specs.Side.{first_of, next_of};

/// The greatest number of a stream: an INIT offers at most 65,535 streams, and their numbers begin at 0 (RFC 9260 3.3.2).
const LAST: u16 = 65_534;

/// The role of a side in the DTLS connection. The client opens channels on streams with even numbers, the server on those with
/// odd ones, so that both never choose the same.
#[derive(Clone, Copy, Debug, PartialEq, Eq)]
pub enum Side {
    /// The DTLS client.
    Client,
    /// The DTLS server.
    Server,
}

impl Side {
    /// The least number of a stream that the side may choose.
    pub fn first(self) -> u16
        ensures { result ≡ first_of self }
    {
        match self {
            Side::Client => 0,
            Side::Server => 1,
        }
    }

    /// The number after this one that the same side may choose, None after the last.
    pub fn next(stream: u16) -> Option<u16>
        ensures { result ≡ next_of stream }
    {
        if stream > LAST - 2 {
            return None;
        }
        Some(stream + 2)
    }

    /// Whether the side may choose this number.
    pub fn is_ours(self, stream: u16) -> bool
        ensures { IsTrue result ↔ (stream % 2 ≡ first_of self) }
    {
        stream % 2 == self.first()
    }
}
