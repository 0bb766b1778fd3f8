//! What is counted of an association.

ghost use Rattle.std.specs.Prelude.{◌≡◌};

use super::Association;
use sctp_stream::DataChannelStats;

/// Counts of an association. Amounts are bytes; the round trip, the windows and the state have calls of their own, and `handle_datagram`
/// says of each datagram what became of it.
#[derive(Clone, Copy, Debug, PartialEq, Eq)]
pub struct Stats {
    /// What was written and is not sent: user data.
    pub waiting: usize,
    /// What was sent, and neither acknowledged, abandoned nor taken for lost: user data, which the peer's window limits (RFC 9260 6.2.1).
    pub outstanding: usize,
    /// How often a DATA chunk was sent again (RFC 9260 6.3.3, 7.2.4). As the next count it begins at 0 where the peer began anew
    /// (`Event::Restarted`), and stops at the greatest u64.
    pub resent: u64,
    /// How often T3-rtx ran out (RFC 9260 6.3.3).
    pub timeouts: u64,
    /// What is held of the peer's messages and was not read, 400 bytes a chunk with it, as it counts against `Config::window`.
    pub held: usize,
}

impl Association {
    ghost use Rattle.sctp_association.specs.Counts.{stats_of, stream_stats_of};

    /// What is counted of the association. It takes no memory, and is a look, however much waits or is held.
    pub fn stats(&self) -> Stats
        ensures { result ≡ stats_of self.now }
    {
        let outbound = &self.outbound;
        Stats {
            waiting: outbound.sender.outbound().pending_bytes(),
            outstanding: outbound.sender.outstanding().bytes,
            resent: outbound.resent,
            timeouts: outbound.timeouts,
            held: self.held_bytes(),
        }
    }

    /// The messages that were written to a stream since it was opened, and those that were read of it, with their bytes; None where it is not
    /// open either way. Text and binary messages count (`DataChannelStats`).
    pub fn stream_stats(&self, stream: u16) -> Option<DataChannelStats>
        ensures { result ≡ stream_stats_of stream self.now }
    {
        let sent = match self.outbound.sender.stream(stream) {
            Some(state) => Some(state.stats()),
            None => None,
        };
        let read = match &self.inbound {
            Some(inbound) => inbound.receiver.stats(stream),
            None => None,
        };
        match (sent, read) {
            (Some(sent), Some(read)) => Some(DataChannelStats {
                messages_received: read.messages_received,
                bytes_received: read.bytes_received,
                ..sent
            }),
            (Some(sent), None) => Some(sent),
            (None, read) => read,
        }
    }
}
