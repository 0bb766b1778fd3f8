//! How much of what is held is outstanding, and how much of that is marked to be sent again (RFC 9260 6.3.3, 7.2.4).

ghost use Rattle.std.specs.Prelude.{◌≡◌, ◌+◌, ◌^◌, ◌<◌, ◌≤◌, [], length, if◌then◌else◌};
ghost use Rattle.sctp_outbound.specs.Outstanding.{IsCounted, flight_bytes, is_to_resend, is_unmarked, outstanding_of};

use super::is_outstanding;
use sctp_data::chunk::chunk_payload_data::ChunkPayloadData;

/// What is outstanding: in flight, and neither acknowledged nor abandoned.
#[derive(Clone, Copy, Debug, PartialEq, Eq)]
pub struct Outstanding {
    /// The bytes of user data of the chunks that are not marked to be sent again: the flight size (RFC 9260 7.2.1).
    pub bytes: usize,
    /// How many chunks are not marked.
    pub chunks: usize,
    /// How many chunks are marked.
    pub marked: usize,
}

impl Outstanding {
    /// Nothing.
    pub(super) fn none() -> Self
        ensures { result ≡ outstanding_of [] }
    {
        Outstanding {
            bytes: 0,
            chunks: 0,
            marked: 0,
        }
    }

    /// Counts a chunk.
    /// Precondition: the numbers are below 2^64 with it.
    pub(super) fn count(&mut self, chunk: &ChunkPayloadData)
        requires bytes { self.old.bytes + length chunk.now.user_data < 2 ^ 64 }
        requires chunks { self.old.chunks + 1 < 2 ^ 64 }
        requires marked { self.old.marked + 1 < 2 ^ 64 }
        ensures bytes { self.new.bytes ≡ self.old.bytes + flight_bytes chunk.now }
        ensures chunks { self.new.chunks
            ≡ self.old.chunks + (if is_unmarked chunk.now then 1 else 0) }
        ensures marked { self.new.marked
            ≡ self.old.marked + (if is_to_resend chunk.now then 1 else 0) }
    {
        if !is_outstanding(chunk) {
            return;
        }
        if chunk.retransmit {
            self.marked += 1;
            return;
        }
        self.bytes += chunk.user_data.len();
        self.chunks += 1;
    }

    /// Counts a chunk no more.
    /// Precondition: it is counted.
    pub(super) fn uncount(&mut self, chunk: &ChunkPayloadData)
        requires { IsCounted self.old chunk.now }
        ensures bytes { self.new.bytes + flight_bytes chunk.now ≡ self.old.bytes }
        ensures chunks { self.new.chunks + (if is_unmarked chunk.now then 1 else 0)
            ≡ self.old.chunks }
        ensures marked { self.new.marked + (if is_to_resend chunk.now then 1 else 0)
            ≡ self.old.marked }
    {
        if !is_outstanding(chunk) {
            return;
        }
        if chunk.retransmit {
            self.marked -= 1;
            return;
        }
        self.bytes -= chunk.user_data.len();
        self.chunks -= 1;
    }
}
