//! A message of a channel.

ghost use Rattle.std.specs.Prelude.{◌≡◌, ◌++◌, ◌≤◌, ◌<◌, ◌-◌, ◌^◌, min, None, IfSome, length, drop, if◌then◌else◌};
ghost use Rattle.sctp_channels.specs.Messages.{bytes_in, is_empty_kind, is_text_kind};
ghost use Rattle.sctp_reassembly.specs.reassembly_queue.Fragments.{payload_of};
ghost use Rattle.sctp_serial.specs.DataChunks.{bytes_of};

use sctp_association::{Chunks, PayloadProtocolIdentifier};

/// A message that was read.
#[derive(Drop)]
pub struct Received {
    chunks: Chunks,
}

impl Received {
    pub(crate) fn new(chunks: Chunks) -> Received
        ensures { result.chunks ≡ chunks }
    {
        Received { chunks }
    }

    /// Whether it is text in UTF-8, which is not tested, or bytes (RFC 8831 8).
    pub fn is_text(&self) -> bool
        ensures { result ≡ is_text_kind self.now.chunks.set.ppi }
    {
        matches!(
            self.chunks.ppi(),
            PayloadProtocolIdentifier::String | PayloadProtocolIdentifier::StringEmpty
        )
    }

    /// Whether it is empty: a byte was sent in place of none (RFC 8831 6.6).
    pub fn is_empty(&self) -> bool
        ensures { result ≡ is_empty_kind self.now.chunks.set.ppi }
    {
        matches!(
            self.chunks.ppi(),
            PayloadProtocolIdentifier::StringEmpty | PayloadProtocolIdentifier::BinaryEmpty
        )
    }

    /// How many bytes it has.
    pub fn len(&self) -> usize
        ensures { result ≡ (if is_empty_kind self.now.chunks.set.ppi then 0
            else min (bytes_of self.now.chunks.set.chunks) (2 ^ 64 - 1)) }
    {
        if self.is_empty() {
            0
        } else {
            self.chunks.len()
        }
    }

    /// Copies its bytes into the front of a buffer, and answers how many there are; None where the buffer is too short.
    pub fn read(&self, buffer: &mut [u8]) -> Option<usize>
        ensures ok { let bytes = bytes_in self.now.chunks.set.ppi
            (payload_of self.now.chunks.set.chunks) in
            IfSome result (λ n. (n ≡ length bytes) × (n ≤ length buffer.old)
            × (buffer.new ≡ bytes ++ drop n buffer.old)) }
        ensures short { result ≡ None → length buffer.old
            < length (bytes_in self.now.chunks.set.ppi (payload_of self.now.chunks.set.chunks)) }
    {
        if self.is_empty() {
            return Some(0);
        }
        match self.chunks.read(buffer) {
            Ok(length) => Some(length),
            Err(_) => None,
        }
    }
}
