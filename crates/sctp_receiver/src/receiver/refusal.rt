//! Why a receiver refuses.

use sctp_util::error::Error;

/// Why a call of a receiver changed nothing.
#[derive(Clone, Copy, Debug, PartialEq, Eq)]
pub enum ReceiverRefusal {
    /// The stream is open.
    StreamOpen,
    /// The stream is not open.
    StreamUnknown,
    /// The TSN lies half the circle from the cumulative one, and so neither before nor after it (RFC 1982 3.2).
    TsnOpposite,
    /// With the chunk its message would be longer than a message may be.
    MessageTooLarge,
    /// The TSN lies more than the `reach` of the limits past the cumulative one.
    TsnTooFar,
    /// The TSN is past the highest one that came, and `held_bytes` is no less than the `window` of the limits (RFC 4960 6.2). A chunk that
    /// fills a gap is never refused so.
    WindowFull,
    /// The stream sequence number of an ordered chunk lies 2^15 or more, modulo 2^16, past the lowest one that is still to be read, so that
    /// it can't be told from one that was read (RFC 1982 3.2; RFC 4960 6.5, 6.6). The lowest one is the number expected next, or the
    /// first one of the complete messages before it that were not read, which a FORWARD-TSN went past.
    SsnTooFar,
    /// A FORWARD-TSN that is not stale names a stream that is not open (RFC 3758 3.6).
    NamedStreamUnknown,
    /// A FORWARD-TSN that is not stale names a stream sequence number that can't be told from one that was read, or past which a complete
    /// message would be lost (RFC 1982 3.2; RFC 3758 3.6). With d = how far it lies past the lowest number that is still to be read on its
    /// stream, modulo 2^16: 2^15 <= d < 2^15 + 2^14, or d = 2^15 - 1 and the message of the lowest number is complete. A name with a
    /// greater d is an old one, and no reason to refuse.
    NamedSsnTooFar,
    /// The stream can't be reset yet: chunks that were sent before the reset may still come (RFC 6525 4.4).
    ResetInProgress,
    /// Memory ran out. It comes in the place of no other refusal, except in `data_each`.
    OutOfMemory,
}

/// A message that would be too long is `MessageTooLarge`; any other refusal of what stands below is want of memory.
impl From<Error> for ReceiverRefusal {
    ghost use Rattle.std.specs.Prelude.{◌≡◌};
    ghost use Rattle.sctp_receiver.specs.Refusals.{receiver_refusal};

    ghost from_gives = { λ e r. r ≡ receiver_refusal e };

    fn from(e: Error) -> ReceiverRefusal {
        match e {
            Error::ErrInboundPacketTooLarge => ReceiverRefusal::MessageTooLarge,
            _ => ReceiverRefusal::OutOfMemory,
        }
    }
}
