//! Why a message is not read or written.

ghost use Rattle.std.specs.Prelude.{◌≡◌};
ghost use Rattle.sctp_dcep.specs.declared.fault.Fault.TheVariants.{OutOfMemory};

use std::alloc::{AllocError, AllocFailed};
use std::fmt;

/// Every refusal of this crate.
#[derive(Clone, Copy, Debug, PartialEq, Eq)]
pub enum Fault {
    /// The message has no byte.
    Empty,
    /// Its first byte is neither 2, DATA_CHANNEL_ACK, nor 3, DATA_CHANNEL_OPEN (RFC 8832 8.2.1).
    UnknownMessageType,
    /// A DATA_CHANNEL_OPEN has under 12 bytes, which stand before its label (RFC 8832 5.1).
    TooShort,
    /// The channel type of a DATA_CHANNEL_OPEN is none of 0, 1, 2, 0x80, 0x81 and 0x82 (RFC 8832 5.1).
    UnknownChannelType,
    /// A DATA_CHANNEL_OPEN does not end where its protocol does (RFC 8832 5.1).
    WrongLength,
    /// A label that is to be written has more than 65,535 bytes.
    LabelTooLong,
    /// A protocol that is to be written has more than 65,535 bytes, and the label has not.
    ProtocolTooLong,
    /// A growth was refused. Slicing a `Bytes` may be one.
    OutOfMemory,
}

/// Prints the name, as `{:?}` does.
impl fmt::Display for Fault {
    fn fmt<W: fmt::Write>(&self, f: &mut fmt::Formatter<W>) -> fmt::Result {
        write!(f, "{self:?}")
    }
}

impl std::error::Error for Fault {}

/// Want of memory is `OutOfMemory`.
impl From<AllocError> for Fault {
    ghost from_gives = { λ _ f. f ≡ OutOfMemory };

    fn from(_e: AllocError) -> Fault {
        Fault::OutOfMemory
    }
}

/// The same, where the value that did not fit comes back and is dropped.
impl<T: Drop> From<AllocFailed<T>> for Fault {
    ghost from_gives = { λ _ f. f ≡ OutOfMemory };

    fn from(_e: AllocFailed<T>) -> Fault {
        Fault::OutOfMemory
    }
}
