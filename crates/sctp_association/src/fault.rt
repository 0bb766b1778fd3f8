//! Why a call of an association is refused.

ghost use Rattle.std.specs.Prelude.{◌≡◌};

use sctp_receiver::receiver::refusal::ReceiverRefusal;
use sctp_sender::sender::refusal::SenderRefusal;
use std::alloc::{AllocError, AllocFailed};

/// Why a call of an association is refused. It has changed nothing then, but where the call says what stays done.
#[derive(Clone, Copy, Debug, PartialEq, Eq)]
pub enum Fault {
    /// Memory ran out.
    OutOfMemory,
    /// The call is not for the state in which the association is.
    WrongState,
    /// The number of the stream is not below the number of streams that was agreed.
    NoSuchStream,
    /// The message has more bytes than the peer, or this side, takes.
    MessageTooLarge,
    /// As many bytes wait as may (`Config::most_waiting`).
    Full,
    /// The stream is to be reset: it takes no message until the peer has answered.
    Resetting,
    /// A number of the configuration is out of its range.
    BadConfig,
}

impl From<AllocError> for Fault {
    ghost use Rattle.sctp_association.specs.declared.fault.Fault.TheVariants.{OutOfMemory};

    ghost from_gives = { λ _ r. r ≡ OutOfMemory };

    fn from(_e: AllocError) -> Fault {
        Fault::OutOfMemory
    }
}

impl<T: Drop> From<AllocFailed<T>> for Fault {
    fn from(_e: AllocFailed<T>) -> Fault {
        Fault::OutOfMemory
    }
}

impl From<SenderRefusal> for Fault {
    fn from(e: SenderRefusal) -> Fault {
        match e {
            SenderRefusal::OutOfMemory => Fault::OutOfMemory,
            SenderRefusal::MessageTooLarge => Fault::MessageTooLarge,
            SenderRefusal::QueueFull => Fault::Full,
            SenderRefusal::StreamUnknown => Fault::NoSuchStream,
            _ => Fault::WrongState,
        }
    }
}

impl From<ReceiverRefusal> for Fault {
    fn from(e: ReceiverRefusal) -> Fault {
        match e {
            ReceiverRefusal::OutOfMemory => Fault::OutOfMemory,
            _ => Fault::NoSuchStream,
        }
    }
}
