//! Why a sender refuses.

use sctp_util::error::Error;

/// Why a call of a sender changed nothing.
#[derive(Clone, Copy, Debug, PartialEq, Eq)]
pub enum SenderRefusal {
    /// The stream is open.
    StreamOpen,
    /// The stream is not open.
    StreamUnknown,
    /// Something of the stream waits or is in flight.
    StreamBusy,
    /// The message is longer than a message may be.
    MessageTooLarge,
    /// No further message can wait: the numbers of messages are used up, or all bytes would be more than the greatest usize.
    QueueFull,
    /// No further TSN can be given out before some are acknowledged: 2^31 - 1 are in flight.
    TsnsUsedUp,
    /// The ordered message that is next can't be begun before chunks of its stream are acknowledged cumulatively: its stream sequence
    /// number is 2^14 or more past that of the first ordered chunk of its stream in flight.
    SsnsUsedUp,
    /// The TSN is not in flight; or, where it is to be sent again, its chunk is acknowledged or abandoned.
    NotInFlight,
    /// A SACK reports a cumulative TSN that was not given out: `ErrInflightQueueTsnPop` of the Rust crate's association.
    InflightQueueTsnPop,
    /// A gap ack block of a SACK that is not empty begins at 0, or ends past the last TSN in flight: `ErrTsnRequestNotExist` of the Rust
    /// crate's association.
    TsnRequestNotExist,
    /// Memory ran out.
    OutOfMemory,
}

/// Any refusal of what stands below is want of memory.
impl From<Error> for SenderRefusal {
    ghost use Rattle.std.specs.Prelude.{◌≡◌};
    ghost use Rattle.sctp_sender.specs.declared.sender.refusal.SenderRefusal.TheVariants.{OutOfMemory};

    ghost from_gives = { λ _ r. r ≡ OutOfMemory };

    fn from(_e: Error) -> SenderRefusal {
        SenderRefusal::OutOfMemory
    }
}
