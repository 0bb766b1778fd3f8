//! What a call answers: under 16 it was done, from 16 on it was refused, and nothing changed. Numbers and names never change; new ones
//! follow the last.

ghost use Rattle.std.specs.Prelude.{◌≡◌, ◌≢◌, ◌≤◌};
ghost use Rattle.sctp_util.specs.declared.error.Error.TheVariants.{ErrOutOfMemory};
ghost use Rattle.sctp_c.specs.Codes.{error_code, sender_code, receiver_code};

use sctp_receiver::receiver::refusal::ReceiverRefusal;
use sctp_sender::sender::refusal::SenderRefusal;
use sctp_util::error::Error;

/// Done.
pub const SCTPR_OK: u32 = 0;
/// Done: a DATA chunk's TSN came before.
pub const SCTPR_REPEAT: u32 = 1;
/// Done: a FORWARD-TSN is not past what came.
pub const SCTPR_STALE: u32 = 2;
/// Done: there is nothing to send, to read or to tell.
pub const SCTPR_NOTHING: u32 = 3;
/// Memory ran out.
pub const SCTPR_NO_MEMORY: u32 = 16;
/// The buffer is too short: the length that is wanted was told.
pub const SCTPR_SHORT_BUFFER: u32 = 17;
/// An argument is out of its range.
pub const SCTPR_INVALID: u32 = 18;
/// A chunk or a parameter would be longer than 65,535 bytes with its header (RFC 4960 3.2, 3.2.1).
pub const SCTPR_LENGTH_TOO_LARGE: u32 = 19;
/// The checksum of the packet is another one (RFC 4960 6.8).
pub const SCTPR_BAD_CHECKSUM: u32 = 20;
/// A chunk is of a type that is not read.
pub const SCTPR_UNKNOWN_CHUNK: u32 = 21;
/// The stream is open.
pub const SCTPR_STREAM_OPEN: u32 = 22;
/// The stream is not open.
pub const SCTPR_STREAM_UNKNOWN: u32 = 23;
/// The message is, or would be, longer than a message may be.
pub const SCTPR_MESSAGE_TOO_LARGE: u32 = 24;
/// No further message can wait.
pub const SCTPR_QUEUE_FULL: u32 = 25;
/// No further TSN can be given out before some are acknowledged.
pub const SCTPR_TSNS_USED_UP: u32 = 26;
/// The TSN is not in flight, or its chunk is acknowledged or abandoned.
pub const SCTPR_NOT_IN_FLIGHT: u32 = 27;
/// A SACK reports a TSN that was not given out.
pub const SCTPR_SACK_BEYOND_SENT: u32 = 28;
/// A gap ack block of a SACK reports a TSN that is not in flight.
pub const SCTPR_SACK_BAD_GAP: u32 = 29;
/// The TSN lies half the circle from the cumulative one (RFC 1982 3.2).
pub const SCTPR_TSN_OPPOSITE: u32 = 30;
/// Something of the stream waits or is in flight.
pub const SCTPR_STREAM_BUSY: u32 = 31;
/// The next ordered message of the stream can't be begun before chunks of it are acknowledged.
pub const SCTPR_SSNS_USED_UP: u32 = 32;
/// The TSN lies farther past the cumulative one than the limits allow.
pub const SCTPR_TSN_TOO_FAR: u32 = 34;
/// Nothing is left of the window (RFC 4960 6.2).
pub const SCTPR_WINDOW_FULL: u32 = 35;
/// The stream sequence number can't be told from one that was read (RFC 1982 3.2).
pub const SCTPR_SSN_TOO_FAR: u32 = 36;
/// A FORWARD-TSN names a stream that is not open (RFC 3758 3.6).
pub const SCTPR_NAMED_STREAM_UNKNOWN: u32 = 37;
/// A FORWARD-TSN names a stream sequence number that can't be told from one that was read.
pub const SCTPR_NAMED_SSN_TOO_FAR: u32 = 38;
/// The stream can't be reset yet (RFC 6525 4.4).
pub const SCTPR_RESET_IN_PROGRESS: u32 = 39;

/// A chunk or a payload type can't be written as it was given.
pub const SCTPR_NOT_AS_GIVEN: u32 = 90;

/// The number of an error of what stands below the two halves; from 40 on they follow the order of `Error`. None is that of a buffer
/// that is too short, of an argument out of its range, or of what can't be written as it was given.
pub fn of_error(e: Error) -> u32
    ensures number { result ≡ error_code e }
    ensures refused { 16 ≤ result }
    ensures memory { e ≡ ErrOutOfMemory → result ≡ 16 }
    ensures apart { (result ≢ 17) × (result ≢ 18) × (result ≢ 90) }
{
    match e {
        Error::ErrPacketRawTooSmall => 40,
        Error::ErrChecksumMismatch => SCTPR_BAD_CHECKSUM,
        Error::ErrParseSctpChunkNotEnoughData => 41,
        Error::ErrUnmarshalUnknownChunkType => SCTPR_UNKNOWN_CHUNK,
        Error::ErrSctpPacketSourcePortZero => 42,
        Error::ErrSctpPacketDestinationPortZero => 43,
        Error::ErrInitChunkBundled => 44,
        Error::ErrInitChunkVerifyTagNotZero => 45,
        Error::ErrChunkHeaderTooSmall => 46,
        Error::ErrChunkHeaderInvalidLength => 47,
        Error::ErrChunkHeaderNotEnoughSpace => 48,
        Error::ErrChunkHeaderPaddingNonZero => 49,
        Error::ErrChunkTypeNotAbort => 50,
        Error::ErrChunkTypeNotCookieAck => 51,
        Error::ErrChunkTypeNotCookieEcho => 52,
        Error::ErrChunkTypeNotCt => 53,
        Error::ErrChunkTypeNotForwardTsn => 54,
        Error::ErrChunkTypeNotHeartbeat => 55,
        Error::ErrChunkTypeNotHeartbeatAck => 56,
        Error::ErrChunkTypeNotTypeInit => 57,
        Error::ErrChunkTypeNotPayloadData => 58,
        Error::ErrChunkTypeNotReconfig => 59,
        Error::ErrChunkTypeNotSack => 60,
        Error::ErrChunkTypeNotShutdown => 61,
        Error::ErrChunkTypeNotShutdownAck => 62,
        Error::ErrChunkTypeNotShutdownComplete => 63,
        Error::ErrChunkTooShort => 64,
        Error::ErrChunkPayloadSmall => 65,
        Error::ErrChunkValueNotLongEnough => 66,
        Error::ErrChunkTypeInitFlagZero => 67,
        Error::ErrChunkTypeInitInitiateTagZero => 68,
        Error::ErrInitInboundStreamRequestZero => 69,
        Error::ErrInitOutboundStreamRequestZero => 70,
        Error::ErrInitAdvertisedReceiver1500 => 71,
        Error::ErrHeartbeatNotLongEnoughInfo => 72,
        Error::ErrHeartbeatParam => 73,
        Error::ErrHeartbeatAckParams => 74,
        Error::ErrHeartbeatAckNotHeartbeatInfo => 75,
        Error::ErrChunkReconfigInvalidParamA => 76,
        Error::ErrChunkReconfigInvalidParamCombination => 77,
        Error::ErrSackSizeNotLargeEnoughInfo => 78,
        Error::ErrInvalidChunkSize => 79,
        Error::ErrErrorCauseTooSmall => 80,
        Error::ErrParamHeaderTooShort => 81,
        Error::ErrParamTypeUnhandled { .. } => 82,
        Error::ErrParamTypeUnexpected => 83,
        Error::ErrSsnResetRequestParamTooShort => 84,
        Error::ErrSsnResetRequestParamInvalidLength => 85,
        Error::ErrReconfigRespParamTooShort => 86,
        Error::ErrInvalidAlgorithmType => 87,
        Error::ErrSupportedAddressTypesParamInvalidLength => 88,
        Error::ErrInboundPacketTooLarge => SCTPR_MESSAGE_TOO_LARGE,
        Error::ErrShortBuffer => 89,
        Error::ErrLengthTooLarge => SCTPR_LENGTH_TOO_LARGE,
        Error::ErrOutOfMemory => SCTPR_NO_MEMORY,
    }
}

/// The number of a sender's refusal.
pub fn of_sender(e: SenderRefusal) -> u32
    ensures number { result ≡ sender_code e }
    ensures refused { 16 ≤ result }
{
    match e {
        SenderRefusal::StreamOpen => SCTPR_STREAM_OPEN,
        SenderRefusal::StreamUnknown => SCTPR_STREAM_UNKNOWN,
        SenderRefusal::StreamBusy => SCTPR_STREAM_BUSY,
        SenderRefusal::MessageTooLarge => SCTPR_MESSAGE_TOO_LARGE,
        SenderRefusal::QueueFull => SCTPR_QUEUE_FULL,
        SenderRefusal::TsnsUsedUp => SCTPR_TSNS_USED_UP,
        SenderRefusal::SsnsUsedUp => SCTPR_SSNS_USED_UP,
        SenderRefusal::NotInFlight => SCTPR_NOT_IN_FLIGHT,
        SenderRefusal::InflightQueueTsnPop => SCTPR_SACK_BEYOND_SENT,
        SenderRefusal::TsnRequestNotExist => SCTPR_SACK_BAD_GAP,
        SenderRefusal::OutOfMemory => SCTPR_NO_MEMORY,
    }
}

/// The number of a receiver's refusal.
pub fn of_receiver(e: ReceiverRefusal) -> u32
    ensures number { result ≡ receiver_code e }
    ensures refused { 16 ≤ result }
{
    match e {
        ReceiverRefusal::StreamOpen => SCTPR_STREAM_OPEN,
        ReceiverRefusal::StreamUnknown => SCTPR_STREAM_UNKNOWN,
        ReceiverRefusal::TsnOpposite => SCTPR_TSN_OPPOSITE,
        ReceiverRefusal::MessageTooLarge => SCTPR_MESSAGE_TOO_LARGE,
        ReceiverRefusal::TsnTooFar => SCTPR_TSN_TOO_FAR,
        ReceiverRefusal::WindowFull => SCTPR_WINDOW_FULL,
        ReceiverRefusal::SsnTooFar => SCTPR_SSN_TOO_FAR,
        ReceiverRefusal::NamedStreamUnknown => SCTPR_NAMED_STREAM_UNKNOWN,
        ReceiverRefusal::NamedSsnTooFar => SCTPR_NAMED_SSN_TOO_FAR,
        ReceiverRefusal::ResetInProgress => SCTPR_RESET_IN_PROGRESS,
        ReceiverRefusal::OutOfMemory => SCTPR_NO_MEMORY,
    }
}
