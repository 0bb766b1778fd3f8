//! Why a call refuses.

ghost use Rattle.std.specs.Prelude.{◌≡◌};
ghost use Rattle.sctp_util.specs.declared.error.Error.TheVariants.{ErrOutOfMemory};

use std::alloc::{AllocError, AllocFailed};
use std::fmt;

/// Every refusal of this workspace. After each of them what the call was to change is as it was,
/// but for `ErrShortBuffer`; what it took by value is not handed back. A length below is what a
/// header declares, a value is what follows the header up to that length. Both count bytes.
#[derive(Clone, Copy, Debug, PartialEq, Eq)]
pub enum Error {
    /// A packet has under 12 bytes, which its header takes (RFC 4960 3.1).
    ErrPacketRawTooSmall,
    /// Bytes 8 to 11 of a packet, the lowest byte first, are not its checksum (RFC 4960 6.8).
    ErrChecksumMismatch,
    /// In the walk over a packet's chunks one to three bytes are left, or fewer than a chunk takes with
    /// its padding (RFC 4960 3.2); or `PartialDecode::unmarshal` finds under four bytes after the header.
    ErrParseSctpChunkNotEnoughData,
    /// A chunk has another type than 0 to 11, 14, 130, 192 and 194, which `ChunkKind`
    /// reads (RFC 4960 3.2). A packet with such a chunk is refused whole.
    ErrUnmarshalUnknownChunkType,
    /// `check_packet`: the source port is 0 (RFC 4960 3.1).
    ErrSctpPacketSourcePortZero,
    /// `check_packet`: the destination port is 0 (RFC 4960 3.1).
    ErrSctpPacketDestinationPortZero,
    /// `check_packet`: an INIT shares its packet with other chunks (RFC 4960 6.10). An INIT-ACK or a
    /// SHUTDOWN-COMPLETE that does passes, though RFC 4960 6.10 forbids it too.
    ErrInitChunkBundled,
    /// `check_packet`: a packet with an INIT has a verification tag other than 0 (RFC 4960 8.5.1).
    ErrInitChunkVerifyTagNotZero,
    /// From the chunk on there are under four bytes, which its header takes (RFC 4960 3.2).
    ErrChunkHeaderTooSmall,
    /// A chunk's length is under four: it counts the header (RFC 4960 3.2).
    ErrChunkHeaderInvalidLength,
    /// A chunk's length passes the bytes that are there (RFC 4960 3.2).
    ErrChunkHeaderNotEnoughSpace,
    /// After a chunk's length come one to three bytes, and one of them is not zero
    /// (RFC 4960 3.2). Where four or more follow, padding is not looked at.
    ErrChunkHeaderPaddingNonZero,
    /// `ChunkAbort::unmarshal`: the type is not 6 (RFC 4960 3.3.7).
    ErrChunkTypeNotAbort,
    /// `ChunkCookieAck::unmarshal`: the type is not 11 (RFC 4960 3.3.12).
    ErrChunkTypeNotCookieAck,
    /// `ChunkCookieEcho::unmarshal`: the type is not 10 (RFC 4960 3.3.11).
    ErrChunkTypeNotCookieEcho,
    /// `ChunkError::unmarshal`: the type is not 9 (RFC 4960 3.3.10).
    ErrChunkTypeNotCt,
    /// `ChunkForwardTsn::unmarshal`: the type is not 192 (RFC 3758 3.2);
    /// `ChunkIForwardTsn::unmarshal`: it is not 194 (RFC 8260 2.3.1).
    ErrChunkTypeNotForwardTsn,
    /// `ChunkHeartbeat::unmarshal`: the type is not 4 (RFC 4960 3.3.5).
    ErrChunkTypeNotHeartbeat,
    /// `ChunkHeartbeatAck::unmarshal`: the type is not 5 (RFC 4960 3.3.6).
    ErrChunkTypeNotHeartbeatAck,
    /// `ChunkInit::unmarshal`: the type is neither 1 nor 2 (RFC 4960 3.3.2, 3.3.3).
    ErrChunkTypeNotTypeInit,
    /// `ChunkPayloadData::unmarshal`: the type is not 0 (RFC 4960 3.3.1).
    ErrChunkTypeNotPayloadData,
    /// `ChunkReconfig::unmarshal`: the type is not 130 (RFC 6525 3.1).
    ErrChunkTypeNotReconfig,
    /// `ChunkSelectiveAck::unmarshal`: the type is not 3 (RFC 4960 3.3.4).
    ErrChunkTypeNotSack,
    /// `ChunkShutdown::unmarshal`: the type is not 7 (RFC 4960 3.3.8).
    ErrChunkTypeNotShutdown,
    /// `ChunkShutdownAck::unmarshal`: the type is not 8 (RFC 4960 3.3.9).
    ErrChunkTypeNotShutdownAck,
    /// `ChunkShutdownComplete::unmarshal`: the type is not 14 (RFC 4960 3.3.13).
    ErrChunkTypeNotShutdownComplete,
    /// The value of a FORWARD-TSN (RFC 3758 3.2), I-FORWARD-TSN (RFC 8260 2.3.1) or
    /// RECONFIG (RFC 6525 3.1) has under four bytes, or the pairs of a FORWARD-TSN
    /// are followed by one to three; or a `ChunkForwardTsnStream` has under four.
    ErrChunkTooShort,
    /// A DATA chunk's value has under 12 bytes, which stand before the user data (RFC 4960 3.3.1).
    ErrChunkPayloadSmall,
    /// The value of an INIT or INIT-ACK has under 16 bytes (RFC 4960 3.3.2); in
    /// `PartialDecode::unmarshal`, under the four of the initiate tag.
    ErrChunkValueNotLongEnough,
    /// An INIT or INIT-ACK has flags other than 0. RFC 4960 3.3.2 has a receiver ignore them; here the chunk is refused.
    ErrChunkTypeInitFlagZero,
    /// `ChunkInit::check`: the initiate tag is 0 (RFC 4960 3.3.2).
    ErrChunkTypeInitInitiateTagZero,
    /// `ChunkInit::check`: the number of inbound streams is 0 (RFC 4960 3.3.2).
    ErrInitInboundStreamRequestZero,
    /// `ChunkInit::check`: the number of outbound streams is 0 (RFC 4960 3.3.2).
    ErrInitOutboundStreamRequestZero,
    /// `ChunkInit::check`: the credit is under 1,500 bytes (RFC 4960 6).
    ErrInitAdvertisedReceiver1500,
    /// The value of a HEARTBEAT or HEARTBEAT-ACK has under four bytes, which the
    /// header of its parameter takes (RFC 4960 3.3.5, 3.3.6).
    ErrHeartbeatNotLongEnoughInfo,
    /// The parameter of a HEARTBEAT or HEARTBEAT-ACK can be read, and its type is not 1 (RFC 4960 3.3.5).
    ErrHeartbeatParam,
    /// A HEARTBEAT-ACK that is to be written has no parameter, or more than one (RFC 4960 3.3.6).
    ErrHeartbeatAckParams,
    /// The one parameter of a HEARTBEAT-ACK that is to be written is no Heartbeat Info (RFC 4960 3.3.6).
    ErrHeartbeatAckNotHeartbeatInfo,
    /// A RECONFIG that is to be written or is checked has no first parameter (RFC 6525 3.1).
    ErrChunkReconfigInvalidParamA,
    /// `ChunkReconfig::check`: its two parameters' types may not stand together (RFC 6525 3.1).
    ErrChunkReconfigInvalidParamCombination,
    /// The value of a SACK has under 12 bytes, or fewer than 12 and four for each
    /// of the blocks and duplicates that it counts (RFC 4960 3.3.4).
    ErrSackSizeNotLargeEnoughInfo,
    /// The value of a SHUTDOWN has not exactly four bytes (RFC 4960 3.3.8).
    ErrInvalidChunkSize,
    /// An error cause has under four bytes, a length under four, or a length past
    /// the bytes that are there (RFC 4960 3.3.10).
    ErrErrorCauseTooSmall,
    /// A parameter has under four bytes, a length under four, or a length past the
    /// bytes that are there (RFC 4960 3.2.1).
    ErrParamHeaderTooShort,
    /// A parameter of type `typ` is of no kind, and the type's highest bit is not
    /// set: reading is to stop (RFC 4960 3.2.1).
    ErrParamTypeUnhandled { typ: u16 },
    /// `ParamChunkList::unmarshal`: the type is not 32771 (RFC 4895 3.2).
    ErrParamTypeUnexpected,
    /// The value of an Outgoing SSN Reset Request has under 12 bytes (RFC 6525 4.1).
    ErrSsnResetRequestParamTooShort,
    /// The value of an Outgoing SSN Reset Request has 12 bytes or more, an odd number of them (RFC 6525 4.1).
    ErrSsnResetRequestParamInvalidLength,
    /// The value of a Re-configuration Response has under eight bytes (RFC 6525 4.4).
    ErrReconfigRespParamTooShort,
    /// A Requested HMAC Algorithm names another number than 1 or 3 (RFC 4895 3.3).
    ErrInvalidAlgorithmType,
    /// The value of a Supported Address Types has an odd number of bytes (RFC 4960 3.3.2.1).
    ErrSupportedAddressTypesParamInvalidLength,
    /// The bytes held of its message and those of the DATA chunk that came are together more than `max_message_size` of the reassembly
    /// queue.
    ErrInboundPacketTooLarge,
    /// `Chunks::read`: the message is longer than the buffer, which is filled with the message's beginning.
    ErrShortBuffer,
    /// A chunk, parameter or error cause would be longer with its header than
    /// 65,535 bytes, which two bytes can declare (RFC 4960 3.2, 3.2.1, 3.3.10).
    ErrLengthTooLarge,
    /// A growth was refused. Cloning or slicing a `Bytes` may be one.
    ErrOutOfMemory,
}

/// What a call gives, or its refusal.
pub type Result<T> = std::result::Result<T, Error>;

/// Prints the name, as `{:?}` does.
impl fmt::Display for Error {
    fn fmt<W: fmt::Write>(&self, f: &mut fmt::Formatter<W>) -> fmt::Result {
        write!(f, "{self:?}")
    }
}

impl std::error::Error for Error {}

/// Want of memory is `ErrOutOfMemory`.
impl From<AllocError> for Error {
    ghost from_gives = { λ _ e. e ≡ ErrOutOfMemory };

    fn from(_e: AllocError) -> Error {
        Error::ErrOutOfMemory
    }
}

/// The same, where the value that did not fit comes back and is dropped.
impl<T: Drop> From<AllocFailed<T>> for Error {
    ghost from_gives = { λ _ e. e ≡ ErrOutOfMemory };

    fn from(_e: AllocFailed<T>) -> Error {
        Error::ErrOutOfMemory
    }
}
