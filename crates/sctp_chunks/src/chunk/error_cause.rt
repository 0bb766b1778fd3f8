//! Error causes, which ABORT and ERROR carry (RFC 4960 3.3.10).

ghost use Rattle.std.specs.Prelude.{◌≡◌, ◌+◌, ◌^◌, ◌<◌, ◌≤◌, ◌++◌, ◌⊎◌, List, length, min, drop, IfOk, IfErr, OnErr};
ghost use Rattle.std.specs.List.{AllByRecursion};
ghost use Rattle.sctp_util.specs.Outcome.{OrMemory, GivesUnlessMemory};
ghost use Rattle.sctp_util.specs.declared.error.Error.TheVariants.{ErrOutOfMemory, ErrLengthTooLarge, ErrErrorCauseTooSmall};
ghost use Rattle.sctp_chunks.specs.declared.chunk.error_cause.ErrorCause.{ErrorCause};
ghost use Rattle.sctp_chunks.specs.ErrorCause.{IsCause, ReadsCause, ReadsCauses, HasCauseEncoding, after_cause, cause_encoding, causes_encoding};
ghost use Rattle.sctp_chunks.specs.Fault.{CausesFault};
ghost use Rattle.sctp_chunks.specs.Fits.{FitsCause};

use bytes::{Bytes, BytesMut};
pub use sctp_data::chunk::error_cause::{
    COOKIE_RECEIVED_WHILE_SHUTTING_DOWN, ErrorCauseCode, INVALID_MANDATORY_PARAMETER,
    INVALID_STREAM_IDENTIFIER, MISSING_MANDATORY_PARAMETER, NO_USER_DATA, OUT_OF_RESOURCE,
    PROTOCOL_VIOLATION, RESTART_OF_AN_ASSOCIATION_WITH_NEW_ADDRESSES, STALE_COOKIE_ERROR,
    UNRECOGNIZED_CHUNK_TYPE, UNRECOGNIZED_PARAMETERS, UNRESOLVABLE_ADDRESS, USER_INITIATED_ABORT,
};
use sctp_util::error::{Error, Result};
use sctp_util::field::{put_u16, read_u16};
use std::alloc::Global;
use std::fmt;

/// The bytes before the value of a cause: code and length, two each.
pub const ERROR_CAUSE_HEADER_LENGTH: usize = 4;

/// What went wrong: a code, and what is said of it (RFC 4960 3.3.10).
#[derive(Debug, Drop)]
pub struct ErrorCause {
    pub code: ErrorCauseCode,
    /// The value, without the header.
    pub raw: Bytes,
}

/// A cause with the code 7 (RFC 4960 3.3.10.7): a name for `ErrorCause`, which does not test the code.
pub type ErrorCauseInvalidMandatoryParameter = ErrorCause;

/// A cause with the code 6 (RFC 4960 3.3.10.6): a name for `ErrorCause`, which does not test the code.
pub type ErrorCauseUnrecognizedChunkType = ErrorCause;

/// A cause with the code 13 (RFC 4960 3.3.10.13): a name for `ErrorCause`, which does not test the code.
pub type ErrorCauseProtocolViolation = ErrorCause;

impl fmt::Display for ErrorCause {
    fn fmt<W: fmt::Write>(&self, f: &mut fmt::Formatter<W>) -> fmt::Result {
        write!(f, "{}", self.code)
    }
}

impl ErrorCause {
    /// Reads the cause that the bytes begin with. It ends at its declared length.
    /// Refuses with `ErrErrorCauseTooSmall`, where there are under four bytes, the
    /// length is under four, or it passes the bytes; or for memory.
    #[tactic(auto, unfolding(crate::specs::ErrorCause::cause_value_at))]
    pub fn unmarshal(raw: &Bytes) -> Result<Self>
        ensures found { IfOk result (λ c. ReadsCause raw.now c) }
        ensures only { (c : ErrorCause)
            → ReadsCause raw.now c → GivesUnlessMemory result (λ d. d ≡ c) }
        ensures fault { IfErr result
            (λ e. OrMemory e ((e ≡ ErrErrorCauseTooSmall) × (IsCause raw.now → ⊥))) }
    {
        let bytes = raw.as_slice();
        if bytes.len() < ERROR_CAUSE_HEADER_LENGTH {
            return Err(Error::ErrErrorCauseTooSmall);
        }
        let length = read_u16(bytes, 2) as usize;
        if length < ERROR_CAUSE_HEADER_LENGTH || bytes.len() < length {
            return Err(Error::ErrErrorCauseTooSmall);
        }
        Ok(ErrorCause {
            code: ErrorCauseCode(read_u16(bytes, 0)),
            raw: raw.slice(ERROR_CAUSE_HEADER_LENGTH..length)?,
        })
    }

    /// The length of the cause with its header, in bytes.
    pub fn length(&self) -> usize
        ensures value { result ≡ 4 + length self.now.raw }
        ensures bound { result < 2 ^ 63 + 4 }
    {
        ERROR_CAUSE_HEADER_LENGTH + self.raw.len()
    }

    /// The code.
    pub fn error_cause_code(&self) -> ErrorCauseCode
        ensures { result ≡ self.now.code }
    {
        self.code
    }

    /// Appends the cause, and answers the buffer's length.
    /// Refuses with `ErrLengthTooLarge`, exactly where the cause has more than 65,535
    /// bytes, or for memory where the buffer lacked room. Its bytes are as they were then.
    pub fn marshal_to(&self, buf: &mut BytesMut) -> Result<usize>
        ensures ok { IfOk result (λ n. HasCauseEncoding self.now
            × (buf.new.items ≡ buf.old.items ++ cause_encoding self.now)
            × (n ≡ length buf.new.items)) }
        ensures err { OnErr result (buf.new.items ≡ buf.old.items) }
        ensures refused { IfErr result (λ e. ((e ≡ ErrLengthTooLarge)
            × (HasCauseEncoding self.now → ⊥))
            ⊎ ((e ≡ ErrOutOfMemory) × HasCauseEncoding self.now
            × (buf.old.spare < 4 + length self.now.raw))) }
    {
        if self.length() > u16::MAX as usize {
            return Err(Error::ErrLengthTooLarge);
        }
        buf.reserve(self.length())?;
        self.put(buf);
        Ok(buf.len())
    }

    /// The cause as bytes. Refuses with `ErrLengthTooLarge`, exactly where it has more than 65,535, or for memory.
    pub fn marshal(&self, alloc: Global) -> Result<Bytes>
        ensures ok { IfOk result (λ b. HasCauseEncoding self.now × (b ≡ cause_encoding self.now)) }
        ensures refused { IfErr result (λ e. ((e ≡ ErrLengthTooLarge)
            × (HasCauseEncoding self.now → ⊥))
            ⊎ ((e ≡ ErrOutOfMemory) × HasCauseEncoding self.now)) }
    {
        let mut buf = BytesMut::new(alloc);
        self.marshal_to(&mut buf)?;
        Ok(buf.freeze()?)
    }

    /// Appends the cause.
    /// Precondition: it has at most 65,535 bytes, and the buffer has room for them.
    #[tactic(auto, unfolding(crate::specs::ErrorCause::cause_encoding))]
    fn put(&self, buf: &mut BytesMut)
        requires encoding { HasCauseEncoding self.now }
        requires room { 4 + length self.now.raw ≤ buf.old.spare }
        ensures items { buf.new.items ≡ buf.old.items ++ cause_encoding self.now }
        ensures spare { buf.new.spare + (4 + length self.now.raw) ≡ buf.old.spare }
        ensures fits { FitsCause self.now }
    {
        put_u16(buf, self.code.0);
        put_u16(buf, self.length() as u16);
        buf.extend_reserved(&self.raw);
    }
}

/// Reads the cause at the front, and how many bytes it takes. Refuses as `ErrorCause::unmarshal` does.
#[tactic(auto, unfolding(crate::specs::ErrorCause::after_cause))]
fn read_cause(rest: &Bytes) -> Result<(ErrorCause, usize)>
    ensures found { IfOk result (λ x. ReadsCause rest.now x.0) }
    ensures within { IfOk result (λ x. (4 ≤ x.1) × (x.1 ≤ length rest.now)) }
    ensures after { IfOk result (λ x. drop x.1 rest.now ≡ after_cause rest.now) }
    ensures only { (c : ErrorCause)
        → ReadsCause rest.now c → GivesUnlessMemory result (λ x. x.0 ≡ c) }
    ensures fault { IfErr result
        (λ e. OrMemory e ((e ≡ ErrErrorCauseTooSmall) × (IsCause rest.now → ⊥))) }
{
    let cause = ErrorCause::unmarshal(rest)?;
    let length = read_u16(rest.as_slice(), 2) as usize;
    Ok((cause, length))
}

/// Reads causes one behind the other, with no padding between them, up to where
/// fewer than four bytes are left. Refuses as `ErrorCause::unmarshal` does.
pub fn read_causes(alloc: Global, raw: Bytes) -> Result<Vec<ErrorCause>>
    ensures found { IfOk result (λ v. ReadsCauses raw v.items) }
    ensures only { (cs : List ErrorCause)
        → ReadsCauses raw cs → GivesUnlessMemory result (λ v. v.items ≡ cs) }
    ensures fault { IfErr result (λ e. OrMemory e (CausesFault e raw)) }
{
    let mut causes = Vec::new(alloc);
    let mut rest = raw;
    'walk: while rest.len() >= ERROR_CAUSE_HEADER_LENGTH {
        let (cause, length) = read_cause(&rest)?;
        causes.push(cause)?;
        rest.advance(length);
    }
    Ok(causes)
}

/// The length of the causes as they are written, in bytes, up to the greatest `usize`.
pub fn causes_length(causes: &[ErrorCause]) -> usize
    ensures { result ≡ min (length (causes_encoding causes.now)) usize.MAX }
{
    let mut total = 0usize;
    for cause in causes {
        total = total.saturating_add(cause.length());
    }
    total
}

/// Appends causes. It takes no memory.
/// Precondition: they have under 65,536 bytes, and the buffer has room for them.
pub fn put_causes(buf: &mut BytesMut, causes: &[ErrorCause])
    requires encoding { length (causes_encoding causes.now) < 2 ^ 16 }
    requires room { length (causes_encoding causes.now) ≤ buf.old.spare }
    ensures items { buf.new.items ≡ buf.old.items ++ causes_encoding causes.now }
    ensures spare { buf.new.spare + length (causes_encoding causes.now) ≡ buf.old.spare }
    ensures fits { AllByRecursion FitsCause causes.now }
{
    for cause in causes {
        cause.put(buf);
    }
}
