//! FORWARD-TSN: TSNs that will not be sent again.

ghost use Rattle.std.specs.Prelude.{◌≡◌, ◌+◌, ◌<◌, ◌≤◌, ◌++◌, length, IfOk, IfErr, OnErr, IsOkUnless};
ghost use Rattle.sctp_util.specs.declared.error.Error.TheVariants.{ErrOutOfMemory, ErrChunkTooShort};
ghost use Rattle.sctp_data.specs.ForwardTsn.{FitsStream, stream_at, stream_encoding};

use bytes::{Bytes, BytesMut};
use sctp_util::error::{Error, Result};
use sctp_util::field::{put_u16, read_u16};
use sctp_util::util::CT_FORWARD_TSN;
use std::alloc::Global;
use std::fmt;

/// The bytes of the new cumulative TSN, which stands before the pairs.
pub const NEW_CUMULATIVE_TSN_LENGTH: usize = 4;

/// The bytes of a pair: stream and sequence number, two each.
pub const FORWARD_TSN_STREAM_LENGTH: usize = 4;

/// A stream, and the greatest stream sequence number that is skipped on it (RFC 3758 3.2). Its
/// receiver can deliver what waited for the skipped messages. Unordered messages have no pair.
#[derive(Clone, Copy, Debug, PartialEq, Eq)]
pub struct ChunkForwardTsnStream {
    /// The stream.
    pub identifier: u16,
    /// The stream sequence number of the last message that is skipped.
    pub sequence: u16,
}

impl fmt::Display for ChunkForwardTsnStream {
    fn fmt<W: fmt::Write>(&self, f: &mut fmt::Formatter<W>) -> fmt::Result {
        write!(f, "{}, {}", self.identifier, self.sequence)
    }
}

impl ChunkForwardTsnStream {
    /// Reads the pair that the bytes begin with. It has no chunk header. Refuses
    /// under four bytes with `ErrChunkTooShort`.
    pub fn unmarshal(raw: &Bytes) -> Result<Self>
        ensures ok { IfOk result (λ s. (4 ≤ length raw.now) × (s ≡ stream_at raw.now 0)) }
        ensures err { IfErr result (λ e. (e ≡ ErrChunkTooShort) × (length raw.now < 4)) }
    {
        if raw.len() < FORWARD_TSN_STREAM_LENGTH {
            return Err(Error::ErrChunkTooShort);
        }
        Ok(read_stream(raw.as_slice(), 0))
    }

    /// The length of the pair: four bytes.
    pub fn value_length(&self) -> usize
        ensures { result ≡ length (stream_encoding self.now) }
    {
        FORWARD_TSN_STREAM_LENGTH
    }

    /// Appends the pair, and answers the buffer's length.
    /// Refuses only for memory, where the buffer lacked room for four bytes. Its bytes are as they were then.
    pub fn marshal_to(&self, buf: &mut BytesMut) -> Result<usize>
        ensures ok { IfOk result (λ n. (buf.new.items ≡ buf.old.items ++ stream_encoding self.now)
            × (n ≡ length buf.new.items)) }
        ensures err { OnErr result (buf.new.items ≡ buf.old.items) }
        ensures refused { IfErr result (λ e. (e ≡ ErrOutOfMemory) × (buf.old.spare < 4)) }
    {
        buf.reserve(FORWARD_TSN_STREAM_LENGTH)?;
        self.put(buf);
        Ok(buf.len())
    }

    /// The pair as four bytes. Refuses only for memory.
    pub fn marshal(&self, alloc: Global) -> Result<Bytes>
        ensures ok { IfOk result (λ b. b ≡ stream_encoding self.now) }
        ensures memory { IsOkUnless result ErrOutOfMemory }
    {
        let mut buf = BytesMut::new(alloc);
        self.marshal_to(&mut buf)?;
        Ok(buf.freeze()?)
    }

    /// Appends the pair.
    /// Precondition: the buffer has room for four bytes.
    pub fn put(&self, buf: &mut BytesMut)
        requires { 4 ≤ buf.old.spare }
        ensures items { buf.new.items ≡ buf.old.items ++ stream_encoding self.now }
        ensures spare { buf.new.spare + 4 ≡ buf.old.spare }
        ensures fits { FitsStream self.now }
    {
        put_u16(buf, self.identifier);
        put_u16(buf, self.sequence);
    }
}

/// The pair that stands at a place.
/// Precondition: there are four bytes from there on.
pub fn read_stream(bytes: &[u8], at: usize) -> ChunkForwardTsnStream
    requires { at + 4 ≤ length bytes.now }
    ensures { result ≡ stream_at bytes.now at }
{
    ChunkForwardTsnStream {
        identifier: read_u16(bytes, at),
        sequence: read_u16(bytes, at + 2),
    }
}

/// The sender gave messages up: the receiver is to take every TSN up to this one as received, and no
/// longer to report it as missing, and on the named streams every message up to the sequence number
/// beside it as skipped (RFC 3758 3.2, type 192). The value is the TSN, then the pairs, at most 16,381.
/// Refuses another type with `ErrChunkTypeNotForwardTsn`, a value of under four
/// bytes, or with one to three behind the pairs, with `ErrChunkTooShort`.
#[derive(Debug, Drop)]
pub struct ChunkForwardTsn {
    /// The last TSN that is to count as received.
    pub new_cumulative_tsn: u32,
    /// The streams on which ordered messages are skipped.
    pub streams: Vec<ChunkForwardTsnStream>,
}

impl fmt::Display for ChunkForwardTsn {
    fn fmt<W: fmt::Write>(&self, f: &mut fmt::Formatter<W>) -> fmt::Result {
        write!(
            f,
            "{}\nNew Cumulative TSN: {}",
            CT_FORWARD_TSN, self.new_cumulative_tsn
        )?;
        for s in &self.streams {
            write!(f, "\n - si={}, ssn={}", s.identifier, s.sequence)?;
        }
        Ok(())
    }
}
