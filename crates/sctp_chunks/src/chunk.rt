//! The kinds of chunk (RFC 4960 3.2): a type, flags, a length of two bytes, and a value.
//! The length counts the four header bytes and the value, not the padding behind it.

ghost use Rattle.std.specs.Prelude.{◌≡◌, ◌+◌, ◌^◌, ◌≤◌, ◌<◌, ◌++◌, ◌⊎◌, ℕ, List, length, min, IfOk, IfErr, OnOk, OnErr};
ghost use Rattle.sctp_util.specs.declared.error.Error.{Error};
ghost use Rattle.sctp_util.specs.declared.error.Error.TheVariants.{ErrOutOfMemory, ErrLengthTooLarge};
ghost use Rattle.sctp_chunks.specs.Wire.{Wire, ReadsChunk, HasForm, HasLength, HasEncoding, encoding_of, type_of, flags_of, value_of};
ghost use Rattle.sctp_chunks.specs.Fits.{Fits, Canonical};
ghost use Rattle.sctp_chunks.specs.Check.{IsChecked, CheckFault, FormFault, EncodingFault};
ghost use Rattle.sctp_util.specs.Outcome.{OrMemory, GivesUnlessMemory};

pub mod chunk_abort;
pub mod chunk_cookie_ack;
pub mod chunk_cookie_echo;
pub mod chunk_error;
pub mod chunk_forward_tsn;
pub mod chunk_header;
pub mod chunk_heartbeat;
pub mod chunk_heartbeat_ack;
pub mod chunk_i_forward_tsn;
pub mod chunk_init;
pub mod chunk_kind;
pub mod chunk_payload_data;
pub mod chunk_reconfig;
pub mod chunk_selective_ack;
pub mod chunk_shutdown;
pub mod chunk_shutdown_ack;
pub mod chunk_shutdown_complete;
pub mod error_cause;
mod params;

use bytes::{Bytes, BytesMut};
use chunk_header::{ChunkHeader, put_header};
use sctp_util::error::Result;
pub use sctp_util::util::ChunkType;
use std::alloc::Global;

/// What every kind of chunk can do. Values and lengths count bytes, without the padding behind the chunk.
pub trait Chunk {
    // the wire part
    ghost wire: { Self → Wire };

    // the chunks of this kind
    ghost IsKind: { Wire → Type 0 };

    // as reading gives it: what the sender alone keeps of a chunk is not set
    ghost IsFresh: { Self → Type 0 };

    // what must stand in the bytes for a refusal
    ghost fault: { Error → List ℕ → Type 0 };

    /// Reads the chunk that the bytes begin with. They are all that follow from the chunk
    /// on: where one to three stand behind its length, they are tested as its padding.
    /// Refuses with an error of the header (`ChunkHeader::unmarshal`), the kind's
    /// `ErrChunkTypeNot..`, its own for a value at fault, or for memory.
    fn unmarshal(alloc: Global, raw: &Bytes) -> Result<Self>
    where
        Self: Sized,
        ensures found { IfOk result (λ c. ReadsChunk raw.now (wire c)) }
        ensures only { (w : Wire) → IsKind w → ReadsChunk raw.now w
            → GivesUnlessMemory result (λ c. wire c ≡ w) }
        ensures fault { IfErr result (λ e. OrMemory e (fault e raw.now)) }
        ensures rewritable { IfOk result (λ c. HasEncoding (wire c)) }
        ensures canonical { IfOk result (λ c. Canonical (wire c)) }
        ensures fresh { IfOk result (λ c. IsFresh c) };

    /// The length of the value, in bytes, up to the greatest `usize`.
    fn value_length(&self) -> usize
        ensures { result ≡ min (length (value_of (wire self.now))) usize.MAX };

    /// The number of the kind.
    fn chunk_type(&self) -> ChunkType
        ensures { result.0 ≡ type_of (wire self.now) };

    /// The flags that the chunk is written with: 0 but for DATA.
    fn flags(&self) -> u8
        ensures { result ≡ flags_of (wire self.now) };

    /// Appends the value. It takes no memory.
    /// Precondition: the chunk has an encoding (`check_form` and `header` accept it),
    /// and the buffer has room for the value.
    fn put_value(&self, buf: &mut BytesMut)
        requires encoding { HasEncoding (wire self.now) }
        requires room { length (value_of (wire self.now)) ≤ buf.old.spare }
        ensures items { buf.new.items ≡ buf.old.items ++ value_of (wire self.now) }
        ensures spare { buf.new.spare + length (value_of (wire self.now)) ≡ buf.old.spare }
        ensures fits { Fits (wire self.now) };

    /// Whether the values are allowed. Only INIT (RFC 4960 3.3.2, 6) and RECONFIG (RFC 6525 3.1) ask
    /// for something; the first rule that is broken is named. Neither reading nor writing asks for it.
    fn check(&self) -> Result<()>
        ensures ok { OnOk result (IsChecked (wire self.now)) }
        ensures err { IfErr result (λ e. CheckFault e (wire self.now)) };

    /// Whether the kind has an encoding for the chunk, its length apart. Only HEARTBEAT-ACK asks for something
    /// (`ErrHeartbeatAckParams`, `ErrHeartbeatAckNotHeartbeatInfo`), and RECONFIG (`ErrChunkReconfigInvalidParamA`).
    fn check_form(&self) -> Result<()>
        ensures ok { OnOk result (HasForm (wire self.now)) }
        ensures err { IfErr result (λ e. FormFault e (wire self.now)) };

    /// The header that the chunk is written with. Refuses with `ErrLengthTooLarge`,
    /// exactly where four bytes and the value are more than 65,535.
    fn header(&self) -> Result<ChunkHeader>
        ensures ok { IfOk result (λ h. HasLength (wire self.now)
            × (h.typ.0 ≡ type_of (wire self.now))
            × (h.flags ≡ flags_of (wire self.now))
            × (h.value_length ≡ length (value_of (wire self.now)))) }
        ensures err { IfErr result (λ e. (e ≡ ErrLengthTooLarge)
            × (HasLength (wire self.now) → ⊥)) }
    {
        ChunkHeader::of(self.chunk_type(), self.flags(), self.value_length())
    }

    /// Appends the chunk, with no padding, and answers the buffer's length.
    /// Refuses as `check_form` and then `header` do, or for memory where the buffer
    /// lacked room. The buffer's bytes are as they were then.
    #[tactic(auto, using(crate::proofs::AgainKinds::encoding_again))]
    fn marshal_to(&self, buf: &mut BytesMut) -> Result<usize>
        ensures ok { IfOk result (λ n. HasEncoding (wire self.now)
            × (buf.new.items ≡ buf.old.items ++ encoding_of (wire self.now))
            × (n ≡ length buf.new.items)) }
        ensures spare { OnOk result
            (buf.old.spare ≤ buf.new.spare + (4 + length (value_of (wire self.now)))) }
        ensures fits { OnOk result (Fits (wire self.now)) }
        // What is written of a chunk that was read reads back, as does every encoding of DATA, SACK and FORWARD-TSN.
        ensures reads_back { Canonical (wire self.now)
            → OnOk result (ReadsChunk (encoding_of (wire self.now)) (wire self.now)) }
        ensures err { OnErr result (buf.new.items ≡ buf.old.items) }
        ensures refused { IfErr result (λ e. EncodingFault e (wire self.now)
            ⊎ ((e ≡ ErrOutOfMemory) × HasEncoding (wire self.now)
            × (buf.old.spare < 4 + length (value_of (wire self.now))))) }
    {
        self.check_form()?;
        put_header(buf, self.chunk_type(), self.flags(), self.value_length())?;
        self.put_value(buf);
        Ok(buf.len())
    }

    /// The chunk as bytes, with no padding. Refuses as `check_form` and then `header` do, or for memory.
    fn marshal(&self, alloc: Global) -> Result<Bytes>
        ensures ok { IfOk result (λ b. HasEncoding (wire self.now)
            × (b ≡ encoding_of (wire self.now))) }
        ensures refused { IfErr result (λ e. EncodingFault e (wire self.now)
            ⊎ ((e ≡ ErrOutOfMemory) × HasEncoding (wire self.now))) }
    {
        let mut buf = BytesMut::new(alloc);
        self.marshal_to(&mut buf)?;
        Ok(buf.freeze()?)
    }
}
