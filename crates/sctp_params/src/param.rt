//! Parameters (RFC 4960 3.2.1): a type and a length, two bytes each, and a value.
//! The length counts its four header bytes and the value, not the padding behind it.

ghost use Rattle.std.specs.Prelude.{◌≡◌, ◌+◌, ◌≤◌, ◌<◌, ◌^◌, ◌++◌, ◌⊎◌, ℕ, List, length, IfOk, IfErr, OnErr, IsOkUnless};
ghost use Rattle.sctp_util.specs.declared.error.Error.{Error};
ghost use Rattle.sctp_util.specs.declared.error.Error.TheVariants.{ErrOutOfMemory, ErrLengthTooLarge};
ghost use Rattle.sctp_util.specs.Outcome.{OrMemory, GivesUnlessMemory};
ghost use Rattle.sctp_params.specs.Param.{Parameter, Reads, ReadsBack, HasOwnType, HasParamEncoding, chunk_type_numbers, chunk_types, param_encoding, param_type_of, param_value_of};

pub mod param_chunk_list;
pub mod param_forward_tsn_supported;
pub mod param_header;
pub mod param_heartbeat_info;
pub mod param_kind;
pub mod param_outgoing_reset_request;
pub mod param_random;
pub mod param_reconfig_response;
pub mod param_requested_hmac_algorithm;
pub mod param_state_cookie;
pub mod param_supported_address_types;
pub mod param_supported_extensions;
pub mod param_type;
pub mod param_unknown;

use bytes::{Bytes, BytesMut};
use param_header::{PARAM_HEADER_LENGTH, ParamHeader, put_header};
use param_type::ParamType;
use sctp_util::error::Result;
use sctp_util::util::ChunkType;
use std::alloc::Global;
use std::fmt;

/// What every kind of parameter can do. Values and lengths count bytes, without padding.
pub trait Param {
    // the wire part
    ghost wire: { Self → Parameter };

    // the parameters that a type number is read as
    ghost IsKind: { ℕ → Parameter → Type 0 };

    // what must stand in the bytes for a refusal
    ghost fault: { Error → List ℕ → Type 0 };

    /// Reads the parameter that the bytes begin with. It ends at its declared length; what stands behind
    /// belongs to whoever reads next. Of the single kinds only `ParamChunkList` tests the type number.
    /// Refuses with `ErrParamHeaderTooShort`, with the kind's own error, or for memory.
    fn unmarshal(alloc: Global, raw: &Bytes) -> Result<Self>
    where
        Self: Sized,
        ensures found { IfOk result (λ p. Reads IsKind raw.now (wire p)) }
        ensures only { (p : Parameter)
            → Reads IsKind raw.now p → GivesUnlessMemory result (λ q. wire q ≡ p) }
        ensures fault { IfErr result (λ e. OrMemory e (fault e raw.now)) }
        ensures again { IfOk result (λ p. ReadsBack HasOwnType (wire p)) };

    /// The type by which the kind is written; of a `ParamUnknown` it is `ParamType::Unknown`, also where its number has a name.
    fn param_type(&self) -> ParamType
        ensures { result ≡ param_type_of (wire self.now) };

    /// The length of the value, in bytes, also where it is too long to be declared.
    fn value_length(&self) -> usize
        ensures { result ≡ length (param_value_of (wire self.now)) };

    /// Appends the value. It takes no memory.
    /// Precondition: the parameter has an encoding (its length can be declared), and the buffer has room for the value.
    fn put_value(&self, buf: &mut BytesMut)
        requires encoding { HasParamEncoding (wire self.now) }
        requires room { length (param_value_of (wire self.now)) ≤ buf.old.spare }
        ensures items { buf.new.items ≡ buf.old.items ++ param_value_of (wire self.now) }
        ensures spare { buf.new.spare + length (param_value_of (wire self.now)) ≡ buf.old.spare };

    /// An equal parameter: a `Bytes` is shared, a list is copied. Refuses only for memory.
    fn try_clone(&self, alloc: Global) -> Result<Self>
    where
        Self: Sized,
        ensures ok { IfOk result (λ p. wire p ≡ wire self.now) }
        ensures memory { IsOkUnless result ErrOutOfMemory };

    /// The header that the parameter is written with. Refuses with `ErrLengthTooLarge`,
    /// exactly where four bytes and the value are more than 65,535.
    fn header(&self) -> Result<ParamHeader>
        ensures ok { IfOk result (λ h. HasParamEncoding (wire self.now)
            × (h.typ ≡ param_type_of (wire self.now))
            × (h.value_length ≡ length (param_value_of (wire self.now)))) }
        ensures err { IfErr result (λ e. (e ≡ ErrLengthTooLarge)
            × (HasParamEncoding (wire self.now) → ⊥)) }
    {
        ParamHeader::of(self.param_type(), self.value_length())
    }

    /// Appends the parameter, with no padding. It takes no memory.
    /// Precondition: the parameter has an encoding, and the buffer has room for four bytes and the value.
    #[tactic(auto, unfolding(crate::specs::Param::param_encoding))]
    fn put(&self, buf: &mut BytesMut)
        requires encoding { HasParamEncoding (wire self.now) }
        requires room { 4 + length (param_value_of (wire self.now)) ≤ buf.old.spare }
        ensures items { buf.new.items ≡ buf.old.items ++ param_encoding (wire self.now) }
        ensures spare { buf.new.spare + (4 + length (param_value_of (wire self.now)))
            ≡ buf.old.spare }
    {
        put_header(buf, self.param_type(), self.value_length());
        self.put_value(buf);
    }

    /// Appends the parameter, with no padding, and answers the buffer's length.
    /// Refuses with `ErrLengthTooLarge` as `header` does, or for memory where the
    /// buffer lacked room. The buffer's bytes are as they were then.
    fn marshal_to(&self, buf: &mut BytesMut) -> Result<usize>
        ensures ok { IfOk result (λ n. HasParamEncoding (wire self.now)
            × (buf.new.items ≡ buf.old.items ++ param_encoding (wire self.now))
            × (n ≡ length buf.new.items)) }
        ensures err { OnErr result (buf.new.items ≡ buf.old.items) }
        ensures refused { IfErr result
            (λ e. ((e ≡ ErrLengthTooLarge) × (HasParamEncoding (wire self.now) → ⊥))
            ⊎ ((e ≡ ErrOutOfMemory) × HasParamEncoding (wire self.now)
            × (buf.old.spare < 4 + length (param_value_of (wire self.now))))) }
    {
        let header = self.header()?;
        buf.reserve(PARAM_HEADER_LENGTH + header.value_length())?;
        self.put(buf);
        Ok(buf.len())
    }

    /// The parameter as bytes, with no padding. Refuses with `ErrLengthTooLarge` as `header` does, or for memory.
    fn marshal(&self, alloc: Global) -> Result<Bytes>
        ensures ok { IfOk result (λ b. HasParamEncoding (wire self.now)
            × (b ≡ param_encoding (wire self.now))) }
        ensures refused { IfErr result
            (λ e. ((e ≡ ErrLengthTooLarge) × (HasParamEncoding (wire self.now) → ⊥))
            ⊎ ((e ≡ ErrOutOfMemory) × HasParamEncoding (wire self.now))) }
    {
        let mut buf = BytesMut::new(alloc);
        self.marshal_to(&mut buf)?;
        Ok(buf.freeze()?)
    }
}

/// Reads chunk types, one in a byte. Refuses only for memory.
fn read_chunk_types(alloc: Global, value: &[u8]) -> Result<Vec<ChunkType>>
    ensures ok { IfOk result (λ v. v.items ≡ chunk_types value.now) }
    ensures memory { IsOkUnless result ErrOutOfMemory }
{
    Ok(value.iter().map(|b| ChunkType(*b)).collect(alloc)?)
}

/// Appends chunk types, one in a byte.
/// Precondition: the buffer has room for them.
fn put_chunk_types(buf: &mut BytesMut, types: &[ChunkType])
    requires { length types.now ≤ buf.old.spare }
    ensures items { buf.new.items ≡ buf.old.items ++ chunk_type_numbers types.now }
    ensures spare { buf.new.spare + length types.now ≡ buf.old.spare }
{
    for typ in types {
        buf.extend_reserved(&[typ.0]);
    }
}

/// Prints items with a space between one another.
fn write_joined<T: fmt::Display, W: fmt::Write>(
    f: &mut fmt::Formatter<W>,
    items: &[T],
) -> fmt::Result {
    for (i, item) in items.iter().enumerate() {
        if i > 0 {
            f.write_str(" ")?;
        }
        write!(f, "{item}")?;
    }
    Ok(())
}
