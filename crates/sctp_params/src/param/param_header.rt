//! The header that every parameter begins with (RFC 4960 3.2.1).

ghost use Rattle.std.specs.Prelude.{◌≡◌, ◌+◌, ◌⊎◌, ◌≤◌, ◌<◌, ◌^◌, ◌++◌, Some, OnErr, IfOk, IfErr, length, slice_range};
ghost use Rattle.sctp_util.specs.declared.error.Error.TheVariants.{ErrOutOfMemory, ErrLengthTooLarge};
ghost use Rattle.sctp_util.specs.Field.{be16, AreBytes};
ghost use Rattle.sctp_util.specs.Outcome.{OrMemory};
ghost use Rattle.sctp_params.specs.ParamType.{type_number, type_from, type_name};
ghost use Rattle.sctp_params.specs.ParamFraming.{IsParam, IsParamValue, param_type_at, param_declared_length, param_value_at};
ghost use Rattle.sctp_params.specs.ParamFault.{ParamHeaderFault};

use super::param_type::ParamType;
use bytes::{Bytes, BytesMut};
use sctp_util::error::{Error, Result};
use sctp_util::field::{put_u16, read_u16};
use std::alloc::Global;
use std::fmt;

/// The bytes of a header: type and length, two each.
pub const PARAM_HEADER_LENGTH: usize = 4;

/// What a parameter is, and how many bytes its value has (RFC 4960 3.2.1). The
/// length that is written counts the header's four bytes too.
#[derive(Clone, Copy, Debug, PartialEq, Eq)]
pub struct ParamHeader {
    pub typ: ParamType,
    pub value_length: u16,
}

impl fmt::Display for ParamHeader {
    ghost output = { λ h. Some (type_name h.typ) };

    fn fmt<W: fmt::Write>(&self, f: &mut fmt::Formatter<W>) -> fmt::Result {
        write!(f, "{}", self.typ)
    }
}

impl ParamHeader {
    /// The header of a parameter with a value of so many bytes. Refuses with
    /// `ErrLengthTooLarge`, exactly where four bytes and the value are more than 65,535.
    pub fn of(typ: ParamType, value_length: usize) -> Result<Self>
        ensures ok { IfOk result (λ h. (4 + value_length < 2 ^ 16)
            × (h.typ ≡ typ) × (h.value_length ≡ value_length)) }
        ensures err { IfErr result (λ e. (e ≡ ErrLengthTooLarge) × (2 ^ 16 ≤ 4 + value_length)) }
    {
        if value_length > u16::MAX as usize - PARAM_HEADER_LENGTH {
            return Err(Error::ErrLengthTooLarge);
        }
        Ok(ParamHeader {
            typ,
            value_length: value_length as u16,
        })
    }

    /// Reads the header of the parameter that the bytes begin with. Refuses with `ErrParamHeaderTooShort`,
    /// where there are under four bytes, the length is under four, or it passes the bytes.
    pub fn unmarshal(raw: &Bytes) -> Result<Self>
        ensures is_param { IfOk result (λ h. IsParam raw.now) }
        ensures fields { IfOk result (λ h. (h.typ ≡ type_from (param_type_at raw.now))
            × (4 + h.value_length ≡ param_declared_length raw.now)) }
        ensures short { IfOk result (λ h. 4 + h.value_length < 2 ^ 16) }
        ensures fault { IfErr result (λ e. ParamHeaderFault e raw.now) }
    {
        let raw = raw.as_slice();
        if raw.len() < PARAM_HEADER_LENGTH {
            return Err(Error::ErrParamHeaderTooShort);
        }
        let length = read_u16(raw, 2);
        if length < PARAM_HEADER_LENGTH as u16 || raw.len() < length as usize {
            return Err(Error::ErrParamHeaderTooShort);
        }
        Ok(ParamHeader {
            typ: read_u16(raw, 0).into(),
            value_length: length - PARAM_HEADER_LENGTH as u16,
        })
    }

    /// The length of the value, in bytes.
    pub fn value_length(&self) -> usize
        ensures { result ≡ self.now.value_length }
    {
        self.value_length as usize
    }

    /// Appends the header, and answers the buffer's length.
    /// Refuses with `ErrLengthTooLarge` as `of` does, or for memory where the
    /// buffer lacked room for four bytes. The buffer's bytes are as they were then.
    pub fn marshal_to(&self, buf: &mut BytesMut) -> Result<usize>
        ensures ok { IfOk result (λ n. (4 + self.now.value_length < 2 ^ 16)
            × (buf.new.items ≡ buf.old.items ++
            (be16 (type_number self.now.typ) ++ be16 (4 + self.now.value_length)))
            × (n ≡ length buf.new.items)) }
        ensures err { OnErr result (buf.new.items ≡ buf.old.items) }
        ensures refused { IfErr result
            (λ e. ((e ≡ ErrLengthTooLarge) × (2 ^ 16 ≤ 4 + self.now.value_length))
            ⊎ ((e ≡ ErrOutOfMemory) × (4 + self.now.value_length < 2 ^ 16) × (buf.old.spare < 4))) }
    {
        let value_length = self.value_length();
        if value_length > u16::MAX as usize - PARAM_HEADER_LENGTH {
            return Err(Error::ErrLengthTooLarge);
        }
        buf.reserve(PARAM_HEADER_LENGTH)?;
        put_header(buf, self.typ, value_length);
        Ok(buf.len())
    }

    /// The header as bytes. Refuses with `ErrLengthTooLarge` as `of` does, or for memory.
    pub fn marshal(&self, alloc: Global) -> Result<Bytes>
        ensures ok { IfOk result (λ b. (4 + self.now.value_length < 2 ^ 16)
            × (b ≡ be16 (type_number self.now.typ) ++ be16 (4 + self.now.value_length))) }
        ensures refused { IfErr result
            (λ e. ((e ≡ ErrLengthTooLarge) × (2 ^ 16 ≤ 4 + self.now.value_length))
            ⊎ ((e ≡ ErrOutOfMemory) × (4 + self.now.value_length < 2 ^ 16))) }
    {
        let mut buf = BytesMut::new(alloc);
        self.marshal_to(&mut buf)?;
        Ok(buf.freeze()?)
    }
}

/// Appends the header of a parameter with a value of so many bytes. It takes no memory.
/// Precondition: four bytes and the value are at most 65,535, and the buffer has room for four bytes.
pub fn put_header(buf: &mut BytesMut, typ: ParamType, value_length: usize)
    requires encoding { 4 + value_length < 2 ^ 16 }
    requires room { 4 ≤ buf.old.spare }
    ensures items { buf.new.items
        ≡ buf.old.items ++ (be16 (type_number typ) ++ be16 (4 + value_length)) }
    ensures spare { buf.new.spare + 4 ≡ buf.old.spare }
{
    put_u16(buf, typ.into());
    put_u16(buf, (PARAM_HEADER_LENGTH + value_length) as u16);
}

/// Lends the value that follows a header.
/// Precondition: it lies within the bytes.
fn lend_value(raw: &[u8], value_length: usize) -> &[u8]
    requires { PARAM_HEADER_LENGTH + value_length ≤ length raw.now }
    ensures value { result.now
        ≡ slice_range raw.now PARAM_HEADER_LENGTH (PARAM_HEADER_LENGTH + value_length) }
    ensures bytes { AreBytes result.now }
{
    &raw[PARAM_HEADER_LENGTH..PARAM_HEADER_LENGTH + value_length]
}

/// Reads the header of a parameter, and lends its value. Refuses as
/// `ParamHeader::unmarshal` does, and takes no memory.
#[tactic(auto, unfolding(crate::specs::ParamFraming::param_value_at))]
pub fn open_param(raw: &Bytes) -> Result<(ParamHeader, &[u8])>
    ensures is_param { IfOk result (λ x. IsParam raw.now) }
    ensures typ { IfOk result (λ x. x.0.typ ≡ type_from (param_type_at raw.now)) }
    ensures value { IfOk result (λ x. x.1.now ≡ param_value_at raw.now) }
    ensures has_value { IfOk result (λ x. IsParamValue (param_value_at raw.now)) }
    ensures fault { IfErr result (λ e. ParamHeaderFault e raw.now) }
{
    let header = ParamHeader::unmarshal(raw)?;
    let value = lend_value(raw.as_slice(), header.value_length());
    Ok((header, value))
}

/// Reads the header of a parameter, and shares its value. Refuses as `ParamHeader::unmarshal` does, or for memory.
#[tactic(auto, unfolding(crate::specs::ParamFraming::param_value_at))]
pub fn share_param(raw: &Bytes) -> Result<(ParamHeader, Bytes)>
    ensures is_param { IfOk result (λ x. IsParam raw.now) }
    ensures typ { IfOk result (λ x. x.0.typ ≡ type_from (param_type_at raw.now)) }
    ensures value { IfOk result (λ x. x.1 ≡ param_value_at raw.now) }
    ensures has_value { IfOk result (λ x. IsParamValue (param_value_at raw.now)) }
    ensures fault { IfErr result (λ e. OrMemory e (ParamHeaderFault e raw.now)) }
{
    let (header, value) = open_param(raw)?;
    let end = PARAM_HEADER_LENGTH + value.len();
    Ok((header, raw.slice(PARAM_HEADER_LENGTH..end)?))
}
