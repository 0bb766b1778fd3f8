//! The address types that a sender supports (RFC 4960 3.3.2.1).

ghost use Rattle.std.specs.Prelude.{◌≡◌, ◌+◌, ◌*◌, ◌≤◌, ◌++◌, length, IfOk, IsOkUnless};
ghost use Rattle.std.specs.List.{flat_map};
ghost use Rattle.sctp_util.specs.declared.error.Error.TheVariants.{ErrOutOfMemory};
ghost use Rattle.sctp_util.specs.Field.{u16_at};
ghost use Rattle.sctp_util.specs.Each.{each};
ghost use Rattle.sctp_params.specs.ParamType.{type_from};
ghost use Rattle.sctp_params.specs.AddressTypes.{type_encoding};
ghost use Rattle.sctp_params.specs.Param.{supported_address_types};
ghost use Rattle.sctp_params.specs.ParamKinds.{IsSupportedAddressTypes};
ghost use Rattle.sctp_params.specs.ParamFault.{AddressTypesFault};

use super::Param;
use super::param_header::open_param;
use super::param_type::ParamType;
use bytes::{Bytes, BytesMut};
use sctp_util::error::{Error, Result};
use sctp_util::field::{put_u16, read_u16};
use std::alloc::Global;
use std::fmt;

/// The types of the address parameters that the sender of an INIT can use
/// (RFC 4960 3.3.2.1, type 12). The value is two bytes for each.
/// Refuses a value of an odd number of bytes with `ErrSupportedAddressTypesParamInvalidLength`.
#[derive(Debug, Drop, PartialEq, Eq)]
pub struct ParamSupportedAddressTypes {
    pub address_types: Vec<ParamType>,
}

impl fmt::Display for ParamSupportedAddressTypes {
    fn fmt<W: fmt::Write>(&self, f: &mut fmt::Formatter<W>) -> fmt::Result {
        write!(f, "{}", self.param_type())?;
        for typ in &self.address_types {
            write!(f, " {typ}")?;
        }
        Ok(())
    }
}

/// Reads so many types, two bytes each. Refuses only for memory.
/// Precondition: they are there.
#[tactic(auto, using(sctp_util::proofs::EachAt::each_none, sctp_util::proofs::EachAt::each_next))]
fn read_types(alloc: Global, value: &[u8], count: usize) -> Result<Vec<ParamType>>
    requires { 2 * count ≤ length value.now }
    ensures ok { IfOk result (λ v. v.items
        ≡ each count (λ i. type_from (u16_at value.now (2 * i)))) }
    ensures memory { IsOkUnless result ErrOutOfMemory }
{
    let mut types = Vec::new(alloc);
    for i in 0..count {
        types.push(ParamType::from(read_u16(value, 2 * i)))?;
    }
    Ok(types)
}

/// Appends the numbers of types, two bytes each.
/// Precondition: the buffer has room for them.
fn put_param_types(buf: &mut BytesMut, types: &[ParamType])
    requires { 2 * length types.now ≤ buf.old.spare }
    ensures items { buf.new.items ≡ buf.old.items ++ flat_map type_encoding types.now }
    ensures spare { buf.new.spare + 2 * length types.now ≡ buf.old.spare }
{
    for typ in types {
        put_u16(buf, (*typ).into());
    }
}

#[tactic(auto, using(crate::proofs::ParamOne::supported_address_types_one, crate::proofs::ParamLengths::length_address_types_value))]
impl Param for ParamSupportedAddressTypes {
    ghost wire = { λ p. supported_address_types p.address_types.items };

    ghost IsKind = { IsSupportedAddressTypes };

    ghost fault = { AddressTypesFault };

    fn unmarshal(alloc: Global, raw: &Bytes) -> Result<Self> {
        let (_header, value) = open_param(raw)?;
        if value.len() % 2 != 0 {
            return Err(Error::ErrSupportedAddressTypesParamInvalidLength);
        }
        let address_types = read_types(alloc, value, value.len() / 2)?;
        Ok(ParamSupportedAddressTypes { address_types })
    }

    fn param_type(&self) -> ParamType {
        ParamType::SupportedAddrTypes
    }

    fn value_length(&self) -> usize {
        2 * self.address_types.as_slice().len()
    }

    #[tactic(auto, using(crate::proofs::ParamLengths::length_address_types_value), unfolding(crate::specs::AddressTypes::address_types_value))]
    fn put_value(&self, buf: &mut BytesMut) {
        put_param_types(buf, &self.address_types);
    }

    fn try_clone(&self, alloc: Global) -> Result<Self> {
        Ok(ParamSupportedAddressTypes {
            address_types: Vec::from_slice(alloc, &self.address_types)?,
        })
    }
}
