//! What the parameters of a chunk show, one behind the other, read or raw.

ghost use Rattle.std.specs.Prelude.{◌≡◌, ◌↔◌, ◌++◌, List, IsTrue, IfOk};
ghost use Rattle.std.specs.List.{flat_map};
ghost use Rattle.sctp_util.specs.Walk.{Walks};
ghost use Rattle.sctp_params.specs.Param.{Parameter};
ghost use Rattle.sctp_params.specs.ParamFraming.{IsParam, after_param};
ghost use Rattle.sctp_params.specs.ParamKind.{ReadsParam, ParamFault};
ghost use Rattle.sctp_dissect.specs.Params.{param_span, IsRawParam, ReadsAsParam, ShowsParam, param_bytes};

use bytes::Bytes;
use sctp_params::param::param_header::PARAM_HEADER_LENGTH;
use sctp_params::param::param_kind::{ParamKind, build_param};
use sctp_util::error::Error;
use sctp_util::field::read_u16;
use sctp_util::util::get_padding_size;
use std::alloc::{AllocError, Global};

/// A parameter that is refused by the reader of parameters.
#[derive(Debug, Drop)]
pub struct RawParam {
    pub typ: u16,
    /// The length that the parameter declares: four bytes of header, and its value.
    pub length: u16,
    pub value: Bytes,
    /// Why it is refused.
    pub refusal: Error,
}

/// What a parameter is read as.
#[derive(Debug, Drop)]
pub enum ParamReading {
    /// As `build_param` reads it.
    Strict(ParamKind),
    /// As it stands, where `build_param` refuses it.
    Raw(RawParam),
}

/// A parameter and its bytes.
#[derive(Debug, Drop)]
pub struct ParamItem {
    /// The parameter's bytes, and those of its padding that are there.
    pub bytes: Bytes,
    pub reading: ParamReading,
}

/// What bytes show as parameters.
#[derive(Debug, Drop)]
pub struct Params {
    pub items: Vec<ParamItem>,
    /// The bytes behind the last parameter: they begin with no parameter.
    pub rest: Bytes,
}

/// Whether the bytes begin with a parameter, all of it by the length that it declares.
fn is_param(rest: &[u8]) -> bool
    ensures { IsTrue result ↔ IsParam rest.now }
{
    if rest.len() < PARAM_HEADER_LENGTH {
        return false;
    }
    let length = read_u16(rest, 2) as usize;
    PARAM_HEADER_LENGTH <= length && length <= rest.len()
}

/// The parameter at the front, which is refused.
#[tactic(auto, unfolding(sctp_params::specs::ParamFraming::param_value_at))]
fn read_raw_param(rest: &Bytes, refusal: Error) -> Result<RawParam, AllocError>
    requires whole { IsParam rest.now }
    requires refusal { ParamFault refusal rest.now }
    requires refused { (p : Parameter) → ReadsParam rest.now p → ⊥ }
    ensures { IfOk result (IsRawParam rest.now) }
{
    let bytes = rest.as_slice();
    let length = read_u16(bytes, 2);
    Ok(RawParam {
        typ: read_u16(bytes, 0),
        length,
        value: rest.slice(PARAM_HEADER_LENGTH..length as usize)?,
        refusal,
    })
}

/// What the parameter at the front is read as.
fn read_param(alloc: Global, rest: &Bytes) -> Result<ParamReading, AllocError>
    requires { IsParam rest.now }
    ensures { IfOk result (ReadsAsParam rest.now) }
{
    match build_param(alloc, rest) {
        Ok(param) => Ok(ParamReading::Strict(param)),
        Err(Error::ErrOutOfMemory) => Err(AllocError),
        Err(refusal) => Ok(ParamReading::Raw(read_raw_param(rest, refusal)?)),
    }
}

/// The parameter at the front, and its bytes.
#[tactic(auto, unfolding(crate::specs::Params::param_span))]
fn read_param_item(alloc: Global, rest: &Bytes) -> Result<ParamItem, AllocError>
    requires { IsParam rest.now }
    ensures { IfOk result (ShowsParam rest.now) }
{
    let reading = read_param(alloc, rest)?;
    let length = read_u16(rest.as_slice(), 2) as usize;
    let mut bytes = rest.clone()?;
    bytes.truncate(length + get_padding_size(length));
    Ok(ParamItem { bytes, reading })
}

/// Looks at bytes as parameters, each padded to a multiple of four (RFC 4960 3.2.1), up to where none begins. The bytes are a value
/// from its first parameter on: of an INIT or INIT-ACK from byte 16. The only refusal is for memory.
pub fn dissect_params(alloc: Global, raw: Bytes) -> Result<Params, AllocError>
    // Nothing is lost, and nothing shown twice.
    ensures joins { IfOk result (λ p. flat_map param_bytes p.items.items ++ p.rest ≡ raw) }
    ensures items { IfOk result (λ p. Walks ShowsParam after_param raw p.items.items p.rest) }
    ensures ended { IfOk result (λ p. IsParam p.rest → ⊥) }
{
    let mut items = Vec::new(alloc);
    let mut rest = raw;
    'walk: while is_param(rest.as_slice()) {
        let item = read_param_item(alloc, &rest)?;
        let length = item.bytes.len();
        items.push(item)?;
        rest.advance(length);
    }
    Ok(Params { items, rest })
}
