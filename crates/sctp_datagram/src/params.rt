//! Parameters of any type, read where they lie (RFC 9260 3.2.1).

ghost use Rattle.std.specs.Prelude.{◌≡◌, ◌+◌, ◌≤◌, IfOk, IfErr, length, drop};
ghost use Rattle.sctp_util.specs.declared.error.Error.TheVariants.{ErrParamHeaderTooShort};
ghost use Rattle.sctp_params.specs.ParamFraming.{IsParam};
ghost use Rattle.sctp_datagram.specs.Params as params;
ghost use Rattle.sctp_datagram.specs.Params.{TellsParam};

use sctp_params::param::param_header::PARAM_HEADER_LENGTH;
use sctp_util::error::{Error, Result};
use sctp_util::field::read_u16;
use sctp_util::util::get_padding_size;

/// Where a parameter lies: its value is `length` bytes from `at` on, and the next parameter begins at `next`.
#[derive(Clone, Copy, Debug, PartialEq, Eq)]
pub struct ParamPlace {
    pub typ: u16,
    pub at: usize,
    pub length: usize,
    pub next: usize,
}

/// Whether the reading of a chunk stops at a parameter of a type, where the reader does not know it.
pub fn is_stopping(typ: u16) -> bool
    ensures { result ≡ params.is_stopping typ }
{
    typ < 0x8000
}

/// Whether the sender of a parameter of a type is told of it, where the reader does not know it.
pub fn is_reported(typ: u16) -> bool
    ensures { result ≡ params.is_reported typ }
{
    typ % 0x8000 >= 0x4000
}

/// Reads the header of the parameter that begins at a place, of any type and with any value. Refuses with `ErrParamHeaderTooShort`,
/// exactly where none begins there. It takes no memory, and costs the same for any value.
pub fn param_at(bytes: &[u8], at: usize) -> Result<ParamPlace>
    ensures read { IfOk result (TellsParam bytes.now at) }
    // A walk from one parameter to the next one moves on, and stays in the bytes.
    ensures next { IfOk result (λ p. (at + 4 ≤ p.next) × (p.next ≤ length bytes.now)) }
    ensures fault { IfErr result
        (λ e. (e ≡ ErrParamHeaderTooShort) × (IsParam (drop at bytes.now) → ⊥)) }
{
    let left = bytes.len().saturating_sub(at);
    if left < PARAM_HEADER_LENGTH {
        return Err(Error::ErrParamHeaderTooShort);
    }
    let rest = &bytes[at..];
    let length = read_u16(rest, 2) as usize;
    if length < PARAM_HEADER_LENGTH || left < length {
        return Err(Error::ErrParamHeaderTooShort);
    }
    let padded = length + get_padding_size(length);
    Ok(ParamPlace {
        typ: read_u16(rest, 0),
        at: at + PARAM_HEADER_LENGTH,
        length: length - PARAM_HEADER_LENGTH,
        next: at + padded.min(left),
    })
}
