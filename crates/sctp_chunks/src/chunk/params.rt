//! Parameters one behind the other, as INIT, HEARTBEAT and RECONFIG carry them.

ghost use Rattle.std.specs.Prelude.{◌≡◌, ◌<◌, ◌≤◌, ◌+◌, ◌-◌, ◌++◌, ◌||◌, ◌==◌, List, length, map, drop, min, ◌^◌, IfOk, IfErr};
ghost use Rattle.sctp_util.specs.Outcome.{OrMemory, GivesUnlessMemory};
ghost use Rattle.sctp_params.specs.ParamFraming.{after_param};
ghost use Rattle.sctp_params.specs.Param.{Parameter, ReadsBack, param_value_of};
ghost use Rattle.sctp_params.specs.ParamKind.{IsReadAs, ReadsParam, ParamFault, parameter_of};
ghost use Rattle.sctp_chunks.specs.Params.{ReadsParams, ReadBack, ParamsFault, padded_param, params_encoding, gap};

use bytes::{Bytes, BytesMut};
use sctp_params::param::Param;
use sctp_params::param::param_header::PARAM_HEADER_LENGTH;
use sctp_params::param::param_kind::{ParamKind, build_param};
use sctp_util::error::Result;
use sctp_util::field::read_u16;
use sctp_util::util::get_padding_size;
use std::alloc::Global;

/// Reads the parameter at the front, and how many bytes it takes with the padding
/// that stands there: the last one's may be missing. Refuses as `build_param` does.
#[tactic(auto, using(std::proofs::lemmas::List::drop_min), unfolding(sctp_params::specs::ParamFraming::after_param))]
pub fn read_param(alloc: Global, rest: &Bytes) -> Result<(ParamKind, usize)>
    ensures found { IfOk result (λ x. ReadsParam rest.now (parameter_of x.0)) }
    ensures again { IfOk result (λ x. ReadsBack IsReadAs (parameter_of x.0)) }
    ensures within { IfOk result (λ x. (4 ≤ x.1) × (x.1 ≤ length rest.now)) }
    ensures after { IfOk result (λ x. drop x.1 rest.now ≡ after_param rest.now) }
    ensures only { (p : Parameter)
        → ReadsParam rest.now p → GivesUnlessMemory result (λ x. parameter_of x.0 ≡ p) }
    ensures fault { IfErr result (λ e. OrMemory e (ParamFault e rest.now)) }
{
    let param = build_param(alloc, rest)?;
    let length = read_u16(rest.as_slice(), 2) as usize;
    let length = length + get_padding_size(length);
    Ok((param, length.min(rest.len())))
}

/// Reads parameters up to where fewer than four bytes are left. Refuses as `build_param` does.
pub fn read_params(alloc: Global, raw: Bytes) -> Result<Vec<ParamKind>>
    ensures found { IfOk result (λ v. ReadsParams raw (map parameter_of v.items)) }
    ensures again { IfOk result (λ v. ReadBack (map parameter_of v.items)) }
    ensures only { (ps : List Parameter)
        → ReadsParams raw ps → GivesUnlessMemory result (λ v. map parameter_of v.items ≡ ps) }
    ensures fault { IfErr result (λ e. OrMemory e (ParamsFault e raw)) }
{
    let mut params = Vec::new(alloc);
    let mut rest = raw;
    'walk: while rest.len() >= PARAM_HEADER_LENGTH {
        let (param, length) = read_param(alloc, &rest)?;
        params.push(param)?;
        rest.advance(length);
    }
    Ok(params)
}

/// How many zeros follow a parameter: 0 to 3, and none where it is to stand bare.
pub fn gap_after(param: &ParamKind, bare: bool) -> usize
    ensures { result ≡ gap bare (4 + length (param_value_of (parameter_of param.now))) }
{
    if bare {
        0
    } else {
        // The header takes four bytes, which need no padding of their own.
        get_padding_size(param.value_length())
    }
}

/// Appends a parameter, with its padding unless it is to stand bare. It takes no memory.
/// Precondition: that is under 65,536 bytes, and the buffer has room for them.
#[tactic(auto, using(crate::proofs::ParamsEncoding::length_padded_param, sctp_params::proofs::ParamLengths::length_param_encoding, crate::proofs::ParamsEncoding::padded_is))]
pub fn put_param(buf: &mut BytesMut, param: &ParamKind, bare: bool)
    requires encoding { length (padded_param bare (parameter_of param.now)) < 2 ^ 16 }
    requires room { length (padded_param bare (parameter_of param.now)) ≤ buf.old.spare }
    ensures items { buf.new.items ≡ buf.old.items ++ padded_param bare (parameter_of param.now) }
    ensures spare { buf.new.spare + length (padded_param bare (parameter_of param.now))
        ≡ buf.old.spare }
{
    param.put(buf);
    let padding = gap_after(param, bare);
    buf.extend_reserved(&[0, 0, 0, 0][..padding]);
}

/// Whether the parameter at a place stands bare: all do, or the last one.
/// Precondition: the place is one of them.
fn stands_bare(bare: bool, i: usize, count: usize) -> bool
    requires { i < count }
    ensures { result ≡ (bare || i + 1 == count) }
{
    bare || i + 1 == count
}

/// Appends parameters, padded to multiples of four between one another, or all bare: the
/// padding of the last is none of the chunk's length (RFC 4960 3.2). It takes no memory.
/// Precondition: that is under 65,536 bytes, and the buffer has room for them.
pub fn put_params(buf: &mut BytesMut, params: &[ParamKind], bare: bool)
    requires encoding { length (params_encoding bare (map parameter_of params.now)) < 2 ^ 16 }
    requires room { length (params_encoding bare (map parameter_of params.now)) ≤ buf.old.spare }
    ensures items { buf.new.items
        ≡ buf.old.items ++ params_encoding bare (map parameter_of params.now) }
    ensures spare { buf.new.spare + length (params_encoding bare (map parameter_of params.now))
        ≡ buf.old.spare }
{
    for i in 0..params.len() {
        put_param(buf, &params[i], stands_bare(bare, i, params.len()));
    }
}

/// The length of a parameter as it is written, in bytes, up to the greatest `usize`.
#[tactic(auto, using(crate::proofs::ParamsEncoding::length_padded_param))]
pub fn param_length(param: &ParamKind, bare: bool) -> usize
    ensures { result ≡ min (length (padded_param bare (parameter_of param.now))) usize.MAX }
{
    let own = PARAM_HEADER_LENGTH.saturating_add(param.value_length());
    own.saturating_add(gap_after(param, bare))
}

/// The length of the parameters as they are written, in bytes, up to the greatest `usize`.
pub fn params_length(params: &[ParamKind], bare: bool) -> usize
    ensures { result ≡ min (length (params_encoding bare (map parameter_of params.now))) usize.MAX }
{
    let mut length = 0usize;
    for i in 0..params.len() {
        let own = param_length(&params[i], stands_bare(bare, i, params.len()));
        length = length.saturating_add(own);
    }
    length
}
