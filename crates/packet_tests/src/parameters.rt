//! A caller of `sctp_base`.

ghost use Rattle.std.specs.Prelude.{IfOk, IfSome};
ghost use Rattle.sctp_params.specs.Param.{state_cookie};
ghost use Rattle.sctp_params.specs.ParamKind.{ReadsParam};

use bytes::Bytes;
use sctp_base::error::Result;
use sctp_base::param::param_kind::{ParamKind, build_param};
use std::alloc::Global;

/// The cookie, where the bytes begin with a State Cookie parameter (RFC 4960 3.3.3.1).
pub fn cookie_in(alloc: Global, raw: &Bytes) -> Result<Option<Bytes>>
    ensures { IfOk result
        (λ found. IfSome found (λ cookie. ReadsParam raw.now (state_cookie cookie))) }
{
    match build_param(alloc, raw)? {
        ParamKind::StateCookie(param) => Ok(Some(param.cookie)),
        _ => Ok(None),
    }
}
