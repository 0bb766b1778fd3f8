//! The cookie of an INIT-ACK (RFC 4960 3.3.3.1).

ghost use Rattle.std.specs.Prelude.{◌≡◌, IfOk, IsOkUnless};
ghost use Rattle.sctp_util.specs.declared.error.Error.TheVariants.{ErrOutOfMemory};
ghost use Rattle.sctp_params.specs.Param.{state_cookie};
ghost use Rattle.sctp_params.specs.ParamKinds.{IsStateCookie};
ghost use Rattle.sctp_params.specs.ParamFault.{ParamHeaderFault};

use super::Param;
use super::param_header::share_param;
use super::param_type::ParamType;
use bytes::{Bytes, BytesMut};
use sctp_util::error::Result;
use std::alloc::Global;
use std::fmt;

/// What the peer sends back in its COOKIE-ECHO (RFC 4960 3.3.3.1, type 7). The value is the cookie's bytes.
#[derive(Debug, Drop, PartialEq, Eq)]
pub struct ParamStateCookie {
    pub cookie: Bytes,
}

impl fmt::Display for ParamStateCookie {
    fn fmt<W: fmt::Write>(&self, f: &mut fmt::Formatter<W>) -> fmt::Result {
        write!(f, "{}: {:?}", self.param_type(), self.cookie)
    }
}

impl ParamStateCookie {
    /// A cookie of these 32 bytes, which the caller is to draw at random: there is
    /// no random source here. Refuses only for memory.
    pub fn new(alloc: Global, cookie: [u8; 32]) -> Result<Self>
        ensures ok { IfOk result (λ p. p.cookie ≡ cookie) }
        ensures memory { IsOkUnless result ErrOutOfMemory }
    {
        Ok(ParamStateCookie {
            cookie: Bytes::copy_from_slice(alloc, &cookie)?,
        })
    }
}

#[tactic(auto, using(crate::proofs::ParamOne::state_cookie_one))]
impl Param for ParamStateCookie {
    ghost wire = { λ p. state_cookie p.cookie };

    ghost IsKind = { IsStateCookie };

    ghost fault = { ParamHeaderFault };

    fn unmarshal(_alloc: Global, raw: &Bytes) -> Result<Self> {
        let (_header, cookie) = share_param(raw)?;
        Ok(ParamStateCookie { cookie })
    }

    fn param_type(&self) -> ParamType {
        ParamType::StateCookie
    }

    fn value_length(&self) -> usize {
        self.cookie.len()
    }

    fn put_value(&self, buf: &mut BytesMut) {
        buf.extend_reserved(&self.cookie);
    }

    fn try_clone(&self, _alloc: Global) -> Result<Self> {
        Ok(ParamStateCookie {
            cookie: self.cookie.clone()?,
        })
    }
}
