//! Cookies: how they are made, opened, and found to be too old.

ghost use Rattle.std.specs.Prelude.{◌≡◌, ◌-◌, ◌<◌, ◌^◌, ◌↔◌, ℕ, List, IsTrue, IfOk, IfSome, IsSomeAnd, IsOkUnless};
ghost use Rattle.sctp_util.specs.declared.error.Error.TheVariants.{ErrOutOfMemory};
ghost use Rattle.sctp_cookie.specs.Cookie.{sealed};

use crate::mac::{CODE_LENGTH, KEY_LENGTH, Mac};
use bytes::{Bytes, BytesMut};
use sctp_util::error::Result;
use sctp_util::util::constant_time_eq;
use std::alloc::Global;

/// The bytes of the moment, which a cookie begins with.
const MOMENT_LENGTH: usize = 8;

/// A cookie with the moment at which it is made and a payload (RFC 9260 5.1.3): 40 bytes more than the payload, which anyone can read in
/// it. Refuses only for memory.
pub fn seal<M: Mac>(
    alloc: Global,
    mac: &M,
    key: &[u8; KEY_LENGTH],
    moment: u64,
    payload: &[u8],
) -> Result<Bytes>
    ensures ok { IfOk result
        (λ cookie. cookie ≡ sealed (M.code_of mac.now key.now) moment payload.now) }
    ensures memory { IsOkUnless result ErrOutOfMemory }
{
    let mut buf = BytesMut::with_capacity(
        alloc,
        payload.len().saturating_add(MOMENT_LENGTH + CODE_LENGTH),
    )?;
    buf.extend_from_slice(&u64::to_be_bytes(moment))?;
    buf.extend_from_slice(payload)?;
    let code = mac.code(key, buf.as_slice());
    buf.extend_from_slice(&code)?;
    Ok(buf.freeze()?)
}

/// The moment and the payload of a cookie that was sealed under this key (RFC 9260 5.1.5), None of any other bytes. The payload is lent
/// from the cookie, and all bytes of the code are compared.
pub fn open<'a, M: Mac>(
    mac: &M,
    key: &[u8; KEY_LENGTH],
    cookie: &'a [u8],
) -> Option<(u64, &'a [u8])>
    ensures found { IfSome result
        (λ it. cookie.now ≡ sealed (M.code_of mac.now key.now) it.0 it.1.now) }
    ensures only { (moment : ℕ) (payload : List ℕ) → moment < 2 ^ 64
        → cookie.now ≡ sealed (M.code_of mac.now key.now) moment payload
        → IsSomeAnd result (λ it. (it.0 ≡ moment) × (it.1.now ≡ payload)) }
{
    let (content, code) = cookie.split_last_chunk::<CODE_LENGTH>()?;
    let (moment, payload) = content.split_first_chunk::<MOMENT_LENGTH>()?;
    if !constant_time_eq(&mac.code(key, content), code) {
        return None;
    }
    Some((u64::from_be_bytes(*moment), payload))
}

/// Whether a cookie made at `moment` is older than `life` now (RFC 9260 5.1.5), the three in one unit. One that was made after `now`, as
/// when a clock went back, is not.
pub fn is_stale(moment: u64, now: u64, life: u64) -> bool
    ensures { IsTrue result ↔ (life < now - moment) }
{
    now.saturating_sub(moment) > life
}
