//! Callers of `sctp_cookie`: a responder that opens the cookie of a COOKIE ECHO, and one that sees that it opens what it sealed.

ghost use Rattle.std.specs.Prelude.{◌≡◌, ◌-◌, ◌≤◌, ℕ, true, IfOk, IfSome};
ghost use Rattle.sctp_cookie.specs.Cookie.{sealed};

use sctp_cookie::{Mac, is_stale, open, seal};
use sctp_util::error::Result;
use std::alloc::Global;

/// What a COOKIE ECHO gives back, if its cookie was sealed under the key and is not older than `life` (RFC 9260 5.1.5).
pub fn given_back<'a, M: Mac>(
    mac: &M,
    key: &[u8; 32],
    cookie: &'a [u8],
    now: u64,
    life: u64,
) -> Option<&'a [u8]>
    ensures { IfSome result (λ payload. (moment : ℕ) × (now - moment ≤ life)
        × (cookie.now ≡ sealed (M.code_of mac.now key.now) moment payload.now)) }
{
    let (moment, payload) = open(mac, key, cookie)?;
    if is_stale(moment, now, life) {
        return None;
    }
    Some(payload)
}

/// Whether what was sealed is opened as it was: always, under each code.
pub fn is_opened<M: Mac>(
    alloc: Global,
    mac: &M,
    key: &[u8; 32],
    moment: u64,
    payload: &[u8],
) -> Result<bool>
    ensures { IfOk result (λ same. same ≡ true) }
{
    let cookie = seal(alloc, mac, key, moment, payload)?;
    Ok(match open(mac, key, &cookie) {
        Some((read, rest)) => read == moment && rest == payload,
        None => false,
    })
}
