//! Codes of RFC 4231, and cookies that are made and opened.

use crate::cookies::{given_back, is_opened};
use crate::log::{check, check_bytes};
use sctp_cookie::{HmacSha256, Mac, seal};
use sctp_util::error::Result;
use std::alloc::Global;

// The key of a test case with zeros behind it, the message, and the code.
type Case = ([u8; 32], &'static [u8], [u8; 32]);

// The test cases 1 to 4 of RFC 4231 (4.2 to 4.5): keys of 20, 4, 20 and 25 bytes. Zeros behind them change no code.
const CASES: [Case; 4] = [
    (
        *b"\x0b\x0b\x0b\x0b\x0b\x0b\x0b\x0b\x0b\x0b\x0b\x0b\x0b\x0b\x0b\x0b\x0b\x0b\x0b\x0b\0\0\0\0\0\0\0\0\0\0\0\0",
        b"Hi There",
        *b"\xb0\x34\x4c\x61\xd8\xdb\x38\x53\x5c\xa8\xaf\xce\xaf\x0b\xf1\x2b\x88\x1d\xc2\x00\xc9\x83\x3d\xa7\x26\xe9\x37\x6c\x2e\x32\xcf\xf7",
    ),
    (
        *b"Jefe\0\0\0\0\0\0\0\0\0\0\0\0\0\0\0\0\0\0\0\0\0\0\0\0\0\0\0\0",
        b"what do ya want for nothing?",
        *b"\x5b\xdc\xc1\x46\xbf\x60\x75\x4e\x6a\x04\x24\x26\x08\x95\x75\xc7\x5a\x00\x3f\x08\x9d\x27\x39\x83\x9d\xec\x58\xb9\x64\xec\x38\x43",
    ),
    (
        *b"\xaa\xaa\xaa\xaa\xaa\xaa\xaa\xaa\xaa\xaa\xaa\xaa\xaa\xaa\xaa\xaa\xaa\xaa\xaa\xaa\0\0\0\0\0\0\0\0\0\0\0\0",
        &[0xdd; 50],
        *b"\x77\x3e\xa9\x1e\x36\x80\x0e\x46\x85\x4d\xb8\xeb\xd0\x91\x81\xa7\x29\x59\x09\x8b\x3e\xf8\xc1\x22\xd9\x63\x55\x14\xce\xd5\x65\xfe",
    ),
    (
        *b"\x01\x02\x03\x04\x05\x06\x07\x08\x09\x0a\x0b\x0c\x0d\x0e\x0f\x10\x11\x12\x13\x14\x15\x16\x17\x18\x19\0\0\0\0\0\0\0",
        &[0xcd; 50],
        *b"\x82\x55\x8a\x38\x9a\x44\x3c\x0e\xa4\xcc\x81\x98\x99\xf2\x08\x3a\x85\xf0\xfa\xa3\xe5\x78\xf8\x07\x7a\x2e\x3f\xf4\x67\x29\x66\x5b",
    ),
];

fn rfc_4231(log: &mut Vec<u8>) {
    for (key, message, code) in CASES {
        let holds = HmacSha256.code(&key, message) == code;
        check_bytes(log, holds, "a code of RFC 4231", message);
    }
}

// Whether a cookie with the moment 1,000 and the payload "tag" is opened while it is not stale, and under its key alone.
fn is_opened_in_time(cookie: &[u8], key: &[u8; 32]) -> bool {
    cookie.len() == 43
        && given_back(&HmacSha256, key, cookie, 61_000, 60_000) == Some(b"tag".as_slice())
        && given_back(&HmacSha256, key, cookie, 61_001, 60_000).is_none()
        && given_back(&HmacSha256, key, cookie, 0, 0).is_some()
        && given_back(&HmacSha256, &[8; 32], cookie, 1_000, 60_000).is_none()
}

// With memory a cookie is made and opened.
fn sealed_cookies(alloc: Global) -> Result<bool> {
    let key = [7; 32];
    let cookie = seal(alloc, &HmacSha256, &key, 1_000, b"tag")?;
    Ok(is_opened_in_time(&cookie, &key) && is_opened(alloc, &HmacSha256, &key, u64::MAX, b"")?)
}

/// What does not hold of codes and cookies.
pub fn all(alloc: Global, log: &mut Vec<u8>) {
    rfc_4231(log);
    check(log, sealed_cookies(alloc) == Ok(true), "sealed cookies");
}
