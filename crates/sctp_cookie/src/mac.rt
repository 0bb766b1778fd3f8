//! Message authentication codes, and HMAC with SHA-256.

ghost use Rattle.std.specs.Prelude.{◌≡◌, ℕ, List, length};
ghost use Rattle.sha2.specs.Hashers.{Holds256};
ghost use Rattle.sctp_cookie.specs.Hmac.{hmac_sha256, length-hmac_sha256, masked_block};

use sha2::{Digest, Sha256};

/// The bytes of a key.
pub const KEY_LENGTH: usize = 32;

/// The bytes of a code.
pub const CODE_LENGTH: usize = 32;

/// The byte that masks the key before the message (RFC 2104 2).
const INNER_PAD: u8 = 0x36;

/// The byte that masks the key before the inner digest (RFC 2104 2).
const OUTER_PAD: u8 = 0x5c;

/// A message authentication code: one function of a key and a message. The contracts hold under any such function. That none can
/// be computed without the key is the function's own promise; nothing is proved of it.
pub trait Mac {
    // the code of a message under a key
    ghost code_of: { Self → List ℕ → List ℕ → List ℕ };

    /// The code of the message under the key.
    fn code(&self, key: &[u8; KEY_LENGTH], message: &[u8]) -> [u8; CODE_LENGTH]
        ensures { result ≡ code_of self.now key.now message.now };

    // a code has 32 bytes
    ghost size: { (m : Self) (key message : List ℕ) → length (code_of m key message) ≡ 32 };
}

/// HMAC (RFC 2104) with SHA-256 (FIPS 180-4).
#[derive(Clone, Copy)]
pub struct HmacSha256;

impl Mac for HmacSha256 {
    ghost code_of = { λ _ key message. hmac_sha256 key message };

    ghost size = { λ _ key message. length-hmac_sha256 key message };

    fn code(&self, key: &[u8; KEY_LENGTH], message: &[u8]) -> [u8; CODE_LENGTH] {
        let mut inner = keyed(key, INNER_PAD);
        inner.update(message);
        let mut outer = keyed(key, OUTER_PAD);
        outer.update(inner.finalize());
        outer.finalize()
    }
}

// A hasher that took in the key, filled up to a block and masked.
fn keyed(key: &[u8; KEY_LENGTH], pad: u8) -> Sha256
    ensures { Holds256 result (masked_block pad key.now) }
{
    let mut masked = *key;
    for byte in masked.iter_mut() {
        *byte ^= pad;
    }
    let mut hasher = Sha256::new();
    hasher.update(masked);
    hasher.update([pad; 32]);
    hasher
}
