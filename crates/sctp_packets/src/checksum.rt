//! SCTP's own checksum.

ghost use Rattle.crc32c.specs.Castagnoli.{crc32c_of};

use crc32c::Crc;
use sctp_util::util::Checksum;

/// CRC-32C, the checksum of SCTP packets (RFC 4960 Appendix B).
#[derive(Clone, Copy)]
pub struct Crc32c;

impl Checksum for Crc32c {
    ghost sum = { λ _ bytes. crc32c_of bytes };

    fn checksum(&self, head: &[u8], tail: &[u8]) -> u32 {
        let mut crc = Crc::new();
        crc.update(head);
        crc.update(&[0; 4]);
        crc.update(tail);
        crc.finish()
    }
}
