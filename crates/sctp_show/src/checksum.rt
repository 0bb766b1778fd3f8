//! The checksum that datagrams are looked at under.

ghost use Rattle.std.specs.Prelude.{◌≡◌};
ghost use Rattle.sctp_show.specs.Sum as sums;
ghost use Rattle.sctp_show.specs.Sum.{sum_of};

use crc32c::Crc;
use sctp_dissect::dissection::Header;
use sctp_util::util::Checksum;

/// CRC-32C, the checksum of SCTP packets (RFC 4960 Appendix B), or none: then each sum is 0.
#[derive(Clone, Copy, PartialEq, Eq)]
pub enum Sum {
    Crc32c,
    Unchecked,
}

/// The checksum of a datagram of which so many bytes are missing: none, where any are.
pub fn sum_for(sum: Sum, missing: usize) -> Sum
    ensures { result ≡ sums.sum_for sum missing }
{
    if missing == 0 {
        return sum;
    }
    Sum::Unchecked
}

/// Whether the checksum of a packet was computed, and is another than the one that stands in it, which is no 0 that its receiver accepts
/// (RFC 9653 5).
pub fn is_wrong(sum: Sum, accepts_zero: bool, header: &Option<Header>) -> bool
    ensures { result ≡ sums.is_wrong sum accepts_zero header.now }
{
    match (sum, header) {
        (Sum::Crc32c, Some(header)) => {
            !header.has_right_checksum() && !(accepts_zero && header.checksum == 0)
        }
        _ => false,
    }
}

impl Checksum for Sum {
    ghost sum = { sum_of };

    fn checksum(&self, head: &[u8], tail: &[u8]) -> u32 {
        match self {
            Sum::Unchecked => 0,
            Sum::Crc32c => {
                let mut crc = Crc::new();
                crc.update(head);
                crc.update(&[0; 4]);
                crc.update(tail);
                crc.finish()
            }
        }
    }
}
