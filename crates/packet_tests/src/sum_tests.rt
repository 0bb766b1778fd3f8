//! Known sums of CRC-32C.

use crate::log::check_bytes;
use crc32c::crc32c;

const RISING: [u8; 32] =
    *b"\0\x01\x02\x03\x04\x05\x06\x07\x08\x09\x0a\x0b\x0c\x0d\x0e\x0f\x10\x11\x12\x13\x14\x15\x16\x17\x18\x19\x1a\x1b\x1c\x1d\x1e\x1f";

const FALLING: [u8; 32] =
    *b"\x1f\x1e\x1d\x1c\x1b\x1a\x19\x18\x17\x16\x15\x14\x13\x12\x11\x10\x0f\x0e\x0d\x0c\x0b\x0a\x09\x08\x07\x06\x05\x04\x03\x02\x01\0";

// The check value of the catalogues of checksums; then the examples of RFC 3720 B.4, whose last one is a command of 48 bytes.
const SUMS: [(&[u8], u32); 7] = [
    (b"123456789", 0xe306_9283),
    (b"", 0),
    (&[0; 32], 0x8a91_36aa),
    (&[0xff; 32], 0x62a8_ab43),
    (&RISING, 0x46dd_794e),
    (&FALLING, 0x113f_db5c),
    (
        b"\x01\xc0\x00\x00\x00\x00\x00\x00\x00\x00\x00\x00\x00\x00\x00\x00\x14\x00\x00\x00\x00\x00\x04\x00\x00\x00\x00\x14\x00\x00\x00\x18\x28\x00\x00\x00\x00\x00\x00\x00\x02\x00\x00\x00\x00\x00\x00\x00",
        0xd996_3a56,
    ),
];

/// What does not hold of sums.
pub fn known_sums(log: &mut Vec<u8>) {
    for (bytes, sum) in SUMS {
        check_bytes(log, crc32c(bytes) == sum, "a known sum", bytes);
    }
}
