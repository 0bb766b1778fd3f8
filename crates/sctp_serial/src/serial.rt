//! Numbers in serial order: how far they lie apart, and where an element of a list goes.

ghost use Rattle.std.specs.Prelude.{◌≡◌, ◌^◌, ◌<◌};
ghost use Rattle.sctp_util.specs.Serial.{distance};
ghost use Rattle.sctp_serial.specs.Ascending.{upper_half};

/// The place where an element is put in, and whether the list is known to ascend then.
#[derive(Clone, Copy)]
pub struct Insertion {
    pub place: usize,
    pub ascending: bool,
}

/// How far `to` lies after `from`, modulo 2^32 (RFC 1982 3.2).
#[tactic(auto, unfolding(sctp_util::specs::Serial::distance))]
pub fn distance(from: u32, to: u32) -> u32
    ensures value { result ≡ distance from to }
    ensures from_fits { from < 2 ^ 32 }
    ensures to_fits { to < 2 ^ 32 }
{
    to.wrapping_sub(from)
}

/// A number of 16 bits as the upper half of one of 32, which keeps its place in serial order.
#[tactic(auto, unfolding(crate::specs::Ascending::upper_half))]
pub fn upper_half(number: u16) -> u32
    ensures value { result ≡ upper_half number }
    ensures fits { number < 2 ^ 16 }
{
    u32::from(number) * (1 << 16)
}
