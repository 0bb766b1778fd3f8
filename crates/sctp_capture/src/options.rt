//! The options of a packet's block.

ghost use Rattle.std.specs.Prelude.{◌≡◌, ◌≤◌, ◌<◌, ◌+◌, length, IfSome};
ghost use Rattle.sctp_capture.specs.Options as options;

use crate::record::{Direction, Order, read_number};

/// How many options of a block are looked at.
pub(crate) const MAX_OPTIONS: usize = 64;

/// The option of a packet's flags (`epb_flags`).
const FLAGS: u32 = 2;

/// The number that the first two of four bytes are, by the number that all four are.
pub(crate) fn first_half(order: Order, number: u32) -> u32
    ensures is { result ≡ options.first_half order number }
    ensures few { result < 65536 }
{
    match order {
        Order::Big => number / 65_536,
        Order::Little => number % 65_536,
    }
}

/// The number that the last two are.
pub(crate) fn last_half(order: Order, number: u32) -> u32
    ensures is { result ≡ options.last_half order number }
    ensures few { result < 65536 }
{
    match order {
        Order::Big => number % 65_536,
        Order::Little => number / 65_536,
    }
}

/// How many bytes something takes in a block that has so many.
pub(crate) fn padded(length: usize) -> usize
    requires { length < 4294967296 }
    ensures is { result ≡ options.padded length }
    ensures few { result ≤ length + 3 }
{
    (length + 3) / 4 * 4
}

/// Where the first option of a code stands from a place on.
#[tactic(auto, using(crate::proofs::OptionSteps::option_cut, crate::proofs::OptionSteps::option_here, crate::proofs::OptionSteps::option_last, crate::proofs::OptionSteps::option_next, crate::proofs::OptionSteps::option_none))]
fn option_in(order: Order, code: u32, block: &[u8], from: usize) -> Option<usize>
    requires { from ≤ length block.now + 70000 }
    ensures is { result ≡ options.option_at 64 order code block.now from }
    ensures within { IfSome result (λ at. at + 12 ≤ length block.now) }
{
    let mut at = from;
    for _passed in 0..MAX_OPTIONS {
        if block.len() < at + 12 {
            return None;
        }
        let number = read_number(order, block, at);
        let found = first_half(order, number);
        if found == code {
            return Some(at);
        }
        if found == 0 {
            return None;
        }
        at = at + 4 + padded(last_half(order, number) as usize);
    }
    None
}

/// Whether a packet came in or went out, by the first two bits of its flags.
fn direction_by(bits: u32) -> Option<Direction>
    ensures { result ≡ options.direction_by bits }
{
    match bits {
        1 => Some(Direction::In),
        2 => Some(Direction::Out),
        _ => None,
    }
}

/// The direction that the flags of a packet's block say, whose options begin in this place.
pub(crate) fn direction_in(order: Order, block: &[u8], from: usize) -> Option<Direction>
    requires { from ≤ length block.now + 70000 }
    ensures { result ≡ options.direction_in order block.now from }
{
    let at = option_in(order, FLAGS, block, from)?;
    if last_half(order, read_number(order, block, at)) != 4 {
        return None;
    }
    direction_by(read_number(order, block, at + 4) % 4)
}
