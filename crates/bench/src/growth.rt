//! How the time of a call grows with what is held.

use crate::names::call_name;
use crate::payload::Touch;
use crate::receiving::Receiving;
use crate::scenario::{Scenario, fastest, with_held};
use crate::sending::Sending;

// How much is held.
const SIZES: [u32; 4] = [100, 1000, 10_000, 100_000];

// A thousand times 10^0.05, 10^0.15, .., 10^2.45, rounded: a growth by less than one of them, where ten times as much is held, is
// nearest to the exponent of its place, in tenths.
const BOUNDS: [u128; 25] = [
    1122, 1413, 1778, 2239, 2818, 3548, 4467, 5623, 7079, 8913, 11_220, 14_125, 17_783, 22_387,
    28_184, 35_481, 44_668, 56_234, 70_795, 89_125, 112_202, 141_254, 177_828, 223_872, 281_838,
];

// The exponent of a growth from one time to another, where ten times as much is held, in tenths, rounded; 0 where it does not grow,
// and at most 25.
fn exponent(time: u128, later: u128) -> usize {
    let grown = later.saturating_mul(1000) / time.max(1);
    let mut tenths = 0usize;
    for bound in BOUNDS {
        if grown >= bound {
            tenths = tenths.wrapping_add(1);
        }
    }
    tenths
}

static CALLS: [Scenario; 11] = [
    Scenario::Touch(Touch::Push, 0),
    Scenario::Touch(Touch::Pop, 0),
    Scenario::Touch(Touch::Get, 0),
    Scenario::Sending(Sending::Write, 0),
    Scenario::Sending(Sending::SendNext, 0),
    Scenario::Sending(Sending::Acked, 0),
    Scenario::Sending(Sending::ExpireLate, 0),
    Scenario::Receiving(Receiving::Data, 0),
    Scenario::Receiving(Receiving::Sack, 0),
    Scenario::Receiving(Receiving::Read, 0),
    Scenario::Receiving(Receiving::Skip, 0),
];

// Prints a line: the name of the call, how many nanoseconds it took at each size, and the exponent between the last two sizes, a tab
// before each.
fn print(rt: &HostRuntime, call: Scenario) -> anyhow::Result<()> {
    print!(rt; "{}", call_name(call))?;
    let mut times = (0u128, 0u128);
    for held in SIZES {
        let nanos = fastest(rt, rt.alloc(), with_held(call, held))?;
        print!(rt; "\t{nanos}")?;
        times = (times.1, nanos);
    }
    let tenths = exponent(times.0, times.1);
    println!(rt; "\t{}.{}", tenths / 10, tenths % 10)?;
    Ok(())
}

/// Prints a heading, and a line for each call.
pub fn run(rt: &HostRuntime) -> anyhow::Result<()> {
    println!(rt;
        "call\t{}\t{}\t{}\t{}\texponent",
        SIZES[0], SIZES[1], SIZES[2], SIZES[3]
    )?;
    for call in &CALLS {
        print(rt, *call)?;
    }
    Ok(())
}
