//! Many pairs of a sender and a receiver, in turn.

use crate::ends::Ends;
use crate::everyday::{Load, exchanges};
use crate::exchange::LIMIT;
use crate::timing::Measured;
use sctp_packets::PacketWriter;
use sctp_util::util::Checksum;
use std::alloc::Global;
use std::time::{Clock, Instant};

// Adds a pair whose stream is open; whether it is there.
fn adds(alloc: Global, pairs: &mut Vec<Ends>) -> bool {
    let mut ends = Ends::new(alloc);
    let is_open = ends.open();
    let is_there = pairs.push(ends).is_ok();
    is_open && is_there
}

/// Adds so many pairs, and says whether all are there.
pub fn adds_each(alloc: Global, pairs: &mut Vec<Ends>, count: u16) -> bool {
    for _ in 0..count {
        if !adds(alloc, pairs) {
            return false;
        }
    }
    true
}

/// Makes an exchange of each pair, and gives how many bytes were read.
pub fn turn<C: Checksum>(pairs: &mut [Ends], writer: &mut PacketWriter, sum: &C) -> usize {
    let mut bytes = 0usize;
    for ends in pairs.iter_mut() {
        bytes = bytes.saturating_add(exchanges(ends, writer, Load::Short, sum));
    }
    bytes
}

// Times the second exchange of each pair.
fn time<C: Checksum>(
    clock: &impl Clock,
    pairs: &mut [Ends],
    writer: &mut PacketWriter,
    sum: &C,
) -> anyhow::Result<Measured> {
    let before = turn(pairs, writer, sum);
    let start = Instant::now(clock)?;
    let given = turn(pairs, writer, sum);
    let elapsed = start.elapsed(clock)?;
    let given = if given == before { given } else { 0 };
    Ok(Measured { given, elapsed })
}

// The same of so many pairs that are made for it.
fn time_each<C: Checksum>(
    clock: &impl Clock,
    alloc: Global,
    pairs: &mut Vec<Ends>,
    count: u16,
    sum: &C,
) -> anyhow::Result<Measured> {
    adds_each(alloc, pairs, count);
    let mut writer = PacketWriter::new(alloc, LIMIT)?;
    time(clock, pairs, &mut writer, sum)
}

/// Has each of so many pairs make two exchanges of 100 bytes, the pairs in turn, and times the second.
pub fn in_turn<C: Checksum>(
    clock: &impl Clock,
    alloc: Global,
    count: u16,
    sum: &C,
) -> anyhow::Result<Measured> {
    let mut pairs = Vec::new(alloc);
    let measured = time_each(clock, alloc, &mut pairs, count, sum);
    drop(pairs);
    measured
}
