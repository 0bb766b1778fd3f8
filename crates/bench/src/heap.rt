//! States of pairs, each told by a line while they are held, so that what counts the blocks of the heap can say what a state takes.

use crate::ends::Ends;
use crate::everyday::reads;
use crate::exchange::{LIMIT, acknowledges, sends};
use crate::packet::Zero;
use crate::pairs::{adds_each, turn};
use crate::receiving::take_apart;
use crate::stream::text;
use crate::subject::{FRAGMENTS, STREAM};
use sctp_chunks::chunk::chunk_payload_data::PayloadProtocolIdentifier;
use sctp_packets::PacketWriter;

// How many messages of 64 KiB make 1 MiB.
const BURST: u32 = 16;

// How many TSNs a receiver holds beyond the cumulative one, each apart from the others.
const APART: u32 = 1000;

// Writes 1 MiB in messages of 64 KiB; whether it waits.
fn writes(ends: &mut Ends) -> bool {
    for _ in 0..BURST {
        let written = ends
            .sender
            .write(STREAM, PayloadProtocolIdentifier::Binary, &text());
        if written.is_err() {
            return false;
        }
    }
    true
}

// Sends all of it, before anything is read or acknowledged; whether all came.
fn carries(ends: &mut Ends, writer: &mut PacketWriter) -> bool {
    for _ in 0..u32::from(FRAGMENTS) * BURST {
        if !sends(ends, writer, &Zero) {
            return false;
        }
    }
    true
}

// Has 1 MiB written, sent, read and acknowledged, and gives how many bytes were read.
fn burst(ends: &mut Ends, writer: &mut PacketWriter) -> usize {
    if !writes(ends) || !carries(ends, writer) {
        return 0;
    }
    let bytes = reads(ends, BURST);
    if acknowledges(ends, writer, &Zero) {
        bytes
    } else {
        0
    }
}

// The same of each pair.
fn burst_each(pairs: &mut [Ends], writer: &mut PacketWriter) -> usize {
    let mut bytes = 0usize;
    for ends in pairs.iter_mut() {
        bytes = bytes.saturating_add(burst(ends, writer));
    }
    bytes
}

// Tells the states of pairs.
fn tell_pairs(
    rt: &HostRuntime,
    pairs: &mut Vec<Ends>,
    writer: &mut PacketWriter,
    count: u16,
) -> anyhow::Result<()> {
    let is_there = adds_each(rt.alloc(), pairs, count);
    println!(rt; "idle: {is_there}")?;
    let bytes = turn(pairs, writer, &Zero);
    println!(rt; "after a message of 100 bytes: {bytes} bytes")?;
    let bytes = burst_each(pairs, writer);
    println!(rt; "after 1 MiB that was read: {bytes} bytes")?;
    Ok(())
}

// Tells the states of a receiver that is beyond its cumulative TSN.
fn tell_tsns(rt: &HostRuntime, ends: &mut Ends) -> anyhow::Result<()> {
    let is_open = ends.open();
    println!(rt; "a receiver: {is_open}")?;
    let bytes = take_apart(&mut ends.receiver, 2, APART);
    println!(rt; "with {APART} TSNs beyond the cumulative one, each apart, read: {bytes} bytes")?;
    let bytes = take_apart(&mut ends.receiver, 1, APART);
    println!(rt; "after these left: {bytes} bytes")?;
    Ok(())
}

// Tells the states of pairs that are made for it, in a list that has room for no more.
fn tell_each(rt: &HostRuntime, count: u16) -> anyhow::Result<()> {
    let mut writer = PacketWriter::new(rt.alloc(), LIMIT)?;
    println!(rt; "none of {count} pairs")?;
    let mut pairs = Vec::with_capacity(rt.alloc(), usize::from(count))?;
    let told = tell_pairs(rt, &mut pairs, &mut writer, count);
    drop(pairs);
    told
}

/// Prints a line for each state: of so many pairs, and of one receiver.
pub fn run(rt: &HostRuntime, count: u16) -> anyhow::Result<()> {
    tell_each(rt, count)?;
    let mut ends = Ends::new(rt.alloc());
    let told = tell_tsns(rt, &mut ends);
    drop(ends);
    told
}
