//! A packet of one DATA chunk with 1,200 bytes, read and written under a checksum that is always 0.

use crate::packet::{
    Zero, datagram, is_expected, time_of_dissecting, time_of_reading, time_of_summing,
    time_of_writing,
};
use crate::table::Table;
use bytes::{Bytes, BytesMut};
use sctp_packets::packet::Packet;

/// Prints whether it was read and written right and, where asked for, what each took.
pub fn run(rt: &HostRuntime, table: &Table<'_>) -> anyhow::Result<()> {
    let alloc = rt.alloc();
    let raw = datagram(alloc)?;
    let packet = Packet::unmarshal(alloc, &raw, &Zero)?;
    let read = if is_expected(&packet) {
        "same packet"
    } else {
        "another packet"
    };
    println!(rt; "unmarshal: {read}")?;
    let mut buf = BytesMut::new(alloc);
    packet.marshal_to(&mut buf, &Zero)?;
    let written = if buf.as_slice() == raw.as_slice() {
        "same bytes"
    } else {
        "other bytes"
    };
    println!(rt; "marshal_to: {written}")?;
    if table.is_timed {
        print_times(rt, table, &raw, &packet, &mut buf)?;
    }
    Ok(())
}

/// Prints how many nanoseconds a reading, a dissection, a writing and a CRC-32C of the packet took.
fn print_times(
    rt: &HostRuntime,
    table: &Table<'_>,
    raw: &Bytes,
    packet: &Packet,
    buf: &mut BytesMut,
) -> anyhow::Result<()> {
    let reading = time_of_reading(rt, rt.alloc(), raw)?;
    table.print(rt, "unmarshal", reading, "packet")?;
    let dissecting = time_of_dissecting(rt, rt.alloc(), raw)?;
    table.print(rt, "dissect", dissecting, "packet")?;
    let writing = time_of_writing(rt, buf, packet)?;
    table.print(rt, "marshal_to", writing, "packet")?;
    let (summing, sum) = time_of_summing(rt, raw)?;
    println!(rt; "CRC-32C of all rounds: {sum:08x}")?;
    table.print(rt, "CRC-32C", summing, "packet")?;
    Ok(())
}
