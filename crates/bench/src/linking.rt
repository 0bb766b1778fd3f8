//! A message of 64 KiB through a link.

use crate::reassembly::length_of;
use crate::stream::text;
use crate::subject::{FRAGMENT, FRAGMENTS, MESSAGE, STREAM};
use crate::timing::Measured;
use sctp_chunks::chunk::chunk_payload_data::PayloadProtocolIdentifier;
use sctp_link::event::{Event, Reply};
use sctp_link::link::Link;
use sctp_util::util::Checksum;
use std::alloc::Global;
use std::time::{Clock, Instant};

// Writes the message to the stream.
fn write<C: Checksum + Drop>(link: &mut Link<C>) -> bool {
    let event = Event::Write {
        stream: STREAM,
        ppi: PayloadProtocolIdentifier::Binary,
        bytes: text(),
    };
    link.step(event).is_ok()
}

// Sends the next fragment in a datagram of this number, and has it arrive.
fn carry<C: Checksum + Drop>(link: &mut Link<C>, k: u64) -> bool {
    link.step(Event::Send { now: 0 }).is_ok() && link.step(Event::Arrive { k }).is_ok()
}

// Acknowledges what came, in a datagram of this number.
fn acknowledge<C: Checksum + Drop>(link: &mut Link<C>, k: u64) -> bool {
    link.step(Event::Ack { credit: MESSAGE }).is_ok() && link.step(Event::Acked { k }).is_ok()
}

// Reads a message, and gives its length.
fn read<C: Checksum + Drop>(link: &mut Link<C>) -> usize {
    match link.step(Event::Read { stream: STREAM }) {
        Ok(Reply::Message { chunks, .. }) => length_of(Some(chunks)),
        _ => 0,
    }
}

// Has the message written, sent, read and acknowledged, and gives how many bytes were read.
fn transfer<C: Checksum + Drop>(link: &mut Link<C>) -> usize {
    if !write(link) {
        return 0;
    }
    for place in 0..FRAGMENTS {
        if !carry(link, u64::from(place)) {
            return 0;
        }
    }
    if !acknowledge(link, u64::from(FRAGMENTS)) {
        return 0;
    }
    read(link)
}

// Times it.
fn time<C: Checksum + Drop>(clock: &impl Clock, link: &mut Link<C>) -> anyhow::Result<Measured> {
    let is_open = link.step(Event::Open { stream: STREAM }).is_ok();
    let start = Instant::now(clock)?;
    let given = transfer(link);
    let elapsed = start.elapsed(clock)?;
    let given = if is_open { given } else { 0 };
    Ok(Measured { given, elapsed })
}

/// Has the message go through a link of its own, under this checksum.
pub fn through_link<C: Checksum + Drop>(
    clock: &impl Clock,
    alloc: Global,
    checksum: C,
) -> anyhow::Result<Measured> {
    let mut link = Link::new(alloc, 1, FRAGMENT, MESSAGE, checksum);
    time(clock, &mut link)
}
