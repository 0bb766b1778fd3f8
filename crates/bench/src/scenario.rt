//! What is run.

use crate::asking::asking;
use crate::ends::Ends;
use crate::everyday::{Load, everyday, messages_of};
use crate::exchange::exchange;
use crate::linking::through_link;
use crate::packet::Zero;
use crate::pairs::in_turn;
use crate::payload::Touch;
use crate::receiving::Receiving;
use crate::sending::Sending;
use crate::stream::packetize;
use crate::subject::{CALLS, Delivery, Order, Size};
use crate::timing::{Fastest, Measured};
use crate::{outbound, payload, reassembly, receiving, sack, sending};
use sctp_packets::checksum::Crc32c;
use std::alloc::Global;
use std::time::{Clock, Instant};

// At most so many units of each scenario are measured, in as many runs as that takes.
const UNITS: u32 = 100_000;

// No run begins after so many milliseconds.
const MILLISECONDS: u128 = 500;

/// A checksum of packets.
#[derive(Clone, Copy)]
pub enum Sum {
    /// 0 for any bytes.
    Zero,
    Crc32c,
}

/// What is run.
#[derive(Clone, Copy)]
pub enum Scenario {
    /// So many chunks go through a payload queue.
    PushAndPop(u16, Order),
    /// So many messages of one fragment are sent.
    SendNext(u16),
    /// So many chunks are held in runs of a length.
    GapBlocks(u16, u16),
    /// One message is reassembled.
    OneMessage(Delivery, Order),
    /// Many unordered messages are reassembled.
    Interleaved,
    /// A message is cut into fragments.
    Packetize,
    /// So many chunks go through a pending queue.
    Pending(u16),
    /// So many messages of one fragment are put into an outbound queue.
    OutboundPush(u16),
    /// A SACK of so many blocks is written and read.
    Sack(u16),
    /// The same, written alone.
    SackWritten(u16),
    /// A payload queue that holds so many chunks.
    Touch(Touch, u32),
    /// A sender that holds so many messages.
    Sending(Sending, u32),
    /// A receiver that holds so many messages.
    Receiving(Receiving, u32),
    /// Short messages go from a sender to a receiver, each packet acknowledged.
    Everyday(Load, Sum),
    /// The same by a caller with an error type.
    Asking(Load, Sum),
    /// The same of 100 bytes, between so many pairs in turn.
    InTurn(u16, Sum),
    /// A message of 64 KiB goes from a new sender to a new receiver in packets.
    Exchange(Sum),
    /// Messages of a size do, one after another.
    Steady(Size, Sum),
    /// A message goes through a link.
    Linked(Sum),
}

/// What a time is given for, and how many of these a run has.
#[derive(Clone, Copy)]
pub struct Unit {
    pub name: &'static str,
    pub units: u32,
}

/// What its time is given for.
pub fn unit_of(scenario: Scenario) -> Unit {
    let (name, units) = match scenario {
        Scenario::PushAndPop(count, _)
        | Scenario::SendNext(count)
        | Scenario::Pending(count)
        | Scenario::OutboundPush(count) => ("chunk", u32::from(count)),
        Scenario::Interleaved => ("push", 4000),
        Scenario::Sack(_) | Scenario::SackWritten(_) | Scenario::Touch(_, _) => ("call", CALLS),
        Scenario::Everyday(load, _) | Scenario::Asking(load, _) => {
            ("message", CALLS * messages_of(load))
        }
        Scenario::Steady(_, _) => ("message", CALLS),
        Scenario::InTurn(pairs, _) => ("message", u32::from(pairs)),
        Scenario::Sending(call, _) => ("call", calls_to_send(call)),
        Scenario::Receiving(call, _) => ("call", calls_to_receive(call)),
        Scenario::GapBlocks(_, _) => ("call", 1),
        Scenario::OneMessage(_, _)
        | Scenario::Packetize
        | Scenario::Exchange(_)
        | Scenario::Linked(_) => ("message", 1),
    };
    Unit { name, units }
}

fn calls_to_send(call: Sending) -> u32 {
    match call {
        Sending::Write | Sending::SendNext | Sending::Acked | Sending::Close => CALLS,
        _ => 1,
    }
}

fn calls_to_receive(call: Receiving) -> u32 {
    match call {
        Receiving::Skip | Receiving::SkipNames | Receiving::CloseEach => 1,
        _ => CALLS,
    }
}

/// The same call, while so many are held; another scenario as it is.
pub fn with_held(scenario: Scenario, held: u32) -> Scenario {
    match scenario {
        Scenario::Touch(call, _) => Scenario::Touch(call, held),
        Scenario::Sending(call, _) => Scenario::Sending(call, held),
        Scenario::Receiving(call, _) => Scenario::Receiving(call, held),
        _ => scenario,
    }
}

/// Whether it runs only where times are asked for, since it takes long.
pub fn is_slow(scenario: Scenario) -> bool {
    match scenario {
        Scenario::PushAndPop(count, Order::Shuffled) => count > 1000,
        Scenario::Touch(_, held) => held > 1000,
        Scenario::Sending(call, held) => call == Sending::AckedBlocks || held > 1000,
        Scenario::Receiving(_, held) => held > 1000,
        Scenario::InTurn(pairs, _) => pairs > 1000,
        _ => false,
    }
}

/// One run.
pub fn measure(clock: &impl Clock, alloc: Global, scenario: Scenario) -> anyhow::Result<Measured> {
    match scenario {
        Scenario::PushAndPop(count, order) => payload::push_and_pop(clock, alloc, count, order),
        Scenario::SendNext(count) => outbound::send_all(clock, alloc, count),
        Scenario::GapBlocks(held, run) => payload::gap_blocks(clock, alloc, held, run),
        Scenario::OneMessage(delivery, order) => {
            reassembly::one_message(clock, alloc, delivery, order)
        }
        Scenario::Interleaved => reassembly::interleaved(clock, alloc),
        Scenario::Packetize => packetize(clock, alloc),
        Scenario::Pending(count) => outbound::pend(clock, alloc, count),
        Scenario::OutboundPush(count) => outbound::push_all(clock, alloc, count),
        Scenario::Sack(count) => sack::write_and_read(clock, alloc, count),
        Scenario::SackWritten(count) => sack::write(clock, alloc, count),
        Scenario::InTurn(pairs, Sum::Zero) => in_turn(clock, alloc, pairs, &Zero),
        Scenario::InTurn(pairs, Sum::Crc32c) => in_turn(clock, alloc, pairs, &Crc32c),
        Scenario::Touch(call, held) => payload::touch_held(clock, alloc, call, held),
        Scenario::Linked(Sum::Zero) => through_link(clock, alloc, Zero),
        Scenario::Linked(Sum::Crc32c) => through_link(clock, alloc, Crc32c),
        _ => {
            let mut ends = Ends::new(alloc);
            measure_ends(clock, &mut ends, scenario)
        }
    }
}

// The same of those that need a sender and a receiver. What can't be prepared gives nothing.
fn measure_ends(
    clock: &impl Clock,
    ends: &mut Ends,
    scenario: Scenario,
) -> anyhow::Result<Measured> {
    let is_ready = prepare(ends, scenario);
    let start = Instant::now(clock)?;
    let given = run(ends, scenario);
    let elapsed = start.elapsed(clock)?;
    let given = if is_ready { given } else { 0 };
    Ok(Measured { given, elapsed })
}

fn prepare(ends: &mut Ends, scenario: Scenario) -> bool {
    match scenario {
        Scenario::Sending(call, held) => sending::prepare(ends, call, held),
        Scenario::Receiving(call, held) => receiving::prepare(ends, call, held),
        _ => ends.open(),
    }
}

fn run(ends: &mut Ends, scenario: Scenario) -> usize {
    match scenario {
        Scenario::Sending(call, held) => sending::run(ends, call, held),
        Scenario::Receiving(call, held) => receiving::run(ends, call, held),
        Scenario::Everyday(load, Sum::Zero) => everyday(ends, load, &Zero),
        Scenario::Everyday(load, Sum::Crc32c) => everyday(ends, load, &Crc32c),
        Scenario::Asking(load, Sum::Zero) => asking(ends, load, &Zero),
        Scenario::Asking(load, Sum::Crc32c) => asking(ends, load, &Crc32c),
        Scenario::Steady(size, Sum::Zero) => exchange(ends, size, CALLS, &Zero),
        Scenario::Steady(size, Sum::Crc32c) => exchange(ends, size, CALLS, &Crc32c),
        Scenario::Exchange(Sum::Crc32c) => exchange(ends, Size::Kib64, 1, &Crc32c),
        _ => exchange(ends, Size::Kib64, 1, &Zero),
    }
}

/// The nanoseconds that a unit took in the fastest run.
pub fn fastest(clock: &impl Clock, alloc: Global, scenario: Scenario) -> anyhow::Result<u128> {
    let units = unit_of(scenario).units.max(1);
    let begun = Instant::now(clock)?;
    let mut fastest = Fastest::new();
    for _ in 0..UNITS / units {
        fastest.note(measure(clock, alloc, scenario)?.elapsed);
        if begun.elapsed(clock)?.as_millis() > MILLISECONDS {
            break;
        }
    }
    Ok(fastest.of_each(units))
}
