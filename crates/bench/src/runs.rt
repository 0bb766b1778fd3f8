//! Queues, senders, receivers and links.

use crate::everyday::Load;
use crate::names::what_of;
use crate::payload::Touch;
use crate::receiving::Receiving;
use crate::scenario::{Scenario, Sum, fastest, is_slow, measure, unit_of};
use crate::sending::Sending;
use crate::subject::{Delivery, Order, Size};
use crate::table::Table;

static SCENARIOS: [Scenario; 71] = [
    Scenario::PushAndPop(1000, Order::InOrder),
    Scenario::PushAndPop(1000, Order::Shuffled),
    Scenario::PushAndPop(10_000, Order::InOrder),
    Scenario::PushAndPop(10_000, Order::Shuffled),
    Scenario::SendNext(1000),
    Scenario::SendNext(10_000),
    Scenario::GapBlocks(500, 500),
    Scenario::GapBlocks(500, 2),
    Scenario::GapBlocks(500, 4),
    Scenario::GapBlocks(500, 1),
    Scenario::GapBlocks(5000, 1),
    Scenario::OneMessage(Delivery::Ordered, Order::InOrder),
    Scenario::OneMessage(Delivery::Ordered, Order::Reversed),
    Scenario::OneMessage(Delivery::Unordered, Order::InOrder),
    Scenario::OneMessage(Delivery::Unordered, Order::Reversed),
    Scenario::Interleaved,
    Scenario::Packetize,
    Scenario::Pending(1000),
    Scenario::OutboundPush(1000),
    Scenario::Sack(1),
    Scenario::Sack(100),
    Scenario::SackWritten(1),
    Scenario::Touch(Touch::Mark, 1000),
    Scenario::Everyday(Load::Short, Sum::Zero),
    Scenario::Everyday(Load::Short, Sum::Crc32c),
    Scenario::Everyday(Load::Ten, Sum::Zero),
    Scenario::Everyday(Load::Ten, Sum::Crc32c),
    Scenario::Everyday(Load::Full, Sum::Zero),
    Scenario::Everyday(Load::Full, Sum::Crc32c),
    Scenario::Asking(Load::Short, Sum::Zero),
    Scenario::Asking(Load::Short, Sum::Crc32c),
    Scenario::Asking(Load::Ten, Sum::Zero),
    Scenario::Asking(Load::Ten, Sum::Crc32c),
    Scenario::Asking(Load::Full, Sum::Zero),
    Scenario::Asking(Load::Full, Sum::Crc32c),
    Scenario::Steady(Size::Kib16, Sum::Zero),
    Scenario::Steady(Size::Kib16, Sum::Crc32c),
    Scenario::Steady(Size::Kib64, Sum::Zero),
    Scenario::Steady(Size::Kib64, Sum::Crc32c),
    Scenario::InTurn(1, Sum::Zero),
    Scenario::InTurn(1, Sum::Crc32c),
    Scenario::InTurn(1000, Sum::Zero),
    Scenario::InTurn(1000, Sum::Crc32c),
    Scenario::InTurn(10_000, Sum::Zero),
    Scenario::InTurn(10_000, Sum::Crc32c),
    Scenario::Exchange(Sum::Zero),
    Scenario::Exchange(Sum::Crc32c),
    Scenario::Linked(Sum::Zero),
    Scenario::Linked(Sum::Crc32c),
    Scenario::Sending(Sending::Acked, 64),
    Scenario::Sending(Sending::Acked, 1000),
    Scenario::Sending(Sending::Acked, 100_000),
    Scenario::Sending(Sending::AckedBlocks, 10_000),
    Scenario::Sending(Sending::NoneLate, 1000),
    Scenario::Sending(Sending::NoneLate, 100_000),
    Scenario::Sending(Sending::ExpireLate, 1000),
    Scenario::Sending(Sending::ExpireLate, 10_000),
    Scenario::Sending(Sending::Expire, 1000),
    Scenario::Sending(Sending::Expire, 100_000),
    Scenario::Sending(Sending::ExpireEach, 30_000),
    Scenario::Sending(Sending::Close, 60_000),
    Scenario::Sending(Sending::CloseEach, 60_000),
    Scenario::Receiving(Receiving::Sack, 0),
    Scenario::Receiving(Receiving::Read, 64),
    Scenario::Receiving(Receiving::DataPairs, 1000),
    Scenario::Receiving(Receiving::DataPairs, 100_000),
    Scenario::Receiving(Receiving::Streams, 1000),
    Scenario::Receiving(Receiving::Streams, 60_000),
    Scenario::Receiving(Receiving::SkipNames, 30_000),
    Scenario::Receiving(Receiving::Close, 60_000),
    Scenario::Receiving(Receiving::CloseEach, 60_000),
];

/// Prints what came out of each run and, where asked for, how long the fastest of many runs took.
pub fn run(rt: &HostRuntime, table: &Table<'_>) -> anyhow::Result<()> {
    let alloc = rt.alloc();
    for scenario in SCENARIOS.iter().filter(|scenario| !is_slow(**scenario)) {
        let given = measure(rt, alloc, *scenario)?.given;
        println!(rt; "{scenario}: {given} {}", what_of(*scenario))?;
    }
    if table.is_timed {
        for scenario in &SCENARIOS {
            let nanos = fastest(rt, alloc, *scenario)?;
            let row = format!(in alloc; "{scenario}")?;
            table.print(rt, row.as_str(), nanos, unit_of(*scenario).name)?;
        }
    }
    Ok(())
}
