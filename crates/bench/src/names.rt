//! How scenarios are told.

use crate::everyday::Load;
use crate::payload::Touch;
use crate::receiving::Receiving;
use crate::scenario::{Scenario, Sum};
use crate::sending::Sending;
use crate::subject::{Delivery, Order, Size};
use std::fmt;

impl fmt::Display for Scenario {
    fn fmt<W: fmt::Write>(&self, f: &mut fmt::Formatter<W>) -> fmt::Result {
        match *self {
            Scenario::PushAndPop(count, order) => {
                write!(f, "push and pop {count} {}", order_name(order))
            }
            Scenario::SendNext(count) => write!(f, "send_next over {count}"),
            Scenario::GapBlocks(held, run) => {
                write!(f, "gap ack blocks of {held} in runs of {run}")
            }
            Scenario::OneMessage(delivery, order) => write!(
                f,
                "{} {}",
                delivery_name(delivery),
                order_name(order)
            ),
            Scenario::Interleaved => f.write_str("1000 unordered interleaved"),
            Scenario::Packetize => f.write_str("packetize 64 KiB"),
            Scenario::Pending(count) => write!(f, "pending push and pop {count}"),
            Scenario::OutboundPush(count) => write!(f, "outbound push {count}"),
            Scenario::Sack(count) => write!(f, "SACK of {count} blocks written and read"),
            Scenario::SackWritten(count) => write!(f, "SACK of {count} blocks written"),
            Scenario::Everyday(load, sum) => { write!(f, "{}, {}", load_name(load), sum_name(sum)) }
            Scenario::Asking(load, sum) => write!(
                f,
                "{}, with ?, {}",
                load_name(load),
                sum_name(sum)
            ),
            Scenario::Steady(size, sum) => write!(
                f,
                "{}, steady, {}",
                size_name(size),
                sum_name(sum)
            ),
            Scenario::InTurn(pairs, sum) => write!(
                f,
                "exchange of 100 bytes, {pairs} pairs in turn, {}",
                sum_name(sum)
            ),
            Scenario::Exchange(sum) => write!(f, "64 KiB in packets, {}", sum_name(sum)),
            Scenario::Linked(sum) => write!(f, "64 KiB through a Link, {}", sum_name(sum)),
            _ => write!(f, "{} over {}", call_name(*self), held_in(*self)),
        }
    }
}

fn order_name(order: Order) -> &'static str {
    match order {
        Order::InOrder => "in order",
        Order::Reversed => "reversed",
        Order::Shuffled => "shuffled",
    }
}

fn delivery_name(delivery: Delivery) -> &'static str {
    match delivery {
        Delivery::Ordered => "ordered",
        Delivery::Unordered => "unordered",
    }
}

fn load_name(load: Load) -> &'static str {
    match load {
        Load::Short => "exchange of 100 bytes, a message a packet",
        Load::Ten => "exchange of 100 bytes, ten messages a packet",
        Load::Full => "exchange of 1200 bytes, a message a packet",
    }
}

fn size_name(size: Size) -> &'static str {
    match size {
        Size::Kib16 => "exchange of 16384 bytes",
        Size::Kib64 => "exchange of 65536 bytes",
    }
}

fn sum_name(sum: Sum) -> &'static str {
    match sum {
        Sum::Zero => "sum 0",
        Sum::Crc32c => "CRC-32C",
    }
}

/// The call that a scenario times while much is held; no word where it is another scenario.
pub fn call_name(scenario: Scenario) -> &'static str {
    match scenario {
        Scenario::Touch(Touch::Push, _) => "push",
        Scenario::Touch(Touch::Pop, _) => "pop",
        Scenario::Touch(Touch::Get, _) => "get",
        Scenario::Touch(Touch::Mark, _) => "mark_as_acked",
        Scenario::Sending(call, _) => sending_name(call),
        Scenario::Receiving(call, _) => receiving_name(call),
        _ => "",
    }
}

fn sending_name(call: Sending) -> &'static str {
    match call {
        Sending::Write => "Sender::write",
        Sending::SendNext => "Sender::send_next",
        Sending::Acked => "Sender::acked",
        Sending::AckedBlocks => "Sender::acked, 16000 blocks,",
        Sending::ExpireLate => "Sender::expire_late, all late,",
        Sending::NoneLate => "Sender::expire_late, none late,",
        Sending::Expire => "Sender::expire",
        Sending::ExpireEach => "Sender::expire, each one,",
        Sending::Close => "Sender::close",
        Sending::CloseEach => "Sender::close, every second one,",
    }
}

fn receiving_name(call: Receiving) -> &'static str {
    match call {
        Receiving::Data => "Receiver::data",
        Receiving::DataPairs => "Receiver::data, two chunks,",
        Receiving::Streams => "Receiver::data, two chunks, open streams,",
        Receiving::Sack => "Receiver::sack",
        Receiving::Read => "Receiver::read",
        Receiving::Skip => "Receiver::forward_tsn",
        Receiving::SkipNames => "Receiver::forward_tsn, 16381 numbers of a stream,",
        Receiving::Close => "Receiver::close",
        Receiving::CloseEach => "Receiver::close, every second one,",
    }
}

// How much is held.
fn held_in(scenario: Scenario) -> u32 {
    match scenario {
        Scenario::Touch(_, held) | Scenario::Sending(_, held) | Scenario::Receiving(_, held) =>
            held,
        _ => 0,
    }
}

/// The word for what a run gives.
pub fn what_of(scenario: Scenario) -> &'static str {
    match scenario {
        Scenario::OneMessage(_, _)
        | Scenario::Everyday(_, _)
        | Scenario::Asking(_, _)
        | Scenario::Steady(_, _)
        | Scenario::InTurn(_, _)
        | Scenario::SackWritten(_)
        | Scenario::Exchange(_)
        | Scenario::Linked(_) => "bytes",
        Scenario::GapBlocks(_, _) | Scenario::Sack(_) => "blocks",
        Scenario::Interleaved => "messages",
        Scenario::Touch(_, _) | Scenario::Sending(_, _) | Scenario::Receiving(_, _) => "in all",
        _ => "chunks",
    }
}
