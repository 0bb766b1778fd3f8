//! Callers of the queues and of the halves of a link, and tests of them.
//!
//! The program prints the name of each case that does not hold, and `all hold` where there is none; then its status is 0.
#![tactic(auto)]

mod bound_tests;
mod counted_tests;
mod cut_sack_tests;
mod ended;
mod host;
mod hosts;
mod log;
mod part;
pub mod queues;
mod receiver_tests;
mod receivers;
pub mod receiving;
mod repeat_tests;
mod rules_tests;
mod sender_tests;
pub mod sending;

use crate::log::check;
use std::alloc::Global;
use std::io::{self, Write};
use std::process::ExitCode;

// The cases of halves of a link.
fn of_halves(alloc: Global, log: &mut Vec<u8>) {
    sender_tests::sender_cases(alloc, log);
    receiver_tests::receiver_cases(alloc, log);
    cut_sack_tests::cut_sacks(alloc, log);
    let bounded = bound_tests::bounded(alloc);
    check(
        log,
        bounded,
        "2^14 ordered messages of a stream are in flight at most",
    );
    let closes = bound_tests::sender_closes_the_middle(alloc);
    check(log, closes, "the middle one of three streams is closed");
    let counted = counted_tests::taken_counted(alloc);
    check(
        log,
        counted,
        "DATA chunks are taken with their turns counted",
    );
    let noted = repeat_tests::repeats(alloc);
    check(log, noted, "16,379 repeats are noted at most");
    let empty = rules_tests::no_user_data(alloc);
    check(log, empty, "a DATA chunk without user data");
}

fn main(rt: HostRuntime) -> ExitCode {
    let alloc = rt.alloc();
    let mut log = Vec::new(alloc);
    queues::all(alloc, &mut log);
    of_halves(alloc, &mut log);
    let holds = log.is_empty();
    let text = if holds { b"all hold\n" } else { log.as_slice() };
    let _ = rt.eprint(str::from_utf8(text).unwrap_or(""));
    match io::writer(&rt).write_all(text) {
        Ok(()) if holds => ExitCode::SUCCESS,
        _ => ExitCode::FAILURE,
    }
}
