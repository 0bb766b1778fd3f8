//! Measures packets, queues, senders, receivers and links.
//!
//!     bench                          prints what came out of each run
//!     bench times                    and how long the fastest of many runs took
//!     bench times --against FILE     and beside it what FILE says of the row, and the ratio; a line of FILE is a row's name, a tab, and
//!                                    nanoseconds
//!     bench growth                   prints how the time of a call grows with what is held
//!     bench heap N                   holds N pairs in one state after another, and prints a line at each
#![tactic(auto)]

mod against;
mod asking;
mod ends;
mod everyday;
mod exchange;
mod growth;
mod heap;
mod linking;
mod names;
mod outbound;
mod packet;
mod packets;
mod pairs;
mod payload;
mod reassembly;
mod receiving;
mod runs;
mod sack;
mod scenario;
mod sending;
mod stream;
mod subject;
mod table;
mod timing;

use crate::against::bad_line;
use crate::table::Table;
use std::process::ExitCode;
use std::{env, fs};

/// What the command line may be.
const USAGE: &str = "bench [times [--against FILE] | growth | heap N]";

// Prints what came out, and the times that a table is asked for.
fn run(rt: &HostRuntime, table: &Table<'_>) -> anyhow::Result<ExitCode> {
    packets::run(rt, table)?;
    runs::run(rt, table)?;
    Ok(ExitCode::SUCCESS)
}

// Prints the times beside those of a file.
fn run_against(rt: &HostRuntime, file: &str) -> anyhow::Result<ExitCode> {
    let text = fs::read_to_string(rt, file)?;
    if let Some(number) = bad_line(text.as_str()) {
        eprintln!(rt; "bench: {file}: line {number} is not a row's name, a tab and nanoseconds")?;
        return Ok(ExitCode::FAILURE);
    }
    run(
        rt,
        &Table {
            is_timed: true,
            others: text.as_str(),
        },
    )
}

// Holds so many pairs, at most 65,535, and tells their states.
fn run_heap(rt: &HostRuntime, count: &str) -> anyhow::Result<ExitCode> {
    let Ok(count) = count.parse::<u16>() else {
        eprintln!(rt; "bench: {count} is no number of pairs below 65536")?;
        return Ok(ExitCode::FAILURE);
    };
    heap::run(rt, count)?;
    Ok(ExitCode::SUCCESS)
}

// The word at a place, empty where there are fewer.
fn word(words: &[String], place: usize) -> &str {
    match words.get(place) {
        Some(word) => word.as_str(),
        None => "",
    }
}

fn main(rt: HostRuntime) -> anyhow::Result<ExitCode> {
    let mut words = Vec::new(rt.alloc());
    for word in env::args(&rt)?.skip(1) {
        words.push(word)?;
    }
    match (
        word(&words, 0),
        word(&words, 1),
        word(&words, 2),
        words.len(),
    ) {
        ("", _, _, 0) => run(&rt, &Table::new(false)),
        ("times", _, _, 1) => run(&rt, &Table::new(true)),
        ("times", "--against", file, 3) => run_against(&rt, file),
        ("growth", _, _, 1) => {
            growth::run(&rt)?;
            Ok(ExitCode::SUCCESS)
        }
        ("heap", count, _, 2) => run_heap(&rt, count),
        _ => {
            eprintln!(&rt; "usage: {USAGE}")?;
            Ok(ExitCode::FAILURE)
        }
    }
}
