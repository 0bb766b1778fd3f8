//! Plays the cases and the scripts of standard input to links, and reads lines that are no events.
//!
//! The first line says how often memory is taken, and given back, before anything is played. Then come blocks, with an empty line between
//! two: scripts, which are played to two links in step (`refusals`); cases, which begin with a name (`cases`); and `tables`, for the tables
//! of this program (`lines`). The first line that is printed is of the scripts. Behind it stands what a case or a table answered that
//! is not as it ought to be, or how many cases there were. The status is 0 where all is as it ought to be.
#![tactic(auto)]

pub mod callers;
mod cases;
mod lines;
mod refusals;

use self::refusals::turn::State;
use self::refusals::{print, take_memory};
use std::alloc::Global;
use std::io::{self, Read};
use std::process::ExitCode;

/// Plays blocks, with an empty line between two.
fn play_blocks(alloc: Global, blocks: &str, state: &mut State, log: &mut Vec<u8>) -> u32 {
    let mut count = 0u32;
    for block in blocks.split("\n\n") {
        if block.starts_with("== ") {
            cases::play_case(alloc, block, log);
            count = count.saturating_add(1);
        } else if block == "tables" {
            lines::read_tables(alloc, log);
        } else {
            refusals::play_script(alloc, block, state);
        }
    }
    count
}

/// Plays what standard input says, and prints what came of it. Answers whether all is as it ought to be.
fn play_input(rt: &HostRuntime, alloc: Global, input: &[u8], log: &mut Vec<u8>) -> bool {
    let text = str::from_utf8(input).unwrap_or("").trim_end();
    let (number, blocks) = text.split_once("\n\n").unwrap_or((text, ""));
    take_memory(alloc, number);
    let mut state = State::new();
    let count = play_blocks(alloc, blocks, &mut state, log);
    drop(rt.eprint(str::from_utf8(log).unwrap_or("")));
    if let Some(what) = state.fault {
        drop(eprintln!(rt; "differs at line {}: {what}", state.line));
    }
    let printed = print(&mut io::writer(rt), &state, count, log);
    printed && state.fault.is_none() && log.is_empty()
}

fn main(rt: HostRuntime) -> ExitCode {
    let alloc = rt.alloc();
    let mut input = Vec::new(alloc);
    let mut log = Vec::new(alloc);
    let read = rt.reader().read_to_end(&mut input);
    let is_well = read.is_ok() && play_input(&rt, alloc, &input, &mut log);
    drop(read);
    drop(input);
    drop(log);
    if is_well {
        ExitCode::SUCCESS
    } else {
        ExitCode::FAILURE
    }
}
