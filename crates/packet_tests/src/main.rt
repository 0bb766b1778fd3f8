//! Callers of packets, parameters, cookies and messages that open channels, and tests of these, of byte sources, sums and chunks.
//!
//! The program prints each row and each check that does not hold, and `all hold` where there is none; then its status is 0.
#![tactic(auto)]

mod bundle_tests;
mod capture_tests;
pub mod channels;
mod cookie_tests;
pub mod cookies;
mod dcep_tests;
mod kind_tests;
mod log;
pub mod packets;
mod param_tests;
pub mod parameters;
mod source_tests;
mod sum_tests;
mod tests;

use std::io::{self, Write};
use std::process::ExitCode;

fn main(rt: HostRuntime) -> ExitCode {
    let alloc = rt.alloc();
    let mut log = Vec::new(alloc);
    source_tests::all(alloc, &mut log);
    param_tests::all(alloc, &mut log);
    tests::all(alloc, &mut log);
    kind_tests::all(alloc, &mut log);
    bundle_tests::all(alloc, &mut log);
    capture_tests::recorded_datagrams_are_written_back(alloc, &mut log);
    sum_tests::known_sums(&mut log);
    cookie_tests::all(alloc, &mut log);
    dcep_tests::all(alloc, &mut log);
    let holds = log.is_empty();
    let text = if holds { b"all hold\n" } else { log.as_slice() };
    let _ = rt.eprint(str::from_utf8(text).unwrap_or(""));
    match io::writer(&rt).write_all(text) {
        Ok(()) if holds => ExitCode::SUCCESS,
        _ => ExitCode::FAILURE,
    }
}
