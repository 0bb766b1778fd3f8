//! Drives an association by lines on standard input, and prints after each what it answers: for tests, replays and simulations.
#![tactic(auto)]

mod answer;
mod command;
mod host;
mod setup;
mod words;

use crate::host::Host;
use std::alloc::Global;
use std::io::{self, BufRead, BufReader, BufWriter, ErrorKind, Write};
use std::process::ExitCode;

// The bytes of a line for which there is room from the beginning: those of the longest datagram, in hex, and some.
const LONGEST: usize = 1 << 18;

// Takes a line that was read.
fn take_line<W: Write>(host: &mut Host, line: &[u8], output: &mut W) -> io::Result<()> {
    match str::from_utf8(line) {
        Ok(text) => host.take(text, output),
        Err(_) => host.refuse_text(output),
    }
}

// Takes each line as soon as it is there. One for which there is no memory is passed over.
fn run<R: BufRead, W: Write>(
    host: &mut Host,
    line: &mut Vec<u8>,
    input: &mut R,
    output: &mut W,
) -> io::Result<()> {
    for _ in 0..u64::MAX {
        line.clear();
        match input.read_until(b'\n', line) {
            Ok(0) => break,
            Ok(_) => take_line(host, line, output)?,
            Err(e) if e.kind() == ErrorKind::OutOfMemory => {
                input.skip_until(b'\n')?;
                host.refuse_memory(output)?;
            }
            Err(e) => return Err(e),
        }
        output.flush()?;
    }
    Ok(())
}

// Takes each line with a host of its own, and answers whether each was a command.
fn run_host<R: BufRead, W: Write>(
    alloc: Global,
    line: &mut Vec<u8>,
    input: &mut R,
    output: &mut W,
) -> io::Result<bool> {
    let mut host = Host::new(alloc);
    let ran = run(&mut host, line, input, output);
    let has_failed = host.has_failed();
    drop(host);
    ran?;
    Ok(!has_failed)
}

// Reads standard input to its end, and answers whether each line was a command.
fn run_all(rt: &HostRuntime, alloc: Global) -> io::Result<bool> {
    let mut input = BufReader::new(alloc, rt.reader())?;
    let mut output = BufWriter::new(alloc, io::writer(rt))?;
    let mut line = Vec::with_capacity(alloc, LONGEST)?;
    run_host(alloc, &mut line, &mut input, &mut output)
}

fn main(rt: HostRuntime) -> ExitCode {
    match run_all(&rt, rt.alloc()) {
        Ok(true) => ExitCode::SUCCESS,
        _ => ExitCode::FAILURE,
    }
}
