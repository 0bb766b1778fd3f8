//! A script from its first byte to its last reply.

ghost use Rattle.std.specs.Prelude.{◌≡◌, ◌⊎◌, IfOk};

use crate::script::{LineFault, Play, print_reply, read_event, read_link};
use sctp_util::util::Checksum;
use std::alloc::Global;
use std::io::{ErrorKind, Read, Write};
use std::str::Split;

/// Why a run ended early.
#[derive(Clone, Copy, Debug, PartialEq, Eq)]
pub enum RunFault {
    /// The reader failed, or its bytes are no UTF-8.
    Input,
    /// The writer failed.
    Output,
    /// Memory ran out where the script was read or a reply was printed; a link that wants memory answers an event with a refusal.
    Memory,
}

/// Reads a script whole, makes the link that its first line says, under this checksum, runs each further line as an event, and prints
/// a line for each reply. The status is 0, or 2 where a line cannot be read: then `bad line` and its number, from 1, are printed
/// last, and the lines behind it are not run.
pub fn run_under<C: Checksum + Drop, R: Read, W: Write>(
    alloc: Global,
    checksum: C,
    input: &mut R,
    output: &mut W,
) -> Result<u8, RunFault>
    ensures { IfOk result (λ status. (status ≡ 0) ⊎ (status ≡ 2)) }
{
    let mut script = Vec::new(alloc);
    match input.read_to_end(&mut script) {
        Ok(_) => {}
        Err(e) if e.kind() == ErrorKind::OutOfMemory => return Err(RunFault::Memory),
        Err(_) => return Err(RunFault::Input),
    }
    let Ok(text) = str::from_utf8(&script) else {
        return Err(RunFault::Input);
    };
    run_text(alloc, checksum, text, output)
}

fn run_text<C: Checksum + Drop, W: Write>(
    alloc: Global,
    checksum: C,
    text: &str,
    output: &mut W,
) -> Result<u8, RunFault>
    ensures { IfOk result (λ status. (status ≡ 0) ⊎ (status ≡ 2)) }
{
    let text = text.strip_suffix('\n').unwrap_or(text);
    let mut lines = text.split('\n');
    let first = lines.next().unwrap_or("");
    match read_link(alloc, checksum, first) {
        Some(mut play) => run_lines(alloc, &mut play, lines, output),
        None => bad_line(output, 1),
    }
}

/// Runs the lines behind the first one.
fn run_lines<C: Checksum + Drop, W: Write>(
    alloc: Global,
    play: &mut Play<C>,
    lines: Split<'_, char>,
    output: &mut W,
) -> Result<u8, RunFault>
    ensures { IfOk result (λ status. (status ≡ 0) ⊎ (status ≡ 2)) }
{
    let mut number = 1u64;
    for line in lines {
        number = number.saturating_add(1);
        if !run_line(alloc, play, line, output)? {
            return bad_line(output, number);
        }
    }
    Ok(0)
}

/// Runs a line as an event, and prints the reply; false where it cannot be read.
fn run_line<C: Checksum + Drop, W: Write>(
    alloc: Global,
    play: &mut Play<C>,
    line: &str,
    output: &mut W,
) -> Result<bool, RunFault> {
    match read_event(alloc, line) {
        Ok(event) => {
            print_reply(alloc, output, &play.link.step(event), play.counts)?;
            Ok(true)
        }
        Err(LineFault::Unreadable) => Ok(false),
        Err(LineFault::Memory) => Err(RunFault::Memory),
    }
}

fn bad_line<W: Write>(output: &mut W, number: u64) -> Result<u8, RunFault>
    ensures { IfOk result (λ status. status ≡ 2) }
{
    match write!(output, "bad line {number}\n") {
        Ok(()) => Ok(2),
        Err(_) => Err(RunFault::Output),
    }
}
