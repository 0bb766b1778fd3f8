//! Plays scripts to two links in step, and sees that a refusal of memory changes nothing.
//!
//! A link that answers OutOfMemory is compared with its twin, to which that event was not given yet, and is given the
//! event again. Each event must have the reply that stands behind it, and both links must be alike after it. Where all is as it ought
//! to be, the line that is printed of the scripts begins with `same`.
//!
//! The first line on standard input says how often memory is taken, and given back, before the scripts begin. So where
//! each run has the same allocation refused, this number says which one of the scripts it is. Behind each event stands its
//! reply: `open 1: opened`.

mod compare;
pub(crate) mod turn;

use self::turn::{Refused, State, Zero, play_line};
use linkscript::script::{Play, read_link};
use std::alloc::Global;
use std::io::{self, Write};

/// Plays a script, as far as its lines go so.
pub(crate) fn play_script(alloc: Global, script: &str, state: &mut State) {
    let (first, lines) = script.split_once('\n').unwrap_or((script, ""));
    state.line = state.line.saturating_add(2);
    match read_link(alloc, Zero, first) {
        Some(play) => play_with(alloc, play, read_link(alloc, Zero, first), lines, state),
        None => state.fault = state.fault.or(Some("a first line")),
    }
}

/// Plays the lines to a link and to its twin, where there is one, and drops both.
fn play_with(
    alloc: Global,
    mut play: Play<Zero>,
    twin: Option<Play<Zero>>,
    lines: &str,
    state: &mut State,
) {
    match twin {
        Some(mut twin) => {
            play_lines(alloc, &mut play, &mut twin, lines, state);
            drop(play);
            drop(twin);
        }
        None => {
            state.fault = state.fault.or(Some("a first line"));
            drop(play);
        }
    }
}

/// Plays the lines behind the first one, up to one that does not go as it says.
fn play_lines(
    alloc: Global,
    play: &mut Play<Zero>,
    twin: &mut Play<Zero>,
    lines: &str,
    state: &mut State,
) {
    for line in lines.split('\n') {
        if state.fault.is_none() {
            state.line = state.line.saturating_add(1);
            state.fault = play_line(alloc, play, twin, line, state);
        }
    }
}

/// Prints what came of the scripts, and then what came of the cases, if there were any. Answers whether all was printed.
pub(crate) fn print<W: Write>(output: &mut W, state: &State, count: u32, log: &[u8]) -> bool {
    let printed = match (state.fault, state.refused) {
        (Some(what), _) => write!(output, "differs at line {}: {what}\n", state.line),
        (None, Refused::Nowhere) => write!(output, "same\n"),
        (None, Refused::Line(line)) => write!(output, "same, line {line} refused\n"),
        (None, Refused::Beside) => write!(output, "same, refused beside the link\n"),
    };
    is_done(printed)
        && is_done(output.write_all(log))
        && (count == 0 || is_done(write!(output, "{count} cases\n")))
}

fn is_done(written: io::Result<()>) -> bool {
    written.is_ok()
}

/// Takes memory so often, and gives it back.
pub(crate) fn take_memory(alloc: Global, number: &str) {
    for _ in 0..number.parse::<u32>().unwrap_or(0) {
        drop(Vec::from_elem(alloc, 0u8, 1));
    }
}
