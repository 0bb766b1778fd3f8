//! One event of a script, given to both links.

use super::compare::difference;
use linkscript::run::RunFault;
use linkscript::script::{LineFault, Play, print_reply, read_event};
use sctp_link::event::{Event, LinkRefusal, Reply};
use sctp_link::link::Link;
use sctp_util::util::Checksum;
use std::alloc::Global;
use std::io::{self, Write};

/// The checksum that is always 0.
#[derive(Clone, Copy)]
pub struct Zero;

impl Checksum for Zero {
    ghost sum = { λ _ bytes. 0 };

    fn checksum(&self, _head: &[u8], _tail: &[u8]) -> u32 {
        0
    }
}

/// Where memory was refused in a run.
#[derive(Clone, Copy)]
pub enum Refused {
    Nowhere,
    /// To the first link, in the event of this line.
    Line(u64),
    /// To its twin, or where an event was read or a reply printed.
    Beside,
}

/// What was not as it ought to be.
pub type Fault = &'static str;

/// The line that is played, where memory was refused so far, and what was not as it ought to be.
#[derive(Drop)]
pub struct State {
    pub line: u64,
    pub refused: Refused,
    pub fault: Option<Fault>,
}

impl State {
    /// Before the scripts, whose first line is behind the number and an empty line.
    pub fn new() -> State {
        State {
            line: 1,
            refused: Refused::Nowhere,
            fault: None,
        }
    }
}

/// What came of an event that a link was given.
#[derive(Clone, Copy)]
enum Came {
    AsDue,
    /// The link was refused memory.
    Refused,
    Wrong(Fault),
}

/// Reads an event, again where memory was refused.
fn read(alloc: Global, line: &str, state: &mut State) -> Result<Event, LineFault> {
    let event = read_event(alloc, line);
    if !matches!(event, Err(LineFault::Memory)) {
        return event;
    }
    drop(event);
    state.refused = Refused::Beside;
    read_event(alloc, line)
}

/// Whether an event may be refused memory.
fn may_be_refused(line: &str) -> bool {
    !line.starts_with("mode ")
        && !line.starts_with("start ")
        && !line.starts_with("expire ")
        && !line.starts_with("read ")
}

/// The text that is to be printed, of which this is left, as far as what was printed is like it.
#[derive(Drop)]
struct Sought<'a> {
    rest: &'a [u8],
    alike: bool,
}

impl Write for Sought<'_> {
    fn write(&mut self, buf: &[u8]) -> io::Result<usize> {
        match self
            .rest
            .strip_prefix(buf.strip_suffix(b"\n").unwrap_or(buf))
        {
            Some(rest) => self.rest = rest,
            None => self.alike = false,
        }
        Ok(buf.len())
    }

    fn flush(&mut self) -> io::Result<()> {
        Ok(())
    }
}

/// Whether a reply is printed like this, None where memory is refused.
fn is_printed(
    alloc: Global,
    reply: &Result<Reply, LinkRefusal>,
    counts: bool,
    want: &str,
) -> Option<bool> {
    let mut sought = Sought {
        rest: want.as_bytes(),
        alike: true,
    };
    match print_reply(alloc, &mut sought, reply, counts) {
        Ok(()) => Some(sought.alike && sought.rest.is_empty()),
        Err(RunFault::Memory) => None,
        Err(_) => Some(false),
    }
}

/// Whether a reply is printed like this, again where memory was refused.
fn is_due(
    alloc: Global,
    reply: &Result<Reply, LinkRefusal>,
    counts: bool,
    want: &str,
    state: &mut State,
) -> bool {
    if let Some(due) = is_printed(alloc, reply, counts, want) {
        return due;
    }
    state.refused = Refused::Beside;
    is_printed(alloc, reply, counts, want) == Some(true)
}

/// What a reply comes to, where this is due.
fn judged(
    alloc: Global,
    reply: &Result<Reply, LinkRefusal>,
    counts: bool,
    want: &str,
    state: &mut State,
) -> Came {
    if matches!(reply, Err(LinkRefusal::OutOfMemory)) {
        Came::Refused
    } else if is_due(alloc, reply, counts, want, state) {
        Came::AsDue
    } else {
        Came::Wrong("the reply")
    }
}

/// Gives a link an event, whose reply stands behind it.
fn given(alloc: Global, play: &mut Play<Zero>, line: &str, state: &mut State) -> Came {
    let (asked, want) = line.split_once(": ").unwrap_or((line, ""));
    match read(alloc, asked, state) {
        Ok(event) => {
            let reply = play.link.step(event);
            let came = judged(alloc, &reply, play.counts, want, state);
            drop(reply);
            came
        }
        Err(_) => Came::Wrong("an event was not read"),
    }
}

/// Gives a link again the event at which it was refused memory, and which its twin did not have yet. Both must be as before.
fn given_again(
    alloc: Global,
    play: &mut Play<Zero>,
    twin: &Link<Zero>,
    line: &str,
    state: &mut State,
) -> Came {
    state.refused = Refused::Line(state.line);
    if !may_be_refused(line) {
        return Came::Wrong("an event that takes no memory was refused");
    }
    match difference(&play.link, twin) {
        Some(what) => Came::Wrong(what),
        None => given(alloc, play, line, state),
    }
}

/// Gives an event to the first link and then to its twin. Each must answer what stands behind the event, and then both links must
/// be alike. The answer is what is not so.
pub fn play_line(
    alloc: Global,
    play: &mut Play<Zero>,
    twin: &mut Play<Zero>,
    line: &str,
    state: &mut State,
) -> Option<Fault> {
    let mut came = given(alloc, play, line, state);
    if matches!(came, Came::Refused) {
        came = given_again(alloc, play, &twin.link, line, state);
    }
    let mut other = given(alloc, twin, line, state);
    if matches!(other, Came::Refused) {
        state.refused = Refused::Beside;
        other = given(alloc, twin, line, state);
    }
    match (came, other) {
        (Came::AsDue, Came::AsDue) => difference(&play.link, &twin.link),
        (Came::Wrong(what), _) | (_, Came::Wrong(what)) => Some(what),
        _ => Some("the reply"),
    }
}
