//! The association that is driven: the only file that calls it. `answer` and `print_all` are compiled apart from what calls them, and from what they
//! print by, so that evidence/message_costs.py counts its calls alone.

use crate::answer::{Answer, print_answer, print_datagram, print_event, print_next, print_refusal};
use crate::command::{Command, Message, Refusal, Timed, read_command};
use crate::setup::Setup;
use sctp_association::{Association, Fault};
use std::alloc::Global;
use std::io::{self, Write};

// More than a command tells or reads.
const MOST: u32 = 1_000_000;

/// An association, if there is one, and whether a line was refused that was no command.
#[derive(Drop)]
pub(crate) struct Host {
    alloc: Global,
    association: Option<Association>,
    has_failed: bool,
}

// Makes a fresh association.
fn fresh(alloc: Global, setup: &Setup) -> Result<Association, Fault> {
    Association::new(alloc, setup.config(), setup.secrets())
}

// Writes a message.
fn write(association: &mut Association, message: &Message) -> Result<Answer, Refusal> {
    if message.bytes.is_empty() {
        return Err(Refusal::Empty);
    }
    association.write(message.stream, message.ppi.into(), &message.bytes)?;
    Ok(Answer::Done)
}

// Reads the next message of a stream.
fn read(association: &mut Association, stream: u16, now: u64) -> Result<Answer, Refusal> {
    match association.read(stream, now)? {
        Some(message) => Ok(Answer::Message {
            stream,
            ppi: message.ppi().number(),
            message,
        }),
        None => Ok(Answer::Nothing),
    }
}

// Reads all that is there of a stream. A refusal ends it, where something was read.
fn take(association: &mut Association, stream: u16, now: u64) -> Result<Answer, Refusal> {
    let mut messages = 0u64;
    let mut bytes = 0u64;
    for _ in 0..MOST {
        match association.read(stream, now) {
            Ok(Some(message)) => {
                messages = messages.saturating_add(1);
                bytes = bytes.saturating_add(message.len() as u64);
                drop(message);
            }
            Ok(None) => break,
            Err(fault) if messages == 0 => return Err(Refusal::Refused(fault)),
            Err(_) => break,
        }
    }
    Ok(Answer::Took { messages, bytes })
}

// Carries out a command that has a moment.
fn perform(association: &mut Association, timed: &Timed, now: u64) -> Result<Answer, Refusal> {
    match timed {
        Timed::Connect => association.connect(now)?,
        Timed::Shutdown => association.shutdown(now)?,
        Timed::Abort => association.abort()?,
        Timed::Timeout => association.handle_timeout(now),
        Timed::Poll => {}
        Timed::In(datagram) => {
            return Ok(Answer::Taken(association.handle_datagram(datagram, now)?));
        }
        Timed::Write(message) => return write(association, message),
        Timed::Read(stream) => return read(association, *stream, now),
        Timed::Take(stream) => return take(association, *stream, now),
        Timed::Reset(stream) => association.reset_stream(*stream)?,
    }
    Ok(Answer::Done)
}

// Carries out a command.
#[inline(never)]
fn answer(association: &mut Association, command: &Command) -> Result<Answer, Refusal> {
    match command {
        Command::At(now, timed) => return perform(association, timed, *now),
        Command::Mode(mode) => {
            association.set_mode(mode.stream, mode.unordered, mode.reliability, mode.value)?;
        }
        Command::Look => {
            return Ok(Answer::Look {
                rtt: association.rtt(),
                cwnd: association.congestion_window(),
                peer_window: association.peer_window(),
            });
        }
        Command::Stats => return Ok(Answer::Stats(association.stats())),
        Command::StreamStats(stream) => {
            return Ok(match association.stream_stats(*stream) {
                Some(stats) => Answer::StreamStats(stats),
                None => Answer::Nothing,
            });
        }
        Command::State => return Ok(Answer::State(association.state())),
        Command::Restarted => return Ok(Answer::Restarted(association.has_restarted())),
        Command::Put(message) => return write(association, message),
        Command::New(_) => {}
    }
    Ok(Answer::Done)
}

// Prints each datagram that is due, and each event.
#[inline(never)]
fn print_all<W: Write>(association: &mut Association, now: u64, output: &mut W) -> io::Result<()> {
    print_datagrams(association, now, output)?;
    for _ in 0..MOST {
        match association.poll() {
            Some(event) => print_event(event, output)?,
            None => break,
        }
    }
    Ok(())
}

// Prints each datagram that is due.
fn print_datagrams<W: Write>(
    association: &mut Association,
    now: u64,
    output: &mut W,
) -> io::Result<()> {
    loop {
        match association.poll_transmit(now) {
            Ok(true) => print_datagram(association.datagram(), output)?,
            Ok(false) => break,
            Err(_) => return print_refusal(Refusal::Transmit, output),
        }
    }
    Ok(())
}

impl Host {
    /// No association yet.
    pub fn new(alloc: Global) -> Host {
        Host {
            alloc,
            association: None,
            has_failed: false,
        }
    }

    /// Whether a line was no command.
    pub fn has_failed(&self) -> bool {
        self.has_failed
    }

    /// Takes a line, and prints what it answers; a line without words answers nothing.
    pub fn take<W: Write>(&mut self, line: &str, output: &mut W) -> io::Result<()> {
        match read_command(self.alloc, line) {
            Ok(Some(command)) => {
                let followed = self.follow(&command, output);
                drop(command);
                followed?;
            }
            Ok(None) => return Ok(()),
            Err(refusal) => self.refuse(refusal, output)?,
        }
        self.print_next(output)
    }

    /// Answers a line that is no UTF-8.
    pub fn refuse_text<W: Write>(&mut self, output: &mut W) -> io::Result<()> {
        self.refuse(Refusal::BadText, output)?;
        self.print_next(output)
    }

    /// Answers a line for which there is no memory.
    pub fn refuse_memory<W: Write>(&mut self, output: &mut W) -> io::Result<()> {
        self.refuse(Refusal::Refused(Fault::OutOfMemory), output)?;
        self.print_next(output)
    }

    // Prints a refusal, and notes one of a line that is no command.
    fn refuse<W: Write>(&mut self, refusal: Refusal, output: &mut W) -> io::Result<()> {
        if matches!(
            refusal,
            Refusal::BadText | Refusal::BadCommand | Refusal::BadField
        ) {
            self.has_failed = true;
        }
        print_refusal(refusal, output)
    }

    // Prints when the next timer runs out.
    fn print_next<W: Write>(&self, output: &mut W) -> io::Result<()> {
        match &self.association {
            Some(association) => print_next(association.poll_timeout(), output),
            None => print_next(None, output),
        }
    }

    // Carries out a command, and prints what it answers. The first makes an association, if it is no `new`.
    fn follow<W: Write>(&mut self, command: &Command, output: &mut W) -> io::Result<()> {
        if let Command::New(setup) = command {
            return self.renew(setup, output);
        }
        if self.association.is_none() {
            self.renew(&Setup::new(), output)?;
        }
        let Some(association) = &mut self.association else {
            return Ok(());
        };
        match answer(association, command) {
            Ok(answer) => {
                let printed = print_answer(&answer, output);
                drop(answer);
                printed?;
            }
            Err(refusal) => print_refusal(refusal, output)?,
        }
        match command {
            Command::At(now, _) => print_all(association, *now, output),
            _ => Ok(()),
        }
    }

    // Makes a fresh association; where that is refused the one that is there stays.
    fn renew<W: Write>(&mut self, setup: &Setup, output: &mut W) -> io::Result<()> {
        match fresh(self.alloc, setup) {
            Ok(association) => {
                drop(self.association.replace(association));
                Ok(())
            }
            Err(fault) => print_refusal(Refusal::Refused(fault), output),
        }
    }
}
