//! What a line asks for.

use crate::setup::Setup;
use crate::words::{Words, number_of};
use bytes::Bytes;
use hex::FromHexError;
use sctp_association::{Fault, ReliabilityType};
use std::alloc::{AllocError, AllocFailed, Global};

/// Why a line is refused.
#[derive(Clone, Copy)]
pub(crate) enum Refusal {
    /// It is no UTF-8.
    BadText,
    /// Its first word is no command.
    BadCommand,
    /// A field is missing, is no such field, or is one too many.
    BadField,
    /// A message has no bytes.
    Empty,
    /// The association refuses it, or there is no memory for it.
    Refused(Fault),
    /// There is no memory for a datagram that is due, though the command was carried out.
    Transmit,
}

impl From<Fault> for Refusal {
    fn from(fault: Fault) -> Refusal {
        Refusal::Refused(fault)
    }
}

impl From<AllocError> for Refusal {
    fn from(_e: AllocError) -> Refusal {
        Refusal::Refused(Fault::OutOfMemory)
    }
}

impl<T: Drop> From<AllocFailed<T>> for Refusal {
    fn from(_e: AllocFailed<T>) -> Refusal {
        Refusal::Refused(Fault::OutOfMemory)
    }
}

/// How messages of a stream are sent.
#[derive(Clone, Copy)]
pub(crate) struct Mode {
    pub stream: u16,
    pub unordered: bool,
    pub reliability: ReliabilityType,
    pub value: u32,
}

/// A message to be written.
#[derive(Drop)]
pub(crate) struct Message {
    pub stream: u16,
    pub ppi: u32,
    pub bytes: Bytes,
}

/// A command. Moments are in nanoseconds.
#[derive(Drop)]
pub(crate) enum Command {
    New(Setup),
    Mode(Mode),
    State,
    Restarted,
    Look,
    Stats,
    StreamStats(u16),
    /// Writes a message, and sends nothing.
    Put(Message),
    /// One that has a moment.
    At(u64, Timed),
}

/// A command that has a moment.
#[derive(Drop)]
pub(crate) enum Timed {
    Connect,
    Shutdown,
    Abort,
    Timeout,
    Poll,
    In(Bytes),
    Write(Message),
    Read(u16),
    Take(u16),
    Reset(u16),
}

// The most bytes of a message that is counted up.
const MOST_BYTES: u64 = 1 << 24;

/// Reads the command of a line; None where it has no words.
pub(crate) fn read_command(alloc: Global, line: &str) -> Result<Option<Command>, Refusal> {
    let mut words = Words::new(line);
    let Some(word) = words.word() else {
        return Ok(None);
    };
    let command = match word {
        "new" => Command::New(Setup::read(&mut words)?),
        "mode" => Command::Mode(read_mode(&mut words).ok_or(Refusal::BadField)?),
        "state" => Command::State,
        "restarted" => Command::Restarted,
        "look" => Command::Look,
        "stats" => Command::Stats,
        "streamstats" => Command::StreamStats(words.stream().ok_or(Refusal::BadField)?),
        "put" => Command::Put(read_message(alloc, &mut words)?),
        _ => read_timed(alloc, word, &mut words)?,
    };
    if !words.is_empty() {
        drop(command);
        return Err(Refusal::BadField);
    }
    Ok(Some(command))
}

// Whether a word is that of a command that has a moment.
fn is_timed(word: &str) -> bool {
    matches!(
        word,
        "connect"
            | "shutdown"
            | "abort"
            | "timeout"
            | "poll"
            | "in"
            | "write"
            | "read"
            | "take"
            | "reset"
    )
}

// Reads a command that has a moment.
fn read_timed(alloc: Global, word: &str, words: &mut Words) -> Result<Command, Refusal> {
    if !is_timed(word) {
        return Err(Refusal::BadCommand);
    }
    let now = words.moment().ok_or(Refusal::BadField)?;
    let timed = match word {
        "connect" => Timed::Connect,
        "shutdown" => Timed::Shutdown,
        "abort" => Timed::Abort,
        "timeout" => Timed::Timeout,
        "poll" => Timed::Poll,
        "in" => Timed::In(bytes_of(alloc, words.word().ok_or(Refusal::BadField)?)?),
        "write" => Timed::Write(read_message(alloc, words)?),
        _ => read_of_stream(word, words.stream().ok_or(Refusal::BadField)?),
    };
    Ok(Command::At(now, timed))
}

// The command of a stream.
fn read_of_stream(word: &str, stream: u16) -> Timed {
    match word {
        "read" => Timed::Read(stream),
        "take" => Timed::Take(stream),
        _ => Timed::Reset(stream),
    }
}

// Reads a mode.
fn read_mode(words: &mut Words) -> Option<Mode> {
    let stream = words.stream()?;
    let unordered = match words.word()? {
        "ordered" => false,
        "unordered" => true,
        _ => return None,
    };
    let (reliability, value) = match words.word()? {
        "reliable" => (ReliabilityType::Reliable, 0),
        "rexmit" => (ReliabilityType::Rexmit, words.number()?),
        "timed" => (ReliabilityType::Timed, words.number()?),
        _ => return None,
    };
    Some(Mode {
        stream,
        unordered,
        reliability,
        value,
    })
}

// Reads a message.
fn read_message(alloc: Global, words: &mut Words) -> Result<Message, Refusal> {
    let stream = words.stream().ok_or(Refusal::BadField)?;
    let ppi = words.number().ok_or(Refusal::BadField)?;
    let text = words.word().ok_or(Refusal::BadField)?;
    let bytes = match text.strip_prefix('*') {
        Some(count) => counted(alloc, count)?,
        None => bytes_of(alloc, text)?,
    };
    Ok(Message { stream, ppi, bytes })
}

// The bytes of hex text; of `-`, none.
fn bytes_of(alloc: Global, text: &str) -> Result<Bytes, Refusal> {
    if text == "-" {
        return Ok(Bytes::new());
    }
    match hex::decode(alloc, text) {
        Ok(bytes) => Ok(Bytes::from_vec(bytes)?),
        Err(FromHexError::OutOfMemory) => Err(Refusal::Refused(Fault::OutOfMemory)),
        Err(_) => Err(Refusal::BadField),
    }
}

// So many bytes, counted up from 0.
fn counted(alloc: Global, text: &str) -> Result<Bytes, Refusal> {
    let count = number_of(text, MOST_BYTES).ok_or(Refusal::BadField)?;
    let mut bytes = Vec::with_capacity(alloc, count as usize)?;
    for place in 0..count {
        bytes.push((place & 255) as u8)?;
    }
    Ok(Bytes::from_vec(bytes)?)
}
