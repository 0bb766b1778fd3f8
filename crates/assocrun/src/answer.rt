//! What is printed.

use crate::command::Refusal;
use sctp_association::{
    Chunks, DataChannelStats, Ending, Event, Fault, Reason, State, Stats, Taken,
};
use std::io::{self, Write};

/// What a command answers.
#[derive(Drop)]
pub(crate) enum Answer {
    /// Nothing is to be said.
    Done,
    Taken(Taken),
    Message {
        stream: u16,
        ppi: u32,
        message: Chunks,
    },
    /// There is no message.
    Nothing,
    Took {
        messages: u64,
        bytes: u64,
    },
    State(State),
    /// Whether the peer has begun again.
    Restarted(bool),
    Look {
        rtt: Option<u64>,
        cwnd: usize,
        peer_window: usize,
    },
    Stats(Stats),
    StreamStats(DataChannelStats),
}

// How many bytes are written as hex text at once.
const AT_ONCE: usize = 512;

// Writes bytes as hex text. It takes no memory.
fn print_hex<W: Write>(bytes: &[u8], output: &mut W) -> io::Result<()> {
    let mut text = [0u8; 2 * AT_ONCE];
    for part in bytes.chunks(AT_ONCE) {
        if let Some(room) = text.get_mut(..part.len().saturating_mul(2)) {
            if hex::encode_to_slice(part, room).is_ok() {
                output.write_all(room)?;
            }
        }
    }
    Ok(())
}

/// Prints a datagram that is sent.
#[inline(never)]
pub(crate) fn print_datagram<W: Write>(datagram: &[u8], output: &mut W) -> io::Result<()> {
    write!(output, "out ")?;
    print_hex(datagram, output)?;
    write!(output, "\n")
}

// Prints a message that is read.
fn print_message<W: Write>(
    stream: u16,
    ppi: u32,
    message: &Chunks,
    output: &mut W,
) -> io::Result<()> {
    write!(output, "message {stream} {ppi} ")?;
    if message.is_empty() {
        write!(output, "-")?;
    }
    for fragment in message.fragments() {
        print_hex(fragment.user_data.as_slice(), output)?;
    }
    write!(output, "\n")
}

/// Prints when the next timer runs out, in microseconds, rounded up.
pub(crate) fn print_next<W: Write>(at: Option<u64>, output: &mut W) -> io::Result<()> {
    match at {
        Some(at) => write!(output, "next {}\n", at.div_ceil(1000)),
        None => write!(output, "next none\n"),
    }
}

// Prints what can be looked at.
fn print_look<W: Write>(
    rtt: Option<u64>,
    cwnd: usize,
    peer_window: usize,
    output: &mut W,
) -> io::Result<()> {
    match rtt {
        Some(rtt) => write!(output, "rtt {} ", rtt / 1000)?,
        None => write!(output, "rtt none ")?,
    }
    write!(output, "cwnd {cwnd} peer_window {peer_window}\n")
}

// Prints the counts of the association.
fn print_stats<W: Write>(stats: &Stats, output: &mut W) -> io::Result<()> {
    let Stats {
        waiting,
        outstanding,
        resent,
        timeouts,
        held,
    } = *stats;
    write!(output, "waiting {waiting} outstanding {outstanding} ")?;
    write!(output, "resent {resent} timeouts {timeouts} held {held}\n")
}

// Prints the counts of a stream.
fn print_stream_stats<W: Write>(stats: &DataChannelStats, output: &mut W) -> io::Result<()> {
    let (messages, bytes) = (stats.messages_sent, stats.bytes_sent);
    write!(output, "written {messages} {bytes} ")?;
    let (messages, bytes) = (stats.messages_received, stats.bytes_received);
    write!(output, "read {messages} {bytes}\n")
}

/// Prints an answer.
pub(crate) fn print_answer<W: Write>(answer: &Answer, output: &mut W) -> io::Result<()> {
    match answer {
        Answer::Done => Ok(()),
        Answer::Taken(Taken::Accepted) => write!(output, "accepted\n"),
        Answer::Taken(Taken::Partly) => write!(output, "partly\n"),
        Answer::Taken(Taken::Dropped(reason)) => {
            write!(output, "dropped {}\n", word_of_reason(*reason))
        }
        Answer::Message {
            stream,
            ppi,
            message,
        } => print_message(*stream, *ppi, message, output),
        Answer::Nothing => write!(output, "none\n"),
        Answer::Took { messages, bytes } => write!(output, "took {messages} {bytes}\n"),
        Answer::State(state) => write!(output, "state {}\n", word_of_state(*state)),
        Answer::Restarted(true) => write!(output, "restarted yes\n"),
        Answer::Restarted(false) => write!(output, "restarted no\n"),
        Answer::Look {
            rtt,
            cwnd,
            peer_window,
        } => print_look(*rtt, *cwnd, *peer_window, output),
        Answer::Stats(stats) => print_stats(stats, output),
        Answer::StreamStats(stats) => print_stream_stats(stats, output),
    }
}

/// Prints a refusal.
pub(crate) fn print_refusal<W: Write>(refusal: Refusal, output: &mut W) -> io::Result<()> {
    match refusal {
        Refusal::BadText => write!(output, "error text\n"),
        Refusal::BadCommand => write!(output, "error command\n"),
        Refusal::BadField => write!(output, "error field\n"),
        Refusal::Empty => write!(output, "refused empty\n"),
        Refusal::Refused(fault) => write!(output, "refused {}\n", word_of_fault(fault)),
        Refusal::Transmit => write!(output, "refused transmit\n"),
    }
}

fn word_of_fault(fault: Fault) -> &'static str {
    match fault {
        Fault::OutOfMemory => "memory",
        Fault::WrongState => "wrongstate",
        Fault::NoSuchStream => "nosuchstream",
        Fault::MessageTooLarge => "messagetoolarge",
        Fault::Full => "full",
        Fault::Resetting => "resetting",
        Fault::BadConfig => "badconfig",
    }
}

fn word_of_reason(reason: Reason) -> &'static str {
    match reason {
        Reason::NoPacket => "nopacket",
        Reason::Checksum => "checksum",
        Reason::Ports => "ports",
        Reason::Tag => "tag",
        Reason::Unexpected => "unexpected",
    }
}

fn word_of_state(state: State) -> &'static str {
    match state {
        State::Closed => "closed",
        State::CookieWait => "cookiewait",
        State::CookieEchoed => "cookieechoed",
        State::Established => "established",
        State::ShutdownPending => "shutdownpending",
        State::ShutdownSent => "shutdownsent",
        State::ShutdownReceived => "shutdownreceived",
        State::ShutdownAckSent => "shutdownacksent",
    }
}

fn word_of_ending(ending: Ending) -> &'static str {
    match ending {
        Ending::Shutdown => "shutdown",
        Ending::AbortedByPeer => "abortedbypeer",
        Ending::Aborted => "aborted",
        Ending::Unanswered => "unanswered",
    }
}

/// Prints an event.
#[inline(never)]
pub(crate) fn print_event<W: Write>(event: Event, output: &mut W) -> io::Result<()> {
    match event {
        Event::Connected => write!(output, "event connected\n"),
        Event::Restarted => write!(output, "event restarted\n"),
        Event::Readable(stream) => write!(output, "event readable {stream}\n"),
        Event::BufferedAmountLow(stream) => write!(output, "event bufferedamountlow {stream}\n"),
        Event::ResetByUs(stream) => write!(output, "event resetbyus {stream}\n"),
        Event::ResetRefused(stream) => write!(output, "event resetrefused {stream}\n"),
        Event::ResetByPeer(stream) => write!(output, "event resetbypeer {stream}\n"),
        Event::TooLong(stream) => write!(output, "event toolong {stream}\n"),
        Event::PeerError(cause) => write!(output, "event peererror {cause}\n"),
        Event::Shutdown => write!(output, "event shutdown\n"),
        Event::Closed(ending) => write!(output, "event closed {}\n", word_of_ending(ending)),
    }
}
