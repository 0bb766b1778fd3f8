//! Plays a case: a name, the first line of a script, and lines of an event and its reply, or of a question and its answer.
//!
//! The link of a case is under a checksum that is always 0. Its events are also run as one script, under CRC-32C, and print the same replies.

use crate::lines::prints;
use linkscript::script::{LineFault, Play, print_reply, read_event, read_link};
use sctp_link::event::Event;
use sctp_link::link::Link;
use sctp_util::util::Checksum;
use std::alloc::Global;
use std::cell::Cell;
use std::io::Write;

/// Always 0, and counts how often it was asked.
#[derive(Drop)]
struct Counted<'a> {
    calls: &'a Cell<u32>,
}

impl Checksum for Counted<'_> {
    ghost sum = { λ _ bytes. 0 };

    fn checksum(&self, _head: &[u8], _tail: &[u8]) -> u32 {
        self.calls.set(self.calls.get().wrapping_add(1));
        0
    }
}

/// A case that is played.
#[derive(Drop)]
struct Run<'a> {
    play: Play<Counted<'a>>,
    calls: &'a Cell<u32>,
    /// How often the checksum was asked before the last event.
    before: u32,
    /// How many lines the script has so far.
    lines: u64,
    script: Vec<u8>,
    replies: Vec<u8>,
    status: u8,
}

/// The header of each datagram, under the checksum that is 0.
const HEADER: [u8; 12] = [0x13, 0x88, 0x13, 0x88, 0, 0, 0, 1, 0, 0, 0, 0];

/// Plays a case, and puts to the log each line that is not answered as it says.
pub(crate) fn play_case(alloc: Global, case: &str, log: &mut Vec<u8>) {
    let (name, lines) = case.split_once('\n').unwrap_or((case, ""));
    let (first, lines) = lines.split_once('\n').unwrap_or((lines, ""));
    let calls = Cell::new(0);
    match read_link(alloc, Counted { calls: &calls }, first) {
        Some(play) => play_lines(alloc, play, &calls, name, (first, lines), log),
        None => note(log, name, first, b"is no first line"),
    }
}

/// Puts to the log what a line of a case was answered.
fn note(log: &mut Vec<u8>, name: &str, line: &str, answer: &[u8]) {
    drop(write!(log, "{name}: {line}: "));
    let _ = log.extend_from_slice(answer);
    put_word("\n", log);
}

/// Plays the lines behind the first one.
fn play_lines<'a>(
    alloc: Global,
    play: Play<Counted<'a>>,
    calls: &'a Cell<u32>,
    name: &str,
    text: (&str, &str),
    log: &mut Vec<u8>,
) {
    let mut run = Run {
        play,
        calls,
        before: 0,
        lines: 1,
        script: Vec::new(alloc),
        replies: Vec::new(alloc),
        status: 0,
    };
    play_each(alloc, &mut run, name, text, log);
    drop(run);
}

fn play_each(alloc: Global, run: &mut Run, name: &str, text: (&str, &str), log: &mut Vec<u8>) {
    let (first, lines) = text;
    put_line(first, &mut run.script);
    for line in lines.lines() {
        play_line(alloc, run, name, line, log);
    }
    // the events so far, as one script under CRC-32C, print the replies so far
    if !prints(alloc, &run.script, &run.replies, Ok(run.status)) {
        note(log, name, "as one script", b"prints something else");
    }
}

fn play_line(alloc: Global, run: &mut Run, name: &str, line: &str, log: &mut Vec<u8>) {
    let (asked, want) = line.split_once(": ").unwrap_or((line, ""));
    let mut out = Vec::new(alloc);
    put_answer(alloc, run, asked, want, &mut out);
    if out.as_slice() != want.as_bytes() {
        note(log, name, asked, &out);
    }
    drop(out);
}

/// Puts the answer to a line.
fn put_answer(alloc: Global, run: &mut Run, asked: &str, want: &str, out: &mut Vec<u8>) {
    let (word, field) = asked.split_once(' ').unwrap_or((asked, ""));
    if word == "each" {
        put_each(alloc, run, field, want, out);
    } else if !put_told(run, word, field.parse::<u64>().unwrap_or(0), out) {
        put_reply(alloc, run, asked, out);
    }
}

/// Puts the reply to an event.
fn put_reply(alloc: Global, run: &mut Run, line: &str, out: &mut Vec<u8>) {
    run.before = run.calls.get();
    run.lines = run.lines.saturating_add(1);
    put_line(line, &mut run.script);
    put_step(alloc, run, read_event(alloc, line), out);
    let _ = run.replies.extend_from_slice(out);
    out.pop();
}

fn put_step(alloc: Global, run: &mut Run, event: Result<Event, LineFault>, out: &mut Vec<u8>) {
    match event {
        Ok(event) => {
            let reply = run.play.link.step(event);
            let _ = print_reply(alloc, out, &reply, run.play.counts);
            drop(reply);
        }
        Err(_) => {
            run.status = 2;
            drop(write!(out, "bad line {}\n", run.lines));
        }
    }
}

/// Gives events, as `1 2 9 arrive #; read 1`, nine times, with 1, 3, .. in the place of `#`. Puts the first reply that does not
/// begin as is wanted; where each does, what is wanted.
fn put_each(alloc: Global, run: &mut Run, field: &str, want: &str, out: &mut Vec<u8>) {
    let mut events = field;
    let mut k = take_number(&mut events);
    let step = take_number(&mut events);
    for _ in 0..take_number(&mut events) {
        put_turn(alloc, run, k, events, want, out);
        k = k.wrapping_add(step);
    }
    if out.is_empty() {
        put_word(want, out);
    }
}

fn take_number(rest: &mut &str) -> u64 {
    let (word, others) = rest.split_once(' ').unwrap_or((*rest, ""));
    *rest = others;
    word.parse::<u64>().unwrap_or(0)
}

fn put_turn(alloc: Global, run: &mut Run, k: u64, events: &str, wants: &str, out: &mut Vec<u8>) {
    for (event, want) in events.split("; ").zip(wants.split("; ")) {
        let mut reply = Vec::new(alloc);
        match event.strip_suffix('#') {
            Some(stem) => put_numbered(alloc, run, stem, k, &mut reply),
            None => put_reply(alloc, run, event, &mut reply),
        }
        if out.is_empty() && !reply.starts_with(want.as_bytes()) {
            let _ = out.extend_from_slice(&reply);
        }
        drop(reply);
    }
}

fn put_numbered(alloc: Global, run: &mut Run, stem: &str, k: u64, out: &mut Vec<u8>) {
    let mut line = String::new(alloc);
    let _ = write!(line, "{stem}{k}");
    put_reply(alloc, run, line.as_str(), out);
    drop(line);
}

/// Puts the answer to a question about the link; false where the word asks none.
fn put_told(run: &Run, word: &str, number: u64, out: &mut Vec<u8>) -> bool {
    let link = &run.play.link;
    let stream = u16::try_from(number).unwrap_or(0);
    match word {
        // the bytes of a datagram, H for its header; of a sack, those behind byte 16 as words
        "datagram" => put_datagram(link, number, usize::MAX, out),
        "sack" => put_datagram(link, number, 16, out),
        // bytes written, pending, in flight and released
        "ledger" => put_ledger(link, out),
        "stats" => put_stats(link, stream, out),
        "buffered" => put_number(link.buffered_amount(stream), out),
        // bytes of a stream's reassembly queue
        "held" => put_number(held(link, stream), out),
        "filter" => put_number(Some(link.filter().len() as u64), out),
        "inflight" => put_number(Some(link.outbound().inflight_len() as u64), out),
        "earliest" => put_number(earliest(link), out),
        // how often a TSN was sent, and when first
        "noted" => put_noted(link, u32::try_from(number).unwrap_or(0), out),
        // whether the last event asked the checksum
        "asked" => put_word(
            if run.calls.get() > run.before {
                "yes"
            } else {
                "no"
            },
            out,
        ),
        _ => return false,
    }
    true
}

fn put_word(word: &str, out: &mut Vec<u8>) {
    let _ = out.extend_from_slice(word.as_bytes());
}

fn put_line(line: &str, out: &mut Vec<u8>) {
    put_word(line, out);
    put_word("\n", out);
}

fn put_number(number: Option<u64>, out: &mut Vec<u8>) {
    match number {
        Some(number) => put_numbers(&[number], out),
        None => put_word("none", out),
    }
}

/// Puts numbers, one space apart.
fn put_numbers(numbers: &[u64], out: &mut Vec<u8>) {
    let mut gap = "";
    for number in numbers {
        drop(write!(out, "{gap}{number}"));
        gap = " ";
    }
}

fn held(link: &Link<Counted>, stream: u16) -> Option<u64> {
    Some(link.reassembly(stream)?.get_num_bytes() as u64)
}

fn earliest(link: &Link<Counted>) -> Option<u64> {
    Some(u64::from(link.outbound().earliest_outstanding_tsn()?))
}

fn put_ledger(link: &Link<Counted>, out: &mut Vec<u8>) {
    let it = link.ledger();
    put_numbers(&[it.written, it.pending, it.in_flight, it.released], out);
}

fn put_stats(link: &Link<Counted>, stream: u16, out: &mut Vec<u8>) {
    let Some(it) = link.stats(stream) else {
        return put_word("none", out);
    };
    let stream = u64::from(it.stream_identifier);
    let sent = [stream, it.generation, it.messages_sent, it.bytes_sent];
    put_numbers(&sent, out);
    put_word(" ", out);
    put_numbers(&[it.messages_received, it.bytes_received], out);
}

fn put_noted(link: &Link<Counted>, tsn: u32, out: &mut Vec<u8>) {
    match link.outbound().get(tsn) {
        Some(chunk) => {
            put_numbers(&[u64::from(chunk.nsent), chunk.since.unwrap_or(0)], out);
        }
        None => put_word("none", out),
    }
}

fn put_datagram(link: &Link<Counted>, k: u64, most: usize, out: &mut Vec<u8>) {
    let Some(bytes) = link.datagram(k) else {
        return put_word("none", out);
    };
    let Some(chunks) = bytes.as_slice().strip_prefix(HEADER.as_slice()) else {
        return put_word("another header", out);
    };
    let (head, tail) = chunks.split_at(most.min(chunks.len()));
    put_word("H", out);
    for byte in head {
        drop(write!(out, " {byte:02x}"));
    }
    put_runs(tail, out);
}

/// Puts words of four bytes, as the first of a run, by how much each of it is more than the one before, and how many there are.
fn put_runs(tail: &[u8], out: &mut Vec<u8>) {
    let (mut first, mut last, mut step, mut count) = (0u32, 0u32, 0u32, 0u32);
    for bytes in tail.chunks(4) {
        let word = word_of(bytes);
        let by = word.wrapping_sub(last);
        if count == 1 {
            step = by;
        }
        if count == 0 || by != step {
            put_run(first, step, count, out);
            (first, step, count) = (word, 0, 0);
        }
        count = count.wrapping_add(1);
        last = word;
    }
    put_run(first, step, count, out);
}

fn word_of(bytes: &[u8]) -> u32 {
    match bytes {
        [a, b, c, d] => u32::from_be_bytes([*a, *b, *c, *d]),
        _ => 0,
    }
}

fn put_run(first: u32, step: u32, count: u32, out: &mut Vec<u8>) {
    if count > 0 {
        drop(write!(out, " {first:08x} +{step:08x} *{count}"));
    }
}
