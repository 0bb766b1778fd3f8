//! An echo over a data channel of two associations, and a network in memory that loses every third datagram (docs/TUTORIAL.md).
#![tactic(auto)]

mod server;

use crate::server::Host;
use bytes::Bytes;
use sctp_association::{Association, Config, ReliabilityType, Secrets, State};
use sctp_channels::{ChannelEvent, Channels, Open, Refusal, Side};
use std::alloc::Global;
use std::process::ExitCode;

/// What the client writes.
const WORDS: [&str; 4] = ["one", "two", "three", "four"];

/// How long the line is that comes back.
const LINE: usize = 19;

/// More turns, and more datagrams, events and messages of a turn, than there are.
const MOST: u32 = 1000;

// A host. A program draws its secrets from a random generator.
fn host(alloc: Global, tag: u32, side: Side) -> Result<Host, Refusal> {
    let secrets = Secrets {
        tag,
        first_tsn: tag,
        cookie_key: [7; 32],
    };
    Ok(Host {
        association: Association::new(alloc, Config::default(), secrets)?,
        channels: Channels::new(alloc, side, 64),
    })
}

// Hands over the datagrams that are due. Every third one is lost.
fn carry(
    alloc: Global,
    from: &mut Association,
    to: &mut Association,
    sent: &mut u32,
    now: u64,
) -> Result<(), Refusal> {
    for _ in 0..MOST {
        if !from.poll_transmit(now)? {
            break;
        }
        *sent = sent.wrapping_add(1);
        if *sent % 3 != 0 {
            let datagram = Bytes::copy_from_slice(alloc, from.datagram())?;
            to.handle_datagram(&datagram, now)?;
        }
    }
    Ok(())
}

// Asks for an association, opens a channel, and writes the words to it.
fn begin(alloc: Global, client: &mut Host) -> Result<(), Refusal> {
    client.association.connect(0)?;
    let open = Open {
        unordered: false,
        reliability: ReliabilityType::Reliable,
        value: 0,
        priority: 0,
        label: Bytes::copy_from_slice(alloc, b"words")?,
        protocol: Bytes::new(),
    };
    let stream = client.channels.open(&mut client.association, open)?;
    for word in WORDS {
        let bytes = Bytes::copy_from_slice(alloc, word.as_bytes())?;
        client
            .channels
            .write(&mut client.association, stream, true, &bytes)?;
    }
    Ok(())
}

// Adds the messages of a channel to the line.
fn collect(client: &mut Host, stream: u16, line: &mut String, now: u64) -> Result<(), Refusal> {
    for _ in 0..MOST {
        let read = client.channels.read(&mut client.association, stream, now)?;
        let Some(message) = read else {
            break;
        };
        let mut text = [0u8; 64];
        let length = message.read(&mut text).unwrap_or(0);
        drop(message);
        line.push_str(str::from_utf8(text.get(..length).unwrap_or(&[])).unwrap_or("?"))?;
        line.push('.')?;
    }
    Ok(())
}

// Follows what happened to the client, and shuts down after the last word.
fn follow(client: &mut Host, line: &mut String, now: u64) -> Result<(), Refusal> {
    for _ in 0..MOST {
        match client.channels.poll(&mut client.association, now)? {
            Some(ChannelEvent::Readable(stream)) => collect(client, stream, line, now)?,
            Some(_) => {}
            None => break,
        }
    }
    if line.len() == LINE && client.association.state() == State::Established {
        client.association.shutdown(now)?;
    }
    Ok(())
}

// The earlier of two moments, None where there is neither.
fn earlier(a: Option<u64>, b: Option<u64>) -> Option<u64> {
    match (a, b) {
        (Some(a), Some(b)) => Some(a.min(b)),
        (a, None) => a,
        (None, b) => b,
    }
}

// Has the words echoed, and adds them to the line.
fn exchange(
    alloc: Global,
    client: &mut Host,
    server: &mut Host,
    line: &mut String,
) -> Result<(), Refusal> {
    begin(alloc, client)?;
    let mut sent = 0u32;
    let mut now = 0u64;
    for _ in 0..MOST {
        let (one, two) = (&mut client.association, &mut server.association);
        carry(alloc, one, two, &mut sent, now)?;
        server.echo_all(alloc, now)?;
        let (one, two) = (&mut client.association, &mut server.association);
        carry(alloc, two, one, &mut sent, now)?;
        follow(client, line, now)?;
        let (one, two) = (&mut client.association, &mut server.association);
        let Some(next) = earlier(one.poll_timeout(), two.poll_timeout()) else {
            break;
        };
        now = next;
        one.handle_timeout(now);
        two.handle_timeout(now);
    }
    Ok(())
}

// Lets a client and a server exchange the words, where there is a server, and drops both.
fn run_with(
    alloc: Global,
    mut client: Host,
    server: Result<Host, Refusal>,
    line: &mut String,
) -> Result<(), Refusal> {
    match server {
        Ok(mut server) => {
            let ran = exchange(alloc, &mut client, &mut server, line);
            drop(client);
            drop(server);
            ran
        }
        Err(refusal) => {
            drop(client);
            Err(refusal)
        }
    }
}

// Makes a client and a server, and has the words echoed.
fn run(alloc: Global, line: &mut String) -> Result<(), Refusal> {
    let client = host(alloc, 1, Side::Client)?;
    run_with(alloc, client, host(alloc, 2, Side::Server), line)
}

fn main(rt: HostRuntime) -> anyhow::Result<ExitCode> {
    let mut line = String::new(rt.alloc());
    if run(rt.alloc(), &mut line).is_err() {
        return Ok(ExitCode::FAILURE);
    }
    println!(rt; "{line}")?;
    Ok(ExitCode::SUCCESS)
}
