//! Where and when a packet was captured, as filters ask for it.

ghost use Rattle.std.specs.Prelude.{◌≡◌};
ghost use Rattle.std.specs.List.{list_any};
ghost use Rattle.sctp_show.specs.Scene as scenes;

use crate::time::total_of;
use sctp_capture::record::Time;
use std::alloc::AllocError;
use std::net::IpAddr;

/// The first of the addresses of IPv6 that stand for those of IPv4 (RFC 4291 2.5.5.2).
const MAPPED: u128 = 281_470_681_743_360;

/// Numbers from one to another.
#[derive(Clone, Copy, Debug, PartialEq, Eq)]
pub struct Span {
    pub first: u128,
    pub last: u128,
}

/// What filters ask for besides what stands in a packet. An address is a number: of IPv4 that of the address of IPv6 which stands for it.
#[derive(Clone, Copy, Debug, PartialEq, Eq)]
pub struct Scene {
    /// How many bytes of the packet are missing.
    pub missing: usize,
    /// Whether its checksum is wrong.
    pub is_wrong: bool,
    pub source: Option<u128>,
    pub destination: Option<u128>,
    /// The nanoseconds since the first record, where the time is known and not before it.
    pub since: Option<u128>,
}

/// The number of an address.
fn number_of(address: IpAddr) -> u128
    ensures { result ≡ scenes.number_of address }
{
    match address {
        IpAddr::V4(ip) => MAPPED + ip.to_bits() as u128,
        IpAddr::V6(ip) => ip.to_bits(),
    }
}

/// The nanoseconds from one time to another, if it is not before it.
fn since(start: &Option<Time>, time: &Option<Time>) -> Option<u128>
    ensures { result ≡ scenes.since start.now time.now }
{
    let (Some(start), Some(time)) = (start, time) else {
        return None;
    };
    let (start, time) = (total_of(start), total_of(time));
    if time < start {
        return None;
    }
    Some(time - start)
}

/// The scene of a packet that went between these ends, by the times of the first record and of its own.
pub fn scene_of(
    missing: usize,
    is_wrong: bool,
    ends: Option<(IpAddr, IpAddr)>,
    start: &Option<Time>,
    time: &Option<Time>,
) -> Scene
    ensures { result ≡ scenes.scene_of missing is_wrong ends start.now time.now }
{
    let since = since(start, time);
    let (source, destination) = match ends {
        None => (None, None),
        Some((source, destination)) => (Some(number_of(source)), Some(number_of(destination))),
    };
    Scene {
        missing,
        is_wrong,
        source,
        destination,
        since,
    }
}

impl Span {
    /// Whether a number is one of these.
    pub fn contains(&self, number: u128) -> bool
        ensures { result ≡ scenes.is_in_span number self.now }
    {
        self.first <= number && number <= self.last
    }
}

/// Whether a number is in one of the spans.
fn is_in_some(spans: &[Span], number: u128) -> bool
    ensures { result ≡ list_any (scenes.is_in_span number) spans.now }
{
    spans.iter().any(|span| span.contains(number))
}

/// Whether a number is asked for: it is in one of the spans, or there is none.
pub fn is_span_asked(spans: &[Span], number: Option<u128>) -> bool
    ensures { result ≡ scenes.is_span_asked spans.now number }
{
    match number {
        None => spans.is_empty(),
        Some(number) => spans.is_empty() || is_in_some(spans, number),
    }
}

/// The number of the address that a text says.
fn address_in(text: &str) -> Option<IpAddr> {
    text.parse::<IpAddr>().ok()
}

/// The addresses that begin with as many bits as a text says.
fn network_in(address: IpAddr, bits: &str) -> Option<Span> {
    let whole: u32 = match address {
        IpAddr::V4(_) => 32,
        IpAddr::V6(_) => 128,
    };
    let bits = bits.parse::<u32>().ok()?;
    if bits > whole {
        return None;
    }
    let free = u128::MAX
        .checked_shr(128u32.saturating_sub(whole - bits))
        .unwrap_or(0);
    let last = number_of(address) | free;
    Some(Span {
        first: last.saturating_sub(free),
        last,
    })
}

/// The addresses that a text says: one, those of a network, as `10.0.0.0/8`, or those from one to another.
fn addresses_in(text: &str) -> Option<Span> {
    if let Some((address, bits)) = text.split_once('/') {
        return network_in(address_in(address)?, bits);
    }
    let (first, last) = text.split_once('-').unwrap_or((text, text));
    Some(Span {
        first: number_of(address_in(first)?),
        last: number_of(address_in(last)?),
    })
}

/// The nanoseconds that so many digits behind a point say.
fn fraction_in(digits: &str) -> Option<u128> {
    let mut fraction = u128::from(digits.parse::<u32>().ok()?);
    for _ in digits.len()..9 {
        fraction = fraction.saturating_mul(10);
    }
    if digits.len() > 9 {
        return None;
    }
    Some(fraction)
}

/// The nanoseconds that a text says in seconds.
fn moment_in(text: &str) -> Option<u128> {
    let (seconds, fraction) = text.split_once('.').unwrap_or((text, "0"));
    let seconds = u128::from(seconds.parse::<u64>().ok()?);
    Some(
        seconds
            .saturating_mul(1_000_000_000)
            .saturating_add(fraction_in(fraction)?),
    )
}

/// The times that a text says: from one to another, in seconds. Without the one before the `-` they begin at 0, and without the one behind it
/// they do not end.
fn times_in(text: &str) -> Option<Span> {
    let (first, last) = text.split_once('-')?;
    Some(Span {
        first: if first.is_empty() {
            0
        } else {
            moment_in(first)?
        },
        last: if last.is_empty() {
            u128::MAX
        } else {
            moment_in(last)?
        },
    })
}

/// Asks for what a text says, if it says anything.
fn ask(spans: &mut Vec<Span>, span: Option<Span>) -> Result<bool, AllocError> {
    let Some(span) = span else {
        return Ok(false);
    };
    spans.push(span)?;
    Ok(true)
}

/// Asks for addresses, if the text says some.
pub fn ask_addresses(spans: &mut Vec<Span>, text: &str) -> Result<bool, AllocError> {
    ask(spans, addresses_in(text))
}

/// Asks for times, if the text says some.
pub fn ask_times(spans: &mut Vec<Span>, text: &str) -> Result<bool, AllocError> {
    ask(spans, times_in(text))
}
