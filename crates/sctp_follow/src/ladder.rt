//! Ladders: the packets of each association between its two ends, as text of at most 100 columns where addresses are not longer.

ghost use Rattle.std.specs.Prelude.{◌≡◌, ◌≤◌, ◌++◌, OnOk};
ghost use Rattle.std.specs.String.{string_bytes};
ghost use Rattle.sctp_follow.specs.Ladder.{rung_text};

use crate::associations::{Association, Associations, Way};
use crate::packet::Packet;
use crate::summarize::Take;
use crate::text::{put_end, put_ends};
use crate::track::{known_of, side_of};
use sctp_capture::record::Time;
use sctp_show::brief::put_brief;
use sctp_show::filter::is_refused;
use sctp_show::follow::Known;
use sctp_show::mark::{Mark, mark_of, put_marked};
use sctp_show::page::Form;
use sctp_show::run::Counts;
use sctp_show::text::{Options, put_tail};
use sctp_show::time::{Clock, put_clock};
use std::alloc::{AllocError, Global};
use std::net::IpAddr;
use unicode_width::{UnicodeWidthChar, UnicodeWidthStr};

/// How many columns the words of a rung have at most.
const WORDS: usize = 74;

/// What fills a rung behind its words.
const DASHES: &str = "---------------------------------------------------------------------------";

const BLANKS: &str = "                                                                           ";

/// A rung of a ladder: an arrow on which the words of a packet's first chunk stand, or the words of another one below it.
#[derive(Clone, Copy, PartialEq, Eq)]
pub enum Rung {
    /// From the first column to the second.
    Forth,
    /// From the second to the first.
    Back,
    /// No arrow: it belongs to the packet above.
    Below,
}

/// How ladders are drawn.
#[derive(Clone, Copy)]
pub struct Style {
    pub clock: Clock,
    /// Whether TSNs are printed relative to those that they are counted from.
    pub is_relative: bool,
    /// Whether packets that are refused, or repeat a TSN, are colored.
    pub is_colored: bool,
}

/// The ladders of an input.
#[derive(Drop)]
pub struct Ladders {
    style: Style,
    associations: Associations,
    /// The rungs of each association.
    texts: Vec<String>,
}

/// Appends a text, blanks before it up to this many columns.
fn put_right(text: &mut String, words: &str, width: usize) -> Result<(), AllocError> {
    let count = width.saturating_sub(words.len());
    text.push_str(BLANKS.get(..count).unwrap_or(""))?;
    text.push_str(words)
}

/// A text in so many columns of a terminal at most: where it is longer, its last two are dots.
fn fitted(alloc: Global, words: &str) -> Result<String, AllocError> {
    let mut text = String::new(alloc);
    if words.width() <= WORDS {
        text.push_str(words)?;
        return Ok(text);
    }
    let mut columns = 0usize;
    for c in words.chars() {
        columns = columns.saturating_add(c.width().unwrap_or(0));
        if columns > WORDS - 2 {
            break;
        }
        text.push(c)?;
    }
    text.push_str("..")?;
    Ok(text)
}

/// Appends a rung: its words, and what fills it.
fn put_rung(text: &mut String, rung: Rung, words: &str, fill: &str) -> Result<(), AllocError>
    ensures { OnOk result (string_bytes text.new
        ≡ string_bytes text.old ++ rung_text rung words.now fill.now) }
{
    match rung {
        Rung::Forth => write!(text, "|-- {words} {fill}>|"),
        Rung::Back => write!(text, "|<{fill} {words} --|"),
        Rung::Below => write!(text, "|   {words} {fill} |"),
    }
}

/// The rung of these words, marked.
fn put_words(
    alloc: Global,
    text: &mut String,
    mark: Mark,
    rung: Rung,
    words: &str,
) -> Result<(), AllocError> {
    let words = fitted(alloc, words)?;
    let count = (WORDS + 1).saturating_sub(words.as_str().width());
    let all = if rung == Rung::Below { BLANKS } else { DASHES };
    let fill = all.get(..count).unwrap_or("");
    let mut line = String::new(alloc);
    put_rung(&mut line, rung, &words, fill)?;
    put_marked(text, mark, &line)?;
    text.push_str("\n")
}

/// How many columns a time has.
fn room_of(clock: Clock) -> usize
    ensures { result ≤ 30 }
{
    match clock {
        Clock::Elapsed | Clock::Seconds => 17,
        Clock::Dates => 30,
    }
}

/// When a packet was captured, and a blank.
fn put_when(
    alloc: Global,
    text: &mut String,
    clock: Clock,
    start: &Option<Time>,
    time: &Option<Time>,
) -> Result<(), AllocError> {
    let mut words = String::new(alloc);
    put_clock(&mut words, clock, start, time)?;
    put_right(text, &words, room_of(clock))?;
    text.push_str(" ")
}

/// The rung that a packet's first chunk stands on.
fn rung_of(way: Way) -> Rung {
    match way {
        Way::Forth => Rung::Forth,
        Way::Back => Rung::Back,
    }
}

/// The words of a packet's rungs: those of each chunk, and what is left over or missing.
fn words_of(alloc: Global, packet: &Packet<'_>, known: Known) -> Result<Vec<String>, AllocError> {
    let mut words = Vec::new(alloc);
    for item in &packet.seen.items {
        let mut text = String::new(alloc);
        put_brief(&mut text, known.bases, packet.missing, item)?;
        words.push(text)?;
    }
    let mut tail = String::new(alloc);
    put_tail(&mut tail, packet.seen, packet.missing)?;
    if !tail.is_empty() || words.is_empty() {
        words.push(tail)?;
    }
    Ok(words)
}

/// The rungs of a packet, the first one an arrow behind its time.
fn put_packet(
    alloc: Global,
    text: &mut String,
    style: Style,
    way: Way,
    known: Known,
    start: &Option<Time>,
    packet: &Packet<'_>,
) -> Result<(), AllocError> {
    let is_refused = is_refused(packet.missing, packet.seen);
    let mark = mark_of(
        style.is_colored,
        is_refused,
        known.is_repeated,
        Some(side_of(way)),
    );
    put_when(alloc, text, style.clock, start, &packet.time)?;
    let mut rung = rung_of(way);
    for words in &words_of(alloc, packet, known)? {
        if rung == Rung::Below {
            put_right(text, " ", room_of(style.clock) + 1)?;
        }
        put_words(alloc, text, mark, rung, words.trim_start())?;
        rung = Rung::Below;
    }
    Ok(())
}

impl Ladders {
    /// None yet.
    pub fn new(alloc: Global, style: Style) -> Self {
        Ladders {
            style,
            associations: Associations::new(alloc),
            texts: Vec::new(alloc),
        }
    }

    /// Makes room for the rungs of so many associations.
    fn grow(&mut self, alloc: Global, count: usize) -> Result<(), AllocError> {
        for _more in self.texts.len()..count {
            self.texts.push(String::new(alloc))?;
        }
        Ok(())
    }

    /// Draws a packet of this association.
    fn draw(
        &mut self,
        alloc: Global,
        at: usize,
        way: Way,
        packet: &Packet<'_>,
    ) -> Result<(), AllocError> {
        self.grow(alloc, at.saturating_add(1))?;
        let start = self.associations.start;
        let known = match self.associations.flows_at(at, way) {
            Some((own, other)) => known_of(own, other, self.style.is_relative),
            None => return Ok(()),
        };
        match self.texts.get_mut(at) {
            Some(text) => put_packet(alloc, text, self.style, way, known, &start, packet),
            None => Ok(()),
        }
    }
}

impl Take for Ladders {
    fn see_time(&mut self, time: &Option<Time>) {
        self.associations.note_time(time);
    }

    fn take(
        &mut self,
        alloc: Global,
        packet: &Packet<'_>,
        is_shown: bool,
    ) -> Result<String, AllocError> {
        let place = self.associations.note_packet(alloc, packet)?;
        if let Some((at, way)) = place
            && is_shown
        {
            self.draw(alloc, at, way, packet)?;
        }
        Ok(String::new(alloc))
    }

    /// Checksums are not computed.
    fn tests_checksums(&self) -> bool {
        false
    }

    /// The ladders, one below the other, and the last line.
    fn end(&mut self, alloc: Global, counts: Counts) -> Result<String, AllocError> {
        let mut text = String::new(alloc);
        let mut at = 0usize;
        for association in &self.associations.items {
            if let Some(rungs) = self.texts.get(at) {
                put_ladder(alloc, &mut text, self.style.clock, at, association, rungs)?;
            }
            at = at.saturating_add(1);
        }
        put_end(&mut text, Form::Text, counts, &self.associations)?;
        Ok(text)
    }
}

/// An end of an association, as it stands above its column.
fn end_of(alloc: Global, address: Option<IpAddr>, port: u16) -> Result<String, AllocError> {
    match address {
        None => format!(in alloc; "port {port}"),
        Some(address) => format!(in alloc; "{address} port {port}"),
    }
}

/// The ladder of an association, its ends above it, if it has rungs.
fn put_ladder(
    alloc: Global,
    text: &mut String,
    clock: Clock,
    at: usize,
    association: &Association,
    rungs: &str,
) -> Result<(), AllocError> {
    if rungs.is_empty() {
        return Ok(());
    }
    let place = &association.place;
    let (from, to) = match place.ends {
        Some((from, to)) => (Some(from), Some(to)),
        None => (None, None),
    };
    let left = end_of(alloc, from, place.source_port)?;
    let right = end_of(alloc, to, place.destination_port)?;
    let number = at.saturating_add(1);
    write!(text, "Association {number}:")?;
    put_ends(text, Form::Text, association)?;
    put_right(text, " ", room_of(clock) + 1)?;
    text.push_str(&left)?;
    put_right(text, &right, 82usize.saturating_sub(left.len()))?;
    text.push_str("\n")?;
    text.push_str(rungs)
}
