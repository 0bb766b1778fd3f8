//! The messages of an input, as they can be read.

use crate::pending::{Acknowledged, Pending};
use crate::text::{
    Moment, Style, put_dropped, put_held, put_missed, put_name, put_read, put_unread,
    put_wrong_checksum,
};
use crate::tsn_reset::{TsnReset, tsn_reset_in};
use crate::way::{Outcome, WayReader};
use sctp_capture::record::Time;
use sctp_chunks::chunk::chunk_kind::ChunkKind;
use sctp_dissect::dissection::{Item, Reading};
use sctp_follow::associations::{Associations, Way};
use sctp_follow::flow::{Flow, counted};
use sctp_follow::packet::{Arrived, Packet, refused_sack};
use sctp_follow::summarize::Take;
use sctp_follow::track::known_of;
use sctp_show::page::Form;
use sctp_show::run::Counts;
use std::alloc::{AllocError, Global};

/// The types of chunks that say the initial TSN of their way.
const INIT: u8 = 1;

const INIT_ACK: u8 = 2;

/// What is read of one way of an association.
#[derive(Drop)]
struct Side {
    reader: Option<WayReader>,
    /// The SACKs of the other way that acknowledge what was not captured so far.
    acknowledged: Acknowledged,
    /// The number of the last reset of TSNs that a response of this way said was made.
    reset: Option<u32>,
}

/// What is read of both ways of an association.
#[derive(Drop)]
struct Pair {
    /// Whether a line was printed that says which association it is.
    is_named: bool,
    /// How many packets of it came.
    packets: u64,
    forth: Side,
    back: Side,
}

/// The messages of an input.
#[derive(Drop)]
pub struct Messages {
    style: Style,
    associations: Associations,
    /// What is read of each association.
    pairs: Vec<Pair>,
    messages: u64,
    /// The bytes of these messages.
    bytes: u64,
    /// How many chunks are not read.
    unread: u64,
    /// How often TSNs were acknowledged and not captured.
    missed: u64,
    /// How many packets are not read, since their checksum is wrong.
    wrong: u64,
}

/// What is read of a way to which chunks come, from its initial TSN on, if it was seen, or else from the first TSN.
fn reader_for(alloc: Global, flow: &Flow) -> Option<WayReader> {
    let base = flow.base?;
    let is_whole = flow.count_of(INIT) > 0 || flow.count_of(INIT_ACK) > 0;
    Some(WayReader::new(alloc, base, is_whole))
}

/// When a message could be read: at this moment, or with its last fragment, where that came later.
fn read_at(moment: &Moment, arrived: Arrived) -> Moment {
    if arrived.number <= moment.number {
        return *moment;
    }
    Moment {
        number: arrived.number,
        time: arrived.time,
        ..*moment
    }
}

impl Side {
    /// Nothing came yet.
    fn new(alloc: Global) -> Self {
        Side {
            reader: None,
            acknowledged: Acknowledged::new(alloc),
            reset: None,
        }
    }

    /// Gives a chunk to the reader, or to a fresh one, where there is none.
    fn take(
        &mut self,
        alloc: Global,
        fresh: Option<WayReader>,
        item: &Item,
        arrived: Arrived,
        is_new: bool,
    ) -> Result<Option<Outcome>, AllocError> {
        if self.reader.is_none() {
            self.reader = fresh;
        }
        match &mut self.reader {
            Some(reader) => Ok(Some(reader.take(alloc, item, arrived, is_new)?)),
            None => Ok(None),
        }
    }

    /// Keeps a SACK that acknowledges what was not captured so far, if anything is read of the way.
    fn keep_sack(
        &mut self,
        tsn: u32,
        moment: Moment,
        is_shown: bool,
        packets: u64,
    ) -> Result<(), AllocError> {
        match &self.reader {
            Some(reader) if !reader.has_all(tsn) => {
                self.acknowledged.keep(tsn, moment, is_shown, packets)
            }
            _ => Ok(()),
        }
    }

    /// The first SACK that is kept, and is due behind so many packets, or whose TSNs all came: then it is forgotten.
    fn due(&mut self, packets: u64) -> Option<Pending> {
        let pending = self.acknowledged.first()?;
        let is_met = match &self.reader {
            Some(reader) => reader.has_all(pending.tsn),
            None => true,
        };
        if !is_met && !pending.is_due(packets) {
            return None;
        }
        self.acknowledged.forget();
        Some(pending)
    }

    /// What a SACK gives that is waited for no longer.
    fn pass(&mut self, alloc: Global, pending: &Pending) -> Result<Option<Outcome>, AllocError> {
        match &mut self.reader {
            Some(reader) => Ok(Some(reader.pass(alloc, pending.tsn)?)),
            None => Ok(None),
        }
    }
}

impl Pair {
    /// Nothing came yet.
    fn new(alloc: Global) -> Self {
        Pair {
            is_named: false,
            packets: 0,
            forth: Side::new(alloc),
            back: Side::new(alloc),
        }
    }

    /// What is read of a way.
    fn side(&mut self, way: Way) -> &mut Side {
        match way {
            Way::Forth => &mut self.forth,
            Way::Back => &mut self.back,
        }
    }

    /// Begins the TSNs and numbers of both ways anew, as a response of this way says.
    fn begin_anew(&mut self, alloc: Global, way: Way, reset: TsnReset) {
        let own = self.side(way);
        own.reset = Some(reset.number);
        own.reader = Some(WayReader::new(alloc, reset.sender_next, true));
        let other = WayReader::new(alloc, reset.receiver_next, true);
        self.side(way.other()).reader = Some(other);
    }
}

impl Messages {
    /// None yet.
    pub fn new(alloc: Global, style: Style) -> Self {
        Messages {
            style,
            associations: Associations::new(alloc),
            pairs: Vec::new(alloc),
            messages: 0,
            bytes: 0,
            unread: 0,
            missed: 0,
            wrong: 0,
        }
    }

    /// Makes room for so many associations.
    fn grow(&mut self, alloc: Global, count: usize) -> Result<(), AllocError> {
        for _more in self.pairs.len()..count {
            self.pairs.push(Pair::new(alloc))?;
        }
        Ok(())
    }

    /// Appends the line that says which association it is, unless it stands.
    fn put_name_once(&mut self, text: &mut String, at: usize) -> Result<(), AllocError> {
        let Some(pair) = self.pairs.get_mut(at) else {
            return Ok(());
        };
        if pair.is_named {
            return Ok(());
        }
        pair.is_named = true;
        match self.associations.items.get(at) {
            Some(association) => {
                put_name(text, self.style.form, at.saturating_add(1), association)
            }
            None => Ok(()),
        }
    }

    /// Keeps the SACK of the other way, if it acknowledges what was not captured so far.
    fn keep_sack(
        &mut self,
        at: usize,
        tsn: u32,
        moment: &Moment,
        is_shown: bool,
    ) -> Result<(), AllocError> {
        match self.pairs.get_mut(at) {
            Some(pair) => {
                let packets = pair.packets;
                pair.side(moment.way)
                    .keep_sack(tsn, *moment, is_shown, packets)
            }
            None => Ok(()),
        }
    }

    /// Gives a chunk to the reader of its way.
    fn take_item(
        &mut self,
        alloc: Global,
        at: usize,
        way: Way,
        item: &Item,
        arrived: Arrived,
    ) -> Result<Option<Outcome>, AllocError> {
        let (fresh, is_new) = match self.associations.flows_at(at, way) {
            Some((own, _)) => (reader_for(alloc, own), !own.is_repeating),
            None => (None, false),
        };
        match self.pairs.get_mut(at) {
            Some(pair) => pair.side(way).take(alloc, fresh, item, arrived, is_new),
            None => Ok(None),
        }
    }

    /// Appends the messages that were read, and counts them.
    fn put_messages(
        &mut self,
        alloc: Global,
        text: &mut String,
        moment: &Moment,
        outcome: &Outcome,
    ) -> Result<(), AllocError> {
        for message in &outcome.messages {
            let moment = read_at(moment, message.arrived);
            put_read(alloc, text, self.style, &moment, message)?;
            self.messages = counted(self.messages, 1);
            self.bytes = counted(self.bytes, message.bytes.len() as u64);
        }
        Ok(())
    }

    /// Appends what a SACK that was waited for, or a FORWARD-TSN, gave, and counts it: what was not captured, and what is dropped.
    fn put_passed(
        &mut self,
        text: &mut String,
        moment: &Moment,
        outcome: &Outcome,
    ) -> Result<(), AllocError> {
        if let Some(missed) = outcome.missed {
            put_missed(text, self.style, moment, missed)?;
            self.missed = counted(self.missed, 1);
        }
        let is_abandoned = outcome.missed.is_none();
        for dropped in &outcome.dropped {
            put_dropped(text, self.style, moment, *dropped, is_abandoned)?;
        }
        Ok(())
    }

    /// Appends what a chunk gave, and counts it.
    fn put_outcome(
        &mut self,
        alloc: Global,
        text: &mut String,
        moment: &Moment,
        item: &Item,
        outcome: &Outcome,
    ) -> Result<(), AllocError> {
        self.put_passed(text, moment, outcome)?;
        self.put_messages(alloc, text, moment, outcome)?;
        if let Some(why) = outcome.unread {
            put_unread(text, self.style, moment, item, why)?;
            self.unread = counted(self.unread, 1);
        }
        Ok(())
    }

    /// Appends what a SACK gives that was waited for, where its packet is shown.
    fn put_due(
        &mut self,
        alloc: Global,
        text: &mut String,
        at: usize,
        pending: &Pending,
    ) -> Result<(), AllocError> {
        let outcome = match self.pairs.get_mut(at) {
            Some(pair) => pair.side(pending.moment.way).pass(alloc, pending)?,
            None => None,
        };
        let Some(outcome) = outcome else {
            return Ok(());
        };
        if outcome.is_empty() {
            return Ok(());
        }
        let mut lines = String::new(alloc);
        if pending.is_shown {
            self.put_name_once(&mut lines, at)?;
        }
        self.put_passed(&mut lines, &pending.moment, &outcome)?;
        self.put_messages(alloc, &mut lines, &pending.moment, &outcome)?;
        if pending.is_shown {
            text.push_str(&lines)?;
        }
        Ok(())
    }

    /// How many SACKs of a way are kept.
    fn kept(&mut self, at: usize, way: Way) -> usize {
        match self.pairs.get_mut(at) {
            Some(pair) => pair.side(way).acknowledged.len(),
            None => 0,
        }
    }

    /// The next SACK of a way that is waited for no longer behind so many packets of the association.
    fn due(&mut self, at: usize, way: Way, packets: u64) -> Option<Pending> {
        self.pairs.get_mut(at)?.side(way).due(packets)
    }

    /// Appends what the SACKs of a way give that are waited for no longer.
    fn settle(
        &mut self,
        alloc: Global,
        text: &mut String,
        at: usize,
        way: Way,
        packets: u64,
    ) -> Result<(), AllocError> {
        for _kept in 0..self.kept(at, way) {
            let Some(pending) = self.due(at, way, packets) else {
                return Ok(());
            };
            self.put_due(alloc, text, at, &pending)?;
        }
        Ok(())
    }

    /// With which packet messages could be read.
    fn moment_of(&self, at: usize, way: Way, packet: &Packet<'_>) -> Option<Moment> {
        let (own, other) = self.associations.flows_at(at, way)?;
        Some(Moment {
            number: packet.number,
            time: packet.time,
            start: self.associations.start,
            association: at.saturating_add(1),
            way,
            bases: known_of(own, other, self.style.is_relative).bases,
            missing: packet.missing,
        })
    }

    /// Takes the cumulative TSN of a SACK of a packet that goes this way: it is about what went the other way.
    fn take_report(
        &mut self,
        at: usize,
        way: Way,
        packet: &Packet<'_>,
        tsn: u32,
        is_shown: bool,
    ) -> Result<(), AllocError> {
        match self.moment_of(at, way.other(), packet) {
            Some(moment) => self.keep_sack(at, tsn, &moment, is_shown),
            None => Ok(()),
        }
    }

    /// Appends what is held of both ways of an association, where this is shown.
    fn put_left(
        &mut self,
        alloc: Global,
        text: &mut String,
        at: usize,
        is_shown: bool,
    ) -> Result<(), AllocError> {
        let mut left = String::new(alloc);
        if let Some(pair) = self.pairs.get(at) {
            self.put_pair(alloc, &mut left, at.saturating_add(1), pair)?;
        }
        if left.is_empty() || !is_shown {
            return Ok(());
        }
        self.put_name_once(text, at)?;
        text.push_str(&left)
    }

    /// Begins the TSNs and numbers of both ways anew where a response of this way says that it was done, once (RFC 6525 5.2.4). SACKs of TSNs
    /// before are waited for no longer, and what is held of messages will not be complete.
    fn reset_tsns(
        &mut self,
        alloc: Global,
        text: &mut String,
        at: usize,
        way: Way,
        reset: TsnReset,
        is_shown: bool,
    ) -> Result<(), AllocError> {
        let is_new = match self.pairs.get_mut(at) {
            Some(pair) => pair.side(way).reset != Some(reset.number),
            None => false,
        };
        if !is_new {
            return Ok(());
        }
        self.settle(alloc, text, at, Way::Forth, u64::MAX)?;
        self.settle(alloc, text, at, Way::Back, u64::MAX)?;
        self.put_left(alloc, text, at, is_shown)?;
        if let Some(pair) = self.pairs.get_mut(at) {
            pair.begin_anew(alloc, way, reset);
        }
        Ok(())
    }

    /// Takes a chunk of a packet that goes this way.
    fn take_chunk(
        &mut self,
        alloc: Global,
        text: &mut String,
        at: usize,
        way: Way,
        packet: &Packet<'_>,
        item: &Item,
        is_shown: bool,
    ) -> Result<(), AllocError> {
        if let Reading::Strict(ChunkKind::SelectiveAck(sack)) = &item.reading {
            return self.take_report(at, way, packet, sack.cumulative_tsn_ack, is_shown);
        }
        if let Some(sack) = refused_sack(alloc, item)? {
            return self.take_report(at, way, packet, sack.cumulative_tsn_ack, is_shown);
        }
        if let Some(reset) = tsn_reset_in(item.bytes.as_slice()) {
            self.reset_tsns(alloc, text, at, way, reset, is_shown)?;
        }
        let arrived = Arrived {
            number: packet.number,
            time: packet.time,
        };
        let outcome = self.take_item(alloc, at, way, item, arrived)?;
        let (Some(outcome), Some(moment)) = (outcome, self.moment_of(at, way, packet)) else {
            return Ok(());
        };
        if outcome.is_empty() {
            return Ok(());
        }
        if is_shown {
            self.put_name_once(text, at)?;
        }
        self.put_outcome(alloc, text, &moment, item, &outcome)
    }

    /// Takes the chunks of a packet that goes this way.
    fn take_chunks(
        &mut self,
        alloc: Global,
        at: usize,
        way: Way,
        packet: &Packet<'_>,
        is_shown: bool,
    ) -> Result<String, AllocError> {
        let mut text = String::new(alloc);
        for item in &packet.seen.items {
            self.take_chunk(alloc, &mut text, at, way, packet, item, is_shown)?;
        }
        if is_shown {
            return Ok(text);
        }
        Ok(String::new(alloc))
    }

    /// Counts a packet of an association, and answers how many of it there are.
    fn count_packet(&mut self, alloc: Global, at: usize) -> Result<u64, AllocError> {
        self.grow(alloc, at.saturating_add(1))?;
        match self.pairs.get_mut(at) {
            Some(pair) => {
                pair.packets = counted(pair.packets, 1);
                Ok(pair.packets)
            }
            None => Ok(0),
        }
    }

    /// Takes a packet of an association: first the SACKs are waited for no longer that are due, and then it is read.
    fn take_packet(
        &mut self,
        alloc: Global,
        at: usize,
        way: Way,
        packet: &Packet<'_>,
        is_shown: bool,
    ) -> Result<String, AllocError> {
        let packets = self.count_packet(alloc, at)?;
        let mut text = String::new(alloc);
        self.settle(alloc, &mut text, at, Way::Forth, packets)?;
        self.settle(alloc, &mut text, at, Way::Back, packets)?;
        let read = self.take_chunks(alloc, at, way, packet, is_shown)?;
        text.push_str(&read)?;
        Ok(text)
    }

    /// What is written of a packet whose checksum is wrong: it is not read (RFC 9260 6.8).
    fn pass_wrong(
        &mut self,
        alloc: Global,
        packet: &Packet<'_>,
        is_shown: bool,
    ) -> Result<String, AllocError> {
        let mut text = String::new(alloc);
        self.wrong = counted(self.wrong, 1);
        if is_shown {
            let start = self.associations.start;
            put_wrong_checksum(&mut text, self.style, packet.number, &packet.time, &start)?;
        }
        Ok(text)
    }

    /// The last line.
    fn put_counts(&self, text: &mut String, counts: Counts) -> Result<(), AllocError> {
        let (records, packets) = (counts.records, counts.shown);
        let (kept, others) = (self.associations.items.len(), self.associations.others);
        let (messages, bytes) = (self.messages, self.bytes);
        let (unread, missed, wrong) = (self.unread, self.missed, self.wrong);
        match self.style.form {
            Form::Text => write!(
                text,
                "{records} records: {packets} packets of {kept} associations, {others} of none; {messages} messages of {bytes} bytes, {unread} chunks not read, {missed} gaps in the capture"
            )?,
            Form::Json => write!(
                text,
                "{{\"records\":{records},\"packets\":{packets},\"associations\":{kept},\"others\":{others},\"messages\":{messages},\"bytes\":{bytes},\"not_read\":{unread},\"gaps\":{missed},\"wrong_checksums\":{wrong}}}"
            )?,
        }
        if self.style.form == Form::Text && wrong > 0 {
            write!(text, ", {wrong} wrong checksums (--no-checksum reads them)")?;
        }
        text.push_str("\n")
    }

    /// What is held of both ways and was not read.
    fn put_pair(
        &self,
        alloc: Global,
        text: &mut String,
        number: usize,
        pair: &Pair,
    ) -> Result<(), AllocError> {
        if let Some(reader) = &pair.forth.reader {
            put_held(alloc, text, self.style.form, number, Way::Forth, reader)?;
        }
        if let Some(reader) = &pair.back.reader {
            put_held(alloc, text, self.style.form, number, Way::Back, reader)?;
        }
        Ok(())
    }
}

impl Messages {
    /// What is held of each association and was not read.
    fn put_each(&self, alloc: Global, text: &mut String) -> Result<(), AllocError> {
        let mut number = 1usize;
        for pair in &self.pairs {
            self.put_pair(alloc, text, number, pair)?;
            number = number.saturating_add(1);
        }
        Ok(())
    }
}

impl Take for Messages {
    fn see_time(&mut self, time: &Option<Time>) {
        self.associations.note_time(time);
    }

    /// The messages that can be read with a packet. Where it is not shown, they are read all the same.
    fn take(
        &mut self,
        alloc: Global,
        packet: &Packet<'_>,
        is_shown: bool,
    ) -> Result<String, AllocError> {
        if packet.is_wrong {
            return self.pass_wrong(alloc, packet, is_shown);
        }
        let Some((at, way)) = self.associations.note_packet(alloc, packet)? else {
            return Ok(String::new(alloc));
        };
        self.take_packet(alloc, at, way, packet, is_shown)
    }

    /// Whether checksums are tested: packets are read.
    fn tests_checksums(&self) -> bool {
        true
    }

    /// What was not read, and the last line.
    fn end(&mut self, alloc: Global, counts: Counts) -> Result<String, AllocError> {
        let mut text = String::new(alloc);
        for at in 0..self.pairs.len() {
            self.settle(alloc, &mut text, at, Way::Forth, u64::MAX)?;
            self.settle(alloc, &mut text, at, Way::Back, u64::MAX)?;
        }
        self.put_each(alloc, &mut text)?;
        self.put_counts(&mut text, counts)?;
        Ok(text)
    }
}
