//! What acknowledged each chunk of an input, and which chunks were sent again.

use crate::ack_text::{
    Flight, put_abandoned, put_acknowledged, put_again, put_last_stall, put_late, put_left,
    put_stall,
};
use crate::text::{Moment, Style, put_name, put_wrong_checksum};
use sctp_capture::record::Time;
use sctp_chunks::chunk::chunk_kind::ChunkKind;
use sctp_data::chunk::chunk_selective_ack::ChunkSelectiveAck;
use sctp_dissect::dissection::{Item, Reading};
use sctp_follow::associations::{Associations, Way};
use sctp_follow::flow::{counted, payload_length};
use sctp_follow::outstanding::{Cause, Outstanding, Passed, Sending, Sent, forward_of};
use sctp_follow::packet::{Arrived, Packet, refused_sack};
use sctp_follow::stall::{NO_WAIT, Report, Stall, Wait};
use sctp_follow::summarize::Take;
use sctp_follow::track::known_of;
use sctp_show::filter::is_data;
use sctp_show::page::Form;
use sctp_show::run::Counts;
use sctp_util::field::{read_u16, read_u32};
use sctp_util::util::sna32lte;
use std::alloc::{AllocError, Global};

/// What is known of the chunks of a way, and what it waits for.
#[derive(Drop)]
struct Side {
    outstanding: Outstanding,
    wait: Wait,
}

/// What is known of the chunks of both ways of an association.
#[derive(Drop)]
struct Pair {
    /// Whether a line was printed that says which association it is.
    is_named: bool,
    forth: Side,
    back: Side,
}

/// How many chunks became what.
#[derive(Clone, Copy)]
struct Tally {
    acknowledged: u64,
    by_gap: u64,
    by_timer: u64,
    /// Those that were sent again though they were acknowledged.
    needless: u64,
    abandoned: u64,
    left: u64,
    /// How many packets are not read, since their checksum is wrong.
    wrong: u64,
}

/// What acknowledged each chunk of an input.
#[derive(Drop)]
pub struct Acks {
    style: Style,
    associations: Associations,
    pairs: Vec<Pair>,
    tally: Tally,
    /// The last time of the input.
    last: Option<Time>,
}

impl Side {
    /// Nothing came yet.
    fn new(alloc: Global) -> Self {
        Side {
            outstanding: Outstanding::new(alloc),
            wait: NO_WAIT,
        }
    }

    /// Takes DATA or I-DATA with so many bytes of user data, and answers what sending it is.
    fn send(
        &mut self,
        tsn: u32,
        stream: u16,
        bytes: u64,
        arrived: Arrived,
    ) -> Result<Sending, AllocError> {
        self.outstanding.make_room();
        let sending = self.outstanding.send(tsn, stream, bytes, arrived)?;
        match sending {
            Sending::Late(_) => {}
            Sending::First | Sending::Again(_) => self.wait.note_sent(arrived),
        }
        Ok(sending)
    }

    /// What is outstanding now, and the window that a SACK said.
    fn flight(&self, credit: Option<u32>) -> Flight {
        Flight {
            bytes: self.outstanding.bytes(),
            credit,
        }
    }

    /// Takes a SACK, and answers what it is the first one to acknowledge, and the stall that it ends, if it ends one.
    fn take_sack(
        &mut self,
        alloc: Global,
        sack: &ChunkSelectiveAck,
        arrived: Arrived,
    ) -> Result<Answer, AllocError> {
        let before = self.outstanding.passed;
        let newly = self.outstanding.take_sack(alloc, sack, arrived)?;
        let report = Report {
            is_progress: !newly.is_empty() || is_later(&before, &self.outstanding.passed),
            has_more: self.outstanding.is_left(),
            credit: sack.advertised_receiver_window_credit,
            tsn: sack.cumulative_tsn_ack,
        };
        let stall = if self.wait.ends_with(report) {
            self.wait.stall_at(&arrived.time)
        } else {
            None
        };
        self.wait.note_sack(report, arrived);
        Ok(Answer { newly, stall })
    }
}

impl Pair {
    /// Nothing came yet.
    fn new(alloc: Global) -> Self {
        Pair {
            is_named: false,
            forth: Side::new(alloc),
            back: Side::new(alloc),
        }
    }

    /// What is known of a way.
    fn side(&mut self, way: Way) -> &mut Side {
        match way {
            Way::Forth => &mut self.forth,
            Way::Back => &mut self.back,
        }
    }
}

/// What a SACK gives.
#[derive(Drop)]
struct Answer {
    /// The chunks that it is the first one to acknowledge.
    newly: Vec<Sent>,
    /// The stall that it ends.
    stall: Option<Stall>,
}

/// Whether the cumulative TSN is a later one than before.
fn is_later(before: &Option<Passed>, after: &Option<Passed>) -> bool {
    match (before, after) {
        (Some(before), Some(after)) => before.tsn != after.tsn,
        _ => false,
    }
}

/// Sorts chunks by the records with which they were sent last.
fn sort_sent(sent: &mut Vec<Sent>) -> Result<(), AllocError> {
    sent.sort_by_key(|one| one.last.number)
}

impl Acks {
    /// Nothing came yet.
    pub fn new(alloc: Global, style: Style) -> Self {
        Acks {
            style,
            associations: Associations::new(alloc),
            pairs: Vec::new(alloc),
            tally: Tally {
                acknowledged: 0,
                by_gap: 0,
                by_timer: 0,
                needless: 0,
                abandoned: 0,
                left: 0,
                wrong: 0,
            },
            last: None,
        }
    }

    /// Makes room for so many associations.
    fn grow(&mut self, alloc: Global, count: usize) -> Result<(), AllocError> {
        for _more in self.pairs.len()..count {
            self.pairs.push(Pair::new(alloc))?;
        }
        Ok(())
    }

    /// Appends the line that says which association it is, unless it stands.
    fn put_name_once(&mut self, text: &mut String, at: usize) -> Result<(), AllocError> {
        let Some(pair) = self.pairs.get_mut(at) else {
            return Ok(());
        };
        if pair.is_named {
            return Ok(());
        }
        pair.is_named = true;
        match self.associations.items.get(at) {
            Some(association) => {
                put_name(text, self.style.form, at.saturating_add(1), association)
            }
            None => Ok(()),
        }
    }

    /// With which packet it is known of chunks of this way.
    fn moment_of(&self, at: usize, way: Way, packet: &Packet<'_>) -> Option<Moment> {
        let (own, other) = self.associations.flows_at(at, way)?;
        Some(Moment {
            number: packet.number,
            time: packet.time,
            start: self.associations.start,
            association: at.saturating_add(1),
            way,
            bases: known_of(own, other, self.style.is_relative).bases,
            missing: packet.missing,
        })
    }

    /// Counts a chunk that is sent again.
    fn count_again(&mut self, cause: Cause) {
        let tally = &mut self.tally;
        match cause {
            Cause::Gap => tally.by_gap = counted(tally.by_gap, 1),
            Cause::Timer => tally.by_timer = counted(tally.by_timer, 1),
            Cause::Acknowledged => tally.needless = counted(tally.needless, 1),
        }
    }

    /// Takes DATA or I-DATA: says so, if it was sent before.
    fn take_data(
        &mut self,
        text: &mut String,
        at: usize,
        moment: &Moment,
        bytes: &[u8],
    ) -> Result<(), AllocError> {
        if !is_data(bytes) {
            return Ok(());
        }
        let (tsn, stream) = (read_u32(bytes, 4), read_u16(bytes, 8));
        let length = payload_length(bytes);
        let arrived = Arrived {
            number: moment.number,
            time: moment.time,
        };
        let Some(pair) = self.pairs.get_mut(at) else {
            return Ok(());
        };
        let side = pair.side(moment.way);
        let sending = side.send(tsn, stream, length, arrived)?;
        let flight = match sending {
            Sending::First => return Ok(()),
            Sending::Again(_) | Sending::Late(_) => side.flight(None),
        };
        match sending {
            Sending::First => Ok(()),
            Sending::Again(before) => {
                self.count_again(before.cause());
                put_again(text, self.style, moment, &before, flight)
            }
            Sending::Late(acknowledged) => {
                self.count_again(Cause::Acknowledged);
                put_late(
                    text,
                    self.style,
                    moment,
                    (stream, tsn),
                    acknowledged,
                    flight,
                )
            }
        }
    }

    /// Takes a SACK that is about this way: says which chunks it acknowledges.
    fn take_sack(
        &mut self,
        alloc: Global,
        text: &mut String,
        at: usize,
        moment: &Moment,
        sack: &ChunkSelectiveAck,
    ) -> Result<(), AllocError> {
        let arrived = Arrived {
            number: moment.number,
            time: moment.time,
        };
        let Some(pair) = self.pairs.get_mut(at) else {
            return Ok(());
        };
        let side = pair.side(moment.way);
        let Answer { newly, stall } = side.take_sack(alloc, sack, arrived)?;
        let flight = side.flight(Some(sack.advertised_receiver_window_credit));
        let mut newly = newly;
        sort_sent(&mut newly)?;
        for sent in &newly {
            let is_cumulative = sna32lte(sent.tsn, sack.cumulative_tsn_ack);
            self.tally.acknowledged = counted(self.tally.acknowledged, 1);
            put_acknowledged(text, self.style, moment, sent, is_cumulative, flight)?;
        }
        match stall {
            Some(stall) => put_stall(text, self.style, moment, &stall, flight),
            None => Ok(()),
        }
    }

    /// Takes a FORWARD-TSN: says which chunks it abandons.
    fn take_forward(
        &mut self,
        alloc: Global,
        text: &mut String,
        at: usize,
        moment: &Moment,
        tsn: u32,
    ) -> Result<(), AllocError> {
        let Some(pair) = self.pairs.get_mut(at) else {
            return Ok(());
        };
        let side = pair.side(moment.way);
        let mut abandoned = side.outstanding.take_forward(alloc, tsn)?;
        let arrived = Arrived {
            number: moment.number,
            time: moment.time,
        };
        side.wait.note_forward(tsn, arrived);
        let flight = side.flight(None);
        sort_sent(&mut abandoned)?;
        for sent in &abandoned {
            self.tally.abandoned = counted(self.tally.abandoned, 1);
            put_abandoned(text, self.style, moment, sent, flight)?;
        }
        Ok(())
    }

    /// Takes a SACK of a packet that goes this way: it is about what went the other way.
    fn take_report(
        &mut self,
        alloc: Global,
        text: &mut String,
        at: usize,
        way: Way,
        packet: &Packet<'_>,
        sack: &ChunkSelectiveAck,
    ) -> Result<(), AllocError> {
        match self.moment_of(at, way.other(), packet) {
            Some(moment) => self.take_sack(alloc, text, at, &moment, sack),
            None => Ok(()),
        }
    }

    /// Takes a chunk of a packet that goes this way.
    fn take_item(
        &mut self,
        alloc: Global,
        text: &mut String,
        at: usize,
        way: Way,
        packet: &Packet<'_>,
        item: &Item,
    ) -> Result<(), AllocError> {
        if let Reading::Strict(ChunkKind::SelectiveAck(sack)) = &item.reading {
            return self.take_report(alloc, text, at, way, packet, sack);
        }
        if let Some(sack) = refused_sack(alloc, item)? {
            return self.take_report(alloc, text, at, way, packet, &sack);
        }
        let Some(moment) = self.moment_of(at, way, packet) else {
            return Ok(());
        };
        let bytes = item.bytes.as_slice();
        match forward_of(bytes) {
            Some(tsn) => self.take_forward(alloc, text, at, &moment, tsn),
            None => self.take_data(text, at, &moment, bytes),
        }
    }

    /// What is written of a packet whose checksum is wrong: it is not read (RFC 9260 6.8).
    fn pass_wrong(
        &mut self,
        alloc: Global,
        packet: &Packet<'_>,
        is_shown: bool,
    ) -> Result<String, AllocError> {
        let mut text = String::new(alloc);
        self.tally.wrong = counted(self.tally.wrong, 1);
        if is_shown {
            let start = self.associations.start;
            put_wrong_checksum(&mut text, self.style, packet.number, &packet.time, &start)?;
        }
        Ok(text)
    }

    /// Takes the chunks of a packet that goes this way, and answers what is written of them.
    fn take_packet(
        &mut self,
        alloc: Global,
        at: usize,
        way: Way,
        packet: &Packet<'_>,
    ) -> Result<String, AllocError> {
        let mut text = String::new(alloc);
        self.grow(alloc, at.saturating_add(1))?;
        for item in &packet.seen.items {
            self.take_item(alloc, &mut text, at, way, packet, item)?;
        }
        Ok(text)
    }

    /// Lines about chunks of an association, under the line that says which it is.
    fn named(&mut self, alloc: Global, at: usize, lines: String) -> Result<String, AllocError> {
        if lines.is_empty() {
            return Ok(lines);
        }
        let mut text = String::new(alloc);
        self.put_name_once(&mut text, at)?;
        text.push_str(&lines)?;
        Ok(text)
    }

    /// The TSN that those of a way are printed relative to.
    fn base_of(&self, at: usize, way: Way) -> u32 {
        match self.associations.flows_at(at, way) {
            Some((own, other)) => known_of(own, other, self.style.is_relative).bases.own,
            None => 0,
        }
    }

    /// Appends the chunks of a way that no SACK acknowledged, and answers how many there are.
    fn put_side(
        &self,
        alloc: Global,
        text: &mut String,
        at: usize,
        way: Way,
        side: &Side,
    ) -> Result<u64, AllocError> {
        let mut left = side.outstanding.left(alloc)?;
        sort_sent(&mut left)?;
        let base = self.base_of(at, way);
        for sent in &left {
            put_left(text, self.style.form, at.saturating_add(1), way, base, sent)?;
        }
        if let Some(stall) = side.wait.stall_at(&self.last) {
            put_last_stall(text, self.style.form, at.saturating_add(1), way, &stall)?;
        }
        Ok(left.len() as u64)
    }

    /// Appends the chunks that no SACK acknowledged, and answers how many there are.
    fn put_each(&self, alloc: Global, text: &mut String) -> Result<u64, AllocError> {
        let (mut at, mut count) = (0usize, 0u64);
        for pair in &self.pairs {
            count = counted(
                count,
                self.put_side(alloc, text, at, Way::Forth, &pair.forth)?,
            );
            count = counted(
                count,
                self.put_side(alloc, text, at, Way::Back, &pair.back)?,
            );
            at = at.saturating_add(1);
        }
        Ok(count)
    }

    /// The last line.
    fn put_counts(&self, text: &mut String, counts: Counts) -> Result<(), AllocError> {
        let (records, packets) = (counts.records, counts.shown);
        let (kept, others) = (self.associations.items.len(), self.associations.others);
        let tally = self.tally;
        let (acknowledged, abandoned, left) = (tally.acknowledged, tally.abandoned, tally.left);
        let (gap, timer, needless) = (tally.by_gap, tally.by_timer, tally.needless);
        let wrong = tally.wrong;
        match self.style.form {
            Form::Text => write!(
                text,
                "{records} records: {packets} packets of {kept} associations, {others} of none; {acknowledged} chunks acknowledged, {left} not, {abandoned} abandoned; sent again: {gap} by gap, {timer} by timer, {needless} acknowledged before; {wrong} wrong checksums\n"
            ),
            Form::Json => write!(
                text,
                "{{\"records\":{records},\"packets\":{packets},\"associations\":{kept},\"others\":{others},\"acknowledged\":{acknowledged},\"not_acknowledged\":{left},\"abandoned\":{abandoned},\"by_gap\":{gap},\"by_timer\":{timer},\"acknowledged_before\":{needless},\"wrong_checksums\":{wrong}}}\n"
            ),
        }
    }
}

impl Take for Acks {
    fn see_time(&mut self, time: &Option<Time>) {
        self.associations.note_time(time);
        if time.is_some() {
            self.last = *time;
        }
    }

    /// What a packet says of chunks. Where it is not shown, it is read all the same.
    fn take(
        &mut self,
        alloc: Global,
        packet: &Packet<'_>,
        is_shown: bool,
    ) -> Result<String, AllocError> {
        if packet.is_wrong {
            return self.pass_wrong(alloc, packet, is_shown);
        }
        let Some((at, way)) = self.associations.note_packet(alloc, packet)? else {
            return Ok(String::new(alloc));
        };
        let lines = self.take_packet(alloc, at, way, packet)?;
        if is_shown {
            return self.named(alloc, at, lines);
        }
        Ok(String::new(alloc))
    }

    /// Whether checksums are tested: packets are read.
    fn tests_checksums(&self) -> bool {
        true
    }

    /// The chunks that no SACK acknowledged, and the last line.
    fn end(&mut self, alloc: Global, counts: Counts) -> Result<String, AllocError> {
        let mut text = String::new(alloc);
        self.tally.left = self.put_each(alloc, &mut text)?;
        self.put_counts(&mut text, counts)?;
        Ok(text)
    }
}
