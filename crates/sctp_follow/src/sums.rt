//! What the packets of an input are summed up to, with the round trips of each way.

use crate::associations::{Associations, Way};
use crate::flow::payload_length;
use crate::handshake::Handshake;
use crate::outstanding::{Outstanding, forward_of};
use crate::packet::{Arrived, Packet, refused_sack};
use crate::summarize::Take;
use crate::text::{Style, put_association, put_end};
use crate::trips::Trips;
use sctp_capture::record::Time;
use sctp_chunks::chunk::chunk_kind::ChunkKind;
use sctp_data::chunk::chunk_selective_ack::ChunkSelectiveAck;
use sctp_dissect::dissection::{Item, Reading};
use sctp_show::filter::is_data;
use sctp_show::page::Form;
use sctp_show::run::Counts;
use sctp_show::time::Clock;
use sctp_util::field::{read_u16, read_u32};
use std::alloc::{AllocError, Global};

/// The chunks of a way that are outstanding, and its round trips.
#[derive(Drop)]
struct Side {
    outstanding: Outstanding,
    trips: Trips,
}

/// Both ways of an association, and its handshake.
#[derive(Drop)]
struct Pair {
    handshake: Handshake,
    forth: Side,
    back: Side,
}

impl Side {
    /// Nothing was sent yet.
    fn new(alloc: Global) -> Self {
        Side {
            outstanding: Outstanding::new(alloc),
            trips: Trips::new(alloc),
        }
    }

    /// Takes a SACK about this way.
    fn take_sack(
        &mut self,
        alloc: Global,
        sack: &ChunkSelectiveAck,
        arrived: Arrived,
    ) -> Result<(), AllocError> {
        let newly = self.outstanding.take_sack(alloc, sack, arrived)?;
        for sent in &newly {
            if let Some(trip) = sent.round_trip(&arrived.time) {
                self.trips.note(&trip)?;
            }
        }
        Ok(())
    }

    /// Takes a chunk that goes this way.
    fn take_bytes(
        &mut self,
        alloc: Global,
        bytes: &[u8],
        arrived: Arrived,
    ) -> Result<(), AllocError> {
        if let Some(tsn) = forward_of(bytes) {
            let _abandoned = self.outstanding.take_forward(alloc, tsn)?;
            return Ok(());
        }
        if !is_data(bytes) {
            return Ok(());
        }
        self.outstanding.make_room();
        let (tsn, stream) = (read_u32(bytes, 4), read_u16(bytes, 8));
        let length = payload_length(bytes);
        let _sending = self.outstanding.send(tsn, stream, length, arrived)?;
        Ok(())
    }
}

impl Pair {
    /// Nothing was sent yet.
    fn new(alloc: Global) -> Self {
        Pair {
            handshake: Handshake::new(),
            forth: Side::new(alloc),
            back: Side::new(alloc),
        }
    }

    /// One of the ways.
    fn side(&mut self, way: Way) -> &mut Side {
        match way {
            Way::Forth => &mut self.forth,
            Way::Back => &mut self.back,
        }
    }

    /// Takes a chunk of a packet that goes this way: a SACK is about the other one.
    fn take_item(
        &mut self,
        alloc: Global,
        way: Way,
        item: &Item,
        arrived: Arrived,
    ) -> Result<(), AllocError> {
        self.handshake.note(item.bytes.as_slice(), arrived);
        if let Reading::Strict(ChunkKind::SelectiveAck(sack)) = &item.reading {
            return self.side(way.other()).take_sack(alloc, sack, arrived);
        }
        match refused_sack(alloc, item)? {
            Some(sack) => self.side(way.other()).take_sack(alloc, &sack, arrived),
            None => self
                .side(way)
                .take_bytes(alloc, item.bytes.as_slice(), arrived),
        }
    }
}

/// What the packets of an input are summed up to.
#[derive(Drop)]
pub struct Sums {
    associations: Associations,
    /// What was sent in each association.
    pairs: Vec<Pair>,
    form: Form,
    clock: Clock,
}

impl Sums {
    /// Nothing is summed up yet.
    pub fn new(alloc: Global, form: Form, clock: Clock) -> Self {
        Sums {
            associations: Associations::new(alloc),
            pairs: Vec::new(alloc),
            form,
            clock,
        }
    }

    /// Makes room for so many associations.
    fn grow(&mut self, alloc: Global, count: usize) -> Result<(), AllocError> {
        for _more in self.pairs.len()..count {
            self.pairs.push(Pair::new(alloc))?;
        }
        Ok(())
    }

    /// Takes the chunks of a packet that goes this way.
    fn take_packet(
        &mut self,
        alloc: Global,
        at: usize,
        way: Way,
        packet: &Packet<'_>,
    ) -> Result<(), AllocError> {
        self.grow(alloc, at.saturating_add(1))?;
        let Some(pair) = self.pairs.get_mut(at) else {
            return Ok(());
        };
        let arrived = Arrived {
            number: packet.number,
            time: packet.time,
        };
        for item in &packet.seen.items {
            pair.take_item(alloc, way, item, arrived)?;
        }
        Ok(())
    }
}

impl Take for Sums {
    fn see_time(&mut self, time: &Option<Time>) {
        self.associations.note_time(time);
    }

    fn take(
        &mut self,
        alloc: Global,
        packet: &Packet<'_>,
        is_shown: bool,
    ) -> Result<String, AllocError> {
        if is_shown && let Some((at, way)) = self.associations.note_packet(alloc, packet)? {
            self.take_packet(alloc, at, way, packet)?;
        }
        Ok(String::new(alloc))
    }

    /// Checksums are not computed.
    fn tests_checksums(&self) -> bool {
        false
    }

    /// Each association, and the last line.
    fn end(&mut self, alloc: Global, counts: Counts) -> Result<String, AllocError> {
        let style = Style {
            form: self.form,
            clock: self.clock,
            start: self.associations.start,
        };
        let mut text = String::new(alloc);
        let mut number = 1u64;
        for (association, sent) in self.associations.items.iter().zip(self.pairs.iter()) {
            let (forth, back) = (sent.forth.trips.spread(), sent.back.trips.spread());
            let handshake = &sent.handshake;
            put_association(
                &mut text,
                &style,
                number,
                association,
                handshake,
                forth,
                back,
            )?;
            number = number.saturating_add(1);
        }
        put_end(&mut text, style.form, counts, &self.associations)?;
        Ok(text)
    }
}
