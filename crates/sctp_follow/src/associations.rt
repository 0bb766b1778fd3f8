//! The associations of a capture, by the ports and the verification tags of its packets.

use crate::flow::{Flow, counted};
use crate::index::{Found, Index};
use crate::packet::Packet;
use sctp_capture::record::Time;
use sctp_dissect::dissection::{Header, Item};
use sctp_util::field::read_u32;
use std::alloc::{AllocError, Global};
use std::net::IpAddr;

/// How many associations are kept.
const MAX_ASSOCIATIONS: usize = 4_096;

/// The types of chunks that name a tag, or may reflect one.
const INIT: u8 = 1;

const INIT_ACK: u8 = 2;

const ABORT: u8 = 6;

const SHUTDOWN_COMPLETE: u8 = 14;

/// The two ways of an association: that of its first packet, and the other one.
#[derive(Clone, Copy, PartialEq, Eq)]
pub enum Way {
    Forth,
    Back,
}

impl Way {
    /// The other one.
    pub fn other(self) -> Self {
        match self {
            Way::Forth => Way::Back,
            Way::Back => Way::Forth,
        }
    }

    /// Its word in JSON.
    pub fn word(self) -> &'static str {
        match self {
            Way::Forth => "forth",
            Way::Back => "back",
        }
    }

    /// Its arrow in text.
    pub fn arrow(self) -> &'static str {
        match self {
            Way::Forth => ">",
            Way::Back => "<",
        }
    }
}

/// What says which association a packet is of.
#[derive(Clone, Copy)]
pub struct Place {
    /// The addresses of source and destination, where they are known.
    pub ends: Option<(IpAddr, IpAddr)>,
    pub source_port: u16,
    pub destination_port: u16,
    pub tag: u32,
    /// The tag that an INIT or INIT-ACK asks for.
    pub initiate_tag: Option<u32>,
    /// Whether it is an INIT, which has no tag of its own.
    pub is_opening: bool,
    /// Whether its tag is that of the other way (RFC 4960 8.5.1).
    pub is_reflected: bool,
}

/// An association.
#[derive(Drop)]
pub struct Association {
    /// What its first packet says.
    pub place: Place,
    pub forth: Flow,
    pub back: Flow,
}

/// The tags of both ways of an association, as far as they are known.
#[derive(Clone, Copy)]
struct Tags {
    forth: Option<u32>,
    back: Option<u32>,
}

/// The associations in the order of their first packets.
#[derive(Drop)]
pub struct Associations {
    pub items: Vec<Association>,
    /// How many packets are of no association that is kept.
    pub others: u64,
    /// The first time that a record had.
    pub start: Option<Time>,
    /// Where they are found.
    index: Index,
}

/// What says which association a packet is of.
pub fn place_of(header: &Header, items: &[Item], ends: Option<(IpAddr, IpAddr)>) -> Place {
    let first = match items.first() {
        Some(item) => item.bytes.as_slice(),
        None => b"",
    };
    let typ = first.first().copied().unwrap_or(0);
    let flags = first.get(1).copied().unwrap_or(0);
    let initiate_tag = if (typ == INIT || typ == INIT_ACK) && first.len() >= 8 {
        Some(read_u32(first, 4))
    } else {
        None
    };
    Place {
        ends,
        source_port: header.fields.source_port,
        destination_port: header.fields.destination_port,
        tag: header.fields.verification_tag,
        initiate_tag,
        is_opening: typ == INIT,
        is_reflected: (typ == ABORT || typ == SHUTDOWN_COMPLETE) && flags % 2 == 1,
    }
}

/// Notes the tags that a packet says, of its own way and of the other one.
fn note_tags(own: &mut Flow, other: &mut Flow, place: &Place) {
    if !place.is_opening && !place.is_reflected {
        own.tag = Some(place.tag);
    }
    if place.initiate_tag.is_some() {
        other.tag = place.initiate_tag;
    }
}

impl Association {
    /// Nothing is noted yet.
    fn new(alloc: Global, place: Place) -> Result<Self, AllocError> {
        Ok(Association {
            place,
            forth: Flow::new(alloc, None)?,
            back: Flow::new(alloc, None)?,
        })
    }

    /// Whether a packet has the ports of this way.
    fn has_ports(&self, way: Way, place: &Place) -> bool {
        let (source, destination) = match way {
            Way::Forth => (self.place.source_port, self.place.destination_port),
            Way::Back => (self.place.destination_port, self.place.source_port),
        };
        place.source_port == source && place.destination_port == destination
    }

    /// Whether a packet has the addresses of this way, as far as they are known.
    fn has_ends(&self, way: Way, place: &Place) -> bool {
        let (Some(mine), Some(its)) = (&self.place.ends, &place.ends) else {
            return true;
        };
        match way {
            Way::Forth => mine.0 == its.0 && mine.1 == its.1,
            Way::Back => mine.0 == its.1 && mine.1 == its.0,
        }
    }

    /// Whether a packet may be of this way, the tag of which is not known.
    fn is_open(&self, way: Way, place: &Place) -> bool {
        let tag = match way {
            Way::Forth => self.forth.tag,
            Way::Back => self.back.tag,
        };
        tag.is_none() && !place.is_opening && !place.is_reflected && self.has_ends(way, place)
    }

    /// The way that a packet goes, if it may be one of this association, the tag of which is not known.
    fn open_way_of(&self, place: &Place) -> Option<Way> {
        for way in [Way::Forth, Way::Back] {
            if self.is_open(way, place) && self.has_ports(way, place) {
                return Some(way);
            }
        }
        None
    }

    /// The tags of both ways.
    fn tags(&self) -> Tags {
        Tags {
            forth: self.forth.tag,
            back: self.back.tag,
        }
    }

    /// Notes the tags that a packet says.
    fn note_tags(&mut self, way: Way, place: &Place) {
        match way {
            Way::Forth => note_tags(&mut self.forth, &mut self.back, place),
            Way::Back => note_tags(&mut self.back, &mut self.forth, place),
        }
    }

    /// Notes a packet that goes this way.
    fn note(&mut self, way: Way, place: &Place, packet: &Packet<'_>) -> Result<(), AllocError> {
        self.note_tags(way, place);
        let items = &packet.seen.items;
        match way {
            Way::Forth => self.forth.note(items, &packet.time, packet.extent),
            Way::Back => self.back.note(items, &packet.time, packet.extent),
        }
    }
}

impl Associations {
    /// None yet.
    pub fn new(alloc: Global) -> Self {
        Associations {
            items: Vec::new(alloc),
            others: 0,
            start: None,
            index: Index::new(alloc),
        }
    }

    /// Keeps the time of a record, if it is the first that has one.
    pub fn note_time(&mut self, time: &Option<Time>) {
        if self.start.is_none() {
            self.start = *time;
        }
    }

    /// The association and the way of a packet, where the tag of that is not known: each is looked at.
    fn find_open_each(&self, place: &Place) -> Option<(usize, Way)> {
        let mut at = 0usize;
        for association in &self.items {
            if let Some(way) = association.open_way_of(place) {
                return Some((at, way));
            }
            at = at.saturating_add(1);
        }
        None
    }

    /// The same by the index, where all associations have addresses, or none has.
    fn find_open(&self, place: &Place) -> Option<(usize, Way)> {
        if place.is_opening || place.is_reflected {
            return None;
        }
        if !self.index.is_even(place, self.items.len()) {
            return self.find_open_each(place);
        }
        let found = self.index.find_open(place)?;
        match self.items.get(found.at)?.open_way_of(place) {
            Some(way) => Some((found.at, way)),
            None => self.find_open_each(place),
        }
    }

    /// The association and the way of a packet, if it is of one: by its tag, or else by an unknown one.
    fn find(&self, place: &Place) -> Option<(usize, Way)> {
        match self.index.find_tagged(place) {
            Some(found) => Some((found.at, found.way)),
            None => self.find_open(place),
        }
    }

    /// The association and the way of a packet: one that there is, or a new one.
    fn place_for(&mut self, alloc: Global, place: &Place) -> Result<(usize, Way), AllocError> {
        if let Some(found) = self.find(place) {
            return Ok(found);
        }
        let at = self.items.len();
        if at < MAX_ASSOCIATIONS {
            self.items.push(Association::new(alloc, *place)?)?;
            self.index.add(at, place)?;
        }
        Ok((at, Way::Forth))
    }

    /// The association and the way of a packet, if it is of one that there is. Nothing is noted.
    pub fn find_packet(&self, packet: &Packet<'_>) -> Option<(usize, Way)> {
        let header = packet.seen.header.as_ref()?;
        let place = place_of(header, &packet.seen.items, packet.ends);
        self.find(&place)
    }

    /// What went the way of a packet, and what went the other one.
    pub fn flows_at(&self, at: usize, way: Way) -> Option<(&Flow, &Flow)> {
        let association = self.items.get(at)?;
        match way {
            Way::Forth => Some((&association.forth, &association.back)),
            Way::Back => Some((&association.back, &association.forth)),
        }
    }

    /// Keeps the tags of both ways of an association that begins with this place.
    fn note_tags(
        &mut self,
        at: usize,
        first: &Place,
        before: Tags,
        after: Tags,
    ) -> Result<(), AllocError> {
        let (forth, back) = (Way::Forth, Way::Back);
        self.index
            .note(first, Found { at, way: forth }, before.forth, after.forth)?;
        self.index
            .note(first, Found { at, way: back }, before.back, after.back)
    }

    /// Notes a packet, and answers of which association and which way it is, if it is of one. Refuses only for memory.
    pub fn note_packet(
        &mut self,
        alloc: Global,
        packet: &Packet<'_>,
    ) -> Result<Option<(usize, Way)>, AllocError> {
        let Some(header) = &packet.seen.header else {
            self.others = counted(self.others, 1);
            return Ok(None);
        };
        let place = place_of(header, &packet.seen.items, packet.ends);
        let (at, way) = self.place_for(alloc, &place)?;
        match self.items.get_mut(at) {
            Some(association) => {
                let before = association.tags();
                association.note(way, &place, packet)?;
                let (after, first) = (association.tags(), association.place);
                self.note_tags(at, &first, before, after)?;
                Ok(Some((at, way)))
            }
            None => {
                self.others = counted(self.others, 1);
                Ok(None)
            }
        }
    }
}
