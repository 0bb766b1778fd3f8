//! Where the associations of a capture are found: by the ports and the tag of a way, or, where its tag is not known, by ports and addresses.

use crate::associations::{Place, Way};
use std::alloc::{AllocError, Global};
use std::collections::BTreeMap;
use std::net::IpAddr;

/// What a hash begins with, and is multiplied by (FNV-1a, RFC 9923 5).
const HASH_START: u64 = 0xcbf2_9ce4_8422_2325;

const HASH_FACTOR: u64 = 0x0000_0100_0000_01b3;

/// What makes room for 64 bits below a number.
const BELOW: u128 = 0x1_0000_0000_0000_0000;

/// A way of an association, by the association's place.
#[derive(Clone, Copy, PartialEq, Eq)]
pub struct Found {
    pub at: usize,
    pub way: Way,
}

/// The ways of all associations.
#[derive(Drop)]
pub struct Index {
    /// Those with a tag, by their ports and it.
    tagged: BTreeMap<u64, Found>,
    /// Those whose tag is not known, by a hash of their ports and addresses, and then in the order of the associations.
    open: BTreeMap<u128, Found>,
    /// How many associations have addresses.
    with_ends: usize,
}

/// The ports and the tag of a way, as one number.
fn tag_key(source: u16, destination: u16, tag: u32) -> u64 {
    (source as u64 * 65_536 + destination as u64) * 4_294_967_296 + tag as u64
}

/// A hash with more bytes.
fn mixed(hash: u64, bytes: &[u8]) -> u64 {
    let mut mixed = hash;
    for byte in bytes {
        mixed = (mixed ^ *byte as u64).wrapping_mul(HASH_FACTOR);
    }
    mixed
}

/// A hash with an address.
fn with_address(hash: u64, address: &IpAddr) -> u64 {
    match address {
        IpAddr::V4(address) => mixed(hash, &address.octets()),
        IpAddr::V6(address) => mixed(hash, &address.octets()),
    }
}

/// A hash of the ports and the addresses of a way.
fn ends_hash(place: &Place, way: Way) -> u64 {
    let (source, destination) = ports_of(place, way);
    let hash = mixed(HASH_START, &source.to_be_bytes());
    let hash = mixed(hash, &destination.to_be_bytes());
    match (&place.ends, way) {
        (None, _) => hash,
        (Some(ends), Way::Forth) => with_address(with_address(hash, &ends.0), &ends.1),
        (Some(ends), Way::Back) => with_address(with_address(hash, &ends.1), &ends.0),
    }
}

/// The ports of a way of an association that begins with this place.
fn ports_of(place: &Place, way: Way) -> (u16, u16) {
    match way {
        Way::Forth => (place.source_port, place.destination_port),
        Way::Back => (place.destination_port, place.source_port),
    }
}

/// Where a way stands among those whose tag is not known.
fn open_key(place: &Place, found: Found) -> u128 {
    let order = found.at as u128 * 2 + if found.way == Way::Forth { 0 } else { 1 };
    ends_hash(place, found.way) as u128 * BELOW + order % BELOW
}

impl Index {
    /// None yet.
    pub fn new(alloc: Global) -> Self {
        Index {
            tagged: BTreeMap::new(alloc),
            open: BTreeMap::new(alloc),
            with_ends: 0,
        }
    }

    /// Adds both ways of an association that begins with this place. No tag is known.
    pub fn add(&mut self, at: usize, place: &Place) -> Result<(), AllocError> {
        if place.ends.is_some() {
            self.with_ends = self.with_ends.saturating_add(1);
        }
        for way in [Way::Forth, Way::Back] {
            let found = Found { at, way };
            if self.open.insert(open_key(place, found), found).is_err() {
                return Err(AllocError);
            }
        }
        Ok(())
    }

    /// Notes that a way, of an association that begins with this place, has another tag than before.
    pub fn note(
        &mut self,
        place: &Place,
        found: Found,
        before: Option<u32>,
        after: Option<u32>,
    ) -> Result<(), AllocError> {
        if before == after {
            return Ok(());
        }
        let (source, destination) = ports_of(place, found.way);
        match before {
            None => {
                let _open = self.open.remove(&open_key(place, found));
            }
            Some(tag) => self.forget(tag_key(source, destination, tag), found),
        }
        match after {
            Some(tag) => self.keep(tag_key(source, destination, tag), found),
            None => Ok(()),
        }
    }

    /// Forgets the tag of a way.
    fn forget(&mut self, key: u64, found: Found) {
        if self.tagged.get(&key).copied() == Some(found) {
            let _tagged = self.tagged.remove(&key);
        }
    }

    /// Keeps the tag of a way, unless an earlier association has it.
    fn keep(&mut self, key: u64, found: Found) -> Result<(), AllocError> {
        if let Some(other) = self.tagged.get(&key)
            && other.at <= found.at
        {
            return Ok(());
        }
        match self.tagged.insert(key, found) {
            Ok(_) => Ok(()),
            Err(_) => Err(AllocError),
        }
    }

    /// The way of which a packet is by its tag: that which it has, or asks for, or reflects.
    pub fn find_tagged(&self, place: &Place) -> Option<Found> {
        let is_other = place.is_opening || place.is_reflected;
        let tag = if place.is_opening {
            place.initiate_tag?
        } else {
            place.tag
        };
        let way = if is_other { Way::Back } else { Way::Forth };
        let (source, destination) = ports_of(place, way);
        let found = *self.tagged.get(&tag_key(source, destination, tag))?;
        if !is_other {
            return Some(found);
        }
        Some(Found {
            at: found.at,
            way: found.way.other(),
        })
    }

    /// Whether, of so many associations, either all have addresses, as a packet has, or none.
    pub fn is_even(&self, place: &Place, count: usize) -> bool {
        self.with_ends == if place.ends.is_some() { count } else { 0 }
    }

    /// The first way that has the ports and addresses of a packet, by their hash, and whose tag is not known.
    pub fn find_open(&self, place: &Place) -> Option<Found> {
        let hash = ends_hash(place, Way::Forth) as u128;
        match self.open.range(hash * BELOW..).next() {
            Some((key, found)) if *key / BELOW == hash => Some(*found),
            _ => None,
        }
    }
}
