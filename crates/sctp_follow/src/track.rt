//! What is known of a packet from those before it in its association.

ghost use Rattle.std.specs.Prelude.{◌≡◌, true, false};
ghost use Rattle.sctp_follow.specs.Flow.{base_of};
ghost use Rattle.sctp_follow.specs.declared.associations.Way.TheVariants.{Forth, Back};
ghost use Rattle.sctp_show.specs.declared.mark.Side.TheVariants.{First, Second};

use crate::associations::{Associations, Way};
use crate::flow::{Extent, Flow};
use crate::packet::Packet;
use sctp_dissect::dissection::Dissection;
use sctp_show::checksum::Sum;
use sctp_show::follow::{ABSOLUTE, Bases, Follow, Known};
use sctp_show::mark::Side;
use sctp_show::zero::ZeroTags;
use std::alloc::{AllocError, Global};
use std::net::IpAddr;

/// What is known of a packet of no association that is kept.
const UNKNOWN: Known = Known {
    bases: ABSOLUTE,
    is_repeated: false,
    side: None,
    accepts_zero: false,
};

/// Follows the packets of a run by their associations. Its memory grows with the number of TSNs.
#[derive(Drop)]
pub struct Tracker {
    associations: Associations,
    /// Whether TSNs are printed relative to those that they are counted from.
    is_relative: bool,
    zero_tags: ZeroTags,
}

/// The TSN that those of a way are printed relative to, or 0, where none is known.
fn base_of(flow: &Flow) -> u32
    ensures { result ≡ base_of flow.now.base }
{
    flow.base.unwrap_or(0)
}

/// The side of an association that sends packets of this way.
pub(crate) fn side_of(way: Way) -> Side
    ensures forth { way ≡ Forth → result ≡ First }
    ensures back { way ≡ Back → result ≡ Second }
{
    match way {
        Way::Forth => Side::First,
        Way::Back => Side::Second,
    }
}

/// What is known of a packet that was noted last of its way, but for its side.
pub fn known_of(own: &Flow, other: &Flow, is_relative: bool) -> Known
    ensures own { is_relative ≡ true → result.bases.own ≡ base_of own.now.base }
    ensures other { is_relative ≡ true → result.bases.other ≡ base_of other.now.base }
    ensures absolute { is_relative ≡ false → (result.bases.own ≡ 0) × (result.bases.other ≡ 0) }
    ensures repeated { result.is_repeated ≡ own.now.is_repeating }
{
    if !is_relative {
        return Known {
            bases: ABSOLUTE,
            is_repeated: own.is_repeating,
            side: None,
            accepts_zero: false,
        };
    }
    Known {
        bases: Bases {
            own: base_of(own),
            other: base_of(other),
        },
        is_repeated: own.is_repeating,
        side: None,
        accepts_zero: false,
    }
}

impl Tracker {
    /// Knows of no packet yet. TSNs are printed relative to those that they are counted from, or as they are.
    pub fn new(alloc: Global, is_relative: bool) -> Self {
        Tracker {
            associations: Associations::new(alloc),
            is_relative,
            zero_tags: ZeroTags::new(alloc),
        }
    }

    /// Notes a packet, and says what is known of it. One whose checksum is wrong is not noted (RFC 9260 6.8): it repeats no TSN.
    fn known(&mut self, alloc: Global, packet: &Packet<'_>) -> Result<Option<Known>, AllocError> {
        let place = if packet.is_wrong {
            self.associations.find_packet(packet)
        } else {
            self.associations.note_packet(alloc, packet)?
        };
        let Some((at, way)) = place else {
            return Ok(None);
        };
        let Some((own, other)) = self.associations.flows_at(at, way) else {
            return Ok(None);
        };
        let mut known = known_of(own, other, self.is_relative);
        known.side = Some(side_of(way));
        known.is_repeated = known.is_repeated && !packet.is_wrong;
        Ok(Some(known))
    }
}

impl Follow for Tracker {
    fn note(
        &mut self,
        alloc: Global,
        seen: &Dissection,
        sum: Sum,
        ends: Option<(IpAddr, IpAddr)>,
    ) -> Result<Known, AllocError> {
        if sum == Sum::Crc32c {
            self.zero_tags.note(alloc, seen)?;
        }
        let packet = Packet {
            number: 0,
            seen,
            ends,
            time: None,
            extent: Extent {
                length: 0,
                is_cut: false,
            },
            missing: 0,
            is_wrong: self.zero_tags.is_wrong(sum, seen),
        };
        let mut known = self.known(alloc, &packet)?.unwrap_or(UNKNOWN);
        known.accepts_zero = self.zero_tags.accepts(&seen.header);
        Ok(known)
    }
}
