//! How many bytes of a way are outstanding, and which window its receiver says, packet by packet.

ghost use Rattle.std.specs.Prelude.{◌≡◌, min, true, false, OnOk};
ghost use Rattle.std.specs.BTreeMap as trees;
ghost use Rattle.sctp_follow.specs.Band as bands;
ghost use Rattle.sctp_follow.specs.Outstanding.{outstanding_bytes};

use crate::flow::payload_length;
use crate::outstanding::{Outstanding, forward_of};
use crate::packet::{Arrived, refused_sack};
use crate::plot::Instant;
use sctp_chunks::chunk::chunk_kind::ChunkKind;
use sctp_data::chunk::chunk_selective_ack::ChunkSelectiveAck;
use sctp_dissect::dissection::{Item, Reading};
use sctp_show::filter::is_data;
use sctp_util::field::{read_u16, read_u32};
use std::alloc::{AllocError, Global};

/// A number of bytes, from a packet on.
#[derive(Clone, Copy)]
pub struct Level {
    pub instant: Instant,
    pub value: u64,
}

/// What is known of a way behind each packet that is shown. Each list has a level where the number changed.
#[derive(Drop)]
pub struct Band {
    outstanding: Outstanding,
    /// The bytes of user data that are outstanding.
    pub bytes: Vec<Level>,
    /// The windows (a_rwnd) that the SACKs of the other way say.
    pub windows: Vec<Level>,
}

/// When a packet was captured, and whether it is shown.
#[derive(Clone, Copy)]
pub struct Moment {
    pub arrived: Arrived,
    pub instant: Instant,
    pub is_shown: bool,
}

/// Adds a level, unless the last one is at the same number.
fn add_level(levels: &mut Vec<Level>, instant: Instant, value: u64) -> Result<(), AllocError>
    ensures { OnOk result (levels.new.items ≡ bands.with_level levels.old.items instant value) }
{
    if let Some(last) = levels.last()
        && last.value == value
    {
        return Ok(());
    }
    levels.push(Level { instant, value })?;
    Ok(())
}

impl Band {
    /// Nothing is known.
    pub fn new(alloc: Global) -> Self {
        Band {
            outstanding: Outstanding::new(alloc),
            bytes: Vec::new(alloc),
            windows: Vec::new(alloc),
        }
    }

    /// Takes a chunk that goes this way: what is sent, or abandoned.
    fn take_own(&mut self, alloc: Global, arrived: Arrived, bytes: &[u8]) -> Result<(), AllocError>
        ensures bytes { self.new.bytes ≡ self.old.bytes }
        ensures windows { self.new.windows ≡ self.old.windows }
    {
        if let Some(tsn) = forward_of(bytes) {
            let _abandoned = self.outstanding.take_forward(alloc, tsn)?;
        }
        if is_data(bytes) {
            let (tsn, stream) = (read_u32(bytes, 4), read_u16(bytes, 8));
            self.outstanding.make_room();
            let _sending = self
                .outstanding
                .send(tsn, stream, payload_length(bytes), arrived)?;
        }
        Ok(())
    }

    /// Takes a SACK that is about this way.
    fn take_sack(
        &mut self,
        alloc: Global,
        moment: Moment,
        sack: &ChunkSelectiveAck,
    ) -> Result<(), AllocError>
        ensures bytes { self.new.bytes ≡ self.old.bytes }
        ensures windows { OnOk result (moment.is_shown ≡ true → self.new.windows.items
            ≡ bands.with_level self.old.windows.items moment.instant
            sack.now.advertised_receiver_window_credit) }
        ensures hidden { moment.is_shown ≡ false → self.new.windows ≡ self.old.windows }
    {
        let _newly = self.outstanding.take_sack(alloc, sack, moment.arrived)?;
        if !moment.is_shown {
            return Ok(());
        }
        let window = sack.advertised_receiver_window_credit as u64;
        add_level(&mut self.windows, moment.instant, window)
    }

    /// Takes a chunk of the other way: it may be a SACK, whole or not.
    fn take_other(&mut self, alloc: Global, moment: Moment, item: &Item) -> Result<(), AllocError>
        ensures bytes { self.new.bytes ≡ self.old.bytes }
    {
        if let Reading::Strict(ChunkKind::SelectiveAck(sack)) = &item.reading {
            return self.take_sack(alloc, moment, sack);
        }
        match refused_sack(alloc, item)? {
            Some(sack) => self.take_sack(alloc, moment, &sack),
            None => Ok(()),
        }
    }

    /// Notes how many bytes are outstanding behind a packet.
    fn note_bytes(&mut self, instant: Instant) -> Result<(), AllocError>
        ensures bytes { OnOk result (self.new.bytes.items ≡ bands.with_level self.old.bytes.items
            instant (min (outstanding_bytes (trees.values self.old.outstanding.chunks)) u64.MAX)) }
        ensures windows { self.new.windows ≡ self.old.windows }
    {
        add_level(&mut self.bytes, instant, self.outstanding.bytes())
    }
}

/// Takes the chunks of a packet, for its own way and for the other one. One that is not shown is taken too, but gives no level.
pub fn take_packet(
    alloc: Global,
    own: &mut Band,
    other: &mut Band,
    moment: Moment,
    items: &[Item],
) -> Result<(), AllocError> {
    for item in items {
        own.take_own(alloc, moment.arrived, item.bytes.as_slice())?;
        other.take_other(alloc, moment, item)?;
    }
    if !moment.is_shown {
        return Ok(());
    }
    own.note_bytes(moment.instant)?;
    other.note_bytes(moment.instant)
}
