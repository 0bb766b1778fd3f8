//! What the packets of an input are summed up to.

ghost use Rattle.std.specs.Prelude.{◌≡◌, ◌≤◌, ℕ, List, IfOk, OnOk};
ghost use Rattle.std.specs.Io.KnownBytes.{Appends};
ghost use Rattle.sctp_show.specs.Run.{none};

use crate::flow::Extent;
use crate::packet::Packet;
use sctp_capture::blocks::{Section, Taken};
use sctp_capture::frame::{Datagram, datagram_in};
use sctp_capture::input::{holds_piece, next_piece, open_input, unread_of};
use sctp_capture::record::{Record, Time};
use sctp_capture::window::Window;
use sctp_dissect::dissection::Dissection;
use sctp_show::checksum::{Sum, sum_for};
use sctp_show::run::{Counts, RunFault, send_off, write_text};
use sctp_show::scene::scene_of;
use sctp_show::text::{Options, shown_in};
use sctp_show::zero::ZeroTags;
use std::alloc::{AllocError, Global};
use std::io::{Read, Write};
use std::net::IpAddr;

/// Takes the packets of an input, one after the other, and says what is written of them.
pub trait Take {
    /// Looks at the time of a record, also of one with no packet.
    fn see_time(&mut self, time: &Option<Time>);

    /// Takes a packet, which is shown or not, and answers what is written before the next one is taken. Refuses only for memory.
    fn take(
        &mut self,
        alloc: Global,
        packet: &Packet<'_>,
        is_shown: bool,
    ) -> Result<String, AllocError>;

    /// Whether the checksums of packets are to be computed for it.
    fn tests_checksums(&self) -> bool;

    /// What is written at the end of the inputs, of which so much was read. Refuses only for memory.
    fn end(&mut self, alloc: Global, counts: Counts) -> Result<String, AllocError>;
}

/// What is known before a record of an input, and of the inputs before it, as of one capture.
#[derive(Drop)]
pub struct Past {
    pub counts: Counts,
    zero_tags: ZeroTags,
    /// The first time that a record had.
    start: Option<Time>,
}

/// What is seen of the packet in a record.
#[derive(Drop)]
pub struct Look {
    seen: Dissection,
    ends: Option<(IpAddr, IpAddr)>,
    extent: Extent,
    missing: usize,
    is_wrong: bool,
    /// Whether it has what is asked for.
    pub is_shown: bool,
}

impl Past {
    /// Nothing came yet.
    pub fn new(alloc: Global) -> Self
        ensures { result.counts ≡ none }
    {
        Past {
            counts: Counts::none(),
            zero_tags: ZeroTags::new(alloc),
            start: None,
        }
    }

    /// Looks at a record. There is nothing to be seen where no packet is in it. Its checksum is computed where a filter asks for it, or this does.
    /// Refuses only for memory.
    pub fn look(
        &mut self,
        alloc: Global,
        options: &Options,
        record: &Record,
        tests_checksums: bool,
    ) -> Result<Option<Look>, AllocError>
        ensures { self.new.counts ≡ self.old.counts }
    {
        self.start = self.start.or(record.time);
        let Ok(frame) = &record.frame else {
            return Ok(None);
        };
        let frame = frame.as_slice();
        match datagram_in(record.link_type, frame, record.lost, options.port) {
            Ok(datagram) => {
                let tests = tests_checksums || options.filter.needs_checksum();
                Ok(Some(self.look_at(alloc, options, record, datagram, tests)?))
            }
            Err(_) => Ok(None),
        }
    }

    /// The same, of the datagram in it.
    fn look_at(
        &mut self,
        alloc: Global,
        options: &Options,
        record: &Record,
        datagram: Datagram<'_>,
        tests: bool,
    ) -> Result<Look, AllocError>
        ensures { self.new.counts ≡ self.old.counts }
    {
        let (missing, ends) = (datagram.missing, datagram.ends);
        let sum = if tests {
            sum_for(options.sum, missing)
        } else {
            Sum::Unchecked
        };
        let seen = shown_in(alloc, sum, datagram.bytes, missing)?;
        if sum == Sum::Crc32c {
            self.zero_tags.note(alloc, &seen)?;
        }
        let is_wrong = self.zero_tags.is_wrong(sum, &seen);
        let scene = scene_of(missing, is_wrong, ends, &self.start, &record.time);
        Ok(Look {
            is_shown: options.filter.passes(&seen, &scene),
            extent: Extent {
                length: (datagram.bytes.len() as u64).saturating_add(missing as u64),
                is_cut: missing > 0,
            },
            seen,
            ends,
            missing,
            is_wrong,
        })
    }
}

/// Takes the packet of a record, if it has one, and writes what is written of it. Answers how many are shown, 0 or 1.
fn take_record<T: Take, W: Write>(
    alloc: Global,
    options: &Options,
    record: &Record,
    past: &mut Past,
    taker: &mut T,
    output: &mut W,
) -> Result<u64, RunFault>
    ensures few { IfOk result (λ shown. shown ≤ 1) }
    ensures counts { past.new.counts ≡ past.old.counts }
{
    taker.see_time(&record.time);
    let Some(look) = past.look(alloc, options, record, taker.tests_checksums())? else {
        return Ok(0);
    };
    let packet = Packet {
        number: past.counts.records.saturating_add(1),
        seen: &look.seen,
        ends: look.ends,
        time: record.time,
        extent: look.extent,
        missing: look.missing,
        is_wrong: look.is_wrong,
    };
    let text = taker.take(alloc, &packet, look.is_shown)?;
    write_text(output, &text)?;
    Ok(if look.is_shown { 1 } else { 0 })
}

/// Reads each record of an input, has its packet taken, and writes what is written of it, until as many as are to be shown at most have
/// what is asked for. Records are counted on from those of the inputs before. What was written is sent off before more of the input is waited
/// for. An input of a kind that is known, but not read, is refused, and so are one of `u64::MAX` pieces and a count past `u64::MAX` (`TooMany`).
pub fn take_each<R: Read + Drop, T: Take, W: Write>(
    alloc: Global,
    options: &Options,
    input: R,
    past: &mut Past,
    taker: &mut T,
    output: &mut W,
) -> Result<(), RunFault>
    ensures { past.old.counts.shown ≤ options.now.limit
        → OnOk result (past.new.counts.shown ≤ options.now.limit) }
{
    let mut window = Window::new(alloc, input)?;
    let format = open_input(&mut window)?;
    let mut section = Section::new(alloc);
    'pieces: for _piece in 0..u64::MAX {
        if past.counts.shown >= options.limit {
            return Ok(());
        }
        send_off(output, holds_piece(format, &section, window.held()))?;
        match next_piece(alloc, &mut window, &mut section, format)? {
            Taken::Record(record) => {
                let shown = take_record(alloc, options, &record, past, taker, output)?;
                past.counts = past.counts.with(unread_of(&record), shown)?;
            }
            Taken::Nothing => {}
            Taken::End => return Ok(()),
        }
    }
    Err(RunFault::TooMany)
}

/// Writes what is written at the end of the inputs.
pub fn end_all<T: Take, W: Write>(
    alloc: Global,
    past: &Past,
    taker: &mut T,
    output: &mut W,
) -> Result<(), RunFault>
    ensures { OnOk result ((ending : List ℕ)
        × Appends (W.contents output.old) (W.contents output.new) ending) }
{
    let text = taker.end(alloc, past.counts)?;
    write_text(output, &text)
}
