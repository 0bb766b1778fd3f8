//! The chosen records of an input, written as a capture in the newer format (pcapng).

ghost use Rattle.std.specs.Prelude.{◌≡◌, ◌≤◌, IfOk, OnOk};
ghost use Rattle.std.specs.Io.KnownBytes.{Appends};
ghost use Rattle.sctp_capture.specs.Write as written;

use sctp_capture::blocks::{Section, Taken};
use sctp_capture::input::{holds_piece, next_piece, open_input, unread_of};
use sctp_capture::record::{MAX_RECORD, Record};
use sctp_capture::window::Window;
use sctp_capture::write::{put_interface, put_packet, put_section};
use sctp_follow::summarize::Past;
use sctp_show::run::{RunFault, send_off};
use sctp_show::text::Options;
use std::alloc::{AllocError, Global};
use std::io::{Read, Write};

/// How many link types there are, so that each one's place is less.
const LINK_TYPES: usize = 4_294_967_296;

/// What is known of a capture that is written.
#[derive(Drop)]
pub struct Saved {
    /// The blocks that are to be written next.
    blocks: Vec<u8>,
    /// The link types of its interfaces, in order.
    link_types: Vec<u32>,
}

impl Saved {
    /// A capture of which nothing is written: its header comes next. Refuses only for memory.
    pub fn new(alloc: Global) -> Result<Self, AllocError>
        ensures { IfOk result (λ saved. saved.blocks.items ≡ written.section) }
    {
        let mut blocks = Vec::new(alloc);
        put_section(&mut blocks)?;
        Ok(Saved {
            blocks,
            link_types: Vec::new(alloc),
        })
    }

    /// The number of the interface with this link type. Where there is none, its description comes next.
    fn interface_of(&mut self, link_type: u32) -> Result<u32, AllocError> {
        if let Some(place) = self.link_types.iter().position(|it| *it == link_type) {
            return Ok((place % LINK_TYPES) as u32);
        }
        let place = (self.link_types.len() % LINK_TYPES) as u32;
        self.link_types.push(link_type)?;
        put_interface(&mut self.blocks, link_type)?;
        Ok(place)
    }

    /// Adds the block of a packet, with its interface, where that is new.
    fn add(&mut self, record: &Record, frame: &[u8]) -> Result<(), AllocError> {
        if frame.len() > MAX_RECORD {
            return Ok(());
        }
        let interface = self.interface_of(record.link_type)?;
        put_packet(
            &mut self.blocks,
            interface,
            &record.time,
            frame,
            record.lost,
        )
    }

    /// Writes the blocks that come next.
    pub fn send<W: Write>(&mut self, output: &mut W) -> Result<(), RunFault>
        ensures { OnOk result (Appends (W.contents output.old) (W.contents output.new)
            self.old.blocks.items) }
    {
        let written = output.write_all(&self.blocks);
        self.blocks.clear();
        match written {
            Ok(()) => Ok(()),
            Err(e) => Err(RunFault::Output(e.raw_os_error())),
        }
    }
}

/// Writes a record, if it is chosen. Answers how many were written, 0 or 1.
fn save_record<W: Write>(
    alloc: Global,
    options: &Options,
    past: &mut Past,
    record: &Record,
    saved: &mut Saved,
    output: &mut W,
) -> Result<u64, RunFault>
    ensures few { IfOk result (λ shown. shown ≤ 1) }
    ensures counts { past.new.counts ≡ past.old.counts }
{
    let look = past.look(alloc, options, record, false)?;
    match (look, &record.frame) {
        (Some(look), Ok(frame)) if look.is_shown => {
            saved.add(record, frame)?;
            saved.send(output)?;
            Ok(1)
        }
        _ => Ok(0),
    }
}

/// Writes each record of an input whose packet has what is asked for, until as many are written as are to be shown at most. Records are counted
/// on from those of the inputs before. What was written is sent off before more of the input is waited for.
pub fn save<R: Read + Drop, W: Write>(
    alloc: Global,
    options: &Options,
    input: R,
    past: &mut Past,
    saved: &mut Saved,
    output: &mut W,
) -> Result<(), RunFault>
    ensures { past.old.counts.shown ≤ options.now.limit
        → OnOk result (past.new.counts.shown ≤ options.now.limit) }
{
    let mut window = Window::new(alloc, input)?;
    let format = open_input(&mut window)?;
    let mut section = Section::new(alloc);
    'pieces: for _turn in 0..u64::MAX {
        if past.counts.shown >= options.limit {
            return Ok(());
        }
        send_off(output, holds_piece(format, &section, window.held()))?;
        match next_piece(alloc, &mut window, &mut section, format)? {
            Taken::Record(record) => {
                let shown = save_record(alloc, options, past, &record, saved, output)?;
                past.counts = past.counts.with(unread_of(&record), shown)?;
            }
            Taken::Nothing => {}
            Taken::End => return Ok(()),
        }
    }
    Err(RunFault::TooMany)
}
