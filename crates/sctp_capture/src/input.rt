//! An input, piece by piece: what it is, and the records that it holds.

ghost use Rattle.std.specs.Prelude.{◌≡◌, ◌≤◌, IfOk, IfErr, IfSome};
ghost use Rattle.std.specs.Io.KnownBytes.{prepend_known};
ghost use Rattle.sctp_capture.specs.Blocks.{known_of};
ghost use Rattle.sctp_capture.specs.Window.{IsFailure};
ghost use Rattle.sctp_capture.specs.Input.{IsOpened, IsReadFault, Takes, Passes, taken_by, unread_by};
ghost use Rattle.sctp_capture.specs.declared.input.ReadFault.TheVariants.{Memory};

use crate::blocks::{Section, Taken, begins_blocks, holds_block, next_block};
use crate::kind::{Kind, other_kind};
use crate::record::{CAPTURE_HEADER, Head, Record, holds_entry, next_entry, read_head};
use crate::text::{holds_text, next_text};
use crate::window::Window;
use std::alloc::{AllocError, Global};
use std::io::Read;

/// Why an input is not read on.
#[derive(Clone, Copy, Debug, PartialEq, Eq)]
pub enum ReadFault {
    /// The reader failed, with this error of the system, if it named one.
    Input(Option<i32>),
    /// There was no memory.
    Memory,
    /// The input is a file of a kind that is known, but not read.
    Other(Kind),
}

impl From<AllocError> for ReadFault {
    ghost from_gives = { λ _ e. e ≡ Memory };

    fn from(_e: AllocError) -> ReadFault {
        ReadFault::Memory
    }
}

/// What an input is.
#[derive(Clone, Copy, Debug, PartialEq, Eq)]
pub enum Format {
    /// Lines of hex text, a datagram each, and dumps of several lines.
    Lines,
    /// A classic capture.
    Capture(Head),
    /// A capture in the newer format.
    Blocks,
}

/// Finds out what an input is, and drops the header of a capture.
pub fn open_input<R: Read + Drop>(window: &mut Window<R>) -> Result<Format, ReadFault>
    ensures opens { IfOk result (λ format.
        IfSome (prepend_known window.old.held.items (R.remaining window.old.reader)) (λ xs.
        IsOpened format xs (prepend_known window.new.held.items (R.remaining window.new.reader)))) }
    ensures fault { IfErr result (IsReadFault
        (prepend_known window.old.held.items (R.remaining window.old.reader))) }
{
    window.fill(CAPTURE_HEADER)?;
    match read_head(window.held()) {
        Some(head) => {
            window.advance(CAPTURE_HEADER);
            Ok(Format::Capture(head))
        }
        None => {
            if begins_blocks(window.held()) {
                return Ok(Format::Blocks);
            }
            if let Some(kind) = other_kind(window.held()) {
                return Err(ReadFault::Other(kind));
            }
            Ok(Format::Lines)
        }
    }
}

/// What was taken, where each piece is a record.
fn taken_of(next: Option<Record>) -> Taken
    ensures { result ≡ taken_by next }
{
    match next {
        Some(record) => Taken::Record(record),
        None => Taken::End,
    }
}

/// Takes the next piece of an input.
pub fn next_piece<R: Read + Drop>(
    alloc: Global,
    window: &mut Window<R>,
    section: &mut Section,
    format: Format,
) -> Result<Taken, ReadFault>
    ensures takes { IfOk result (λ taken.
        IfSome (prepend_known window.old.held.items (R.remaining window.old.reader)) (λ xs.
        Takes format (known_of section.old) xs taken (known_of section.new)
        (prepend_known window.new.held.items (R.remaining window.new.reader)))) }
    ensures passes { IfOk result (λ taken.
        IfSome (prepend_known window.old.held.items (R.remaining window.old.reader)) (λ xs.
        Passes (known_of section.old) xs taken (known_of section.new)
        (prepend_known window.new.held.items (R.remaining window.new.reader)))) }
    ensures fault { IfErr result IsFailure }
{
    match format {
        Format::Lines => next_text(alloc, window),
        Format::Capture(head) => Ok(taken_of(next_entry(alloc, window, &head)?)),
        Format::Blocks => next_block(alloc, window, section),
    }
}

/// Whether the next piece of an input is held whole, so that it can be taken with no wait.
pub fn holds_piece(format: Format, section: &Section, held: &[u8]) -> bool {
    match format {
        Format::Lines => holds_text(held),
        Format::Capture(head) => holds_entry(&head, held),
        Format::Blocks => holds_block(section.order, held),
    }
}

/// 1 for a record that could not be read.
pub fn unread_of(record: &Record) -> u64
    ensures is { result ≡ unread_by «record».now }
    ensures few { result ≤ 1 }
{
    match &record.frame {
        Ok(_) => 0,
        Err(_) => 1,
    }
}
