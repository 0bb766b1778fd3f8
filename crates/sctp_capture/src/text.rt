//! The records of text: lines of hex text, a datagram each, and dumps of several lines.

ghost use Rattle.std.specs.Prelude.{◌≡◌, ◌≤◌, ◌<◌, ◌++◌, ◌⊎◌, ◌&&◌, ℕ, List, Some, true, false, min, length, IsTrue, IfOk, IfErr, OnOk, IfSome};
ghost use Rattle.std.specs.Io.KnownBytes.{Keeps, IsAtEnd, prepend_known};
ghost use Rattle.sctp_capture.specs.Window.{IsFailure};
ghost use Rattle.sctp_capture.specs.Lead.{no_lead};
ghost use Rattle.sctp_capture.specs.Record.{line_in, after_line, HoldsLine};
ghost use Rattle.sctp_capture.specs.Dump as dumps;
ghost use Rattle.sctp_capture.specs.Text.{IsDump, IsDumpRecord, IsLed, IsTextTaken, IsNextText, taken_text};

use crate::blocks::Taken;
use crate::dump::{WIDTH, goes_on, is_dump, push_line, says_offset};
use crate::input::ReadFault;
use crate::lead::Lead;
use crate::preamble::preamble_of;
use crate::record::{
    Fault, MAX_RECORD, Record, fill_line, holds_line, line_length, line_record, skip_line,
    take_single,
};
use crate::window::Window;
use bytes::Bytes;
use std::alloc::{AllocError, Global};
use std::io::Read;

/// The line at the front, without its line feed.
#[tactic(auto, using(crate::proofs::Lines::line_front))]
fn first_line(held: &[u8]) -> &[u8]
    ensures { result.now ≡ line_in held.now }
{
    &held[..line_length(held)]
}

/// What stands before a dump where nothing does.
fn no_lead() -> Lead
    ensures { result ≡ no_lead }
{
    Lead {
        length: 0,
        direction: None,
        time: None,
    }
}

/// What the lines of a dump say so far, and whether each has the offset that it must.
#[derive(Drop)]
struct Dump {
    said: Vec<u8>,
    is_right: bool,
}

/// Takes the line at the front into a dump, and of its bytes at most so many.
fn take_line<R: Read + Drop>(
    window: &mut Window<R>,
    dump: &mut Dump,
    width: usize,
) -> Result<(), ReadFault>
    requires { width ≤ 256 }
    ensures said { OnOk result (dump.new.said.items ≡ dump.old.said.items
        ++ dumps.bytes_in width (line_in window.old.held.items)) }
    ensures right { OnOk result (dump.new.is_right
        ≡ (dumps.says_offset (line_in window.old.held.items) (length dump.old.said.items)
        && dump.old.is_right)) }
    ensures left { OnOk result
        (IfSome (prepend_known window.old.held.items (R.remaining window.old.reader)) (λ xs.
        Keeps (Some (after_line xs)) (prepend_known window.new.held.items
        (R.remaining window.new.reader)))) }
    ensures fault { IfErr result IsFailure }
{
    let line = first_line(window.held());
    dump.is_right = says_offset(line, dump.said.len()) && dump.is_right;
    push_line(line, width, &mut dump.said)?;
    skip_line(window)
}

/// The record of a dump.
fn dump_record(lead: Lead, dump: Dump) -> Result<Record, AllocError>
    ensures { IfOk result (IsDumpRecord lead dump.said.items dump.is_right) }
{
    let frame = if dump.said.len() > MAX_RECORD {
        Err(Fault::TooLong)
    } else if dump.is_right {
        Ok(Bytes::from_vec(dump.said)?)
    } else {
        Err(Fault::BadOffset)
    };
    Ok(line_record(lead.time, lead.direction, frame))
}

/// How many bytes are looked for in the next line behind so many and one more, which has as many.
fn next_width(before: u64, said: usize, width: usize) -> usize
    requires { width ≤ 256 }
    ensures first { before ≡ 0 → result ≡ min said 256 }
    ensures later { 0 < before → result ≡ width }
    ensures few { result ≤ 256 }
{
    if before == 0 {
        return said.min(WIDTH);
    }
    width
}

/// Whether a dump ends before the line at the front: more than a record may have was said, or it does not go on there.
fn is_ended(dump: &Dump, held: &[u8]) -> bool
    ensures yes { result ≡ true → (262144 < length dump.now.said.items)
        ⊎ (dumps.goes_on (line_in held.now) ≡ false) }
    ensures no { result ≡ false → (length dump.now.said.items ≤ 262144)
        × (dumps.goes_on (line_in held.now) ≡ true) }
{
    if dump.said.len() > MAX_RECORD {
        return true;
    }
    !goes_on(first_line(held))
}

/// Takes the dump that the line at the front begins, with what stands before it.
/// Precondition: that line is held, and begins one.
#[tactic(auto, using(crate::proofs::Texts::run_first, crate::proofs::Texts::dump_is_short))]
fn take_dump<R: Read + Drop>(
    alloc: Global,
    window: &mut Window<R>,
    lead: Lead,
) -> Result<Record, ReadFault>
    requires { (dumps.is_dump (line_in window.old.held.items) ≡ true)
        × (HoldsLine window.old.held.items ⊎ IsAtEnd (R.remaining window.old.reader)) }
    ensures takes { IfOk result
        (λ r. IfSome (prepend_known window.old.held.items (R.remaining window.old.reader)) (λ xs.
        (rest : List ℕ) × IsDump lead xs r rest × Keeps (Some rest)
        (prepend_known window.new.held.items (R.remaining window.new.reader)))) }
    ensures fault { IfErr result IsFailure }
{
    let mut dump = Dump {
        said: Vec::new(alloc),
        is_right: true,
    };
    let mut width = WIDTH;
    for taken in 0..u64::MAX {
        take_line(window, &mut dump, width)?;
        width = next_width(taken, dump.said.len(), width);
        fill_line(window)?;
        if is_ended(&dump, window.held()) {
            return Ok(dump_record(lead, dump)?);
        }
    }
    Err(ReadFault::Input(None))
}

/// Takes the line at the front, which says this and nothing else, and the dump behind it. Refuses it where there is none.
/// Precondition: that line is held.
fn take_led<R: Read + Drop>(
    alloc: Global,
    window: &mut Window<R>,
    lead: Lead,
) -> Result<Record, ReadFault>
    ensures takes { IfOk result
        (λ r. IfSome (prepend_known window.old.held.items (R.remaining window.old.reader)) (λ xs.
        (rest : List ℕ) × IsLed lead (after_line xs) r rest × Keeps (Some rest)
        (prepend_known window.new.held.items (R.remaining window.new.reader)))) }
    ensures fault { IfErr result IsFailure }
{
    skip_line(window)?;
    fill_line(window)?;
    if is_dump(first_line(window.held())) {
        return take_dump(alloc, window, lead);
    }
    Ok(line_record(None, None, Err(Fault::NotHex)))
}

/// What was taken, where a piece may be no record.
fn taken_text(found: Option<Record>) -> Taken
    ensures { result ≡ taken_text found }
{
    match found {
        Some(record) => Taken::Record(record),
        None => Taken::Nothing,
    }
}

/// Takes the piece at the front: a dump, also behind a mark or a time, or a line.
/// Precondition: its first line is held.
fn take_text<R: Read + Drop>(
    alloc: Global,
    window: &mut Window<R>,
) -> Result<Option<Record>, ReadFault>
    requires { (0 < length window.old.held.items) × (HoldsLine window.old.held.items
        ⊎ IsAtEnd (R.remaining window.old.reader)) }
    ensures takes { IfOk result
        (λ found. IfSome (prepend_known window.old.held.items (R.remaining window.old.reader)) (λ xs.
        IsTextTaken xs found
        (prepend_known window.new.held.items (R.remaining window.new.reader)))) }
    ensures fault { IfErr result IsFailure }
{
    let line = first_line(window.held());
    if is_dump(line) {
        return Ok(Some(take_dump(alloc, window, no_lead())?));
    }
    match preamble_of(line) {
        Some(lead) => Ok(Some(take_led(alloc, window, lead)?)),
        None => take_single(alloc, window),
    }
}

/// Takes the next piece of text. There is none at the end of the input.
pub fn next_text<R: Read + Drop>(alloc: Global, window: &mut Window<R>) -> Result<Taken, ReadFault>
    ensures takes { IfOk result
        (λ taken. IfSome (prepend_known window.old.held.items (R.remaining window.old.reader)) (λ xs.
        IsNextText xs (prepend_known window.new.held.items (R.remaining window.new.reader)) taken)) }
    ensures fault { IfErr result IsFailure }
{
    fill_line(window)?;
    if window.held().is_empty() {
        return Ok(Taken::End);
    }
    Ok(taken_text(take_text(alloc, window)?))
}

/// What is held behind the line at the front.
fn behind_line(held: &[u8]) -> &[u8] {
    let length = line_length(held);
    if length < held.len() {
        return &held[length + 1..];
    }
    b""
}

/// Whether a piece of text goes on behind this line, its first one or a later one.
fn may_go_on(line: &[u8], before: u64) -> bool {
    if before == 0 {
        return is_dump(line) || preamble_of(line).is_some();
    }
    goes_on(line) || (before == 1 && is_dump(line))
}

/// Whether what is held may end within the piece at its front.
fn may_end_within(held: &[u8]) -> bool {
    let mut rest = held;
    for before in 0..u64::MAX {
        if !holds_line(rest) {
            return true;
        }
        if !may_go_on(first_line(rest), before) {
            return false;
        }
        rest = behind_line(rest);
    }
    true
}

/// Whether the piece of text at the front is held whole.
pub fn holds_text(held: &[u8]) -> bool
    ensures { IsTrue result → length (line_in held.now) < length held.now }
{
    holds_line(held) && !may_end_within(held)
}
