//! Lines of columns, and how long frames are.

ghost use Rattle.std.specs.Prelude.{◌≡◌, ◌++◌, decimal, replicate, IfOk, OnOk};
ghost use Rattle.std.specs.String.{string_bytes};
ghost use Rattle.sctp_show.specs.Mark.{marked};
ghost use Rattle.sctp_show.specs.Columns as columns;

use crate::mark::{Mark, put_marked};
use crate::page::{Form, put_all};
use itoa::Buffer;
use sctp_capture::frame::Datagram;
use sctp_capture::record::{Direction, Fault, Record};
use std::alloc::{AllocError, Global};
use std::net::IpAddr;

/// How records stand that are printed as text.
#[derive(Clone, Copy, Debug, PartialEq, Eq)]
pub enum Layout {
    /// Each is a line.
    Lines,
    /// What each chunk says stands below the line of its packet.
    Blocks,
    /// Each is a line whose columns stand below one another.
    Columns,
}

/// How long the frame of a packet is, in bytes.
#[derive(Clone, Copy, Debug, PartialEq, Eq)]
pub struct Size {
    pub captured: usize,
    pub original: u128,
}

/// The link type of an exported PDU.
const EXPORTED_LINK: u32 = 252;

/// Whether records are printed as text, in columns.
pub fn in_columns(form: Form, layout: Layout) -> bool
    ensures { result ≡ columns.in_columns form layout }
{
    match (form, layout) {
        (Form::Text, Layout::Columns) => true,
        (Form::Text, Layout::Lines) => false,
        (Form::Text, Layout::Blocks) => false,
        (Form::Json, _) => false,
    }
}

/// How long the frame of a record is that holds this datagram: of an exported PDU, as which a line with addresses is read, how long that is.
pub fn size_of(record: &Record, frame: &[u8], datagram: &Datagram<'_>) -> Size
    ensures { result ≡ columns.size_of «record».now.link_type frame.now «record».now.lost
        datagram.now.bytes.now datagram.now.missing }
{
    if record.link_type == EXPORTED_LINK {
        return Size {
            captured: datagram.bytes.len(),
            original: datagram.bytes.len() as u128 + datagram.missing as u128,
        };
    }
    Size {
        captured: frame.len(),
        original: frame.len() as u128 + record.lost as u128,
    }
}

/// Appends the members of JSON that say how long a frame is.
pub(crate) fn put_size_members(text: &mut String, size: Size) -> Result<(), AllocError>
    ensures { OnOk result (string_bytes text.new
        ≡ string_bytes text.old ++ columns.size_members size) }
{
    let (mut original, mut captured) = (Buffer::new(), Buffer::new());
    let original = original.format(size.original);
    if size.captured as u128 == size.original {
        return put_all(text, &[",\"length\":", original]);
    }
    let captured = captured.format(size.captured);
    put_all(
        text,
        &[",\"length\":", original, ",\"captured\":", captured],
    )
}

/// Appends the line that says how long a frame is.
pub(crate) fn put_size_line(text: &mut String, size: Size) -> Result<(), AllocError>
    ensures { OnOk result (string_bytes text.new
        ≡ string_bytes text.old ++ columns.size_line size) }
{
    let mut original = Buffer::new();
    put_all(
        text,
        &["    Frame: ", original.format(size.original), " bytes"],
    )?;
    if size.captured as u128 == size.original {
        return text.push_str("\n");
    }
    let mut captured = Buffer::new();
    put_all(text, &[", ", captured.format(size.captured), " captured\n"])
}

/// Appends so many blanks.
fn put_blanks(text: &mut String, count: usize) -> Result<(), AllocError>
    ensures { OnOk result (string_bytes text.new
        ≡ string_bytes text.old ++ replicate count 32) }
{
    'blanks: for _blank in 0..count {
        text.push_str(" ")?;
    }
    Ok(())
}

/// Appends a cell at the right end of so many columns.
fn put_right(text: &mut String, width: usize, cell: &str) -> Result<(), AllocError>
    ensures { OnOk result (string_bytes text.new
        ≡ string_bytes text.old ++ columns.right_cell width cell.now) }
{
    put_blanks(text, width.saturating_sub(cell.len()))?;
    text.push_str(cell)
}

/// Appends a cell at the left end of so many columns.
fn put_left(text: &mut String, width: usize, cell: &str) -> Result<(), AllocError>
    ensures { OnOk result (string_bytes text.new
        ≡ string_bytes text.old ++ columns.left_cell width cell.now) }
{
    text.push_str(cell)?;
    put_blanks(text, width.saturating_sub(cell.len()))
}

/// Where a packet came from.
pub(crate) fn source_cell(
    alloc: Global,
    ends: Option<(IpAddr, IpAddr)>,
    direction: Option<Direction>,
) -> Result<String, AllocError>
    ensures { IfOk result (λ cell. string_bytes cell ≡ columns.source_cell ends direction) }
{
    match (ends, direction) {
        (Some((source, _)), _) => format!(in alloc; "{source}"),
        (None, None) => format!(in alloc; "-"),
        (None, Some(Direction::In)) => format!(in alloc; "peer"),
        (None, Some(Direction::Out)) => format!(in alloc; "here"),
    }
}

/// Whither a packet went.
pub(crate) fn destination_cell(
    alloc: Global,
    ends: Option<(IpAddr, IpAddr)>,
    direction: Option<Direction>,
) -> Result<String, AllocError>
    ensures { IfOk result (λ cell. string_bytes cell ≡ columns.destination_cell ends direction) }
{
    match (ends, direction) {
        (Some((_, destination)), _) => format!(in alloc; "{destination}"),
        (None, None) => format!(in alloc; "-"),
        (None, Some(Direction::In)) => format!(in alloc; "here"),
        (None, Some(Direction::Out)) => format!(in alloc; "peer"),
    }
}

/// The cells of a line behind its number.
pub(crate) fn cells(
    alloc: Global,
    time: &str,
    source: &str,
    destination: &str,
    size: &str,
    info: &str,
) -> Result<String, AllocError>
    ensures { IfOk result (λ text. string_bytes text
        ≡ columns.cells time.now source.now destination.now size.now info.now) }
{
    let mut text = String::new(alloc);
    put_right(&mut text, 12, time)?;
    text.push_str(" ")?;
    put_left(&mut text, 15, source)?;
    text.push_str(" ")?;
    put_left(&mut text, 15, destination)?;
    text.push_str(" ")?;
    put_right(&mut text, 6, size)?;
    put_all(&mut text, &[" ", info])?;
    Ok(text)
}

/// A line of columns: a number, and cells as they stand out.
pub(crate) fn row(
    alloc: Global,
    number: &str,
    mark: Mark,
    shown: &str,
) -> Result<String, AllocError>
    ensures { IfOk result (λ text. string_bytes text ≡ columns.row number.now mark shown.now) }
{
    let mut text = String::new(alloc);
    put_right(&mut text, 6, number)?;
    text.push_str(" ")?;
    put_marked(&mut text, mark, shown)?;
    text.push_str("\n")?;
    Ok(text)
}

/// The line above records in columns. There is none above others.
pub fn heading(alloc: Global, form: Form, layout: Layout) -> Result<String, AllocError>
    ensures { IfOk result (λ text. string_bytes text ≡ columns.heading form layout) }
{
    if !in_columns(form, layout) {
        return Ok(String::new(alloc));
    }
    let shown = cells(alloc, "Time", "Source", "Destination", "Length", "Info")?;
    row(alloc, "No.", Mark::Plain, &shown)
}

/// The line of a packet, by how it stands out, how its time is shown, and what it holds.
pub(crate) fn packet_row(
    alloc: Global,
    number: u64,
    mark: Mark,
    time: &str,
    ends: Option<(IpAddr, IpAddr)>,
    direction: Option<Direction>,
    size: Size,
    info: &str,
) -> Result<String, AllocError>
    ensures { IfOk result (λ text. string_bytes text
        ≡ columns.packet_row number mark time.now ends direction size info.now) }
{
    let source = source_cell(alloc, ends, direction)?;
    let destination = destination_cell(alloc, ends, direction)?;
    let (mut place, mut length) = (Buffer::new(), Buffer::new());
    let length = length.format(size.original);
    let shown = cells(alloc, time, &source, &destination, length, info)?;
    row(alloc, place.format(number), mark, &shown)
}

/// How long the frame of a record was, if it has one.
fn length_cell(alloc: Global, record: &Record) -> Result<String, AllocError>
    ensures { IfOk result (λ cell. string_bytes cell
        ≡ columns.length_cell «record».now.frame «record».now.lost) }
{
    match &record.frame {
        Ok(frame) => {
            let length = frame.len() as u128 + record.lost as u128;
            format!(in alloc; "{length}")
        }
        Err(_) => format!(in alloc; "-"),
    }
}

/// Why no packet is shown of a record.
fn fault_info(alloc: Global, fault: Fault) -> Result<String, AllocError>
    ensures { IfOk result (λ info. string_bytes info ≡ columns.fault_info fault) }
{
    format!(in alloc; "not shown: {fault}")
}

/// The line of a record of which no packet is shown, by how its time is shown.
pub(crate) fn fault_row(
    alloc: Global,
    number: u64,
    time: &str,
    record: &Record,
    fault: Fault,
) -> Result<String, AllocError>
    ensures { IfOk result (λ text. string_bytes text
        ≡ columns.fault_row number time.now «record».now.frame «record».now.lost fault) }
{
    let mut place = Buffer::new();
    let size = length_cell(alloc, record)?;
    let info = fault_info(alloc, fault)?;
    let shown = cells(alloc, time, "-", "-", &size, &info)?;
    row(alloc, place.format(number), Mark::Plain, &shown)
}
