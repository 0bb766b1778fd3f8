//! A record as it is printed.

ghost use Rattle.std.specs.Prelude.{◌≡◌, ℕ, List, [], true, false, IfOk};
ghost use Rattle.std.specs.String.{string_bytes};
ghost use Rattle.sctp_show.specs.Text.{IsSeen, IsShown, IsShownText, IsPacketText, IsText, IsFrameText, IsFaultText, numbered_text, refused_text};
ghost use Rattle.sctp_show.specs.declared.mark.Mark.{Mark as MarkKind};
ghost use Rattle.sctp_show.specs.Columns as columns;
ghost use Rattle.sctp_show.specs.Sum.{sum_of, sum_for, is_wrong};
ghost use Rattle.sctp_show.specs.Choice.{passes};
ghost use Rattle.sctp_show.specs.Scene as scenes;

use crate::brief::put_brief;
use crate::checksum::{Sum, is_wrong, sum_for};
use crate::choice::Choice;
use crate::chunk_text::put_block;
use crate::columns::{
    Layout, Size, fault_row, in_columns, packet_row, put_size_line, put_size_members, size_of,
};
use crate::cut::with_cut;
use crate::filter::{is_left_over, is_refused};
use crate::follow::{Bases, Follow, Known, bases_for};
use crate::mark::{mark_of, put_marked};
use crate::page::{Form, Page, put_all};
use crate::rules::rule_of_rest;
use crate::scene::scene_of;
use crate::summary::Summary;
use crate::time::{Clock, put_clock};
use bytes::Bytes;
use itoa::Buffer;
use sctp_capture::frame::{Datagram, datagram_in};
use sctp_capture::record::{Direction, Fault, Record, Time};
use sctp_dissect::dissection::{Dissection, Fault as WalkFault, Header, Item, dissect};
use std::alloc::{AllocError, Global};

/// How records are looked at.
#[derive(Drop)]
pub struct Options {
    pub sum: Sum,
    /// The UDP port of SCTP in UDP (RFC 6951).
    pub port: u16,
    pub form: Form,
    /// How records stand that are printed as text. JSON has what each chunk says in any case.
    pub layout: Layout,
    /// How times are printed, where records are printed as text. JSON has them as they were captured in any case.
    pub clock: Clock,
    /// Whether lines of packets are colored, where records are printed as text: those that are refused or repeat a TSN, and others by their sides.
    pub is_colored: bool,
    /// Which packets are shown.
    pub filter: Choice,
    /// How many records are shown at most.
    pub limit: u64,
}

/// When a record was captured, or `-` where that is not known.
fn put_time(
    page: &mut Page,
    options: &Options,
    start: &Option<Time>,
    time: &Option<Time>,
) -> Result<(), AllocError> {
    match (page.form, time) {
        (Form::Text, _) => put_clock(&mut page.text, options.clock, start, time),
        (Form::Json, None) => Ok(()),
        (Form::Json, Some(time)) => write!(page.text, ",\"time\":\"{time}\""),
    }
}

/// Whether a datagram came in or went out, in a line without addresses, and in JSON.
fn direction_words(direction: Option<Direction>) -> (&'static str, &'static str) {
    match direction {
        None => (" - > -", ""),
        Some(Direction::In) => (" peer > here", ",\"direction\":\"in\""),
        Some(Direction::Out) => (" here > peer", ",\"direction\":\"out\""),
    }
}

/// Between which addresses a datagram went, or whither, where these are not known. JSON has both.
fn put_ends(
    page: &mut Page,
    direction: Option<Direction>,
    datagram: &Datagram<'_>,
) -> Result<(), AllocError> {
    let (line, member) = direction_words(direction);
    let Some((source, destination)) = &datagram.ends else {
        page.in_text(line)?;
        return page.in_json(member);
    };
    if page.is_text() {
        return write!(page.text, " {source} > {destination}");
    }
    write!(
        page.text,
        ",\"source\":\"{source}\",\"destination\":\"{destination}\"{member}"
    )
}

/// A number as eight hex digits.
fn put_hex(text: &mut String, number: u32) -> Result<(), AllocError> {
    write!(text, "{number:08x}")
}

/// The ports and the tag of a packet, in text behind words.
fn put_header(page: &mut Page, lead: &str, header: &Header) -> Result<(), AllocError> {
    let fields = header.fields;
    let (mut source, mut destination) = (Buffer::new(), Buffer::new());
    let source = source.format(fields.source_port);
    let destination = destination.format(fields.destination_port);
    if page.is_text() {
        put_all(
            &mut page.text,
            &[lead, source, " > ", destination, " tag 0x"],
        )?;
        return put_hex(&mut page.text, fields.verification_tag);
    }
    put_all(
        &mut page.text,
        &[
            ",\"source_port\":",
            source,
            ",\"destination_port\":",
            destination,
        ],
    )?;
    page.number("Tag", "tag", fields.verification_tag)
}

/// The line of a packet's checksum as text.
fn put_sums(
    text: &mut String,
    header: &Header,
    sum: Sum,
    is_wrong: bool,
) -> Result<(), AllocError> {
    text.push_str("    Checksum: 0x")?;
    put_hex(text, header.checksum)?;
    if sum == Sum::Unchecked {
        return text.push_str(", not tested\n");
    }
    if header.has_right_checksum() {
        return text.push_str(", right\n");
    }
    if !is_wrong {
        return text.push_str(", zero, as its receiver accepts (RFC 9653)\n");
    }
    text.push_str(", wrong, should be 0x")?;
    put_hex(text, header.computed)?;
    text.push_str("\n")
}

/// A packet's checksum, and what it should be, where that was computed.
fn put_checksum(
    page: &mut Page,
    header: &Header,
    sum: Sum,
    is_wrong: bool,
) -> Result<(), AllocError> {
    if page.is_text() {
        return put_sums(&mut page.text, header, sum, is_wrong);
    }
    page.number("Checksum", "checksum", header.checksum)?;
    if sum == Sum::Unchecked {
        return Ok(());
    }
    page.number("Computed", "computed", header.computed)?;
    page.truth("Right", "right", !is_wrong)
}

/// The chunks of a packet, a word or a few of each.
fn put_briefs(
    text: &mut String,
    bases: Bases,
    missing: usize,
    items: &[Item],
) -> Result<(), AllocError> {
    let mut lead = " ";
    for item in items {
        text.push_str(lead)?;
        put_brief(text, bases, missing, item)?;
        lead = ", ";
    }
    Ok(())
}

/// Why bytes are left over, if any are.
fn put_stop(text: &mut String, fault: Option<WalkFault>) -> Result<(), AllocError> {
    match fault {
        Some(fault) => put_all(text, &[" [", rule_of_rest(fault), "]"]),
        None => Ok(()),
    }
}

/// What the line of a packet says behind its chunks: why bytes are left over, and how many bytes are missing.
pub fn put_tail(text: &mut String, seen: &Dissection, missing: usize) -> Result<(), AllocError> {
    if is_left_over(missing, seen.fault) {
        put_stop(text, seen.fault)?;
    }
    if missing == 0 {
        return Ok(());
    }
    put_all(
        text,
        &[" [", Buffer::new().format(missing), " bytes missing]"],
    )
}

/// The line of a packet behind its addresses, its ports behind words.
fn put_line(
    page: &mut Page,
    lead: &str,
    bases: Bases,
    seen: &Dissection,
    missing: usize,
    is_wrong: bool,
) -> Result<(), AllocError> {
    if let Some(header) = &seen.header {
        put_header(page, lead, header)?;
    }
    if !page.is_text() {
        return Ok(());
    }
    put_briefs(&mut page.text, bases, missing, &seen.items)?;
    put_tail(&mut page.text, seen, missing)?;
    page.text
        .push_str(if is_wrong { " [wrong checksum]" } else { "" })
}

/// The blocks below the line of a packet.
fn put_blocks(
    alloc: Global,
    page: &mut Page,
    bases: Bases,
    seen: &Dissection,
    sum: Sum,
    missing: usize,
    is_wrong: bool,
) -> Result<(), AllocError> {
    if let Some(header) = &seen.header {
        put_checksum(page, header, sum, is_wrong)?;
    }
    page.in_json(",\"chunks\":[")?;
    let mut is_first = true;
    for item in &seen.items {
        put_block(alloc, page, bases, missing, item, is_first)?;
        is_first = false;
    }
    page.in_json("]")
}

/// Why bytes are left over.
fn put_fault(alloc: Global, page: &mut Page, fault: WalkFault) -> Result<(), AllocError> {
    if page.is_text() {
        return page.words("Fault", "fault", rule_of_rest(fault));
    }
    let words = format!(in alloc; "{fault:?}")?;
    page.words("Fault", "fault", &words)
}

/// The bytes behind the last chunk, and why they are left over, unless they begin a header that is cut off.
fn put_rest(
    alloc: Global,
    page: &mut Page,
    seen: &Dissection,
    missing: usize,
) -> Result<(), AllocError> {
    let Some(fault) = seen.fault else {
        return Ok(());
    };
    if is_left_over(missing, seen.fault) {
        page.in_text("    Left over\n")?;
        put_fault(alloc, page, fault)?;
    } else {
        page.in_text("    Header cut off\n")?;
    }
    page.bytes(alloc, "Bytes", "rest", seen.rest.as_slice())
}

/// How many bytes are missing in JSON. In text the line of the packet says it.
fn put_missing_member(page: &mut Page, missing: usize) -> Result<(), AllocError> {
    if missing == 0 {
        return Ok(());
    }
    page.in_json(",\"missing\":")?;
    page.in_json(Buffer::new().format(missing))
}

/// What a packet shows below its line.
fn put_below(
    alloc: Global,
    page: &mut Page,
    options: &Options,
    size: Size,
    bases: Bases,
    seen: &Dissection,
    missing: usize,
    is_wrong: bool,
) -> Result<(), AllocError> {
    match (page.form, options.layout) {
        (Form::Json, _) => {}
        (Form::Text, Layout::Blocks) => put_size_line(&mut page.text, size)?,
        (Form::Text, _) => return Ok(()),
    }
    let sum = sum_for(options.sum, missing);
    put_blocks(alloc, page, bases, seen, sum, missing, is_wrong)?;
    put_rest(alloc, page, seen, missing)?;
    put_missing_member(page, missing)?;
    page.in_json("}\n")
}

/// The text of a packet that was dissected.
fn seen_text(
    alloc: Global,
    options: &Options,
    start: &Option<Time>,
    record: &Record,
    size: Size,
    datagram: &Datagram<'_>,
    seen: &Dissection,
    known: Known,
    is_wrong: bool,
) -> Result<String, AllocError> {
    let missing = datagram.missing;
    let bases = bases_for(options.form, known.bases);
    let mut line = Page::new(alloc, options.form);
    put_time(&mut line, options, start, &record.time)?;
    put_ends(&mut line, record.direction, datagram)?;
    put_line(&mut line, " SCTP ", bases, seen, missing, is_wrong)?;
    let is_refused = is_wrong || is_refused(missing, seen);
    let mark = mark_of(
        options.is_colored,
        is_refused,
        known.is_repeated,
        known.side,
    );
    let mut page = Page::new(alloc, options.form);
    put_marked(&mut page.text, mark, &line.text)?;
    page.in_text("\n")?;
    put_below(
        alloc, &mut page, options, size, bases, seen, missing, is_wrong,
    )?;
    Ok(page.text)
}

/// The same in columns, with its number.
fn seen_row(
    alloc: Global,
    options: &Options,
    number: u64,
    start: &Option<Time>,
    record: &Record,
    size: Size,
    datagram: &Datagram<'_>,
    seen: &Dissection,
    known: Known,
    is_wrong: bool,
) -> Result<String, AllocError>
    ensures { IfOk result (λ text. (mark : MarkKind) × (time : List ℕ) × (info : List ℕ)
        × (string_bytes text ≡ columns.packet_row number mark time datagram.now.ends
        «record».now.direction size info)) }
{
    let missing = datagram.missing;
    let mut time = String::new(alloc);
    put_clock(&mut time, options.clock, start, &record.time)?;
    let mut line = Page::new(alloc, Form::Text);
    put_line(&mut line, " ", known.bases, seen, missing, is_wrong)?;
    let is_refused = is_wrong || is_refused(missing, seen);
    let mark = mark_of(
        options.is_colored,
        is_refused,
        known.is_repeated,
        known.side,
    );
    packet_row(
        alloc,
        number,
        mark,
        &time,
        datagram.ends,
        record.direction,
        size,
        line.text.trim_start(),
    )
}

/// What a datagram shows.
pub fn seen_in(alloc: Global, sum: Sum, datagram: &[u8]) -> Result<Dissection, AllocError>
    ensures { IfOk result (IsSeen (sum_of sum) datagram.now) }
{
    let bytes = Bytes::copy_from_slice(alloc, datagram)?;
    dissect(alloc, &bytes, &sum)
}

/// What a datagram shows of which so many bytes are missing: also what is there of the chunk that ends among them.
pub fn shown_in(
    alloc: Global,
    sum: Sum,
    datagram: &[u8],
    missing: usize,
) -> Result<Dissection, AllocError>
    ensures { IfOk result (IsShown (sum_of sum) datagram.now missing) }
{
    let seen = seen_in(alloc, sum, datagram)?;
    if datagram.len() < 12 {
        return Ok(seen);
    }
    with_cut(seen, missing)
}

/// The text of a packet that is shown.
fn shown_text(
    alloc: Global,
    options: &Options,
    number: u64,
    start: &Option<Time>,
    record: &Record,
    size: Size,
    datagram: &Datagram<'_>,
    seen: &Dissection,
    known: Known,
    is_wrong: bool,
) -> Result<String, AllocError>
    ensures { IfOk result (λ text. IsShownText options.now number «record».now.direction size
        datagram.now.ends (string_bytes text)) }
{
    if in_columns(options.form, options.layout) {
        return seen_row(
            alloc, options, number, start, record, size, datagram, seen, known, is_wrong,
        );
    }
    let shown = seen_text(
        alloc, options, start, record, size, datagram, seen, known, is_wrong,
    )?;
    numbered(alloc, options.form, number, size, &shown)
}

/// The text of a packet. There is none where it does not have what is asked for.
fn passed_text(
    alloc: Global,
    options: &Options,
    number: u64,
    record: &Record,
    size: Size,
    datagram: &Datagram<'_>,
    seen: &Dissection,
    known: Known,
    summary: &mut Summary,
) -> Result<String, AllocError>
    ensures shown { IfOk result (λ text. passes options.now.filter
        (scenes.scene_of datagram.now.missing
        (is_wrong (sum_for options.now.sum datagram.now.missing) known.accepts_zero seen.now.header)
        datagram.now.ends summary.old.start «record».now.time) seen.now ≡ true
        → IsShownText options.now number «record».now.direction size datagram.now.ends
        (string_bytes text)) }
    ensures hidden { IfOk result (λ text. passes options.now.filter
        (scenes.scene_of datagram.now.missing
        (is_wrong (sum_for options.now.sum datagram.now.missing) known.accepts_zero seen.now.header)
        datagram.now.ends summary.old.start «record».now.time) seen.now ≡ false
        → string_bytes text ≡ []) }
{
    let missing = datagram.missing;
    let sum = sum_for(options.sum, missing);
    let is_wrong = is_wrong(sum, known.accepts_zero, &seen.header);
    let scene = scene_of(
        missing,
        is_wrong,
        datagram.ends,
        &summary.start,
        &record.time,
    );
    if !options.filter.passes(seen, &scene) {
        summary.count_other();
        return Ok(String::new(alloc));
    }
    summary.count_packet(seen, is_wrong, missing);
    shown_text(
        alloc,
        options,
        number,
        &summary.start,
        record,
        size,
        datagram,
        seen,
        known,
        is_wrong,
    )
}

/// The same by what the datagram shows.
fn packet_text<F: Follow>(
    alloc: Global,
    options: &Options,
    number: u64,
    record: &Record,
    size: Size,
    datagram: &Datagram<'_>,
    follower: &mut F,
    summary: &mut Summary,
) -> Result<String, AllocError>
    ensures { IfOk result (λ text. IsPacketText options.now number «record».now size
        datagram.now.bytes.now datagram.now.missing datagram.now.ends (string_bytes text)) }
{
    let sum = sum_for(options.sum, datagram.missing);
    let seen = shown_in(alloc, sum, datagram.bytes, datagram.missing)?;
    let known = follower.note(alloc, &seen, sum, datagram.ends)?;
    passed_text(
        alloc, options, number, record, size, datagram, &seen, known, summary,
    )
}

/// A record's number, and what it shows. JSON has the length of its frame, too.
fn numbered(
    alloc: Global,
    form: Form,
    number: u64,
    size: Size,
    shown: &str,
) -> Result<String, AllocError>
    ensures { IfOk result (λ text. string_bytes text
        ≡ numbered_text form number size shown.now) }
{
    match form {
        Form::Text => format!(in alloc; "{number} {shown}"),
        Form::Json => {
            let mut text = format!(in alloc; "{{\"record\":{number}")?;
            put_size_members(&mut text, size)?;
            text.push_str(shown)?;
            Ok(text)
        }
    }
}

/// The text of a record of which no packet is shown.
fn refused_text(alloc: Global, form: Form, number: u64, fault: Fault) -> Result<String, AllocError>
    ensures { IfOk result (λ text. string_bytes text ≡ refused_text form number fault) }
{
    match form {
        Form::Text => format!(in alloc; "{number} not shown: {fault}\n"),
        Form::Json => format!(in alloc; "{{\"record\":{number},\"not_shown\":\"{fault}\"}}\n"),
    }
}

/// The same, but nothing where something is asked for.
fn fault_line(
    alloc: Global,
    options: &Options,
    number: u64,
    record: &Record,
    fault: Fault,
    summary: &mut Summary,
) -> Result<String, AllocError>
    ensures { IfOk result (λ text. IsFaultText options.now number «record».now fault
        (string_bytes text)) }
{
    if !options.filter.asks_nothing() {
        summary.count_other();
        return Ok(String::new(alloc));
    }
    summary.count_fault(fault);
    if !in_columns(options.form, options.layout) {
        return refused_text(alloc, options.form, number, fault);
    }
    let mut time = String::new(alloc);
    put_clock(&mut time, options.clock, &summary.start, &record.time)?;
    fault_row(alloc, number, &time, record, fault)
}

/// The text of a record that has a frame.
fn frame_text<F: Follow>(
    alloc: Global,
    options: &Options,
    number: u64,
    record: &Record,
    frame: &Bytes,
    follower: &mut F,
    summary: &mut Summary,
) -> Result<String, AllocError>
    ensures { IfOk result (λ text. IsFrameText options.now number «record».now frame.now
        (string_bytes text)) }
{
    let bytes = frame.as_slice();
    match datagram_in(record.link_type, bytes, record.lost, options.port) {
        Ok(datagram) => {
            let size = size_of(record, bytes, &datagram);
            packet_text(
                alloc, options, number, record, size, &datagram, follower, summary,
            )
        }
        Err(fault) => fault_line(alloc, options, number, record, fault, summary),
    }
}

/// The text of a record, if it is to be shown.
pub fn record_text<F: Follow>(
    alloc: Global,
    options: &Options,
    number: u64,
    record: &Record,
    follower: &mut F,
    summary: &mut Summary,
) -> Result<String, AllocError>
    ensures { IfOk result (λ text. IsText options.now number «record».now (string_bytes text)) }
{
    summary.note_time(&record.time);
    match &record.frame {
        Ok(frame) => frame_text(alloc, options, number, record, frame, follower, summary),
        Err(fault) => fault_line(alloc, options, number, record, *fault, summary),
    }
}
