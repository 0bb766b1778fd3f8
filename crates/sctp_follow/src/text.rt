//! A summary as it is printed, as text or as JSON.

use crate::associations::{Association, Associations};
use crate::flow::Flow;
use crate::handshake::Handshake;
use crate::load::Load;
use crate::packet::Arrived;
use crate::sack::{NR_SACK, SACK};
use crate::trips::Spread;
use itoa::Buffer;
use sctp_capture::record::Time;
use sctp_show::names::ChunkName;
use sctp_show::page::Form;
use sctp_show::run::Counts;
use sctp_show::time::{Clock, Elapsed, put_clock};
use std::alloc::AllocError;

/// How a summary is printed.
#[derive(Clone, Copy)]
pub struct Style {
    pub form: Form,
    pub clock: Clock,
    /// The first time of the input.
    pub start: Option<Time>,
}

/// Appends a fact: its label and value, or its key and value.
fn put_fact(
    text: &mut String,
    form: Form,
    label: &str,
    key: &str,
    value: &str,
) -> Result<(), AllocError> {
    match form {
        Form::Text => write!(text, "        {label}: {value}\n"),
        Form::Json => write!(text, ",\"{key}\":{value}"),
    }
}

/// A fact that is a count.
fn put_count(
    text: &mut String,
    form: Form,
    label: &str,
    key: &str,
    count: u64,
) -> Result<(), AllocError> {
    put_fact(text, form, label, key, Buffer::new().format(count))
}

/// A fact that is a number of 32 bits, if there is one.
fn put_number(
    text: &mut String,
    form: Form,
    label: &str,
    key: &str,
    number: Option<u32>,
) -> Result<(), AllocError> {
    match number {
        Some(number) => put_fact(text, form, label, key, Buffer::new().format(number)),
        None => Ok(()),
    }
}

/// A fact that is a time, if there is one.
fn put_time(
    text: &mut String,
    style: &Style,
    label: &str,
    key: &str,
    time: &Option<Time>,
) -> Result<(), AllocError> {
    match (style.form, time) {
        (_, None) => Ok(()),
        (Form::Json, Some(time)) => write!(text, ",\"{key}\":\"{time}\""),
        (Form::Text, Some(_)) => {
            write!(text, "        {label}: ")?;
            put_clock(text, style.clock, &style.start, time)?;
            text.push_str("\n")
        }
    }
}

/// What stands before an item of a list: a blank in text, and in JSON a comma before all but the first one.
fn put_lead(text: &mut String, form: Form, is_first: bool) -> Result<(), AllocError> {
    match (form, is_first) {
        (Form::Text, _) => text.push_str(" "),
        (Form::Json, true) => Ok(()),
        (Form::Json, false) => text.push_str(","),
    }
}

/// How many chunks there are of a type.
fn put_kind(text: &mut String, form: Form, typ: u8, count: u64) -> Result<(), AllocError> {
    match form {
        Form::Text => {
            ChunkName(typ).put(text)?;
            write!(text, " {count}")
        }
        Form::Json => {
            text.push_str("\"")?;
            ChunkName(typ).put(text)?;
            write!(text, "\":{count}")
        }
    }
}

/// The beginning or the end of a list, by the form.
fn put_edge(text: &mut String, form: Form, line: &str, json: &str) -> Result<(), AllocError> {
    match form {
        Form::Text => text.push_str(line),
        Form::Json => text.push_str(json),
    }
}

/// How many chunks there are of each type.
fn put_kinds(text: &mut String, form: Form, flow: &Flow) -> Result<(), AllocError> {
    put_edge(text, form, "        Chunks:", ",\"chunks\":{")?;
    let mut is_first = true;
    for typ in 0..=255u8 {
        let count = flow.count_of(typ);
        if count > 0 {
            put_lead(text, form, is_first)?;
            put_kind(text, form, typ, count)?;
            is_first = false;
        }
    }
    put_edge(text, form, "\n", "}")
}

/// How many DATA and I-DATA chunks there are of each stream.
fn put_streams(text: &mut String, form: Form, flow: &Flow) -> Result<(), AllocError> {
    put_edge(text, form, "        Streams:", ",\"streams\":[")?;
    let mut is_first = true;
    for (stream, count) in &flow.streams {
        put_lead(text, form, is_first)?;
        match form {
            Form::Text => write!(text, "{stream} ({count})")?,
            Form::Json => write!(text, "{{\"stream\":{stream},\"chunks\":{count}}}")?,
        }
        is_first = false;
    }
    put_edge(text, form, "\n", "]")
}

/// What is said of DATA and I-DATA, if there are any.
fn put_data(text: &mut String, form: Form, flow: &Flow) -> Result<(), AllocError> {
    if flow.data_chunks == 0 {
        return Ok(());
    }
    put_count(text, form, "DATA chunks", "data_chunks", flow.data_chunks)?;
    put_count(text, form, "DATA bytes", "data_bytes", flow.data_bytes)?;
    put_number(text, form, "First TSN", "first_tsn", flow.lowest)?;
    put_number(text, form, "Last TSN", "last_tsn", flow.highest)?;
    put_count(text, form, "Missing TSNs", "missing_tsns", flow.missing())?;
    put_count(text, form, "Repeated TSNs", "repeated_tsns", flow.repeated)?;
    put_streams(text, form, flow)
}

/// What SACKs, NR-SACKs and FORWARD-TSNs say, if there are any.
fn put_reports(text: &mut String, form: Form, flow: &Flow) -> Result<(), AllocError> {
    if flow.count_of(SACK) > 0 || flow.count_of(NR_SACK) > 0 {
        put_count(text, form, "Gap ack blocks", "gap_blocks", flow.gap_blocks)?;
        put_count(text, form, "Duplicate TSNs", "duplicates", flow.duplicates)?;
    }
    put_number(text, form, "Skipped to TSN", "skipped_to", flow.skipped_to)
}

/// How many bytes there are: all, and those of each kind.
fn put_load(text: &mut String, form: Form, load: &Load) -> Result<(), AllocError> {
    put_count(text, form, "Bytes", "bytes", load.total())?;
    let (first, again, control, headers) = (load.first, load.again, load.control, load.headers);
    match form {
        Form::Text => write!(
            text,
            "        Bytes by kind: user data first sent {first}, sent again {again}, control chunks {control}, headers {headers}\n"
        ),
        Form::Json => write!(
            text,
            ",\"bytes_by_kind\":{{\"first_sent\":{first},\"sent_again\":{again},\"control\":{control},\"headers\":{headers}}}"
        ),
    }
}

/// How many packets are cut off, if any are.
fn put_cut(text: &mut String, form: Form, cut: u64) -> Result<(), AllocError> {
    if cut == 0 {
        return Ok(());
    }
    put_count(text, form, "Cut off", "cut_off", cut)
}

/// The least, the median and the most of the round trips, if there are any.
fn put_spread(text: &mut String, form: Form, spread: Option<Spread>) -> Result<(), AllocError> {
    let Some(spread) = spread else {
        return Ok(());
    };
    let (least, median, most) = (spread.least, spread.median, spread.most);
    match form {
        Form::Text => write!(
            text,
            "        Round trip: least {least}, median {median}, most {most}\n"
        ),
        Form::Json => write!(
            text,
            ",\"round_trip\":{{\"least\":\"{least}\",\"median\":\"{median}\",\"most\":\"{most}\"}}"
        ),
    }
}

/// What went one way.
fn put_flow(
    text: &mut String,
    style: &Style,
    flow: &Flow,
    spread: Option<Spread>,
) -> Result<(), AllocError> {
    let form = style.form;
    put_count(text, form, "Packets", "packets", flow.packets)?;
    put_load(text, form, &flow.load)?;
    put_cut(text, form, flow.cut)?;
    put_time(text, style, "First", "first", &flow.start)?;
    put_time(text, style, "Last", "last", &flow.end)?;
    put_kinds(text, form, flow)?;
    put_data(text, form, flow)?;
    put_spread(text, form, spread)?;
    put_reports(text, form, flow)
}

/// One way of an association: a line with its name and tag, and what went. Text has none where nothing went.
fn put_way(
    text: &mut String,
    style: &Style,
    name: &str,
    key: &str,
    flow: &Flow,
    spread: Option<Spread>,
) -> Result<(), AllocError> {
    let tag = flow.tag.unwrap_or(0);
    match style.form {
        Form::Text if flow.packets == 0 => Ok(()),
        Form::Text => {
            write!(text, "    {name} tag 0x{tag:08x}\n")?;
            put_flow(text, style, flow, spread)
        }
        Form::Json => {
            write!(text, ",\"{key}\":{{\"tag\":{tag}")?;
            put_flow(text, style, flow, spread)?;
            text.push_str("}")
        }
    }
}

/// The ends of an association: addresses, where they are known, and ports.
pub fn put_ends(
    text: &mut String,
    form: Form,
    association: &Association,
) -> Result<(), AllocError> {
    let place = &association.place;
    let (source, destination) = (place.source_port, place.destination_port);
    match (form, &place.ends) {
        (Form::Text, None) => write!(text, " - > - SCTP {source} > {destination}\n"),
        (Form::Text, Some((from, to))) => {
            write!(text, " {from} > {to} SCTP {source} > {destination}\n")
        }
        (Form::Json, None) => write!(
            text,
            ",\"source_port\":{source},\"destination_port\":{destination}"
        ),
        (Form::Json, Some((from, to))) => write!(
            text,
            ",\"source\":\"{from}\",\"destination\":\"{to}\",\"source_port\":{source},\"destination_port\":{destination}"
        ),
    }
}

/// A chunk of a handshake: with which record it came first, and how long after the INIT, or that it was not seen. JSON has none that was not.
fn put_step(
    text: &mut String,
    form: Form,
    lead: &str,
    name: &str,
    key: &str,
    seen: &Option<Arrived>,
    after: Option<Elapsed>,
) -> Result<(), AllocError> {
    match (form, seen) {
        (Form::Text, Some(arrived)) => {
            let number = arrived.number;
            write!(text, "{lead}{name} in {number}")?;
        }
        (Form::Text, None) => write!(text, "{lead}no {name}")?,
        (Form::Json, Some(arrived)) => {
            let number = arrived.number;
            write!(text, ",\"{key}\":{{\"record\":{number}")?;
        }
        (Form::Json, None) => return Ok(()),
    }
    match (form, after) {
        (Form::Text, Some(after)) => write!(text, " after {after}"),
        (Form::Json, Some(after)) => write!(text, ",\"after\":\"{after}\"}}"),
        (Form::Text, None) => Ok(()),
        (Form::Json, None) => text.push_str("}"),
    }
}

/// How long a handshake took, from INIT to COOKIE-ACK, and with which record each of its chunks came first.
fn put_handshake(text: &mut String, form: Form, seen: &Handshake) -> Result<(), AllocError> {
    let is_complete = seen.is_complete();
    match form {
        Form::Text => text.push_str("    Handshake: ")?,
        Form::Json => write!(text, ",\"handshake\":{{\"complete\":{is_complete}")?,
    }
    if let Some(took) = seen.after(&seen.cookie_ack) {
        match form {
            Form::Text => write!(text, "took {took}; ")?,
            Form::Json => write!(text, ",\"took\":\"{took}\"")?,
        }
    }
    put_step(text, form, "", "INIT", "init", &seen.init, None)?;
    for (name, member, step) in [
        ("INIT-ACK", "init_ack", &seen.init_ack),
        ("COOKIE-ECHO", "cookie_echo", &seen.cookie_echo),
        ("COOKIE-ACK", "cookie_ack", &seen.cookie_ack),
    ] {
        put_step(text, form, ", ", name, member, step, seen.after(step))?;
    }
    put_edge(text, form, "\n", "}")
}

/// An association, its handshake, and the round trips of its ways.
pub fn put_association(
    text: &mut String,
    style: &Style,
    number: u64,
    association: &Association,
    handshake: &Handshake,
    forth: Option<Spread>,
    back: Option<Spread>,
) -> Result<(), AllocError> {
    match style.form {
        Form::Text => write!(text, "Association {number}:")?,
        Form::Json => write!(text, "{{\"association\":{number}")?,
    }
    put_ends(text, style.form, association)?;
    put_handshake(text, style.form, handshake)?;
    put_way(text, style, ">", "forth", &association.forth, forth)?;
    put_way(text, style, "<", "back", &association.back, back)?;
    match style.form {
        Form::Text => Ok(()),
        Form::Json => text.push_str("}\n"),
    }
}

/// The last line.
pub fn put_end(
    text: &mut String,
    form: Form,
    counts: Counts,
    associations: &Associations,
) -> Result<(), AllocError> {
    let (records, packets) = (counts.records, counts.shown);
    let (kept, others) = (associations.items.len(), associations.others);
    match form {
        Form::Text => write!(
            text,
            "{records} records: {packets} packets of {kept} associations, {others} of none\n"
        ),
        Form::Json => write!(
            text,
            "{{\"records\":{records},\"packets\":{packets},\"associations\":{kept},\"others\":{others}}}\n"
        ),
    }
}
