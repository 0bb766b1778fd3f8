//! What acknowledged a chunk, and why it was sent again, as it is printed: as text or as JSON.

use crate::text::{Moment, Style, put_lead, put_way};
use sctp_capture::record::Time;
use sctp_follow::associations::Way;
use sctp_follow::outstanding::{Cause, Sent};
use sctp_follow::packet::Arrived;
use sctp_follow::stall::{Reason, Stall};
use sctp_show::brief::put_tsn;
use sctp_show::page::Form;
use sctp_show::time::time_since;
use std::alloc::AllocError;

/// What stands before what a chunk is said to be: the moment, its stream and its TSN.
fn put_chunk(
    text: &mut String,
    style: Style,
    moment: &Moment,
    stream: u16,
    tsn: u32,
) -> Result<(), AllocError> {
    put_lead(text, style, moment)?;
    match style.form {
        Form::Text => {
            write!(text, " s{stream}")?;
            put_tsn(text, " TSN ", moment.bases.own, tsn)
        }
        Form::Json => write!(text, ",\"stream\":{stream},\"tsn\":{tsn}"),
    }
}

/// With which records a chunk was sent.
fn put_sendings(text: &mut String, form: Form, sent: &Sent) -> Result<(), AllocError> {
    let (first, last, sends) = (sent.first.number, sent.last.number, sent.sends);
    match form {
        Form::Text if sends == 1 => write!(text, "sent in {first}"),
        Form::Text => write!(text, "sent {sends} times, first in {first}, last in {last}"),
        Form::Json => write!(
            text,
            ",\"sent\":{first},\"last_sent\":{last},\"sends\":{sends}"
        ),
    }
}

/// What is outstanding behind a packet.
#[derive(Clone, Copy)]
pub struct Flight {
    /// How many bytes of user data were sent and not acknowledged.
    pub bytes: u64,
    /// The window of a SACK: its a_rwnd.
    pub credit: Option<u32>,
}

/// What is outstanding behind a packet, and the end of its line.
fn put_flight(text: &mut String, form: Form, flight: Flight) -> Result<(), AllocError> {
    let bytes = flight.bytes;
    match form {
        Form::Text => write!(text, "; outstanding {bytes}")?,
        Form::Json => write!(text, ",\"outstanding\":{bytes}")?,
    }
    match (form, flight.credit) {
        (_, None) => {}
        (Form::Text, Some(credit)) => write!(text, ", rwnd {credit}")?,
        (Form::Json, Some(credit)) => write!(text, ",\"credit\":{credit}")?,
    }
    put_end(text, form)
}

/// The end of a line.
fn put_end(text: &mut String, form: Form) -> Result<(), AllocError> {
    match form {
        Form::Text => text.push_str("\n"),
        Form::Json => text.push_str("}\n"),
    }
}

/// Appends that a SACK acknowledged a chunk, cumulatively or by a gap ack block, and how long the round trip took, if that can be said.
pub fn put_acknowledged(
    text: &mut String,
    style: Style,
    moment: &Moment,
    sent: &Sent,
    is_cumulative: bool,
    flight: Flight,
) -> Result<(), AllocError> {
    put_chunk(text, style, moment, sent.stream, sent.tsn)?;
    match (style.form, is_cumulative) {
        (Form::Text, true) => text.push_str(" acknowledged: ")?,
        (Form::Text, false) => text.push_str(" acknowledged by a gap ack block: ")?,
        (Form::Json, true) => text.push_str(",\"acknowledged\":\"cumulative\"")?,
        (Form::Json, false) => text.push_str(",\"acknowledged\":\"gap\"")?,
    }
    put_sendings(text, style.form, sent)?;
    if let Some(elapsed) = sent.round_trip(&moment.time) {
        match style.form {
            Form::Text => write!(text, ", round trip {elapsed}")?,
            Form::Json => write!(text, ",\"round_trip\":\"{elapsed}\"")?,
        }
    }
    put_flight(text, style.form, flight)
}

/// How long after a record another one was captured, if both have a time.
fn put_after(
    text: &mut String,
    form: Form,
    first: &Option<Time>,
    time: &Option<Time>,
) -> Result<(), AllocError> {
    let (Some(first), Some(time)) = (first, time) else {
        return Ok(());
    };
    let elapsed = time_since(first, time);
    match form {
        Form::Text => write!(text, ", after {elapsed}"),
        Form::Json => write!(text, ",\"after\":\"{elapsed}\""),
    }
}

/// Why a chunk was sent again.
fn put_cause(text: &mut String, form: Form, cause: Cause, reports: u64) -> Result<(), AllocError> {
    match (form, cause) {
        (Form::Text, Cause::Gap) => {
            write!(text, ", by gap: {reports} SACKs reported it missing")
        }
        (Form::Text, Cause::Timer) if reports == 0 => text.push_str(", by timer"),
        (Form::Text, Cause::Timer) => {
            write!(text, ", by timer: {reports} SACKs reported it missing")
        }
        (Form::Text, Cause::Acknowledged) => Ok(()),
        (Form::Json, Cause::Gap) => { write!(text, ",\"cause\":\"gap\",\"reports\":{reports}") }
        (Form::Json, Cause::Timer) => { write!(text, ",\"cause\":\"timer\",\"reports\":{reports}") }
        (Form::Json, Cause::Acknowledged) => text.push_str(",\"cause\":\"acknowledged\""),
    }
}

/// With which record a chunk that is sent again was acknowledged before, if it was.
fn put_before(
    text: &mut String,
    form: Form,
    acknowledged: &Option<Arrived>,
) -> Result<(), AllocError> {
    let Some(arrived) = acknowledged else {
        return Ok(());
    };
    let number = arrived.number;
    match form {
        Form::Text => write!(text, ", acknowledged before, in {number}"),
        Form::Json => write!(text, ",\"acknowledged_before\":{number}"),
    }
}

/// Appends that a chunk was sent again, with what was known of it before.
pub fn put_again(
    text: &mut String,
    style: Style,
    moment: &Moment,
    before: &Sent,
    flight: Flight,
) -> Result<(), AllocError> {
    put_chunk(text, style, moment, before.stream, before.tsn)?;
    let first = before.first.number;
    match style.form {
        Form::Text => write!(text, " sent again: first in {first}")?,
        Form::Json => write!(text, ",\"again\":{first}")?,
    }
    put_after(text, style.form, &before.first.time, &moment.time)?;
    put_cause(text, style.form, before.cause(), before.reports)?;
    put_before(text, style.form, &before.acknowledged)?;
    put_flight(text, style.form, flight)
}

/// Appends that a chunk, by its stream and TSN, was sent that a SACK had acknowledged cumulatively.
pub fn put_late(
    text: &mut String,
    style: Style,
    moment: &Moment,
    (stream, tsn): (u16, u32),
    acknowledged: Arrived,
    flight: Flight,
) -> Result<(), AllocError> {
    put_chunk(text, style, moment, stream, tsn)?;
    let number = acknowledged.number;
    match style.form {
        Form::Text => write!(
            text,
            " sent, and acknowledged before, in {number} or earlier"
        )?,
        Form::Json => write!(
            text,
            ",\"cause\":\"acknowledged\",\"acknowledged_before\":{number}"
        )?,
    }
    put_flight(text, style.form, flight)
}

/// Appends that a FORWARD-TSN abandoned a chunk.
pub fn put_abandoned(
    text: &mut String,
    style: Style,
    moment: &Moment,
    sent: &Sent,
    flight: Flight,
) -> Result<(), AllocError> {
    put_chunk(text, style, moment, sent.stream, sent.tsn)?;
    text.push_str(if style.form == Form::Text {
        " abandoned by FORWARD-TSN: "
    } else {
        ",\"abandoned\":true"
    })?;
    put_sendings(text, style.form, sent)?;
    put_flight(text, style.form, flight)
}

/// Why nothing was acknowledged.
fn put_reason(text: &mut String, form: Form, reason: Reason) -> Result<(), AllocError> {
    match (form, reason) {
        (Form::Text, Reason::Window(arrived)) => {
            let number = arrived.number;
            write!(text, "window 0, said in {number}")
        }
        (Form::Text, Reason::Forward(arrived)) => {
            let number = arrived.number;
            write!(text, "FORWARD-TSN in {number} not acknowledged")
        }
        (Form::Text, Reason::NoSack) => text.push_str("no SACK"),
        (Form::Text, Reason::NoProgress(sacks)) => {
            write!(text, "{sacks} SACKs acknowledged nothing new")
        }
        (Form::Json, Reason::Window(arrived)) => {
            let number = arrived.number;
            write!(text, "\"window\",\"said_in\":{number}")
        }
        (Form::Json, Reason::Forward(arrived)) => {
            let number = arrived.number;
            write!(text, "\"forward\",\"said_in\":{number}")
        }
        (Form::Json, Reason::NoSack) => text.push_str("\"no sack\""),
        (Form::Json, Reason::NoProgress(sacks)) => {
            write!(text, "\"no progress\",\"sacks\":{sacks}")
        }
    }
}

/// How long a stall took, since which record, and why.
fn put_length(text: &mut String, form: Form, stall: &Stall) -> Result<(), AllocError> {
    let (length, since) = (stall.length, stall.since.number);
    match form {
        Form::Text => write!(text, " stalled for {length}, since {since}: ")?,
        Form::Json => write!(
            text,
            ",\"stalled\":\"{length}\",\"since\":{since},\"reason\":"
        )?,
    }
    put_reason(text, form, stall.reason)
}

/// Appends that a stall ends.
pub fn put_stall(
    text: &mut String,
    style: Style,
    moment: &Moment,
    stall: &Stall,
    flight: Flight,
) -> Result<(), AllocError> {
    put_lead(text, style, moment)?;
    put_length(text, style.form, stall)?;
    put_flight(text, style.form, flight)
}

/// Appends that a stall lasts to the end of the input.
pub fn put_last_stall(
    text: &mut String,
    form: Form,
    association: usize,
    way: Way,
    stall: &Stall,
) -> Result<(), AllocError> {
    text.push_str(if form == Form::Text { "" } else { "{" })?;
    put_way(text, form, association, way)?;
    put_length(text, form, stall)?;
    put_end(text, form)
}

/// Appends that no SACK acknowledged a chunk.
pub fn put_left(
    text: &mut String,
    form: Form,
    association: usize,
    way: Way,
    base: u32,
    sent: &Sent,
) -> Result<(), AllocError> {
    text.push_str(if form == Form::Text { "" } else { "{" })?;
    put_way(text, form, association, way)?;
    let (stream, tsn) = (sent.stream, sent.tsn);
    match form {
        Form::Text => {
            write!(text, " s{stream}")?;
            put_tsn(text, " TSN ", base, tsn)?;
            text.push_str(" not acknowledged: ")?;
        }
        Form::Json => write!(
            text,
            ",\"stream\":{stream},\"tsn\":{tsn},\"not_acknowledged\":true"
        )?,
    }
    put_sendings(text, form, sent)?;
    put_end(text, form)
}
