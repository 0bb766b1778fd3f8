//! What a run saw.

use crate::chunk_text::type_of;
use crate::filter::is_refused;
use crate::names::ChunkName;
use crate::page::{Form, put_all};
use itoa::Buffer;
use sctp_capture::record::{Fault, Time};
use sctp_dissect::dissection::Dissection;
use std::alloc::{AllocError, Global};

/// How many records, packets, chunks and faults a run saw; each stops at the greatest `u64`.
#[derive(Drop)]
pub struct Summary {
    /// The first time that a record had.
    pub start: Option<Time>,
    others: u64,
    packets: u64,
    cut: u64,
    refused: u64,
    wrong_checksums: u64,
    not_shown: u64,
    chunks: Vec<u64>,
}

impl Summary {
    /// The summary of no record. Refuses only for memory.
    pub fn new(alloc: Global) -> Result<Self, AllocError> {
        Ok(Summary {
            start: None,
            others: 0,
            packets: 0,
            cut: 0,
            refused: 0,
            wrong_checksums: 0,
            not_shown: 0,
            chunks: vec![in alloc; 0u64; 256]?,
        })
    }

    /// Counts a record of which no packet is shown.
    pub fn count_fault(&mut self, _fault: Fault) {
        self.not_shown = self.not_shown.saturating_add(1);
    }

    /// Counts a record that does not have what is asked for.
    pub fn count_other(&mut self) {
        self.others = self.others.saturating_add(1);
    }

    /// Keeps the time of a record, if it is the first that has one.
    pub fn note_time(&mut self, time: &Option<Time>) {
        if self.start.is_none() {
            self.start = *time;
        }
    }

    /// Counts a packet and its chunks. One of which so many bytes are missing, if any, is cut off. One with a refused chunk, or bytes left
    /// over, is refused.
    pub fn count_packet(&mut self, seen: &Dissection, is_wrong: bool, missing: usize) {
        self.packets = self.packets.saturating_add(1);
        for item in &seen.items {
            if let Some(count) = self.chunks.get_mut(type_of(item) as usize) {
                *count = count.saturating_add(1);
            }
        }
        if missing > 0 {
            self.cut = self.cut.saturating_add(1);
        }
        if is_refused(missing, seen) {
            self.refused = self.refused.saturating_add(1);
        }
        if is_wrong {
            self.wrong_checksums = self.wrong_checksums.saturating_add(1);
        }
    }

    /// The line at the end of a run of so many records.
    pub fn text(&self, alloc: Global, form: Form, records: u64) -> Result<String, AllocError> {
        let mut text = String::new(alloc);
        match form {
            Form::Text => {
                self.put_counts(&mut text, records)?;
                self.put_kinds(&mut text)?;
            }
            Form::Json => {
                self.put_members(&mut text, records)?;
                self.put_kind_members(&mut text)?;
            }
        }
        Ok(text)
    }

    /// How many records there were of each kind.
    fn put_counts(&self, text: &mut String, records: u64) -> Result<(), AllocError> {
        put_count(text, "", records, " records: ")?;
        if self.others > 0 {
            put_count(text, "", self.others, " not asked for, ")?;
        }
        put_count(text, "", self.packets, " packets, ")?;
        put_count(text, "", self.not_shown, " not shown, ")?;
        if self.cut > 0 {
            put_count(text, "", self.cut, " cut off, ")?;
        }
        put_count(text, "", self.refused, " refused, ")?;
        put_count(text, "", self.wrong_checksums, " wrong checksums")
    }

    /// The same in JSON.
    fn put_members(&self, text: &mut String, records: u64) -> Result<(), AllocError> {
        put_count(text, "{\"records\":", records, "")?;
        put_count(text, ",\"not_asked_for\":", self.others, "")?;
        put_count(text, ",\"packets\":", self.packets, "")?;
        put_count(text, ",\"not_shown\":", self.not_shown, "")?;
        put_count(text, ",\"cut_off\":", self.cut, "")?;
        put_count(text, ",\"refused\":", self.refused, "")?;
        put_count(
            text,
            ",\"wrong_checksums\":",
            self.wrong_checksums,
            ",\"chunks\":{",
        )
    }

    /// How many chunks of a type there were.
    fn count_of(&self, typ: u8) -> u64 {
        self.chunks.get(typ as usize).copied().unwrap_or(0)
    }

    /// How many chunks of each type there were.
    fn put_kinds(&self, text: &mut String) -> Result<(), AllocError> {
        let mut lead = "; ";
        for typ in 0..=255u8 {
            let count = self.count_of(typ);
            if count > 0 {
                text.push_str(lead)?;
                ChunkName(typ).put(text)?;
                put_count(text, " ", count, "")?;
                lead = " ";
            }
        }
        text.push_str("\n")
    }

    /// The same in JSON.
    fn put_kind_members(&self, text: &mut String) -> Result<(), AllocError> {
        let mut lead = "\"";
        for typ in 0..=255u8 {
            let count = self.count_of(typ);
            if count > 0 {
                text.push_str(lead)?;
                ChunkName(typ).put(text)?;
                put_count(text, "\":", count, "")?;
                lead = ",\"";
            }
        }
        text.push_str("}}\n")
    }
}

/// Appends a number between two texts.
fn put_count(text: &mut String, before: &str, count: u64, behind: &str) -> Result<(), AllocError> {
    let mut buffer = Buffer::new();
    put_all(text, &[before, buffer.format(count), behind])
}
