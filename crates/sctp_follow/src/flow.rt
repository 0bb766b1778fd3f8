//! What went one way in an association.

ghost use Rattle.std.specs.Prelude.{◌≡◌, ◌≤◌, ◌<◌, ◌+◌, true, false, if◌then◌else◌, [], length, map, slice_index, slice_set, OnOk, IfOk};
ghost use Rattle.sctp_show.specs.Filter as filters;
ghost use Rattle.sctp_util.specs.Field.{u32_at};
ghost use Rattle.sctp_chunks.specs.Framing.{type_at};
ghost use Rattle.sctp_follow.specs.Flow as flows;
ghost use Rattle.sctp_follow.specs.Flow.{counted, base_after};
ghost use Rattle.sctp_dissect.specs.Dissection.{item_bytes};
ghost use Rattle.sctp_follow.specs.Load.{total, behind};
ghost use Rattle.sctp_follow.specs.Sack as sacks;
ghost use Rattle.sctp_follow.specs.Tsns.{contains, Adds, IsEmpty};

use crate::load::{Kind, Load};
use crate::sack::said_of;
use crate::tsns::Tsns;
use sctp_capture::record::Time;
use sctp_dissect::dissection::Item;
use sctp_serial::serial::distance;
use sctp_show::filter::is_data;
use sctp_util::field::{read_u16, read_u32};
use std::alloc::{AllocError, Global};
use std::collections::BTreeMap;

/// Half of the TSNs: a TSN that lies fewer behind another one comes after it (RFC 4960 1.6).
const HALF: u32 = 0x8000_0000;

/// How much there is of a packet.
#[derive(Clone, Copy, Debug, PartialEq, Eq)]
pub struct Extent {
    /// Its bytes by the lengths of IP and UDP.
    pub length: u64,
    /// Whether its frame holds fewer of them.
    pub is_cut: bool,
}

/// What went one way. Each count stops at the greatest `u64`.
#[derive(Drop)]
pub struct Flow {
    /// The verification tag of its packets, as far as it is known.
    pub tag: Option<u32>,
    pub packets: u64,
    /// The bytes of these packets, without the headers below SCTP, by what they are.
    pub load: Load,
    /// How many of these packets are cut off: their frames do not hold them to their ends.
    pub cut: u64,
    /// When the first and the last one that has a time was captured.
    pub start: Option<Time>,
    pub end: Option<Time>,
    /// How many chunks there are of each type.
    pub kinds: Vec<u64>,
    /// DATA and I-DATA, and the bytes of messages in them.
    pub data_chunks: u64,
    pub data_bytes: u64,
    /// How many of them have a TSN that came before.
    pub repeated: u64,
    /// The TSNs that came, and the first and the last of them in serial order (RFC 1982).
    pub tsns: Tsns,
    pub lowest: Option<u32>,
    pub highest: Option<u32>,
    /// The TSN that those of this way are counted from: the initial one that an INIT or INIT-ACK names, or else the first one that came.
    pub base: Option<u32>,
    /// Whether the last packet has a TSN that came before.
    pub is_repeating: bool,
    /// How many DATA and I-DATA chunks there are of each stream.
    pub streams: BTreeMap<u16, u64>,
    /// The new cumulative TSN of the last FORWARD-TSN.
    pub skipped_to: Option<u32>,
    /// How many gap ack blocks and duplicate TSNs the SACKs name.
    pub gap_blocks: u64,
    pub duplicates: u64,
}

/// A count and so many more.
pub fn counted(count: u64, more: u64) -> u64
    ensures { result ≡ counted count more }
{
    count.saturating_add(more)
}

/// How many bytes of a message DATA or I-DATA carries, by its length.
/// Precondition: it is one of them.
pub fn payload_length(bytes: &[u8]) -> u64
    requires { filters.is_data bytes.now ≡ true }
    ensures { result ≡ flows.payload_length bytes.now }
{
    let at: u16 = if bytes[0] == 0 { 16 } else { 20 };
    read_u16(bytes, 2).saturating_sub(at) as u64
}

/// Whether the bytes of a chunk are INIT or INIT-ACK, with all of the fixed part.
pub fn is_init(bytes: &[u8]) -> bool
    ensures { result ≡ flows.is_init bytes.now }
{
    bytes.len() >= 20 && (bytes[0] == 1 || bytes[0] == 2)
}

/// Whether a TSN comes after another one.
fn is_after(from: u32, to: u32) -> bool {
    distance(from, to) < HALF
}

/// The earlier of a TSN and another one, if there is one.
fn earlier(one: Option<u32>, tsn: u32) -> u32 {
    match one {
        Some(one) if is_after(one, tsn) => one,
        _ => tsn,
    }
}

/// The later of a TSN and another one, if there is one.
fn later(one: Option<u32>, tsn: u32) -> u32 {
    match one {
        Some(one) if is_after(tsn, one) => one,
        _ => tsn,
    }
}

impl Flow {
    /// Nothing went this way yet. Refuses only for memory.
    pub fn new(alloc: Global, tag: Option<u32>) -> Result<Self, AllocError>
        ensures kinds { IfOk result (λ f. length f.kinds.items ≡ 256) }
        ensures tsns { IfOk result (λ f. IsEmpty f.tsns) }
    {
        Ok(Flow {
            tag,
            packets: 0,
            load: Load::new(),
            cut: 0,
            start: None,
            end: None,
            kinds: vec![in alloc; 0u64; 256]?,
            data_chunks: 0,
            data_bytes: 0,
            repeated: 0,
            tsns: Tsns::new(alloc),
            lowest: None,
            highest: None,
            base: None,
            is_repeating: false,
            streams: BTreeMap::new(alloc),
            skipped_to: None,
            gap_blocks: 0,
            duplicates: 0,
        })
    }

    /// Counts a packet, and whether it is cut off.
    pub fn note_packet(&mut self, time: &Option<Time>, extent: Extent)
        ensures packets { self.new.packets ≡ counted self.old.packets 1 }
        ensures load { self.new.load ≡ self.old.load }
        ensures tsns { self.new.tsns ≡ self.old.tsns }
        ensures cut { self.new.cut ≡ counted self.old.cut (if extent.is_cut then 1 else 0) }
        ensures kinds { self.new.kinds ≡ self.old.kinds }
        ensures data { self.new.data_chunks ≡ self.old.data_chunks }
    {
        self.packets = counted(self.packets, 1);
        self.cut = counted(self.cut, if extent.is_cut { 1 } else { 0 });
        if self.start.is_none() {
            self.start = *time;
        }
        if time.is_some() {
            self.end = *time;
        }
    }

    /// Counts a chunk of this type.
    fn note_kind(&mut self, typ: u8)
        ensures kinds { self.new.kinds.items ≡ slice_set self.old.kinds.items typ
            (counted (slice_index self.old.kinds.items typ) 1) }
        ensures chunks { self.new.data_chunks ≡ self.old.data_chunks }
        ensures bytes { self.new.data_bytes ≡ self.old.data_bytes }
        ensures repeated { self.new.repeated ≡ self.old.repeated }
        ensures tsns { self.new.tsns ≡ self.old.tsns }
    {
        let at = typ as usize;
        if at < self.kinds.len() {
            self.kinds[at] = counted(self.kinds[at], 1);
        }
    }

    /// Notes the TSN of DATA or I-DATA.
    fn note_tsn(&mut self, tsn: u32) -> Result<(), AllocError>
        ensures again { OnOk result (contains self.old.tsns tsn ≡ true
            → self.new.repeated ≡ counted self.old.repeated 1) }
        ensures anew { OnOk result (contains self.old.tsns tsn ≡ false
            → self.new.repeated ≡ self.old.repeated) }
        ensures seen { OnOk result (Adds self.old.tsns self.new.tsns tsn) }
        ensures chunks { self.new.data_chunks ≡ self.old.data_chunks }
        ensures bytes { self.new.data_bytes ≡ self.old.data_bytes }
        ensures kinds { self.new.kinds ≡ self.old.kinds }
    {
        let is_new = self.tsns.insert(tsn)?;
        if !is_new {
            self.repeated = counted(self.repeated, 1);
        }
        self.lowest = Some(earlier(self.lowest, tsn));
        self.highest = Some(later(self.highest, tsn));
        Ok(())
    }

    /// Counts DATA or I-DATA for its stream.
    fn note_stream(&mut self, stream: u16) -> Result<(), AllocError>
        ensures chunks { self.new.data_chunks ≡ self.old.data_chunks }
        ensures bytes { self.new.data_bytes ≡ self.old.data_bytes }
        ensures repeated { self.new.repeated ≡ self.old.repeated }
        ensures tsns { self.new.tsns ≡ self.old.tsns }
        ensures kinds { self.new.kinds ≡ self.old.kinds }
    {
        let count = self.streams.get(&stream).copied().unwrap_or(0);
        match self.streams.insert(stream, counted(count, 1)) {
            Ok(_) => Ok(()),
            Err(_) => Err(AllocError),
        }
    }

    /// Notes DATA or I-DATA.
    /// Precondition: it is one of them.
    fn note_data(&mut self, bytes: &[u8]) -> Result<(), AllocError>
        requires { filters.is_data bytes.now ≡ true }
        ensures chunks { OnOk result (self.new.data_chunks ≡ counted self.old.data_chunks 1) }
        ensures bytes { OnOk result (self.new.data_bytes
            ≡ counted self.old.data_bytes (flows.payload_length bytes.now)) }
        ensures again { OnOk result (contains self.old.tsns (u32_at bytes.now 4) ≡ true
            → self.new.repeated ≡ counted self.old.repeated 1) }
        ensures anew { OnOk result (contains self.old.tsns (u32_at bytes.now 4) ≡ false
            → self.new.repeated ≡ self.old.repeated) }
        ensures seen { OnOk result
            (Adds self.old.tsns self.new.tsns (u32_at bytes.now 4)) }
        ensures kinds { self.new.kinds ≡ self.old.kinds }
    {
        self.note_tsn(read_u32(bytes, 4))?;
        self.note_stream(read_u16(bytes, 8))?;
        self.data_chunks = counted(self.data_chunks, 1);
        self.data_bytes = counted(self.data_bytes, payload_length(bytes));
        Ok(())
    }

    /// Notes what a SACK or an NR-SACK reports (RFC 9260 3.3.4), or to where a FORWARD-TSN skips (RFC 3758 3.2, RFC 8260 2.3.1).
    fn note_report(&mut self, typ: u8, bytes: &[u8])
        ensures gaps { sacks.has_counts bytes.now ≡ true → self.new.gap_blocks
            ≡ counted self.old.gap_blocks (sacks.said_blocks bytes.now) }
        ensures twice { sacks.has_counts bytes.now ≡ true → self.new.duplicates
            ≡ counted self.old.duplicates (sacks.said_duplicates bytes.now) }
        ensures silent { sacks.has_counts bytes.now ≡ false
            → (self.new.gap_blocks ≡ self.old.gap_blocks)
            × (self.new.duplicates ≡ self.old.duplicates) }
        ensures chunks { self.new.data_chunks ≡ self.old.data_chunks }
        ensures bytes { self.new.data_bytes ≡ self.old.data_bytes }
        ensures repeated { self.new.repeated ≡ self.old.repeated }
        ensures tsns { self.new.tsns ≡ self.old.tsns }
        ensures kinds { self.new.kinds ≡ self.old.kinds }
    {
        if let Some(said) = said_of(bytes) {
            self.gap_blocks = counted(self.gap_blocks, said.blocks as u64);
            self.duplicates = counted(self.duplicates, said.duplicates as u64);
        }
        if (typ == 192 || typ == 194) && bytes.len() >= 8 {
            self.skipped_to = Some(read_u32(bytes, 4));
        }
    }

    /// Notes a chunk: one more of its type, and where it is DATA or I-DATA one more of them, its bytes, and its TSN, as one that came before
    /// or as a new one. Refuses only for memory.
    pub fn note_chunk(&mut self, bytes: &[u8]) -> Result<(), AllocError>
        ensures kinds { OnOk result (self.new.kinds.items
            ≡ slice_set self.old.kinds.items (type_at bytes.now)
            (counted (slice_index self.old.kinds.items (type_at bytes.now)) 1)) }
        ensures chunks { OnOk result (filters.is_data bytes.now ≡ true
            → self.new.data_chunks ≡ counted self.old.data_chunks 1) }
        ensures bytes { OnOk result (filters.is_data bytes.now ≡ true → self.new.data_bytes
            ≡ counted self.old.data_bytes (flows.payload_length bytes.now)) }
        ensures again { OnOk result (filters.is_data bytes.now ≡ true
            → contains self.old.tsns (u32_at bytes.now 4) ≡ true
            → self.new.repeated ≡ counted self.old.repeated 1) }
        ensures anew { OnOk result (filters.is_data bytes.now ≡ true
            → contains self.old.tsns (u32_at bytes.now 4) ≡ false
            → self.new.repeated ≡ self.old.repeated) }
        ensures seen { OnOk result (filters.is_data bytes.now ≡ true
            → Adds self.old.tsns self.new.tsns (u32_at bytes.now 4)) }
        ensures others { OnOk result (filters.is_data bytes.now ≡ false
            → (self.new.data_chunks ≡ self.old.data_chunks)
            × (self.new.data_bytes ≡ self.old.data_bytes)
            × (self.new.repeated ≡ self.old.repeated) × (self.new.tsns ≡ self.old.tsns)) }
    {
        let typ = bytes.first().copied().unwrap_or(0);
        self.note_kind(typ);
        if is_data(bytes) {
            return self.note_data(bytes);
        }
        self.note_report(typ, bytes);
        Ok(())
    }

    /// Keeps the TSN that those of this way are counted from: what an INIT or INIT-ACK says, or else the first TSN of DATA or I-DATA.
    fn note_base(&mut self, bytes: &[u8])
        ensures base { self.new.base ≡ base_after self.old.base bytes.now }
        ensures tsns { self.new.tsns ≡ self.old.tsns }
    {
        if is_init(bytes) {
            self.base = Some(read_u32(bytes, 16));
        } else if self.base.is_none() && is_data(bytes) {
            self.base = Some(read_u32(bytes, 4));
        }
    }

    /// Whether the TSN of DATA or I-DATA came before.
    fn has_come(&self, bytes: &[u8]) -> bool
        ensures { filters.is_data bytes.now ≡ true
            → result ≡ contains self.now.tsns (u32_at bytes.now 4) }
    {
        is_data(bytes) && self.tsns.contains(read_u32(bytes, 4))
    }

    /// Notes a packet and its chunks: each of its bytes counts once, as user data, as control chunks or as headers. Refuses only for memory.
    pub fn note(
        &mut self,
        items: &[Item],
        time: &Option<Time>,
        extent: Extent,
    ) -> Result<(), AllocError>
        ensures load { OnOk result (self.new.load ≡ behind self.old.tsns [] extent.length
            (map item_bytes items.now) self.old.load) }
        ensures bytes { OnOk result
            (total self.new.load ≡ counted (total self.old.load) extent.length) }
    {
        self.note_packet(time, extent);
        let before = self.repeated;
        let (mut load, mut left) = (self.load, extent.length);
        for item in items {
            let bytes = item.bytes.as_slice();
            left = load.note_chunk(bytes, self.has_come(bytes), left);
            self.note_base(bytes);
            self.note_chunk(bytes)?;
        }
        load.note(Kind::Headers, left);
        self.load = load;
        self.is_repeating = self.repeated > before;
        Ok(())
    }

    /// How many chunks of a type there are.
    pub fn count_of(&self, typ: u8) -> u64 {
        self.kinds.get(typ as usize).copied().unwrap_or(0)
    }

    /// How many TSNs from the first one to the last one did not come.
    pub fn missing(&self) -> u64 {
        match (self.lowest, self.highest) {
            (Some(lowest), Some(highest)) => {
                let all = distance(lowest, highest) as u64 + 1;
                all.saturating_sub(self.tsns.len())
            }
            _ => 0,
        }
    }
}
