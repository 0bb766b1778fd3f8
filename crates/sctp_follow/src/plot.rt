//! What a picture of an association shows: TSNs over time, each way by itself.

ghost use Rattle.std.specs.Prelude.{◌≡◌, ◌≤◌, true, false, OnOk, IfOk};
ghost use Rattle.sctp_follow.specs.Plot as plots;
ghost use Rattle.sctp_follow.specs.Tsns.{contains, Adds};
ghost use Rattle.sctp_follow.specs.declared.plot.Sign.TheVariants.{Data, Again};

use crate::flow::is_init;
use crate::tsns::Tsns;
use sctp_chunks::chunk::chunk_kind::ChunkKind;
use sctp_chunks::chunk::chunk_selective_ack::ChunkSelectiveAck;
use sctp_dissect::dissection::{Item, Reading};
use sctp_serial::serial::distance;
use sctp_show::filter::is_data;
use sctp_util::field::read_u32;
use std::alloc::{AllocError, Global};

/// The height of the TSN that those of a way are counted from.
pub const ORIGIN: u32 = 0x8000_0000;

/// What a mark says.
#[derive(Clone, Copy, Debug, PartialEq, Eq)]
pub enum Sign {
    /// DATA or I-DATA with a TSN that did not come before.
    Data,
    /// The same with one that came before.
    Again,
    /// The cumulative TSN of a SACK.
    Acked,
    /// The first and the last TSN of a gap ack block.
    Gap,
    /// The new cumulative TSN of a FORWARD-TSN.
    Skipped,
}

/// A mark: the packet that it is of, and how high it stands.
#[derive(Clone, Copy, Debug, PartialEq, Eq)]
pub struct Mark {
    pub sign: Sign,
    pub instant: Instant,
    pub low: u32,
    pub high: u32,
}

/// When a packet was captured: the number of its record, and how many nanoseconds behind the first record.
#[derive(Clone, Copy, Debug, PartialEq, Eq)]
pub struct Instant {
    pub number: u64,
    pub nanoseconds: u64,
}

impl Instant {
    /// How far right it stands: by its time, or by the number of its record.
    pub fn place(&self, is_timed: bool) -> u64
        ensures { result ≡ plots.place_at is_timed self.now }
    {
        if is_timed {
            self.nanoseconds
        } else {
            self.number
        }
    }
}

/// The TSNs that went one way, and what the other way says of them.
#[derive(Drop)]
pub struct Panel {
    /// The TSN that they are counted from: the initial one, or else the first one that was seen.
    pub base: Option<u32>,
    tsns: Tsns,
    /// In the order of their packets.
    pub marks: Vec<Mark>,
}

/// How high a TSN stands: `ORIGIN` and how far it lies after the base, or before it (RFC 1982).
fn height_of(base: u32, tsn: u32) -> u32
    ensures { result ≡ plots.height_of base tsn }
{
    distance(base.wrapping_sub(ORIGIN), tsn)
}

impl Panel {
    /// Nothing was seen.
    pub fn new(alloc: Global) -> Self {
        Panel {
            base: None,
            tsns: Tsns::new(alloc),
            marks: Vec::new(alloc),
        }
    }

    /// Counts TSNs from this one, if they are counted from none yet.
    fn begin(&mut self, tsn: u32) -> u32
        ensures marks { self.new.marks ≡ self.old.marks }
        ensures tsns { self.new.tsns ≡ self.old.tsns }
    {
        let base = self.base.unwrap_or(tsn);
        self.base = Some(base);
        base
    }

    /// Adds a mark from one TSN to another.
    fn add(&mut self, sign: Sign, instant: Instant, first: u32, last: u32) -> Result<(), AllocError>
        ensures tsns { self.new.tsns ≡ self.old.tsns }
        ensures sign { OnOk result (plots.HasLast self.new.marks.items
            (λ mark. (mark.sign ≡ sign) × (mark.instant ≡ instant))) }
    {
        let base = self.begin(first);
        self.marks.push(Mark {
            sign,
            instant,
            low: height_of(base, first),
            high: height_of(base, last),
        })?;
        Ok(())
    }

    /// Marks the TSN of DATA or I-DATA, as one that came before exactly where it did.
    fn add_data(&mut self, instant: Instant, tsn: u32) -> Result<(), AllocError>
        ensures again { OnOk result (contains self.old.tsns tsn ≡ true
            → plots.HasLast self.new.marks.items (λ mark. mark.sign ≡ Again)) }
        ensures anew { OnOk result (contains self.old.tsns tsn ≡ false
            → plots.HasLast self.new.marks.items (λ mark. mark.sign ≡ Data)) }
        ensures seen { OnOk result (Adds self.old.tsns self.new.tsns tsn) }
    {
        let is_new = self.tsns.insert(tsn)?;
        let sign = if is_new { Sign::Data } else { Sign::Again };
        self.add(sign, instant, tsn, tsn)
    }

    /// Marks what a SACK says: the cumulative TSN, and each gap ack block, whose ends are counted from it (RFC 4960 3.3.4).
    fn add_sack(&mut self, instant: Instant, chunk: &ChunkSelectiveAck) -> Result<(), AllocError> {
        let tsn = chunk.cumulative_tsn_ack;
        self.add(Sign::Acked, instant, tsn, tsn)?;
        for block in &chunk.gap_ack_blocks {
            let first = tsn.wrapping_add(block.start as u32);
            let last = tsn.wrapping_add(block.end as u32);
            self.add(Sign::Gap, instant, first, last)?;
        }
        Ok(())
    }

    /// Marks what a chunk that went this way says of its TSNs.
    fn add_own(&mut self, instant: Instant, item: &Item) -> Result<(), AllocError> {
        let bytes = item.bytes.as_slice();
        if is_init(bytes) {
            let _base = self.begin(read_u32(bytes, 16));
            return Ok(());
        }
        if is_data(bytes) {
            return self.add_data(instant, read_u32(bytes, 4));
        }
        let tsn = match &item.reading {
            Reading::Strict(ChunkKind::ForwardTsn(chunk)) => chunk.new_cumulative_tsn,
            Reading::Strict(ChunkKind::IForwardTsn(chunk)) => chunk.new_cumulative_tsn,
            _ => return Ok(()),
        };
        self.add(Sign::Skipped, instant, tsn, tsn)
    }
}

/// Marks what the chunks of a packet say: of the TSNs of its own way, and of those of the other one.
pub fn add_packet(
    own: &mut Panel,
    other: &mut Panel,
    instant: Instant,
    items: &[Item],
) -> Result<(), AllocError> {
    for item in items {
        own.add_own(instant, item)?;
        if let Reading::Strict(ChunkKind::SelectiveAck(chunk)) = &item.reading {
            other.add_sack(instant, chunk)?;
        }
    }
    Ok(())
}

/// How long the cumulative TSN stood while DATA past it was captured, from one place to another.
#[derive(Clone, Copy, Debug, PartialEq, Eq)]
pub struct Stand {
    pub from: u64,
    pub to: u64,
}

/// What is known on the way along the marks of a panel.
#[derive(Clone, Copy)]
struct Walk {
    /// The highest TSN that came, and the highest that was acknowledged.
    top: u32,
    acked: u32,
    /// Since when there is DATA past what is acknowledged, and that did not rise.
    since: Option<u64>,
    longest: Stand,
}

impl Walk {
    /// Keeps the time from when nothing rose up to here, if none was longer.
    fn close(&mut self, at: u64) {
        let Some(since) = self.since else {
            return;
        };
        if at.saturating_sub(since) > self.longest.to.saturating_sub(self.longest.from) {
            self.longest = Stand {
                from: since,
                to: at,
            };
        }
    }

    /// Goes on to a mark.
    fn step(&mut self, sign: Sign, height: u32, at: u64) {
        match sign {
            Sign::Data | Sign::Again => self.top = self.top.max(height),
            Sign::Acked if height > self.acked => {
                self.close(at);
                self.acked = height;
                self.since = None;
            }
            _ => {}
        }
        if self.since.is_none() && self.top > self.acked {
            self.since = Some(at);
        }
    }
}

/// The longest time that the cumulative TSN stood while DATA past it was captured.
pub fn longest_stand(panel: &Panel, is_timed: bool) -> Stand {
    let mut walk = Walk {
        top: 0,
        acked: 0,
        since: None,
        longest: Stand { from: 0, to: 0 },
    };
    let mut end = 0u64;
    for mark in &panel.marks {
        end = mark.instant.place(is_timed);
        walk.step(mark.sign, mark.high, end);
    }
    walk.close(end);
    walk.longest
}
