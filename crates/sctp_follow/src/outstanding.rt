//! Which chunks of a way are outstanding, and what acknowledges each.

ghost use Rattle.std.specs.Prelude.{◌≡◌, ◌<◌, None, Some, map, filter, min, not, IsSome, IfOk, IfSome, OnOk, OnErr};
ghost use Rattle.std.specs.BTreeMap as trees;
ghost use Rattle.std.specs.List.{list_any};
ghost use Rattle.std.specs.Ordering.{nat_cmp};
ghost use Rattle.sctp_follow.specs.Blocks.{AreFor};
ghost use Rattle.sctp_follow.specs.Outstanding as acks;

use crate::blocks::{ascend, ascending, is_in_some};
use crate::flow::counted;
use crate::packet::Arrived;
use sctp_capture::record::Time;
use sctp_data::chunk::chunk_selective_ack::{ChunkSelectiveAck, GapAckBlock};
use sctp_serial::serial::distance;
use sctp_show::time::{Elapsed, time_since};
use sctp_util::field::read_u32;
use sctp_util::util::{sna32lt, sna32lte};
use std::alloc::{AllocError, Global};
use std::collections::BTreeMap;

/// How many chunks of a way are kept: of more, those with the lowest numbers are let go.
const MAX_OUTSTANDING: usize = 4_096;

/// The types of chunks that abandon others.
const FORWARD_TSN: u8 = 192;

const I_FORWARD_TSN: u8 = 194;

/// How many SACKs report a chunk missing before it is retransmitted fast (RFC 9260 7.2.4).
const FAST_REPORTS: u64 = 3;

/// A chunk that was sent, and is not acknowledged cumulatively.
#[derive(Clone, Copy)]
pub struct Sent {
    pub tsn: u32,
    pub stream: u16,
    /// How many bytes of user data it has.
    pub bytes: u64,
    /// With which record it was sent first, and last.
    pub first: Arrived,
    pub last: Arrived,
    /// How often it was sent.
    pub sends: u64,
    /// How many SACKs reported it missing since it was sent last.
    pub reports: u64,
    /// The record of the SACK that has it in a gap ack block, the first one that does.
    pub acknowledged: Option<Arrived>,
}

/// Why a chunk was sent again.
#[derive(Clone, Copy, Debug, PartialEq, Eq)]
pub enum Cause {
    /// SACKs reported it missing (RFC 9260 7.2.4).
    Gap,
    /// Its timer expired (RFC 9260 6.3.3), for all that the capture shows.
    Timer,
    /// None: a SACK had acknowledged it.
    Acknowledged,
}

/// A cumulative TSN, and the record of the SACK that said it first.
#[derive(Clone, Copy)]
pub struct Passed {
    pub tsn: u32,
    pub arrived: Arrived,
}

/// What sending a chunk is.
#[derive(Clone, Copy)]
pub enum Sending {
    /// It is sent for the first time.
    First,
    /// It is sent again, and this was known of it.
    Again(Sent),
    /// It is sent, or captured, after this SACK acknowledged it or a later one cumulatively.
    Late(Arrived),
}

/// The chunks of a way that were sent, and are not acknowledged cumulatively.
#[derive(Drop)]
pub struct Outstanding {
    /// They, by TSN.
    pub chunks: BTreeMap<u32, Sent>,
    /// The last cumulative TSN of a SACK.
    pub passed: Option<Passed>,
}

/// Whether a SACK acknowledges a TSN: by its cumulative TSN, or by a gap ack block (RFC 9260 3.3.4).
fn acknowledges(sack: &ChunkSelectiveAck, blocks: &[GapAckBlock], tsn: u32) -> bool
    requires { AreFor sack.now blocks.now }
    ensures { result ≡ acks.acknowledges sack.now tsn }
{
    sna32lte(tsn, sack.cumulative_tsn_ack)
        || is_in_some(blocks, distance(sack.cumulative_tsn_ack, tsn))
}

/// Whether a SACK is the first one that acknowledges a chunk.
fn is_newly(sack: &ChunkSelectiveAck, blocks: &[GapAckBlock], sent: &Sent) -> bool
    requires { AreFor sack.now blocks.now }
    ensures { result ≡ acks.is_newly sack.now sent.now }
{
    sent.acknowledged.is_none() && acknowledges(sack, blocks, sent.tsn)
}

/// Whether another chunk has a later TSN, and was sent behind this one.
fn is_behind(sent: &Sent, other: &Sent) -> bool
    ensures { result ≡ acks.is_behind sent.now other.now }
{
    sna32lt(sent.tsn, other.tsn) && sent.last.number < other.last.number
}

/// Whether one of these chunks has a later TSN, and was sent behind this one.
fn has_behind(sent: &Sent, others: &[Sent]) -> bool
    ensures { result ≡ list_any (acks.is_behind sent.now) others.now }
{
    others.iter().any(|other| is_behind(sent, other))
}

/// Whether a SACK that is the first one to acknowledge these chunks reports another one missing (RFC 9260 7.2.4).
fn reports_missing(
    sack: &ChunkSelectiveAck,
    blocks: &[GapAckBlock],
    newly: &[Sent],
    sent: &Sent,
) -> bool
    requires { AreFor sack.now blocks.now }
    ensures { result ≡ acks.reports_missing sack.now newly.now sent.now }
{
    !newly.is_empty() && !acknowledges(sack, blocks, sent.tsn) && has_behind(sent, newly)
}

impl Sent {
    /// Why it is sent again, if it is sent now.
    pub fn cause(&self) -> Cause
        ensures { result ≡ acks.cause_of self.now }
    {
        if self.acknowledged.is_some() {
            return Cause::Acknowledged;
        }
        if self.reports >= FAST_REPORTS {
            return Cause::Gap;
        }
        Cause::Timer
    }

    /// The time from its sending to a SACK that acknowledges it. There is none where it was sent more than once, since nothing says
    /// which one was acknowledged (RFC 9260 6.3.1 C5), where a time is missing, or where the SACK has the earlier one.
    pub fn round_trip(&self, acknowledged: &Option<Time>) -> Option<Elapsed>
        ensures resent { 1 < self.now.sends → result ≡ None }
        ensures measured { IfSome result (acks.IsRoundTrip self.now acknowledged.now) }
    {
        if self.sends > 1 {
            return None;
        }
        let (Some(sent), Some(acknowledged)) = (&self.first.time, acknowledged) else {
            return None;
        };
        let elapsed = time_since(sent, acknowledged);
        if elapsed.is_before {
            return None;
        }
        Some(elapsed)
    }

    /// The chunk as it is known behind a SACK of a record, which is the first one to acknowledge these chunks.
    fn after_sack(
        &self,
        sack: &ChunkSelectiveAck,
        blocks: &[GapAckBlock],
        newly: &[Sent],
        arrived: Arrived,
    ) -> Sent
        requires { AreFor sack.now blocks.now }
        ensures { result ≡ acks.after_sack sack.now newly.now arrived self.now }
    {
        let mut after = *self;
        if reports_missing(sack, blocks, newly, self) {
            after.reports = counted(self.reports, 1);
        }
        if is_newly(sack, blocks, self) {
            after.acknowledged = Some(arrived);
        }
        after
    }
}

/// A chunk as it is known once it is sent with this record: for the first time, or again.
fn sent_with(tsn: u32, stream: u16, bytes: u64, arrived: Arrived, before: &Option<Sent>) -> Sent
    ensures { result ≡ acks.sent_with tsn stream bytes arrived before.now }
{
    match before {
        None => Sent {
            tsn,
            stream,
            bytes,
            first: arrived,
            last: arrived,
            sends: 1,
            reports: 0,
            acknowledged: None,
        },
        Some(sent) => Sent {
            last: arrived,
            sends: counted(sent.sends, 1),
            reports: 0,
            ..*sent
        },
    }
}

/// The new cumulative TSN of a chunk, if it is a FORWARD-TSN (RFC 3758 3.2) or an I-FORWARD-TSN (RFC 8260 2.3.1).
pub fn forward_of(bytes: &[u8]) -> Option<u32>
    ensures { result ≡ acks.forward_of bytes.now }
{
    if bytes.len() >= 8 && (bytes[0] == FORWARD_TSN || bytes[0] == I_FORWARD_TSN) {
        return Some(read_u32(bytes, 4));
    }
    None
}

/// The SACK that acknowledged a TSN cumulatively, or a later one, if the last cumulative TSN is this one.
fn passed_with(passed: &Option<Passed>, tsn: u32) -> Option<Arrived>
    ensures { result ≡ acks.passed_with passed.now tsn }
{
    match passed {
        Some(passed) if sna32lte(tsn, passed.tsn) => Some(passed.arrived),
        _ => None,
    }
}

/// The last cumulative TSN behind a SACK of a record.
fn passed_after(passed: &Option<Passed>, tsn: u32, arrived: Arrived) -> Option<Passed>
    ensures { result ≡ acks.passed_after passed.now tsn arrived }
{
    if passed_with(passed, tsn).is_some() {
        return *passed;
    }
    Some(Passed { tsn, arrived })
}

impl Outstanding {
    /// None yet.
    pub fn new(alloc: Global) -> Self {
        Outstanding {
            chunks: BTreeMap::new(alloc),
            passed: None,
        }
    }

    /// Lets the chunk with the lowest TSN go, where as many are kept as may be: 4,096.
    pub fn make_room(&mut self)
        ensures room { self.new.chunks.entries ≡ acks.with_room self.old.chunks.entries }
        ensures passed { self.new.passed ≡ self.old.passed }
    {
        if self.chunks.len() >= MAX_OUTSTANDING {
            let _lowest = self.chunks.pop_first();
        }
    }

    /// Notes that a chunk with so many bytes of user data is sent with a record, and answers what that is. Of one that was acknowledged cumulatively nothing is noted.
    /// Refuses only for memory.
    pub fn send(
        &mut self,
        tsn: u32,
        stream: u16,
        bytes: u64,
        arrived: Arrived,
    ) -> Result<Sending, AllocError>
        ensures sending { IfOk result (λ sending. sending ≡ acks.sending_of
            (acks.passed_with self.old.passed tsn) (trees.get nat_cmp self.old.chunks tsn)) }
        ensures late { OnOk result (IsSome (acks.passed_with self.old.passed tsn)
            → self.new ≡ self.old) }
        ensures sent { OnOk result (acks.passed_with self.old.passed tsn ≡ None
            → trees.Updates nat_cmp self.old.chunks self.new.chunks tsn
            (Some (acks.sent_with tsn stream bytes arrived
            (trees.get nat_cmp self.old.chunks tsn)))) }
        ensures passed { self.new.passed ≡ self.old.passed }
        ensures err { OnErr result (trees.IsUnchanged self.old.chunks self.new.chunks) }
    {
        if let Some(acknowledged) = passed_with(&self.passed, tsn) {
            return Ok(Sending::Late(acknowledged));
        }
        let before = self.chunks.get(&tsn).copied();
        let sent = sent_with(tsn, stream, bytes, arrived, &before);
        if self.chunks.insert(tsn, sent).is_err() {
            return Err(AllocError);
        }
        match before {
            Some(before) => Ok(Sending::Again(before)),
            None => Ok(Sending::First),
        }
    }

    /// The chunks that a SACK is the first one to acknowledge. Refuses only for memory.
    fn newly(
        &self,
        alloc: Global,
        sack: &ChunkSelectiveAck,
        blocks: &[GapAckBlock],
    ) -> Result<Vec<Sent>, AllocError>
        requires { AreFor sack.now blocks.now }
        ensures { IfOk result (λ newly. newly.items
            ≡ filter (acks.is_newly sack.now) (trees.values self.now.chunks)) }
    {
        self.chunks
            .values()
            .copied()
            .filter(|sent| is_newly(sack, blocks, sent))
            .collect(alloc)
    }

    /// Lets the chunks up to a TSN go.
    fn pass(&mut self, tsn: u32)
        ensures left { self.new.chunks.entries
            ≡ filter (λ e. not (acks.is_passed tsn e.1)) self.old.chunks.entries }
        ensures passed { self.new.passed ≡ self.old.passed }
    {
        self.chunks.retain(|_tsn, sent| !sna32lte(sent.tsn, tsn));
    }

    /// Notes for each chunk what a SACK of a record says of it, which is the first one to acknowledge these chunks.
    fn note_each(
        &mut self,
        sack: &ChunkSelectiveAck,
        blocks: &[GapAckBlock],
        newly: &[Sent],
        arrived: Arrived,
    )
        requires { AreFor sack.now blocks.now }
        ensures passed { self.new.passed ≡ self.old.passed }
        ensures noted { self.new.chunks.entries
            ≡ map (λ e. (e.0, acks.after_sack sack.now newly.now arrived e.1)) self.old.chunks.entries }
    {
        self.chunks.retain(|_tsn, sent| {
            *sent = sent.after_sack(sack, blocks, newly, arrived);
            true
        });
    }

    /// Takes a SACK, of which these are the blocks, as `take_sack` does.
    fn take_ascending(
        &mut self,
        alloc: Global,
        sack: &ChunkSelectiveAck,
        blocks: &[GapAckBlock],
        arrived: Arrived,
    ) -> Result<Vec<Sent>, AllocError>
        requires { AreFor sack.now blocks.now }
        ensures newly { IfOk result (λ newly. newly.items
            ≡ filter (acks.is_newly sack.now) (trees.values self.old.chunks)) }
        ensures left { IfOk result (λ newly. self.new.chunks.entries
            ≡ acks.left_by sack.now newly.items arrived self.old.chunks.entries) }
        ensures passed { OnOk result (self.new.passed
            ≡ acks.passed_after self.old.passed sack.now.cumulative_tsn_ack arrived) }
        ensures err { OnErr result (self.new ≡ self.old) }
    {
        let newly = self.newly(alloc, sack, blocks)?;
        self.pass(sack.cumulative_tsn_ack);
        self.note_each(sack, blocks, &newly, arrived);
        self.passed = passed_after(&self.passed, sack.cumulative_tsn_ack, arrived);
        Ok(newly)
    }

    /// Takes a SACK of a record: answers the chunks that it is the first one to acknowledge, lets those go that it acknowledges
    /// cumulatively, and notes of each other one whether it acknowledges it, or reports it missing. Refuses only for memory.
    pub fn take_sack(
        &mut self,
        alloc: Global,
        sack: &ChunkSelectiveAck,
        arrived: Arrived,
    ) -> Result<Vec<Sent>, AllocError>
        ensures newly { IfOk result (λ newly. newly.items
            ≡ filter (acks.is_newly sack.now) (trees.values self.old.chunks)) }
        ensures left { IfOk result (λ newly. self.new.chunks.entries
            ≡ acks.left_by sack.now newly.items arrived self.old.chunks.entries) }
        ensures passed { OnOk result (self.new.passed
            ≡ acks.passed_after self.old.passed sack.now.cumulative_tsn_ack arrived) }
        ensures err { OnErr result (self.new ≡ self.old) }
    {
        if ascend(&sack.gap_ack_blocks) {
            return self.take_ascending(alloc, sack, &sack.gap_ack_blocks, arrived);
        }
        let blocks = ascending(alloc, &sack.gap_ack_blocks)?;
        self.take_ascending(alloc, sack, &blocks, arrived)
    }

    /// The chunks up to a TSN that no SACK acknowledged. Refuses only for memory.
    fn abandoned(&self, alloc: Global, tsn: u32) -> Result<Vec<Sent>, AllocError>
        ensures { IfOk result (λ abandoned. abandoned.items
            ≡ filter (acks.is_abandoned tsn) (trees.values self.now.chunks)) }
    {
        self.chunks
            .values()
            .copied()
            .filter(|sent| sna32lte(sent.tsn, tsn) && sent.acknowledged.is_none())
            .collect(alloc)
    }

    /// How many bytes of user data are outstanding: of the chunks that no SACK acknowledged.
    pub fn bytes(&self) -> u64
        ensures { result ≡ min (acks.outstanding_bytes (trees.values self.now.chunks)) u64.MAX }
    {
        let mut bytes = 0u64;
        for sent in self.chunks.values() {
            if sent.acknowledged.is_none() {
                bytes = counted(bytes, sent.bytes);
            }
        }
        bytes
    }

    /// Whether there is a chunk that no SACK acknowledged.
    pub fn is_left(&self) -> bool
        ensures { result ≡ list_any acks.is_left (trees.values self.now.chunks) }
    {
        self.chunks.values().any(|sent| sent.acknowledged.is_none())
    }

    /// The chunks that no SACK acknowledged. Refuses only for memory.
    pub fn left(&self, alloc: Global) -> Result<Vec<Sent>, AllocError>
        ensures { IfOk result (λ left. left.items
            ≡ filter acks.is_left (trees.values self.now.chunks)) }
    {
        self.chunks
            .values()
            .copied()
            .filter(|sent| sent.acknowledged.is_none())
            .collect(alloc)
    }

    /// Takes a FORWARD-TSN (RFC 3758 3.2) or I-FORWARD-TSN (RFC 8260 2.3.1) with this new cumulative TSN: answers the chunks that it
    /// abandons, which no SACK acknowledged, and lets all up to the TSN go. Refuses only for memory.
    pub fn take_forward(&mut self, alloc: Global, tsn: u32) -> Result<Vec<Sent>, AllocError>
        ensures abandoned { IfOk result (λ abandoned. abandoned.items
            ≡ filter (acks.is_abandoned tsn) (trees.values self.old.chunks)) }
        ensures left { OnOk result (self.new.chunks.entries
            ≡ filter (λ e. not (acks.is_passed tsn e.1)) self.old.chunks.entries) }
        ensures passed { self.new.passed ≡ self.old.passed }
        ensures err { OnErr result (self.new ≡ self.old) }
    {
        let abandoned = self.abandoned(alloc, tsn)?;
        self.pass(tsn);
        Ok(abandoned)
    }
}
