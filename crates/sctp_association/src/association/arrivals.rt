//! What comes in a datagram (RFC 9260 5, 6, 8.5, 9).

ghost use Rattle.std.specs.Prelude.{◌≡◌, ◌≢◌, ◌⊎◌, ◌<◌, ◌≤◌, ℕ, List, [], ◌∷◌, None, Some, Ok, IfOk, IfSome, OnErr, OnOk, true, false, drop, length, option_map};
ghost use Rattle.std.specs.List.{AllByRecursion};
ghost use Rattle.sctp_association.specs.Single.{AloneOn};
ghost use Rattle.sctp_association.specs.AcksDue.{acks_of, ended};
ghost use Rattle.sctp_association.specs.AcksOn.{AcksOn};
ghost use Rattle.sctp_association.specs.Arrivals.{Arrives, CallsArrive};
ghost use Rattle.sctp_association.specs.Behind.{StillOn};
ghost use Rattle.sctp_association.specs.Beginnings.{ArrivesAsOffered, BeginsByDatagram, BeginsByTicket, KeepsPeer};
ghost use Rattle.sctp_association.specs.Brought.{BringsOnly};
ghost use Rattle.sctp_association.specs.Kept.{IsKept, OwesNoMore, ticket_in_kind};
ghost use Rattle.sctp_association.specs.Coming.{FollowsData, GoesOn, TakesDataAt, TakesDataOf, TakesEachOf, TakesOnlyData, goes_on, is_due};
ghost use Rattle.sctp_association.specs.Cookies.{IsAlive, IsSealed, cookie_in};
ghost use Rattle.sctp_association.specs.Ends.{EndsIn, EndsOn, IsAborted, abort_for};
ghost use Rattle.sctp_association.specs.Entering.{usable_in};
ghost use Rattle.sctp_association.specs.Halves.{HalvesAlike, halves_of};
ghost use Rattle.sctp_association.specs.Expected.{AsExpected, IsDue, IsExpected, is_expected};
ghost use Rattle.sctp_association.specs.Lasting.{KeepsLimits};
ghost use Rattle.sctp_association.specs.Sacks.{HearsFirstOf, HearsOn, TakesSacksOf};
ghost use Rattle.sctp_association.specs.Partly.{CutsData, CutsReconfig, CutsSkip};
ghost use Rattle.sctp_association.specs.Parts.{PartOf, WalksTo};
ghost use Rattle.sctp_association.specs.Paths.{MovesBehind, MovesByFirstOf, MovesOn, all_go_on};
ghost use Rattle.sctp_association.specs.Reached.{most_user_data};
ghost use Rattle.sctp_association.specs.Rows.{RowOn, Settles, has_row};
ghost use Rattle.sctp_association.specs.Steps.{is_accepted, is_taken};
ghost use Rattle.sctp_association.specs.Telling.{Tells, TellsEnd};
ghost use Rattle.sctp_association.specs.Timers.{KeepsTimers};
ghost use Rattle.sctp_association.specs.ToldBy.{TellsByData, TellsByShutdown, TellsBySack};
ghost use Rattle.sctp_association.specs.Once.{none_seen, seen};
ghost use Rattle.sctp_association.specs.Walks.{FirstOn, OtherOn, Walks, WalksOf};
ghost use Rattle.sctp_association.specs.Tags.{AdmitsFirst, BeginsByCookie, EndsWithFirst, FirstIs, FirstIsAlive, IsFor, first_type, is_admitted, is_all_or_nothing};
ghost use Rattle.sctp_association.specs.declared.association.Reason.{Reason};
ghost use Rattle.sctp_association.specs.declared.association.Reason.TheVariants.{Tag, Unexpected};
ghost use Rattle.sctp_association.specs.declared.association.Taken.TheVariants.{Accepted, Dropped, Partly};
ghost use Rattle.sctp_association.specs.declared.association.arrivals.Step.TheVariants as step;
ghost use Rattle.sctp_association.specs.declared.inbound.Followed.TheVariants.{Done, Wanting};
ghost use Rattle.sctp_chunks.specs.Wire.{data_chunk};
ghost use Rattle.sctp_data.specs.PayloadData.{data_of};
ghost use Rattle.sctp_datagram.specs.Carried.{IsChunkOf};
ghost use Rattle.sctp_datagram.specs.Framing.{StartsWith};
ghost use Rattle.sctp_datagram.specs.Places.{IsPlace, TellsAll, place_at};
ghost use Rattle.sctp_datagram.specs.declared.datagram.ChunkPlace.{ChunkPlace};
ghost use Rattle.sctp_handshake.specs.Answers.{silent};
ghost use Rattle.sctp_handshake.specs.declared.state.State.TheVariants.{Closed, CookieWait};
ghost use Rattle.sctp_util.specs.Field.{u32_at};
ghost use Rattle.sctp_util.specs.declared.error.Error.TheVariants.{ErrOutOfMemory};

use super::{Association, Reason, Taken};
use crate::due::AloneKind;
use crate::fault::Fault;
use crate::inbound::Followed;
use crate::once::Once;
use crate::outbound::SackTaken;
use bytes::Bytes;
use sctp_chunks::ChunkForwardTsn;
use sctp_data::chunk::chunk_payload_data::ChunkPayloadData;
use sctp_datagram::in_place::{data_in, read_sack};
use sctp_datagram::{ChunkPlace, Datagram, ZeroChecksum};
use sctp_handshake::State;
use sctp_packets::Crc32c;
use sctp_receiver::advice::AbortCause;
use sctp_util::error::Error;
use sctp_util::field::read_u16;

// What became of a chunk.
#[derive(Drop)]
pub(super) enum Step {
    // It was taken, or is passed over.
    Next,
    // Nothing more of the datagram is looked at.
    Stop,
    // Memory was wanting, and something may have changed: nothing more of the datagram is looked at.
    Cut,
    // It is not for this association, or not expected.
    Refused(Reason),
}

// The T bit of ABORT and SHUTDOWN-COMPLETE (RFC 9260 3.3.7, 3.3.13).
const T_BIT: u8 = 1;

// The bytes of a datagram from a chunk on.
pub(super) fn bytes_of(datagram: &Bytes, chunk: ChunkPlace) -> &[u8]
    ensures { result.now ≡ drop chunk.at datagram.now }
{
    datagram.as_slice().get(chunk.at..).unwrap_or(&[])
}

// Reads a DATA chunk. Refuses only for memory.
fn read_data(datagram: &Bytes, chunk: ChunkPlace) -> Result<ChunkPayloadData, Fault>
    requires place { IsPlace datagram.now chunk }
    requires typ { chunk.typ ≡ 0 }
    ensures short { IfOk result (λ c. length c.user_data ≤ most_user_data) }
    ensures found { IfOk result
        (λ c. StartsWith (drop chunk.at datagram.now) (data_chunk (data_of c))) }
{
    // Its length is a u16.
    read_u16(bytes_of(datagram, chunk), 2);
    match data_in(datagram, chunk) {
        Ok(data) => Ok(data),
        Err(_) => Err(Fault::OutOfMemory),
    }
}

// Refuses where memory was wanting.
pub(super) fn unless_memory(e: Error) -> Result<(), Fault>
    ensures { OnOk result (e ≡ ErrOutOfMemory → ⊥) }
{
    match e {
        Error::ErrOutOfMemory => Err(Fault::OutOfMemory),
        _ => Ok(()),
    }
}

// What becomes of a datagram that is not read. Refuses only for memory.
fn dropped_by(e: Error) -> Result<Taken, Fault>
    ensures read { OnOk result (e ≡ ErrOutOfMemory → ⊥) }
    ensures never { IfOk result (λ t. is_accepted t ≡ false) }
{
    match e {
        Error::ErrOutOfMemory => Err(Fault::OutOfMemory),
        Error::ErrChecksumMismatch => Ok(Taken::Dropped(Reason::Checksum)),
        _ => Ok(Taken::Dropped(Reason::NoPacket)),
    }
}

// What becomes of a datagram at a chunk that is refused: one that is not expected is passed over.
fn past(reason: Reason) -> Step
    ensures unexpected { reason ≡ Unexpected → result ≡ step.Next }
    ensures other { (reason ≡ Unexpected → ⊥) → result ≡ step.Refused reason }
{
    match reason {
        Reason::Unexpected => Step::Next,
        reason => Step::Refused(reason),
    }
}

// The ABORT that what came asks for.
#[inline(always)]
fn ending_of(followed: Followed) -> Option<AloneKind>
    ensures is { result ≡ abort_for followed }
    ensures silent { IfSome result (λ kind. ticket_in_kind kind ≡ None) }
    ensures none { result ≡ None → (followed ≡ Done) ⊎ (followed ≡ Wanting) }
    ensures some { IfSome result (λ kind. (followed ≡ Done → ⊥) × (followed ≡ Wanting → ⊥)) }
{
    match followed {
        Followed::Done | Followed::Wanting => None,
        Followed::NoUserData(tsn) => Some(AloneKind::NoUserData(tsn)),
        Followed::Abort(AbortCause::OutOfResource) => Some(AloneKind::Abort(4)),
        Followed::Abort(AbortCause::ProtocolViolation) => Some(AloneKind::Abort(13)),
    }
}

impl Association {
    /// Takes a datagram of the peer. One that is dropped changes nothing. Refuses only for memory, and nothing has changed then. Where memory
    /// is wanting behind the first change, the datagram is taken in part (`Taken::Partly`). Of SACK, SHUTDOWN, RE-CONFIG and FORWARD-TSN the
    /// first one in the datagram counts, of COOKIE-ECHO one that stands first; others are passed over.
    pub fn handle_datagram(&mut self, datagram: &Bytes, now: u64) -> Result<Taken, Fault>
        ensures tells { Tells self.old self.new }
        ensures dropped { (r : Reason) → result ≡ Ok (Dropped r) → self.new ≡ self.old }
        // Whatever it answers: the receiver and the sender are called for chunks that the datagram carries, and for nothing else.
        ensures came { Arrives datagram.now (halves_of self.old) (halves_of self.new) }
        // And a half is a new one only with the first TSN of a ticket that this side has sealed, or, where it has asked, of the INIT ACK.
        ensures offered { ArrivesAsOffered datagram.now self.old self.new }
        // The config and the limits stay: those of the handshake, of failures and of the RTO. So does a restart of the peer leave them.
        ensures limits { KeepsLimits self.old self.new }
        // Whose packet it is not is not accepted, and changes nothing (RFC 9260 8.5, 5.1.5).
        ensures accepted { IfOk result (λ t. is_accepted t ≡ true
            → IsFor datagram.now self.old.key self.old.machine) }
        ensures foreign { (IsFor datagram.now self.old.key self.old.machine → ⊥)
            → self.new ≡ self.old }
        // An INIT changes nothing but what is due: the one reply (RFC 9260 5.1 B).
        ensures init { first_type datagram.now ≡ 1
            → self.new ≡ record self.old { due = self.new.due } }
        // Where no association stands one begins only by a cookie of this side that is not too old (RFC 9260 5.1 D, 5.1.5).
        ensures begun { self.old.machine.state ≡ Closed → (self.new.machine.state ≡ Closed → ⊥)
            → BeginsByCookie datagram.now self.old.key now self.old.config.cookie_life }
        // Its receiver begins with the first TSN that the ticket in that cookie has of the peer, and by the config.
        ensures first { self.old.machine.state ≡ Closed → (self.new.machine.state ≡ Closed → ⊥)
            → BeginsByDatagram datagram.now self.old.key self.old.config
            (halves_of self.old) (halves_of self.new) }
        // Where it is refused nothing has changed.
        ensures memory { OnErr result (self.new ≡ self.old) }
        // A datagram of one chunk is taken in part only if that is DATA, FORWARD-TSN or RE-CONFIG.
        ensures partly { result ≡ Ok Partly → EndsWithFirst datagram.now
            → is_all_or_nothing (first_type datagram.now) ≡ false }
        // DATA that is accepted as the only chunk has come, or its receiver refuses it still; or the association is over. Where the peer
        // may use its stream, its user data entered the receiver, unless its TSN had come, or its message is too long.
        ensures takes { EndsWithFirst datagram.now → first_type datagram.now ≡ 0
            → result ≡ Ok Accepted → TakesOnlyData datagram.now self.old self.new }
        // What is for it is not dropped: a packet that begins with DATA, a SACK or a FORWARD-TSN in a state that takes that, or with a control chunk
        // that its state expects (RFC 9260 5, 6, 8.3, 9).
        ensures due { IsDue datagram.now now self.old
            → (r : Reason) → result ≡ Ok (Dropped r) → ⊥ }
        // Each DATA chunk of it has come so, or is refused and dropped, up to a chunk behind which the datagram may end; or the association is
        // over.
        ensures each { TakesDataOf (u32_at datagram.now 4) self.old → result ≡ Ok Accepted
            → (chunks : List ChunkPlace) → TellsAll place_at datagram.now chunks
            → TakesEachOf chunks datagram.now self.old self.new }
        // The sender takes the first SACK among those chunks, or it is outdated; or the association is over (RFC 9260 6.2.1).
        ensures sacks { TakesSacksOf (u32_at datagram.now 4) self.old → result ≡ Ok Accepted
            → (chunks : List ChunkPlace) → TellsAll place_at datagram.now chunks
            → HearsFirstOf chunks datagram.now self.old self.new }
        // Where each of them is DATA, SACK or FORWARD-TSN: cwnd, ssthresh, the RTO, T3-rtx, the peer's window and all else of the sending half are
        // what the first SACK makes of them; without one they stay; or the association is over (RFC 9260 6.2.1, 6.3, 7.2).
        ensures path { TakesSacksOf (u32_at datagram.now 4) self.old → result ≡ Ok Accepted
            → (chunks : List ChunkPlace) → TellsAll place_at datagram.now chunks
            → all_go_on chunks ≡ true
            → MovesByFirstOf chunks datagram.now now self.old self.new }
        // It ends the association only by an INIT ACK, ABORT, SHUTDOWN-ACK, SHUTDOWN-COMPLETE or a stale cookie; by DATA without user data; by a SACK
        // of what was not sent; or by DATA or a FORWARD-TSN that is refused for good. By these three an ABORT is due, with that cause (RFC 9260
        // 3.3.10, 5.1, 6.2, 9).
        ensures over { EndsIn datagram.now self.old self.new }
        // Each of its chunks makes in its turn what RFC 9260 says of its type: `AloneOn` has a field for each. Or it is passed over, since the state
        // does not expect it, or its kind came before. No more is read behind an INIT, a stale cookie or an ABORT of either side, at a chunk that may not
        // stand in the packet, and at an INIT ACK that says nothing. Then a shutdown may go on (4, 5, 6, 8.3, 8.5, 9).
        ensures walks { result ≡ Ok Accepted → self.old.is_over ≡ false
            → (chunks : List ChunkPlace) → TellsAll place_at datagram.now chunks
            → WalksOf chunks datagram.now now self.old self.new }
        // Where memory is wanting behind the first change, so do its chunks up to the one at which it is. That one changes nothing; or streams are open
        // that DATA or a FORWARD-TSN names; or a RE-CONFIG is followed in part. Nothing behind it is read, and the SACK of what came before is due.
        ensures in_part { result ≡ Ok Partly
            → (chunks : List ChunkPlace) → TellsAll place_at datagram.now chunks
            → PartOf chunks datagram.now now self.old self.new }
    {
        let zero = if self.config.zero_checksum {
            ZeroChecksum::Allowed
        } else {
            ZeroChecksum::Refused
        };
        let chunks = match Datagram::open(self.alloc, datagram.as_slice(), &Crc32c, zero) {
            Ok(chunks) => chunks,
            Err(e) => return dropped_by(e),
        };
        let header = chunks.header();
        if header.source_port != self.config.destination_port
            || header.destination_port != self.config.source_port
        {
            return Ok(Taken::Dropped(Reason::Ports));
        }
        if self.is_over {
            return Ok(self.take_after_end(chunks));
        }
        self.take_chunks(datagram, chunks, now)
    }

    // Takes a datagram after the end: one of the peer is answered as the association ended, where this side ended it (RFC 9260 8.4).
    #[inline(never)]
    fn take_after_end(&mut self, chunks: Datagram) -> Taken
        ensures dropped { (r : Reason) → result ≡ Dropped r → self.new ≡ self.old }
        ensures accepted { is_accepted result ≡ true → AdmitsFirst
            chunks.entry.bytes chunks.entry.left self.old.key self.old.machine }
        ensures whole { result ≡ Partly → ⊥ }
        ensures rest { self.new ≡ record self.old { due = self.new.due } }
        ensures owes { OwesNoMore self.old self.new }
    {
        let mut chunks = chunks;
        let tag = chunks.header().verification_tag;
        let Some(first) = chunks.next() else {
            return Taken::Dropped(Reason::NoPacket);
        };
        if tag != self.machine.own().tag {
            return Taken::Dropped(Reason::Tag);
        }
        let farewell = self.due.farewell;
        match farewell {
            Some(farewell) if farewell.answers(first.typ) => {
                self.due.alone = Some(farewell);
                Taken::Accepted
            }
            _ => Taken::Dropped(Reason::Unexpected),
        }
    }

    // Takes the chunks of a datagram in their order, up to one that ends it or cannot be read.
    fn take_chunks(&mut self, datagram: &Bytes, chunks: Datagram, now: u64) -> Result<Taken, Fault>
        requires whole { chunks.bytes ≡ datagram.now }
        requires all { TellsAll place_at datagram.now chunks.left }
        ensures tells { Tells self.old self.new }
        ensures came { ArrivesAsOffered datagram.now self.old self.new }
        ensures dropped { (r : Reason) → result ≡ Ok (Dropped r) → self.new ≡ self.old }
        ensures accepted { IfOk result (λ t. is_accepted t ≡ true
            → AdmitsFirst datagram.now chunks.entry.left self.old.key self.old.machine) }
        ensures foreign { (AdmitsFirst datagram.now chunks.entry.left
            self.old.key self.old.machine → ⊥)
            → self.new ≡ self.old }
        ensures init { FirstIs 1 chunks.entry.left
            → self.new ≡ record self.old { due = self.new.due } }
        ensures begun { self.old.machine.state ≡ Closed → (self.new.machine.state ≡ Closed → ⊥)
            → FirstIsAlive datagram.now chunks.entry.left
            self.old.key now self.old.config.cookie_life }
        ensures first { self.old.machine.state ≡ Closed → (self.new.machine.state ≡ Closed → ⊥)
            → BeginsByDatagram datagram.now self.old.key self.old.config
            (halves_of self.old) (halves_of self.new) }
        ensures memory { OnErr result (self.new ≡ self.old) }
        ensures partly { (first : ChunkPlace) → chunks.entry.left ≡ first ∷ []
            → result ≡ Ok Partly → is_all_or_nothing first.typ ≡ false }
        ensures takes { (first : ChunkPlace) → chunks.entry.left ≡ first ∷ [] → first.typ ≡ 0
            → result ≡ Ok Accepted → (self.new.is_over ≡ true)
            ⊎ TakesDataAt first.at datagram.now self.old self.new }
        ensures due { (first : ChunkPlace) → (rest : List ChunkPlace)
            → chunks.entry.left ≡ first ∷ rest
            → is_admitted first (u32_at datagram.now 4) (length (first ∷ rest))
            self.old.machine ≡ true
            → IsExpected first (u32_at datagram.now 4) datagram.now now self.old
            → (r : Reason) → result ≡ Ok (Dropped r) → ⊥ }
        ensures each { TakesDataOf (u32_at datagram.now 4) self.old → result ≡ Ok Accepted
            → TakesEachOf chunks.entry.left datagram.now self.old self.new }
        ensures sacks { TakesSacksOf (u32_at datagram.now 4) self.old → result ≡ Ok Accepted
            → HearsFirstOf chunks.entry.left datagram.now self.old self.new }
        ensures path { TakesSacksOf (u32_at datagram.now 4) self.old → result ≡ Ok Accepted
            → all_go_on chunks.entry.left ≡ true
            → MovesByFirstOf chunks.entry.left datagram.now now self.old self.new }
        ensures over { EndsIn datagram.now self.old self.new }
        ensures walks { result ≡ Ok Accepted
            → WalksOf chunks.entry.left datagram.now now self.old self.new }
        ensures in_part { result ≡ Ok Partly
            → PartOf chunks.entry.left datagram.now now self.old self.new }
    {
        let mut chunks = chunks;
        let tag = chunks.header().verification_tag;
        let count = chunks.left();
        let Some(first) = chunks.next() else {
            return Ok(Taken::Dropped(Reason::NoPacket));
        };
        match self.take_first(datagram, first, tag, count, now)? {
            Step::Refused(reason) => return Ok(Taken::Dropped(reason)),
            Step::Stop => return Ok(Taken::Accepted),
            Step::Cut => {
                self.end_datagram(now);
                return Ok(Taken::Partly);
            }
            Step::Next => {}
        }
        let is_whole = self.take_others(datagram, chunks, first.typ, now);
        self.end_datagram(now);
        if !is_whole {
            return Ok(Taken::Partly);
        }
        Ok(Taken::Accepted)
    }

    // The datagram has ended, or the rest of it counts as lost: what follows from the chunks that were taken.
    fn end_datagram(&mut self, now: u64)
        ensures tells { TellsEnd self.old self.new }
        ensures halves { HalvesAlike self.old self.new }
        ensures peer { KeepsPeer self.old self.new }
        ensures over { self.new.is_over ≡ self.old.is_over }
        ensures usable { (s : ℕ) → usable_in s self.new.inbound ≡ usable_in s self.old.inbound }
        ensures sending { self.new.outbound ≡ self.old.outbound }
        ensures heartbeat { self.new.heartbeat ≡ self.old.heartbeat }
        ensures events { self.new.events ≡ self.old.events }
        ensures settles { Settles now self.old self.new }
        ensures acks { acks_of self.new.inbound
            ≡ option_map (ended now) (acks_of self.old.inbound) }
    {
        self.datagram_ended(now);
        self.settle(now);
    }

    // The datagram has ended: what came in it may be acknowledged.
    fn datagram_ended(&mut self, now: u64)
        ensures tells { TellsEnd self.old self.new }
        ensures halves { HalvesAlike self.old self.new }
        ensures kept { IsKept self.old self.new }
        ensures over { self.new.is_over ≡ self.old.is_over }
        ensures usable { (s : ℕ) → usable_in s self.new.inbound ≡ usable_in s self.old.inbound }
        ensures sending { self.new.outbound ≡ self.old.outbound }
        ensures heartbeat { self.new.heartbeat ≡ self.old.heartbeat }
        ensures due { self.new.due ≡ self.old.due }
        ensures events { self.new.events ≡ self.old.events }
        ensures wants { self.new.wants_shutdown ≡ self.old.wants_shutdown }
        ensures timers { KeepsTimers self.old self.new }
        ensures acks { acks_of self.new.inbound
            ≡ option_map (ended now) (acks_of self.old.inbound) }
    {
        if let Some(inbound) = &mut self.inbound {
            inbound.datagram_ended(now);
        }
    }

    // Takes the first chunk. One that is not expected is passed over, where others stand behind it (RFC 9260 5.2.5): so a COOKIE ACK that comes
    // again with DATA. An INIT and a COOKIE ECHO never are, and nothing in Closed.
    fn take_first(
        &mut self,
        datagram: &Bytes,
        chunk: ChunkPlace,
        tag: u32,
        count: usize,
        now: u64,
    ) -> Result<Step, Fault>
        requires place { IsPlace datagram.now chunk }
        requires own { IsChunkOf datagram.now chunk }
        ensures tells { Tells self.old self.new }
        ensures came { ArrivesAsOffered datagram.now self.old self.new }
        ensures refused { (r : Reason) → result ≡ Ok (step.Refused r) → self.new ≡ self.old }
        ensures foreign { is_admitted chunk tag count self.old.machine ≡ false
            → result ≡ Ok (step.Refused Tag) }
        ensures init { chunk.typ ≡ 1 → self.new ≡ record self.old { due = self.new.due } }
        ensures init_stops { chunk.typ ≡ 1 → result ≡ Ok step.Next → ⊥ }
        ensures cookie { chunk.typ ≡ 10 → IfOk result (λ s. is_taken s ≡ true
            → IsSealed self.old.key tag (cookie_in datagram.now chunk)) }
        ensures err { OnErr result (self.new ≡ self.old) }
        ensures cut { result ≡ Ok step.Cut → is_all_or_nothing chunk.typ ≡ false }
        ensures takes { count < 2 → chunk.typ ≡ 0
            → IfOk result (λ s. FollowsData chunk.at datagram.now s self.old self.new) }
        ensures closed_cut { self.old.machine.state ≡ Closed → result ≡ Ok step.Cut → ⊥ }
        ensures closed_next { self.old.machine.state ≡ Closed → result ≡ Ok step.Next
            → (chunk.typ ≡ 10) × IsAlive now self.old.config.cookie_life
            self.old.key tag (cookie_in datagram.now chunk) }
        ensures closed_first { self.old.machine.state ≡ Closed → result ≡ Ok step.Next
            → BeginsByTicket self.old.key tag (cookie_in datagram.now chunk) self.old.config
            (halves_of self.old) (halves_of self.new) }
        ensures closed_else { self.old.machine.state ≡ Closed → (result ≡ Ok step.Next → ⊥)
            → self.new.machine ≡ self.old.machine }
        ensures due { is_admitted chunk tag count self.old.machine ≡ true
            → IsExpected chunk tag datagram.now now self.old
            → (r : Reason) → result ≡ Ok (step.Refused r) → ⊥ }
        ensures on { TakesDataOf tag self.old → goes_on chunk.typ ≡ true
            → IfOk result (λ s. GoesOn chunk tag datagram.now s self.old self.new) }
        ensures sacks { TakesSacksOf tag self.old → goes_on chunk.typ ≡ true
            → IfOk result (λ s. HearsOn chunk tag datagram.now s self.old self.new) }
        ensures path { TakesSacksOf tag self.old → goes_on chunk.typ ≡ true → IfOk result
            (λ s. MovesOn chunk datagram.now now s self.old.outbound self.new.outbound) }
        ensures over { IfOk result (λ s. EndsOn chunk datagram.now s self.old self.new) }
        ensures walks { IfOk result (λ s. FirstOn chunk tag count datagram.now now s
            self.old self.new) }
    {
        let is_alone = chunk.typ == 1 || chunk.typ == 10 || count < 2;
        if is_alone || self.machine.state() == State::Closed {
            return self.take_chunk(datagram, chunk, tag, count, now);
        }
        match self.take_chunk(datagram, chunk, tag, count, now)? {
            Step::Refused(Reason::Unexpected) => Ok(Step::Next),
            step => Ok(step),
        }
    }

    // Takes the chunks behind the first one, up to one that ends the packet, cannot be read, or is refused for memory. Answers whether memory
    // sufficed. No INIT is among them, which stands alone.
    fn take_others(&mut self, datagram: &Bytes, chunks: Datagram, first: u8, now: u64) -> bool
        requires whole { chunks.bytes ≡ datagram.now }
        requires own { AllByRecursion (IsChunkOf datagram.now) chunks.left }
        ensures tells { Tells self.old self.new }
        ensures came { ArrivesAsOffered datagram.now self.old self.new }
        ensures none { chunks.entry.left ≡ [] → (result ≡ true) × (self.new ≡ self.old) }
        ensures each { TakesDataOf (u32_at datagram.now 4) self.old → result ≡ true
            → TakesEachOf chunks.entry.left datagram.now self.old self.new }
        ensures sacks { (first ≡ 3 → ⊥) → TakesSacksOf (u32_at datagram.now 4) self.old
            → result ≡ true → HearsFirstOf chunks.entry.left datagram.now self.old self.new }
        ensures path { TakesSacksOf (u32_at datagram.now 4) self.old → result ≡ true
            → all_go_on chunks.entry.left ≡ true → (self.new.is_over ≡ true)
            ⊎ MovesBehind first chunks.entry.left datagram.now now
            self.old.outbound self.new.outbound }
        ensures over { EndsIn datagram.now self.old self.new }
        ensures walks { result ≡ true → Walks (u32_at datagram.now 4) datagram.now now
            (seen first none_seen) chunks.entry.left self.old self.new }
        ensures in_part { result ≡ false → WalksTo (u32_at datagram.now 4) datagram.now now
            (seen first none_seen) chunks.entry.left self.old self.new }
    {
        let mut chunks = chunks;
        let tag = chunks.header().verification_tag;
        let mut once = Once::behind(first);
        for _ in 0..chunks.left() {
            let Some(chunk) = chunks.next() else {
                break;
            };
            if !once.counts(chunk.typ) {
                continue;
            }
            match self.take_other(datagram, chunk, tag, now) {
                Ok(Step::Next) => {}
                Ok(Step::Stop) => break,
                Ok(Step::Refused(_)) => break,
                Ok(Step::Cut) | Err(_) => return false,
            }
        }
        true
    }

    // Takes a chunk behind the first one. One that is not expected is passed over, and not what stands behind it.
    #[inline(always)]
    fn take_other(
        &mut self,
        datagram: &Bytes,
        chunk: ChunkPlace,
        tag: u32,
        now: u64,
    ) -> Result<Step, Fault>
        requires place { IsPlace datagram.now chunk }
        requires own { IsChunkOf datagram.now chunk }
        requires counted { chunk.typ ≡ 10 → ⊥ }
        ensures tells { Tells self.old self.new }
        ensures came { ArrivesAsOffered datagram.now self.old self.new }
        ensures on { TakesDataOf tag self.old → goes_on chunk.typ ≡ true
            → IfOk result (λ s. GoesOn chunk tag datagram.now s self.old self.new) }
        ensures sacks { TakesSacksOf tag self.old → goes_on chunk.typ ≡ true
            → IfOk result (λ s. HearsOn chunk tag datagram.now s self.old self.new) }
        ensures path { TakesSacksOf tag self.old → goes_on chunk.typ ≡ true → IfOk result
            (λ s. MovesOn chunk datagram.now now s self.old.outbound self.new.outbound) }
        ensures never { TakesDataOf tag self.old → goes_on chunk.typ ≡ true
            → (r : Reason) → result ≡ Ok (step.Refused r) → ⊥ }
        ensures never_sacks { TakesSacksOf tag self.old → goes_on chunk.typ ≡ true
            → (r : Reason) → result ≡ Ok (step.Refused r) → ⊥ }
        ensures over { IfOk result (λ s. EndsOn chunk datagram.now s self.old self.new) }
        ensures walks { IfOk result (λ s. OtherOn chunk tag datagram.now now s
            self.old self.new) }
        ensures refused { (r : Reason) → result ≡ Ok (step.Refused r) → self.new ≡ self.old }
        ensures err { OnErr result (self.new ≡ self.old) }
    {
        match self.take_chunk(datagram, chunk, tag, 2, now)? {
            Step::Refused(reason) => Ok(past(reason)),
            taken => Ok(taken),
        }
    }

    // Whether a chunk may stand in a packet with this tag, of so many chunks (RFC 9260 8.5, 8.5.1). The tag of a COOKIE-ECHO is looked at with
    // its cookie.
    fn admits(&self, chunk: ChunkPlace, tag: u32, count: usize) -> bool
        ensures { result ≡ is_admitted chunk tag count self.now.machine }
    {
        if chunk.typ == 0 {
            return tag == self.machine.own().tag;
        }
        if chunk.typ == 1 {
            return tag == 0 && count == 1;
        }
        if chunk.typ == 10 {
            return true;
        }
        if (chunk.typ == 6 || chunk.typ == 14) && chunk.flags & T_BIT != 0 {
            return match self.machine.peer() {
                Some(peer) => tag == peer.tag,
                None => false,
            };
        }
        tag == self.machine.own().tag
    }

    // Takes a chunk.
    fn take_chunk(
        &mut self,
        datagram: &Bytes,
        chunk: ChunkPlace,
        tag: u32,
        count: usize,
        now: u64,
    ) -> Result<Step, Fault>
        requires place { IsPlace datagram.now chunk }
        requires own { IsChunkOf datagram.now chunk }
        ensures tells { Tells self.old self.new }
        ensures came { ArrivesAsOffered datagram.now self.old self.new }
        ensures refused { (r : Reason) → result ≡ Ok (step.Refused r) → self.new ≡ self.old }
        ensures foreign { is_admitted chunk tag count self.old.machine ≡ false
            → result ≡ Ok (step.Refused Tag) }
        ensures init { chunk.typ ≡ 1 → self.new ≡ record self.old { due = self.new.due } }
        ensures init_stops { chunk.typ ≡ 1 → result ≡ Ok step.Next → ⊥ }
        ensures cookie { chunk.typ ≡ 10 → IfOk result (λ s. is_taken s ≡ true
            → IsSealed self.old.key tag (cookie_in datagram.now chunk)) }
        ensures err { OnErr result (self.new ≡ self.old) }
        ensures cut { result ≡ Ok step.Cut → is_all_or_nothing chunk.typ ≡ false }
        ensures takes { chunk.typ ≡ 0
            → IfOk result (λ s. FollowsData chunk.at datagram.now s self.old self.new) }
        ensures closed_cut { self.old.machine.state ≡ Closed → result ≡ Ok step.Cut → ⊥ }
        ensures closed_next { self.old.machine.state ≡ Closed → result ≡ Ok step.Next
            → (chunk.typ ≡ 10) × IsAlive now self.old.config.cookie_life
            self.old.key tag (cookie_in datagram.now chunk) }
        ensures closed_first { self.old.machine.state ≡ Closed → result ≡ Ok step.Next
            → BeginsByTicket self.old.key tag (cookie_in datagram.now chunk) self.old.config
            (halves_of self.old) (halves_of self.new) }
        ensures closed_else { self.old.machine.state ≡ Closed → (result ≡ Ok step.Next → ⊥)
            → self.new.machine ≡ self.old.machine }
        ensures due { is_admitted chunk tag count self.old.machine ≡ true
            → IsExpected chunk tag datagram.now now self.old
            → (r : Reason) → result ≡ Ok (step.Refused r) → ⊥ }
        ensures on { TakesDataOf tag self.old → goes_on chunk.typ ≡ true
            → IfOk result (λ s. GoesOn chunk tag datagram.now s self.old self.new) }
        ensures sacks { TakesSacksOf tag self.old → goes_on chunk.typ ≡ true
            → IfOk result (λ s. HearsOn chunk tag datagram.now s self.old self.new) }
        ensures path { goes_on chunk.typ ≡ true → IfOk result
            (λ s. MovesOn chunk datagram.now now s self.old.outbound self.new.outbound) }
        ensures over { IfOk result (λ s. EndsOn chunk datagram.now s self.old self.new) }
        ensures still { goes_on chunk.typ ≡ true
            → IfOk result (λ s. StillOn chunk datagram.now s self.old self.new) }
        ensures unexpected { chunk.typ ≡ 2 → result ≡ Ok (step.Refused Unexpected)
            → self.old.machine.state ≢ CookieWait }
        ensures waits { is_admitted chunk tag count self.old.machine ≡ true → chunk.typ ≡ 2
            → (r : Reason) → result ≡ Ok (step.Refused r) → (r ≡ Unexpected → ⊥)
            → self.old.machine.state ≡ CookieWait }
        ensures expected { is_admitted chunk tag count self.old.machine ≡ true
            → has_row chunk.typ ≡ true
            → IfOk result (λ s. AsExpected (is_expected chunk.typ self.old) s) }
        ensures alone { IfOk result
            (λ s. AloneOn chunk tag datagram.now now s self.old self.new) }
        ensures by_sack { chunk.typ ≡ 3 → result ≡ Ok step.Next
            → TellsBySack chunk datagram.now self.old self.new }
        ensures by_shutdown { chunk.typ ≡ 7 → result ≡ Ok step.Next
            → TellsByShutdown self.old self.new }
        ensures by_data { chunk.typ ≡ 0 → result ≡ Ok step.Next
            → TellsByData chunk datagram.now self.old self.new }
        ensures cut_data { chunk.typ ≡ 0 → result ≡ Ok step.Cut
            → CutsData chunk datagram.now self.old self.new }
        ensures cut_skip { chunk.typ ≡ 192 → result ≡ Ok step.Cut
            → CutsSkip chunk datagram.now self.old self.new }
        ensures cut_resets { chunk.typ ≡ 130 → result ≡ Ok step.Cut
            → CutsReconfig chunk datagram.now now self.old self.new }
    {
        if !self.admits(chunk, tag, count) {
            return Ok(Step::Refused(Reason::Tag));
        }
        let is_beginning = chunk.typ == 1 || chunk.typ == 10;
        if self.machine.state() == State::Closed && !is_beginning {
            return Ok(Step::Refused(Reason::Unexpected));
        }
        match chunk.typ {
            0 => self.take_data(datagram, chunk, now),
            1 => self.take_init(datagram, chunk, now),
            2 => self.take_init_ack(datagram, chunk, now),
            3 => self.take_sack(datagram, chunk, now),
            10 => self.take_cookie(datagram, chunk, tag, now),
            130 => self.take_reconfig(datagram, chunk, now),
            192 => self.take_skip(datagram, chunk, now),
            _ => self.take_control(datagram, chunk, now),
        }
    }

    // Takes a DATA chunk, where DATA is taken in this state (RFC 9260 6).
    fn take_data(&mut self, datagram: &Bytes, chunk: ChunkPlace, now: u64) -> Result<Step, Fault>
        requires place { IsPlace datagram.now chunk }
        requires typ { chunk.typ ≡ 0 }
        requires own { IsChunkOf datagram.now chunk }
        ensures tells { TellsEnd self.old self.new }
        ensures came { CallsArrive datagram.now (halves_of self.old) (halves_of self.new) }
        ensures peer { KeepsPeer self.old self.new }
        ensures refused { (r : Reason) → result ≡ Ok (step.Refused r) → self.new ≡ self.old }
        ensures err { OnErr result (self.new ≡ self.old) }
        ensures takes { IfOk result (λ s. FollowsData chunk.at datagram.now s self.old self.new) }
        ensures due { IfOk result (λ s. AsExpected (is_due 0 self.old) s) }
        ensures on { (tag : ℕ) → TakesDataOf tag self.old
            → IfOk result (λ s. GoesOn chunk tag datagram.now s self.old self.new) }
        ensures sacks { (tag : ℕ) → TakesSacksOf tag self.old
            → IfOk result (λ s. HearsOn chunk tag datagram.now s self.old self.new) }
        ensures sending { self.new.outbound ≡ self.old.outbound }
        ensures still { IfOk result (λ s. StillOn chunk datagram.now s self.old self.new) }
        ensures row { IfOk result (λ s. RowOn chunk datagram.now now s self.old self.new) }
        ensures acks { IfOk result (λ s. AcksOn chunk datagram.now now s self.old self.new) }
        ensures events { BringsOnly chunk datagram.now self.old self.new }
        ensures long { result ≡ Ok step.Next → TellsByData chunk datagram.now self.old self.new }
        ensures cut { result ≡ Ok step.Cut → CutsData chunk datagram.now self.old self.new }
    {
        if !self.machine.state().takes_data() {
            return Ok(Step::Refused(Reason::Unexpected));
        }
        let data = read_data(datagram, chunk)?;
        let Some(inbound) = &mut self.inbound else {
            return Ok(Step::Refused(Reason::Unexpected));
        };
        let followed = inbound.take_data(&data, &mut self.events, now)?;
        if let Followed::Wanting = followed {
            return Ok(Step::Cut);
        }
        let before = self.machine.state();
        let answer = self.machine.packet_arrived(true);
        self.follow(before, answer, 0, now);
        Ok(self.end_by(followed))
    }

    // Takes a FORWARD-TSN. Where memory is wanting for a stream that it names, others may be open.
    #[inline(never)]
    fn take_skip(&mut self, datagram: &Bytes, chunk: ChunkPlace, now: u64) -> Result<Step, Fault>
        requires place { IsPlace datagram.now chunk }
        requires typ { chunk.typ ≡ 192 }
        requires own { IsChunkOf datagram.now chunk }
        ensures tells { TellsEnd self.old self.new }
        ensures came { CallsArrive datagram.now (halves_of self.old) (halves_of self.new) }
        ensures peer { KeepsPeer self.old self.new }
        ensures refused { (r : Reason) → result ≡ Ok (step.Refused r) → self.new ≡ self.old }
        ensures err { OnErr result (self.new ≡ self.old) }
        ensures due { IfOk result (λ s. AsExpected (is_due 192 self.old) s) }
        ensures on { (tag : ℕ) → TakesDataOf tag self.old
            → IfOk result (λ s. GoesOn chunk tag datagram.now s self.old self.new) }
        ensures sacks { (tag : ℕ) → TakesSacksOf tag self.old
            → IfOk result (λ s. HearsOn chunk tag datagram.now s self.old self.new) }
        ensures sending { self.new.outbound ≡ self.old.outbound }
        ensures still { IfOk result (λ s. StillOn chunk datagram.now s self.old self.new) }
        ensures row { IfOk result (λ s. RowOn chunk datagram.now now s self.old self.new) }
        ensures acks { IfOk result (λ s. AcksOn chunk datagram.now now s self.old self.new) }
        ensures events { BringsOnly chunk datagram.now self.old self.new }
        ensures cut { result ≡ Ok step.Cut → CutsSkip chunk datagram.now self.old self.new }
    {
        if !self.machine.state().takes_data() {
            return Ok(Step::Refused(Reason::Unexpected));
        }
        let Some(skip) = self.read_chunk::<ChunkForwardTsn>(datagram, chunk)? else {
            return Ok(Step::Refused(Reason::NoPacket));
        };
        let Some(inbound) = &mut self.inbound else {
            return Ok(Step::Refused(Reason::Unexpected));
        };
        let Ok(followed) = inbound.take_skip(&skip, &mut self.events, now) else {
            return Ok(Step::Cut);
        };
        Ok(self.end_by(followed))
    }

    // Ends the association, where what came asks for that.
    #[inline(always)]
    fn end_by(&mut self, followed: Followed) -> Step
        ensures tells { TellsEnd self.old self.new }
        ensures never { (r : Reason) → result ≡ step.Refused r → ⊥ }
        ensures next { result ≡ step.Next → (followed ≡ Done) ⊎ (followed ≡ Wanting) }
        ensures over { result ≡ step.Stop → self.new.is_over ≡ true }
        ensures aborts { IfSome (abort_for followed)
            (λ kind. IsAborted kind self.old.machine.peer self.new) }
        ensures stops { result ≡ step.Stop → (followed ≡ Done → ⊥) × (followed ≡ Wanting → ⊥) }
        ensures halves { HalvesAlike self.old self.new }
        ensures peer { KeepsPeer self.old self.new }
        ensures on { result ≡ step.Next → self.new ≡ self.old }
        ensures sending { self.new.outbound ≡ self.old.outbound }
        ensures whole { result ≡ step.Cut → ⊥ }
        ensures events { self.new.events
            ≡ record self.old.events { closed = self.new.events.closed } }
    {
        let Some(kind) = ending_of(followed) else {
            return Step::Next;
        };
        self.end_with(kind);
        Step::Stop
    }

    // Takes a SACK, where SACKs are taken in this state (RFC 9260 6).
    fn take_sack(&mut self, datagram: &Bytes, chunk: ChunkPlace, now: u64) -> Result<Step, Fault>
        requires place { IsPlace datagram.now chunk }
        requires typ { chunk.typ ≡ 3 }
        requires own { IsChunkOf datagram.now chunk }
        ensures tells { TellsEnd self.old self.new }
        ensures came { CallsArrive datagram.now (halves_of self.old) (halves_of self.new) }
        ensures peer { KeepsPeer self.old self.new }
        ensures refused { (r : Reason) → result ≡ Ok (step.Refused r) → self.new ≡ self.old }
        ensures err { OnErr result (self.new ≡ self.old) }
        ensures whole { result ≡ Ok step.Cut → ⊥ }
        ensures due { IfOk result (λ s. AsExpected (is_due 3 self.old) s) }
        ensures on { (tag : ℕ) → TakesDataOf tag self.old
            → IfOk result (λ s. GoesOn chunk tag datagram.now s self.old self.new) }
        ensures sacks { (tag : ℕ) → TakesSacksOf tag self.old
            → IfOk result (λ s. HearsOn chunk tag datagram.now s self.old self.new) }
        ensures path { IfOk result
            (λ s. MovesOn chunk datagram.now now s self.old.outbound self.new.outbound) }
        ensures still { IfOk result (λ s. StillOn chunk datagram.now s self.old self.new) }
        ensures row { IfOk result (λ s. RowOn chunk datagram.now now s self.old self.new) }
        ensures acks { IfOk result (λ s. AcksOn chunk datagram.now now s self.old self.new) }
        ensures events { BringsOnly chunk datagram.now self.old self.new }
        ensures lows { result ≡ Ok step.Next → TellsBySack chunk datagram.now self.old self.new }
    {
        if !self.machine.state().takes_sacks() {
            return Ok(Step::Refused(Reason::Unexpected));
        }
        let mut sack = match read_sack(self.alloc, bytes_of(datagram, chunk)) {
            Ok(sack) => sack,
            Err(e) => {
                unless_memory(e)?;
                return Ok(Step::Refused(Reason::NoPacket));
            }
        };
        match self
            .outbound
            .take_sack(&mut sack, &mut self.events.low, now)?
        {
            SackTaken::Taken => Ok(Step::Next),
            SackTaken::Forged => {
                self.end_with(AloneKind::Abort(13));
                Ok(Step::Stop)
            }
        }
    }
}
