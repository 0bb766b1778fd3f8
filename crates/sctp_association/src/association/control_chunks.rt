//! Control chunks that come: HEARTBEAT, ABORT, SHUTDOWN, ERROR and the like (RFC 9260 3.3.5 to 3.3.13, 8.3, 9).

ghost use Rattle.std.specs.Prelude.{◌≡◌, ◌||◌, ℕ, List, [], ◌∷◌, drop, is_some, map, None, Some, Ok, IfOk, IfSome, OnErr};
ghost use Rattle.sctp_association.specs.AcksDue.{AcksTold, acks_of};
ghost use Rattle.sctp_association.specs.Single.{AloneOn, IsOther};
ghost use Rattle.sctp_association.specs.Arrivals.{CallsArrive};
ghost use Rattle.sctp_association.specs.Beats.{AnswersOn, BeatsOn, IsBeaten, nonce_in};
ghost use Rattle.sctp_association.specs.Beginnings.{ArrivesAsOffered, BeginsBy, KeepsPeer, KeepsPeerButTag};
ghost use Rattle.sctp_association.specs.Brought.{AddsOnly, IsLowBy};
ghost use Rattle.sctp_association.specs.Causes.{cause_after, cause_in};
ghost use Rattle.sctp_association.specs.Ends.{IsAbortedByPeer};
ghost use Rattle.sctp_association.specs.Events.{brought_at};
ghost use Rattle.sctp_association.specs.Kept.{IsKept};
ghost use Rattle.sctp_association.specs.Halves.{HalvesAlike, halves_of};
ghost use Rattle.sctp_association.specs.Expected.{AsExpected, expects, is_received, speaks};
ghost use Rattle.sctp_association.specs.Fresh.{fresh_tag};
ghost use Rattle.sctp_association.specs.Rows.{FollowsAnswer, StepsOn, error_row, tag_of};
ghost use Rattle.sctp_association.specs.Shutting.{ShutsOn};
ghost use Rattle.sctp_association.specs.Telling.{PassesOn, Tells, TellsEnd, ending_by};
ghost use Rattle.sctp_association.specs.ToldBy.{TellsByShutdown};
ghost use Rattle.sctp_association.specs.declared.association.Reason.{Reason};
ghost use Rattle.sctp_association.specs.declared.association.Reason.TheVariants.{Unexpected};
ghost use Rattle.sctp_association.specs.declared.association.arrivals.Step.TheVariants as step;
ghost use Rattle.sctp_chunks.specs.Wire.{Wire};
ghost use Rattle.sctp_datagram.specs.Carried.{IsChunkOf};
ghost use Rattle.sctp_datagram.specs.Framing.{StartsWith};
ghost use Rattle.sctp_datagram.specs.Places.{IsPlace};
ghost use Rattle.sctp_datagram.specs.declared.datagram.ChunkPlace.{ChunkPlace};
ghost use Rattle.sctp_handshake.specs.Answers.{silent};
ghost use Rattle.sctp_handshake.specs.Endings.{on_abort, on_shutdown};
ghost use Rattle.sctp_handshake.specs.Machines.{dropped};
ghost use Rattle.sctp_params.specs.Param.{heartbeat_info};
ghost use Rattle.sctp_params.specs.ParamKind.{parameter_of};

use super::arrivals::{Step, bytes_of, unless_memory};
use super::{Association, Reason};
use crate::event::Ending;
use crate::fault::Fault;
use bytes::Bytes;
use sctp_chunks::chunk::Chunk;
use sctp_chunks::{ChunkHeartbeat, ChunkHeartbeatAck, ChunkShutdown};
use sctp_datagram::ChunkPlace;
use sctp_handshake::{Answer, State};
use sctp_params::ParamKind;
use sctp_util::field::read_u16;
use std::mem;

// The nonce that a HEARTBEAT-ACK brings back; None where its Heartbeat Info is too short for one (RFC 9260 8.3).
fn nonce_of(ack: &ChunkHeartbeatAck) -> Option<u64>
    ensures { (info : List ℕ) → map parameter_of ack.now.params.items ≡ heartbeat_info info ∷ []
        → result ≡ nonce_in info }
{
    let [param] = ack.params.as_slice() else {
        return None;
    };
    let ParamKind::HeartbeatInfo(info) = param else {
        return None;
    };
    let nonce = info.heartbeat_information.as_slice().first_chunk::<8>()?;
    Some(u64::from_be_bytes(*nonce))
}

// The information of a HEARTBEAT that was read (RFC 9260 8.3).
fn info_of(heartbeat: ChunkHeartbeat) -> Option<Bytes>
    ensures { (info : List ℕ) → map parameter_of heartbeat.params.items ≡ heartbeat_info info ∷ []
        → result ≡ Some info }
{
    let mut params = heartbeat.params;
    let [param] = params.as_mut_slice() else {
        return None;
    };
    let ParamKind::HeartbeatInfo(info) = param else {
        return None;
    };
    Some(mem::replace(&mut info.heartbeat_information, Bytes::new()))
}

// The code of the first cause of an ERROR, if it has one (RFC 9260 3.3.10).
fn cause_of(datagram: &Bytes, chunk: ChunkPlace) -> Option<u16>
    ensures { result ≡ cause_in datagram.now chunk }
{
    let raw = bytes_of(datagram, chunk);
    if chunk.length < 8 || raw.len() < 8 {
        return None;
    }
    Some(read_u16(raw, 4))
}

impl Association {
    // Takes a chunk of a peer that is no user data.
    #[inline(never)]
    pub(super) fn take_control(
        &mut self,
        datagram: &Bytes,
        chunk: ChunkPlace,
        now: u64,
    ) -> Result<Step, Fault>
        requires place { IsPlace datagram.now chunk }
        requires own { IsChunkOf datagram.now chunk }
        ensures tells { Tells self.old self.new }
        ensures came { ArrivesAsOffered datagram.now self.old self.new }
        ensures refused { (r : Reason) → result ≡ Ok (step.Refused r) → self.new ≡ self.old }
        ensures err { OnErr result (self.new ≡ self.old) }
        ensures whole { result ≡ Ok step.Cut → ⊥ }
        ensures expected { IsOther chunk.typ → (chunk.typ ≡ 130 → ⊥)
            → IfOk result (λ s. AsExpected (expects chunk.typ self.old) s) }
        ensures alone { IsOther chunk.typ → (tag : ℕ) → IfOk result
            (λ s. AloneOn chunk tag datagram.now now s self.old self.new) }
        ensures lows { chunk.typ ≡ 7 → result ≡ Ok step.Next
            → TellsByShutdown self.old self.new }
    {
        match chunk.typ {
            4 => self.take_heartbeat(datagram, chunk),
            5 => self.take_heartbeat_ack(datagram, chunk, now),
            6 => Ok(self.take_abort()),
            7 => self.take_shutdown(datagram, chunk, now),
            8 => {
                let tag = self.peer_tag();
                let before = self.machine.state();
                let answer = self.machine.shutdown_ack();
                Ok(self.take_answer(before, answer, tag, now))
            }
            9 => Ok(self.take_error(datagram, chunk, now)),
            11 => Ok(self.take_cookie_ack(datagram, chunk, now)),
            14 => {
                let before = self.machine.state();
                let answer = self.machine.shutdown_complete();
                Ok(self.take_answer(before, answer, 0, now))
            }
            _ => self.note_unknown(datagram, chunk),
        }
    }

    // The tag of the peer's packets' receiver; 0 where it is not known.
    fn peer_tag(&self) -> u32
        ensures { result ≡ tag_of self.now.machine.peer }
    {
        match self.machine.peer() {
            Some(peer) => peer.tag,
            None => 0,
        }
    }

    // Follows what the machine answered a chunk; where that is nothing the chunk is not expected.
    pub(super) fn take_answer(&mut self, before: State, answer: Answer, tag: u32, now: u64) -> Step
        ensures tells { PassesOn answer.told (ending_by (is_some answer.reply))
            self.old self.new }
        ensures refused { (r : Reason) → result ≡ step.Refused r
            → (answer ≡ silent) × (self.new ≡ self.old) }
        ensures expected { AsExpected (speaks answer) result }
        ensures kept { IsKept self.old self.new }
        ensures begun { BeginsBy answer.told self.old.machine self.old.config
            (halves_of self.old) (halves_of self.new) }
        ensures whole { result ≡ step.Cut → ⊥ }
        ensures answer { result ≡ step.Next
            → FollowsAnswer answer tag before now self.old self.new }
        ensures next { result ≡ step.Stop → ⊥ }
        ensures acks { result ≡ step.Next → AcksTold answer.told self.old.config.sack_delay
            (acks_of self.old.inbound) (acks_of self.new.inbound) }
    {
        if answer.reply.is_none() && answer.told.is_none() {
            return Step::Refused(Reason::Unexpected);
        }
        self.follow(before, answer, tag, now);
        Step::Next
    }

    // An ABORT came (RFC 9260 9.1).
    fn take_abort(&mut self) -> Step
        ensures tells { TellsEnd self.old self.new }
        ensures refused { (r : Reason) → result ≡ step.Refused r → self.new ≡ self.old }
        ensures halves { HalvesAlike self.old self.new }
        ensures peer { KeepsPeer self.old self.new }
        ensures whole { result ≡ step.Cut → ⊥ }
        ensures next { result ≡ step.Next → ⊥ }
        ensures events { self.new.events
            ≡ brought_at 6 self.old.events self.new.events }
        ensures row { result ≡ step.Stop → IsAbortedByPeer self.old self.new }
        ensures expected { AsExpected (speaks (on_abort self.old.machine).answer) result }
    {
        let answer = self.machine.abort();
        if answer.told.is_none() {
            return Step::Refused(Reason::Unexpected);
        }
        self.end(Ending::AbortedByPeer);
        Step::Stop
    }

    // A SHUTDOWN came (RFC 9260 9.2): it acknowledges as a SACK without blocks does.
    fn take_shutdown(
        &mut self,
        datagram: &Bytes,
        chunk: ChunkPlace,
        now: u64,
    ) -> Result<Step, Fault>
        requires place { IsPlace datagram.now chunk }
        requires own { IsChunkOf datagram.now chunk }
        ensures tells { TellsEnd self.old self.new }
        ensures came { CallsArrive datagram.now (halves_of self.old) (halves_of self.new) }
        ensures peer { KeepsPeer self.old self.new }
        ensures refused { (r : Reason) → result ≡ Ok (step.Refused r) → self.new ≡ self.old }
        ensures err { OnErr result (self.new ≡ self.old) }
        ensures whole { result ≡ Ok step.Cut → ⊥ }
        ensures shuts { IfOk result
            (λ s. ShutsOn chunk.at datagram.now now s self.old.outbound self.new.outbound) }
        ensures events { self.new.events
            ≡ brought_at 7 self.old.events self.new.events }
        ensures low { AddsOnly (IsLowBy chunk datagram.now self.old)
            self.old.events.low self.new.events.low }
        ensures lows { result ≡ Ok step.Next → TellsByShutdown self.old self.new }
        ensures row { IfOk result
            (λ s. StepsOn (on_shutdown self.old.machine) 0 now s self.old self.new) }
        ensures expected { chunk.typ ≡ 7 → IfOk result (λ s. AsExpected
            (speaks (on_shutdown self.old.machine).answer
            || is_received self.old.machine.state) s) }
        ensures acks { result ≡ Ok step.Next
            → AcksTold (on_shutdown self.old.machine).answer.told self.old.config.sack_delay
            (acks_of self.old.inbound) (acks_of self.new.inbound) }
    {
        let Some(shutdown) = self.read_chunk::<ChunkShutdown>(datagram, chunk)? else {
            return Ok(Step::Refused(Reason::NoPacket));
        };
        let before = self.machine.state();
        let mut machine = self.machine;
        let answer = machine.shutdown();
        // Once shutdown is received, the peer's further SHUTDOWNs say nothing but what came (RFC 9260 9.2).
        let is_again = before == State::ShutdownReceived;
        if answer.reply.is_none() && answer.told.is_none() && !is_again {
            return Ok(Step::Refused(Reason::Unexpected));
        }
        let tsn = shutdown.cumulative_tsn_ack;
        // One that acknowledges what was not sent acknowledges nothing: peers are known to write a TSN of their own there.
        let _taken = self
            .outbound
            .take_shutdown(self.alloc, tsn, &mut self.events.low, now)?;
        self.machine = machine;
        self.follow(before, answer, 0, now);
        Ok(Step::Next)
    }

    // A HEARTBEAT came: its information goes back (RFC 9260 8.3).
    fn take_heartbeat(&mut self, datagram: &Bytes, chunk: ChunkPlace) -> Result<Step, Fault>
        requires place { IsPlace datagram.now chunk }
        ensures tells { TellsEnd self.old self.new }
        ensures refused { (r : Reason) → result ≡ Ok (step.Refused r) → self.new ≡ self.old }
        ensures halves { HalvesAlike self.old self.new }
        ensures kept { IsKept self.old self.new }
        ensures err { OnErr result (self.new ≡ self.old) }
        ensures whole { result ≡ Ok step.Cut → ⊥ }
        ensures answers { IfOk result
            (λ s. AnswersOn chunk.at datagram.now s self.old self.new) }
        ensures events { self.new.events ≡ self.old.events }
        ensures row { (now : ℕ) → IfOk result
            (λ s. StepsOn (dropped self.old.machine) 0 now s self.old self.new) }
        ensures expected { chunk.typ ≡ 4
            → IfOk result (λ s. AsExpected (is_some self.old.machine.peer) s) }
        ensures inbound { self.new.inbound ≡ self.old.inbound }
    {
        // Who asks answers from COOKIE-ECHOED on, who is asked once the association stands (RFC 9260 8.3).
        if self.machine.peer().is_none() {
            return Ok(Step::Refused(Reason::Unexpected));
        }
        let Some(heartbeat) = self.read_chunk::<ChunkHeartbeat>(datagram, chunk)? else {
            return Ok(Step::Refused(Reason::NoPacket));
        };
        if let Some(info) = info_of(heartbeat) {
            self.due.heartbeat = Some(info);
        }
        Ok(Step::Next)
    }

    // A HEARTBEAT ACK came: it tells a round trip, and that the peer is there (RFC 9260 8.3).
    fn take_heartbeat_ack(
        &mut self,
        datagram: &Bytes,
        chunk: ChunkPlace,
        now: u64,
    ) -> Result<Step, Fault>
        requires place { IsPlace datagram.now chunk }
        ensures tells { TellsEnd self.old self.new }
        ensures refused { (r : Reason) → result ≡ Ok (step.Refused r) → self.new ≡ self.old }
        ensures halves { HalvesAlike self.old self.new }
        ensures kept { IsKept self.old self.new }
        ensures err { OnErr result (self.new ≡ self.old) }
        ensures whole { result ≡ Ok step.Cut → ⊥ }
        ensures beats { IfOk result
            (λ s. BeatsOn chunk.at datagram.now now s self.old self.new) }
        ensures events { self.new.events ≡ self.old.events }
        ensures row { IfOk result
            (λ s. StepsOn (dropped self.old.machine) 0 now s self.old self.new) }
        ensures expected { chunk.typ ≡ 5
            → IfOk result (λ s. AsExpected (is_some self.old.heartbeat) s) }
        ensures inbound { self.new.inbound ≡ self.old.inbound }
    {
        let Some(ack) = self.read_chunk::<ChunkHeartbeatAck>(datagram, chunk)? else {
            return Ok(Step::Refused(Reason::NoPacket));
        };
        if self.heartbeat.is_none() {
            return Ok(Step::Refused(Reason::Unexpected));
        }
        if let Some(nonce) = nonce_of(&ack) {
            self.heartbeat_answered(nonce, now);
        }
        Ok(Step::Next)
    }

    // The peer answers a HEARTBEAT: one that waits for this nonce tells a round trip.
    fn heartbeat_answered(&mut self, nonce: u64, now: u64)
        ensures tells { TellsEnd self.old self.new }
        ensures halves { HalvesAlike self.old self.new }
        ensures kept { IsKept self.old self.new }
        ensures beats { IsBeaten now (Some nonce) self.old self.new }
        ensures rest { self.new ≡ record self.old {
          outbound = self.new.outbound;
          heartbeat = self.new.heartbeat;
        } }
    {
        let Some(heartbeat) = &mut self.heartbeat else {
            return;
        };
        if let Some(trip) = heartbeat.answered(now, nonce) {
            self.outbound.trip_measured(trip);
        }
    }

    // An ERROR came: its first cause is told; a stale cookie begins the handshake again, with a fresh tag (RFC 9260 5.2.6, 3.3.10).
    fn take_error(&mut self, datagram: &Bytes, chunk: ChunkPlace, now: u64) -> Step
        ensures tells { TellsEnd self.old self.new }
        ensures refused { (r : Reason) → result ≡ step.Refused r → self.new ≡ self.old }
        ensures halves { halves_of self.new ≡ halves_of self.old }
        ensures peer { KeepsPeerButTag chunk datagram.now self.old self.new }
        ensures whole { result ≡ step.Cut → ⊥ }
        ensures events { self.new.events
            ≡ brought_at 9 self.old.events self.new.events }
        ensures row { StepsOn (error_row (cause_in datagram.now chunk)
            (fresh_tag self.old.key now self.old.machine.own) self.old.machine) 0 now
            result self.old self.new }
        ensures cause { self.new.events.peer_error
            ≡ cause_after (cause_in datagram.now chunk) self.old.events.peer_error }
        ensures next { result ≡ step.Stop → ⊥ }
        ensures never { (r : Reason) → result ≡ step.Refused r → ⊥ }
        ensures acks { AcksTold (error_row (cause_in datagram.now chunk)
            (fresh_tag self.old.key now self.old.machine.own) self.old.machine).answer.told
            self.old.config.sack_delay (acks_of self.old.inbound) (acks_of self.new.inbound) }
    {
        let Some(code) = cause_of(datagram, chunk) else {
            return Step::Next;
        };
        if code == 3 {
            let before = self.machine.state();
            let tag = self.fresh_tag(self.machine.own(), now);
            let answer = self.machine.stale_cookie(tag);
            self.follow(before, answer, 0, now);
        }
        self.events.peer_error = Some(code);
        Step::Next
    }

    // Reads a chunk of a kind; None where it is none.
    pub(super) fn read_chunk<C: Chunk>(
        &self,
        datagram: &Bytes,
        chunk: ChunkPlace,
    ) -> Result<Option<C>, Fault>
        requires place { IsPlace datagram.now chunk }
        ensures found { IfOk result (λ read. IfSome read
            (λ c. StartsWith (drop chunk.at datagram.now) (C.wire c))) }
        // A chunk of the kind is read.
        ensures some { (w : Wire) → C.IsKind w → StartsWith (drop chunk.at datagram.now) w
            → result ≡ Ok None → ⊥ }
    {
        let end = chunk.at.saturating_add(chunk.length);
        if end > datagram.len() || chunk.at > end {
            return Ok(None);
        }
        let raw = datagram.slice(chunk.at..end)?;
        match C::unmarshal(self.alloc, &raw) {
            Ok(read) => Ok(Some(read)),
            Err(e) => {
                unless_memory(e)?;
                Ok(None)
            }
        }
    }
}
