//! INIT, INIT ACK and the cookie (RFC 9260 5).

ghost use Rattle.std.specs.Prelude.{◌≡◌, ◌≢◌, ◌⊎◌, ◌≤◌, ◌&&◌, Ok, IfOk, OnErr, None, Some, length, true, false};
ghost use Rattle.sctp_association.specs.AcksDue.{AcksTold, acks_of};
ghost use Rattle.sctp_association.specs.Single.{OffersOn};
ghost use Rattle.sctp_association.specs.Beginnings.{ArrivesAsOffered, BeginsByTicket, IsOwedFor, KeepsPeer, is_standing};
ghost use Rattle.sctp_association.specs.Events.{brought_at};
ghost use Rattle.sctp_association.specs.Kept.{OwesNoMore, OwesTicket, ticket_in_kind};
ghost use Rattle.sctp_association.specs.Cookies.{IsAlive, IsSealed, cookie_in};
ghost use Rattle.sctp_association.specs.Halves.{HalvesAlike, halves_of};
ghost use Rattle.sctp_association.specs.Expected.{AsExpected, IsEchoExpected, IsInitAckExpected, IsInitExpected, may_begin, speaks};
ghost use Rattle.sctp_association.specs.Openings.{EchoesOn, InitAckOn, owed_to_init};
ghost use Rattle.sctp_association.specs.Reports.{AnswersHostName, EndsBegun, EndsByHostName, report_with, value_in};
ghost use Rattle.sctp_association.specs.Rows.{StepsOn};
ghost use Rattle.sctp_association.specs.Steps.{is_taken};
ghost use Rattle.sctp_association.specs.Telling.{Tells, TellsEnd};
ghost use Rattle.sctp_association.specs.declared.association.Reason.{Reason};
ghost use Rattle.sctp_association.specs.declared.association.Reason.TheVariants.{Unexpected};
ghost use Rattle.sctp_association.specs.declared.association.arrivals.Step.TheVariants as step;
ghost use Rattle.sctp_datagram.specs.Carried.{IsChunkOf};
ghost use Rattle.sctp_datagram.specs.Places.{IsPlace};
ghost use Rattle.sctp_handshake.specs.Cookies.{on_cookie_ack};
ghost use Rattle.sctp_handshake.specs.declared.answer.Reply.TheVariants.{InitAck};
ghost use Rattle.sctp_handshake.specs.declared.state.State.TheVariants.{Closed, CookieWait};
ghost use Rattle.sctp_handshake.specs.declared.ticket.Ticket.{Ticket};
ghost use Rattle.sctp_handshake.specs.InitValues.{host_name_of};
ghost use Rattle.sctp_util.specs.Field.{u32_at};

use super::arrivals::{Step, bytes_of};
use super::{Association, Reason};
use crate::due::{AloneKind, Report};
use crate::event::Ending;
use crate::fault::Fault;
use bytes::Bytes;
use sctp_cookie::{HmacSha256, is_stale, open};
use sctp_datagram::ChunkPlace;
use sctp_datagram::in_place::init_value;
use sctp_handshake::init_value::host_name_in;
use sctp_handshake::{InitFault, Reply, Said, State, Ticket};
use sctp_util::field::read_u32;

impl Association {
    /// Takes an INIT (RFC 9260 5.1 B, 5.2.1, 5.2.2): nothing changes but the one reply that is due. To one with a Host Name Address that is
    /// an ABORT (5.1.2).
    #[inline(never)]
    pub(super) fn take_init(
        &mut self,
        datagram: &Bytes,
        chunk: ChunkPlace,
        now: u64,
    ) -> Result<Step, Fault>
        requires place { IsPlace datagram.now chunk }
        requires own { IsChunkOf datagram.now chunk }
        requires typ { chunk.typ ≡ 1 }
        ensures refused { (r : Reason) → result ≡ Ok (step.Refused r) → self.new ≡ self.old }
        ensures err { OnErr result (self.new ≡ self.old) }
        ensures due { self.new ≡ record self.old { due = self.new.due } }
        // The ticket of an INIT ACK that is due has the offer of this INIT, and the first TSN of this side.
        ensures owes { (ticket : Ticket) → OwesTicket self.new ticket
            → OwesTicket self.old ticket ⊎ IsOwedFor datagram.now self.old ticket }
        ensures stops { result ≡ Ok step.Next → ⊥ }
        ensures whole { result ≡ Ok step.Cut → ⊥ }
        ensures host { result ≡ Ok step.Stop
            → AnswersHostName (value_in datagram.now chunk) self.new }
        ensures offers { IfOk result (λ s. OffersOn chunk datagram.now now s self.old self.new) }
        ensures expected { IsInitExpected chunk datagram.now
            → (r : Reason) → result ≡ Ok (step.Refused r) → ⊥ }
    {
        let Ok(value) = init_value(bytes_of(datagram, chunk)) else {
            return Ok(Step::Refused(Reason::NoPacket));
        };
        let Ok(said) = Said::read_init(value) else {
            return Ok(Step::Refused(Reason::NoPacket));
        };
        let tag = self.fresh_tag(said.offer, now);
        match self.machine.init(said.offer, tag) {
            Some(reply) => {
                if let Some(host) = host_name_in(value) {
                    self.due.unknown_params = self.host_name_at(value, host)?;
                    self.owe_alone(read_u32(value, 0), AloneKind::HostName);
                    return Ok(Step::Stop);
                }
                self.due.unknown_params = self.reported_in(value)?;
                self.owe_answer(reply, said.offer.tag);
                Ok(Step::Stop)
            }
            None => Ok(Step::Refused(Reason::Unexpected)),
        }
    }

    // What answers an INIT is due, to its tag.
    fn owe_answer(&mut self, reply: Reply, tag: u32)
        ensures owes { (ticket : Ticket) → OwesTicket self.new ticket
            → OwesTicket self.old ticket ⊎ (reply ≡ InitAck ticket) }
        ensures due { self.new.due ≡ owed_to_init (Some reply) tag self.old.due }
        ensures rest { self.new ≡ record self.old { due = self.new.due } }
    {
        match reply {
            Reply::InitAck(ticket) => self.owe_alone(tag, AloneKind::InitAck(ticket)),
            reply => self.owe(reply, tag),
        }
    }

    /// Takes an INIT ACK that this side waits for (RFC 9260 5.1 C, 5.2.3): its cookie is kept, to be echoed. By one with a Host Name Address, or
    /// without a cookie, what was begun ends (5.1, 5.1.2).
    #[inline(never)]
    pub(super) fn take_init_ack(
        &mut self,
        datagram: &Bytes,
        chunk: ChunkPlace,
        now: u64,
    ) -> Result<Step, Fault>
        requires place { IsPlace datagram.now chunk }
        requires own { IsChunkOf datagram.now chunk }
        requires typ { chunk.typ ≡ 2 }
        ensures tells { Tells self.old self.new }
        ensures refused { (r : Reason) → result ≡ Ok (step.Refused r) → self.new ≡ self.old }
        // One that this side does not wait for is passed over (RFC 9260 5.2.3), and no other.
        ensures unexpected { result ≡ Ok (step.Refused Unexpected)
            → self.old.machine.state ≢ CookieWait }
        ensures waits { (r : Reason) → result ≡ Ok (step.Refused r) → (r ≡ Unexpected → ⊥)
            → self.old.machine.state ≡ CookieWait }
        ensures err { OnErr result (self.new ≡ self.old) }
        ensures whole { result ≡ Ok step.Cut → ⊥ }
        ensures came { ArrivesAsOffered datagram.now self.old self.new }
        ensures passed { result ≡ Ok step.Next → host_name_of (value_in datagram.now chunk) ≡ None }
        ensures host { result ≡ Ok step.Stop
            → EndsByHostName (value_in datagram.now chunk) self.old self.new }
        ensures events { self.new.events
            ≡ brought_at 2 self.old.events self.new.events }
        ensures row { IfOk result (λ s. InitAckOn chunk datagram.now now s self.old self.new) }
        ensures expected { IsInitAckExpected chunk datagram.now self.old
            → (r : Reason) → result ≡ Ok (step.Refused r) → ⊥ }
    {
        if self.machine.state() != State::CookieWait {
            return Ok(Step::Refused(Reason::Unexpected));
        }
        let Ok(value) = init_value(bytes_of(datagram, chunk)) else {
            return Ok(Step::Refused(Reason::NoPacket));
        };
        if let Some(host) = host_name_in(value) {
            let raw = self.host_name_at(value, host)?;
            return Ok(self.end_begun(value, AloneKind::HostName, raw));
        }
        let (offer, place) = match Said::read_init_ack(value) {
            Ok(read) => read,
            Err(InitFault::MissingCookie) => {
                return Ok(self.end_begun(value, AloneKind::NoCookie, None));
            }
            Err(_) => return Ok(Step::Refused(Reason::NoPacket)),
        };
        let end = place.at.saturating_add(place.length);
        let Some(cookie) = value.get(place.at..end) else {
            return Ok(Step::Refused(Reason::NoPacket));
        };
        let cookie = Bytes::copy_from_slice(self.alloc, cookie)?;
        let reported = self.reported_in(value)?;
        let answer = self.machine.init_ack(offer);
        self.cookie = Some(cookie);
        self.note_params(reported);
        self.follow(State::CookieWait, answer, offer.tag, now);
        Ok(Step::Next)
    }

    // Notes the parameters of an INIT ACK of which its sender is told: cause 8 (RFC 9260 3.3.10.8).
    fn note_params(&mut self, reported: Option<Bytes>)
        ensures rest { self.new ≡ record self.old { due = self.new.due } }
        ensures owes { OwesNoMore self.old self.new }
        ensures due { self.new.due ≡ record self.old.due {
          report = report_with reported self.old.due.report;
        } }
    {
        if let Some(raw) = reported {
            self.due.report = Some(Report { code: 8, raw });
        }
    }

    // An INIT ACK has no State Cookie, or a Host Name Address: what was begun ends by an ABORT with its tag (RFC 9260 5.1, 5.1.2, 3.3.10.2).
    fn end_begun(&mut self, value: &[u8], kind: AloneKind, raw: Option<Bytes>) -> Step
        requires long { 16 ≤ length value.now }
        requires no_ticket { ticket_in_kind kind ≡ None }
        requires waits { self.old.machine.state ≡ CookieWait }
        ensures tells { TellsEnd self.old self.new }
        ensures ends { result ≡ step.Stop
            → EndsBegun kind raw (u32_at value.now 0) self.old self.new }
        ensures events { self.new.events
            ≡ brought_at 2 self.old.events self.new.events }
        ensures tagged { result ≡ step.Stop → u32_at value.now 0 ≢ 0 }
        ensures taken { u32_at value.now 0 ≢ 0 → result ≡ step.Stop }
        ensures why { result ≡ step.Refused Unexpected → ⊥ }
        ensures never { result ≡ step.Next → ⊥ }
        ensures whole { result ≡ step.Cut → ⊥ }
        ensures refused { (r : Reason) → result ≡ step.Refused r → self.new ≡ self.old }
        ensures halves { HalvesAlike self.old self.new }
        ensures peer { KeepsPeer self.old self.new }
    {
        let tag = read_u32(value, 0);
        if tag == 0 {
            return Step::Refused(Reason::NoPacket);
        }
        let _answer = self.machine.abort();
        self.due.unknown_params = raw;
        self.owe_farewell(tag, kind);
        self.end(Ending::Aborted);
        Step::Stop
    }

    /// Takes a COOKIE ECHO (RFC 9260 5.1 D, 5.1.5, 5.2.4): only one that this side sealed, in a packet with the tag that it holds. Behind one
    /// that is too old nothing of the packet is looked at (5.1.5).
    #[inline(never)]
    pub(super) fn take_cookie(
        &mut self,
        datagram: &Bytes,
        chunk: ChunkPlace,
        tag: u32,
        now: u64,
    ) -> Result<Step, Fault>
        requires place { IsPlace datagram.now chunk }
        requires own { IsChunkOf datagram.now chunk }
        requires typ { chunk.typ ≡ 10 }
        ensures tells { Tells self.old self.new }
        ensures came { ArrivesAsOffered datagram.now self.old self.new }
        ensures refused { (r : Reason) → result ≡ Ok (step.Refused r) → self.new ≡ self.old }
        ensures err { OnErr result (self.new ≡ self.old) }
        ensures sealed { IfOk result (λ s. is_taken s ≡ true
            → IsSealed self.old.key tag (cookie_in datagram.now chunk)) }
        ensures alive { self.old.machine.state ≡ Closed → result ≡ Ok step.Next
            → IsAlive now self.old.config.cookie_life
            self.old.key tag (cookie_in datagram.now chunk) }
        // The receiver begins with the first TSN that the ticket has of the peer.
        ensures first { self.old.machine.state ≡ Closed → result ≡ Ok step.Next
            → BeginsByTicket self.old.key tag (cookie_in datagram.now chunk) self.old.config
            (halves_of self.old) (halves_of self.new) }
        // A cookie that is too old begins nothing (RFC 9260 5.1.5).
        ensures stale { result ≡ Ok step.Stop → self.new.machine ≡ self.old.machine }
        ensures whole { result ≡ Ok step.Cut → ⊥ }
        ensures events { self.new.events
            ≡ brought_at 10 self.old.events self.new.events }
        ensures row { IfOk result (λ s. EchoesOn tag (cookie_in datagram.now chunk) now s
            self.old self.new) }
        ensures expected { IsEchoExpected chunk tag datagram.now now self.old
            → (r : Reason) → result ≡ Ok (step.Refused r) → ⊥ }
    {
        let raw = bytes_of(datagram, chunk);
        if chunk.length > raw.len() || chunk.length < 4 {
            return Ok(Step::Refused(Reason::NoPacket));
        }
        let Some((moment, payload)) = open(&HmacSha256, &self.key, &raw[4..chunk.length]) else {
            return Ok(Step::Refused(Reason::Tag));
        };
        let Ok(ticket) = Ticket::read(payload) else {
            return Ok(Step::Refused(Reason::Tag));
        };
        if ticket.own.tag != tag {
            return Ok(Step::Refused(Reason::Tag));
        }
        if !self.may_begin() {
            return Ok(Step::Refused(Reason::Unexpected));
        }
        let is_old = is_stale(moment, now, self.config.cookie_life);
        let before = self.machine.state();
        let answer = self.machine.cookie_echo(ticket, is_old);
        if answer.reply.is_none() && answer.told.is_none() {
            return Ok(Step::Refused(Reason::Unexpected));
        }
        self.follow(before, answer, ticket.peer.tag, now);
        match answer.reply {
            Some(Reply::StaleCookie) => Ok(Step::Stop),
            _ => Ok(Step::Next),
        }
    }

    /// Takes a COOKIE ACK (RFC 9260 5.1 E).
    pub(super) fn take_cookie_ack(&mut self, datagram: &Bytes, chunk: ChunkPlace, now: u64) -> Step
        requires own { IsChunkOf datagram.now chunk }
        requires typ { chunk.typ ≡ 11 }
        ensures tells { Tells self.old self.new }
        ensures came { ArrivesAsOffered datagram.now self.old self.new }
        ensures refused { (r : Reason) → result ≡ step.Refused r → self.new ≡ self.old }
        ensures whole { result ≡ step.Cut → ⊥ }
        ensures events { self.new.events
            ≡ brought_at 11 self.old.events self.new.events }
        ensures row { StepsOn (on_cookie_ack self.old.machine) 0 now result self.old self.new }
        ensures expected { AsExpected
            (speaks (on_cookie_ack self.old.machine).answer && may_begin self.old) result }
        ensures acks { result ≡ step.Next
            → AcksTold (on_cookie_ack self.old.machine).answer.told self.old.config.sack_delay
            (acks_of self.old.inbound) (acks_of self.new.inbound) }
    {
        if !self.may_begin() {
            return Step::Refused(Reason::Unexpected);
        }
        let before = self.machine.state();
        let answer = self.machine.cookie_ack();
        self.take_answer(before, answer, 0, now)
    }

    // Whether an association may begin: it begins once, so no receiver is there of one that does not stand any more.
    fn may_begin(&self) -> bool
        ensures once { result ≡ true → is_standing self.now.machine.state ≡ false
            → self.now.inbound ≡ None }
        ensures value { result ≡ may_begin self.now }
    {
        match self.machine.state() {
            State::Closed | State::CookieWait | State::CookieEchoed => self.inbound.is_none(),
            _ => true,
        }
    }
}
