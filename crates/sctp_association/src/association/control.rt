//! What the state machine is answered and tells.

ghost use Rattle.std.specs.Prelude.{◌≡◌, ◌≢◌, ◌⊎◌, true, false, None, Some, is_some};
ghost use Rattle.sctp_association.specs.AcksDue.{AcksTold, acks_of, no_acks};
ghost use Rattle.sctp_association.specs.Beginnings.{Begins, BeginsBy, KeepsPeer, OwesInit};
ghost use Rattle.sctp_association.specs.Kept.{IsKept, OwesNoMore, ticket_due, ticket_in_kind};
ghost use Rattle.sctp_association.specs.Ends.{IsAborted};
ghost use Rattle.sctp_association.specs.Failing.{IsGuarded, farewell_to};
ghost use Rattle.sctp_association.specs.Fresh.{fresh_tag};
ghost use Rattle.sctp_association.specs.Halves.{HalvesAlike, halves_of};
ghost use Rattle.sctp_association.specs.Lasting.{LastsNoLonger};
ghost use Rattle.sctp_association.specs.Leaving.{AsksNoMore, OwesNothingNew, StaysDue, owed_of, replies_of};
ghost use Rattle.sctp_association.specs.Rows.{FollowsAnswer, Settles, cause_code, drained_where, over_by, owed_by, owed_once};
ghost use Rattle.sctp_association.specs.Most.{shutdowns_left};
ghost use Rattle.sctp_association.specs.Requesting.{resets_of};
ghost use Rattle.sctp_association.specs.Sending.{holds_nothing};
ghost use Rattle.sctp_association.specs.Telling.{PassesOn, TellsEnd, ending_by};
ghost use Rattle.sctp_association.specs.declared.event.Ending.TheVariants.{Aborted};
ghost use Rattle.sctp_association.specs.Timers.{KeepsTimers, RunsTimers, StartsTimers, StopsTimers, guard_in, stops};
ghost use Rattle.sctp_handshake.specs.declared.answer.Reply.TheVariants.{Init, Shutdown};
ghost use Rattle.sctp_handshake.specs.declared.answer.Told.TheVariants.{ShutdownBegun};
ghost use Rattle.sctp_handshake.specs.Endings.{on_drained};
ghost use Rattle.sctp_handshake.specs.States.{accepts_writes};

use super::{Association, outbound_config};
use crate::asking::Asking;
use crate::due::{Alone, AloneKind};
use crate::event::Ending;
use crate::inbound::{Inbound, InboundConfig};
use crate::outbound::Outbound;
use sctp_cookie::{HmacSha256, Mac};
use sctp_handshake::{AbortCause, Answer, Offer, Reply, State, Told};
use sctp_path::Heartbeat;
use sctp_receiver::receiver::limits::Limits;
use sctp_reset::PeerRequests;
use sctp_util::field::read_u32;

// The code of a cause (RFC 9260 3.3.10).
fn code_of(cause: AbortCause) -> u16
    ensures { result ≡ cause_code cause }
{
    match cause {
        AbortCause::InvalidMandatoryParameter => 7,
        AbortCause::UserInitiatedAbort => 12,
    }
}

// How an association ended that failed, with an ABORT or without.
fn failure(is_told: bool) -> Ending
    ensures { result ≡ ending_by is_told }
{
    if is_told {
        Ending::Aborted
    } else {
        Ending::Unanswered
    }
}

impl Association {
    /// What follows from an input to the machine, which was in the state `before`: its timer, a reply to `tag`, and what is told.
    #[inline(always)]
    pub(super) fn follow(&mut self, before: State, answer: Answer, tag: u32, now: u64)
        ensures tells { PassesOn answer.told (ending_by (is_some answer.reply))
            self.old self.new }
        ensures kept { IsKept self.old self.new }
        ensures quiet { answer.told ≡ None → HalvesAlike self.old self.new }
        ensures sending { answer.told ≡ None → self.new.outbound ≡ self.old.outbound }
        ensures inbound { answer.told ≡ None → self.new.inbound ≡ self.old.inbound }
        ensures heartbeat { answer.told ≡ None → self.new.heartbeat ≡ self.old.heartbeat }
        ensures events { answer.told ≡ None → self.new.events ≡ self.old.events }
        ensures requests { answer.told ≡ None → self.new.requests ≡ self.old.requests }
        ensures peer_requests { answer.told ≡ None
            → self.new.peer_requests ≡ self.old.peer_requests }
        ensures begun { BeginsBy answer.told self.old.machine self.old.config
            (halves_of self.old) (halves_of self.new) }
        ensures init { answer.reply ≡ Some Init → answer.told ≡ None → OwesInit self.new }
        ensures answer { FollowsAnswer answer tag before now self.old self.new }
        ensures report { self.new.due.report ≡ self.old.due.report }
        ensures over { answer.told ≡ None → self.new.is_over ≡ self.old.is_over }
        ensures stays { answer.told ≡ None → StaysDue self.old self.new }
        ensures due { answer.told ≡ None
            → self.new.due ≡ owed_by answer.reply tag self.old.due }
        ensures shutdown { answer.told ≡ Some ShutdownBegun
            → self.new.outbound ≡ self.old.outbound }
        ensures acks { AcksTold answer.told self.old.config.sack_delay
            (acks_of self.old.inbound) (acks_of self.new.inbound) }
    {
        let is_silent = answer.reply.is_none() && answer.told.is_none();
        if !is_silent || self.machine.state() != before {
            self.follow_answer(before, answer, tag, now);
        }
    }

    // The same, where something follows: seldom, and so apart.
    #[inline(never)]
    fn follow_answer(&mut self, before: State, answer: Answer, tag: u32, now: u64)
        ensures tells { PassesOn answer.told (ending_by (is_some answer.reply))
            self.old self.new }
        ensures kept { IsKept self.old self.new }
        ensures quiet { answer.told ≡ None → HalvesAlike self.old self.new }
        ensures sending { answer.told ≡ None → self.new.outbound ≡ self.old.outbound }
        ensures inbound { answer.told ≡ None → self.new.inbound ≡ self.old.inbound }
        ensures heartbeat { answer.told ≡ None → self.new.heartbeat ≡ self.old.heartbeat }
        ensures events { answer.told ≡ None → self.new.events ≡ self.old.events }
        ensures requests { answer.told ≡ None → self.new.requests ≡ self.old.requests }
        ensures peer_requests { answer.told ≡ None
            → self.new.peer_requests ≡ self.old.peer_requests }
        ensures begun { BeginsBy answer.told self.old.machine self.old.config
            (halves_of self.old) (halves_of self.new) }
        ensures init { answer.reply ≡ Some Init → answer.told ≡ None → OwesInit self.new }
        ensures answer { FollowsAnswer answer tag before now self.old self.new }
        ensures report { self.new.due.report ≡ self.old.due.report }
        ensures over { answer.told ≡ None → self.new.is_over ≡ self.old.is_over }
        ensures stays { answer.told ≡ None → StaysDue self.old self.new }
        ensures due { answer.told ≡ None
            → self.new.due ≡ owed_by answer.reply tag self.old.due }
        ensures shutdown { answer.told ≡ Some ShutdownBegun
            → self.new.outbound ≡ self.old.outbound }
        ensures acks { AcksTold answer.told self.old.config.sack_delay
            (acks_of self.old.inbound) (acks_of self.new.inbound) }
    {
        if self.begins_timer(before, answer.reply) {
            self.run_control(now);
        }
        if let Some(reply) = answer.reply {
            self.owe(reply, tag);
        }
        if let Some(told) = answer.told {
            self.tell(told, answer.reply.is_some(), now);
        }
    }

    // Whether the timer of the state begins: the state is another one, or DATA is answered by a SHUTDOWN (RFC 9260 9.2).
    fn begins_timer(&self, before: State, reply: Option<Reply>) -> bool
        ensures begins { result ≡ true
            → (self.now.machine.state ≢ before) ⊎ (reply ≡ Some Shutdown) }
        ensures stays { result ≡ false
            → (self.now.machine.state ≡ before) × (reply ≢ Some Shutdown) }
    {
        match reply {
            Some(Reply::Shutdown) => true,
            _ => self.machine.state() != before,
        }
    }

    /// The timer of the state runs from now on, if it has one.
    pub(super) fn run_control(&mut self, now: u64)
        ensures tells { TellsEnd self.old self.new }
        ensures kept { IsKept self.old self.new }
        ensures halves { HalvesAlike self.old self.new }
        ensures sending { self.new.outbound ≡ self.old.outbound }
        ensures inbound { self.new.inbound ≡ self.old.inbound }
        ensures heartbeat { self.new.heartbeat ≡ self.old.heartbeat }
        ensures requests { self.new.requests ≡ self.old.requests }
        ensures peer_requests { self.new.peer_requests ≡ self.old.peer_requests }
        ensures over { self.new.is_over ≡ self.old.is_over }
        ensures replies { replies_of self.new ≡ replies_of self.old }
        ensures timers { StartsTimers now self.old self.new }
        ensures rest { self.new ≡ record self.old {
          control = self.new.control;
          guard = self.new.guard;
        } }
    {
        match self.machine.state().timer() {
            Some(_) => self.control.restart(now, self.outbound.rto.get()),
            None => self.control.stop(),
        }
        self.run_guard(now);
    }

    /// T5-shutdown-guard runs from the first SHUTDOWN of this side on (RFC 9260 9.2).
    pub(super) fn run_guard(&mut self, now: u64)
        ensures runs { IsGuarded self.new }
        ensures guard { self.new.guard.at ≡ guard_in self.old.machine.state
            now self.old.config.shutdown_guard self.old.guard.at }
        ensures rest { self.new ≡ record self.old { guard = self.new.guard } }
    {
        if self.machine.state() == State::ShutdownSent {
            self.guard.start(now, self.config.shutdown_guard);
        }
    }

    /// A packet of one reply is due.
    pub(super) fn owe_alone(&mut self, tag: u32, kind: AloneKind)
        ensures due { self.new.due ≡ record self.old.due {
          alone = Some (record { tag = tag; kind = kind });
        } }
        ensures rest { self.new ≡ record self.old { due = self.new.due } }
    {
        self.due.alone = Some(Alone { tag, kind });
    }

    /// The packet of one reply is due by which the association ends, and again where it is lost.
    pub(super) fn owe_farewell(&mut self, tag: u32, kind: AloneKind)
        ensures due { self.new.due ≡ record self.old.due {
          alone = Some (record { tag = tag; kind = kind });
          farewell = Some (record { tag = tag; kind = kind });
        } }
        ensures rest { self.new ≡ record self.old { due = self.new.due } }
    {
        self.owe_alone(tag, kind);
        self.due.farewell = self.due.alone;
    }

    /// A reply is due, but for an INIT ACK: the machine answers only an INIT by that. `tag` is that of whom it answers, where it is not the
    /// association's peer.
    pub(super) fn owe(&mut self, reply: Reply, tag: u32)
        ensures init { reply ≡ Init → OwesInit self.new }
        ensures owes { OwesNoMore self.old self.new }
        ensures rest { self.new ≡ record self.old { due = self.new.due } }
        ensures stays { StaysDue self.old self.new }
        ensures due { self.new.due ≡ owed_by (Some reply) tag self.old.due }
    {
        match reply {
            Reply::Init => self.owe_alone(0, AloneKind::Init),
            Reply::InitAck(_) => {}
            Reply::CookieEcho => self.due.cookie_echo = true,
            Reply::CookieAck => self.due.cookie_ack = true,
            Reply::StaleCookie => self.owe_alone(tag, AloneKind::StaleCookie(0)),
            Reply::CookieWhileShuttingDown => self.owe_alone(tag, AloneKind::ShuttingDown),
            Reply::Shutdown => self.due.shutdown = true,
            Reply::ShutdownAck => self.due.shutdown_ack = true,
            // One with the T bit answers a packet of no association: it is left out, as RFC 9260 8.4 lets a receiver.
            Reply::ShutdownComplete { is_reflected } => {
                if !is_reflected {
                    self.owe_farewell(tag, AloneKind::ShutdownComplete);
                }
            }
            Reply::Abort(cause) => self.owe_alone(tag, AloneKind::Abort(code_of(cause))),
        }
    }

    // What the application is told; where the peer is replied to as well, the reply to what fails is an ABORT (RFC 9260 3.3.3).
    fn tell(&mut self, told: Told, has_reply: bool, now: u64)
        ensures tells { PassesOn (Some told) (ending_by has_reply) self.old self.new }
        ensures kept { IsKept self.old self.new }
        ensures begun { BeginsBy (Some told) self.old.machine self.old.config
            (halves_of self.old) (halves_of self.new) }
        ensures shutdown { told ≡ ShutdownBegun → self.new.outbound ≡ self.old.outbound }
        ensures over { self.new.is_over ≡ over_by (Some told) self.old.is_over }
        ensures wants { self.new.wants_shutdown ≡ self.old.wants_shutdown }
        ensures due { self.new.due ≡ owed_once (Some told) self.old.due }
        ensures stop { stops (Some told) ≡ true → StopsTimers self.new }
        ensures keep { stops (Some told) ≡ false → KeepsTimers self.old self.new }
        ensures rto { stops (Some told) ≡ false → self.new.outbound.rto ≡ self.old.outbound.rto }
        ensures acks { AcksTold (Some told) self.old.config.sack_delay
            (acks_of self.old.inbound) (acks_of self.new.inbound) }
    {
        match told {
            Told::Connected => {
                self.begin(now);
                self.events.connected = true;
            }
            Told::Restarted => {
                self.inbound = None;
                let first_tsn = self.machine.own().first_tsn;
                self.outbound = Outbound::new(self.alloc, outbound_config(&self.config, first_tsn));
                self.requests = Asking::new(self.alloc, first_tsn);
                self.control.stop();
                self.guard.stop();
                self.begin(now);
                self.events.restarted = true;
            }
            Told::ShutdownBegun => self.events.shutdown = true,
            Told::Closed => self.end(Ending::Shutdown),
            Told::Failed => self.end(failure(has_reply)),
        }
    }

    // The association stands, by what both sides offered.
    fn begin(&mut self, now: u64)
        ensures tells { TellsEnd self.old self.new }
        ensures kept { IsKept self.old self.new }
        // Where there is no receiver, one begins, with the first TSN of the peer's offer.
        ensures begun { (halves_of self.old).receiver ≡ None
            → Begins self.old.machine.peer self.old.config
            (halves_of self.old) (halves_of self.new) }
        ensures over { self.new.is_over ≡ self.old.is_over }
        ensures wants { self.new.wants_shutdown ≡ self.old.wants_shutdown }
        ensures due { self.new.due ≡ record self.old.due { cookie_echo = false } }
        ensures events { self.new.events ≡ self.old.events }
        ensures timers { KeepsTimers self.old self.new }
        ensures rto { self.new.outbound.rto ≡ self.old.outbound.rto }
        ensures acks { acks_of self.new.inbound ≡ Some (no_acks self.old.config.sack_delay)
            ⊎ (self.new.inbound ≡ self.old.inbound) }
    {
        self.due.cookie_echo = false;
        let (Some(peer), Some(agreed)) = (self.machine.peer(), self.machine.agreed()) else {
            return;
        };
        self.outbound
            .connected(peer.window as usize, agreed.forward_tsn);
        self.inbound = Some(Inbound::new(
            self.alloc,
            &InboundConfig {
                first_tsn: peer.first_tsn,
                streams: agreed.inbound_streams.min(self.config.inbound_streams),
                max_message_size: self.config.max_message_size,
                limits: Limits {
                    window: self.config.window,
                    reach: self.config.reach,
                },
                sack_delay: self.config.sack_delay,
            },
        ));
        self.peer_requests = Some(PeerRequests::new(peer.first_tsn));
        self.heartbeat = Some(Heartbeat::new(now, self.config.heartbeat));
        self.cookie = None;
    }

    /// Begins the shutdown that was asked for before the association stood, and goes on with one where nothing waits or is in flight (RFC
    /// 9260 9.2).
    pub(super) fn settle(&mut self, now: u64)
        ensures tells { TellsEnd self.old self.new }
        ensures halves { HalvesAlike self.old self.new }
        ensures peer { KeepsPeer self.old self.new }
        ensures over { self.new.is_over ≡ self.old.is_over }
        ensures inbound { self.new.inbound ≡ self.old.inbound }
        ensures sending { self.new.outbound ≡ self.old.outbound }
        ensures heartbeat { self.new.heartbeat ≡ self.old.heartbeat }
        ensures events { self.new.events ≡ self.old.events }
        ensures left { LastsNoLonger self.old self.new }
        ensures writes { accepts_writes self.old.machine.state ≡ false
            → accepts_writes self.new.machine.state ≡ false }
        ensures stays { StaysDue self.old self.new }
        ensures asks { OwesNothingNew (owed_of self.old) (owed_of self.new) }
        ensures moments { AsksNoMore now self.old self.new }
        ensures resets { resets_of self.new ≡ resets_of self.old }
        ensures settles { Settles now self.old self.new }
        ensures alone { self.new.due.alone ≡ self.old.due.alone }
        ensures shut { shutdowns_left self.old.machine.state ≡ 0
            → self.new.machine.state ≡ self.old.machine.state }
    {
        if self.wants_shutdown && self.machine.state() == State::Established {
            self.wants_shutdown = false;
            let _answer = self.machine.shutdown_asked();
        }
        self.note_drained(now);
    }

    // Tells the machine that nothing waits or is in flight, if that is so (RFC 9260 9.2).
    fn note_drained(&mut self, now: u64)
        ensures tells { TellsEnd self.old self.new }
        ensures waits { holds_nothing self.old.outbound.sender ≡ false → self.new ≡ self.old }
        ensures drained { holds_nothing self.old.outbound.sender ≡ true
            → self.new.machine ≡ (on_drained self.old.machine).machine }
        ensures halves { HalvesAlike self.old self.new }
        ensures peer { KeepsPeer self.old self.new }
        ensures over { self.new.is_over ≡ self.old.is_over }
        ensures inbound { self.new.inbound ≡ self.old.inbound }
        ensures sending { self.new.outbound ≡ self.old.outbound }
        ensures heartbeat { self.new.heartbeat ≡ self.old.heartbeat }
        ensures events { self.new.events ≡ self.old.events }
        ensures left { LastsNoLonger self.old self.new }
        ensures writes { accepts_writes self.old.machine.state ≡ false
            → accepts_writes self.new.machine.state ≡ false }
        ensures stays { StaysDue self.old self.new }
        ensures asks { OwesNothingNew (owed_of self.old) (owed_of self.new) }
        ensures moments { AsksNoMore now self.old self.new }
        ensures resets { resets_of self.new ≡ resets_of self.old }
        ensures due { self.new.due ≡ owed_by (drained_where
            (holds_nothing self.old.outbound.sender) self.old.machine).answer.reply 0 self.old.due }
        ensures wants { self.new.wants_shutdown ≡ self.old.wants_shutdown }
        ensures timers { RunsTimers (drained_where (holds_nothing self.old.outbound.sender)
            self.old.machine).answer self.old.machine.state now self.old self.new }
        ensures alone { self.new.due.alone ≡ self.old.due.alone }
        ensures shut { shutdowns_left self.old.machine.state ≡ 0
            → self.new.machine.state ≡ self.old.machine.state }
    {
        if !self.outbound.is_drained() {
            return;
        }
        let before = self.machine.state();
        let answer = self.machine.drained();
        self.follow(before, answer, 0, now);
    }

    /// The association ends with this ABORT.
    pub(super) fn end_with(&mut self, kind: AloneKind)
        ensures tells { TellsEnd self.old self.new }
        ensures over { self.new.is_over ≡ true }
        ensures owed { self.new.due.alone ≡ farewell_to kind self.old.machine.peer }
        ensures timers { StopsTimers self.new }
        ensures aborted { IsAborted kind self.old.machine.peer self.new }
        ensures events { self.new.events ≡ record self.old.events { closed = Some Aborted } }
        ensures outbound { self.new.outbound ≡ self.old.outbound }
        ensures inbound { self.new.inbound ≡ self.old.inbound }
        ensures halves { HalvesAlike self.old self.new }
        ensures peer { ticket_in_kind kind ≡ None → KeepsPeer self.old self.new }
    {
        self.owe_end(kind);
        let _answer = self.machine.abort();
        self.end(Ending::Aborted);
    }

    // The packet is due by which the association ends, where the peer is known; else none is.
    fn owe_end(&mut self, kind: AloneKind)
        ensures owed { self.new.due.alone ≡ farewell_to kind self.old.machine.peer }
        ensures again { is_some self.old.machine.peer ≡ true
            → self.new.due.farewell ≡ farewell_to kind self.old.machine.peer }
        ensures owes { ticket_in_kind kind ≡ None → ticket_due self.new.due.alone ≡ None }
        ensures rest { self.new ≡ record self.old { due = self.new.due } }
    {
        let Some(peer) = self.machine.peer() else {
            self.due.alone = None;
            return;
        };
        self.owe_farewell(peer.tag, kind);
    }

    /// A tag for one INIT (RFC 9260 5.2.2, 5.2.6, 5.3.1): nobody without the key can guess it.
    pub(super) fn fresh_tag(&self, peer: Offer, now: u64) -> u32
        ensures { result ≡ fresh_tag self.now.key now peer }
    {
        let [a, b, c, d, e, f, g, h] = now.to_be_bytes();
        let [i, j, k, l] = peer.tag.to_be_bytes();
        let [m, n, o, p] = peer.first_tsn.to_be_bytes();
        let message = [a, b, c, d, e, f, g, h, i, j, k, l, m, n, o, p];
        let code = HmacSha256.code(&self.key, &message);
        read_u32(&code, 0).max(1)
    }
}
