//! When something is to be done though nothing came (RFC 9260 6.3.3, 8.1, 8.3, 9.2).

ghost use Rattle.std.specs.Prelude.{◌≡◌, ◌⊎◌, ◌≤◌, None, Some, true, false, is_some, option_map};
ghost use Rattle.sctp_association.specs.Again.{IsAgain, IsRunOut, IsSentAgain, RunsAgain, missed_where, run_in};
ghost use Rattle.sctp_association.specs.BackOff.{IsAsIdle, counted_where, doubled_where, failures_after, is_missed, is_unanswered, reduced_where, rto_after};
ghost use Rattle.sctp_association.specs.Beginnings.{KeepsPeer};
ghost use Rattle.sctp_association.specs.Brought.{BringsEnd};
ghost use Rattle.sctp_association.specs.Congested.{expired_at, path_of};
ghost use Rattle.sctp_association.specs.Kept.{ticket_due};
ghost use Rattle.sctp_association.specs.Halves.{MarksByT3};
ghost use Rattle.sctp_association.specs.Lasting.{Expires, expires, expires_control};
ghost use Rattle.sctp_association.specs.Rows.{owed_by};
ghost use Rattle.sctp_association.specs.Sending.{IsTimed, t3_time};
ghost use Rattle.sctp_association.specs.Telling.{Tells, TellsEnd};
ghost use Rattle.sctp_association.specs.declared.event.Ending.TheVariants.{Unanswered};
ghost use Rattle.sctp_handshake.specs.declared.ticket.Ticket.{Ticket};
ghost use Rattle.sctp_handshake.specs.States.{timer};
ghost use Rattle.sctp_handshake.specs.declared.ticket.Ticket.{Ticket};
ghost use Rattle.sctp_path.specs.Rto.{after_back_off};
ghost use Rattle.sctp_path.specs.Timers.{is_due, is_passed, one_more};
ghost use Rattle.sctp_reset.specs.Own.{after_failed, has_failed, time_of};
ghost use Rattle.sctp_stream.specs.Stats.{count_up};

use super::Association;
use crate::due::{Alone, AloneKind, Due};
use crate::event::Ending;
use sctp_handshake::{Reply, State};
use sctp_path::earliest;

// What is sent again is due, to the peer, or with tag 0 where that is an INIT (RFC 9260 8.5.1).
fn owe_again(due: &mut Due, reply: Option<Reply>)
    ensures kept { (ticket : Ticket) → ticket_due due.new.alone ≡ Some ticket
        → ticket_due due.old.alone ≡ Some ticket }
    ensures due { IsSentAgain reply → due.new ≡ owed_by reply 0 due.old }
{
    match reply {
        Some(Reply::Init) => {
            due.alone = Some(Alone {
                tag: 0,
                kind: AloneKind::Init,
            });
        }
        Some(Reply::CookieEcho) => due.cookie_echo = true,
        Some(Reply::Shutdown) => due.shutdown = true,
        Some(Reply::ShutdownAck) => due.shutdown_ack = true,
        _ => {}
    }
}

impl Association {
    ghost use Rattle.sctp_association.specs.Still.{IsBy, IsStill, heartbeat_time, is_behind, timeout_of};
    ghost use Rattle.sctp_association.specs.Ends.{IsAborted, IsUnanswered};
    ghost use Rattle.sctp_association.specs.Failing.{IsCounted, IsGuarded, IsTimedOut};
    ghost use Rattle.sctp_association.specs.declared.due.AloneKind.TheVariants.{Abort};
    ghost use Rattle.sctp_handshake.specs.declared.state.State.TheVariants.{Closed};

    /// The earliest moment at which `handle_timeout` and `poll_transmit` have something to do, though nothing comes; 0 where they have it now.
    /// None only where nothing waits, nothing is in flight, and no handshake, shutdown or reset is under way.
    pub fn poll_timeout(&self) -> Option<u64>
        // It is exactly the first of those moments: so the association is called no sooner than needed, and a SACK that waits leaves in time (6.2).
        ensures exact { result ≡ timeout_of self.now }
        ensures still { result ≡ None → IsStill self.now }
        ensures control { self.now.is_over ≡ false → IsBy self.now.control.at result }
        ensures t3 { self.now.is_over ≡ false → IsBy (t3_time
            self.now.outbound.sender.flight.queue.inflight.chunks self.now.outbound.timer.at)
            result }
        ensures request { self.now.is_over ≡ false
            → IsBy (option_map time_of self.now.requests.under_way) result }
        ensures guard { self.now.is_over ≡ false → IsBy self.now.guard.at result }
    {
        if self.is_over {
            return None;
        }
        if self.is_behind() {
            return Some(0);
        }
        let mut at = earliest(self.control.at(), self.outbound.next_time());
        at = earliest(at, self.guard.at());
        at = earliest(at, self.requests.next_time());
        if let Some(inbound) = &self.inbound {
            at = earliest(at, inbound.delay.at());
        }
        earliest(at, self.next_heartbeat())
    }

    // Whether something is to be done for which no timer runs: the timer of the state is to begin, or nothing is in flight and what waits can go.
    fn is_behind(&self) -> bool
        ensures { result ≡ is_behind self.now }
    {
        let state = self.machine.state();
        if state.timer().is_some() {
            return self.control.at().is_none();
        }
        if state == State::Closed || self.outbound.is_in_flight() {
            return false;
        }
        let has_request = self.requests.next_time().is_none() && !self.requests.is_idle();
        self.outbound.is_waiting() || has_request
    }

    // When the next HEARTBEAT is due: later than the last one, so that one leaves at a moment.
    pub(super) fn next_heartbeat(&self) -> Option<u64>
        ensures { result ≡ heartbeat_time self.now }
    {
        if self.machine.state() != State::Established {
            return None;
        }
        let heartbeat = self.heartbeat.as_ref()?;
        let at = heartbeat.at(self.outbound.rto.get().max(1));
        // A time that passes the greatest moment does not come.
        if at == u64::MAX { None } else { Some(at) }
    }

    /// Does what is due by now: timers that ran out, and what failed too often. Each expiry of T3-rtx is counted (RFC 9260 8.1), and each of T1-init,
    /// T1-cookie and T2-shutdown (4, 9.2): past its limit the association is over. Where T5-shutdown-guard expires an ABORT is due (9.2).
    pub fn handle_timeout(&mut self, now: u64)
        ensures tells { Tells self.old self.new }
        ensures over { self.old.is_over ≡ true → self.new ≡ self.old }
        ensures t3 { self.old.is_over ≡ false → is_due now self.old.outbound.timer.at ≡ true
            → (self.new.is_over ≡ true) ⊎ IsCounted self.old.outbound.failures
            self.new.outbound.failures }
        ensures control { self.old.is_over ≡ false → is_due now self.old.control.at ≡ true
            → (self.new.is_over ≡ true) ⊎ IsTimedOut self.old.machine self.new.machine }
        ensures timed { (self.new.is_over ≡ true)
            ⊎ IsTimed self.new.outbound.sender.flight.queue.inflight.chunks
            self.new.outbound.timer.at }
        // T3-rtx alone is counted, where it expired.
        ensures told { self.old.is_over ≡ false → is_due now self.old.guard.at ≡ false
            → is_due now self.old.outbound.timer.at ≡ true
            → self.new.outbound.timeouts ≡ count_up self.old.outbound.timeouts 1 }
        ensures untold { is_due now self.old.outbound.timer.at ≡ false
            → self.new.outbound.timeouts ≡ self.old.outbound.timeouts }
        ensures resent { self.new.outbound.resent ≡ self.old.outbound.resent }
        // A shutdown ends: it lasts until T5-shutdown-guard expires at most. By it this side ends the association with an ABORT.
        ensures guard { self.old.is_over ≡ false → is_due now self.old.guard.at ≡ true
            → IsAborted (Abort 12) self.old.machine.peer self.new }
        // Else it is over only since the peer did not answer (8.1).
        ensures unanswered { self.old.is_over ≡ false → is_due now self.old.guard.at ≡ false
            → self.new.is_over ≡ true → IsUnanswered self.new }
        ensures guarded { (self.new.is_over ≡ true) ⊎ IsGuarded self.new }
        // With each expiry fewer are left until it is over, while nothing of the peer comes.
        // It tells no more than how the association ended, where it is over.
        ensures tells_end { BringsEnd self.old self.new }
        ensures left { Expires (expires now self.old) self.old self.new }
        // The receiving half stays: so the peer may use the same streams.
        ensures inbound { self.new.inbound ≡ self.old.inbound }
        ensures halves { MarksByT3 now self.old self.new }
        ensures peer { KeepsPeer self.old self.new }
        // Where T5-shutdown-guard does not expire: the RTO doubles, and failures are counted, exactly so often; T3-rtx alone lowers cwnd.
        ensures backs_off { self.old.is_over ≡ false → is_due now self.old.guard.at ≡ false
            → self.new.outbound.rto ≡ rto_after now self.old }
        ensures fails { self.old.is_over ≡ false → is_due now self.old.guard.at ≡ false
            → self.new.outbound.failures ≡ failures_after now self.old }
        ensures congestion { self.old.is_over ≡ false → is_due now self.old.guard.at ≡ false
            → self.new.outbound.congestion ≡ reduced_where
            (is_due now self.old.outbound.timer.at) self.old.outbound.congestion }
        // It alone ends a burst, marks what is in flight, and has a FORWARD-TSN due: the rest of what is sent, and how, stays (6.3.3 E3).
        ensures path { self.old.is_over ≡ false → is_due now self.old.guard.at ≡ false
            → path_of self.new.outbound ≡ expired_at now
            (is_due now self.old.outbound.timer.at) (path_of self.old.outbound) }
        // Where the timer of the state expires its INIT, COOKIE-ECHO, SHUTDOWN or SHUTDOWN-ACK is due again, and it runs on (RFC 9260 5.1, 9.2).
        ensures again { self.old.is_over ≡ false → is_due now self.old.guard.at ≡ false
            → (self.new.is_over ≡ true) ⊎ IsAgain now self.old self.new }
    {
        if self.is_over {
            return;
        }
        if self.guard.is_due(now) {
            self.end_with(AloneKind::Abort(12));
            return;
        }
        self.time_out_control(now);
        if self.outbound.time_out(now) || self.has_failed(now) {
            self.fail();
        }
    }

    // T1-init, T1-cookie or T2-shutdown ran out (RFC 9260 5.1, 9.2). Where the state has a timer, it runs then.
    fn time_out_control(&mut self, now: u64)
        ensures tells { TellsEnd self.old self.new }
        ensures control { is_due now self.old.control.at ≡ true
            → (self.new.is_over ≡ true) ⊎ IsTimedOut self.old.machine self.new.machine }
        ensures outbound { self.new.outbound
            ≡ record self.old.outbound { rto = self.new.outbound.rto } }
        ensures inbound { self.new.inbound ≡ self.old.inbound }
        ensures guarded { (self.new.is_over ≡ true) ⊎ IsGuarded self.new }
        ensures unanswered { self.old.is_over ≡ false → self.new.is_over ≡ true
            → IsUnanswered self.new }
        ensures left { self.old.is_over ≡ false
            → Expires (expires_control now self.old) self.old self.new }
        ensures peer { KeepsPeer self.old self.new }
        ensures rto { self.new.outbound.rto
            ≡ doubled_where (is_due now self.old.control.at) self.old.outbound.rto }
        ensures requests { self.new.requests ≡ self.old.requests }
        ensures heartbeat { self.new.heartbeat ≡ self.old.heartbeat }
        ensures tells_end { BringsEnd self.old self.new }
        ensures state { IsAsIdle self.old.machine.state self.new.machine.state }
        ensures again { (self.new.is_over ≡ true) ⊎ RunsAgain now self.old self.new }
    {
        if self.control.is_due(now) {
            self.run_out();
        }
        self.start_control(now);
        self.run_guard(now);
    }

    // What waits for its answer is sent again, or the association is over.
    fn run_out(&mut self)
        ensures tells { TellsEnd self.old self.new }
        ensures control { (self.new.is_over ≡ true)
            ⊎ IsTimedOut self.old.machine self.new.machine }
        ensures outbound { self.new.outbound
            ≡ record self.old.outbound { rto = self.new.outbound.rto } }
        ensures inbound { self.new.inbound ≡ self.old.inbound }
        ensures unanswered { self.old.is_over ≡ false → self.new.is_over ≡ true
            → IsUnanswered self.new }
        ensures left { self.old.is_over ≡ false
            → Expires (is_some (timer self.old.machine.state)) self.old self.new }
        ensures peer { KeepsPeer self.old self.new }
        ensures rto { self.new.outbound.rto ≡ after_back_off self.old.outbound.rto }
        ensures requests { self.new.requests ≡ self.old.requests }
        ensures heartbeat { self.new.heartbeat ≡ self.old.heartbeat }
        ensures tells_end { BringsEnd self.old self.new }
        ensures state { IsAsIdle self.old.machine.state self.new.machine.state }
        ensures again { (self.new.is_over ≡ true) ⊎ IsRunOut self.old self.new }
    {
        self.outbound.rto.backed_off();
        let answer = self.machine.timed_out();
        owe_again(&mut self.due, answer.reply);
        self.control.stop();
        if answer.told.is_some() {
            self.end(Ending::Unanswered);
        }
    }

    // The timer of the state runs, where it has one.
    fn start_control(&mut self, now: u64)
        ensures closed { self.old.machine.state ≡ Closed → self.new.control.at ≡ None }
        ensures runs { self.new.control.at ≡ run_in (timer self.old.machine.state) now
            self.old.outbound.rto.rto self.old.control.at }
        ensures rest { self.new ≡ record self.old { control = self.new.control } }
    {
        match self.machine.state().timer() {
            Some(_) => self.control.start(now, self.outbound.rto.get()),
            None => self.control.stop(),
        }
    }

    // Whether the peer failed to answer once too often: a HEARTBEAT, or a request to reset. The RTO doubles (RFC 9260 8.1, 8.3; RFC 6525 5.1.1).
    fn has_failed(&mut self, now: u64) -> bool
        ensures rest { self.new ≡ record self.old {
          outbound = record self.old.outbound {
            rto = self.new.outbound.rto;
            failures = self.new.outbound.failures;
          };
          requests = self.new.requests;
          heartbeat = self.new.heartbeat;
        } }
        ensures requests { self.new.requests ≡ after_failed now self.old.requests }
        ensures asked { has_failed now self.old.requests.under_way ≡ true
            → self.new.outbound.failures ≡ one_more self.old.outbound.failures }
        ensures counted { self.new.outbound.failures ≡ self.old.outbound.failures
            ⊎ self.new.outbound.failures ≡ one_more self.old.outbound.failures }
        ensures more { self.old.outbound.failures.count ≤ self.new.outbound.failures.count }
        ensures passed { result ≡ false → is_passed self.old.outbound.failures ≡ false
            → is_passed self.new.outbound.failures ≡ false }
        ensures backs_off { self.new.outbound.rto ≡ doubled_where
            (is_unanswered now self.old.outbound.rto.rto self.old) self.old.outbound.rto }
        ensures fails { self.new.outbound.failures ≡ counted_where
            (is_unanswered now self.old.outbound.rto.rto self.old) self.old.outbound.failures }
        ensures heartbeat { self.new.heartbeat ≡ missed_where (is_missed now
            self.old.machine.state self.old.outbound.rto.rto self.old.heartbeat)
            self.old.heartbeat }
    {
        let is_asked = self.requests.failed(now);
        let is_missed = self.has_missed(now);
        if !is_asked && !is_missed {
            return false;
        }
        self.outbound.count_failure()
    }

    // Whether the next HEARTBEAT is due, and the last one was not answered: that is noted once (RFC 9260 8.3).
    fn has_missed(&mut self, now: u64) -> bool
        ensures rest { self.new ≡ record self.old { heartbeat = self.new.heartbeat } }
        ensures value { result ≡ is_missed now self.old.machine.state
            self.old.outbound.rto.rto self.old.heartbeat }
        ensures heartbeat { self.new.heartbeat ≡ missed_where result self.old.heartbeat }
    {
        let is_late = match self.next_heartbeat() {
            Some(at) => at <= now,
            None => false,
        };
        let Some(heartbeat) = &mut self.heartbeat else {
            return false;
        };
        if !is_late || !heartbeat.is_unanswered() {
            return false;
        }
        heartbeat.failed();
        true
    }

    // The peer answers nothing any more (RFC 9260 8.1).
    fn fail(&mut self)
        ensures tells { TellsEnd self.old self.new }
        ensures over { self.new.is_over ≡ true }
        ensures unanswered { IsUnanswered self.new }
        ensures outbound { self.new.outbound ≡ self.old.outbound }
        ensures inbound { self.new.inbound ≡ self.old.inbound }
        ensures events { self.new.events ≡ record self.old.events { closed = Some Unanswered } }
        ensures peer { KeepsPeer self.old self.new }
    {
        let _answer = self.machine.abort();
        self.end(Ending::Unanswered);
    }
}
