//! What is sent again (RFC 9260 4, 5.1, 9.2).

ghost use Rattle.std.specs.Prelude.{◌≡◌};

use super::Machine;
use crate::answer::{Answer, Reply, Told};
use crate::state::State;

impl Machine {
    ghost use Rattle.sctp_handshake.specs.Timeouts.{again, on_timed_out, on_packet_arrived};
    ghost use Rattle.sctp_handshake.specs.Machines.{Takes};

    // Sends something again, at most so many times.
    fn again(&mut self, most: u32, reply: Reply) -> Answer
        ensures { Takes (again most reply self.old) self.new result }
    {
        if self.attempts >= most {
            self.close();
            return Answer::noticed(Told::Failed);
        }
        self.attempts += 1;
        Answer::replied(reply)
    }

    /// The timer of the state ran out: what waits for its answer is sent again, at most Max.Init.Retransmits times in `CookieWait` and in
    /// `CookieEchoed` (RFC 9260 4), and Association.Max.Retrans times in `ShutdownSent` and in `ShutdownAckSent` (9.2); then the
    /// association fails. Where no timer runs the call does nothing.
    pub fn timed_out(&mut self) -> Answer
        ensures { Takes (on_timed_out self.old) self.new result }
    {
        let limits = self.limits;
        match self.state {
            State::CookieWait => self.again(limits.max_init_retransmits, Reply::Init),
            State::CookieEchoed => self.again(limits.max_init_retransmits, Reply::CookieEcho),
            State::ShutdownSent => self.again(limits.association_max_retrans, Reply::Shutdown),
            State::ShutdownAckSent => {
                self.again(limits.association_max_retrans, Reply::ShutdownAck)
            }
            _ => Answer::silent(),
        }
    }

    /// A packet of the peer came. In `ShutdownSent` T2-shutdown begins anew, and DATA in the packet is answered by a SHUTDOWN at once
    /// (RFC 9260 9.2). In other states the call does nothing.
    pub fn packet_arrived(&mut self, has_data: bool) -> Answer
        ensures { Takes (on_packet_arrived has_data self.old) self.new result }
    {
        if self.state != State::ShutdownSent {
            return Answer::silent();
        }
        self.attempts = 0;
        if has_data {
            Answer::replied(Reply::Shutdown)
        } else {
            Answer::silent()
        }
    }
}
