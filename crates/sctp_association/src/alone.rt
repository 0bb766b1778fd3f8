//! A caller of an association whose peer is gone: the association ends, once as many of its timers expired as were left.
//!
//! `now` is a moment in nanoseconds, by the caller's clock.

ghost use Rattle.sctp_association.specs.Silence.{GoesOnAlone};
ghost use Rattle.sctp_association.specs.Lasting.{LastsNoLonger};

use crate::association::Association;
use crate::laws::{an_association_keeps_its_limits, an_unanswered_association_ends};

// All datagrams that leave at `now` are lost. No more leave than `most_packets` says.
fn lose(one: &mut Association, now: u64)
    ensures { LastsNoLonger one.old one.new }
{
    loop {
        let Ok(true) = one.poll_transmit(now) else {
            break;
        };
    }
}

/// Lets an association go on alone: at each of these moments, in nanoseconds, its timers are looked at, and what leaves then is lost. It is over where
/// as many timers expired as were left (`laws::an_unanswered_association_ends`): of T3-rtx, and of T1-init, T1-cookie or T2-shutdown. So it ends by the
/// limits of its `Config`, where it had them from `new` on (`laws::an_association_keeps_its_limits`).
pub fn go_on_alone(one: &mut Association, moments: &[u64])
    ensures { GoesOnAlone moments.now one.old one.new }
{
    an_unanswered_association_ends();
    an_association_keeps_its_limits();
    for now in moments {
        one.handle_timeout(*now);
        lose(one, *now);
    }
}
