//! Callers of `sctp_link`: a list of events, given to a link one after another; and a law, applied to the link at hand.

ghost use Rattle.std.specs.Prelude.{◌≡◌, ◌==◌};
ghost use Rattle.sctp_model.specs.Amounts.{ledger};
ghost use Rattle.sctp_model.specs.LinkRecord.{Setup};
ghost use Rattle.sctp_model.specs.Steps.{History, StandsFor};

use sctp_base::util::Checksum;
use sctp_link::event::Event;
use sctp_link::link::Link;
use sctp_model::laws::bytes_balance;

/// Gives events to a link, and counts those that it took. Where it stood for a history, it stands for one then:
/// so each law of `sctp_model` that holds of every history holds of what was read, acknowledged and released.
pub fn give<C: Checksum + Drop>(link: &mut Link<C>, events: Vec<Event>) -> usize
    ensures { (setup : Setup) (before : History) → StandsFor setup link.old.recorded before
        → (after : History) × StandsFor setup link.new.recorded after }
{
    let mut taken = 0usize;
    for event in events {
        let reply = link.step(event);
        if reply.is_ok() {
            taken = taken.saturating_add(1);
        }
        drop(reply);
    }
    taken
}

/// Whether nothing waits or is in flight. By the law of bytes, which speaks of whatever link is at hand, that is so exactly where all
/// bytes that were written were released.
pub fn is_settled<C: Checksum + Drop>(link: &Link<C>) -> bool
    ensures { result
        ≡ ((ledger link.now.recorded).written == (ledger link.now.recorded).released) }
{
    link.stands();
    bytes_balance();
    let answered = link.ledger();
    answered.pending == 0 && answered.in_flight == 0
}
