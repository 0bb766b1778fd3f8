//! Skips of ordered messages that are noted one after another, and then made at once.

ghost use Rattle.std.specs.Prelude.{◌≡◌, ℕ, ◌+◌, ◌*◌, ◌≤◌, ◌||◌, Some, length};
ghost use Rattle.sctp_util.specs.Serial.{at_or_before16};
ghost use Rattle.sctp_reassembly.specs.reassembly_queue.Costs.{ordered_skip_walk};
ghost use Rattle.sctp_reassembly.specs.reassembly_queue.Orders.{IsOrderly};
ghost use Rattle.sctp_reassembly.specs.reassembly_queue.OrderedSkips.{is_in, after_noted_skips, after_noted};

use crate::reassembly_queue::{ReassemblyQueue, ssn_past};
use sctp_serial::turns::Turns;

/// A stretch on the circle of stream sequence numbers: those at or before the last one, half of the circle, and so many more before them.
/// The numbers at or before any of several ones are always such a stretch, at most the whole circle.
#[derive(Clone, Copy)]
pub struct SsnSpan {
    last: u16,
    more: u16,
}

impl SsnSpan {
    /// The numbers at or before one.
    pub(crate) fn upto(last: u16) -> Self
        ensures { result ≡ record { last = last; more = 0 } }
    {
        SsnSpan { last, more: 0 }
    }

    /// Whether a number is in it.
    #[tactic(auto, unfolding(sctp_util::specs::Serial::distance16))]
    pub(crate) fn holds(self, ssn: u16) -> bool
        ensures { result ≡ is_in self ssn }
    {
        let before = self.last.wrapping_sub(ssn);
        u32::from(before) < (1 << 15) + u32::from(self.more)
    }

    /// With the numbers at or before another one. Where that lies ahead of the last one it is the last one then; else the stretch begins
    /// as early as half a circle before it.
    pub(crate) fn with(self, ssn: u16) -> Self
        ensures { (x : ℕ) → is_in result x ≡ (is_in self x || at_or_before16 x ssn) }
    {
        let ahead = ssn.wrapping_sub(self.last);
        if ahead < 1 << 15 {
            return SsnSpan {
                last: ssn,
                more: self.more.saturating_add(ahead),
            };
        }
        let behind = self.last.wrapping_sub(ssn);
        SsnSpan {
            last: self.last,
            more: self.more.max(behind),
        }
    }
}

/// What skips of a stream's ordered messages make of it together, however many they are: the number expected next after them, and the
/// stretch of the numbers that they pass.
#[derive(Clone, Copy)]
pub struct OrderedSkips {
    next_ssn: u16,
    passed: SsnSpan,
}

impl ReassemblyQueue {
    ghost use Rattle.sctp_reassembly.specs.reassembly_queue.ReassemblyQueue.{IsCounted, after_ordered_skip, complete_sets};

    /// Notes a skip up to `last_ssn` behind those that are noted. The queue stays as it is: `forward_tsn_for_ordered_noted_counted` makes
    /// them all. It looks at no message, and takes no memory.
    pub fn note_ordered_skip(&self, noted: Option<OrderedSkips>, last_ssn: u16) -> OrderedSkips
        ensures { after_noted (Some result) self.now
            ≡ after_ordered_skip last_ssn (after_noted noted self.now) }
    {
        match noted {
            Some(skips) => OrderedSkips {
                next_ssn: ssn_past(skips.next_ssn, last_ssn),
                passed: skips.passed.with(last_ssn),
            },
            None => OrderedSkips {
                next_ssn: ssn_past(self.next_ssn, last_ssn),
                passed: SsnSpan::upto(last_ssn),
            },
        }
    }

    /// Makes all skips that are noted, in one walk: each set is looked at once, however many they are. What it looks at is added: four
    /// turns for each set of ordered messages at most, where these are in order (`IsOrderly`), and `ordered_skip_walk` whatever the
    /// numbers. It takes no memory.
    pub fn forward_tsn_for_ordered_noted_counted(&mut self, noted: OrderedSkips, turns: &mut Turns)
        ensures value { self.new ≡ after_noted_skips noted self.old }
        ensures counted { IsCounted self.old → IsCounted self.new }
        ensures complete { complete_sets self.new.held ≡ complete_sets self.old.held }
        ensures not_back { turns.old ≤ turns.new }
        ensures few { IsOrderly self.old.held.ordered
            → turns.new ≤ turns.old + 4 * length self.old.held.ordered }
        ensures walk { turns.new ≤ turns.old + ordered_skip_walk self.old.held }
    {
        self.next_ssn = noted.next_ssn;
        let gone = self.ordered.discard(Some(noted.passed), None, turns);
        self.release(gone);
    }
}
