//! A TSN that came is taken back.

ghost use Rattle.std.specs.Prelude.{◌≡◌, ◌<◌, ◌≤◌, ◌-◌, ◌^◌, ◌++◌, true, length, take};
ghost use Rattle.std.specs.VecDeque.{deque_capacity};
ghost use Rattle.sctp_receiver.specs.TsnFilter.{rise_beyond};
ghost use Rattle.sctp_receiver.specs.TsnRuns.{AreRuns, count_of_runs, tsns_of};
ghost use Rattle.sctp_receiver.specs.Undo.{passed, undo_of};

use super::TsnFilter;
use super::runs::{Run, take_tsn};
use sctp_serial::serial::distance;
use sctp_serial::turns::Turns;
use std::collections::VecDeque;

/// What a new TSN makes of the filter, so that `retract` can take it back.
#[derive(Clone, Copy)]
pub enum FilterUndo {
    /// A TSN stands beyond the cumulative one; and for how many runs there was memory.
    Beyond { tsn: u32, room: usize },
    /// The TSN that was expected next came; what the cumulative one was, and for how many runs there was memory.
    Next { cumulative_tsn: u32, room: usize },
}

impl TsnFilter {
    ghost use Rattle.sctp_receiver.specs.Undo.{retracted, CanRetract};

    /// How a new TSN is taken back, once it has come.
    pub(crate) fn undo_of(&self, tsn: u32) -> FilterUndo
        ensures value { result ≡ undo_of tsn self.now }
        ensures tsn_fits { tsn < 2 ^ 32 }
        ensures in_range { self.now.cumulative_tsn < 2 ^ 32 }
        ensures rise { rise_beyond self.now.cumulative_tsn 1 self.now.beyond ≡ true }
        ensures runs { count_of_runs self.now.cumulative_tsn self.now.beyond ≤ self.now.room }
    {
        let cumulative_tsn = self.cumulative_tsn;
        let room = self.room;
        if tsn == cumulative_tsn.wrapping_add(1) {
            FilterUndo::Next {
                cumulative_tsn,
                room,
            }
        } else {
            FilterUndo::Beyond { tsn, room }
        }
    }

    /// A TSN that came is taken back. It takes no memory.
    pub(crate) fn retract(&mut self, undo: FilterUndo)
        requires { CanRetract undo self.old }
        ensures { self.new ≡ retracted undo self.old }
    {
        match undo {
            FilterUndo::Beyond { tsn, room } => {
                take_tsn(&mut self.runs, self.cumulative_tsn, tsn, &mut Turns::new());
                self.room = room;
            }
            FilterUndo::Next {
                cumulative_tsn,
                room,
            } => {
                put_back(&mut self.runs, cumulative_tsn, self.cumulative_tsn);
                self.cumulative_tsn = cumulative_tsn;
                self.room = room;
            }
        }
    }

    /// The TSN that was noted last as a duplicate is noted no more. It takes no memory.
    pub(crate) fn forget_last_duplicate(&mut self)
        ensures { self.new ≡ record self.old {
          duplicates = take (length self.old.duplicates - 1) self.old.duplicates;
        } }
    {
        let _ = self.duplicates.pop();
    }
}

// Puts in the TSNs that the cumulative one moved over: from the second one past it up to the last.
// Precondition: those that are held lie farther, and there is room.
fn put_back(runs: &mut VecDeque<Run>, cumulative_tsn: u32, last: u32)
    requires runs { AreRuns last 0 runs.old.items }
    requires rise { rise_beyond cumulative_tsn 1
        (passed cumulative_tsn last ++ tsns_of runs.old.items) ≡ true }
    requires room { count_of_runs cumulative_tsn
        (passed cumulative_tsn last ++ tsns_of runs.old.items) ≤ deque_capacity runs.old }
    ensures tsns { tsns_of runs.new.items
        ≡ passed cumulative_tsn last ++ tsns_of runs.old.items }
    ensures runs { AreRuns cumulative_tsn 0 runs.new.items }
    ensures capacity { deque_capacity runs.new ≡ deque_capacity runs.old }
{
    if distance(cumulative_tsn, last) > 1 {
        runs.push_front_reserved(Run {
            first: cumulative_tsn.wrapping_add(2),
            last,
        });
    }
}
