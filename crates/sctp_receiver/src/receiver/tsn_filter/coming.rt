//! A new TSN comes: room for it is made first, so that then nothing is refused.

ghost use Rattle.std.specs.Prelude.{◌≡◌, ◌==◌, ◌≤◌, ◌+◌, false, OnOk, OnErr, IsOkUnless, length};
ghost use Rattle.sctp_util.specs.declared.error.Error.TheVariants.{ErrOutOfMemory};
ghost use Rattle.sctp_reassembly.specs.reassembly_queue.Orders.{digits};
ghost use Rattle.sctp_receiver.specs.TsnRuns.{count_of_runs};
ghost use Rattle.sctp_serial.specs.DataChunks.{following_tsn};

use super::TsnFilter;
use super::runs::{pass, put, reserve};
use sctp_serial::turns::Turns;
use sctp_util::error::Result;

impl TsnFilter {
    ghost use Rattle.sctp_receiver.specs.TsnFilter.{HasRoomFor, MakesRoom, has_come, is_opposite, with_tsn};

    /// For how many runs there is memory, at least.
    pub(crate) fn room(&self) -> usize
        ensures value { result ≡ self.now.room }
        ensures runs { count_of_runs self.now.cumulative_tsn self.now.beyond ≤ self.now.room }
    {
        self.room
    }

    /// Makes room for a TSN that is to come: for one run more, unless it is expected next, since that one is put nowhere. Refuses only
    /// for memory.
    pub(crate) fn make_room(&mut self, tsn: u32) -> Result<()>
        ensures ok { OnOk result (MakesRoom tsn self.old self.new) }
        ensures wants { OnErr result
            ((tsn == following_tsn self.old.cumulative_tsn) ≡ false) }
        ensures err { OnErr result (self.new ≡ self.old) }
        ensures memory { IsOkUnless result ErrOutOfMemory }
    {
        if tsn == self.cumulative_tsn.wrapping_add(1) {
            return Ok(());
        }
        self.room = reserve(&mut self.runs, self.room)?;
        Ok(())
    }

    /// Notes less room again, where a TSN for which it was made does not come.
    /// Precondition: so much was noted before.
    pub(crate) fn set_room(&mut self, room: usize)
        requires less { room ≤ self.old.room }
        requires runs { count_of_runs self.old.cumulative_tsn self.old.beyond ≤ room }
        ensures { self.new ≡ record self.old { room = room } }
    {
        self.room = room;
    }

    /// A new TSN comes. The one that is expected next is put nowhere: the cumulative TSN moves over it, and over the run that stands next
    /// to it. It takes no memory. Its turns are added: at most one more than the number of TSNs beyond has binary digits, however many of
    /// them leave.
    /// Precondition: it did not come (`has_come`), is not opposite to the cumulative one (`is_opposite`), and there is room for it.
    pub(crate) fn accept(&mut self, tsn: u32, turns: &mut Turns)
        requires new { has_come tsn self.old ≡ false }
        requires near { is_opposite tsn self.old ≡ false }
        requires room { HasRoomFor tsn self.old }
        ensures value { self.new ≡ with_tsn tsn self.old }
        ensures not_back { turns.old ≤ turns.new }
        ensures cost { turns.new ≤ turns.old + digits (length self.old.beyond) + 1 }
    {
        let from = self.cumulative_tsn;
        if tsn == from.wrapping_add(1) {
            self.cumulative_tsn = pass(&mut self.runs, from, tsn, turns);
            return;
        }
        put(&mut self.runs, from, tsn, turns);
    }
}
