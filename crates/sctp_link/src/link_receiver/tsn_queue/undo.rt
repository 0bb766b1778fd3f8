//! TSNs come one after another, and are taken back.

ghost use Rattle.std.specs.Prelude.{◌≡◌, ◌<◌, ◌≤◌, ◌+◌, ◌-◌, ◌^◌, ◌++◌, true, OnErr, OnOk, IfOk, IsOkUnless, length, map};
ghost use Rattle.sctp_util.specs.declared.error.Error.TheVariants.{ErrOutOfMemory};
ghost use Rattle.sctp_serial.specs.DataChunks.{following_tsn, tsns};
ghost use Rattle.sctp_receiver.specs.TsnFilter.{placeholder, rise_beyond};
ghost use Rattle.sctp_receiver.specs.TsnRuns.{tsns_from};
ghost use Rattle.sctp_link.specs.Tsns.{with_arrivals, each_undone, CanUndoEach};

use super::{TsnQueue, placeholder};
use sctp_chunks::chunk::chunk_payload_data::ChunkPayloadData;
use sctp_queues::payload_queue::PayloadQueue;
use sctp_serial::serial::distance;
use sctp_stream::stream_numbers::put;
use sctp_util::error::Result;

/// What a TSN changed, so that it can be taken back.
#[derive(Clone, Copy)]
pub(crate) enum TsnUndo {
    /// Nothing: it was opposite to the cumulative TSN.
    Nothing,
    /// It came again, and was noted.
    Repeat,
    /// It stands beyond the cumulative TSN.
    Beyond { tsn: u32 },
    /// It was expected next; and what the cumulative TSN was.
    Next { cumulative_tsn: u32 },
}

impl TsnQueue {
    ghost use Rattle.sctp_link.specs.Tsns.{with_arrival, undo_of, undone, CanUndo};

    // A TSN comes, new or again; one that is opposite to the cumulative TSN changes nothing. Answers how it is taken
    // back. Refuses only for memory, and nothing changes then.
    fn take(&mut self, tsn: u32) -> Result<TsnUndo>
        ensures ok { OnOk result (self.new.filter ≡ with_arrival tsn self.old.filter) }
        ensures undo { IfOk result (λ u. undone u self.new.filter ≡ self.old.filter) }
        ensures can { IfOk result (λ u. CanUndo u self.new) }
        ensures places { OnOk result (self.old.places ≤ self.new.places) }
        ensures err { OnErr result (self.new ≡ self.old) }
        ensures memory { IsOkUnless result ErrOutOfMemory }
    {
        let opposite = self.is_opposite(tsn);
        if self.has_come(tsn) {
            self.record_duplicate(tsn)?;
            return Ok(TsnUndo::Repeat);
        }
        if opposite {
            return Ok(TsnUndo::Nothing);
        }
        let undo = self.undo_of(tsn);
        self.accept(tsn)?;
        Ok(undo)
    }

    // How a new TSN is taken back.
    fn undo_of(&self, tsn: u32) -> TsnUndo
        ensures { result ≡ undo_of tsn self.now.filter }
    {
        let cumulative_tsn = self.cumulative_tsn;
        if tsn == cumulative_tsn.wrapping_add(1) {
            TsnUndo::Next { cumulative_tsn }
        } else {
            TsnUndo::Beyond { tsn }
        }
    }

    // A TSN is taken back. It takes no memory.
    // Precondition: it was the last that came.
    fn take_back(&mut self, undo: TsnUndo)
        requires { CanUndo undo self.old }
        ensures value { self.new.filter ≡ undone undo self.old.filter }
        ensures places { self.new.places ≡ self.old.places }
    {
        match undo {
            TsnUndo::Nothing => {}
            TsnUndo::Repeat => self.queue.forget_last_duplicate(),
            TsnUndo::Beyond { tsn } => drop(self.queue.take_leaving_room(tsn)),
            TsnUndo::Next { cumulative_tsn } => {
                let passed = distance(cumulative_tsn, self.cumulative_tsn);
                put_back(&mut self.queue, cumulative_tsn, passed);
                self.cumulative_tsn = cumulative_tsn;
            }
        }
    }
}

/// The TSNs of chunks come, one after another. The list then says how each is taken back, and nothing else. Refuses only
/// for memory, and no TSN has come then.
pub(crate) fn take_each(
    tsns: &mut TsnQueue,
    chunks: &[ChunkPayloadData],
    undos: &mut Vec<TsnUndo>,
) -> Result<()>
    ensures ok { OnOk result (tsns.new.filter ≡ with_arrivals chunks.now tsns.old.filter) }
    ensures undo { OnOk result (each_undone undos.new.items tsns.new.filter
        ≡ tsns.old.filter) }
    ensures can { OnOk result (CanUndoEach undos.new.items tsns.new) }
    ensures err { OnErr result (tsns.new.filter ≡ tsns.old.filter) }
    ensures memory { IsOkUnless result ErrOutOfMemory }
{
    undos.clear();
    undos.reserve(chunks.len())?;
    for chunk in chunks {
        match tsns.take(chunk.tsn) {
            Ok(undo) => put(undos, undo),
            Err(refusal) => {
                take_back_each(tsns, undos);
                return Err(refusal);
            }
        }
    }
    Ok(())
}

/// TSNs are taken back, the last one first. It takes no memory.
/// Precondition: they were the last that came.
#[cold]
#[inline(never)]
pub(crate) fn take_back_each(tsns: &mut TsnQueue, undos: &mut Vec<TsnUndo>)
    requires { CanUndoEach undos.old.items tsns.old }
    ensures { tsns.new.filter ≡ each_undone undos.old.items tsns.old.filter }
{
    while let Some(undo) = undos.pop() {
        tsns.take_back(undo);
    }
}

// Marks TSNs that the cumulative one moved over, from so many past it down to the second one past it.
// Precondition: those that are held lie farther, and there is room.
fn put_back(queue: &mut PayloadQueue, cumulative_tsn: u32, count: u32)
    requires placeholders { queue.old.chunks ≡ map placeholder (tsns queue.old.chunks) }
    requires rise { rise_beyond cumulative_tsn 1
        (tsns_from (following_tsn (following_tsn cumulative_tsn)) (count - 1)
        ++ tsns queue.old.chunks) ≡ true }
    requires room { count - 1 ≤ queue.old.room }
    ensures placeholders { queue.new.chunks ≡ map placeholder
        (tsns_from (following_tsn (following_tsn cumulative_tsn)) (count - 1)
        ++ tsns queue.old.chunks) }
    ensures rest { queue.new
        ≡ record queue.old { chunks = queue.new.chunks; room = queue.old.room - (count - 1) } }
{
    let mut left = count;
    while left > 1 {
        let _ = queue.push(
            placeholder(cumulative_tsn.wrapping_add(left)),
            cumulative_tsn,
        );
        left -= 1;
    }
}
