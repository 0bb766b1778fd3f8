//! The TSNs that a receiver has, in a payload queue (RFC 9260 6.2).

ghost use Rattle.std.specs.Prelude.{◌≡◌, ◌==◌, ◌<◌, ◌≤◌, ◌+◌, ◌^◌, ◌∷◌, ◌++◌, [], ℕ, true, false, OnOk, OnErr, IsOkUnless, length, map};
ghost use Rattle.sctp_util.specs.declared.error.Error.TheVariants.{ErrOutOfMemory};
ghost use Rattle.sctp_util.specs.Lists.{advance_over};
ghost use Rattle.sctp_serial.specs.DataChunks.{preceding_tsn, tsns};
ghost use Rattle.sctp_receiver.specs.TsnFilter.{placeholder, rise_beyond};
ghost use Rattle.sctp_link.specs.Tsns.{came};

pub(crate) mod undo;

use bytes::Bytes;
use sctp_chunks::chunk::chunk_payload_data::{ChunkPayloadData, PayloadProtocolIdentifier};
use sctp_queues::payload_queue::PayloadQueue;
use sctp_serial::serial::distance;
use sctp_serial::turns::Turns;
use sctp_util::error::Result;
use sctp_util::util::{sna32lt, sna32lte};
use std::alloc::Global;
use std::marker::Model;

/// Which TSNs came: all up to the cumulative one, those that the queue holds beyond it, and those that came again
/// since the last SACK. The queue keeps of a chunk its TSN alone.
#[derive(Drop)]
pub(crate) struct TsnQueue {
    queue: PayloadQueue,
    cumulative_tsn: u32,
}

impl Model for TsnQueue {
    ghost use Rattle.std.specs.Prelude.{◌≡◌, ◌<◌, ◌+◌, ◌^◌, true, length, map};
    ghost use Rattle.sctp_serial.specs.DataChunks.{tsns};
    ghost use Rattle.sctp_receiver.specs.TsnFilter.{placeholder, rise_beyond};
    ghost use Rattle.sctp_link.specs.Tsns.{Kept, came_in};

    ghost Value = { Kept };

    ghost view = { λ f. record {
      filter = came_in f.cumulative_tsn f.queue;
      places = length f.queue.chunks + f.queue.room;
    } };

    ghost invariant = { λ f. record {
      in_range : f.cumulative_tsn < 2 ^ 32;
      placeholders : f.queue.chunks
          ≡ map placeholder (tsns f.queue.chunks);
      rise : rise_beyond f.cumulative_tsn 1
          (tsns f.queue.chunks) ≡ true;
    } };
}

impl TsnQueue {
    ghost use Rattle.sctp_receiver.specs.TsnFilter.{has_come, is_opposite, with_tsn, with_duplicate};
    ghost use Rattle.sctp_link.specs.Tsns.{with_skip};

    /// Nothing came: the first TSN is expected next. It takes no memory.
    pub(crate) fn new(alloc: Global, first_tsn: u32) -> Self
        ensures { result.filter ≡ came (preceding_tsn first_tsn) [] [] }
    {
        TsnQueue {
            queue: PayloadQueue::new(alloc),
            cumulative_tsn: first_tsn.wrapping_sub(1),
        }
    }

    /// The TSNs beyond the cumulative one, each as a chunk that says nothing else, and those that came again.
    pub(crate) fn queue(&self) -> &PayloadQueue
        ensures beyond { result.now.chunks ≡ map placeholder self.now.filter.beyond }
        ensures duplicates { result.now.duplicates ≡ self.now.filter.duplicates }
    {
        &self.queue
    }

    // Whether a TSN came. For the one that is expected next nothing is looked up.
    fn has_come(&self, tsn: u32) -> bool
        ensures { result ≡ has_come tsn self.now.filter }
    {
        if tsn == self.cumulative_tsn.wrapping_add(1) {
            return false;
        }
        sna32lte(tsn, self.cumulative_tsn)
            || self.queue.get_counted(tsn, &mut Turns::new()).is_some()
    }

    // Whether a TSN is neither before nor after the cumulative one.
    fn is_opposite(&self, tsn: u32) -> bool
        ensures value { result ≡ is_opposite tsn self.now.filter }
        ensures tsn_fits { tsn < 2 ^ 32 }
        ensures cumulative_fits { self.now.filter.cumulative_tsn < 2 ^ 32 }
        ensures rise { rise_beyond self.now.filter.cumulative_tsn 1 self.now.filter.beyond
            ≡ true }
        ensures places { length self.now.filter.beyond ≤ self.now.places }
    {
        distance(self.cumulative_tsn, tsn) == 1 << 31
    }

    // A new TSN comes. The cumulative TSN moves over the one that is expected next, and over all that stand next to
    // it. Refuses only for memory, and nothing changes then.
    // Precondition: it did not come (`has_come`), and is not opposite to the cumulative one (`is_opposite`).
    fn accept(&mut self, tsn: u32) -> Result<()>
        requires new { has_come tsn self.old.filter ≡ false }
        requires near { is_opposite tsn self.old.filter ≡ false }
        ensures ok { OnOk result (self.new.filter ≡ with_tsn tsn self.old.filter) }
        ensures places { OnOk result (self.old.places ≤ self.new.places) }
        ensures err { OnErr result (self.new ≡ self.old) }
        ensures memory { IsOkUnless result ErrOutOfMemory }
    {
        if tsn == self.cumulative_tsn.wrapping_add(1) {
            self.cumulative_tsn = advance(&mut self.queue, tsn);
            return Ok(());
        }
        let from = self.cumulative_tsn;
        self.queue.push(placeholder(tsn), from)?;
        Ok(())
    }

    // A TSN comes again. Refuses only for memory, and nothing changes then.
    // Precondition: it came (`has_come`).
    fn record_duplicate(&mut self, tsn: u32) -> Result<()>
        requires { has_come tsn self.old.filter ≡ true }
        ensures ok { OnOk result (self.new.filter ≡ with_duplicate tsn self.old.filter) }
        ensures places { OnOk result (self.new.places ≡ self.old.places) }
        ensures err { OnErr result (self.new ≡ self.old) }
        ensures memory { IsOkUnless result ErrOutOfMemory }
    {
        let from = self.cumulative_tsn;
        self.queue.push(placeholder(tsn), from)?;
        Ok(())
    }

    /// All up to a TSN counts as come, where it is later than the cumulative one. It takes no memory.
    pub(crate) fn skip_to(&mut self, tsn: u32)
        ensures value { self.new.filter ≡ with_skip tsn self.old.filter }
        ensures tsn_fits { tsn < 2 ^ 32 }
        ensures cumulative_fits { self.old.filter.cumulative_tsn < 2 ^ 32 }
    {
        if !sna32lt(self.cumulative_tsn, tsn) {
            return;
        }
        self.queue.pop_up_to(tsn);
        self.cumulative_tsn = advance(&mut self.queue, tsn);
    }

    /// The TSNs that came again are forgotten. It takes no memory.
    pub(crate) fn forget_duplicates(&mut self)
        ensures { self.new.filter ≡ record self.old.filter { duplicates = [] } }
    {
        let count = self.queue.duplicates().len();
        self.queue.forget_duplicates(count);
    }
}

// A chunk that says its TSN and nothing else.
fn placeholder(tsn: u32) -> ChunkPayloadData
    ensures { result ≡ placeholder tsn }
{
    ChunkPayloadData {
        unordered: false,
        beginning_fragment: false,
        ending_fragment: false,
        immediate_sack: false,
        tsn,
        stream_identifier: 0,
        stream_sequence_number: 0,
        payload_type: PayloadProtocolIdentifier::Unknown,
        user_data: Bytes::new(),
        acked: false,
        miss_indicator: 0,
        message_id: 0,
        abandoned: false,
        since: None,
        reliability: None,
        deadline: None,
        nsent: 0,
        retransmit: false,
    }
}

// Moves the cumulative TSN over the chunks that stand next to it, which leave the queue: their places are room then.
fn advance(queue: &mut PayloadQueue, cumulative_tsn: u32) -> u32
    ensures moved { advance_over cumulative_tsn (tsns queue.old.chunks)
        ≡ record { cum = result; held = tsns queue.new.chunks } }
    ensures placeholders { queue.old.chunks ≡ map placeholder (tsns queue.old.chunks)
        → queue.new.chunks ≡ map placeholder (tsns queue.new.chunks) }
    ensures rest { queue.new
        ≡ record queue.old { chunks = queue.new.chunks; room = queue.new.room } }
    ensures places { length queue.new.chunks + queue.new.room
        ≡ length queue.old.chunks + queue.old.room }
{
    let mut cumulative_tsn = cumulative_tsn;
    while let Some(_) = queue.pop_leaving_room(cumulative_tsn.wrapping_add(1)) {
        cumulative_tsn = cumulative_tsn.wrapping_add(1);
    }
    cumulative_tsn
}
