//! What a sender sends again, and when (RFC 4960 6.3.3, 7.2.4).

ghost use Rattle.std.specs.Prelude.{◌≡◌, ◌+◌, ◌*◌, ◌≤◌, true, None, Some, OnOk, OnErr, IfOk, IfErr, IfSome, IsOk, find, option_copied, option_map, if◌then◌else◌};
ghost use Rattle.sctp_data.specs.declared.chunk.chunk_payload_data.ChunkPayloadData.{ChunkPayloadData};
ghost use Rattle.sctp_sender.specs.declared.sender.refusal.SenderRefusal.TheVariants.{NotInFlight, OutOfMemory};
ghost use Rattle.sctp_serial.specs.DataChunks.{has_tsn};

use super::Sender;
use crate::sender::refusal::SenderRefusal;
use sctp_data::chunk::chunk_payload_data::ChunkPayloadData;
use sctp_outbound::payload_queue::outstanding::Outstanding;
use sctp_serial::turns::Turns;

impl Sender {
    ghost use Rattle.sctp_sender.specs.Calls.{Misses};
    ghost use Rattle.sctp_outbound.specs.Outstanding.{outstanding_of};
    ghost use Rattle.sctp_sender.specs.Flight.{can_resend};
    ghost use Rattle.sctp_sender.specs.Sender.{with_flight};
    ghost use Rattle.sctp_sender.specs.Resending.{all_marked, count_again, count_before, is_to_resend, next_within, resent_at, sent_again};

    /// Sends the chunk in flight with a TSN again: it is counted, `now` is noted, in nanoseconds, and it is no longer marked for
    /// retransmission. Answers it as it is noted then. Refuses with `NotInFlight`, where none is, or it is acknowledged or
    /// abandoned; and for memory. The sender is as it was then.
    pub fn resend(&mut self, tsn: u32, now: u64) -> Result<ChunkPayloadData, SenderRefusal>
        ensures answer { IfOk result (λ again. (c : ChunkPayloadData)
            → find (has_tsn tsn) self.old.flight.queue.inflight.chunks ≡ Some c
            → again ≡ sent_again (count_again c) now c) }
        ensures noted { IfOk result (λ again.
            find (has_tsn tsn) self.new.flight.queue.inflight.chunks ≡ Some again) }
        ensures ok { OnOk result ((c : ChunkPayloadData)
            → find (has_tsn tsn) self.old.flight.queue.inflight.chunks ≡ Some c
            → self.new ≡ with_flight (resent_at tsn now c self.old.flight) self.old) }
        ensures accepted { IsOk result → can_resend tsn self.old.flight ≡ true }
        ensures refused { IfErr result (λ e. e
            ≡ (if can_resend tsn self.old.flight then OutOfMemory else NotInFlight)) }
        ensures err { OnErr result (self.new ≡ self.old) }
    {
        self.flight.resend(tsn, now)
    }

    /// Sends again the first chunk in flight that is marked for retransmission and outstanding, as `resend` does. None where none is,
    /// or where that chunk, 16 bytes and its padded user data, takes more than `room` bytes of a packet; nothing changes then. Refuses
    /// only for memory, and the sender is as it was then.
    pub fn resend_next(
        &mut self,
        now: u64,
        room: usize,
    ) -> Result<Option<ChunkPayloadData>, SenderRefusal>
        ensures answer { IfOk result (λ again. again
            ≡ option_map (λ c. sent_again (count_again c) now c)
            (next_within room self.old.flight)) }
        ensures noted { IfOk result (λ again. IfSome again
            (λ c. find (has_tsn c.tsn) self.new.flight.queue.inflight.chunks ≡ Some c)) }
        ensures ok { OnOk result ((c : ChunkPayloadData)
            → next_within room self.old.flight ≡ Some c
            → self.new ≡ with_flight (resent_at c.tsn now c self.old.flight) self.old) }
        ensures none { next_within room self.old.flight ≡ None → self.new ≡ self.old }
        ensures marked { (c : ChunkPayloadData) → next_within room self.old.flight ≡ Some c
            → (find (has_tsn c.tsn) self.old.flight.queue.inflight.chunks ≡ Some c)
            × (can_resend c.tsn self.old.flight ≡ true) }
        ensures idle { next_within room self.old.flight ≡ None → IsOk result }
        ensures refused { IfErr result (λ e. e ≡ OutOfMemory) }
        ensures err { OnErr result (self.new ≡ self.old) }
    {
        let Some(tsn) = self.tsn_to_resend(room) else {
            return Ok(None);
        };
        let again = self.resend(tsn, now)?;
        Ok(Some(again))
    }

    // The TSN of the chunk that is sent again next within so many bytes: the one in flight with this TSN, and it can be sent again.
    fn tsn_to_resend(&mut self, room: usize) -> Option<u32>
        ensures same { self.new ≡ self.old }
        ensures tsn { result ≡ option_map (λ c. c.tsn) (next_within room self.old.flight) }
        ensures own { (c : ChunkPayloadData) → next_within room self.old.flight ≡ Some c
            → find (has_tsn c.tsn) self.old.flight.queue.inflight.chunks ≡ Some c }
        ensures again { (c : ChunkPayloadData) → next_within room self.old.flight ≡ Some c
            → can_resend c.tsn self.old.flight ≡ true }
    {
        self.flight.tsn_to_resend(room)
    }

    /// What is in flight, and neither acknowledged nor abandoned: the bytes and the number of the chunks that are not marked for
    /// retransmission, and how many are marked. The bytes are the flight size that a congestion window limits: they fall when chunks are
    /// marked, and rise as these are sent again (RFC 9260 6.2.1 B, 7.2). It is a look, however much is in flight, and takes no memory.
    pub fn outstanding(&self) -> Outstanding
        ensures { result ≡ outstanding_of self.now.flight.queue.inflight.chunks }
    {
        self.flight.queue().outstanding()
    }

    /// Marks each outstanding chunk in flight for retransmission, as where the timer T3-rtx runs out (RFC 4960 6.3.3 E3). It takes no
    /// memory.
    pub fn retransmit_all(&mut self)
        ensures { self.new ≡ with_flight (all_marked self.old.flight) self.old }
    {
        self.flight.retransmit_all();
    }

    /// The first chunk in flight that is marked for retransmission and outstanding; `resend` sends it again, and takes the mark.
    pub(crate) fn next_to_retransmit(&self) -> Option<&ChunkPayloadData>
        ensures { option_copied result ≡ find is_to_resend self.now.flight.queue.inflight.chunks }
    {
        self.flight.next_to_retransmit()
    }

    /// Counts each outstanding chunk in flight whose TSN is before this one as missing once more, up to 3, and marks for
    /// retransmission what is missing for the third time (RFC 4960 7.2.4). Answers how many are newly marked: more than none begins
    /// fast recovery. Hand in the highest TSN that the SACK reports anew, in fast recovery the highest that it reports. It takes no
    /// memory.
    pub fn add_miss_indications(&mut self, before: u32) -> usize
        ensures { Misses before self.old self.new result }
    {
        self.add_miss_indications_counted(before, &mut Turns::new())
    }

    /// The same, and its turns are added: at most two for each chunk in flight whose TSN is before this one. The look-up by which a chunk
    /// is counted takes none.
    pub(crate) fn add_miss_indications_counted(&mut self, before: u32, turns: &mut Turns) -> usize
        ensures misses { Misses before self.old self.new result }
        ensures not_back { turns.old ≤ turns.new }
        ensures cost { turns.new ≤ turns.old + 2 * count_before before self.old.flight }
    {
        self.flight.add_miss_indications_counted(before, turns)
    }
}
