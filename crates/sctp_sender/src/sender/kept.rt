//! A sender that keeps what gap ack blocks reported, and what a SACK takes back of that (RFC 4960 6.2.1 D iv).

ghost use Rattle.std.specs.Prelude.{◌≡◌, [], ◌+◌, ◌^◌, ◌≤◌, ◌⊎◌, is_some, true, nat_lt, None, Some, IfOk, IfErr, IsOk, length};
ghost use Rattle.sctp_outbound.specs.outbound_queue.OutboundQueue.{total_bytes};
ghost use Rattle.sctp_sender.specs.Calls.{Acknowledges, CanUndo, CountsBack, CountsSack, IsAnew, Restores, TakesBack};
ghost use Rattle.sctp_sender.specs.Costs.{anew_turns, take_back_turns};
ghost use Rattle.sctp_sender.specs.Keeping.{after_returns, bytes_back, with_reported_again};
ghost use Rattle.sctp_sender.specs.declared.sender.refusal.SenderRefusal.TheVariants.{OutOfMemory};

use super::flight::anew::Anew;
use super::flight::kept::{TakenBack, Told, answered_back_counted, set_left, set_reported};
use super::outbound_streams::OutboundStreams;
use super::{Acked, Sender, release_each};
use crate::sender::refusal::SenderRefusal;
use sctp_data::chunk::chunk_selective_ack::{ChunkSelectiveAck, GapAckBlock};
use sctp_outbound::outbound_queue::OutboundQueue;
use sctp_serial::turns::Turns;
use std::alloc::Global;

/// What came back by a SACK.
#[derive(Drop)]
pub(crate) struct Back {
    /// What is told of it, and where it is in flight.
    pub told: Told,
    /// The blocks that reported until then what can come back; None where they stayed.
    pub before: Option<Vec<GapAckBlock>>,
}

impl Sender {
    ghost use Rattle.sctp_data.specs.SelectiveAck.{sack_of};
    ghost use Rattle.sctp_sender.specs.Flight.{is_outdated, sack_refusal};
    ghost use Rattle.sctp_sender.specs.Sender.{Transmission, taken_back_by, with_flight};

    /// `acked`, where what is reported is kept.
    pub(super) fn acked_keeping(
        &mut self,
        sack: &ChunkSelectiveAck,
        turns: &mut Turns,
    ) -> Result<Acked, SenderRefusal>
        ensures acks { Acknowledges (sack_of sack.now) self.old self.new result }
        ensures turns { CountsSack (sack_of sack.now) self.old turns.old turns.new }
    {
        let back = self.bring_back_counted(sack, turns)?;
        let mut released = match self.acked_in_flight_counted(sack, turns) {
            Ok(released) => released,
            Err(refusal) => {
                self.undo_back(back, turns);
                return Err(refusal);
            }
        };
        return_each(&mut self.streams, &back.told.answered, turns);
        release_each(&mut self.streams, &mut released);
        Ok(Acked {
            released,
            taken_back: back.told.answered,
        })
    }

    // Takes back what a SACK no longer reports (RFC 4960 6.2.1 D iv): each kept chunk of no abandoned message is in flight again, with
    // its bytes; past the last block, if any, none: a SACK may be cut (6.7). What is told of them is in order of TSNs; the streams stay.
    // Its turns are added, at most `take_back_turns`, but one for each that comes back: seven for each block, and where these do not
    // ascend four for each distance up to the greatest that they report; two for each chunk in flight that is acknowledged, and one for
    // each such that the SACK does not report; four for each that comes back; and one. What else is in flight costs nothing.
    pub(super) fn bring_back_counted(
        &mut self,
        sack: &ChunkSelectiveAck,
        turns: &mut Turns,
    ) -> Result<Back, SenderRefusal>
        ensures restores { Restores (sack_of sack.now) self.old self.new result }
        ensures undo { IfOk result (λ b. CanUndo b self.old self.new) }
        ensures turns { CountsBack (sack_of sack.now) self.old
            (length (taken_back_by (sack_of sack.now) self.old)) turns.old turns.new }
        ensures room { IfOk result (λ b. turns.new + length b.told.answered.items ≤ turns.old
            + take_back_turns (sack_of sack.now) self.old.flight (length b.told.answered.items)) }
    {
        let Some(kept) = &self.kept else {
            return Ok(nothing_back(self.alloc));
        };
        if !self.flight.is_current_counted(sack, turns)? {
            return Ok(nothing_back(self.alloc));
        }
        let backs = self
            .flight
            .coming_back_counted(self.alloc, sack, kept, turns)?;
        let left = self.flight.left_reported(self.alloc, kept, &backs, turns)?;
        let told = answered_back_counted(self.alloc, self.flight.queue(), &backs, turns)?;
        if !is_room_for(self.flight.queue(), &told.answered, turns) {
            return Err(SenderRefusal::QueueFull);
        }
        self.flight.restore_counted(backs, turns);
        let before = set_left(&mut self.flight, &mut self.kept, left);
        Ok(Back { told, before })
    }

    // The same, and each stream has more. `acked` does so before it takes the SACK. Its turns are added, at most `take_back_turns`.
    pub(crate) fn take_back_alone(
        &mut self,
        sack: &ChunkSelectiveAck,
        turns: &mut Turns,
    ) -> Result<Vec<TakenBack>, SenderRefusal>
        ensures takes { TakesBack (sack_of sack.now) self.old self.new result }
        ensures turns { CountsBack (sack_of sack.now) self.old
            (length (taken_back_by (sack_of sack.now) self.old)) turns.old turns.new }
    {
        let back = self.bring_back_counted(sack, turns)?;
        return_each(&mut self.streams, &back.told.answered, turns);
        Ok(back.told.answered)
    }

    // Undoes what `bring_back_counted` did, a turn for each chunk that came back.
    pub(super) fn undo_back(&mut self, back: Back, turns: &mut Turns)
        requires { (t : Transmission) × CanUndo back t self.old × (t.kept ≡ self.old.kept) }
        ensures undone { self.new ≡ with_flight
            (with_reported_again back.told.places.items self.old.flight) self.old }
        ensures cost { turns.new ≡ turns.old + length back.told.places.items }
    {
        self.flight.report_again_counted(&back.told.places, turns);
        set_reported(&mut self.kept, back.before);
    }

    // What a SACK makes of what is kept; None where that stays as it is: nothing is kept, or the SACK is out of date. Refuses what
    // `acked` refuses.
    pub(super) fn anew_by(
        &self,
        sack: &ChunkSelectiveAck,
        turns: &mut Turns,
    ) -> Result<Option<Anew>, SenderRefusal>
        ensures anew { IfOk result (λ anew. IsAnew (sack_of sack.now) self.now anew) }
        ensures refused { IfErr result
            (λ e. ((e ≡ OutOfMemory) × (sack_refusal (sack_of sack.now) self.now.flight ≡ None))
            ⊎ (sack_refusal (sack_of sack.now) self.now.flight ≡ Some e)) }
        ensures outdated { is_outdated (sack_of sack.now) self.now.flight ≡ true → IsOk result }
        ensures not_back { turns.old ≤ turns.new }
        ensures cost { turns.new ≤ turns.old + length (sack_of sack.now).gap_ack_blocks
            + anew_turns (sack_of sack.now) self.now.flight }
        ensures nothing_kept { self.now.kept ≡ None → turns.new ≡ turns.old }
        ensures stale { is_outdated (sack_of sack.now) self.now.flight ≡ true
            → turns.new ≡ turns.old }
        ensures forged { is_some (sack_refusal (sack_of sack.now) self.now.flight) ≡ true
            → turns.new ≤ turns.old + length (sack_of sack.now).gap_ack_blocks }
    {
        let Some(kept) = &self.kept else {
            return Ok(None);
        };
        if !self.flight.is_current_counted(sack, turns)? {
            return Ok(None);
        }
        let anew = self.flight.anew_counted(self.alloc, sack, kept, turns)?;
        Ok(Some(anew))
    }
}

// Nothing comes back. It takes no memory.
fn nothing_back(alloc: Global) -> Back
    ensures answered { result.told.answered.items ≡ [] }
    ensures places { result.told.places.items ≡ [] }
    ensures before { result.before ≡ None }
{
    Back {
        told: Told {
            answered: Vec::new(alloc),
            places: Vec::new(alloc),
        },
        before: None,
    }
}

// Whether all bytes, with those that come back, are at most the greatest usize, at most a turn for each chunk.
fn is_room_for(queue: &OutboundQueue, answered: &[TakenBack], turns: &mut Turns) -> bool
    ensures value { result ≡ nat_lt (total_bytes queue.now + bytes_back answered.now) (2 ^ 64) }
    ensures not_back { turns.old ≤ turns.new }
    ensures cost { turns.new ≤ turns.old + length answered.now }
{
    let Some(mut all) = queue.pending_bytes().checked_add(queue.inflight_bytes()) else {
        return false;
    };
    for one in answered {
        turns.tick();
        let Some(more) = all.checked_add(one.bytes) else {
            return false;
        };
        all = more;
    }
    true
}

// Adds to each stream what came back of it, a turn for each chunk.
fn return_each(streams: &mut OutboundStreams, answered: &[TakenBack], turns: &mut Turns)
    ensures value { streams.new ≡ after_returns answered.now streams.old }
    ensures cost { turns.new ≡ turns.old + length answered.now }
{
    for one in answered {
        turns.tick();
        streams.raise(one.stream, one.bytes);
    }
}
