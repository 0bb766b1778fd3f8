//! What a receiver acknowledges (RFC 4960 3.3.4, 6.2).

ghost use Rattle.std.specs.Prelude.{◌≡◌, ◌+◌, ◌-◌, ◌≤◌, IfOk, IfErr, length};
ghost use Rattle.sctp_receiver.specs.declared.receiver.refusal.ReceiverRefusal.TheVariants.{OutOfMemory};

use crate::receiver::Receiver;
use crate::receiver::refusal::ReceiverRefusal;
use sctp_data::chunk::chunk_selective_ack::ChunkSelectiveAck;
use sctp_serial::turns::Turns;

/// The greatest count of gap ack blocks and duplicates in a SACK that fits its length.
pub(crate) const MAX_SACK_ENTRIES: usize = 16379;

impl Receiver {
    ghost use Rattle.sctp_data.specs.SelectiveAck.{sack_of};
    ghost use Rattle.sctp_receiver.specs.Calls.{CountsBlocks, MakesSack, Sacks};
    ghost use Rattle.sctp_receiver.specs.Costs.{IsWithinBlocks};
    ghost use Rattle.sctp_receiver.specs.Receiver.{sack_of_entries, without_duplicates};

    /// The SACK of what came, with the `window` as its credit, in a chunk of at most `room` bytes: its header takes 16, each gap ack
    /// block and each duplicate 4. Gap ack blocks come first, then as many duplicates as fit; these are forgotten, and the others are
    /// kept for the next SACK (RFC 4960 6.2). Refuses only for memory, and changes nothing then.
    pub fn sack(&mut self, room: usize) -> Result<ChunkSelectiveAck, ReceiverRefusal>
        ensures { Sacks room self.old self.new result }
    {
        self.report(room, &mut Turns::new())
    }

    // The same, and its turns are added.
    pub(crate) fn report(
        &mut self,
        room: usize,
        turns: &mut Turns,
    ) -> Result<ChunkSelectiveAck, ReceiverRefusal>
        ensures sacks { Sacks room self.old self.new result }
        ensures cost { CountsBlocks room self.old result turns.old turns.new }
    {
        let sack = self.sack_within(room, turns)?;
        self.filter.forget_duplicates(sack.duplicate_tsn.len());
        Ok(sack)
    }

    /// The SACK that `sack` makes. The receiver stays as it is: whoever sends the SACK calls `sack_sent` then. Refuses only for memory.
    pub fn make_sack(&self, room: usize) -> Result<ChunkSelectiveAck, ReceiverRefusal>
        ensures { MakesSack room self.now result }
    {
        self.sack_within(room, &mut Turns::new())
    }

    // The same, and its turns are added.
    pub(crate) fn sack_within(
        &self,
        room: usize,
        turns: &mut Turns,
    ) -> Result<ChunkSelectiveAck, ReceiverRefusal>
        ensures made { MakesSack room self.now result }
        ensures cost { CountsBlocks room self.now result turns.old turns.new }
    {
        let entries = (room.saturating_sub(16) / 4).min(MAX_SACK_ENTRIES);
        self.sack_of_entries(self.window(), entries, turns)
    }

    // The SACK with so many blocks and duplicates at most. Its turns are added.
    pub(crate) fn sack_of_entries(
        &self,
        credit: u32,
        entries: usize,
        turns: &mut Turns,
    ) -> Result<ChunkSelectiveAck, ReceiverRefusal>
        ensures sack { IfOk result (λ s. sack_of s ≡ sack_of_entries credit entries self.now) }
        ensures fits { IfOk result (λ s.
            length s.gap_ack_blocks.items + length s.duplicate_tsn.items ≤ entries) }
        ensures memory { IfErr result (λ e. e ≡ OutOfMemory) }
        ensures not_back { turns.old ≤ turns.new }
        ensures cost { IfOk result (λ s. IsWithinBlocks (length s.gap_ack_blocks.items)
            (length self.now.beyond) (turns.new - turns.old)) }
        ensures cost_of_blocks { IsWithinBlocks
            (length (sack_of_entries credit entries self.now).gap_ack_blocks)
            (length self.now.beyond) (turns.new - turns.old) }
    {
        let gap_ack_blocks = self
            .filter
            .gap_ack_blocks_within_counted(self.alloc, entries, turns)?;
        let duplicates = self.filter.duplicates();
        let count = duplicates.len().min(entries - gap_ack_blocks.len());
        let mut duplicate_tsn = Vec::new(self.alloc);
        if duplicate_tsn
            .extend_from_slice(&duplicates[..count])
            .is_err()
        {
            return Err(ReceiverRefusal::OutOfMemory);
        }
        Ok(ChunkSelectiveAck {
            cumulative_tsn_ack: self.filter.cumulative_tsn(),
            advertised_receiver_window_credit: credit,
            gap_ack_blocks,
            duplicate_tsn,
        })
    }

    /// A SACK that `make_sack` made was sent: all duplicates are forgotten, those that came since it was
    /// made and those that did not fit too. It takes no memory.
    pub fn sack_sent(&mut self)
        ensures { self.new ≡ without_duplicates self.old }
    {
        let _ = self.filter.take_duplicates(self.alloc);
    }
}
