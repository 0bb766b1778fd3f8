//! What came is put into a payload queue, or noted as a duplicate.

ghost use Rattle.std.specs.Prelude.{◌≡◌, ◌+◌, ◌-◌, ◌^◌, ◌<◌, ◌≤◌, length, OnErr, IfOk, IsOk, IsOkUnless, IsTrue, if◌then◌else◌};
ghost use Rattle.sctp_util.specs.declared.error.Error.TheVariants.{ErrOutOfMemory};
ghost use Rattle.sctp_outbound.specs.payload_queue.PayloadQueue.{push_chunk, add_duplicate};
ghost use Rattle.sctp_serial.specs.DataChunks.{bytes_of};
ghost use Rattle.sctp_serial.specs.Turns.{IsWithinDigits};
ghost use Rattle.sctp_serial.specs.Window.{IsWindow, is_new};

use super::{PayloadQueue, free_place};
use sctp_data::chunk::chunk_payload_data::ChunkPayloadData;
use sctp_serial::turns::Turns;
use sctp_util::error::Result;
use sctp_util::util::sna32lte;

impl PayloadQueue {
    /// Puts a chunk that came. One that is held, or at or before `cumulative_tsn`, is noted as
    /// a duplicate, which the next SACK reports (RFC 4960 3.3.4); the answer is false then.
    /// Precondition: where the chunk is new (`can_push`), it and all that is held lie at
    /// distance 1 to 2^31 after `cumulative_tsn` (`fits` tells), and the bytes of all are fewer than 2^64.
    /// Refuses only for memory, and a new chunk never within the room of `reserve`. The queue is as it was then.
    #[inline(always)]
    pub fn push(&mut self, chunk: ChunkPayloadData, cumulative_tsn: u32) -> Result<bool>
        requires window { IsTrue (is_new self.old.chunks chunk.tsn cumulative_tsn)
            → IsWindow cumulative_tsn self.old.chunks chunk.tsn }
        requires bytes { IsTrue (is_new self.old.chunks chunk.tsn cumulative_tsn)
            → bytes_of self.old.chunks + length chunk.user_data < 2 ^ 64 }
        ensures answer { IfOk result (λ new. new
            ≡ is_new self.old.chunks chunk.tsn cumulative_tsn) }
        ensures ok { IfOk result (λ new. self.new
            ≡ (if new then push_chunk self.old chunk else add_duplicate self.old chunk.tsn)) }
        ensures err { OnErr result (self.new ≡ self.old) }
        ensures memory { IsOkUnless result ErrOutOfMemory }
        ensures succeeds { 0 < self.old.room
            → IsTrue (is_new self.old.chunks chunk.tsn cumulative_tsn) → IsOk result }
    {
        self.push_counted(chunk, cumulative_tsn, &mut Turns::new())
    }

    /// The same, and its turns are added, refused or not: at most one more than the number of held chunks has binary digits.
    #[inline(always)]
    pub fn push_counted(
        &mut self,
        chunk: ChunkPayloadData,
        cumulative_tsn: u32,
        turns: &mut Turns,
    ) -> Result<bool>
        requires window { IsTrue (is_new self.old.chunks chunk.tsn cumulative_tsn)
            → IsWindow cumulative_tsn self.old.chunks chunk.tsn }
        requires bytes { IsTrue (is_new self.old.chunks chunk.tsn cumulative_tsn)
            → bytes_of self.old.chunks + length chunk.user_data < 2 ^ 64 }
        ensures answer { IfOk result (λ new. new
            ≡ is_new self.old.chunks chunk.tsn cumulative_tsn) }
        ensures ok { IfOk result (λ new. self.new
            ≡ (if new then push_chunk self.old chunk else add_duplicate self.old chunk.tsn)) }
        ensures err { OnErr result (self.new ≡ self.old) }
        ensures memory { IsOkUnless result ErrOutOfMemory }
        ensures succeeds { 0 < self.old.room
            → IsTrue (is_new self.old.chunks chunk.tsn cumulative_tsn) → IsOk result }
        ensures not_back { turns.old ≤ turns.new }
        ensures cost { IsWithinDigits (length self.old.chunks) (turns.new - turns.old - 1) }
    {
        if let Some(place) = free_place(&self.held, chunk.tsn, turns) {
            if !sna32lte(chunk.tsn, cumulative_tsn) {
                self.insert(place, chunk)?;
                return Ok(true);
            }
        }
        self.dup_tsn.push(chunk.tsn)?;
        Ok(false)
    }
}
