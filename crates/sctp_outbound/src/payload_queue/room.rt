//! What leaves a payload queue and gives its place back as room, so that it can come again without memory.

ghost use Rattle.std.specs.Prelude.{◌≡◌, ◌+◌, ◌-◌, ◌≤◌, length, drop, min, take, find};
ghost use Rattle.sctp_outbound.specs.payload_queue.PayloadQueue.{front_with, without_front, without};
ghost use Rattle.sctp_serial.specs.DataChunks.{has_tsn};
ghost use Rattle.sctp_serial.specs.Turns.{IsWithinDigits};

use super::{PayloadQueue, search};
use sctp_data::chunk::chunk_payload_data::ChunkPayloadData;
use sctp_serial::turns::Turns;

impl PayloadQueue {
    /// How many pushes of new TSNs take no memory.
    pub fn room(&self) -> usize
        ensures { result ≡ self.now.room }
    {
        self.held.room()
    }

    /// The front chunk, taken out, if it has this TSN; its place is room then.
    #[inline(always)]
    pub fn pop_leaving_room(&mut self, tsn: u32) -> Option<ChunkPayloadData>
        ensures popped { result ≡ front_with tsn self.old.chunks }
        ensures rest { self.new ≡ record self.old {
          chunks = without_front tsn self.old.chunks;
          room = self.new.room;
        } }
        ensures places { length self.new.chunks + self.new.room
            ≡ length self.old.chunks + self.old.room }
    {
        if self.held.front_tsn() != Some(tsn) {
            return None;
        }
        let chunk = self.held.remove_leaving_room(0);
        self.n_bytes -= chunk.user_data.len();
        Some(chunk)
    }

    /// Takes out the chunk with this TSN, wherever it is; its place is room then.
    pub fn take_leaving_room(&mut self, tsn: u32) -> Option<ChunkPayloadData>
        ensures taken { result ≡ find (has_tsn tsn) self.old.chunks }
        ensures rest { self.new ≡ record self.old {
          chunks = without tsn self.old.chunks;
          room = self.new.room;
        } }
        ensures places { length self.new.chunks + self.new.room
            ≡ length self.old.chunks + self.old.room }
    {
        self.take_leaving_room_counted(tsn, &mut Turns::new())
    }

    /// The same, and its turns are added: at most as many as the number of chunks has binary digits.
    pub fn take_leaving_room_counted(
        &mut self,
        tsn: u32,
        turns: &mut Turns,
    ) -> Option<ChunkPayloadData>
        ensures taken { result ≡ find (has_tsn tsn) self.old.chunks }
        ensures rest { self.new ≡ record self.old {
          chunks = without tsn self.old.chunks;
          room = self.new.room;
        } }
        ensures places { length self.new.chunks + self.new.room
            ≡ length self.old.chunks + self.old.room }
        ensures not_back { turns.old ≤ turns.new }
        ensures cost { IsWithinDigits (length self.old.chunks) (turns.new - turns.old) }
    {
        match search(&self.held, tsn, turns) {
            Ok((place, _)) => {
                let chunk = self.held.remove_leaving_room(place);
                self.n_bytes -= chunk.user_data.len();
                Some(chunk)
            }
            Err(_) => None,
        }
    }

    /// The room is no more than this from here on. The memory is kept, unless nothing is held and the room is 0.
    pub fn limit_room(&mut self, room: usize)
        ensures { self.new ≡ record self.old { room = min room self.old.room } }
    {
        self.held.limit_room(room);
    }

    /// So many of the duplicates, those that were noted first, are noted no more. It takes no memory.
    pub fn forget_duplicates(&mut self, count: usize)
        ensures { self.new ≡ record self.old { duplicates = drop count self.old.duplicates } }
    {
        let end = count.min(self.dup_tsn.len());
        self.dup_tsn.drain(..end);
    }

    /// The duplicate that was noted last is noted no more.
    pub fn forget_last_duplicate(&mut self)
        ensures { self.new ≡ record self.old {
          duplicates = take (length self.old.duplicates - 1) self.old.duplicates;
        } }
    {
        let _ = self.dup_tsn.pop();
    }
}
