//! A fragment put among the unassembled ones so that it can be taken back.

ghost use Rattle.std.specs.Prelude.{◌≡◌, ℕ, ◌+◌, ◌-◌, ◌*◌, ◌^◌, ◌<◌, ◌≤◌, [], length, insert, max, OnOk, OnErr, IfOk, IfErr, MatchOption};
ghost use Rattle.sctp_util.specs.declared.error.Error.TheVariants.{ErrOutOfMemory};
ghost use Rattle.sctp_util.specs.Lists.{insert_before};
ghost use Rattle.sctp_serial.specs.DataChunks.{bytes_of, chunk_before};
ghost use Rattle.sctp_serial.specs.Runs.{HasNoRun, IsStretch};
ghost use Rattle.sctp_serial.specs.Window.{IsSerial};
ghost use Rattle.sctp_reassembly.specs.reassembly_queue.Loose.{IsRunTaken, place_among};
ghost use Rattle.sctp_reassembly.specs.reassembly_queue.Costs.{IsAtEnd};
ghost use Rattle.sctp_reassembly.specs.reassembly_queue.PoolUndo.{CanUndoPut, pool_undone};

use crate::reassembly_queue::fragment_list::FragmentList;
use crate::reassembly_queue::pool::{Pool, is_known, is_searched, search};
use crate::reassembly_queue::unassembled::InsertionUndo;
use sctp_data::chunk::chunk_payload_data::ChunkPayloadData;
use sctp_serial::turns::Turns;
use sctp_util::error::Result;
use std::alloc::Global;

/// What `put_undoable` did.
#[derive(Clone, Copy)]
pub(crate) struct PoolUndo {
    put: InsertionUndo,
    // as it was
    searched: bool,
}

impl Pool {
    /// Puts a fragment before the first that it comes before, and takes out the run
    /// that ends earliest, if there is one. Answers that run's fragments, and what takes it all back with them.
    /// Its looks are added: two for each other fragment of the stretch that it joins, and seven more at most, where all stand in serial
    /// order, none was complete, and their bytes can be counted; and seven at most where it stands at an end of that (`IsAtEnd`).
    /// Precondition: `place` is that place.
    /// Refuses only for memory, and nothing changes then.
    pub(crate) fn put_undoable(
        &mut self,
        alloc: Global,
        place: usize,
        chunk: ChunkPayloadData,
        turns: &mut Turns,
    ) -> Result<(Option<FragmentList>, PoolUndo)>
        requires { place ≡ place_among chunk.tsn self.old.chunks }
        ensures ok { IfOk result (λ r.
            MatchOption r.0 (HasNoRun self.new.chunks
            × (self.new.chunks ≡ insert_before chunk_before chunk self.old.chunks))
            (λ chunks. IsRunTaken
            (insert_before chunk_before chunk self.old.chunks) self.new.chunks chunks)) }
        ensures places { OnOk result (self.new.places
            ≡ max self.old.places (length self.old.chunks + 1)) }
        ensures undo { IfOk result (λ r. MatchOption r.0 (pool_undone r.1 [] self.new ≡ self.old)
            (λ chunks. pool_undone r.1 chunks self.new ≡ self.old)) }
        ensures can { IfOk result (λ r. MatchOption r.0 (CanUndoPut r.1 [] self.new)
            (λ chunks. CanUndoPut r.1 chunks self.new)) }
        ensures err { OnErr result (self.new ≡ self.old) }
        ensures memory { IfErr result (λ e. e ≡ ErrOutOfMemory) }
        ensures not_back { turns.old ≤ turns.new }
        ensures cost { (first last : ℕ) → IsSerial (insert self.old.chunks place chunk)
            → HasNoRun self.old.chunks
            → bytes_of self.old.chunks + length chunk.user_data < 2 ^ 64 - 1
            → IsStretch (insert self.old.chunks place chunk) place first last
            → turns.new ≤ turns.old + 2 * (last - first) + 7 }
        ensures few { (first last : ℕ) → IsSerial (insert self.old.chunks place chunk)
            → HasNoRun self.old.chunks
            → bytes_of self.old.chunks + length chunk.user_data < 2 ^ 64 - 1
            → IsStretch (insert self.old.chunks place chunk) place first last
            → IsAtEnd chunk place first last → turns.new ≤ turns.old + 7 }
        ensures walk { turns.new ≤ turns.old + 5 * length self.old.chunks + 10 }
    {
        let flags = self.unassembled.flags();
        let searched = self.searched;
        self.unassembled
            .insert_counted(alloc, place, chunk, searched, turns)?;
        let serial = self.unassembled.is_serial();
        let Some((first, count)) = search(&self.unassembled, searched, place, turns) else {
            self.searched = true;
            let put = InsertionUndo::new(place, 0, flags);
            return Ok((None, PoolUndo { put, searched }));
        };
        match self
            .unassembled
            .take_run_counted(alloc, first, count, turns)
        {
            Ok(chunks) => {
                let known = is_known(searched, serial);
                self.searched = is_searched(known, &self.unassembled, turns);
                let put = InsertionUndo::new(place, first, flags);
                Ok((Some(chunks), PoolUndo { put, searched }))
            }
            Err(e) => {
                let put = InsertionUndo::new(place, 0, flags);
                self.unassembled.put_back(put, Vec::new(alloc));
                Err(e.into())
            }
        }
    }

    /// Takes back what `put_undoable` did, where the fragments of the run that it answered are given back. It takes no memory. A turn is
    /// added for each of these.
    /// Precondition: `CanUndoPut`, which that call promises of what it left.
    pub(crate) fn undo_put(&mut self, undo: PoolUndo, run: FragmentList, turns: &mut Turns)
        requires { CanUndoPut undo run self.old }
        ensures value { self.new ≡ pool_undone undo run self.old }
        ensures turns { turns.new ≡ turns.old + length run }
    {
        let PoolUndo { put, searched } = undo;
        self.unassembled.put_back_counted(put, run, turns);
        self.searched = searched;
    }
}
