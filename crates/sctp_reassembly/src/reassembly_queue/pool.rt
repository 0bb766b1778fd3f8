//! The unassembled fragments of a stream, out of which complete messages are taken.

ghost use Rattle.std.specs.Prelude.{◌≡◌, ℕ, ◌+◌, ◌-◌, ◌*◌, ◌^◌, ◌<◌, ◌≤◌, ◌&&◌, true, [], length, slice_index_or, remove, IfSome, IfNone, drop, OnErr, IfOk, IfErr, MatchOption};
ghost use Rattle.sctp_data.specs.declared.chunk.chunk_payload_data.ChunkPayloadData.{ChunkPayloadData};
ghost use Rattle.sctp_reassembly.specs.reassembly_queue.Costs.{IsAtEnd};
ghost use Rattle.sctp_serial.specs.DataChunks.{bytes_of};
ghost use Rattle.sctp_serial.specs.Runs.{HasNoRun, IsEarliestRun, IsStretch};
ghost use Rattle.sctp_serial.specs.Window.{IsSerial};
ghost use Rattle.sctp_util.specs.declared.error.Error.TheVariants.{ErrOutOfMemory};
ghost use Rattle.sctp_reassembly.specs.reassembly_queue.Loose.{IsRunTaken, IsFlag, with_chunks};

pub(crate) mod undo;

use crate::reassembly_queue::fragment_list::FragmentList;
use crate::reassembly_queue::unassembled::{Loose, find_run, run_around};
use sctp_serial::turns::Turns;
use sctp_util::error::Error;
use std::alloc::{AllocError, Global};
use std::marker::Model;

/// The unassembled fragments, and whether they are known to hold no complete message.
#[derive(Drop)]
pub(crate) struct Pool {
    unassembled: Loose,
    // no complete run was among them when they were last searched
    searched: bool,
}

impl Model for Pool {
    ghost use Rattle.sctp_reassembly.specs.reassembly_queue.Loose.{IsFlag, Unassembled};

    ghost Value = { Unassembled };

    ghost view = { λ p. p.unassembled };

    ghost invariant = { λ p. IsFlag p.searched p.unassembled.chunks };
}

impl Pool {
    /// No fragments. It takes no memory.
    pub(crate) fn new(alloc: Global) -> Self
        ensures { result ≡ record { chunks = []; places = 0 } }
    {
        Pool {
            unassembled: Loose::new(alloc),
            searched: true,
        }
    }

    /// Equal fragments, which share their bytes. Refuses only for memory.
    pub(crate) fn try_clone(&self, alloc: Global) -> Result<Self, Error>
        ensures ok { IfOk result (λ pool. pool ≡ self.now) }
        ensures memory { IfErr result (λ e. e ≡ ErrOutOfMemory) }
    {
        Ok(Pool {
            unassembled: self.unassembled.try_clone(alloc)?,
            searched: self.searched,
        })
    }

    /// The fragments.
    pub(crate) fn unassembled(&self) -> &Loose
        ensures { result.now ≡ self.now }
    {
        &self.unassembled
    }

    /// Drops the first `count`, and its looks are added: one for each that goes, where all stand in serial order, hold no
    /// complete message, and their bytes can be counted.
    /// Precondition: there are so many.
    pub(crate) fn drop_front(&mut self, count: usize, turns: &mut Turns)
        requires { count ≤ length self.old.chunks }
        ensures value { self.new ≡ with_chunks self.old (drop count self.old.chunks) }
        ensures not_back { turns.old ≤ turns.new }
        ensures few { IsSerial self.old.chunks → HasNoRun self.old.chunks
            → bytes_of self.old.chunks < 2 ^ 64 - 1 → turns.new ≤ turns.old + count }
        ensures walk { turns.new ≤ turns.old + count + 3 * length self.old.chunks }
    {
        self.unassembled.drop_front_counted(count, turns);
        self.searched = is_searched(self.searched, &self.unassembled, turns);
    }

    /// Takes out the run that ends earliest, if there is one. Refuses only for memory, and nothing changes then.
    pub(crate) fn take_run(&mut self, alloc: Global) -> Result<Option<FragmentList>, AllocError>
        ensures ok { IfOk result (λ run. MatchOption run
            (HasNoRun self.new.chunks × (self.new ≡ self.old)) (λ chunks. IsRunTaken self.old.chunks self.new.chunks chunks
            × (self.new.places ≡ self.old.places))) }
        ensures err { OnErr result (self.new ≡ self.old) }
    {
        let mut turns = Turns::new();
        let Some((first, count)) = find_run(&self.unassembled, &mut turns) else {
            self.searched = true;
            return Ok(None);
        };
        let chunks = self
            .unassembled
            .take_run_counted(alloc, first, count, &mut turns)?;
        self.searched = is_searched(false, &self.unassembled, &mut turns);
        Ok(Some(chunks))
    }
}

// Whether it is known that no complete run is left once that of a new fragment was taken: in serial order none arises by it.
fn is_known(searched: bool, serial: bool) -> bool
    ensures { result ≡ (searched && serial) }
{
    searched && serial
}

// Whether no complete run is left, where it is known that none is, or all are looked at in serial order.
fn is_searched(known: bool, left: &Loose, turns: &mut Turns) -> bool
    requires { known ≡ true → HasNoRun left.now.chunks }
    ensures flag { IsFlag result left.now.chunks }
    ensures not_back { turns.old ≤ turns.new }
    ensures none { known ≡ true → turns.new ≡ turns.old }
    ensures walk { turns.new ≤ turns.old + length left.now.chunks }
{
    if known {
        return true;
    }
    if !left.is_serial() {
        return false;
    }
    match find_run(left, turns) {
        Some(_) => false,
        None => true,
    }
}

// The run that ends earliest. Where none was there before the fragment at the place, only the runs that hold it are looked for.
fn search(
    unassembled: &Loose,
    searched: bool,
    place: usize,
    turns: &mut Turns,
) -> Option<(usize, usize)>
    requires in_range { place < length unassembled.now.chunks }
    requires flag { IsFlag searched (remove unassembled.now.chunks place) }
    ensures found { IfSome result (λ run. IsEarliestRun unassembled.now.chunks run.0 run.1) }
    ensures none { IfNone result (HasNoRun unassembled.now.chunks) }
    ensures not_back { turns.old ≤ turns.new }
    ensures cost { (first last : ℕ) → IsSerial unassembled.now.chunks
        → HasNoRun (remove unassembled.now.chunks place)
        → IsStretch unassembled.now.chunks place first last
        → turns.new ≤ turns.old + (last + 1 - first) + 1 }
    ensures few { (x : ChunkPayloadData) (first last : ℕ) → IsSerial unassembled.now.chunks
        → HasNoRun (remove unassembled.now.chunks place)
        → IsStretch unassembled.now.chunks place first last
        → ((d : ChunkPayloadData) → slice_index_or unassembled.now.chunks place d ≡ x)
        → IsAtEnd x place first last → turns.new ≤ turns.old + 3 }
    ensures walk { turns.new ≤ turns.old + length unassembled.now.chunks + 1 }
{
    if searched {
        run_around(unassembled, place, turns)
    } else {
        find_run(unassembled, turns)
    }
}
