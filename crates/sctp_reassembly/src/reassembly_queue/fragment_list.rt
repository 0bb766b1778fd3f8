//! The fragments of a message: one by itself, which takes no list, or a list.

ghost use Rattle.std.specs.Prelude.{◌≡◌, ◌<◌, ◌≤◌, [], ◌∷◌, ◌++◌, length, remove, option_to_list, true, false, OnOk, OnErr, IfOk, IfErr, IfNone};
ghost use Rattle.std.specs.List.{insert};
ghost use Rattle.sctp_util.specs.declared.error.Error.TheVariants.{ErrOutOfMemory};
ghost use Rattle.sctp_reassembly.specs.reassembly_queue.FragmentList.{items_of, is_list};
ghost use Rattle.sctp_reassembly.specs.reassembly_queue.Resets.{chunks_past};

use crate::reassembly_queue::fragment::Fragment;
use sctp_util::error::Result;
use sctp_util::util::sna32lte;
use std::alloc::Global;
use std::marker::Model;
use std::{mem, slice};

// For how many fragments a list has room at first, and keeps room in any case.
const FEW: usize = 8;

/// What holds the fragments.
#[derive(Drop)]
pub(crate) enum Stored {
    One(Fragment),
    Many(Vec<Fragment>),
}

/// The fragments of a message. One by itself takes no list.
#[derive(Drop)]
pub(crate) struct FragmentList {
    stored: Stored,
}

impl Model for FragmentList {
    ghost use Rattle.std.specs.Prelude.{List};
    ghost use Rattle.sctp_data.specs.declared.chunk.chunk_payload_data.ChunkPayloadData.{ChunkPayloadData};
    ghost use Rattle.sctp_reassembly.specs.reassembly_queue.FragmentList.{items_of};

    ghost Value = { List ChunkPayloadData };

    ghost view = { λ l. items_of l.stored };
}

impl FragmentList {
    /// These fragments.
    pub(crate) fn of(list: Vec<Fragment>) -> Self
        ensures { result ≡ list.items }
    {
        FragmentList {
            stored: Stored::Many(list),
        }
    }

    /// A fragment by itself. It takes no memory.
    pub(crate) fn one(fragment: Fragment) -> Self
        ensures { result ≡ fragment ∷ [] }
    {
        FragmentList {
            stored: Stored::One(fragment),
        }
    }

    /// The fragments.
    pub(crate) fn as_slice(&self) -> &[Fragment]
        ensures { result.now ≡ self.now }
    {
        slice_of(&self.stored)
    }

    /// The allocator.
    pub(crate) fn alloc(&self) -> Global {
        match &self.stored {
            Stored::One(fragment) => fragment.alloc(),
            Stored::Many(list) => *list.allocator(),
        }
    }

    /// Equal ones, which share their bytes. Refuses only for memory.
    pub(crate) fn try_clone(&self, alloc: Global) -> Result<Self>
        ensures ok { IfOk result (λ copies. copies ≡ self.now) }
        ensures memory { IfErr result (λ e. e ≡ ErrOutOfMemory) }
    {
        let stored = clone_stored(alloc, &self.stored)?;
        Ok(FragmentList { stored })
    }

    /// Puts a fragment at a place, before the one that is there. Beside another one it takes a list.
    /// Refuses only for memory, and the fragments are as they were then.
    pub(crate) fn insert(&mut self, place: usize, fragment: Fragment) -> Result<()>
        requires { place ≤ length self.old }
        ensures ok { OnOk result (self.new ≡ insert self.old place fragment) }
        ensures err { OnErr result (self.new ≡ self.old) }
        ensures memory { IfErr result (λ e. e ≡ ErrOutOfMemory) }
    {
        insert_in(&mut self.stored, place, fragment)
    }

    /// Takes out the fragment at a place. It takes no memory.
    /// Precondition: the place has one.
    pub(crate) fn remove(&mut self, place: usize)
        requires { place < length self.old }
        ensures { self.new ≡ remove self.old place }
    {
        remove_from(&mut self.stored, place);
    }

    /// Keeps the fragments past the TSN. It takes no memory. By no clause a list gives back room for more than `FEW`, and for more than
    /// twice what is left.
    pub(crate) fn keep_past(&mut self, tsn: u32)
        ensures { self.new ≡ chunks_past tsn self.old }
    {
        keep_past(&mut self.stored, tsn);
    }

    /// Takes out the last. It takes no memory.
    pub(crate) fn pop(&mut self) -> Option<Fragment>
        ensures items { self.old ≡ self.new ++ option_to_list result }
        ensures none { IfNone result (self.old ≡ []) }
    {
        pop_from(&mut self.stored)
    }
}

// The fragments.
fn slice_of(stored: &Stored) -> &[Fragment]
    ensures { result.now ≡ items_of stored.now }
{
    match stored {
        Stored::One(fragment) => slice::from_ref(fragment),
        Stored::Many(list) => list.as_slice(),
    }
}

// Equal fragments, which share their bytes.
fn clone_stored(alloc: Global, stored: &Stored) -> Result<Stored>
    ensures ok { IfOk result (λ copies. items_of copies ≡ items_of stored.now) }
    ensures memory { IfErr result (λ e. e ≡ ErrOutOfMemory) }
{
    match stored {
        Stored::One(fragment) => Ok(Stored::One(fragment.try_clone(alloc)?)),
        Stored::Many(list) => Ok(Stored::Many(clone_chunks(alloc, list)?)),
    }
}

// Puts a fragment at a place. Refuses only for memory, and the fragments are as they were then.
fn insert_in(stored: &mut Stored, place: usize, fragment: Fragment) -> Result<()>
    requires { place ≤ length (items_of stored.old) }
    ensures ok { OnOk result (items_of stored.new ≡ insert (items_of stored.old) place fragment) }
    ensures err { OnErr result (items_of stored.new ≡ items_of stored.old) }
    ensures memory { IfErr result (λ e. e ≡ ErrOutOfMemory) }
{
    match stored {
        Stored::Many(list) => put_in(list, place, fragment),
        Stored::One(_) => put_beside(stored, place, fragment),
    }
}

// The same beside one that is by itself. It stands apart, so that what goes into a list stays small.
#[inline(never)]
fn put_beside(stored: &mut Stored, place: usize, fragment: Fragment) -> Result<()>
    requires alone { is_list stored.old ≡ false }
    requires in_range { place ≤ length (items_of stored.old) }
    ensures ok { OnOk result (items_of stored.new ≡ insert (items_of stored.old) place fragment) }
    ensures err { OnErr result (items_of stored.new ≡ items_of stored.old) }
    ensures memory { IfErr result (λ e. e ≡ ErrOutOfMemory) }
{
    let mut list = Vec::with_capacity(fragment.alloc(), FEW)?;
    let alone = take_alone(stored);
    if place == 0 {
        list.push_reserved(fragment);
        list.push_reserved(alone);
    } else {
        list.push_reserved(alone);
        list.push_reserved(fragment);
    }
    *stored = Stored::Many(list);
    Ok(())
}

// Takes out the one that is by itself. It takes no memory.
fn take_alone(stored: &mut Stored) -> Fragment
    requires { is_list stored.old ≡ false }
    ensures value { items_of stored.old ≡ result ∷ [] }
    ensures rest { items_of stored.new ≡ [] }
{
    let alloc = match stored {
        Stored::One(fragment) => fragment.alloc(),
        Stored::Many(_) => unreachable!(),
    };
    match mem::replace(stored, Stored::Many(Vec::new(alloc))) {
        Stored::One(fragment) => fragment,
        Stored::Many(_) => unreachable!(),
    }
}

// Takes out the fragment at a place.
fn remove_from(stored: &mut Stored, place: usize)
    requires { place < length (items_of stored.old) }
    ensures { items_of stored.new ≡ remove (items_of stored.old) place }
{
    match stored {
        Stored::Many(list) => {
            list.remove(place);
        }
        Stored::One(_) => {
            take_alone(stored);
        }
    }
}

// Takes out the last.
fn pop_from(stored: &mut Stored) -> Option<Fragment>
    ensures items { items_of stored.old ≡ items_of stored.new ++ option_to_list result }
    ensures none { IfNone result (items_of stored.old ≡ []) }
{
    match stored {
        Stored::Many(list) => list.pop(),
        Stored::One(_) => Some(take_alone(stored)),
    }
}

// Keeps the fragments past the TSN.
fn keep_past(stored: &mut Stored, tsn: u32)
    ensures { items_of stored.new ≡ chunks_past tsn (items_of stored.old) }
{
    let is_past = match stored {
        Stored::Many(list) => {
            keep_in(list, tsn);
            true
        }
        Stored::One(fragment) => !sna32lte(fragment.tsn, tsn),
    };
    if !is_past {
        take_alone(stored);
    }
}

// The same in a list.
fn keep_in(list: &mut Vec<Fragment>, tsn: u32)
    ensures { list.new.items ≡ chunks_past tsn list.old.items }
{
    list.retain(|c| !sna32lte(c.tsn, tsn));
    list.shrink_to(FEW.max(list.len() * 2));
}

// Puts a fragment at a place, before the one that is there; most go to the end. Refuses only for memory, and nothing changes then.
fn put_in(chunks: &mut Vec<Fragment>, place: usize, chunk: Fragment) -> Result<()>
    requires { place ≤ length chunks.old.items }
    ensures ok { OnOk result (chunks.new.items ≡ insert chunks.old.items place chunk) }
    ensures err { OnErr result (chunks.new.items ≡ chunks.old.items) }
    ensures memory { IfErr result (λ e. e ≡ ErrOutOfMemory) }
{
    if place == chunks.len() {
        chunks.push(chunk)?;
    } else {
        chunks.insert(place, chunk)?;
    }
    Ok(())
}

// Equal fragments, which share their bytes.
fn clone_chunks(alloc: Global, chunks: &[Fragment]) -> Result<Vec<Fragment>>
    ensures ok { IfOk result (λ copies. copies.items ≡ chunks.now) }
    ensures memory { IfErr result (λ e. e ≡ ErrOutOfMemory) }
{
    let mut copies = Vec::with_capacity(alloc, chunks.len())?;
    for chunk in chunks {
        copies.push(chunk.try_clone(alloc)?)?;
    }
    Ok(copies)
}
